//! Items of option lists (Markup Specification, 'Option Lists').
ghost use Rattle.std.specs.Prelude.{◌≡◌, IfOk};
ghost use Rattle.std.specs.Str.{chars};
ghost use Rattle.rst_text.specs.ViewBlock.{block_of};
ghost use Rattle.rst_block_state.specs.Lists as lists;
ghost use Rattle.rst_markup_blocks.specs.declared.begun.Begun.TheVariants.{OptionItem};
ghost use Rattle.rst_block_body.specs.ReadSteps.{BeginsAt, IsReadStep};

use super::item::{Item, enter_list};
use rst_block_nodes::{element_of, option};
use rst_block_state::{OpenBlock, Pass, Result, Step, Waits, excerpt_after, hanging, number_at};
use rst_markup_lines::{Marker, listed_options};
use rst_text::{View, skip};
use rst_tree::{Attrs, Node, Tag};
use std::alloc::{AllocError, Global};

/// An item of an option list.
pub fn option_item(
    view: &View<'_>,
    level: &mut OpenBlock,
    marker: Marker,
    pass: &mut Pass,
) -> Result<Step>
    requires { BeginsAt (block_of view.now) level.old (OptionItem marker) }
    ensures { IsReadStep 29 (block_of view.now) level.old pass.old level.new pass.new result }
{
    let at = level.at;
    let line = number_at(view, at);
    let group = option_group(pass.alloc, view.line(at, &mut pass.looks), line)?;
    let body = hanging(view, at, marker, &mut pass.looks);
    enter_list(view, level, Item::OptionItem(marker), body, pass)?;
    let mut heads = Vec::with_capacity(pass.alloc, 2)?;
    heads.push(group)?;
    let waits = Waits::ListedBody {
        line,
        item: Tag::OptionListItem,
        body: Tag::Description,
        heads,
        notes: Vec::new(pass.alloc),
    };
    Ok(level.open(body.to, body, waits))
}

/// The options at the front of a line.
fn option_group(alloc: Global, text: &str, line: usize) -> Result<Node, AllocError>
    ensures { IfOk result (λ node. node ≡ lists.option_group (chars text.now) line) }
{
    let mut options = Vec::new(alloc);
    let mut rest = text;
    let mut passed = 0;
    for listed in listed_options(alloc, text)? {
        let from = listed.string.from;
        rest = skip(rest, from.saturating_sub(passed));
        passed = passed.max(from);
        let string = excerpt_after(alloc, text, rest, passed, listed.string)?;
        let made = match listed.argument {
            Some(argument) => {
                let written = excerpt_after(alloc, text, rest, passed, argument.text)?;
                let argument = Some((argument.delimiter, written.as_str()));
                option(alloc, string.as_str(), argument, line)?
            }
            None => option(alloc, string.as_str(), None, line)?,
        };
        options.push(made)?;
    }
    Ok(element_of(Tag::OptionGroup, Attrs::new(alloc), options, line))
}
