//! Fields (Markup Specification, 'Field Lists').
ghost use Rattle.rst_text.specs.ViewBlock.{block_of};
ghost use Rattle.rst_markup_blocks.specs.declared.begun.Begun.TheVariants.{Field};
ghost use Rattle.rst_block_body.specs.ReadSteps.{BeginsAt, IsReadStep};

use super::item::{Item, enter_list};
use rst_block_nodes::with_text;
use rst_block_state::{OpenBlock, Pass, Result, Step, Waits, excerpt, hanging, number_at};
use rst_markup_lines::FieldMark;
use rst_text::View;
use rst_tree::Tag;

/// A field.
pub fn field(
    view: &View<'_>,
    level: &mut OpenBlock,
    mark: FieldMark,
    pass: &mut Pass,
) -> Result<Step>
    requires { BeginsAt (block_of view.now) level.old (Field mark) }
    ensures { IsReadStep 29 (block_of view.now) level.old pass.old level.new pass.new result }
{
    let at = level.at;
    let line = number_at(view, at);
    let body = hanging(view, at, mark.marker, &mut pass.looks);
    enter_list(view, level, Item::Field(mark), body, pass)?;
    let name = excerpt(pass.alloc, view.line(at, &mut pass.looks), mark.name)?;
    let text = name.as_str();
    let parts = view.parts(at);
    let numbers = &mut pass.numbers;
    let name = with_text(pass.alloc, parts, Tag::FieldName, line, text, line, numbers)?;
    let mut heads = Vec::with_capacity(pass.alloc, 2)?;
    heads.push(name.element)?;
    let waits = Waits::ListedBody {
        line,
        item: Tag::Field,
        body: Tag::FieldBody,
        heads,
        notes: name.notes,
    };
    Ok(level.open(body.to, body, waits))
}
