//! Items of definition lists (Markup Specification, 'Definition Lists').
ghost use Rattle.std.specs.Prelude.{◌≡◌, ◌<◌, length, drop};
ghost use Rattle.rst_text.specs.ViewBlock.{block_of};
ghost use Rattle.rst_text.specs.Block.{first_text};
ghost use Rattle.rst_markup_blocks.specs.Conditions.{next_text};
ghost use Rattle.rst_markup_blocks.specs.Forms.{text_form};
ghost use Rattle.rst_markup_blocks.specs.declared.form.TextForm.TheVariants.{Definition};
ghost use Rattle.rst_block_state.specs.machine.NextLine.{IsText};
ghost use Rattle.rst_block_body.specs.ReadSteps.{IsReadStep};

use super::item::{Item, enter_list};
use rst_block_nodes::term_and_classifiers;
use rst_block_state::{OpenBlock, Pass, Result, Step, Waits, indented, number_at};
use rst_text::View;
use rst_tree::{Node, Tag};

/// An item of a definition list. The messages that explain why its term is a text come before the whole list.
pub fn definition(
    view: &View<'_>,
    level: &mut OpenBlock,
    infos: Vec<Node>,
    pass: &mut Pass,
) -> Result<Step>
    requires inside { level.old.at < length (block_of view.now) }
    requires text { IsText level.old (block_of view.now) infos.items }
    requires form { let X = drop level.old.at (block_of view.now) in text_form (first_text X) (next_text X) ≡ Definition }
    ensures { IsReadStep 25 (block_of view.now) level.old pass.old level.new pass.new result }
{
    let at = level.at;
    let line = number_at(view, at);
    let body = indented(view, at + 1, &mut pass.looks);
    enter_list(view, level, Item::Definition(infos), body, pass)?;
    let term = view.line(at, &mut pass.looks);
    let parts = view.parts(at);
    let heads = term_and_classifiers(pass.alloc, parts, term, line, &mut pass.numbers)?;
    let waits = Waits::ListedBody {
        line,
        item: Tag::DefinitionListItem,
        body: Tag::Definition,
        heads: heads.heads,
        notes: heads.notes,
    };
    Ok(level.open(body.to, body, waits))
}
