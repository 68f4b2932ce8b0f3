//! Items of bullet lists and of enumerated lists (Markup Specification, 'Bullet Lists', 'Enumerated Lists').
ghost use Rattle.rst_text.specs.ViewBlock.{block_of};
ghost use Rattle.rst_markup_blocks.specs.declared.begun.Begun.TheVariants.{Bullet, Enumerator as ItemEnumerator};
ghost use Rattle.rst_block_body.specs.ReadSteps.{BeginsAt, IsReadStep};

use super::item::{Item, enter_list};
use rst_block_state::{OpenBlock, Pass, Result, Step, Waits, item_part, number_at};
use rst_markup_lines::{Enumerator, Marker};
use rst_text::View;

/// An item of a bullet list.
pub fn bullet_item(
    view: &View<'_>,
    level: &mut OpenBlock,
    mark: char,
    marker: Marker,
    pass: &mut Pass,
) -> Result<Step>
    requires { BeginsAt (block_of view.now) level.old (Bullet mark marker) }
    ensures { IsReadStep 29 (block_of view.now) level.old pass.old level.new pass.new result }
{
    let line = number_at(view, level.at);
    let body = item_part(view, level.at, marker, &mut pass.looks);
    enter_list(view, level, Item::Bullet { mark, marker }, body, pass)?;
    Ok(level.open(body.to, body, Waits::ListItem { line }))
}

/// An item of an enumerated list.
pub fn enumerated_item(
    view: &View<'_>,
    level: &mut OpenBlock,
    enumerator: Enumerator,
    pass: &mut Pass,
) -> Result<Step>
    requires { BeginsAt (block_of view.now) level.old (ItemEnumerator enumerator) }
    ensures { IsReadStep 29 (block_of view.now) level.old pass.old level.new pass.new result }
{
    let line = number_at(view, level.at);
    let body = item_part(view, level.at, enumerator.marker, &mut pass.looks);
    enter_list(view, level, Item::Enumerated(enumerator), body, pass)?;
    Ok(level.open(body.to, body, Waits::ListItem { line }))
}
