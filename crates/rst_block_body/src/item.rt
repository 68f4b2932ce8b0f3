//! The lists of items: an item is in the list that is open before it, or begins one.
ghost use Rattle.std.specs.Prelude.{◌≡◌, ◌<◌, length, drop, option_map, IfOk};
ghost use Rattle.std.specs.Option.{option_and_then};
ghost use Rattle.rst_text.specs.Block.{Block, first_number};
ghost use Rattle.rst_text.specs.Looked.{Looked};
ghost use Rattle.rst_text.specs.ViewBlock.{block_of};
ghost use Rattle.rst_block_state.specs.Constructs.{item_of_list};
ghost use Rattle.rst_block_state.specs.Joins.{list_joining, list_joining_after};
ghost use Rattle.rst_block_state.specs.Lists as lists;
ghost use Rattle.rst_block_state.specs.Lists.{infos_of};
ghost use Rattle.rst_block_state.specs.machine.Meanings.{Keeps, joining_in, list_kind_in, open_run_of, reads};
ghost use Rattle.rst_block_state.specs.machine.OpenBlocks.{HasRun, with_infos};
ghost use Rattle.rst_block_body.specs.Items.{HasList, IsNextItem, item_comes, mark_of};

use rst_block_nodes::{append, bullet_list, enumerated_list, start_message};
use rst_block_state::{
    ListKind, OpenBlock, Pass, Result, Run, Sequel, alone, characters, number_at,
};
use rst_markup_blocks::Part;
use rst_markup_lines::{Enumerator, FieldMark, Format, Marker, first_reading};
use rst_text::View;
use rst_tree::{Node, Tag};
use std::alloc::{AllocError, Global};

/// An item of a list, by its mark.
#[derive(Drop)]
pub enum Item {
    Bullet { mark: char, marker: Marker },
    Enumerated(Enumerator),
    /// It has no mark. These messages explain why its term is a text.
    Definition(Vec<Node>),
    Field(FieldMark),
    OptionItem(Marker),
}

/// Has the list open that an item is in: that before the next line, or a new one. The item's lines are this part.
// Where it is called the kind of item is known.
#[inline(always)]
pub fn enter_list(
    view: &View<'_>,
    level: &mut OpenBlock,
    item: Item,
    body: Part,
    pass: &mut Pass,
) -> Result<()>
    requires inside { level.old.at < length (block_of view.now) }
    requires next { IsNextItem level.old (block_of view.now) (mark_of item) body }
    ensures list { IfOk result (λ _. HasList level.old level.new) }
    ensures later { IfOk result (λ _. level.new.at < body.to) }
    ensures read { Keeps result (λ _. item_comes (mark_of item) body.to level.new (block_of view.now) pass.new.numbers)
        (reads level.old (block_of view.now) pass.old.numbers) }
    ensures looked { Looked 0 2 pass.old.looks pass.new.looks }
{
    if let Some(kind) = going_on(&level.run, &item) {
        level.join(kind, body.to);
        return Ok(put_infos(level, item)?);
    }
    let at = level.at;
    level.close(view, pass)?;
    let list = empty_list(pass.alloc, &item, number_at(view, at))?;
    level.begin(pass.alloc, kind_of(&item), list, body.to)?;
    let notes = start_notes(view, at, &item, pass)?;
    if let Run::List(open) = &mut level.run {
        open.messages_after = notes;
    }
    Ok(put_infos(level, item)?)
}

/// The kind with which the open list goes on after an item, if that joins it.
fn going_on(run: &Run, item: &Item) -> Option<ListKind>
    ensures { option_map (λ kind. joining_in kind) result
        ≡ option_and_then (λ kind. list_joining_after (joining_in kind) (mark_of item.now)) (list_kind_in run.now) }
{
    let kind = run.list_kind()?;
    match (item, kind) {
        (Item::Bullet { mark, .. }, ListKind::Bullet(open)) if open == *mark => Some(kind),
        (Item::Enumerated(enumerator), ListKind::Enumerated(sequel)) => {
            Some(ListKind::Enumerated(sequel.after(*enumerator)?))
        }
        (Item::Definition(_), ListKind::Definition)
        | (Item::Field(_), ListKind::Field)
        | (Item::OptionItem(_), ListKind::OptionItem) => Some(kind),
        _ => None,
    }
}

/// Puts the messages that explain why the term of an item is a text before the open list.
fn put_infos(level: &mut OpenBlock, item: Item) -> Result<(), AllocError>
    ensures { let infos = infos_of (item_of_list (mark_of item)) in
        IfOk result (λ _. HasRun level.old level.new (with_infos infos (open_run_of level.old.run))) }
{
    match (item, &mut level.run) {
        (Item::Definition(infos), Run::List(open)) => append(&mut open.before, infos),
        _ => Ok(()),
    }
}

/// The kind of the list that an item begins.
fn kind_of(item: &Item) -> ListKind
    ensures { joining_in result ≡ list_joining (mark_of item.now) }
{
    match item {
        Item::Bullet { mark, .. } => ListKind::Bullet(*mark),
        Item::Enumerated(enumerator) => ListKind::Enumerated(Sequel::of(*enumerator)),
        Item::Definition(_) => ListKind::Definition,
        Item::Field(_) => ListKind::Field,
        Item::OptionItem(_) => ListKind::OptionItem,
    }
}

/// That list without its items; its first line has this number.
fn empty_list(alloc: Global, item: &Item, line: usize) -> Result<Node, AllocError>
    ensures { (X : Block) → line ≡ first_number X → IfOk result (λ list. list ≡ lists.empty_list (mark_of item.now) X) }
{
    match item {
        Item::Bullet { mark, .. } => bullet_list(alloc, *mark, line),
        Item::Enumerated(enumerator) => enumerated_list(alloc, *enumerator, line),
        Item::Definition(_) => Ok(Node::element(alloc, Tag::DefinitionList, line)),
        Item::Field(_) => Ok(Node::element(alloc, Tag::FieldList, line)),
        Item::OptionItem(_) => Ok(Node::element(alloc, Tag::OptionList, line)),
    }
}

/// The message on a list whose first item, in the line at this place, has another ordinal than the first.
fn start_notes(
    view: &View<'_>,
    at: usize,
    item: &Item,
    pass: &mut Pass,
) -> Result<Vec<Node>, AllocError>
    requires { at < length (block_of view.now) }
    ensures notes { IfOk result (λ notes. notes.items ≡ lists.list_notes (mark_of item.now) (drop at (block_of view.now))) }
    ensures numbers { pass.new.numbers ≡ pass.old.numbers }
    ensures looked { Looked 0 1 pass.old.looks pass.new.looks }
{
    let Item::Enumerated(enumerator) = item else {
        return Ok(Vec::new(pass.alloc));
    };
    let ordinal = first_reading(enumerator.written.ordinals).ordinal;
    if ordinal == 1 {
        return Ok(Vec::new(pass.alloc));
    }
    let from = match enumerator.format {
        Format::Parentheses => 1,
        _ => 0,
    };
    let text = view.line(at, &mut pass.looks);
    let written = characters(pass.alloc, text, from, enumerator.written.len)?;
    let note = start_message(pass.alloc, written.as_str(), ordinal, number_at(view, at))?;
    alone(pass.alloc, note)
}
