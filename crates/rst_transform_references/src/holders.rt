//! The places of the linked elements that have names.
ghost use Rattle.std.specs.Prelude.{IfOk, ◌≡◌};
ghost use Rattle.rst_transform_names.specs.Names.{entry_named};
ghost use Rattle.rst_transform_references.specs.Holders.{holder_place, is_nobody, named_place, places_by_number};

use crate::links::Links;
use rst_transform_names::{Holder, NameEntry, Names};
use rst_transform_work::{at_place, number_of_attribute, put_at, text_of_attribute};
use rst_tree::{Key, Node, Result};
use std::alloc::Global;

/// The places of the elements by their numbers, which are below a bound.
pub fn places_by_number(
    alloc: Global,
    links: &Links<'_>,
    serials: u64,
) -> Result<Vec<Option<usize>>>
    ensures { IfOk result (λ places. places.items ≡ places_by_number serials links.now) }
{
    let mut places = vec![in alloc; None; serials as usize]?;
    for place in 0..links.len() {
        if let Some(serial) = number_of_attribute(links.node(place), Key::Serial) {
            put_at(&mut places, serial as usize, Some(place));
        }
    }
    Ok(places)
}

/// The place of a holder, if it is a linked element.
pub fn holder_place(places: &[Option<usize>], holder: Holder) -> Option<usize>
    ensures { result ≡ holder_place places.now holder }
{
    match holder {
        Holder::Element(serial) => at_place(places, serial as usize),
        Holder::Nobody | Holder::Unregistered => None,
    }
}

/// Whether elements with equal names lost a name, so that none holds it.
pub fn is_lost(known: &NameEntry) -> bool
    ensures { result ≡ is_nobody known.now.holder }
{
    matches!(known.holder, Holder::Nobody)
}

/// The place of the element that has the name which an element refers to.
pub fn named_place(names: &Names, places: &[Option<usize>], node: &Node) -> Option<usize>
    ensures { result ≡ named_place (entry_named names.now) places.now node.now }
{
    let known = names.get(text_of_attribute(node, Key::Refname)?)?;
    holder_place(places, known.holder)
}
