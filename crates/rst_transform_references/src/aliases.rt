//! The names of aliases: a phrase that refers to a name leaves a target with its own name.
ghost use Rattle.std.specs.Prelude.{IfOk, ◌≡◌, MatchOption, None, Some};
ghost use Rattle.rst_transform_names.specs.Names.{entry_named, AreRegistered};
ghost use Rattle.rst_transform_references.specs.Aliases.{alias_name, keeps_name, with_alias};

use crate::chains::is_indirect;
use crate::footnotes::is_noted;
use crate::holders::holder_place;
use crate::links::Links;
use rst_transform_names::{Holder, NameEntry, Names, Strength};
use rst_transform_work::{has, number_of_attribute, text_of_attribute};
use rst_tree::{Key, Node, Result, Text};
use std::alloc::Global;

/// The name of an alias, by the target that it leaves: an indirect one in a text.
fn alias_name<'a>(node: &'a Node) -> Option<&'a str>
    ensures { MatchOption result (alias_name node.now ≡ None) (λ name. alias_name node.now ≡ Some name.now) }
{
    if !is_indirect(node) || !has(node, Key::Inline) {
        return None;
    }
    text_of_attribute(node, Key::OwnName)
}

/// Whether a name stays with its holder though the alias at a place has it: with a footnote or a citation, and with an indirect target or an alias
/// before it.
fn keeps_name(
    names: &Names,
    places: &[Option<usize>],
    links: &Links<'_>,
    place: usize,
    name: &str,
) -> bool
    ensures { result ≡ keeps_name places.now links.now place (entry_named names.now name.now) }
{
    let Some(known) = names.get(name) else {
        return false;
    };
    match holder_place(places, known.holder) {
        Some(holder) => {
            let node = links.node(holder);
            is_noted(node) || (holder < place && is_indirect(node))
        }
        None => false,
    }
}

/// Lets the name of the alias at a place, if one is there, mean that alias (Markup Specification, 'Embedded URIs and Aliases').
pub fn hold_alias(
    alloc: Global,
    names: &mut Names,
    places: &[Option<usize>],
    links: &Links<'_>,
    place: usize,
) -> Result<()>
    ensures { IfOk result (λ _. AreRegistered names.new (with_alias places.now links.now place (entry_named names.old))) }
{
    let node = links.node(place);
    let Some(name) = alias_name(node) else {
        return Ok(());
    };
    let Some(serial) = number_of_attribute(node, Key::Serial) else {
        return Ok(());
    };
    if keeps_name(names, places, links, place, name) {
        return Ok(());
    }
    let entry = NameEntry {
        holder: Holder::Element(serial),
        strength: Strength::Explicit,
        id: Text::new(String::new(alloc)),
        uri: None,
    };
    names.hold(alloc, name, entry)
}
