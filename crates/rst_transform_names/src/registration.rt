//! The registration of a document's elements.
ghost use Rattle.std.specs.Prelude.{IfOk};
ghost use Rattle.rst_transform_names.specs.Registering.{registration, IsRegistered};

use super::ids::Ids;
use super::names::Names;
use super::placing::place_name_messages;
use super::registry::registry_of;
use super::writing::Writing;
use rst_tree::{Node, Result};
use rst_tree_index::Marked;
use std::alloc::Global;

/// A document whose elements have their ids and names.
#[derive(Drop)]
pub struct Registered {
    /// The document.
    pub root: Node,
    /// The ids of its elements.
    pub ids: Ids,
    /// The names of its elements.
    pub names: Names,
    /// How many of the registered elements may have names; their numbers (`Key::Serial`) are those below it.
    pub serials: u64,
}

/// Registers a document's elements in preorder: each gets a number, unless it is a message or a problematic, which have no names, those of 'ids'
/// (Document Tree) their id, those with a name the name, or the duplicate name where another one has it, and equal names
/// their messages.
///
/// Sections and tables of contents give their names implicitly, other elements explicitly; of two elements with equal names the rules of
/// 'Implicit Hyperlink Targets' (reStructuredText Markup Specification) decide which keeps it. A table gets its name only if no element before
/// it was written with it. Of substitution definitions with
/// equal names the last keeps it.
///
/// ```text
/// <section>               <section dupnames="a" ids="a">
///     <title>                 <title>
///         A                       A
///     <target>                <system_message backrefs="a-1" level="1" ..>
///                                 <paragraph>
///                                     Duplicate implicit target name: "a".
///                             <target ids="a-1" names="a">
/// ```
///
/// `messages` numbers were given to its messages, from 0 on.
///
/// Fails only if memory runs out.
pub fn register(alloc: Global, document: Marked, messages: u64) -> Result<Registered>
    ensures { IfOk result (IsRegistered (registration messages document)) }
{
    let elements = document.elements(alloc)?;
    let registry = registry_of(alloc, &elements, messages)?;
    drop(elements);
    let serials = registry.standings.len() as u64;
    let mut writing = Writing::of(alloc, registry.standings, registry.known_messages);
    let written = document.visit(&mut writing)?;
    Ok(Registered {
        root: place_name_messages(alloc, written, registry.name_messages.as_slice())?,
        ids: registry.ids,
        names: registry.names,
        serials,
    })
}
