//! How much the definitions come to when they are expanded, measured once for each.
ghost use Rattle.std.specs.Prelude.{◌≡◌, ◌≤◌, MatchOption, IfOk, OnOk};
ghost use Rattle.std.specs.List.{list_all};
ghost use Rattle.rst_transform_substitutions.specs.Definitions.{AreAlike};
ghost use Rattle.rst_transform_substitutions.specs.Sizes.{is_above, AreSized, IsMeasured, IsSize, IsSizeOfReference};

use crate::definitions::Definitions;
use crate::expansion::{
    MOST_NESTED, MOST_VISITED, characters_in, expanded_alone, is_substitution_reference,
};
use rst_transform_work::{item_at, put_at, text_or_empty};
use rst_tree::{Children, Key, Node, Result, Text};
use std::alloc::Global;

/// How much nodes come to.
#[derive(Clone, Copy)]
pub struct Size {
    /// How many nodes and characters are visited.
    pub visited: usize,
    /// How many definitions are gone into, each found in the one before.
    pub nested: usize,
}

/// What is measured of a definition.
#[derive(Drop)]
pub struct Measured {
    /// How much its nodes come to, up to the first reference that isn't known to be replaced.
    pub size: Size,
    /// The name in that reference, if there is one.
    pub stuck: Option<Text>,
    /// The nodes that replace a reference to it, if they are known.
    pub copy: Option<Children>,
}

/// Measures the definitions at some places, of which each comes after those that it refers to.
pub fn measure(alloc: Global, definitions: &mut Definitions, order: &[usize]) -> Result<()>
    ensures alike { OnOk result (AreAlike definitions.old definitions.new) }
    ensures sized { IfOk result (λ _. AreSized definitions.new) }
{
    let count = definitions.contents.len();
    definitions.measured = Vec::with_capacity(alloc, count)?;
    for _done in 0..count {
        definitions.measured.push(None)?;
    }
    for place in order {
        if item_at(&definitions.measured, *place).is_some() {
            continue;
        }
        let Some(content) = definitions.content(*place) else {
            continue;
        };
        let one = measure_one(alloc, definitions, *place, content)?;
        put_at(&mut definitions.measured, *place, Some(one));
    }
    Ok(())
}

/// What is measured of the definition at a place, by those that are measured already.
fn measure_one(
    alloc: Global,
    definitions: &Definitions,
    place: usize,
    content: &Children,
) -> Result<Measured>
    requires { AreSized definitions.now }
    ensures { IfOk result (IsMeasured definitions.now content.now) }
{
    let mut size = Size {
        visited: 0,
        nested: 0,
    };
    let stuck = add_size(alloc, definitions, content, &mut size)?;
    let fits = stuck.is_none() && size.visited <= MOST_VISITED && size.nested < MOST_NESTED;
    if !fits {
        return Ok(Measured {
            size,
            stuck,
            copy: None,
        });
    }
    let copy = expanded_alone(alloc, definitions, place, content)?;
    Ok(Measured { size, stuck, copy })
}

/// Adds the size of nodes to that of others, up to the first reference that isn't known to be replaced, and gives the name in it.
fn add_size(
    alloc: Global,
    definitions: &Definitions,
    nodes: &Children,
    size: &mut Size,
) -> Result<Option<Text>>
    requires { AreSized definitions.now }
    ensures size { IfOk result (IsSize definitions.now size.old nodes.now size.new) }
    ensures nested { OnOk result (size.old.nested ≤ size.new.nested) }
{
    for node in nodes.as_slice() {
        size.visited = size
            .visited
            .saturating_add(characters_in(node))
            .saturating_add(1);
        let Node::Element {
            tag,
            attrs,
            children,
            ..
        } = node
        else {
            continue;
        };
        if !is_substitution_reference(*tag) {
            let stuck = add_size(alloc, definitions, children, size)?;
            if stuck.is_some() {
                return Ok(stuck);
            }
            continue;
        }
        let name = text_or_empty(attrs, Key::Refname);
        let Some(inner) = size_of_reference(alloc, definitions, name)? else {
            let stuck = Text::from_str(alloc, name)?;
            return Ok(Some(stuck));
        };
        size.visited = size.visited.saturating_add(inner.visited);
        size.nested = size.nested.max(inner.nested);
    }
    Ok(None)
}

/// The size of a reference to a name, if it is known to be replaced.
fn size_of_reference(alloc: Global, definitions: &Definitions, name: &str) -> Result<Option<Size>>
    requires { AreSized definitions.now }
    ensures { IfOk result (λ size. MatchOption size (Unit {0}) (IsSizeOfReference definitions.now name.now)) }
{
    let Some(place) = definitions.find(alloc, name)? else {
        return Ok(None);
    };
    let Some(one) = item_at(&definitions.measured, place) else {
        return Ok(None);
    };
    if one.stuck.is_some() || one.size.nested >= MOST_NESTED {
        return Ok(None);
    }
    Ok(Some(Size {
        nested: one.size.nested + 1,
        ..one.size
    }))
}

/// Whether at least `nested` definitions are nested in each of those at some places that are known to be replaced.
pub fn are_above(measured: &[Option<Measured>], nested: usize, places: &[usize]) -> bool
    ensures { result ≡ list_all (is_above measured.now nested) places.now }
{
    places.iter().all(|place| match item_at(measured, *place) {
        Some(one) => one.stuck.is_some() || nested <= one.size.nested,
        None => true,
    })
}
