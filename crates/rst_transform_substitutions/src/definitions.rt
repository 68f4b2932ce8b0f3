//! The substitution definitions of a document, by their names.
ghost use Rattle.std.specs.Prelude.{◌≡◌, if◌then◌else◌, List, ℕ, Option, Some, IfOk};
ghost use Rattle.rst_text.specs.Names.{name_in};
ghost use Rattle.std.specs.BTreeMap.{get_by_text};
ghost use Rattle.std.proofs.Props.{props};

use crate::listing::Listed;
use crate::order::order_of;
use crate::sizes::{Measured, measure};
use rst_transform_work::{copies, folded, text_or_empty};
use rst_tree::{Attrs, Children, Key, Result, Tag};
use std::alloc::Global;
use std::collections::BTreeMap;

/// The substitution definitions of a document as they were when they were gathered, each known by how many are before it (Markup
/// Specification, 'Substitution Definitions').
///
/// Of several definitions with one name the last is found.
#[derive(Drop)]
pub struct Definitions {
    /// The nodes that replace references.
    pub contents: Vec<Children>,
    /// What is measured of each.
    pub measured: Vec<Option<Measured>>,
    /// The place of the last definition of a name as it was written.
    exact: BTreeMap<String, usize>,
    /// The place of the last definition of a name by `name_of`.
    normalized: BTreeMap<String, usize>,
    /// What names that were looked for find by `name_of`, so that each is normalized once.
    remembered: BTreeMap<String, Option<usize>>,
    ghost is_right: { (name : List ℕ) (place : Option ℕ) → get_by_text remembered name ≡ Some place → place ≡ get_by_text normalized (name_in name) } by { Prim.hlevel props },
}

impl Definitions {
    ghost use Rattle.std.specs.Prelude.{◌∷◌, ◌++◌, [], slice_get, MatchOption, None};
    ghost use Rattle.rst_transform_substitutions.specs.Definitions.{definitions_among, known_found, known_place, AreKnown, Definition};
    ghost use Rattle.rst_transform_substitutions.specs.Expanded.{within_element};
    ghost use Rattle.rst_transform_substitutions.specs.Sizes.{AreSized};

    /// The definitions among the nodes of a document, and in them, measured.
    pub fn of(alloc: Global, nodes: &Children) -> Result<Definitions>
        ensures known { IfOk result (AreKnown (definitions_among nodes.now)) }
        ensures sized { IfOk result AreSized }
    {
        let listed = Listed::of(alloc, nodes)?;
        let mut definitions = Definitions {
            contents: Vec::with_capacity(alloc, listed.definitions.len())?,
            measured: Vec::new(alloc),
            exact: BTreeMap::new(alloc),
            normalized: BTreeMap::new(alloc),
            remembered: BTreeMap::new(alloc),
        };
        for one in &listed.definitions {
            definitions.add(alloc, one.name, one.content)?;
        }
        for name in &listed.names {
            definitions.remember(alloc, name)?;
        }
        let order = order_of(alloc, &definitions, &listed.names)?;
        measure(alloc, &mut definitions, &order)?;
        Ok(definitions)
    }

    /// Adds a definition after the last, and forgets what names find.
    fn add(&mut self, alloc: Global, name: &str, content: &Children) -> Result<()>
        ensures { IfOk result (λ _. (all : List Definition) → AreKnown all self.old → AreKnown (all ++ (name.now, content.now) ∷ []) self.new) }
    {
        self.remembered.clear();
        let place = self.contents.len();
        let content = copies(alloc, content)?;
        let exact = String::from_str(alloc, name)?;
        self.exact.insert(exact, place)?;
        let normalized = folded(alloc, name)?;
        self.normalized.insert(normalized, place)?;
        self.contents.push(content)?;
        Ok(())
    }

    /// Remembers what a name finds, if there is no definition of it as it is written.
    fn remember(&mut self, alloc: Global, name: &str) -> Result<()>
        ensures { IfOk result (λ _. (all : List Definition) → AreKnown all self.old → AreKnown all self.new) }
    {
        if self.exact.get(name).is_some() {
            return Ok(());
        }
        let found = self.find(alloc, name)?;
        let name = String::from_str(alloc, name)?;
        self.remembered.insert(name, found)?;
        Ok(())
    }

    /// The place of the definition that the nodes in an element are in; the element itself is in the one at the place `within`.
    pub fn within_element(&self, tag: Tag, attrs: &Attrs, within: Option<usize>) -> Option<usize>
        ensures { result ≡ within_element (known_place self.now) tag attrs.now within }
    {
        match tag {
            Tag::SubstitutionDefinition => {
                let own_name = text_or_empty(attrs, Key::OwnName);
                self.exact.get(own_name).copied()
            }
            _ => within,
        }
    }

    /// The place of the definition that a name finds: the name as it is written comes first, and then the name by `name_of`.
    pub fn find(&self, alloc: Global, name: &str) -> Result<Option<usize>>
        ensures { IfOk result (λ place. place ≡ known_found self.now name.now) }
    {
        if let Some(place) = self.exact.get(name) {
            return Ok(Some(*place));
        }
        if let Some(found) = self.remembered.get(name) {
            return Ok(*found);
        }
        let normalized = folded(alloc, name)?;
        Ok(self.normalized.get(normalized.as_str()).copied())
    }

    /// The nodes that replace a reference to the definition at a place, if there is one.
    pub fn content(&self, place: usize) -> Option<&Children>
        ensures { let there = slice_get self.now.contents.items place in MatchOption result (there ≡ None) (λ content. there ≡ Some content.now) }
    {
        self.contents.get(place)
    }
}
