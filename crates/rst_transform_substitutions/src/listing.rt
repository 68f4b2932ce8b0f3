//! The substitution definitions of a document, and the names in its references.
ghost use Rattle.std.specs.Prelude.{◌≡◌, map, IfOk};
ghost use Rattle.rst_transform_substitutions.specs.Definitions.{defined, definitions_among, TakesListed};

use crate::expansion::is_substitution_reference;
use rst_transform_work::text_or_empty;
use rst_tree::{Children, Key, Node, Reader, Result, Tag, read_elements};
use std::alloc::Global;

/// A substitution definition as it is in a document.
#[derive(Clone, Copy)]
pub struct Defined<'a> {
    /// Its name as it was written.
    pub name: &'a str,
    /// The nodes that replace a reference.
    pub content: &'a Children,
}

/// What is listed of nodes: the definitions, and the names in references.
#[derive(Drop)]
pub struct Listed<'a> {
    pub definitions: Vec<Defined<'a>>,
    pub names: Vec<&'a str>,
}

impl<'a> Listed<'a> {
    /// The definitions among nodes, and in them, in preorder, and the names in references there.
    pub fn of(alloc: Global, nodes: &'a Children) -> Result<Listed<'a>>
        ensures { IfOk result (λ listed. map defined listed.definitions.items ≡ definitions_among nodes.now) }
    {
        let mut listed = Listed {
            definitions: Vec::new(alloc),
            names: Vec::new(alloc),
        };
        read_elements(alloc, nodes, None, &mut listed)?;
        Ok(listed)
    }
}

impl<'a> Reader<'a> for Listed<'a> {
    ghost takes = { TakesListed };

    fn read(
        &mut self,
        _alloc: Global,
        element: &'a Node,
        level: Option<usize>,
    ) -> Result<Option<usize>> {
        let Node::Element {
            tag,
            attrs,
            children,
            ..
        } = element
        else {
            return Ok(level);
        };
        if is_substitution_reference(*tag) {
            self.names.push(text_or_empty(attrs, Key::Refname))?;
        }
        if !matches!(tag, Tag::SubstitutionDefinition) {
            return Ok(level);
        }
        let name = text_or_empty(attrs, Key::OwnName);
        self.definitions.push(Defined {
            name,
            content: children,
        })?;
        Ok(level)
    }
}
