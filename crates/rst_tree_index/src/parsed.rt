//! A document that was read, before its transforms.
ghost use Rattle.std.specs.Prelude.{◌≡◌, IfOk};
ghost use Rattle.rst_tree_index.specs.Parsed.{IsParsed};

use crate::marked::Marked;
use rst_tree::{Node, Result};
use std::alloc::Global;

/// What was read of a document. What its tree may be is limited so far that the transforms make a [`Tree`](rst_tree::Tree) of it.
#[derive(Debug, Drop)]
pub struct Parsed {
    /// The document, with the places of the elements that registration needs.
    pub tree: Marked,
    /// How many numbers its messages and problematics have among them.
    pub messages: u64,
    /// How many looks at lines were taken.
    pub looks: u128,
    pub ghost parsed: { ∥ IsParsed tree ∥₁ },
}

impl Parsed {
    /// A document that was made, and not read from lines: no message in it has a number, and no look at a line was taken.
    ///
    /// The only refusal is [`AllocError`](std::alloc::AllocError).
    pub fn of(alloc: Global, root: Node) -> Result<Parsed>
        requires { IsParsed root }
        ensures tree { IfOk result (λ parsed. parsed.tree ≡ root) }
        ensures messages { IfOk result (λ parsed. parsed.messages ≡ 0) }
        ensures looks { IfOk result (λ parsed. parsed.looks ≡ 0) }
    {
        Ok(Parsed {
            tree: Marked::of(alloc, root)?,
            messages: 0,
            looks: 0,
        })
    }
}
