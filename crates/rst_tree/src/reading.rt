//! What is gathered from all elements in preorder.
ghost use Rattle.std.specs.Prelude.{ℕ, Option, IfOk};
ghost use Rattle.rst_tree.specs.declared.node.Node.{Node};
ghost use Rattle.rst_tree.specs.Read.{AreRead};

use crate::fault::Result;
use crate::node::{Children, Node};
use std::alloc::Global;

/// A state that takes elements in, each at a level.
pub trait Reader<'a> {
    /// What taking in an element at a level makes of the state, and the level of the elements in it.
    ghost takes: { Self → Option ℕ → Node → Self → Option ℕ → Type 0 };

    /// Takes in an element, which is seen with all that is in it, and gives the level of the elements in it.
    fn read(
        &mut self,
        alloc: Global,
        element: &'a Node,
        level: Option<usize>,
    ) -> Result<Option<usize>>
        ensures { IfOk result (λ inner. takes self.old level element.now self.new inner) };
}

/// Nodes at a level that are still to be gone through.
#[derive(Clone, Copy)]
struct Left<'a> {
    nodes: &'a [Node],
    level: Option<usize>,
}

/// Lets a reader take in the elements among nodes at a level, and those in them, in preorder.
// A call of itself under a bound that names a lifetime isn't proved: so what is left around an element is kept in a list.
pub fn read_elements<'a, R: Reader<'a>>(
    alloc: Global,
    nodes: &'a Children,
    level: Option<usize>,
    reader: &mut R,
) -> Result<()>
    ensures { IfOk result (λ _. AreRead R.takes level nodes.now reader.old reader.new) }
{
    let mut left: Vec<Left<'a>> = Vec::new(alloc);
    let mut rest = nodes.as_slice();
    let mut at = level;
    'rest: loop {
        let Some((node, following)) = rest.split_first() else {
            let Some(outer) = left.pop() else {
                return Ok(());
            };
            rest = outer.nodes;
            at = outer.level;
            continue;
        };
        rest = following;
        match node {
            Node::Text(_) => continue,
            Node::Element { children, .. } => {
                let inner = reader.read(alloc, node, at)?;
                if children.are_plain() {
                    continue;
                }
                if !rest.is_empty() {
                    left.push(Left {
                        nodes: rest,
                        level: at,
                    })?;
                }
                rest = children.as_slice();
                at = inner;
            }
        }
    }
}
