//! Elements turned into others, or changed, in preorder and in place.
ghost use Rattle.std.specs.Prelude.{◌≡◌, IfOk};
ghost use Rattle.rst_tree.specs.declared.node.Node.{Node};
ghost use Rattle.rst_tree.specs.declared.rewriting.Rewrite.{Rewrite};
ghost use Rattle.rst_tree.specs.Rewritten.{rewritten, Turned};

use crate::attrs::Attrs;
use crate::fault::Result;
use crate::node::{Children, Node};
use crate::tag::Tag;
use std::alloc::Global;

/// What is done with an element, as contracts describe it.
#[derive(Debug, Drop)]
pub enum Rewrite {
    /// It stays, with this of its own. What is in it is gone through.
    Keep { tag: Tag, attrs: Attrs, line: usize },
    /// This node takes its place, and isn't gone through.
    Replace(Node),
}

/// What is done with each element, by a state that it changes.
pub trait Rewriter {
    /// The state after an element.
    ghost entered: { Self → Node → Self };

    /// What is done with an element that is met: it stays, or one node takes its place.
    ghost becomes: { Self → Node → Rewrite };

    /// Keeps or replaces an element that is met, and returns whether it stays.
    fn turn(&mut self, alloc: Global, element: &mut Node) -> Result<bool>
        ensures state { IfOk result (λ _. self.new ≡ entered self.old element.old) }
        ensures outcome { IfOk result (λ stays. Turned (becomes self.old element.old) element.old element.new stays) };
}

/// Rewrites nodes and what is in them, in preorder. If memory runs out, some of them are rewritten.
pub fn rewrite_in<R: Rewriter>(alloc: Global, nodes: &mut Children, rewriter: &mut R) -> Result<()>
    ensures nodes { IfOk result (λ _. nodes.new ≡ (rewritten R.entered R.becomes rewriter.old nodes.old).0) }
    ensures state { IfOk result (λ _. rewriter.new ≡ (rewritten R.entered R.becomes rewriter.old nodes.old).1) }
{
    for i in 0..nodes.len() {
        let node = nodes.get_mut(i);
        match node {
            Node::Text(_) => continue,
            Node::Element { .. } => {}
        }
        if !rewriter.turn(alloc, node)? {
            continue;
        }
        match node {
            Node::Element { children, .. } => {
                if children.are_plain() {
                    continue;
                }
                rewrite_in(alloc, children, rewriter)?;
            }
            Node::Text(_) => unreachable!(),
        }
    }
    Ok(())
}
