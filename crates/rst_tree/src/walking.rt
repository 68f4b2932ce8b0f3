//! Changes of all elements in preorder.
ghost use Rattle.std.specs.Prelude.{◌≡◌, IfOk};
ghost use Rattle.rst_tree.specs.Walk.{Item, item, node_items, after, walked_node};

use crate::attrs::Attrs;
use crate::fault::Result;
use crate::node::Node;
use crate::tag::Tag;

/// What is done at each element, by a state that it changes.
pub trait Visitor {
    /// The state after an element.
    ghost next: { Self → Item → Self };

    /// The element as it is left.
    ghost out: { Self → Item → Item };

    /// Changes an element, but for the nodes in it, and the state.
    fn visit(&mut self, tag: &mut Tag, attrs: &mut Attrs, line: &mut usize) -> Result<()>
        ensures state { IfOk result (λ _. self.new ≡ next self.old (item tag.old attrs.old line.old)) }
        ensures element { IfOk result (λ _. item tag.new attrs.new line.new ≡ out self.old (item tag.old attrs.old line.old)) };
}

/// Visits a node's elements in preorder. If memory runs out, the node is given up.
pub fn walk<V: Visitor>(mut node: Node, visitor: &mut V) -> Result<Node>
    ensures node { IfOk result (λ n. n ≡ walked_node V.next V.out visitor.old node) }
    ensures state { IfOk result (λ _. visitor.new ≡ after V.next V.out visitor.old (node_items node)) }
{
    walk_in(&mut node, visitor)?;
    Ok(node)
}

/// Visits a node's elements in preorder, in place.
fn walk_in<V: Visitor>(node: &mut Node, visitor: &mut V) -> Result<()>
    ensures node { IfOk result (λ _. node.new ≡ walked_node V.next V.out visitor.old node.old) }
    ensures state { IfOk result (λ _. visitor.new ≡ after V.next V.out visitor.old (node_items node.old)) }
{
    if let Node::Element {
        tag,
        attrs,
        children,
        line,
    } = node
    {
        visitor.visit(tag, attrs, line)?;
        for i in 0..children.len() {
            let child = children.get_mut(i);
            walk_in(child, visitor)?;
        }
    }
    Ok(())
}
