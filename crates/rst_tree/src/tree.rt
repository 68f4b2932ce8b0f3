//! Documents as trees, and changes of them.
ghost use Rattle.std.specs.Prelude.{◌≡◌, ◌<◌, IsTrue, MatchOption, Some, None, is_some, string_bytes, IfOk};
ghost use Rattle.rst_tree.specs.Entries.{as_value};
ghost use Rattle.rst_tree.specs.Faults.{Becomes, GivesBack};
ghost use Rattle.rst_tree.specs.Paths.{node_at, changed_at, with_child, with_value, value_at};
ghost use Rattle.rst_tree.specs.Tree.{IsTreeOf, is_tree, is_tree_within, fits, is_element, node_text_at};

use crate::attrs::Value;
use crate::entry::ValueRef;
use crate::fault::Result;
use crate::key::Key;
use crate::node::Node;
use std::alloc::{AllocError, Global};
use std::marker::Model;

/// A document: the attributes of each element are in the order of their names, each name once; no text holds a line end
/// but LF; and the nodes nest no deeper than 1,550.
#[derive(Debug, Drop)]
pub struct Tree {
    root: Node,
}

impl Model for Tree {
    ghost use Rattle.std.specs.Prelude.{IsTrue};
    ghost use Rattle.rst_tree.specs.declared.node.Node.{Node};
    ghost use Rattle.rst_tree.specs.contracts.node.Node as node;
    ghost use Rattle.std.specs.Coded.{codes};

    ghost Value = { Node };

    ghost coded = { Prim.hlevel (codes, node.the_row.coded) };

    ghost use Rattle.rst_tree.specs.Tree.{is_tree};

    ghost view = { λ t. t.root };

    ghost invariant = { λ t. IsTrue (is_tree t.root) };
}

impl Tree {
    /// The most that nodes nest, the root included.
    pub const MOST_LEVELS: usize = 1550;

    /// The node as a tree, or the node back where it is none.
    pub fn of(root: Node) -> Result<Tree, Node>
        ensures { IsTreeOf root result }
    {
        if is_tree_within(&root, Tree::MOST_LEVELS) {
            Ok(Tree { root })
        } else {
            Err(root)
        }
    }

    /// A node that is known to be a tree, as a tree. Nothing is tested.
    pub fn made(root: Node) -> Tree
        requires { IsTrue (is_tree root) }
        ensures { result ≡ root }
    {
        Tree { root }
    }

    /// The whole node.
    pub fn root(&self) -> &Node
        ensures root { result.now ≡ self.now }
        ensures tree { IsTrue (is_tree result.now) }
    {
        &self.root
    }

    /// The whole node, taken out.
    pub fn into_root(self) -> Node
        ensures root { result ≡ self }
        ensures tree { IsTrue (is_tree result) }
    {
        let Tree { root } = self;
        root
    }

    /// The value of the attribute of a name at the node at a path, if there is one.
    pub fn attr(&self, at: &[usize], name: Key) -> Option<ValueRef<'_>>
        ensures { MatchOption result (value_at at.now name self.now ≡ None) (λ v. value_at at.now name self.now ≡ Some (as_value v)) }
    {
        match found(&self.root, at) {
            Some(node) => node.value(name),
            None => None,
        }
    }

    /// Whether a node is at the path.
    pub fn has(&self, at: &[usize]) -> bool
        ensures { result ≡ is_some (node_at at.now self.now) }
    {
        found(&self.root, at).is_some()
    }

    /// Whether an element is at the path.
    pub fn has_element(&self, at: &[usize]) -> bool
        ensures { result ≡ is_element (node_at at.now self.now) }
    {
        is_element_at(&self.root, at)
    }

    /// Whether an element is at the path, and the tree with the node pushed into it is a tree: the levels below suffice, and
    /// the node is sound.
    pub fn fits(&self, at: &[usize], node: &Node) -> bool
        ensures { result ≡ fits at.now node.now self.now }
    {
        if !is_element_at(&self.root, at) {
            return false;
        }
        at.len() < Tree::MOST_LEVELS && is_tree_within(node, Tree::MOST_LEVELS - 1 - at.len())
    }

    /// Puts a node that `fits` after the last in the element at a path; it is given back if memory runs out.
    pub fn push(
        &mut self,
        _alloc: Global,
        at: &[usize],
        node: Node,
    ) -> Result<(), (AllocError, Node)>
        requires { IsTrue (fits at.now node self.old) }
        ensures { GivesBack node self.old self.new (changed_at (with_child node) at.now self.old) result }
    {
        self.root.push_at(at, node)?;
        Ok(())
    }

    /// Sets the attribute of a name to a value at the element at a path, of which `has_element` is true; the value is dropped
    /// if memory runs out.
    pub fn set(&mut self, _alloc: Global, at: &[usize], name: Key, value: Value) -> Result<()>
        requires { IsTrue (is_element (node_at at.now self.old)) }
        ensures { Becomes self.old self.new (changed_at (with_value name value) at.now self.old) result }
    {
        self.root.set_at(at, name, value)?;
        Ok(())
    }

    /// The text of the node at a path: the texts below it in order, joined.
    pub fn text_of(&self, alloc: Global, at: &[usize]) -> Result<String>
        requires { IsTrue (is_some (node_at at.now self.now)) }
        ensures { IfOk result (λ s. string_bytes s ≡ node_text_at at.now self.now) }
    {
        match found(&self.root, at) {
            Some(node) => node.string_of(alloc),
            None => unreachable!(),
        }
    }
}

/// The node at a path.
fn found<'a>(root: &'a Node, at: &[usize]) -> Option<&'a Node>
    ensures { MatchOption result (node_at at.now root.now ≡ None) (λ n. node_at at.now root.now ≡ Some n.now) }
{
    let mut node = root;
    for place in at {
        match node {
            Node::Element { children, .. } => match children.as_slice().get(*place) {
                Some(child) => node = child,
                None => return None,
            },
            Node::Text(_) => return None,
        }
    }
    Some(node)
}

/// Whether an element is at a path.
fn is_element_at(root: &Node, at: &[usize]) -> bool
    ensures { result ≡ is_element (node_at at.now root.now) }
{
    matches!(found(root, at), Some(Node::Element { .. }))
}

/// Whether the node's depth is at most the number of levels, and no text has a line end but LF.
fn is_tree_within(node: &Node, levels: usize) -> bool
    ensures { result ≡ is_tree_within node.now levels }
{
    if levels == 0 {
        return false;
    }
    match node {
        Node::Element { children, .. } => {
            for child in children.as_slice() {
                if !is_tree_within(child, levels - 1) {
                    return false;
                }
            }
            true
        }
        Node::Text(text) => text.is_lines(),
    }
}
