//! Nodes and lists of them.
ghost use Rattle.std.specs.Prelude.{◌≡◌, ◌∷◌, ◌++◌, [], ◌<◌, length, slice_get, slice_index_or, MatchOption, None, Some, IsSomeAnd, string_bytes, IfOk};
ghost use Rattle.std.specs.Borrow.{sem};
ghost use Rattle.rst_tree.specs.Entries.{as_value};
ghost use Rattle.rst_tree.specs.Faults.{Becomes, GivesBack};
ghost use Rattle.rst_tree.specs.Tree.{text_in};

use crate::attrs::{Attrs, Value};
use crate::entry::ValueRef;
use crate::fault::Result;
use crate::key::Key;
use crate::tag::Tag;
use crate::text::Text;
use std::alloc::{AllocError, Global};
use std::marker::Model;

/// An element with what is in it and the number of its first line, or a text.
#[derive(Debug, Drop)]
#[cycle(node)]
pub enum Node {
    Element {
        tag: Tag,
        attrs: Attrs,
        children: Children,
        line: usize,
    },
    Text(Text),
}

/// The nodes in an element, which contracts see as a `Forest`.
#[derive(Debug, Drop)]
#[cycle(node)]
pub struct Children {
    list: Vec<Node>,
}

impl Model for Children {
    ghost use Rattle.std.specs.Coded.{codes};
    ghost use Rattle.rst_tree.specs.Forest.{Forest, forest_code};

    ghost Value = { Forest };

    ghost coded = { forest_code (Prim.hlevel codes) };

    ghost use Rattle.rst_tree.specs.Nodes.{forest_of};

    ghost view = { λ c. forest_of c.list.items };

    ghost use Rattle.rst_tree.specs.Forest.{height};

    ghost size = { height };

    ghost use Rattle.std.proofs.Common.{arith};
    ghost use Rattle.rst_tree.specs.Falls.{most_le-height};

    ghost size_decreases = { λ a h. Prim.omega (arith, most_le-height a.list.items) };
}

impl Children {
    ghost use Rattle.rst_tree.specs.Forest.{bare};
    ghost use Rattle.rst_tree.specs.Nodes.{are_plain, forest_of, nodes_of};
    ghost use Rattle.rst_tree.specs.Lending.{LendsNode};

    /// No node.
    pub fn new(alloc: Global) -> Children
        ensures { result ≡ bare }
    {
        Children {
            list: Vec::new(alloc),
        }
    }

    /// No node, in a list with room for `room` nodes.
    pub fn with_room(alloc: Global, room: usize) -> Result<Children>
        ensures { IfOk result (λ nodes. nodes ≡ bare) }
    {
        let list = Vec::with_capacity(alloc, room)?;
        Ok(Children { list })
    }

    /// One node, in a list with room for it alone.
    // A call would move the node once more.
    #[inline(always)]
    pub fn lone(alloc: Global, node: Node) -> Result<Children>
        ensures { IfOk result (λ nodes. nodes ≡ forest_of (node ∷ [])) }
    {
        let mut list = Vec::with_capacity(alloc, 1)?;
        list.push_reserved(node);
        Ok(Children { list })
    }

    /// The nodes of a `Vec`.
    pub fn of(list: Vec<Node>) -> Children
        ensures { result ≡ forest_of list.items }
    {
        Children { list }
    }

    /// The nodes as a `Vec`.
    pub fn into_list(self) -> Vec<Node>
        ensures forest { self ≡ forest_of result.items }
        ensures nodes { result.items ≡ nodes_of self }
    {
        let Children { list } = self;
        list
    }

    /// The nodes in order.
    pub fn as_slice(&self) -> &[Node]
        ensures { self.now ≡ forest_of result.now }
    {
        self.list.as_slice()
    }

    /// How many nodes there are, without those inside them.
    pub fn len(&self) -> usize
        ensures { result ≡ length (nodes_of self.now) }
    {
        self.list.len()
    }

    /// Whether there is no node, or a text alone: then no element is among them. So it is in most elements.
    #[tactic(auto, using(crate::proofs::PlainNodes::first_text, crate::proofs::PlainNodes::first_element, crate::proofs::PlainNodes::no_first))]
    #[inline(always)]
    pub fn are_plain(&self) -> bool
        ensures { result ≡ are_plain self.now }
    {
        match self.get(0) {
            Some(Node::Text(_)) => self.len() == 1,
            Some(Node::Element { .. }) => false,
            None => true,
        }
    }

    /// The node at a place, from 0.
    pub fn get(&self, i: usize) -> Option<&Node>
        ensures { MatchOption result (slice_get (nodes_of self.now) i ≡ None) (λ n. slice_get (nodes_of self.now) i ≡ Some n.now) }
    {
        match self.list.as_slice().get(i) {
            Some(node) => Some(node),
            None => None,
        }
    }

    /// The node at a place, from 0, to be changed.
    pub fn get_mut(&mut self, i: usize) -> &mut Node
        requires { i < length (nodes_of self.old) }
        ensures* writes_back { sem 𝓛 (LendsNode self.entry i result) }
        ensures value { result.now ≡ slice_index_or (nodes_of self.old) i result.now }
    {
        &mut self.list[i]
    }

    /// Puts a node after the last; it is dropped if memory runs out.
    pub fn push(&mut self, node: Node) -> Result<()>
        ensures { Becomes self.old self.new (forest_of (nodes_of self.old ++ node ∷ [])) result }
    {
        make_room(&mut self.list)?;
        self.list.push(node)?;
        Ok(())
    }

    /// Replaces all nodes by a node, which is dropped if memory runs out. The list keeps its room.
    pub fn set_lone(&mut self, node: Node) -> Result<()>
        ensures { Becomes self.old self.new (forest_of (node ∷ [])) result }
    {
        if self.list.is_empty() {
            return self.push(node);
        }
        self.list.truncate(1);
        self.list[0] = node;
        Ok(())
    }
}

/// Makes room for one node where there is none: most elements hold a single one.
fn make_room(list: &mut Vec<Node>) -> Result<()>
    ensures { list.new.items ≡ list.old.items }
{
    if list.is_empty() {
        list.reserve_exact(1)?;
    }
    Ok(())
}

impl Node {
    ghost use Rattle.rst_tree.specs.Forest.{bare as no_nodes};
    ghost use Rattle.rst_tree.specs.Paths.{node_at, changed_at, with_child, with_value, node_value, IsElement};
    ghost use Rattle.rst_tree.specs.declared.node.Node.TheVariants.{Element, Text as Words};

    /// A text.
    pub fn text(alloc: Global, text: &str) -> Result<Node>
        ensures { IfOk result (λ n. n ≡ Words text.now) }
    {
        let text = Text::from_str(alloc, text)?;
        Ok(Node::Text(text))
    }

    /// An element without attributes and without nodes in it.
    pub fn element(alloc: Global, tag: Tag, line: usize) -> Node
        ensures { result ≡ Element tag [] no_nodes line }
    {
        let attrs = Attrs::new(alloc);
        let children = Children::new(alloc);
        Node::Element {
            tag,
            attrs,
            children,
            line,
        }
    }

    /// The value of the attribute of a name, if there is one; a text has none.
    pub fn value(&self, key: Key) -> Option<ValueRef<'_>>
        ensures { MatchOption result (node_value key self.now ≡ None) (λ v. node_value key self.now ≡ Some (as_value v)) }
    {
        match self {
            Node::Element { attrs, .. } => attrs.get(key),
            Node::Text(_) => None,
        }
    }

    /// Puts a node after the last in the element at a path; it is given back if memory runs out.
    pub fn push_at(&mut self, at: &[usize], child: Node) -> Result<(), (AllocError, Node)>
        requires path { IsSomeAnd (node_at at.now self.old) IsElement }
        ensures { GivesBack child self.old self.new (changed_at (with_child child) at.now self.old) result }
    {
        match self {
            Node::Element { children, .. } => match at.split_first() {
                None => {
                    if let Err(failed) = children.list.push(child) {
                        return Err((AllocError, failed.value));
                    }
                    Ok(())
                }
                Some((first, rest)) => {
                    let node = &mut children.list[*first];
                    node.push_at(rest, child)?;
                    Ok(())
                }
            },
            Node::Text(_) => unreachable!(),
        }
    }

    /// Sets the attribute of a name to a value at the element at a path.
    pub fn set_at(&mut self, at: &[usize], key: Key, value: Value) -> Result<()>
        requires path { IsSomeAnd (node_at at.now self.old) IsElement }
        ensures { Becomes self.old self.new (changed_at (with_value key value) at.now self.old) result }
    {
        match self {
            Node::Element {
                attrs,
                children,
                ..
            } => match at.split_first() {
                None => {
                    attrs.set(key, value)?;
                    Ok(())
                }
                Some((first, rest)) => {
                    let node = &mut children.list[*first];
                    node.set_at(rest, key, value)?;
                    Ok(())
                }
            },
            Node::Text(_) => unreachable!(),
        }
    }

    /// The texts in the node in order, joined.
    pub fn text_of(&self, alloc: Global) -> Result<Text>
        ensures { IfOk result (λ t. t ≡ text_in self.now) }
    {
        let string = self.string_of(alloc)?;
        Ok(Text::new(string))
    }

    /// The same as a `String`.
    pub(crate) fn string_of(&self, alloc: Global) -> Result<String>
        ensures { IfOk result (λ s. string_bytes s ≡ text_in self.now) }
    {
        let mut string = String::new(alloc);
        add_text(self, &mut string)?;
        Ok(string)
    }

    /// A node equal to this one.
    pub fn copy(&self, alloc: Global) -> Result<Node>
        ensures { IfOk result (λ n. n ≡ self.now) }
    {
        match self {
            Node::Element {
                tag,
                attrs,
                children,
                line,
            } => {
                let attrs = attrs.copy(alloc)?;
                let mut list = Vec::with_capacity(alloc, children.len())?;
                for child in children.as_slice() {
                    list.push(child.copy(alloc)?)?;
                }
                Ok(Node::Element {
                    tag: *tag,
                    attrs,
                    children: Children::of(list),
                    line: *line,
                })
            }
            Node::Text(text) => Ok(Node::Text(text.copy()?)),
        }
    }
}

/// Puts the texts in a node after a text.
fn add_text(node: &Node, text: &mut String) -> Result<()>
    ensures { IfOk result (λ _. string_bytes text.new ≡ string_bytes text.old ++ text_in node.now) }
{
    match node {
        Node::Element { children, .. } => {
            for child in children.as_slice() {
                add_text(child, text)?;
            }
            Ok(())
        }
        Node::Text(more) => {
            text.push_str(more.as_str())?;
            Ok(())
        }
    }
}
