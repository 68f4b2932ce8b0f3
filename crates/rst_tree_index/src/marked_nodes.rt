//! Neighbouring nodes, and the marks of those that have any.
ghost use Rattle.std.specs.Prelude.{◌≡◌, ◌<◌, ◌∷◌, ◌++◌, [], map, OnErr, vec_capacity, vec_len, IfOk};
ghost use Rattle.rst_tree.specs.Nodes.{forest_of};
ghost use Rattle.rst_tree_index.specs.Known.{entry_after, place_and_marks, known_at};
ghost use Rattle.rst_tree_index.specs.MarkPaths.{node_paths};
ghost use Rattle.rst_tree_index.specs.Marks.{marks_of};
ghost use Rattle.rst_tree_index.specs.Registered.{is_registered};

use crate::marked::{Marked, marks_of};
use crate::marks::{Mark, Marks, is_used};
use crate::registered::is_registered;
use rst_tree::{Attrs, Children, Node, Result, Tag};
use std::alloc::Global;
use std::marker::Model;
use std::vec::IntoIter;

/// Puts what is known of the node at a place after the rest, if anything is known.
#[inline(always)]
fn note(known: &mut Vec<Mark>, place: usize, own: bool, inner: Marks) -> Result<()>
    ensures noted { IfOk result (λ _. map place_and_marks known.new.items ≡ map place_and_marks known.old.items ++ known_at place (node_paths own inner)) }
    ensures kept { OnErr result (known.new.items ≡ known.old.items) }
{
    if is_used(own, &inner) {
        known.push(Mark { place, own, inner })?;
    }
    Ok(())
}

/// What is known of some nodes, when they follow `before` others.
fn known_after(known: Vec<Mark>, before: usize) -> Result<Vec<Mark>>
    ensures { IfOk result (λ moved. map place_and_marks moved.items ≡ map (entry_after before) (map place_and_marks known.items)) }
{
    let mut moved = Vec::with_capacity(*known.allocator(), known.len())?;
    for Mark { place, own, inner } in known {
        moved.push(Mark {
            place: before.saturating_add(place),
            own,
            inner,
        })?;
    }
    Ok(moved)
}

/// Makes room for one node more. The first gets room for itself alone: most elements hold one.
#[inline(always)]
fn make_room(nodes: &mut Vec<Node>) -> Result<()>
    ensures items { nodes.new.items ≡ nodes.old.items }
    ensures len { vec_len nodes.new ≡ vec_len nodes.old }
    ensures room { IfOk result (λ _. vec_len nodes.new < vec_capacity nodes.new) }
{
    if nodes.is_empty() {
        nodes.reserve_exact(1)?;
    } else {
        nodes.reserve(1)?;
    }
    Ok(())
}

/// Neighbouring nodes, as those of an element, with the marks of each. Most nodes have none: so what is known is
/// kept beside the nodes, for the others alone, and the nodes become those of an element as they are.
#[derive(Debug, Drop)]
pub struct MarkedNodes {
    nodes: Vec<Node>,
    known: Vec<Mark>,
}

impl Model for MarkedNodes {
    ghost use Rattle.std.specs.Prelude.{◌≡◌, List, map};
    ghost use Rattle.std.specs.Coded.{codes};
    ghost use Rattle.rst_tree.specs.declared.node.Node.{Node};
    ghost use Rattle.rst_tree.specs.contracts.node.Node as node;

    ghost Value = { List Node };

    ghost coded = { Prim.hlevel (codes, node.the_row.coded) };

    ghost use Rattle.rst_tree_index.specs.Known.{place_and_marks, known_of};

    ghost view = { λ m. m.nodes.items };

    ghost invariant = { λ m. map place_and_marks m.known.items ≡ known_of 0 m.nodes.items };
}

impl MarkedNodes {
    ghost use Rattle.std.specs.Prelude.{◌==◌, length};
    ghost use Rattle.rst_tree.specs.declared.node.Node.TheVariants.{Element as Tagged};

    /// No node.
    #[inline(always)]
    pub fn none(alloc: Global) -> MarkedNodes
        ensures { result ≡ [] }
    {
        MarkedNodes {
            nodes: Vec::new(alloc),
            known: Vec::new(alloc),
        }
    }

    /// Nodes that were made elsewhere. They are marked by a pass over them, and stay in their list.
    pub fn of(alloc: Global, nodes: Vec<Node>) -> Result<MarkedNodes>
        ensures { IfOk result (λ made. made ≡ nodes.items) }
    {
        let mut known = Vec::new(alloc);
        for (place, root) in nodes.iter().enumerate() {
            let (own, inner) = marks_of(alloc, root)?;
            note(&mut known, place, own, inner)?;
        }
        Ok(MarkedNodes { nodes, known })
    }

    /// One node.
    #[inline(always)]
    pub fn alone(alloc: Global, node: Marked) -> Result<MarkedNodes>
        ensures { IfOk result (λ made. made ≡ node ∷ []) }
    {
        let mut made = MarkedNodes::none(alloc);
        made.push(node)?;
        Ok(made)
    }

    /// Makes room for exactly `more` nodes more.
    #[inline(always)]
    pub fn reserve(&mut self, more: usize) -> Result<()>
        ensures { self.new ≡ self.old }
    {
        self.nodes.reserve_exact(more)?;
        Ok(())
    }

    /// How many nodes there are.
    #[inline(always)]
    pub fn len(&self) -> usize
        ensures { result ≡ length self.now }
    {
        self.nodes.len()
    }

    /// Whether there is no node.
    #[inline(always)]
    pub fn is_empty(&self) -> bool
        ensures { result ≡ (length self.now == 0) }
    {
        self.nodes.is_empty()
    }

    /// Puts a node after the others whose marks are known.
    #[inline(always)]
    fn put(&mut self, root: Node, own: bool, inner: Marks) -> Result<()>
        requires { node_paths own inner ≡ marks_of is_registered root }
        ensures { IfOk result (λ _. self.new ≡ self.old ++ root ∷ []) }
    {
        // Room first: once something is known of the node, it has to follow.
        make_room(&mut self.nodes)?;
        note(&mut self.known, self.nodes.len(), own, inner)?;
        self.nodes.push_reserved(root);
        Ok(())
    }

    /// Puts a node after the others.
    #[inline(always)]
    pub fn push(&mut self, node: Marked) -> Result<()>
        ensures { IfOk result (λ _. self.new ≡ self.old ++ node ∷ []) }
    {
        let Marked { root, own, inner } = node;
        self.put(root, own, inner)
    }

    /// Puts a node that was made elsewhere after the others. It is marked by a pass over it.
    pub fn push_new(&mut self, root: Node) -> Result<()>
        ensures { IfOk result (λ _. self.new ≡ self.old ++ root ∷ []) }
    {
        let alloc = *self.nodes.allocator();
        let (own, inner) = marks_of(alloc, &root)?;
        self.put(root, own, inner)
    }

    /// Puts nodes that were made elsewhere after the others.
    #[inline(always)]
    pub fn append_new(&mut self, more: Vec<Node>) -> Result<()>
        ensures { IfOk result (λ _. self.new ≡ self.old ++ more.items) }
    {
        // Most often there are none, and then nothing is called.
        if more.is_empty() {
            return Ok(());
        }
        self.append_some(more)
    }

    /// The same where there are some.
    #[inline(never)]
    fn append_some(&mut self, more: Vec<Node>) -> Result<()>
        ensures { IfOk result (λ _. self.new ≡ self.old ++ more.items) }
    {
        for root in more {
            self.push_new(root)?;
        }
        Ok(())
    }

    /// Puts nodes after the others. Nobody goes through them: they are moved at once, and what is known of them follows.
    pub fn append(&mut self, more: MarkedNodes) -> Result<()>
        ensures { IfOk result (λ _. self.new ≡ self.old ++ more) }
    {
        if self.is_empty() {
            *self = more;
            return Ok(());
        }
        let MarkedNodes { mut nodes, known } = more;
        let mut known = known_after(known, self.nodes.len())?;
        // Room first: once the nodes follow, what is known of them has to.
        self.known.reserve(known.len())?;
        self.nodes.append(&mut nodes)?;
        self.known.append(&mut known)?;
        Ok(())
    }

    /// An element with these nodes in it. Their marks are known, so nobody goes through them.
    pub fn into_element(self, tag: Tag, attrs: Attrs, line: usize) -> Result<Marked>
        ensures { IfOk result (λ m. m ≡ Tagged tag attrs (forest_of self) line) }
    {
        let own = is_registered(tag, &attrs, line);
        let MarkedNodes { mut nodes, known } = self;
        // The list stays as it is in the element, so it keeps no room for more.
        nodes.shrink_to_fit();
        let root = Node::Element {
            tag,
            attrs,
            children: Children::of(nodes),
            line,
        };
        Ok(Marked::from_parts(root, own, Marks::of_used(known)))
    }

    /// The nodes one after the other, each with its marks.
    pub fn into_marked(self) -> MarkedIter
        ensures { result ≡ self }
    {
        let MarkedNodes { nodes, known } = self;
        let count = nodes.len();
        let mut known = known.into_iter();
        let ahead = known.next();
        MarkedIter {
            nodes: nodes.into_iter(),
            known,
            ahead,
            count,
        }
    }
}

/// What is left of some nodes that are taken one after the other.
#[derive(Drop)]
pub struct MarkedIter {
    nodes: IntoIter<Node>,
    /// What is known of the nodes after those that `ahead` is about.
    known: IntoIter<Mark>,
    /// What is known of the first node of which anything is.
    ahead: Option<Mark>,
    /// How many nodes there were, those that were taken among them.
    count: usize,
}

impl Model for MarkedIter {
    ghost use Rattle.std.specs.Prelude.{◌≡◌, ◌≤◌, ◌-◌, ◌++◌, [], List, map, None, option_to_list};
    ghost use Rattle.std.specs.Coded.{codes};
    ghost use Rattle.std.specs.Vec.Iter.{into_iter_items, into_iter_len};
    ghost use Rattle.rst_tree.specs.declared.node.Node.{Node};
    ghost use Rattle.rst_tree.specs.contracts.node.Node as node;

    ghost Value = { List Node };

    ghost coded = { Prim.hlevel (codes, node.the_row.coded) };

    ghost use Rattle.rst_tree_index.specs.Known.{place_and_marks, known_of};

    ghost view = { λ m. into_iter_items m.nodes };

    ghost invariant = { λ m. (into_iter_len m.nodes ≤ m.count) × (m.ahead ≡ None → into_iter_items m.known ≡ []) × (map place_and_marks (option_to_list m.ahead ++ into_iter_items m.known) ≡ known_of (m.count - into_iter_len m.nodes) (into_iter_items m.nodes)) };
}

/// A node without marks.
#[inline(always)]
fn plain(alloc: Global, root: Node) -> Marked
    requires { marks_of is_registered root ≡ [] }
    ensures { result ≡ root }
{
    Marked::from_parts(root, false, Marks::none(alloc))
}

impl MarkedIter {
    ghost use Rattle.std.specs.Prelude.{None, length, option_to_list};

    /// How many nodes are left.
    #[inline(always)]
    pub fn len(&self) -> usize
        ensures { result ≡ length self.now }
    {
        self.nodes.len()
    }

    /// The next node, if there is one.
    pub fn next(&mut self, alloc: Global) -> Option<Marked>
        ensures items { self.old ≡ option_to_list result ++ self.new }
        ensures none { result ≡ None → self.old ≡ [] }
    {
        let place = self.count - self.nodes.len();
        let root = self.nodes.next()?;
        let Some(known) = self.ahead.take() else {
            return Some(plain(alloc, root));
        };
        if known.place != place {
            self.ahead = Some(known);
            return Some(plain(alloc, root));
        }
        self.ahead = self.known.next();
        Some(Marked::from_parts(root, known.own, known.inner))
    }
}
