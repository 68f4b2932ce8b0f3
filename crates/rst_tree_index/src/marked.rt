//! A node with the places of the elements that registration needs, these elements, and changes at them.
ghost use Rattle.std.specs.Prelude.{◌≡◌, ◌++◌, map, if◌then◌else◌, filter, IfOk};
ghost use Rattle.rst_tree.specs.Walk.{item, node_items, after, walked_node};
ghost use Rattle.rst_tree.specs.Attributes.{value_of, without_key};
ghost use Rattle.rst_tree.specs.declared.key.Key.TheVariants.{Classes};
ghost use Rattle.rst_tree_index.specs.Classes.{classes_in, with_classes, with_more_classes};
ghost use Rattle.rst_tree_index.specs.MarkPaths.{node_paths};
ghost use Rattle.rst_tree_index.specs.Marks.{marks_of, heeded_next, heeded_out, path_of, places, visited_all, with_elements_at};
ghost use Rattle.rst_tree_index.specs.Registered.{is_registered, item_of};

use crate::marks::Marks;
use crate::registered::is_registered;
use rst_tree::{Attrs, Children, Key, Node, Result, Tag, Text, Texts, Value, Visitor};
use std::alloc::Global;
use std::marker::Model;

/// An element of a node, without the nodes in it.
#[derive(Clone, Copy)]
pub struct Element<'a> {
    pub tag: Tag,
    pub attrs: &'a Attrs,
    /// The number of its first line.
    pub line: usize,
}

/// Adds the marked ones of a node's elements.
fn add_elements<'a>(
    node: &'a Node,
    own: bool,
    inner: &Marks,
    list: &mut Vec<Element<'a>>,
) -> Result<()>
    ensures { IfOk result (λ _. map item_of list.new.items ≡ with_elements_at (node_paths own inner.now) node.now (map item_of list.old.items)) }
{
    let Node::Element {
        tag,
        attrs,
        children,
        line,
    } = node
    else {
        return Ok(());
    };
    if own {
        list.push(Element {
            tag: *tag,
            attrs,
            line: *line,
        })?;
    }
    let nodes = children.as_slice();
    let marks = inner.as_slice();
    for mark in marks {
        let place = mark.place;
        if nodes.len() <= place {
            continue;
        }
        add_elements(&nodes[place], mark.own, &mark.inner, list)?;
    }
    Ok(())
}

/// Visits an element, if it is marked.
fn visit_own<V: Visitor>(
    own: bool,
    tag: &mut Tag,
    attrs: &mut Attrs,
    line: &mut usize,
    visitor: &mut V,
) -> Result<()>
    ensures state { IfOk result (λ _. visitor.new ≡ (if own then V.next visitor.old (item tag.old attrs.old line.old) else visitor.old)) }
    ensures element { IfOk result (λ _. item tag.new attrs.new line.new ≡ (if own then V.out visitor.old (item tag.old attrs.old line.old) else item tag.old attrs.old line.old)) }
{
    if own {
        visitor.visit(tag, attrs, line)?;
    }
    Ok(())
}

/// Visits the marked ones of a node's elements, in preorder.
fn visit_in<V: Visitor>(node: &mut Node, own: bool, inner: &Marks, visitor: &mut V) -> Result<()>
    ensures node { IfOk result (λ _. node.new ≡ (visited_all V.next V.out (node_paths own inner.now) (visitor.old, node.old)).1) }
    ensures state { IfOk result (λ _. visitor.new ≡ (visited_all V.next V.out (node_paths own inner.now) (visitor.old, node.old)).0) }
{
    if let Node::Element {
        tag,
        attrs,
        children,
        line,
    } = node
    {
        visit_own(own, tag, attrs, line, visitor)?;
        let marks = inner.as_slice();
        for mark in marks {
            let place = mark.place;
            if children.len() <= place {
                continue;
            }
            let child = children.get_mut(place);
            visit_in(child, mark.own, &mark.inner, visitor)?;
        }
    }
    Ok(())
}

/// Puts the marks of nodes that were made elsewhere after others, seen from the element that holds them.
///
/// Most of these nodes are texts or hold texts alone: those cost no list of marks.
fn add_marks(alloc: Global, nodes: &Children, marks: &mut Marks) -> Result<()>
    ensures { IfOk result (λ _. marks.new ≡ marks.old ++ map path_of (places is_registered nodes.now)) }
{
    let list = nodes.as_slice();
    for place in 0..list.len() {
        let Node::Element {
            tag,
            attrs,
            children,
            line,
        } = &list[place]
        else {
            continue;
        };
        let own = is_registered(*tag, attrs, *line);
        if children.are_plain() {
            marks.push(place, own, Marks::none(alloc))?;
            continue;
        }
        let mut inner = Marks::none(alloc);
        add_marks(alloc, children, &mut inner)?;
        marks.push(place, own, inner)?;
    }
    Ok(())
}

/// The marks of a node that was made elsewhere, by a pass over it: whether it is marked itself, and those in it.
#[inline(always)]
pub(crate) fn marks_of(alloc: Global, node: &Node) -> Result<(bool, Marks)>
    ensures { IfOk result (λ marks. node_paths marks.0 marks.1 ≡ marks_of is_registered node.now) }
{
    let mut marks = Marks::none(alloc);
    let Node::Element {
        tag,
        attrs,
        children,
        line,
    } = node
    else {
        return Ok((false, marks));
    };
    let own = is_registered(*tag, attrs, *line);
    // Most elements hold a text alone.
    if children.are_plain() {
        return Ok((own, marks));
    }
    add_marks(alloc, children, &mut marks)?;
    Ok((own, marks))
}

/// Takes out the classes among some attributes; none where there are none.
fn take_classes(alloc: Global, attrs: &mut Attrs) -> Texts
    ensures classes { result ≡ classes_in (value_of Classes attrs.old) }
    ensures rest { attrs.new ≡ without_key Classes attrs.old }
{
    match attrs.remove(Key::Classes) {
        Some(Value::List(classes)) => classes,
        _ => Texts::new(alloc),
    }
}

/// Puts classes after those among some attributes, which are taken out and put back: nobody copies them.
fn add_classes(alloc: Global, attrs: &mut Attrs, more: &[Text]) -> Result<()>
    ensures { IfOk result (λ _. attrs.new ≡ with_more_classes more.now attrs.old) }
{
    let mut classes = take_classes(alloc, attrs);
    for class in more {
        classes.push(class.copy()?)?;
    }
    attrs.set(Key::Classes, Value::List(classes))
}

/// A node, and where those of its elements are that registration needs: their paths, in preorder.
#[derive(Debug, Drop)]
pub struct Marked {
    pub(crate) root: Node,
    /// Whether the node is marked itself.
    pub(crate) own: bool,
    /// The marks in it.
    pub(crate) inner: Marks,
}

impl Model for Marked {
    ghost use Rattle.std.specs.Prelude.{◌≡◌};
    ghost use Rattle.std.specs.Coded.{codes};
    ghost use Rattle.rst_tree.specs.declared.node.Node.{Node};
    ghost use Rattle.rst_tree.specs.contracts.node.Node as node;

    ghost Value = { Node };

    ghost coded = { Prim.hlevel (codes, node.the_row.coded) };

    ghost use Rattle.rst_tree_index.specs.MarkPaths.{node_paths};
    ghost use Rattle.rst_tree_index.specs.Marks.{marks_of};
    ghost use Rattle.rst_tree_index.specs.Registered.{is_registered};

    ghost view = { λ m. m.root };

    ghost invariant = { λ m. node_paths m.own m.inner ≡ marks_of is_registered m.root };
}

impl Marked {
    ghost use Rattle.std.specs.Prelude.{◌≡◌};

    /// A node that was made elsewhere.
    #[inline(always)]
    pub fn of(alloc: Global, root: Node) -> Result<Marked>
        ensures { IfOk result (λ m. m ≡ root) }
    {
        let (own, inner) = marks_of(alloc, &root)?;
        Ok(Marked { root, own, inner })
    }

    /// A node whose marks are known.
    #[inline(always)]
    pub(crate) fn from_parts(root: Node, own: bool, inner: Marks) -> Marked
        requires { node_paths own inner ≡ marks_of is_registered root }
        ensures { result ≡ root }
    {
        Marked { root, own, inner }
    }

    /// The node with these classes after its own; a text has none. Registration looks at no classes, so its marks stay.
    pub fn with_classes(self, alloc: Global, classes: &[Text]) -> Result<Marked>
        ensures { IfOk result (λ m. m ≡ with_classes classes.now self) }
    {
        let Marked {
            mut root,
            own,
            inner,
        } = self;
        if let Node::Element { attrs, .. } = &mut root {
            add_classes(alloc, attrs, classes)?;
        }
        Ok(Marked::from_parts(root, own, inner))
    }

    /// The node alone.
    pub fn into_root(self) -> Node
        ensures { result ≡ self }
    {
        let Marked { root, .. } = self;
        root
    }

    /// The whole node.
    pub fn root(&self) -> &Node
        ensures { result.now ≡ self.now }
    {
        &self.root
    }

    /// The elements that registration needs, in preorder, found by their marks.
    pub fn elements(&self, alloc: Global) -> Result<Vec<Element<'_>>>
        ensures { IfOk result (λ list. map item_of list.items ≡ filter is_registered (node_items self.now)) }
    {
        let mut list = Vec::new(alloc);
        add_elements(&self.root, self.own, &self.inner, &mut list)?;
        Ok(list)
    }

    /// Visits the marked elements, in preorder, by their marks.
    pub fn visit<V: Visitor>(self, visitor: &mut V) -> Result<Node>
        ensures node { IfOk result (λ n. n ≡ walked_node (heeded_next is_registered V.next) (heeded_out is_registered V.out) visitor.old self) }
        ensures state { IfOk result (λ _. visitor.new ≡ after (heeded_next is_registered V.next) (heeded_out is_registered V.out) visitor.old (node_items self)) }
    {
        let Marked {
            mut root,
            own,
            inner,
        } = self;
        visit_in(&mut root, own, &inner, visitor)?;
        Ok(root)
    }
}
