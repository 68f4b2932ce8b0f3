//! Marks of a small document, and a visit of what they mark.
ghost use Rattle.rst_tree.specs.Walk.{item};

use rst_tree::{Attrs, Node, Tag, Text, Visitor};
use rst_tree_index::{Marked, MarkedNodes};
use std::alloc::{AllocError, Global};
use std::test::Fail;

/// An element without attributes.
fn element(alloc: Global, tag: Tag, nodes: MarkedNodes, line: usize) -> Result<Marked, AllocError> {
    nodes.into_element(tag, Attrs::new(alloc), line)
}

/// A document with a paragraph, and after it a section with a title and a target.
fn document(alloc: Global) -> Result<Marked, AllocError> {
    let text = Node::Text(Text::from_str(alloc, "T")?);
    let title = MarkedNodes::of(alloc, vec![in alloc; text]?)?;
    let title = element(alloc, Tag::Title, title, 2)?;
    let mut inner = MarkedNodes::alone(alloc, title)?;
    inner.push_new(Node::element(alloc, Tag::Target, 3))?;
    let section = element(alloc, Tag::Section, inner, 2)?;
    let paragraph = element(alloc, Tag::Paragraph, MarkedNodes::none(alloc), 1)?;
    let mut nodes = MarkedNodes::none(alloc);
    nodes.append(MarkedNodes::alone(alloc, paragraph)?)?;
    nodes.append(MarkedNodes::alone(alloc, section)?)?;
    element(alloc, Tag::Document, nodes, 1)
}

/// Gives each element that is visited line 9.
#[derive(Drop)]
struct Lining;

impl Visitor for Lining {
    ghost next = { λ s x. s };

    ghost out = { λ s x. item x.tag x.attrs 9 };

    fn visit(
        &mut self,
        _tag: &mut Tag,
        _attrs: &mut Attrs,
        line: &mut usize,
    ) -> Result<(), AllocError> {
        *line = 9;
        Ok(())
    }
}

/// The line of an element, and of its last child.
fn lines(node: &Node) -> (usize, usize) {
    match node {
        Node::Element { line, children, .. } => match children.as_slice().last() {
            Some(Node::Element { line: last, .. }) => (*line, *last),
            _ => (*line, 0),
        },
        Node::Text(_) => (0, 0),
    }
}

#[test]
fn marks_and_visits(rt: HostRuntime) -> Result<(), Fail> {
    let alloc = rt.alloc();
    let document = document(alloc)?;
    let elements = document.elements(alloc)?;
    assert_eq!(rt; elements.len(), 2);
    for (element, line) in elements.iter().zip([2, 3]) {
        assert_eq!(rt; element.line, line);
    }
    drop(elements);
    assert_eq!(rt; lines(document.root()), (1, 2));
    let visited = document.visit(&mut Lining)?;
    assert_eq!(rt; lines(&visited), (1, 9));
    match &visited {
        Node::Element { children, .. } => match children.get(1) {
            Some(section) => assert_eq!(rt; lines(section), (9, 9)),
            None => assert!(rt; false),
        },
        Node::Text(_) => assert!(rt; false),
    }
    Ok(())
}
