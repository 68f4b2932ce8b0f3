//! The document that transforms change.
ghost use Rattle.std.specs.Prelude.{◌≡◌};
ghost use Rattle.rst_tree.specs.Nodes.{IsDocument};
ghost use Rattle.rst_transform_work.specs.States.{document_node};

use crate::texts::element;
use rst_tree::{Attrs, Children, Node, Tag};

/// The document: the element that all others are in (Document Tree, 'document'). Its tag is always `Tag::Document`.
#[derive(Drop)]
pub struct Document {
    /// Its attributes.
    pub attrs: Attrs,
    /// The nodes in it.
    pub children: Children,
    /// The number of its first line.
    pub line: usize,
}

impl Document {
    /// The document that a node is.
    pub fn of(node: Node) -> Document
        requires { IsDocument node }
        ensures { document_node result ≡ node }
    {
        match node {
            Node::Element {
                attrs,
                children,
                line,
                ..
            } => Document {
                attrs,
                children,
                line,
            },
            Node::Text(_) => unreachable!(),
        }
    }

    /// The document as a node.
    pub fn into_node(self) -> Node
        ensures { result ≡ document_node self }
    {
        element(Tag::Document, self.attrs, self.children, self.line)
    }
}
