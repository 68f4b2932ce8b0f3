//! The authors of a document.
ghost use Rattle.std.specs.Prelude.{◌≡◌, ◌<◌, ◌==◌, ◌++◌, MatchOption, None, Some, IfOk};
ghost use Rattle.std.specs.List.{list_any};
ghost use Rattle.std.specs.Str.{chars};
ghost use Rattle.rst_tree.specs.Nodes.{nodes_of};
ghost use Rattle.rst_transform_docinfo.specs.Authors.{all_paragraphs, author, author_named, authors_in, named_by, names_in, parted};
ghost use Rattle.rst_transform_docinfo.specs.Fields.{lone};

use crate::field::{lone, lone_in, paragraph_in};
use rst_transform_work::{copies, element};
use rst_tree::{Attrs, Children, Node, Result, Tag};
use std::alloc::Global;

/// The authors that a body names, if it is in its form: one paragraph, or one bullet list (Markup Specification, 'Bibliographic
/// Fields').
///
/// Of a paragraph only the text is read where it is asked for as `plain`, without its markup.
pub fn authors_in(alloc: Global, plain: bool, body: &Node, line: usize) -> Result<Option<Vec<Node>>>
    ensures { let wanted = authors_in plain line body.now in IfOk result (λ found. MatchOption found (wanted ≡ None) (λ nodes. wanted ≡ Some nodes.items)) }
{
    let Some(only) = lone_in(body) else {
        return Ok(None);
    };
    let Node::Element { tag, children, .. } = only else {
        return Ok(None);
    };
    match tag {
        Tag::Paragraph => {
            let nodes = if plain {
                names_in(alloc, only.text_of(alloc)?.as_str(), line)?
            } else {
                named_by(alloc, children, line)?
            };
            if nodes.is_empty() {
                return Ok(None);
            }
            Ok(Some(nodes))
        }
        Tag::BulletList => all_paragraphs(alloc, children, line),
        _ => Ok(None),
    }
}

/// The authors that the nodes of a paragraph name: those in a text, or all of it as one author.
fn named_by(alloc: Global, paragraph: &Children, line: usize) -> Result<Vec<Node>>
    ensures { IfOk result (λ nodes. nodes.items ≡ named_by line paragraph.now (lone paragraph.now)) }
{
    if let Some(Node::Text(text)) = lone(paragraph) {
        return names_in(alloc, text.as_str(), line);
    }
    let mut nodes = Vec::new(alloc);
    nodes.push(author(alloc, copies(alloc, paragraph)?, line))?;
    Ok(nodes)
}

/// The authors that a text names. They are parted by semicolons, or by commas where there is no semicolon.
fn names_in(alloc: Global, text: &str, line: usize) -> Result<Vec<Node>>
    ensures { IfOk result (λ nodes. nodes.items ≡ names_in line text.now) }
{
    let separator = if has_semicolon(text) { ';' } else { ',' };
    parted(alloc, text, separator, line)
}

/// The paragraphs in the items of a list as one author each, if each item contains one paragraph alone.
fn all_paragraphs(alloc: Global, items: &Children, line: usize) -> Result<Option<Vec<Node>>>
    ensures { let wanted = all_paragraphs line (nodes_of items.now) in IfOk result (λ found. MatchOption found (wanted ≡ None) (λ nodes. wanted ≡ Some nodes.items)) }
{
    let mut nodes = Vec::new(alloc);
    for item in items.as_slice() {
        let Some(paragraph) = paragraph_in(item) else {
            return Ok(None);
        };
        nodes.push(author(alloc, copies(alloc, paragraph)?, line))?;
    }
    Ok(Some(nodes))
}

/// Whether a text contains a semicolon.
fn has_semicolon(text: &str) -> bool
    ensures { result ≡ list_any (λ c. c == 59) (chars text.now) }
{
    text.chars().any(|c| c == ';')
}

/// The texts between these characters as authors, trimmed, without the empty ones.
fn parted(alloc: Global, text: &str, separator: char, line: usize) -> Result<Vec<Node>>
    requires { separator < 128 }
    ensures { IfOk result (λ nodes. nodes.items ≡ parted line separator text.now) }
{
    let mut nodes = Vec::new(alloc);
    for piece in text.split(separator) {
        add_named(alloc, &mut nodes, piece.trim(), line)?;
    }
    Ok(nodes)
}

/// Puts the author of a name after others, unless the name is empty.
fn add_named(alloc: Global, nodes: &mut Vec<Node>, name: &str, line: usize) -> Result<()>
    ensures { IfOk result (λ _. nodes.new.items ≡ nodes.old.items ++ author_named line name.now) }
{
    if name.is_empty() {
        return Ok(());
    }
    let children = Children::lone(alloc, Node::text(alloc, name)?)?;
    nodes.push(author(alloc, children, line))?;
    Ok(())
}

/// An author of this name.
fn author(alloc: Global, name: Children, line: usize) -> Node
    ensures { result ≡ author line name }
{
    element(Tag::Author, Attrs::new(alloc), name, line)
}
