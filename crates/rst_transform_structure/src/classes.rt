//! The classes that `class` directives give.
ghost use Rattle.std.specs.Prelude.{◌≡◌, ◌++◌, [], if◌then◌else◌, slice_get, IfOk};
ghost use Rattle.std.specs.List.{list_any};
ghost use Rattle.rst_tree.specs.declared.key.Key.TheVariants.{Classes};
ghost use Rattle.rst_tree.specs.Nodes.{nodes_of};
ghost use Rattle.rst_tree.specs.Walk.{items};
ghost use Rattle.rst_transform_work.specs.Lists.{listed_texts, with_listed};
ghost use Rattle.rst_transform_structure.specs.Classes.{class_message, classed, classes_takers, is_class, is_passed_over, takes_classes, unfollowed, unfollowed_text, with_classes, TakesClass};

use rst_transform_work::{Document, append, element};
use rst_tree::{
    Attrs, Children, Key, Level, Node, Note, Reader, Result, Tag, Text, Texts, ValueRef,
    read_elements,
};
use std::alloc::Global;

/// Gives the words of each `class` directive without content to the element that follows it, as classes (reStructuredText Directives, 'Class').
///
/// Before, where `class` is the place of the directive:
///
///     <class classes="a b">
///         .. class:: a b
///     <comment>
///     <paragraph>
///
/// After:
///
///     <comment>
///     <paragraph classes="a b">
///
/// Comments, targets, substitution definitions and messages are passed over. If no element follows, an ERROR takes the place. Without the part
/// `directives` of the wider profile there are no such directives.
#[tactic(auto, using(crate::proofs::Classing::without_class))]
pub fn classes(alloc: Global, mut document: Document, directives: bool) -> Result<Document>
    ensures { IfOk result (λ done. done ≡ with_classes directives document) }
{
    if !directives {
        return Ok(document);
    }
    if !holds_class(alloc, &document.children)? {
        return Ok(document);
    }
    let mut left = Texts::new(alloc);
    let nodes = classed(alloc, document.children, true, &mut left)?;
    document.children = Children::of(nodes);
    Ok(document)
}

/// Whether there is a place of a directive among nodes or in them.
fn holds_class(alloc: Global, nodes: &Children) -> Result<bool>
    ensures { IfOk result (λ holds. holds ≡ list_any (λ x. is_class x.tag) (items nodes.now)) }
{
    let mut reader = ClassReader { found: false };
    read_elements(alloc, nodes, None, &mut reader)?;
    Ok(reader.found)
}

/// Whether one of the elements that were read is the place of a directive.
#[derive(Drop)]
struct ClassReader {
    found: bool,
}

impl<'a> Reader<'a> for ClassReader {
    ghost takes = { TakesClass };

    fn read(
        &mut self,
        _alloc: Global,
        element: &'a Node,
        level: Option<usize>,
    ) -> Result<Option<usize>> {
        if let Node::Element { tag, .. } = element {
            self.found |= is_class(*tag);
        }
        Ok(level)
    }
}

/// What becomes of nodes with the places of directives among them and in them. Words were left before them, and words are left after them. The document
/// `ends` with the nodes if no element that takes classes follows them.
fn classed(alloc: Global, nodes: Children, ends: bool, left: &mut Texts) -> Result<Vec<Node>>
    ensures { IfOk result (λ done. (done.items, left.new) ≡ classed ends left.old nodes) }
{
    let list = nodes.into_list();
    let mut takers = classes_takers(list.as_slice());
    let mut done = Vec::with_capacity(alloc, list.len())?;
    for node in list {
        match node {
            Node::Text(text) => {
                done.push(Node::Text(text))?;
                continue;
            }
            Node::Element {
                tag,
                mut attrs,
                children,
                line,
            } => {
                if is_class(tag) {
                    let last = ends & (takers == 0);
                    add_words(left, &attrs)?;
                    put_message(alloc, &mut done, last, children, line)?;
                    continue;
                }
                if is_passed_over(tag) {
                    done.push(element(tag, attrs, children, line))?;
                    continue;
                }
                takers = takers.saturating_sub(1);
                let last = ends & (takers == 0);
                take_words(alloc, &mut attrs, left)?;
                let inner = classed(alloc, children, last, left)?;
                done.push(element(tag, attrs, Children::of(inner), line))?;
            }
        }
    }
    Ok(done)
}

/// Adds the words of a directive, by the attributes of its place.
fn add_words(left: &mut Texts, attrs: &Attrs) -> Result<()>
    ensures { IfOk result (λ _. left.new ≡ left.old ++ listed_texts Classes attrs.now) }
{
    if let Some(ValueRef::List(words)) = attrs.get(Key::Classes) {
        for word in words {
            left.push(word.copy()?)?;
        }
    }
    Ok(())
}

/// Gives the words that are left to an element with these attributes, after its classes.
fn take_words(alloc: Global, attrs: &mut Attrs, left: &mut Texts) -> Result<()>
    ensures attrs { IfOk result (λ _. attrs.new ≡ with_listed Classes left.old attrs.old) }
    ensures left { IfOk result (λ _. left.new ≡ []) }
{
    append(alloc, attrs, Key::Classes, left.as_slice())?;
    *left = Texts::new(alloc);
    Ok(())
}

/// Puts the message on a directive after nodes, if it is the last: no element that takes classes follows. In its place is its source text.
fn put_message(
    alloc: Global,
    nodes: &mut Vec<Node>,
    last: bool,
    children: Children,
    line: usize,
) -> Result<()>
    ensures { IfOk result (λ _. nodes.new.items ≡ nodes.old.items ++ (if last then class_message (slice_get (nodes_of children) 0) line else [])) }
{
    if !last {
        return Ok(());
    }
    match children.get(0) {
        Some(Node::Text(source)) => {
            let message = unfollowed(alloc, source, line)?;
            nodes.push(message)?;
            Ok(())
        }
        Some(Node::Element { .. }) => Ok(()),
        None => Ok(()),
    }
}

/// The message on a directive that no element follows, with its source text.
fn unfollowed(alloc: Global, source: &Text, line: usize) -> Result<Node>
    ensures { IfOk result (λ message. message ≡ unfollowed source.now line) }
{
    let note = Note {
        level: Level::Error,
        line,
        text: Text::from_str(alloc, unfollowed_text())?,
        block: Some(source.copy()?),
    };
    note.into_node(alloc)
}

/// The text of the message on a directive that no element follows.
fn unfollowed_text() -> &'static str
    ensures { result.now ≡ unfollowed_text }
{
    "No suitable element following \"class\" directive"
}

/// How many of some nodes take classes.
fn classes_takers(nodes: &[Node]) -> usize
    ensures { result ≡ classes_takers nodes.now }
{
    let mut count = 0;
    for node in nodes {
        if takes_classes(node) {
            count += 1;
        }
    }
    count
}

/// Whether a node is an element that takes classes.
fn takes_classes(node: &Node) -> bool
    ensures { result ≡ takes_classes node.now }
{
    match node {
        Node::Element { tag, .. } => !is_passed_over(*tag),
        Node::Text(_) => false,
    }
}

/// Whether an element is the place of a `class` directive.
fn is_class(tag: Tag) -> bool
    ensures { result ≡ is_class tag }
{
    matches!(tag, Tag::Class)
}

/// Whether an element takes no classes.
fn is_passed_over(tag: Tag) -> bool
    ensures { result ≡ is_passed_over tag }
{
    matches!(
        tag,
        Tag::Class
            | Tag::Comment
            | Tag::Contents
            | Tag::SubstitutionDefinition
            | Tag::SystemMessage
            | Tag::Target
    )
}
