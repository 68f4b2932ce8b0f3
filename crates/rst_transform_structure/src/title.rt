//! The title and the subtitle of a document.
ghost use Rattle.std.specs.Prelude.{◌≡◌, None, IfOk};
ghost use Rattle.rst_tree.specs.declared.key.Key.TheVariants.{Names as OfNames};
ghost use Rattle.rst_tree.specs.Nodes.{join_node};
ghost use Rattle.rst_transform_work.specs.Known.{Makes};
ghost use Rattle.rst_transform_work.specs.Lists.{listed_texts};
ghost use Rattle.rst_transform_work.specs.Made.{IsMadeOf};
ghost use Rattle.rst_transform_structure.specs.Title.{lone_section, section_in, subtitle, subtitle_names, subtitled_by, title_attrs, title_names, titled_by, with_section, with_title};
ghost use Rattle.rst_transform_structure.specs.Passing.{paired_with_number, Passes};

use rst_transform_names::{Holder, Names};
use rst_transform_work::{Context, Document, append, append_names, element, may_precede};
use rst_tree::{Attrs, Children, Key, Node, Result, Tag, Text, Value, ValueRef};
use std::alloc::Global;

/// Makes the title of a document's lone section the document's, and then that of a lone subsection its subtitle (Markup
/// Specification, 'Document Title').
///
/// Before:
///
///     <document>
///         <comment>
///         <section ids="a" names="a">
///             <title>
///             <paragraph>
///
/// After:
///
///     <document ids="a" names="a" title="A">
///         <title>
///         <comment>
///         <paragraph>
///
/// Comments, targets, substitution definitions and messages may come before the section. Classes of the section become the document's, too.
pub fn title(mut document: Document, context: &mut Context) -> Result<Document>
    ensures { IfOk result (Makes (with_title document) context.old context.new) }
{
    let alloc = context.alloc;
    let nodes = document.children;
    document.children = titled(alloc, &mut document.attrs, nodes, &mut context.names)?;
    Ok(document)
}

/// The nodes of a document with these attributes, once it has a title and a subtitle, if it gets them.
fn titled(alloc: Global, attrs: &mut Attrs, nodes: Children, names: &mut Names) -> Result<Children>
    ensures attrs { IfOk result (λ _. attrs.new ≡ title_attrs (lone_section nodes) attrs.old) }
    ensures nodes { IfOk result (λ all. all ≡ titled_by (lone_section nodes) nodes) }
    ensures names { IfOk result (λ _. Passes (paired_with_number None (title_names (lone_section nodes))) names.old names.new) }
{
    match lone_section(nodes)? {
        Ok(section) => {
            attrs.set(Key::Title, Value::Text(section.title.text_of(alloc)?))?;
            take_names(alloc, attrs, &section.attrs, names)?;
            let body = subtitled(alloc, section.body, names)?;
            with_first(section.title, body)
        }
        Err(nodes) => Ok(nodes),
    }
}

/// The nodes after a document's title, once the subtitle is the first of them, if it gets one.
fn subtitled(alloc: Global, nodes: Children, names: &mut Names) -> Result<Children>
    ensures nodes { IfOk result (λ all. all ≡ subtitled_by (lone_section nodes) nodes) }
    ensures names { IfOk result (λ _. Passes (paired_with_number None (subtitle_names (lone_section nodes))) names.old names.new) }
{
    match lone_section(nodes)? {
        Ok(section) => {
            let mut attrs = Attrs::new(alloc);
            take_names(alloc, &mut attrs, &section.attrs, names)?;
            with_first(subtitle(attrs, section.title), section.body)
        }
        Err(nodes) => Ok(nodes),
    }
}

/// The nodes after one more.
fn with_first(first: Node, nodes: Children) -> Result<Children>
    ensures { IfOk result (λ all. all ≡ join_node first nodes) }
{
    let mut nodes = nodes.into_list();
    nodes.insert(0, first)?;
    Ok(Children::of(nodes))
}

/// A section in its parts.
#[derive(Drop)]
struct Section {
    attrs: Attrs,
    title: Node,
    /// What comes after the title. That of a lone section begins with what comes before the section.
    body: Children,
}

impl Section {
    /// A section with a title, in its parts, or the node back where it is none.
    fn of(node: Node) -> std::result::Result<Section, Node>
        ensures { IsMadeOf node (section_in node) result }
    {
        match node {
            Node::Element {
                tag: Tag::Section,
                attrs,
                children,
                line,
            } => {
                let mut content = children.into_list();
                if content.is_empty() {
                    return Err(element(Tag::Section, attrs, Children::of(content), line));
                }
                let title = content.remove(0);
                Ok(Section {
                    attrs,
                    title,
                    body: Children::of(content),
                })
            }
            node => Err(node),
        }
    }
}

/// The lone section of some nodes, or the nodes back where they have none: the last node, if all before may precede it.
fn lone_section(nodes: Children) -> Result<std::result::Result<Section, Children>>
    ensures { IfOk result (IsMadeOf nodes (lone_section nodes)) }
{
    let mut before = nodes.into_list();
    let Some(last) = before.pop() else {
        return Ok(Err(Children::of(before)));
    };
    if !before.iter().all(|node| may_precede(node)) {
        before.push(last)?;
        return Ok(Err(Children::of(before)));
    }
    match Section::of(last) {
        Ok(section) => {
            let Section { attrs, title, body } = section;
            before.append(&mut body.into_list())?;
            Ok(Ok(Section {
                attrs,
                title,
                body: Children::of(before),
            }))
        }
        Err(last) => {
            before.push(last)?;
            Ok(Err(Children::of(before)))
        }
    }
}

/// Adds a section's ids, names, lost names and classes to those of the element that takes its title.
fn take_names(alloc: Global, attrs: &mut Attrs, section: &Attrs, names: &mut Names) -> Result<()>
    ensures attrs { IfOk result (λ _. attrs.new ≡ with_section section.now attrs.old) }
    ensures names { IfOk result (λ _. Passes (paired_with_number None (listed_texts OfNames section.now)) names.old names.new) }
{
    append_names(alloc, attrs, section)?;
    if let Some(ValueRef::List(classes)) = section.get(Key::Classes) {
        append(alloc, attrs, Key::Classes, classes)?;
    }
    if let Some(ValueRef::List(own_names)) = section.get(Key::Names) {
        move_names(own_names, names);
    }
    Ok(())
}

/// Lets an element without number hold names.
fn move_names(own_names: &[Text], names: &mut Names)
    ensures { Passes (paired_with_number None own_names.now) names.old names.new }
{
    for name in own_names {
        names.move_to(name.as_str(), Holder::Unregistered);
    }
}

/// The subtitle with these attributes that a title becomes.
fn subtitle(attrs: Attrs, title: Node) -> Node
    ensures { result ≡ subtitle attrs title }
{
    match title {
        Node::Element { children, line, .. } => element(Tag::Subtitle, attrs, children, line),
        Node::Text(text) => Node::Text(text),
    }
}
