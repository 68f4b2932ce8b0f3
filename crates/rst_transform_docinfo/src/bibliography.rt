//! What the fields of a document's bibliography become.
ghost use Rattle.std.specs.Prelude.{◌≡◌, ◌++◌, ◌&&◌, [], List, None, IfOk};
ghost use Rattle.std.specs.Option.{option_to_list};
ghost use Rattle.rst_tree.specs.Nodes.{nodes_of};
ghost use Rattle.rst_transform_work.specs.declared.report.Report.{Report};
ghost use Rattle.rst_transform_docinfo.specs.Bibliography.{fault_node, fault_report, made, bibliography_row, generic_field, title_node, nodes_under_title, topic_title, with_nonempty_class};
ghost use Rattle.rst_transform_docinfo.specs.Gathered.{docinfo_nodes, has_keywords, is_further, none_yet, so_far, with_field, with_field_node, with_field_of, with_seen};
ghost use Rattle.rst_transform_docinfo.specs.Fields.{nodes_in, paragraph_in};
ghost use Rattle.rst_transform_work.specs.Reports.{IsReported, KeepsRest};

use crate::authors::authors_in;
use crate::field::{Field, paragraph_in};
use rst_settings::Parts;
use rst_transform_work::{Context, copies, element, folded, identified};
use rst_tree::{Attrs, Children, Key, Level, Node, Result, Tag, Text, Texts, Value};
use std::alloc::Global;
use std::mem;

/// A row of the table of bibliographic fields (Markup Specification, 'Bibliographic Fields').
#[derive(Clone, Copy)]
pub enum Row {
    /// An element of this kind with the nodes of the one paragraph.
    Simple(Tag),
    /// The same, whose lines stay as they are.
    Address,
    /// One author or more.
    Authors,
    /// A topic with a title and the nodes of the body.
    Topic(TopicKind),
    /// A field that stays one.
    Generic,
}

impl Row {
    /// Whether values take the place of keywords in such a field: not in one of names or topics.
    fn has_keywords(self) -> bool
        ensures { result ≡ has_keywords self }
    {
        matches!(self, Row::Simple(_) | Row::Address | Row::Generic)
    }
}

/// A topic that a field becomes.
#[derive(Clone, Copy)]
pub enum TopicKind {
    Dedication,
    Abstract,
}

/// The row of a field's name.
#[tactic(auto, unfolding(crate::specs::Bibliography::bibliography_row))]
fn bibliography_row(name: &str) -> Row
    ensures { result ≡ bibliography_row name.now }
{
    match name {
        "author" => Row::Simple(Tag::Author),
        "organization" => Row::Simple(Tag::Organization),
        "contact" => Row::Simple(Tag::Contact),
        "version" => Row::Simple(Tag::Version),
        "revision" => Row::Simple(Tag::Revision),
        "status" => Row::Simple(Tag::Status),
        "date" => Row::Simple(Tag::Date),
        "copyright" => Row::Simple(Tag::Copyright),
        "address" => Row::Address,
        "authors" => Row::Authors,
        "dedication" => Row::Topic(TopicKind::Dedication),
        "abstract" => Row::Topic(TopicKind::Abstract),
        _ => Row::Generic,
    }
}

/// What a field of a row with this name becomes, if it is in its form. Authors may be read in the `plain` text of a paragraph.
fn made(alloc: Global, plain: bool, row: Row, name: &str, field: &Field) -> Result<Option<Node>>
    ensures { IfOk result (λ node. node ≡ made plain row name.now field.now) }
{
    let mut attrs = field.attrs.copy(alloc)?;
    let (tag, nodes) = match row {
        Row::Simple(tag) => (tag, paragraph(alloc, field)?),
        Row::Address => {
            let preserve = Text::from_str(alloc, "preserve")?;
            attrs.set(Key::XmlSpace, Value::Text(preserve))?;
            (Tag::Address, paragraph(alloc, field)?)
        }
        Row::Authors => {
            let authors = authors_in(alloc, plain, &field.body, field.line)?;
            (Tag::Authors, authors.map(|nodes| Children::of(nodes)))
        }
        Row::Topic(kind) => {
            set_class(alloc, &mut attrs, name)?;
            (Tag::Topic, topic(alloc, kind, field)?)
        }
        Row::Generic => return Ok(None),
    };
    Ok(nodes.map(|children| element(tag, attrs, children, field.line)))
}

/// The nodes of the one paragraph in a field's body.
fn paragraph(alloc: Global, field: &Field) -> Result<Option<Children>>
    ensures { IfOk result (λ nodes. nodes ≡ paragraph_in field.now.body) }
{
    let nodes = paragraph_in(&field.body);
    nodes.map(|nodes| copies(alloc, nodes)).transpose()
}

/// The title of a topic, and after it the nodes of a field's body, if that isn't empty.
fn topic(alloc: Global, kind: TopicKind, field: &Field) -> Result<Option<Children>>
    ensures { IfOk result (λ nodes. nodes ≡ nodes_under_title (title_node (topic_title kind) field.now.line) (nodes_of (nodes_in field.now.body))) }
{
    let Node::Element { children, .. } = &field.body else {
        return Ok(None);
    };
    let mut nodes = copies(alloc, children)?.into_list();
    if nodes.is_empty() {
        return Ok(None);
    }
    let title = match kind {
        TopicKind::Dedication => "Dedication",
        TopicKind::Abstract => "Abstract",
    };
    let title = Children::lone(alloc, Node::text(alloc, title)?)?;
    let title = element(Tag::Title, Attrs::new(alloc), title, field.line);
    nodes.insert(0, title)?;
    Ok(Some(Children::of(nodes)))
}

/// Gives attributes one class, unless that is empty.
fn set_class(alloc: Global, attrs: &mut Attrs, class: &str) -> Result<()>
    ensures { IfOk result (λ _. attrs.new ≡ with_nonempty_class class.now attrs.old) }
{
    if class.is_empty() {
        return Ok(());
    }
    let class = Text::from_str(alloc, class)?;
    attrs.set(Key::Classes, Value::List(Texts::lone(alloc, class)))
}

/// A field of this name that stays one, with a class by the name.
fn generic_field(alloc: Global, name: &str, field: Field) -> Result<Node>
    ensures { IfOk result (λ node. node ≡ generic_field name.now field) }
{
    let mut attrs = field.attrs;
    let class = identified(alloc, name)?;
    set_class(alloc, &mut attrs, class.as_str())?;
    let mut parts = Vec::with_capacity(alloc, 2)?;
    parts.push(field.name)?;
    parts.push(field.body)?;
    Ok(element(Tag::Field, attrs, Children::of(parts), field.line))
}

/// A field of the table that isn't in its form: it stays, and its body ends with a WARNING.
fn out_of_form(name: &str, mut field: Field, context: &mut Context) -> Result<Node>
    ensures node { let reported = fault_report context.old.first_number context.old.reports.items name.now field.line in IfOk result (λ node. node ≡ fault_node name.now reported field) }
    ensures reports { IfOk result (λ _. IsReported (fault_report context.old.first_number context.old.reports.items name.now field.line) context.old context.new) }
    ensures rest { IfOk result (λ _. KeepsRest context.old context.new) }
{
    let text = Text::of_three(
        context.alloc,
        "Bibliographic field \"",
        name,
        "\" is not in its form.",
    )?;
    let message = context.report_in_place(Level::Warning, field.line, text)?;
    if let Node::Element { children, .. } = &mut field.body {
        children.push(message)?;
    }
    let node = generic_field(context.alloc, name, field)?;
    Ok(node)
}

/// What the fields of a bibliography became so far.
#[derive(Drop)]
pub struct Bibliography {
    /// The elements of the `docinfo`.
    info: Vec<Node>,
    /// Whether there was a field for the dedication.
    has_dedication: bool,
    dedication: Option<Node>,
    /// Whether there was a field for the abstract.
    has_abstract: bool,
    abstract_: Option<Node>,
    /// The parts of the wider profile that hold.
    parts: Parts,
}

impl Bibliography {
    /// There was no field.
    pub fn new(alloc: Global, parts: Parts) -> Bibliography
        ensures { (reports : List Report) → so_far result reports ≡ none_yet parts reports }
    {
        Bibliography {
            info: Vec::new(alloc),
            has_dedication: false,
            dedication: None,
            has_abstract: false,
            abstract_: None,
            parts,
        }
    }

    /// Takes in the next node of the field list. One that is no field stays as it is.
    pub fn add_node(&mut self, node: Node, context: &mut Context) -> Result<()>
        ensures gathered { IfOk result (λ _. so_far self.new context.new.reports.items ≡ with_field_node context.old.first_number node (so_far self.old context.old.reports.items)) }
        ensures rest { IfOk result (λ _. KeepsRest context.old context.new) }
    {
        match Field::of(node) {
            Ok(field) => self.add(field, context),
            Err(node) => {
                self.info.push(node)?;
                Ok(())
            }
        }
    }

    /// Takes in the next field.
    fn add(&mut self, field: Field, context: &mut Context) -> Result<()>
        ensures gathered { IfOk result (λ _. so_far self.new context.new.reports.items ≡ with_field context.old.first_number field (so_far self.old context.old.reports.items)) }
        ensures rest { IfOk result (λ _. KeepsRest context.old context.new) }
    {
        let text = field.name_text(context.alloc, self.parts.unmarked)?;
        let name = folded(context.alloc, text.as_str())?;
        let row = bibliography_row(name.as_str());
        let field = field.read(context.alloc, self.has_keywords(row))?;
        self.add_of_row(row, name.as_str(), field, context)
    }

    /// Whether values take the place of keywords in a field of a row.
    fn has_keywords(&self, row: Row) -> bool
        ensures { result ≡ (self.now.parts.keywords && has_keywords row) }
    {
        self.parts.keywords && row.has_keywords()
    }

    /// Takes in a field of a row, which has been read.
    fn add_of_row(
        &mut self,
        row: Row,
        name: &str,
        field: Field,
        context: &mut Context,
    ) -> Result<()>
        ensures gathered { IfOk result (λ _. so_far self.new context.new.reports.items ≡ with_field_of context.old.first_number row name.now field (so_far self.old context.old.reports.items)) }
        ensures rest { IfOk result (λ _. KeepsRest context.old context.new) }
    {
        let plain = self.parts.unmarked;
        let made = if self.see(row) {
            None
        } else {
            made(context.alloc, plain, row, name, &field)?
        };
        match made {
            Some(node) => {
                match row {
                    Row::Topic(TopicKind::Dedication) => self.dedication = Some(node),
                    Row::Topic(TopicKind::Abstract) => self.abstract_ = Some(node),
                    _ => self.info.push(node)?,
                }
                Ok(())
            }
            None => match row {
                Row::Generic => Ok(self.info.push(generic_field(context.alloc, name, field)?)?),
                _ => Ok(self.info.push(out_of_form(name, field, context)?)?),
            },
        }
    }

    /// Remembers that there was a field of a row. Whether there was one before, where only the first may become a topic.
    fn see(&mut self, row: Row) -> bool
        ensures further { (reports : List Report) → result ≡ is_further row (so_far self.old reports) }
        ensures seen { (reports : List Report) → so_far self.new reports ≡ with_seen row (so_far self.old reports) }
    {
        match row {
            Row::Topic(TopicKind::Dedication) => mem::replace(&mut self.has_dedication, true),
            Row::Topic(TopicKind::Abstract) => mem::replace(&mut self.has_abstract, true),
            _ => false,
        }
    }

    /// The `docinfo`, if it isn't empty, the dedication and the abstract; `line` is that of the field list.
    pub fn into_nodes(self, alloc: Global, line: usize) -> Result<Vec<Node>>
        ensures { IfOk result (λ nodes. nodes.items ≡ docinfo_nodes line (so_far self [])) }
    {
        let Bibliography {
            info,
            dedication,
            abstract_,
            ..
        } = self;
        let mut nodes = Vec::new(alloc);
        if !info.is_empty() {
            let attrs = Attrs::new(alloc);
            nodes.push(element(Tag::Docinfo, attrs, Children::of(info), line))?;
        }
        let nodes = with_topic(nodes, dedication)?;
        with_topic(nodes, abstract_)
    }
}

/// Nodes, and a topic after them, if there is one.
fn with_topic(mut nodes: Vec<Node>, topic: Option<Node>) -> Result<Vec<Node>>
    ensures { IfOk result (λ all. all.items ≡ nodes.items ++ option_to_list topic) }
{
    if let Some(topic) = topic {
        nodes.push(topic)?;
    }
    Ok(nodes)
}
