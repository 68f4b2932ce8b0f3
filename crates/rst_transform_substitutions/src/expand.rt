//! Substitution references give way to the contents of their definitions.
ghost use Rattle.std.specs.Prelude.{◌≡◌, IfOk};
ghost use Rattle.std.specs.List.{flat_map};
ghost use Rattle.rst_tree.specs.Nodes.{nodes_of};
ghost use Rattle.rst_transform_work.specs.Known.{Makes};
ghost use Rattle.rst_transform_substitutions.specs.Definitions.{found_by, known_place};
ghost use Rattle.rst_transform_substitutions.specs.Expanded.{expanded_in, unwrapped_reference, replaced, with_expansions, within_element};
ghost use Rattle.rst_transform_substitutions.specs.Sizes.{AreSized};

use crate::definitions::Definitions;
use crate::expansion::{
    Halted, expansion, is_substitution_reference, is_substitution_reference_node,
};
use rst_transform_work::{Context, Document, take_source, text_or_empty};
use rst_tree::{Attrs, Children, Key, Level, Node, Result};
use std::alloc::{AllocError, Global};
use std::mem;

/// Replaces each substitution reference, in document order, by the content of its definition, expanded in turn (Markup
/// Specification, 'Substitution References').
///
/// A name is looked up as it is written, and then by `name_of`. A reference that can't be replaced becomes a problematic with
/// its source text, and has one message: an ERROR for a name without definition, for a definition that leads back to itself,
/// and for one that gives too much.
///
/// Before, with `|a|` defined as the text `b`:
///
/// ```text
/// <paragraph>
///     <substitution_reference>
///         a
/// ```
///
/// After:
///
/// ```text
/// <paragraph>
///     b
/// ```
///
/// The only refusal is [`AllocError`].
pub fn expand(mut document: Document, context: &mut Context) -> Result<Document>
    ensures { IfOk result (Makes (with_expansions document) context.old context.new) }
{
    let definitions = Definitions::of(context.alloc, &document.children)?;
    expand_in(&definitions, &mut document.children, None, context)?;
    Ok(document)
}

/// Replaces the references among nodes and in them, in document order; `within` is the definition that the nodes are in. Each
/// reference first contains the nodes that it gives way to.
fn expand_in(
    definitions: &Definitions,
    nodes: &mut Children,
    within: Option<usize>,
    context: &mut Context,
) -> Result<()>
    requires { AreSized definitions.now }
    ensures { IfOk result (λ _. Makes (expanded_in (found_by definitions.now) (known_place definitions.now) within nodes.old) context.old context.new (nodes_of nodes.new)) }
{
    for i in 0..nodes.len() {
        match nodes.get_mut(i) {
            Node::Text(_) => continue,
            Node::Element {
                tag,
                attrs,
                children,
                line,
            } => {
                if is_substitution_reference(*tag) {
                    *children = replaced(definitions, attrs, *line, within, context)?;
                    continue;
                }
                if children.are_plain() {
                    continue;
                }
                let within = definitions.within_element(*tag, attrs, within);
                expand_in(definitions, children, within, context)?;
            }
        }
    }
    let mut all = nodes.as_slice().iter();
    if all.any(|node| is_substitution_reference_node(node)) {
        open_references(context.alloc, nodes)?;
    }
    Ok(())
}

/// Puts the nodes in each reference into its place, in a list made anew.
#[inline(never)]
fn open_references(alloc: Global, nodes: &mut Children) -> Result<()>
    ensures { IfOk result (λ _. nodes_of nodes.new ≡ flat_map unwrapped_reference (nodes_of nodes.old)) }
{
    let list = mem::replace(nodes, Children::new(alloc)).into_list();
    let mut done = Vec::with_capacity(alloc, list.len())?;
    for node in list {
        match node {
            Node::Element { tag, children, .. } if is_substitution_reference(tag) => {
                let mut inner = children.into_list();
                done.append(&mut inner)?;
            }
            node => done.push(node)?,
        }
    }
    *nodes = Children::of(done);
    Ok(())
}

/// What happens to a reference: the nodes for it, or a problematic.
#[inline(never)]
fn replaced(
    definitions: &Definitions,
    attrs: &mut Attrs,
    line: usize,
    within: Option<usize>,
    context: &mut Context,
) -> Result<Children>
    requires { AreSized definitions.now }
    ensures { IfOk result (λ nodes. Makes (replaced (found_by definitions.now) within attrs.old line) context.old context.new (nodes_of nodes)) }
{
    let name = text_or_empty(attrs, Key::Refname);
    match expansion(context.alloc, definitions, name, within) {
        Ok(nodes) => Ok(nodes),
        Err(Halted::By(fault)) => {
            let text = fault.text(context.alloc, name)?;
            let report = context.report(Level::Error, line, text, true)?;
            let source = take_source(context.alloc, attrs)?;
            let node = context.problematic(report, source, line)?;
            Children::lone(context.alloc, node)
        }
        Err(Halted::NoMemory) => Err(AllocError),
    }
}
