//! All transforms, in order.
ghost use Rattle.std.specs.Prelude.{◌≡◌, ◌≤◌, false, IfOk};
ghost use Rattle.std.specs.List.{list_any};
ghost use Rattle.rst_settings.specs.Profile.{profile_of};
ghost use Rattle.rst_tree.specs.Walk.{items};
ghost use Rattle.rst_transform_messages.specs.Early.{is_early};
ghost use Rattle.rst_transform_work.specs.Known.{Makes};
ghost use Rattle.rst_transform_messages.specs.Messages.{highest_level};
ghost use Rattle.rst_transform_structure.specs.Targets.{with_targets};
ghost use Rattle.rst_transform_substitutions.specs.Expanded.{with_expansions};
ghost use Rattle.rst_transform.specs.Finishing.{leaves, transformed, Finishes};

use crate::linking::resolve_links;
use rst_settings::Settings;
use rst_transform_contents::contents::contents;
use rst_transform_docinfo::docinfo::docinfo;
use rst_transform_messages::Messages;
use rst_transform_messages::filter::filter;
use rst_transform_names::register;
use rst_transform_structure::classes::classes;
use rst_transform_structure::last_section::last_section;
use rst_transform_structure::targets::targets;
use rst_transform_structure::title::title;
use rst_transform_structure::transitions::transitions;
use rst_transform_substitutions::expand::expand;
use rst_transform_work::{Context, Document};
use rst_tree::{Node, Note, Result, Tree};
use rst_tree_index::Parsed;
use std::alloc::{AllocError, Global};

/// Why a document isn't finished: memory ran out.
pub type TransformFault = AllocError;

/// A document as it is printed, and the messages of the run.
#[derive(Debug, Drop)]
pub struct Finished {
    /// The document, without what isn't printed, and without `source`, which is added where it is printed.
    pub tree: Tree,
    /// The messages in order, up to the first that halts the run.
    pub notes: Vec<Note>,
    /// The number of the highest level among these, 0 where there are none.
    pub highest: u8,
}

/// Finishes a parsed document: names and ids, then all transforms, the last section, and the messages below the report level taken out
/// (Document Tree, 'Introduction').
///
/// The only refusal is [`TransformFault`].
pub fn finish(
    alloc: Global,
    parsed: Parsed,
    settings: &Settings,
) -> Result<Finished, TransformFault>
    ensures finishes { Finishes parsed.messages (profile_of settings.now) settings.now parsed.tree result }
    ensures highest { IfOk result (λ done. done.highest ≡ highest_level done.notes.items) }
    ensures few { IfOk result (λ done. done.highest ≤ 4) }
{
    let (root, notes, highest) = left_of(alloc, parsed, settings)?;
    Ok(Finished {
        tree: Tree::made(root),
        notes,
        highest,
    })
}

/// What is left of a parsed document: the document as it is printed, the messages, and the number of the highest level among these.
fn left_of(alloc: Global, parsed: Parsed, settings: &Settings) -> Result<(Node, Vec<Note>, u8)>
    ensures left { IfOk result (λ left. let leaves = leaves parsed.messages (profile_of settings.now) settings.now parsed.tree in (left.0 ≡ leaves.0) × (left.1.items ≡ leaves.1)) }
    ensures highest { IfOk result (λ left. left.2 ≡ highest_level left.1.items) }
    ensures few { IfOk result (λ left. left.2 ≤ 4) }
{
    let messages = parsed.messages;
    let registered = register(alloc, parsed.tree, messages)?;
    let mut context = Context {
        alloc,
        ids: registered.ids,
        names: registered.names,
        reports: Vec::new(alloc),
        first_number: messages,
        serials: registered.serials,
    };
    let start = classes(
        alloc,
        Document::of(registered.root),
        settings.parts.directives,
    )?;
    let mut list = Messages::of(
        alloc,
        &start.children,
        messages,
        settings.halt,
        settings.report,
    )?;
    let after = transformed(start, list.early, &mut context, settings)?;
    let sectioned = last_section(after, &mut context, settings.report)?;
    list.add_reports(context.reports)?;
    let filtered_document = filter(alloc, sectioned, settings.report, list.reported())?;
    let (notes, highest) = list.end();
    Ok((filtered_document.into_node(), notes, highest))
}

/// A document after all transforms, in order. It may have something `early`: what the first ones act on.
fn transformed(
    document: Document,
    early: bool,
    context: &mut Context,
    settings: &Settings,
) -> Result<Document>
    requires { early ≡ false → list_any is_early (items document.children) ≡ false }
    ensures { IfOk result (Makes (transformed (profile_of settings.now) settings.now document) context.old context.new) }
{
    let retargeted = with_early(document, early, settings.parts.unmarked, context)?;
    let titled = if settings.title {
        title(retargeted, context)?
    } else {
        retargeted
    };
    let informed = if settings.info {
        docinfo(titled, settings.parts, context)?
    } else {
        titled
    };
    let listed = if settings.parts.directives {
        contents(informed, context)?
    } else {
        informed
    };
    let linked = resolve_links(listed, context)?;
    let after = transitions(linked, context)?;
    Ok(after)
}

/// A document whose substitution references are replaced, and whose internal targets handed on their ids and names. Most have neither.
fn with_early(
    document: Document,
    early: bool,
    unmarked: bool,
    context: &mut Context,
) -> Result<Document>
    requires { early ≡ false → list_any is_early (items document.children) ≡ false }
    ensures { IfOk result (Makes (λ known. let expanded = with_expansions document known in with_targets unmarked expanded.0 expanded.1) context.old context.new) }
{
    if !early {
        return Ok(document);
    }
    let expanded = expand(document, context)?;
    let retargeted = targets(expanded, unmarked, context)?;
    Ok(retargeted)
}
