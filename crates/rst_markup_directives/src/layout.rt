//! Where the parts of a directive's block are.
ghost use Rattle.std.specs.Prelude.{◌≡◌, ◌≤◌, length};
ghost use Rattle.rst_markup_directives.specs.Lines.{texts_of};
ghost use Rattle.rst_markup_directives.specs.Layout as spec;

use super::kind::{ArgumentKind, ContentKind, Kind};
use rst_markup_lines::field_of;
use rst_settings::Parts;

/// The parts of a block, by places of its lines: the argument has those before `argument`; the first part of the
/// content those before `first`; the options those from `options` up to the first blank line; and the second part of
/// the content those from `second` on.
#[derive(Clone, Copy)]
pub(crate) struct Layout {
    pub argument: usize,
    pub first: usize,
    pub options: usize,
    pub second: usize,
}

/// How many of some lines come before the first that begins a field.
#[tactic(auto, unfolding(crate::specs::Layout::begins_field))]
fn before_field(parts: &Parts, run: &[&str]) -> usize
    ensures value { result ≡ spec.before_field parts.now (texts_of run.now) }
    ensures within { result ≤ length run.now }
{
    for (i, line) in run.iter().enumerate() {
        if field_of(parts, line).is_some() {
            return i;
        }
    }
    run.len()
}

/// The parts of a block of `all` lines that begins with this run, up to a blank line; `rest` is the place of the first line
/// after the run that isn't blank.
#[tactic(auto, unfolding(crate::specs::Layout::layout_at))]
pub(crate) fn layout_of(parts: &Parts, kind: Kind, run: &[&str], all: usize, rest: usize) -> Layout
    ensures value { result ≡ spec.layout_at parts.now kind (texts_of run.now) all rest }
    ensures argument { result.argument ≤ length run.now }
    ensures options { result.options ≤ length run.now }
    ensures first { length run.now ≤ all → result.first ≤ all }
    ensures second { length run.now ≤ all → rest ≤ all → result.second ≤ all }
{
    match (kind.content, kind.argument) {
        (ContentKind::Paragraph | ContentKind::Quotes(_), _) => content_alone(run, all),
        (content, ArgumentKind::Absent) => {
            // The blank lines between the two parts of a text belong to it.
            let whole = content.is_text() && 0 < before_field(parts, run);
            parts_without_argument(parts, run, all, if whole { run.len() } else { rest })
        }
        (_, ArgumentKind::Classes) => Layout {
            argument: run.len(),
            first: 0,
            options: run.len(),
            second: rest,
        },
        _ => {
            // The argument ends where the options begin.
            let from = before_field(parts, run);
            Layout {
                argument: from,
                first: 0,
                options: from,
                second: rest,
            }
        }
    }
}

/// A block that is content alone.
#[tactic(auto, using(crate::proofs::FieldLemmas::length_texts))]
fn content_alone(run: &[&str], all: usize) -> Layout
    ensures value { result ≡ spec.content_alone (texts_of run.now) all }
    ensures options { result.options ≡ length run.now }
{
    Layout {
        argument: 0,
        first: all,
        options: run.len(),
        second: all,
    }
}

/// A block without an argument, whose lines before the options are content.
#[tactic(auto, using(crate::proofs::FieldLemmas::length_texts))]
fn parts_without_argument(parts: &Parts, run: &[&str], all: usize, rest: usize) -> Layout
    ensures value { result ≡ spec.parts_without_argument parts.now (texts_of run.now) all rest }
    ensures options { result.options ≤ length run.now }
    ensures first { length run.now ≤ all → result.first ≤ all }
    ensures second { rest ≤ all → result.second ≤ all }
{
    let from = before_field(parts, run);
    if from == run.len() {
        return content_alone(run, all);
    }
    Layout {
        argument: 0,
        first: from,
        options: from,
        second: rest,
    }
}
