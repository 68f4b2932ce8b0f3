//! Explicit markup blocks.
ghost use Rattle.std.specs.Prelude.{◌≡◌, ◌-◌, ◌*◌, ◌<◌, length, drop, chars};
ghost use Rattle.rst_markup_blocks.specs.Prelude.{Looked, reach, block_of};
ghost use Rattle.rst_markup_blocks.specs.ExplicitMarkup as spec;
ghost use Rattle.rst_markup_blocks.specs.Sizes.{hanging_size};

use super::forms::CommentCause;
use super::lines::{LineTest, lines_end};
use super::part::Part;
use rst_markup_lines::{
    DirectiveMark, LabelMark, Marker, SubstitutionMark, TargetMark, begins_with, directive_mark_of,
    label_of, substitution_of, target_of,
};
use rst_text::{Looks, View};

/// What explicit markup is by the text after its marker.
#[derive(Clone, Copy, Debug, PartialEq, Eq)]
pub enum ExplicitForm {
    Label(LabelMark),
    Target(TargetMark),
    Substitution { len: usize, marker: Marker },
    Directive(DirectiveMark),
    Comment(CommentCause),
}

/// The form of explicit markup with this text after its marker.
#[tactic(auto, unfolding(crate::specs::ExplicitMarkup::explicit_form, crate::specs::ExplicitMarkup::comment_cause))]
pub fn explicit_form(text: &str) -> ExplicitForm
    ensures { result ≡ spec.explicit_form (chars text.now) }
{
    if let Some(label) = label_of(text) {
        return ExplicitForm::Label(label);
    }
    if let Some(target) = target_of(text) {
        return ExplicitForm::Target(target);
    }
    if let Some(SubstitutionMark::Named { len, marker }) = substitution_of(text) {
        return ExplicitForm::Substitution { len, marker };
    }
    if let Some(directive) = directive_mark_of(true, text) {
        return ExplicitForm::Directive(directive);
    }
    if begins_with('_', text) {
        return ExplicitForm::Comment(CommentCause::MalformedTarget);
    }
    match substitution_of(text) {
        Some(SubstitutionMark::Unclosed) => ExplicitForm::Comment(
            CommentCause::MalformedSubstitution,
        ),
        _ => ExplicitForm::Comment(CommentCause::Plain),
    }
}

/// The hanging block of the line at place `i`: the line without `cut` characters, and the indented block below it.
/// Where `bare` is true, as nothing is left of the line, the block begins below it, at the first line that isn't blank.
pub fn hanging_part(view: &View<'_>, i: usize, cut: usize, bare: bool, looks: &mut Looks) -> Part
    requires inside { i < length (block_of view.now) }
    ensures part { result ≡ spec.hanging_part i cut bare (drop i (block_of view.now)) }
    ensures looked { Looked (hanging_size (drop i (block_of view.now)) - 1) (2 * reach (hanging_size (drop i (block_of view.now))) (drop i (block_of view.now)) - 2) looks.old looks.new }
{
    prove!(i < view.len());
    let extent = view.block_end(i + 1, None, looks);
    if !bare {
        return Part {
            from: i,
            to: extent.end,
            first_cut: cut,
            rest_cut: extent.indent,
        };
    }
    let start = lines_end(view, i + 1, LineTest::Blank, looks);
    Part {
        from: start.min(extent.end),
        to: extent.end,
        first_cut: extent.indent,
        rest_cut: extent.indent,
    }
}
