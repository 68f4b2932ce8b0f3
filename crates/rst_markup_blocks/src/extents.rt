//! Explicit markup with its extents.
ghost use Rattle.std.specs.Prelude.{◌≡◌, ◌+◌, ◌-◌, ◌*◌, ◌^◌, ◌<◌, ◌≤◌, Some, IsTrue, length, drop, chars};
ghost use Rattle.rst_markup_blocks.specs.Prelude.{first_text, Looked, reach, block_of};
ghost use Rattle.rst_markup_lines.specs.ExplicitMarks as marks;
ghost use Rattle.rst_markup_lines.specs.Place as places;
ghost use Rattle.rst_markup_blocks.specs.Explicit as spec;
ghost use Rattle.rst_markup_blocks.specs.ExplicitMarkup.{explicit_form, hanging_part};
ghost use Rattle.rst_markup_blocks.specs.Kinds.{kind_of};
ghost use Rattle.rst_markup_blocks.specs.Sizes.{hanging_size, indented_size};

use super::ends::{hanging_end, indented_end};
use super::explicit_markup::{ExplicitForm, explicit_form, hanging_part};
use super::forms::{CommentCause, Explicit, Invocation};
use super::lines::below_text;
use super::part::Part;
use rst_markup_lines::{
    Characters, DirectiveMark, LabelKind, LabelMark, Marker, TargetMark, directive_mark_of, dots,
    is_blank, underscores,
};
use rst_text::{Looks, View, skip};

/// The `len` characters after `from` others.
fn place_of(from: usize, len: usize) -> Characters
    requires { from + len < 2 ^ 64 }
    ensures { result ≡ places.place_of from len }
{
    Characters {
        from,
        to: from + len,
    }
}

/// The text of a target, after `n` characters of the line at place `i`.
fn target_part(view: &View<'_>, i: usize, n: usize, looks: &mut Looks) -> Part
    requires inside { i < length (block_of view.now) }
    ensures part { result ≡ spec.target_part i n (drop i (block_of view.now)) }
    ensures looked { Looked (indented_size (drop i (block_of view.now)) - 1) (indented_size (drop i (block_of view.now))) looks.old looks.new }
{
    Part {
        from: i,
        to: indented_end(view, i, looks),
        first_cut: n,
        rest_cut: 0,
    }
}

/// The directive with this mark, after `n` characters of the line at place `i`.
fn call_of(
    view: &View<'_>,
    i: usize,
    n: usize,
    mark: DirectiveMark,
    looks: &mut Looks,
) -> Invocation
    requires inside { i < length (block_of view.now) }
    requires name { n + mark.len < 2 ^ 64 }
    requires marker { n + mark.marker.cut < 2 ^ 64 }
    ensures call { result ≡ spec.call_of i n mark (drop i (block_of view.now)) }
    ensures looked { Looked (hanging_size (drop i (block_of view.now)) - 1) (2 * reach (hanging_size (drop i (block_of view.now))) (drop i (block_of view.now)) - 2) looks.old looks.new }
{
    let marker = mark.marker;
    Invocation {
        name: place_of(n, mark.len),
        block: hanging_part(view, i, n + marker.cut, marker.bare, looks),
    }
}

/// The footnote or citation with this label, after `n` characters of the line at place `i`.
fn label_with(view: &View<'_>, i: usize, n: usize, mark: LabelMark, looks: &mut Looks) -> Explicit
    requires inside { i < length (block_of view.now) }
    requires label { n + 1 + mark.len < 2 ^ 64 }
    requires marker { n + mark.marker.cut < 2 ^ 64 }
    ensures explicit { result ≡ spec.label_with mark.kind (places.place_of (n + 1) mark.len) (hanging_part i (n + mark.marker.cut) mark.marker.bare (drop i (block_of view.now))) }
    ensures looked { Looked (hanging_size (drop i (block_of view.now)) - 1) (2 * reach (hanging_size (drop i (block_of view.now))) (drop i (block_of view.now)) - 2) looks.old looks.new }
{
    let label = place_of(n + 1, mark.len);
    let marker = mark.marker;
    let body = hanging_part(view, i, n + marker.cut, marker.bare, looks);
    match mark.kind {
        LabelKind::Footnote => Explicit::Footnote { label, body },
        LabelKind::Citation => Explicit::Citation { label, body },
    }
}

/// The target with this mark, after `n` characters of the line at place `i`.
fn target_with(view: &View<'_>, i: usize, n: usize, mark: TargetMark, looks: &mut Looks) -> Explicit
    requires inside { i < length (block_of view.now) }
    requires mark { spec.IsTargetShort n mark }
    ensures explicit { result ≡ spec.target_with i n mark (drop i (block_of view.now)) }
    ensures looked { Looked (indented_size (drop i (block_of view.now)) - 1) (indented_size (drop i (block_of view.now))) looks.old looks.new }
{
    match mark {
        TargetMark::Named { from, len, marker } => Explicit::Target {
            name: place_of(n + from, len),
            text: target_part(view, i, n + marker.cut, looks),
        },
        TargetMark::Anonymous(marker) => Explicit::Anonymous {
            text: target_part(view, i, n + marker.cut, looks),
        },
    }
}

/// The substitution definition with this name; `n` characters of the line at place `i` are before what it holds.
#[tactic(auto, unfolding(crate::specs::Explicit::embedded_directive))]
fn substitution_with(
    view: &View<'_>,
    i: usize,
    text: &str,
    name: Characters,
    n: usize,
    looks: &mut Looks,
) -> Explicit
    requires inside { i < length (block_of view.now) }
    requires text { chars text.now ≡ first_text (drop i (block_of view.now)) }
    requires within_text { n ≤ length (chars text.now) }
    ensures explicit { result ≡ spec.substitution_with i name n (drop i (block_of view.now)) }
    ensures looked { Looked (hanging_size (drop i (block_of view.now)) - 1) (2 * reach (hanging_size (drop i (block_of view.now))) (drop i (block_of view.now)) - 1) looks.old looks.new }
{
    match directive_mark_of(false, skip(text, n)) {
        Some(mark) => {
            let call = call_of(view, i, n, mark, looks);
            Explicit::Substitution {
                name,
                embedded: Some(call),
                end_: call.block.to,
            }
        }
        None => Explicit::Substitution {
            name,
            embedded: None,
            end_: hanging_end(view, i, looks),
        },
    }
}

/// The explicit markup of a form in the line at place `i`, after dots that make this marker.
fn explicit_by(
    view: &View<'_>,
    i: usize,
    text: &str,
    form: ExplicitForm,
    marker: Marker,
    looks: &mut Looks,
) -> Explicit
    requires inside { i < length (block_of view.now) }
    requires text { chars text.now ≡ first_text (drop i (block_of view.now)) }
    requires form { form ≡ explicit_form (drop marker.cut (chars text.now)) }
    requires marker { marker.cut ≤ length (chars text.now) }
    ensures explicit { result ≡ spec.explicit_by form i marker (drop i (block_of view.now)) }
    ensures looked { Looked (spec.explicit_end 0 (spec.explicit_by form 0 marker (drop i (block_of view.now))) - 1) (2 * reach (spec.explicit_end 0 (spec.explicit_by form 0 marker (drop i (block_of view.now)))) (drop i (block_of view.now)) - 1) looks.old looks.new }
{
    let n = marker.cut;
    match form {
        ExplicitForm::Label(mark) => label_with(view, i, n, mark, looks),
        ExplicitForm::Target(mark) => target_with(view, i, n, mark, looks),
        ExplicitForm::Substitution { len, marker } => {
            substitution_with(view, i, text, place_of(n + 1, len), n + marker.cut, looks)
        }
        ExplicitForm::Directive(mark) => Explicit::Directive(call_of(view, i, n, mark, looks)),
        ExplicitForm::Comment(cause) => Explicit::Comment {
            text: hanging_part(view, i, n, false, looks),
            cause,
        },
    }
}

/// The explicit markup in the line at place `i`, after dots that make this marker.
#[tactic(auto, unfolding(crate::specs::Explicit::after_dots))]
pub(crate) fn after_dots(
    view: &View<'_>,
    i: usize,
    text: &str,
    marker: Marker,
    looks: &mut Looks,
) -> Explicit
    requires inside { i < length (block_of view.now) }
    requires text { chars text.now ≡ first_text (drop i (block_of view.now)) }
    requires marker { marker.cut ≤ length (chars text.now) }
    ensures explicit { result ≡ spec.after_dots i marker (drop i (block_of view.now)) }
    ensures looked { Looked (spec.explicit_end 0 (spec.after_dots 0 marker (drop i (block_of view.now))) - 1) (2 * reach (spec.explicit_end 0 (spec.after_dots 0 marker (drop i (block_of view.now)))) (drop i (block_of view.now)) - 1) looks.old looks.new }
{
    if marker.bare {
        if is_blank(below_text(view, i, 1, looks)) {
            return Explicit::EmptyComment;
        }
        return Explicit::Comment {
            text: hanging_part(view, i, marker.cut, true, looks),
            cause: CommentCause::Plain,
        };
    }
    let form = explicit_form(skip(text, marker.cut));
    explicit_by(view, i, text, form, marker, looks)
}

/// The explicit markup that begins in the line at place `i`: what it is, with its extents (Markup Specification,
/// 'Explicit Markup Blocks'). Each extent is a part of the view, and each label or name is in the line. It makes at
/// most two looks for each line of the markup's reach.
pub fn explicit(view: &View<'_>, i: usize, looks: &mut Looks) -> Explicit
    requires inside { i < length (block_of view.now) }
    requires kind { IsTrue (spec.is_explicit_kind (kind_of (block_of view.now) i)) }
    ensures explicit { result ≡ spec.explicit_of i (drop i (block_of view.now)) }
    ensures within { spec.IsExplicitIn (block_of view.now) i result }
    ensures end { spec.explicit_end i result ≡ i + spec.explicit_size (drop i (block_of view.now)) }
    ensures looked { Looked (spec.explicit_size (drop i (block_of view.now))) (2 * reach (spec.explicit_size (drop i (block_of view.now))) (drop i (block_of view.now))) looks.old looks.new }
{
    let text = view.line(i, looks);
    match dots(text) {
        Some(marker) => after_dots(view, i, text, marker, looks),
        // An anonymous target.
        None => {
            let Some(marker) = underscores(text) else {
                unreachable!()
            };
            Explicit::Anonymous {
                text: target_part(view, i, marker.cut, looks),
            }
        }
    }
}
