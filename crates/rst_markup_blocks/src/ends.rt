//! Where constructs end.
ghost use Rattle.std.specs.Prelude.{◌≡◌, ◌+◌, ◌-◌, ◌*◌, ◌<◌, ◌≤◌, length, drop, chars};
ghost use Rattle.rst_markup_blocks.specs.Prelude.{first_text, Looked, capped, reach, block_of};
ghost use Rattle.rst_markup_blocks.specs.Conditions.{next_text};
ghost use Rattle.rst_markup_blocks.specs.Sizes as spec;

use super::form::{TextForm, text_form};
use super::lines::{LineTest, below_end, lines_end, text_at};
use rst_markup_lines::{Marker, ends_in_colons, first_char, is_punctuation};
use rst_text::{Looks, View};

/// The place after the line at place `i` and the indented block below it.
#[tactic(auto, unfolding(crate::specs::Sizes::hanging_size))]
pub(crate) fn hanging_end(view: &View<'_>, i: usize, looks: &mut Looks) -> usize
    requires inside { i < length (block_of view.now) }
    ensures end { result ≡ i + spec.hanging_size (drop i (block_of view.now)) }
    ensures looked { Looked (spec.hanging_size (drop i (block_of view.now)) - 1) (reach (spec.hanging_size (drop i (block_of view.now))) (drop i (block_of view.now)) - 1) looks.old looks.new }
{
    below_end(view, i, 1, looks)
}

/// The place after the item at place `i` that begins with this marker.
#[tactic(auto, unfolding(crate::specs::Sizes::least_below))]
pub fn item_end(view: &View<'_>, i: usize, marker: Marker, looks: &mut Looks) -> usize
    requires inside { i < length (block_of view.now) }
    ensures end { result ≡ i + spec.item_size marker (drop i (block_of view.now)) }
    ensures looked { Looked (spec.item_size marker (drop i (block_of view.now)) - 1) (reach (spec.item_size marker (drop i (block_of view.now))) (drop i (block_of view.now)) - 1) looks.old looks.new }
{
    let least = if marker.bare { 1 } else { marker.cut };
    below_end(view, i, least, looks)
}

/// The place after the line at place `i` and the lines below it that pass a test.
#[tactic(auto, unfolding(crate::specs::Sizes::run_size))]
fn run_below_end(view: &View<'_>, i: usize, test: LineTest, looks: &mut Looks) -> usize
    requires inside { i < length (block_of view.now) }
    ensures end { result ≡ i + spec.run_size test (drop i (block_of view.now)) }
    ensures within { result ≤ length (block_of view.now) }
    ensures after { i < result }
    ensures looked { Looked (spec.run_size test (drop i (block_of view.now)) - 1) (spec.run_size test (drop i (block_of view.now))) looks.old looks.new }
{
    prove!(i < view.len());
    lines_end(view, i + 1, test, looks)
}

/// The place after the line at place `i` and the indented lines below it, up to a blank one.
#[tactic(auto, unfolding(crate::specs::Sizes::indented_size))]
pub fn indented_end(view: &View<'_>, i: usize, looks: &mut Looks) -> usize
    requires inside { i < length (block_of view.now) }
    ensures end { result ≡ i + spec.indented_size (drop i (block_of view.now)) }
    ensures looked { Looked (spec.indented_size (drop i (block_of view.now)) - 1) (spec.indented_size (drop i (block_of view.now))) looks.old looks.new }
{
    run_below_end(view, i, LineTest::Indented, looks)
}

/// The place after the literal block that begins at place `from` or after blank lines there: an indented block, or
/// lines that begin with the punctuation character that the first of them begins with. It is `from` where there is none.
fn literal_end(view: &View<'_>, from: usize, looks: &mut Looks) -> usize
    requires inside { from ≤ length (block_of view.now) }
    ensures end { result ≡ from + spec.literal_size (drop from (block_of view.now)) }
    ensures looked { Looked 0 (4 * reach (spec.literal_size (drop from (block_of view.now))) (drop from (block_of view.now))) looks.old looks.new }
{
    prove!(from <= view.len());
    let indented = view.block_end(from, None, looks).end;
    if from < indented {
        return indented;
    }
    let start = lines_end(view, from, LineTest::Blank, looks);
    match first_char(text_at(view, start, looks)) {
        Some(c) if is_punctuation(c) => lines_end(view, start, LineTest::Begins(c), looks),
        _ => from,
    }
}

/// The place after the paragraph that begins at place `i`, with the literal block that it announces.
fn paragraph_end(view: &View<'_>, i: usize, looks: &mut Looks) -> usize
    requires inside { i < length (block_of view.now) }
    ensures end { result ≡ i + spec.paragraph_size (drop i (block_of view.now)) }
    ensures looks { looks.new + 1 + spec.paragraph_len (drop i (block_of view.now)) ≤ looks.old + 4 * reach (spec.paragraph_size (drop i (block_of view.now))) (drop i (block_of view.now)) }
    ensures low { capped looks.old ≤ looks.new }
{
    let end = run_below_end(view, i, LineTest::Plain, looks);
    if ends_in_colons(text_at(view, end - 1, looks)) {
        return literal_end(view, end, looks);
    }
    end
}

/// The place after what the line of text at place `i` begins, where `text` is that line and `next` the one below.
pub(crate) fn text_end(
    view: &View<'_>,
    i: usize,
    text: &str,
    next: &str,
    looks: &mut Looks,
) -> usize
    requires inside { i < length (block_of view.now) }
    requires text { chars text.now ≡ first_text (drop i (block_of view.now)) }
    requires next { chars next.now ≡ next_text (drop i (block_of view.now)) }
    ensures end { result ≡ i + spec.text_size (drop i (block_of view.now)) }
    ensures looks { looks.new + 2 + spec.overline_looks (next_text (drop i (block_of view.now))) ≤ looks.old + 4 * reach (spec.text_size (drop i (block_of view.now))) (drop i (block_of view.now)) }
    ensures low { capped looks.old ≤ looks.new }
{
    prove!(i < view.len());
    match text_form(text, next) {
        TextForm::Paragraph | TextForm::ShortUnderline => paragraph_end(view, i, looks),
        TextForm::Definition => hanging_end(view, i, looks),
        TextForm::Title { .. } => i + 2,
    }
}
