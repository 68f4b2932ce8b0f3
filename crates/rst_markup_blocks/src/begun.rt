//! What begins at a line, with the data of its mark.
ghost use Rattle.std.specs.Prelude.{◌≡◌, ℕ, List, ◌<◌, false, length, drop, chars};
ghost use Rattle.rst_settings.specs.declared.Parts.{Parts};
ghost use Rattle.rst_markup_blocks.specs.Prelude.{Block, first_parts, first_text, is_blank, Looked, block_of};
ghost use Rattle.rst_markup_blocks.specs.Conditions.{next_text, after_text};
ghost use Rattle.rst_markup_blocks.specs.Kinds.{first_kind, kind_at, kind_of, later_kinds};
ghost use Rattle.rst_markup_blocks.specs.Begun as spec;

use super::kind::Kind;
use super::lines::below_text;
use super::row::{item_enumerator, item_option};
use rst_markup_lines::{
    Adornment, Enumerator, FieldMark, Marker, adornment_of, begins_with, bullet, doctest, dots,
    enumerator_of, field_of, first_char, is_blank, is_grid_border, is_simple_border, line_bar,
    underscores,
};
use rst_settings::Parts;
use rst_text::{Looks, View};

/// What begins at a line: its [`Kind`], with the mark by which it is of that kind.
#[derive(Clone, Copy, Debug, PartialEq, Eq)]
pub enum Begun {
    Blank,
    Quote,
    Bullet { mark: char, marker: Marker },
    Enumerator(Enumerator),
    Field(FieldMark),
    OptionItem(Marker),
    Doctest,
    Line(Marker),
    Grid,
    Simple,
    Explicit,
    Anonymous,
    Adornment(Adornment),
    Text,
}

impl Begun {
    /// The kind of a line at which this begins.
    pub fn kind(self) -> Kind
        ensures { result ≡ spec.kind_in self }
    {
        match self {
            Begun::Blank => Kind::Blank,
            Begun::Quote => Kind::Quote,
            Begun::Bullet { .. } => Kind::Bullet,
            Begun::Enumerator(_) => Kind::Enumerator,
            Begun::Field(_) => Kind::Field,
            Begun::OptionItem(_) => Kind::OptionItem,
            Begun::Doctest => Kind::Doctest,
            Begun::Line(_) => Kind::Line,
            Begun::Grid => Kind::Grid,
            Begun::Simple => Kind::Simple,
            Begun::Explicit => Kind::Explicit,
            Begun::Anonymous => Kind::Anonymous,
            Begun::Adornment(_) => Kind::Adornment,
            Begun::Text => Kind::Text,
        }
    }
}

/// The kind of the line at place `i`. It makes at most three looks.
pub fn kind_of(view: &View<'_>, i: usize, looks: &mut Looks) -> Kind
    requires inside { i < length (block_of view.now) }
    ensures kind { result ≡ kind_of (block_of view.now) i }
    ensures looked { Looked 1 3 looks.old looks.new }
{
    begun_at(view, i, looks).kind()
}

/// What begins at the line at place `at`, in at most three looks.
// In its caller most lines, blank ones and texts, cost a few tests.
#[inline(always)]
pub fn begun_at(view: &View<'_>, at: usize, looks: &mut Looks) -> Begun
    requires inside { at < length (block_of view.now) }
    ensures begun { spec.IsBegun (drop at (block_of view.now)) result }
    ensures looked { Looked 1 3 looks.old looks.new }
{
    let text = view.line(at, looks);
    if is_blank(text) {
        return Begun::Blank;
    }
    // Most lines begin with a letter, at which only an enumerator or a text can begin.
    if let Some(c) = first_char(text) {
        if c.is_ascii_alphabetic() && enumerator_of(text).is_none() {
            return Begun::Text;
        }
    }
    let next = below_text(view, at, 1, looks);
    let after = below_text(view, at, 2, looks);
    begun_by(view.parts(at), text, next, after)
}

/// What begins at a line that isn't blank, with these parts, before the next two: the first row of the table of constructs whose condition holds.
#[inline(never)]
#[tactic(auto, using(crate::proofs::KindRows::bullet_is))]
fn begun_by(parts: &Parts, text: &str, next: &str, after: &str) -> Begun
    requires { is_blank (chars text.now) ≡ false }
    ensures kind { (X : Block) → first_parts X ≡ parts.now → first_text X ≡ chars text.now → next_text X ≡ chars next.now → after_text X ≡ chars after.now → spec.kind_in result ≡ kind_at X }
    ensures mark { spec.IsMarked parts.now (chars text.now) (chars next.now) (chars after.now) result }
{
    if begins_with(' ', text) {
        return Begun::Quote;
    }
    if let (Some(mark), Some(marker)) = (first_char(text), bullet(text)) {
        return Begun::Bullet { mark, marker };
    }
    if let Some(enumerator) = item_enumerator(text, next) {
        return Begun::Enumerator(enumerator);
    }
    if let Some(mark) = field_of(parts, text) {
        return Begun::Field(mark);
    }
    if let Some(marker) = item_option(text, next, after) {
        return Begun::OptionItem(marker);
    }
    later_begun(text)
}

/// The same by those rows whose conditions look at the line alone, from the doctest block on.
#[tactic(auto, using(crate::proofs::KindRows::later_kind_is))]
fn later_begun(text: &str) -> Begun
    ensures kind { (X : Block) → first_text X ≡ chars text.now → spec.kind_in result ≡ first_kind later_kinds X }
    ensures mark { (parts : Parts) (next after : List ℕ) → spec.IsMarked parts (chars text.now) next after result }
{
    if doctest(text).is_some() {
        return Begun::Doctest;
    }
    if let Some(marker) = line_bar(text) {
        return Begun::Line(marker);
    }
    if is_grid_border(text) {
        return Begun::Grid;
    }
    if is_simple_border(text) {
        return Begun::Simple;
    }
    if dots(text).is_some() {
        return Begun::Explicit;
    }
    if underscores(text).is_some() {
        return Begun::Anonymous;
    }
    match adornment_of(text) {
        Some(mark) => Begun::Adornment(mark),
        None => Begun::Text,
    }
}
