//! Marks of explicit markup: `..` and `__`, and what follows `..`.
ghost use Rattle.std.specs.Prelude.{◌≡◌, ◌<◌, ◌≤◌, ◌-◌, ◌&&◌, ◌||◌, true, drop, take, length, chars};
ghost use Rattle.rst_text.specs.Characters as characters;
ghost use Rattle.rst_text.specs.Characters.{is_alnum_at};
ghost use Rattle.rst_text.specs.SimpleNames as names;
ghost use Rattle.rst_markup_lines.specs.ExplicitMarks as spec;
ghost use Rattle.rst_markup_lines.specs.TextStart.{begins_with};

use super::class::{Class, run};
use super::closing::{Closing, closed};
use super::marker::{Marker, marker_of};
use super::text::{after_first, begins_with, first_char, is_blank};
use rst_text::{is_alphanumeric, is_joint, is_white, skip};

/// The marker of explicit markup: `..`.
#[tactic(auto, unfolding(crate::specs::ExplicitMarks::dots))]
pub fn dots(text: &str) -> Option<Marker>
    ensures { result ≡ spec.dots (chars text.now) }
{
    if begins_with('.', text) && begins_with('.', skip(text, 1)) {
        marker_of(2, text)
    } else {
        None
    }
}

/// The marker of an anonymous target: `__`.
#[tactic(auto, unfolding(crate::specs::ExplicitMarks::underscores))]
pub fn underscores(text: &str) -> Option<Marker>
    ensures { result ≡ spec.underscores (chars text.now) }
{
    if begins_with('_', text) && begins_with('_', skip(text, 1)) {
        marker_of(2, text)
    } else {
        None
    }
}

/// Whether a text begins with a letter or a number.
fn begins_alphanumeric(text: &str) -> bool
    ensures { result ≡ is_alnum_at (chars text.now) 0 }
{
    match first_char(text) {
        Some(c) => is_alphanumeric(c),
        None => false,
    }
}

/// Whether a character after those of a simple name goes on with it: a letter or a number does, and a joint with one
/// of these after it.
fn goes_on(c: char, following: &str) -> bool
    ensures { result ≡ (characters.is_alphanumeric c || (names.is_joint c && is_alnum_at (chars following.now) 0)) }
{
    is_alphanumeric(c) || (is_joint(c) && begins_alphanumeric(following))
}

/// How many characters the simple name at the front of a text has; 0 where there is none.
fn simple_name(text: &str) -> usize
    ensures value { result ≡ names.simple_name (chars text.now) }
    ensures within { result ≤ length text.now }
{
    if !begins_alphanumeric(text) {
        return 0;
    }
    let mut rest = text;
    let mut n = 0;
    while let Some(c) = first_char(rest) {
        let following = after_first(rest);
        if !goes_on(c, following) {
            break;
        }
        n += 1;
        rest = following;
    }
    n
}

/// What a label in brackets labels.
#[derive(Clone, Copy, Debug, PartialEq, Eq)]
pub enum LabelKind {
    Footnote,
    Citation,
}

/// A label in brackets: how many characters it has without them, and the marker that it is with them.
#[derive(Clone, Copy, Debug, PartialEq, Eq)]
pub struct LabelMark {
    pub kind: LabelKind,
    pub len: usize,
    pub marker: Marker,
}

/// What the first `len` characters of a text label, which `]` follows: digits, `#`, `#` and a simple name, and `*` a
/// footnote, another simple name a citation, all else nothing.
#[tactic(auto, using(crate::proofs::LabelLemmas::kind_before))]
fn label_kind(len: usize, text: &str) -> Option<LabelKind>
    requires { begins_with 93 (drop len (chars text.now)) ≡ true }
    ensures { result ≡ spec.label_kind (take len (chars text.now)) }
{
    if len == 0 {
        return None;
    }
    if run(Class::Digit, text) == len {
        return Some(LabelKind::Footnote);
    }
    if begins_with('*', text) && len == 1 {
        return Some(LabelKind::Footnote);
    }
    if begins_with('#', text) && simple_name(skip(text, 1)) == len - 1 {
        return Some(LabelKind::Footnote);
    }
    if simple_name(text) == len {
        return Some(LabelKind::Citation);
    }
    None
}

/// The label in brackets at the front of a text.
#[tactic(auto, unfolding(crate::specs::ExplicitMarks::label_of))]
pub fn label_of(text: &str) -> Option<LabelMark>
    ensures { result ≡ spec.label_of (chars text.now) }
{
    if !begins_with('[', text) {
        return None;
    }
    let following = skip(text, 1);
    let len = run(Class::Unbracketed, following);
    if !begins_with(']', skip(following, len)) {
        return None;
    }
    let kind = label_kind(len, following)?;
    let marker = marker_of(len + 2, text)?;
    Some(LabelMark { kind, len, marker })
}

/// A target's mark: where its name begins and how many characters that has, if it has one, and the marker.
#[derive(Clone, Copy, Debug, PartialEq, Eq)]
pub enum TargetMark {
    Named {
        from: usize,
        len: usize,
        marker: Marker,
    },
    Anonymous(Marker),
}

/// Whether a text begins with a white character.
fn begins_white(text: &str) -> bool
    ensures { result ≡ spec.begins_white (chars text.now) }
{
    match first_char(text) {
        Some(c) => is_white(c),
        None => false,
    }
}

/// The target mark at the front of a text: `__:`, `` _`name`: `` or `_name:`.
#[tactic(auto, unfolding(crate::specs::ExplicitMarks::target_of, crate::specs::ExplicitMarks::anonymous_target, crate::specs::ExplicitMarks::quoted_target, crate::specs::ExplicitMarks::plain_target))]
pub fn target_of(text: &str) -> Option<TargetMark>
    ensures { result ≡ spec.target_of (chars text.now) }
{
    if !begins_with('_', text) {
        return None;
    }
    let following = skip(text, 1);
    if begins_with('_', following) {
        if !begins_with(':', skip(text, 2)) {
            return None;
        }
        let marker = marker_of(3, text)?;
        return Some(TargetMark::Anonymous(marker));
    }
    if begins_with('`', following) {
        let quoted = skip(text, 2);
        let len = closed(Closing::QuotedColon, quoted)?;
        if len == 0 || begins_white(quoted) || begins_with('`', quoted) {
            return None;
        }
        let marker = marker_of(len + 4, text)?;
        return Some(TargetMark::Named {
            from: 2,
            len,
            marker,
        });
    }
    let len = closed(Closing::Colon, following)?;
    if len == 0 || begins_white(following) {
        return None;
    }
    let marker = marker_of(len + 2, text)?;
    Some(TargetMark::Named {
        from: 1,
        len,
        marker,
    })
}

/// What a text that begins with a bar and a character that isn't white is.
#[derive(Clone, Copy, Debug, PartialEq, Eq)]
pub enum SubstitutionMark {
    /// A name between bars with a space after them: how many characters it has, and the marker.
    Named { len: usize, marker: Marker },
    /// No bar closes the first.
    Unclosed,
    /// A bar closes the first, with something other than a space after it.
    Tight,
}

/// The substitution mark at the front of a text; none where it doesn't begin with a bar and a character that isn't
/// white.
#[tactic(auto, unfolding(crate::specs::ExplicitMarks::substitution_of))]
pub fn substitution_of(text: &str) -> Option<SubstitutionMark>
    ensures { result ≡ spec.substitution_of (chars text.now) }
{
    if !begins_with('|', text) {
        return None;
    }
    let following = skip(text, 1);
    if is_blank(following) || begins_white(following) {
        return None;
    }
    if let Some(len) = closed(Closing::SpacedBar, following) {
        let marker = marker_of(len + 2, text)?;
        return Some(SubstitutionMark::Named { len, marker });
    }
    match closed(Closing::Bar, following) {
        Some(_) => Some(SubstitutionMark::Tight),
        None => Some(SubstitutionMark::Unclosed),
    }
}

/// A directive's mark: how many characters its name has, and the marker.
#[derive(Clone, Copy, Debug, PartialEq, Eq)]
pub struct DirectiveMark {
    pub len: usize,
    pub marker: Marker,
}

/// The directive mark at the front of a text: a simple name and `::`, between which a space may be if `spaced`
/// is true.
#[tactic(auto, unfolding(crate::specs::ExplicitMarks::directive_mark_of, crate::specs::ExplicitMarks::colons))]
pub fn directive_mark_of(spaced: bool, text: &str) -> Option<DirectiveMark>
    ensures { result ≡ spec.directive_mark_of spaced (chars text.now) }
{
    let len = simple_name(text);
    if len == 0 {
        return None;
    }
    let n = if spaced && begins_with(' ', skip(text, len)) {
        len + 1
    } else {
        len
    };
    if !begins_with(':', skip(text, n)) || !begins_with(':', skip(text, n + 1)) {
        return None;
    }
    let marker = marker_of(n + 2, text)?;
    Some(DirectiveMark { len, marker })
}
