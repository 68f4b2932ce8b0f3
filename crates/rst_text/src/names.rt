//! Names and ids of texts.
ghost use Rattle.std.specs.Prelude.{◌≡◌, ℕ, true, string_bytes, encode_utf8_all, IfOk, map};
ghost use Rattle.std.specs.Str.{chars};
ghost use Rattle.std.specs.Cow.{cow_str_bytes};
ghost use Rattle.rst_text.specs.Names as spec;
ghost use Rattle.rst_text.specs.Text.{chars_of};

use super::characters::is_white;
use std::alloc::{AllocError, Global};
use std::borrow::CowStr;
use unicode::case::simple_fold;
use unicode_normalization::to_nfkd;

/// A text with each run of white characters as one space, and none at its ends; case is kept. References show this
/// as their name.
///
/// The only refusal is [`AllocError`].
pub fn normalized_white(alloc: Global, text: &str) -> Result<String, AllocError>
    ensures { IfOk result (λ normalized. chars_of normalized ≡ spec.normalized_white (chars text.now)) }
{
    Ok(normalized_borrowed(alloc, text)?.into_owned(alloc)?)
}

/// What [`normalized_white`] gives, without a copy where the text stays as it is.
///
/// The only refusal is [`AllocError`].
pub fn normalized_borrowed(alloc: Global, text: &str) -> Result<CowStr<'_, Global>, AllocError>
    ensures { IfOk result (λ normalized. chars (cow_str_bytes normalized) ≡ spec.normalized_white (chars text.now)) }
{
    Ok(spaced::<Written>(alloc, text)?)
}

/// The name that a text gives: each run of white characters is one space, none is at its ends, and case is folded, by
/// simple folding.
///
/// The only refusal is [`AllocError`].
pub fn name_of(alloc: Global, text: &str) -> Result<String, AllocError>
    ensures { IfOk result (λ name. chars_of name ≡ spec.name_of (chars text.now)) }
{
    Ok(name_borrowed(alloc, text)?.into_owned(alloc)?)
}

/// What [`name_of`] gives, without a copy where the text stays as it is.
///
/// The only refusal is [`AllocError`].
pub fn name_borrowed(alloc: Global, text: &str) -> Result<CowStr<'_, Global>, AllocError>
    ensures { IfOk result (λ name. chars (cow_str_bytes name) ≡ spec.name_of (chars text.now)) }
{
    Ok(spaced::<Folded>(alloc, text)?)
}

/// What [`normalized_borrowed`] and [`name_borrowed`] give. A text that is its own name is looked at once.
///
/// The only refusal is [`AllocError`].
pub fn both_borrowed(
    alloc: Global,
    text: &str,
) -> Result<(CowStr<'_, Global>, CowStr<'_, Global>), AllocError>
    ensures normalized { IfOk result (λ both. chars (cow_str_bytes both.0) ≡ spec.normalized_white (chars text.now)) }
    ensures name { IfOk result (λ both. chars (cow_str_bytes both.1) ≡ spec.name_of (chars text.now)) }
{
    if is_settled::<Folded>(text) {
        return Ok((CowStr::Borrowed(text), CowStr::Borrowed(text)));
    }
    Ok((
        normalized_borrowed(alloc, text)?,
        name_borrowed(alloc, text)?,
    ))
}

/// The id that a text gives: its name in NFKD without the characters that aren't ASCII, each run of characters other
/// than a to z and 0 to 9 as one hyphen, without digits and hyphens at the front and hyphens at the end. It may be
/// empty.
///
/// The only refusal is [`AllocError`].
pub fn id_of(alloc: Global, text: &str) -> Result<String, AllocError>
    ensures { IfOk result (λ id. chars_of id ≡ spec.id_of (chars text.now)) }
{
    let name = name_borrowed(alloc, text)?;
    // ASCII is decomposed.
    if name.as_str().is_ascii() {
        return Ok(identifier_of(alloc, name.as_str())?);
    }
    let decomposed = to_nfkd(alloc, name.as_str())?;
    Ok(identifier_of(alloc, decomposed.as_str())?)
}

/// What is done with the case of characters.
trait Case {
    /// What a character is turned into.
    ghost cased: { ℕ → ℕ };

    /// What a character is turned into.
    fn cased(c: char) -> char
        ensures { result ≡ cased c };
}

/// Characters as they are written.
struct Written;

impl Case for Written {
    ghost cased = { λ c. c };

    fn cased(c: char) -> char {
        c
    }
}

/// Characters by simple case folding.
struct Folded;

impl Case for Folded {
    ghost use Rattle.unicode.specs.CaseFolding.{simple_fold};

    ghost cased = { simple_fold };

    fn cased(c: char) -> char {
        if c.is_ascii() {
            c.to_ascii_lowercase()
        } else {
            simple_fold(c)
        }
    }
}

/// Whether a text stays as it is, as ASCII mostly does: a single space between words, no other white, and each character in its case.
fn is_settled<C: Case>(text: &str) -> bool
    ensures white { result ≡ true → spec.normalized_white (chars text.now) ≡ chars text.now }
    ensures case { result ≡ true → map C.cased (chars text.now) ≡ chars text.now }
{
    let mut in_word = false;
    for byte in text.as_bytes() {
        let c = char::from(*byte);
        if !c.is_ascii() || C::cased(c) != c {
            return false;
        }
        if c > ' ' {
            in_word = true;
            continue;
        }
        if c != ' ' || !in_word {
            return false;
        }
        in_word = false;
    }
    in_word
}

/// The text with each run of white characters as one space, and none at the ends, in its case.
fn spaced<C: Case>(alloc: Global, text: &str) -> Result<CowStr<'_, Global>, AllocError>
    ensures { IfOk result (λ out. chars (cow_str_bytes out) ≡ map C.cased (spec.normalized_white (chars text.now))) }
{
    if is_settled::<C>(text) {
        return Ok(CowStr::Borrowed(text));
    }
    let mut out = String::with_capacity(alloc, text.len())?;
    let mut begun = false;
    let mut due = false;
    for c in text.chars() {
        if is_white(c) {
            due = begun;
            continue;
        }
        if due {
            out.push(C::cased(' '))?;
            due = false;
        }
        out.push(C::cased(c))?;
        begun = true;
    }
    Ok(CowStr::Owned(out))
}

/// Whether an id may hold a character, hyphens apart.
#[tactic(auto, unfolding(crate::specs::Names::is_id_char))]
fn is_id_char(c: char) -> bool
    ensures { result ≡ spec.is_id_char c }
{
    c.is_ascii_lowercase() || c.is_ascii_digit()
}

/// Decomposed characters as an identifier.
fn identifier_of(alloc: Global, decomposed: &str) -> Result<String, AllocError>
    ensures { IfOk result (λ id. string_bytes id ≡ encode_utf8_all (spec.identifier_of (chars decomposed.now))) }
{
    let mut id = String::with_capacity(alloc, decomposed.len())?;
    let mut begun = false;
    let mut due = false;
    for c in decomposed.chars() {
        if !begun {
            if c.is_ascii_lowercase() {
                id.push(c)?;
                begun = true;
            }
            continue;
        }
        if !c.is_ascii() {
            continue;
        }
        if !is_id_char(c) {
            due = true;
            continue;
        }
        if due {
            id.push('-')?;
            due = false;
        }
        id.push(c)?;
    }
    Ok(id)
}
