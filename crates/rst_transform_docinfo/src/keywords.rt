//! Keywords of revision control in a text (Markup Specification, 'RCS Keywords').
ghost use Rattle.std.specs.Prelude.{◌≡◌, ◌≤◌, ◌+◌, ◌++◌, true, length, IfOk, IfSome, List, Some, None, MatchOption, map, ◌==◌, encode_utf8_all};
ghost use Rattle.std.specs.Char.{is_ascii_alphabetic};
ghost use Rattle.std.specs.List.{prefix_len, slice_split};
ghost use Rattle.rst_transform_docinfo.specs.Keywords as spec;

use rst_text::characters_of;
use rst_tree::{Result, Text};
use std::alloc::Global;

/// How a keyword is written, if it is no date.
#[derive(Clone, Copy)]
pub enum Form {
    /// `$RCSfile: VALUE,v $`.
    File,
    /// `$NAME: VALUE $`.
    Named,
}

impl Form {
    /// What a keyword ends with.
    fn end(self) -> &'static str
        ensures { result.now ≡ spec.end_of self }
    {
        match self {
            Form::File => ",v $",
            Form::Named => " $",
        }
    }
}

/// A text with the values of its keywords in their place: those of dates, or if there is none, those of files, or if there is none of
/// these either, those of any names.
///
/// The only refusal is [`std::alloc::AllocError`].
pub fn without_keywords(alloc: Global, text: &str) -> Result<Text>
    ensures { IfOk result (λ t. t ≡ spec.text_without_keywords text.now) }
{
    let text = characters_of(alloc, text)?;
    let dated = with_days(alloc, &text)?;
    if dated.len() < text.len() {
        return text_of(alloc, &dated);
    }
    let named = with_values(alloc, &text, Form::File)?;
    if named.len() < text.len() {
        return text_of(alloc, &named);
    }
    text_of(alloc, &with_values(alloc, &text, Form::Named)?)
}

/// The characters as a text.
fn text_of(alloc: Global, characters: &[char]) -> Result<Text>
    ensures { IfOk result (λ text. text ≡ encode_utf8_all characters.now) }
{
    let text: String = characters.iter().copied().collect(alloc)?;
    Ok(Text::new(text))
}

/// A text with the day of each date in its place.
fn with_days(alloc: Global, text: &[char]) -> Result<Vec<char>>
    ensures { IfOk result (λ dated. dated.items ≡ spec.with_days (spec.by_dollars text.now)) }
{
    let pieces = pieces(alloc, text, '$')?;
    let mut rest = pieces.as_slice();
    let mut dated = Vec::new(alloc);
    loop {
        let [piece, more @ ..] = rest else {
            return Ok(dated);
        };
        dated.extend_from_slice(piece)?;
        let [_, after @ ..] = more else {
            return Ok(dated);
        };
        if let Some(date) = first_date(more) {
            add_day(&mut dated, date)?;
            rest = after;
        } else {
            dated.push('$')?;
            rest = more;
        }
    }
}

/// The pieces between these characters in a text.
fn pieces(alloc: Global, text: &[char], separator: char) -> Result<Vec<&[char]>>
    ensures { IfOk result (λ pieces. map (λ piece. piece.now) pieces.items ≡ slice_split (λ c. c == separator) text.now) }
{
    text.split(|c| *c == separator).collect(alloc)
}

/// The date that pieces begin with, if a dollar sign follows it.
fn first_date<'a>(pieces: &[&'a [char]]) -> Option<&'a [char]>
    ensures value { MatchOption result (spec.first_date (map (λ piece. piece.now) pieces.now) ≡ None) (λ date. spec.first_date (map (λ piece. piece.now) pieces.now) ≡ Some date.now) }
    ensures long { IfSome result (λ date. 16 ≤ length date.now) }
{
    let [piece, _, ..] = pieces else {
        return None;
    };
    if is_date(piece) { Some(piece) } else { None }
}

/// Whether a text between two dollar signs is a date: `Date: `, a day, a time, and then anything up to a space.
fn is_date(text: &[char]) -> bool
    ensures value { result ≡ spec.is_date text.now }
    ensures long { result ≡ true → 16 ≤ length text.now }
{
    match behind(text, "date: 0000-00-00") {
        Some([' ' | 't' | 'T', '0'..='9' | ':', .., ' ']) => true,
        _ => false,
    }
}

/// Puts the day of a date after a text, with hyphens.
fn add_day(text: &mut Vec<char>, date: &[char]) -> Result<()>
    requires { 16 ≤ length date.now }
    ensures { IfOk result (λ _. text.new.items ≡ text.old.items ++ spec.day_of date.now) }
{
    for c in &date[6..16] {
        text.push(if *c == '/' { '-' } else { *c })?;
    }
    Ok(())
}

/// A text with the value of the keyword of a form in its place in each line.
fn with_values(alloc: Global, text: &[char], form: Form) -> Result<Vec<char>>
    ensures { IfOk result (λ valued. valued.items ≡ spec.with_values form text.now) }
{
    let lines = pieces(alloc, text, '\n')?;
    let mut rest = lines.as_slice();
    let mut valued = Vec::new(alloc);
    loop {
        let [line, more @ ..] = rest else {
            return Ok(valued);
        };
        add_line(&mut valued, line, form)?;
        if more.is_empty() {
            return Ok(valued);
        }
        valued.push('\n')?;
        rest = more;
    }
}

/// Puts a line after a text, with the value of the keyword of a form in its place, if there is one.
fn add_line(text: &mut Vec<char>, line: &[char], form: Form) -> Result<()>
    ensures { IfOk result (λ _. text.new.items ≡ text.old.items ++ spec.line_value form line.now) }
{
    let mut rest = line;
    while let [first, more @ ..] = rest {
        if let Some(behind) = opened(rest, form) {
            return add_value(text, rest, behind, form);
        }
        text.push(*first)?;
        rest = more;
    }
    Ok(())
}

/// Puts a line from a keyword on after a text, with the keyword's value in its place, by what follows its name.
fn add_value(text: &mut Vec<char>, line: &[char], behind: &[char], form: Form) -> Result<()>
    ensures { IfOk result (λ _. text.new.items ≡ text.old.items ++ spec.valued form line.now behind.now) }
{
    let [first, rest @ ..] = behind else {
        return text.extend_from_slice(line);
    };
    let Some((value, after)) = closed(rest, form) else {
        return text.extend_from_slice(line);
    };
    text.push(*first)?;
    text.extend_from_slice(value)?;
    text.extend_from_slice(after)
}

/// What follows the name of a keyword of a form, if a text begins with one.
fn opened(text: &[char], form: Form) -> Option<&[char]>
    ensures { MatchOption result (spec.opened form text.now ≡ None) (λ rest. spec.opened form text.now ≡ Some rest.now) }
{
    match (form, text) {
        (Form::File, _) => behind(text, "$rcsfile: "),
        (Form::Named, ['$', name @ ..]) => {
            let letters = letter_count(name);
            if letters == 0 {
                None
            } else {
                behind(&name[letters..], ": ")
            }
        }
        _ => None,
    }
}

/// How many letters of ASCII a text begins with.
fn letter_count(text: &[char]) -> usize
    ensures value { result ≡ prefix_len is_ascii_alphabetic text.now }
    ensures within { result ≤ length text.now }
{
    text.iter().take_while(|c| c.is_ascii_alphabetic()).count()
}

/// What stands before the last end of a keyword of a form, and what behind it.
fn closed(text: &[char], form: Form) -> Option<(&[char], &[char])>
    ensures { MatchOption result (spec.closed form text.now ≡ None) (λ parts. spec.closed form text.now ≡ Some (parts.0.now ++ parts.1.now)) }
{
    let mut i = text.len();
    while i > 0 {
        i -= 1;
        if let Some(after) = behind(&text[i..], form.end()) {
            return Some((&text[..i], after));
        }
    }
    None
}

/// What follows a mark, if a text begins with it: letters are in any case, 0 stands for a digit and a hyphen for a slash, too.
#[tactic(auto, using(crate::proofs::KeywordLemmas::no_text, crate::proofs::KeywordLemmas::other_text))]
fn behind<'a>(text: &'a [char], mark: &str) -> Option<&'a [char]>
    ensures value { MatchOption result (spec.behind mark.now text.now ≡ None) (λ rest. spec.behind mark.now text.now ≡ Some rest.now) }
    ensures length { IfSome result (λ rest. length rest.now + length mark.now ≡ length text.now) }
{
    let mut rest = text;
    for b in mark.as_bytes() {
        let [c, more @ ..] = rest else {
            return None;
        };
        if shape(*c) != char::from(*b) {
            return None;
        }
        rest = more;
    }
    Some(rest)
}

/// What stands for a character in a mark.
fn shape(c: char) -> char
    ensures { result ≡ spec.shape c }
{
    match c {
        '0'..='9' => '0',
        '/' => '-',
        _ => c.to_ascii_lowercase(),
    }
}
