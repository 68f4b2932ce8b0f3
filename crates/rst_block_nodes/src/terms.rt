//! Terms of definition lists, with their classifiers.
ghost use Rattle.std.specs.Prelude.{◌≡◌, ◌≤◌, false, [], ◌++◌, map, length, IfOk, Ok, chars};
ghost use Rattle.rst_tree.specs.Sends.{counted_on};
ghost use Rattle.rst_block_nodes.specs.Readings.{termed};
ghost use Rattle.rst_block_nodes.specs.Results.{HeadsText};
ghost use Rattle.rst_block_nodes.specs.Terms.{ended_groups, heads_of, with_parts, parts_of_pieces, letters_from, cut_at_delimiters, is_bare, is_delimiter, dark_len, spelled};

use super::nodes::element_of;
use super::numbers::Numbers;
use super::texted::{counting, messages_of};
use rst_inline::{Pieces, part};
use rst_inline_scan::{Kind, Piece, pieces_of};
use rst_settings::Parts;
use rst_text::{characters_of, escapes, is_white};
use rst_tree::{Attrs, Node, Result, Tag, Text};
use std::alloc::{AllocError, Global};

/// A term and its classifiers, in order, and the messages of their text.
#[derive(Debug, Drop)]
pub struct Heads {
    pub heads: Vec<Node>,
    pub notes: Vec<Node>,
}

/// The term that a text is, with the classifiers that follow it, each after a colon with spaces on both sides (Markup
/// Specification, 'Definition Lists'). The colon and the spaces are in text without markup, and none of them is
/// escaped; they are looked for when escapes are gone. The term has the number of messages as an attribute.
///
/// The only refusal is [`AllocError`].
#[tactic(auto, using(crate::proofs::MessageLemmas::messages_from_length))]
pub fn term_and_classifiers(
    alloc: Global,
    parts: &Parts,
    text: &str,
    line: usize,
    numbers: &mut Numbers,
) -> Result<Heads>
    ensures text { IfOk result (HeadsText parts.now (chars text.now) line numbers.old) }
    ensures numbers { IfOk result (λ made. numbers.new ≡ counted_on numbers.old (length made.notes.items)) }
    ensures read { IfOk result (λ made. termed parts.now (chars text.now) line numbers.old ≡ Ok ((made.heads.items, made.notes.items), numbers.new)) }
{
    let characters = characters_of(alloc, text)?;
    let pieces = pieces_of(
        alloc,
        parts.mail,
        parts.unmarked,
        &characters,
        Vec::new(alloc),
    )?;
    let plain = plain_parts(alloc, &characters, &pieces)?;
    let first = numbers.given();
    let Pieces { nodes, notes } = numbers.inline(alloc, parts, text, line)?;
    numbers.give(notes.len());
    let notes = messages_of(alloc, notes, first)?;
    let nodes = with_parts(alloc, nodes, plain)?;
    let heads = heads_of(alloc, nodes, notes.len(), line)?;
    Ok(Heads { heads, notes })
}

/// A character, and whether it was escaped.
#[derive(Clone, Copy)]
struct Letter {
    character: char,
    escaped: bool,
}

/// The parts of those pieces without markup of which something is left when escapes are gone, piece after piece.
fn plain_parts(alloc: Global, text: &[char], pieces: &[Piece]) -> Result<Vec<Vec<Option<Node>>>>
    ensures { IfOk result (λ parts. map (λ part. part.items) parts.items ≡ parts_of_pieces text.now pieces.now) }
{
    let mut parts = Vec::new(alloc);
    for piece in pieces {
        if !matches!(piece.kind, Kind::Plain) {
            continue;
        }
        let letters = letters_of(alloc, part(text, piece.from, piece.to))?;
        if !letters.is_empty() {
            parts.push(cut_at_delimiters(alloc, &letters)?)?;
        }
    }
    Ok(parts)
}

/// The characters that are left when escapes are gone: a backslash vanishes, and white after one.
fn letters_of(alloc: Global, text: &[char]) -> Result<Vec<Letter>, AllocError>
    ensures { IfOk result (λ letters. letters.items ≡ letters_from false text.now) }
{
    let mut letters = Vec::with_capacity(alloc, text.len())?;
    let mut escaped = false;
    for c in text {
        let begins = escapes(*c, escaped);
        if !begins && !(escaped && is_white(*c)) {
            letters.push(Letter {
                character: *c,
                escaped,
            })?;
        }
        escaped = begins;
    }
    Ok(letters)
}

/// The texts before, between and after the colons with spaces on both sides, without these spaces; each colon is `None`.
fn cut_at_delimiters(alloc: Global, letters: &[Letter]) -> Result<Vec<Option<Node>>>
    ensures { IfOk result (λ parts. parts.items ≡ cut_at_delimiters false [] letters.now) }
{
    let mut parts = Vec::new(alloc);
    let mut part = Vec::new(alloc);
    let mut skipping = false;
    for place in 0..letters.len() {
        let letter = letters[place];
        if skipping && is_bare(letter, ' ') {
            continue;
        }
        skipping = is_delimiter(&part, letter, &letters[place + 1..]);
        if skipping {
            push_text(alloc, &mut parts, &part[..dark_len(&part)])?;
            parts.push(None)?;
            part = Vec::new(alloc);
            continue;
        }
        part.push(letter)?;
    }
    push_text(alloc, &mut parts, &part)?;
    Ok(parts)
}

/// Whether a letter is a character that isn't escaped.
fn is_bare(letter: Letter, c: char) -> bool
    ensures { result ≡ is_bare letter c }
{
    letter.character == c && !letter.escaped
}

/// Whether a letter after some and before others is a colon with a space on both sides.
#[tactic(auto, using(crate::proofs::TermLemmas::ends_in_space_append))]
fn is_delimiter(before: &[Letter], letter: Letter, following: &[Letter]) -> bool
    ensures { result ≡ is_delimiter before.now letter following.now }
{
    is_bare(letter, ':')
        && (before
            .split_last()
            .is_some_and(|(last, _)| is_bare(*last, ' '))
            && following.first().is_some_and(|first| is_bare(*first, ' ')))
}

/// How many letters come before the spaces at the end.
fn dark_len(letters: &[Letter]) -> usize
    ensures value { result ≡ dark_len letters.now }
    ensures within { result ≤ length letters.now }
{
    let mut len = 0;
    for (i, letter) in letters.iter().enumerate() {
        if !is_bare(*letter, ' ') {
            len = i + 1;
        }
    }
    len
}

/// Puts the text that letters spell after the last part, unless there is none.
#[tactic(auto, using(crate::proofs::TermLemmas::spelled_some))]
fn push_text(alloc: Global, parts: &mut Vec<Option<Node>>, letters: &[Letter]) -> Result<()>
    ensures { IfOk result (λ _. parts.new.items ≡ parts.old.items ++ spelled letters.now) }
{
    if letters.is_empty() {
        return Ok(());
    }
    let text: String = letters
        .iter()
        .map(|letter| letter.character)
        .collect(alloc)?;
    parts.push(Some(Node::Text(Text::new(text))))?;
    Ok(())
}

/// Nodes where each text consists of its parts, text after text. `None` ends the term and each classifier.
fn with_parts(
    alloc: Global,
    nodes: Vec<Node>,
    parts: Vec<Vec<Option<Node>>>,
) -> Result<Vec<Option<Node>>>
    ensures { IfOk result (λ all. all.items ≡ with_parts (map (λ part. part.items) parts.items) nodes.items) }
{
    let mut parts = parts.into_iter();
    let mut all = Vec::new(alloc);
    for node in nodes {
        match node {
            Node::Text(text) => match parts.next() {
                Some(mut of_text) => all.append(&mut of_text)?,
                None => all.push(Some(Node::Text(text)))?,
            },
            element => all.push(Some(element))?,
        }
    }
    all.push(None)?;
    Ok(all)
}

/// The elements of nodes, where `None` ends each: the first is the term, the others are classifiers.
fn heads_of(alloc: Global, nodes: Vec<Option<Node>>, notes: usize, line: usize) -> Result<Vec<Node>>
    ensures { IfOk result (λ heads. heads.items ≡ heads_of notes line (ended_groups nodes.items)) }
{
    let mut heads = Vec::new(alloc);
    let mut group = Vec::new(alloc);
    for node in nodes {
        match node {
            Some(node) => group.push(node)?,
            None => {
                let head = if heads.is_empty() {
                    element_of(Tag::Term, counting(alloc, notes)?, group, line)
                } else {
                    element_of(Tag::Classifier, Attrs::new(alloc), group, line)
                };
                heads.push(head)?;
                group = Vec::new(alloc);
            }
        }
    }
    Ok(heads)
}
