//! Texts of lines, and what a document is read with.
ghost use Rattle.std.specs.Prelude.{◌≡◌, ◌+◌, ◌-◌, ◌<◌, ◌≤◌, [], ◌∷◌, ◌++◌, length, take, drop, slice_range, string_bytes, encode_utf8_all, IfOk, chars};
ghost use Rattle.rst_markup_blocks.specs.Prelude.{first_number, capped, block_of};
ghost use Rattle.rst_text.specs.Text.{chars_of};
ghost use Rattle.rst_block_state.specs.LineRuns.{number_or};
ghost use Rattle.rst_block_state.specs.Texts as spec;

use rst_block_nodes::Numbers;
use rst_markup_lines::Characters;
use rst_text::{Looks, View, skip};
use rst_tree::Node;
use rst_tree_index::{MarkedIter, MarkedNodes};
use std::alloc::{AllocError, Global};

/// What a document is read with: the allocator, and what is counted, looks at lines and messages that have problematics.
#[derive(Drop)]
pub struct Pass {
    pub alloc: Global,
    pub looks: Looks,
    pub numbers: Numbers,
}

/// Some characters of a text.
pub fn excerpt(alloc: Global, text: &str, place: Characters) -> Result<String, AllocError>
    ensures { IfOk result (λ part. string_bytes part ≡ spec.excerpt (chars text.now) place) }
{
    characters(alloc, text, place.from, place.to.saturating_sub(place.from))
}

/// The same where what follows the first characters of the text is at hand, so that nobody goes through these again.
pub fn excerpt_after(
    alloc: Global,
    text: &str,
    rest: &str,
    passed: usize,
    place: Characters,
) -> Result<String, AllocError>
    requires { chars rest.now ≡ drop passed (chars text.now) }
    ensures { IfOk result (λ part. string_bytes part ≡ spec.excerpt (chars text.now) place) }
{
    if place.from < passed {
        return excerpt(alloc, text, place);
    }
    let count = place.to.saturating_sub(place.from);
    characters(alloc, rest, place.from - passed, count)
}

/// The characters of a text after the first ones, up to a number of them.
pub fn characters(
    alloc: Global,
    text: &str,
    from: usize,
    count: usize,
) -> Result<String, AllocError>
    ensures { IfOk result (λ part. string_bytes part ≡ encode_utf8_all (take count (drop from (chars text.now)))) }
{
    let mut part = String::with_capacity(alloc, 16)?;
    let mut rest = skip(text, from).chars();
    for _ in 0..count {
        match rest.next() {
            Some(c) => part.push(c)?,
            None => return Ok(part),
        }
    }
    Ok(part)
}

/// The lines of a view, joined by line feeds, at the price of one look at each.
pub fn joined(alloc: Global, view: &View<'_>, looks: &mut Looks) -> Result<String, AllocError>
    ensures bytes { IfOk result (λ text. string_bytes text ≡ spec.spelled (block_of view.now)) }
    ensures text { IfOk result (λ text. chars_of text ≡ spec.joined (block_of view.now)) }
    ensures each { IfOk result (λ _. capped (looks.old + length (block_of view.now)) ≤ looks.new) }
    ensures most { looks.new ≤ looks.old + length (block_of view.now) }
{
    // Most texts are short, and then need no more room.
    let mut text = String::with_capacity(alloc, view.len().min(12) * 80)?;
    for i in 0..view.len() {
        if 0 < i {
            text.push('\n')?;
        }
        text.push_str(view.line(i, looks))?;
    }
    Ok(text)
}

/// The lines of a view from place `from` up to place `to`, those that there are, joined by line feeds, at the price of one look
/// at each.
pub fn source(
    alloc: Global,
    view: &View<'_>,
    from: usize,
    to: usize,
    looks: &mut Looks,
) -> Result<String, AllocError>
    ensures bytes { IfOk result (λ text. string_bytes text ≡ spec.span_source (block_of view.now) (record { start = from; stop = to })) }
    ensures text { IfOk result (λ text. chars_of text ≡ spec.joined (slice_range (block_of view.now) from to)) }
    ensures each { IfOk result (λ _. capped (looks.old + length (slice_range (block_of view.now) from to)) ≤ looks.new) }
    ensures most { looks.new ≤ looks.old + (to - from) }
{
    joined(alloc, &lines_between(view, from, to), looks)
}

/// The lines of a view from place `from` up to place `to`, those that there are.
pub fn lines_between<'a>(view: &View<'a>, from: usize, to: usize) -> View<'a>
    ensures lines { block_of result ≡ slice_range (block_of view.now) from to }
    ensures few { length (block_of result) ≤ to - from }
{
    let to = to.min(view.len());
    let from = from.min(to);
    view.part(from, to, 0, 0)
}

/// The number of the line at a place; 0 where there is none.
pub fn number_at(view: &View<'_>, place: usize) -> usize
    ensures { result ≡ first_number (drop place (block_of view.now)) }
{
    if place < view.len() {
        view.number(place)
    } else {
        0
    }
}

/// The number of the first of some lines, or another where there are none.
pub fn first_line_or(lines: &View<'_>, line: usize) -> usize
    ensures { result ≡ number_or line (block_of lines.now) }
{
    if 0 < lines.len() {
        lines.number(0)
    } else {
        line
    }
}

/// One node in a list of its own.
pub fn alone<N: Drop>(alloc: Global, node: N) -> Result<Vec<N>, AllocError>
    ensures { IfOk result (λ nodes. nodes.items ≡ node ∷ []) }
{
    let mut nodes = Vec::with_capacity(alloc, 1)?;
    nodes.push(node)?;
    Ok(nodes)
}

/// Some nodes in two parts: the first ones, up to a number of them, and those after them.
pub fn split_nodes(
    alloc: Global,
    mut nodes: MarkedIter,
    count: u64,
) -> Result<(MarkedNodes, MarkedNodes), AllocError>
    ensures first { IfOk result (λ parts. parts.0 ≡ take count nodes) }
    ensures second { IfOk result (λ parts. parts.1 ≡ drop count nodes) }
{
    let mut first = MarkedNodes::none(alloc);
    let mut second = MarkedNodes::none(alloc);
    while let Some(node) = nodes.next(alloc) {
        if (first.len() as u64) < count {
            first.push(node)?;
            continue;
        }
        second.push(node)?;
    }
    Ok((first, second))
}

/// Puts a node after the last. A first one gets room for itself alone: most blocks inside others have one node.
pub fn push<N: Drop>(nodes: &mut Vec<N>, node: N) -> Result<(), AllocError>
    ensures { IfOk result (λ _. nodes.new.items ≡ nodes.old.items ++ node ∷ []) }
{
    if nodes.is_empty() {
        nodes.reserve_exact(1)?;
    }
    nodes.push(node)?;
    Ok(())
}
