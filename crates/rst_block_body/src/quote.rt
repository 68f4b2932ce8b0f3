//! Block quotes with their attributions (Markup Specification, 'Block Quotes').
ghost use Rattle.std.specs.Prelude.{◌≡◌, [], ◌+◌, ◌-◌, ◌*◌, ◌<◌, ◌≤◌, length, drop, Ok, IfOk, IfSome, IfNone};
ghost use Rattle.rst_text.specs.Block.{first_number, first_parts};
ghost use Rattle.rst_text.specs.Looked.{Looked, capped};
ghost use Rattle.rst_text.specs.ViewBlock.{block_of};
ghost use Rattle.rst_tree.specs.declared.tag.Tag.TheVariants.{Attribution as AttributionTag};
ghost use Rattle.rst_markup_blocks.specs.Parts.{IsBlock};
ghost use Rattle.rst_markup_blocks.specs.Attributions.{attribution_part};
ghost use Rattle.rst_block_state.specs.Quotes as quotes;
ghost use Rattle.rst_block_state.specs.machine.Steps as spec;
ghost use Rattle.rst_block_state.specs.Texts.{joined, lines_in, texted};
ghost use Rattle.rst_markup_blocks.specs.declared.begun.Begun.TheVariants.{Quote};
ghost use Rattle.rst_block_state.specs.machine.Meanings.{Keeps, comes, quotes_from};
ghost use Rattle.rst_block_state.specs.looks.Ledger.{AreQuotesPaid};
ghost use Rattle.rst_block_body.specs.ReadSteps.{BeginsAt, IsReadStep};

use rst_block_nodes::{Texted, with_text};
use rst_block_state::{OpenBlock, Pass, Result, Step, Waits, indented, inside, joined, number_at};
use rst_markup_blocks::{Attribution, LineTest, Part, attribution_at, lines_end};
use rst_text::{Looks, View};
use rst_tree::Tag;
use std::alloc::AllocError;

/// A block quote.
pub fn block_quote(view: &View<'_>, level: &mut OpenBlock, pass: &mut Pass) -> Result<Step>
    requires { BeginsAt (block_of view.now) level.old Quote }
    ensures { IsReadStep 29 (block_of view.now) level.old pass.old level.new pass.new result }
{
    let at = level.at;
    level.close(view, pass)?;
    let quote = indented(view, at, &mut pass.looks);
    quote_part(view, level, quote, pass)
}

/// The lines of a block quote up to and with its first attribution, which ends it; what follows is another. The first
/// line isn't blank.
pub fn quote_part(
    view: &View<'_>,
    level: &mut OpenBlock,
    quote: Part,
    pass: &mut Pass,
) -> Result<Step>
    requires block { IsBlock (block_of view.now) quote }
    requires at { level.old.at ≤ quote.from }
    requires inside { level.old.at < length (block_of view.now) }
    requires filled { quote.from < quote.to }
    ensures step { IfOk result (λ s. spec.IsStep (block_of view.now) level.old.at level.new.at s) }
    ensures resumed { IfOk result (λ s. spec.IsResumed (block_of view.now) level.old.at level.new.at s) }
    ensures read { Keeps result (λ s. comes level.new (block_of view.now) s pass.new.numbers)
        (quotes_from level.old (block_of view.now) [] quote pass.old.numbers) }
    ensures paid { IfOk result (λ s. AreQuotesPaid level.old level.new (block_of view.now) quote quote.to s pass.old.looks pass.new.looks) }
{
    let line = number_at(view, quote.from);
    let lines = inside(view, quote);
    match first_attribution(&lines, &mut pass.looks) {
        None => {
            let waits = Waits::Quote {
                line,
                attribution: None,
                rest: None,
                end: quote.to,
            };
            Ok(level.open(quote.to, quote, waits))
        }
        Some((place, found)) => {
            let made = attribution_text(&lines, place, found, pass)?;
            let attribution = Box::new(pass.alloc, made)?;
            let next = lines_end(&lines, found.end, LineTest::Blank, &mut pass.looks);
            let waits = Waits::Quote {
                line,
                attribution: Some(attribution),
                rest: rest_of(quote, next),
                end: quote.to,
            };
            let first = Part {
                to: quote.from + place,
                ..quote
            };
            Ok(level.open(quote.from + next, first, waits))
        }
    }
}

/// What is left of a quote after its first `next` lines, if there is something.
fn rest_of(quote: Part, next: usize) -> Option<Part>
    requires { quote.from + next ≤ quote.to }
    ensures { result ≡ spec.rest_of quote next }
{
    if quote.from + next < quote.to {
        return Some(Part {
            from: quote.from + next,
            first_cut: quote.rest_cut,
            ..quote
        });
    }
    None
}

/// The first attribution in a quote, with its place: after a blank line. It makes one to five looks for each line through its
/// end, or for each line of the quote where there is none.
fn first_attribution(lines: &View<'_>, looks: &mut Looks) -> Option<(usize, Attribution)>
    ensures first { result ≡ quotes.first_attribution (block_of lines.now) }
    ensures place { IfSome result (λ found. (0 < found.0) × (found.0 ≤ found.1.end)) }
    ensures within { IfSome result (λ found. IsBlock (block_of lines.now) (attribution_part found.0 found.1)) }
    ensures through { IfSome result (λ found. Looked found.1.end (5 * found.1.end) looks.old looks.new) }
    ensures all { let lines = length (block_of lines.now) in IfNone result (Looked lines (5 * lines + 1) looks.old looks.new) }
{
    let mut end = lines_end(lines, 0, LineTest::Filled, looks);
    while end < lines.len() {
        let place = lines_end(lines, end, LineTest::Blank, looks);
        if place >= lines.len() {
            return None;
        }
        match attribution_at(lines, place, looks) {
            Some(found) => return Some((place, found)),
            None => end = lines_end(lines, place + 1, LineTest::Filled, looks),
        }
    }
    None
}

/// The element of an attribution, with its messages.
fn attribution_text(
    lines: &View<'_>,
    place: usize,
    found: Attribution,
    pass: &mut Pass,
) -> Result<Texted, AllocError>
    requires inside { IsBlock (block_of lines.now) (attribution_part place found) }
    ensures text { let Q = block_of lines.now in
        let line = first_number (drop place Q) in
        let read = texted (first_parts (drop place Q)) AttributionTag line (joined (lines_in Q (attribution_part place found))) line pass.old.numbers in
        IfOk result (λ made. read ≡ Ok ((made.element, made.notes.items), pass.new.numbers)) }
    ensures most { pass.new.looks ≤ pass.old.looks + (found.end - place) }
    ensures each { IfOk result (λ _. capped (pass.old.looks + (found.end - place)) ≤ pass.new.looks) }
{
    let line = number_at(lines, place);
    let parts = lines.parts(place);
    let text = inside(
        lines,
        Part {
            from: place,
            to: found.end,
            first_cut: found.marker,
            rest_cut: found.indent,
        },
    );
    let text = joined(pass.alloc, &text, &mut pass.looks)?;
    let text = text.as_str();
    let numbers = &mut pass.numbers;
    let made = with_text(
        pass.alloc,
        parts,
        Tag::Attribution,
        line,
        text,
        line,
        numbers,
    )?;
    Ok(made)
}
