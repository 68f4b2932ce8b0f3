//! Attributions of block quotes.
ghost use Rattle.std.specs.Prelude.{◌≡◌, ◌+◌, ◌-◌, ◌<◌, ◌≤◌, IfSome, option_map, length, drop};
ghost use Rattle.rst_markup_blocks.specs.Prelude.{Looked, capped, block_of};
ghost use Rattle.rst_markup_blocks.specs.Attributions as spec;
ghost use Rattle.rst_markup_blocks.specs.Lines.{lines_while};
ghost use Rattle.rst_markup_blocks.specs.Parts.{IsBlock};
ghost use Rattle.rst_markup_blocks.specs.declared.lines.LineTest.TheVariants.{Filled};

use super::lines::below_text;
use rst_markup_lines::{attribution_of, is_blank};
use rst_text::{Looks, View, indentation};

/// An attribution: where its text is, in a block quote's block.
#[derive(Clone, Copy, Debug, PartialEq, Eq)]
pub struct Attribution {
    /// How many characters come before the text in the first line.
    pub marker: usize,
    /// The place after the last line.
    pub end: usize,
    /// How many spaces each further line begins with; 0 where there is none.
    pub indent: usize,
}

/// The place after the lines from place `from` on, up to a blank one, if each of them is indented by `indent`.
fn level_end(view: &View<'_>, from: usize, indent: usize, looks: &mut Looks) -> Option<usize>
    requires inside { from ≤ length (block_of view.now) }
    ensures end { result ≡ option_map (λ n. from + n) (spec.level_lines indent (drop from (block_of view.now))) }
    ensures looked { Looked 0 (lines_while Filled (drop from (block_of view.now)) + 1) looks.old looks.new }
    ensures each { IfSome result (λ end. capped (looks.old + (end - from)) ≤ looks.new) }
{
    let len = view.len();
    for i in from..len {
        let text = view.line(i, looks);
        if is_blank(text) {
            return Some(i);
        }
        if indentation(text) != indent {
            return None;
        }
    }
    Some(len)
}

/// The attribution that begins in the line at place `k` of a block quote's block, if one does: a dash with text after
/// it, and all lines below it up to a blank one, which share one indentation (Markup Specification, 'Block Quotes').
/// Whether text and a blank line come before it isn't looked at. It makes at most three looks more than there are lines
/// below it up to a blank one.
#[tactic(auto, unfolding(crate::specs::Attributions::attribution_at))]
pub fn attribution_at(view: &View<'_>, k: usize, looks: &mut Looks) -> Option<Attribution>
    requires inside { k < length (block_of view.now) }
    ensures attribution { result ≡ spec.attribution_at k (drop k (block_of view.now)) }
    ensures text { IfSome result (λ a. IsBlock (block_of view.now) (spec.attribution_part k a)) }
    ensures looked { Looked 1 (3 + lines_while Filled (drop 1 (drop k (block_of view.now)))) looks.old looks.new }
    ensures each { IfSome result (λ a. capped (looks.old + (a.end - k)) ≤ looks.new) }
{
    let marker = attribution_of(view.line(k, looks))?;
    prove!(k < view.len());
    let indent = indentation(below_text(view, k, 1, looks));
    match level_end(view, k + 1, indent, looks) {
        Some(end) => Some(Attribution {
            marker,
            end,
            indent,
        }),
        None => None,
    }
}
