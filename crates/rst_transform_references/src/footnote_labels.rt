//! The labels of footnotes.
ghost use Rattle.std.specs.Prelude.{IfOk, ◌≡◌, ◌≤◌, length};
ghost use Rattle.rst_transform_references.specs.FootnoteLabels.{free_numbers, is_to_number, labels, symbol_label, to_number};

use crate::links::Links;
use crate::orders::{Order, targets_by, written_label};
use rst_transform_names::number_in;
use rst_transform_work::put_at;
use rst_tree::{Node, Result, Text};
use std::alloc::Global;

/// The labels of symbol footnotes; the further ones are these doubled, tripled and so on (Markup Specification, 'Auto-Symbol
/// Footnotes').
const SYMBOLS: [char; 10] = ['*', '†', '‡', '§', '¶', '#', '♠', '♥', '♦', '♣'];

/// The numbers from 1 on, as many as there are elements, that no footnote was written with. There is one for each footnote
/// that is to be numbered.
fn free_numbers(alloc: Global, links: &Links<'_>) -> Result<Vec<usize>>
    ensures enough { IfOk result (λ free. length (to_number links.now.linked) ≤ length free.items) }
    ensures free { IfOk result (λ free. free.items ≡ free_numbers links.now.linked) }
{
    // For each number up to that of all elements whether a footnote was written with it.
    let mut written = vec![in alloc; false; links.len()]?;
    written.push(false)?;
    for place in 0..links.len() {
        if let Some(number) = number_in(written_label(links.node(place))) {
            put_at(&mut written, number as usize, true);
        }
    }
    let free = (1..written.len()).filter(|number| matches!(written.get(*number), Some(false)));
    Ok(free.collect(alloc)?)
}

/// The label of the n-th symbol footnote, from 0.
#[tactic(auto, using(crate::proofs::Numbering::repeat_more))]
fn symbol_label(alloc: Global, n: usize) -> Result<Text>
    ensures { IfOk result (λ label. label ≡ symbol_label n) }
{
    let symbol = SYMBOLS[n % SYMBOLS.len()];
    let mut label = String::new(alloc);
    for _ in 0..n / SYMBOLS.len() + 1 {
        label.push(symbol)?;
    }
    Ok(Text::new(label))
}

/// Whether a node is a footnote that is to be numbered.
fn is_to_number(node: &Node) -> bool
    ensures { result ≡ is_to_number node.now }
{
    written_label(node).as_bytes().starts_with(b"#")
}

/// The places of the footnotes that get labels, and these: a number, or a symbol.
pub fn labels(alloc: Global, links: &Links<'_>) -> Result<Vec<(usize, Text)>>
    ensures { IfOk result (λ list. list.items ≡ labels links.now) }
{
    let mut labels = Vec::new(alloc);
    let free = free_numbers(alloc, links)?;
    let places = (0..links.len()).filter(|place| is_to_number(links.node(*place)));
    let numbers: Vec<(usize, usize)> = places.zip(free.iter().copied()).collect(alloc)?;
    for number in &numbers {
        labels.push((number.0, Text::new(number.1.to_string(alloc)?)))?;
    }
    let places = targets_by(alloc, links, Order::Symbols)?;
    let symbols: Vec<(usize, usize)> = places.iter().copied().zip(0..links.len()).collect(alloc)?;
    for symbol in &symbols {
        labels.push((symbol.0, symbol_label(alloc, symbol.1)?))?;
    }
    Ok(labels)
}
