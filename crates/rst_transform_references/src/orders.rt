//! The orders by which references without names find what they refer to.
ghost use Rattle.std.specs.Prelude.{IfOk, ◌≡◌};
ghost use Rattle.std.specs.List.{zip};
ghost use Rattle.rst_transform_references.specs.Indirect.{with_pairs};
ghost use Rattle.rst_transform_references.specs.Orders.{is_order, pairs_by, reference_order, references_by, target_order, targets_by, written_label};

use crate::links::Links;
use rst_transform_work::{put_at, text_or_empty};
use rst_tree::{Key, Node, Result, Tag, ValueRef};
use std::alloc::Global;

/// An order by which the n-th reference without a name takes the n-th target or footnote (Markup Specification, 'Anonymous
/// Hyperlinks', 'Footnotes').
#[derive(Clone, Copy)]
pub enum Order {
    /// That of anonymous references and targets.
    Anonymous,
    /// That of the footnotes which are to be numbered.
    Numbers,
    /// That of the symbol footnotes.
    Symbols,
}

impl Order {
    /// Whether it is the order of an element that has one.
    pub fn is(self, order: Option<Order>) -> bool
        ensures { result ≡ is_order self order }
    {
        matches!(
            (self, order),
            (Order::Anonymous, Some(Order::Anonymous))
                | (Order::Numbers, Some(Order::Numbers))
                | (Order::Symbols, Some(Order::Symbols))
        )
    }
}

/// The label that a footnote was written with; the empty text for another element.
pub fn written_label(node: &Node) -> &str
    ensures { result.now ≡ written_label node.now }
{
    match node {
        Node::Element { tag, attrs, .. } if matches!(tag, Tag::Footnote) => {
            text_or_empty(attrs, Key::Mark)
        }
        _ => "",
    }
}

/// The order by which references find a target or a footnote, if they do.
pub fn target_order(node: &Node) -> Option<Order>
    ensures { result ≡ target_order node.now }
{
    if let Node::Element { tag, attrs, .. } = node {
        if matches!(tag, Tag::Target) {
            return attrs.has(Key::Anonymous).then_some(Order::Anonymous);
        }
    }
    match written_label(node) {
        "#" => Some(Order::Numbers),
        "*" => Some(Order::Symbols),
        _ => None,
    }
}

/// The order by which a reference finds what it refers to, if it does.
pub fn reference_order(node: &Node) -> Option<Order>
    ensures { result ≡ reference_order node.now }
{
    let Node::Element { tag, attrs, .. } = node else {
        return None;
    };
    match tag {
        Tag::Reference if attrs.has(Key::Anonymous) => Some(Order::Anonymous),
        Tag::FootnoteReference if !attrs.has(Key::Refname) => match attrs.get(Key::Auto)? {
            ValueRef::Text(text) if text.as_str() == "*" => Some(Order::Symbols),
            _ => Some(Order::Numbers),
        },
        _ => None,
    }
}

/// The places of the references of an order.
#[inline(always)]
pub fn references_by(alloc: Global, links: &Links<'_>, order: Order) -> Result<Vec<usize>>
    ensures { IfOk result (λ places. places.items ≡ references_by order links.now) }
{
    let places = (0..links.len()).filter(|place| order.is(reference_order(links.node(*place))));
    Ok(places.collect(alloc)?)
}

/// The places of the targets or footnotes that they find.
#[inline(always)]
pub fn targets_by(alloc: Global, links: &Links<'_>, order: Order) -> Result<Vec<usize>>
    ensures { IfOk result (λ places. places.items ≡ targets_by order links.now) }
{
    let places = (0..links.len()).filter(|place| order.is(target_order(links.node(*place))));
    Ok(places.collect(alloc)?)
}

/// The n-th of the ones with the n-th of the others.
pub fn paired(alloc: Global, references: &[usize], targets: &[usize]) -> Result<Vec<(usize, usize)>>
    ensures { IfOk result (λ pairs. pairs.items ≡ zip references.now targets.now) }
{
    let pairs = references.iter().copied().zip(targets.iter().copied());
    Ok(pairs.collect(alloc)?)
}

/// Adds, to what references refer to, what those of an order find by it.
pub fn add_pairs(
    alloc: Global,
    links: &Links<'_>,
    order: Order,
    referents: &mut Vec<Option<usize>>,
) -> Result<()>
    ensures { IfOk result (λ _. referents.new.items ≡ with_pairs (pairs_by order links.now) referents.old.items) }
{
    let references = references_by(alloc, links, order)?;
    let targets = targets_by(alloc, links, order)?;
    let pairs = paired(alloc, &references, &targets)?;
    for pair in &pairs {
        put_at(referents, pair.0, Some(pair.1));
    }
    Ok(())
}
