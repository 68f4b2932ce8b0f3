//! References, and the substitutions that they enclose.
ghost use Rattle.std.specs.Prelude.{◌≡◌, ◌∷◌, [], chars, IfOk};
ghost use Rattle.rst_inline.specs.Elements.{reference_node, embedded_node, outer_node};
ghost use Rattle.rst_tree.specs.Attributes.{attr};
ghost use Rattle.rst_tree.specs.declared.key.Key.TheVariants.{Name, Rawsource, Refname};

use super::elements::element;
use super::texts::{name_value, normalized_value, text_value};
use rst_inline_scan::Suffix;
use rst_text::both_borrowed;
use rst_tree::{Attrs, Children, Entry, Key, Node, Result, Tag, Value};
use std::alloc::Global;

/// The attributes of a reference by a name, with room for the one for its destination, once that is found.
// A call would move its three values.
#[inline(always)]
pub(crate) fn named_attrs(
    alloc: Global,
    own: Value,
    written: Value,
    refname: Value,
) -> Result<Vec<Entry>>
    ensures { IfOk result (λ attrs. attrs.items ≡ attr Name own ∷ attr Rawsource written ∷ attr Refname refname ∷ []) }
{
    let mut attrs = Vec::with_capacity(alloc, 4)?;
    attrs.push_reserved(Entry::new(Key::Name, own));
    attrs.push_reserved(Entry::new(Key::Rawsource, written));
    attrs.push_reserved(Entry::new(Key::Refname, refname));
    Ok(attrs)
}

/// A reference by the name that it shows, or an anonymous one.
#[tactic(auto, using(crate::proofs::Orders::reference_in_order))]
pub(crate) fn reference(
    alloc: Global,
    suffix: Suffix,
    source: &str,
    display_text: &str,
    line: usize,
) -> Result<Node>
    ensures { IfOk result (λ node. node ≡ reference_node suffix (chars source.now) (chars display_text.now) (chars display_text.now) line) }
{
    let written = text_value(alloc, source)?;
    let attrs = match suffix {
        Suffix::Anonymous => {
            let mut attrs = Vec::with_capacity(alloc, 4)?;
            attrs.push_reserved(Entry::new(Key::Anonymous, Value::Number(1)));
            attrs.push_reserved(Entry::new(Key::Name, normalized_value(alloc, display_text)?));
            attrs.push_reserved(Entry::new(Key::Rawsource, written));
            attrs
        }
        _ => {
            let (normalized, name) = both_borrowed(alloc, display_text)?;
            let own = text_value(alloc, normalized.as_str())?;
            let refname = text_value(alloc, name.as_str())?;
            named_attrs(alloc, own, written, refname)?
        }
    };
    element(alloc, Tag::Reference, attrs, display_text, line)
}

/// A phrase with an embedded URI.
pub(crate) fn embedded_reference(
    alloc: Global,
    source: &str,
    display_text: &str,
    uri: &str,
    line: usize,
) -> Result<Node>
    ensures { IfOk result (λ node. node ≡ embedded_node (chars source.now) (chars display_text.now) (chars uri.now) line) }
{
    let name = normalized_value(alloc, display_text)?;
    let written = text_value(alloc, source)?;
    let refuri = text_value(alloc, uri)?;
    let attrs = vec![in alloc;
        Entry::new(Key::Name, name),
        Entry::new(Key::Rawsource, written),
        Entry::new(Key::Refuri, refuri),
    ]?;
    element(alloc, Tag::Reference, attrs, display_text, line)
}

/// The reference that encloses a substitution.
#[tactic(auto, using(crate::proofs::Orders::outer_in_order))]
pub(crate) fn outer_reference(
    alloc: Global,
    suffix: Suffix,
    source: &str,
    display_text: &str,
    inner: Node,
    line: usize,
) -> Result<Node>
    ensures { IfOk result (λ node. node ≡ outer_node suffix (chars source.now) (chars display_text.now) inner line) }
{
    let written = text_value(alloc, source)?;
    let attrs = match suffix {
        Suffix::Anonymous => vec![in alloc;
            Entry::new(Key::Anonymous, Value::Number(1)),
            Entry::new(Key::Rawsource, written),
        ]?,
        _ => {
            let refname = name_value(alloc, display_text)?;
            vec![in alloc;
                Entry::new(Key::Rawsource, written),
                Entry::new(Key::Refname, refname),
            ]?
        }
    };
    let mut list = Vec::with_capacity(alloc, 1)?;
    list.push(inner)?;
    Ok(Node::Element {
        tag: Tag::Reference,
        attrs: Attrs::of(attrs),
        children: Children::of(list),
        line,
    })
}
