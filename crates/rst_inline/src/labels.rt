//! References to footnotes and citations.
ghost use Rattle.std.specs.Prelude.{◌≡◌, chars, IfOk};
ghost use Rattle.std.specs.List.{list_all};
ghost use Rattle.rst_inline.specs.Elements.{is_digit, autonumbered_reference_node};

use super::elements::element;
use super::texts::{name_value, spell, text_value};
use rst_tree::{Entry, Key, Node, Result, Tag, Value};
use std::alloc::Global;

/// Whether a label is digits: then it is that of a footnote.
pub(crate) fn are_digits(label: &[char]) -> bool
    ensures { result ≡ list_all is_digit label.now }
{
    label.iter().all(|c| '0' <= *c && *c <= '9')
}

/// A footnote that is numbered, alone or with a name.
#[tactic(auto, using(crate::proofs::TextLemmas::no_characters))]
pub(crate) fn numbered_footnote(
    alloc: Global,
    source: &str,
    name: &[char],
    line: usize,
) -> Result<Node>
    ensures { IfOk result (λ node. node ≡ autonumbered_reference_node (chars source.now) name.now line) }
{
    let written = text_value(alloc, source)?;
    match name {
        [] => {
            let attrs = vec![in alloc;
                Entry::new(Key::Auto, Value::Number(1)),
                Entry::new(Key::Rawsource, written),
            ]?;
            element(alloc, Tag::FootnoteReference, attrs, "", line)
        }
        _ => {
            let name = spell(alloc, name)?;
            let refname = name_value(alloc, name.as_str())?;
            let attrs = vec![in alloc;
                Entry::new(Key::Auto, Value::Number(1)),
                Entry::new(Key::Rawsource, written),
                Entry::new(Key::Refname, refname),
            ]?;
            element(alloc, Tag::FootnoteReference, attrs, "", line)
        }
    }
}
