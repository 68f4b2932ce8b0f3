//! Which elements registration needs.
ghost use Rattle.std.specs.Prelude.{◌≡◌};
ghost use Rattle.rst_tree.specs.Walk.{item};
ghost use Rattle.rst_tree_index.specs.Registered.{is_registered_key, has_registered_key, is_registered};

use rst_tree::{Attrs, Entry, Key, Tag};

/// Whether an element with an attribute of this name is registered.
fn is_registered_key(key: Key) -> bool
    ensures { result ≡ is_registered_key key }
{
    matches!(key, Key::OwnName | Key::Message)
}

/// Whether one of some attributes has such a name.
fn has_registered_key(attrs: &[Entry]) -> bool
    ensures { result ≡ has_registered_key attrs.now }
{
    attrs.iter().any(|attr| is_registered_key(attr.key()))
}

/// Whether registration needs an element: one of a kind that always gets an id, a substitution definition, or one with an
/// attribute of such a name.
#[inline(always)]
pub(crate) fn is_registered(tag: Tag, attrs: &Attrs, line: usize) -> bool
    ensures { result ≡ is_registered (item tag attrs.now line) }
{
    let _line = line;
    matches!(
        tag,
        Tag::Section
            | Tag::Target
            | Tag::Footnote
            | Tag::Citation
            | Tag::FootnoteReference
            | Tag::CitationReference
            | Tag::Problematic
            | Tag::SubstitutionDefinition
    ) || has_registered_key(attrs.as_slice())
}
