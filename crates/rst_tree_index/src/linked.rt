//! Which elements references join, and which targets are internal.
ghost use Rattle.std.specs.Prelude.{◌≡◌};
ghost use Rattle.rst_tree.specs.Walk.{item};
ghost use Rattle.rst_tree_index.specs.Kinds.{is_internal};
ghost use Rattle.rst_tree_index.specs.LinkedTags.{is_linked_tag};

use rst_tree::{Attrs, Key, Tag};

/// Whether elements of this kind refer to others, or are what others refer to; a label stands for its footnote.
#[inline(always)]
pub fn is_linked_tag(tag: Tag) -> bool
    ensures { result ≡ is_linked_tag tag }
{
    matches!(
        tag,
        Tag::Citation
            | Tag::CitationReference
            | Tag::Footnote
            | Tag::FootnoteReference
            | Tag::Label
            | Tag::Reference
            | Tag::Target
    )
}

/// Whether an element is an internal target of the body: one that is in no text, and has neither a URI nor a name.
pub fn is_internal(tag: Tag, attrs: &Attrs) -> bool
    ensures { result ≡ is_internal (item tag attrs.now 0) }
{
    matches!(tag, Tag::Target)
        && !attrs.has(Key::Inline)
        && !attrs.has(Key::Refuri)
        && !attrs.has(Key::Refname)
}
