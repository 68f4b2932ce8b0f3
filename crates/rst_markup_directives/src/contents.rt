//! What the options of tables of contents mean.
ghost use Rattle.std.specs.Prelude.{◌≡◌, IfOk};
ghost use Rattle.rst_markup_directives.specs.Contents as spec;

use super::characters::{digit_count, is_empty_text, lookup};
use super::measure::scale_of;
use std::alloc::{AllocError, Global};

/// Where the titles of sections lead back to.
#[derive(Clone, Copy, Debug, PartialEq, Eq)]
pub enum Backlinks {
    /// The table of contents.
    Top,
    /// Their entries in it.
    Entry,
    Nowhere,
}

/// Where titles lead back to, by the words for it.
const BACKLINKS: [(&str, Backlinks); 3] = [
    ("top", Backlinks::Top),
    ("entry", Backlinks::Entry),
    ("none", Backlinks::Nowhere),
];

impl Backlinks {
    /// The word for it.
    pub fn name(self) -> &'static str
        ensures { result.now ≡ spec.backlinks_name self }
    {
        match self {
            Backlinks::Top => "top",
            Backlinks::Entry => "entry",
            Backlinks::Nowhere => "none",
        }
    }
}

/// What a word means for the titles, without regard to the case of letters of ASCII.
#[tactic(auto, unfolding(crate::specs::Contents::backlinks_of))]
pub(crate) fn backlinks_of(text: &[char]) -> Option<Backlinks>
    ensures { result ≡ spec.backlinks_of text.now }
{
    lookup(text, &BACKLINKS, false)
}

/// How many levels of sections are shown: one to nine digits.
#[tactic(auto, unfolding(crate::specs::Contents::depth_of))]
pub(crate) fn depth_of(alloc: Global, text: &[char]) -> Result<Option<u64>, AllocError>
    ensures { IfOk result (λ number. number ≡ spec.depth_of text.now) }
{
    if !is_empty_text(&text[digit_count(text)..]) {
        return Ok(None);
    }
    scale_of(alloc, text)
}
