//! Pieces of a text.

/// Markup between a start-string and an end-string.
#[derive(Clone, Copy, Debug, PartialEq, Eq)]
pub enum Markup {
    Strong,
    Emphasis,
    Literal,
    /// An inline target.
    Target,
    /// A substitution reference.
    Substitution,
    /// Interpreted text, or a phrase that is a reference.
    Interpreted,
}

/// What follows the end-string, or the name of a reference.
#[derive(Clone, Copy, Debug, PartialEq, Eq)]
pub enum Suffix {
    /// Nothing.
    Bare,
    /// A role.
    Role,
    /// One underscore.
    Named,
    /// Two underscores.
    Anonymous,
}

/// What follows an end-string or a name, and the place after that.
#[derive(Clone, Copy)]
pub(crate) struct Tail {
    pub(crate) suffix: Suffix,
    pub(crate) to: usize,
}

/// What a piece is.
#[derive(Clone, Copy, Debug, PartialEq, Eq)]
pub enum Kind {
    /// Text without markup.
    Plain,
    /// Markup with its end-string. Only a substitution has the suffixes `Named` and `Anonymous`, and only interpreted text
    /// these and `Role`.
    Marked(Markup, Suffix),
    /// A start-string without an end-string, with the role before it.
    Unended(Markup),
    /// A reference to a footnote or a citation.
    Label,
    /// A reference by a simple name; the suffix is `Named` or `Anonymous`.
    Reference(Suffix),
    /// A standalone URI.
    Uri,
    /// An e-mail address.
    Address,
}

/// A piece of a text, by places that count its characters from 0.
#[derive(Clone, Copy, Debug, PartialEq, Eq)]
pub struct Piece {
    /// What it is.
    pub kind: Kind,
    /// Where it begins.
    pub from: usize,
    /// Where what its markup encloses begins: after the start-string or the bracket.
    pub content_from: usize,
    /// Where what its markup encloses ends: at the end-string, the suffix or the bracket.
    pub content_to: usize,
    /// The place after it.
    pub to: usize,
}
