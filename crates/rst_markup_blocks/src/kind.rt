//! Kinds of lines.
ghost use Rattle.std.specs.Prelude.{◌≡◌};
ghost use Rattle.rst_markup_blocks.specs.Explicit.{is_explicit_kind};

/// What begins at a line, by the rows of the table of constructs, of which the first whose condition holds counts.
#[derive(Clone, Copy, Debug, PartialEq, Eq)]
pub enum Kind {
    /// An empty line, which begins nothing.
    Blank,
    /// A block quote: a line that begins with a space.
    Quote,
    /// An item of a bullet list.
    Bullet,
    /// An item of an enumerated list.
    Enumerator,
    /// A field.
    Field,
    /// An item of an option list.
    OptionItem,
    /// A doctest block.
    Doctest,
    /// A line of a line block.
    Line,
    /// A grid table.
    Grid,
    /// A simple table.
    Simple,
    /// Explicit markup that begins with `..`.
    Explicit,
    /// An anonymous target that begins with `__`.
    Anonymous,
    /// A line of one punctuation character, once or more.
    Adornment,
    /// Any other line.
    Text,
}

impl Kind {
    /// Whether a line of this kind begins explicit markup.
    pub fn is_explicit(self) -> bool
        ensures { result ≡ is_explicit_kind self }
    {
        matches!(self, Kind::Explicit | Kind::Anonymous)
    }
}
