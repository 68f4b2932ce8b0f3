//! Texts that messages of one kind have.
ghost use Rattle.std.specs.Prelude.{◌≡◌};
ghost use Rattle.rst_tree.specs.Phrases.{phrase_text};

/// The message on inline markup whose start-string has no end-string (reStructuredText Markup Specification, 'Inline Markup').
/// A document may have one such message for every few characters, so a text that is one of these takes no memory.
#[derive(Clone, Copy, Debug, PartialEq, Eq)]
pub enum Phrase {
    UnendedEmphasis,
    UnendedStrong,
    UnendedLiteral,
    UnendedTarget,
    UnendedSubstitution,
    UnendedInterpreted,
}

impl Phrase {
    /// The text.
    #[tactic(auto, unfolding(crate::specs::Phrases::phrase_text))]
    pub fn text(self) -> &'static str
        ensures { result.now ≡ phrase_text self }
    {
        match self {
            Phrase::UnendedEmphasis => "Inline emphasis start-string without end-string.",
            Phrase::UnendedStrong => "Inline strong start-string without end-string.",
            Phrase::UnendedLiteral => "Inline literal start-string without end-string.",
            Phrase::UnendedTarget => "Inline target start-string without end-string.",
            Phrase::UnendedSubstitution =>
                "Inline substitution_reference start-string without end-string.",
            Phrase::UnendedInterpreted =>
                "Inline interpreted text or phrase reference start-string without end-string.",
        }
    }
}
