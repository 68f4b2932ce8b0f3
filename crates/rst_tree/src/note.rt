//! Messages.
ghost use Rattle.std.specs.Prelude.{◌≡◌};
ghost use Rattle.rst_tree.specs.LevelNames.{level_name, level_number, level_by_number};

use crate::text::Text;

/// How grave a message is (Docutils, 'system_message').
#[derive(Clone, Copy, Debug, PartialEq, Eq)]
pub enum Level {
    Info,
    Warning,
    Error,
    Severe,
}

impl Level {
    /// The name that is printed.
    #[tactic(auto, unfolding(crate::specs::LevelNames::level_name))]
    pub fn name(self) -> &'static str
        ensures { result.now ≡ level_name self }
    {
        match self {
            Level::Info => "INFO",
            Level::Warning => "WARNING",
            Level::Error => "ERROR",
            Level::Severe => "SEVERE",
        }
    }

    /// The number that is printed, from 1 to 4.
    pub fn number(self) -> u8
        ensures { result ≡ level_number self }
    {
        match self {
            Level::Info => 1,
            Level::Warning => 2,
            Level::Error => 3,
            Level::Severe => 4,
        }
    }

    /// The level that has a number: where none has it, the gravest.
    pub fn of_number(number: u64) -> Level
        ensures { result ≡ level_by_number number }
    {
        match number {
            1 => Level::Info,
            2 => Level::Warning,
            3 => Level::Error,
            _ => Level::Severe,
        }
    }
}

/// A message: its level, the number of the line that it is about, its text, and the source text that it quotes.
#[derive(Debug, Drop)]
pub struct Note {
    pub level: Level,
    pub line: usize,
    pub text: Text,
    pub block: Option<Text>,
}
