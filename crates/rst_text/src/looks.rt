//! Looks at lines, counted.
ghost use Rattle.std.specs.Prelude.{◌≡◌, ◌+◌};
ghost use Rattle.rst_text.specs.Looked.{capped};

use std::marker::Model;

/// How many looks at lines were taken. It can neither be copied nor made smaller, so a count that is handed on from
/// call to call misses none. It stops at its largest value, so that no caller has to leave room for it. Contracts see
/// it as a number.
#[derive(Debug, Drop)]
pub struct Looks {
    count: u128,
}

impl Model for Looks {
    ghost use Rattle.std.specs.Prelude.{ℕ};

    ghost Value = { ℕ };

    ghost view = { λ l. l.count };
}

impl Looks {
    /// A count at which no look was taken yet.
    pub fn none() -> Looks
        ensures { result ≡ 0 }
    {
        Looks { count: 0 }
    }

    /// How many looks were taken.
    pub fn count(&self) -> u128
        ensures { result ≡ self.now }
    {
        self.count
    }

    /// One look more.
    pub(crate) fn look(&mut self)
        ensures { self.new ≡ capped (self.old + 1) }
    {
        self.count = self.count.saturating_add(1);
    }

    /// `count` looks more.
    pub(crate) fn look_at(&mut self, count: usize)
        ensures { self.new ≡ capped (self.old + count) }
    {
        self.count = self.count.saturating_add(count as u128);
    }
}
