//! The numbers by which messages of texts and their problematics know each other.
ghost use Rattle.std.specs.Prelude.{◌≡◌, IfOk, chars};
ghost use Rattle.rst_inline.specs.Results.{IsRead};
ghost use Rattle.rst_tree.specs.Sends.{counted_on};

use rst_inline::{Pieces, Workspace, inline_from};
use rst_settings::Parts;
use rst_tree::Result;
use std::alloc::Global;
use std::marker::Model;

/// How many messages of texts a document has been given so far: they are numbered from 0. Contracts see it as a number.
#[derive(Debug, Drop)]
pub struct Numbers {
    given: u64,
    /// For the next text that is read.
    workspace: Workspace,
}

impl Model for Numbers {
    ghost use Rattle.std.specs.Prelude.{ℕ};

    ghost Value = { ℕ };

    ghost view = { λ n. n.given };
}

impl Numbers {
    /// No message was given yet.
    pub fn none(alloc: Global) -> Numbers
        ensures { result ≡ 0 }
    {
        Numbers {
            given: 0,
            workspace: Workspace::new(alloc),
        }
    }

    /// How many messages were given.
    pub fn given(&self) -> u64
        ensures { result ≡ self.now }
    {
        self.given
    }

    /// The nodes and the messages of an inline text whose first line has the number `line`. The messages are numbered on, but not
    /// given.
    pub(crate) fn inline(
        &mut self,
        alloc: Global,
        parts: &Parts,
        text: &str,
        line: usize,
    ) -> Result<Pieces>
        ensures read { IfOk result (IsRead parts.now (chars text.now) line self.old) }
        ensures given { self.new ≡ self.old }
    {
        inline_from(alloc, parts, text, line, self.given, &mut self.workspace)
    }

    /// Gives `n` messages more their numbers. The sum can't pass the largest `u64`: each message takes memory.
    pub(crate) fn give(&mut self, n: usize)
        ensures { self.new ≡ counted_on self.old n }
    {
        self.given = self.given.saturating_add(n as u64);
    }
}
