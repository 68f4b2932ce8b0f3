//! What a line that begins with `..` or `__` is.
ghost use Rattle.std.specs.Prelude.{◌≡◌, ◌+◌, ◌^◌, ◌<◌};
ghost use Rattle.rst_markup_blocks.specs.Explicit as spec;

use super::part::Part;
use rst_markup_lines::Characters;

/// A directive as it is called: its name, which is in the first line of the markup, and the lines of its block,
/// of which the first may be the rest of that line.
#[derive(Clone, Copy, Debug, PartialEq, Eq)]
pub struct Invocation {
    pub name: Characters,
    pub block: Part,
}

/// Why a comment is one.
#[derive(Clone, Copy, Debug, PartialEq, Eq)]
pub enum CommentCause {
    /// It has the form of nothing else.
    Plain,
    /// It begins as a target does, and is none.
    MalformedTarget,
    /// It begins as a substitution definition does, and has no closing bar.
    MalformedSubstitution,
}

/// Explicit markup. Labels and names are places of characters of the markup's first line, as they are written there;
/// the extents end where the markup ends.
#[derive(Clone, Copy, Debug, PartialEq, Eq)]
pub enum Explicit {
    /// The label is between the brackets: digits, `#`, `#name` or `*`.
    Footnote {
        label: Characters,
        body: Part,
    },
    /// The label is between the brackets.
    Citation {
        label: Characters,
        body: Part,
    },
    /// The name is given without backquotes. The lines of the text still have their indentation.
    Target {
        name: Characters,
        text: Part,
    },
    /// A target without a name. The lines of the text still have their indentation.
    Anonymous {
        text: Part,
    },
    /// The name is between the bars. What the definition holds is a directive, if it is right; `end_` is the
    /// place after the markup.
    Substitution {
        name: Characters,
        embedded: Option<Invocation>,
        end_: usize,
    },
    Directive(Invocation),
    Comment {
        text: Part,
        cause: CommentCause,
    },
    /// `..` alone before a blank line or the end.
    EmptyComment,
}

impl Explicit {
    /// The place after the markup, which begins at place `i`.
    pub fn end(&self, i: usize) -> usize
        requires { i + 1 < 2 ^ 64 }
        ensures { result ≡ spec.explicit_end i self.now }
    {
        match self {
            Explicit::Footnote { body, .. } | Explicit::Citation { body, .. } => body.to,
            Explicit::Target { text, .. }
            | Explicit::Anonymous { text }
            | Explicit::Comment { text, .. } => text.to,
            Explicit::Substitution { end_, .. } => *end_,
            Explicit::Directive(call) => call.block.to,
            Explicit::EmptyComment => i + 1,
        }
    }
}
