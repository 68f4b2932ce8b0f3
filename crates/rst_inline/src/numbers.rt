//! References by the number of a document.
ghost use Rattle.std.specs.Prelude.{◌≡◌, ◌==◌, ◌++◌, ◌-◌, ◌≤◌, codes, take, length, not, IfOk};
ghost use Rattle.std.specs.List.{prefix_len};
ghost use Rattle.rst_text.specs.Escapes.{unescaped};
ghost use Rattle.rst_text.specs.Text.{chars_of};
ghost use Rattle.rst_inline.specs.Numbers as spec;
ghost use Rattle.rst_inline.specs.Parts.{content, source};

use super::labels::are_digits;
use super::reading::Meaning;
use super::texts::spell;
use super::written::Written;
use rst_inline_scan::Piece;
use rst_tree::{Level, Result, Text};
use std::alloc::{AllocError, Global};

/// How many zeros a number begins with.
fn zeros(number: &[char]) -> usize
    ensures value { result ≡ prefix_len (λ c. c == 48) number.now }
    ensures within { result ≤ length number.now }
{
    number.iter().take_while(|c| **c == '0').count()
}

/// A number without the zeros that it begins with.
fn without_zeros(number: &[char]) -> &[char]
    ensures { result.now ≡ spec.without_zeros number.now }
{
    &number[zeros(number)..]
}

/// How many characters precede the first `#`.
fn fragment_start(text: &[char]) -> usize
    ensures value { result ≡ prefix_len (λ c. not (c == 35)) text.now }
    ensures within { result ≤ length text.now }
{
    text.iter().take_while(|c| **c != '#').count()
}

/// Where a Python Enhancement Proposal is.
fn pep_uri(alloc: Global, digits: &[char]) -> Result<String, AllocError>
    requires { length digits.now ≤ 4 }
    ensures { IfOk result (λ uri. chars_of uri ≡ codes "https://peps.python.org/pep-" ++ take (4 - length digits.now) (codes "0000") ++ digits.now) }
{
    let zeros = spell(alloc, &['0'; 4][..4 - digits.len()])?;
    let digits = spell(alloc, digits)?;
    format!(in alloc; "https://peps.python.org/pep-{zeros}{digits}")
}

/// Where a Request for Comments is.
fn rfc_uri(alloc: Global, digits: &[char], fragment: &[char]) -> Result<String, AllocError>
    ensures { IfOk result (λ uri. chars_of uri ≡ codes "https://tools.ietf.org/html/rfc" ++ digits.now ++ codes ".html" ++ fragment.now) }
{
    let digits = spell(alloc, digits)?;
    let fragment = spell(alloc, fragment)?;
    format!(in alloc; "https://tools.ietf.org/html/rfc{digits}.html{fragment}")
}

/// A text that is no number of a document.
fn wrong_number(alloc: Global, expected: &str, text: &[char]) -> Result<Meaning>
    ensures { IfOk result (λ reading. reading ≡ spec.wrong_number expected.now text.now) }
{
    let text = spell(alloc, text)?;
    let text = format!(in alloc; "{expected}; \"{text}\" is invalid.")?;
    Ok(Meaning::Wrong(Level::Error, Text::new(text)))
}

impl Written<'_> {
    /// A reference to a Python Enhancement Proposal.
    #[inline(never)]
    pub(crate) fn pep(&self, piece: Piece) -> Result<Meaning>
        ensures { IfOk result (λ reading. let cs = self.now.characters.items in reading ≡ spec.pep_reading (source cs piece) (unescaped (content cs piece)) self.now.line) }
    {
        let text = self.unescaped_content(piece)?;
        let text = text.as_slice();
        let digits = without_zeros(text);
        if text.is_empty() || !are_digits(text) || 4 < digits.len() {
            let expected = "PEP number must be a number from 0 to 9999";
            return wrong_number(self.alloc, expected, text);
        }
        let uri = pep_uri(self.alloc, digits)?;
        let number = spell(self.alloc, text)?;
        let display_text = format!(in self.alloc; "PEP {number}")?;
        self.link(piece, uri.as_str(), display_text.as_str())
    }

    /// A reference to a Request for Comments.
    #[inline(never)]
    pub(crate) fn rfc(&self, piece: Piece) -> Result<Meaning>
        ensures { IfOk result (λ reading. let cs = self.now.characters.items in reading ≡ spec.rfc_reading (source cs piece) (unescaped (content cs piece)) self.now.line) }
    {
        let text = self.unescaped_content(piece)?;
        let text = text.as_slice();
        let (number, fragment) = text.split_at(fragment_start(text));
        let digits = without_zeros(number);
        if digits.is_empty() || !are_digits(digits) {
            let expected = "RFC number must be a number greater than or equal to 1";
            return wrong_number(self.alloc, expected, text);
        }
        let uri = rfc_uri(self.alloc, digits, fragment)?;
        let number = spell(self.alloc, digits)?;
        let display_text = format!(in self.alloc; "RFC {number}")?;
        self.link(piece, uri.as_str(), display_text.as_str())
    }
}
