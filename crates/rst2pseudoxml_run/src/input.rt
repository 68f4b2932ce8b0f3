//! Reading an input to its end.
ghost use Rattle.std.specs.Prelude.{◌≡◌, ℕ, List, false};
ghost use Rattle.rst_text.specs.Counted.{inner_of, has_failed, between, HandsOut};
ghost use Rattle.rst2pseudoxml_run.specs.Headline.{TakesInput, ReadsOn};

use crate::end::End;
use rst_text::{Counted, ReadCall};
use std::alloc::Global;

/// The most bytes that an input may have.
const LIMIT: usize = 16_777_216;

/// All bytes of the input. Reading stops once they are too many.
// What it keeps is off the stack while the input is read as a document.
#[inline(never)]
pub fn read_input<R: ReadCall>(alloc: Global, input: &mut Counted<R>) -> Result<Vec<u8>, End>
    requires { has_failed input.old ≡ false }
    ensures bytes { (bytes : List ℕ) × HandsOut (between R.remaining input.old input.new) bytes
        × TakesInput (between R.remaining input.old input.new) bytes result }
    ensures reads { ReadsOn R.call_gives 0 (inner_of input.old) (inner_of input.new) }
{
    let mut bytes = Vec::new(alloc);
    let mut chunk = [0u8; 8192];
    while bytes.len() <= LIMIT {
        match input.read(&mut chunk) {
            None => return Err(End::Read),
            Some(0) => return Ok(bytes),
            Some(n) => bytes.extend_from_slice(&chunk[..n])?,
        }
    }
    Err(End::TooLong)
}
