//! Which numbers are marked, and how many.
ghost use Rattle.std.specs.Prelude.{◌≡◌, false, get_or, length, IfOk, filter};
ghost use Rattle.std.specs.List.{range_with_len};
ghost use Rattle.rst_markup_tables.specs.Counts.{below};
ghost use Rattle.rst_markup_tables.specs.Marks.{AreRanks};

use super::Result;
use std::alloc::Global;

/// The places of the marks that are set.
pub(crate) fn marked(alloc: Global, marks: &[bool]) -> Result<Vec<usize>>
    ensures { IfOk result (λ numbers. numbers.items ≡ filter (λ k. get_or marks.now k false) (range_with_len 0 (length marks.now))) }
{
    (0..marks.len())
        .filter(|place| marks.get(*place).copied().unwrap_or(false))
        .collect(alloc)
}

/// For each place and the one past the end how many marks before it are set.
#[tactic(auto, using(crate::proofs::Lists::below_more))]
pub(crate) fn ranks(alloc: Global, marks: &[bool]) -> Result<Vec<usize>>
    ensures { IfOk result (λ ranks. AreRanks (below (λ j. get_or marks.now j false)) (length marks.now) ranks.items) }
{
    let mut ranks = Vec::with_capacity(alloc, marks.len() + 1)?;
    let mut count = 0;
    for place in 0..marks.len() {
        ranks.push(count)?;
        if marks[place] {
            count += 1;
            continue;
        }
    }
    ranks.push(count)?;
    Ok(ranks)
}
