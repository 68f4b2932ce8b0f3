//! Roles, and references by a simple name.
ghost use Rattle.std.specs.Prelude.{◌≡◌, ◌<◌, ◌≤◌, ℕ, length, IfSome};
ghost use Rattle.rst_text.specs.SimpleNames.{is_name_at, name_stop};
ghost use Rattle.rst_inline_scan.specs.Names.{role_end, ends_name, name_end, reference};
ghost use Rattle.rst_inline_scan.specs.Missing.{IsMissing};

use super::missing::Missing;
use super::piece::{Kind, Piece};
use super::tails::name_tail;
use rst_text::{has, is_alnum_at, is_name_at, name_stop};

/// The place after a role that begins at the place.
#[tactic(auto, unfolding(crate::specs::Names::role_end))]
pub(crate) fn role_end(text: &[char], place: usize) -> Option<usize>
    requires { place ≤ length text.now }
    ensures exact { result ≡ role_end text.now place }
    ensures above { IfSome result (λ end. place < end) }
    ensures below { IfSome result (λ end. end ≤ length text.now) }
{
    if !has(text, place, ':') {
        return None;
    }
    let stop = name_stop(text, place + 1)?;
    if has(text, stop, ':') {
        Some(stop + 1)
    } else {
        None
    }
}

/// Whether a name may end before the place.
#[tactic(auto, unfolding(crate::specs::Names::ends_name))]
fn ends_name(text: &[char], place: usize) -> bool
    requires above { 0 < place }
    requires below { place ≤ length text.now }
    ensures { result ≡ ends_name text.now place }
{
    name_tail(text, place).is_some() && is_alnum_at(text, place - 1)
}

/// The greatest end of the name of a reference that begins at the place, and the place below which none begins where
/// there is none.
pub(crate) fn name_end(text: &[char], start: usize) -> (Option<usize>, usize)
    requires { start < length text.now }
    ensures exact { result.0 ≡ name_end text.now start }
    ensures within { IfSome result.0 (λ end. end < length text.now) }
    ensures reach { result.0 ≡ None → (i : ℕ) → start ≤ i → i < result.1 → name_end text.now i ≡ None }
{
    if !is_alnum_at(text, start) {
        return (None, start);
    }
    let mut found = None;
    let mut place = start;
    while place + 1 < text.len() && is_name_at(text, place) {
        place += 1;
        if ends_name(text, place) {
            found = Some(place);
        }
    }
    (found, place)
}

/// The reference by a simple name that begins at the place.
#[tactic(auto, unfolding(crate::specs::Names::reference))]
pub(crate) fn reference(text: &[char], place: usize, missing: &mut Missing) -> Option<Piece>
    requires place { place < length text.now }
    requires known { IsMissing text.now missing.old place }
    ensures exact { result ≡ reference text.now place }
    ensures known { IsMissing text.now missing.new place }
{
    let end = missing.name_end(text, place)?;
    let tail = name_tail(text, end)?;
    Some(Piece {
        kind: Kind::Reference(tail.suffix),
        from: place,
        content_from: place,
        content_to: end,
        to: tail.to,
    })
}
