//! References to footnotes and citations.
ghost use Rattle.std.specs.Prelude.{◌≡◌, ◌<◌, length};
ghost use Rattle.rst_inline_scan.specs.Footnotes.{label};

use super::characters::is_free_after;
use super::piece::{Kind, Piece};
use rst_text::{has, is_alnum_at, name_stop};

/// The reference to a footnote or a citation that begins at the place.
#[tactic(auto, unfolding(crate::specs::Footnotes::label, crate::specs::Footnotes::label_stop))]
pub(crate) fn label(text: &[char], place: usize) -> Option<Piece>
    requires { place < length text.now }
    ensures { result ≡ label text.now place }
{
    if !has(text, place, '[') {
        return None;
    }
    let begin = place + 1;
    let stop = if has(text, begin, '*') {
        begin + 1
    } else if !has(text, begin, '#') {
        name_stop(text, begin)?
    } else if is_alnum_at(text, begin + 1) {
        name_stop(text, begin + 1)?
    } else {
        begin + 1
    };
    if has(text, stop, ']') && has(text, stop + 1, '_') && is_free_after(text, stop + 2) {
        Some(Piece {
            kind: Kind::Label,
            from: place,
            content_from: begin,
            content_to: stop,
            to: stop + 2,
        })
    } else {
        None
    }
}
