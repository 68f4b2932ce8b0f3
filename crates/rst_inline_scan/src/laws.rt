//! Laws of the definitions.
ghost use Rattle.std.specs.Prelude.{◌≡◌, ℕ, ◌<◌, Bool, true, false, List, [], ◌∷◌, length};
ghost use Rattle.rst_inline_scan.specs.declared.piece.Piece.{Piece};
ghost use Rattle.rst_inline_scan.specs.Pieces.{plain_from, IsPieces};
ghost use Rattle.rst_inline_scan.specs.Mail.{holds_at_sign};
ghost use Rattle.rst_inline_scan.specs.Quiet.{quiet};
ghost use Rattle.rst_inline_scan.specs.Registered.{holds_colon};
ghost use Rattle.rst_inline_scan.specs.Reading.{pieces_of};

/// Exactly one list is that of the pieces of a text.
pub fn one_list_of_pieces()
    ensures some { (mail registered : Bool) (t : List ℕ) → (ps : List Piece) × IsPieces mail registered t 0 ps }
    ensures one { (mail registered : Bool) (t : List ℕ) (ps qs : List Piece) → IsPieces mail registered t 0 ps → IsPieces mail registered t 0 qs → ps ≡ qs }
{}

/// The pieces of a quiet text are the one plain piece of all of it, or none where it is empty.
pub fn quiet_is_one_piece()
    ensures one { (mail registered : Bool) (t : List ℕ) → quiet mail t ≡ true → 0 < length t → IsPieces mail registered t 0 (plain_from 0 (length t) ∷ []) }
    ensures none { (mail registered : Bool) → IsPieces mail registered [] 0 [] }
{}

/// The pieces of a text are those that are found from left to right.
pub fn pieces_are_found()
    ensures { (mail registered : Bool) (t : List ℕ) → IsPieces mail registered t 0 (pieces_of mail registered t) }
{}

/// A text without an `@` falls into the same pieces, whether addresses are asked for or not.
pub fn addresses_need_an_at_sign()
    ensures { (registered : Bool) (t : List ℕ) → holds_at_sign t ≡ false → pieces_of true registered t ≡ pieces_of false registered t }
{}

/// A text without a colon falls into the same pieces, whether URIs of registered schemes are asked for or those of the base.
pub fn schemes_need_a_colon()
    ensures { (mail : Bool) (t : List ℕ) → holds_colon t ≡ false → pieces_of mail true t ≡ pieces_of mail false t }
{}
