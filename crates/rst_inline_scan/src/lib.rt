//! The pieces of an inline text: where its markup begins and ends.
#![tactic(auto)]

mod calm;
mod characters;
mod footnotes;
mod laws;
mod mail;
mod marked;
mod missing;
mod names;
mod piece;
mod quiet;
mod registered;
pub mod rows;
mod scanner;
mod tails;
mod uri;
mod words;

pub use laws::{
    addresses_need_an_at_sign, one_list_of_pieces, pieces_are_found, quiet_is_one_piece,
    schemes_need_a_colon,
};
pub use mail::is_address;
pub use piece::{Kind, Markup, Piece, Suffix};
pub use quiet::is_quiet;
pub use scanner::{pieces_of, pieces_of_ascii};
pub use uri::plain_uri;
