//! Lines of a table as rows of places.
ghost use Rattle.std.specs.Prelude.{◌≡◌, ◌+◌, ◌<◌, get_or, length, drop, IfOk, chars};
ghost use Rattle.rst_markup_tables.specs.Cells.{AreOfLine};
ghost use Rattle.rst_markup_tables.specs.Places.{consists_of, mark_of, places_of, mark_at, place, row_at, width, no_row, rows_of};
ghost use Rattle.rst_markup_blocks.specs.Prelude.{first_number, first_parts, first_text, block_of};

use super::Result;
use rst_settings::Parts;
use rst_text::{View, characters_of};
use std::alloc::Global;
use std::marker::Model;
use unicode_width::UnicodeWidthChar;

/// A place of a line: the character that begins there, or the second place of one that is two columns wide.
#[derive(Clone, Copy)]
pub(crate) enum Place {
    Character(char),
    Second,
}

impl Place {
    /// The character that begins at the place, or `'\0'`.
    pub(crate) fn mark(self) -> char
        ensures { result ≡ mark_of self }
    {
        match self {
            Place::Character(c) => c,
            Place::Second => '\0',
        }
    }
}

/// A line of a table: its number, its places, and the parts of the wider profile that hold in it.
#[derive(Drop)]
pub(crate) struct TableLine {
    pub(crate) number: usize,
    pub(crate) places: Vec<Place>,
    pub(crate) parts: Parts,
}

impl Model for TableLine {
    ghost use Rattle.rst_markup_tables.specs.Places.{Row};

    ghost Value = { Row };

    ghost view = { λ l. record { number = l.number; places = l.places.items; parts = l.parts } };

    ghost use Rattle.rst_markup_tables.specs.Cells.{AreOfLine};

    ghost invariant = { λ l. AreOfLine l.places.items };
}

impl TableLine {
    ghost use Rattle.rst_markup_tables.specs.Cells.{AreOfLine};

    /// The line's number in its document.
    pub(crate) fn number(&self) -> usize
        ensures { result ≡ self.now.number }
    {
        self.number
    }

    /// The parts of the wider profile that hold in the line.
    pub(crate) fn parts(&self) -> Parts
        ensures { result ≡ self.now.parts }
    {
        self.parts
    }

    /// The line's places.
    pub(crate) fn places(&self) -> &[Place]
        ensures value { result.now ≡ self.now.places }
        ensures of_line { AreOfLine result.now }
    {
        self.places.as_slice()
    }
}

/// The places of a text. The width of a character is that of the character by itself, whatever is next to it.
#[tactic(auto, unfolding(crate::specs::Places::is_double))]
fn places_of(alloc: Global, text: &str) -> Result<Vec<Place>>
    ensures { IfOk result (λ places. places.items ≡ places_of (chars text.now)) }
{
    if text.is_ascii() {
        // Each byte is a character that takes one place.
        let bytes = text.as_bytes();
        let mut places = Vec::with_capacity(alloc, bytes.len())?;
        for byte in bytes {
            places.push_reserved(Place::Character(char::from(*byte)));
        }
        return Ok(places);
    }
    let characters = characters_of(alloc, text)?;
    let mut places = Vec::with_capacity(alloc, characters.len())?;
    for c in &characters {
        places.push(Place::Character(*c))?;
        if c.width().unwrap_or(0) == 2 {
            places.push(Place::Second)?;
            continue;
        }
    }
    Ok(places)
}

/// The line at place `k` of a view, by its text.
pub(crate) fn line_of(alloc: Global, view: &View<'_>, k: usize, text: &str) -> Result<TableLine>
    requires inside { k < length (block_of view.now) }
    requires text { chars text.now ≡ first_text (drop k (block_of view.now)) }
    ensures line { IfOk result (λ line. line ≡ get_or (rows_of (block_of view.now)) k no_row) }
    ensures number { IfOk result (λ line. line.number ≡ first_number (block_of view.now) + k) }
    ensures parts { IfOk result (λ line. line.parts ≡ first_parts (block_of view.now)) }
{
    let number = view.number(k);
    let places = places_of(alloc, text)?;
    let parts = *view.parts(k);
    Ok(TableLine {
        number,
        places,
        parts,
    })
}

/// The character that begins at a place of a row, or `'\0'`.
pub(crate) fn mark_at(row: &[Place], column: usize) -> char
    ensures { result ≡ mark_at row.now column }
{
    row.get(column).map_or('\0', |place| place.mark())
}

/// Whether each place holds one of two characters.
pub(crate) fn consists_of(row: &[Place], one: char, other: char) -> bool
    ensures { result ≡ consists_of one other row.now }
{
    row.iter()
        .all(|place| place.mark() == one || place.mark() == other)
}

/// The places of a line of a table; past its end there are none.
pub(crate) fn row_at(lines: &[TableLine], row: usize) -> &[Place]
    ensures value { result.now ≡ row_at lines.now row }
    ensures of_line { AreOfLine result.now }
{
    match lines.get(row) {
        Some(line) => line.places(),
        None => &[],
    }
}

/// The character that begins at a place of a table, or `'\0'`.
pub(crate) fn mark(lines: &[TableLine], row: usize, column: usize) -> char
    ensures { result ≡ place lines.now row column }
{
    mark_at(row_at(lines, row), column)
}

/// How many places the first line has.
#[tactic(auto, unfolding(crate::specs::Places::width))]
pub(crate) fn width(lines: &[TableLine]) -> usize
    ensures { result ≡ width lines.now }
{
    row_at(lines, 0).len()
}
