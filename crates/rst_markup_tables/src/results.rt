//! What a table is, or what is wrong with it.
ghost use Rattle.std.specs.Prelude.{◌≡◌, IfOk};

use rst_settings::Parts;
use rst_text::Lines;
use std::alloc::{AllocError, Global};
use std::marker::Model;
use std::slice;

/// The texts of a cell that aren't blank, with their places. Most cells have one, which takes no list.
#[derive(Debug, Drop)]
pub(crate) enum CellTexts {
    One((usize, String)),
    More(Vec<(usize, String)>),
}

impl CellTexts {
    ghost use Rattle.rst_text.specs.Source.{texts_with};
    ghost use Rattle.rst_markup_tables.specs.Kept.{kept_texts};

    /// These texts.
    pub(crate) fn kept(mut texts: Vec<(usize, String)>) -> CellTexts
        ensures { kept_texts result ≡ texts_with texts.items }
    {
        if texts.len() == 1 {
            if let Some(text) = texts.pop() {
                return CellTexts::One(text);
            }
        }
        CellTexts::More(texts)
    }

    /// The texts.
    fn as_slice(&self) -> &[(usize, String)]
        ensures { texts_with result.now ≡ kept_texts self.now }
    {
        match self {
            CellTexts::One(text) => slice::from_ref(text),
            CellTexts::More(texts) => texts.as_slice(),
        }
    }
}

/// The lines of a cell: the number of the first in the document, how many there are, the texts of those that aren't
/// blank, by their places from 0 on, and the parts that hold in all of them. In a text no character ends a line, and no white
/// one is the last. Contracts see the lines as a block.
#[derive(Debug, Drop)]
pub struct CellLines {
    pub(crate) first: usize,
    pub(crate) count: usize,
    pub(crate) texts: CellTexts,
    pub(crate) parts: Parts,
}

impl Model for CellLines {
    ghost use Rattle.rst_text.specs.Block.{Block};

    ghost Value = { Block };

    ghost use Rattle.rst_text.specs.Source.{spread};
    ghost use Rattle.rst_markup_tables.specs.Kept.{kept_texts};

    ghost view = { λ l. spread l.parts l.first l.count (kept_texts l.texts) };

    ghost use Rattle.std.specs.Prelude.{◌+◌, ◌^◌, ◌<◌, ◌≤◌};
    ghost use Rattle.rst_text.specs.Source.{ArePlaced};

    ghost invariant = { λ l. ArePlaced 0 l.count (kept_texts l.texts) × (l.count < 2 ^ 63) × (l.first + l.count ≤ 2 ^ 64) };
}

impl CellLines {
    /// These lines as those of a text of their own.
    ///
    /// The only refusal is [`AllocError`].
    pub fn into_lines(self, alloc: Global) -> Result<Lines, AllocError>
        ensures { IfOk result (λ lines. lines ≡ self) }
    {
        Lines::numbered(
            alloc,
            self.parts,
            self.first,
            self.count,
            self.texts.as_slice(),
        )
    }
}

/// A cell: how many rows and columns it takes beside its first, and its lines.
#[derive(Debug, Drop)]
pub struct Cell {
    pub morerows: usize,
    pub morecols: usize,
    pub lines: CellLines,
}

/// The widths of a table's columns, in places.
#[derive(Debug, Drop)]
pub struct Widths {
    pub(crate) widths: Vec<usize>,
}

impl Model for Widths {
    ghost use Rattle.std.specs.Prelude.{List, ℕ};

    ghost Value = { List ℕ };

    ghost view = { λ w. w.widths.items };
}

impl Widths {
    /// The widths, from the left column to the right one.
    pub fn as_slice(&self) -> &[usize]
        ensures { result.now ≡ self.now }
    {
        self.widths.as_slice()
    }
}

/// The rows of a table, each with the cells that begin in it, from left to right.
#[derive(Debug, Drop)]
pub struct Rows {
    pub(crate) rows: Vec<Vec<Cell>>,
}

impl Model for Rows {
    ghost use Rattle.std.specs.Prelude.{List, map, vec_items};
    ghost use Rattle.rst_markup_tables.specs.declared.results.Cell.{Cell};

    ghost Value = { List (List Cell) };

    ghost view = { λ r. map vec_items r.rows.items };
}

impl Rows {
    ghost use Rattle.std.specs.Prelude.{map, vec_items};

    /// The rows, from the top down.
    pub fn into_rows(self) -> Vec<Vec<Cell>>
        ensures { map vec_items result.items ≡ self }
    {
        self.rows
    }
}

/// What is wrong with a table. Lines of a table are counted from 1.
#[derive(Clone, Copy, Debug, PartialEq, Eq)]
pub enum TableDetail {
    /// No line from the third on is a border.
    BottomBorderMissing,
    /// A line of another width than the first, or one that doesn't end in `+` or `|`.
    RightEdgeBroken,
    /// Two lines part a head from a body.
    TwoHeadRules { first: usize, second: usize },
    /// The drawn rectangles don't tile the grid.
    ParseIncomplete,
    /// A border of another length than the top one.
    BorderMismatch,
    /// No border ends the table.
    BottomMissing,
    /// The spans of a rule don't begin and end where columns do.
    ColumnSpan { line: usize },
    /// A line has text between two columns.
    Margin { line: usize },
}

/// What is wrong with a table, the number of its first line, and the places of its lines: from `first` on, before
/// `end`.
#[derive(Clone, Copy, Debug, PartialEq, Eq)]
pub struct TableFault {
    pub line: usize,
    pub detail: TableDetail,
    pub first: usize,
    pub end: usize,
}

/// A table, or what is wrong with it. Either way `end` is the place after its last line.
#[derive(Debug, Drop)]
pub enum TableResult {
    /// The widths of the columns, how many rows are the head's, and the rows, those of the head among them.
    Table {
        cols: Widths,
        head: usize,
        rows: Rows,
        end: usize,
    },
    /// The table's lines are no table.
    Malformed {
        end: usize,
        note: TableFault,
    },
}
