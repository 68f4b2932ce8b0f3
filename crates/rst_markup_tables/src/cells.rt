//! The lines of a cell.
ghost use Rattle.std.specs.Prelude.{◌≡◌, ◌-◌, ℕ, List, drop, filter, length, IfOk, IsTrue, map};
ghost use Rattle.std.specs.List.{range_with_len};
ghost use Rattle.rst_text.specs.Extent.{least_indent};
ghost use Rattle.rst_text.specs.Lines.{are_lines, is_line_text};
ghost use Rattle.rst_text.specs.Text.{chars_of};
ghost use Rattle.rst_text.specs.Source.{texts_with};
ghost use Rattle.rst_markup_tables.specs.Cells.{as_lines, cut_places, cell_text, cell_block, reaches, reaching, texts_among};
ghost use Rattle.rst_markup_tables.specs.Places.{AreNumbered};

use super::Result;
use super::places::{Place, TableLine, row_at};
use super::results::{CellLines, CellTexts};
use rst_markup_lines::is_blank;
use rst_settings::Parts;
use rst_text::{indentation, skip};
use std::alloc::Global;

/// The places from `left` on and before `right`.
fn cut_places(row: &[Place], left: usize, right: Option<usize>) -> &[Place]
    ensures { result.now ≡ cut_places left right row.now }
{
    let end = right.unwrap_or(row.len()).min(row.len());
    &row[left.min(end)..end]
}

/// The text of a cell in a line of a table: the characters from place `left` on and before `right`, without the white
/// ones at their end.
fn cell_text(
    alloc: Global,
    lines: &[TableLine],
    k: usize,
    left: usize,
    right: Option<usize>,
) -> Result<String>
    ensures { IfOk result (λ text. (chars_of text ≡ cell_text left right lines.now k) × IsTrue (is_line_text (chars_of text))) }
{
    let places = cut_places(row_at(lines, k), left, right);
    let mut text = String::with_capacity(alloc, places.len())?;
    for place in places {
        if let Place::Character(c) = place {
            text.push(*c)?;
            continue;
        }
    }
    let len = text.trim_end().len();
    text.truncate(len);
    Ok(text)
}

/// The texts of a cell in the lines at some places, with these places. Empty ones are left out.
fn cell_texts(
    alloc: Global,
    lines: &[TableLine],
    among: &[usize],
    left: usize,
    right: Option<usize>,
) -> Result<Vec<(usize, String)>>
    ensures texts { IfOk result (λ texts. texts_with texts.items ≡ texts_among left right lines.now among.now) }
    ensures lines { IfOk result (λ texts. IsTrue (are_lines (as_lines (texts_with texts.items)))) }
{
    let mut texts = Vec::with_capacity(alloc, among.len())?;
    for k in among {
        let text = cell_text(alloc, lines, *k, left, right)?;
        if !is_blank(text.as_str()) {
            texts.push((*k, text))?;
            continue;
        }
    }
    Ok(texts)
}

/// The places of all lines.
pub(crate) fn all_places(alloc: Global, lines: &[TableLine]) -> Result<Vec<usize>>
    ensures { IfOk result (λ places. places.items ≡ range_with_len 0 (length lines.now)) }
{
    (0..lines.len()).collect(alloc)
}

/// Those of some places at which a line is longer than `n` places.
pub(crate) fn reaching(
    alloc: Global,
    lines: &[TableLine],
    among: Vec<usize>,
    n: usize,
) -> Result<Vec<usize>>
    ensures { IfOk result (λ found. found.items ≡ filter (reaches lines.now n) among.items) }
{
    // Most often all are, and then their list stays.
    if among.iter().all(|k| row_at(lines, *k).len() > n) {
        return Ok(among);
    }
    let places = among.iter().copied();
    places
        .filter(|k| row_at(lines, *k).len() > n)
        .collect(alloc)
}

/// The least indentation of texts that aren't blank, 0 if there is none.
fn least_indent(texts: &[(usize, String)]) -> usize
    ensures { result ≡ least_indent (as_lines (texts_with texts.now)) }
{
    let mut least: Option<usize> = None;
    for (_, text) in texts {
        if is_blank(text.as_str()) {
            continue;
        }
        let spaces = indentation(text.as_str());
        least = Some(least.unwrap_or(spaces).min(spaces));
    }
    least.unwrap_or(0)
}

/// Texts without their first `n` characters.
fn shortened(alloc: Global, texts: Vec<(usize, String)>, n: usize) -> Result<Vec<(usize, String)>>
    ensures { IfOk result (λ short. texts_with short.items ≡ map (λ (t : ℕ × List ℕ). (t.0, drop n t.1)) (texts_with texts.items)) }
{
    if n == 0 {
        return Ok(texts);
    }
    let mut short = Vec::with_capacity(alloc, texts.len())?;
    for (k, text) in &texts {
        let text = String::from_str(alloc, skip(text.as_str(), n))?;
        short.push((*k, text))?;
    }
    Ok(short)
}

/// The lines of a cell: those of a table, cut at places `left` and `right` (at none on the right, if it is `None`),
/// without the white characters at their ends and without the least indentation of those that aren't blank. It reads only
/// the lines that are longer than `left` places: those at the places `among`.
pub(crate) fn cell_lines(
    alloc: Global,
    lines: &[TableLine],
    among: &[usize],
    left: usize,
    right: Option<usize>,
) -> Result<CellLines>
    requires numbered { AreNumbered lines.now }
    requires among { among.now ≡ reaching lines.now left }
    ensures { IfOk result (λ cell. cell ≡ cell_block left right lines.now) }
{
    let texts = cell_texts(alloc, lines, among, left, right)?;
    let least = least_indent(&texts);
    let texts = shortened(alloc, texts, least)?;
    let count = lines.len();
    let first = match lines.last() {
        Some(last) => last.number() - (count - 1),
        None => 0,
    };
    let parts = match lines.first() {
        Some(line) => line.parts(),
        None => Parts::NONE,
    };
    Ok(CellLines {
        first,
        count,
        texts: CellTexts::kept(texts),
        parts,
    })
}
