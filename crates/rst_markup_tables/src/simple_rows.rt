//! The rows of a simple table.
ghost use Rattle.std.specs.Prelude.{◌≡◌, ◌++◌, ◌+◌, ◌-◌, ◌^◌, ◌<◌, ◌≤◌, ℕ, not, get_or, length, IfOk, IfSome, option_map, find, vec_items};
ghost use Rattle.std.specs.List.{list_all};
ghost use Rattle.rst_markup_tables.specs.Places.{AreNumbered, row_at};
ghost use Rattle.rst_text.specs.Places.{first_from};
ghost use Rattle.rst_markup_tables.specs.SimpleTable as spec;

use super::Result;
use super::places::{Place, TableLine, consists_of, mark_at, row_at};
use super::spans::{RuleSpan, last_joined, span_of, spans_after, spans_of};
use std::alloc::Global;

/// The lines of a row: from place `from` of the table on, before place `to`. Its columns are those of the rule at place
/// `rule`, the top border being at 0.
#[derive(Clone, Copy)]
pub(crate) struct RowLines {
    pub(crate) from: usize,
    pub(crate) to: usize,
    pub(crate) rule: usize,
}

/// The lines of a simple table, and its columns.
#[derive(Clone, Copy)]
pub(crate) struct SimpleLines<'a> {
    pub(crate) alloc: Global,
    pub(crate) lines: &'a [TableLine],
    pub(crate) columns: &'a [RuleSpan],
    /// Whether the part `unmarked` is on, by which lines before the first row of a section are in no row.
    pub(crate) unmarked: bool,
    ghost are_columns: { columns.now ≡ spec.columns_of lines.now },
    ghost numbered: { AreNumbered lines.now },
}

/// The rules below the top border. A rule begins with `=` or `-`, and holds only this mark and spaces.
#[tactic(auto, unfolding(crate::specs::SimpleTable::is_rule, crate::specs::SimpleTable::is_ruled))]
pub(crate) fn rules_of(alloc: Global, lines: &[TableLine]) -> Result<Vec<usize>>
    ensures value { IfOk result (λ rules. rules.items ≡ spec.rules_of lines.now) }
    ensures within { IfOk result (λ rules. (n : ℕ) → n < length rules.items → get_or rules.items n 0 < length lines.now) }
{
    (1..lines.len())
        .filter(|k| {
            let row = row_at(lines, *k);
            (mark_at(row, 0) == '=' && consists_of(row, '=', ' '))
                || (mark_at(row, 0) == '-' && consists_of(row, '-', ' '))
        })
        .collect(alloc)
}

#[tactic(auto, unfolding(crate::specs::SimpleTable::is_white_place))]
fn are_white(places: &[Place]) -> bool
    ensures { result ≡ list_all spec.is_white_place places.now }
{
    places.iter().all(|place| match place {
        Place::Character(c) => c.is_whitespace(),
        Place::Second => false,
    })
}

/// Whether there is nothing but white from one place up to another.
fn is_clear(row: &[Place], from: usize, to: usize) -> bool
    ensures { result ≡ spec.is_clear from to row.now }
{
    let end = to.min(row.len());
    are_white(&row[from.min(end)..end])
}

/// Whether there is nothing but white between neighbouring spans.
fn are_clear(row: &[Place], spans: &[RuleSpan]) -> bool
    requires { spec.AreInOrder 0 spans.now }
    ensures { result ≡ spec.are_clear spans.now row.now }
{
    let [first, others @ ..] = spans else {
        return true;
    };
    let mut before = *first;
    // Past the end of a line there is no text, however many columns begin there.
    for span in others {
        if before.from >= row.len() {
            return true;
        }
        if !is_clear(row, before.to, span.from) {
            return false;
        }
        before = *span;
    }
    true
}

impl SimpleLines<'_> {
    /// The spans of a rule with how many columns each joins, if they join all, one after the other.
    pub(crate) fn rule_spans(&self, rule: usize) -> Result<Option<Vec<RuleSpan>>>
        ensures { IfOk result (λ found. option_map vec_items found ≡ spec.rule_spans self.now.lines.now rule) }
    {
        let spans = spans_of(self.alloc, row_at(self.lines, rule))?;
        let mut wide = Vec::with_capacity(self.alloc, spans.len())?;
        let mut left = self.columns;
        for span in &spans {
            let Some(last) = last_joined(left, *span) else {
                return Ok(None);
            };
            let columns = last + 1;
            wide.push(RuleSpan { columns, ..*span })?;
            left = spans_after(left, columns);
        }
        if left.is_empty() {
            Ok(Some(wide))
        } else {
            Ok(None)
        }
    }

    /// The spans of a row.
    pub(crate) fn row_spans(&self, row: RowLines) -> Result<Vec<RuleSpan>>
        ensures { IfOk result (λ spans. spans.items ≡ spec.row_spans self.now.lines.now row) }
    {
        // Most rows end at no rule, and have the columns of the table.
        if row.rule == 0 {
            return Vec::from_slice(self.alloc, self.columns);
        }
        let spans = self.rule_spans(row.rule)?;
        Ok(spans.unwrap_or(Vec::new(self.alloc)))
    }

    /// Whether a row begins at a line: its first column isn't blank.
    fn begins_row(&self, line: usize) -> bool
        ensures { result ≡ spec.begins_row self.now.lines.now line }
    {
        let column = span_of(self.columns, 0);
        !is_clear(row_at(self.lines, line), column.from, column.to)
    }

    /// The first line that isn't blank, from place `low` on and before place `end`.
    fn text_start(&self, low: usize, end: usize) -> Option<usize>
        ensures value { result ≡ first_from (λ k. not (spec.is_empty_row (row_at self.now.lines.now k))) low (end - low) }
        ensures within { IfSome result (λ k. k < end) }
    {
        (low..end).find(|k| !row_at(self.lines, *k).is_empty())
    }

    /// The first line at which a row begins, from place `low` on and before place `end`.
    fn row_start(&self, low: usize, end: usize) -> Option<usize>
        ensures value { result ≡ first_from (spec.begins_row self.now.lines.now) low (end - low) }
        ensures within { IfSome result (λ k. k < end) }
    {
        (low..end).find(|k| self.begins_row(*k))
    }

    /// Where the first row of the lines from place `low` on and before place `end` begins, if there is one.
    fn first_row(&self, low: usize, end: usize) -> Option<usize>
        ensures value { result ≡ spec.first_row self.now.unmarked self.now.lines.now low end }
        ensures within { IfSome result (λ k. k ≤ end) }
    {
        if self.unmarked {
            Some(self.row_start(low, end).unwrap_or(end))
        } else {
            self.text_start(low, end)
        }
    }

    /// The rows with those of the lines from place `low` on before a rule.
    fn with_section(&self, rows: Vec<RowLines>, low: usize, rule: usize) -> Result<Vec<RowLines>>
        requires { rule < length self.now.lines.now }
        ensures { IfOk result (λ all. all.items ≡ rows.items ++ spec.section_rows self.now.unmarked self.now.lines.now low rule) }
    {
        let mut rows = rows;
        let Some(begin) = self.first_row(low, rule) else {
            return Ok(rows);
        };
        let mut from = begin;
        for to in begin + 1..rule {
            if self.begins_row(to) {
                rows.push(RowLines { from, to, rule: 0 })?;
                from = to;
                continue;
            }
        }
        rows.push(RowLines {
            from,
            to: rule,
            rule,
        })?;
        Ok(rows)
    }

    /// The rows of the table.
    pub(crate) fn rows(&self, rules: &[usize]) -> Result<Vec<RowLines>>
        requires within { (n : ℕ) → n < length rules.now → get_or rules.now n 0 < length self.now.lines.now }
        ensures { IfOk result (λ rows. rows.items ≡ spec.sections self.now.unmarked self.now.lines.now rules.now) }
    {
        let mut rows = Vec::new(self.alloc);
        let mut low = 1;
        for rule in rules {
            rows = self.with_section(rows, low, *rule)?;
            low = *rule + 1;
        }
        Ok(rows)
    }

    /// The first line of a row with text between these spans.
    pub(crate) fn text_in_margin(&self, spans: &[RuleSpan], row: RowLines) -> Option<usize>
        requires { spec.AreInOrder 0 spans.now }
        ensures value { result ≡ spec.text_in_margin self.now.lines.now spans.now row.from row.to }
        ensures fits { IfSome result (λ k. k + 1 < 2 ^ 64) }
    {
        (row.from..row.to).find(|k| !are_clear(row_at(self.lines, *k), spans))
    }
}
