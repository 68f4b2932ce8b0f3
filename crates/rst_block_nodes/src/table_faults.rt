//! What can be wrong with the content of a directive that makes a table.
ghost use Rattle.std.specs.Prelude.{◌≡◌, ◌++◌, decimal, option_map, string_bytes, IfOk};
ghost use Rattle.rst_markup_directives.specs.Widths.{columns_in};
ghost use Rattle.rst_block_nodes.specs.TableFaults as spec;

use itoa::Buffer;
use rst_markup_directives::Widths;
use rst_tree::Result;
use std::alloc::Global;

/// A directive that makes a table.
#[derive(Clone, Copy, Debug, PartialEq, Eq)]
pub enum TableDirective {
    /// Of a table.
    Table,
    /// Of lists.
    ListTable,
}

impl TableDirective {
    /// Its name.
    fn name(self) -> &'static str
        ensures { result.now ≡ spec.directive_name self }
    {
        match self {
            TableDirective::Table => "table",
            TableDirective::ListTable => "list-table",
        }
    }
}

/// What is wrong with the content of such a directive (Docutils, Directives, 'Table', 'List Table').
#[derive(Clone, Copy, Debug, PartialEq, Eq)]
pub enum TableFault {
    /// It is something else than one table.
    NotOneTable,
    /// It is something else than one bullet list.
    NotOneList,
    /// A row, counted from 1, holds something else than one bullet list.
    NoInnerList(usize),
    /// A row has another number of cells than the first one.
    Uneven {
        row: usize,
        cells: usize,
        columns: usize,
    },
    /// There are other widths than columns.
    OtherWidths {
        directive: TableDirective,
        columns: u64,
    },
    /// There are fewer rows than the head should have.
    FewRows {
        heads: u64,
        rows: usize,
    },
    /// All rows are in the head.
    NoBody(usize),
    /// There are fewer columns than stubs.
    FewColumns {
        stubs: u64,
        columns: usize,
    },
    /// All columns are stubs.
    NoStubless(usize),
}

/// The text of the message on it.
///
/// The only refusal is [`AllocError`].
pub fn table_fault_text(alloc: Global, fault: TableFault) -> Result<String>
    ensures { IfOk result (λ text. string_bytes text ≡ spec.table_fault_text fault) }
{
    match fault {
        TableFault::NotOneTable => {
            let text =
                "Error parsing content block for the \"table\" directive: exactly one table expected.";
            Ok(String::from_str(alloc, text)?)
        }
        TableFault::NotOneList => lists_text(alloc, "exactly one bullet list expected."),
        TableFault::NoInnerList(row) => {
            let what = format!(in alloc;
                "two-level bullet list expected, but row {row} does not contain a second-level bullet list."
            )?;
            lists_text(alloc, what.as_str())
        }
        TableFault::Uneven {
            row,
            cells,
            columns,
        } => {
            let what = "uniform two-level bullet list expected, but row ";
            let mut what = String::from_str(alloc, what)?;
            let rest = " does not contain the same number of items as row 1 (";
            push_count(&mut what, row as u64, rest)?;
            push_count(&mut what, cells as u64, " vs ")?;
            push_count(&mut what, columns as u64, ").")?;
            lists_text(alloc, what.as_str())
        }
        TableFault::OtherWidths { directive, columns } => {
            let name = directive.name();
            format!(in alloc;
                "\"{name}\" widths do not match the number of columns in table ({columns})."
            )
        }
        TableFault::FewRows { heads, rows } => {
            let mut text = String::new(alloc);
            push_count(&mut text, heads, " header row(s) specified but only ")?;
            let rest = " row(s) of data supplied (\"list-table\" directive).";
            push_count(&mut text, rows as u64, rest)?;
            Ok(text)
        }
        TableFault::NoBody(rows) => format!(in alloc;
            "Insufficient data supplied ({rows} row(s)); no data remaining for table body, required by \"list-table\" directive."
        ),
        TableFault::FewColumns { stubs, columns } => {
            let mut text = String::new(alloc);
            push_count(&mut text, stubs, " stub column(s) specified but only ")?;
            let rest = " columns(s) of data supplied (\"list-table\" directive).";
            push_count(&mut text, columns as u64, rest)?;
            Ok(text)
        }
        TableFault::NoStubless(columns) => format!(in alloc;
            "Insufficient data supplied ({columns} columns(s)); no data remaining for table body, required by \"list-table\" directive."
        ),
    }
}

/// The text of the message on lists that are wrong.
fn lists_text(alloc: Global, what: &str) -> Result<String>
    ensures { IfOk result (λ text. string_bytes text ≡ spec.lists_text what.now) }
{
    format!(in alloc; "Error parsing content block for the \"list-table\" directive: {what}")
}

/// Whether widths that a directive gives are another number than that of the columns.
pub(crate) fn widths_fault(
    directive: TableDirective,
    columns: u64,
    widths: &Option<Widths>,
) -> Option<TableFault>
    ensures { result ≡ spec.widths_fault directive columns (option_map columns_in widths.now) }
{
    match widths {
        Some(Widths::Given(widths)) if widths.len() as u64 != columns => {
            Some(TableFault::OtherWidths { directive, columns })
        }
        _ => None,
    }
}

/// Puts a number and more text after a text.
fn push_count(text: &mut String, number: u64, rest: &str) -> Result<()>
    ensures { IfOk result (λ _. string_bytes text.new ≡ string_bytes text.old ++ decimal number ++ rest.now) }
{
    let mut buffer = Buffer::new();
    text.push_str(buffer.format(number))?;
    text.push_str(rest)?;
    Ok(())
}
