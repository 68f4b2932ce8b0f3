//! The texts of what can be wrong with a table.
ghost use Rattle.std.specs.Prelude.{◌≡◌, string_bytes, IfOk};
ghost use Rattle.rst_markup_tables.specs.Messages.{malformed_text};

use super::Result;
use super::results::TableDetail;
use std::alloc::Global;

/// The text of the message on a malformed table: `Malformed table.`, a line end and what is wrong.
///
/// The only error is that memory runs out.
pub fn malformed_text(alloc: Global, detail: TableDetail) -> Result<String>
    ensures { IfOk result (λ text. string_bytes text ≡ malformed_text detail) }
{
    let words = match detail {
        TableDetail::BottomBorderMissing => String::from_str(alloc, "Bottom border missing."),
        TableDetail::RightEdgeBroken => String::from_str(alloc, "Right edge broken."),
        TableDetail::TwoHeadRules { first, second } => format!(in alloc;
            "Multiple head/body row separators (table lines {first} and {second}); only one allowed."
        ),
        TableDetail::ParseIncomplete => {
            String::from_str(alloc, "Malformed table; parse incomplete.")
        }
        TableDetail::BorderMismatch => String::from_str(
            alloc,
            "Bottom border or header rule does not match top border.",
        ),
        TableDetail::BottomMissing => String::from_str(alloc, "No bottom table border found."),
        TableDetail::ColumnSpan { line } => {
            format!(in alloc; "Column span alignment problem in table line {line}.")
        }
        TableDetail::Margin { line } => {
            format!(in alloc; "Text in column margin in table line {line}.")
        }
    }?;
    format!(in alloc; "Malformed table.\n{words}")
}
