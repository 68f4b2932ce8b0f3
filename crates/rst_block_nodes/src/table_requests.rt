//! What the options of a table ask for beside its attributes.
ghost use Rattle.std.specs.Prelude.{◌≡◌, IfOk};
ghost use Rattle.rst_markup_directives.specs.Options.{choices_in};
ghost use Rattle.rst_block_nodes.specs.TableRequests as spec;

use rst_markup_directives::{OptionName, OptionValue, Setting, Widths};
use rst_tree::Result;
use std::alloc::Global;

/// What the options of a table ask for beside its attributes: those of the directive `table` the widths alone.
#[derive(Debug, Drop)]
pub struct TableOptions {
    /// How many of its rows are its head.
    pub heads: u64,
    /// How many of its columns are stubs.
    pub stubs: u64,
    /// The widths of its columns, if something is said of them.
    pub widths: Option<Widths>,
}

/// What the options of a table ask for.
///
/// The only refusal is [`AllocError`].
pub fn table_options(alloc: Global, options: &[Setting]) -> Result<TableOptions>
    ensures { IfOk result (λ asked. spec.asked_in asked ≡ spec.asked_of (choices_in options.now)) }
{
    let mut asked = TableOptions {
        heads: 0,
        stubs: 0,
        widths: None,
    };
    for setting in options {
        match (setting.option, &setting.value) {
            (OptionName::HeaderRows, OptionValue::Number(number)) => asked.heads = *number,
            (OptionName::StubColumns, OptionValue::Number(number)) => asked.stubs = *number,
            (OptionName::Widths, OptionValue::Widths(widths)) => {
                asked.widths = Some(widths.copy(alloc)?);
            }
            _ => {}
        }
    }
    Ok(asked)
}
