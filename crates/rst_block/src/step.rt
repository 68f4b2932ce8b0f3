//! One step: the construct at the next line of a block.
ghost use Rattle.std.specs.Prelude.{◌≢◌};
ghost use Rattle.rst_text.specs.ViewBlock.{block_of};
ghost use Rattle.rst_markup_blocks.specs.declared.begun.Begun.TheVariants.{Blank, Text};
ghost use Rattle.rst_block_body.specs.ReadSteps.{BeginsAt, IsReadStep};

use rst_block_body::adornment::adornment;
use rst_block_body::field::field;
use rst_block_body::line::bar_line;
use rst_block_body::list::{bullet_item, enumerated_item};
use rst_block_body::option::option_item;
use rst_block_body::paragraph::doctest_block;
use rst_block_body::quote::block_quote;
use rst_block_body::table::table;
use rst_block_markup::explicit_markup;
use rst_block_state::{OpenBlock, Pass, Result, Step};
use rst_markup_blocks::Begun;
use rst_markup_tables::{grid, simple};
use rst_text::View;

/// Reads the construct at the next line, where this begins, neither a blank line nor a text.
#[inline(never)]
pub(crate) fn marked_step(
    view: &View<'_>,
    level: &mut OpenBlock,
    begun: Begun,
    pass: &mut Pass,
) -> Result<Step>
    requires here { BeginsAt (block_of view.now) level.old begun }
    requires filled { begun ≢ Blank }
    requires mark { begun ≢ Text }
    ensures { IsReadStep 29 (block_of view.now) level.old pass.old level.new pass.new result }
{
    let at = level.at;
    match begun {
        Begun::Blank => unreachable!(),
        Begun::Text => unreachable!(),
        Begun::Quote => block_quote(view, level, pass),
        Begun::Bullet { mark, marker } => bullet_item(view, level, mark, marker, pass),
        Begun::Enumerator(enumerator) => enumerated_item(view, level, enumerator, pass),
        Begun::Field(mark) => field(view, level, mark, pass),
        Begun::OptionItem(marker) => option_item(view, level, marker, pass),
        Begun::Doctest => doctest_block(view, level, pass),
        Begun::Line(marker) => bar_line(view, level, marker, pass),
        Begun::Grid => {
            let found = grid(pass.alloc, view, at, &mut pass.looks)?;
            table(view, level, found, pass)
        }
        Begun::Simple => {
            let found = simple(pass.alloc, view, at, &mut pass.looks)?;
            table(view, level, found, pass)
        }
        Begun::Explicit | Begun::Anonymous => explicit_markup(view, level, pass),
        Begun::Adornment(mark) => adornment(view, level, mark, pass),
    }
}
