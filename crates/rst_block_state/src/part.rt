//! Parts of a view that are blocks inside.
ghost use Rattle.std.specs.Prelude.{◌≡◌, ◌+◌, ◌-◌, ◌*◌, ◌<◌, ◌≤◌, length, drop};
ghost use Rattle.rst_markup_blocks.specs.Prelude.{extent, capped, reach, block_of, source_of};
ghost use Rattle.rst_markup_blocks.specs.Parts.{IsBlock};
ghost use Rattle.rst_markup_blocks.specs.Sizes.{hanging_size, item_size};
ghost use Rattle.rst_block_state.specs.Texts.{lines_in};
ghost use Rattle.rst_block_state.specs.Within as within;

use rst_markup_blocks::{Part, hanging_part, item_end};
use rst_markup_lines::Marker;
use rst_text::{Looks, View};

/// The lines from place `from` on that are blank or indented, without their least indentation.
pub fn indented(view: &View<'_>, from: usize, looks: &mut Looks) -> Part
    requires inside { from ≤ length (block_of view.now) }
    ensures block { IsBlock (block_of view.now) result }
    ensures part { result ≡ within.indented_part from (drop from (block_of view.now)) }
    ensures from { result.from ≡ from }
    ensures reach { looks.new ≤ looks.old + reach (extent 1 (drop from (block_of view.now))) (drop from (block_of view.now)) }
    ensures low { capped (looks.old + reach (extent 1 (drop from (block_of view.now))) (drop from (block_of view.now))) ≤ looks.new }
{
    let extent = view.block_end(from, None, looks);
    Part {
        from,
        to: extent.end,
        first_cut: extent.indent,
        rest_cut: extent.indent,
    }
}

/// What follows a marker, and the indented block below.
pub fn hanging(view: &View<'_>, at: usize, marker: Marker, looks: &mut Looks) -> Part
    requires inside { at < length (block_of view.now) }
    ensures block { IsBlock (block_of view.now) result }
    ensures part { result ≡ within.hanging at marker (drop at (block_of view.now)) }
    ensures reach { looks.new + 2 ≤ looks.old + 2 * reach (hanging_size (drop at (block_of view.now))) (drop at (block_of view.now)) }
    ensures low { capped (looks.old + (hanging_size (drop at (block_of view.now)) - 1)) ≤ looks.new }
{
    hanging_part(view, at, marker.cut, marker.bare, looks)
}

/// The block of a list's item with this marker.
pub fn item_part(view: &View<'_>, at: usize, marker: Marker, looks: &mut Looks) -> Part
    requires inside { at < length (block_of view.now) }
    ensures block { IsBlock (block_of view.now) result }
    ensures part { result ≡ within.item_part at marker (drop at (block_of view.now)) }
    ensures reach { looks.new + 2 ≤ looks.old + 2 * reach (item_size marker (drop at (block_of view.now))) (drop at (block_of view.now)) }
    ensures low { capped (looks.old + (item_size marker (drop at (block_of view.now)) - 1)) ≤ looks.new }
{
    if marker.bare {
        return hanging(view, at, marker, looks);
    }
    Part {
        from: at,
        to: item_end(view, at, marker, looks),
        first_cut: marker.cut,
        rest_cut: marker.cut,
    }
}

/// A part of a view as a view.
pub fn inside<'a>(view: &View<'a>, part: Part) -> View<'a>
    requires { IsBlock (block_of view.now) part }
    ensures block { block_of result ≡ lines_in (block_of view.now) part }
    ensures lines { length (block_of result) ≡ part.to - part.from }
    ensures fewer { length (block_of result) ≤ length (block_of view.now) }
    ensures text { source_of result ≡ source_of view.now }
{
    view.part(part.from, part.to, part.first_cut, part.rest_cut)
}
