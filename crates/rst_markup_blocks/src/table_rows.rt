//! The rows of tables.
ghost use Rattle.std.specs.Prelude.{◌≡◌, ◌+◌, ◌-◌, ◌<◌, ◌≤◌, length, drop, IfSome};
ghost use Rattle.std.specs.Option.{option_or};
ghost use Rattle.rst_markup_blocks.specs.Prelude.{Looked, capped, block_of};
ghost use Rattle.rst_markup_blocks.specs.Lines.{lines_while};
ghost use Rattle.rst_markup_blocks.specs.TableRows as spec;

use super::lines::{LineTest, below_text};
use super::table_line::{border_len, is_lower_border};
use rst_markup_lines::{is_blank, is_grid_border};
use rst_text::{Looks, View};

/// The bottom border of the grid table at place `i`, counted from there, where `all` lines from there on begin with `+` or
/// `|`. It looks at most once at each of them.
pub(crate) fn grid_bottom(view: &View<'_>, i: usize, all: usize, looks: &mut Looks) -> Option<usize>
    requires inside { i < length (block_of view.now) }
    requires all { all ≡ lines_while LineTest.Drawn (drop i (block_of view.now)) }
    ensures bottom { result ≡ spec.grid_bottom (drop i (block_of view.now)) }
    ensures within { IfSome result (λ k. k < all) }
    ensures looked { Looked 0 all looks.old looks.new }
{
    let mut bottom = None;
    for k in 2..all {
        if is_grid_border(below_text(view, i, k, looks)) {
            bottom = Some(k);
            continue;
        }
    }
    bottom
}

/// The first border of a simple table below line `k`, both counted from place `i`. It looks once at each line below that one
/// and through the border.
fn border_below(view: &View<'_>, i: usize, k: usize, looks: &mut Looks) -> Option<usize>
    requires inside { i < length (block_of view.now) }
    requires line { k < length (drop i (block_of view.now)) }
    ensures border { result ≡ spec.border_below (drop i (block_of view.now)) k }
    ensures looks { looks.new + k + 1 ≤ looks.old + spec.lines_through (length (drop i (block_of view.now))) result }
    ensures low { capped (looks.old + (spec.lines_through (length (drop i (block_of view.now))) result - (k + 1))) ≤ looks.new }
{
    let all = view.len() - i;
    for j in k + 1..all {
        if is_lower_border(view.line(i + j, looks)) {
            return Some(j);
        }
    }
    None
}

/// Whether the border `k` lines below place `i` is as long as the one there, in two looks.
pub fn is_as_long(view: &View<'_>, i: usize, k: usize, looks: &mut Looks) -> bool
    requires inside { i < length (block_of view.now) }
    ensures value { result ≡ spec.is_as_long (drop i (block_of view.now)) k }
    ensures looked { Looked 1 2 looks.old looks.new }
{
    let top = view.line(i, looks);
    let border = below_text(view, i, k, looks);
    border_len(border) == border_len(top)
}

/// Where the borders of a simple table are that determine its end, counted from its top border.
#[derive(Clone, Copy, Debug, PartialEq, Eq)]
pub struct SimpleBorders {
    /// The border that closes the head, if one does.
    pub head: Option<usize>,
    /// The bottom border, if there is one.
    pub bottom: Option<usize>,
}

impl SimpleBorders {
    ghost use Rattle.std.specs.Prelude.{◌≡◌, ◌<◌, IfSome};
    ghost use Rattle.std.specs.Option.{option_or};
    ghost use Rattle.rst_markup_blocks.specs.TableRows.{lines_through};

    /// How many lines the table has, where the block has `all` from the top border on.
    pub fn size(self, all: usize) -> usize
        requires { IfSome (option_or self.bottom self.head) (λ k. k < all) }
        ensures { result ≡ lines_through all (option_or self.bottom self.head) }
    {
        match self.bottom.or(self.head) {
            Some(k) => k + 1,
            None => all,
        }
    }
}

/// The borders of the simple table at place `i`, in at most two looks more than its scan has lines, and in no less than one for
/// each line of the table below the first.
pub fn simple_borders(view: &View<'_>, i: usize, looks: &mut Looks) -> SimpleBorders
    requires inside { i < length (block_of view.now) }
    ensures head { result.head ≡ spec.head_border (drop i (block_of view.now)) }
    ensures bottom { result.bottom ≡ spec.simple_bottom (drop i (block_of view.now)) }
    ensures within { IfSome (option_or result.bottom result.head) (λ k. k < length (drop i (block_of view.now))) }
    ensures looked { Looked (spec.simple_size (drop i (block_of view.now)) - 1) (2 + spec.simple_scan (drop i (block_of view.now))) looks.old looks.new }
{
    let Some(first) = border_below(view, i, 0, looks) else {
        return SimpleBorders {
            head: None,
            bottom: None,
        };
    };
    prove!(i < view.len());
    let next = below_text(view, i, first + 1, looks);
    let closes = is_as_long(view, i, first, looks) & !is_blank(next);
    if !closes {
        return SimpleBorders {
            head: None,
            bottom: Some(first),
        };
    }
    SimpleBorders {
        head: Some(first),
        bottom: border_below(view, i, first, looks),
    }
}
