//! The rows of the table of constructs.

use super::adornment_line::adornment_end;
use super::construct::Construct;
use super::ends::{hanging_end, indented_end, item_end, text_end};
use super::extents::after_dots;
use super::kind::Kind;
use super::lines::{LineTest, below_text, lines_end};
use super::row::{item_enumerator, item_option};
use super::table_rows::{grid_bottom, simple_borders};
use rst_markup_lines::{
    adornment_of, begins_with, bullet, doctest, dots, enumerator_of, field_of, is_blank,
    is_grid_border, is_simple_border, line_bar, underscores,
};
use rst_text::{Looks, View};

impl Construct for Kind {
    ghost use Rattle.rst_markup_blocks.specs.Ends.{row_looks, row_reach, row_size};
    ghost use Rattle.rst_markup_blocks.specs.Kinds.{row_holds};

    ghost holds = { row_holds };

    ghost size = { row_size };

    ghost reached = { row_reach };

    ghost first_looks = { row_looks };

    fn starts(&self, view: &View<'_>, i: usize, _titles: bool, looks: &mut Looks) -> bool {
        let text = view.line(i, looks);
        match *self {
            Kind::Blank => is_blank(text),
            Kind::Quote => begins_with(' ', text),
            Kind::Bullet => bullet(text).is_some(),
            Kind::Enumerator => item_enumerator(text, below_text(view, i, 1, looks)).is_some(),
            Kind::Field => field_of(view.parts(i), text).is_some(),
            Kind::OptionItem => {
                let next = below_text(view, i, 1, looks);
                let after = below_text(view, i, 2, looks);
                item_option(text, next, after).is_some()
            }
            Kind::Doctest => doctest(text).is_some(),
            Kind::Line => line_bar(text).is_some(),
            Kind::Grid => is_grid_border(text),
            Kind::Simple => is_simple_border(text),
            Kind::Explicit => dots(text).is_some(),
            Kind::Anonymous => underscores(text).is_some(),
            Kind::Adornment => adornment_of(text).is_some(),
            Kind::Text => true,
        }
    }

    #[tactic(auto, unfolding(crate::specs::Sizes::doctest_size))]
    fn end(&self, view: &View<'_>, i: usize, titles: bool, looks: &mut Looks) -> usize {
        prove!(i < view.len());
        match *self {
            Kind::Blank => i + 1,
            Kind::Quote => view.block_end(i, None, looks).end,
            Kind::Bullet => match bullet(view.line(i, looks)) {
                Some(marker) => item_end(view, i, marker, looks),
                None => i + 1,
            },
            Kind::Enumerator => match enumerator_of(view.line(i, looks)) {
                Some(enumerator) => item_end(view, i, enumerator.marker, looks),
                None => i + 1,
            },
            Kind::Field | Kind::OptionItem => hanging_end(view, i, looks),
            Kind::Doctest => lines_end(view, i, LineTest::Filled, looks),
            Kind::Line | Kind::Anonymous => indented_end(view, i, looks),
            Kind::Grid => {
                let end = lines_end(view, i, LineTest::Drawn, looks);
                match grid_bottom(view, i, end - i, looks) {
                    Some(k) => i + k + 1,
                    None => end,
                }
            }
            Kind::Simple => i + simple_borders(view, i, looks).size(view.len() - i),
            Kind::Explicit => {
                let text = view.line(i, looks);
                let Some(marker) = dots(text) else {
                    unreachable!()
                };
                after_dots(view, i, text, marker, looks).end(i)
            }
            Kind::Adornment => adornment_end(view, i, titles, looks),
            Kind::Text => {
                let text = view.line(i, looks);
                let next = below_text(view, i, 1, looks);
                text_end(view, i, text, next, looks)
            }
        }
    }
}
