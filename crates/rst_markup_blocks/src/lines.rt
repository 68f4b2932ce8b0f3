//! Lines of a view that are looked at one after the other.
ghost use Rattle.std.specs.Prelude.{◌≡◌, ◌+◌, ◌-◌, ◌<◌, ◌≤◌, suc, length, drop, chars};
ghost use Rattle.rst_markup_blocks.specs.Prelude.{first_text, extent, Looked, reach, through_text, block_of};
ghost use Rattle.rst_markup_blocks.specs.Lines.{passes, lines_while};

use super::table_line::is_drawn;
use rst_markup_lines::{begins_with, is_blank, is_loose};
use rst_text::{Looks, View};

/// A test of a line.
#[derive(Clone, Copy, Debug, PartialEq, Eq)]
pub enum LineTest {
    /// It is empty.
    Blank,
    /// It isn't empty.
    Filled,
    /// It begins with a space.
    Indented,
    /// It is neither empty nor begins with a space.
    Plain,
    /// It begins with this character.
    Begins(char),
    /// It begins with `+` or `|`, as each line of a grid table does.
    Drawn,
}

/// Whether a line passes a test.
fn passes(test: LineTest, text: &str) -> bool
    ensures { result ≡ passes test (chars text.now) }
{
    match test {
        LineTest::Blank => is_blank(text),
        LineTest::Filled => !is_blank(text),
        LineTest::Indented => begins_with(' ', text),
        LineTest::Plain => !is_loose(text),
        LineTest::Begins(c) => begins_with(c, text),
        LineTest::Drawn => is_drawn(text),
    }
}

/// The text of the line at place `i`, at the price of one look; an empty text where there is no such line.
pub fn text_at<'a>(view: &View<'a>, i: usize, looks: &mut Looks) -> &'a str
    ensures text { chars result.now ≡ first_text (drop i (block_of view.now)) }
    ensures looked { Looked 0 1 looks.old looks.new }
    ensures looks { looks.new ≤ looks.old + through_text (drop i (block_of view.now)) }
{
    if i < view.len() {
        view.line(i, looks)
    } else {
        ""
    }
}

/// The text of the line `n` lines below place `i`, at the price of one look; an empty text where there is no such line.
pub fn below_text<'a>(view: &View<'a>, i: usize, n: usize, looks: &mut Looks) -> &'a str
    requires inside { i < length (block_of view.now) }
    ensures text { chars result.now ≡ first_text (drop n (drop i (block_of view.now))) }
    ensures looked { Looked 0 1 looks.old looks.new }
{
    if n < view.len() - i {
        view.line(i + n, looks)
    } else {
        ""
    }
}

/// The place after the lines from place `from` on that pass a test. It looks once at each of them and at the line that
/// stops it.
// Each caller knows the test: in its place, the loop asks for nothing else.
#[inline(always)]
pub fn lines_end(view: &View<'_>, from: usize, test: LineTest, looks: &mut Looks) -> usize
    requires inside { from ≤ length (block_of view.now) }
    ensures end { result ≡ from + lines_while test (drop from (block_of view.now)) }
    ensures within { result ≤ length (block_of view.now) }
    ensures looked { Looked (lines_while test (drop from (block_of view.now))) (lines_while test (drop from (block_of view.now)) + 1) looks.old looks.new }
    ensures looks { looks.new ≤ looks.old + reach (lines_while test (drop from (block_of view.now))) (drop from (block_of view.now)) }
{
    if let LineTest::Blank = test {
        return view.blank_end(from, looks);
    }
    let mut end = from;
    for i in from..view.len() {
        if !passes(test, view.line(i, looks)) {
            break;
        }
        end = i + 1;
    }
    end
}

/// The place after the line at place `i` and those below it that are blank or indented by at least `least`, blank ones
/// at their end left off.
pub(crate) fn below_end(view: &View<'_>, i: usize, least: usize, looks: &mut Looks) -> usize
    requires inside { i < length (block_of view.now) }
    ensures end { result ≡ i + suc (extent least (drop 1 (drop i (block_of view.now)))) }
    ensures looked { Looked (extent least (drop 1 (drop i (block_of view.now)))) (reach (suc (extent least (drop 1 (drop i (block_of view.now))))) (drop i (block_of view.now)) - 1) looks.old looks.new }
{
    prove!(i < view.len());
    view.block_end(i + 1, Some(least), looks).end
}
