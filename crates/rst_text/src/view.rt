//! A part of a text's lines, cut on the left.
ghost use Rattle.std.specs.Prelude.{◌≡◌, ◌+◌, ◌-◌, ◌^◌, ◌<◌, ◌≤◌, length, drop, take, ◌==◌, if◌then◌else◌, encode_utf8_all, IsTrue, unwrap_or};
ghost use Rattle.std.specs.Str.{chars};
ghost use Rattle.rst_text.specs.Lines.{are_lines};
ghost use Rattle.rst_text.specs.MayCut.{may_cut_at, is_indented, are_texts};

use super::lines::Lines;
use super::looks::Looks;
use super::text::{indentation, skip, tail};
use rst_settings::Parts;

/// What a line that isn't there has.
static NO_PARTS: Parts = Parts::NONE;

/// Some neighbouring lines, the first without some characters at its front and the others without some spaces at
/// theirs. It borrows the lines and copies nothing. Contracts see it by `block_of`, as a block.
#[derive(Clone, Copy)]
pub struct View<'a> {
    lines: &'a Lines,
    from: usize,
    to: usize,
    // Cuts are kept in bytes, so that a look costs no walk over the characters that are cut.
    first: usize,
    rest: usize,
    ghost ordered: { from ≤ to },
    ghost fits: { to ≤ length lines.now },
    ghost few: { length lines.now < 2 ^ 63 },
    ghost may_cut: { IsTrue (may_cut_at first rest (take (to - from) (drop from lines.now))) },
    ghost of_lines: { IsTrue (are_lines lines.now) },
    ghost of_texts: { IsTrue (are_texts lines.now) },
}

/// Where a view is in its text, without the text: the lines at which it begins and ends, and its cuts.
#[derive(Clone, Copy, Debug, PartialEq, Eq)]
pub struct Placement {
    from: usize,
    to: usize,
    first: usize,
    rest: usize,
}

/// Lines that are blank or indented: the place after the last of them that isn't blank, the least indentation of
/// those that aren't blank (in spaces, 0 if there is none), and whether a blank line or the end of the view follows.
#[derive(Debug, Clone, Copy, PartialEq, Eq)]
pub struct Extent {
    pub end: usize,
    pub indent: usize,
    pub blank_finish: bool,
}

impl<'a> View<'a> {
    ghost use Rattle.rst_text.specs.Block.{cut, first_text, first_number, first_parts};
    ghost use Rattle.rst_text.specs.ViewBlock.{block_of, source_of, IsPlacement, placement_block};
    ghost use Rattle.rst_text.specs.Extent.{extent_of};
    ghost use Rattle.rst_text.specs.Kept.{IsEmptyRun};
    ghost use Rattle.rst_text.specs.Looked.{capped};
    ghost use Rattle.rst_text.specs.Reach.{blank_len, looked, through_text};

    /// All the lines, without a cut.
    pub fn whole(lines: &'a Lines) -> View<'a>
        ensures block { block_of result ≡ lines.now }
        ensures lines { IsTrue (are_lines lines.now) }
        ensures texts { IsTrue (are_texts lines.now) }
    {
        View {
            lines,
            from: 0,
            to: lines.count,
            first: 0,
            rest: 0,
        }
    }

    /// Where the view is in its text.
    pub fn placement(&self) -> Placement
        ensures inside { IsPlacement (source_of self.now) result }
        ensures block { placement_block (source_of self.now) result ≡ block_of self.now }
    {
        Placement {
            from: self.from,
            to: self.to,
            first: self.first,
            rest: self.rest,
        }
    }

    /// The view of the same text at the place where a view of it was.
    pub fn at(&self, placement: Placement) -> View<'a>
        requires { IsPlacement (source_of self.now) placement }
        ensures block { block_of result ≡ placement_block (source_of self.now) placement }
        ensures text { source_of result ≡ source_of self.now }
    {
        View {
            lines: self.lines,
            from: placement.from,
            to: placement.to,
            first: placement.first,
            rest: placement.rest,
        }
    }

    /// How many lines there are.
    pub fn len(&self) -> usize
        ensures { result ≡ length (block_of self.now) }
    {
        self.to - self.from
    }

    /// The text of the line at place `i`, without a cut.
    fn uncut(&self, i: usize) -> &'a str
        requires { i < length (block_of self.now) }
        ensures { result.now ≡ encode_utf8_all (first_text (drop (self.now.from + i) self.now.lines.now)) }
    {
        self.lines.line(self.from + i)
    }

    /// How many bytes the line at place `i` lacks.
    fn cut_at(&self, i: usize) -> usize
        ensures { result ≡ (if i == 0 then self.now.first else self.now.rest) }
    {
        if i == 0 { self.first } else { self.rest }
    }

    /// The text of a line, not charged.
    fn text(&self, i: usize) -> &'a str
        requires { i < length (block_of self.now) }
        ensures { chars result.now ≡ first_text (drop i (block_of self.now)) }
    {
        tail(self.uncut(i), self.cut_at(i))
    }

    /// The number that the line at place `i`, counted from 0, has in its document, from 1 on.
    pub fn number(&self, i: usize) -> usize
        requires { i < length (block_of self.now) }
        ensures value { result ≡ first_number (drop i (block_of self.now)) }
        ensures from_first { result ≡ first_number (block_of self.now) + i }
    {
        self.lines.number(self.from + i)
    }

    /// The parts of the wider profile that hold in the line at place `i`, counted from 0; none where there is no line.
    pub fn parts(&self, i: usize) -> &'a Parts
        ensures value { result.now ≡ first_parts (drop i (block_of self.now)) }
        ensures as_first { i < length (block_of self.now) → result.now ≡ first_parts (block_of self.now) }
    {
        if self.len() <= i {
            return &NO_PARTS;
        }
        self.lines.parts()
    }

    /// The text of the line at place `i`, counted from 0, at the price of one look.
    pub fn line(&self, i: usize, looks: &mut Looks) -> &'a str
        requires inside { i < length (block_of self.now) }
        ensures text { chars result.now ≡ first_text (drop i (block_of self.now)) }
        ensures looks { looks.new ≡ capped (looks.old + 1) }
    {
        looks.look();
        self.text(i)
    }

    /// The lines at places `from` to `to - 1`, the first without `first_cut` characters and the others without
    /// `rest_cut` spaces, of which a blank line may have fewer. A cut may be longer than its line, and leaves nothing.
    pub fn part(&self, from: usize, to: usize, first_cut: usize, rest_cut: usize) -> View<'a>
        requires in_order { from ≤ to }
        requires in_range { to ≤ length (block_of self.now) }
        requires spaces { IsTrue (is_indented rest_cut (take (to - (from + 1)) (drop (from + 1) (block_of self.now)))) }
        ensures block { block_of result ≡ cut (block_of self.now) from to first_cut rest_cut }
        ensures text { source_of result ≡ source_of self.now }
    {
        let mut first = 0;
        if from < to {
            let text = self.uncut(from);
            let left = skip(tail(text, self.cut_at(from)), first_cut);
            first = text.len() - left.len();
        }
        View {
            lines: self.lines,
            from: self.from + from,
            to: self.from + to,
            first,
            rest: self.rest.saturating_add(rest_cut),
        }
    }

    /// The place after some lines from place `i` on that are empty without a cut, and so with any.
    fn empty_end(&self, i: usize) -> usize
        requires { i ≤ length (block_of self.now) }
        ensures { IsEmptyRun (block_of self.now) i (length (block_of self.now)) result }
    {
        self.lines.empty_end(self.from + i, self.to) - self.from
    }

    /// The place after the blank lines from place `from` on. It looks once at each of them and at the line that stops it.
    pub fn blank_end(&self, from: usize, looks: &mut Looks) -> usize
        requires inside { from ≤ length (block_of self.now) }
        ensures end { result ≡ from + blank_len (drop from (block_of self.now)) }
        ensures looks { looks.new ≡ capped (looks.old + through_text (drop from (block_of self.now))) }
    {
        let len = self.len();
        let mut i = from;
        while i < len {
            if !self.text(i).is_empty() {
                looks.look_at(i + 1 - from);
                return i;
            }
            i = self.empty_end(i + 1);
        }
        looks.look_at(i - from);
        i
    }

    /// The lines from place `from` on that are blank or indented, by at least `least` spaces if that is given, blank
    /// ones at their end left off. It looks once at each line from `from` through the one that stops it.
    pub fn block_end(&self, from: usize, least: Option<usize>, looks: &mut Looks) -> Extent
        requires inside { from ≤ length (block_of self.now) }
        ensures extent { result ≡ extent_of from (unwrap_or least 1) (drop from (block_of self.now)) }
        ensures looks { looks.new ≤ looks.old + looked (unwrap_or least 1) (drop from (block_of self.now)) }
        ensures low { capped (looks.old + looked (unwrap_or least 1) (drop from (block_of self.now))) ≤ looks.new }
    {
        let enough = least.unwrap_or(1);
        let mut end = from;
        let mut lowest: Option<usize> = None;
        let len = self.len();
        let mut i = from;
        while i < len {
            let text = self.text(i);
            if text.is_empty() {
                // Each level of a nest asks for the same lines, so a run of blank ones is charged and left at once.
                let next = self.empty_end(i + 1);
                looks.look_at(next - i);
                i = next;
                continue;
            }
            looks.look();
            let indent = indentation(text);
            if indent < enough {
                return Extent {
                    end,
                    indent: lowest.unwrap_or(0),
                    blank_finish: end < i,
                };
            }
            lowest = Some(lowest.unwrap_or(indent).min(indent));
            i += 1;
            end = i;
        }
        Extent {
            end,
            indent: lowest.unwrap_or(0),
            blank_finish: true,
        }
    }
}
