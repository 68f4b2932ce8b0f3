//! Lines of one punctuation character: transitions, titles with an overline, and what is neither (Markup
//! Specification, 'Sections', 'Transitions').
ghost use Rattle.std.specs.Prelude.{◌≡◌, ◌<◌, ◌∷◌, [], length, drop, Some};
ghost use Rattle.rst_text.specs.Block.{first_number};
ghost use Rattle.rst_text.specs.ViewBlock.{block_of};
ghost use Rattle.rst_tree.specs.declared.note.Level.TheVariants.{Info};
ghost use Rattle.rst_markup_blocks.specs.Sizes.{fixed_size};
ghost use Rattle.rst_markup_blocks.specs.declared.begun.Begun.TheVariants as marks;
ghost use Rattle.rst_block_state.specs.Constructs.{transition, overlined_title, misplaced_lines};
ghost use Rattle.rst_block_state.specs.machine.NextLine.{IsText, IsNextConstruct, IsWrongForm, IsMessageOn};
ghost use Rattle.rst_block_state.specs.Texts.{system_message};
ghost use Rattle.rst_block_body.specs.ReadSteps.{BeginsAt, IsReadStep};

use super::text::text_line;
use rst_block_nodes::{Style, message};
use rst_block_state::{
    OpenBlock, Pass, Result, Step, alone, heading_of, number_at, short_warning, source,
};
use rst_markup_blocks::{Adorned, adorned_at, below_text};
use rst_markup_lines::Adornment;
use rst_text::{View, indentation, skip};
use rst_tree::{Level, Node, Tag};

/// A line of one punctuation character.
pub fn adornment(
    view: &View<'_>,
    level: &mut OpenBlock,
    mark: Adornment,
    pass: &mut Pass,
) -> Result<Step>
    requires { BeginsAt (block_of view.now) level.old (marks.Adornment mark) }
    ensures { IsReadStep 29 (block_of view.now) level.old pass.old level.new pass.new result }
{
    let at = level.at;
    let next = below_text(view, at, 1, &mut pass.looks);
    match adorned_at(view, at, level.titles(), mark, next, &mut pass.looks) {
        Adorned::Text => text_line(view, level, Vec::new(pass.alloc), pass),
        Adorned::ShortOverline => short(view, level, SHORT_OVERLINE, pass),
        Adorned::ShortAdornment => short(view, level, SHORT_ADORNMENT, pass),
        Adorned::Transition => transition(view, level, pass),
        Adorned::Title { short } => overlined(view, level, mark, short, pass),
        form => wrong(view, level, wrong_form(form), pass),
    }
}

const SHORT_OVERLINE: &str =
    "Possible incomplete section title.\nTreating the overline as ordinary text because it's so short.";

const SHORT_ADORNMENT: &str =
    "Unexpected possible title overline or transition.\nTreating it as ordinary text because it's so short.";

/// The message on lines that are neither a title nor a transition: its level, its text, and the number of the lines.
#[derive(Clone, Copy)]
struct WrongForm {
    gravity: Level,
    text: &'static str,
    lines: usize,
}

/// The message on a form that is wrong.
fn wrong_form(form: Adorned) -> WrongForm
    requires { IsWrongForm form }
    ensures message { IsMessageOn form result.gravity result.text.now }
    ensures lines { fixed_size form ≡ Some result.lines }
{
    let (gravity, text, lines) = match form {
        Adorned::InvalidMarker => (
            Level::Error,
            "Invalid section title or transition marker.",
            2,
        ),
        Adorned::Incomplete => (Level::Severe, "Incomplete section title.", 2),
        Adorned::MissingUnderline { blank } => (
            Level::Severe,
            "Missing matching underline for section title overline.",
            if blank { 2 } else { 3 },
        ),
        Adorned::Mismatch => (Level::Severe, "Title overline & underline mismatch.", 3),
        _ => (Level::Severe, "Unexpected section title or transition.", 1),
    };
    WrongForm {
        gravity,
        text,
        lines,
    }
}

/// A transition.
fn transition(view: &View<'_>, level: &mut OpenBlock, pass: &mut Pass) -> Result<Step>
    requires inside { level.old.at < length (block_of view.now) }
    requires found { IsNextConstruct level.old (block_of view.now) transition 1 }
    ensures { IsReadStep 27 (block_of view.now) level.old pass.old level.new pass.new result }
{
    let at = level.at;
    level.close(view, pass)?;
    level.go_to(at + 1);
    level.push(Node::element(pass.alloc, Tag::Transition, number_at(view, at)))?;
    Ok(Step::Next)
}

/// A short line that is taken as text, after a message on that.
fn short(view: &View<'_>, level: &mut OpenBlock, text: &str, pass: &mut Pass) -> Result<Step>
    requires inside { level.old.at < length (block_of view.now) }
    requires text { IsText level.old (block_of view.now) (system_message Info (first_number (drop level.old.at (block_of view.now))) text.now ∷ []) }
    ensures { IsReadStep 27 (block_of view.now) level.old pass.old level.new pass.new result }
{
    let alloc = pass.alloc;
    let info = message(alloc, Level::Info, number_at(view, level.at), text, None)?;
    text_line(view, level, alone(alloc, info)?, pass)
}

/// The message on some lines that are neither a title nor a transition.
fn wrong(view: &View<'_>, level: &mut OpenBlock, form: WrongForm, pass: &mut Pass) -> Result<Step>
    requires inside { level.old.at < length (block_of view.now) }
    requires found { IsNextConstruct level.old (block_of view.now) (misplaced_lines form.gravity form.text.now) form.lines }
    ensures { IsReadStep 27 (block_of view.now) level.old pass.old level.new pass.new result }
{
    let alloc = pass.alloc;
    let at = level.at;
    let end = at + form.lines;
    level.close(view, pass)?;
    let block = source(alloc, view, at, end, &mut pass.looks)?;
    let line = number_at(view, at);
    let node = message(alloc, form.gravity, line, form.text, Some(block.as_str()))?;
    level.go_to(end);
    level.push(node)?;
    Ok(Step::Next)
}

/// A title between its overline and its underline.
fn overlined(
    view: &View<'_>,
    level: &mut OpenBlock,
    mark: Adornment,
    short: bool,
    pass: &mut Pass,
) -> Result<Step>
    requires inside { level.old.at < length (block_of view.now) }
    requires found { IsNextConstruct level.old (block_of view.now) (overlined_title mark short) 3 }
    requires titles { level.old.depth ≡ 0 }
    ensures { IsReadStep 27 (block_of view.now) level.old pass.old level.new pass.new result }
{
    let at = level.at;
    let end = at + 3;
    level.close(view, pass)?;
    let lines = source(pass.alloc, view, at, end, &mut pass.looks)?;
    let line = number_at(view, at);
    let text = "Title overline too short.";
    let warning = short_warning(pass.alloc, short, line, text, lines.as_str())?;
    let text = below_text(view, at, 1, &mut pass.looks);
    let style = Style {
        character: mark.character,
        overlined: true,
    };
    let text = skip(text, indentation(text));
    let line = number_at(view, at + 1);
    let parts = view.parts(at);
    let heading = heading_of(parts, style, text, line, warning, lines, pass)?;
    level.go_to(end);
    level.push_heading(pass.alloc, heading)?;
    Ok(Step::Next)
}
