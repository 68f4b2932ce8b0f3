//! Lines of text: titles, items of definition lists and paragraphs.
ghost use Rattle.std.specs.Prelude.{◌≡◌, ◌≢◌, ◌+◌, ◌<◌, ◌==◌, length, drop, IfOk};
ghost use Rattle.rst_text.specs.Block.{first_text};
ghost use Rattle.rst_text.specs.Looked.{Looked};
ghost use Rattle.rst_text.specs.ViewBlock.{block_of};
ghost use Rattle.rst_markup_blocks.specs.Conditions.{next_text};
ghost use Rattle.rst_markup_blocks.specs.Forms.{text_form};
ghost use Rattle.rst_markup_blocks.specs.declared.form.TextForm.TheVariants.{Definition};
ghost use Rattle.rst_block_state.specs.machine.NextLine.{IsText};
ghost use Rattle.rst_block_state.specs.machine.OpenBlocks.{Gives, ReadsItems, HasMore};
ghost use Rattle.rst_block_state.specs.Texts.{span_source};
ghost use Rattle.rst_block_state.specs.Titles as titles;
ghost use Rattle.rst_block_body.specs.ReadSteps.{IsReadStep, then_next};
ghost use Rattle.rst_block_body.specs.TextSteps.{form_notes};

use super::definition::definition;
use super::paragraph::paragraph;
use rst_block_nodes::{Style, message};
use rst_block_state::{
    OpenBlock, Pass, Result, Step, heading_of, number_at, short_warning, source,
};
use rst_markup_blocks::{TextForm, below_text, text_form};
use rst_markup_lines::first_char;
use rst_text::{Looks, View};
use rst_tree::{Level, Node};
use std::alloc::Global;

/// A line of text, after messages that explain why it is one.
pub fn text_line(
    view: &View<'_>,
    level: &mut OpenBlock,
    infos: Vec<Node>,
    pass: &mut Pass,
) -> Result<Step>
    requires inside { level.old.at < length (block_of view.now) }
    requires text { IsText level.old (block_of view.now) infos.items }
    ensures { IsReadStep 27 (block_of view.now) level.old pass.old level.new pass.new result }
{
    match text_form_at(view, level.at, &mut pass.looks) {
        TextForm::Definition => definition(view, level, infos, pass),
        form => {
            title_or_paragraph(view, level, infos, form, pass)?;
            Ok(Step::Next)
        }
    }
}

/// The form of the text at line `at`, by that line and the next one.
#[inline(always)]
pub fn text_form_at(view: &View<'_>, at: usize, looks: &mut Looks) -> TextForm
    requires { at < length (block_of view.now) }
    ensures form { let X = drop at (block_of view.now) in result ≡ text_form (first_text X) (next_text X) }
    ensures looked { Looked 1 2 looks.old looks.new }
{
    let text = view.line(at, looks);
    let next = below_text(view, at, 1, looks);
    text_form(text, next)
}

/// The title or the paragraph that a text of this form is, after messages that explain why it is one. The block goes on after it.
// Most lines are read here: what other constructs need has no place in its frame and in its result.
#[inline(never)]
pub fn title_or_paragraph(
    view: &View<'_>,
    level: &mut OpenBlock,
    infos: Vec<Node>,
    form: TextForm,
    pass: &mut Pass,
) -> Result<()>
    requires inside { level.old.at < length (block_of view.now) }
    requires text { IsText level.old (block_of view.now) infos.items }
    requires form { let X = drop level.old.at (block_of view.now) in text_form (first_text X) (next_text X) ≡ form }
    requires flat { form ≢ Definition }
    ensures { IsReadStep 25 (block_of view.now) level.old pass.old level.new pass.new (then_next result) }
{
    level.close(view, pass)?;
    level.append(infos)?;
    match form {
        TextForm::Title { short } => Ok(underlined(view, level, short, pass)?),
        form => {
            put_short_underline(pass.alloc, view, level, form)?;
            Ok(paragraph(view, level, pass)?)
        }
    }
}

/// Puts the message on a possible underline after the last node, if a text of this form has one and titles are allowed.
fn put_short_underline(
    alloc: Global,
    view: &View<'_>,
    level: &mut OpenBlock,
    form: TextForm,
) -> Result<()>
    requires inside { level.old.at < length (block_of view.now) }
    ensures more { let notes = form_notes form (level.old.depth == 0) (drop level.old.at (block_of view.now)) in
        Gives (λ _. HasMore level.old level.new notes) result }
{
    if !matches!(form, TextForm::ShortUnderline) || !level.titles() {
        return Ok(());
    }
    let text =
        "Possible title underline, too short for the title.\nTreating it as ordinary text because it's so short.";
    let line = number_at(view, level.at + 1);
    let info = message(alloc, Level::Info, line, text, None)?;
    level.push(info)
}

/// A title over its underline, or the messages on one where none is allowed.
fn underlined(view: &View<'_>, level: &mut OpenBlock, short: bool, pass: &mut Pass) -> Result<()>
    requires inside { level.old.at + 1 < length (block_of view.now) }
    ensures read { let B = block_of view.now in
        let lines = span_source B (record { start = level.old.at; stop = level.old.at + 2 }) in
        let item = titles.underline_item (level.old.depth == 0) short lines (drop level.old.at B) pass.old.numbers in
        Gives (λ _. ReadsItems item level.old level.new (level.old.at + 2) pass.new.numbers) result }
    ensures looked { IfOk result (λ _. Looked 2 4 pass.old.looks pass.new.looks) }
{
    let at = level.at;
    let lines = source(pass.alloc, view, at, at + 2, &mut pass.looks)?;
    let under = number_at(view, at + 1);
    let text = "Title underline too short.";
    let warning = short_warning(pass.alloc, short, under, text, lines.as_str())?;
    if level.titles() {
        let style = Style {
            character: first_char(below_text(view, at, 1, &mut pass.looks)).unwrap_or(' '),
            overlined: false,
        };
        let text = view.line(at, &mut pass.looks);
        let parts = view.parts(at);
        let line = number_at(view, at);
        let heading = heading_of(parts, style, text, line, warning, lines, pass)?;
        level.go_to(at + 2);
        return level.push_heading(pass.alloc, heading);
    }
    if let Some(warning) = warning {
        level.push(warning)?;
    }
    let text = "Unexpected section title.";
    let literal_block = Some(lines.as_str());
    let severe = message(pass.alloc, Level::Severe, under, text, literal_block)?;
    level.go_to(at + 2);
    level.push(severe)
}
