//! What is done with the nodes of a block inside once it is read.
ghost use Rattle.std.specs.Prelude.{◌≡◌, ◌+◌, ◌-◌, [], ◌∷◌, ◌++◌, IfOk, option_map, box_value, ℕ, Box, Option, None, Some};
ghost use Rattle.rst_text.specs.ViewBlock.{block_of};
ghost use Rattle.rst_block_nodes.specs.Elements.{element_of};
ghost use Rattle.rst_block_state.specs.machine.Steps as spec;
ghost use Rattle.rst_block_state.specs.machine.Meanings.{after_quote, quote_by, resumed};
ghost use Rattle.rst_block_state.specs.machine.OpenBlocks.{Gives, HasMore};
ghost use Rattle.rst_block_state.specs.looks.Ledger.{least_after, most_after};
ghost use Rattle.rst_block.specs.Reading.{Continues};
ghost use Rattle.std.specs.declared.alloc.Global.{Global};
ghost use Rattle.rst_block_nodes.specs.declared.texted.Texted.{Texted};
ghost use Rattle.rst_block_state.specs.declared.waits.Waits.TheVariants.{Quote};

use rst_block_body::quote::quote_part;
use rst_block_markup::{
    finished_classes, finished_figure, finished_quotes, finished_replacement, finished_table,
};
use rst_block_nodes::{Texted, completed};
use rst_block_state::{OpenBlock, Pass, Result, Step, Waits};
use rst_markup_blocks::Part;
use rst_text::View;
use rst_tree::{Attrs, Node, Tag};
use rst_tree_index::{Marked, MarkedNodes};
use std::alloc::{AllocError, Global};

/// Goes on with a block, the block inside having these nodes.
pub(crate) fn resume(
    view: &View<'_>,
    level: &mut OpenBlock,
    waits: Waits,
    nodes: MarkedNodes,
    pass: &mut Pass,
) -> Result<Step>
    requires waits { spec.IsWaiting (block_of view.now) level.old.at waits }
    ensures step { IfOk result (λ s. spec.IsResumed (block_of view.now) level.old.at level.new.at s) }
    ensures goes { let B = block_of view.now in
        let most = most_after level.old B waits None in
        let least = least_after level.old B waits None in
        Continues B level.old pass.old (resumed level.old B waits nodes) most least level.new pass.new result }
{
    match waits {
        Waits::ListItem { line } => {
            let item = nodes.into_element(Tag::ListItem, Attrs::new(pass.alloc), line)?;
            level.push_item(item)?;
        }
        Waits::ListedBody {
            line,
            item,
            body,
            heads,
            notes,
        } => level.push_item(listed_item(pass.alloc, line, item, body, heads, notes, nodes)?)?,
        Waits::Quote {
            line,
            attribution,
            rest,
            end,
        } => {
            put_quote(pass.alloc, level, line, nodes, attribution)?;
            return after_quote(view, level, rest, end, pass);
        }
        Waits::Element(element) => level.push_marked(completed(pass.alloc, element, nodes)?)?,
        Waits::Quotes(class) => {
            level.append_marked(finished_quotes(pass.alloc, class, nodes)?)?;
        }
        Waits::Classes(element) => {
            level.append_marked(finished_classes(pass.alloc, &element, nodes)?)?;
        }
        Waits::Figure { figure, start, end } => {
            let looks = &mut pass.looks;
            let made = finished_figure(pass.alloc, view, figure, start, end, nodes, looks)?;
            level.append_marked(made)?;
            return Ok(Step::Next);
        }
        Waits::Table(boxed) => {
            let looks = &mut pass.looks;
            let table = Box::into_inner(boxed);
            let made = finished_table(pass.alloc, view, table, nodes, looks)?;
            level.append_marked(made)?;
            return Ok(Step::Next);
        }
        Waits::Replacement(definition) => level.push(finished_replacement(
            pass.alloc,
            Box::into_inner(definition),
            nodes,
        )?)?,
    }
    Ok(Step::Next)
}

/// An item of a list: its heads, and its body, in which messages come before the nodes of its block.
fn listed_item(
    alloc: Global,
    line: usize,
    item: Tag,
    body: Tag,
    heads: Vec<Node>,
    notes: Vec<Node>,
    nodes: MarkedNodes,
) -> Result<Marked, AllocError>
    ensures { IfOk result (λ node. node
        ≡ element_of item [] (heads.items ++ element_of body [] (notes.items ++ nodes) line ∷ []) line) }
{
    let mut content = MarkedNodes::of(alloc, notes)?;
    content.append(nodes)?;
    let mut parts = MarkedNodes::of(alloc, heads)?;
    parts.push(content.into_element(body, Attrs::new(alloc), line)?)?;
    parts.into_element(item, Attrs::new(alloc), line)
}

/// Puts a block quote after the last node, with its attribution and the messages of that.
fn put_quote(
    alloc: Global,
    level: &mut OpenBlock,
    line: usize,
    mut nodes: MarkedNodes,
    attribution: Option<Box<Texted>>,
) -> Result<()>
    ensures at { level.new.at ≡ level.old.at }
    ensures more { Gives (λ _. HasMore level.old level.new (quote_by line (option_map box_value attribution) nodes)) result }
{
    let attrs = Attrs::new(alloc);
    match attribution {
        None => level.push_marked(nodes.into_element(Tag::BlockQuote, attrs, line)?),
        Some(attribution) => {
            let Texted { element, notes } = Box::into_inner(attribution);
            nodes.push_new(element)?;
            level.push_marked(nodes.into_element(Tag::BlockQuote, attrs, line)?)?;
            level.append(notes)
        }
    }
}

/// Goes on after a block quote that ended: with the rest of its lines, which are another, or after them all.
fn after_quote(
    view: &View<'_>,
    level: &mut OpenBlock,
    rest: Option<Part>,
    end: usize,
    pass: &mut Pass,
) -> Result<Step>
    requires rest { spec.IsRest (block_of view.now) level.old.at rest }
    ensures step { IfOk result (λ s. spec.IsResumed (block_of view.now) level.old.at level.new.at s) }
    ensures goes { (line : ℕ) (made : Option (Box Texted Global))
        → let B = block_of view.now in
        let most = most_after level.old B (Quote line made rest end) None in
        let least = least_after level.old B (Quote line made rest end) None in
        Continues B level.old pass.old (after_quote level.old B [] rest end) most least level.new pass.new result }
{
    match rest {
        Some(rest) => quote_part(view, level, rest, pass),
        None => {
            let text = "Block quote ends without a blank line; unexpected unindent.";
            level.warn(view, end, text, pass)?;
            Ok(Step::Next)
        }
    }
}
