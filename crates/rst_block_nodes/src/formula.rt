//! Formulas.
ghost use Rattle.std.specs.Prelude.{◌≡◌, ℕ, List, ◌∷◌, ◌++◌, IfOk};
ghost use Rattle.std.specs.Str.{chars};
ghost use Rattle.rst_markup_directives.specs.Options.{choices_in};
ghost use Rattle.rst_block_nodes.specs.Formulas as spec;

use super::nodes::{element_of, preserving, text_nodes};
use super::settings::{Holder, set_options};
use rst_markup_directives::Setting;
use rst_tree::{Node, Result, Tag};
use std::alloc::Global;

/// The formulas of a text: its parts between pairs of line feeds, without the empty ones (Docutils, Directives, 'Math'). The
/// first has the name that the options give.
///
/// The only refusal is [`AllocError`].
pub fn formulas(
    alloc: Global,
    element: Tag,
    options: &[Setting],
    text: &str,
    line: usize,
) -> Result<Vec<Node>>
    ensures { IfOk result (λ nodes. nodes.items ≡ spec.formulas element (choices_in options.now) line (chars text.now)) }
{
    let mut nodes = Vec::new(alloc);
    let mut rest = text;
    while let Some((part, after)) = rest.split_once("\n\n") {
        add_formula(alloc, &mut nodes, element, options, part, line)?;
        rest = after;
    }
    add_formula(alloc, &mut nodes, element, options, rest, line)?;
    Ok(nodes)
}

/// What the options give attributes to after some formulas.
fn holder_after(formulas: &[Node]) -> Holder
    ensures { result ≡ spec.holder_after formulas.now }
{
    formulas.first().map_or(Holder::Body, |_| Holder::Further)
}

/// Puts the formula of a text after others, unless the text is empty.
fn add_formula(
    alloc: Global,
    nodes: &mut Vec<Node>,
    element: Tag,
    options: &[Setting],
    text: &str,
    line: usize,
) -> Result<()>
    ensures { IfOk result (λ _. (parts : List (List ℕ)) → nodes.new.items ++ spec.formulas_from (spec.holder_after nodes.new.items) element (choices_in options.now) line parts
        ≡ nodes.old.items ++ spec.formulas_from (spec.holder_after nodes.old.items) element (choices_in options.now) line (chars text.now ∷ parts)) }
{
    if text.is_empty() {
        return Ok(());
    }
    let mut attrs = preserving(alloc)?;
    set_options(alloc, &mut attrs, holder_after(nodes), options)?;
    nodes.push(element_of(element, attrs, text_nodes(alloc, text)?, line))?;
    Ok(())
}
