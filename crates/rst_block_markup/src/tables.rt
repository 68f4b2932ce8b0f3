//! Tables that directives make (Directives, 'Table', 'List Table').
ghost use Rattle.std.specs.Prelude.{◌≡◌, ◌+◌, ◌-◌, ◌≤◌, drop, IfOk};
ghost use Rattle.std.specs.Result.{result_map_both};
ghost use Rattle.rst_text.specs.Block.{first_number};
ghost use Rattle.rst_text.specs.Looked.{capped};
ghost use Rattle.rst_text.specs.ViewBlock.{block_of};
ghost use Rattle.rst_block_nodes.specs.TableRequests.{asked_in};
ghost use Rattle.rst_block_state.specs.Directives.{table_directive};
ghost use Rattle.rst_block_state.specs.TableDirectives as spec;
ghost use Rattle.rst_block_state.specs.Texts.{span_source};

use rst_block_nodes::{
    TableDirective, TableFault, TableOptions, list_table, message, table_fault_text, titled_table,
};
use rst_block_state::{OpenTable, number_at, source};
use rst_markup_directives::ContentKind;
use rst_text::{Looks, View};
use rst_tree::{Level, Node};
use rst_tree_index::{Marked, MarkedNodes};
use std::alloc::{AllocError, Global};

/// The directive that makes a table of such a content, if one does.
pub(crate) fn table_directive(content: ContentKind) -> Option<TableDirective>
    ensures { result ≡ table_directive content }
{
    match content {
        ContentKind::OneTable => Some(TableDirective::Table),
        ContentKind::Rows => Some(TableDirective::ListTable),
        _ => None,
    }
}

/// The table that a directive in a line makes of the nodes of its content, and the messages on its title; or what is wrong with the content.
fn table_by(
    alloc: Global,
    directive: TableDirective,
    line: usize,
    start: Node,
    asked: &TableOptions,
    nodes: MarkedNodes,
) -> Result<Result<Vec<Node>, TableFault>, AllocError>
    ensures { IfOk result (λ made. result_map_both (λ nodes. nodes.items) (λ fault. fault) made ≡ spec.table_by directive line start (asked_in asked.now) nodes) }
{
    match directive {
        TableDirective::Table => titled_table(alloc, start, asked, nodes),
        TableDirective::ListTable => list_table(alloc, start, asked, line, nodes),
    }
}

/// A table of the nodes of its content, and the messages on its title; or else the ERROR alone. The lines of the table are looked at only
/// if the ERROR shows them. What was marked in the content is marked once more in the table.
pub fn finished_table(
    alloc: Global,
    view: &View<'_>,
    open: OpenTable,
    nodes: MarkedNodes,
    looks: &mut Looks,
) -> Result<MarkedNodes, AllocError>
    ensures table { let B = block_of view.now in
        let lines = span_source B (record { start = open.start; stop = open.end }) in
        let line = first_number (drop open.start B) in
        IfOk result (λ made. made ≡ spec.directive_table_nodes open.directive line lines open.table (asked_in open.asked) nodes) }
    ensures looks { looks.new ≤ looks.old + (open.end - open.start) }
    ensures low { IfOk result (λ _. capped looks.old ≤ looks.new) }
{
    let OpenTable {
        directive,
        table,
        asked,
        start,
        end,
    } = open;
    let line = number_at(view, start);
    match table_by(alloc, directive, line, table, &asked, nodes)? {
        Ok(nodes) => MarkedNodes::of(alloc, nodes),
        Err(fault) => {
            let text = table_fault_text(alloc, fault)?;
            let lines = source(alloc, view, start, end, looks)?;
            let error = message(
                alloc,
                Level::Error,
                line,
                text.as_str(),
                Some(lines.as_str()),
            )?;
            MarkedNodes::alone(alloc, Marked::of(alloc, error)?)
        }
    }
}
