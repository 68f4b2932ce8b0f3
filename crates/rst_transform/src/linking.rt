//! The transforms of links, in order.
ghost use Rattle.std.specs.Prelude.{IfOk, ◌≡◌};
ghost use Rattle.rst_transform_work.specs.Known.{Makes};
ghost use Rattle.rst_transform.specs.Linking.{with_links};

use rst_transform_references::{
    Links, resolve_anonymous, resolve_footnotes, resolve_indirect, resolve_names, with_changes,
};
use rst_transform_work::{Context, Document};
use rst_tree::{Node, Result, Text};

/// A document after all transforms of links: anonymous references, indirect targets, footnotes, references by name.
pub fn resolve_links(document: Document, context: &mut Context) -> Result<Document>
    ensures { IfOk result (Makes (with_links document) context.old context.new) }
{
    let nothing = Node::Text(Text::new(String::new(context.alloc)));
    let mut links = Links::of(context.alloc, &document, &nothing)?;
    resolve_anonymous(context, &mut links)?;
    resolve_indirect(context, &mut links)?;
    resolve_footnotes(context, &mut links)?;
    resolve_names(context, &mut links)?;
    let changes = links.into_changes();
    Ok(with_changes(context.alloc, document, changes)?)
}
