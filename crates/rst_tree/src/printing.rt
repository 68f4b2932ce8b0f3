//! Trees and messages as they are printed.
ghost use Rattle.std.specs.Prelude.{◌≡◌, false, None, Some};
ghost use Rattle.rst_text.specs.Counted.{between, has_failed, IsSent};
ghost use Rattle.rst_tree.specs.Print.{print_of};
ghost use Rattle.rst_tree.specs.Message.{message_of};
ghost use Rattle.rst_tree.specs.PrintedAttributes.{given_source, with_printed_attrs};
ghost use Rattle.rst_tree.specs.Faults.{Prints};

use crate::fault::PrintFault;
use crate::node::Node;
use crate::note::Note;
use crate::output::{put_message, put_node};
use crate::page::Page;
use crate::tree::Tree;
use rst_text::{Counted, WriteCall};

/// How many bytes of a tree are gathered for a write: a writer takes them faster than many pieces of a few bytes.
const TREE_PAGE: usize = 8192;

/// How many bytes of a message are gathered: most have fewer, and a page is blanked for each message anew.
const MESSAGE_PAGE: usize = 512;

/// Prints a tree to a writer that hasn't failed: each element and each line of a text is a line, after four spaces for
/// each level. All attributes are printed but those that serve the transforms alone, and empty lists of ids, classes, names and
/// references back; `xml:space` is one like any other, which the makers of literal blocks, doctest blocks, comments and addresses set.
/// Each message is printed with its line and its type (Document Tree, `system_message`), which the tree itself needn't hold: the line
/// is that of the element, and the type is that of its level.
pub fn print<W: WriteCall>(tree: &Tree, out: &mut Counted<W>) -> Result<(), PrintFault>
    requires { has_failed out.old ≡ false }
    ensures prints { Prints (between W.contents out.old out.new) (print_of (with_printed_attrs None tree.now)) result }
    ensures calls { IsSent W.call_takes W.contents out.old out.new (print_of (with_printed_attrs None tree.now)) }
{
    print_given(tree.root(), None, out)
}

/// Prints a document to a writer that hasn't failed, with its source as an attribute of the document and of its messages
/// (Document Tree, `source`). The nodes themselves needn't have these attributes, so that nobody goes
/// through them for that.
pub fn print_with_source<W: WriteCall>(
    document: &Tree,
    source: &str,
    out: &mut Counted<W>,
) -> Result<(), PrintFault>
    requires { has_failed out.old ≡ false }
    ensures prints { Prints (between W.contents out.old out.new) (print_of (with_printed_attrs (Some source.now) document.now)) result }
    ensures calls { IsSent W.call_takes W.contents out.old out.new (print_of (with_printed_attrs (Some source.now) document.now)) }
{
    print_given(document.root(), Some(source), out)
}

/// Prints a node, with the source if one is given.
fn print_given<W: WriteCall>(
    node: &Node,
    source: Option<&str>,
    out: &mut Counted<W>,
) -> Result<(), PrintFault>
    requires { has_failed out.old ≡ false }
    ensures prints { Prints (between W.contents out.old out.new) (print_of (with_printed_attrs (given_source source.entry) node.now)) result }
    ensures calls { IsSent W.call_takes W.contents out.old out.new (print_of (with_printed_attrs (given_source source.entry) node.now)) }
{
    let mut page: Page<TREE_PAGE> = Page::new();
    put_node(out, &mut page, 0, node, source);
    page.turn(out);
    page.end(out.failed())
}

/// Prints a message to a writer that hasn't failed, as `source:line: (TYPE/level) text` and, after a blank line, the
/// source text that it shows.
pub fn message_line<W: WriteCall>(
    note: &Note,
    source: &str,
    out: &mut Counted<W>,
) -> Result<(), PrintFault>
    requires { has_failed out.old ≡ false }
    ensures prints { Prints (between W.contents out.old out.new) (message_of source.now note.now) result }
    ensures calls { IsSent W.call_takes W.contents out.old out.new (message_of source.now note.now) }
{
    let mut page: Page<MESSAGE_PAGE> = Page::new();
    put_message(out, &mut page, source, note);
    page.turn(out);
    page.end(out.failed())
}
