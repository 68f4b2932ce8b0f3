//! The nodes and the messages of a text.
ghost use Rattle.std.specs.Prelude.{All, chars, IfOk};
ghost use Rattle.rst_inline_scan.specs.Pieces.{IsWithin};
ghost use Rattle.rst_inline.specs.Results.{AreReadFromPieces, IsRead};

use super::elements::{problematic, text_nodes};
use super::reading::Meaning;
use super::workspace::Workspace;
use super::written::Written;
use rst_inline_scan::{Kind, Markup, Piece, Suffix, is_quiet};
use rst_settings::Parts;
use rst_tree::{Node, Note, Result};
use std::alloc::Global;
use std::mem;

/// The nodes of an inline text in order, and its messages. The n-th problematic among the nodes has the number of the n-th
/// message.
#[derive(Debug, Drop)]
pub struct Pieces {
    pub nodes: Vec<Node>,
    pub notes: Vec<Note>,
}

/// The nodes and the messages of an inline text whose first line has the number `line` (Markup Specification, 'Inline
/// Markup'), by the parts of the wider profile that hold in it. Every text has some. The messages are numbered from 0 on.
///
/// The only refusal is [`AllocError`].
pub fn inline(alloc: Global, parts: &Parts, text: &str, line: usize) -> Result<Pieces>
    ensures { IfOk result (IsRead parts.now (chars text.now) line 0) }
{
    inline_from(alloc, parts, text, line, 0, &mut Workspace::new(alloc))
}

/// What [`inline`] gives, with the messages numbered from `first` on. The lists of the workspace serve one text after another.
///
/// The only refusal is [`AllocError`].
pub fn inline_from(
    alloc: Global,
    parts: &Parts,
    text: &str,
    line: usize,
    first: u64,
    workspace: &mut Workspace,
) -> Result<Pieces>
    ensures { IfOk result (IsRead parts.now (chars text.now) line first) }
{
    // A quiet text is one plain piece, so it is neither made characters nor scanned.
    if is_quiet(parts.mail, text.as_bytes()) {
        let children = text_nodes(alloc, text)?;
        return Ok(Pieces {
            nodes: children.into_list(),
            notes: Vec::new(alloc),
        });
    }
    marked_text(alloc, parts, text, line, first, workspace)
}

/// The same, whether the text is quiet or not.
// Its frame is large, and quiet texts need none of it.
#[inline(never)]
fn marked_text(
    alloc: Global,
    parts: &Parts,
    text: &str,
    line: usize,
    first: u64,
    workspace: &mut Workspace,
) -> Result<Pieces>
    ensures { IfOk result (IsRead parts.now (chars text.now) line first) }
{
    let Workspace {
        characters,
        starts,
        pieces,
    } = mem::replace(workspace, Workspace::new(alloc));
    let written = Written::of(alloc, parts, text, line, characters, starts)?;
    let pieces = written.pieces(pieces)?;
    let read = written.read(&pieces, first)?;
    *workspace = written.into_workspace(pieces);
    Ok(read)
}

impl Written<'_> {
    /// The nodes and the messages of the pieces of the text. The messages are numbered from `first` on.
    #[tactic(auto, unfolding(crate::specs::Readings::reading))]
    #[inline(always)]
    fn read(&self, pieces: &[Piece], first: u64) -> Result<Pieces>
        requires { All (IsWithin self.now.characters.items) pieces.now }
        ensures { IfOk result (AreReadFromPieces self.now.parts.now self.now.characters.items self.now.line first pieces.now) }
    {
        // A phrase reference may give two nodes, the second a target.
        let phrases = pieces
            .iter()
            .filter(|piece| matches!(piece.kind, Kind::Marked(Markup::Interpreted, Suffix::Named)))
            .count();
        let mut nodes = Vec::with_capacity(self.alloc, pieces.len().saturating_add(phrases))?;
        let mut notes = Vec::new(self.alloc);
        // Each message takes memory, so the sum can't pass the largest `u64`.
        let mut number = first;
        for piece in pieces {
            // Most pieces are plain: their texts come into the list without a `Meaning` that is moved.
            if matches!(piece.kind, Kind::Plain) {
                if let Some(text) = self.plain(*piece)? {
                    nodes.push(Node::Text(text))?;
                }
                continue;
            }
            match self.reading(*piece)? {
                Meaning::Nothing => continue,
                Meaning::One(node) => {
                    nodes.push(node)?;
                    continue;
                }
                Meaning::Two(both) => {
                    let mut both = both.into_list();
                    nodes.append(&mut both)?;
                    continue;
                }
                Meaning::Wrong(level, text) => {
                    let source = self.part(piece.from, piece.to);
                    nodes.push(problematic(self.alloc, number, source, self.line)?)?;
                    let note = Note {
                        level,
                        line: self.line,
                        text,
                        block: None,
                    };
                    notes.push(note)?;
                    number = number.saturating_add(1);
                    continue;
                }
            }
        }
        Ok(Pieces { nodes, notes })
    }
}
