//! What a call reports to its caller.
ghost use Rattle.std.specs.Prelude.{◌≡◌, length};
ghost use Rattle.rst_c.specs.Answers.{c_result_of, failed, failed_by, filled_room, made_of, messages_after, tree_after};
ghost use Rattle.rst_c.specs.declared.answer.Refusal.TheVariants.{Text};

use rst_text::Counted;
use rst2pseudoxml_run::End;

/// How a call ended, and how long its texts are.
#[repr(C)]
#[derive(Drop)]
pub struct RstResult {
    /// 0 where the texts were made; else 1 for bad options, 2 for a source that isn't UTF-8, 3 for a text that is too long, 4 for one that isn't
    /// UTF-8, 5 for one that is nested too deeply, 6 where memory ran out.
    pub end: u32,
    /// The exit status of the program; 0 where no text was made.
    pub status: u32,
    /// For a text that isn't UTF-8 how many bytes its longest prefix has that is; for one that is nested too deeply the number of the line; else 0.
    pub at: u64,
    /// How many bytes the tree, the JSON or the records have; 0 where none were made.
    pub length: u64,
    /// How many bytes the messages have, where they were made beside the tree; else 0.
    pub messages: u64,
}

/// What a call made: the tree with the messages beside it, or JSON or records with none; and the exit status of the program.
#[derive(Drop)]
pub struct Made {
    pub tree: Counted<Vec<u8>>,
    pub messages: Counted<Vec<u8>>,
    pub status: u8,
}

/// Why a call made nothing.
#[derive(Clone, Copy, Debug, PartialEq, Eq)]
pub enum Refusal {
    /// An option is out of its range.
    Options,
    /// The name of the source isn't UTF-8.
    Source,
    /// The text is refused, or memory ran out.
    Text(End),
}

impl From<End> for Refusal {
    ghost from_gives = { λ end refusal. refusal ≡ Text end };

    fn from(end: End) -> Refusal {
        Refusal::Text(end)
    }
}

/// Puts each text that was made into its room, if it fits, and gives the result of the call.
pub fn tell(made: &Result<Made, Refusal>, tree: &mut [u8], messages: &mut [u8]) -> RstResult
    ensures answer { result ≡ c_result_of (made_of made.now) }
    ensures tree { tree.new ≡ tree_after (made_of made.now) tree.old }
    ensures messages { messages.new ≡ messages_after (made_of made.now) messages.old }
{
    match made {
        Ok(made) => RstResult {
            end: 0,
            status: u32::from(made.status),
            at: 0,
            length: fill(tree, made.tree.inner().as_slice()),
            messages: fill(messages, made.messages.inner().as_slice()),
        },
        Err(refusal) => failed_by(*refusal),
    }
}

/// Puts a text at the start of a room, if it fits, and returns its length.
fn fill(room: &mut [u8], text: &[u8]) -> u64
    ensures room { room.new ≡ filled_room text.now room.old }
    ensures length { result ≡ length text.now }
{
    if text.len() <= room.len() {
        room[..text.len()].copy_from_slice(text);
    }
    text.len() as u64
}

/// The result of a call that was refused.
fn failed_by(refusal: Refusal) -> RstResult
    ensures { result ≡ failed_by refusal }
{
    match refusal {
        Refusal::Options => failed(1, 0),
        Refusal::Source => failed(2, 0),
        Refusal::Text(End::TooLong) => failed(3, 0),
        Refusal::Text(End::NotUtf8 { at }) => failed(4, at),
        Refusal::Text(End::TooDeep { line }) => failed(5, line),
        Refusal::Text(_) => failed(6, 0),
    }
}

/// The result of a call that made nothing.
fn failed(end: u32, at: usize) -> RstResult
    ensures { result ≡ failed end at }
{
    RstResult {
        end,
        status: 0,
        at: at as u64,
        length: 0,
        messages: 0,
    }
}
