//! Messages.

ghost use Rattle.rst_json.specs.Json.{Adds, after_comma, json_note};

use crate::string::{put_number, put_string};
use rst_tree::{Note, Result};

/// Puts a message after a comma: `{"line": 3, "level": 2, "type": "WARNING", "text": "..", "block": ".."}`, without the spaces, and without `block`
/// where it has no source text.
pub fn put_note(note: &Note, out: &mut Vec<u8>) -> Result<()>
    ensures { Adds out.old.items out.new.items (after_comma (json_note note.now)) result }
{
    out.extend_from_slice(b",{\"line\":")?;
    put_number(note.line as u64, out)?;
    out.extend_from_slice(b",\"level\":")?;
    put_number(u64::from(note.level.number()), out)?;
    out.extend_from_slice(b",\"type\":")?;
    put_string(note.level.name().as_bytes(), out)?;
    out.extend_from_slice(b",\"text\":")?;
    put_string(note.text.as_bytes(), out)?;
    if let Some(block) = &note.block {
        out.extend_from_slice(b",\"block\":")?;
        put_string(block.as_bytes(), out)?;
    }
    out.push(b'}')?;
    Ok(())
}
