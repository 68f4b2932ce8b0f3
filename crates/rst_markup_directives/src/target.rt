//! What the text of a target means.
ghost use Rattle.std.specs.Prelude.{◌≡◌, ◌<◌, ◌&&◌, ◌==◌, Some, option_map, chars, IfOk};
ghost use Rattle.rst_text.specs.Characters.{without_white};
ghost use Rattle.rst_text.specs.Escapes.{unescaped};
ghost use Rattle.rst_markup_directives.specs.Escapes as escapes;
ghost use Rattle.rst_markup_directives.specs.Target as spec;

use super::characters::{is_empty_text, spaces, text_from};
use super::lines::add_line;
use rst_text::{characters_of, escapes, has, is_dark, is_simple_name, unescaped, without_white};
use std::alloc::{AllocError, Global};

/// What a target leads to.
#[derive(Debug, Drop)]
pub enum Target {
    /// Another target, by its name as it is written, without escapes.
    Name(String),
    /// A URI, without escapes and white characters.
    Uri(String),
}

/// What the text of a target means, where something is left of it: a simple name and `_`, or a phrase in backquotes
/// and `_`, is a name, and any other text is a URI. The lines of the text lose their indentation, and empty ones don't
/// count.
///
/// The only refusal is [`AllocError`].
pub fn target_value(alloc: Global, text: &str) -> Result<Option<Target>, AllocError>
    ensures { IfOk result (λ target. option_map spec.destination_of target ≡ spec.target_value (chars text.now)) }
{
    // Most texts are ASCII without white characters and escapes, and end in no `_`: such a text is the URI that it means.
    let bytes = text.as_bytes();
    if !bytes.is_empty()
        && bytes[bytes.len() - 1] != b'_'
        && bytes
            .iter()
            .all(|byte| byte.is_ascii_graphic() && *byte != b'\\')
    {
        let uri = String::from_str(alloc, text)?;
        return Ok(Some(Target::Uri(uri)));
    }
    let characters = characters_of(alloc, text)?;
    let mut joined = Vec::with_capacity(alloc, characters.len())?;
    for line in characters.split(|c| *c == '\n') {
        add_line(&mut joined, &line[spaces(line)..])?;
    }
    destination_in(alloc, &joined)
}

/// What a text means as the text of a target. A phrase in backquotes isn't empty, there is no white at either end, and each
/// backquote in it is escaped.
#[tactic(auto, unfolding(crate::specs::Target::destination_in, crate::specs::Target::is_simple_reference, crate::specs::Target::is_phrase_reference, crate::specs::Target::is_phrase, crate::specs::Target::phrase_in))]
fn destination_in(alloc: Global, text: &[char]) -> Result<Option<Target>, AllocError>
    ensures { IfOk result (λ target. option_map spec.destination_of target ≡ spec.destination_in text.now) }
{
    let n = text.len();
    if 0 < n && (has(text, n - 1, '_') && is_simple_name(&text[..n - 1])) {
        let name = text_from(alloc, &text[..n - 1])?;
        return Ok(Some(Target::Name(name)));
    }
    if 4 <= n
        && (has(text, 0, '`')
            && (has(text, n - 1, '_')
                && (has(text, n - 2, '`') && !ends_escaping(&text[..n - 2]))))
    {
        let phrase = &text[1..n - 2];
        if is_dark(phrase, 0)
            && (is_dark(phrase, phrase.len() - 1) && !has_bare_backquote(phrase))
        {
            let name = unescaped(alloc, phrase)?;
            return Ok(Some(Target::Name(text_from(alloc, &name)?)));
        }
    }
    let bare = unescaped(alloc, text)?;
    let uri = without_white(alloc, &bare)?;
    if is_empty_text(&uri) {
        return Ok(None);
    }
    let uri = text_from(alloc, &uri)?;
    Ok(Some(Target::Uri(uri)))
}

/// Whether a character after a text is escaped.
fn ends_escaping(text: &[char]) -> bool
    ensures { result ≡ escapes.ends_escaping text.now }
{
    let mut escaped = false;
    for c in text {
        escaped = escapes(*c, escaped);
    }
    escaped
}

/// Whether a backquote in a text isn't escaped.
fn has_bare_backquote(text: &[char]) -> bool
    ensures { result ≡ escapes.has_bare_backquote text.now }
{
    let mut escaped = false;
    for c in text {
        if *c == '`' && !escaped {
            return true;
        }
        escaped = escapes(*c, escaped);
    }
    false
}
