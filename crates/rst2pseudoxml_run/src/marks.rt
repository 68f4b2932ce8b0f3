//! The parts of the wider profile that hold in a text.
ghost use Rattle.std.specs.Prelude.{◌≡◌, ◌-◌, ◌<◌, ◌≤◌, None, encode_utf8_all, if◌then◌else◌, length, not, slice_index, true};
ghost use Rattle.std.specs.Char.{is_ascii_whitespace};
ghost use Rattle.std.specs.List.{suffix_len};
ghost use Rattle.std.specs.Str.{chars};
ghost use Rattle.rst_inline_scan.specs.Mail as mail;
ghost use Rattle.rst2pseudoxml_run.specs.Marks as spec;

use rst_inline::is_wider_role;
use rst_markup_directives::is_wider_directive;
use rst_settings::Parts;

/// The parts of the wider profile that hold in a text, and the names that are handed back: those that are asked for and whose mark it
/// holds. It is searched for no other mark. The part `unmarked` has none.
pub fn parts_in(asked: Parts, text: &str) -> Parts
    ensures { result ≡ spec.parts_in asked (encode_utf8_all (chars text.now)) }
{
    Parts {
        marks: asked.marks && holds_role_end(text),
        mail: asked.mail && holds_at_sign(text),
        roles: asked.roles && holds_wider_role(text),
        directives: asked.directives && holds_wider_directive(text),
        unmarked: asked.unmarked,
        keywords: asked.keywords && holds_dollar_sign(text),
        handed: handed_in(asked, text),
    }
}

/// The names that are handed back, if one of them may stand in a text.
fn handed_in(asked: Parts, text: &str) -> Option<&'static str>
    ensures { result ≡ (if spec.holds_handed asked text.now then asked.handed else None) }
{
    if holds_handed(asked, text) {
        asked.handed
    } else {
        None
    }
}

/// Whether a colon stands directly before a backquote.
fn holds_role_end(text: &str) -> bool
    ensures { result ≡ spec.holds_role_end text.now }
{
    text.split(':').skip(1).any(|piece| piece.starts_with('`'))
}

/// Whether an at sign stands in a text.
fn holds_at_sign(text: &str) -> bool
    ensures { result ≡ mail.holds_at_sign text.now }
{
    text.as_bytes().contains(&b'@')
}

/// Whether what stands between two colons, before the first or after the last, is the name of a wider role.
fn holds_wider_role(text: &str) -> bool
    ensures { result ≡ spec.holds_wider_role text.now }
{
    text.split(':').any(|piece| is_wider_role(piece))
}

/// Whether the name of a wider directive, with white space after it or not, stands before a colon that is the last or has another directly
/// behind it.
fn holds_wider_directive(text: &str) -> bool
    ensures { result ≡ spec.holds_wider_directive text.now }
{
    let next = text.split(':').skip(1);
    text.split(':').zip(next).any(|(before, next)| next.is_empty() && ends_with_directive(before))
}

/// Whether the last word of a text is the name of a wider directive.
fn ends_with_directive(text: &str) -> bool
    ensures { result ≡ spec.ends_with_directive text.now }
{
    is_wider_directive(last_word(text))
}

/// The last word of a text, without the white space after it.
fn last_word(text: &str) -> &str
    ensures { result.now ≡ spec.last_word text.now }
{
    let text = text.trim_ascii_end();
    &text[word_start(text.as_bytes())..]
}

/// The place after the last white character of ASCII, or the beginning.
fn word_start(text: &[u8]) -> usize
    ensures value { result ≡ length text.now - suffix_len (λ b. not (is_ascii_whitespace b)) text.now }
    ensures within { result ≤ length text.now }
    ensures white { 0 < result → is_ascii_whitespace (slice_index text.now (result - 1)) ≡ true }
{
    let mut start = text.len();
    while start > 0 && !text[start - 1].is_ascii_whitespace() {
        start -= 1;
    }
    start
}

/// Whether a name that is handed back may stand in a text: the default role beside a backquote, or another name at a colon.
fn holds_handed(asked: Parts, text: &str) -> bool
    ensures { result ≡ spec.holds_handed asked text.now }
{
    match asked.handed {
        Some(names) => {
            (asked.hands_role("") && text.as_bytes().contains(&b'`')) || holds_names(names, text)
        }
        None => false,
    }
}

/// Whether one of some names may stand at a colon of a text.
fn holds_names(names: &str, text: &str) -> bool
    ensures { result ≡ spec.holds_names names.now text.now }
{
    let next = text.split(':').skip(1);
    text.split(':')
        .zip(next)
        .any(|(before, next)| may_name(names, before, next))
}

/// Whether one of some names may stand at a colon between two texts: that of a directive before two colons, or that of a role between a
/// colon and a backquote.
fn may_name(names: &str, before: &str, next: &str) -> bool
    ensures { result ≡ spec.may_name names.now before.now next.now }
{
    (next.is_empty() && has_part(names, last_word(before)))
        || (next.starts_with('`') && has_part(names, before))
        || (before.ends_with('`') && has_part(names, next))
}

/// Whether a word is a part, between colons, of one of some names, and not empty.
fn has_part(names: &str, word: &str) -> bool
    ensures { result ≡ spec.has_part names.now word.now }
{
    !word.is_empty() && is_part_of_one(names, word)
}

/// The same of a word that may be empty.
fn is_part_of_one(names: &str, word: &str) -> bool
    ensures { result ≡ spec.is_part_of_one names.now word.now }
{
    names.split('\n').any(|name| is_part(name, word))
}

/// Whether a word is a part of a name.
fn is_part(name: &str, word: &str) -> bool
    ensures { result ≡ spec.is_part name.now word.now }
{
    name.split(':').any(|part| part.eq_ignore_ascii_case(word))
}

/// Whether a dollar sign stands in a text.
fn holds_dollar_sign(text: &str) -> bool
    ensures { result ≡ spec.holds_dollar_sign text.now }
{
    text.as_bytes().contains(&b'$')
}
