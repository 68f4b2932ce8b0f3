//! The first character of a text, and what follows it.
ghost use Rattle.std.specs.Prelude.{◌≡◌, ◌<◌, drop, length, IsSome, chars};
ghost use Rattle.rst_text.specs.Block.{is_blank};
ghost use Rattle.rst_markup_lines.specs.TextStart.{first, begins_with, is_loose};

/// The first character of a text.
pub fn first_char(text: &str) -> Option<char>
    ensures { result ≡ first (chars text.now) }
{
    text.chars().next()
}

/// A text without its first character.
pub(crate) fn after_first(text: &str) -> &str
    ensures value { chars result.now ≡ drop 1 (chars text.now) }
    ensures shorter { IsSome (first (chars text.now)) → length result.now < length text.now }
{
    let mut rest = text.chars();
    let Some(_) = rest.next() else {
        return text;
    };
    rest.as_str()
}

/// Whether a text has no characters.
pub fn is_blank(text: &str) -> bool
    ensures { result ≡ is_blank (chars text.now) }
{
    match first_char(text) {
        Some(_) => false,
        None => true,
    }
}

/// Whether a character is the first of a text.
pub fn begins_with(c: char, text: &str) -> bool
    ensures { result ≡ begins_with c (chars text.now) }
{
    first_char(text) == Some(c)
}

/// Whether a text is empty or begins with a space.
pub fn is_loose(text: &str) -> bool
    ensures { result ≡ is_loose (chars text.now) }
{
    match first_char(text) {
        Some(c) => c == ' ',
        None => true,
    }
}
