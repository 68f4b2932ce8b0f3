//! Texts and lists of them.
ghost use Rattle.std.specs.Prelude.{◌≡◌, ◌∷◌, ◌++◌, [], IfOk, string_bytes};
ghost use Rattle.rst_tree.specs.Faults.{Becomes};
ghost use Rattle.rst_tree.specs.Phrases.{phrase_text};
ghost use Rattle.rst_tree.specs.Tree.{is_lines};

use crate::fault::Result;
use crate::phrase::Phrase;
use arrayvec::{ArrayString, CapacityError};
use rst_text::is_line_end;
use std::alloc::Global;
use std::marker::Model;
use std::{mem, slice};

/// How many bytes a text may have that lies in the value itself: ids, names and the texts of cells mostly have no more. With its
/// length, such a text takes eight bytes more than a `String`.
const SHORT: usize = 24;

/// A text, which contracts see as the list of its bytes.
#[derive(Debug, Drop)]
pub struct Text {
    storage: TextStorage,
}

/// What a text is made of. Most are short: those lie in the value itself, and take no memory. Nor do phrases.
#[derive(Debug, Drop)]
enum TextStorage {
    Short(Global, ArrayString<SHORT>),
    Phrase(Global, Phrase),
    Long(String),
}

impl Model for Text {
    ghost use Rattle.std.specs.Prelude.{ℕ, List};

    ghost Value = { List ℕ };

    ghost use Rattle.rst_tree.specs.Texts.{stored_bytes};

    ghost view = { λ t. stored_bytes t.storage };
}

impl Text {
    /// The text that a `String` holds.
    pub fn new(string: String) -> Text
        ensures { result ≡ string_bytes string }
    {
        let storage = match ArrayString::from(string.as_str()) {
            Ok(short) => TextStorage::Short(*string.allocator(), short),
            Err(_) => TextStorage::Long(string),
        };
        Text { storage }
    }

    /// The text that a phrase is.
    pub fn of_phrase(alloc: Global, phrase: Phrase) -> Text
        ensures { result ≡ phrase_text phrase }
    {
        Text {
            storage: TextStorage::Phrase(alloc, phrase),
        }
    }

    /// A text of its own.
    pub fn from_str(alloc: Global, text: &str) -> Result<Text>
        ensures { IfOk result (λ t. t ≡ text.now) }
    {
        let storage = match ArrayString::from(text) {
            Ok(short) => TextStorage::Short(alloc, short),
            Err(_) => TextStorage::Long(String::from_str(alloc, text)?),
        };
        Ok(Text { storage })
    }

    /// Three texts, one after the other, as one.
    pub fn of_three(alloc: Global, beginning: &str, middle: &str, back: &str) -> Result<Text>
        ensures { IfOk result (λ t. t ≡ beginning.now ++ (middle.now ++ back.now)) }
    {
        let storage = match short_joined(beginning, middle, back) {
            Ok(short) => TextStorage::Short(alloc, short),
            Err(_) => TextStorage::Long(concatenated(alloc, beginning, middle, back)?),
        };
        Ok(Text { storage })
    }

    /// The text as a `str`.
    pub fn as_str(&self) -> &str
        ensures { result.now ≡ self.now }
    {
        match &self.storage {
            TextStorage::Short(_, short) => short.as_str(),
            TextStorage::Phrase(_, phrase) => phrase.text(),
            TextStorage::Long(string) => string.as_str(),
        }
    }

    /// The bytes of the text.
    pub fn as_bytes(&self) -> &[u8]
        ensures { result.now ≡ self.now }
    {
        self.as_str().as_bytes()
    }

    /// Whether there is no line end but LF, as in a tree.
    pub fn is_lines(&self) -> bool
        ensures { result ≡ is_lines self.now }
    {
        // None of the bytes is looked at by itself, so that many are at once.
        let mut plain = true;
        for byte in self.as_bytes() {
            plain &= *byte == b'\n' || (*byte >= b' ' && *byte < 128);
        }
        plain || self.as_str().chars().all(|c| c == '\n' || !is_line_end(c))
    }

    /// An equal text.
    pub fn copy(&self) -> Result<Text>
        ensures { IfOk result (λ t. t ≡ self.now) }
    {
        match &self.storage {
            TextStorage::Short(alloc, short) => Ok(Text {
                storage: TextStorage::Short(*alloc, *short),
            }),
            TextStorage::Phrase(alloc, phrase) => Ok(Text::of_phrase(*alloc, *phrase)),
            TextStorage::Long(string) => Text::from_str(*string.allocator(), string.as_str()),
        }
    }

    /// Puts a text after this one.
    pub fn push_str(&mut self, text: &str) -> Result<()>
        ensures { Becomes self.old self.new (self.old ++ text.now) result }
    {
        match &mut self.storage {
            TextStorage::Short(alloc, beginning) => {
                let alloc = *alloc;
                if beginning.try_push_str(text).is_err() {
                    self.storage = TextStorage::Long(concatenated(
                        alloc,
                        beginning.as_str(),
                        text,
                        "",
                    )?);
                }
            }
            TextStorage::Phrase(alloc, phrase) => {
                self.storage = TextStorage::Long(concatenated(*alloc, phrase.text(), text, "")?);
            }
            TextStorage::Long(string) => string.push_str(text)?,
        }
        Ok(())
    }
}

/// Three texts, one after the other, in the value itself, unless they are too long.
fn short_joined<'a>(
    beginning: &'a str,
    middle: &'a str,
    back: &'a str,
) -> Result<ArrayString<SHORT>, CapacityError<&'a str>>
    ensures { IfOk result (λ s. s.bytes ≡ beginning.now ++ (middle.now ++ back.now)) }
{
    let mut short = ArrayString::from(beginning)?;
    short.try_push_str(middle)?;
    short.try_push_str(back)?;
    Ok(short)
}

/// Three texts, one after the other, in room for them alone.
fn concatenated(alloc: Global, beginning: &str, middle: &str, back: &str) -> Result<String>
    ensures { IfOk result (λ s. string_bytes s ≡ beginning.now ++ (middle.now ++ back.now)) }
{
    let room = beginning
        .len()
        .saturating_add(middle.len())
        .saturating_add(back.len());
    let mut string = String::with_capacity(alloc, room)?;
    string.push_str(beginning)?;
    string.push_str(middle)?;
    string.push_str(back)?;
    Ok(string)
}

/// A list of texts, which contracts see as the list of their bytes.
#[derive(Debug, Drop)]
pub struct Texts {
    pub(crate) storage: TextListStorage,
}

/// What a list of texts is made of. Most have one text, which lies in the value itself.
#[derive(Debug, Drop)]
pub(crate) enum TextListStorage {
    Lone(Global, Text),
    List(Vec<Text>),
}

impl Model for Texts {
    ghost use Rattle.std.specs.Prelude.{ℕ, List};

    ghost Value = { List (List ℕ) };

    ghost use Rattle.rst_tree.specs.Texts.{stored_texts};

    ghost view = { λ t. stored_texts t.storage };
}

impl Texts {
    /// No text.
    pub fn new(alloc: Global) -> Texts
        ensures { result ≡ [] }
    {
        Texts::of(Vec::new(alloc))
    }

    /// One text.
    pub fn lone(alloc: Global, text: Text) -> Texts
        ensures { result ≡ text ∷ [] }
    {
        Texts {
            storage: TextListStorage::Lone(alloc, text),
        }
    }

    /// The texts of a `Vec`.
    pub fn of(list: Vec<Text>) -> Texts
        ensures { result ≡ list.items }
    {
        Texts {
            storage: TextListStorage::List(list),
        }
    }

    /// The texts in order.
    pub fn as_slice(&self) -> &[Text]
        ensures { result.now ≡ self.now }
    {
        match &self.storage {
            TextListStorage::Lone(_, text) => slice::from_ref(text),
            TextListStorage::List(list) => list.as_slice(),
        }
    }

    /// Puts a text after the last.
    pub fn push(&mut self, text: Text) -> Result<()>
        ensures { Becomes self.old self.new (self.old ++ text ∷ []) result }
    {
        match &mut self.storage {
            TextListStorage::Lone(alloc, _) => {
                let alloc = *alloc;
                let mut list = Vec::with_capacity(alloc, 2)?;
                if let TextListStorage::Lone(_, first) = mem::replace(
                    &mut self.storage,
                    TextListStorage::List(Vec::new(alloc)),
                ) {
                    list.push_reserved(first);
                }
                list.push_reserved(text);
                self.storage = TextListStorage::List(list);
            }
            TextListStorage::List(list) if list.is_empty() => {
                let alloc = *list.allocator();
                self.storage = TextListStorage::Lone(alloc, text);
            }
            TextListStorage::List(list) => list.push(text)?,
        }
        Ok(())
    }

    /// A list of equal texts.
    pub fn copy_of(alloc: Global, texts: &[Text]) -> Result<Texts>
        ensures { IfOk result (λ t. t ≡ texts.now) }
    {
        match texts {
            [text] => Ok(Texts::lone(alloc, text.copy()?)),
            _ => Ok(Texts::of(copied(alloc, texts)?)),
        }
    }

    /// An equal list.
    pub fn copy(&self, alloc: Global) -> Result<Texts>
        ensures { IfOk result (λ t. t ≡ self.now) }
    {
        Texts::copy_of(alloc, self.as_slice())
    }
}

/// Equal texts.
pub(crate) fn copied(alloc: Global, texts: &[Text]) -> Result<Vec<Text>>
    ensures { IfOk result (λ list. list.items ≡ texts.now) }
{
    let mut list = Vec::with_capacity(alloc, texts.len())?;
    for text in texts {
        list.push(text.copy()?)?;
    }
    Ok(list)
}
