//! Attributes as the lists of them hold them.
ghost use Rattle.std.specs.Prelude.{◌≡◌, IfOk};
ghost use Rattle.rst_tree.specs.Attributes.{attr};
ghost use Rattle.rst_tree.specs.Entries.{as_value};

use crate::attrs::Value;
use crate::fault::Result;
use crate::key::Key;
use crate::text::{Text, TextListStorage, Texts, copied};
use std::alloc::Global;
use std::marker::Model;
use std::slice;

/// An attribute as a list holds it, which contracts see as the attribute.
#[derive(Debug, Drop)]
pub struct Entry {
    storage: EntryStorage,
}

/// What an attribute is made of. A document has many of them, and here they take the least memory: the name and what sets
/// the kinds of values apart lie side by side.
#[derive(Debug, Drop)]
enum EntryStorage {
    Text(Key, Text),
    Number(Key, u64),
    /// A list of one text, which lies in the value itself.
    Lone(Key, Global, Text),
    List(Key, Vec<Text>),
}

/// The value of an attribute, borrowed from where it is stored.
#[derive(Clone, Copy, Debug)]
pub enum ValueRef<'a> {
    Text(&'a Text),
    Number(u64),
    List(&'a [Text]),
}

impl Model for Entry {
    ghost use Rattle.rst_tree.specs.declared.attrs.Attr.{Attr};

    ghost Value = { Attr };

    ghost use Rattle.rst_tree.specs.Entries.{stored_attr};

    ghost view = { λ e. stored_attr e.storage };
}

impl Entry {
    ghost use Rattle.rst_tree.specs.Print.{is_left_out};

    /// The attribute of a name with a value.
    pub fn new(key: Key, value: Value) -> Entry
        ensures { result ≡ attr key value }
    {
        let storage = match value {
            Value::Text(text) => EntryStorage::Text(key, text),
            Value::Number(number) => EntryStorage::Number(key, number),
            Value::List(texts) => match texts.storage {
                TextListStorage::Lone(alloc, text) => EntryStorage::Lone(key, alloc, text),
                TextListStorage::List(list) => EntryStorage::List(key, list),
            },
        };
        Entry { storage }
    }

    /// Its name.
    pub fn key(&self) -> Key
        ensures { result ≡ self.now.key }
    {
        match &self.storage {
            EntryStorage::Text(key, _) => *key,
            EntryStorage::Number(key, _) => *key,
            EntryStorage::Lone(key, _, _) => *key,
            EntryStorage::List(key, _) => *key,
        }
    }

    /// Its value.
    pub fn as_value(&self) -> ValueRef<'_>
        ensures { as_value result ≡ self.now.value }
    {
        match &self.storage {
            EntryStorage::Text(_, text) => ValueRef::Text(text),
            EntryStorage::Number(_, number) => ValueRef::Number(*number),
            EntryStorage::Lone(_, _, text) => ValueRef::List(slice::from_ref(text)),
            EntryStorage::List(_, list) => ValueRef::List(list.as_slice()),
        }
    }

    /// Its value, taken out.
    pub fn into_value(self) -> Value
        ensures { result ≡ self.value }
    {
        match self.storage {
            EntryStorage::Text(_, text) => Value::Text(text),
            EntryStorage::Number(_, number) => Value::Number(number),
            EntryStorage::Lone(_, alloc, text) => Value::List(Texts::lone(alloc, text)),
            EntryStorage::List(_, list) => Value::List(Texts::of(list)),
        }
    }

    /// An equal attribute.
    pub fn copy(&self, alloc: Global) -> Result<Entry>
        ensures { IfOk result (λ e. e ≡ self.now) }
    {
        let storage = match &self.storage {
            EntryStorage::Text(key, text) => EntryStorage::Text(*key, text.copy()?),
            EntryStorage::Number(key, number) => EntryStorage::Number(*key, *number),
            EntryStorage::Lone(key, alloc, text) => EntryStorage::Lone(*key, *alloc, text.copy()?),
            EntryStorage::List(key, list) => EntryStorage::List(
                *key,
                copied(alloc, list.as_slice())?,
            ),
        };
        Ok(Entry { storage })
    }

    /// Whether it isn't printed: it serves the transforms alone, or is an empty list of a name that isn't printed with one.
    pub fn is_left_out(&self) -> bool
        ensures { result ≡ is_left_out self.now }
    {
        match &self.storage {
            EntryStorage::List(key, list) => key.is_hidden()
                || (list.is_empty() && key.hides_empty()),
            _ => self.key().is_hidden(),
        }
    }
}
