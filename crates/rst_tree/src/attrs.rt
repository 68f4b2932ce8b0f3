//! The attributes of elements.
ghost use Rattle.std.specs.Prelude.{◌≡◌, ◌≤◌, ◌∷◌, drop, length, vec_len, [], true, MatchOption, None, Some, is_some, IfOk};
ghost use Rattle.rst_tree.specs.Faults.{Becomes};
ghost use Rattle.rst_tree.specs.Attributes.{attr, value_of, as_text, as_number, with_attr, without_key, place_named, places_below, is_at, are_keys_in_order};
ghost use Rattle.rst_tree.specs.Entries.{as_value};

use crate::entry::{Entry, ValueRef};
use crate::fault::Result;
use crate::key::Key;
use crate::text::{Text, Texts};
use std::alloc::Global;
use std::marker::Model;

/// The value of an attribute.
#[derive(Debug, Drop)]
pub enum Value {
    Text(Text),
    Number(u64),
    List(Texts),
}

/// An attribute: its name and its value. Lists of them hold each as an `Entry`.
#[derive(Debug, Drop)]
pub struct Attr {
    pub key: Key,
    pub value: Value,
}

/// The attributes of an element, in the order of their names, each name once. Contracts see them as a list.
#[derive(Debug, Drop)]
pub struct Attrs {
    list: Vec<Entry>,
}

impl Model for Attrs {
    ghost use Rattle.std.specs.Prelude.{◌≡◌, List, true};
    ghost use Rattle.rst_tree.specs.Attributes.{are_keys_in_order};
    ghost use Rattle.rst_tree.specs.declared.attrs.Attr.{Attr};

    ghost Value = { List Attr };

    ghost view = { λ a. a.list.items };

    ghost invariant = { λ a. are_keys_in_order a.list.items ≡ true };
}

impl Attrs {
    /// No attribute.
    pub fn new(alloc: Global) -> Attrs
        ensures { result ≡ [] }
    {
        Attrs {
            list: Vec::new(alloc),
        }
    }

    /// One attribute, in a list with room for it alone.
    pub fn lone(alloc: Global, key: Key, value: Value) -> Result<Attrs>
        ensures { IfOk result (λ attrs. attrs ≡ attr key value ∷ []) }
    {
        let mut list = Vec::with_capacity(alloc, 1)?;
        list.push_reserved(Entry::new(key, value));
        Ok(Attrs { list })
    }

    /// The attributes of a `Vec`, in which their names rise.
    pub fn of(list: Vec<Entry>) -> Attrs
        requires { are_keys_in_order list.items ≡ true }
        ensures { result ≡ list.items }
    {
        Attrs { list }
    }

    /// The attributes as a `Vec`, with the room that they had.
    pub fn into_list(self) -> Vec<Entry>
        ensures { self ≡ result.items }
    {
        let Attrs { list } = self;
        list
    }

    /// The attributes in order.
    pub fn as_slice(&self) -> &[Entry]
        ensures { result.now ≡ self.now }
    {
        self.list.as_slice()
    }

    /// The value of the attribute of a name, if there is one.
    pub fn get(&self, key: Key) -> Option<ValueRef<'_>>
        ensures { MatchOption result (value_of key self.now ≡ None) (λ v. value_of key self.now ≡ Some (as_value v)) }
    {
        for attr in &self.list {
            if attr.key().code() == key.code() {
                return Some(attr.as_value());
            }
        }
        None
    }

    /// The value of the attribute of a name, if it is a text.
    pub fn text(&self, key: Key) -> Option<&Text>
        ensures { MatchOption result (as_text (value_of key self.now) ≡ None) (λ t. as_text (value_of key self.now) ≡ Some t.now) }
    {
        match self.get(key) {
            Some(ValueRef::Text(text)) => Some(text),
            _ => None,
        }
    }

    /// The value of the attribute of a name, if it is a number.
    pub fn number(&self, key: Key) -> Option<u64>
        ensures { result ≡ as_number (value_of key self.now) }
    {
        match self.get(key) {
            Some(ValueRef::Number(number)) => Some(number),
            _ => None,
        }
    }

    /// Whether there is an attribute of a name.
    pub fn has(&self, key: Key) -> bool
        ensures { result ≡ is_some (value_of key self.now) }
    {
        self.get(key).is_some()
    }

    /// Sets the attribute of a name to a value: in place of its old value, or as a new one at its place among the names.
    pub fn set(&mut self, key: Key, value: Value) -> Result<()>
        ensures { Becomes self.old self.new (with_attr key value self.old) result }
    {
        let attrs = self.list.as_slice();
        let place = place_of(attrs, key);
        let attr = Entry::new(key, value);
        if is_at(attrs, place, key) {
            self.list[place] = attr;
            return Ok(());
        }
        make_room(&mut self.list)?;
        self.list.insert(place, attr)?;
        Ok(())
    }

    /// Makes room for `more` attributes more, so that setting them doesn't make the list grow.
    pub fn reserve(&mut self, more: usize) -> Result<()>
        ensures { self.new ≡ self.old }
    {
        self.list.reserve_exact(more)?;
        Ok(())
    }

    /// Takes out the attribute of a name, if there is one, and gives its value.
    pub fn remove(&mut self, key: Key) -> Option<Value>
        ensures value { result ≡ value_of key self.old }
        ensures rest { self.new ≡ without_key key self.old }
    {
        let place = place_named(self.list.as_slice(), key);
        if place < self.list.len() {
            let attr = self.list.remove(place);
            return Some(attr.into_value());
        }
        None
    }

    /// An equal list of attributes.
    pub fn copy(&self, alloc: Global) -> Result<Attrs>
        ensures { IfOk result (λ a. a ≡ self.now) }
    {
        let mut list = Vec::with_capacity(alloc, self.list.len())?;
        for attr in &self.list {
            list.push(attr.copy(alloc)?)?;
        }
        Ok(Attrs { list })
    }
}

/// Makes room for two attributes where there is none: most elements that have some have no more.
fn make_room(list: &mut Vec<Entry>) -> Result<()>
    ensures items { list.new.items ≡ list.old.items }
    ensures len { vec_len list.new ≡ vec_len list.old }
{
    if list.is_empty() {
        list.reserve_exact(2)?;
    }
    Ok(())
}

/// How many attributes come before the first whose name isn't before `key`.
pub(crate) fn place_of(attrs: &[Entry], key: Key) -> usize
    ensures place { result ≡ places_below key attrs.now }
    ensures within { result ≤ length attrs.now }
{
    for (i, attr) in attrs.iter().enumerate() {
        if attr.key().code() >= key.code() {
            return i;
        }
    }
    attrs.len()
}

/// Whether the attribute at a place has a name.
pub(crate) fn is_at(attrs: &[Entry], place: usize, key: Key) -> bool
    ensures { result ≡ is_at key (drop place attrs.now) }
{
    place < attrs.len() && attrs[place].key().code() == key.code()
}

/// How many attributes come before the first of a name.
fn place_named(attrs: &[Entry], key: Key) -> usize
    ensures { result ≡ place_named key attrs.now }
{
    for (i, attr) in attrs.iter().enumerate() {
        if attr.key().code() == key.code() {
            return i;
        }
    }
    attrs.len()
}
