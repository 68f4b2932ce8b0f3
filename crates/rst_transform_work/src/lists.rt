//! Lists of texts among the attributes, and lists of places.
ghost use Rattle.std.specs.Prelude.{◌≡◌, slice_set, MatchOption, None, Some, IfOk};
ghost use Rattle.rst_tree.specs.Attributes.{without_key};
ghost use Rattle.rst_transform_work.specs.Lists.{at_place, listed_texts, with_listed, with_list_of, with_names};

use rst_tree::{Attrs, Key, Result, Text, Texts, Value, ValueRef};
use std::alloc::Global;

/// Takes out an attribute, and gives the texts that it lists; none where it is missing or no list.
pub fn take_list(alloc: Global, attrs: &mut Attrs, key: Key) -> Texts
    ensures texts { result ≡ listed_texts key attrs.old }
    ensures rest { attrs.new ≡ without_key key attrs.old }
{
    match attrs.remove(key) {
        Some(Value::List(texts)) => texts,
        _ => Texts::new(alloc),
    }
}

/// Puts texts after those that an attribute lists.
pub fn append(alloc: Global, attrs: &mut Attrs, key: Key, more: &[Text]) -> Result<()>
    ensures { IfOk result (λ _. attrs.new ≡ with_listed key more.now attrs.old) }
{
    if more.is_empty() {
        return Ok(());
    }
    let mut texts = take_list(alloc, attrs, key);
    for text in more {
        texts.push(text.copy()?)?;
    }
    attrs.set(key, Value::List(texts))
}

/// Puts the ids, names and lost names of attributes after those of others.
pub fn append_names(alloc: Global, attrs: &mut Attrs, from: &Attrs) -> Result<()>
    ensures { IfOk result (λ _. attrs.new ≡ with_names from.now attrs.old) }
{
    append_from(alloc, attrs, Key::Ids, from)?;
    append_from(alloc, attrs, Key::Names, from)?;
    append_from(alloc, attrs, Key::Dupnames, from)
}

/// Puts the texts that an attribute lists elsewhere after those that it lists here.
fn append_from(alloc: Global, attrs: &mut Attrs, key: Key, from: &Attrs) -> Result<()>
    ensures { IfOk result (λ _. attrs.new ≡ with_list_of key from.now attrs.old) }
{
    match from.get(key) {
        Some(ValueRef::List(more)) => append(alloc, attrs, key, more),
        _ => Ok(()),
    }
}

/// What a list has for a place, if it has something there.
pub fn item_at<T>(list: &[Option<T>], place: usize) -> Option<&T>
    ensures { MatchOption result (at_place list.now place ≡ None) (λ item. at_place list.now place ≡ Some item.now) }
{
    list.get(place)?.as_ref()
}

/// Puts an item in the place of another one, if there is that.
pub fn put_at<T: Drop>(list: &mut Vec<T>, place: usize, item: T)
    ensures { list.new.items ≡ slice_set list.old.items place item }
{
    if place < list.len() {
        list[place] = item;
    }
}

/// What a list of places has for one of them.
pub fn at_place(places: &[Option<usize>], place: usize) -> Option<usize>
    ensures { result ≡ at_place places.now place }
{
    *places.get(place)?
}
