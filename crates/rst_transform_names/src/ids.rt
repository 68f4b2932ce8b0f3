//! Ids.
ghost use Rattle.std.specs.Prelude.{◌≡◌, List, ℕ, false, true, if◌then◌else◌, MatchOption, MatchResult, None, Some, string_bytes, nat_le, slice_index, ◌&&◌, IfOk};
ghost use Rattle.rst_text.specs.Names.{identifier};
ghost use Rattle.rst_tree.specs.TagNames.{hyphenated, tag_name};
ghost use Rattle.rst_transform_names.specs.Ids.{is_taken, last_number, GivesId, GivesNumber, GivesNumbered, IsLeastFree, TakesId, TakesNone};
ghost use Rattle.rst_transform_names.specs.Ids as spec;
ghost use Rattle.rst_transform_names.specs.Written as written;

use rst_text::id_of;
use rst_tree::{Result, Tag, Text};
use std::alloc::Global;
use std::collections::{BTreeMap, BTreeSet};

/// The ids that are taken (Document Tree, 'ids').
#[derive(Drop)]
pub struct Ids {
    /// Those that names gave and that don't end in a hyphen and a number.
    named: BTreeSet<String>,
    /// For each text that ids with a number were made of, a number: with each from 1 to it the id is taken.
    last: BTreeMap<String, u32>,
    /// The other ids with a number: those that names gave, and those with a number of more than 32 bits. They alone can hinder an id
    /// whose number is above the last one. Each takes memory, so there are fewer of them than numbers of 64 bits: one is always free.
    hindering: BTreeSet<String>,
}

impl Ids {
    /// No id is taken.
    pub fn new(alloc: Global) -> Ids
        ensures { (id : List ℕ) → is_taken result id ≡ false }
    {
        Ids {
            named: BTreeSet::new(alloc),
            last: BTreeMap::new(alloc),
            hindering: BTreeSet::new(alloc),
        }
    }

    /// A free id for an element of a kind and a name, the empty name where it has none; it is taken from now on.
    ///
    /// It is the id that the name gives. If that is taken: it, a hyphen and the least number from 1 that makes it free. If
    /// there is none: the kind's name with hyphens, a hyphen and the least such number.
    ///
    /// Fails only if memory runs out; the same ids are then taken as before.
    pub fn give(&mut self, alloc: Global, tag: Tag, name: &str) -> Result<Text>
        ensures { GivesId tag name.now self.old self.new result }
    {
        let wanted = id_text(alloc, name)?;
        if wanted.is_empty() {
            return self.give_kind(alloc, tag);
        }
        let id = Text::from_str(alloc, wanted.as_str())?;
        if self.take(wanted)? {
            return Ok(id);
        }
        self.give_numbered(alloc, id.as_str())
    }

    /// A free id for an element of a kind without a name: the kind's name with hyphens, a hyphen and the least number from 1 that
    /// makes it free. It is taken from now on.
    ///
    /// Fails only if memory runs out; the same ids are then taken as before.
    pub fn give_kind(&mut self, alloc: Global, tag: Tag) -> Result<Text>
        ensures { GivesNumbered (hyphenated (tag_name tag)) self.old self.new result }
    {
        self.give_numbered(alloc, tag.hyphenated())
    }

    /// Takes the first free id of a kind's name, a hyphen and a number from 1, and gives that number.
    ///
    /// Fails only if memory runs out; the same ids are then taken as before.
    pub fn give_number(&mut self, alloc: Global, tag: Tag) -> Result<u64>
        ensures { GivesNumber (hyphenated (tag_name tag)) self.old self.new result }
    {
        let base = tag.hyphenated();
        let number = self.free_number(alloc, base)?;
        self.use_up(alloc, base, number)?;
        Ok(number)
    }

    /// Takes an id that a name gave, unless it is taken, and returns whether it was free.
    fn take(&mut self, id: String) -> Result<bool>
        ensures { MatchResult result (λ was_free. (is_taken self.old (string_bytes id) ≡ (if was_free then false else true)) × TakesId (string_bytes id) self.old self.new) (λ refused. TakesNone self.old self.new) }
    {
        match id_number(id.as_str()) {
            None => Ok(self.named.insert(id)?),
            Some((base, number)) => {
                if number <= u64::from(self.last_number(base)) {
                    return Ok(false);
                }
                Ok(self.hindering.insert(id)?)
            }
        }
    }

    /// Takes the first free id of a text, a hyphen and a number from 1.
    ///
    /// Fails only if memory runs out; the same ids are then taken as before.
    pub fn give_numbered(&mut self, alloc: Global, base: &str) -> Result<Text>
        ensures { GivesNumbered base.now self.old self.new result }
    {
        let number = self.free_number(alloc, base)?;
        let id = id_with_number(alloc, base, number)?;
        self.use_up(alloc, base, number)?;
        Ok(id)
    }

    /// The number up to which the ids of a text are taken; 0 where there is none.
    fn last_number(&self, base: &str) -> u32
        ensures { result ≡ last_number self.now base.now }
    {
        self.last.get(base).copied().unwrap_or(0)
    }

    /// The least number from 1 with which the id of a text is free.
    ///
    /// Each hindering id hinders one number at most, so no more numbers are passed over than there are of these ids. Ids stay taken,
    /// so a number that was passed over need never be looked at again.
    fn free_number(&self, alloc: Global, base: &str) -> Result<u64>
        ensures { IfOk result (λ number. IsLeastFree (is_taken self.now) base.now number) }
    {
        let first = u64::from(self.last_number(base)) + 1;
        let after_all = first + self.hindering.len() as u64;
        for number in first..after_all {
            let wanted = id_with_number(alloc, base, number)?;
            if !self.hindering.contains(wanted.as_str()) {
                return Ok(number);
            }
        }
        Ok(after_all)
    }

    /// Takes the id of a text and the least number that makes it free.
    fn use_up(&mut self, alloc: Global, base: &str, number: u64) -> Result<()>
        requires { IsLeastFree (is_taken self.now) base.now number }
        ensures { MatchResult result (λ done. TakesId (spec.id_with_number base.now number) self.old self.new) (λ refused. TakesNone self.old self.new) }
    {
        let Ok(number) = u32::try_from(number) else {
            let id = String::from_str(alloc, id_with_number(alloc, base, number)?.as_str())?;
            self.take(id)?;
            return Ok(());
        };
        if let Some(last) = self.last.get_mut(base) {
            *last = number;
            return Ok(());
        }
        self.last.insert(String::from_str(alloc, base)?, number)?;
        Ok(())
    }
}

/// What comes before the last hyphen of an id, and the number after it, if there is one: from 1, without a leading 0.
fn id_number(id: &str) -> Option<(&str, u64)>
    ensures { MatchOption result (spec.id_number id.now ≡ None) (λ parts. spec.id_number id.now ≡ Some (parts.0.now, parts.1)) }
{
    let (base, digits) = id.rsplit_once('-')?;
    Some((base, number_in(digits)?))
}

/// The number from 1 that decimal digits write without a leading 0.
pub fn number_in(digits: &str) -> Option<u64>
    ensures { result ≡ spec.number_in digits.now }
{
    if !begins_from_one(digits) {
        return None;
    }
    match digits.parse::<u64>() {
        Ok(number) => Some(number),
        Err(_) => None,
    }
}

/// Whether a text begins with a digit from 1 to 9.
fn begins_from_one(digits: &str) -> bool
    ensures { result ≡ nat_le 49 (slice_index digits.now 0) && nat_le (slice_index digits.now 0) 57 }
{
    matches!(digits.as_bytes(), [b'1'..=b'9', ..])
}

/// The id that a name gives; it may be empty, as that of the empty name is.
#[tactic(auto, using(rst_text::proofs::TextLemmas::bytes_of_chars))]
fn id_text(alloc: Global, name: &str) -> Result<String>
    ensures { IfOk result (λ id. string_bytes id ≡ identifier name.now) }
{
    id_of(alloc, name)
}

/// The id of a text and a number.
fn id_with_number(alloc: Global, base: &str, number: u64) -> Result<Text>
    ensures { IfOk result (λ id. id ≡ spec.id_with_number base.now number) }
{
    let mut buffer = itoa::Buffer::new();
    Text::of_three(alloc, base, "-", buffer.format(number))
}

/// The id of a problematic by its number.
pub fn problematic_id(alloc: Global, number: u64) -> Result<Text>
    ensures { IfOk result (λ id. id ≡ written.problematic_id number) }
{
    id_with_number(alloc, "problematic", number)
}

/// The id of a message by its number.
pub fn message_id(alloc: Global, number: u64) -> Result<Text>
    ensures { IfOk result (λ id. id ≡ written.message_id number) }
{
    id_with_number(alloc, "system-message", number)
}
