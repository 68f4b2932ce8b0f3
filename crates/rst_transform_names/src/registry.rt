//! Names and ids, given one element after the other.
ghost use Rattle.std.specs.Prelude.{◌≡◌, map, IfOk};
ghost use Rattle.rst_tree.specs.PrintedAttributes.{given_source};
ghost use Rattle.rst_tree_index.specs.Registered.{item_of};
ghost use Rattle.rst_transform_names.specs.DuplicateMessages.{duplicate_definition, duplicate_name};
ghost use Rattle.rst_transform_names.specs.Names as spec;
ghost use Rattle.rst_transform_names.specs.Names.{entry_named, Knows};
ghost use Rattle.rst_transform_names.specs.Registering.{all_registered, nothing_known, with_alias, with_definition, with_element, with_named, with_target, Holds, Makes};
ghost use Rattle.rst_transform_names.specs.Registry.{strength_of, target_uri, known_by, losing, rule_named};

use super::duplicate_messages::{duplicate_definition, duplicate_name};
use super::ids::Ids;
use super::message_ids::KnownMessages;
use super::names::{Holder, NameEntry, Names, Strength};
use super::registrants::{is_alias, is_table_of_contents, own_name};
use super::rulings::{NO_RULING, Now, Ruling, ruling_for};
use rst_tree::{Key, Node, Result, Tag, Text};
use rst_tree_index::Element;
use std::alloc::Global;
use std::collections::BTreeMap;

/// What registration gave an element that may have a name: any but messages and problematics.
#[derive(Drop)]
pub struct Standing {
    /// Its number: how many of these elements come before it.
    pub serial: u64,
    /// Its id; a substitution definition and a target that an alias leaves have none.
    pub id: Option<Text>,
    /// Whether it has no name, though it was written with one.
    pub unnamed: bool,
    /// Whether its name is a duplicate one.
    pub lost: bool,
}

/// What is known after some elements.
#[derive(Drop)]
pub struct Registry {
    pub ids: Ids,
    pub names: Names,
    /// The number of the last substitution definition of each name.
    definitions: BTreeMap<String, u64>,
    /// What each element got that may have a name, by its number.
    pub standings: Vec<Standing>,
    /// What is known of messages and problematics.
    pub known_messages: KnownMessages,
    /// The message on the name of each of these elements, by its number, if there is one.
    pub name_messages: Vec<Option<Node>>,
}

impl Registry {
    /// What is known before the first of some elements, with room for all; `messages` numbers were given to messages.
    fn new(alloc: Global, elements: &[Element<'_>], messages: u64) -> Result<Registry>
        ensures { IfOk result (λ first. Holds first (nothing_known messages)) }
    {
        let unnamed = elements
            .iter()
            .filter(|new| matches!(new.tag, Tag::Problematic | Tag::SystemMessage))
            .count();
        let named = elements.len().saturating_sub(unnamed);
        Ok(Registry {
            ids: Ids::new(alloc),
            names: Names::new(alloc),
            definitions: BTreeMap::new(alloc),
            standings: Vec::with_capacity(alloc, named)?,
            known_messages: KnownMessages::new(alloc, unnamed, messages)?,
            name_messages: Vec::with_capacity(alloc, named)?,
        })
    }

    /// Registers one more element.
    fn register(&mut self, alloc: Global, new: Element<'_>) -> Result<()>
        ensures { IfOk result (λ _. Makes (with_element (item_of new.entry)) self.old self.new) }
    {
        match new.tag {
            Tag::Problematic | Tag::SystemMessage => {
                let number = self.ids.give_number(alloc, new.tag)?;
                self.known_messages.add(alloc, new, number)
            }
            Tag::SubstitutionDefinition => self.define(alloc, new),
            Tag::Target => self.target(alloc, new),
            _ => self.name(alloc, new),
        }
    }

    /// Gives an element its id, and its name if it has one.
    fn name(&mut self, alloc: Global, new: Element<'_>) -> Result<()>
        ensures { IfOk result (λ _. Makes (with_named (item_of new.entry)) self.old self.new) }
    {
        let serial = self.standings.len() as u64;
        let name = name_to_take(&self.names, new);
        let id = self.ids.give(alloc, new.tag, name)?;
        let ruling = ruling_on(&self.names, name, new);
        let unnamed = name.is_empty();
        let message = match ruling.message {
            Some(asked) => Some(duplicate_name(alloc, asked, new, &id)?),
            None => None,
        };
        self.name_messages.push(message)?;
        lose(&mut self.standings, ruling.loser);
        follow(alloc, &mut self.names, ruling.now, new, serial, &id)?;
        self.standings.push(Standing {
            serial,
            id: Some(id),
            unnamed,
            lost: ruling.new_loses,
        })?;
        Ok(())
    }

    /// Registers a target.
    fn target(&mut self, alloc: Global, new: Element<'_>) -> Result<()>
        ensures { IfOk result (λ _. Makes (with_target (item_of new.entry)) self.old self.new) }
    {
        if is_alias(new) {
            self.alias()
        } else {
            self.name(alloc, new)
        }
    }

    /// Registers a target that an alias leaves: it has its name, whoever else has it, and no id.
    fn alias(&mut self) -> Result<()>
        ensures { IfOk result (λ _. Makes with_alias self.old self.new) }
    {
        let serial = self.standings.len() as u64;
        self.name_messages.push(None)?;
        self.standings.push(Standing {
            serial,
            id: None,
            unnamed: false,
            lost: false,
        })?;
        Ok(())
    }

    /// Registers a substitution definition: of those with equal names the last has it.
    fn define(&mut self, alloc: Global, new: Element<'_>) -> Result<()>
        ensures { IfOk result (λ _. Makes (with_definition (item_of new.entry)) self.old self.new) }
    {
        let serial = self.standings.len() as u64;
        let name = String::from_str(alloc, own_name(new))?;
        let before = self.definitions.insert(name, serial)?;
        let holder = before.map_or(Holder::Nobody, |serial| Holder::Element(serial));
        lose(&mut self.standings, holder);
        let message = match before {
            Some(_) => Some(duplicate_definition(alloc, new)?),
            None => None,
        };
        self.name_messages.push(message)?;
        self.standings.push(Standing {
            serial,
            id: None,
            unnamed: false,
            lost: false,
        })?;
        Ok(())
    }
}

/// The name that a new element is to get: of a table of contents none if something is known of the name already.
fn name_to_take<'a>(names: &Names, new: Element<'a>) -> &'a str
    ensures { result.now ≡ spec.name_to_take (entry_named names.now) (item_of new.entry) }
{
    let name = own_name(new);
    if is_table_of_contents(new) && names.get(name).is_some() {
        ""
    } else {
        name
    }
}

/// The rule for a new element by the name it was written with; the empty name is none.
fn ruling_on(names: &Names, name: &str, new: Element<'_>) -> Ruling
    ensures { result ≡ rule_named name.now (entry_named names.now name.now) (item_of new.entry) }
{
    if name.is_empty() {
        return NO_RULING;
    }
    let strength = strength_of(new);
    match names.get(name) {
        None => ruling_for(None, strength, false),
        Some(registered) => {
            let same = match (registered.uri.as_ref(), target_uri(new)) {
                (Some(old), Some(uri)) => old.as_str() == uri.as_str(),
                _ => false,
            };
            ruling_for(
                Some((registered.strength, registered.holder)),
                strength,
                same,
            )
        }
    }
}

/// Gives a name to the element that a ruling chooses, or to none; the new element has a number and an id.
fn follow(
    alloc: Global,
    names: &mut Names,
    now: Now,
    new: Element<'_>,
    serial: u64,
    id: &Text,
) -> Result<()>
    ensures { IfOk result (λ _. Knows (spec.own_name (item_of new.entry)) (known_by now serial (item_of new.entry) id.now (entry_named names.old (spec.own_name (item_of new.entry)))) names.old names.new) }
{
    match now {
        Now::Old => Ok(()),
        Now::Nobody => {
            names.move_to(own_name(new), Holder::Nobody);
            Ok(())
        }
        Now::New => {
            let registered = NameEntry {
                holder: Holder::Element(serial),
                strength: strength_of(new),
                id: id.copy()?,
                uri: copied_text(target_uri(new))?,
            };
            names.hold(alloc, own_name(new), registered)
        }
    }
}

/// Lets an element have its name as a duplicate one only.
fn lose(standings: &mut [Standing], holder: Holder)
    ensures { standings.new ≡ losing holder standings.old }
{
    if let Holder::Element(serial) = holder {
        let place = serial as usize;
        if place < standings.len() {
            standings[place].lost = true;
        }
    }
}

/// How an element gives its name.
fn strength_of(element: Element<'_>) -> Strength
    ensures { result ≡ strength_of (item_of element.entry) }
{
    match element.tag {
        Tag::Section => Strength::Implicit,
        _ if is_table_of_contents(element) => Strength::Implicit,
        _ => Strength::Explicit,
    }
}

/// Where a target leads that has a URI.
fn target_uri<'a>(element: Element<'a>) -> Option<&'a Text>
    ensures { given_source result ≡ target_uri (item_of element.entry) }
{
    match element.tag {
        Tag::Target => element.attrs.text(Key::Refuri),
        _ => None,
    }
}

/// A copy of a text, if there is one.
pub fn copied_text(text: Option<&Text>) -> Result<Option<Text>>
    ensures { IfOk result (λ copy. copy ≡ given_source text.entry) }
{
    text.map(|text| text.copy()).transpose()
}

/// Registers elements, in preorder, among which `messages` numbers were given to messages.
pub fn registry_of(alloc: Global, elements: &[Element<'_>], messages: u64) -> Result<Registry>
    ensures { IfOk result (λ registry. Holds registry (all_registered (map item_of elements.entry.now) (nothing_known messages))) }
{
    let mut registry = Registry::new(alloc, elements, messages)?;
    for new in elements {
        registry.register(alloc, *new)?;
    }
    Ok(registry)
}
