//! Names and the elements that hold them.
ghost use Rattle.std.specs.Prelude.{◌≡◌, ℕ, List, MatchOption, Some, None};
ghost use Rattle.rst_transform_names.specs.Names.{entry_named, with_holder, Knows, RemembersName};

use rst_tree::{Result, Text};
use std::alloc::Global;
use std::collections::BTreeMap;

/// Who holds a name.
#[derive(Clone, Copy, Debug, PartialEq, Eq)]
pub enum Holder {
    /// No element, since elements with equal names lost it.
    Nobody,
    /// The element with this `Key::Serial`.
    Element(u64),
    /// An element without a number of its own, to which the name went from a target.
    Unregistered,
}

/// How a name was given (reStructuredText Markup Specification, 'Implicit Hyperlink Targets').
#[derive(Clone, Copy, Debug, PartialEq, Eq)]
pub enum Strength {
    /// By a section's title, or by a table of contents.
    Implicit,
    /// By any other element.
    Explicit,
}

/// What is known of a name.
#[derive(Debug, Drop)]
pub struct NameEntry {
    pub holder: Holder,
    pub strength: Strength,
    /// The id of the element that brought the name, the last one that had it.
    pub id: Text,
    /// Where that element leads, if it is a target with a URI: there the name leads though the target may leave the document.
    pub uri: Option<Text>,
}

/// The names of a document's elements.
#[derive(Drop)]
pub struct Names {
    registered: BTreeMap<String, NameEntry>,
}

impl Names {
    /// No name.
    pub fn new(alloc: Global) -> Names
        ensures { (name : List ℕ) → entry_named result name ≡ None }
    {
        Names {
            registered: BTreeMap::new(alloc),
        }
    }

    /// What is known of a name, if an element was written with it.
    pub fn get(&self, name: &str) -> Option<&NameEntry>
        ensures { MatchOption result (entry_named self.now name.now ≡ None) (λ h. entry_named self.now name.now ≡ Some h.now) }
    {
        self.registered.get(name)
    }

    /// Lets an element, or none, hold a name that is known; the id and the URI stay those of the element that brought it.
    pub fn move_to(&mut self, name: &str, holder: Holder)
        ensures { Knows name.now (with_holder holder (entry_named self.old name.now)) self.old self.new }
    {
        if let Some(registered) = self.registered.get_mut(name) {
            registered.holder = holder;
        }
    }

    /// Sets what is known of a name, in place of what was known.
    ///
    /// Fails only if memory runs out; what is known is then as before.
    pub fn hold(&mut self, alloc: Global, name: &str, registered: NameEntry) -> Result<()>
        ensures { RemembersName name.now registered self.old self.new result }
    {
        let name = String::from_str(alloc, name)?;
        self.registered.insert(name, registered)?;
        Ok(())
    }
}
