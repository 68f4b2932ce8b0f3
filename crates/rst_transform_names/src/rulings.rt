//! What happens to a name with which one more element was written (reStructuredText Markup Specification, 'Implicit
//! Hyperlink Targets'; Docutils, 'Duplicate Explicit Target Names').

ghost use Rattle.std.specs.Prelude.{◌≡◌};
ghost use Rattle.rst_transform_names.specs.Rulings as spec;

use super::names::{Holder, Strength};
use rst_tree::Level;

/// Who holds the name from now on.
#[derive(Clone, Copy)]
pub enum Now {
    Old,
    New,
    Nobody,
}

/// A message on an equal name: how grave it is, and of which strength it speaks.
#[derive(Clone, Copy)]
pub struct DuplicateMessage {
    pub level: Level,
    pub strength: Strength,
}

/// What happens to a name, to the element that had it and to the new one.
#[derive(Clone, Copy)]
pub struct Ruling {
    pub now: Now,
    /// The element that had the name and now has it as a duplicate one only, if there is one.
    pub loser: Holder,
    /// Whether the new element has the name as a duplicate one only.
    pub new_loses: bool,
    pub message: Option<DuplicateMessage>,
}

/// An INFO on an implicit name.
const INFO: Option<DuplicateMessage> = Some(DuplicateMessage {
    level: Level::Info,
    strength: Strength::Implicit,
});

/// A WARNING on an explicit name.
const WARNING: Option<DuplicateMessage> = Some(DuplicateMessage {
    level: Level::Warning,
    strength: Strength::Explicit,
});

/// Nothing happens to a name.
pub const NO_RULING: Ruling = Ruling {
    now: Now::Old,
    loser: Holder::Nobody,
    new_loses: false,
    message: None,
};

/// No element had the name, or all that had it were sections that lost it: the new one has it.
const NEW_HAS_IT: Ruling = Ruling {
    now: Now::New,
    ..NO_RULING
};

/// The element that has the name keeps it; an INFO reports that.
fn old_keeps_it(strength: Strength) -> Ruling
    ensures { result ≡ spec.old_keeps_it strength }
{
    Ruling {
        new_loses: true,
        message: Some(DuplicateMessage {
            level: Level::Info,
            strength,
        }),
        ..NO_RULING
    }
}

/// Neither the element that had the name, if there is one, nor the new one has it.
fn nobody_has_it(loser: Holder, message: Option<DuplicateMessage>) -> Ruling
    ensures { result ≡ spec.nobody_has_it loser message }
{
    Ruling {
        now: Now::Nobody,
        loser,
        new_loses: true,
        message,
    }
}

/// The rule for a name, by how the element before had it and how the new one gives it.
#[tactic(auto, unfolding(crate::specs::Rulings::registered_ruling))]
pub fn ruling_for(old: Option<(Strength, Holder)>, new: Strength, same_uri: bool) -> Ruling
    ensures { result ≡ spec.ruling_for old new same_uri }
{
    let Some((old, holder)) = old else {
        return NEW_HAS_IT;
    };
    match (old, holder, new) {
        (Strength::Implicit, Holder::Nobody, Strength::Explicit) => NEW_HAS_IT,
        (Strength::Implicit, _, Strength::Explicit) => Ruling {
            loser: holder,
            message: INFO,
            ..NEW_HAS_IT
        },
        (Strength::Explicit, Holder::Nobody, Strength::Explicit) => nobody_has_it(holder, WARNING),
        (Strength::Explicit, _, Strength::Explicit) if same_uri => old_keeps_it(Strength::Explicit),
        (Strength::Explicit, _, Strength::Explicit) => nobody_has_it(holder, WARNING),
        (_, Holder::Nobody, Strength::Implicit) => nobody_has_it(holder, INFO),
        (Strength::Implicit, _, Strength::Implicit) => nobody_has_it(holder, INFO),
        (Strength::Explicit, _, Strength::Implicit) => old_keeps_it(Strength::Implicit),
    }
}
