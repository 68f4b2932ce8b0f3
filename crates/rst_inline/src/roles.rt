//! The roles of interpreted text.
ghost use Rattle.std.specs.Prelude.{◌≡◌};
ghost use Rattle.std.specs.Map.{lookup};
ghost use Rattle.rst_inline.specs.Roles as spec;

use rst_tree::Tag;

/// What a role makes of a text.
#[derive(Clone, Copy, Debug, PartialEq, Eq)]
pub enum Role {
    /// An element that holds the text.
    Element(Tag),
    /// A reference to a Python Enhancement Proposal, whose number the text is.
    Pep,
    /// A reference to a Request for Comments, whose number the text begins with.
    Rfc,
    /// A formula, which is the text as it is written.
    Math,
    /// Program code, which is the text as it is written.
    Code,
    /// Raw data: an error, since no output format is named.
    Raw,
    /// An error: the role is known, but makes nothing.
    Unimplemented,
}

/// The profile that has a role.
#[derive(Clone, Copy, Debug, PartialEq, Eq)]
pub enum Holder {
    Base,
    /// The wider profile alone.
    Wider,
}

/// A role: its name, the profile that has it, and what it makes.
macro_rules! row {
    ($name:literal in $holder:ident: $role:expr) => {
        ($name, (Holder::$holder, $role))
    };
}

/// The roles by their names (Roles, 'Standard Roles').
const ROLES: [(&str, (Holder, Role)); 32] = [
    row!("emphasis" in Base: Role::Element(Tag::Emphasis)),
    row!("strong" in Base: Role::Element(Tag::Strong)),
    row!("literal" in Base: Role::Element(Tag::Literal)),
    row!("subscript" in Base: Role::Element(Tag::Subscript)),
    row!("sub" in Base: Role::Element(Tag::Subscript)),
    row!("superscript" in Base: Role::Element(Tag::Superscript)),
    row!("sup" in Base: Role::Element(Tag::Superscript)),
    row!("title-reference" in Base: Role::Element(Tag::TitleReference)),
    row!("title" in Base: Role::Element(Tag::TitleReference)),
    row!("t" in Base: Role::Element(Tag::TitleReference)),
    row!("abbreviation" in Wider: Role::Element(Tag::Abbreviation)),
    row!("ab" in Wider: Role::Element(Tag::Abbreviation)),
    row!("acronym" in Wider: Role::Element(Tag::Acronym)),
    row!("ac" in Wider: Role::Element(Tag::Acronym)),
    row!("code" in Wider: Role::Code),
    row!("math" in Wider: Role::Math),
    row!("pep-reference" in Wider: Role::Pep),
    row!("pep" in Wider: Role::Pep),
    row!("rfc-reference" in Wider: Role::Rfc),
    row!("rfc" in Wider: Role::Rfc),
    row!("raw" in Wider: Role::Raw),
    row!("index" in Wider: Role::Unimplemented),
    row!("i" in Wider: Role::Unimplemented),
    row!("named-reference" in Wider: Role::Unimplemented),
    row!("anonymous-reference" in Wider: Role::Unimplemented),
    row!("uri-reference" in Wider: Role::Unimplemented),
    row!("uri" in Wider: Role::Unimplemented),
    row!("url" in Wider: Role::Unimplemented),
    row!("footnote-reference" in Wider: Role::Unimplemented),
    row!("citation-reference" in Wider: Role::Unimplemented),
    row!("substitution-reference" in Wider: Role::Unimplemented),
    row!("target" in Wider: Role::Unimplemented),
];

/// Whether a text is the name of a role, in the wider profile in any case of letters of ASCII.
fn is_name(wider: bool, text: &str, name: &str) -> bool
    ensures { result ≡ spec.is_name wider text.now name.now }
{
    if wider {
        text.eq_ignore_ascii_case(name)
    } else {
        text == name
    }
}

/// What a table has for a name.
fn lookup(wider: bool, text: &str, table: &[(&str, (Holder, Role))]) -> Option<(Holder, Role)>
    ensures { result ≡ lookup (spec.is_name wider text.now) (spec.rows_of table.now) }
{
    for (name, row) in table {
        if is_name(wider, text, name) {
            return Some(*row);
        }
    }
    None
}

impl Role {
    /// The role that a text names in the base, or in the wider profile.
    #[tactic(auto, unfolding(crate::specs::Roles::role_named))]
    pub(crate) fn named(wider: bool, text: &str) -> Option<Role>
        ensures { result ≡ spec.role_named wider text.now }
    {
        let (holder, role) = lookup(wider, text, &ROLES)?;
        if wider || holder == Holder::Base {
            Some(role)
        } else {
            None
        }
    }
}

/// Whether a text names a role in the wider profile alone.
#[tactic(auto, unfolding(crate::specs::Roles::is_wider_role))]
pub fn is_wider_role(text: &str) -> bool
    ensures { result ≡ spec.is_wider_role text.now }
{
    Role::named(true, text).is_some() && Role::named(false, text).is_none()
}
