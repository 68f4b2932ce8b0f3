//! What registration has to know of the elements.
ghost use Rattle.std.specs.Prelude.{◌≡◌};
ghost use Rattle.rst_tree_index.specs.Registered.{item_of};
ghost use Rattle.rst_transform_names.specs.Names.{is_alias, is_table_of_contents, own_name};

use rst_tree::{Key, Tag};
use rst_tree_index::Element;

/// The name that an element was written with; the empty name is none.
pub fn own_name<'a>(element: Element<'a>) -> &'a str
    ensures { result.now ≡ own_name (item_of element.entry) }
{
    let name = element.attrs.text(Key::OwnName);
    name.map_or("", |name| name.as_str())
}

/// Whether an element is a table of contents: of all topics these alone have the number of the messages on their titles, which follow them.
pub fn is_table_of_contents(element: Element<'_>) -> bool
    ensures { result ≡ is_table_of_contents (item_of element.entry) }
{
    element.tag == Tag::Topic && element.attrs.number(Key::TextMessages).is_some()
}

/// Whether an embedded alias left a target: it is in a text, and refers to a name.
#[inline(always)]
pub fn is_alias(target: Element<'_>) -> bool
    ensures { result ≡ is_alias (item_of target.entry) }
{
    target.attrs.has(Key::Refname) && target.attrs.has(Key::Inline)
}
