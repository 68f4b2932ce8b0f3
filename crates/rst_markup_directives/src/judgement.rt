//! Where directives are allowed, and with which content.
ghost use Rattle.std.specs.Prelude.{◌≡◌};
ghost use Rattle.rst_markup_directives.specs.Argument.{given_in};
ghost use Rattle.rst_markup_directives.specs.Judgement as spec;
ghost use Rattle.rst_markup_directives.specs.Options.{choices_in};

use super::argument::Argument;
use super::fault::{Detail, DirectiveFault};
use super::found::Place;
use super::kind::{Allowed, ContentKind, Kind};
use super::option::OptionName;
use super::options::Setting;

/// The kind of a directive, if there is one and it is allowed there; or the fault.
#[tactic(auto, unfolding(crate::specs::Judgement::permitted))]
pub(crate) fn permitted(kind: Option<Kind>, place: Place) -> Result<Kind, DirectiveFault>
    ensures { result ≡ spec.permitted kind place }
{
    match (kind, place) {
        (Some(kind), Place::Top | Place::Body) => Ok(kind),
        (Some(kind), _) if matches!(kind.allowed, Allowed::Substitution | Allowed::Anywhere) => {
            Ok(kind)
        }
        (_, Place::Substitution) => Err(DirectiveFault::NotInSubstitution),
        (None, _) => Err(DirectiveFault::Unknown),
    }
}

/// The fault of the first option that names a file, or is a subtitle where there is no title.
pub(crate) fn option_fault(argument: &Argument, options: &[Setting]) -> Option<DirectiveFault>
    ensures { result ≡ spec.option_fault (spec.has_title (given_in argument.now)) (choices_in options.now) }
{
    let titled = matches!(argument, Argument::Title(_));
    for setting in options {
        match setting.option {
            OptionName::File | OptionName::Url => return Some(DirectiveFault::Disabled),
            OptionName::Subtitle if !titled => return Some(DirectiveFault::LoneSubtitle),
            _ => {}
        }
    }
    None
}

/// The fault of a directive's content, which is empty or not, and maybe a single paragraph; or else of its place.
#[tactic(auto, unfolding(crate::specs::Judgement::content_fault))]
pub(crate) fn content_fault(
    kind: Kind,
    empty: bool,
    place: Place,
    paragraph: bool,
) -> Option<DirectiveFault>
    ensures { result ≡ spec.content_fault kind empty place paragraph }
{
    match (kind.content, empty) {
        (ContentKind::Empty | ContentKind::Entries, false) => {
            Some(DirectiveFault::Inside(Detail::ContentNotPermitted))
        }
        (
            ContentKind::Lines
            | ContentKind::Marked
            | ContentKind::Verse
            | ContentKind::Formulas
            | ContentKind::Blocks
            | ContentKind::Quotes(_)
            | ContentKind::Paragraph,
            true,
        ) => Some(DirectiveFault::NoContent),
        (ContentKind::Rows, true) => Some(DirectiveFault::NoRows),
        (ContentKind::OneTable, true) => Some(DirectiveFault::NoTable),
        (ContentKind::Paragraph, false) if !paragraph => {
            Some(DirectiveFault::Inside(Detail::NotOneParagraph))
        }
        _ => match (kind.allowed, place) {
            (Allowed::Sections | Allowed::Beside, Place::Top)
            | (Allowed::Substitution, Place::Substitution) => None,
            (Allowed::Sections, _) => Some(DirectiveFault::TopicNotHere),
            (Allowed::Beside, _) => Some(DirectiveFault::SidebarNotHere),
            (Allowed::Substitution, _) => Some(DirectiveFault::ReplaceNotHere),
            (Allowed::Nowhere, _) => Some(DirectiveFault::Disabled),
            _ => None,
        },
    }
}
