//! The texts of the messages on directives.
ghost use Rattle.std.specs.Prelude.{◌≡◌, string_bytes, IfOk};
ghost use Rattle.rst_markup_directives.specs.Message as spec;
ghost use Rattle.rst_markup_directives.specs.Wrong.{fault_in, wrong_in};

use super::fault::{Detail, DirectiveFault};
use rst_tree::Level;
use std::alloc::{AllocError, Global};

/// The text of the message on a fault of a directive. `name` is the directive's name as it is written, or, of a
/// directive that isn't allowed in a substitution definition, the name of that definition.
///
/// The only refusal is [`AllocError`].
#[tactic(auto, using(rst_text::proofs::TextLemmas::bytes_encoded))]
pub fn message(alloc: Global, fault: &DirectiveFault, name: &str) -> Result<String, AllocError>
    ensures { IfOk result (λ text. string_bytes text ≡ spec.fault_text (fault_in fault.now) name.now) }
{
    match fault {
        DirectiveFault::NotInSubstitution => Ok(format!(in alloc;
            "Substitution definition \"{name}\" may hold only image or replace."
        )?),
        DirectiveFault::Unknown => Ok(format!(in alloc; "Unknown directive type \"{name}\".")?),
        DirectiveFault::Inside(detail) => {
            let mut text = format!(in alloc; "Error in \"{name}\" directive:\n")?;
            let detail = detail_of(alloc, detail)?;
            text.push_str(detail.as_str())?;
            Ok(text)
        }
        DirectiveFault::NoContent | DirectiveFault::NoTable => Ok(format!(in alloc;
            "Content block expected for the \"{name}\" directive; none found."
        )?),
        DirectiveFault::NoRows => Ok(format!(in alloc;
            "The \"{name}\" directive is empty; content required."
        )?),
        DirectiveFault::TopicNotHere => Ok(String::from_str(
            alloc,
            "The \"topic\" directive may not be used within topics or body elements.",
        )?),
        DirectiveFault::SidebarNotHere => Ok(format!(in alloc;
            "The \"{name}\" directive may not be used within topics or body elements."
        )?),
        DirectiveFault::LoneSubtitle => Ok(String::from_str(
            alloc,
            "The \"subtitle\" option may not be used without a title.",
        )?),
        DirectiveFault::ReplaceNotHere => Ok(String::from_str(
            alloc,
            "Invalid context: the \"replace\" directive can only be used within a substitution definition.",
        )?),
        DirectiveFault::Disabled => Ok(format!(in alloc; "\"{name}\" directive disabled.")?),
        DirectiveFault::InvalidClasses(classes) => Ok(classes_text(alloc, classes.as_str(), name)?),
    }
}

/// The text of the message on class names of which one is wrong.
fn classes_text(alloc: Global, classes: &str, name: &str) -> Result<String, AllocError>
    ensures { IfOk result (λ text. string_bytes text ≡ spec.classes_text classes.now name.now) }
{
    format!(in alloc; "Invalid class attribute value for \"{name}\" directive: \"{classes}\".")
}

/// The level of that message.
pub fn level_of(fault: &DirectiveFault) -> Level
    ensures { result ≡ spec.fault_level (fault_in fault.now) }
{
    match fault {
        DirectiveFault::Disabled | DirectiveFault::NoTable => Level::Warning,
        _ => Level::Error,
    }
}

/// What is wrong inside a directive, the line below `Error in ..`.
#[tactic(auto, using(rst_text::proofs::TextLemmas::bytes_encoded))]
fn detail_of(alloc: Global, detail: &Detail) -> Result<String, AllocError>
    ensures { IfOk result (λ text. string_bytes text ≡ spec.wrong_text (wrong_in detail.now)) }
{
    match detail {
        Detail::InvalidOptionBlock => String::from_str(alloc, "invalid option block."),
        Detail::UnknownOption(name) => format!(in alloc; "unknown option: \"{name}\"."),
        Detail::DuplicateOption(name) => format!(in alloc; "duplicate option \"{name}\"."),
        Detail::InvalidValue(name) => format!(in alloc; "invalid value of option \"{name}\"."),
        Detail::NoArgument => String::from_str(alloc, "1 argument(s) required, 0 supplied."),
        Detail::ManyArguments => String::from_str(alloc, "at most 1 argument permitted."),
        Detail::ContentNotPermitted => String::from_str(alloc, "no content permitted."),
        Detail::NotOneParagraph => String::from_str(alloc, "may contain a single paragraph only."),
    }
}
