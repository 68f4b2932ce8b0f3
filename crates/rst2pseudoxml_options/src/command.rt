//! The command line as it is described to `clap`.
ghost use Rattle.std.specs.Prelude.{◌≡◌, false, IfOk};
ghost use Rattle.clap.specs.Words.{app_of, rule_of};
ghost use Rattle.rst2pseudoxml_options.specs.Command.{program, flag, value_option};

use clap::{Arg, ArgAction, Command};
use std::alloc::{AllocError, Global};

/// The program's command: its options, and SOURCE.
///
/// The words contain no program name, and `--help` and `--version` are no options.
pub fn program<'a>(alloc: Global) -> Result<Command<'a>, AllocError>
    ensures { IfOk result (λ command. app_of command ≡ program) }
{
    Command::new(alloc, "rst2pseudoxml")
        .no_binary_name(true)
        .disable_help_flag(true)
        .disable_version_flag(true)
        .arg(value_option(alloc, "report").short('r'))?
        .arg(flag(alloc, "verbose").short('v'))?
        .arg(flag(alloc, "quiet").short('q'))?
        .arg(value_option(alloc, "halt"))?
        .arg(flag(alloc, "strict"))?
        .arg(value_option(alloc, "exit-status"))?
        .arg(flag(alloc, "no-doc-title"))?
        .arg(flag(alloc, "no-doc-info"))?
        .arg(value_option(alloc, "tab-width"))?
        .arg(value_option(alloc, "line-length-limit"))?
        .arg(Arg::new(alloc, "source"))
}

/// `--name VALUE`.
fn value_option<'a>(alloc: Global, name: &'a str) -> Arg<'a>
    ensures rule { rule_of result ≡ value_option name.entry.now }
    ensures local { result.global ≡ false }
{
    Arg::new(alloc, name).long(name)
}

/// `--name`.
fn flag<'a>(alloc: Global, name: &'a str) -> Arg<'a>
    ensures rule { rule_of result ≡ flag name.entry.now }
    ensures local { result.global ≡ false }
{
    Arg::new(alloc, name).long(name).action(ArgAction::SetTrue)
}
