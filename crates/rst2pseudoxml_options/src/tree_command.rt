//! The command line of `rst-tree` as it is described to `clap`, with its help.
ghost use Rattle.std.specs.Prelude.{◌≡◌, false, IfOk};
ghost use Rattle.clap.specs.Words.{app_of, rule_of};
ghost use Rattle.rst2pseudoxml_options.specs.Command.{flag};
ghost use Rattle.rst2pseudoxml_options.specs.TreeCommand.{checked_option, format_names, level_names, profile_names, tree_command, AreTests, TakesJust};

use clap::builder::ValueParser;
use clap::{Arg, ArgAction, Command};
use std::alloc::{AllocError, Global};

/// The version of the program, which the manual page and the changelog have, too.
const VERSION: &str = "0.10.0";

static LEVELS: [&str; 10] = [
    "info", "warning", "error", "severe", "none", "1", "2", "3", "4", "5",
];

static PROFILES: [&str; 2] = ["docutils", "base"];

static FORMATS: [&str; 2] = ["pseudoxml", "json"];

// What help says of each.
const PROFILE: &str = "Read the text by this profile";

const FORMAT: &str = "Print the tree in this format";

const REPORT: &str = "Show messages of this level and above";

const VERBOSE: &str = "Show all messages";

const QUIET: &str = "Show no message";

const HALT: &str = "Halt at the first message of this level or above";

const STRICT: &str = "Halt at any message";

const EXIT_STATUS: &str = "Change the exit status for messages of this level or above";

const NO_DOC_TITLE: &str = "Keep a lone section a section";

const NO_DOC_INFO: &str = "Keep a leading field list a field list";

const TAB_WIDTH: &str = "Tab stops, 1 to 99 columns apart";

const LINE_LENGTH_LIMIT: &str = "Most characters in a line, 1 to 16777216";

const SOURCE: &str = "The file to read; standard input if it is - or missing";

/// The command of `rst-tree`: its options, and SOURCE. The words contain no program name.
pub fn tree_command<'a>(alloc: Global) -> Result<Command<'a>, AllocError>
    ensures { IfOk result (λ command. (tests : _) × AreTests tests × (app_of command ≡ tree_command tests)) }
{
    let levels = levels();
    let profiles = profiles();
    let formats = formats();
    let tabs = ValueParser::unsigned(1, 99);
    let limits = ValueParser::unsigned(1, 16_777_216);
    Command::new(alloc, "rst-tree")
        .about("Prints the document tree of reStructuredText.")
        .version(VERSION)
        .no_binary_name(true)
        .arg(option(alloc, "profile", "NAME", profiles, PROFILE).default_value("docutils"))?
        .arg(option(alloc, "format", "NAME", formats, FORMAT).default_value("pseudoxml"))?
        .arg(option(alloc, "report", "LEVEL", levels, REPORT).short('r'))?
        .arg(flag(alloc, "verbose", VERBOSE).short('v'))?
        .arg(flag(alloc, "quiet", QUIET).short('q'))?
        .arg(option(alloc, "halt", "LEVEL", levels, HALT))?
        .arg(flag(alloc, "strict", STRICT))?
        .arg(option(alloc, "exit-status", "LEVEL", levels, EXIT_STATUS))?
        .arg(flag(alloc, "no-doc-title", NO_DOC_TITLE))?
        .arg(flag(alloc, "no-doc-info", NO_DOC_INFO))?
        .arg(option(alloc, "tab-width", "N", tabs, TAB_WIDTH))?
        .arg(option(alloc, "line-length-limit", "N", limits, LINE_LENGTH_LIMIT))?
        .arg(Arg::new(alloc, "source").value_name("SOURCE").help(SOURCE))
}

/// The test of a level.
fn levels<'a>() -> ValueParser<'a>
    ensures { TakesJust level_names result }
{
    ValueParser::Names(LEVELS.as_slice())
}

/// The test of a profile.
fn profiles<'a>() -> ValueParser<'a>
    ensures { TakesJust profile_names result }
{
    ValueParser::Names(PROFILES.as_slice())
}

/// The test of a format.
fn formats<'a>() -> ValueParser<'a>
    ensures { TakesJust format_names result }
{
    ValueParser::Names(FORMATS.as_slice())
}

/// `--name VALUE`, where the value passes a test.
fn option<'a>(
    alloc: Global,
    name: &'a str,
    value: &'a str,
    test: ValueParser<'a>,
    help: &'a str,
) -> Arg<'a>
    ensures rule { rule_of result ≡ checked_option name.entry.now test.entry }
    ensures local { result.global ≡ false }
{
    Arg::new(alloc, name)
        .long(name)
        .value_name(value)
        .value_parser(test)
        .help(help)
}

/// `--name`.
fn flag<'a>(alloc: Global, name: &'a str, help: &'a str) -> Arg<'a>
    ensures rule { rule_of result ≡ flag name.entry.now }
    ensures local { result.global ≡ false }
{
    Arg::new(alloc, name)
        .long(name)
        .action(ArgAction::SetTrue)
        .help(help)
}
