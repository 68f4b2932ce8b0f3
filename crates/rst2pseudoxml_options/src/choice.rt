//! The settings that the options choose.
ghost use Rattle.std.specs.Prelude.{◌≡◌};
ghost use Rattle.clap.specs.Words.{found_of, rows_of};
ghost use Rattle.rst2pseudoxml_options.specs.Options.{Settles, has_two_levels};

use super::fault::OptionFault;
use super::found::{is_on, text_of};
use super::values::{limit_or, tab_or, threshold_or};
use clap::ArgMatches;
use rst_settings::{Settings, Threshold};

/// The settings that the options choose, or the first fault of their values.
#[tactic(auto, unfolding(crate::specs::Options::choice_of))]
pub fn choice_of(matches: &ArgMatches<'_>) -> Result<Settings, OptionFault>
    ensures { Settles (rows_of (found_of matches.now)) result }
{
    let usual = Settings::usual();
    let Some(mut report) = threshold_or(text_of(matches, "report"), usual.report) else {
        return Err(OptionFault::BadLevel);
    };
    let Some(mut halt) = threshold_or(text_of(matches, "halt"), usual.halt) else {
        return Err(OptionFault::BadLevel);
    };
    let Some(exit) = threshold_or(text_of(matches, "exit-status"), usual.exit) else {
        return Err(OptionFault::BadLevel);
    };
    let Some(tab) = tab_or(text_of(matches, "tab-width"), usual.tab) else {
        return Err(OptionFault::BadTab);
    };
    let Some(limit) = limit_or(text_of(matches, "line-length-limit"), usual.limit) else {
        return Err(OptionFault::BadLimit);
    };
    if has_two_levels(matches) {
        return Err(OptionFault::TwoLevels);
    }
    if is_on(matches, "verbose") {
        report = Threshold::Info;
    } else if is_on(matches, "quiet") {
        report = Threshold::Never;
    }
    if is_on(matches, "strict") {
        halt = Threshold::Info;
    }
    Ok(Settings {
        report,
        halt,
        exit,
        title: !is_on(matches, "no-doc-title"),
        info: !is_on(matches, "no-doc-info"),
        tab,
        limit,
        parts: usual.parts,
    })
}

/// Whether more than one option is given for the report level, or for the halt level.
fn has_two_levels(matches: &ArgMatches<'_>) -> bool
    ensures { result ≡ has_two_levels (rows_of (found_of matches.now)) }
{
    let report = text_of(matches, "report").is_some();
    let halt = text_of(matches, "halt").is_some();
    let (verbose, quiet) = (is_on(matches, "verbose"), is_on(matches, "quiet"));
    (report & verbose) | (report & quiet) | (verbose & quiet) | (halt & is_on(matches, "strict"))
}
