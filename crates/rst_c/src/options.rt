//! The options of a call.
ghost use Rattle.std.specs.Prelude.{◌≡◌, ◌≤◌, None, option_map};
ghost use Rattle.rst_settings.specs.Threshold.{threshold_number};
ghost use Rattle.rst_c.specs.Options.{is_within, are_in_range, parts_of_profile, SetsHandingIf, SetsIf};

use rst_settings::{Parts, Settings, Threshold};

/// What the options of the program set, and the profile. Levels are 1 to 5, and 5 is none.
#[repr(C)]
#[derive(Drop)]
pub struct RstOptions {
    /// How many bytes this struct has.
    pub size: u32,
    /// From which level on messages are printed.
    pub report: u8,
    /// From which level on a message halts the run.
    pub halt: u8,
    /// From which level on the exit status is the highest level.
    pub exit_status: u8,
    /// The tab width, from 1 to 99 columns.
    pub tab_width: u8,
    /// The most characters that a line may have, from 1 to 16,777,216.
    pub line_length_limit: u32,
    /// 1 if a lone section's title doesn't become the document's, else 0.
    pub no_doc_title: u8,
    /// 1 if a leading field list doesn't become bibliographic elements, else 0.
    pub no_doc_info: u8,
    /// The profile: 1 is the one with every part of the wider profile that can be asked for, 0 the one without them.
    pub profile: u8,
    /// 0.
    pub unused: u8,
}

impl RstOptions {
    /// The settings that the options choose, if each is in its range.
    pub fn settings(&self) -> Option<Settings>
        ensures { SetsIf self.now None result }
    {
        self.settings_with(None)
    }

    /// The settings that the options choose, with names that are handed back, if each is in its range and the names are UTF-8. Nothing of the
    /// names outlives a call: they are `'static` since settings are copied into all that is made of lines.
    pub fn settings_handing(&self, names: &'static [u8]) -> Option<Settings>
        ensures { SetsHandingIf self.now names.now result }
    {
        let Ok(names) = str::from_utf8(names) else {
            return None;
        };
        self.settings_with(Some(names))
    }

    /// The settings that the options choose, with the names that are handed back, if each is in its range.
    fn settings_with(&self, handed: Option<&'static str>) -> Option<Settings>
        ensures { SetsIf self.now (option_map (λ names. names.now) handed.entry) result }
    {
        if !self.are_in_range() {
            return None;
        }
        let parts = parts_of_profile(self.profile);
        Some(Settings {
            report: threshold_of(self.report),
            halt: threshold_of(self.halt),
            exit: threshold_of(self.exit_status),
            title: self.no_doc_title == 0,
            info: self.no_doc_info == 0,
            tab: self.tab_width,
            limit: self.line_length_limit as usize,
            parts: Parts { handed, ..parts },
        })
    }

    /// Whether each option is in its range.
    fn are_in_range(&self) -> bool
        ensures { result ≡ are_in_range self.now }
    {
        self.size == 16
            && is_within(1, u32::from(self.report), 5)
            && is_within(1, u32::from(self.halt), 5)
            && is_within(1, u32::from(self.exit_status), 5)
            && is_within(1, u32::from(self.tab_width), 99)
            && is_within(1, self.line_length_limit, 16_777_216)
            && self.no_doc_title <= 1
            && self.no_doc_info <= 1
            && self.profile <= 1
            && self.unused == 0
    }
}

/// Whether a number is from `low` to `high`.
fn is_within(low: u32, number: u32, high: u32) -> bool
    ensures { result ≡ is_within low number high }
{
    low <= number && number <= high
}

/// The threshold that a number from 1 to 5 means.
fn threshold_of(number: u8) -> Threshold
    requires low { 1 ≤ number }
    requires high { number ≤ 5 }
    ensures { threshold_number result ≡ number }
{
    match number {
        1 => Threshold::Info,
        2 => Threshold::Warning,
        3 => Threshold::Error,
        4 => Threshold::Severe,
        _ => Threshold::Never,
    }
}

/// The parts of the wider profile that a profile, by its number 0 or 1, has.
fn parts_of_profile(number: u8) -> Parts
    ensures { result ≡ parts_of_profile number }
{
    if number == 0 { Parts::NONE } else { Parts::ALL }
}
