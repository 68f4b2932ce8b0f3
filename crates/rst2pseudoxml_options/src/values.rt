//! The values of options.
ghost use Rattle.std.specs.Prelude.{◌≡◌, ◌≤◌, option_map, IfSome};
ghost use Rattle.rst2pseudoxml_options.specs.Values.{threshold_or, number_to, tab_or, limit_or};

use rst_settings::Threshold;

/// The level that an option names, `otherwise` where it is not given.
#[tactic(auto, unfolding(crate::specs::Values::threshold_of))]
pub fn threshold_or(given: Option<&str>, otherwise: Threshold) -> Option<Threshold>
    ensures { result ≡ threshold_or (option_map (λ s. s.now) given.entry) otherwise }
{
    match given {
        Some("1" | "info") => Some(Threshold::Info),
        Some("2" | "warning") => Some(Threshold::Warning),
        Some("3" | "error") => Some(Threshold::Error),
        Some("4" | "severe") => Some(Threshold::Severe),
        Some("5" | "none") => Some(Threshold::Never),
        Some(_) => None,
        None => Some(otherwise),
    }
}

/// The number from 1 to `most` that a word spells in decimal, with no leading zero.
fn number_to(text: &str, most: u32) -> Option<u32>
    ensures value { result ≡ number_to most text.now }
    ensures from { IfSome result (λ number. 1 ≤ number) }
    ensures to { IfSome result (λ number. number ≤ most) }
{
    if !matches!(text.as_bytes(), [b'1'..=b'9', ..]) {
        return None;
    }
    match text.parse::<u32>() {
        Ok(number) if number <= most => Some(number),
        _ => None,
    }
}

/// The tab width in columns, 1 to 99, that an option gives, `otherwise` where it is not given.
pub fn tab_or(given: Option<&str>, otherwise: u8) -> Option<u8>
    requires otherwise_from { 1 ≤ otherwise }
    requires otherwise_to { otherwise ≤ 99 }
    ensures value { result ≡ tab_or (option_map (λ s. s.now) given.entry) otherwise }
    ensures from { IfSome result (λ tab. 1 ≤ tab) }
    ensures to { IfSome result (λ tab. tab ≤ 99) }
{
    match given {
        Some(text) => Some(number_to(text, 99)? as u8),
        None => Some(otherwise),
    }
}

/// The most characters of a line, 1 to 16,777,216, that an option gives, `otherwise` where it is not given.
pub fn limit_or(given: Option<&str>, otherwise: usize) -> Option<usize>
    ensures { result ≡ limit_or (option_map (λ s. s.now) given.entry) otherwise }
{
    match given {
        Some(text) => Some(number_to(text, 16_777_216)? as usize),
        None => Some(otherwise),
    }
}
