//! The characters that decide where inline markup may occur.
ghost use Rattle.std.specs.Prelude.{◌≡◌};
ghost use Rattle.rst_inline_scan.specs.Characters.{may_precede_start, is_free_after};

use rst_text::is_white;
use unicode::properties::GeneralCategory;

/// Whether the character may occur before a start.
#[tactic(auto, unfolding(crate::specs::Characters::may_precede_start, rst_text::specs::Characters::is_white))]
pub(crate) fn may_precede_start(c: char) -> bool
    ensures { result ≡ may_precede_start c }
{
    match c {
        // A space, the most frequent, is tested with the others.
        ' ' | '-' | ':' | '/' | '\'' | '"' | '<' | '(' | '[' | '{' => true,
        _ => is_white(c)
            || (!c.is_ascii()
                && matches!(
                    GeneralCategory::for_char(c),
                    GeneralCategory::OpenPunctuation
                        | GeneralCategory::InitialPunctuation
                        | GeneralCategory::FinalPunctuation
                        | GeneralCategory::DashPunctuation
                        | GeneralCategory::OtherPunctuation
                )),
    }
}

/// Whether an end may occur before the place: at the text's end, or before a character that may follow an end.
#[tactic(auto, unfolding(crate::specs::Characters::may_follow, rst_text::specs::Characters::is_white))]
pub(crate) fn is_free_after(text: &[char], place: usize) -> bool
    ensures { result ≡ is_free_after text.now place }
{
    if text.len() <= place {
        return true;
    }
    let c = text[place];
    match c {
        // A space, the most frequent, is tested with the others.
        ' ' => true,
        '\'' | '"' | ')' | ']' | '}' | '>' | '-' | '/' | '\\' | ':' | '.' | ',' | ';' | '!' | '?' =>
            { true }
        _ => is_white(c)
            || (!c.is_ascii()
                && matches!(
                    GeneralCategory::for_char(c),
                    GeneralCategory::ClosePunctuation
                        | GeneralCategory::InitialPunctuation
                        | GeneralCategory::FinalPunctuation
                        | GeneralCategory::DashPunctuation
                        | GeneralCategory::OtherPunctuation
                )),
    }
}
