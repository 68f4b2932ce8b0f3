//! Roman numerals.
ghost use Rattle.std.specs.Prelude.{◌≡◌, ◌≤◌, length, map, take, chars};
ghost use Rattle.rst_markup_lines.specs.Class as classes;
ghost use Rattle.rst_markup_lines.specs.declared.class.Class.TheVariants.{Letter};
ghost use Rattle.rst_markup_lines.specs.Roman as spec;

use super::enumerator::Case;

/// The place of a digit in a Roman numeral.
#[derive(Clone, Copy)]
enum RomanPlace {
    Thousands,
    Hundreds,
    Tens,
    Ones,
}

// The letters of the digits from 1 on.
const LOWER_THOUSANDS: [&str; 4] = ["m", "mm", "mmm", "mmmm"];

const LOWER_HUNDREDS: [&str; 9] = ["c", "cc", "ccc", "cd", "d", "dc", "dcc", "dccc", "cm"];

const LOWER_TENS: [&str; 9] = ["x", "xx", "xxx", "xl", "l", "lx", "lxx", "lxxx", "xc"];

const LOWER_ONES: [&str; 9] = ["i", "ii", "iii", "iv", "v", "vi", "vii", "viii", "ix"];

const UPPER_THOUSANDS: [&str; 4] = ["M", "MM", "MMM", "MMMM"];

const UPPER_HUNDREDS: [&str; 9] = ["C", "CC", "CCC", "CD", "D", "DC", "DCC", "DCCC", "CM"];

const UPPER_TENS: [&str; 9] = ["X", "XX", "XXX", "XL", "L", "LX", "LXX", "LXXX", "XC"];

const UPPER_ONES: [&str; 9] = ["I", "II", "III", "IV", "V", "VI", "VII", "VIII", "IX"];

/// The letters of the digits from 1 on in a place.
fn roman_digits(case: Case, place: RomanPlace) -> &'static [&'static str]
    ensures letters { map (λ letters. letters.now) result.now ≡ spec.roman_digits case place }
    ensures few { length result.now ≤ 9 }
{
    match (case, place) {
        (Case::Lower, RomanPlace::Thousands) => &LOWER_THOUSANDS,
        (Case::Lower, RomanPlace::Hundreds) => &LOWER_HUNDREDS,
        (Case::Lower, RomanPlace::Tens) => &LOWER_TENS,
        (Case::Lower, RomanPlace::Ones) => &LOWER_ONES,
        (Case::Upper, RomanPlace::Thousands) => &UPPER_THOUSANDS,
        (Case::Upper, RomanPlace::Hundreds) => &UPPER_HUNDREDS,
        (Case::Upper, RomanPlace::Tens) => &UPPER_TENS,
        (Case::Upper, RomanPlace::Ones) => &UPPER_ONES,
    }
}

/// Whether a character is a letter that occurs in Roman numerals.
pub(crate) fn is_numeral_letter(c: char) -> bool
    ensures { result ≡ spec.is_numeral_letter c }
{
    matches!(
        c.to_ascii_lowercase(),
        'c' | 'd' | 'i' | 'l' | 'm' | 'v' | 'x'
    )
}

/// The greatest digit of a place whose letters come first, 0 where there is none, and the letters after it.
fn digit_at<'a>(case: Case, place: RomanPlace, letters: &'a [u8]) -> (usize, &'a [u8])
    ensures digit { (result.0, result.1.now) ≡ spec.digit_at (spec.roman_digits case place) letters.now }
    ensures few { result.0 ≤ 9 }
{
    let roman_digits = roman_digits(case, place);
    let mut digit = roman_digits.len();
    while 0 < digit {
        if let Some(rest) = letters.strip_prefix(roman_digits[digit - 1].as_bytes()) {
            return (digit, rest);
        }
        digit -= 1;
    }
    (0, letters)
}

/// The value of the letters at the front of a text, of which there are `len`, if they are a Roman numeral in its canonical
/// form; that is at most 4999.
pub(crate) fn roman(case: Case, len: usize, text: &str) -> Option<u64>
    requires { len ≡ classes.run Letter (chars text.now) }
    ensures { result ≡ spec.roman case (take len (chars text.now)) }
{
    let letters = &text.as_bytes()[..len];
    let (thousands, rest) = digit_at(case, RomanPlace::Thousands, letters);
    let (hundreds, rest) = digit_at(case, RomanPlace::Hundreds, rest);
    let (tens, rest) = digit_at(case, RomanPlace::Tens, rest);
    let (ones, rest) = digit_at(case, RomanPlace::Ones, rest);
    if !rest.is_empty() {
        return None;
    }
    Some((thousands * 1000 + hundreds * 100 + tens * 10 + ones) as u64)
}
