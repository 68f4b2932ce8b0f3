//! Worked examples of lines, characters, names and ids, as theorems on the definitions alone: the prover computes what a definition gives for a
//! text that is written out.
#![tactic(auto, unfolding(crate::proofs::Computing::rst_text))]

ghost use Rattle.std.specs.Prelude.{◌≡◌, ◌++◌, true, false, Some, None, codes, filter, map, [], ◌∷◌};
ghost use Rattle.rst_settings.specs.Parts.{no_parts};
ghost use Rattle.rst_text.specs.Characters.{columns, is_alphanumeric, is_letter, is_white};
ghost use Rattle.rst_text.specs.Lines.{expanded, lines_of, first_longer};
ghost use Rattle.rst_text.specs.Escapes.{is_escaped, unescaped};
ghost use Rattle.rst_text.specs.Names.{id_of, name_of};
ghost use Rattle.rst_text.specs.SimpleNames.{is_simple_name};
ghost use Rattle.rst_text.specs.Text.{without_mark};
ghost use Rattle.rst_text.specs.Written.{block};

/// Lines of a text (Markup Specification, 'Whitespace').
pub fn lines()
    ensures line_ends { map (λ l. l.text) (lines_of no_parts 8 (codes "a\r\nb\rc\n\nd")) ≡ codes "a" ∷ codes "b" ∷ codes "c" ∷ [] ∷ codes "d" ∷ [] }
    ensures further_line_ends { map (λ l. l.text) (lines_of no_parts 8 (codes "a\u{1c}b\u{1d}c\u{1e}d\u{85}e\u{2028}f\u{2029}g\u{1b}h\u{1f}i"))
        ≡ codes "a" ∷ codes "b" ∷ codes "c" ∷ codes "d" ∷ codes "e" ∷ codes "f" ∷ codes "g\u{1b}h\u{1f}i" ∷ [] }
    ensures numbers { map (λ l. l.number) (block ("a" ∷ "" ∷ "b" ∷ [])) ≡ 1 ∷ 2 ∷ 3 ∷ [] }
    ensures tab { expanded 8 (codes "ab\tc") ≡ codes "ab      c" }
    ensures tab_at_a_stop { expanded 4 (codes "abcd\te") ≡ codes "abcd    e" }
    ensures tab_after_a_wide_character { expanded 8 (codes "中\tb") ≡ codes "中       b" }
    ensures vertical_tab_and_form_feed { expanded 8 (codes "a\u{b}b\u{c}c") ≡ codes "a b c" }
    ensures white_at_the_end { map (λ l. l.text) (lines_of no_parts 8 (codes "a \t\n")) ≡ codes "a" ∷ [] }
    ensures white_past_ascii_at_the_end { map (λ l. l.text) (lines_of no_parts 8 (codes "a\u{3000}\n=\u{2003}\u{a0}\nb\u{1f}"))
        ≡ codes "a" ∷ codes "=" ∷ codes "b\u{1f}" ∷ [] }
    ensures longer { first_longer 2 (block ("ab" ∷ "abc" ∷ "abcd" ∷ [])) ≡ Some 2 }
    ensures none_longer { first_longer 4 (block ("ab" ∷ "abcd" ∷ [])) ≡ None }
{}

/// A byte order mark at the beginning of a text (Configuration, 'input_encoding').
pub fn byte_order_marks()
    ensures one { without_mark (codes "\u{feff}\u{feff}a") ≡ codes "\u{feff}a" }
    ensures inside { without_mark (codes "a\u{feff}") ≡ codes "a\u{feff}" }
{}

/// Names that references are compared by (Markup Specification, 'Reference Names').
pub fn names()
    ensures white { name_of (codes " A\t Bc ") ≡ codes "a bc" }
    ensures folded { name_of (codes "ÄRGER") ≡ codes "ärger" }
    ensures spaces_past_ascii { name_of (codes "\u{3000}A\u{a0}\u{2003}\tb\u{85}c\u{2028}") ≡ codes "a b c" }
    ensures not_white { name_of (codes "a\u{200b}b\u{1f}c\u{1c}d\u{feff}e\0") ≡ codes "a\u{200b}b\u{1f}c\u{1c}d\u{feff}e\0" }
    ensures each_to_one { name_of (codes
        "ẞİıKÅΣςǄǅﬁⅧⒶꭰᎠͅµ𐐀ſÉ")
        ≡ codes "ßİıkåσσǆǆﬁⅷⓐᎠᎠιμ𐐨sé" }
{}

/// Simple names (Markup Specification, 'Reference Names').
pub fn simple_names()
    ensures joined { is_simple_name (codes "a-1_b") ≡ true }
    ensures each_joint { is_simple_name (codes "a-b_c.d:e+f") ≡ true }
    ensures two_joints { is_simple_name (codes "a..b") ≡ false }
    ensures leading_joint { is_simple_name (codes "-a") ≡ false }
    ensures joint_at_the_end { is_simple_name (codes "a-") ≡ false }
    ensures empty { is_simple_name [] ≡ false }
{}

/// A text without its escapes (Markup Specification, 'Escaping Mechanism').
pub fn escapes()
    ensures white { unescaped (codes "a\\ b\\\nc") ≡ codes "abc" }
    ensures character { unescaped (codes "\\*a\\b") ≡ codes "*ab" }
    ensures backslash { unescaped (codes "\\\\ \\\\\\*") ≡ codes "\\ \\*" }
    ensures last { unescaped (codes "a\\") ≡ codes "a" }
    ensures after_one { is_escaped (codes "\\*") 0 1 ≡ true }
    ensures after_two { is_escaped (codes "\\\\*") 0 2 ≡ false }
    ensures after_three { is_escaped (codes "\\\\\\*") 0 3 ≡ true }
    ensures counted_from { is_escaped (codes "\\\\*") 1 2 ≡ true }
{}

/// Ids that names give (Directives, 'Identifier Normalization').
pub fn ids()
    ensures joined { id_of (codes "1. Änd & so") ≡ codes "and-so" }
    ensures nothing { id_of (codes "日本 42") ≡ [] }
    ensures hyphens { id_of (codes "-- A_b--C 9 --") ≡ codes "a-b-c-9" }
    ensures taken_apart { id_of (codes "ﬁne x²") ≡ codes "fine-x2" }
    ensures not_taken_apart { id_of (codes "ß") ≡ [] }
{}

/// What letters and white characters are (Markup Specification, 'Whitespace').
pub fn characters()
    ensures no_break_space { is_white 160 ≡ true }
    ensures zero_width_space { is_white 8203 ≡ false }
    ensures other_spaces { filter is_white (32 ∷ 133 ∷ 160 ∷ 8232 ∷ 12288 ∷ 28 ∷ 31 ∷ 8203 ∷ []) ≡ 32 ∷ 133 ∷ 160 ∷ 8232 ∷ 12288 ∷ [] }
    ensures letter { is_letter 228 ≡ true }
    ensures digit { is_letter 49 ≡ false }
    ensures alphanumeric { is_alphanumeric 49 ≡ true }
    ensures letters { filter is_letter (codes "aZéª中ʰǅ5_- \u{660}½Ⅷ²〇ⓐ😀" ++ 769 ∷ []) ≡ codes "aZéª中ʰǅ" }
    ensures letters_and_numbers { filter is_alphanumeric (codes "aZéª中ʰǅ5\u{660}½Ⅷ²〇_- ⓐ😀" ++ 769 ∷ 8203 ∷ []) ≡ codes "aZéª中ʰǅ5\u{660}½Ⅷ²〇" }
{}

/// How many columns a text takes (Markup Specification, 'Sections').
pub fn widths()
    ensures wide { columns (codes "日本a") ≡ 5 }
    ensures combining { columns (codes "é") ≡ 1 }
    ensures alone { map (λ t. columns (codes t)) ("ｱ" ∷ "Ａ" ∷ "\u{ad}" ∷ "\u{1f}" ∷ "៘" ∷ [])
        ≡ 1 ∷ 2 ∷ 0 ∷ 1 ∷ 3 ∷ [] }
    ensures mark_alone { columns (769 ∷ []) ≡ 0 }
    ensures emoji { map (λ t. columns (codes t)) ("😀" ∷ "👍🏽" ∷ "👨\u{200d}👩\u{200d}👧" ∷ [])
        ≡ 2 ∷ 2 ∷ 2 ∷ [] }
    ensures presentation { map (λ t. columns (codes t)) ("❤" ∷ "❤\u{fe0f}" ∷ "1\u{fe0f}⃣" ∷ "⚠\u{fe0e}" ∷ [])
        ≡ 1 ∷ 2 ∷ 2 ∷ 1 ∷ [] }
    ensures flags { map (λ t. columns (codes t)) ("🇩" ∷ "🇩🇪" ∷ "🇩🇪🇫" ∷ []) ≡ 1 ∷ 2 ∷ 3 ∷ [] }
    ensures joined { map (λ t. columns (codes t)) ("\u{644}\u{627}" ∷ "ꓐꓹ" ∷ "a\u{200b}b" ∷ [])
        ≡ 1 ∷ 2 ∷ 2 ∷ [] }
    ensures letters_of_a_syllable { columns (4370 ∷ 4449 ∷ 4523 ∷ []) ≡ 2 }
{}
