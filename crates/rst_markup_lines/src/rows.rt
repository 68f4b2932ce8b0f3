//! Worked examples of marks, as theorems on the definitions alone: the prover computes what a definition gives for a line that is written out.
#![tactic(auto, unfolding(crate::proofs::Computing::rst_markup_lines))]

ghost use Rattle.std.specs.Prelude.{◌≡◌, true, false, Some, None, codes, ◌∷◌, ◌++◌, [], map, filter, option_map, is_some};
ghost use Rattle.rst_settings.specs.Parts.{all_parts, no_parts};
ghost use Rattle.rst_markup_lines.specs.Adornment.{adornment_of};
ghost use Rattle.rst_markup_lines.specs.Attribution.{attribution_of};
ghost use Rattle.rst_markup_lines.specs.Border.{is_grid_border, is_simple_border};
ghost use Rattle.rst_markup_lines.specs.Closing.{ends_in_colons};
ghost use Rattle.rst_markup_lines.specs.Enumerator.{begins_next, enumerator_of, first_reading, ordinal_in};
ghost use Rattle.rst_markup_lines.specs.ExplicitMarks.{directive_mark_of, dots, label_of, substitution_of, target_of, underscores};
ghost use Rattle.rst_markup_lines.specs.Field.{field_of};
ghost use Rattle.rst_markup_lines.specs.Marker.{bullet, doctest, line_bar};
ghost use Rattle.rst_markup_lines.specs.OptionMarker.{option_marker};
ghost use Rattle.rst_markup_lines.specs.Options.{options_in};
ghost use Rattle.rst_markup_lines.specs.Roman.{roman};
ghost use Rattle.rst_markup_lines.specs.declared.enumerator.Case.TheVariants.{Lower, Upper};
ghost use Rattle.rst_markup_lines.specs.declared.enumerator.Format.TheVariants.{Parentheses, Parenthesis, Period};
ghost use Rattle.rst_markup_lines.specs.declared.enumerator.Ordinals.TheVariants.{Arabic, Auto, Letters};
ghost use Rattle.rst_markup_lines.specs.declared.enumerator.Sequence.TheVariants.{Arabic as Numbers, LowerAlpha, LowerRoman, UpperAlpha, UpperRoman};
ghost use Rattle.rst_markup_lines.specs.declared.explicit_marks.LabelKind.TheVariants.{Citation, Footnote};
ghost use Rattle.rst_markup_lines.specs.declared.explicit_marks.SubstitutionMark.TheVariants.{Named as Defined, Tight, Unclosed};
ghost use Rattle.rst_markup_lines.specs.declared.explicit_marks.TargetMark.TheVariants.{Anonymous, Named};
ghost use Rattle.rst_markup_lines.specs.declared.option.Delimiter.TheVariants.{Equals, Nothing, Space};

/// What begins an item of a bullet list, a doctest block, and a line of a line block (Markup Specification, 'Bullet Lists').
pub fn bullets()
    ensures six { filter (λ c. is_some (bullet (c ∷ codes " a"))) (codes "*+-.o#=·•‣⁃") ≡ codes "*+-•‣⁃" }
    ensures spaces { bullet (codes "*   a") ≡ Some (record { cut = 4; bare = false }) }
    ensures alone { bullet (codes "-") ≡ Some (record { cut = 1; bare = true }) }
    ensures word { bullet (codes "-a") ≡ None }
    ensures no_break_space { bullet (45 ∷ 160 ∷ codes "a") ≡ None }
    ensures prompt { doctest (codes ">>>  1 + 1") ≡ Some (record { cut = 5; bare = false }) }
    ensures prompt_alone { doctest (codes ">>>") ≡ Some (record { cut = 3; bare = true }) }
    ensures no_prompts { map (λ t. doctest (codes t)) (">>>a" ∷ ">> a" ∷ ">>>> a" ∷ []) ≡ None ∷ None ∷ None ∷ [] }
    ensures line { line_bar (codes "|   a") ≡ Some (record { cut = 4; bare = false }) }
    ensures empty_line { line_bar (codes "|") ≡ Some (record { cut = 1; bare = true }) }
    ensures substitution { line_bar (codes "|a| b") ≡ None }
{}

/// Enumerators: what encloses the ordinal, the ordinal, and the marker (Markup Specification, 'Enumerated Lists').
pub fn enumerators()
    ensures period { enumerator_of (codes "12. a")
        ≡ Some (record { format = Period; written = record { ordinals = Arabic 12; len = 2 }; marker = record { cut = 4; bare = false } }) }
    ensures parenthesis { enumerator_of (codes "#)  a")
        ≡ Some (record { format = Parenthesis; written = record { ordinals = Auto; len = 1 }; marker = record { cut = 4; bare = false } }) }
    ensures parentheses { enumerator_of (codes "(C)")
        ≡ Some (record {
          format = Parentheses;
          written = record { ordinals = Letters Upper (Some 3) (Some 100); len = 1 };
          marker = record { cut = 3; bare = true };
        }) }
    ensures numeral { option_map (λ e. e.written) (enumerator_of (codes "iv. a"))
        ≡ Some (record { ordinals = Letters Lower None (Some 4); len = 2 }) }
    ensures letter { option_map (λ e. e.written.ordinals) (enumerator_of (codes "b. x")) ≡ Some (Letters Lower (Some 2) None) }
    ensures zeros { option_map (λ e. e.written) (enumerator_of (codes "007. a")) ≡ Some (record { ordinals = Arabic 7; len = 3 }) }
    ensures nine_digits { option_map (λ e. e.written.ordinals) (enumerator_of (codes "999999999. a")) ≡ Some (Arabic 999999999) }
    ensures ten_digits { enumerator_of (codes "1000000000. a") ≡ None }
    ensures words { filter (λ t. is_some (enumerator_of (codes t))) ("ab. x" ∷ "Ii. x" ∷ "iI. x" ∷ "1a. x" ∷ "a1. x" ∷ "##. x" ∷ []) ≡ [] }
    ensures past_ascii { filter (λ t. is_some (enumerator_of (codes t))) ("ä. x" ∷ "३. x" ∷ "Ⅳ. x" ∷ []) ≡ [] }
    ensures half_framed { filter (λ t. is_some (enumerator_of (codes t))) ("(1 a" ∷ "(1. a" ∷ "1 a" ∷ "1: a" ∷ "1] a" ∷ "[1] a" ∷ []) ≡ [] }
    ensures without_space { filter (λ t. is_some (enumerator_of (codes t))) ("1.a" ∷ "1)a" ∷ "(1)a" ∷ "1 . a" ∷ []) ≡ [] }
{}

/// Roman numerals (Markup Specification, 'Enumerated Lists').
pub fn numerals()
    ensures ones { map (λ t. roman Lower (codes t)) ("iii" ∷ "iv" ∷ "v" ∷ "viii" ∷ "ix" ∷ []) ≡ Some 3 ∷ Some 4 ∷ Some 5 ∷ Some 8 ∷ Some 9 ∷ [] }
    ensures tens { map (λ t. roman Lower (codes t)) ("xl" ∷ "lx" ∷ "xc" ∷ "xcix" ∷ []) ≡ Some 40 ∷ Some 60 ∷ Some 90 ∷ Some 99 ∷ [] }
    ensures hundreds { map (λ t. roman Upper (codes t)) ("CD" ∷ "DCCC" ∷ "CM" ∷ "MCMXCIV" ∷ []) ≡ Some 400 ∷ Some 800 ∷ Some 900 ∷ Some 1994 ∷ [] }
    ensures last { roman Lower (codes "mmmmcmxcix") ≡ Some 4999 }
    ensures five_thousand { roman Lower (codes "mmmmm") ≡ None }
    ensures not_canonical { map (λ t. roman Lower (codes t)) ("iiii" ∷ "vv" ∷ "ic" ∷ []) ≡ None ∷ None ∷ None ∷ [] }
    ensures other_case { roman Upper (codes "xi") ≡ None }
{}

/// How a list's first ordinal is read, and what an ordinal is in a sequence (Markup Specification, 'Enumerated Lists').
pub fn readings()
    ensures lower_i { option_map (λ e. first_reading e.written.ordinals) (enumerator_of (codes "i. a"))
        ≡ Some (record { sequence = LowerRoman; ordinal = 1 }) }
    ensures upper_i { option_map (λ e. first_reading e.written.ordinals) (enumerator_of (codes "I. a"))
        ≡ Some (record { sequence = UpperRoman; ordinal = 1 }) }
    ensures lower_v { option_map (λ e. first_reading e.written.ordinals) (enumerator_of (codes "v. a"))
        ≡ Some (record { sequence = LowerAlpha; ordinal = 22 }) }
    ensures upper_z { option_map (λ e. first_reading e.written.ordinals) (enumerator_of (codes "Z. a"))
        ≡ Some (record { sequence = UpperAlpha; ordinal = 26 }) }
    ensures two_letters { option_map (λ e. first_reading e.written.ordinals) (enumerator_of (codes "MM. a"))
        ≡ Some (record { sequence = UpperRoman; ordinal = 2000 }) }
    ensures auto { option_map (λ e. first_reading e.written.ordinals) (enumerator_of (codes "#. a"))
        ≡ Some (record { sequence = Numbers; ordinal = 1 }) }
    ensures zero { option_map (λ e. first_reading e.written.ordinals) (enumerator_of (codes "0. a"))
        ≡ Some (record { sequence = Numbers; ordinal = 0 }) }
    ensures in_lower { map (λ s. ordinal_in s (Letters Lower (Some 3) (Some 100))) (Numbers ∷ LowerAlpha ∷ UpperAlpha ∷ LowerRoman ∷ UpperRoman ∷ [])
        ≡ None ∷ Some 3 ∷ None ∷ Some 100 ∷ None ∷ [] }
    ensures in_upper { map (λ s. ordinal_in s (Letters Upper (Some 4) (Some 500))) (Numbers ∷ LowerAlpha ∷ UpperAlpha ∷ LowerRoman ∷ UpperRoman ∷ [])
        ≡ None ∷ None ∷ Some 4 ∷ None ∷ Some 500 ∷ [] }
    ensures in_numbers { map (λ s. ordinal_in s (Arabic 7)) (Numbers ∷ LowerAlpha ∷ UpperRoman ∷ []) ≡ Some 7 ∷ None ∷ None ∷ [] }
    ensures auto_in_numbers { ordinal_in Numbers Auto ≡ None }
{}

/// Which lines go on with the list of an enumerator (Markup Specification, 'Enumerated Lists').
pub fn next_items()
    ensures number { option_map (λ e. filter (λ t. begins_next e (codes t)) ("1. b" ∷ "2. b" ∷ "02. b" ∷ "3. b" ∷ "2." ∷ "2) b" ∷ "(2) b" ∷ "ii. b"
        ∷ "b. b" ∷ "#. b" ∷ [])) (enumerator_of (codes "1. a"))
        ≡ Some ("2. b" ∷ "02. b" ∷ "#. b" ∷ []) }
    ensures ten_digits { option_map (λ e. begins_next e (codes "1000000000. b")) (enumerator_of (codes "999999999. a")) ≡ Some false }
    ensures both_readings { option_map (λ e. filter (λ t. begins_next e (codes t)) ("i) b" ∷ "ii) b" ∷ "iii) b" ∷ "j) b" ∷ "k) b" ∷ "II) b" ∷ "J) b"
        ∷ "2) b" ∷ [])) (enumerator_of (codes "i) a"))
        ≡ Some ("ii) b" ∷ "j) b" ∷ []) }
    ensures upper { option_map (λ e. filter (λ t. begins_next e (codes t)) ("(D) b" ∷ "(CI) b" ∷ "(d) b" ∷ "D) b" ∷ "D. b" ∷ "(#) b"
        ∷ [])) (enumerator_of (codes "(C) a"))
        ≡ Some ("(D) b" ∷ "(CI) b" ∷ "(#) b" ∷ []) }
    ensures auto { option_map (λ e. filter (λ t. begins_next e (codes t)) ("1. b" ∷ "2. b" ∷ "a. b" ∷ "#. b" ∷ "#) b" ∷ "#."
        ∷ [])) (enumerator_of (codes "#. a"))
        ≡ Some ("#. b" ∷ []) }
    ensures z { option_map (λ e. filter (λ t. begins_next e (codes t)) ("aa. b" ∷ "a. b" ∷ "{. b" ∷ "#. b" ∷ [])) (enumerator_of (codes "z. a"))
        ≡ Some ("#. b" ∷ []) }
{}

/// The names of fields (Markup Specification, 'Field Lists').
pub fn fields()
    ensures two_words { field_of no_parts (codes ":a b:  c")
        ≡ Some (record { name = record { from = 1; to = 4 }; marker = record { cut = 7; bare = false } }) }
    ensures alone { field_of no_parts (codes ":a:") ≡ Some (record { name = record { from = 1; to = 2 }; marker = record { cut = 3; bare = true } }) }
    ensures escaped { field_of no_parts (codes ":a\\: b: c")
        ≡ Some (record { name = record { from = 1; to = 6 }; marker = record { cut = 8; bare = false } }) }
    ensures escaped_backslash { field_of no_parts (codes ":a\\\\: b: c")
        ≡ Some (record { name = record { from = 1; to = 4 }; marker = record { cut = 6; bare = false } }) }
    ensures colon_inside { field_of no_parts (codes ":a:`b`: c")
        ≡ Some (record { name = record { from = 1; to = 6 }; marker = record { cut = 8; bare = false } }) }
    ensures colon_last { field_of no_parts (codes ":a:: b") ≡ Some (record { name = record { from = 1; to = 3 }; marker = record { cut = 5; bare = false } }) }
    ensures first_colon { field_of no_parts (codes ":a: b: c")
        ≡ Some (record { name = record { from = 1; to = 2 }; marker = record { cut = 4; bare = false } }) }
    ensures no_names { filter (λ t. is_some (field_of no_parts (codes t))) (":: a" ∷ "::" ∷ "::a: b" ∷ ": a: b" ∷ ":a : b: c" ∷ []) ≡ [] }
    ensures unclosed { filter (λ t. is_some (field_of no_parts (codes t))) (":a" ∷ ":a:b" ∷ ":a\\:" ∷ "a: b" ∷ []) ≡ [] }
    ensures role { field_of all_parts (codes ":mod:`email`: mail") ≡ None }
    ensures role_without_the_part { field_of no_parts (codes ":mod:`email`: mail")
        ≡ Some (record { name = record { from = 1; to = 12 }; marker = record { cut = 14; bare = false } }) }
    ensures escaped_colon { map (λ parts. option_map (λ mark. mark.name) (field_of parts (codes ":a\\:`b`: c"))) (no_parts ∷ all_parts ∷ [])
        ≡ Some (record { from = 1; to = 7 }) ∷ Some (record { from = 1; to = 7 }) ∷ [] }
    ensures role_in_the_body { field_of all_parts (codes ":a: :b:`c`: d")
        ≡ Some (record { name = record { from = 1; to = 2 }; marker = record { cut = 4; bare = false } }) }
    ensures colon_last_with_parts { field_of all_parts (codes ":a:: `b`")
        ≡ Some (record { name = record { from = 1; to = 3 }; marker = record { cut = 5; bare = false } }) }
{}

/// The options of an option list's item (Markup Specification, 'Option Lists').
pub fn options()
    ensures listed { options_in (codes "-a, --long=X, /V <y z>  d")
        ≡ record { string = record { from = 0; to = 2 }; argument = None }
        ∷ record { string = record { from = 4; to = 10 }; argument = Some (record { delimiter = Equals; text = record { from = 11; to = 12 } }) }
        ∷ record { string = record { from = 14; to = 16 }; argument = Some (record { delimiter = Space; text = record { from = 17; to = 22 } }) }
        ∷ [] }
    ensures marker { option_marker (codes "-a, --long=X, /V <y z>  d") ≡ Some (record { cut = 24; bare = false }) }
    ensures joined { options_in (codes "+fN-1")
        ≡ record { string = record { from = 0; to = 2 }; argument = Some (record { delimiter = Nothing; text = record { from = 2; to = 5 } }) } ∷ [] }
    ensures argument_alone { option_marker (codes "-a b") ≡ Some (record { cut = 4; bare = true }) }
    ensures digit { option_marker (codes "-1   d") ≡ Some (record { cut = 5; bare = false }) }
    ensures names { filter (λ t. is_some (option_marker (codes t))) ("--a_b-c  d" ∷ "--1  d" ∷ "/a-b  d" ∷ "--größe=Ä_1  d" ∷ "---a  d" ∷ "--_a  d"
        ∷ "--ä  d" ∷ "-ä  d" ∷ "-<a>  x" ∷ "--  d" ∷ "-  d" ∷ "/  d" ∷ "++a  d" ∷ [])
        ≡ "--a_b-c  d" ∷ "--1  d" ∷ "/a-b  d" ∷ "--größe=Ä_1  d" ∷ [] }
    ensures arguments { filter (λ t. is_some (option_marker (codes t))) ("-a <b  c>  d" ∷ "--a <>  d" ∷ "-a <b  d" ∷ "-a <b<c>  d" ∷ "-a 1  d"
        ∷ "-a=B  d" ∷ "--a= b  d" ∷ "--a=_b  d" ∷ [])
        ≡ "-a <b  c>  d" ∷ [] }
    ensures tails { filter (λ t. is_some (option_marker (codes t))) ("-a, -b" ∷ "-a <n> , -b" ∷ "-a,-b" ∷ "-a,  -b" ∷ "-a, b" ∷ "-a," ∷ "-a B c"
        ∷ "-a; -b" ∷ [])
        ≡ "-a, -b" ∷ [] }
{}

/// Lines of one punctuation character, the borders of tables, and the colons at a paragraph's end (Markup Specification, 'Sections').
pub fn lines()
    ensures adornment { adornment_of (codes "====") ≡ Some (record { character = 61; len = 4 }) }
    ensures one { adornment_of (codes "-") ≡ Some (record { character = 45; len = 1 }) }
    ensures characters { filter (λ c. is_some (adornment_of (c ∷ c ∷ []))) (codes " !\"#$%&'()*+,-./0129:;<=>?@AZ[\\]^_`az{|}~§—═")
        ≡ codes "!\"#$%&'()*+,-./:;<=>?@[\\]^_`{|}~" }
    ensures mixed { filter (λ t. is_some (adornment_of (codes t))) ("==-" ∷ "-==" ∷ "== ==" ∷ "==a" ∷ "" ∷ []) ≡ [] }
    ensures grid { filter (λ t. is_grid_border (codes t)) ("+---+" ∷ "+-+-+" ∷ "+--++--+" ∷ "+--+" ∷ "+-+" ∷ "+++-+" ∷ "+-+++" ∷ "+===+" ∷ "+- -+"
        ∷ "|---+" ∷ "+----" ∷ "+---+ |" ∷ [])
        ≡ "+---+" ∷ "+-+-+" ∷ "+--++--+" ∷ [] }
    ensures simple { filter (λ t. is_simple_border (codes t)) ("= =" ∷ "==   ===  =" ∷ "=====" ∷ " == ==" ∷ "== --" ∷ "== ==|" ∷ "-- --" ∷ "" ∷ [])
        ≡ "= =" ∷ "==   ===  =" ∷ [] }
    ensures colons { filter (λ t. ends_in_colons (codes t)) ("a::" ∷ "::" ∷ "a:::" ∷ "a\\\\::" ∷ "a\\::" ∷ "a:" ∷ ":" ∷ "a: :" ∷ "a::b" ∷ "" ∷ [])
        ≡ "a::" ∷ "::" ∷ "a:::" ∷ "a\\\\::" ∷ [] }
{}

/// The marks of attributions (Markup Specification, 'Block Quotes').
pub fn attributions()
    ensures dashes { map (λ t. attribution_of (codes t)) ("-- a" ∷ "---a" ∷ "—   a" ∷ "—- a" ∷ []) ≡ Some 3 ∷ Some 3 ∷ Some 4 ∷ Some 1 ∷ [] }
    ensures others { filter (λ t. is_some (attribution_of (codes t))) ("- a" ∷ "---- a" ∷ "– a" ∷ "--" ∷ "---" ∷ "—" ∷ "a -- b" ∷ []) ≡ [] }
{}

/// What begins explicit markup, and a directive (Markup Specification, 'Explicit Markup Blocks').
pub fn explicit_marks()
    ensures two_dots { dots (codes "..  a") ≡ Some (record { cut = 4; bare = false }) }
    ensures other_dots { map (λ t. dots (codes t)) (".." ∷ "..a" ∷ "... a" ∷ ". a" ∷ [])
        ≡ Some (record { cut = 2; bare = true }) ∷ None ∷ None ∷ None ∷ [] }
    ensures two_underscores { underscores (codes "__ a") ≡ Some (record { cut = 3; bare = false }) }
    ensures other_underscores { map (λ t. underscores (codes t)) ("__" ∷ "__a" ∷ "_ a" ∷ "___ a" ∷ [])
        ≡ Some (record { cut = 2; bare = true }) ∷ None ∷ None ∷ None ∷ [] }
    ensures directive { directive_mark_of true (codes "note::  a") ≡ Some (record { len = 4; marker = record { cut = 8; bare = false } }) }
    ensures spaced { directive_mark_of true (codes "note ::") ≡ Some (record { len = 4; marker = record { cut = 7; bare = true } }) }
    ensures not_spaced { directive_mark_of false (codes "note :: a") ≡ None }
    ensures joints { directive_mark_of false (codes "a-b_c.d:e+f:: x") ≡ Some (record { len = 11; marker = record { cut = 14; bare = false } }) }
    ensures no_directives { filter (λ t. is_some (directive_mark_of true (codes t))) ("note: a" ∷ "note::a" ∷ "note  :: a" ∷ "note : : a" ∷ "a--b:: x"
        ∷ "a-:: x" ∷ "-a:: x" ∷ ":: x" ∷ "a b:: x" ∷ [])
        ≡ [] }
{}

/// The labels of footnotes and citations (Markup Specification, 'Footnotes').
pub fn labels()
    ensures number { label_of (codes "[12] a") ≡ Some (record { kind = Footnote; len = 2; marker = record { cut = 5; bare = false } }) }
    ensures named { label_of (codes "[#a-b]") ≡ Some (record { kind = Footnote; len = 4; marker = record { cut = 6; bare = true } }) }
    ensures footnotes { map (λ t. option_map (λ l. l.kind) (label_of (codes t))) ("[#] a" ∷ "[*] a" ∷ "[#1] a" ∷ [])
        ≡ Some Footnote ∷ Some Footnote ∷ Some Footnote ∷ [] }
    ensures citations { map (λ t. option_map (λ l. l.kind) (label_of (codes t))) ("[a.b] c" ∷ "[1a] c" ∷ "[३] c" ∷ [])
        ≡ Some Citation ∷ Some Citation ∷ Some Citation ∷ [] }
    ensures comments { filter (λ t. is_some (label_of (codes t))) ("[a b] c" ∷ "[] c" ∷ "[**] c" ∷ "[*a] c" ∷ "[##] c" ∷ "[#a b] c" ∷ "[-a] c"
        ∷ "[a--b] c" ∷ "[1.] x" ∷ "[1]c" ∷ "[1 a" ∷ "1] a" ∷ [])
        ≡ [] }
{}

/// The names of targets (Markup Specification, 'Hyperlink Targets').
pub fn targets()
    ensures plain { target_of (codes "_a b: c") ≡ Some (Named 1 3 (record { cut = 6; bare = false })) }
    ensures colon_inside { target_of (codes "_a:b:") ≡ Some (Named 1 3 (record { cut = 5; bare = true })) }
    ensures colon_last { target_of (codes "_a:: u") ≡ Some (Named 1 2 (record { cut = 5; bare = false })) }
    ensures white_last { target_of (codes "_b  : u") ≡ Some (Named 1 3 (record { cut = 6; bare = false })) }
    ensures escaped { target_of (codes "_a\\: b: u") ≡ Some (Named 1 5 (record { cut = 8; bare = false })) }
    ensures quoted { target_of (codes "_`a: b`: u") ≡ Some (Named 2 4 (record { cut = 9; bare = false })) }
    ensures quoted_underscore { target_of (codes "_`_a`: u") ≡ Some (Named 2 2 (record { cut = 7; bare = false })) }
    ensures quoted_backquote { target_of (codes "_`a`:b`: u") ≡ Some (Named 2 4 (record { cut = 9; bare = false })) }
    ensures backquote_inside { target_of (codes "_a`: b") ≡ Some (Named 1 2 (record { cut = 5; bare = false })) }
    ensures anonymous { target_of (codes "__: u") ≡ Some (Anonymous (record { cut = 4; bare = false })) }
    ensures malformed { filter (λ t. is_some (target_of (codes t))) ("_: u" ∷ "_ a: u" ∷ "_a" ∷ "_a:b" ∷ "__a: u" ∷ "__:a" ∷ "_`a: u" ∷ "_`a`"
        ∷ "_`a`b: c" ∷ "_``: u" ∷ "_```: u" ∷ "_` a`: u" ∷ "a: u" ∷ [])
        ≡ [] }
{}

/// The names of substitution definitions (Markup Specification, 'Substitution Definitions').
pub fn substitutions()
    ensures named { substitution_of (codes "|a b|  image:: c") ≡ Some (Defined 3 (record { cut = 7; bare = false })) }
    ensures bar_inside { substitution_of (codes "|a|b| image:: c") ≡ Some (Defined 3 (record { cut = 6; bare = false })) }
    ensures bar_after_white { substitution_of (codes "|a | b| image:: c") ≡ Some (Defined 5 (record { cut = 8; bare = false })) }
    ensures escaped { substitution_of (codes "|a\\| b| image:: c") ≡ Some (Defined 5 (record { cut = 8; bare = false })) }
    ensures without_space { map (λ t. substitution_of (codes t)) ("|a|" ∷ "|a|x" ∷ []) ≡ Some Tight ∷ Some Tight ∷ [] }
    ensures unclosed { map (λ t. substitution_of (codes t)) ("|a" ∷ "|a |" ∷ "|a\\|" ∷ "|| b" ∷ [])
        ≡ Some Unclosed ∷ Some Unclosed ∷ Some Unclosed ∷ Some Unclosed ∷ [] }
    ensures comments { filter (λ t. is_some (substitution_of (codes t))) ("| a| b" ∷ "|" ∷ "a| b" ∷ []) ≡ [] }
{}
