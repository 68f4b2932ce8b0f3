//! Worked examples of constructs and where they end, as theorems on the definitions alone: the prover computes what a definition gives for lines
//! that are written out.
#![tactic(auto, unfolding(crate::proofs::Computing::rst_markup_blocks))]

ghost use Rattle.std.specs.Prelude.{◌≡◌, true, false, Some, None, codes, ◌∷◌, [], map};
ghost use Rattle.rst_settings.specs.Parts.{all_parts, no_parts};
ghost use Rattle.rst_text.specs.Lines.{numbered_from};
ghost use Rattle.rst_text.specs.Written.{block};
ghost use Rattle.rst_markup_blocks.specs.Attributions.{attribution_at};
ghost use Rattle.rst_markup_blocks.specs.Explicit.{explicit_of};
ghost use Rattle.rst_markup_blocks.specs.Forms.{adorned_form, text_form};
ghost use Rattle.rst_markup_blocks.specs.Kinds.{kind_at};
ghost use Rattle.rst_markup_blocks.specs.Partition.{construct_size, spans};
ghost use Rattle.rst_markup_blocks.specs.declared.form.Adorned.TheVariants.{Incomplete, InvalidMarker, Mismatch, MissingUnderline, ShortAdornment, ShortOverline, Text as AdornedText, Title as AdornedTitle, Transition, Unexpected};
ghost use Rattle.rst_markup_blocks.specs.declared.form.TextForm.TheVariants.{Definition, Paragraph, ShortUnderline, Title};
ghost use Rattle.rst_markup_blocks.specs.declared.forms.CommentCause.TheVariants.{MalformedSubstitution, MalformedTarget, Plain};
ghost use Rattle.rst_markup_blocks.specs.declared.forms.Explicit.TheVariants.{Anonymous as AnonymousTarget, Citation, Comment, Directive, EmptyComment, Footnote, Substitution, Target};
ghost use Rattle.rst_markup_blocks.specs.declared.kind.Kind.TheVariants.{Adornment, Anonymous, Blank, Bullet, Doctest, Enumerator, Explicit, Field, Grid, Line, OptionItem, Quote, Simple, Text};

/// What a line begins (Markup Specification, 'Body Elements').
pub fn kinds()
    ensures each { map (λ t. kind_at (block (t ∷ []))) ("" ∷ " - a" ∷ "- a" ∷ "1. a" ∷ ":a: b" ∷ "-a  b" ∷ ">>> a" ∷ "| a" ∷ "+---+" ∷ "= =" ∷ ".. a"
        ∷ "__ a" ∷ "==" ∷ "a" ∷ [])
        ≡ Blank ∷ Quote ∷ Bullet ∷ Enumerator ∷ Field ∷ OptionItem ∷ Doctest ∷ Line ∷ Grid ∷ Simple ∷ Explicit ∷ Anonymous ∷ Adornment ∷ Text ∷ [] }
    ensures marks_of_punctuation { map (λ t. kind_at (block (t ∷ []))) ("-" ∷ ">>>" ∷ "|" ∷ ".." ∷ "__" ∷ [])
        ≡ Bullet ∷ Doctest ∷ Line ∷ Explicit ∷ Anonymous ∷ [] }
    ensures adornments { map (λ t. kind_at (block (t ∷ []))) ("--" ∷ ">>" ∷ "||" ∷ "..." ∷ "_" ∷ "::" ∷ [])
        ≡ Adornment ∷ Adornment ∷ Adornment ∷ Adornment ∷ Adornment ∷ Adornment ∷ [] }
    ensures enumerators { map (λ next. kind_at (block ("1. a" ∷ next ∷ []))) ("" ∷ " b" ∷ "2. b" ∷ "#. b" ∷ "b" ∷ "2." ∷ "3. b" ∷ "2) b" ∷ "- b" ∷ [])
        ≡ Enumerator ∷ Enumerator ∷ Enumerator ∷ Enumerator ∷ Text ∷ Text ∷ Text ∷ Text ∷ Text ∷ [] }
    ensures options { map (λ next. kind_at (block ("-a" ∷ next ∷ "  c" ∷ []))) ("" ∷ " b" ∷ "b" ∷ []) ≡ OptionItem ∷ OptionItem ∷ Text ∷ [] }
    ensures options_alone { map (λ after. kind_at (block ("-a" ∷ "" ∷ after ∷ "  c" ∷ []))) ("b" ∷ "" ∷ []) ≡ Text ∷ Text ∷ [] }
    ensures option_with_text { kind_at (block ("-a  b" ∷ "c" ∷ [])) ≡ OptionItem }
    ensures roles { map (λ parts. map (λ t. kind_at (numbered_from parts 1 (codes t ∷ []))) (":mod:`a`: b" ∷ ":a\\:`b`: c" ∷ [])) (no_parts ∷ all_parts ∷ [])
        ≡ (Field ∷ Field ∷ []) ∷ (Text ∷ Field ∷ []) ∷ [] }
{}

/// Where items, quotes and blocks of one kind of line end (Markup Specification, 'Body Elements').
pub fn bodies()
    ensures bullet { construct_size false (block ("- a" ∷ "  b" ∷ "" ∷ "   c" ∷ "" ∷ " d" ∷ [])) ≡ 4 }
    ensures bullet_spaces { construct_size false (block ("-   a" ∷ "  b" ∷ [])) ≡ 1 }
    ensures bullet_alone { construct_size false (block ("-" ∷ "" ∷ "  a" ∷ " b" ∷ "c" ∷ [])) ≡ 4 }
    ensures enumerator { construct_size false (block ("10. a" ∷ "    b" ∷ "   c" ∷ [])) ≡ 2 }
    ensures enumerator_alone { construct_size false (block ("a)" ∷ " b" ∷ "" ∷ "c" ∷ [])) ≡ 2 }
    ensures field { construct_size false (block (":a: b" ∷ " c" ∷ "" ∷ "    d" ∷ "" ∷ "e" ∷ [])) ≡ 4 }
    ensures option { construct_size false (block ("-a" ∷ "" ∷ "   b" ∷ " c" ∷ "d" ∷ [])) ≡ 4 }
    ensures doctest { construct_size false (block (">>> 1" ∷ "  2" ∷ "a" ∷ "" ∷ "  b" ∷ [])) ≡ 3 }
    ensures line { construct_size false (block ("| a" ∷ " b" ∷ "" ∷ " c" ∷ [])) ≡ 2 }
    ensures lines { construct_size false (block ("| a" ∷ "| b" ∷ [])) ≡ 1 }
    ensures quote { construct_size false (block ("   a" ∷ "" ∷ " b" ∷ "" ∷ "c" ∷ [])) ≡ 3 }
    ensures definition { construct_size false (block ("a" ∷ "   b" ∷ "" ∷ " c" ∷ "d" ∷ [])) ≡ 4 }
{}

/// Where paragraphs end, with the literal blocks that they announce (Markup Specification, 'Paragraphs').
pub fn paragraphs()
    ensures blank { construct_size false (block ("a" ∷ "- b" ∷ "" ∷ "c" ∷ [])) ≡ 2 }
    ensures indented { construct_size false (block ("a" ∷ "b" ∷ "  c" ∷ "d" ∷ [])) ≡ 2 }
    ensures literal { construct_size false (block ("a::" ∷ "" ∷ "  b" ∷ "" ∷ " c" ∷ "" ∷ "d" ∷ [])) ≡ 5 }
    ensures literal_below { construct_size false (block ("a" ∷ "b::" ∷ "  c" ∷ "" ∷ "d" ∷ [])) ≡ 3 }
    ensures literal_of_the_first_line { construct_size false (block ("a::" ∷ "b" ∷ "" ∷ "  c" ∷ [])) ≡ 2 }
    ensures literal_escaped { construct_size false (block ("a\\::" ∷ "" ∷ "  c" ∷ [])) ≡ 1 }
    ensures definition_with_colons { construct_size false (block ("a::" ∷ "  b" ∷ "c" ∷ [])) ≡ 2 }
    ensures quoted { construct_size false (block ("a::" ∷ "" ∷ "> b" ∷ ">c" ∷ "- d" ∷ [])) ≡ 4 }
    ensures quoted_to_blank { construct_size false (block ("a::" ∷ "" ∷ "" ∷ "- b" ∷ "" ∷ "- c" ∷ [])) ≡ 4 }
    ensures quoted_by_letters { construct_size false (block ("a::" ∷ "" ∷ "b" ∷ "b" ∷ [])) ≡ 1 }
    ensures title { construct_size false (block ("a" ∷ "=" ∷ "b" ∷ [])) ≡ 2 }
    ensures short_underline { construct_size true (block ("abcd" ∷ "===" ∷ "e" ∷ "" ∷ [])) ≡ 3 }
{}

/// What a text is, by the line below it (Markup Specification, 'Sections').
pub fn texts()
    ensures wide { text_form (codes "日本") (codes "====") ≡ Title false }
    ensures wider { text_form (codes "日本a") (codes "====") ≡ Title true }
    ensures short { text_form (codes "abcd") (codes "===") ≡ ShortUnderline }
    ensures as_long { text_form (codes "ab") (codes "--") ≡ Title false }
    ensures others { map (λ next. text_form (codes "a") (codes next)) ("b" ∷ "" ∷ " b" ∷ " =" ∷ "=-" ∷ [])
        ≡ Paragraph ∷ Paragraph ∷ Definition ∷ Definition ∷ Paragraph ∷ [] }
{}

/// What a line of one punctuation character is, by the lines below it (Markup Specification, 'Sections').
pub fn adornments()
    ensures transition { adorned_form true (record { character = 45; len = 4 }) (codes "") (Some (codes "a")) ≡ Transition }
    ensures three_alone { adorned_form true (record { character = 45; len = 3 }) (codes "") None ≡ AdornedText }
    ensures invalid { adorned_form true (record { character = 45; len = 4 }) (codes "=") (Some (codes "----")) ≡ InvalidMarker }
    ensures incomplete { adorned_form true (record { character = 61; len = 4 }) (codes "a") None ≡ Incomplete }
    ensures missing { map (λ after. adorned_form true (record { character = 61; len = 4 }) (codes "a") (Some (codes after))) ("" ∷ "b" ∷ " ====" ∷ [])
        ≡ MissingUnderline true ∷ MissingUnderline false ∷ MissingUnderline false ∷ [] }
    ensures mismatch { map (λ after. adorned_form true (record { character = 61; len = 4 }) (codes "a") (Some (codes after))) ("----" ∷ "====="
        ∷ "===" ∷ [])
        ≡ Mismatch ∷ Mismatch ∷ Mismatch ∷ [] }
    ensures titles { map (λ t. adorned_form true (record { character = 61; len = 4 }) (codes t) (Some (codes "===="))) ("abcd" ∷ " abc" ∷ " abcd"
        ∷ "日本" ∷ "日本a" ∷ [])
        ≡ AdornedTitle false ∷ AdornedTitle false ∷ AdornedTitle true ∷ AdornedTitle false ∷ AdornedTitle true ∷ [] }
    ensures short_title { adorned_form true (record { character = 61; len = 3 }) (codes "abc") (Some (codes "===")) ≡ AdornedTitle false }
    ensures short { map (λ after. adorned_form true (record { character = 61; len = 3 }) (codes "abcd") (Some (codes after))) ("===" ∷ "---" ∷ "b"
        ∷ "" ∷ [])
        ≡ ShortOverline ∷ ShortOverline ∷ ShortOverline ∷ ShortOverline ∷ [] }
    ensures short_over_adornment { adorned_form true (record { character = 61; len = 2 }) (codes "====") None ≡ ShortOverline }
    ensures below { map (λ len. adorned_form false (record { character = 61; len = len }) (codes "") None) (2 ∷ 3 ∷ 4 ∷ [])
        ≡ ShortAdornment ∷ ShortAdornment ∷ Unexpected ∷ [] }
    ensures colons_below { map (λ len. adorned_form false (record { character = 58; len = len }) (codes "a") None) (1 ∷ 2 ∷ 3 ∷ 4 ∷ [])
        ≡ ShortAdornment ∷ AdornedText ∷ ShortAdornment ∷ Unexpected ∷ [] }
    ensures colons_at_the_top { adorned_form true (record { character = 58; len = 2 }) (codes "a") None ≡ ShortOverline }
{}

/// How many lines a line of one punctuation character takes with it (Markup Specification, 'Sections').
pub fn adorned()
    ensures transition { construct_size true (block ("----" ∷ "" ∷ "a" ∷ [])) ≡ 1 }
    ensures overlined { construct_size true (block ("===" ∷ " a" ∷ "===" ∷ "b" ∷ [])) ≡ 3 }
    ensures invalid { construct_size true (block ("----" ∷ "====" ∷ "a" ∷ [])) ≡ 2 }
    ensures missing { construct_size true (block ("====" ∷ "a" ∷ "b" ∷ "c" ∷ [])) ≡ 3 }
    ensures missing_before_blank { construct_size true (block ("====" ∷ "a" ∷ "" ∷ "b" ∷ [])) ≡ 2 }
    ensures incomplete { construct_size true (block ("====" ∷ "a" ∷ [])) ≡ 2 }
    ensures unexpected { construct_size false (block ("====" ∷ "a" ∷ "====" ∷ [])) ≡ 1 }
    ensures short_overline { construct_size true (block ("==" ∷ "====" ∷ "a" ∷ [])) ≡ 2 }
    ensures short_text { construct_size true (block ("==" ∷ "abc" ∷ "==" ∷ "d" ∷ [])) ≡ 4 }
    ensures short_below { construct_size false (block ("==" ∷ "  a" ∷ "b" ∷ [])) ≡ 2 }
    ensures colons { construct_size false (block ("::" ∷ "" ∷ "  a" ∷ "b" ∷ [])) ≡ 3 }
{}

/// Where tables end (Markup Specification, 'Grid Tables').
pub fn tables()
    ensures grid { construct_size false (block ("+---+" ∷ "| a |" ∷ "+---+" ∷ "| b |" ∷ "+---+" ∷ "| c |" ∷ "" ∷ [])) ≡ 5 }
    ensures grid_before_text { construct_size false (block ("+---+" ∷ "| a |" ∷ "+---+" ∷ "b" ∷ "+---+" ∷ [])) ≡ 3 }
    ensures grid_without_bottom { construct_size false (block ("+---+" ∷ "+---+" ∷ "| a |" ∷ "+===+" ∷ "b" ∷ [])) ≡ 4 }
    ensures simple { construct_size false (block ("= =" ∷ "a b" ∷ "= =" ∷ "" ∷ "c d" ∷ "= =" ∷ [])) ≡ 3 }
    ensures simple_at_the_end { construct_size false (block ("= =" ∷ "a b" ∷ "" ∷ "= =" ∷ [])) ≡ 4 }
    ensures simple_with_head { construct_size false (block ("= =" ∷ "a b" ∷ "= =" ∷ "c d" ∷ "" ∷ "e f" ∷ "= =" ∷ "g" ∷ [])) ≡ 7 }
    ensures simple_other_length { construct_size false (block ("= =" ∷ "a b" ∷ "= ==" ∷ "c d" ∷ "= =" ∷ [])) ≡ 3 }
    ensures simple_other_bottom { construct_size false (block ("= =" ∷ "a b" ∷ "===" ∷ "c d" ∷ "====" ∷ "e f" ∷ "= =" ∷ [])) ≡ 5 }
    ensures simple_without_bottom { construct_size false (block ("= =" ∷ "a b" ∷ "= =" ∷ "c d" ∷ "" ∷ "e" ∷ [])) ≡ 3 }
    ensures simple_without_border { construct_size false (block ("= =" ∷ "a b" ∷ "" ∷ "c" ∷ [])) ≡ 4 }
{}

/// The attributions of block quotes, at line 2 of a quote (Markup Specification, 'Block Quotes').
pub fn attributions()
    ensures one_line { attribution_at 2 (block ("--  a" ∷ "" ∷ "  b" ∷ [])) ≡ Some (record { marker = 4; end = 3; indent = 0 }) }
    ensures three_lines { attribution_at 2 (block ("-- a" ∷ "   b" ∷ "   c" ∷ "" ∷ "d" ∷ [])) ≡ Some (record { marker = 3; end = 5; indent = 3 }) }
    ensures not_indented { attribution_at 2 (block ("—a" ∷ "b" ∷ [])) ≡ Some (record { marker = 1; end = 4; indent = 0 }) }
    ensures second_mark { attribution_at 2 (block ("--- b" ∷ "---- c" ∷ [])) ≡ Some (record { marker = 4; end = 4; indent = 0 }) }
    ensures uneven { attribution_at 2 (block ("-- a" ∷ "   b" ∷ "  c" ∷ [])) ≡ None }
{}

/// Explicit markup, and where its parts are (Markup Specification, 'Explicit Markup Blocks').
pub fn explicit_markup()
    ensures footnote { explicit_of 2 (block (".. [1] a" ∷ "   b" ∷ "" ∷ "  c" ∷ "d" ∷ []))
        ≡ Footnote (record { from = 4; to = 5 }) (record { from = 2; to = 6; first_cut = 7; rest_cut = 2 }) }
    ensures citation { explicit_of 0 (block ("..  [a]" ∷ "" ∷ "   b" ∷ "  c" ∷ []))
        ≡ Citation (record { from = 5; to = 6 }) (record { from = 2; to = 4; first_cut = 2; rest_cut = 2 }) }
    ensures footnote_alone { explicit_of 0 (block (".. [1]" ∷ "" ∷ "a" ∷ []))
        ≡ Footnote (record { from = 4; to = 5 }) (record { from = 1; to = 1; first_cut = 0; rest_cut = 0 }) }
    ensures target { explicit_of 0 (block (".. _a b: c" ∷ "   d" ∷ "" ∷ "   e" ∷ []))
        ≡ Target (record { from = 4; to = 7 }) (record { from = 0; to = 2; first_cut = 9; rest_cut = 0 }) }
    ensures anonymous { explicit_of 0 (block (".. __: a" ∷ "b" ∷ [])) ≡ AnonymousTarget (record { from = 0; to = 1; first_cut = 7; rest_cut = 0 }) }
    ensures underscores { explicit_of 3 (block ("__ a" ∷ "  b" ∷ "" ∷ "  c" ∷ []))
        ≡ AnonymousTarget (record { from = 3; to = 5; first_cut = 3; rest_cut = 0 }) }
    ensures underscores_alone { explicit_of 0 (block ("__" ∷ "  x" ∷ []))
        ≡ AnonymousTarget (record { from = 0; to = 2; first_cut = 2; rest_cut = 0 }) }
    ensures substitution { explicit_of 0 (block (".. |a| image:: b" ∷ "" ∷ "  c" ∷ "d" ∷ []))
        ≡ Substitution (record { from = 4; to = 5 }) (Some (record {
          name = record { from = 7; to = 12 };
          block = record { from = 0; to = 3; first_cut = 15; rest_cut = 2 };
        })) 3 }
    ensures substitution_of_nothing { map (λ t. explicit_of 0 (block (t ∷ []))) (".. |a| image" ∷ ".. |a| image :: b" ∷ [])
        ≡ Substitution (record { from = 4; to = 5 }) None 1 ∷ Substitution (record { from = 4; to = 5 }) None 1 ∷ [] }
    ensures directive { explicit_of 0 (block (".. note:: a" ∷ "   b" ∷ "" ∷ "     c" ∷ "d" ∷ []))
        ≡ Directive (record { name = record { from = 3; to = 7 }; block = record { from = 0; to = 4; first_cut = 10; rest_cut = 3 } }) }
    ensures directive_alone { explicit_of 0 (block (".. note ::" ∷ "" ∷ "" ∷ "   a" ∷ "  b" ∷ []))
        ≡ Directive (record { name = record { from = 3; to = 7 }; block = record { from = 3; to = 5; first_cut = 2; rest_cut = 2 } }) }
    ensures any_name { explicit_of 0 (block (".. a:: b" ∷ []))
        ≡ Directive (record { name = record { from = 3; to = 4 }; block = record { from = 0; to = 1; first_cut = 7; rest_cut = 0 } }) }
{}

/// Comments: their texts, and what makes them comments (Markup Specification, 'Comments').
pub fn comments()
    ensures plain { explicit_of 0 (block ("..  a: b" ∷ "      c" ∷ "" ∷ "   d" ∷ "e" ∷ []))
        ≡ Comment (record { from = 0; to = 4; first_cut = 4; rest_cut = 3 }) Plain }
    ensures below { explicit_of 0 (block (".." ∷ "  _a" ∷ "" ∷ "   b" ∷ []))
        ≡ Comment (record { from = 1; to = 4; first_cut = 2; rest_cut = 2 }) Plain }
    ensures empty { explicit_of 0 (block (".." ∷ "" ∷ "   a" ∷ [])) ≡ EmptyComment }
    ensures empty_at_the_end { explicit_of 0 (block (".." ∷ [])) ≡ EmptyComment }
    ensures before_text { explicit_of 0 (block (".." ∷ "a" ∷ [])) ≡ Comment (record { from = 1; to = 1; first_cut = 0; rest_cut = 0 }) Plain }
    ensures malformed_targets { map (λ t. explicit_of 0 (block (t ∷ []))) (".. _a" ∷ ".. _" ∷ [])
        ≡ Comment (record { from = 0; to = 1; first_cut = 3; rest_cut = 0 }) MalformedTarget
        ∷ Comment (record { from = 0; to = 1; first_cut = 3; rest_cut = 0 }) MalformedTarget ∷ [] }
    ensures malformed_substitution { explicit_of 0 (block (".. |a" ∷ []))
        ≡ Comment (record { from = 0; to = 1; first_cut = 3; rest_cut = 0 }) MalformedSubstitution }
    ensures tight_substitution { explicit_of 0 (block (".. |a|b" ∷ [])) ≡ Comment (record { from = 0; to = 1; first_cut = 3; rest_cut = 0 }) Plain }
    ensures empty_comment_size { construct_size false (block (".." ∷ "" ∷ "   a" ∷ [])) ≡ 1 }
    ensures comment_size { construct_size false (block (".." ∷ " a" ∷ "" ∷ "   b" ∷ "c" ∷ [])) ≡ 4 }
    ensures target_size { construct_size false (block (".. _a:" ∷ " b" ∷ "" ∷ " c" ∷ [])) ≡ 2 }
    ensures underscores_size { construct_size false (block ("__ a" ∷ " b" ∷ "" ∷ " c" ∷ [])) ≡ 2 }
{}

/// All constructs of a text (Markup Specification, 'Body Elements').
pub fn constructs()
    ensures document { spans true (block ("" ∷ "A" ∷ "=" ∷ "" ∷ "a::" ∷ "" ∷ " b" ∷ "" ∷ "- c" ∷ "" ∷ "- d" ∷ "e" ∷ " f" ∷ []))
        ≡ record { start = 1; stop = 3 } ∷ record { start = 4; stop = 7 } ∷ record { start = 8; stop = 9 } ∷ record { start = 10; stop = 11 }
        ∷ record { start = 11; stop = 13 } ∷ [] }
{}
