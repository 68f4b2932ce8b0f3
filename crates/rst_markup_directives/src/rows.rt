//! Worked examples of directives, their options and what is wrong with them, as theorems on the definitions alone: the prover computes what a
//! definition gives for a text that is written out.
#![tactic(auto, unfolding(crate::proofs::Computing::rst_markup_directives))]

ghost use Rattle.std.specs.Prelude.{◌≡◌, is_ok, option_map, true, false, Some, None, Ok, Err, codes, ◌∷◌, ◌++◌, [], map, filter, is_some};
ghost use Rattle.rst_settings.specs.Parts.{all_parts, no_parts};
ghost use Rattle.rst_text.specs.Written.{block};
ghost use Rattle.rst_tree.specs.declared.note.Level.TheVariants.{Error, Warning};
ghost use Rattle.rst_tree.specs.declared.tag.Tag.TheVariants as tag;
ghost use Rattle.rst_markup_directives.specs.Argument.{argument_of, classes, formats, language, nothing, title, uri};
ghost use Rattle.rst_markup_directives.specs.Directive.{directive_at, directive_of, found, read_block, wrong};
ghost use Rattle.rst_markup_directives.specs.Judgement.{content_fault, option_fault, permitted};
ghost use Rattle.rst_markup_directives.specs.Measure.{alignment_of, measure_of, scale_of};
ghost use Rattle.rst_markup_directives.specs.Message.{fault_level, fault_text, wrong_text};
ghost use Rattle.rst_markup_directives.specs.Kind.{directive_named, has_option, is_wider_directive, kind, quote_class};
ghost use Rattle.rst_markup_directives.specs.OptionName.{option_named};
ghost use Rattle.rst_markup_directives.specs.Options.{fields_in};
ghost use Rattle.rst_markup_directives.specs.Target.{located, named, target_value};
ghost use Rattle.rst_markup_directives.specs.Value.{called, classed, ids_of, led_back, linked, measured, numbered, placed, plain, sized, option_meaning};
ghost use Rattle.rst_markup_directives.specs.Widths.{auto, columns_class, drawn, given};
ghost use Rattle.rst_markup_directives.specs.Wrong.{disabled, duplicate, inside, invalid, invalid_classes, lone_subtitle, many_arguments, no_argument, no_content, no_rows, no_table, not_in_substitution, option_block, replace_not_here, sidebar_not_here, topic_not_here, unknown, unknown_directive};
ghost use Rattle.rst_markup_directives.specs.Wrong as faults;
ghost use Rattle.rst_markup_directives.specs.declared.contents.Backlinks.TheVariants as back;
ghost use Rattle.rst_markup_directives.specs.declared.fault.Detail.TheVariants.{ContentNotPermitted, NotOneParagraph};
ghost use Rattle.rst_markup_directives.specs.declared.fault.DirectiveFault.TheVariants.{Disabled, Inside, LoneSubtitle, NoContent, NoRows, NoTable, NotInSubstitution, ReplaceNotHere, SidebarNotHere, TopicNotHere, Unknown};
ghost use Rattle.rst_markup_directives.specs.declared.found.Place.TheVariants.{Body, Substitution, Top as Sections};
ghost use Rattle.rst_markup_directives.specs.declared.measure.Alignment.TheVariants.{Bottom, Center, Left, Middle, Right, Top};
ghost use Rattle.rst_markup_directives.specs.declared.kind.Allowed.TheVariants as allowed;
ghost use Rattle.rst_markup_directives.specs.declared.kind.ArgumentKind.TheVariants.{Absent, Classes, Formats, OptionalClasses, Language, OptionalTitle, Title, Uri};
ghost use Rattle.rst_markup_directives.specs.declared.kind.ContentKind.TheVariants.{Blocks, Caption, Classed, Empty, Entries, Lines, Marked, Paragraph, Formulas, Verse, Quotes, Rows, OneTable};
ghost use Rattle.rst_markup_directives.specs.declared.kind.QuoteClass.TheVariants.{Epigraph, Highlights, PullQuote};
ghost use Rattle.rst_markup_directives.specs.declared.kind.OptionSet.TheVariants.{Common, Contents, Empty as NoOptions, Figure, Image, Include, ListTable, NameAlone, Raw as RawOptions, Sidebar as SidebarOptions, Table as TableOptions};
ghost use Rattle.rst_markup_directives.specs.declared.option.OptionName.TheVariants.{Align, Alt, Backlinks, Class, Depth, FigureClass, FigureWidth, File, HeaderRows, Height, Inclusion, Local, Name as NameOption, Scale, StubColumns, Subtitle, Target, Url, Width, Widths};

/// Which directive a name is of (Markup Specification, 'Directives').
pub fn names()
    ensures admonitions { map (λ t. directive_named no_parts (codes t) false) ("attention" ∷ "caution" ∷ "danger" ∷ "error" ∷ "hint" ∷ "important" ∷ "note" ∷ "tip" ∷ "warning" ∷ [])
        ≡ map (λ element. Some (kind element Absent Common Blocks allowed.Body)) (tag.Attention ∷ tag.Caution ∷ tag.Danger ∷ tag.Error ∷ tag.Hint
        ∷ tag.Important ∷ tag.Note ∷ tag.Tip ∷ tag.Warning ∷ []) }
    ensures titled { map (λ t. directive_named no_parts (codes t) false) ("admonition" ∷ "topic" ∷ [])
        ≡ Some (kind tag.Admonition Title Common Blocks allowed.Body) ∷ Some (kind tag.Topic Title Common Blocks allowed.Sections) ∷ [] }
    ensures images { map (λ t. directive_named no_parts (codes t) false) ("image" ∷ "figure" ∷ [])
        ≡ Some (kind tag.Image Uri Image Empty allowed.Anywhere) ∷ Some (kind tag.Figure Uri Figure Caption allowed.Body) ∷ [] }
    ensures replace { directive_named no_parts (codes "replace") false ≡ Some (kind tag.Paragraph Absent NoOptions Paragraph allowed.Substitution) }
    ensures code { map (λ t. directive_named no_parts (codes t) true) ("code" ∷ "code-block" ∷ "sourcecode" ∷ [])
        ≡ (let code = Some (kind tag.LiteralBlock Language Common Lines allowed.Body) in code ∷ code ∷ code ∷ []) }
    ensures no_code { map (λ t. directive_named no_parts (codes t) false) ("code" ∷ "code-block" ∷ "sourcecode" ∷ []) ≡ None ∷ None ∷ None ∷ [] }
    ensures case_of_letters { map (λ t. directive_named no_parts (codes t) true) ("NoTe" ∷ "Code-Block" ∷ "tıp" ∷ [])
        ≡ Some (kind tag.Note Absent Common Blocks allowed.Body) ∷ Some (kind tag.LiteralBlock Language Common Lines allowed.Body) ∷ None ∷ [] }
    ensures further { map (λ t. directive_named all_parts (codes t) false) ("rubric" ∷ "raw" ∷ "parsed-literal" ∷ "include" ∷ "compound"
        ∷ "container" ∷ "Class" ∷ "line-block" ∷ "math" ∷ [])
        ≡ Some (kind tag.Rubric Title Common Empty allowed.Body) ∷ Some (kind tag.Raw Formats RawOptions Lines allowed.Anywhere)
        ∷ Some (kind tag.LiteralBlock Absent Common Marked allowed.Body) ∷ Some (kind tag.LiteralBlock Title Include Empty allowed.Nowhere)
        ∷ Some (kind tag.Compound Absent Common Blocks allowed.Body) ∷ Some (kind tag.Container OptionalClasses NameAlone Blocks allowed.Body)
        ∷ Some (kind tag.Class Classes NoOptions Classed allowed.Body)
        ∷ Some (kind tag.LineBlock Absent Common Verse allowed.Body) ∷ Some (kind tag.MathBlock Absent Common Formulas allowed.Body) ∷ [] }
    ensures sidebar { directive_named all_parts (codes "Sidebar") false ≡ Some (kind tag.Sidebar OptionalTitle SidebarOptions Blocks allowed.Beside) }
    ensures contents { directive_named all_parts (codes "Contents") false ≡ Some (kind tag.Topic OptionalTitle Contents Entries allowed.Beside) }
    ensures table { directive_named all_parts (codes "TABLE") false ≡ Some (kind tag.Table OptionalTitle TableOptions OneTable allowed.Body) }
    ensures list_table { directive_named all_parts (codes "List-Table") false ≡ Some (kind tag.Table OptionalTitle ListTable Rows allowed.Body) }
    ensures quotes { map (λ t. directive_named all_parts (codes t) false) ("epigraph" ∷ "highlights" ∷ "Pull-Quote" ∷ "pullquote" ∷ [])
        ≡ Some (kind tag.BlockQuote Absent NoOptions (Quotes Epigraph) allowed.Body) ∷ Some (kind tag.BlockQuote Absent NoOptions (Quotes Highlights) allowed.Body)
        ∷ Some (kind tag.BlockQuote Absent NoOptions (Quotes PullQuote) allowed.Body) ∷ None ∷ [] }
    ensures quote_classes { map (λ class. quote_class class) (Epigraph ∷ Highlights ∷ PullQuote ∷ []) ≡ codes "epigraph" ∷ codes "highlights" ∷ codes "pull-quote" ∷ [] }
    ensures without_their_part { filter (λ t. is_some (directive_named (record all_parts { directives = false }) (codes t) true)) ("rubric" ∷ "raw"
        ∷ "parsed-literal" ∷ "include" ∷ "compound" ∷ "container" ∷ "class" ∷ "sidebar" ∷ "epigraph" ∷ "highlights" ∷ "pull-quote" ∷ "line-block" ∷ "math" ∷ "contents"
        ∷ "table" ∷ "list-table" ∷ [])
        ≡ [] }
    ensures wider { filter (λ t. is_wider_directive (codes t)) ("note" ∷ "code" ∷ "Raw" ∷ "PARSED-literal" ∷ "ra" ∷ "raws" ∷ "Math" ∷ "" ∷ []) ≡ "Raw" ∷ "PARSED-literal" ∷ "Math" ∷ [] }
    ensures left_out { filter (λ t. is_some (directive_named no_parts (codes t) true)) ("raw" ∷ "include" ∷ "table" ∷ "csv-table" ∷ "list-table" ∷ "math"
        ∷ "contents" ∷ "class" ∷ "compound" ∷ "container" ∷ "line-block" ∷ "rubric" ∷ "sidebar" ∷ "parsed-literal" ∷ "role" ∷ "unicode" ∷ "date" ∷ "notes" ∷ "not" ∷ [])
        ≡ [] }
{}

/// Which options the directives have (Directives, 'Common Options').
pub fn option_names()
    ensures each { map (λ t. option_named (codes t)) ("alt" ∷ "height" ∷ "width" ∷ "scale" ∷ "align" ∷ "target" ∷ "class" ∷ "name" ∷ "figwidth" ∷ "figclass" ∷ "file" ∷ "url" ∷ [])
        ≡ Some Alt ∷ Some Height ∷ Some Width ∷ Some Scale ∷ Some Align ∷ Some Target ∷ Some Class ∷ Some NameOption ∷ Some FigureWidth
        ∷ Some FigureClass ∷ Some File ∷ Some Url ∷ [] }
    ensures inclusion { map (λ t. option_named (codes t)) ("literal" ∷ "code" ∷ "number-lines" ∷ "start-line" ∷ "end-line" ∷ "start-after" ∷ "end-before"
        ∷ "tab-width" ∷ "encoding" ∷ "parser" ∷ [])
        ≡ (let own = Some Inclusion in own ∷ own ∷ own ∷ own ∷ own ∷ own ∷ own ∷ own ∷ None ∷ None ∷ []) }
    ensures subtitle { map (λ t. option_named (codes t)) ("SubTitle" ∷ "title" ∷ []) ≡ Some Subtitle ∷ None ∷ [] }
    ensures of_a_sidebar { filter (λ o. has_option SidebarOptions o) (Alt ∷ Class ∷ NameOption ∷ Subtitle ∷ File ∷ []) ≡ Class ∷ NameOption ∷ Subtitle ∷ [] }
    ensures subtitles { filter (λ d. has_option d Subtitle) (NoOptions ∷ Common ∷ NameAlone ∷ SidebarOptions ∷ RawOptions ∷ Include ∷ Image ∷ Figure ∷ [])
        ≡ SidebarOptions ∷ [] }
    ensures of_contents { filter (λ o. has_option Contents o) (Alt ∷ Class ∷ NameOption ∷ Depth ∷ Local ∷ Backlinks ∷ Inclusion ∷ [])
        ≡ Class ∷ Depth ∷ Local ∷ Backlinks ∷ [] }
    ensures contents { map (λ t. option_named (codes t)) ("depth" ∷ "Local" ∷ "backlinks" ∷ []) ≡ Some Depth ∷ Some Local ∷ Some Backlinks ∷ [] }
    ensures of_contents_alone { filter (λ o. has_option Figure o) (Depth ∷ Local ∷ Backlinks ∷ []) ≡ [] }
    ensures of_a_table { filter (λ o. has_option TableOptions o) (Alt ∷ Height ∷ Width ∷ Align ∷ Class ∷ NameOption ∷ Depth ∷ HeaderRows ∷ StubColumns ∷ Widths ∷ [])
        ≡ Width ∷ Align ∷ Class ∷ NameOption ∷ Widths ∷ [] }
    ensures of_tables { filter (λ o. has_option ListTable o) (Alt ∷ Height ∷ Width ∷ Align ∷ Class ∷ NameOption ∷ Depth ∷ HeaderRows ∷ StubColumns ∷ Widths ∷ [])
        ≡ Width ∷ Align ∷ Class ∷ NameOption ∷ HeaderRows ∷ StubColumns ∷ Widths ∷ [] }
    ensures tables { map (λ t. option_named (codes t)) ("header-rows" ∷ "Stub-Columns" ∷ "widths" ∷ []) ≡ Some HeaderRows ∷ Some StubColumns ∷ Some Widths ∷ [] }
    ensures of_tables_alone { filter (λ o. has_option Figure o) (HeaderRows ∷ StubColumns ∷ Widths ∷ []) ≡ [] }
    ensures case_of_letters { map (λ t. option_named (codes t)) ("FigWidth" ∷ "alt text" ∷ "number-line" ∷ []) ≡ Some FigureWidth ∷ None ∷ None ∷ [] }
    ensures image { filter (λ o. has_option Image o) (Alt ∷ Height ∷ Width ∷ Scale ∷ Align ∷ Target ∷ Class ∷ NameOption ∷ FigureWidth ∷ FigureClass
        ∷ Inclusion ∷ [])
        ≡ Alt ∷ Height ∷ Width ∷ Scale ∷ Align ∷ Target ∷ Class ∷ NameOption ∷ [] }
    ensures figure { filter (λ o. has_option Figure o) (Alt ∷ Target ∷ Class ∷ NameOption ∷ FigureWidth ∷ FigureClass ∷ Inclusion ∷ [])
        ≡ Alt ∷ Target ∷ Class ∷ NameOption ∷ FigureWidth ∷ FigureClass ∷ [] }
    ensures raw { filter (λ o. has_option RawOptions o) (Alt ∷ Class ∷ NameOption ∷ File ∷ Url ∷ []) ≡ Class ∷ File ∷ Url ∷ [] }
    ensures files { filter (λ d. has_option d File) (NoOptions ∷ Common ∷ RawOptions ∷ Include ∷ Image ∷ Figure ∷ []) ≡ RawOptions ∷ [] }
    ensures of_include { filter (λ o. has_option Include o) (Alt ∷ Class ∷ NameOption ∷ File ∷ Inclusion ∷ []) ≡ Class ∷ NameOption ∷ Inclusion ∷ [] }
    ensures common { filter (λ o. has_option Common o) (Alt ∷ Scale ∷ Align ∷ Target ∷ Class ∷ NameOption ∷ FigureClass ∷ []) ≡ Class ∷ NameOption ∷ [] }
    ensures name_alone { filter (λ o. has_option NameAlone o) (Alt ∷ Class ∷ NameOption ∷ File ∷ []) ≡ NameOption ∷ [] }
    ensures none { filter (λ o. has_option NoOptions o) (Alt ∷ Class ∷ NameOption ∷ []) ≡ [] }
{}

/// Measures, scales and alignments (Markup Specification, 'Length Units').
pub fn measures()
    ensures units { filter (λ unit. is_some (measure_of (codes "2" ++ codes unit) false false)) ("" ∷ "em" ∷ "ex" ∷ "px" ∷ "in" ∷ "cm" ∷ "mm" ∷ "pt"
        ∷ "pc" ∷ "%" ∷ "PX" ∷ "rem" ∷ "e" ∷ [])
        ≡ "" ∷ "em" ∷ "ex" ∷ "px" ∷ "in" ∷ "cm" ∷ "mm" ∷ "pt" ∷ "pc" ∷ [] }
    ensures spaces { measure_of (codes "1.50  em") true false ≡ Some (codes "1.50em") }
    ensures percent { measure_of (codes "50 %") true false ≡ Some (codes "50%") }
    ensures without_unit { measure_of (codes "300") true false ≡ Some (codes "300") }
    ensures pixels { map (λ t. measure_of (codes t) true true) ("300" ∷ "30%" ∷ []) ≡ Some (codes "300px") ∷ Some (codes "30%") ∷ [] }
    ensures numbers { filter (λ t. is_some (measure_of (codes t) true false)) ("5." ∷ ".5" ∷ "1.5.2" ∷ "1,5" ∷ "-1" ∷ "1 2" ∷ "px" ∷ "1p x" ∷ "" ∷ []) ≡ [] }
    ensures scales { map (λ t. scale_of (codes t)) ("50" ∷ "050" ∷ "50%" ∷ "50  %" ∷ "999999999" ∷ [])
        ≡ Some 50 ∷ Some 50 ∷ Some 50 ∷ Some 50 ∷ Some 999999999 ∷ [] }
    ensures no_scales { filter (λ t. is_some (scale_of (codes t))) ("1000000000" ∷ "5.5" ∷ "%" ∷ "50 px" ∷ "50%%" ∷ "-5" ∷ "" ∷ []) ≡ [] }
    ensures alignments { map (λ t. alignment_of (codes t) true) ("top" ∷ "middle" ∷ "bottom" ∷ "left" ∷ "center" ∷ "right" ∷ [])
        ≡ Some Top ∷ Some Middle ∷ Some Bottom ∷ Some Left ∷ Some Center ∷ Some Right ∷ [] }
    ensures not_vertical { filter (λ t. is_some (alignment_of (codes t) false)) ("top" ∷ "middle" ∷ "bottom" ∷ "left" ∷ "center" ∷ "right" ∷ [])
        ≡ "left" ∷ "center" ∷ "right" ∷ [] }
    ensures exact_words { filter (λ t. is_some (alignment_of (codes t) true)) ("Left" ∷ "centre" ∷ "left right" ∷ "" ∷ []) ≡ [] }
{}

/// What the text of a target leads to (Markup Specification, 'Hyperlink Targets').
pub fn targets()
    ensures name { target_value (codes "a-b_") ≡ Some (named (codes "a-b")) }
    ensures phrase { target_value (codes "`A  b\\_`_") ≡ Some (named (codes "A  b_")) }
    ensures phrase_of_two_lines { target_value (codes "`a\n   b`_") ≡ Some (named (codes "a\nb")) }
    ensures embedded { target_value (codes "`a <b>`_") ≡ Some (named (codes "a <b>")) }
    ensures escaped_backquote { target_value (codes "`a\\`b`_") ≡ Some (named (codes "a`b")) }
    ensures lines { target_value (codes "http://a.org/ b\n\n  c") ≡ Some (located (codes "http://a.org/bc")) }
    ensures escaped_underscore { target_value (codes "a\\_") ≡ Some (located (codes "a_")) }
    ensures two_underscores { target_value (codes "a__") ≡ Some (located (codes "a__")) }
    ensures two_words { target_value (codes "a b_") ≡ Some (located (codes "ab_")) }
    ensures two_lines { target_value (codes "u\nv_") ≡ Some (located (codes "uv_")) }
    ensures two_phrases { target_value (codes "`a` `b`_") ≡ Some (located (codes "`a``b`_")) }
    ensures phrase_with_a_space { target_value (codes "`a `_") ≡ Some (located (codes "`a`_")) }
    ensures escaped_end { target_value (codes "`a\\`_") ≡ Some (located (codes "`a`_")) }
    ensures short { map (λ t. target_value (codes t)) ("_" ∷ "``_" ∷ []) ≡ Some (located (codes "_")) ∷ Some (located (codes "``_")) ∷ [] }
    ensures nothing_left { map (λ t. target_value (codes t)) ("" ∷ "\\" ∷ "\\ " ∷ []) ≡ None ∷ None ∷ None ∷ [] }
{}

/// What the values of options mean (Directives, 'Common Options').
pub fn values()
    ensures classes { ids_of (codes "Wide  my_table") ≡ Some (codes "wide" ∷ codes "my-table" ∷ []) }
    ensures no_classes { map (λ t. ids_of (codes t)) ("" ∷ "a 1" ∷ []) ≡ None ∷ None ∷ [] }
    ensures empty_alt { option_meaning Image Alt (codes "") ≡ Some (plain []) }
    ensures alt { option_meaning Image Alt (codes "A\\ b") ≡ Some (plain (codes "A\\ b")) }
    ensures name { option_meaning Common NameOption (codes "A\n  b") ≡ Some (called (codes "a b")) }
    ensures file { map (λ t. option_meaning RawOptions File (codes t)) ("a.html" ∷ "" ∷ []) ≡ Some (plain (codes "a.html")) ∷ None ∷ [] }
    ensures subtitle { map (λ t. option_meaning SidebarOptions Subtitle (codes t)) ("a *b*" ∷ "" ∷ []) ≡ Some (plain (codes "a *b*")) ∷ None ∷ [] }
    ensures depth { map (λ t. option_meaning Contents Depth (codes t)) ("2" ∷ "03" ∷ "0" ∷ "-1" ∷ "2%" ∷ "1000000000" ∷ "" ∷ [])
        ≡ Some (numbered 2) ∷ Some (numbered 3) ∷ Some (numbered 0) ∷ None ∷ None ∷ None ∷ None ∷ [] }
    ensures local { map (λ t. option_meaning Contents Local (codes t)) ("" ∷ "x" ∷ []) ≡ Some (numbered 1) ∷ None ∷ [] }
    ensures backlinks { map (λ t. option_meaning Contents Backlinks (codes t)) ("Top" ∷ "entry" ∷ "NONE" ∷ "x" ∷ "" ∷ [])
        ≡ Some (led_back back.Top) ∷ Some (led_back back.Entry) ∷ Some (led_back back.Nowhere) ∷ None ∷ None ∷ [] }
    ensures height { map (λ t. option_meaning Image Height (codes t)) ("50" ∷ "50%" ∷ []) ≡ Some (measured (codes "50")) ∷ None ∷ [] }
    ensures width { map (λ t. option_meaning Figure Width (codes t)) ("50" ∷ "50%" ∷ []) ≡ Some (measured (codes "50")) ∷ Some (measured (codes "50%")) ∷ [] }
    ensures figure_width { map (λ t. option_meaning Figure FigureWidth (codes t)) ("50" ∷ "image" ∷ []) ≡ Some (measured (codes "50px")) ∷ None ∷ [] }
    ensures align { map (λ d. option_meaning d Align (codes "middle")) (Image ∷ Figure ∷ []) ≡ Some (placed Middle) ∷ None ∷ [] }
    ensures alignment_of_a_table { map (λ t. option_meaning TableOptions Align (codes t)) ("left" ∷ "bottom" ∷ []) ≡ Some (placed Left) ∷ None ∷ [] }
    ensures alignment_of_tables { map (λ t. option_meaning ListTable Align (codes t)) ("right" ∷ "top" ∷ []) ≡ Some (placed Right) ∷ None ∷ [] }
    ensures rows_of_the_head { map (λ t. option_meaning ListTable HeaderRows (codes t)) ("2" ∷ "0" ∷ "-1" ∷ "" ∷ []) ≡ Some (numbered 2) ∷ Some (numbered 0) ∷ None ∷ None ∷ [] }
    ensures stub_columns { map (λ t. option_meaning ListTable StubColumns (codes t)) ("1" ∷ "x" ∷ []) ≡ Some (numbered 1) ∷ None ∷ [] }
    ensures widths { map (λ t. option_meaning ListTable Widths (codes t)) ("1 20" ∷ "3" ∷ "1,2 ,\n 30" ∷ "01  2\n3" ∷ [])
        ≡ Some (sized (given (1 ∷ 20 ∷ []))) ∷ Some (sized (given (3 ∷ []))) ∷ Some (sized (given (1 ∷ 2 ∷ 30 ∷ []))) ∷ Some (sized (given (1 ∷ 2 ∷ 3 ∷ []))) ∷ [] }
    ensures automatic_widths { map (λ t. option_meaning ListTable Widths (codes t)) ("auto" ∷ "Auto" ∷ "auto 1" ∷ []) ≡ Some (sized auto) ∷ None ∷ None ∷ [] }
    ensures drawn_widths { map (λ t. option_meaning TableOptions Widths (codes t)) ("grid" ∷ "Grid" ∷ "grid 1" ∷ "auto" ∷ "2 3" ∷ [])
        ≡ Some (sized drawn) ∷ None ∷ None ∷ Some (sized auto) ∷ Some (sized (given (2 ∷ 3 ∷ []))) ∷ [] }
    ensures not_drawn { option_meaning ListTable Widths (codes "grid") ≡ None }
    ensures no_widths { map (λ t. option_meaning ListTable Widths (codes t)) ("" ∷ "1," ∷ "1 2, 3" ∷ "1 0" ∷ "-1" ∷ "x" ∷ "1000000000" ∷ [])
        ≡ None ∷ None ∷ None ∷ None ∷ None ∷ None ∷ None ∷ [] }
    ensures classes_of_widths { map (λ columns. columns_class columns) (auto ∷ drawn ∷ given (1 ∷ []) ∷ [])
        ≡ codes "colwidths-auto" ∷ codes "colwidths-given" ∷ codes "colwidths-given" ∷ [] }
    ensures target { map (λ t. option_meaning Image Target (codes t)) ("a_" ∷ "" ∷ []) ≡ Some (linked (named (codes "a")) (codes "a_")) ∷ None ∷ [] }
{}

/// The fields of an option block (Markup Specification, 'Directives').
pub fn option_blocks()
    ensures values { fields_in no_parts (codes ":a:  b" ∷ codes "    c" ∷ codes "  d" ∷ codes ":e f:" ∷ codes "   g" ∷ codes ":h:" ∷ [])
        ≡ Some ((codes "a", codes "b\n  c\nd") ∷ (codes "e f", codes "g") ∷ (codes "h", []) ∷ []) }
    ensures text { fields_in no_parts (codes ":a: b" ∷ codes "c" ∷ []) ≡ None }
    ensures indented_first { fields_in no_parts (codes "  b" ∷ codes ":a: b" ∷ []) ≡ None }
    ensures role { fields_in all_parts (codes ":a: b" ∷ codes ":mod:`c`: d" ∷ []) ≡ None }
    ensures role_without_the_part { fields_in no_parts (codes ":a: b" ∷ codes ":mod:`c`: d" ∷ [])
        ≡ Some ((codes "a", codes "b") ∷ (codes "mod:`c`", codes "d") ∷ []) }
    ensures escaped_colon { map (λ parts. fields_in parts (codes ":a\\:`b`: c" ∷ [])) (no_parts ∷ all_parts ∷ [])
        ≡ Some ((codes "a\\:`b`", codes "c") ∷ []) ∷ Some ((codes "a\\:`b`", codes "c") ∷ []) ∷ [] }
{}

/// The argument, options and content of a directive's block (Markup Specification, 'Directives').
pub fn blocks()
    ensures content_alone { read_block (kind tag.Note Absent Common Blocks allowed.Body) false (record { from = 0; to = 3; first_cut = 9; rest_cut = 3 }) (block ("a" ∷ "" ∷ ":class: b" ∷ []))
        ≡ Ok (record {
          kind = kind tag.Note Absent Common Blocks allowed.Body;
          argument = nothing;
          options = [];
          content = record {
            first = record { from = 0; to = 3; first_cut = 9; rest_cut = 3 };
            second = record { from = 3; to = 3; first_cut = 3; rest_cut = 3 };
          };
        }) }
    ensures two_parts { read_block (kind tag.Tip Absent Common Blocks allowed.Body) false (record { from = 5; to = 10; first_cut = 9; rest_cut = 3 }) (block ("a" ∷ ":class: b" ∷ "" ∷ "" ∷ "c"
        ∷ []))
        ≡ Ok (record {
          kind = kind tag.Tip Absent Common Blocks allowed.Body;
          argument = nothing;
          options = (Class, classed (codes "b" ∷ []))
              ∷ [];
          content = record {
            first = record { from = 5; to = 6; first_cut = 9; rest_cut = 3 };
            second = record { from = 9; to = 10; first_cut = 3; rest_cut = 3 };
          };
        }) }
    ensures field_in_a_replacement { read_block (kind tag.Paragraph Absent NoOptions Paragraph allowed.Substitution) false (record { from = 0; to = 1; first_cut = 13; rest_cut = 0 }) (block (":class: a" ∷ []))
        ≡ Ok (record {
          kind = kind tag.Paragraph Absent NoOptions Paragraph allowed.Substitution;
          argument = nothing;
          options = [];
          content = record {
            first = record { from = 0; to = 1; first_cut = 13; rest_cut = 0 };
            second = record { from = 1; to = 1; first_cut = 0; rest_cut = 0 };
          };
        }) }
    ensures quotes_keep_a_column { read_block (kind tag.BlockQuote Absent NoOptions (Quotes Epigraph) allowed.Body) false (record { from = 0; to = 3; first_cut = 13; rest_cut = 3 }) (block (":class: a"
        ∷ "" ∷ "b" ∷ []))
        ≡ Ok (record {
          kind = kind tag.BlockQuote Absent NoOptions (Quotes Epigraph) allowed.Body;
          argument = nothing;
          options = [];
          content = record {
            first = record { from = 0; to = 3; first_cut = 12; rest_cut = 2 };
            second = record { from = 3; to = 3; first_cut = 2; rest_cut = 2 };
          };
        }) }
    ensures late_code { read_block (kind tag.LiteralBlock Language Common Lines allowed.Body) true (record { from = 2; to = 3; first_cut = 3; rest_cut = 3 }) (block (":class: c" ∷ []))
        ≡ Ok (record {
          kind = kind tag.LiteralBlock Language Common Lines allowed.Body;
          argument = language None;
          options = [];
          content = record {
            first = record { from = 2; to = 2; first_cut = 3; rest_cut = 3 };
            second = record { from = 2; to = 3; first_cut = 3; rest_cut = 3 };
          };
        }) }
{}

/// The arguments of directives (Markup Specification, 'Directives').
pub fn arguments()
    ensures with_title { read_block (kind tag.Topic Title Common Blocks allowed.Sections) false (record { from = 0; to = 5; first_cut = 10; rest_cut = 3 }) (block ("A" ∷ "B" ∷ ":name: C d" ∷ ""
        ∷ "e" ∷ []))
        ≡ Ok (record {
          kind = kind tag.Topic Title Common Blocks allowed.Sections;
          argument = title (record { from = 0; to = 2; first_cut = 10; rest_cut = 3 });
          options = (NameOption, called (codes "c d"))
              ∷ [];
          content = record {
            first = record { from = 0; to = 0; first_cut = 10; rest_cut = 3 };
            second = record { from = 4; to = 5; first_cut = 3; rest_cut = 3 };
          };
        }) }
    ensures with_uri { read_block (kind tag.Image Uri Image Empty allowed.Anywhere) false (record { from = 0; to = 3; first_cut = 10; rest_cut = 3 }) (block ("a b" ∷ "c.png" ∷ ":Scale: 5" ∷ []))
        ≡ Ok (record {
          kind = kind tag.Image Uri Image Empty allowed.Anywhere;
          argument = uri (codes "abc.png");
          options = (Scale, numbered 5)
              ∷ [];
          content = record {
            first = record { from = 0; to = 0; first_cut = 10; rest_cut = 3 };
            second = record { from = 3; to = 3; first_cut = 3; rest_cut = 3 };
          };
        }) }
    ensures backslash_in_a_uri { read_block (kind tag.Image Uri Image Empty allowed.Anywhere) false (record { from = 0; to = 2; first_cut = 10; rest_cut = 3 }) (block ("a b" ∷ "c\\ d" ∷ []))
        ≡ Ok (record {
          kind = kind tag.Image Uri Image Empty allowed.Anywhere;
          argument = uri (codes "abc\\d");
          options = [];
          content = record {
            first = record { from = 0; to = 0; first_cut = 10; rest_cut = 3 };
            second = record { from = 2; to = 2; first_cut = 3; rest_cut = 3 };
          };
        }) }
    ensures with_language { read_block (kind tag.LiteralBlock Language Common Lines allowed.Body) false (record { from = 0; to = 3; first_cut = 9; rest_cut = 3 }) (block ("C++" ∷ "" ∷ ":a: b" ∷ []))
        ≡ Ok (record {
          kind = kind tag.LiteralBlock Language Common Lines allowed.Body;
          argument = language (Some (codes "C++"));
          options = [];
          content = record {
            first = record { from = 0; to = 0; first_cut = 9; rest_cut = 3 };
            second = record { from = 2; to = 3; first_cut = 3; rest_cut = 3 };
          };
        }) }
    ensures with_formats { read_block (kind tag.Raw Formats RawOptions Lines allowed.Anywhere) false (record { from = 0; to = 4; first_cut = 9; rest_cut = 3 }) (block ("HTML  latex"
        ∷ ":class: c" ∷ "" ∷ "x" ∷ []))
        ≡ Ok (record {
          kind = kind tag.Raw Formats RawOptions Lines allowed.Anywhere;
          argument = formats (codes "html latex");
          options = (Class, classed (codes "c" ∷ []))
              ∷ [];
          content = record {
            first = record { from = 0; to = 0; first_cut = 9; rest_cut = 3 };
            second = record { from = 3; to = 4; first_cut = 3; rest_cut = 3 };
          };
        }) }
    ensures blank_lines_in_a_text { read_block (kind tag.LiteralBlock Absent Common Marked allowed.Body) false (record { from = 0; to = 5; first_cut = 9; rest_cut = 3 }) (block ("a"
        ∷ ":class: c" ∷ "" ∷ "" ∷ "b" ∷ []))
        ≡ Ok (record {
          kind = kind tag.LiteralBlock Absent Common Marked allowed.Body;
          argument = nothing;
          options = (Class, classed (codes "c" ∷ []))
              ∷ [];
          content = record {
            first = record { from = 0; to = 1; first_cut = 9; rest_cut = 3 };
            second = record { from = 2; to = 5; first_cut = 3; rest_cut = 3 };
          };
        }) }
    ensures blank_lines_in_verse { read_block (kind tag.LineBlock Absent Common Verse allowed.Body) false (record { from = 0; to = 4; first_cut = 15; rest_cut = 3 }) (block ("a"
        ∷ ":name: n" ∷ "" ∷ "  b" ∷ []))
        ≡ Ok (record {
          kind = kind tag.LineBlock Absent Common Verse allowed.Body;
          argument = nothing;
          options = (NameOption, called (codes "n"))
              ∷ [];
          content = record {
            first = record { from = 0; to = 1; first_cut = 15; rest_cut = 3 };
            second = record { from = 2; to = 4; first_cut = 3; rest_cut = 3 };
          };
        }) }
    ensures with_classes { map (λ t. argument_of OptionalClasses (codes t ∷ codes "B" ∷ []) (record { from = 0; to = 2; first_cut = 14; rest_cut = 3 })) ("a"
        ∷ "a 1" ∷ [])
        ≡ Ok (classes (codes "a\nB") (Some (codes "a" ∷ codes "b" ∷ []))) ∷ Ok (classes (codes "a 1\nB") None) ∷ [] }
    ensures with_a_title_or_not { map (λ ts. argument_of OptionalTitle ts (record { from = 0; to = 1; first_cut = 12; rest_cut = 3 })) ((codes "a b" ∷ []) ∷ [] ∷ [])
        ≡ Ok (title (record { from = 0; to = 1; first_cut = 12; rest_cut = 3 })) ∷ Ok nothing ∷ [] }
    ensures no_classes { map (λ kind. argument_of kind [] (record { from = 0; to = 0; first_cut = 0; rest_cut = 0 })) (OptionalClasses ∷ Classes ∷ [])
        ≡ Ok nothing ∷ Err no_argument ∷ [] }
    ensures classes_without_options { read_block (kind tag.Class Classes NoOptions Classed allowed.Body) false (record { from = 0; to = 4; first_cut = 10; rest_cut = 3 }) (block ("A_b"
        ∷ ":name: x" ∷ "" ∷ "c" ∷ []))
        ≡ Ok (record {
          kind = kind tag.Class Classes NoOptions Classed allowed.Body;
          argument = classes (codes "A_b\n:name: x") (Some (codes "a-b" ∷ codes "name" ∷ codes "x" ∷ []));
          options = [];
          content = record {
            first = record { from = 0; to = 0; first_cut = 10; rest_cut = 3 };
            second = record { from = 3; to = 4; first_cut = 3; rest_cut = 3 };
          };
        }) }
{}

/// What is wrong with an option or an argument, of which the first counts (Markup Specification, 'Directives').
pub fn wrong_blocks()
    ensures two_languages { read_block (kind tag.LiteralBlock Language Common Lines allowed.Body) false (record { from = 0; to = 2; first_cut = 9; rest_cut = 3 }) (block ("a" ∷ "b" ∷ []))
        ≡ Err many_arguments }
    ensures unknown_option { read_block (kind tag.Image Uri Image Empty allowed.Anywhere) false (record { from = 0; to = 4; first_cut = 0; rest_cut = 0 }) (block (":scale: x" ∷ ":alt: a"
        ∷ ":alt: b" ∷ ":Foo: c" ∷ []))
        ≡ Err (unknown (codes "Foo")) }
    ensures duplicate_option { read_block (kind tag.Image Uri Image Empty allowed.Anywhere) false (record { from = 0; to = 3; first_cut = 0; rest_cut = 0 }) (block (":scale: x" ∷ ":alt: a"
        ∷ ":ALT: b" ∷ []))
        ≡ Err (duplicate (codes "ALT")) }
    ensures invalid_value { read_block (kind tag.Image Uri Image Empty allowed.Anywhere) false (record { from = 0; to = 2; first_cut = 0; rest_cut = 0 }) (block (":alt: a" ∷ ":scale: x" ∷ []))
        ≡ Err (invalid (codes "scale")) }
    ensures missing_argument { read_block (kind tag.Image Uri Image Empty allowed.Anywhere) false (record { from = 0; to = 1; first_cut = 0; rest_cut = 0 }) (block (":alt: a" ∷ []))
        ≡ Err no_argument }
    ensures option_for_an_argument { read_block (kind tag.Admonition Title Common Blocks allowed.Body) true (record { from = 2; to = 3; first_cut = 3; rest_cut = 3 }) (block (":class: x" ∷ []))
        ≡ Err no_argument }
    ensures no_formats { read_block (kind tag.Raw Formats RawOptions Lines allowed.Anywhere) true (record { from = 0; to = 1; first_cut = 0; rest_cut = 0 }) (block ("x" ∷ []))
        ≡ Err no_argument }
    ensures text_among_options { read_block (kind tag.Note Absent Common Blocks allowed.Body) false (record { from = 0; to = 2; first_cut = 0; rest_cut = 0 }) (block (":class: a" ∷ "b" ∷ []))
        ≡ Err option_block }
{}

/// Where a directive is allowed, and with which content (Markup Specification, 'Directives').
pub fn places()
    ensures unknown_name { permitted None Body ≡ Err Unknown }
    ensures unknown_in_a_definition { permitted None Substitution ≡ Err NotInSubstitution }
    ensures in_a_definition { filter (λ t. is_ok (permitted (directive_named no_parts (codes t) true) Substitution)) ("note" ∷ "topic" ∷ "image" ∷ "figure"
        ∷ "replace" ∷ "code" ∷ [])
        ≡ "image" ∷ "replace" ∷ [] }
    ensures not_in_a_definition { permitted (directive_named no_parts (codes "figure") true) Substitution ≡ Err NotInSubstitution }
    ensures without_content { map (λ t. option_map (λ k. content_fault k true Body false) (directive_named no_parts (codes t) true)) ("note" ∷ "admonition"
        ∷ "topic" ∷ "code" ∷ "replace" ∷ "image" ∷ "figure" ∷ [])
        ≡ map (λ fault. Some fault) (Some NoContent ∷ Some NoContent ∷ Some NoContent ∷ Some NoContent ∷ Some NoContent ∷ None ∷ None ∷ []) }
    ensures with_content { map (λ t. option_map (λ k. content_fault k false Body true) (directive_named no_parts (codes t) true)) ("note" ∷ "topic" ∷ "image"
        ∷ "figure" ∷ "replace" ∷ [])
        ≡ map (λ fault. Some fault) (None ∷ Some TopicNotHere ∷ Some (Inside ContentNotPermitted) ∷ None ∷ Some ReplaceNotHere ∷ []) }
    ensures topic { option_map (λ k. content_fault k false Sections false) (directive_named no_parts (codes "topic") true) ≡ Some None }
    ensures replacement { map (λ paragraph. option_map (λ k. content_fault k false Substitution paragraph) (directive_named no_parts (codes "replace") true)) (true
        ∷ false ∷ [])
        ≡ Some None ∷ Some (Some (Inside NotOneParagraph)) ∷ [] }
    ensures no_text { map (λ t. option_map (λ k. content_fault k true Body false) (directive_named all_parts (codes t) true)) ("rubric" ∷ "raw"
        ∷ "parsed-literal" ∷ "compound" ∷ "container" ∷ "epigraph" ∷ "line-block" ∷ "math" ∷ [])
        ≡ map (λ fault. Some fault) (None ∷ Some NoContent ∷ Some NoContent ∷ Some NoContent ∷ Some NoContent ∷ Some NoContent ∷ Some NoContent ∷ Some NoContent ∷ []) }
    ensures text { map (λ t. option_map (λ k. content_fault k false Body false) (directive_named all_parts (codes t) true)) ("rubric" ∷ "raw"
        ∷ "parsed-literal" ∷ [])
        ≡ map (λ fault. Some fault) (Some (Inside ContentNotPermitted) ∷ None ∷ None ∷ []) }
    ensures further_in_a_definition { filter (λ t. is_ok (permitted (directive_named all_parts (codes t) true) Substitution)) ("rubric" ∷ "raw"
        ∷ "parsed-literal" ∷ "include" ∷ "line-block" ∷ "math" ∷ [])
        ≡ "raw" ∷ [] }
    ensures include { map (λ empty. option_map (λ k. content_fault k empty Body false) (directive_named all_parts (codes "include") true)) (true ∷ false ∷ [])
        ≡ Some (Some Disabled) ∷ Some (Some (Inside ContentNotPermitted)) ∷ [] }
    ensures raw_file { map (λ o. option_fault true ((o, plain (codes "a")) ∷ [])) (File ∷ Url ∷ Class ∷ []) ≡ Some Disabled ∷ Some Disabled ∷ None ∷ [] }
    ensures lone_subtitle { map (λ titled. option_fault titled ((Class, classed []) ∷ (Subtitle, plain (codes "a")) ∷ [])) (false ∷ true ∷ [])
        ≡ Some LoneSubtitle ∷ None ∷ [] }
    ensures sidebar { map (λ place. option_map (λ k. content_fault k false place false) (directive_named all_parts (codes "sidebar") true)) (Sections ∷ Body ∷ [])
        ≡ Some None ∷ Some (Some SidebarNotHere) ∷ [] }
    ensures contents { map (λ place. option_map (λ k. content_fault k true place false) (directive_named all_parts (codes "contents") true)) (Sections ∷ Body ∷ [])
        ≡ Some None ∷ Some (Some SidebarNotHere) ∷ [] }
    ensures table { map (λ place. option_map (λ k. content_fault k false place false) (directive_named all_parts (codes "list-table") true)) (Sections ∷ Body ∷ [])
        ≡ Some None ∷ Some None ∷ [] }
    ensures table_without_rows { option_map (λ k. content_fault k true Body false) (directive_named all_parts (codes "list-table") true) ≡ Some (Some NoRows) }
    ensures without_a_table { map (λ empty. option_map (λ k. content_fault k empty Body false) (directive_named all_parts (codes "table") true)) (true ∷ false ∷ [])
        ≡ Some (Some NoTable) ∷ Some None ∷ [] }
    ensures content_of_contents { option_map (λ k. content_fault k false Sections false) (directive_named all_parts (codes "contents") true)
        ≡ Some (Some (Inside ContentNotPermitted)) }
    ensures two_paragraphs { option_map (λ k. content_fault k false Body false) (directive_named no_parts (codes "replace") true)
        ≡ Some (Some (Inside NotOneParagraph)) }
{}

/// Whole directives (Markup Specification, 'Directives').
pub fn directives()
    ensures figure { directive_at false (block (".. Figure:: a.png" ∷ "   :align: left" ∷ "" ∷ "   b"
        ∷ [])) 0 (record { name = record { from = 3; to = 9 }; block = record { from = 0; to = 4; first_cut = 12; rest_cut = 3 } }) Body false
        ≡ found (record {
          kind = kind tag.Figure Uri Figure Caption allowed.Body;
          argument = uri (codes "a.png");
          options = (Align, placed Left)
              ∷ [];
          content = record {
            first = record { from = 0; to = 0; first_cut = 12; rest_cut = 3 };
            second = record { from = 3; to = 4; first_cut = 3; rest_cut = 3 };
          };
        }) }
    ensures late { directive_at false (block (".. note::" ∷ "" ∷ "   :class: a" ∷ "" ∷ "   b"
        ∷ [])) 0 (record { name = record { from = 3; to = 7 }; block = record { from = 2; to = 5; first_cut = 3; rest_cut = 3 } }) Body false
        ≡ found (record {
          kind = kind tag.Note Absent Common Blocks allowed.Body;
          argument = nothing;
          options = (Class, classed (codes "a" ∷ []))
              ∷ [];
          content = record {
            first = record { from = 2; to = 2; first_cut = 3; rest_cut = 3 };
            second = record { from = 4; to = 5; first_cut = 3; rest_cut = 3 };
          };
        }) }
    ensures late_code { directive_at true (block ("a" ∷ "" ∷ "" ∷ ".. code::" ∷ "" ∷ "   :class: c"
        ∷ [])) 3 (record { name = record { from = 3; to = 7 }; block = record { from = 5; to = 6; first_cut = 3; rest_cut = 3 } }) Body true
        ≡ found (record {
          kind = kind tag.LiteralBlock Language Common Lines allowed.Body;
          argument = language None;
          options = [];
          content = record {
            first = record { from = 5; to = 5; first_cut = 3; rest_cut = 3 };
            second = record { from = 5; to = 6; first_cut = 3; rest_cut = 3 };
          };
        }) }
    ensures code_in_the_next_line { directive_at true (block (".. code::" ∷ "   :class: c" ∷ "" ∷ "   b"
        ∷ [])) 0 (record { name = record { from = 3; to = 7 }; block = record { from = 1; to = 4; first_cut = 3; rest_cut = 3 } }) Body true
        ≡ found (record {
          kind = kind tag.LiteralBlock Language Common Lines allowed.Body;
          argument = language None;
          options = (Class, classed (codes "c" ∷ []))
              ∷ [];
          content = record {
            first = record { from = 1; to = 1; first_cut = 3; rest_cut = 3 };
            second = record { from = 3; to = 4; first_cut = 3; rest_cut = 3 };
          };
        }) }
    ensures content_of_an_image { directive_at false (block ("x" ∷ ".. image:: a" ∷ "" ∷ "   b"
        ∷ [])) 1 (record { name = record { from = 3; to = 8 }; block = record { from = 1; to = 4; first_cut = 11; rest_cut = 3 } }) Body true
        ≡ wrong (inside faults.content_not_permitted) (record { from = 1; to = 4; first_cut = 0; rest_cut = 0 }) }
    ensures argument_before_content { directive_at false (block (".. image::" ∷ "   :alt: a" ∷ "" ∷ "   b"
        ∷ [])) 0 (record { name = record { from = 3; to = 8 }; block = record { from = 1; to = 4; first_cut = 3; rest_cut = 3 } }) Body false
        ≡ wrong (inside no_argument) (record { from = 0; to = 4; first_cut = 0; rest_cut = 0 }) }
    ensures subtitle_before_content { directive_of (directive_named all_parts (codes "sidebar") true) (block (".. sidebar::" ∷ "   :subtitle: a"
        ∷ [])) 0 (record { from = 1; to = 2; first_cut = 3; rest_cut = 3 }) Body false
        ≡ wrong lone_subtitle (record { from = 0; to = 2; first_cut = 0; rest_cut = 0 }) }
    ensures options_before_content { directive_at false (block (".. topic::" ∷ "   :foo:"
        ∷ [])) 0 (record { name = record { from = 3; to = 8 }; block = record { from = 1; to = 2; first_cut = 3; rest_cut = 3 } }) Body false
        ≡ wrong (inside (unknown (codes "foo"))) (record { from = 0; to = 2; first_cut = 0; rest_cut = 0 }) }
{}

/// The texts of messages (Markup Specification, 'Directives').
pub fn messages()
    ensures unknown_name { fault_text unknown_directive (codes "foo") ≡ codes "Unknown directive type \"foo\"." }
    ensures unknown_option { fault_text (inside (unknown (codes "bar"))) (codes "Note") ≡ codes "Error in \"Note\" directive:\nunknown option: \"bar\"." }
    ensures options { map (λ w. wrong_text w) (option_block ∷ duplicate (codes "alt") ∷ invalid (codes "scale") ∷ [])
        ≡ codes "invalid option block." ∷ codes "duplicate option \"alt\"." ∷ codes "invalid value of option \"scale\"." ∷ [] }
    ensures others { map (λ w. wrong_text w) (no_argument ∷ many_arguments ∷ faults.content_not_permitted ∷ faults.not_one_paragraph ∷ [])
        ≡ codes "1 argument(s) required, 0 supplied." ∷ codes "at most 1 argument permitted." ∷ codes "no content permitted."
        ∷ codes "may contain a single paragraph only." ∷ [] }
    ensures without_rows { fault_text no_rows (codes "List-table") ≡ codes "The \"List-table\" directive is empty; content required." }
    ensures without_a_table { fault_text no_table (codes "Table") ≡ codes "Content block expected for the \"Table\" directive; none found." }
    ensures without_content { fault_text no_content (codes "tip") ≡ codes "Content block expected for the \"tip\" directive; none found." }
    ensures topic { fault_text topic_not_here (codes "topic") ≡ codes "The \"topic\" directive may not be used within topics or body elements." }
    ensures sidebar { fault_text sidebar_not_here (codes "Sidebar") ≡ codes "The \"Sidebar\" directive may not be used within topics or body elements." }
    ensures subtitle { fault_text lone_subtitle (codes "sidebar") ≡ codes "The \"subtitle\" option may not be used without a title." }
    ensures replacement { fault_text replace_not_here (codes "replace")
        ≡ codes "Invalid context: the \"replace\" directive can only be used within a substitution definition." }
    ensures disabled { fault_text disabled (codes "include") ≡ codes "\"include\" directive disabled." }
    ensures classes { fault_text (invalid_classes (codes "1")) (codes "Container") ≡ codes "Invalid class attribute value for \"Container\" directive: \"1\"." }
    ensures levels { map (λ f. fault_level f) (disabled ∷ no_table ∷ no_content ∷ no_rows ∷ invalid_classes [] ∷ [])
        ≡ Warning ∷ Warning ∷ Error ∷ Error ∷ Error ∷ [] }
    ensures definition { fault_text not_in_substitution (codes "a") ≡ codes "Substitution definition \"a\" may hold only image or replace." }
{}
