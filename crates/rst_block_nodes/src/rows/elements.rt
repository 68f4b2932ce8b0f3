//! Worked examples of elements, as theorems on the definitions alone: the prover computes the nodes of texts and numbers that are written out.
#![tactic(auto, unfolding(crate::proofs::Computing::rst_block_nodes))]

ghost use Rattle.std.specs.Prelude.{◌≡◌, [], ◌∷◌, map, option_map, true, false, None, Some, Err, codes, option_to_list};
ghost use Rattle.rst_settings.specs.Parts.{all_parts, no_parts};
ghost use Rattle.rst_tree.specs.declared.note.Level.TheVariants.{Warning as WarningLevel};
ghost use Rattle.rst_tree.specs.declared.tag.Tag.TheVariants as tag;
ghost use Rattle.rst_inline.specs.Results.{nodes_from};
ghost use Rattle.rst_inline_scan.specs.Reading.{pieces_of};
ghost use Rattle.rst_markup_lines.specs.Enumerator.{enumerator_of};
ghost use Rattle.rst_markup_lines.specs.declared.option.Delimiter.TheVariants.{Nothing, Space, Equals};
ghost use Rattle.rst_markup_directives.specs.Target.{named, located};
ghost use Rattle.rst_markup_directives.specs.Argument.{classes, formats, language, nothing};
ghost use Rattle.rst_markup_directives.specs.Value.{plain, measured, numbered, placed, classed, linked, called};
ghost use Rattle.rst_markup_directives.specs.declared.measure.Alignment.TheVariants.{Top, Middle, Bottom, Left, Center, Right};
ghost use Rattle.rst_markup_directives.specs.declared.option.OptionName.TheVariants.{Alt, Height, Width, Scale, Align, Target, Class, Name, FigureWidth, FigureClass};
ghost use Rattle.rst_block_nodes.specs.Admonitions.{with_title_class};
ghost use Rattle.rst_block_nodes.specs.Elements.{plain_node, preserved_node, bullet_list_node, enumerated_list_node, start_text, option_node, footnote_node, citation_node, substitution_definition_node, tgroup_node, entry_node};
ghost use Rattle.rst_block_nodes.specs.Formulas.{formulas};
ghost use Rattle.rst_block_nodes.specs.LineBlocks.{line_block};
ghost use Rattle.rst_block_nodes.specs.Options.{directive_element, figure_element, image_element, literal_element, with_options};
ghost use Rattle.rst_block_nodes.specs.Readings.{term_nodes, texted, texted_node};
ghost use Rattle.rst_block_nodes.specs.Targets.{may_replace, target_node};
ghost use Rattle.rst_block_nodes.specs.Texts.{message_node, section_node};
ghost use Rattle.rst_block_nodes.specs.Whole.{Says, element_and_notes};

/// Texts, the messages on them, and sections (Markup Specification, 'Paragraphs').
pub fn texts()
    ensures empty { Says (plain_node tag.Paragraph 2 [] ∷ preserved_node tag.Comment 3 [] ∷ [])
        ("<paragraph> 2" ∷ "<comment xml:space=\"preserve\"> 3" ∷ []) }
    ensures messages { Says (element_and_notes (texted no_parts tag.Line 2 (codes "*a **b") 3 5))
        ("<line text_messages=\"2\"> 2" ∷ "    <problematic message=\"5\"> 3" ∷ "        *" ∷ "    a " ∷ "    <problematic message=\"6\"> 3"
        ∷ "        **" ∷ "    b" ∷ "<system_message level=\"2\" message=\"5\"> 3" ∷ "    <paragraph> 3"
        ∷ "        Inline emphasis start-string without end-string." ∷ "<system_message level=\"2\" message=\"6\"> 3" ∷ "    <paragraph> 3"
        ∷ "        Inline strong start-string without end-string." ∷ []) }
    ensures lines_in_message { Says (message_node WarningLevel 4 (codes "a\nb") (Some (codes "c\n d")) ∷ [])
        ("<system_message level=\"2\"> 4" ∷ "    <paragraph> 4" ∷ "        a" ∷ "        b" ∷ "    <literal_block xml:space=\"preserve\"> 4"
        ∷ "        c" ∷ "         d" ∷ []) }
    ensures section { Says (section_node (plain_node tag.Title 2 (codes "A  Bc")) 0 2 ∷ [])
        ("<section own_name=\"a bc\"> 2" ∷ "    <title> 2" ∷ "        A  Bc" ∷ []) }
    ensures markup_in_a_title { Says (section_node (texted_node no_parts tag.Title 2 (codes "A  *b*") 2 0) 0 2 ∷ [])
        ("<section own_name=\"a b\"> 2" ∷ "    <title> 2" ∷ "        A  " ∷ "        <emphasis> 2" ∷ "            b" ∷ []) }
    ensures labels_in_a_title { Says (section_node (texted_node no_parts tag.Title 2 (codes "[1]_ [#]_ |x|") 2 0) 0 2 ∷ [])
        ("<section own_name=\"1 x\"> 2" ∷ "    <title> 2" ∷ "        <footnote_reference rawsource=\"[1]_\" refname=\"1\"> 2" ∷ "            1"
        ∷ "         " ∷ "        <footnote_reference auto=\"1\" rawsource=\"[#]_\"> 2" ∷ "         "
        ∷ "        <substitution_reference rawsource=\"|x|\" refname=\"x\"> 2" ∷ "            x" ∷ []) }
    ensures reference_in_a_title { Says (section_node (texted_node no_parts tag.Title 2 (codes "`a`_ **") 2 0) 0 2 ∷ [])
        ("<section own_name=\"a **\"> 2" ∷ "    <title> 2" ∷ "        <reference name=\"a\" rawsource=\"`a`_\" refname=\"a\"> 2" ∷ "            a"
        ∷ "         **" ∷ []) }
    ensures section_with_messages { Says (section_node (plain_node tag.Title 2 (codes "a")) 3 2 ∷ [])
        ("<section own_name=\"a\" text_messages=\"3\"> 2" ∷ "    <title> 2" ∷ "        a" ∷ []) }
{}

/// Bullet lists and enumerated lists (Markup Specification, 'Bullet Lists').
pub fn lists()
    ensures bullet { Says (bullet_list_node 8226 3 ∷ []) ("<bullet_list bullet=\"•\"> 3" ∷ []) }
    ensures parentheses { Says (option_to_list (option_map (λ e. enumerated_list_node e 3) (enumerator_of (codes "(1) a"))))
        ("<enumerated_list enumtype=\"arabic\" prefix=\"(\" suffix=\")\"> 3" ∷ []) }
    ensures parenthesis { Says (option_to_list (option_map (λ e. enumerated_list_node e 3) (enumerator_of (codes "a) b"))))
        ("<enumerated_list enumtype=\"loweralpha\" prefix=\"\" suffix=\")\"> 3" ∷ []) }
    ensures period { Says (option_to_list (option_map (λ e. enumerated_list_node e 3) (enumerator_of (codes "IV. a"))))
        ("<enumerated_list enumtype=\"upperroman\" prefix=\"\" start=\"4\" suffix=\".\"> 3" ∷ []) }
    ensures upper { Says (option_to_list (option_map (λ e. enumerated_list_node e 3) (enumerator_of (codes "B. a"))))
        ("<enumerated_list enumtype=\"upperalpha\" prefix=\"\" start=\"2\" suffix=\".\"> 3" ∷ []) }
    ensures lower_roman { Says (option_to_list (option_map (λ e. enumerated_list_node e 3) (enumerator_of (codes "i. a"))))
        ("<enumerated_list enumtype=\"lowerroman\" prefix=\"\" suffix=\".\"> 3" ∷ []) }
    ensures number_sign { Says (option_to_list (option_map (λ e. enumerated_list_node e 3) (enumerator_of (codes "#. a"))))
        ("<enumerated_list enumtype=\"arabic\" prefix=\"\" suffix=\".\"> 3" ∷ []) }
    ensures zero { Says (option_to_list (option_map (λ e. enumerated_list_node e 3) (enumerator_of (codes "0. a"))))
        ("<enumerated_list enumtype=\"arabic\" prefix=\"\" start=\"0\" suffix=\".\"> 3" ∷ []) }
    ensures start { start_text (codes "ci") 101 ≡ codes "Enumerated list start value not ordinal-1: \"ci\" (ordinal 101)" }
{}

/// Options of option lists (Markup Specification, 'Option Lists').
pub fn options()
    ensures alone { Says (option_node (codes "-a") None 2 ∷ []) ("<option> 2" ∷ "    <option_string> 2" ∷ "        -a" ∷ []) }
    ensures space { Says (option_node (codes "-a") (Some (Space, codes "B")) 2 ∷ [])
        ("<option> 2" ∷ "    <option_string> 2" ∷ "        -a" ∷ "    <option_argument delimiter=\" \"> 2" ∷ "        B" ∷ []) }
    ensures equals { Says (option_node (codes "--a") (Some (Equals, codes "<b>")) 2 ∷ [])
        ("<option> 2" ∷ "    <option_string> 2" ∷ "        --a" ∷ "    <option_argument delimiter=\"=\"> 2" ∷ "        <b>" ∷ []) }
    ensures nothing { Says (option_node (codes "-a") (Some (Nothing, codes "B")) 2 ∷ [])
        ("<option> 2" ∷ "    <option_string> 2" ∷ "        -a" ∷ "    <option_argument delimiter=\"\"> 2" ∷ "        B" ∷ []) }
{}

/// Terms of definition lists, and their classifiers (Markup Specification, 'Definition Lists').
pub fn terms()
    ensures alone { Says (term_nodes no_parts (codes "a: b :c") 2 0) ("<term> 2" ∷ "    a: b :c" ∷ []) }
    ensures classifiers { Says (term_nodes no_parts (codes "a  :   b : c") 2 0)
        ("<term> 2" ∷ "    a" ∷ "<classifier> 2" ∷ "    b" ∷ "<classifier> 2" ∷ "    c" ∷ []) }
    ensures markup { Says (term_nodes no_parts (codes "*a* b : ``c : d`` e") 2 0)
        ("<term> 2" ∷ "    <emphasis> 2" ∷ "        a" ∷ "     b" ∷ "<classifier> 2" ∷ "    <literal> 2" ∷ "        c : d" ∷ "     e" ∷ []) }
    ensures escaped_colon { Says (term_nodes no_parts (codes "a \\: b") 2 0) ("<term> 2" ∷ "    a : b" ∷ []) }
    ensures escaped_space { Says (term_nodes no_parts (codes "a\\ : b") 2 0) ("<term> 2" ∷ "    a: b" ∷ []) }
    ensures escaped_space_after { Says (term_nodes no_parts (codes "a :\\ b") 2 0) ("<term> 2" ∷ "    a :b" ∷ []) }
    ensures space_left { Says (term_nodes no_parts (codes "a \\ : b") 2 0) ("<term> 2" ∷ "    a" ∷ "<classifier> 2" ∷ "    b" ∷ []) }
    ensures colon_after_a_colon { Says (term_nodes no_parts (codes "a : : b") 2 0) ("<term> 2" ∷ "    a" ∷ "<classifier> 2" ∷ "    : b" ∷ []) }
    ensures spaces_before_a_colon { Says (term_nodes no_parts (codes "a :  : b") 2 0) ("<term> 2" ∷ "    a" ∷ "<classifier> 2" ∷ "    : b" ∷ []) }
    ensures backslashes { Says (term_nodes no_parts (codes "\\\\ : \\\\") 2 0) ("<term> 2" ∷ "    \\" ∷ "<classifier> 2" ∷ "    \\" ∷ []) }
    ensures empty { Says (term_nodes no_parts (codes "a : :sub:`b` : c") 2 0)
        ("<term> 2" ∷ "    a" ∷ "<classifier> 2" ∷ "    <subscript> 2" ∷ "        b" ∷ "<classifier> 2" ∷ "    c" ∷ []) }
    ensures messages { Says (term_nodes no_parts (codes "a : *b") 2 4)
        ("<term text_messages=\"1\"> 2" ∷ "    a" ∷ "<classifier> 2" ∷ "    <problematic message=\"4\"> 2" ∷ "        *" ∷ "    b" ∷ []) }
    ensures message_on_the_term { Says (term_nodes no_parts (codes "*a : b") 2 4)
        ("<term text_messages=\"1\"> 2" ∷ "    <problematic message=\"4\"> 2" ∷ "        *" ∷ "    a" ∷ "<classifier> 2" ∷ "    b" ∷ []) }
    ensures unended_over_a_colon { Says (term_nodes no_parts (codes "a : |x : y") 2 4)
        ("<term text_messages=\"1\"> 2" ∷ "    a" ∷ "<classifier> 2" ∷ "    <problematic message=\"4\"> 2" ∷ "        |" ∷ "    x"
        ∷ "<classifier> 2" ∷ "    y" ∷ []) }
{}

/// Line blocks (Markup Specification, 'Line Blocks').
pub fn line_blocks()
    ensures level { Says (element_and_notes (line_block 1 (record { indent = 2; line = 3; text_line = 3; text = codes "a"; parts = no_parts }
        ∷ record { indent = 2; line = 4; text_line = 5; text = codes "b\nc"; parts = no_parts } ∷ []) 0))
        ("<line_block> 3" ∷ "    <line> 3" ∷ "        a" ∷ "    <line> 4" ∷ "        b" ∷ "        c" ∷ []) }
    ensures nested { Says (element_and_notes (line_block 3 (record { indent = 1; line = 3; text_line = 3; text = codes "a"; parts = no_parts }
        ∷ record { indent = 2; line = 4; text_line = 4; text = codes "b"; parts = no_parts } ∷ record { indent = 1; line = 5; text_line = 5; text = codes "c"; parts = no_parts }
        ∷ record { indent = 0; line = 6; text_line = 6; text = codes "d"; parts = no_parts } ∷ []) 0))
        ("<line_block> 3" ∷ "    <line_block> 3" ∷ "        <line> 3" ∷ "            a" ∷ "        <line_block> 4" ∷ "            <line> 4"
        ∷ "                b" ∷ "        <line> 5" ∷ "            c" ∷ "    <line> 6" ∷ "        d" ∷ []) }
    ensures deepest_first { Says (element_and_notes (line_block 3 (record { indent = 2; line = 3; text_line = 3; text = codes "a"; parts = no_parts }
        ∷ record { indent = 1; line = 4; text_line = 4; text = codes "b"; parts = no_parts } ∷ record { indent = 0; line = 5; text_line = 5; text = codes "c"; parts = no_parts }
        ∷ []) 0))
        ("<line_block> 3" ∷ "    <line_block> 3" ∷ "        <line_block> 3" ∷ "            <line> 3" ∷ "                a" ∷ "        <line> 4"
        ∷ "            b" ∷ "    <line> 5" ∷ "        c" ∷ []) }
    ensures too_deep { line_block 1 (record { indent = 0; line = 3; text_line = 3; text = codes "a"; parts = no_parts }
        ∷ record { indent = 1; line = 4; text_line = 4; text = codes "b"; parts = no_parts } ∷ record { indent = 1; line = 5; text_line = 5; text = codes "c"; parts = no_parts }
        ∷ []) 0 ≡ Err 4 }
    ensures messages { Says (element_and_notes (line_block 2 (record { indent = 1; line = 3; text_line = 4; text = codes "*a"; parts = no_parts }
        ∷ record { indent = 0; line = 5; text_line = 5; text = codes "b"; parts = no_parts } ∷ []) 7))
        ("<line_block> 3" ∷ "    <line_block> 3" ∷ "        <line text_messages=\"1\"> 3" ∷ "            <problematic message=\"7\"> 4"
        ∷ "                *" ∷ "            a" ∷ "    <line> 5" ∷ "        b" ∷ "<system_message level=\"2\" message=\"7\"> 4"
        ∷ "    <paragraph> 4" ∷ "        Inline emphasis start-string without end-string." ∷ []) }
{}

/// Footnotes and citations, targets and substitution definitions (Markup Specification, 'Explicit Markup Blocks').
pub fn labels()
    ensures number { Says (footnote_node (codes "12") 3 ∷ []) ("<footnote mark=\"12\" own_name=\"12\"> 3" ∷ "    <label> 3" ∷ "        12" ∷ []) }
    ensures numbered { Says (footnote_node (codes "#") 3 ∷ []) ("<footnote auto=\"1\" mark=\"#\"> 3" ∷ "    <label> 3" ∷ []) }
    ensures named { Says (footnote_node (codes "#Ab") 3 ∷ []) ("<footnote auto=\"1\" mark=\"#Ab\" own_name=\"ab\"> 3" ∷ "    <label> 3" ∷ []) }
    ensures symbol { Says (footnote_node (codes "*") 3 ∷ []) ("<footnote auto=\"*\" mark=\"*\"> 3" ∷ "    <label> 3" ∷ []) }
    ensures citation { Says (citation_node (codes "Ab") 3 ∷ []) ("<citation own_name=\"ab\"> 3" ∷ "    <label> 3" ∷ "        Ab" ∷ []) }
    ensures to_a_name { Says (target_node false (Some (codes "A\\:  b")) (codes "Cd_") 3 ∷ []) ("<target own_name=\"a: b\" refname=\"cd\"> 3" ∷ []) }
    ensures to_a_uri { Says (target_node false None (codes "C\nd") 3 ∷ []) ("<target anonymous=\"1\" refuri=\"Cd\"> 3" ∷ []) }
    ensures to_an_address { Says (target_node true (Some (codes "a")) (codes "m\\e@a.org\n x") 3 ∷ target_node true None (codes "me@a.org.") 3 ∷ [])
        ("<target own_name=\"a\" refuri=\"mailto:me@a.orgx\"> 3" ∷ "<target anonymous=\"1\" refuri=\"me@a.org.\"> 3" ∷ []) }
    ensures internal { Says (target_node false (Some (codes "a")) [] 3 ∷ []) ("<target own_name=\"a\"> 3" ∷ []) }
    ensures substitution { Says (substitution_definition_node (codes "A b") 3 ∷ []) ("<substitution_definition own_name=\"A b\"> 3" ∷ []) }
{}

/// What a replacement text may contain (Directives, 'Replacement Text').
pub fn replacements()
    ensures roles { may_replace (nodes_from no_parts (codes "*a* **b** ``c`` :sub:`d` :sup:`e` `f` |g| h") 1 0
        (pieces_of false false (codes "*a* **b** ``c`` :sub:`d` :sup:`e` `f` |g| h"))) ≡ true }
    ensures further_roles { may_replace (nodes_from all_parts (codes ":ac:`a` :ab:`b` :math:`c` :code:`d` :pep:`8`") 1 0
        (pieces_of true true (codes ":ac:`a` :ab:`b` :math:`c` :code:`d` :pep:`8`"))) ≡ true }
    ensures references { may_replace (nodes_from no_parts (codes "a_ http://b") 1 0 (pieces_of false false (codes "a_ http://b"))) ≡ true }
    ensures embedded { may_replace (nodes_from no_parts (codes "`a <u>`__ `a <b_>`_") 1 0 (pieces_of false false (codes "`a <u>`__ `a <b_>`_"))) ≡ true }
    ensures target_of_an_alias { may_replace (nodes_from all_parts (codes "`a <b_>`_") 1 0 (pieces_of true true (codes "`a <b_>`_"))) ≡ true }
    ensures target_of_a_uri { may_replace (nodes_from no_parts (codes "`a <u>`_") 1 0 (pieces_of false false (codes "`a <u>`_"))) ≡ false }
    ensures anonymous { may_replace (nodes_from no_parts (codes "a__") 1 0 (pieces_of false false (codes "a__"))) ≡ false }
    ensures round_a_substitution { may_replace (nodes_from no_parts (codes "|a|_") 1 0 (pieces_of false false (codes "|a|_"))) ≡ false }
    ensures target { may_replace (nodes_from no_parts (codes "_`a`") 1 0 (pieces_of false false (codes "_`a`"))) ≡ false }
    ensures footnote { may_replace (nodes_from no_parts (codes "[1]_") 1 0 (pieces_of false false (codes "[1]_"))) ≡ false }
    ensures citation { may_replace (nodes_from no_parts (codes "[a]_") 1 0 (pieces_of false false (codes "[a]_"))) ≡ false }
    ensures problematic { may_replace (nodes_from no_parts (codes "*a") 1 0 (pieces_of false false (codes "*a"))) ≡ false }
{}

/// Parts of tables (Markup Specification, 'Grid Tables').
pub fn tables()
    ensures columns { Says (tgroup_node (3 ∷ 12 ∷ []) 2 ∷ [])
        ("<tgroup cols=\"2\"> 2" ∷ "    <colspec colwidth=\"3\"> 2" ∷ "    <colspec colwidth=\"12\"> 2" ∷ []) }
    ensures spans { Says (entry_node 1 2 0 ∷ entry_node 0 0 0 ∷ []) ("<entry morecols=\"2\" morerows=\"1\"> 0" ∷ "<entry> 0" ∷ []) }
{}

/// Admonitions, topics and program code (Directives, 'Specific Admonitions').
pub fn directives()
    ensures tags { Says (map (λ element. directive_element element nothing [] 1) (tag.Tip ∷ tag.Topic ∷ [])) ("<tip> 1" ∷ "<topic> 1" ∷ []) }
    ensures options { Says (directive_element tag.Note nothing ((Class, classed (codes "b" ∷ codes "a" ∷ [])) ∷ (Name, called (codes "c")) ∷ []) 1 ∷ [])
        ("<note classes=\"b a\" own_name=\"c\"> 1" ∷ []) }
    ensures container { Says (directive_element tag.Container (classes (codes "A b") (Some (codes "a" ∷ codes "b" ∷ []))) [] 1 ∷ [])
        ("<container classes=\"a b\"> 1" ∷ []) }
    ensures class_of_a_title { Says (with_title_class (directive_element tag.Admonition nothing [] 1) (plain_node tag.Title 1 (codes "My *Note*")) ∷ [])
        ("<admonition classes=\"admonition-my-note\"> 1" ∷ []) }
    ensures classes_of_titles { Says (map (λ t. with_title_class (directive_element tag.Admonition nothing [] 1) (texted_node no_parts tag.Title 1 (codes t) 1 0))
        (":sub:`2`" ∷ "ß 1" ∷ "2 Ä" ∷ "|x| y" ∷ []))
        ("<admonition classes=\"admonition-\"> 1" ∷ "<admonition classes=\"admonition-\"> 1" ∷ "<admonition classes=\"admonition-a\"> 1"
        ∷ "<admonition classes=\"admonition-x-y\"> 1" ∷ []) }
    ensures class_of_the_options { Says (with_title_class (directive_element tag.Admonition nothing ((Class, classed (codes "a" ∷ [])) ∷ []) 1)
        (plain_node tag.Title 1 (codes "My Note")) ∷ []) ("<admonition classes=\"a\"> 1" ∷ []) }
    ensures code { Says (literal_element tag.LiteralBlock (language None) [] (codes "a\n b") 2 ∷ [])
        ("<literal_block classes=\"code\" xml:space=\"preserve\"> 2" ∷ "    a" ∷ "     b" ∷ []) }
    ensures language_and_classes { Says (literal_element tag.LiteralBlock (language (Some (codes "C++"))) ((Class, classed (codes "a" ∷ [])) ∷ []) (codes "b") 2 ∷ [])
        ("<literal_block classes=\"code C++ a\" xml:space=\"preserve\"> 2" ∷ "    b" ∷ []) }
    ensures raw { Says (literal_element tag.Raw (formats (codes "html latex")) ((Class, classed (codes "a" ∷ [])) ∷ []) (codes "<br>\n b") 2 ∷ [])
        ("<raw classes=\"a\" format=\"html latex\" xml:space=\"preserve\"> 2" ∷ "    <br>" ∷ "     b" ∷ []) }
    ensures rubric { Says (with_options false ((Class, classed (codes "a" ∷ [])) ∷ (Name, called (codes "c")) ∷ []) (texted_node no_parts tag.Rubric 1 (codes "b *c*") 1 0) ∷ [])
        ("<rubric classes=\"a\" own_name=\"c\"> 1" ∷ "    b " ∷ "    <emphasis> 1" ∷ "        c" ∷ []) }
    ensures parsed_literal { Says (with_options true [] (texted_node no_parts tag.LiteralBlock 1 (codes "a\n b") 1 0) ∷ [])
        ("<literal_block xml:space=\"preserve\"> 1" ∷ "    a" ∷ "     b" ∷ []) }
    ensures math { Says (formulas tag.MathBlock ((Class, classed (codes "k" ∷ [])) ∷ (Name, called (codes "n")) ∷ []) 2 (codes "a\n\n\n\nb\n\n\n *c*"))
        ("<math_block classes=\"k\" own_name=\"n\" xml:space=\"preserve\"> 2" ∷ "    a" ∷ "<math_block classes=\"k\" xml:space=\"preserve\"> 2" ∷ "    b"
        ∷ "<math_block classes=\"k\" xml:space=\"preserve\"> 2" ∷ "    " ∷ "     *c*" ∷ []) }
{}

/// Images and figures (Directives, 'Image').
pub fn images()
    ensures alone { Says (image_element (codes "a.png") [] 2 false None ∷ []) ("<image uri=\"a.png\"> 2" ∷ []) }
    ensures options { Says (image_element (codes "a") ((Alt, plain (codes "b")) ∷ (Height, measured (codes "1em")) ∷ (Width, measured (codes "2%"))
        ∷ (Scale, numbered 3) ∷ (Align, placed Middle) ∷ (Class, classed (codes "c" ∷ [])) ∷ (Name, called (codes "d")) ∷ []) 2 false None ∷ [])
        ("<image align=\"middle\" alt=\"b\" classes=\"c\" height=\"1em\" own_name=\"d\" scale=\"3\" uri=\"a\" width=\"2%\"> 2" ∷ []) }
    ensures nothing { Says (image_element (codes "i") ((Alt, plain []) ∷ (Name, called []) ∷ []) 2 false None ∷ [])
        ("<image alt=\"\" own_name=\"\" uri=\"i\"> 2" ∷ []) }
    ensures in_a_figure { Says (image_element (codes "a") ((Align, placed Left) ∷ (FigureWidth, measured (codes "1px"))
        ∷ (Width, measured (codes "2px")) ∷ (FigureClass, classed (codes "c" ∷ [])) ∷ (Class, classed (codes "d" ∷ [])) ∷ []) 2 true None ∷ [])
        ("<image classes=\"d\" uri=\"a\" width=\"2px\"> 2" ∷ []) }
    ensures figure { Says (figure_element ((Align, placed Left) ∷ (FigureWidth, measured (codes "1px")) ∷ (Width, measured (codes "2px"))
        ∷ (FigureClass, classed (codes "c" ∷ [])) ∷ (Class, classed (codes "d" ∷ [])) ∷ (Name, called (codes "e"))
        ∷ (Alt, plain (codes "f")) ∷ []) 2 ∷ [])
        ("<figure align=\"left\" classes=\"c\" width=\"1px\"> 2" ∷ []) }
    ensures alternate_text { Says (image_element (codes "a") [] 2 false (Some (codes "b"))
        ∷ image_element (codes "a") ((Alt, plain (codes "c")) ∷ []) 2 false (Some (codes "b")) ∷ [])
        ("<image alt=\"b\" uri=\"a\"> 2" ∷ "<image alt=\"c\" uri=\"a\"> 2" ∷ []) }
    ensures linked_to_a_name { Says (image_element (codes "a") ((Target, linked (named (codes "B  c")) (codes "`B  c`_")) ∷ []) 2 false None ∷ [])
        ("<reference name=\"B c\" rawsource=\"`B  c`_\" refname=\"b c\"> 2" ∷ "    <image uri=\"a\"> 2" ∷ []) }
    ensures linked_to_a_uri { Says (image_element (codes "a") ((Target, linked (located (codes "bc")) (codes "b c")) ∷ []) 2 true None ∷ [])
        ("<reference rawsource=\"b c\" refuri=\"bc\"> 2" ∷ "    <image uri=\"a\"> 2" ∷ []) }
    ensures alignments { Says (map (λ side. image_element (codes "a") ((Align, placed side) ∷ []) 1 false None)
        (Top ∷ Middle ∷ Bottom ∷ Left ∷ Center ∷ Right ∷ []))
        ("<image align=\"top\" uri=\"a\"> 1" ∷ "<image align=\"middle\" uri=\"a\"> 1" ∷ "<image align=\"bottom\" uri=\"a\"> 1"
        ∷ "<image align=\"left\" uri=\"a\"> 1" ∷ "<image align=\"center\" uri=\"a\"> 1" ∷ "<image align=\"right\" uri=\"a\"> 1" ∷ []) }
{}
