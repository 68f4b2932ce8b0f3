//! Lists, in documents.
#![tactic(auto, unfolding(crate::proofs::Computing::rst_block_state))]

ghost use Rattle.std.specs.Prelude.{[], ◌∷◌};
ghost use Rattle.rst_block_state.specs.Reads.{Means, Reads};

/// Bullet lists (Markup Specification, 'Bullet Lists').
pub fn bullets()
    ensures marks { Reads ("* a" ∷ "" ∷ "+ b" ∷ "" ∷ "- c" ∷ "" ∷ "• d" ∷ "" ∷ "‣ e" ∷ "" ∷ "⁃ f" ∷ [])
        ("<document>" ∷ "    <bullet_list bullet=\"*\">" ∷ "        <list_item>" ∷ "            <paragraph>" ∷ "                a"
        ∷ "    <bullet_list bullet=\"+\">" ∷ "        <list_item>" ∷ "            <paragraph>" ∷ "                b"
        ∷ "    <bullet_list bullet=\"-\">" ∷ "        <list_item>" ∷ "            <paragraph>" ∷ "                c"
        ∷ "    <bullet_list bullet=\"•\">" ∷ "        <list_item>" ∷ "            <paragraph>" ∷ "                d"
        ∷ "    <bullet_list bullet=\"‣\">" ∷ "        <list_item>" ∷ "            <paragraph>" ∷ "                e"
        ∷ "    <bullet_list bullet=\"⁃\">" ∷ "        <list_item>" ∷ "            <paragraph>" ∷ "                f" ∷ []) }
    ensures items { Means ("- a" ∷ "- b" ∷ "" ∷ "  c" ∷ "" ∷ "- d" ∷ []) 0
        ("<document> 0" ∷ "    <bullet_list bullet=\"-\"> 1" ∷ "        <list_item> 1" ∷ "            <paragraph> 1" ∷ "                a"
        ∷ "        <list_item> 2" ∷ "            <paragraph> 2" ∷ "                b" ∷ "            <paragraph> 4" ∷ "                c"
        ∷ "        <list_item> 6" ∷ "            <paragraph> 6" ∷ "                d" ∷ []) }
    ensures other_bullet_directly { Means ("- a" ∷ "* b" ∷ []) 0
        ("<document> 0" ∷ "    <bullet_list bullet=\"-\"> 1" ∷ "        <list_item> 1" ∷ "            <paragraph> 1" ∷ "                a"
        ∷ "    <system_message level=\"2\"> 2" ∷ "        <paragraph> 2"
        ∷ "            Bullet list ends without a blank line; unexpected unindent." ∷ "    <bullet_list bullet=\"*\"> 2"
        ∷ "        <list_item> 2" ∷ "            <paragraph> 2" ∷ "                b" ∷ []) }
    ensures without_a_blank_line { Means ("- a" ∷ "- b" ∷ "c" ∷ []) 0
        ("<document> 0" ∷ "    <bullet_list bullet=\"-\"> 1" ∷ "        <list_item> 1" ∷ "            <paragraph> 1" ∷ "                a"
        ∷ "        <list_item> 2" ∷ "            <paragraph> 2" ∷ "                b" ∷ "    <system_message level=\"2\"> 3"
        ∷ "        <paragraph> 3" ∷ "            Bullet list ends without a blank line; unexpected unindent." ∷ "    <paragraph> 3"
        ∷ "        c" ∷ []) }
    ensures nested { Means ("- a" ∷ "" ∷ "  - b" ∷ "  - c" ∷ "- d" ∷ []) 0
        ("<document> 0" ∷ "    <bullet_list bullet=\"-\"> 1" ∷ "        <list_item> 1" ∷ "            <paragraph> 1" ∷ "                a"
        ∷ "            <bullet_list bullet=\"-\"> 3" ∷ "                <list_item> 3" ∷ "                    <paragraph> 3"
        ∷ "                        b" ∷ "                <list_item> 4" ∷ "                    <paragraph> 4" ∷ "                        c"
        ∷ "        <list_item> 5" ∷ "            <paragraph> 5" ∷ "                d" ∷ []) }
    ensures nested_without_a_blank_line { Reads ("- a" ∷ "  - b" ∷ [])
        ("<document>" ∷ "    <bullet_list bullet=\"-\">" ∷ "        <list_item>" ∷ "            <paragraph>" ∷ "                a"
        ∷ "                - b" ∷ []) }
    ensures item_in_an_item { Reads ("- - a" ∷ [])
        ("<document>" ∷ "    <bullet_list bullet=\"-\">" ∷ "        <list_item>" ∷ "            <bullet_list bullet=\"-\">"
        ∷ "                <list_item>" ∷ "                    <paragraph>" ∷ "                        a" ∷ []) }
    ensures empty_item { Reads ("-" ∷ "- a" ∷ "" ∷ "-" ∷ "" ∷ "  b" ∷ [])
        ("<document>" ∷ "    <bullet_list bullet=\"-\">" ∷ "        <list_item>" ∷ "        <list_item>" ∷ "            <paragraph>"
        ∷ "                a" ∷ "        <list_item>" ∷ "            <paragraph>" ∷ "                b" ∷ []) }
    ensures wide_marker { Reads ("-   a" ∷ "" ∷ "    b" ∷ [])
        ("<document>" ∷ "    <bullet_list bullet=\"-\">" ∷ "        <list_item>" ∷ "            <paragraph>" ∷ "                a"
        ∷ "            <paragraph>" ∷ "                b" ∷ []) }
    ensures shallow_line { Means ("- a" ∷ " b" ∷ []) 0
        ("<document> 0" ∷ "    <bullet_list bullet=\"-\"> 1" ∷ "        <list_item> 1" ∷ "            <paragraph> 1" ∷ "                a"
        ∷ "    <system_message level=\"2\"> 2" ∷ "        <paragraph> 2"
        ∷ "            Bullet list ends without a blank line; unexpected unindent." ∷ "    <block_quote> 2" ∷ "        <paragraph> 2"
        ∷ "            b" ∷ []) }
    ensures no_mark { Reads ("-a" ∷ "" ∷ "*b* c" ∷ [])
        ("<document>" ∷ "    <paragraph>" ∷ "        -a" ∷ "    <paragraph>" ∷ "        <emphasis>" ∷ "            b" ∷ "         c" ∷ []) }
    ensures comment_between { Reads ("- a" ∷ "" ∷ ".." ∷ "" ∷ "- b" ∷ [])
        ("<document>" ∷ "    <bullet_list bullet=\"-\">" ∷ "        <list_item>" ∷ "            <paragraph>" ∷ "                a"
        ∷ "    <comment xml:space=\"preserve\">" ∷ "    <bullet_list bullet=\"-\">" ∷ "        <list_item>" ∷ "            <paragraph>"
        ∷ "                b" ∷ []) }
{}

/// Enumerators (Markup Specification, 'Enumerated Lists').
pub fn enumerators()
    ensures arabic { Reads ("1. a" ∷ "2. b" ∷ "" ∷ "10. c" ∷ [])
        ("<document>" ∷ "    <enumerated_list enumtype=\"arabic\" prefix=\"\" suffix=\".\">" ∷ "        <list_item>"
        ∷ "            <paragraph>" ∷ "                a" ∷ "        <list_item>" ∷ "            <paragraph>" ∷ "                b"
        ∷ "    <enumerated_list enumtype=\"arabic\" prefix=\"\" start=\"10\" suffix=\".\">" ∷ "        <list_item>"
        ∷ "            <paragraph>" ∷ "                c" ∷ "    <system_message level=\"1\">" ∷ "        <paragraph>"
        ∷ "            Enumerated list start value not ordinal-1: \"10\" (ordinal 10)" ∷ []) }
    ensures formats { Means ("(1) a" ∷ "" ∷ "1) b" ∷ "" ∷ "1. c" ∷ []) 0
        ("<document> 0" ∷ "    <enumerated_list enumtype=\"arabic\" prefix=\"(\" suffix=\")\"> 1" ∷ "        <list_item> 1"
        ∷ "            <paragraph> 1" ∷ "                a" ∷ "    <enumerated_list enumtype=\"arabic\" prefix=\"\" suffix=\")\"> 3"
        ∷ "        <list_item> 3" ∷ "            <paragraph> 3" ∷ "                b"
        ∷ "    <enumerated_list enumtype=\"arabic\" prefix=\"\" suffix=\".\"> 5" ∷ "        <list_item> 5" ∷ "            <paragraph> 5"
        ∷ "                c" ∷ []) }
    ensures letters { Reads ("a. x" ∷ "b. y" ∷ "" ∷ "(A) z" ∷ [])
        ("<document>" ∷ "    <enumerated_list enumtype=\"loweralpha\" prefix=\"\" suffix=\".\">" ∷ "        <list_item>"
        ∷ "            <paragraph>" ∷ "                x" ∷ "        <list_item>" ∷ "            <paragraph>" ∷ "                y"
        ∷ "    <enumerated_list enumtype=\"upperalpha\" prefix=\"(\" suffix=\")\">" ∷ "        <list_item>" ∷ "            <paragraph>"
        ∷ "                z" ∷ []) }
    ensures roman { Reads ("i. x" ∷ "ii. y" ∷ "" ∷ "IV) z" ∷ [])
        ("<document>" ∷ "    <enumerated_list enumtype=\"lowerroman\" prefix=\"\" suffix=\".\">" ∷ "        <list_item>"
        ∷ "            <paragraph>" ∷ "                x" ∷ "        <list_item>" ∷ "            <paragraph>" ∷ "                y"
        ∷ "    <enumerated_list enumtype=\"upperroman\" prefix=\"\" start=\"4\" suffix=\")\">" ∷ "        <list_item>"
        ∷ "            <paragraph>" ∷ "                z" ∷ "    <system_message level=\"1\">" ∷ "        <paragraph>"
        ∷ "            Enumerated list start value not ordinal-1: \"IV\" (ordinal 4)" ∷ []) }
    ensures letter_or_roman { Reads ("c. x" ∷ "d. y" ∷ "" ∷ "I. z" ∷ [])
        ("<document>" ∷ "    <enumerated_list enumtype=\"loweralpha\" prefix=\"\" start=\"3\" suffix=\".\">" ∷ "        <list_item>"
        ∷ "            <paragraph>" ∷ "                x" ∷ "        <list_item>" ∷ "            <paragraph>" ∷ "                y"
        ∷ "    <system_message level=\"1\">" ∷ "        <paragraph>"
        ∷ "            Enumerated list start value not ordinal-1: \"c\" (ordinal 3)"
        ∷ "    <enumerated_list enumtype=\"upperroman\" prefix=\"\" suffix=\".\">" ∷ "        <list_item>" ∷ "            <paragraph>"
        ∷ "                z" ∷ []) }
    ensures leading_zeros { Reads ("007. a" ∷ [])
        ("<document>" ∷ "    <enumerated_list enumtype=\"arabic\" prefix=\"\" start=\"7\" suffix=\".\">" ∷ "        <list_item>"
        ∷ "            <paragraph>" ∷ "                a" ∷ "    <system_message level=\"1\">" ∷ "        <paragraph>"
        ∷ "            Enumerated list start value not ordinal-1: \"007\" (ordinal 7)" ∷ []) }
    ensures spelling_of_the_next { Reads ("1. a" ∷ "02. b" ∷ [])
        ("<document>" ∷ "    <enumerated_list enumtype=\"arabic\" prefix=\"\" suffix=\".\">" ∷ "        <list_item>"
        ∷ "            <paragraph>" ∷ "                a" ∷ "        <list_item>" ∷ "            <paragraph>" ∷ "                b" ∷ []) }
    ensures zero { Reads ("0. a" ∷ [])
        ("<document>" ∷ "    <enumerated_list enumtype=\"arabic\" prefix=\"\" start=\"0\" suffix=\".\">" ∷ "        <list_item>"
        ∷ "            <paragraph>" ∷ "                a" ∷ "    <system_message level=\"1\">" ∷ "        <paragraph>"
        ∷ "            Enumerated list start value not ordinal-1: \"0\" (ordinal 0)" ∷ []) }
    ensures initial { Reads ("A. Einstein" ∷ [])
        ("<document>" ∷ "    <enumerated_list enumtype=\"upperalpha\" prefix=\"\" suffix=\".\">" ∷ "        <list_item>"
        ∷ "            <paragraph>" ∷ "                Einstein" ∷ []) }
    ensures numeral_not_canonical { Reads ("iiii. b" ∷ [])
        ("<document>" ∷ "    <paragraph>" ∷ "        iiii. b" ∷ []) }
    ensures ten_digits { Reads ("1234567890. c" ∷ [])
        ("<document>" ∷ "    <paragraph>" ∷ "        1234567890. c" ∷ []) }
{}

/// Enumerated lists (Markup Specification, 'Enumerated Lists').
pub fn enumerated_lists()
    ensures number_signs { Reads ("#. a" ∷ "#. b" ∷ "" ∷ "3. c" ∷ "#. d" ∷ [])
        ("<document>" ∷ "    <enumerated_list enumtype=\"arabic\" prefix=\"\" suffix=\".\">" ∷ "        <list_item>"
        ∷ "            <paragraph>" ∷ "                a" ∷ "        <list_item>" ∷ "            <paragraph>" ∷ "                b"
        ∷ "    <enumerated_list enumtype=\"arabic\" prefix=\"\" start=\"3\" suffix=\".\">" ∷ "        <list_item>" ∷ "            <paragraph>"
        ∷ "                c" ∷ "        <list_item>" ∷ "            <paragraph>" ∷ "                d" ∷ "    <system_message level=\"1\">"
        ∷ "        <paragraph>" ∷ "            Enumerated list start value not ordinal-1: \"3\" (ordinal 3)" ∷ []) }
    ensures after_a_number_sign { Reads ("#. a" ∷ "2. b" ∷ []) ("<document>" ∷ "    <paragraph>" ∷ "        #. a" ∷ "        2. b" ∷ []) }
    ensures ordinal_after_number_signs { Reads ("1. a" ∷ "#. b" ∷ "" ∷ "2. c" ∷ [])
        ("<document>" ∷ "    <enumerated_list enumtype=\"arabic\" prefix=\"\" suffix=\".\">" ∷ "        <list_item>"
        ∷ "            <paragraph>" ∷ "                a" ∷ "        <list_item>" ∷ "            <paragraph>" ∷ "                b"
        ∷ "    <enumerated_list enumtype=\"arabic\" prefix=\"\" start=\"2\" suffix=\".\">" ∷ "        <list_item>" ∷ "            <paragraph>"
        ∷ "                c" ∷ "    <system_message level=\"1\">" ∷ "        <paragraph>"
        ∷ "            Enumerated list start value not ordinal-1: \"2\" (ordinal 2)" ∷ []) }
    ensures ordinal_after_the_first_number_sign { Reads ("#. a" ∷ "" ∷ "2. b" ∷ [])
        ("<document>" ∷ "    <enumerated_list enumtype=\"arabic\" prefix=\"\" suffix=\".\">" ∷ "        <list_item>"
        ∷ "            <paragraph>" ∷ "                a" ∷ "    <enumerated_list enumtype=\"arabic\" prefix=\"\" start=\"2\" suffix=\".\">"
        ∷ "        <list_item>" ∷ "            <paragraph>" ∷ "                b" ∷ "    <system_message level=\"1\">" ∷ "        <paragraph>"
        ∷ "            Enumerated list start value not ordinal-1: \"2\" (ordinal 2)" ∷ []) }
    ensures first_line_of_the_list { Means ("x" ∷ "" ∷ "(3) a" ∷ "(4) b" ∷ []) 0
        ("<document> 0" ∷ "    <paragraph> 1" ∷ "        x"
        ∷ "    <enumerated_list enumtype=\"arabic\" prefix=\"(\" start=\"3\" suffix=\")\"> 3" ∷ "        <list_item> 3"
        ∷ "            <paragraph> 3" ∷ "                a" ∷ "        <list_item> 4" ∷ "            <paragraph> 4" ∷ "                b"
        ∷ "    <system_message level=\"1\"> 3" ∷ "        <paragraph> 3"
        ∷ "            Enumerated list start value not ordinal-1: \"3\" (ordinal 3)" ∷ []) }
    ensures without_a_blank_line { Means ("i. a" ∷ "j. b" ∷ []) 0
        ("<document> 0" ∷ "    <enumerated_list enumtype=\"lowerroman\" prefix=\"\" suffix=\".\"> 1" ∷ "        <list_item> 1"
        ∷ "            <paragraph> 1" ∷ "                a" ∷ "    <system_message level=\"2\"> 2" ∷ "        <paragraph> 2"
        ∷ "            Enumerated list ends without a blank line; unexpected unindent."
        ∷ "    <enumerated_list enumtype=\"loweralpha\" prefix=\"\" start=\"10\" suffix=\".\"> 2" ∷ "        <list_item> 2"
        ∷ "            <paragraph> 2" ∷ "                b" ∷ "    <system_message level=\"1\"> 2" ∷ "        <paragraph> 2"
        ∷ "            Enumerated list start value not ordinal-1: \"j\" (ordinal 10)" ∷ []) }
    ensures start_before_the_end { Means ("c. x" ∷ "ci. y" ∷ []) 0
        ("<document> 0" ∷ "    <enumerated_list enumtype=\"loweralpha\" prefix=\"\" start=\"3\" suffix=\".\"> 1" ∷ "        <list_item> 1"
        ∷ "            <paragraph> 1" ∷ "                x" ∷ "    <system_message level=\"1\"> 1" ∷ "        <paragraph> 1"
        ∷ "            Enumerated list start value not ordinal-1: \"c\" (ordinal 3)" ∷ "    <system_message level=\"2\"> 2"
        ∷ "        <paragraph> 2" ∷ "            Enumerated list ends without a blank line; unexpected unindent."
        ∷ "    <enumerated_list enumtype=\"lowerroman\" prefix=\"\" start=\"101\" suffix=\".\"> 2" ∷ "        <list_item> 2"
        ∷ "            <paragraph> 2" ∷ "                y" ∷ "    <system_message level=\"1\"> 2" ∷ "        <paragraph> 2"
        ∷ "            Enumerated list start value not ordinal-1: \"ci\" (ordinal 101)" ∷ []) }
    ensures gap { Reads ("1. a" ∷ "" ∷ "3. b" ∷ [])
        ("<document>" ∷ "    <enumerated_list enumtype=\"arabic\" prefix=\"\" suffix=\".\">" ∷ "        <list_item>"
        ∷ "            <paragraph>" ∷ "                a" ∷ "    <enumerated_list enumtype=\"arabic\" prefix=\"\" start=\"3\" suffix=\".\">"
        ∷ "        <list_item>" ∷ "            <paragraph>" ∷ "                b" ∷ "    <system_message level=\"1\">" ∷ "        <paragraph>"
        ∷ "            Enumerated list start value not ordinal-1: \"3\" (ordinal 3)" ∷ []) }
    ensures gap_directly { Reads ("1. a" ∷ "3. b" ∷ []) ("<document>" ∷ "    <paragraph>" ∷ "        1. a" ∷ "        3. b" ∷ []) }
    ensures other_format { Reads ("1. a" ∷ "" ∷ "2) b" ∷ [])
        ("<document>" ∷ "    <enumerated_list enumtype=\"arabic\" prefix=\"\" suffix=\".\">" ∷ "        <list_item>"
        ∷ "            <paragraph>" ∷ "                a" ∷ "    <enumerated_list enumtype=\"arabic\" prefix=\"\" start=\"2\" suffix=\")\">"
        ∷ "        <list_item>" ∷ "            <paragraph>" ∷ "                b" ∷ "    <system_message level=\"1\">" ∷ "        <paragraph>"
        ∷ "            Enumerated list start value not ordinal-1: \"2\" (ordinal 2)" ∷ []) }
    ensures text_below { Reads ("1. a" ∷ "b" ∷ []) ("<document>" ∷ "    <paragraph>" ∷ "        1. a" ∷ "        b" ∷ []) }
    ensures body { Means ("1. a" ∷ "" ∷ "   b" ∷ "" ∷ "2." ∷ "   c" ∷ []) 0
        ("<document> 0" ∷ "    <enumerated_list enumtype=\"arabic\" prefix=\"\" suffix=\".\"> 1" ∷ "        <list_item> 1"
        ∷ "            <paragraph> 1" ∷ "                a" ∷ "            <paragraph> 3" ∷ "                b" ∷ "        <list_item> 5"
        ∷ "            <paragraph> 6" ∷ "                c" ∷ []) }
{}

/// Definition lists (Markup Specification, 'Definition Lists').
pub fn definitions()
    ensures items { Means ("a" ∷ "  b" ∷ "c" ∷ "  d" ∷ "" ∷ "  e" ∷ "" ∷ "f" ∷ "  g" ∷ []) 0
        ("<document> 0" ∷ "    <definition_list> 1" ∷ "        <definition_list_item> 1" ∷ "            <term> 1" ∷ "                a"
        ∷ "            <definition> 1" ∷ "                <paragraph> 2" ∷ "                    b" ∷ "        <definition_list_item> 3"
        ∷ "            <term> 3" ∷ "                c" ∷ "            <definition> 3" ∷ "                <paragraph> 4"
        ∷ "                    d" ∷ "                <paragraph> 6" ∷ "                    e" ∷ "        <definition_list_item> 8"
        ∷ "            <term> 8" ∷ "                f" ∷ "            <definition> 8" ∷ "                <paragraph> 9"
        ∷ "                    g" ∷ []) }
    ensures classifiers { Reads ("a : b : c" ∷ "  d" ∷ [])
        ("<document>" ∷ "    <definition_list>" ∷ "        <definition_list_item>" ∷ "            <term>" ∷ "                a"
        ∷ "            <classifier>" ∷ "                b" ∷ "            <classifier>" ∷ "                c" ∷ "            <definition>"
        ∷ "                <paragraph>" ∷ "                    d" ∷ []) }
    ensures classifier_with_markup { Reads ("*a* b : `c` d" ∷ "  e" ∷ [])
        ("<document>" ∷ "    <definition_list>" ∷ "        <definition_list_item>" ∷ "            <term>" ∷ "                <emphasis>"
        ∷ "                    a" ∷ "                 b" ∷ "            <classifier>" ∷ "                <title_reference>"
        ∷ "                    c" ∷ "                 d" ∷ "            <definition>" ∷ "                <paragraph>"
        ∷ "                    e" ∷ []) }
    ensures colons_without_spaces { Reads ("a: b :c" ∷ "  f" ∷ [])
        ("<document>" ∷ "    <definition_list>" ∷ "        <definition_list_item>" ∷ "            <term>" ∷ "                a: b :c"
        ∷ "            <definition>" ∷ "                <paragraph>" ∷ "                    f" ∷ []) }
    ensures colon_in_a_literal { Reads ("a ``d : e``" ∷ "  f" ∷ [])
        ("<document>" ∷ "    <definition_list>" ∷ "        <definition_list_item>" ∷ "            <term>" ∷ "                a "
        ∷ "                <literal>" ∷ "                    d : e" ∷ "            <definition>" ∷ "                <paragraph>"
        ∷ "                    f" ∷ []) }
    ensures escaped_colon { Reads ("a \\: b" ∷ "  c" ∷ [])
        ("<document>" ∷ "    <definition_list>" ∷ "        <definition_list_item>" ∷ "            <term>" ∷ "                a : b"
        ∷ "            <definition>" ∷ "                <paragraph>" ∷ "                    c" ∷ []) }
    ensures empty_parts { Reads ("a : :sub:`x` : b" ∷ "  c" ∷ [])
        ("<document>" ∷ "    <definition_list>" ∷ "        <definition_list_item>" ∷ "            <term>" ∷ "                a"
        ∷ "            <classifier>" ∷ "                <subscript>" ∷ "                    x" ∷ "            <classifier>"
        ∷ "                b" ∷ "            <definition>" ∷ "                <paragraph>" ∷ "                    c" ∷ []) }
    ensures without_a_blank_line { Means ("a" ∷ "  b" ∷ "c" ∷ []) 0
        ("<document> 0" ∷ "    <definition_list> 1" ∷ "        <definition_list_item> 1" ∷ "            <term> 1" ∷ "                a"
        ∷ "            <definition> 1" ∷ "                <paragraph> 2" ∷ "                    b" ∷ "    <system_message level=\"2\"> 3"
        ∷ "        <paragraph> 3" ∷ "            Definition list ends without a blank line; unexpected unindent." ∷ "    <paragraph> 3"
        ∷ "        c" ∷ []) }
    ensures messages_of_a_term { Means ("a : *b" ∷ "  c" ∷ []) 1
        ("<document> 0" ∷ "    <definition_list> 1" ∷ "        <definition_list_item> 1" ∷ "            <term text_messages=\"1\"> 1"
        ∷ "                a" ∷ "            <classifier> 1" ∷ "                <problematic message=\"0\"> 1" ∷ "                    *"
        ∷ "                b" ∷ "            <definition> 1" ∷ "                <system_message level=\"2\" message=\"0\"> 1"
        ∷ "                    <paragraph> 1" ∷ "                        Inline emphasis start-string without end-string."
        ∷ "                <paragraph> 2" ∷ "                    c" ∷ []) }
    ensures short_adornment_as_a_term { Means ("a" ∷ "  b" ∷ "" ∷ "--" ∷ "  c" ∷ []) 0
        ("<document> 0" ∷ "    <system_message level=\"1\"> 4" ∷ "        <paragraph> 4" ∷ "            Possible incomplete section title."
        ∷ "            Treating the overline as ordinary text because it's so short." ∷ "    <definition_list> 1"
        ∷ "        <definition_list_item> 1" ∷ "            <term> 1" ∷ "                a" ∷ "            <definition> 1"
        ∷ "                <paragraph> 2" ∷ "                    b" ∷ "        <definition_list_item> 4" ∷ "            <term> 4"
        ∷ "                --" ∷ "            <definition> 4" ∷ "                <paragraph> 5" ∷ "                    c" ∷ []) }
    ensures deeper_line { Means ("a" ∷ "    b" ∷ "  c" ∷ []) 0
        ("<document> 0" ∷ "    <definition_list> 1" ∷ "        <definition_list_item> 1" ∷ "            <term> 1" ∷ "                a"
        ∷ "            <definition> 1" ∷ "                <block_quote> 2" ∷ "                    <paragraph> 2" ∷ "                        b"
        ∷ "                <system_message level=\"2\"> 3" ∷ "                    <paragraph> 3"
        ∷ "                        Block quote ends without a blank line; unexpected unindent." ∷ "                <paragraph> 3"
        ∷ "                    c" ∷ []) }
{}

/// Field lists (Markup Specification, 'Field Lists').
pub fn fields()
    ensures items { Means (":a: b" ∷ ":c d:" ∷ "  e" ∷ "" ∷ "  f" ∷ "" ∷ ":g:" ∷ []) 0
        ("<document> 0" ∷ "    <field_list> 1" ∷ "        <field> 1" ∷ "            <field_name> 1" ∷ "                a"
        ∷ "            <field_body> 1" ∷ "                <paragraph> 1" ∷ "                    b" ∷ "        <field> 2"
        ∷ "            <field_name> 2" ∷ "                c d" ∷ "            <field_body> 2" ∷ "                <paragraph> 3"
        ∷ "                    e" ∷ "                <paragraph> 5" ∷ "                    f" ∷ "        <field> 7"
        ∷ "            <field_name> 7" ∷ "                g" ∷ "            <field_body> 7" ∷ []) }
    ensures body_by_its_second_line { Reads (":a: b" ∷ "     c" ∷ "" ∷ "   d" ∷ [])
        ("<document>" ∷ "    <field_list>" ∷ "        <field>" ∷ "            <field_name>" ∷ "                a" ∷ "            <field_body>"
        ∷ "                <definition_list>" ∷ "                    <definition_list_item>" ∷ "                        <term>"
        ∷ "                            b" ∷ "                        <definition>" ∷ "                            <paragraph>"
        ∷ "                                c" ∷ "                <paragraph>" ∷ "                    d" ∷ []) }
    ensures markup_in_a_name { Reads (":*a* b: c" ∷ [])
        ("<document>" ∷ "    <field_list>" ∷ "        <field>" ∷ "            <field_name>" ∷ "                <emphasis>"
        ∷ "                    a" ∷ "                 b" ∷ "            <field_body>" ∷ "                <paragraph>"
        ∷ "                    c" ∷ []) }
    ensures colons { Reads (":a:b: c" ∷ "" ∷ ":d\\: e: f" ∷ "" ∷ ":g:`h`: i" ∷ [])
        ("<document>" ∷ "    <field_list>" ∷ "        <field>" ∷ "            <field_name>" ∷ "                a:b"
        ∷ "            <field_body>" ∷ "                <paragraph>" ∷ "                    c" ∷ "        <field>"
        ∷ "            <field_name>" ∷ "                d: e" ∷ "            <field_body>" ∷ "                <paragraph>"
        ∷ "                    f" ∷ "        <field>" ∷ "            <field_name>" ∷ "                g:"
        ∷ "                <title_reference>" ∷ "                    h" ∷ "            <field_body>" ∷ "                <paragraph>"
        ∷ "                    i" ∷ []) }
    ensures no_field { Reads (": a: b" ∷ "" ∷ ":c :d" ∷ "" ∷ ":e:f" ∷ [])
        ("<document>" ∷ "    <paragraph>" ∷ "        : a: b" ∷ "    <paragraph>" ∷ "        :c :d" ∷ "    <paragraph>" ∷ "        :e:f" ∷ []) }
    ensures messages_of_a_name { Means (":*a: b" ∷ []) 1
        ("<document> 0" ∷ "    <field_list> 1" ∷ "        <field> 1" ∷ "            <field_name text_messages=\"1\"> 1"
        ∷ "                <problematic message=\"0\"> 1" ∷ "                    *" ∷ "                a" ∷ "            <field_body> 1"
        ∷ "                <system_message level=\"2\" message=\"0\"> 1" ∷ "                    <paragraph> 1"
        ∷ "                        Inline emphasis start-string without end-string." ∷ "                <paragraph> 1"
        ∷ "                    b" ∷ []) }
    ensures without_a_blank_line { Means (":a: b" ∷ "c" ∷ []) 0
        ("<document> 0" ∷ "    <field_list> 1" ∷ "        <field> 1" ∷ "            <field_name> 1" ∷ "                a"
        ∷ "            <field_body> 1" ∷ "                <paragraph> 1" ∷ "                    b" ∷ "    <system_message level=\"2\"> 2"
        ∷ "        <paragraph> 2" ∷ "            Field list ends without a blank line; unexpected unindent." ∷ "    <paragraph> 2"
        ∷ "        c" ∷ []) }
{}

/// Option lists (Markup Specification, 'Option Lists').
pub fn options()
    ensures kinds { Reads ("-a  b" ∷ "+c  d" ∷ "--long-name  e" ∷ "/V  f" ∷ [])
        ("<document>" ∷ "    <option_list>" ∷ "        <option_list_item>" ∷ "            <option_group>" ∷ "                <option>"
        ∷ "                    <option_string>" ∷ "                        -a" ∷ "            <description>" ∷ "                <paragraph>"
        ∷ "                    b" ∷ "        <option_list_item>" ∷ "            <option_group>" ∷ "                <option>"
        ∷ "                    <option_string>" ∷ "                        +c" ∷ "            <description>" ∷ "                <paragraph>"
        ∷ "                    d" ∷ "        <option_list_item>" ∷ "            <option_group>" ∷ "                <option>"
        ∷ "                    <option_string>" ∷ "                        --long-name" ∷ "            <description>"
        ∷ "                <paragraph>" ∷ "                    e" ∷ "        <option_list_item>" ∷ "            <option_group>"
        ∷ "                <option>" ∷ "                    <option_string>" ∷ "                        /V" ∷ "            <description>"
        ∷ "                <paragraph>" ∷ "                    f" ∷ []) }
    ensures arguments { Reads ("-a X  b" ∷ "-cY   d" ∷ "--e=Z_1  f" ∷ "--g <a b>  h" ∷ "/i:j  k" ∷ [])
        ("<document>" ∷ "    <option_list>" ∷ "        <option_list_item>" ∷ "            <option_group>" ∷ "                <option>"
        ∷ "                    <option_string>" ∷ "                        -a" ∷ "                    <option_argument delimiter=\" \">"
        ∷ "                        X" ∷ "            <description>" ∷ "                <paragraph>" ∷ "                    b"
        ∷ "        <option_list_item>" ∷ "            <option_group>" ∷ "                <option>" ∷ "                    <option_string>"
        ∷ "                        -c" ∷ "                    <option_argument delimiter=\"\">" ∷ "                        Y"
        ∷ "            <description>" ∷ "                <paragraph>" ∷ "                    d" ∷ "        <option_list_item>"
        ∷ "            <option_group>" ∷ "                <option>" ∷ "                    <option_string>" ∷ "                        --e"
        ∷ "                    <option_argument delimiter=\"=\">" ∷ "                        Z_1" ∷ "            <description>"
        ∷ "                <paragraph>" ∷ "                    f" ∷ "        <option_list_item>" ∷ "            <option_group>"
        ∷ "                <option>" ∷ "                    <option_string>" ∷ "                        --g"
        ∷ "                    <option_argument delimiter=\" \">" ∷ "                        <a b>" ∷ "            <description>"
        ∷ "                <paragraph>" ∷ "                    h" ∷ "    <system_message level=\"2\">" ∷ "        <paragraph>"
        ∷ "            Option list ends without a blank line; unexpected unindent." ∷ "    <paragraph>" ∷ "        /i:j  k" ∷ []) }
    ensures group { Reads ("-a N, --all=N, /A  b" ∷ [])
        ("<document>" ∷ "    <option_list>" ∷ "        <option_list_item>" ∷ "            <option_group>" ∷ "                <option>"
        ∷ "                    <option_string>" ∷ "                        -a" ∷ "                    <option_argument delimiter=\" \">"
        ∷ "                        N" ∷ "                <option>" ∷ "                    <option_string>" ∷ "                        --all"
        ∷ "                    <option_argument delimiter=\"=\">" ∷ "                        N" ∷ "                <option>"
        ∷ "                    <option_string>" ∷ "                        /A" ∷ "            <description>" ∷ "                <paragraph>"
        ∷ "                    b" ∷ []) }
    ensures description_below { Means ("-a" ∷ "    b" ∷ "-c  d" ∷ "" ∷ "    e" ∷ "" ∷ "--f" ∷ "" ∷ "    g" ∷ []) 0
        ("<document> 0" ∷ "    <option_list> 1" ∷ "        <option_list_item> 1" ∷ "            <option_group> 1"
        ∷ "                <option> 1" ∷ "                    <option_string> 1" ∷ "                        -a"
        ∷ "            <description> 1" ∷ "                <paragraph> 2" ∷ "                    b" ∷ "        <option_list_item> 3"
        ∷ "            <option_group> 3" ∷ "                <option> 3" ∷ "                    <option_string> 3"
        ∷ "                        -c" ∷ "            <description> 3" ∷ "                <paragraph> 3" ∷ "                    d"
        ∷ "                <paragraph> 5" ∷ "                    e" ∷ "        <option_list_item> 7" ∷ "            <option_group> 7"
        ∷ "                <option> 7" ∷ "                    <option_string> 7" ∷ "                        --f"
        ∷ "            <description> 7" ∷ "                <paragraph> 9" ∷ "                    g" ∷ []) }
    ensures no_description { Reads ("-a" ∷ "b" ∷ []) ("<document>" ∷ "    <paragraph>" ∷ "        -a" ∷ "        b" ∷ []) }
    ensures one_space { Reads ("-a b" ∷ []) ("<document>" ∷ "    <paragraph>" ∷ "        -a b" ∷ []) }
    ensures without_a_blank_line { Means ("-a  b" ∷ "c" ∷ []) 0
        ("<document> 0" ∷ "    <option_list> 1" ∷ "        <option_list_item> 1" ∷ "            <option_group> 1"
        ∷ "                <option> 1" ∷ "                    <option_string> 1" ∷ "                        -a"
        ∷ "            <description> 1" ∷ "                <paragraph> 1" ∷ "                    b" ∷ "    <system_message level=\"2\"> 2"
        ∷ "        <paragraph> 2" ∷ "            Option list ends without a blank line; unexpected unindent." ∷ "    <paragraph> 2"
        ∷ "        c" ∷ []) }
{}
