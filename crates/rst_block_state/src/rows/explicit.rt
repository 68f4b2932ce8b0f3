//! Explicit markup: footnotes, citations, targets, substitution definitions and comments, in documents.
#![tactic(auto, unfolding(crate::proofs::Computing::rst_block_state))]

ghost use Rattle.std.specs.Prelude.{[], ◌∷◌};
ghost use Rattle.rst_block_state.specs.Reads.{Means, Reads};

/// Footnotes (Markup Specification, 'Footnotes').
pub fn footnotes()
    ensures kinds { Means (".. [1] a" ∷ ".. [#] b" ∷ ".. [#N m] c" ∷ ".. [#Nm] d" ∷ ".. [*] e" ∷ ".. [] f" ∷ []) 0
        ("<document> 0" ∷ "    <footnote mark=\"1\" own_name=\"1\"> 1" ∷ "        <label> 1" ∷ "            1" ∷ "        <paragraph> 1"
        ∷ "            a" ∷ "    <footnote auto=\"1\" mark=\"#\"> 2" ∷ "        <label> 2" ∷ "        <paragraph> 2" ∷ "            b"
        ∷ "    <comment xml:space=\"preserve\"> 3" ∷ "        [#N m] c" ∷ "    <footnote auto=\"1\" mark=\"#Nm\" own_name=\"nm\"> 4"
        ∷ "        <label> 4" ∷ "        <paragraph> 4" ∷ "            d" ∷ "    <footnote auto=\"*\" mark=\"*\"> 5" ∷ "        <label> 5"
        ∷ "        <paragraph> 5" ∷ "            e" ∷ "    <comment xml:space=\"preserve\"> 6" ∷ "        [] f" ∷ []) }
    ensures body { Means (".. [1] a" ∷ "  b" ∷ "" ∷ "  c" ∷ ".. [2]" ∷ "" ∷ "   d" ∷ []) 0
        ("<document> 0" ∷ "    <footnote mark=\"1\" own_name=\"1\"> 1" ∷ "        <label> 1" ∷ "            1" ∷ "        <paragraph> 1"
        ∷ "            a" ∷ "            b" ∷ "        <paragraph> 4" ∷ "            c" ∷ "    <footnote mark=\"2\" own_name=\"2\"> 5"
        ∷ "        <label> 5" ∷ "            2" ∷ "        <paragraph> 7" ∷ "            d" ∷ []) }
{}

/// Citations (Markup Specification, 'Citations').
pub fn citations()
    ensures one { Means (".. [Ab-1] c" ∷ ".. [２] d" ∷ []) 0
        ("<document> 0" ∷ "    <citation own_name=\"ab-1\"> 1" ∷ "        <label> 1" ∷ "            Ab-1" ∷ "        <paragraph> 1"
        ∷ "            c" ∷ "    <citation own_name=\"２\"> 2" ∷ "        <label> 2" ∷ "            ２" ∷ "        <paragraph> 2"
        ∷ "            d" ∷ []) }
    ensures body_below { Means (".. [A]" ∷ "" ∷ "   b" ∷ []) 0
        ("<document> 0" ∷ "    <citation own_name=\"a\"> 1" ∷ "        <label> 1" ∷ "            A" ∷ "        <paragraph> 3"
        ∷ "            b" ∷ []) }
    ensures no_label { Reads (".. [a b] c" ∷ []) ("<document>" ∷ "    <comment xml:space=\"preserve\">" ∷ "        [a b] c" ∷ []) }
{}

/// Hyperlink targets (Markup Specification, 'Hyperlink Targets').
pub fn targets()
    ensures destinations { Means (".. _A: http://x.org/a b" ∷ ".. _b: A_" ∷ ".. _c: `D" ∷ "   e`_" ∷ ".. _f:" ∷ []) 0
        ("<document> 0" ∷ "    <target own_name=\"a\" refuri=\"http://x.org/ab\"> 1" ∷ "    <target own_name=\"b\" refname=\"a\"> 2"
        ∷ "    <target own_name=\"c\" refname=\"d e\"> 3" ∷ "    <target own_name=\"f\"> 5" ∷ []) }
    ensures names { Means (".. _a:b c: u" ∷ ".. _d\\:: v" ∷ ".. _`e: f`: w" ∷ []) 0
        ("<document> 0" ∷ "    <target own_name=\"a:b c\" refuri=\"u\"> 1" ∷ "    <target own_name=\"d:\" refuri=\"v\"> 2"
        ∷ "    <target own_name=\"e: f\" refuri=\"w\"> 3" ∷ []) }
    ensures anonymous { Means ("__ u" ∷ "" ∷ ".. __: v_" ∷ []) 0
        ("<document> 0" ∷ "    <target anonymous=\"1\" refuri=\"u\"> 1" ∷ "    <target anonymous=\"1\" refname=\"v\"> 3" ∷ []) }
    ensures several_lines { Reads (".. _a: http://x.org/" ∷ "   b/" ∷ "      c" ∷ "   d" ∷ "" ∷ "__ e" ∷ "   f" ∷ [])
        ("<document>" ∷ "    <target refuri=\"http://x.org/b/cd\">" ∷ "    <target anonymous=\"1\" refuri=\"ef\">" ∷ []) }
    ensures escapes { Reads (".. _a: b\\_" ∷ ".. _c: `d`\\_" ∷ [])
        ("<document>" ∷ "    <target refuri=\"b_\">" ∷ "    <target refuri=\"`d`_\">" ∷ []) }
    ensures malformed { Means (".. _a b" ∷ "" ∷ ".. _: c" ∷ []) 0
        ("<document> 0" ∷ "    <comment xml:space=\"preserve\"> 1" ∷ "        _a b" ∷ "    <system_message level=\"2\"> 1"
        ∷ "        <paragraph> 1" ∷ "            malformed hyperlink target." ∷ "    <comment xml:space=\"preserve\"> 3" ∷ "        _: c"
        ∷ "    <system_message level=\"2\"> 3" ∷ "        <paragraph> 3" ∷ "            malformed hyperlink target." ∷ []) }
    ensures without_a_blank_line { Means (".. _a:" ∷ "b" ∷ []) 0
        ("<document> 0" ∷ "    <target own_name=\"a\"> 1" ∷ "    <system_message level=\"2\"> 2" ∷ "        <paragraph> 2"
        ∷ "            Explicit markup ends without a blank line; unexpected unindent." ∷ "    <paragraph> 2" ∷ "        b" ∷ []) }
{}

/// Substitution definitions (Markup Specification, 'Substitution Definitions').
pub fn substitutions()
    ensures replacement { Means (".. |A  b| replace:: c *d*" ∷ "   e" ∷ []) 0
        ("<document> 0" ∷ "    <substitution_definition own_name=\"A b\"> 1" ∷ "        c " ∷ "        <emphasis> 1" ∷ "            d"
        ∷ "        " ∷ "        e" ∷ []) }
    ensures image { Means (".. |a| image:: b" ∷ ".. |c| image:: d" ∷ "   :alt: e" ∷ []) 0
        ("<document> 0" ∷ "    <substitution_definition own_name=\"a\"> 1" ∷ "        <image alt=\"a\" uri=\"b\"> 1"
        ∷ "    <substitution_definition own_name=\"c\"> 2" ∷ "        <image alt=\"e\" uri=\"d\"> 2" ∷ []) }
    ensures text_elements { Reads (".. |a| replace:: **b** ``c`` :sub:`d` :sup:`e`" ∷ [])
        ("<document>" ∷ "    <substitution_definition>" ∷ "        <strong>" ∷ "            b" ∷ "         " ∷ "        <literal>"
        ∷ "            c" ∷ "         " ∷ "        <subscript>" ∷ "            d" ∷ "         " ∷ "        <superscript>"
        ∷ "            e" ∷ []) }
    ensures references { Reads (".. |a| replace:: `f` g_ http://h |i|" ∷ [])
        ("<document>" ∷ "    <substitution_definition>" ∷ "        <title_reference>" ∷ "            f" ∷ "         "
        ∷ "        <reference name=\"g\">" ∷ "            g" ∷ "         " ∷ "        <reference refuri=\"http://h\">"
        ∷ "            http://h" ∷ "         " ∷ "        <substitution_reference>" ∷ "            i" ∷ []) }
    ensures messages_dropped { Reads (".. |a| replace:: b::" ∷ ".. |c| replace:: --" ∷ [])
        ("<document>" ∷ "    <substitution_definition>" ∷ "        b:" ∷ "    <substitution_definition>" ∷ "        --" ∷ []) }
{}

/// Substitution definitions that are wrong (Markup Specification, 'Substitution Definitions').
pub fn wrong_substitutions()
    ensures empty_or_invalid { Means (".. |a  B| c" ∷ []) 0
        ("<document> 0" ∷ "    <system_message level=\"2\"> 1" ∷ "        <paragraph> 1"
        ∷ "            Substitution definition \"a B\" empty or invalid." ∷ "        <literal_block xml:space=\"preserve\"> 1"
        ∷ "            .. |a  B| c" ∷ []) }
    ensures other_directive { Means ("x" ∷ "" ∷ ".. |a| note::" ∷ "   b" ∷ "" ∷ ".. |c| nope:: d" ∷ []) 0
        ("<document> 0" ∷ "    <paragraph> 1" ∷ "        x" ∷ "    <system_message level=\"3\"> 3" ∷ "        <paragraph> 3"
        ∷ "            Substitution definition \"a\" may hold only image or replace."
        ∷ "        <literal_block xml:space=\"preserve\"> 3" ∷ "            .. |a| note::" ∷ "               b"
        ∷ "    <system_message level=\"3\"> 6" ∷ "        <paragraph> 6"
        ∷ "            Substitution definition \"c\" may hold only image or replace."
        ∷ "        <literal_block xml:space=\"preserve\"> 6" ∷ "            .. |c| nope:: d" ∷ []) }
    ensures anonymous_reference { Means ("x" ∷ "" ∷ ".. |a| replace::" ∷ "   b__" ∷ []) 0
        ("<document> 0" ∷ "    <paragraph> 1" ∷ "        x" ∷ "    <system_message level=\"3\"> 3" ∷ "        <paragraph> 3"
        ∷ "            Substitution definition \"a\" contains an illegal element."
        ∷ "        <literal_block xml:space=\"preserve\"> 3" ∷ "            .. |a| replace::" ∷ "               b__" ∷ []) }
    ensures footnote_reference { Reads (".. |c| replace:: [1]_" ∷ [])
        ("<document>" ∷ "    <system_message level=\"3\">" ∷ "        <paragraph>"
        ∷ "            Substitution definition \"c\" contains an illegal element." ∷ "        <literal_block xml:space=\"preserve\">"
        ∷ "            .. |c| replace:: [1]_" ∷ []) }
    ensures substitution_reference { Reads (".. |d| replace:: |e|_" ∷ [])
        ("<document>" ∷ "    <system_message level=\"3\">" ∷ "        <paragraph>"
        ∷ "            Substitution definition \"d\" contains an illegal element." ∷ "        <literal_block xml:space=\"preserve\">"
        ∷ "            .. |d| replace:: |e|_" ∷ []) }
    ensures embedded_uri { Reads (".. |f| replace:: `g <h>`_" ∷ [])
        ("<document>" ∷ "    <system_message level=\"3\">" ∷ "        <paragraph>"
        ∷ "            Substitution definition \"f\" contains an illegal element." ∷ "        <literal_block xml:space=\"preserve\">"
        ∷ "            .. |f| replace:: `g <h>`_" ∷ []) }
    ensures unended_emphasis { Reads (".. |i| replace:: *j" ∷ [])
        ("<document>" ∷ "    <system_message level=\"3\">" ∷ "        <paragraph>"
        ∷ "            Substitution definition \"i\" contains an illegal element." ∷ "        <literal_block xml:space=\"preserve\">"
        ∷ "            .. |i| replace:: *j" ∷ []) }
    ensures two_paragraphs { Means ("x" ∷ "" ∷ ".. |a| replace::" ∷ "   b" ∷ "" ∷ "   c" ∷ []) 0
        ("<document> 0" ∷ "    <paragraph> 1" ∷ "        x" ∷ "    <system_message level=\"3\"> 3" ∷ "        <paragraph> 3"
        ∷ "            Error in \"replace\" directive:" ∷ "            may contain a single paragraph only."
        ∷ "        <literal_block xml:space=\"preserve\"> 3" ∷ "            .. |a| replace::" ∷ "               b" ∷ "            "
        ∷ "               c" ∷ []) }
    ensures no_replacement { Means ("x" ∷ "" ∷ ".. |a| replace::" ∷ []) 0
        ("<document> 0" ∷ "    <paragraph> 1" ∷ "        x" ∷ "    <system_message level=\"3\"> 3" ∷ "        <paragraph> 3"
        ∷ "            Content block expected for the \"replace\" directive; none found."
        ∷ "        <literal_block xml:space=\"preserve\"> 3" ∷ "            .. |a| replace::" ∷ []) }
    ensures malformed { Means (".. |a" ∷ []) 0
        ("<document> 0" ∷ "    <comment xml:space=\"preserve\"> 1" ∷ "        |a" ∷ "    <system_message level=\"2\"> 1"
        ∷ "        <paragraph> 1" ∷ "            malformed substitution definition." ∷ []) }
    ensures no_space_after_the_bar { Reads (".. |a|b| image:: c" ∷ ".. |d|" ∷ [])
        ("<document>" ∷ "    <substitution_definition>" ∷ "        <image alt=\"a|b\" uri=\"c\">" ∷ "    <comment xml:space=\"preserve\">"
        ∷ "        |d|" ∷ []) }
    ensures list_in_a_replacement { Reads (".. |a| replace:: - b" ∷ [])
        ("<document>" ∷ "    <system_message level=\"3\">" ∷ "        <paragraph>" ∷ "            Error in \"replace\" directive:"
        ∷ "            may contain a single paragraph only." ∷ "        <literal_block xml:space=\"preserve\">"
        ∷ "            .. |a| replace:: - b" ∷ []) }
    ensures colons_in_a_replacement { Reads (".. |c| replace:: ::" ∷ [])
        ("<document>" ∷ "    <system_message level=\"3\">" ∷ "        <paragraph>" ∷ "            Error in \"replace\" directive:"
        ∷ "            may contain a single paragraph only." ∷ "        <literal_block xml:space=\"preserve\">"
        ∷ "            .. |c| replace:: ::" ∷ []) }
    ensures literal_block_in_a_replacement { Reads (".. |d| replace::" ∷ "   e::" ∷ "" ∷ "     f" ∷ [])
        ("<document>" ∷ "    <system_message level=\"3\">" ∷ "        <paragraph>" ∷ "            Error in \"replace\" directive:"
        ∷ "            may contain a single paragraph only." ∷ "        <literal_block xml:space=\"preserve\">"
        ∷ "            .. |d| replace::" ∷ "               e::" ∷ "            " ∷ "                 f" ∷ []) }
    ensures quoted_literal_block_in_a_replacement { Reads (".. |a| replace:: e::" ∷ "" ∷ "   > f" ∷ [])
        ("<document>" ∷ "    <system_message level=\"3\">" ∷ "        <paragraph>" ∷ "            Error in \"replace\" directive:"
        ∷ "            may contain a single paragraph only." ∷ "        <literal_block xml:space=\"preserve\">"
        ∷ "            .. |a| replace:: e::" ∷ "            " ∷ "               > f" ∷ []) }
    ensures definition_list_in_a_replacement { Reads (".. |g| replace::" ∷ "   h" ∷ "     i" ∷ [])
        ("<document>" ∷ "    <system_message level=\"3\">" ∷ "        <paragraph>" ∷ "            Error in \"replace\" directive:"
        ∷ "            may contain a single paragraph only." ∷ "        <literal_block xml:space=\"preserve\">"
        ∷ "            .. |g| replace::" ∷ "               h" ∷ "                 i" ∷ []) }
    ensures white_after_the_bar { Reads (".. | a| image:: b" ∷ [])
        ("<document>" ∷ "    <comment xml:space=\"preserve\">" ∷ "        | a| image:: b" ∷ []) }
    ensures wrong_image { Reads (".. |a| image::" ∷ ".. |b| Image:: c" ∷ "" ∷ "   d" ∷ [])
        ("<document>" ∷ "    <system_message level=\"3\">" ∷ "        <paragraph>" ∷ "            Error in \"image\" directive:"
        ∷ "            1 argument(s) required, 0 supplied." ∷ "        <literal_block xml:space=\"preserve\">" ∷ "            .. |a| image::"
        ∷ "    <system_message level=\"3\">" ∷ "        <paragraph>" ∷ "            Error in \"Image\" directive:"
        ∷ "            no content permitted." ∷ "        <literal_block xml:space=\"preserve\">" ∷ "            .. |b| Image:: c"
        ∷ "            " ∷ "               d" ∷ []) }
{}

/// Comments (Markup Specification, 'Comments').
pub fn comments()
    ensures lines { Means (".. a" ∷ "   b" ∷ "" ∷ "     *c*" ∷ "" ∷ "d" ∷ []) 0
        ("<document> 0" ∷ "    <comment xml:space=\"preserve\"> 1" ∷ "        a" ∷ "        b" ∷ "        " ∷ "          *c*"
        ∷ "    <paragraph> 6" ∷ "        d" ∷ []) }
    ensures text_below { Reads (".." ∷ "  a" ∷ "" ∷ "  b" ∷ [])
        ("<document>" ∷ "    <comment xml:space=\"preserve\">" ∷ "        a" ∷ "        " ∷ "        b" ∷ []) }
    ensures empty { Reads (".." ∷ "" ∷ "  a" ∷ [])
        ("<document>" ∷ "    <comment xml:space=\"preserve\">" ∷ "    <block_quote>" ∷ "        <paragraph>" ∷ "            a" ∷ []) }
    ensures blank_line_inside { Reads (".. y" ∷ "" ∷ "   x" ∷ [])
        ("<document>" ∷ "    <comment xml:space=\"preserve\">" ∷ "        y" ∷ "        " ∷ "        x" ∷ []) }
    ensures without_a_blank_line { Means (".. a" ∷ "b" ∷ []) 0
        ("<document> 0" ∷ "    <comment xml:space=\"preserve\"> 1" ∷ "        a" ∷ "    <system_message level=\"2\"> 2"
        ∷ "        <paragraph> 2" ∷ "            Explicit markup ends without a blank line; unexpected unindent." ∷ "    <paragraph> 2"
        ∷ "        b" ∷ []) }
    ensures run_of_explicit_markup { Reads (".. a" ∷ ".. _b:" ∷ "__ c" ∷ ".. [1] d" ∷ [])
        ("<document>" ∷ "    <comment xml:space=\"preserve\">" ∷ "        a" ∷ "    <target>" ∷ "    <target anonymous=\"1\" refuri=\"c\">"
        ∷ "    <footnote>" ∷ "        <label>" ∷ "            1" ∷ "        <paragraph>" ∷ "            d" ∷ []) }
    ensures no_mark { Reads ("..a" ∷ []) ("<document>" ∷ "    <paragraph>" ∷ "        ..a" ∷ []) }
{}
