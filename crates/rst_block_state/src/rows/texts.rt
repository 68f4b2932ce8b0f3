//! Inline markup in documents, and nesting, in documents.
#![tactic(auto, unfolding(crate::proofs::Computing::rst_block_state))]

ghost use Rattle.std.specs.Prelude.{[], ◌∷◌};
ghost use Rattle.rst_block_state.specs.Reads.{IsTooDeep, IsTooDeepWider, Means, MeansWider, Reads};

/// Inline markup (Markup Specification, 'Inline Markup').
pub fn inline_markup()
    ensures strong_and_literal { Reads ("a **b** ``\\x``" ∷ [])
        ("<document>" ∷ "    <paragraph>" ∷ "        a " ∷ "        <strong>" ∷ "            b" ∷ "         " ∷ "        <literal>"
        ∷ "            \\x" ∷ []) }
    ensures role_and_emphasis { Reads (":sub:`2` *c*" ∷ [])
        ("<document>" ∷ "    <paragraph>" ∷ "        <subscript>" ∷ "            2" ∷ "         " ∷ "        <emphasis>"
        ∷ "            c" ∷ []) }
    ensures role_emphasis { Reads (":emphasis:`a`" ∷ [])
        ("<document>" ∷ "    <paragraph>" ∷ "        <emphasis>" ∷ "            a" ∷ []) }
    ensures role_strong { Reads (":strong:`b`" ∷ [])
        ("<document>" ∷ "    <paragraph>" ∷ "        <strong>" ∷ "            b" ∷ []) }
    ensures role_literal { Reads (":literal:`c`" ∷ [])
        ("<document>" ∷ "    <paragraph>" ∷ "        <literal>" ∷ "            c" ∷ []) }
    ensures role_subscript { Reads (":subscript:`d`" ∷ [])
        ("<document>" ∷ "    <paragraph>" ∷ "        <subscript>" ∷ "            d" ∷ []) }
    ensures role_sub { Reads (":sub:`e`" ∷ [])
        ("<document>" ∷ "    <paragraph>" ∷ "        <subscript>" ∷ "            e" ∷ []) }
    ensures role_superscript { Reads (":superscript:`a`" ∷ [])
        ("<document>" ∷ "    <paragraph>" ∷ "        <superscript>" ∷ "            a" ∷ []) }
    ensures role_sup { Reads (":sup:`b`" ∷ [])
        ("<document>" ∷ "    <paragraph>" ∷ "        <superscript>" ∷ "            b" ∷ []) }
    ensures role_title_reference { Reads (":title-reference:`c`" ∷ [])
        ("<document>" ∷ "    <paragraph>" ∷ "        <title_reference>" ∷ "            c" ∷ []) }
    ensures role_title { Reads (":title:`d`" ∷ [])
        ("<document>" ∷ "    <paragraph>" ∷ "        <title_reference>" ∷ "            d" ∷ []) }
    ensures role_t { Reads (":t:`e`" ∷ [])
        ("<document>" ∷ "    <paragraph>" ∷ "        <title_reference>" ∷ "            e" ∷ []) }
    ensures role_after_the_text { Reads ("`a` `b`:sub: `c`:strong:" ∷ [])
        ("<document>" ∷ "    <paragraph>" ∷ "        <title_reference>" ∷ "            a" ∷ "         " ∷ "        <subscript>"
        ∷ "            b" ∷ "         " ∷ "        <strong>" ∷ "            c" ∷ []) }
    ensures no_markup { Reads ("2 * 3 * 4" ∷ "" ∷ "\"*\"" ∷ "" ∷ "\\*a*" ∷ "" ∷ "\\" ∷ [])
        ("<document>" ∷ "    <paragraph>" ∷ "        2 * 3 * 4" ∷ "    <paragraph>" ∷ "        \"*\"" ∷ "    <paragraph>" ∷ "        *a*"
        ∷ "    <paragraph>" ∷ []) }
    ensures directly_after { Reads ("*a*b" ∷ "" ∷ "*a*\\ *b*" ∷ [])
        ("<document>" ∷ "    <paragraph>" ∷ "        <problematic>" ∷ "            *" ∷ "        a*b" ∷ "    <system_message level=\"2\">"
        ∷ "        <paragraph>" ∷ "            Inline emphasis start-string without end-string." ∷ "    <paragraph>" ∷ "        <emphasis>"
        ∷ "            a" ∷ "        <emphasis>" ∷ "            b" ∷ []) }
    ensures unended { Means ("**a" ∷ "" ∷ "*b" ∷ "" ∷ "``c" ∷ "" ∷ "_`d" ∷ "" ∷ "|e" ∷ "" ∷ "`f" ∷ []) 6
        ("<document> 0" ∷ "    <paragraph text_messages=\"1\"> 1" ∷ "        <problematic message=\"0\"> 1" ∷ "            **" ∷ "        a"
        ∷ "    <system_message level=\"2\" message=\"0\"> 1" ∷ "        <paragraph> 1"
        ∷ "            Inline strong start-string without end-string." ∷ "    <paragraph text_messages=\"1\"> 3"
        ∷ "        <problematic message=\"1\"> 3" ∷ "            *" ∷ "        b" ∷ "    <system_message level=\"2\" message=\"1\"> 3"
        ∷ "        <paragraph> 3" ∷ "            Inline emphasis start-string without end-string." ∷ "    <paragraph text_messages=\"1\"> 5"
        ∷ "        <problematic message=\"2\"> 5" ∷ "            ``" ∷ "        c" ∷ "    <system_message level=\"2\" message=\"2\"> 5"
        ∷ "        <paragraph> 5" ∷ "            Inline literal start-string without end-string." ∷ "    <paragraph text_messages=\"1\"> 7"
        ∷ "        <problematic message=\"3\"> 7" ∷ "            _`" ∷ "        d" ∷ "    <system_message level=\"2\" message=\"3\"> 7"
        ∷ "        <paragraph> 7" ∷ "            Inline target start-string without end-string." ∷ "    <paragraph text_messages=\"1\"> 9"
        ∷ "        <problematic message=\"4\"> 9" ∷ "            |" ∷ "        e" ∷ "    <system_message level=\"2\" message=\"4\"> 9"
        ∷ "        <paragraph> 9" ∷ "            Inline substitution_reference start-string without end-string."
        ∷ "    <paragraph text_messages=\"1\"> 11" ∷ "        <problematic message=\"5\"> 11" ∷ "            `" ∷ "        f"
        ∷ "    <system_message level=\"2\" message=\"5\"> 11" ∷ "        <paragraph> 11"
        ∷ "            Inline interpreted text or phrase reference start-string without end-string." ∷ []) }
    ensures wrong_roles { Means ("a :x:`b` :sub:`c`:sup: :t:`d`_" ∷ []) 3
        ("<document> 0" ∷ "    <paragraph text_messages=\"3\"> 1" ∷ "        a " ∷ "        <problematic message=\"0\"> 1"
        ∷ "            :x:`b`" ∷ "         " ∷ "        <problematic message=\"1\"> 1" ∷ "            :sub:`c`:sup:" ∷ "         "
        ∷ "        <problematic message=\"2\"> 1" ∷ "            :t:`d`_" ∷ "    <system_message level=\"3\" message=\"0\"> 1"
        ∷ "        <paragraph> 1" ∷ "            Unknown interpreted text role \"x\"." ∷ "    <system_message level=\"2\" message=\"1\"> 1"
        ∷ "        <paragraph> 1" ∷ "            Multiple roles in interpreted text (both prefix and suffix present; only one allowed)."
        ∷ "    <system_message level=\"2\" message=\"2\"> 1" ∷ "        <paragraph> 1"
        ∷ "            Mismatch: both interpreted text role and reference suffix." ∷ []) }
    ensures across_lines { Reads ("a *b" ∷ "c*" ∷ [])
        ("<document>" ∷ "    <paragraph>" ∷ "        a " ∷ "        <emphasis>" ∷ "            b" ∷ "            c" ∷ []) }
    ensures nul { Reads ("a\tb" ∷ []) ("<document>" ∷ "    <paragraph>" ∷ "        a       b" ∷ []) }
{}

/// References (Markup Specification, 'Hyperlink References').
pub fn references()
    ensures by_a_word { Means ("Python_ and" ∷ []) 0
        ("<document> 0" ∷ "    <paragraph> 1" ∷ "        <reference name=\"Python\" rawsource=\"Python_\" refname=\"python\"> 1"
        ∷ "            Python" ∷ "         and" ∷ []) }
    ensures by_a_phrase { Means ("`Here  There`_." ∷ []) 0
        ("<document> 0" ∷ "    <paragraph> 1"
        ∷ "        <reference name=\"Here There\" rawsource=\"`Here  There`_\" refname=\"here there\"> 1" ∷ "            Here  There"
        ∷ "        ." ∷ []) }
    ensures anonymous { Means ("a__ `b c`__" ∷ []) 0
        ("<document> 0" ∷ "    <paragraph> 1" ∷ "        <reference anonymous=\"1\" name=\"a\" rawsource=\"a__\"> 1" ∷ "            a"
        ∷ "         " ∷ "        <reference anonymous=\"1\" name=\"b c\" rawsource=\"`b c`__\"> 1" ∷ "            b c" ∷ []) }
    ensures embedded_uri { Reads ("`a <http://b c>`_ `d <e>`__ `<f>`_" ∷ [])
        ("<document>" ∷ "    <paragraph>" ∷ "        <reference name=\"a\" refuri=\"http://bc\">" ∷ "            a"
        ∷ "        <target refuri=\"http://bc\">" ∷ "         " ∷ "        <reference name=\"d\" refuri=\"e\">" ∷ "            d"
        ∷ "         " ∷ "        <reference name=\"f\" refuri=\"f\">" ∷ "            f" ∷ "        <target refuri=\"f\">" ∷ []) }
    ensures embedded_alias { Reads ("`a <B_>`_" ∷ []) ("<document>" ∷ "    <paragraph>" ∷ "        <reference name=\"a\">" ∷ "            a" ∷ []) }
    ensures uri { Reads ("http://a.b/c?d=e#f, x" ∷ [])
        ("<document>" ∷ "    <paragraph>" ∷ "        <reference refuri=\"http://a.b/c?d=e#f\">" ∷ "            http://a.b/c?d=e#f"
        ∷ "        , x" ∷ []) }
    ensures mail { Reads ("mailto:a@b.c; x" ∷ [])
        ("<document>" ∷ "    <paragraph>" ∷ "        <reference refuri=\"mailto:a@b.c\">" ∷ "            mailto:a@b.c" ∷ "        ; x"
        ∷ []) }
    ensures no_uris { Reads ("x://y a@b.c" ∷ [])
        ("<document>" ∷ "    <paragraph>" ∷ "        x://y a@b.c" ∷ []) }
    ensures footnotes_and_citations { Means ("[1]_ [#]_ [#A]_ [*]_ [Ab]_" ∷ []) 0
        ("<document> 0" ∷ "    <paragraph> 1" ∷ "        <footnote_reference rawsource=\"[1]_\" refname=\"1\"> 1" ∷ "            1"
        ∷ "         " ∷ "        <footnote_reference auto=\"1\" rawsource=\"[#]_\"> 1" ∷ "         "
        ∷ "        <footnote_reference auto=\"1\" rawsource=\"[#A]_\" refname=\"a\"> 1" ∷ "         "
        ∷ "        <footnote_reference auto=\"*\" rawsource=\"[*]_\"> 1" ∷ "         "
        ∷ "        <citation_reference rawsource=\"[Ab]_\" refname=\"ab\"> 1" ∷ "            Ab" ∷ []) }
    ensures substitutions { Reads ("|a  B| |c|_ |d|__" ∷ [])
        ("<document>" ∷ "    <paragraph>" ∷ "        <substitution_reference>" ∷ "            a  B" ∷ "         " ∷ "        <reference>"
        ∷ "            <substitution_reference>" ∷ "                c" ∷ "         " ∷ "        <reference anonymous=\"1\">"
        ∷ "            <substitution_reference>" ∷ "                d" ∷ []) }
    ensures inline_target { Means ("_`A b`" ∷ []) 0
        ("<document> 0" ∷ "    <paragraph> 1" ∷ "        <target inline=\"1\" own_name=\"a b\"> 1" ∷ "            A b" ∷ []) }
{}

/// Texts in the wider profile: addresses in each kind of text (Markup Specification, 'Standalone Hyperlinks'), the names of roles (Docutils,
/// 'Interpreted Text Roles'), and a role where a field might begin (Markup Specification, 'Field Lists').
pub fn wider()
    ensures addresses { MeansWider ("a@b.c" ∷ "  x" ∷ "" ∷ ":a@b.c: x" ∷ "" ∷ "| a@b.c" ∷ "" ∷ "  x" ∷ "" ∷ "  -- a@b.c" ∷ []) 0
        ("<document> 0" ∷ "    <definition_list> 1" ∷ "        <definition_list_item> 1" ∷ "            <term> 1"
        ∷ "                <reference rawsource=\"a@b.c\" refuri=\"mailto:a@b.c\"> 1" ∷ "                    a@b.c" ∷ "            <definition> 1"
        ∷ "                <paragraph> 2" ∷ "                    x" ∷ "    <field_list> 4" ∷ "        <field> 4" ∷ "            <field_name> 4"
        ∷ "                <reference rawsource=\"a@b.c\" refuri=\"mailto:a@b.c\"> 4" ∷ "                    a@b.c" ∷ "            <field_body> 4"
        ∷ "                <paragraph> 4" ∷ "                    x" ∷ "    <line_block> 6" ∷ "        <line> 6"
        ∷ "            <reference rawsource=\"a@b.c\" refuri=\"mailto:a@b.c\"> 6" ∷ "                a@b.c" ∷ "    <block_quote> 8"
        ∷ "        <paragraph> 8" ∷ "            x" ∷ "        <attribution> 10"
        ∷ "            <reference rawsource=\"a@b.c\" refuri=\"mailto:a@b.c\"> 10" ∷ "                a@b.c" ∷ []) }
    ensures address_of_a_target { MeansWider (".. _a: b@c.d" ∷ []) 0
        ("<document> 0" ∷ "    <target own_name=\"a\" refuri=\"mailto:b@c.d\"> 1" ∷ []) }
    ensures role_for_a_field { MeansWider (":T:`a`: b" ∷ []) 0
        ("<document> 0" ∷ "    <paragraph> 1" ∷ "        <title_reference> 1" ∷ "            a" ∷ "        : b" ∷ []) }
{}

/// How deeply blocks may be nested (Markup Specification, 'Body Elements').
pub fn nesting()
    ensures item { IsTooDeep 1 ("- a" ∷ "" ∷ "  - b" ∷ []) 3 }
    ensures fits { Means ("- a" ∷ "" ∷ "  b" ∷ []) 0
        ("<document> 0" ∷ "    <bullet_list bullet=\"-\"> 1" ∷ "        <list_item> 1" ∷ "            <paragraph> 1" ∷ "                a"
        ∷ "            <paragraph> 3" ∷ "                b" ∷ []) }
    ensures blank_item { IsTooDeep 1 ("- - " ∷ "" ∷ "- - a" ∷ []) 3 }
    ensures enumerated_list { IsTooDeep 1 ("1. a" ∷ "" ∷ "   - b" ∷ []) 3 }
    ensures definition { IsTooDeep 1 ("a" ∷ "  b" ∷ "" ∷ "  - c" ∷ []) 4 }
    ensures field { IsTooDeep 1 ("" ∷ ":a: b" ∷ "" ∷ "  - c" ∷ []) 4 }
    ensures option { IsTooDeep 1 ("-a  b" ∷ "" ∷ "    - c" ∷ []) 3 }
    ensures quote { IsTooDeep 1 ("  a" ∷ "" ∷ "  b" ∷ "    c" ∷ []) 4 }
    ensures footnote { IsTooDeep 1 (".. [1]" ∷ "" ∷ "   a" ∷ "" ∷ "   - b" ∷ []) 5 }
    ensures citation { IsTooDeep 1 (".. [a] b" ∷ "" ∷ "   - c" ∷ []) 3 }
    ensures directive { IsTooDeep 1 (".. note::" ∷ "" ∷ "   a" ∷ "" ∷ "   - b" ∷ []) 5 }
    ensures second_block { IsTooDeep 1 (".. note:: a" ∷ "   :class: b" ∷ "" ∷ "   c" ∷ "" ∷ "   - d" ∷ []) 6 }
    ensures figure { IsTooDeep 1 (".. figure:: a" ∷ "" ∷ "   b" ∷ "" ∷ "   - c" ∷ []) 5 }
    ensures wrong_directive { IsTooDeep 0 (".. note::" ∷ "   :alt: c" ∷ "" ∷ "   x" ∷ "a" ∷ "  b" ∷ []) 6 }
    ensures cell { IsTooDeep 1 ("+-----+" ∷ "| a   |" ∷ "|     |" ∷ "| - b |" ∷ "+-----+" ∷ []) 4 }
    ensures cells_of_blank_lines { IsTooDeep 0 ("+---+---+" ∷ "|   |   |" ∷ "|   | a |" ∷ "|   |   |" ∷ "+---+---+" ∷ []) 3 }
    ensures line_blocks { IsTooDeep 1 ("| a" ∷ "|  b" ∷ "|   c" ∷ []) 3 }
    ensures line_blocks_in_an_item { IsTooDeep 2 ("- | a" ∷ "  |  b" ∷ "  |   c" ∷ []) 3 }
    ensures line_block_by_its_directive { IsTooDeepWider 1 (".. line-block::" ∷ "" ∷ "   a" ∷ "    b" ∷ "     c" ∷ []) 5 }
    ensures quotes_of_a_class { IsTooDeepWider 1 (".. epigraph::" ∷ "" ∷ "   a" ∷ []) 3 }
    ensures replacement { IsTooDeep 0 (".. |a| replace:: b" ∷ []) 1 }
    ensures wrong_replacement { IsTooDeep 0 (".. |a| replace:: - b" ∷ "- c" ∷ []) 2 }
    ensures code { IsTooDeep 0 (".. code::" ∷ "" ∷ "   a" ∷ "- b" ∷ []) 4 }
    ensures in_order { IsTooDeep 1 ("- a" ∷ "" ∷ "  - b" ∷ "" ∷ "- - c" ∷ []) 3 }
{}
