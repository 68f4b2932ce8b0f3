//! Footnotes, citations, and references to them.
#![tactic(auto, unfolding(crate::proofs::Computing::rst2pseudoxml_run))]

ghost use Rattle.std.specs.Prelude.{[], ◌∷◌};
ghost use Rattle.rst2pseudoxml_run.specs.Written.{usual, Outputs, Reports};

/// Numbers of footnotes, and references to them (Markup Specification, 'Auto-Numbered Footnotes').
pub fn numbered_footnotes()
    ensures number_taken { Outputs ("[#]_ [1]_" ∷ "" ∷ ".. [#] x" ∷ ".. [1] y" ∷ [])
        ("<document source=\"x\">" ∷ "    <paragraph>" ∷ "        <footnote_reference auto=\"1\" ids=\"footnote-reference-1\" refid=\"footnote-1\">"
        ∷ "            2" ∷ "         " ∷ "        <footnote_reference ids=\"footnote-reference-2\" refid=\"footnote-2\">" ∷ "            1"
        ∷ "    <footnote auto=\"1\" backrefs=\"footnote-reference-1\" ids=\"footnote-1\" names=\"2\">" ∷ "        <label>" ∷ "            2"
        ∷ "        <paragraph>" ∷ "            x" ∷ "    <footnote backrefs=\"footnote-reference-2\" ids=\"footnote-2\" names=\"1\">"
        ∷ "        <label>" ∷ "            1" ∷ "        <paragraph>" ∷ "            y" ∷ []) }
    ensures found_by_their_numbers { Outputs ("[2]_ [1]_" ∷ "" ∷ ".. [#] x" ∷ ".. [1] y" ∷ [])
        ("<document source=\"x\">" ∷ "    <paragraph>" ∷ "        <footnote_reference ids=\"footnote-reference-1\" refid=\"footnote-1\">"
        ∷ "            2" ∷ "         " ∷ "        <footnote_reference ids=\"footnote-reference-2\" refid=\"footnote-2\">" ∷ "            1"
        ∷ "    <footnote auto=\"1\" backrefs=\"footnote-reference-1\" ids=\"footnote-1\" names=\"2\">" ∷ "        <label>" ∷ "            2"
        ∷ "        <paragraph>" ∷ "            x" ∷ "    <footnote backrefs=\"footnote-reference-2\" ids=\"footnote-2\" names=\"1\">"
        ∷ "        <label>" ∷ "            1" ∷ "        <paragraph>" ∷ "            y" ∷ []) }
    ensures named { Outputs ("[#n]_" ∷ "" ∷ ".. [#n] x" ∷ [])
        ("<document source=\"x\">" ∷ "    <paragraph>" ∷ "        <footnote_reference auto=\"1\" ids=\"footnote-reference-1\" refid=\"n\">"
        ∷ "            1" ∷ "    <footnote auto=\"1\" backrefs=\"footnote-reference-1\" ids=\"n\" names=\"n\">" ∷ "        <label>" ∷ "            1"
        ∷ "        <paragraph>" ∷ "            x" ∷ []) }
    ensures numbered { Outputs ("[#]_ [2]_ [#a]_" ∷ "" ∷ ".. [#a] x" ∷ ".. [2] y" ∷ ".. [#] z" ∷ [])
        ("<document source=\"x\">" ∷ "    <paragraph>" ∷ "        <footnote_reference auto=\"1\" ids=\"footnote-reference-1\" refid=\"footnote-2\">"
        ∷ "            3" ∷ "         " ∷ "        <footnote_reference ids=\"footnote-reference-2\" refid=\"footnote-1\">" ∷ "            2"
        ∷ "         " ∷ "        <footnote_reference auto=\"1\" ids=\"footnote-reference-3\" refid=\"a\">" ∷ "            1"
        ∷ "    <footnote auto=\"1\" backrefs=\"footnote-reference-3\" ids=\"a\" names=\"a\">" ∷ "        <label>" ∷ "            1"
        ∷ "        <paragraph>" ∷ "            x" ∷ "    <footnote backrefs=\"footnote-reference-2\" ids=\"footnote-1\" names=\"2\">"
        ∷ "        <label>" ∷ "            2" ∷ "        <paragraph>" ∷ "            y"
        ∷ "    <footnote auto=\"1\" backrefs=\"footnote-reference-1\" ids=\"footnote-2\" names=\"3\">" ∷ "        <label>" ∷ "            3"
        ∷ "        <paragraph>" ∷ "            z" ∷ []) }
    ensures too_many { Reports usual ("[#]_ [#]_" ∷ "" ∷ ".. [#] x" ∷ [])
        ("<document source=\"x\">" ∷ "    <paragraph>" ∷ "        <footnote_reference auto=\"1\" ids=\"footnote-reference-1\" refid=\"footnote-1\">"
        ∷ "            1" ∷ "         " ∷ "        <problematic ids=\"problematic-1\" refid=\"system-message-1\">" ∷ "            [#]_"
        ∷ "    <footnote auto=\"1\" backrefs=\"footnote-reference-1\" ids=\"footnote-1\" names=\"1\">" ∷ "        <label>" ∷ "            1"
        ∷ "        <paragraph>" ∷ "            x" ∷ "    <section classes=\"system-messages\">" ∷ "        <title>"
        ∷ "            Docutils System Messages"
        ∷ "        <system_message backrefs=\"problematic-1\" ids=\"system-message-1\" level=\"3\" line=\"1\" source=\"x\" type=\"ERROR\">"
        ∷ "            <paragraph>" ∷ "                Too many autonumbered footnote references: only 1 corresponding footnotes available." ∷ [])
        ("x:1: (ERROR/3) Too many autonumbered footnote references: only 1 corresponding footnotes available." ∷ []) 0 }
{}

/// Symbols of footnotes (Markup Specification, 'Auto-Symbol Footnotes').
pub fn symbol_footnotes()
    ensures symbols { Outputs ("[*]_ [*]_" ∷ "" ∷ ".. [*] x" ∷ ".. [*] y" ∷ [])
        ("<document source=\"x\">" ∷ "    <paragraph>" ∷ "        <footnote_reference auto=\"*\" ids=\"footnote-reference-1\" refid=\"footnote-1\">"
        ∷ "            *" ∷ "         " ∷ "        <footnote_reference auto=\"*\" ids=\"footnote-reference-2\" refid=\"footnote-2\">"
        ∷ "            †" ∷ "    <footnote auto=\"*\" backrefs=\"footnote-reference-1\" ids=\"footnote-1\">" ∷ "        <label>" ∷ "            *"
        ∷ "        <paragraph>" ∷ "            x" ∷ "    <footnote auto=\"*\" backrefs=\"footnote-reference-2\" ids=\"footnote-2\">"
        ∷ "        <label>" ∷ "            †" ∷ "        <paragraph>" ∷ "            y" ∷ []) }
{}

/// Citations and references to them (Markup Specification, 'Citations').
pub fn citations()
    ensures citation { Outputs ("[A]_" ∷ "" ∷ ".. [A] x" ∷ [])
        ("<document source=\"x\">" ∷ "    <paragraph>" ∷ "        <citation_reference ids=\"citation-reference-1\" refid=\"a\">" ∷ "            A"
        ∷ "    <citation backrefs=\"citation-reference-1\" ids=\"a\" names=\"a\">" ∷ "        <label>" ∷ "            A" ∷ "        <paragraph>"
        ∷ "            x" ∷ []) }
    ensures unknown { Reports usual ("[A]_ [b]_" ∷ "" ∷ ".. [A] x" ∷ [])
        ("<document source=\"x\">" ∷ "    <paragraph>" ∷ "        <citation_reference ids=\"citation-reference-1\" refid=\"a\">" ∷ "            A"
        ∷ "         " ∷ "        <problematic ids=\"problematic-1\" refid=\"system-message-1\">" ∷ "            [b]_"
        ∷ "    <citation backrefs=\"citation-reference-1\" ids=\"a\" names=\"a\">" ∷ "        <label>" ∷ "            A" ∷ "        <paragraph>"
        ∷ "            x" ∷ "    <section classes=\"system-messages\">" ∷ "        <title>" ∷ "            Docutils System Messages"
        ∷ "        <system_message backrefs=\"problematic-1\" ids=\"system-message-1\" level=\"3\" line=\"1\" source=\"x\" type=\"ERROR\">"
        ∷ "            <paragraph>" ∷ "                Unknown target name: \"b\"." ∷ []) ("x:1: (ERROR/3) Unknown target name: \"b\"." ∷ []) 0 }
{}
