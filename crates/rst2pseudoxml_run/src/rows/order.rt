//! The order of the transforms.
#![tactic(auto, unfolding(crate::proofs::Computing::rst2pseudoxml_run))]

ghost use Rattle.std.specs.Prelude.{[], ◌∷◌};
ghost use Rattle.rst2pseudoxml_run.specs.Written.{usual, Outputs, Reports};

/// Substitutions and internal targets come before the document's title (Document Tree, 'Introduction').
pub fn expand_and_targets_before_title()
    ensures substitution_in_the_title { Outputs ("A |x|" ∷ "=====" ∷ "" ∷ ".. |x| replace:: y" ∷ [])
        ("<document ids=\"a-x\" names=\"a\\ x\" source=\"x\" title=\"A y\">" ∷ "    <title>" ∷ "        A " ∷ "        y"
        ∷ "    <substitution_definition names=\"x\">" ∷ "        y" ∷ []) }
    ensures target_before_the_title { Outputs (".. _a:" ∷ "" ∷ "S" ∷ "-" ∷ [])
        ("<document ids=\"s a\" names=\"s a\" source=\"x\" title=\"S\">" ∷ "    <title>" ∷ "        S" ∷ "    <target refid=\"a\">" ∷ []) }
    ensures target_of_the_name_of_the_title { Outputs (".. _t:" ∷ "" ∷ "T" ∷ "=" ∷ "" ∷ "x" ∷ [])
        ("<document dupnames=\"t\" ids=\"t-1 t\" names=\"t\" source=\"x\" title=\"T\">" ∷ "    <title>" ∷ "        T" ∷ "    <target refid=\"t\">"
        ∷ "    <paragraph>" ∷ "        x" ∷ []) }
{}

/// Bibliographic fields are taken before references are followed (Document Tree, 'Introduction').
pub fn docinfo_before_links()
    ensures message_on_a_field_first { Reports usual (":Date: a_" ∷ "" ∷ ":Date:" ∷ [])
        ("<document source=\"x\">" ∷ "    <docinfo>" ∷ "        <date>" ∷ "            <problematic ids=\"problematic-1\" refid=\"system-message-1\">"
        ∷ "                a_" ∷ "        <field classes=\"date\">" ∷ "            <field_name>" ∷ "                Date" ∷ "            <field_body>"
        ∷ "                <system_message level=\"2\" line=\"3\" source=\"x\" type=\"WARNING\">" ∷ "                    <paragraph>"
        ∷ "                        Bibliographic field \"date\" is not in its form." ∷ "    <section classes=\"system-messages\">" ∷ "        <title>"
        ∷ "            Docutils System Messages"
        ∷ "        <system_message backrefs=\"problematic-1\" ids=\"system-message-1\" level=\"3\" line=\"1\" source=\"x\" type=\"ERROR\">"
        ∷ "            <paragraph>" ∷ "                Unknown target name: \"a\"." ∷ [])
        ("x:3: (WARNING/2) Bibliographic field \"date\" is not in its form." ∷ "x:1: (ERROR/3) Unknown target name: \"a\"." ∷ []) 0 }
    ensures reference_in_the_name_of_a_field { Outputs (":`Author`__: a" ∷ [])
        ("<document source=\"x\">" ∷ "    <docinfo>" ∷ "        <author>" ∷ "            a" ∷ []) }
{}

/// Substitutions come before references are followed (Document Tree, 'Introduction').
pub fn expand_before_links()
    ensures reference_in_a_definition { Reports usual ("|s|" ∷ "" ∷ ".. |s| replace:: a_" ∷ [])
        ("<document source=\"x\">" ∷ "    <paragraph>" ∷ "        <problematic ids=\"problematic-1\" refid=\"system-message-1\">" ∷ "            a_"
        ∷ "    <substitution_definition names=\"s\">" ∷ "        <problematic ids=\"problematic-2\" refid=\"system-message-2\">" ∷ "            a_"
        ∷ "    <section classes=\"system-messages\">" ∷ "        <title>" ∷ "            Docutils System Messages"
        ∷ "        <system_message backrefs=\"problematic-1\" ids=\"system-message-1\" level=\"3\" line=\"3\" source=\"x\" type=\"ERROR\">"
        ∷ "            <paragraph>" ∷ "                Unknown target name: \"a\"."
        ∷ "        <system_message backrefs=\"problematic-2\" ids=\"system-message-2\" level=\"3\" line=\"3\" source=\"x\" type=\"ERROR\">"
        ∷ "            <paragraph>" ∷ "                Unknown target name: \"a\"." ∷ [])
        ("x:3: (ERROR/3) Unknown target name: \"a\"." ∷ "x:3: (ERROR/3) Unknown target name: \"a\"." ∷ []) 0 }
{}

/// Anonymous references come first, then indirect targets, footnotes, and references by name (Document Tree, 'Introduction').
pub fn links()
    ensures anonymous_before_indirect { Reports usual ("__ a_" ∷ "" ∷ "p" ∷ [])
        ("<document source=\"x\">" ∷ "    <target anonymous=\"1\" ids=\"target-1\">" ∷ "    <paragraph>" ∷ "        p"
        ∷ "    <section classes=\"system-messages\">" ∷ "        <title>" ∷ "            Docutils System Messages"
        ∷ "        <system_message level=\"3\" line=\"1\" source=\"x\" type=\"ERROR\">" ∷ "            <paragraph>"
        ∷ "                Anonymous hyperlink mismatch: 0 references but 1 targets."
        ∷ "        <system_message level=\"3\" line=\"1\" source=\"x\" type=\"ERROR\">" ∷ "            <paragraph>"
        ∷ "                Indirect hyperlink target \"\" refers to target \"a\", which does not exist." ∷ [])
        ("x:1: (ERROR/3) Anonymous hyperlink mismatch: 0 references but 1 targets."
        ∷ "x:1: (ERROR/3) Indirect hyperlink target \"\" refers to target \"a\", which does not exist." ∷ []) 0 }
    ensures anonymous_through_indirect { Reports usual ("x__" ∷ "" ∷ "__ nope_" ∷ [])
        ("<document source=\"x\">" ∷ "    <paragraph>" ∷ "        <problematic ids=\"problematic-1\" refid=\"system-message-1\">" ∷ "            x__"
        ∷ "    <target anonymous=\"1\" ids=\"target-1\">" ∷ "    <section classes=\"system-messages\">" ∷ "        <title>"
        ∷ "            Docutils System Messages"
        ∷ "        <system_message backrefs=\"problematic-1\" ids=\"system-message-1\" level=\"3\" line=\"3\" source=\"x\" type=\"ERROR\">"
        ∷ "            <paragraph>" ∷ "                Indirect hyperlink target \"\" refers to target \"nope\", which does not exist." ∷ [])
        ("x:3: (ERROR/3) Indirect hyperlink target \"\" refers to target \"nope\", which does not exist." ∷ []) 0 }
    ensures indirect_before_symbols { Reports usual ("[*]_" ∷ "" ∷ "__ a_" ∷ [])
        ("<document source=\"x\">" ∷ "    <paragraph>" ∷ "        <problematic ids=\"problematic-1\" refid=\"system-message-1\">" ∷ "            [*]_"
        ∷ "    <target anonymous=\"1\" ids=\"target-1\">" ∷ "    <section classes=\"system-messages\">" ∷ "        <title>"
        ∷ "            Docutils System Messages" ∷ "        <system_message level=\"3\" line=\"3\" source=\"x\" type=\"ERROR\">"
        ∷ "            <paragraph>" ∷ "                Anonymous hyperlink mismatch: 0 references but 1 targets."
        ∷ "        <system_message level=\"3\" line=\"3\" source=\"x\" type=\"ERROR\">" ∷ "            <paragraph>"
        ∷ "                Indirect hyperlink target \"\" refers to target \"a\", which does not exist."
        ∷ "        <system_message backrefs=\"problematic-1\" ids=\"system-message-1\" level=\"3\" line=\"1\" source=\"x\" type=\"ERROR\">"
        ∷ "            <paragraph>" ∷ "                Too many symbol footnote references: only 0 corresponding footnotes available." ∷ [])
        ("x:3: (ERROR/3) Anonymous hyperlink mismatch: 0 references but 1 targets."
        ∷ "x:3: (ERROR/3) Indirect hyperlink target \"\" refers to target \"a\", which does not exist."
        ∷ "x:1: (ERROR/3) Too many symbol footnote references: only 0 corresponding footnotes available." ∷ []) 0 }
    ensures indirect_before_footnotes { Reports usual ("[#]_ a_" ∷ "" ∷ ".. _a: b_" ∷ [])
        ("<document source=\"x\">" ∷ "    <paragraph>" ∷ "        <problematic ids=\"problematic-2\" refid=\"system-message-2\">" ∷ "            [#]_"
        ∷ "         " ∷ "        <problematic ids=\"problematic-1\" refid=\"system-message-1\">" ∷ "            a_"
        ∷ "    <target ids=\"a\" names=\"a\">" ∷ "    <section classes=\"system-messages\">" ∷ "        <title>"
        ∷ "            Docutils System Messages"
        ∷ "        <system_message backrefs=\"problematic-1\" ids=\"system-message-1\" level=\"3\" line=\"3\" source=\"x\" type=\"ERROR\">"
        ∷ "            <paragraph>" ∷ "                Indirect hyperlink target \"a\" refers to target \"b\", which does not exist."
        ∷ "        <system_message backrefs=\"problematic-2\" ids=\"system-message-2\" level=\"3\" line=\"1\" source=\"x\" type=\"ERROR\">"
        ∷ "            <paragraph>" ∷ "                Too many autonumbered footnote references: only 0 corresponding footnotes available." ∷ [])
        ("x:3: (ERROR/3) Indirect hyperlink target \"a\" refers to target \"b\", which does not exist."
        ∷ "x:1: (ERROR/3) Too many autonumbered footnote references: only 0 corresponding footnotes available." ∷ []) 0 }
    ensures anonymous_before_footnotes { Reports usual ("[#]_" ∷ "" ∷ "b__" ∷ [])
        ("<document source=\"x\">" ∷ "    <paragraph>" ∷ "        <problematic ids=\"problematic-2\" refid=\"system-message-2\">" ∷ "            [#]_"
        ∷ "    <paragraph>" ∷ "        <problematic ids=\"problematic-1\" refid=\"system-message-1\">" ∷ "            b__"
        ∷ "    <section classes=\"system-messages\">" ∷ "        <title>" ∷ "            Docutils System Messages"
        ∷ "        <system_message backrefs=\"problematic-1\" ids=\"system-message-1\" level=\"3\" line=\"3\" source=\"x\" type=\"ERROR\">"
        ∷ "            <paragraph>" ∷ "                Anonymous hyperlink mismatch: 1 references but 0 targets."
        ∷ "        <system_message backrefs=\"problematic-2\" ids=\"system-message-2\" level=\"3\" line=\"1\" source=\"x\" type=\"ERROR\">"
        ∷ "            <paragraph>" ∷ "                Too many autonumbered footnote references: only 0 corresponding footnotes available." ∷ [])
        ("x:3: (ERROR/3) Anonymous hyperlink mismatch: 1 references but 0 targets."
        ∷ "x:1: (ERROR/3) Too many autonumbered footnote references: only 0 corresponding footnotes available." ∷ []) 0 }
    ensures anonymous_before_names { Reports usual ("c_" ∷ "" ∷ "b__" ∷ [])
        ("<document source=\"x\">" ∷ "    <paragraph>" ∷ "        <problematic ids=\"problematic-2\" refid=\"system-message-2\">" ∷ "            c_"
        ∷ "    <paragraph>" ∷ "        <problematic ids=\"problematic-1\" refid=\"system-message-1\">" ∷ "            b__"
        ∷ "    <section classes=\"system-messages\">" ∷ "        <title>" ∷ "            Docutils System Messages"
        ∷ "        <system_message backrefs=\"problematic-1\" ids=\"system-message-1\" level=\"3\" line=\"3\" source=\"x\" type=\"ERROR\">"
        ∷ "            <paragraph>" ∷ "                Anonymous hyperlink mismatch: 1 references but 0 targets."
        ∷ "        <system_message backrefs=\"problematic-2\" ids=\"system-message-2\" level=\"3\" line=\"1\" source=\"x\" type=\"ERROR\">"
        ∷ "            <paragraph>" ∷ "                Unknown target name: \"c\"." ∷ [])
        ("x:3: (ERROR/3) Anonymous hyperlink mismatch: 1 references but 0 targets." ∷ "x:1: (ERROR/3) Unknown target name: \"c\"." ∷ []) 0 }
{}

/// Transitions are placed after all other transforms, and before the last section (Document Tree, 'Introduction').
pub fn transitions_last()
    ensures after_the_title { Outputs (".. c" ∷ "" ∷ "A" ∷ "=" ∷ "" ∷ "----" ∷ "" ∷ "x" ∷ [])
        ("<document ids=\"a\" names=\"a\" source=\"x\" title=\"A\">" ∷ "    <title>" ∷ "        A" ∷ "    <comment xml:space=\"preserve\">"
        ∷ "        c" ∷ "    <transition>" ∷ "    <paragraph>" ∷ "        x" ∷ []) }
    ensures after_docinfo { Reports usual (":Date:" ∷ "" ∷ "----" ∷ [])
        ("<document source=\"x\">" ∷ "    <docinfo>" ∷ "        <field classes=\"date\">" ∷ "            <field_name>" ∷ "                Date"
        ∷ "            <field_body>" ∷ "                <system_message level=\"2\" line=\"1\" source=\"x\" type=\"WARNING\">"
        ∷ "                    <paragraph>" ∷ "                        Bibliographic field \"date\" is not in its form." ∷ "    <transition>"
        ∷ "    <system_message level=\"3\" line=\"3\" source=\"x\" type=\"ERROR\">" ∷ "        <paragraph>"
        ∷ "            Document may not end with a transition." ∷ [])
        ("x:1: (WARNING/2) Bibliographic field \"date\" is not in its form." ∷ "x:3: (ERROR/3) Document may not end with a transition." ∷ []) 0 }
    ensures after_links { Reports usual ("----" ∷ "" ∷ "c_" ∷ [])
        ("<document source=\"x\">" ∷ "    <system_message level=\"3\" line=\"1\" source=\"x\" type=\"ERROR\">" ∷ "        <paragraph>"
        ∷ "            Document or section may not begin with a transition." ∷ "    <transition>" ∷ "    <paragraph>"
        ∷ "        <problematic ids=\"problematic-1\" refid=\"system-message-1\">" ∷ "            c_" ∷ "    <section classes=\"system-messages\">"
        ∷ "        <title>" ∷ "            Docutils System Messages"
        ∷ "        <system_message backrefs=\"problematic-1\" ids=\"system-message-1\" level=\"3\" line=\"3\" source=\"x\" type=\"ERROR\">"
        ∷ "            <paragraph>" ∷ "                Unknown target name: \"c\"." ∷ [])
        ("x:3: (ERROR/3) Unknown target name: \"c\"." ∷ "x:1: (ERROR/3) Document or section may not begin with a transition." ∷ []) 0 }
    ensures before_the_last_section { Reports usual ("x_" ∷ "" ∷ "----" ∷ [])
        ("<document source=\"x\">" ∷ "    <paragraph>" ∷ "        <problematic ids=\"problematic-1\" refid=\"system-message-1\">" ∷ "            x_"
        ∷ "    <transition>" ∷ "    <system_message level=\"3\" line=\"3\" source=\"x\" type=\"ERROR\">" ∷ "        <paragraph>"
        ∷ "            Document may not end with a transition." ∷ "    <section classes=\"system-messages\">" ∷ "        <title>"
        ∷ "            Docutils System Messages"
        ∷ "        <system_message backrefs=\"problematic-1\" ids=\"system-message-1\" level=\"3\" line=\"1\" source=\"x\" type=\"ERROR\">"
        ∷ "            <paragraph>" ∷ "                Unknown target name: \"x\"." ∷ [])
        ("x:1: (ERROR/3) Unknown target name: \"x\"." ∷ "x:3: (ERROR/3) Document may not end with a transition." ∷ []) 0 }
{}

/// The messages of the text come before those of the transforms (Document Tree, 'Introduction').
pub fn messages()
    ensures of_the_text_first { Reports usual ("----" ∷ "" ∷ "*a" ∷ [])
        ("<document source=\"x\">" ∷ "    <system_message level=\"3\" line=\"1\" source=\"x\" type=\"ERROR\">" ∷ "        <paragraph>"
        ∷ "            Document or section may not begin with a transition." ∷ "    <transition>" ∷ "    <paragraph>"
        ∷ "        <problematic ids=\"problematic-1\" refid=\"system-message-1\">" ∷ "            *" ∷ "        a"
        ∷ "    <system_message backrefs=\"problematic-1\" ids=\"system-message-1\" level=\"2\" line=\"3\" source=\"x\" type=\"WARNING\">"
        ∷ "        <paragraph>" ∷ "            Inline emphasis start-string without end-string." ∷ [])
        ("x:3: (WARNING/2) Inline emphasis start-string without end-string."
        ∷ "x:1: (ERROR/3) Document or section may not begin with a transition." ∷ []) 0 }
{}
