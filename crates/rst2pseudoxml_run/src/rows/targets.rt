//! Targets, and references to them.
#![tactic(auto, unfolding(crate::proofs::Computing::rst2pseudoxml_run))]

ghost use Rattle.std.specs.Prelude.{[], ◌∷◌};
ghost use Rattle.rst_settings.specs.declared.Threshold.TheVariants.{Info};
ghost use Rattle.rst2pseudoxml_run.specs.Written.{usual, Outputs, Reports};

/// Equal names, the messages on them, and where references to them lead (Markup Specification, 'Implicit Hyperlink Targets').
pub fn equal_names()
    ensures two_sections { Outputs ("A" ∷ "=" ∷ "" ∷ "x" ∷ "" ∷ "A" ∷ "=" ∷ "" ∷ "y" ∷ [])
        ("<document source=\"x\">" ∷ "    <section dupnames=\"a\" ids=\"a\">" ∷ "        <title>" ∷ "            A" ∷ "        <paragraph>"
        ∷ "            x" ∷ "    <section dupnames=\"a\" ids=\"a-1\">" ∷ "        <title>" ∷ "            A" ∷ "        <paragraph>"
        ∷ "            y" ∷ []) }
    ensures two_sections_of_another_case { Outputs ("x" ∷ "" ∷ "A b" ∷ "===" ∷ "" ∷ "A  B" ∷ "====" ∷ [])
        ("<document source=\"x\">" ∷ "    <paragraph>" ∷ "        x" ∷ "    <section dupnames=\"a\\ b\" ids=\"a-b\">" ∷ "        <title>"
        ∷ "            A b" ∷ "    <section dupnames=\"a\\ b\" ids=\"a-b-1\">" ∷ "        <title>" ∷ "            A  B" ∷ []) }
    ensures target_after_section { Outputs ("x" ∷ "" ∷ "A" ∷ "=" ∷ "" ∷ ".. _a: u" ∷ "" ∷ "a_" ∷ [])
        ("<document source=\"x\">" ∷ "    <paragraph>" ∷ "        x" ∷ "    <section dupnames=\"a\" ids=\"a\">" ∷ "        <title>" ∷ "            A"
        ∷ "        <target ids=\"a-1\" names=\"a\" refuri=\"u\">" ∷ "        <paragraph>" ∷ "            <reference name=\"a\" refuri=\"u\">"
        ∷ "                a" ∷ []) }
    ensures target_in_a_title { Outputs ("_`A`" ∷ "====" ∷ [])
        ("<document dupnames=\"a\" ids=\"a\" source=\"x\" title=\"A\">" ∷ "    <title>" ∷ "        <target ids=\"a-1\" names=\"a\">"
        ∷ "            A" ∷ []) }
    ensures two_targets { Reports usual (".. _a: u" ∷ ".. _a: v" ∷ [])
        ("<document source=\"x\">" ∷ "    <target dupnames=\"a\" ids=\"a\" refuri=\"u\">"
        ∷ "    <system_message backrefs=\"a-1\" level=\"2\" line=\"2\" source=\"x\" type=\"WARNING\">" ∷ "        <paragraph>"
        ∷ "            Duplicate explicit target name: \"a\"." ∷ "    <target dupnames=\"a\" ids=\"a-1\" refuri=\"v\">" ∷ [])
        ("x:2: (WARNING/2) Duplicate explicit target name: \"a\"." ∷ []) 0 }
    ensures reference_to_two_targets { Reports usual (".. _a: u" ∷ ".. _A: v" ∷ "" ∷ "a_" ∷ [])
        ("<document source=\"x\">" ∷ "    <target dupnames=\"a\" ids=\"a\" refuri=\"u\">"
        ∷ "    <system_message backrefs=\"a-1\" level=\"2\" line=\"2\" source=\"x\" type=\"WARNING\">" ∷ "        <paragraph>"
        ∷ "            Duplicate explicit target name: \"a\"." ∷ "    <target dupnames=\"a\" ids=\"a-1\" refuri=\"v\">" ∷ "    <paragraph>"
        ∷ "        <problematic ids=\"problematic-1\" refid=\"system-message-1\">" ∷ "            a_" ∷ "    <section classes=\"system-messages\">"
        ∷ "        <title>" ∷ "            Docutils System Messages"
        ∷ "        <system_message backrefs=\"problematic-1\" ids=\"system-message-1\" level=\"3\" line=\"4\" source=\"x\" type=\"ERROR\">"
        ∷ "            <paragraph>" ∷ "                Duplicate target name, cannot be used as a unique reference: \"a\"." ∷ [])
        ("x:2: (WARNING/2) Duplicate explicit target name: \"a\"."
        ∷ "x:4: (ERROR/3) Duplicate target name, cannot be used as a unique reference: \"a\"." ∷ []) 0 }
    ensures one_uri { Outputs (".. _a: u" ∷ ".. _a: u" ∷ [])
        ("<document source=\"x\">" ∷ "    <target ids=\"a\" names=\"a\" refuri=\"u\">" ∷ "    <target dupnames=\"a\" ids=\"a-1\" refuri=\"u\">" ∷ []) }
    ensures one_uri_with_all_messages { Reports (record usual { report = Info }) (".. _a: u" ∷ ".. _a: u" ∷ [])
        ("<document source=\"x\">" ∷ "    <target ids=\"a\" names=\"a\" refuri=\"u\">"
        ∷ "    <system_message backrefs=\"a-1\" level=\"1\" line=\"2\" source=\"x\" type=\"INFO\">" ∷ "        <paragraph>"
        ∷ "            Duplicate explicit target name: \"a\"." ∷ "    <target dupnames=\"a\" ids=\"a-1\" refuri=\"u\">" ∷ [])
        ("x:2: (INFO/1) Duplicate explicit target name: \"a\"." ∷ []) 0 }
    ensures reference_to_one_uri { Outputs (".. _a: u" ∷ ".. _a: u" ∷ "" ∷ "a_" ∷ [])
        ("<document source=\"x\">" ∷ "    <target ids=\"a\" names=\"a\" refuri=\"u\">" ∷ "    <target dupnames=\"a\" ids=\"a-1\" refuri=\"u\">"
        ∷ "    <paragraph>" ∷ "        <reference name=\"a\" refuri=\"u\">" ∷ "            a" ∷ []) }
{}

/// External and internal targets (Markup Specification, 'Hyperlink Targets').
pub fn targets()
    ensures external_and_internal { Outputs ("Python_ and here_." ∷ "" ∷ ".. _Python: https://x.org/" ∷ ".. _here:" ∷ "" ∷ "End." ∷ [])
        ("<document source=\"x\">" ∷ "    <paragraph>" ∷ "        <reference name=\"Python\" refuri=\"https://x.org/\">" ∷ "            Python"
        ∷ "         and " ∷ "        <reference name=\"here\" refid=\"here\">" ∷ "            here" ∷ "        ."
        ∷ "    <target ids=\"python\" names=\"python\" refuri=\"https://x.org/\">" ∷ "    <target refid=\"here\">"
        ∷ "    <paragraph ids=\"here\" names=\"here\">" ∷ "        End." ∷ []) }
    ensures external { Outputs ("a_ `b c`__" ∷ "" ∷ ".. _a: u" ∷ "__ v" ∷ [])
        ("<document source=\"x\">" ∷ "    <paragraph>" ∷ "        <reference name=\"a\" refuri=\"u\">" ∷ "            a" ∷ "         "
        ∷ "        <reference anonymous=\"1\" name=\"b c\" refuri=\"v\">" ∷ "            b c" ∷ "    <target ids=\"a\" names=\"a\" refuri=\"u\">"
        ∷ "    <target anonymous=\"1\" ids=\"target-1\" refuri=\"v\">" ∷ []) }
    ensures internal { Outputs (".. _a:" ∷ "" ∷ "b" ∷ "" ∷ "a_" ∷ [])
        ("<document source=\"x\">" ∷ "    <target refid=\"a\">" ∷ "    <paragraph ids=\"a\" names=\"a\">" ∷ "        b" ∷ "    <paragraph>"
        ∷ "        <reference name=\"a\" refid=\"a\">" ∷ "            a" ∷ []) }
    ensures chained { Outputs (".. _a:" ∷ ".. _b:" ∷ "" ∷ "c" ∷ "" ∷ "a_ b_" ∷ [])
        ("<document source=\"x\">" ∷ "    <target refid=\"a\">" ∷ "    <target refid=\"b\">" ∷ "    <paragraph ids=\"b a\" names=\"b a\">"
        ∷ "        c" ∷ "    <paragraph>" ∷ "        <reference name=\"a\" refid=\"a\">" ∷ "            a" ∷ "         "
        ∷ "        <reference name=\"b\" refid=\"b\">" ∷ "            b" ∷ []) }
    ensures before_a_definition { Outputs (".. _a:" ∷ ".. |x| image:: y" ∷ [])
        ("<document source=\"x\">" ∷ "    <target ids=\"a\" names=\"a\">" ∷ "    <substitution_definition names=\"x\">"
        ∷ "        <image alt=\"x\" uri=\"y\">" ∷ []) }
{}

/// Targets that name other targets (Markup Specification, 'Hyperlink Targets').
pub fn indirect_targets()
    ensures indirect { Outputs ("a_" ∷ "" ∷ ".. _a: b_" ∷ ".. _b: u" ∷ [])
        ("<document source=\"x\">" ∷ "    <paragraph>" ∷ "        <reference name=\"a\" refuri=\"u\">" ∷ "            a"
        ∷ "    <target ids=\"a\" names=\"a\" refuri=\"u\">" ∷ "    <target ids=\"b\" names=\"b\" refuri=\"u\">" ∷ []) }
    ensures circle { Reports usual ("a_" ∷ "" ∷ ".. _a: b_" ∷ ".. _b: a_" ∷ [])
        ("<document source=\"x\">" ∷ "    <paragraph>" ∷ "        <problematic ids=\"problematic-1\" refid=\"system-message-1\">" ∷ "            a_"
        ∷ "    <target ids=\"a\" names=\"a\">" ∷ "    <target ids=\"b\" names=\"b\">" ∷ "    <section classes=\"system-messages\">"
        ∷ "        <title>" ∷ "            Docutils System Messages"
        ∷ "        <system_message backrefs=\"problematic-1\" ids=\"system-message-1\" level=\"3\" line=\"3\" source=\"x\" type=\"ERROR\">"
        ∷ "            <paragraph>" ∷ "                Indirect hyperlink target \"a\" is circular."
        ∷ "        <system_message level=\"3\" line=\"4\" source=\"x\" type=\"ERROR\">" ∷ "            <paragraph>"
        ∷ "                Indirect hyperlink target \"b\" is circular." ∷ [])
        ("x:3: (ERROR/3) Indirect hyperlink target \"a\" is circular." ∷ "x:4: (ERROR/3) Indirect hyperlink target \"b\" is circular." ∷ []) 0 }
    ensures missing { Reports usual ("a_" ∷ "" ∷ ".. _a: b_" ∷ [])
        ("<document source=\"x\">" ∷ "    <paragraph>" ∷ "        <problematic ids=\"problematic-1\" refid=\"system-message-1\">" ∷ "            a_"
        ∷ "    <target ids=\"a\" names=\"a\">" ∷ "    <section classes=\"system-messages\">" ∷ "        <title>"
        ∷ "            Docutils System Messages"
        ∷ "        <system_message backrefs=\"problematic-1\" ids=\"system-message-1\" level=\"3\" line=\"3\" source=\"x\" type=\"ERROR\">"
        ∷ "            <paragraph>" ∷ "                Indirect hyperlink target \"a\" refers to target \"b\", which does not exist." ∷ [])
        ("x:3: (ERROR/3) Indirect hyperlink target \"a\" refers to target \"b\", which does not exist." ∷ []) 0 }
{}

/// References whose names mean nothing (Markup Specification, 'Hyperlink References').
pub fn references()
    ensures unknown { Reports usual ("a_ b_" ∷ [])
        ("<document source=\"x\">" ∷ "    <paragraph>" ∷ "        <problematic ids=\"problematic-1\" refid=\"system-message-1\">" ∷ "            a_"
        ∷ "         " ∷ "        <problematic ids=\"problematic-2\" refid=\"system-message-2\">" ∷ "            b_"
        ∷ "    <section classes=\"system-messages\">" ∷ "        <title>" ∷ "            Docutils System Messages"
        ∷ "        <system_message backrefs=\"problematic-1\" ids=\"system-message-1\" level=\"3\" line=\"1\" source=\"x\" type=\"ERROR\">"
        ∷ "            <paragraph>" ∷ "                Unknown target name: \"a\"."
        ∷ "        <system_message backrefs=\"problematic-2\" ids=\"system-message-2\" level=\"3\" line=\"1\" source=\"x\" type=\"ERROR\">"
        ∷ "            <paragraph>" ∷ "                Unknown target name: \"b\"." ∷ [])
        ("x:1: (ERROR/3) Unknown target name: \"a\"." ∷ "x:1: (ERROR/3) Unknown target name: \"b\"." ∷ []) 0 }
{}

/// Anonymous references and targets (Markup Specification, 'Anonymous Hyperlinks').
pub fn anonymous_references()
    ensures one { Outputs ("`a b`__" ∷ "" ∷ "__ https://x.org/" ∷ [])
        ("<document source=\"x\">" ∷ "    <paragraph>" ∷ "        <reference anonymous=\"1\" name=\"a b\" refuri=\"https://x.org/\">"
        ∷ "            a b" ∷ "    <target anonymous=\"1\" ids=\"target-1\" refuri=\"https://x.org/\">" ∷ []) }
    ensures more_references { Reports usual ("a__ b__" ∷ "" ∷ "__ u" ∷ [])
        ("<document source=\"x\">" ∷ "    <paragraph>" ∷ "        <problematic ids=\"problematic-1\" refid=\"system-message-1\">" ∷ "            a__"
        ∷ "         " ∷ "        <problematic ids=\"problematic-2\" refid=\"system-message-1\">" ∷ "            b__"
        ∷ "    <target anonymous=\"1\" ids=\"target-1\" refuri=\"u\">" ∷ "    <section classes=\"system-messages\">" ∷ "        <title>"
        ∷ "            Docutils System Messages"
        ∷ "        <system_message backrefs=\"problematic-1 problematic-2\" ids=\"system-message-1\" level=\"3\" line=\"1\" source=\"x\" type=\"ERROR\">"
        ∷ "            <paragraph>" ∷ "                Anonymous hyperlink mismatch: 2 references but 1 targets." ∷ [])
        ("x:1: (ERROR/3) Anonymous hyperlink mismatch: 2 references but 1 targets." ∷ []) 0 }
    ensures more_targets { Reports usual ("__ u" ∷ [])
        ("<document source=\"x\">" ∷ "    <target anonymous=\"1\" ids=\"target-1\" refuri=\"u\">" ∷ "    <section classes=\"system-messages\">"
        ∷ "        <title>" ∷ "            Docutils System Messages" ∷ "        <system_message level=\"3\" line=\"1\" source=\"x\" type=\"ERROR\">"
        ∷ "            <paragraph>" ∷ "                Anonymous hyperlink mismatch: 0 references but 1 targets." ∷ [])
        ("x:1: (ERROR/3) Anonymous hyperlink mismatch: 0 references but 1 targets." ∷ []) 0 }
{}
