//! Transitions.
#![tactic(auto, unfolding(crate::proofs::Computing::rst2pseudoxml_run))]

ghost use Rattle.std.specs.Prelude.{[], ◌∷◌};
ghost use Rattle.rst2pseudoxml_run.specs.Written.{usual, Outputs, Reports};

/// Transitions, and where none may be (Markup Specification, 'Transitions').
pub fn transitions()
    ensures between { Outputs ("a" ∷ "" ∷ "----" ∷ "" ∷ "b" ∷ [])
        ("<document source=\"x\">" ∷ "    <paragraph>" ∷ "        a" ∷ "    <transition>" ∷ "    <paragraph>" ∷ "        b" ∷ []) }
    ensures out_of_a_section { Outputs ("x" ∷ "" ∷ "A" ∷ "=" ∷ "" ∷ "a" ∷ "" ∷ "----" ∷ "" ∷ "B" ∷ "=" ∷ "" ∷ "b" ∷ [])
        ("<document source=\"x\">" ∷ "    <paragraph>" ∷ "        x" ∷ "    <section ids=\"a\" names=\"a\">" ∷ "        <title>" ∷ "            A"
        ∷ "        <paragraph>" ∷ "            a" ∷ "    <transition>" ∷ "    <section ids=\"b\" names=\"b\">" ∷ "        <title>" ∷ "            B"
        ∷ "        <paragraph>" ∷ "            b" ∷ []) }
    ensures begins { Reports usual ("----" ∷ "" ∷ "a" ∷ [])
        ("<document source=\"x\">" ∷ "    <system_message level=\"3\" line=\"1\" source=\"x\" type=\"ERROR\">" ∷ "        <paragraph>"
        ∷ "            Document or section may not begin with a transition." ∷ "    <transition>" ∷ "    <paragraph>" ∷ "        a" ∷ [])
        ("x:1: (ERROR/3) Document or section may not begin with a transition." ∷ []) 0 }
    ensures ends { Reports usual ("a" ∷ "" ∷ "----" ∷ [])
        ("<document source=\"x\">" ∷ "    <paragraph>" ∷ "        a" ∷ "    <transition>"
        ∷ "    <system_message level=\"3\" line=\"3\" source=\"x\" type=\"ERROR\">" ∷ "        <paragraph>"
        ∷ "            Document may not end with a transition." ∷ []) ("x:3: (ERROR/3) Document may not end with a transition." ∷ []) 0 }
    ensures after_a_message { Reports usual ("*A" ∷ "==" ∷ "" ∷ "----" ∷ "" ∷ "x" ∷ [])
        ("<document ids=\"a\" names=\"*a\" source=\"x\" title=\"*A\">" ∷ "    <title>"
        ∷ "        <problematic ids=\"problematic-1\" refid=\"system-message-1\">" ∷ "            *" ∷ "        A"
        ∷ "    <system_message backrefs=\"problematic-1\" ids=\"system-message-1\" level=\"2\" line=\"1\" source=\"x\" type=\"WARNING\">"
        ∷ "        <paragraph>" ∷ "            Inline emphasis start-string without end-string." ∷ "    <transition>" ∷ "    <paragraph>"
        ∷ "        x" ∷ []) ("x:1: (WARNING/2) Inline emphasis start-string without end-string." ∷ []) 0 }
    ensures message_between_two { Reports usual ("a" ∷ "" ∷ "----" ∷ "" ∷ ".. foo::" ∷ "" ∷ "----" ∷ "" ∷ "b" ∷ [])
        ("<document source=\"x\">" ∷ "    <paragraph>" ∷ "        a" ∷ "    <transition>"
        ∷ "    <system_message level=\"3\" line=\"5\" source=\"x\" type=\"ERROR\">" ∷ "        <paragraph>"
        ∷ "            Unknown directive type \"foo\"." ∷ "        <literal_block xml:space=\"preserve\">" ∷ "            .. foo::"
        ∷ "    <transition>" ∷ "    <paragraph>" ∷ "        b" ∷ []) ("x:5: (ERROR/3) Unknown directive type \"foo\"." ∷ "" ∷ ".. foo::" ∷ []) 0 }
{}
