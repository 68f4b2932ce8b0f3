//! Substitution references and definitions.
#![tactic(auto, unfolding(crate::proofs::Computing::rst2pseudoxml_run))]

ghost use Rattle.std.specs.Prelude.{[], ◌∷◌};
ghost use Rattle.rst2pseudoxml_run.specs.Written.{usual, Outputs, Reports};

/// Substitution references give way to the content of their definitions (Markup Specification, 'Substitution Definitions').
pub fn substitutions()
    ensures replaced { Outputs ("|a|!" ∷ "" ∷ ".. |a| replace:: b *c*" ∷ [])
        ("<document source=\"x\">" ∷ "    <paragraph>" ∷ "        b " ∷ "        <emphasis>" ∷ "            c" ∷ "        !"
        ∷ "    <substitution_definition names=\"a\">" ∷ "        b " ∷ "        <emphasis>" ∷ "            c" ∷ []) }
    ensures by_its_name { Outputs ("|A  b|" ∷ "" ∷ ".. |a b| replace:: c" ∷ [])
        ("<document source=\"x\">" ∷ "    <paragraph>" ∷ "        c" ∷ "    <substitution_definition names=\"a\\ b\">" ∷ "        c" ∷ []) }
    ensures nested { Outputs ("|a|" ∷ "" ∷ ".. |a| replace:: x |b|" ∷ ".. |b| replace:: y" ∷ [])
        ("<document source=\"x\">" ∷ "    <paragraph>" ∷ "        x " ∷ "        y" ∷ "    <substitution_definition names=\"a\">" ∷ "        x "
        ∷ "        y" ∷ "    <substitution_definition names=\"b\">" ∷ "        y" ∷ []) }
    ensures definition_in_a_quote { Outputs ("|a|" ∷ "" ∷ "  .. |a| replace:: b" ∷ [])
        ("<document source=\"x\">" ∷ "    <paragraph>" ∷ "        b" ∷ "    <block_quote>" ∷ "        <substitution_definition names=\"a\">"
        ∷ "            b" ∷ []) }
    ensures circular_and_undefined { Reports usual ("|a| |x|" ∷ "" ∷ ".. |a| replace:: |b|" ∷ ".. |b| replace:: |a|" ∷ [])
        ("<document source=\"x\">" ∷ "    <paragraph>" ∷ "        <problematic ids=\"problematic-1\" refid=\"system-message-1\">" ∷ "            |a|"
        ∷ "         " ∷ "        <problematic ids=\"problematic-2\" refid=\"system-message-2\">" ∷ "            |x|"
        ∷ "    <substitution_definition names=\"a\">" ∷ "        <problematic ids=\"problematic-3\" refid=\"system-message-3\">" ∷ "            |b|"
        ∷ "    <substitution_definition names=\"b\">" ∷ "        <problematic ids=\"problematic-4\" refid=\"system-message-4\">" ∷ "            |a|"
        ∷ "    <section classes=\"system-messages\">" ∷ "        <title>" ∷ "            Docutils System Messages"
        ∷ "        <system_message backrefs=\"problematic-1\" ids=\"system-message-1\" level=\"3\" line=\"1\" source=\"x\" type=\"ERROR\">"
        ∷ "            <paragraph>" ∷ "                Circular substitution definition referenced: \"a\"."
        ∷ "        <system_message backrefs=\"problematic-2\" ids=\"system-message-2\" level=\"3\" line=\"1\" source=\"x\" type=\"ERROR\">"
        ∷ "            <paragraph>" ∷ "                Undefined substitution referenced: \"x\"."
        ∷ "        <system_message backrefs=\"problematic-3\" ids=\"system-message-3\" level=\"3\" line=\"3\" source=\"x\" type=\"ERROR\">"
        ∷ "            <paragraph>" ∷ "                Circular substitution definition referenced: \"a\"."
        ∷ "        <system_message backrefs=\"problematic-4\" ids=\"system-message-4\" level=\"3\" line=\"4\" source=\"x\" type=\"ERROR\">"
        ∷ "            <paragraph>" ∷ "                Circular substitution definition referenced: \"b\"." ∷ [])
        ("x:1: (ERROR/3) Circular substitution definition referenced: \"a\"." ∷ "x:1: (ERROR/3) Undefined substitution referenced: \"x\"."
        ∷ "x:3: (ERROR/3) Circular substitution definition referenced: \"a\"."
        ∷ "x:4: (ERROR/3) Circular substitution definition referenced: \"b\"." ∷ []) 0 }
{}
