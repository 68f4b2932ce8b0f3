//! Bibliographic fields.
#![tactic(auto, unfolding(crate::proofs::Computing::rst2pseudoxml_run))]

ghost use Rattle.std.specs.Prelude.{[], ◌∷◌};
ghost use Rattle.rst2pseudoxml_run.specs.Written.{usual, Outputs, Reports};

/// The bibliography of a document (Markup Specification, 'Bibliographic Fields').
pub fn bibliographic_fields()
    ensures without_a_title { Outputs (":Author: Ann" ∷ ":Version: 1" ∷ ":X y: z" ∷ [])
        ("<document source=\"x\">" ∷ "    <docinfo>" ∷ "        <author>" ∷ "            Ann" ∷ "        <version>" ∷ "            1"
        ∷ "        <field classes=\"x-y\">" ∷ "            <field_name>" ∷ "                X y" ∷ "            <field_body>"
        ∷ "                <paragraph>" ∷ "                    z" ∷ []) }
    ensures after_the_title { Outputs ("A" ∷ "=" ∷ "" ∷ ":Author: me" ∷ ":Date: now" ∷ ":x: y" ∷ "" ∷ "b" ∷ [])
        ("<document ids=\"a\" names=\"a\" source=\"x\" title=\"A\">" ∷ "    <title>" ∷ "        A" ∷ "    <docinfo>" ∷ "        <author>"
        ∷ "            me" ∷ "        <date>" ∷ "            now" ∷ "        <field classes=\"x\">" ∷ "            <field_name>" ∷ "                x"
        ∷ "            <field_body>" ∷ "                <paragraph>" ∷ "                    y" ∷ "    <paragraph>" ∷ "        b" ∷ []) }
    ensures authors_and_abstract { Outputs (":Authors: A; B" ∷ ":Abstract: c" ∷ [])
        ("<document source=\"x\">" ∷ "    <docinfo>" ∷ "        <authors>" ∷ "            <author>" ∷ "                A" ∷ "            <author>"
        ∷ "                B" ∷ "    <topic classes=\"abstract\">" ∷ "        <title>" ∷ "            Abstract" ∷ "        <paragraph>"
        ∷ "            c" ∷ []) }
    ensures topics { Outputs (":Abstract: a" ∷ ":Dedication: b" ∷ [])
        ("<document source=\"x\">" ∷ "    <topic classes=\"dedication\">" ∷ "        <title>" ∷ "            Dedication" ∷ "        <paragraph>"
        ∷ "            b" ∷ "    <topic classes=\"abstract\">" ∷ "        <title>" ∷ "            Abstract" ∷ "        <paragraph>"
        ∷ "            a" ∷ []) }
    ensures empty_field { Reports usual (":Date:" ∷ "" ∷ "x" ∷ [])
        ("<document source=\"x\">" ∷ "    <docinfo>" ∷ "        <field classes=\"date\">" ∷ "            <field_name>" ∷ "                Date"
        ∷ "            <field_body>" ∷ "                <system_message level=\"2\" line=\"1\" source=\"x\" type=\"WARNING\">"
        ∷ "                    <paragraph>" ∷ "                        Bibliographic field \"date\" is not in its form." ∷ "    <paragraph>"
        ∷ "        x" ∷ []) ("x:1: (WARNING/2) Bibliographic field \"date\" is not in its form." ∷ []) 0 }
    ensures two_paragraphs { Reports usual (":Date: a" ∷ "" ∷ "  b" ∷ [])
        ("<document source=\"x\">" ∷ "    <docinfo>" ∷ "        <field classes=\"date\">" ∷ "            <field_name>" ∷ "                Date"
        ∷ "            <field_body>" ∷ "                <paragraph>" ∷ "                    a" ∷ "                <paragraph>"
        ∷ "                    b" ∷ "                <system_message level=\"2\" line=\"1\" source=\"x\" type=\"WARNING\">"
        ∷ "                    <paragraph>" ∷ "                        Bibliographic field \"date\" is not in its form." ∷ [])
        ("x:1: (WARNING/2) Bibliographic field \"date\" is not in its form." ∷ []) 0 }
{}
