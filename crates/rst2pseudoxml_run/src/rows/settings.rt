//! Settings.
#![tactic(auto, unfolding(crate::proofs::Computing::rst2pseudoxml_run))]

ghost use Rattle.std.specs.Prelude.{false, [], ◌∷◌};
ghost use Rattle.rst2pseudoxml_run.specs.Written.{usual, narrow_tabs, Reports};

/// Titles of lone sections, where they aren't to be the document's (Configuration, 'doctitle_xform').
pub fn titles()
    ensures title_of_a_section { Reports (record usual { title = false }) ("A" ∷ "=" ∷ "" ∷ "B" ∷ "-" ∷ "" ∷ "c" ∷ [])
        ("<document source=\"x\">" ∷ "    <section ids=\"a\" names=\"a\">" ∷ "        <title>" ∷ "            A"
        ∷ "        <section ids=\"b\" names=\"b\">" ∷ "            <title>" ∷ "                B" ∷ "            <paragraph>"
        ∷ "                c" ∷ []) [] 0 }
{}

/// A leading field list that isn't to be bibliographic (Configuration, 'docinfo_xform').
pub fn docinfo()
    ensures field_list { Reports (record usual { info = false }) (":Author: Ann" ∷ ":Version: 1" ∷ ":X y: z" ∷ [])
        ("<document source=\"x\">" ∷ "    <field_list>" ∷ "        <field>" ∷ "            <field_name>" ∷ "                Author"
        ∷ "            <field_body>" ∷ "                <paragraph>" ∷ "                    Ann" ∷ "        <field>" ∷ "            <field_name>"
        ∷ "                Version" ∷ "            <field_body>" ∷ "                <paragraph>" ∷ "                    1" ∷ "        <field>"
        ∷ "            <field_name>" ∷ "                X y" ∷ "            <field_body>" ∷ "                <paragraph>"
        ∷ "                    z" ∷ []) [] 0 }
{}

/// Tab stops (Configuration, 'tab_width').
pub fn tabs()
    ensures every_four_columns { Reports narrow_tabs ("a\tb" ∷ []) ("<document source=\"x\">" ∷ "    <paragraph>" ∷ "        a   b" ∷ []) [] 0 }
{}

/// Lines that are too long (Configuration, 'line_length_limit').
pub fn line_lengths()
    ensures as_long_as_allowed { Reports (record usual { limit = 3 }) ("abc" ∷ [])
        ("<document source=\"x\">" ∷ "    <paragraph>" ∷ "        abc" ∷ []) [] 0 }
    ensures one_character_more { Reports (record usual { limit = 3 }) ("abcd" ∷ [])
        ("<document source=\"x\">" ∷ "    <system_message level=\"3\" line=\"1\" source=\"x\" type=\"ERROR\">" ∷ "        <paragraph>"
        ∷ "            Line 1 exceeds the line-length-limit." ∷ []) ("x:1: (ERROR/3) Line 1 exceeds the line-length-limit." ∷ []) 0 }
    ensures second_line { Reports (record usual { limit = 3 }) ("ab" ∷ "abcd" ∷ [])
        ("<document source=\"x\">" ∷ "    <system_message level=\"3\" line=\"2\" source=\"x\" type=\"ERROR\">" ∷ "        <paragraph>"
        ∷ "            Line 2 exceeds the line-length-limit." ∷ []) ("x:2: (ERROR/3) Line 2 exceeds the line-length-limit." ∷ []) 0 }
{}
