//! Paragraphs, lists, quotes and literal blocks.
#![tactic(auto, unfolding(crate::proofs::Computing::rst2pseudoxml_run))]

ghost use Rattle.std.specs.Prelude.{[], ◌∷◌};
ghost use Rattle.rst_settings.specs.declared.Threshold.TheVariants.{Info};
ghost use Rattle.rst2pseudoxml_run.specs.Written.{usual, Outputs, Reports};

/// Bullet lists (Markup Specification, 'Bullet Lists').
pub fn bullet_lists()
    ensures without_a_blank_line { Reports usual ("- a" ∷ "- b" ∷ "c" ∷ [])
        ("<document source=\"x\">" ∷ "    <bullet_list bullet=\"-\">" ∷ "        <list_item>" ∷ "            <paragraph>" ∷ "                a"
        ∷ "        <list_item>" ∷ "            <paragraph>" ∷ "                b"
        ∷ "    <system_message level=\"2\" line=\"3\" source=\"x\" type=\"WARNING\">" ∷ "        <paragraph>"
        ∷ "            Bullet list ends without a blank line; unexpected unindent." ∷ "    <paragraph>" ∷ "        c" ∷ [])
        ("x:3: (WARNING/2) Bullet list ends without a blank line; unexpected unindent." ∷ []) 0 }
    ensures items { Outputs ("- a" ∷ "- b" ∷ "" ∷ "c" ∷ [])
        ("<document source=\"x\">" ∷ "    <bullet_list bullet=\"-\">" ∷ "        <list_item>" ∷ "            <paragraph>" ∷ "                a"
        ∷ "        <list_item>" ∷ "            <paragraph>" ∷ "                b" ∷ "    <paragraph>" ∷ "        c" ∷ []) }
{}

/// Enumerated lists (Markup Specification, 'Enumerated Lists').
pub fn enumerated_lists()
    ensures text_directly_below { Outputs ("1. a" ∷ "b" ∷ []) ("<document source=\"x\">" ∷ "    <paragraph>" ∷ "        1. a" ∷ "        b" ∷ []) }
    ensures from_three { Outputs ("3. a" ∷ [])
        ("<document source=\"x\">" ∷ "    <enumerated_list enumtype=\"arabic\" prefix=\"\" start=\"3\" suffix=\".\">" ∷ "        <list_item>"
        ∷ "            <paragraph>" ∷ "                a" ∷ []) }
    ensures from_three_with_all_messages { Reports (record usual { report = Info }) ("3. a" ∷ [])
        ("<document source=\"x\">" ∷ "    <enumerated_list enumtype=\"arabic\" prefix=\"\" start=\"3\" suffix=\".\">" ∷ "        <list_item>"
        ∷ "            <paragraph>" ∷ "                a" ∷ "    <system_message level=\"1\" line=\"1\" source=\"x\" type=\"INFO\">"
        ∷ "        <paragraph>" ∷ "            Enumerated list start value not ordinal-1: \"3\" (ordinal 3)" ∷ [])
        ("x:1: (INFO/1) Enumerated list start value not ordinal-1: \"3\" (ordinal 3)" ∷ []) 0 }
    ensures roman { Outputs ("i. a" ∷ "ii. b" ∷ [])
        ("<document source=\"x\">" ∷ "    <enumerated_list enumtype=\"lowerroman\" prefix=\"\" suffix=\".\">" ∷ "        <list_item>"
        ∷ "            <paragraph>" ∷ "                a" ∷ "        <list_item>" ∷ "            <paragraph>" ∷ "                b" ∷ []) }
    ensures from_a_letter { Outputs ("c. x" ∷ "d. y" ∷ [])
        ("<document source=\"x\">" ∷ "    <enumerated_list enumtype=\"loweralpha\" prefix=\"\" start=\"3\" suffix=\".\">" ∷ "        <list_item>"
        ∷ "            <paragraph>" ∷ "                x" ∷ "        <list_item>" ∷ "            <paragraph>" ∷ "                y" ∷ []) }
{}

/// A definition list, an option list and a line block (Markup Specification, 'Body Elements').
pub fn definitions_options_and_lines()
    ensures one_after_the_other { Outputs ("term : c" ∷ "  def" ∷ "" ∷ "-a X  desc" ∷ "" ∷ "| l" ∷ "|   m" ∷ [])
        ("<document source=\"x\">" ∷ "    <definition_list>" ∷ "        <definition_list_item>" ∷ "            <term>" ∷ "                term"
        ∷ "            <classifier>" ∷ "                c" ∷ "            <definition>" ∷ "                <paragraph>" ∷ "                    def"
        ∷ "    <option_list>" ∷ "        <option_list_item>" ∷ "            <option_group>" ∷ "                <option>"
        ∷ "                    <option_string>" ∷ "                        -a" ∷ "                    <option_argument delimiter=\" \">"
        ∷ "                        X" ∷ "            <description>" ∷ "                <paragraph>" ∷ "                    desc" ∷ "    <line_block>"
        ∷ "        <line>" ∷ "            l" ∷ "        <line_block>" ∷ "            <line>" ∷ "                m" ∷ []) }
{}

/// Field lists that don't lead the document (Markup Specification, 'Field Lists').
pub fn field_lists()
    ensures after_a_paragraph { Outputs ("x" ∷ "" ∷ ":a b: c" ∷ ":d:" ∷ "   e" ∷ [])
        ("<document source=\"x\">" ∷ "    <paragraph>" ∷ "        x" ∷ "    <field_list>" ∷ "        <field>" ∷ "            <field_name>"
        ∷ "                a b" ∷ "            <field_body>" ∷ "                <paragraph>" ∷ "                    c" ∷ "        <field>"
        ∷ "            <field_name>" ∷ "                d" ∷ "            <field_body>" ∷ "                <paragraph>"
        ∷ "                    e" ∷ []) }
{}

/// Option lists (Markup Specification, 'Option Lists').
pub fn option_lists()
    ensures short_and_long { Outputs ("-a, --all=N  x" ∷ [])
        ("<document source=\"x\">" ∷ "    <option_list>" ∷ "        <option_list_item>" ∷ "            <option_group>" ∷ "                <option>"
        ∷ "                    <option_string>" ∷ "                        -a" ∷ "                <option>" ∷ "                    <option_string>"
        ∷ "                        --all" ∷ "                    <option_argument delimiter=\"=\">" ∷ "                        N"
        ∷ "            <description>" ∷ "                <paragraph>" ∷ "                    x" ∷ []) }
{}

/// Block quotes (Markup Specification, 'Block Quotes').
pub fn block_quotes()
    ensures less_indented { Reports usual ("        a" ∷ "    b" ∷ [])
        ("<document source=\"x\">" ∷ "    <block_quote>" ∷ "        <block_quote>" ∷ "            <paragraph>" ∷ "                a"
        ∷ "        <system_message level=\"2\" line=\"2\" source=\"x\" type=\"WARNING\">" ∷ "            <paragraph>"
        ∷ "                Block quote ends without a blank line; unexpected unindent." ∷ "        <paragraph>" ∷ "            b" ∷ [])
        ("x:2: (WARNING/2) Block quote ends without a blank line; unexpected unindent." ∷ []) 0 }
    ensures in_a_paragraph { Reports usual ("a" ∷ "b" ∷ "  c" ∷ "d" ∷ [])
        ("<document source=\"x\">" ∷ "    <paragraph>" ∷ "        a" ∷ "        b"
        ∷ "    <system_message level=\"3\" line=\"3\" source=\"x\" type=\"ERROR\">" ∷ "        <paragraph>" ∷ "            Unexpected indentation."
        ∷ "    <block_quote>" ∷ "        <paragraph>" ∷ "            c" ∷ "    <system_message level=\"2\" line=\"4\" source=\"x\" type=\"WARNING\">"
        ∷ "        <paragraph>" ∷ "            Block quote ends without a blank line; unexpected unindent." ∷ "    <paragraph>" ∷ "        d" ∷ [])
        ("x:3: (ERROR/3) Unexpected indentation." ∷ "x:4: (WARNING/2) Block quote ends without a blank line; unexpected unindent." ∷ []) 0 }
{}

/// Literal blocks (Markup Specification, 'Literal Blocks').
pub fn literal_blocks()
    ensures indented { Reports usual ("a::" ∷ "" ∷ "  x" ∷ "   y" ∷ "z" ∷ [])
        ("<document source=\"x\">" ∷ "    <paragraph>" ∷ "        a:" ∷ "    <literal_block xml:space=\"preserve\">" ∷ "        x" ∷ "         y"
        ∷ "    <system_message level=\"2\" line=\"5\" source=\"x\" type=\"WARNING\">" ∷ "        <paragraph>"
        ∷ "            Literal block ends without a blank line; unexpected unindent." ∷ "    <paragraph>" ∷ "        z" ∷ [])
        ("x:5: (WARNING/2) Literal block ends without a blank line; unexpected unindent." ∷ []) 0 }
    ensures quoted { Reports usual ("a::" ∷ "" ∷ "> x" ∷ "> y" ∷ "z" ∷ [])
        ("<document source=\"x\">" ∷ "    <paragraph>" ∷ "        a:" ∷ "    <literal_block xml:space=\"preserve\">" ∷ "        > x" ∷ "        > y"
        ∷ "    <system_message level=\"3\" line=\"5\" source=\"x\" type=\"ERROR\">" ∷ "        <paragraph>"
        ∷ "            Inconsistent literal block quoting." ∷ "    <paragraph>" ∷ "        z" ∷ [])
        ("x:5: (ERROR/3) Inconsistent literal block quoting." ∷ []) 0 }
{}

/// Comments (Markup Specification, 'Comments').
pub fn comments()
    ensures empty { Outputs (".." ∷ "" ∷ "   x" ∷ [])
        ("<document source=\"x\">" ∷ "    <comment xml:space=\"preserve\">" ∷ "    <block_quote>" ∷ "        <paragraph>" ∷ "            x" ∷ []) }
    ensures after_the_marker { Outputs (".. y" ∷ "" ∷ "   x" ∷ [])
        ("<document source=\"x\">" ∷ "    <comment xml:space=\"preserve\">" ∷ "        y" ∷ "        " ∷ "        x" ∷ []) }
{}
