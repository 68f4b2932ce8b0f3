//! Literal blocks, line blocks, block quotes and doctest blocks, in documents.
#![tactic(auto, unfolding(crate::proofs::Computing::rst_block_state))]

ghost use Rattle.std.specs.Prelude.{[], ◌∷◌};
ghost use Rattle.rst_block_state.specs.Reads.{Means, Reads};

/// Indented literal blocks (Markup Specification, 'Indented Literal Blocks').
pub fn literals()
    ensures indented { Means ("a::" ∷ "" ∷ "    b" ∷ "   c" ∷ "" ∷ "     d" ∷ "" ∷ "e" ∷ []) 0
        ("<document> 0" ∷ "    <paragraph> 1" ∷ "        a:" ∷ "    <literal_block xml:space=\"preserve\"> 3" ∷ "         b" ∷ "        c"
        ∷ "        " ∷ "          d" ∷ "    <paragraph> 8" ∷ "        e" ∷ []) }
    ensures colons_alone { Reads ("a" ∷ "" ∷ "::" ∷ "" ∷ "  b" ∷ [])
        ("<document>" ∷ "    <paragraph>" ∷ "        a" ∷ "    <literal_block xml:space=\"preserve\">" ∷ "        b" ∷ []) }
    ensures white_before_the_colons { Reads ("a ::" ∷ "" ∷ "  b" ∷ "" ∷ "abc" ∷ "::" ∷ "" ∷ "  d" ∷ [])
        ("<document>" ∷ "    <paragraph>" ∷ "        a" ∷ "    <literal_block xml:space=\"preserve\">" ∷ "        b"
        ∷ "    <system_message level=\"1\">" ∷ "        <paragraph>" ∷ "            Possible title underline, too short for the title."
        ∷ "            Treating it as ordinary text because it's so short." ∷ "    <paragraph>" ∷ "        abc"
        ∷ "    <literal_block xml:space=\"preserve\">" ∷ "        d" ∷ []) }
    ensures all_white_before_the_colons { Reads ("a  ::" ∷ "" ∷ "  b" ∷ "" ∷ "c\u{3000}::" ∷ "" ∷ "  d" ∷ [])
        ("<document>" ∷ "    <paragraph>" ∷ "        a" ∷ "    <literal_block xml:space=\"preserve\">" ∷ "        b" ∷ "    <paragraph>"
        ∷ "        c" ∷ "    <literal_block xml:space=\"preserve\">" ∷ "        d" ∷ []) }
    ensures escaped_colons { Reads ("a\\::" ∷ "" ∷ "b\\\\::" ∷ "" ∷ "  c" ∷ [])
        ("<document>" ∷ "    <paragraph>" ∷ "        a::" ∷ "    <paragraph>" ∷ "        b\\:" ∷ "    <literal_block xml:space=\"preserve\">"
        ∷ "        c" ∷ []) }
    ensures no_markup { Reads ("a::" ∷ "" ∷ "  *b* ::" ∷ "" ∷ "    - c" ∷ [])
        ("<document>" ∷ "    <paragraph>" ∷ "        a:" ∷ "    <literal_block xml:space=\"preserve\">" ∷ "        *b* ::" ∷ "        "
        ∷ "          - c" ∷ []) }
    ensures without_a_blank_line { Means ("a::" ∷ "" ∷ "  b" ∷ "c" ∷ []) 0
        ("<document> 0" ∷ "    <paragraph> 1" ∷ "        a:" ∷ "    <literal_block xml:space=\"preserve\"> 3" ∷ "        b"
        ∷ "    <system_message level=\"2\"> 4" ∷ "        <paragraph> 4"
        ∷ "            Literal block ends without a blank line; unexpected unindent." ∷ "    <paragraph> 4" ∷ "        c" ∷ []) }
    ensures none_found { Means ("a::" ∷ "" ∷ "b" ∷ []) 0
        ("<document> 0" ∷ "    <paragraph> 1" ∷ "        a:" ∷ "    <system_message level=\"2\"> 3" ∷ "        <paragraph> 3"
        ∷ "            Literal block expected; none found." ∷ "    <paragraph> 3" ∷ "        b" ∷ []) }
    ensures none_at_the_end { Means ("- a" ∷ "  b::" ∷ "" ∷ "c::" ∷ []) 0
        ("<document> 0" ∷ "    <bullet_list bullet=\"-\"> 1" ∷ "        <list_item> 1" ∷ "            <paragraph> 1" ∷ "                a"
        ∷ "                b:" ∷ "            <system_message level=\"2\"> 2" ∷ "                <paragraph> 2"
        ∷ "                    Literal block expected; none found." ∷ "    <paragraph> 4" ∷ "        c:"
        ∷ "    <system_message level=\"2\"> 4" ∷ "        <paragraph> 4" ∷ "            Literal block expected; none found." ∷ []) }
    ensures indented_directly { Means ("a" ∷ "b::" ∷ "  c" ∷ []) 0
        ("<document> 0" ∷ "    <paragraph> 1" ∷ "        a" ∷ "        b:" ∷ "    <system_message level=\"3\"> 3" ∷ "        <paragraph> 3"
        ∷ "            Unexpected indentation." ∷ "    <literal_block xml:space=\"preserve\"> 3" ∷ "        c" ∷ []) }
    ensures message_on_the_text { Means ("*a::" ∷ "" ∷ "  b" ∷ []) 1
        ("<document> 0" ∷ "    <paragraph text_messages=\"1\"> 1" ∷ "        <problematic message=\"0\"> 1" ∷ "            *" ∷ "        a:"
        ∷ "    <system_message level=\"2\" message=\"0\"> 1" ∷ "        <paragraph> 1"
        ∷ "            Inline emphasis start-string without end-string." ∷ "    <literal_block xml:space=\"preserve\"> 3" ∷ "        b" ∷ []) }
    ensures at_the_beginning { Reads ("::" ∷ "x" ∷ [])
        ("<document>" ∷ "    <system_message level=\"1\">" ∷ "        <paragraph>" ∷ "            Possible incomplete section title."
        ∷ "            Treating the overline as ordinary text because it's so short." ∷ "    <paragraph>" ∷ "        ::" ∷ "        x" ∷ []) }
    ensures escaped_white_before_the_colons { Reads ("a\\ ::" ∷ "" ∷ "  b" ∷ [])
        ("<document>" ∷ "    <paragraph>" ∷ "        a" ∷ "    <literal_block xml:space=\"preserve\">" ∷ "        b" ∷ []) }
    ensures colons_in_an_item { Reads ("- a" ∷ "" ∷ "  ::" ∷ "" ∷ "    b" ∷ [])
        ("<document>" ∷ "    <bullet_list bullet=\"-\">" ∷ "        <list_item>" ∷ "            <paragraph>" ∷ "                a"
        ∷ "            <literal_block xml:space=\"preserve\">" ∷ "                b" ∷ []) }
{}

/// Quoted literal blocks (Markup Specification, 'Quoted Literal Blocks').
pub fn quoted_literals()
    ensures lines { Means ("a::" ∷ "" ∷ "> b" ∷ ">c" ∷ "" ∷ "d" ∷ []) 0
        ("<document> 0" ∷ "    <paragraph> 1" ∷ "        a:" ∷ "    <literal_block xml:space=\"preserve\"> 3" ∷ "        > b" ∷ "        >c"
        ∷ "    <paragraph> 6" ∷ "        d" ∷ []) }
    ensures any_punctuation { Reads ("::" ∷ "" ∷ "* a" ∷ "* b" ∷ "" ∷ "::" ∷ "" ∷ ": c" ∷ [])
        ("<document>" ∷ "    <literal_block xml:space=\"preserve\">" ∷ "        * a" ∷ "        * b"
        ∷ "    <literal_block xml:space=\"preserve\">" ∷ "        : c" ∷ []) }
    ensures inconsistent { Means ("::" ∷ "" ∷ "> a" ∷ "$ b" ∷ []) 0
        ("<document> 0" ∷ "    <literal_block xml:space=\"preserve\"> 3" ∷ "        > a" ∷ "    <system_message level=\"3\"> 4"
        ∷ "        <paragraph> 4" ∷ "            Inconsistent literal block quoting." ∷ "    <paragraph> 4" ∷ "        $ b" ∷ []) }
    ensures indented { Means ("::" ∷ "" ∷ "> a" ∷ "  b" ∷ []) 0
        ("<document> 0" ∷ "    <literal_block xml:space=\"preserve\"> 3" ∷ "        > a" ∷ "    <system_message level=\"3\"> 4"
        ∷ "        <paragraph> 4" ∷ "            Unexpected indentation." ∷ "    <block_quote> 4" ∷ "        <paragraph> 4"
        ∷ "            b" ∷ []) }
{}

/// Line blocks (Markup Specification, 'Line Blocks').
pub fn line_blocks()
    ensures lines { Means ("| a" ∷ "| *b*" ∷ "c" ∷ []) 0
        ("<document> 0" ∷ "    <line_block> 1" ∷ "        <line> 1" ∷ "            a" ∷ "        <line> 2" ∷ "            <emphasis> 2"
        ∷ "                b" ∷ "    <system_message level=\"2\"> 3" ∷ "        <paragraph> 3"
        ∷ "            Line block ends without a blank line." ∷ "    <paragraph> 3" ∷ "        c" ∷ []) }
    ensures nested { Means ("| a" ∷ "|   b" ∷ "|   c" ∷ "| d" ∷ "|  e" ∷ "|   f" ∷ []) 0
        ("<document> 0" ∷ "    <line_block> 1" ∷ "        <line> 1" ∷ "            a" ∷ "        <line_block> 2" ∷ "            <line> 2"
        ∷ "                b" ∷ "            <line> 3" ∷ "                c" ∷ "        <line> 4" ∷ "            d" ∷ "        <line_block> 5"
        ∷ "            <line> 5" ∷ "                e" ∷ "            <line_block> 6" ∷ "                <line> 6" ∷ "                    f" ∷ []) }
    ensures deeper_first { Reads ("|   a" ∷ "| b" ∷ [])
        ("<document>" ∷ "    <line_block>" ∷ "        <line_block>" ∷ "            <line>" ∷ "                a" ∷ "        <line>"
        ∷ "            b" ∷ []) }
    ensures empty_lines { Reads ("|" ∷ "|   a" ∷ "|" ∷ "| b" ∷ [])
        ("<document>" ∷ "    <line_block>" ∷ "        <line>" ∷ "        <line_block>" ∷ "            <line>" ∷ "                a"
        ∷ "            <line>" ∷ "        <line>" ∷ "            b" ∷ []) }
    ensures several_lines { Reads ("| a" ∷ "      b" ∷ "    c" ∷ "| d" ∷ [])
        ("<document>" ∷ "    <line_block>" ∷ "        <line>" ∷ "            a" ∷ "              b" ∷ "            c" ∷ "        <line>"
        ∷ "            d" ∷ []) }
    ensures bar_alone_with_lines_below { Means ("| a" ∷ "|" ∷ "   *x" ∷ []) 1
        ("<document> 0" ∷ "    <line_block> 1" ∷ "        <line> 1" ∷ "            a" ∷ "        <line text_messages=\"1\"> 2"
        ∷ "            <problematic message=\"0\"> 3" ∷ "                *" ∷ "            x"
        ∷ "    <system_message level=\"2\" message=\"0\"> 3" ∷ "        <paragraph> 3"
        ∷ "            Inline emphasis start-string without end-string." ∷ []) }
    ensures blank_line_between { Reads ("| a" ∷ "" ∷ "| b" ∷ [])
        ("<document>" ∷ "    <line_block>" ∷ "        <line>" ∷ "            a" ∷ "    <line_block>" ∷ "        <line>" ∷ "            b" ∷ []) }
    ensures messages_of_nested_lines { Means ("| *a" ∷ "|   *b" ∷ []) 2
        ("<document> 0" ∷ "    <line_block> 1" ∷ "        <line text_messages=\"1\"> 1" ∷ "            <problematic message=\"0\"> 1"
        ∷ "                *" ∷ "            a" ∷ "        <line_block> 2" ∷ "            <line text_messages=\"1\"> 2"
        ∷ "                <problematic message=\"1\"> 2" ∷ "                    *" ∷ "                b"
        ∷ "    <system_message level=\"2\" message=\"0\"> 1" ∷ "        <paragraph> 1"
        ∷ "            Inline emphasis start-string without end-string." ∷ "    <system_message level=\"2\" message=\"1\"> 2"
        ∷ "        <paragraph> 2" ∷ "            Inline emphasis start-string without end-string." ∷ []) }
{}

/// Block quotes (Markup Specification, 'Block Quotes').
pub fn quotes()
    ensures after_a_paragraph { Means ("a" ∷ "" ∷ "  b" ∷ "" ∷ "  c" ∷ "" ∷ "d" ∷ []) 0
        ("<document> 0" ∷ "    <paragraph> 1" ∷ "        a" ∷ "    <block_quote> 3" ∷ "        <paragraph> 3" ∷ "            b"
        ∷ "        <paragraph> 5" ∷ "            c" ∷ "    <paragraph> 7" ∷ "        d" ∷ []) }
    ensures levels { Reads ("a" ∷ "" ∷ "    b" ∷ "" ∷ "  c" ∷ [])
        ("<document>" ∷ "    <paragraph>" ∷ "        a" ∷ "    <block_quote>" ∷ "        <block_quote>" ∷ "            <paragraph>"
        ∷ "                b" ∷ "        <paragraph>" ∷ "            c" ∷ []) }
    ensures unindent { Means ("        a" ∷ "    b" ∷ []) 0
        ("<document> 0" ∷ "    <block_quote> 1" ∷ "        <block_quote> 1" ∷ "            <paragraph> 1" ∷ "                a"
        ∷ "        <system_message level=\"2\"> 2" ∷ "            <paragraph> 2"
        ∷ "                Block quote ends without a blank line; unexpected unindent." ∷ "        <paragraph> 2" ∷ "            b" ∷ []) }
    ensures without_a_blank_line { Means ("  a" ∷ "b" ∷ []) 0
        ("<document> 0" ∷ "    <block_quote> 1" ∷ "        <paragraph> 1" ∷ "            a" ∷ "    <system_message level=\"2\"> 2"
        ∷ "        <paragraph> 2" ∷ "            Block quote ends without a blank line; unexpected unindent." ∷ "    <paragraph> 2"
        ∷ "        b" ∷ []) }
{}

/// Attributions of block quotes (Markup Specification, 'Block Quotes').
pub fn attributions()
    ensures one { Means ("  a" ∷ "" ∷ "  -- b" ∷ "" ∷ "  c" ∷ []) 0
        ("<document> 0" ∷ "    <block_quote> 1" ∷ "        <paragraph> 1" ∷ "            a" ∷ "        <attribution> 3" ∷ "            b"
        ∷ "    <block_quote> 5" ∷ "        <paragraph> 5" ∷ "            c" ∷ []) }
    ensures marks { Reads ("  a" ∷ "" ∷ "  --b" ∷ "" ∷ "  c" ∷ "" ∷ "  --- d" ∷ "" ∷ "  e" ∷ "" ∷ "  — f" ∷ [])
        ("<document>" ∷ "    <block_quote>" ∷ "        <paragraph>" ∷ "            a" ∷ "        <attribution>" ∷ "            b"
        ∷ "    <block_quote>" ∷ "        <paragraph>" ∷ "            c" ∷ "        <attribution>" ∷ "            d" ∷ "    <block_quote>"
        ∷ "        <paragraph>" ∷ "            e" ∷ "        <attribution>" ∷ "            f" ∷ []) }
    ensures none { Reads ("  a" ∷ "" ∷ "  ---- b" ∷ "" ∷ "  c" ∷ "  -- d" ∷ "" ∷ "  --" ∷ [])
        ("<document>" ∷ "    <block_quote>" ∷ "        <paragraph>" ∷ "            a" ∷ "        <paragraph>" ∷ "            ---- b"
        ∷ "        <paragraph>" ∷ "            c" ∷ "            -- d" ∷ "        <system_message level=\"1\">" ∷ "            <paragraph>"
        ∷ "                Unexpected possible title overline or transition."
        ∷ "                Treating it as ordinary text because it's so short." ∷ "        <paragraph>" ∷ "            --" ∷ []) }
    ensures lines { Reads ("  a" ∷ "" ∷ "  -- b" ∷ "     c" ∷ "     d" ∷ "" ∷ "  e" ∷ "" ∷ "  -- f" ∷ "     g" ∷ "   h" ∷ [])
        ("<document>" ∷ "    <block_quote>" ∷ "        <paragraph>" ∷ "            a" ∷ "        <attribution>" ∷ "            b"
        ∷ "            c" ∷ "            d" ∷ "    <block_quote>" ∷ "        <paragraph>" ∷ "            e" ∷ "        <definition_list>"
        ∷ "            <definition_list_item>" ∷ "                <term>" ∷ "                    -- f" ∷ "                <definition>"
        ∷ "                    <block_quote>" ∷ "                        <paragraph>" ∷ "                            g"
        ∷ "                    <system_message level=\"2\">" ∷ "                        <paragraph>"
        ∷ "                            Block quote ends without a blank line; unexpected unindent." ∷ "                    <paragraph>"
        ∷ "                        h" ∷ []) }
    ensures before_a_text { Reads ("  -- a" ∷ "" ∷ "  b" ∷ [])
        ("<document>" ∷ "    <block_quote>" ∷ "        <paragraph>" ∷ "            -- a" ∷ "        <paragraph>" ∷ "            b" ∷ []) }
    ensures message { Means ("  a" ∷ "" ∷ "  -- *b" ∷ []) 1
        ("<document> 0" ∷ "    <block_quote> 1" ∷ "        <paragraph> 1" ∷ "            a" ∷ "        <attribution text_messages=\"1\"> 3"
        ∷ "            <problematic message=\"0\"> 3" ∷ "                *" ∷ "            b"
        ∷ "    <system_message level=\"2\" message=\"0\"> 3" ∷ "        <paragraph> 3"
        ∷ "            Inline emphasis start-string without end-string." ∷ []) }
    ensures deeper { Reads ("    a" ∷ "" ∷ "    -- b" ∷ "" ∷ "  c" ∷ [])
        ("<document>" ∷ "    <block_quote>" ∷ "        <block_quote>" ∷ "            <paragraph>" ∷ "                a"
        ∷ "            <attribution>" ∷ "                b" ∷ "        <paragraph>" ∷ "            c" ∷ []) }
    ensures before_a_deeper_text { Reads ("    a" ∷ "" ∷ "    -- b" ∷ "" ∷ "      c" ∷ [])
        ("<document>" ∷ "    <block_quote>" ∷ "        <paragraph>" ∷ "            a" ∷ "        <attribution>" ∷ "            b"
        ∷ "    <block_quote>" ∷ "        <block_quote>" ∷ "            <paragraph>" ∷ "                c" ∷ []) }
    ensures in_an_item { Reads ("- a" ∷ "" ∷ "  -- b" ∷ [])
        ("<document>" ∷ "    <bullet_list bullet=\"-\">" ∷ "        <list_item>" ∷ "            <paragraph>" ∷ "                a"
        ∷ "            <paragraph>" ∷ "                -- b" ∷ []) }
    ensures after_another { Reads ("  a" ∷ "" ∷ "  -- b" ∷ "" ∷ "  -- c" ∷ [])
        ("<document>" ∷ "    <block_quote>" ∷ "        <paragraph>" ∷ "            a" ∷ "        <attribution>" ∷ "            b"
        ∷ "    <block_quote>" ∷ "        <paragraph>" ∷ "            -- c" ∷ []) }
{}

/// Doctest blocks (Markup Specification, 'Doctest Blocks').
pub fn doctests()
    ensures lines { Means ("x" ∷ "" ∷ ">>> print(1)" ∷ "1" ∷ "  2" ∷ "" ∷ "y" ∷ []) 0
        ("<document> 0" ∷ "    <paragraph> 1" ∷ "        x" ∷ "    <doctest_block xml:space=\"preserve\"> 3" ∷ "        >>> print(1)"
        ∷ "        1" ∷ "          2" ∷ "    <paragraph> 7" ∷ "        y" ∷ []) }
    ensures no_markup { Reads (">>> *a*" ∷ "*b*" ∷ [])
        ("<document>" ∷ "    <doctest_block xml:space=\"preserve\">" ∷ "        >>> *a*" ∷ "        *b*" ∷ []) }
    ensures no_mark { Reads (">>>a" ∷ []) ("<document>" ∷ "    <paragraph>" ∷ "        >>>a" ∷ []) }
{}
