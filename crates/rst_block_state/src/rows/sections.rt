//! Paragraphs, sections and transitions, in documents.
#![tactic(auto, unfolding(crate::proofs::Computing::rst_block_state))]

ghost use Rattle.std.specs.Prelude.{[], ◌∷◌};
ghost use Rattle.rst_block_state.specs.Reads.{Means, Reads};

/// Paragraphs (Markup Specification, 'Paragraphs').
pub fn paragraphs()
    ensures empty { Reads [] ("<document>" ∷ []) }
    ensures of_lines { Reads ("a" ∷ "b" ∷ "" ∷ "c" ∷ [])
        ("<document>" ∷ "    <paragraph>" ∷ "        a" ∷ "        b" ∷ "    <paragraph>" ∷ "        c" ∷ []) }
    ensures blank_lines { Reads ("" ∷ "a" ∷ "" ∷ "" ∷ "b" ∷ "" ∷ [])
        ("<document>" ∷ "    <paragraph>" ∷ "        a" ∷ "    <paragraph>" ∷ "        b" ∷ []) }
    ensures tab { Reads ("a" ∷ "" ∷ "\tb" ∷ [])
        ("<document>" ∷ "    <paragraph>" ∷ "        a" ∷ "    <block_quote>" ∷ "        <paragraph>" ∷ "            b" ∷ []) }
    ensures unexpected_indentation { Means ("a" ∷ "b" ∷ "  c" ∷ "d" ∷ []) 0
        ("<document> 0" ∷ "    <paragraph> 1" ∷ "        a" ∷ "        b" ∷ "    <system_message level=\"3\"> 3" ∷ "        <paragraph> 3"
        ∷ "            Unexpected indentation." ∷ "    <block_quote> 3" ∷ "        <paragraph> 3" ∷ "            c"
        ∷ "    <system_message level=\"2\"> 4" ∷ "        <paragraph> 4"
        ∷ "            Block quote ends without a blank line; unexpected unindent." ∷ "    <paragraph> 4" ∷ "        d" ∷ []) }
    ensures message_on_a_text { Means ("a" ∷ "*b" ∷ "" ∷ "c" ∷ []) 1
        ("<document> 0" ∷ "    <paragraph text_messages=\"1\"> 1" ∷ "        a" ∷ "        <problematic message=\"0\"> 1" ∷ "            *"
        ∷ "        b" ∷ "    <system_message level=\"2\" message=\"0\"> 1" ∷ "        <paragraph> 1"
        ∷ "            Inline emphasis start-string without end-string." ∷ "    <paragraph> 4" ∷ "        c" ∷ []) }
    ensures message_on_a_text_before_an_indented_line { Means ("a" ∷ "*b" ∷ "  c" ∷ []) 1
        ("<document> 0" ∷ "    <paragraph text_messages=\"1\"> 1" ∷ "        a" ∷ "        <problematic message=\"0\"> 1" ∷ "            *"
        ∷ "        b" ∷ "    <system_message level=\"2\" message=\"0\"> 1" ∷ "        <paragraph> 1"
        ∷ "            Inline emphasis start-string without end-string." ∷ "    <system_message level=\"3\"> 3" ∷ "        <paragraph> 3"
        ∷ "            Unexpected indentation." ∷ "    <block_quote> 3" ∷ "        <paragraph> 3" ∷ "            c" ∷ []) }
    ensures line_ends { Means ("a\tb\r" ∷ "\r" ∷ "-\tc\rd" ∷ []) 0
        ("<document> 0" ∷ "    <paragraph> 1" ∷ "        a       b" ∷ "    <bullet_list bullet=\"-\"> 3" ∷ "        <list_item> 3"
        ∷ "            <paragraph> 3" ∷ "                c" ∷ "    <system_message level=\"2\"> 4" ∷ "        <paragraph> 4"
        ∷ "            Bullet list ends without a blank line; unexpected unindent." ∷ "    <paragraph> 4" ∷ "        d" ∷ []) }
{}

/// Sections and their titles (Markup Specification, 'Sections').
pub fn sections()
    ensures underlined { Reads ("A" ∷ "=" ∷ "" ∷ "b" ∷ [])
        ("<document>" ∷ "    <section>" ∷ "        <title>" ∷ "            A" ∷ "        <paragraph>" ∷ "            b" ∷ []) }
    ensures line_and_name { Means ("x" ∷ "" ∷ "A b" ∷ "===" ∷ []) 0
        ("<document> 0" ∷ "    <paragraph> 1" ∷ "        x" ∷ "    <section own_name=\"a b\"> 3" ∷ "        <title> 3" ∷ "            A b" ∷ []) }
    ensures overlined { Reads ("===" ∷ " A" ∷ "===" ∷ []) ("<document>" ∷ "    <section>" ∷ "        <title>" ∷ "            A" ∷ []) }
    ensures overlined_line { Means ("===" ∷ "A" ∷ "===" ∷ []) 0
        ("<document> 0" ∷ "    <section own_name=\"a\"> 2" ∷ "        <title> 2" ∷ "            A" ∷ []) }
    ensures long_overline { Reads ("====" ∷ "A" ∷ "====" ∷ []) ("<document>" ∷ "    <section>" ∷ "        <title>" ∷ "            A" ∷ []) }
    ensures title_of_one_character { Reads ("?" ∷ "~" ∷ [])
        ("<document>" ∷ "    <system_message level=\"1\">" ∷ "        <paragraph>" ∷ "            Possible incomplete section title."
        ∷ "            Treating the overline as ordinary text because it's so short." ∷ "    <section>" ∷ "        <title>"
        ∷ "            ?" ∷ []) }
    ensures levels { Reads ("A" ∷ "=" ∷ "" ∷ "B" ∷ "-" ∷ "" ∷ "C" ∷ "~" ∷ "" ∷ "D" ∷ "-" ∷ "" ∷ "E" ∷ "=" ∷ [])
        ("<document>" ∷ "    <section>" ∷ "        <title>" ∷ "            A" ∷ "        <section>" ∷ "            <title>"
        ∷ "                B" ∷ "            <section>" ∷ "                <title>" ∷ "                    C" ∷ "        <section>"
        ∷ "            <title>" ∷ "                D" ∷ "    <section>" ∷ "        <title>" ∷ "            E" ∷ []) }
    ensures two_styles_of_one_character { Reads ("===" ∷ " A" ∷ "===" ∷ "" ∷ "B" ∷ "=" ∷ "" ∷ "===" ∷ "C" ∷ "===" ∷ [])
        ("<document>" ∷ "    <section>" ∷ "        <title>" ∷ "            A" ∷ "        <section>" ∷ "            <title>"
        ∷ "                B" ∷ "    <section>" ∷ "        <title>" ∷ "            C" ∷ []) }
    ensures content { Reads ("a" ∷ "" ∷ "A" ∷ "=" ∷ "b" ∷ "" ∷ "B" ∷ "-" ∷ "c" ∷ "" ∷ "C" ∷ "=" ∷ "d" ∷ [])
        ("<document>" ∷ "    <paragraph>" ∷ "        a" ∷ "    <section>" ∷ "        <title>" ∷ "            A" ∷ "        <paragraph>"
        ∷ "            b" ∷ "        <section>" ∷ "            <title>" ∷ "                B" ∷ "            <paragraph>"
        ∷ "                c" ∷ "    <section>" ∷ "        <title>" ∷ "            C" ∷ "        <paragraph>" ∷ "            d" ∷ []) }
    ensures inconsistent_level { Means ("A" ∷ "=" ∷ "" ∷ "B" ∷ "-" ∷ "" ∷ "C" ∷ "=" ∷ "" ∷ "D" ∷ "~" ∷ "" ∷ "d" ∷ "" ∷ "E" ∷ "-" ∷ []) 0
        ("<document> 0" ∷ "    <section own_name=\"a\"> 1" ∷ "        <title> 1" ∷ "            A" ∷ "        <section own_name=\"b\"> 4"
        ∷ "            <title> 4" ∷ "                B" ∷ "    <section own_name=\"c\"> 7" ∷ "        <title> 7" ∷ "            C"
        ∷ "        <system_message level=\"4\"> 10" ∷ "            <paragraph> 10" ∷ "                Title level inconsistent:"
        ∷ "            <literal_block xml:space=\"preserve\"> 10" ∷ "                D" ∷ "                ~" ∷ "        <paragraph> 13"
        ∷ "            d" ∷ "        <section own_name=\"e\"> 15" ∷ "            <title> 15" ∷ "                E" ∷ []) }
    ensures inconsistent_overline { Means ("A" ∷ "=" ∷ "" ∷ "B" ∷ "-" ∷ "" ∷ "C" ∷ "=" ∷ "" ∷ "===" ∷ " *D" ∷ "===" ∷ "x" ∷ []) 1
        ("<document> 0" ∷ "    <section own_name=\"a\"> 1" ∷ "        <title> 1" ∷ "            A" ∷ "        <section own_name=\"b\"> 4"
        ∷ "            <title> 4" ∷ "                B" ∷ "    <section own_name=\"c\"> 7" ∷ "        <title> 7" ∷ "            C"
        ∷ "        <system_message level=\"4\"> 11" ∷ "            <paragraph> 11" ∷ "                Title level inconsistent:"
        ∷ "            <literal_block xml:space=\"preserve\"> 11" ∷ "                ===" ∷ "                 *D" ∷ "                ==="
        ∷ "        <paragraph> 13" ∷ "            x" ∷ []) }
    ensures messages_of_a_title { Means ("A *b" ∷ "====" ∷ "" ∷ "c" ∷ []) 1
        ("<document> 0" ∷ "    <section own_name=\"a *b\" text_messages=\"1\"> 1" ∷ "        <title text_messages=\"1\"> 1" ∷ "            A "
        ∷ "            <problematic message=\"0\"> 1" ∷ "                *" ∷ "            b"
        ∷ "        <system_message level=\"2\" message=\"0\"> 1" ∷ "            <paragraph> 1"
        ∷ "                Inline emphasis start-string without end-string." ∷ "        <paragraph> 4" ∷ "            c" ∷ []) }
    ensures markup_in_a_title { Reads ("A *b*" ∷ "=====" ∷ [])
        ("<document>" ∷ "    <section>" ∷ "        <title>" ∷ "            A " ∷ "            <emphasis>" ∷ "                b" ∷ []) }
{}

/// Titles whose adornment is shorter than they are (Markup Specification, 'Sections').
pub fn short_titles()
    ensures underline { Means ("Title" ∷ "====" ∷ "x" ∷ []) 0
        ("<document> 0" ∷ "    <section own_name=\"title\" text_messages=\"1\"> 1" ∷ "        <title> 1" ∷ "            Title"
        ∷ "        <system_message level=\"2\"> 2" ∷ "            <paragraph> 2" ∷ "                Title underline too short."
        ∷ "            <literal_block xml:space=\"preserve\"> 2" ∷ "                Title" ∷ "                ====" ∷ "        <paragraph> 3"
        ∷ "            x" ∷ []) }
    ensures underline_as_text { Means ("Title" ∷ "===" ∷ []) 0
        ("<document> 0" ∷ "    <system_message level=\"1\"> 2" ∷ "        <paragraph> 2"
        ∷ "            Possible title underline, too short for the title." ∷ "            Treating it as ordinary text because it's so short."
        ∷ "    <paragraph> 1" ∷ "        Title" ∷ "        ===" ∷ []) }
    ensures indented_below { Means ("Title" ∷ "==" ∷ "  x" ∷ []) 0
        ("<document> 0" ∷ "    <system_message level=\"1\"> 2" ∷ "        <paragraph> 2"
        ∷ "            Possible title underline, too short for the title." ∷ "            Treating it as ordinary text because it's so short."
        ∷ "    <paragraph> 1" ∷ "        Title" ∷ "        ==" ∷ "    <system_message level=\"3\"> 3" ∷ "        <paragraph> 3"
        ∷ "            Unexpected indentation." ∷ "    <block_quote> 3" ∷ "        <paragraph> 3" ∷ "            x" ∷ []) }
    ensures wide_characters { Means ("日本" ∷ "====" ∷ []) 0
        ("<document> 0" ∷ "    <section own_name=\"日本\"> 1" ∷ "        <title> 1" ∷ "            日本" ∷ []) }
    ensures wide_characters_short { Means ("日本語" ∷ "====" ∷ []) 0
        ("<document> 0" ∷ "    <section own_name=\"日本語\" text_messages=\"1\"> 1" ∷ "        <title> 1" ∷ "            日本語"
        ∷ "        <system_message level=\"2\"> 2" ∷ "            <paragraph> 2" ∷ "                Title underline too short."
        ∷ "            <literal_block xml:space=\"preserve\"> 2" ∷ "                日本語" ∷ "                ====" ∷ []) }
    ensures overline { Means ("====" ∷ " Title" ∷ "====" ∷ "x" ∷ []) 0
        ("<document> 0" ∷ "    <section own_name=\"title\" text_messages=\"1\"> 2" ∷ "        <title> 2" ∷ "            Title"
        ∷ "        <system_message level=\"2\"> 1" ∷ "            <paragraph> 1" ∷ "                Title overline too short."
        ∷ "            <literal_block xml:space=\"preserve\"> 1" ∷ "                ====" ∷ "                 Title" ∷ "                ===="
        ∷ "        <paragraph> 4" ∷ "            x" ∷ []) }
    ensures indentation_counts { Means ("=====" ∷ " Title" ∷ "=====" ∷ []) 0
        ("<document> 0" ∷ "    <section own_name=\"title\" text_messages=\"1\"> 2" ∷ "        <title> 2" ∷ "            Title"
        ∷ "        <system_message level=\"2\"> 1" ∷ "            <paragraph> 1" ∷ "                Title overline too short."
        ∷ "            <literal_block xml:space=\"preserve\"> 1" ∷ "                =====" ∷ "                 Title"
        ∷ "                =====" ∷ []) }
    ensures overline_as_text { Means ("===" ∷ "Ab c" ∷ "===" ∷ []) 0
        ("<document> 0" ∷ "    <system_message level=\"1\"> 1" ∷ "        <paragraph> 1" ∷ "            Possible incomplete section title."
        ∷ "            Treating the overline as ordinary text because it's so short." ∷ "    <paragraph> 1" ∷ "        ===" ∷ "        Ab c"
        ∷ "        ===" ∷ []) }
    ensures overline_as_a_title { Means ("==" ∷ "====" ∷ []) 0
        ("<document> 0" ∷ "    <system_message level=\"1\"> 1" ∷ "        <paragraph> 1" ∷ "            Possible incomplete section title."
        ∷ "            Treating the overline as ordinary text because it's so short." ∷ "    <section own_name=\"==\"> 1"
        ∷ "        <title> 1" ∷ "            ==" ∷ []) }
    ensures adornment_between { Reads ("===" ∷ "---" ∷ "===" ∷ [])
        ("<document>" ∷ "    <system_message level=\"1\">" ∷ "        <paragraph>" ∷ "            Possible incomplete section title."
        ∷ "            Treating the overline as ordinary text because it's so short." ∷ "    <section>" ∷ "        <title>"
        ∷ "            ===" ∷ "        <paragraph>" ∷ "            ===" ∷ []) }
{}

/// Adornments that make no title (Markup Specification, 'Sections').
pub fn misplaced_titles()
    ensures mismatch { Means ("====" ∷ "T" ∷ "----" ∷ "x" ∷ []) 0
        ("<document> 0" ∷ "    <system_message level=\"4\"> 1" ∷ "        <paragraph> 1" ∷ "            Title overline & underline mismatch."
        ∷ "        <literal_block xml:space=\"preserve\"> 1" ∷ "            ====" ∷ "            T" ∷ "            ----" ∷ "    <paragraph> 4"
        ∷ "        x" ∷ []) }
    ensures underline_of_another_length { Means ("====" ∷ "T" ∷ "=====" ∷ []) 0
        ("<document> 0" ∷ "    <system_message level=\"4\"> 1" ∷ "        <paragraph> 1" ∷ "            Title overline & underline mismatch."
        ∷ "        <literal_block xml:space=\"preserve\"> 1" ∷ "            ====" ∷ "            T" ∷ "            =====" ∷ []) }
    ensures missing_underline { Means ("====" ∷ "T" ∷ "x" ∷ []) 0
        ("<document> 0" ∷ "    <system_message level=\"4\"> 1" ∷ "        <paragraph> 1"
        ∷ "            Missing matching underline for section title overline." ∷ "        <literal_block xml:space=\"preserve\"> 1"
        ∷ "            ====" ∷ "            T" ∷ "            x" ∷ []) }
    ensures missing_underline_and_blank { Means ("====" ∷ "T" ∷ "" ∷ "x" ∷ []) 0
        ("<document> 0" ∷ "    <system_message level=\"4\"> 1" ∷ "        <paragraph> 1"
        ∷ "            Missing matching underline for section title overline." ∷ "        <literal_block xml:space=\"preserve\"> 1"
        ∷ "            ====" ∷ "            T" ∷ "    <paragraph> 4" ∷ "        x" ∷ []) }
    ensures incomplete { Means ("====" ∷ "T" ∷ []) 0
        ("<document> 0" ∷ "    <system_message level=\"4\"> 1" ∷ "        <paragraph> 1" ∷ "            Incomplete section title."
        ∷ "        <literal_block xml:space=\"preserve\"> 1" ∷ "            ====" ∷ "            T" ∷ []) }
    ensures invalid_marker { Means ("====" ∷ "----" ∷ "x" ∷ []) 0
        ("<document> 0" ∷ "    <system_message level=\"3\"> 1" ∷ "        <paragraph> 1"
        ∷ "            Invalid section title or transition marker." ∷ "        <literal_block xml:space=\"preserve\"> 1" ∷ "            ===="
        ∷ "            ----" ∷ "    <paragraph> 3" ∷ "        x" ∷ []) }
    ensures blank_line_at_the_end { Means ("====" ∷ "T" ∷ "" ∷ []) 0
        ("<document> 0" ∷ "    <system_message level=\"4\"> 1" ∷ "        <paragraph> 1"
        ∷ "            Missing matching underline for section title overline." ∷ "        <literal_block xml:space=\"preserve\"> 1"
        ∷ "            ====" ∷ "            T" ∷ []) }
    ensures inconsistent_after_an_info { Means ("A" ∷ "=" ∷ "" ∷ "B" ∷ "-" ∷ "" ∷ "C" ∷ "=" ∷ "" ∷ "==" ∷ "****" ∷ []) 0
        ("<document> 0" ∷ "    <section own_name=\"a\"> 1" ∷ "        <title> 1" ∷ "            A" ∷ "        <section own_name=\"b\"> 4"
        ∷ "            <title> 4" ∷ "                B" ∷ "    <section own_name=\"c\"> 7" ∷ "        <title> 7" ∷ "            C"
        ∷ "        <system_message level=\"1\"> 10" ∷ "            <paragraph> 10" ∷ "                Possible incomplete section title."
        ∷ "                Treating the overline as ordinary text because it's so short." ∷ "        <system_message level=\"4\"> 10"
        ∷ "            <paragraph> 10" ∷ "                Title level inconsistent:" ∷ "            <literal_block xml:space=\"preserve\"> 10"
        ∷ "                ==" ∷ "                ****" ∷ []) }
{}

/// Titles where none is recognized (Markup Specification, 'Sections').
pub fn titles_in_items()
    ensures underlined { Means ("- Title" ∷ "  =====" ∷ []) 0
        ("<document> 0" ∷ "    <bullet_list bullet=\"-\"> 1" ∷ "        <list_item> 1" ∷ "            <system_message level=\"4\"> 2"
        ∷ "                <paragraph> 2" ∷ "                    Unexpected section title."
        ∷ "                <literal_block xml:space=\"preserve\"> 2" ∷ "                    Title" ∷ "                    =====" ∷ []) }
    ensures short { Means ("- Title" ∷ "  ====" ∷ "  x" ∷ []) 0
        ("<document> 0" ∷ "    <bullet_list bullet=\"-\"> 1" ∷ "        <list_item> 1" ∷ "            <system_message level=\"2\"> 2"
        ∷ "                <paragraph> 2" ∷ "                    Title underline too short."
        ∷ "                <literal_block xml:space=\"preserve\"> 2" ∷ "                    Title" ∷ "                    ===="
        ∷ "            <system_message level=\"4\"> 2" ∷ "                <paragraph> 2" ∷ "                    Unexpected section title."
        ∷ "                <literal_block xml:space=\"preserve\"> 2" ∷ "                    Title" ∷ "                    ===="
        ∷ "            <paragraph> 3" ∷ "                x" ∷ []) }
    ensures underline_as_text { Means ("- Title" ∷ "  ==" ∷ []) 0
        ("<document> 0" ∷ "    <bullet_list bullet=\"-\"> 1" ∷ "        <list_item> 1" ∷ "            <paragraph> 1" ∷ "                Title"
        ∷ "                ==" ∷ []) }
    ensures overlined { Means ("- ====" ∷ "  T" ∷ "  ====" ∷ []) 0
        ("<document> 0" ∷ "    <bullet_list bullet=\"-\"> 1" ∷ "        <list_item> 1" ∷ "            <system_message level=\"4\"> 1"
        ∷ "                <paragraph> 1" ∷ "                    Unexpected section title or transition."
        ∷ "                <literal_block xml:space=\"preserve\"> 1" ∷ "                    ===="
        ∷ "            <system_message level=\"4\"> 3" ∷ "                <paragraph> 3" ∷ "                    Unexpected section title."
        ∷ "                <literal_block xml:space=\"preserve\"> 3" ∷ "                    T" ∷ "                    ====" ∷ []) }
    ensures overline_as_text { Means ("- ==" ∷ "  T" ∷ "  ==" ∷ []) 0
        ("<document> 0" ∷ "    <bullet_list bullet=\"-\"> 1" ∷ "        <list_item> 1" ∷ "            <system_message level=\"1\"> 1"
        ∷ "                <paragraph> 1" ∷ "                    Unexpected possible title overline or transition."
        ∷ "                    Treating it as ordinary text because it's so short." ∷ "            <paragraph> 1" ∷ "                =="
        ∷ "                T" ∷ "                ==" ∷ []) }
    ensures transition { Means ("- ----" ∷ "" ∷ "  a" ∷ []) 0
        ("<document> 0" ∷ "    <bullet_list bullet=\"-\"> 1" ∷ "        <list_item> 1" ∷ "            <system_message level=\"4\"> 1"
        ∷ "                <paragraph> 1" ∷ "                    Unexpected section title or transition."
        ∷ "                <literal_block xml:space=\"preserve\"> 1" ∷ "                    ----" ∷ "            <paragraph> 3"
        ∷ "                a" ∷ []) }
    ensures short_transition { Means ("- ---" ∷ []) 0
        ("<document> 0" ∷ "    <bullet_list bullet=\"-\"> 1" ∷ "        <list_item> 1" ∷ "            <system_message level=\"1\"> 1"
        ∷ "                <paragraph> 1" ∷ "                    Unexpected possible title overline or transition."
        ∷ "                    Treating it as ordinary text because it's so short." ∷ "            <paragraph> 1" ∷ "                ---" ∷ []) }
{}

/// Transitions (Markup Specification, 'Transitions').
pub fn transitions()
    ensures one { Means ("a" ∷ "" ∷ "----" ∷ "" ∷ "b" ∷ []) 0
        ("<document> 0" ∷ "    <paragraph> 1" ∷ "        a" ∷ "    <transition> 3" ∷ "    <paragraph> 5" ∷ "        b" ∷ []) }
    ensures too_short { Reads ("a" ∷ "" ∷ "---" ∷ "" ∷ "b" ∷ [])
        ("<document>" ∷ "    <paragraph>" ∷ "        a" ∷ "    <paragraph>" ∷ "        ---" ∷ "    <paragraph>" ∷ "        b" ∷ []) }
    ensures ends_a_document { Reads ("a" ∷ "" ∷ "****" ∷ []) ("<document>" ∷ "    <paragraph>" ∷ "        a" ∷ "    <transition>" ∷ []) }
{}
