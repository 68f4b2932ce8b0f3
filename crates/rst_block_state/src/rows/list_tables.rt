//! Tables that are made of lists, in documents.
#![tactic(auto, unfolding(crate::proofs::Computing::rst_block_state))]

ghost use Rattle.std.specs.Prelude.{[], ◌∷◌};
ghost use Rattle.rst_block_state.specs.Reads.{MeansWider};

/// Tables that are made of lists (Directives, 'List Table').
pub fn list_tables()
    ensures usual { MeansWider (".. list-table::" ∷ "" ∷ "   * - a" ∷ "     - b" ∷ "   * - c" ∷ "     - d" ∷ []) 0
        ("<document> 0" ∷ "    <table> 1" ∷ "        <tgroup cols=\"2\"> 1" ∷ "            <colspec colwidth=\"50\"> 1"
        ∷ "            <colspec colwidth=\"50\"> 1" ∷ "            <tbody> 0" ∷ "                <row> 0" ∷ "                    <entry> 0"
        ∷ "                        <paragraph> 3" ∷ "                            a" ∷ "                    <entry> 0"
        ∷ "                        <paragraph> 4" ∷ "                            b" ∷ "                <row> 0" ∷ "                    <entry> 0"
        ∷ "                        <paragraph> 5" ∷ "                            c" ∷ "                    <entry> 0"
        ∷ "                        <paragraph> 6" ∷ "                            d" ∷ []) }
    ensures head_and_stubs { MeansWider (".. list-table:: The *t*" ∷ "   :header-rows: 1" ∷ "   :stub-columns: 1" ∷ "   :widths: 10, 20" ∷ "" ∷ "   * - a" ∷ "     - b" ∷ "   * - c" ∷ "     - d" ∷ []) 0
        ("<document> 0" ∷ "    <table classes=\"colwidths-given\"> 1" ∷ "        <title> 1" ∷ "            The " ∷ "            <emphasis> 1"
        ∷ "                t" ∷ "        <tgroup cols=\"2\"> 1" ∷ "            <colspec colwidth=\"10\" stub=\"1\"> 1"
        ∷ "            <colspec colwidth=\"20\"> 1" ∷ "            <thead> 0" ∷ "                <row> 0" ∷ "                    <entry> 0"
        ∷ "                        <paragraph> 6" ∷ "                            a" ∷ "                    <entry> 0"
        ∷ "                        <paragraph> 7" ∷ "                            b" ∷ "            <tbody> 0" ∷ "                <row> 0"
        ∷ "                    <entry> 0" ∷ "                        <paragraph> 8" ∷ "                            c"
        ∷ "                    <entry> 0" ∷ "                        <paragraph> 9" ∷ "                            d" ∷ []) }
    ensures attributes { MeansWider (".. List-table::" ∷ "   :widths: auto" ∷ "   :align: center" ∷ "   :width: 50%" ∷ "   :class: c" ∷ "   :name: N" ∷ "" ∷ "   * - a" ∷ []) 0
        ("<document> 0" ∷ "    <table align=\"center\" classes=\"colwidths-auto c\" own_name=\"n\" width=\"50%\"> 1" ∷ "        <tgroup cols=\"1\"> 1"
        ∷ "            <colspec colwidth=\"100\"> 1" ∷ "            <tbody> 0" ∷ "                <row> 0" ∷ "                    <entry> 0"
        ∷ "                        <paragraph> 8" ∷ "                            a" ∷ []) }
    ensures rich_cells { MeansWider (".. list-table::" ∷ "" ∷ "   * -" ∷ "     - - n" ∷ "     - c" ∷ "" ∷ "       d" ∷ []) 0
        ("<document> 0" ∷ "    <table> 1" ∷ "        <tgroup cols=\"3\"> 1" ∷ "            <colspec colwidth=\"33\"> 1"
        ∷ "            <colspec colwidth=\"33\"> 1" ∷ "            <colspec colwidth=\"33\"> 1" ∷ "            <tbody> 0" ∷ "                <row> 0"
        ∷ "                    <entry> 0" ∷ "                    <entry> 0" ∷ "                        <bullet_list bullet=\"-\"> 4"
        ∷ "                            <list_item> 4" ∷ "                                <paragraph> 4" ∷ "                                    n"
        ∷ "                    <entry> 0" ∷ "                        <paragraph> 5" ∷ "                            c"
        ∷ "                        <paragraph> 7" ∷ "                            d" ∷ []) }
    ensures messages_on_the_title { MeansWider (".. list-table:: *a" ∷ "" ∷ "   * - b" ∷ []) 1
        ("<document> 0" ∷ "    <table> 1" ∷ "        <title> 1" ∷ "            <problematic message=\"0\"> 1" ∷ "                *" ∷ "            a"
        ∷ "        <tgroup cols=\"1\"> 1" ∷ "            <colspec colwidth=\"100\"> 1" ∷ "            <tbody> 0" ∷ "                <row> 0"
        ∷ "                    <entry> 0" ∷ "                        <paragraph> 3" ∷ "                            b"
        ∷ "    <system_message level=\"2\" message=\"0\"> 1" ∷ "        <paragraph> 1"
        ∷ "            Inline emphasis start-string without end-string." ∷ []) }
{}

/// What is wrong with their lists (Directives, 'List Table').
pub fn wrong_lists()
    ensures no_list { MeansWider (".. list-table:: *a" ∷ "" ∷ "   Text." ∷ []) 1
        ("<document> 0" ∷ "    <system_message level=\"3\"> 1" ∷ "        <paragraph> 1"
        ∷ "            Error parsing content block for the \"list-table\" directive: exactly one bullet list expected."
        ∷ "        <literal_block xml:space=\"preserve\"> 1" ∷ "            .. list-table:: *a" ∷ "            " ∷ "               Text." ∷ []) }
    ensures a_list_and_a_message { MeansWider (".. list-table::" ∷ "" ∷ "   * - a" ∷ "   b" ∷ []) 0
        ("<document> 0" ∷ "    <system_message level=\"3\"> 1" ∷ "        <paragraph> 1"
        ∷ "            Error parsing content block for the \"list-table\" directive: exactly one bullet list expected."
        ∷ "        <literal_block xml:space=\"preserve\"> 1" ∷ "            .. list-table::" ∷ "            " ∷ "               * - a"
        ∷ "               b" ∷ []) }
    ensures no_inner_list { MeansWider (".. list-table::" ∷ "" ∷ "   * - a" ∷ "   * b" ∷ []) 0
        ("<document> 0" ∷ "    <system_message level=\"3\"> 1" ∷ "        <paragraph> 1"
        ∷ "            Error parsing content block for the \"list-table\" directive: two-level bullet list expected, but row 2 does not contain a second-level bullet list."
        ∷ "        <literal_block xml:space=\"preserve\"> 1" ∷ "            .. list-table::" ∷ "            " ∷ "               * - a"
        ∷ "               * b" ∷ []) }
    ensures two_nodes_in_a_row { MeansWider (".. list-table::" ∷ "" ∷ "   * - a" ∷ "" ∷ "     b" ∷ []) 0
        ("<document> 0" ∷ "    <system_message level=\"3\"> 1" ∷ "        <paragraph> 1"
        ∷ "            Error parsing content block for the \"list-table\" directive: two-level bullet list expected, but row 1 does not contain a second-level bullet list."
        ∷ "        <literal_block xml:space=\"preserve\"> 1" ∷ "            .. list-table::" ∷ "            " ∷ "               * - a"
        ∷ "            " ∷ "                 b" ∷ []) }
    ensures uneven { MeansWider (".. list-table::" ∷ "" ∷ "   * - a" ∷ "     - b" ∷ "   * - c" ∷ []) 0
        ("<document> 0" ∷ "    <system_message level=\"3\"> 1" ∷ "        <paragraph> 1"
        ∷ "            Error parsing content block for the \"list-table\" directive: uniform two-level bullet list expected, but row 2 does not contain the same number of items as row 1 (1 vs 2)."
        ∷ "        <literal_block xml:space=\"preserve\"> 1" ∷ "            .. list-table::" ∷ "            " ∷ "               * - a"
        ∷ "                 - b" ∷ "               * - c" ∷ []) }
    ensures other_widths { MeansWider (".. list-table::" ∷ "   :widths: 1 2 3" ∷ "   :header-rows: 2" ∷ "" ∷ "   * - a" ∷ []) 0
        ("<document> 0" ∷ "    <system_message level=\"3\"> 1" ∷ "        <paragraph> 1"
        ∷ "            \"list-table\" widths do not match the number of columns in table (1)." ∷ "        <literal_block xml:space=\"preserve\"> 1"
        ∷ "            .. list-table::" ∷ "               :widths: 1 2 3" ∷ "               :header-rows: 2" ∷ "            " ∷ "               * - a" ∷ []) }
    ensures few_rows { MeansWider (".. list-table::" ∷ "   :header-rows: 2" ∷ "" ∷ "   * - a" ∷ []) 0
        ("<document> 0" ∷ "    <system_message level=\"3\"> 1" ∷ "        <paragraph> 1"
        ∷ "            2 header row(s) specified but only 1 row(s) of data supplied (\"list-table\" directive)."
        ∷ "        <literal_block xml:space=\"preserve\"> 1" ∷ "            .. list-table::" ∷ "               :header-rows: 2" ∷ "            "
        ∷ "               * - a" ∷ []) }
    ensures no_body { MeansWider (".. list-table::" ∷ "   :header-rows: 1" ∷ "   :stub-columns: 1" ∷ "" ∷ "   * - a" ∷ []) 0
        ("<document> 0" ∷ "    <system_message level=\"3\"> 1" ∷ "        <paragraph> 1"
        ∷ "            Insufficient data supplied (1 row(s)); no data remaining for table body, required by \"list-table\" directive."
        ∷ "        <literal_block xml:space=\"preserve\"> 1" ∷ "            .. list-table::" ∷ "               :header-rows: 1"
        ∷ "               :stub-columns: 1" ∷ "            " ∷ "               * - a" ∷ []) }
    ensures few_columns { MeansWider (".. list-table::" ∷ "   :stub-columns: 2" ∷ "" ∷ "   * - a" ∷ []) 0
        ("<document> 0" ∷ "    <system_message level=\"3\"> 1" ∷ "        <paragraph> 1"
        ∷ "            2 stub column(s) specified but only 1 columns(s) of data supplied (\"list-table\" directive)."
        ∷ "        <literal_block xml:space=\"preserve\"> 1" ∷ "            .. list-table::" ∷ "               :stub-columns: 2" ∷ "            "
        ∷ "               * - a" ∷ []) }
    ensures stubs_alone { MeansWider (".. list-table::" ∷ "   :stub-columns: 1" ∷ "" ∷ "   * - a" ∷ []) 0
        ("<document> 0" ∷ "    <system_message level=\"3\"> 1" ∷ "        <paragraph> 1"
        ∷ "            Insufficient data supplied (1 columns(s)); no data remaining for table body, required by \"list-table\" directive."
        ∷ "        <literal_block xml:space=\"preserve\"> 1" ∷ "            .. list-table::" ∷ "               :stub-columns: 1" ∷ "            "
        ∷ "               * - a" ∷ []) }
    ensures no_content { MeansWider (".. list-table:: a" ∷ []) 0
        ("<document> 0" ∷ "    <system_message level=\"3\"> 1" ∷ "        <paragraph> 1"
        ∷ "            The \"list-table\" directive is empty; content required." ∷ "        <literal_block xml:space=\"preserve\"> 1"
        ∷ "            .. list-table:: a" ∷ []) }
{}
