//! Tables that get a title and options, in documents.
#![tactic(auto, unfolding(crate::proofs::Computing::rst_block_state))]

ghost use Rattle.std.specs.Prelude.{[], ◌∷◌};
ghost use Rattle.rst_block_state.specs.Reads.{MeansWider};

/// Tables that get a title and options (Directives, 'Table').
pub fn titled_tables()
    ensures title_and_attributes { MeansWider (".. table:: The *t*" ∷ "   :align: left" ∷ "   :class: c" ∷ "   :name: N" ∷ "" ∷ "   +---+" ∷ "   | a |" ∷ "   +---+" ∷ []) 0
        ("<document> 0" ∷ "    <table align=\"left\" classes=\"c\" own_name=\"n\"> 6" ∷ "        <title> 1" ∷ "            The "
        ∷ "            <emphasis> 1" ∷ "                t" ∷ "        <tgroup cols=\"1\"> 6" ∷ "            <colspec colwidth=\"3\"> 6"
        ∷ "            <tbody> 0" ∷ "                <row> 0" ∷ "                    <entry> 0" ∷ "                        <paragraph> 7"
        ∷ "                            a" ∷ []) }
    ensures given_widths { MeansWider (".. table::" ∷ "   :widths: 30 70" ∷ "" ∷ "   +---+---+" ∷ "   | a | b |" ∷ "   +---+---+" ∷ []) 0
        ("<document> 0" ∷ "    <table classes=\"colwidths-given\"> 4" ∷ "        <tgroup cols=\"2\"> 4" ∷ "            <colspec colwidth=\"30\"> 4"
        ∷ "            <colspec colwidth=\"70\"> 4" ∷ "            <tbody> 0" ∷ "                <row> 0" ∷ "                    <entry> 0"
        ∷ "                        <paragraph> 5" ∷ "                            a" ∷ "                    <entry> 0"
        ∷ "                        <paragraph> 5" ∷ "                            b" ∷ []) }
    ensures automatic_widths { MeansWider (".. table::" ∷ "   :widths: auto" ∷ "   :width: 10em" ∷ "" ∷ "   +---+" ∷ "   | a |" ∷ "   +---+" ∷ []) 0
        ("<document> 0" ∷ "    <table classes=\"colwidths-auto\" width=\"10em\"> 5" ∷ "        <tgroup cols=\"1\"> 5"
        ∷ "            <colspec colwidth=\"3\"> 5" ∷ "            <tbody> 0" ∷ "                <row> 0" ∷ "                    <entry> 0"
        ∷ "                        <paragraph> 6" ∷ "                            a" ∷ []) }
    ensures drawn_widths { MeansWider (".. table::" ∷ "   :widths: grid" ∷ "   :width: 10em" ∷ "" ∷ "   +---+" ∷ "   | a |" ∷ "   +---+" ∷ []) 0
        ("<document> 0" ∷ "    <table classes=\"colwidths-given\" width=\"10em\"> 5" ∷ "        <tgroup cols=\"1\"> 5"
        ∷ "            <colspec colwidth=\"3\"> 5" ∷ "            <tbody> 0" ∷ "                <row> 0" ∷ "                    <entry> 0"
        ∷ "                        <paragraph> 6" ∷ "                            a" ∷ []) }
    ensures messages_on_the_title { MeansWider (".. table:: *a" ∷ "" ∷ "   +---+" ∷ "   | b |" ∷ "   +---+" ∷ []) 1
        ("<document> 0" ∷ "    <table> 3" ∷ "        <title> 1" ∷ "            <problematic message=\"0\"> 1" ∷ "                *" ∷ "            a"
        ∷ "        <tgroup cols=\"1\"> 3" ∷ "            <colspec colwidth=\"3\"> 3" ∷ "            <tbody> 0" ∷ "                <row> 0"
        ∷ "                    <entry> 0" ∷ "                        <paragraph> 4" ∷ "                            b"
        ∷ "    <system_message level=\"2\" message=\"0\"> 1" ∷ "        <paragraph> 1"
        ∷ "            Inline emphasis start-string without end-string." ∷ []) }
    ensures table_of_a_table { MeansWider (".. table:: Out" ∷ "   :widths: 1" ∷ "   :class: b" ∷ "   :name: o" ∷ "   :align: right" ∷ "" ∷ "   .. table:: In" ∷ "      :widths: auto" ∷ "      :class: c" ∷ "      :name: i" ∷ "      :align: left" ∷ "      :width: 5" ∷ "" ∷ "      +---+" ∷ "      | a |" ∷ "      +---+" ∷ []) 0
        ("<document> 0" ∷ "    <table align=\"right\" classes=\"c colwidths-auto b colwidths-given\" own_name=\"o\" width=\"5\"> 14"
        ∷ "        <title> 1" ∷ "            Out" ∷ "        <title> 7" ∷ "            In" ∷ "        <tgroup cols=\"1\"> 14"
        ∷ "            <colspec colwidth=\"1\"> 14" ∷ "            <tbody> 0" ∷ "                <row> 0" ∷ "                    <entry> 0"
        ∷ "                        <paragraph> 15" ∷ "                            a" ∷ []) }
    ensures table_of_lists_with_a_title { MeansWider (".. Table:: t" ∷ "   :widths: 1 2" ∷ "" ∷ "   .. list-table::" ∷ "      :stub-columns: 1" ∷ "" ∷ "      * - a" ∷ "        - b" ∷ []) 0
        ("<document> 0" ∷ "    <table classes=\"colwidths-given\"> 4" ∷ "        <title> 1" ∷ "            t" ∷ "        <tgroup cols=\"2\"> 4"
        ∷ "            <colspec colwidth=\"1\" stub=\"1\"> 4" ∷ "            <colspec colwidth=\"2\"> 4" ∷ "            <tbody> 0"
        ∷ "                <row> 0" ∷ "                    <entry> 0" ∷ "                        <paragraph> 7" ∷ "                            a"
        ∷ "                    <entry> 0" ∷ "                        <paragraph> 8" ∷ "                            b" ∷ []) }
{}

/// What is wrong with their content (Directives, 'Table').
pub fn wrong_tables()
    ensures no_table { MeansWider (".. table:: *a" ∷ "" ∷ "   Text." ∷ []) 1
        ("<document> 0" ∷ "    <system_message level=\"3\"> 1" ∷ "        <paragraph> 1"
        ∷ "            Error parsing content block for the \"table\" directive: exactly one table expected."
        ∷ "        <literal_block xml:space=\"preserve\"> 1" ∷ "            .. table:: *a" ∷ "            " ∷ "               Text." ∷ []) }
    ensures a_table_and_more { MeansWider (".. table::" ∷ "" ∷ "   +---+" ∷ "   | a |" ∷ "   +---+" ∷ "" ∷ "   Text." ∷ []) 0
        ("<document> 0" ∷ "    <system_message level=\"3\"> 1" ∷ "        <paragraph> 1"
        ∷ "            Error parsing content block for the \"table\" directive: exactly one table expected."
        ∷ "        <literal_block xml:space=\"preserve\"> 1" ∷ "            .. table::" ∷ "            " ∷ "               +---+"
        ∷ "               | a |" ∷ "               +---+" ∷ "            " ∷ "               Text." ∷ []) }
    ensures other_widths { MeansWider (".. table::" ∷ "   :widths: 1" ∷ "" ∷ "   +---+---+" ∷ "   | a | b |" ∷ "   +---+---+" ∷ []) 0
        ("<document> 0" ∷ "    <system_message level=\"3\"> 1" ∷ "        <paragraph> 1"
        ∷ "            \"table\" widths do not match the number of columns in table (2)." ∷ "        <literal_block xml:space=\"preserve\"> 1"
        ∷ "            .. table::" ∷ "               :widths: 1" ∷ "            " ∷ "               +---+---+" ∷ "               | a | b |"
        ∷ "               +---+---+" ∷ []) }
    ensures no_content { MeansWider (".. table:: a" ∷ []) 0
        ("<document> 0" ∷ "    <system_message level=\"2\"> 1" ∷ "        <paragraph> 1"
        ∷ "            Content block expected for the \"table\" directive; none found." ∷ "        <literal_block xml:space=\"preserve\"> 1"
        ∷ "            .. table:: a" ∷ []) }
{}
