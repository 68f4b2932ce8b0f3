//! Tables, in documents.
#![tactic(auto, unfolding(crate::proofs::Computing::rst_block_state))]

ghost use Rattle.std.specs.Prelude.{[], ◌∷◌};
ghost use Rattle.rst_block_state.specs.Reads.{Means, Reads};

/// Grid tables (Markup Specification, 'Grid Tables').
pub fn grids()
    ensures one_cell { Means ("x" ∷ "" ∷ "+---+" ∷ "| a |" ∷ "+---+" ∷ []) 0
        ("<document> 0" ∷ "    <paragraph> 1" ∷ "        x" ∷ "    <table> 3" ∷ "        <tgroup cols=\"1\"> 3"
        ∷ "            <colspec colwidth=\"3\"> 3" ∷ "            <tbody> 0" ∷ "                <row> 0" ∷ "                    <entry> 0"
        ∷ "                        <paragraph> 4" ∷ "                            a" ∷ []) }
    ensures head { Reads ("+---+---+" ∷ "| a | b |" ∷ "+===+===+" ∷ "| c | d |" ∷ "+---+---+" ∷ "| e | f |" ∷ "+---+---+" ∷ [])
        ("<document>" ∷ "    <table>" ∷ "        <tgroup cols=\"2\">" ∷ "            <colspec colwidth=\"3\">"
        ∷ "            <colspec colwidth=\"3\">" ∷ "            <thead>" ∷ "                <row>" ∷ "                    <entry>"
        ∷ "                        <paragraph>" ∷ "                            a" ∷ "                    <entry>"
        ∷ "                        <paragraph>" ∷ "                            b" ∷ "            <tbody>" ∷ "                <row>"
        ∷ "                    <entry>" ∷ "                        <paragraph>" ∷ "                            c"
        ∷ "                    <entry>" ∷ "                        <paragraph>" ∷ "                            d" ∷ "                <row>"
        ∷ "                    <entry>" ∷ "                        <paragraph>" ∷ "                            e"
        ∷ "                    <entry>" ∷ "                        <paragraph>" ∷ "                            f" ∷ []) }
    ensures spans { Reads ("+---+---+" ∷ "| a | b |" ∷ "|   +---+" ∷ "|   | c |" ∷ "+---+---+" ∷ "| d     |" ∷ "+-------+" ∷ [])
        ("<document>" ∷ "    <table>" ∷ "        <tgroup cols=\"2\">" ∷ "            <colspec colwidth=\"3\">"
        ∷ "            <colspec colwidth=\"3\">" ∷ "            <tbody>" ∷ "                <row>"
        ∷ "                    <entry morerows=\"1\">" ∷ "                        <paragraph>" ∷ "                            a"
        ∷ "                    <entry>" ∷ "                        <paragraph>" ∷ "                            b" ∷ "                <row>"
        ∷ "                    <entry>" ∷ "                        <paragraph>" ∷ "                            c" ∷ "                <row>"
        ∷ "                    <entry morecols=\"1\">" ∷ "                        <paragraph>" ∷ "                            d" ∷ []) }
    ensures body_of_a_cell { Reads ("+-----+" ∷ "| - a |" ∷ "|     |" ∷ "|   b |" ∷ "+-----+" ∷ "|     |" ∷ "+-----+" ∷ [])
        ("<document>" ∷ "    <table>" ∷ "        <tgroup cols=\"1\">" ∷ "            <colspec colwidth=\"5\">" ∷ "            <tbody>"
        ∷ "                <row>" ∷ "                    <entry>" ∷ "                        <bullet_list bullet=\"-\">"
        ∷ "                            <list_item>" ∷ "                                <paragraph>" ∷ "                                    a"
        ∷ "                                <paragraph>" ∷ "                                    b" ∷ "                <row>"
        ∷ "                    <entry>" ∷ []) }
    ensures wide_characters { Reads ("+----+" ∷ "| 中 |" ∷ "+----+" ∷ [])
        ("<document>" ∷ "    <table>" ∷ "        <tgroup cols=\"1\">" ∷ "            <colspec colwidth=\"4\">" ∷ "            <tbody>"
        ∷ "                <row>" ∷ "                    <entry>" ∷ "                        <paragraph>" ∷ "                            中" ∷ []) }
    ensures without_a_blank_line { Means ("+---+" ∷ "| a |" ∷ "+---+" ∷ "x" ∷ []) 0
        ("<document> 0" ∷ "    <table> 1" ∷ "        <tgroup cols=\"1\"> 1" ∷ "            <colspec colwidth=\"3\"> 1"
        ∷ "            <tbody> 0" ∷ "                <row> 0" ∷ "                    <entry> 0" ∷ "                        <paragraph> 2"
        ∷ "                            a" ∷ "    <system_message level=\"2\"> 4" ∷ "        <paragraph> 4"
        ∷ "            Blank line required after table." ∷ "    <paragraph> 4" ∷ "        x" ∷ []) }
    ensures empty_head { Reads ("+---+" ∷ "+===+" ∷ "| a |" ∷ "+---+" ∷ [])
        ("<document>" ∷ "    <table>" ∷ "        <tgroup cols=\"1\">" ∷ "            <colspec colwidth=\"3\">" ∷ "            <thead>"
        ∷ "                <row>" ∷ "                    <entry>" ∷ "            <tbody>" ∷ "                <row>"
        ∷ "                    <entry>" ∷ "                        <paragraph>" ∷ "                            a" ∷ []) }
{}

/// Grid tables that are malformed (Markup Specification, 'Grid Tables').
pub fn malformed_grids()
    ensures bottom_missing { Means ("+---+" ∷ "| a |" ∷ "x" ∷ []) 0
        ("<document> 0" ∷ "    <system_message level=\"3\"> 1" ∷ "        <paragraph> 1" ∷ "            Malformed table."
        ∷ "            Bottom border missing." ∷ "        <literal_block xml:space=\"preserve\"> 1" ∷ "            +---+"
        ∷ "            | a |" ∷ "    <system_message level=\"2\"> 3" ∷ "        <paragraph> 3"
        ∷ "            Blank line required after table." ∷ "    <paragraph> 3" ∷ "        x" ∷ []) }
    ensures right_edge_broken { Reads ("+---+" ∷ "| a" ∷ "+---+" ∷ [])
        ("<document>" ∷ "    <system_message level=\"3\">" ∷ "        <paragraph>" ∷ "            Malformed table."
        ∷ "            Right edge broken." ∷ "        <literal_block xml:space=\"preserve\">" ∷ "            +---+" ∷ "            | a"
        ∷ "            +---+" ∷ []) }
    ensures two_head_rules { Reads ("+---+" ∷ "| a |" ∷ "+===+" ∷ "| b |" ∷ "+===+" ∷ "| c |" ∷ "+---+" ∷ [])
        ("<document>" ∷ "    <system_message level=\"3\">" ∷ "        <paragraph>" ∷ "            Malformed table."
        ∷ "            Multiple head/body row separators (table lines 3 and 5); only one allowed."
        ∷ "        <literal_block xml:space=\"preserve\">" ∷ "            +---+" ∷ "            | a |" ∷ "            +===+"
        ∷ "            | b |" ∷ "            +===+" ∷ "            | c |" ∷ "            +---+" ∷ []) }
    ensures incomplete { Reads ("+---+---+" ∷ "| a | b |" ∷ "+---+   |" ∷ "| c   d |" ∷ "+---+---+" ∷ [])
        ("<document>" ∷ "    <system_message level=\"3\">" ∷ "        <paragraph>" ∷ "            Malformed table."
        ∷ "            Malformed table; parse incomplete." ∷ "        <literal_block xml:space=\"preserve\">" ∷ "            +---+---+"
        ∷ "            | a | b |" ∷ "            +---+   |" ∷ "            | c   d |" ∷ "            +---+---+" ∷ []) }
{}

/// Simple tables (Markup Specification, 'Simple Tables').
pub fn simple_tables()
    ensures columns { Means ("== ==" ∷ "a  b" ∷ "c  d" ∷ "== ==" ∷ []) 0
        ("<document> 0" ∷ "    <table> 1" ∷ "        <tgroup cols=\"2\"> 1" ∷ "            <colspec colwidth=\"2\"> 1"
        ∷ "            <colspec colwidth=\"2\"> 1" ∷ "            <tbody> 0" ∷ "                <row> 0" ∷ "                    <entry> 0"
        ∷ "                        <paragraph> 2" ∷ "                            a" ∷ "                    <entry> 0"
        ∷ "                        <paragraph> 2" ∷ "                            b" ∷ "                <row> 0"
        ∷ "                    <entry> 0" ∷ "                        <paragraph> 3" ∷ "                            c"
        ∷ "                    <entry> 0" ∷ "                        <paragraph> 3" ∷ "                            d" ∷ []) }
    ensures head { Reads ("== ==" ∷ "a  b" ∷ "== ==" ∷ "c  d" ∷ "== ==" ∷ [])
        ("<document>" ∷ "    <table>" ∷ "        <tgroup cols=\"2\">" ∷ "            <colspec colwidth=\"2\">"
        ∷ "            <colspec colwidth=\"2\">" ∷ "            <thead>" ∷ "                <row>" ∷ "                    <entry>"
        ∷ "                        <paragraph>" ∷ "                            a" ∷ "                    <entry>"
        ∷ "                        <paragraph>" ∷ "                            b" ∷ "            <tbody>" ∷ "                <row>"
        ∷ "                    <entry>" ∷ "                        <paragraph>" ∷ "                            c"
        ∷ "                    <entry>" ∷ "                        <paragraph>" ∷ "                            d" ∷ []) }
    ensures column_spans { Reads ("== == ==" ∷ "a     b" ∷ "----- --" ∷ "c  d  e" ∷ "== == ==" ∷ [])
        ("<document>" ∷ "    <table>" ∷ "        <tgroup cols=\"3\">" ∷ "            <colspec colwidth=\"2\">"
        ∷ "            <colspec colwidth=\"2\">" ∷ "            <colspec colwidth=\"2\">" ∷ "            <tbody>" ∷ "                <row>"
        ∷ "                    <entry morecols=\"1\">" ∷ "                        <paragraph>" ∷ "                            a"
        ∷ "                    <entry>" ∷ "                        <paragraph>" ∷ "                            b" ∷ "                <row>"
        ∷ "                    <entry>" ∷ "                        <paragraph>" ∷ "                            c"
        ∷ "                    <entry>" ∷ "                        <paragraph>" ∷ "                            d"
        ∷ "                    <entry>" ∷ "                        <paragraph>" ∷ "                            e" ∷ []) }
    ensures further_lines { Reads ("== ==" ∷ "a  b c" ∷ "   d" ∷ "" ∷ "e" ∷ "== ==" ∷ [])
        ("<document>" ∷ "    <table>" ∷ "        <tgroup cols=\"2\">" ∷ "            <colspec colwidth=\"2\">"
        ∷ "            <colspec colwidth=\"3\">" ∷ "            <tbody>" ∷ "                <row>" ∷ "                    <entry>"
        ∷ "                        <paragraph>" ∷ "                            a" ∷ "                    <entry>"
        ∷ "                        <paragraph>" ∷ "                            b c" ∷ "                            d"
        ∷ "                <row>" ∷ "                    <entry>" ∷ "                        <paragraph>" ∷ "                            e"
        ∷ "                    <entry>" ∷ []) }
    ensures without_a_blank_line { Means ("== ==" ∷ "a  b" ∷ "== ==" ∷ "c" ∷ "== ==" ∷ "x" ∷ []) 0
        ("<document> 0" ∷ "    <table> 1" ∷ "        <tgroup cols=\"2\"> 1" ∷ "            <colspec colwidth=\"2\"> 1"
        ∷ "            <colspec colwidth=\"2\"> 1" ∷ "            <thead> 0" ∷ "                <row> 0" ∷ "                    <entry> 0"
        ∷ "                        <paragraph> 2" ∷ "                            a" ∷ "                    <entry> 0"
        ∷ "                        <paragraph> 2" ∷ "                            b" ∷ "            <tbody> 0" ∷ "                <row> 0"
        ∷ "                    <entry> 0" ∷ "                        <paragraph> 4" ∷ "                            c"
        ∷ "                    <entry> 0" ∷ "    <system_message level=\"2\"> 6" ∷ "        <paragraph> 6"
        ∷ "            Blank line required after table." ∷ "    <paragraph> 6" ∷ "        x" ∷ []) }
    ensures empty_head { Reads ("== ==" ∷ "== ==" ∷ "a  b" ∷ "== ==" ∷ [])
        ("<document>" ∷ "    <table>" ∷ "        <tgroup cols=\"2\">" ∷ "            <colspec colwidth=\"2\">"
        ∷ "            <colspec colwidth=\"2\">" ∷ "            <tbody>" ∷ "                <row>" ∷ "                    <entry>"
        ∷ "                        <paragraph>" ∷ "                            a" ∷ "                    <entry>"
        ∷ "                        <paragraph>" ∷ "                            b" ∷ []) }
    ensures empty_body { Reads ("== ==" ∷ "a  b" ∷ "== ==" ∷ "== ==" ∷ [])
        ("<document>" ∷ "    <table>" ∷ "        <tgroup cols=\"2\">" ∷ "            <colspec colwidth=\"2\">"
        ∷ "            <colspec colwidth=\"2\">" ∷ "            <thead>" ∷ "                <row>" ∷ "                    <entry>"
        ∷ "                        <paragraph>" ∷ "                            a" ∷ "                    <entry>"
        ∷ "                        <paragraph>" ∷ "                            b" ∷ "            <tbody>" ∷ []) }
    ensures span_of_all_columns { Reads ("== ==" ∷ "a b" ∷ "-----" ∷ "c  d" ∷ "== ==" ∷ [])
        ("<document>" ∷ "    <table>" ∷ "        <tgroup cols=\"2\">" ∷ "            <colspec colwidth=\"2\">"
        ∷ "            <colspec colwidth=\"2\">" ∷ "            <tbody>" ∷ "                <row>"
        ∷ "                    <entry morecols=\"1\">" ∷ "                        <paragraph>" ∷ "                            a b"
        ∷ "                <row>" ∷ "                    <entry>" ∷ "                        <paragraph>" ∷ "                            c"
        ∷ "                    <entry>" ∷ "                        <paragraph>" ∷ "                            d" ∷ []) }
{}

/// Simple tables that are malformed (Markup Specification, 'Simple Tables').
pub fn malformed_simple_tables()
    ensures border_mismatch { Reads ("== ==" ∷ "a  b" ∷ "== ===" ∷ [])
        ("<document>" ∷ "    <system_message level=\"3\">" ∷ "        <paragraph>" ∷ "            Malformed table."
        ∷ "            Bottom border or header rule does not match top border." ∷ "        <literal_block xml:space=\"preserve\">"
        ∷ "            == ==" ∷ "            a  b" ∷ "            == ===" ∷ []) }
    ensures bottom_missing { Means ("== ==" ∷ "a  b" ∷ "" ∷ "c" ∷ []) 0
        ("<document> 0" ∷ "    <system_message level=\"3\"> 1" ∷ "        <paragraph> 1" ∷ "            Malformed table."
        ∷ "            No bottom table border found." ∷ "        <literal_block xml:space=\"preserve\"> 1" ∷ "            == =="
        ∷ "            a  b" ∷ "            " ∷ "            c" ∷ []) }
    ensures span_alignment { Reads ("== ==" ∷ "a  b" ∷ "-- -" ∷ "== ==" ∷ [])
        ("<document>" ∷ "    <system_message level=\"3\">" ∷ "        <paragraph>" ∷ "            Malformed table."
        ∷ "            Column span alignment problem in table line 3." ∷ "        <literal_block xml:space=\"preserve\">"
        ∷ "            == ==" ∷ "            a  b" ∷ "            -- -" ∷ "            == ==" ∷ []) }
    ensures text_in_a_margin { Means ("x" ∷ "" ∷ "== ==" ∷ "abc d" ∷ "== ==" ∷ []) 0
        ("<document> 0" ∷ "    <paragraph> 1" ∷ "        x" ∷ "    <system_message level=\"3\"> 3" ∷ "        <paragraph> 3"
        ∷ "            Malformed table." ∷ "            Text in column margin in table line 2."
        ∷ "        <literal_block xml:space=\"preserve\"> 3" ∷ "            == ==" ∷ "            abc d" ∷ "            == ==" ∷ []) }
{}
