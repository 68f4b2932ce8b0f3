//! Tables.
#![tactic(auto, unfolding(crate::proofs::Computing::rst2pseudoxml_run))]

ghost use Rattle.std.specs.Prelude.{[], ◌∷◌};
ghost use Rattle.rst2pseudoxml_run.specs.Written.{usual, Outputs, Reports};

/// Grid tables (Markup Specification, 'Grid Tables').
pub fn grid_tables()
    ensures two_rows_in_a_column { Outputs ("+---+---+" ∷ "| a | b |" ∷ "|   +---+" ∷ "|   | c |" ∷ "+---+---+" ∷ [])
        ("<document source=\"x\">" ∷ "    <table>" ∷ "        <tgroup cols=\"2\">" ∷ "            <colspec colwidth=\"3\">"
        ∷ "            <colspec colwidth=\"3\">" ∷ "            <tbody>" ∷ "                <row>" ∷ "                    <entry morerows=\"1\">"
        ∷ "                        <paragraph>" ∷ "                            a" ∷ "                    <entry>"
        ∷ "                        <paragraph>" ∷ "                            b" ∷ "                <row>" ∷ "                    <entry>"
        ∷ "                        <paragraph>" ∷ "                            c" ∷ []) }
    ensures no_rectangles { Reports usual ("+---+---+" ∷ "| a | b |" ∷ "+---+   |" ∷ "| c   d |" ∷ "+---+---+" ∷ [])
        ("<document source=\"x\">" ∷ "    <system_message level=\"3\" line=\"1\" source=\"x\" type=\"ERROR\">" ∷ "        <paragraph>"
        ∷ "            Malformed table." ∷ "            Malformed table; parse incomplete." ∷ "        <literal_block xml:space=\"preserve\">"
        ∷ "            +---+---+" ∷ "            | a | b |" ∷ "            +---+   |" ∷ "            | c   d |" ∷ "            +---+---+" ∷ [])
        ("x:1: (ERROR/3) Malformed table." ∷ "Malformed table; parse incomplete." ∷ "" ∷ "+---+---+" ∷ "| a | b |" ∷ "+---+   |" ∷ "| c   d |"
        ∷ "+---+---+" ∷ []) 0 }
    ensures wide_character { Outputs ("+----+" ∷ "| 中 |" ∷ "+----+" ∷ [])
        ("<document source=\"x\">" ∷ "    <table>" ∷ "        <tgroup cols=\"1\">" ∷ "            <colspec colwidth=\"4\">" ∷ "            <tbody>"
        ∷ "                <row>" ∷ "                    <entry>" ∷ "                        <paragraph>" ∷ "                            中" ∷ []) }
    ensures two_heads { Reports usual ("+---+" ∷ "|a  |" ∷ "+===+" ∷ "|b  |" ∷ "+===+" ∷ "|c  |" ∷ "+---+" ∷ [])
        ("<document source=\"x\">" ∷ "    <system_message level=\"3\" line=\"1\" source=\"x\" type=\"ERROR\">" ∷ "        <paragraph>"
        ∷ "            Malformed table." ∷ "            Multiple head/body row separators (table lines 3 and 5); only one allowed."
        ∷ "        <literal_block xml:space=\"preserve\">" ∷ "            +---+" ∷ "            |a  |" ∷ "            +===+" ∷ "            |b  |"
        ∷ "            +===+" ∷ "            |c  |" ∷ "            +---+" ∷ [])
        ("x:1: (ERROR/3) Malformed table." ∷ "Multiple head/body row separators (table lines 3 and 5); only one allowed." ∷ "" ∷ "+---+" ∷ "|a  |"
        ∷ "+===+" ∷ "|b  |" ∷ "+===+" ∷ "|c  |" ∷ "+---+" ∷ []) 0 }
{}

/// Simple tables (Markup Specification, 'Simple Tables').
pub fn simple_tables()
    ensures two_lines_in_a_row { Outputs ("== ==" ∷ "a  b c" ∷ "   d" ∷ "== ==" ∷ [])
        ("<document source=\"x\">" ∷ "    <table>" ∷ "        <tgroup cols=\"2\">" ∷ "            <colspec colwidth=\"2\">"
        ∷ "            <colspec colwidth=\"3\">" ∷ "            <tbody>" ∷ "                <row>" ∷ "                    <entry>"
        ∷ "                        <paragraph>" ∷ "                            a" ∷ "                    <entry>"
        ∷ "                        <paragraph>" ∷ "                            b c" ∷ "                            d" ∷ []) }
    ensures text_in_the_margin { Reports usual ("== ==" ∷ "abc d" ∷ "== ==" ∷ [])
        ("<document source=\"x\">" ∷ "    <system_message level=\"3\" line=\"1\" source=\"x\" type=\"ERROR\">" ∷ "        <paragraph>"
        ∷ "            Malformed table." ∷ "            Text in column margin in table line 2." ∷ "        <literal_block xml:space=\"preserve\">"
        ∷ "            == ==" ∷ "            abc d" ∷ "            == ==" ∷ [])
        ("x:1: (ERROR/3) Malformed table." ∷ "Text in column margin in table line 2." ∷ "" ∷ "== ==" ∷ "abc d" ∷ "== ==" ∷ []) 0 }
    ensures head { Outputs ("== ==" ∷ "a  b" ∷ "== ==" ∷ "1  2" ∷ "== ==" ∷ [])
        ("<document source=\"x\">" ∷ "    <table>" ∷ "        <tgroup cols=\"2\">" ∷ "            <colspec colwidth=\"2\">"
        ∷ "            <colspec colwidth=\"2\">" ∷ "            <thead>" ∷ "                <row>" ∷ "                    <entry>"
        ∷ "                        <paragraph>" ∷ "                            a" ∷ "                    <entry>"
        ∷ "                        <paragraph>" ∷ "                            b" ∷ "            <tbody>" ∷ "                <row>"
        ∷ "                    <entry>" ∷ "                        <paragraph>" ∷ "                            1" ∷ "                    <entry>"
        ∷ "                        <paragraph>" ∷ "                            2" ∷ []) }
    ensures span { Outputs ("== ==" ∷ "a b" ∷ "-----" ∷ "c  d" ∷ "== ==" ∷ [])
        ("<document source=\"x\">" ∷ "    <table>" ∷ "        <tgroup cols=\"2\">" ∷ "            <colspec colwidth=\"2\">"
        ∷ "            <colspec colwidth=\"2\">" ∷ "            <tbody>" ∷ "                <row>" ∷ "                    <entry morecols=\"1\">"
        ∷ "                        <paragraph>" ∷ "                            a b" ∷ "                <row>" ∷ "                    <entry>"
        ∷ "                        <paragraph>" ∷ "                            c" ∷ "                    <entry>"
        ∷ "                        <paragraph>" ∷ "                            d" ∷ []) }
{}
