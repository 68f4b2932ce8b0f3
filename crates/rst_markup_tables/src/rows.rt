//! Worked examples of tables, as theorems on the definitions alone: the prover computes what the lines of a table that is written out give.
#![tactic(auto, unfolding(crate::proofs::Computing::rst_markup_tables))]

ghost use Rattle.std.specs.Prelude.{◌≡◌, codes, map, [], ◌∷◌};
ghost use Rattle.rst_text.specs.Written.{block};
ghost use Rattle.rst_markup_tables.specs.GridTable.{malformed};
ghost use Rattle.rst_markup_tables.specs.Messages.{malformed_text};
ghost use Rattle.rst_markup_tables.specs.Reads.{BreaksGrid, BreaksSimple, HoldsWider, MakesGrid, MakesSimple, cell, plain};
ghost use Rattle.rst_markup_tables.specs.SimpleTable.{simple_table};
ghost use Rattle.rst_markup_tables.specs.Tiling.{grid_table};
ghost use Rattle.rst_markup_tables.specs.declared.results.TableDetail.TheVariants.{BottomBorderMissing, RightEdgeBroken, TwoHeadRules, ParseIncomplete, BorderMismatch, BottomMissing, ColumnSpan, Margin};
ghost use Rattle.rst_markup_tables.specs.declared.results.TableResult.TheVariants.{Table};

/// The cells of grid tables (Markup Specification, 'Grid Tables').
pub fn grid_cells()
    ensures one { MakesGrid ("+---+" ∷ "| a |" ∷ "+---+" ∷ []) (3 ∷ []) 0 ((plain 2 ("a" ∷ []) ∷ []) ∷ []) 3 }
    ensures two_columns { MakesGrid ("+---+---+" ∷ "| a | b |" ∷ "+---+---+" ∷ []) (3 ∷ 3 ∷ []) 0
        ((plain 2 ("a" ∷ []) ∷ plain 2 ("b" ∷ []) ∷ []) ∷ []) 3 }
    ensures two_rows { MakesGrid ("+---+" ∷ "| a |" ∷ "+---+" ∷ "| b |" ∷ "+---+" ∷ []) (3 ∷ []) 0
        ((plain 2 ("a" ∷ []) ∷ []) ∷ (plain 4 ("b" ∷ []) ∷ []) ∷ []) 5 }
    ensures wide_character { MakesGrid ("+----+" ∷ "| 中 |" ∷ "+----+" ∷ []) (4 ∷ []) 0 ((plain 2 ("中" ∷ []) ∷ []) ∷ []) 3 }
    ensures least_indentation { MakesGrid ("+------+" ∷ "|   a  |" ∷ "|      |" ∷ "|  b   |" ∷ "+------+" ∷ []) (6 ∷ []) 0
        ((plain 2 (" a" ∷ "" ∷ "b" ∷ []) ∷ []) ∷ []) 5 }
    ensures bar_in_a_text { MakesGrid ("+---+" ∷ "|a|b|" ∷ "+---+" ∷ []) (3 ∷ []) 0 ((plain 2 ("a|b" ∷ []) ∷ []) ∷ []) 3 }
    ensures table_in_a_cell { MakesGrid ("+-------+" ∷ "| +---+ |" ∷ "| | x | |" ∷ "| +---+ |" ∷ "+-------+" ∷ []) (7 ∷ []) 0
        ((plain 2 ("+---+" ∷ "| x |" ∷ "+---+" ∷ []) ∷ []) ∷ []) 5 }
    ensures place { grid_table (block ("x" ∷ "" ∷ "+---+" ∷ "| a |" ∷ "+---+" ∷ [])) 2 ≡ Table (3 ∷ []) 0 ((plain 4 ("a" ∷ []) ∷ []) ∷ []) 5 }
{}

/// The heads of grid tables (Markup Specification, 'Grid Tables').
pub fn grid_heads()
    ensures one { MakesGrid ("+---+" ∷ "| a |" ∷ "+===+" ∷ "| b |" ∷ "+---+" ∷ []) (3 ∷ []) 1
        ((plain 2 ("a" ∷ []) ∷ []) ∷ (plain 4 ("b" ∷ []) ∷ []) ∷ []) 5 }
    ensures two_columns { MakesGrid ("+---+---+" ∷ "| a | b |" ∷ "+===+===+" ∷ "| c | d |" ∷ "+---+---+" ∷ []) (3 ∷ 3 ∷ []) 1
        ((plain 2 ("a" ∷ []) ∷ plain 2 ("b" ∷ []) ∷ []) ∷ (plain 4 ("c" ∷ []) ∷ plain 4 ("d" ∷ []) ∷ []) ∷ []) 5 }
    ensures two_rows { MakesGrid ("+---+" ∷ "| a |" ∷ "+---+" ∷ "| b |" ∷ "+===+" ∷ "| c |" ∷ "+---+" ∷ []) (3 ∷ []) 2
        ((plain 2 ("a" ∷ []) ∷ []) ∷ (plain 4 ("b" ∷ []) ∷ []) ∷ (plain 6 ("c" ∷ []) ∷ []) ∷ []) 7 }
    ensures without_lines { MakesGrid ("+---+" ∷ "+===+" ∷ "| a |" ∷ "+---+" ∷ []) (3 ∷ []) 1 ((plain 2 [] ∷ []) ∷ (plain 3 ("a" ∷ []) ∷ []) ∷ []) 4 }
    ensures dash_in_the_rule { MakesGrid ("+---+" ∷ "| a |" ∷ "+=-=+" ∷ "| b |" ∷ "+---+" ∷ []) (3 ∷ []) 0
        ((cell 1 0 2 (" a" ∷ "=-=" ∷ " b" ∷ []) ∷ []) ∷ [] ∷ []) 5 }
{}

/// Cells of several rows and columns, and the bounds of rows and columns, in grid tables (Markup Specification, 'Grid Tables').
pub fn grid_spans()
    ensures rows { MakesGrid ("+---+---+" ∷ "| a | b |" ∷ "|   +---+" ∷ "|   | c |" ∷ "+---+---+" ∷ []) (3 ∷ 3 ∷ []) 0
        ((cell 1 0 2 ("a" ∷ "" ∷ "" ∷ []) ∷ plain 2 ("b" ∷ []) ∷ []) ∷ (plain 4 ("c" ∷ []) ∷ []) ∷ []) 5 }
    ensures columns { MakesGrid ("+---+---+" ∷ "| a     |" ∷ "+---+---+" ∷ "| b | c |" ∷ "+---+---+" ∷ []) (3 ∷ 3 ∷ []) 0
        ((cell 0 1 2 ("a" ∷ []) ∷ []) ∷ (plain 4 ("b" ∷ []) ∷ plain 4 ("c" ∷ []) ∷ []) ∷ []) 5 }
    ensures spiral { MakesGrid ("+-+---+" ∷ "|a|b  |" ∷ "| +-+-+" ∷ "| |c| |" ∷ "+-+-+d|" ∷ "|e  | |" ∷ "+---+-+" ∷ []) (1 ∷ 1 ∷ 1 ∷ []) 0
        ((cell 1 0 2 ("a" ∷ "" ∷ "" ∷ []) ∷ cell 0 1 2 ("b" ∷ []) ∷ [])
        ∷ (plain 4 ("c" ∷ []) ∷ cell 1 0 4 ("" ∷ "d" ∷ "" ∷ []) ∷ [])
        ∷ (cell 0 1 6 ("e" ∷ []) ∷ []) ∷ []) 7 }
    ensures bound_in_the_top_side { MakesGrid ("+--+--+" ∷ "| a   |" ∷ "+-----+" ∷ []) (2 ∷ 2 ∷ []) 0 ((cell 0 1 2 ("a" ∷ []) ∷ []) ∷ []) 3 }
    ensures bound_in_the_bottom_side { MakesGrid ("+-----+" ∷ "| a   |" ∷ "+--+--+" ∷ []) (2 ∷ 2 ∷ []) 0 ((cell 0 1 2 ("a" ∷ []) ∷ []) ∷ []) 3 }
    ensures bound_in_the_left_side { MakesGrid ("+---+" ∷ "|   |" ∷ "+   |" ∷ "|   |" ∷ "+---+" ∷ []) (3 ∷ []) 0
        ((cell 1 0 2 ("" ∷ "" ∷ "" ∷ []) ∷ []) ∷ [] ∷ []) 5 }
    ensures bound_in_the_right_side { MakesGrid ("+---+" ∷ "|   |" ∷ "|   +" ∷ "| a |" ∷ "+---+" ∷ []) (3 ∷ []) 0
        ((cell 1 0 2 ("" ∷ "" ∷ "a" ∷ []) ∷ []) ∷ [] ∷ []) 5 }
    ensures gap_in_a_border { MakesGrid ("+---+---+" ∷ "| a   b |" ∷ "+-- +---+" ∷ "| a | b |" ∷ "+---+---+" ∷ []) (3 ∷ 3 ∷ []) 0
        ((cell 1 1 2 (" a   b" ∷ "-- +---" ∷ " a | b" ∷ []) ∷ []) ∷ [] ∷ []) 5 }
    ensures bound_below_a_span { MakesGrid ("+---+---+" ∷ "| a | b |" ∷ "+===+===+" ∷ "| c   d |" ∷ "+-------+" ∷ "| e | f |" ∷ "+---+---+"
        ∷ []) (3 ∷ 3 ∷ []) 1
        ((plain 2 ("a" ∷ []) ∷ plain 2 ("b" ∷ []) ∷ []) ∷ (cell 0 1 4 ("c   d" ∷ []) ∷ []) ∷ (cell 0 1 6 ("e | f" ∷ []) ∷ []) ∷ []) 7 }
{}

/// Where grid tables end (Markup Specification, 'Grid Tables').
pub fn grid_ends()
    ensures last_border { MakesGrid ("+---+" ∷ "| a |" ∷ "+---+" ∷ "+---+" ∷ "| b |" ∷ []) (3 ∷ []) 0
        ((plain 2 ("a" ∷ []) ∷ []) ∷ (plain 4 [] ∷ []) ∷ []) 4 }
    ensures other_text { MakesGrid ("+---+" ∷ "| a |" ∷ "+---+" ∷ "x" ∷ []) (3 ∷ []) 0 ((plain 2 ("a" ∷ []) ∷ []) ∷ []) 3 }
    ensures blank_line { MakesGrid ("+---+" ∷ "| a |" ∷ "+---+" ∷ "" ∷ "+---+" ∷ []) (3 ∷ []) 0 ((plain 2 ("a" ∷ []) ∷ []) ∷ []) 3 }
{}

/// What can be wrong with grid tables (Markup Specification, 'Grid Tables').
pub fn grid_faults()
    ensures no_bottom_border { BreaksGrid ("+---+" ∷ "| a |" ∷ "+--" ∷ []) BottomBorderMissing 3 }
    ensures longer_bottom_border { BreaksGrid ("+---+" ∷ "| a |" ∷ "+---++" ∷ []) BottomBorderMissing 3 }
    ensures border_in_the_second_line { BreaksGrid ("+---+" ∷ "+---+" ∷ []) BottomBorderMissing 2 }
    ensures longer_line { BreaksGrid ("+---+" ∷ "| a  |" ∷ "+---+" ∷ []) RightEdgeBroken 3 }
    ensures wide_space { BreaksGrid ("+---+" ∷ "| \u{3000}a |" ∷ "+---+" ∷ []) RightEdgeBroken 3 }
    ensures open_line { BreaksGrid ("+---+" ∷ "| a x" ∷ "+---+" ∷ []) RightEdgeBroken 3 }
    ensures two_head_rules { BreaksGrid ("+---+" ∷ "| a |" ∷ "+===+" ∷ "| b |" ∷ "+===+" ∷ "| c |" ∷ "+---+" ∷ []) (TwoHeadRules 3 5) 7 }
    ensures three_head_rules { BreaksGrid ("+---+" ∷ "+===+" ∷ "+===+" ∷ "+===+" ∷ "+---+" ∷ []) (TwoHeadRules 2 3) 5 }
    ensures head_rules_below_a_text { grid_table (block ("x" ∷ "" ∷ "+---+" ∷ "+===+" ∷ "+===+" ∷ "+---+" ∷ [])) 2 ≡ malformed 3 2 4 (TwoHeadRules 2 3) }
    ensures no_tiling { BreaksGrid ("+---+---+" ∷ "| a | b |" ∷ "+---+   |" ∷ "| c   d |" ∷ "+---+---+" ∷ []) ParseIncomplete 5 }
    ensures bent_cells { BreaksGrid ("+-+-+-+" ∷ "| |   |" ∷ "+-+-+ |" ∷ "| | | |" ∷ "| +-+-+" ∷ "|   | |" ∷ "+---+-+" ∷ []) ParseIncomplete 7 }
{}

/// The rows of simple tables (Markup Specification, 'Simple Tables').
pub fn simple_rows()
    ensures two_lines { MakesSimple ("== ==" ∷ "a  b c" ∷ "   d" ∷ "== ==" ∷ []) (2 ∷ 3 ∷ []) 0
        ((plain 2 ("a" ∷ "" ∷ []) ∷ plain 2 ("b c" ∷ "d" ∷ []) ∷ []) ∷ []) 4 }
    ensures two_rows { MakesSimple ("== ==" ∷ "a  b" ∷ "c  d" ∷ "== ==" ∷ []) (2 ∷ 2 ∷ []) 0
        ((plain 2 ("a" ∷ []) ∷ plain 2 ("b" ∷ []) ∷ []) ∷ (plain 3 ("c" ∷ []) ∷ plain 3 ("d" ∷ []) ∷ []) ∷ []) 4 }
    ensures blank_line_between { MakesSimple ("== ==" ∷ "a  b" ∷ "" ∷ "   c" ∷ "== ==" ∷ []) (2 ∷ 2 ∷ []) 0
        ((plain 2 ("a" ∷ "" ∷ "" ∷ []) ∷ plain 2 ("b" ∷ "" ∷ "c" ∷ []) ∷ []) ∷ []) 5 }
    ensures first_column_blank { MakesSimple ("== ==" ∷ "" ∷ "   b" ∷ "== ==" ∷ []) (2 ∷ 2 ∷ []) 0
        ((plain 3 ("" ∷ []) ∷ plain 3 ("b" ∷ []) ∷ []) ∷ []) 4 }
    ensures blank_lines_around { MakesSimple ("== ==" ∷ "" ∷ "a  b" ∷ "" ∷ "c  d" ∷ "" ∷ "== ==" ∷ []) (2 ∷ 2 ∷ []) 0
        ((plain 3 ("a" ∷ "" ∷ []) ∷ plain 3 ("b" ∷ "" ∷ []) ∷ []) ∷ (plain 5 ("c" ∷ "" ∷ []) ∷ plain 5 ("d" ∷ "" ∷ []) ∷ []) ∷ []) 7 }
    ensures short_line { MakesSimple ("== ==" ∷ "a" ∷ "== ==" ∷ []) (2 ∷ 2 ∷ []) 0 ((plain 2 ("a" ∷ []) ∷ plain 2 ("" ∷ []) ∷ []) ∷ []) 3 }
    ensures long_line { MakesSimple ("== ==" ∷ "a  bcdef" ∷ "== ==" ∷ []) (2 ∷ 5 ∷ []) 0 ((plain 2 ("a" ∷ []) ∷ plain 2 ("bcdef" ∷ []) ∷ []) ∷ []) 3 }
    ensures wide_character_past_the_border { MakesSimple ("== ==" ∷ "a  long 中 text" ∷ "== ==" ∷ []) (2 ∷ 12 ∷ []) 0
        ((plain 2 ("a" ∷ []) ∷ plain 2 ("long 中 text" ∷ []) ∷ []) ∷ []) 3 }
    ensures spaces_past_the_border { MakesSimple ("== == ==" ∷ "a        c" ∷ "== == ==" ∷ []) (2 ∷ 2 ∷ 4 ∷ []) 0
        ((plain 2 ("a" ∷ []) ∷ plain 2 ("" ∷ []) ∷ plain 2 ("c" ∷ []) ∷ []) ∷ []) 3 }
    ensures wide_character { MakesSimple ("== ==" ∷ "日 b" ∷ "== ==" ∷ []) (2 ∷ 2 ∷ []) 0 ((plain 2 ("日" ∷ []) ∷ plain 2 ("b" ∷ []) ∷ []) ∷ []) 3 }
    ensures wide_space { MakesSimple ("== ==" ∷ "a  b" ∷ "\u{3000} c" ∷ "== ==" ∷ []) (2 ∷ 2 ∷ []) 0
        ((plain 2 ("a" ∷ []) ∷ plain 2 ("b" ∷ []) ∷ []) ∷ (plain 3 ("" ∷ []) ∷ plain 3 ("c" ∷ []) ∷ []) ∷ []) 4 }
    ensures no_break_space { MakesSimple ("== ==" ∷ "a  b" ∷ "\u{a0}  c" ∷ "== ==" ∷ []) (2 ∷ 2 ∷ []) 0
        ((plain 2 ("a" ∷ "" ∷ []) ∷ plain 2 ("b" ∷ "c" ∷ []) ∷ []) ∷ []) 4 }
    ensures no_break_space_in_the_margin { MakesSimple ("== ==" ∷ "a \u{a0}b" ∷ "== ==" ∷ []) (2 ∷ 2 ∷ []) 0
        ((plain 2 ("a" ∷ []) ∷ plain 2 ("b" ∷ []) ∷ []) ∷ []) 3 }
{}

/// The rows of simple tables by the wider profile, where lines before the first row are in none (Markup Specification, 'Simple Tables').
pub fn wider_rows()
    ensures blank_first_cell { HoldsWider ("== ==" ∷ "   b" ∷ "a  c" ∷ "== ==" ∷ []) ((("a" ∷ []) ∷ ("c" ∷ []) ∷ []) ∷ []) }
    ensures no_row_begins { HoldsWider ("== ==" ∷ "   b" ∷ "== ==" ∷ []) (([] ∷ [] ∷ []) ∷ []) }
    ensures after_a_rule { HoldsWider ("== ==" ∷ "a  b" ∷ "-- --" ∷ "   x" ∷ "c  d" ∷ "== ==" ∷ [])
        ((("a" ∷ []) ∷ ("b" ∷ []) ∷ []) ∷ (("c" ∷ []) ∷ ("d" ∷ []) ∷ []) ∷ []) }
    ensures between_rules { HoldsWider ("== ==" ∷ "a  b" ∷ "-- --" ∷ "-- --" ∷ "c  d" ∷ "== ==" ∷ [])
        ((("a" ∷ []) ∷ ("b" ∷ []) ∷ []) ∷ ([] ∷ [] ∷ []) ∷ (("c" ∷ []) ∷ ("d" ∷ []) ∷ []) ∷ []) }
    ensures joined_columns { HoldsWider ("== ==" ∷ "   b" ∷ "-----" ∷ "a  c" ∷ "== ==" ∷ []) (([] ∷ []) ∷ (("a" ∷ []) ∷ ("c" ∷ []) ∷ []) ∷ []) }
    ensures text_in_the_margin { HoldsWider ("== ==" ∷ "  x" ∷ "a  c" ∷ "== ==" ∷ []) ((("a" ∷ []) ∷ ("c" ∷ []) ∷ []) ∷ []) }
    ensures wider_than_the_border { HoldsWider ("== ==" ∷ "   bcd" ∷ "a  c" ∷ "   d" ∷ "== ==" ∷ []) ((("a" ∷ "" ∷ []) ∷ ("c" ∷ "d" ∷ []) ∷ []) ∷ []) }
{}

/// The heads of simple tables (Markup Specification, 'Simple Tables').
pub fn simple_heads()
    ensures one { MakesSimple ("== ==" ∷ "a  b" ∷ "== ==" ∷ "c  d" ∷ "== ==" ∷ []) (2 ∷ 2 ∷ []) 1
        ((plain 2 ("a" ∷ []) ∷ plain 2 ("b" ∷ []) ∷ []) ∷ (plain 4 ("c" ∷ []) ∷ plain 4 ("d" ∷ []) ∷ []) ∷ []) 5 }
    ensures joined_columns { MakesSimple ("== ==" ∷ "a  b" ∷ "=====" ∷ "c  d" ∷ "== ==" ∷ []) (2 ∷ 2 ∷ []) 1
        ((cell 0 1 2 ("a  b" ∷ []) ∷ []) ∷ (plain 4 ("c" ∷ []) ∷ plain 4 ("d" ∷ []) ∷ []) ∷ []) 5 }
    ensures blank_line_after_the_border { MakesSimple ("== ==" ∷ "a  b" ∷ "== ==" ∷ "" ∷ "== ==" ∷ []) (2 ∷ 2 ∷ []) 0
        ((plain 2 ("a" ∷ []) ∷ plain 2 ("b" ∷ []) ∷ []) ∷ []) 3 }
    ensures without_rows { MakesSimple ("== ==" ∷ "== ==" ∷ "a  b" ∷ "== ==" ∷ []) (2 ∷ 2 ∷ []) 0
        ((plain 3 ("a" ∷ []) ∷ plain 3 ("b" ∷ []) ∷ []) ∷ []) 4 }
    ensures without_a_body { MakesSimple ("== ==" ∷ "a  b" ∷ "== ==" ∷ "== ==" ∷ []) (2 ∷ 2 ∷ []) 1
        ((plain 2 ("a" ∷ []) ∷ plain 2 ("b" ∷ []) ∷ []) ∷ []) 4 }
    ensures borders_alone { MakesSimple ("== ==" ∷ "== ==" ∷ "== ==" ∷ []) (2 ∷ 2 ∷ []) 0 [] 3 }
{}

/// Cells of several columns in simple tables (Markup Specification, 'Simple Tables').
pub fn simple_spans()
    ensures rule { MakesSimple ("== == ==" ∷ "a  b  c" ∷ "-- -----" ∷ "d  e" ∷ "== == ==" ∷ []) (2 ∷ 2 ∷ 2 ∷ []) 0
        ((plain 2 ("a" ∷ []) ∷ cell 0 1 2 ("b  c" ∷ []) ∷ []) ∷ (plain 4 ("d" ∷ []) ∷ plain 4 ("e" ∷ []) ∷ plain 4 ("" ∷ []) ∷ []) ∷ []) 5 }
    ensures row_before_another { MakesSimple ("== ==" ∷ "a  b" ∷ "c d" ∷ "-----" ∷ "== ==" ∷ []) (2 ∷ 2 ∷ []) 0
        ((plain 2 ("a" ∷ []) ∷ plain 2 ("b" ∷ []) ∷ []) ∷ (cell 0 1 3 ("c d" ∷ []) ∷ []) ∷ []) 5 }
    ensures rule_first { MakesSimple ("== ==" ∷ "-- --" ∷ "a  b" ∷ "== ==" ∷ []) (2 ∷ 2 ∷ []) 0
        ((plain 3 ("a" ∷ []) ∷ plain 3 ("b" ∷ []) ∷ []) ∷ []) 4 }
    ensures rules_that_join_nothing { MakesSimple ("== ==" ∷ "a  b" ∷ "-- --" ∷ "c  d" ∷ "-- --" ∷ "== ==" ∷ []) (2 ∷ 2 ∷ []) 0
        ((plain 2 ("a" ∷ []) ∷ plain 2 ("b" ∷ []) ∷ []) ∷ (plain 4 ("c" ∷ []) ∷ plain 4 ("d" ∷ []) ∷ []) ∷ []) 6 }
    ensures two_of_three_columns { MakesSimple ("== == ==" ∷ "a  b  c" ∷ "----- --" ∷ "== == ==" ∷ []) (2 ∷ 2 ∷ 2 ∷ []) 0
        ((cell 0 1 2 ("a  b" ∷ []) ∷ plain 2 ("c" ∷ []) ∷ []) ∷ []) 4 }
    ensures widest_line { MakesSimple ("== ==" ∷ "a bbbbbbbb" ∷ "-----" ∷ "c  d" ∷ "== ==" ∷ []) (2 ∷ 7 ∷ []) 0
        ((cell 0 1 2 ("a bbbbbbbb" ∷ []) ∷ []) ∷ (plain 4 ("c" ∷ []) ∷ plain 4 ("d" ∷ []) ∷ []) ∷ []) 5 }
{}

/// What can be wrong with simple tables (Markup Specification, 'Simple Tables').
pub fn simple_faults()
    ensures margin { BreaksSimple ("== ==" ∷ "abc d" ∷ "== ==" ∷ []) (Margin 2) 3 }
    ensures margin_in_the_second_line { BreaksSimple ("== ==" ∷ "a  b" ∷ "  c" ∷ "== ==" ∷ []) (Margin 3) 4 }
    ensures wide_character_in_the_margin { BreaksSimple ("== ==" ∷ "a中 b" ∷ "== ==" ∷ []) (Margin 2) 3 }
    ensures column_left_out { BreaksSimple ("== == ==" ∷ "a     c" ∷ "--    --" ∷ "== == ==" ∷ []) (ColumnSpan 3) 4 }
    ensures rule_to_the_middle_of_a_column { BreaksSimple ("==  ==" ∷ "a   b" ∷ "-----" ∷ "==  ==" ∷ []) (ColumnSpan 3) 4 }
    ensures rule_from_a_margin { BreaksSimple ("==  ==" ∷ "a x b" ∷ "-- ---" ∷ "==  ==" ∷ []) (ColumnSpan 3) 4 }
    ensures rule_up_to_the_last_column { BreaksSimple ("== ==" ∷ "a  b" ∷ "--" ∷ "== ==" ∷ []) (ColumnSpan 3) 4 }
    ensures rule_that_ends_no_row { BreaksSimple ("== ==" ∷ "-" ∷ "a  b" ∷ "== ==" ∷ []) (ColumnSpan 2) 4 }
    ensures one_dash { BreaksSimple ("== ==" ∷ "a  b" ∷ "-" ∷ "== ==" ∷ []) (ColumnSpan 3) 4 }
    ensures margin_below_a_text { simple_table (block ("x" ∷ "" ∷ "== ==" ∷ "abc d" ∷ "== ==" ∷ [])) 2 ≡ malformed 3 2 3 (Margin 2) }
    ensures rule_below_a_text { simple_table (block ("x" ∷ "" ∷ "== ==" ∷ "a  b" ∷ "-- -" ∷ "== ==" ∷ [])) 2 ≡ malformed 3 2 4 (ColumnSpan 3) }
    ensures rules_before_margins { BreaksSimple ("== ==" ∷ "abc d" ∷ "a  b" ∷ "-- -" ∷ "== ==" ∷ []) (ColumnSpan 4) 5 }
    ensures longer_border { BreaksSimple ("== ==" ∷ "a  b" ∷ "== ===" ∷ []) BorderMismatch 3 }
    ensures shorter_head_border { BreaksSimple ("== ==" ∷ "a  b" ∷ "== =" ∷ "c  d" ∷ "== ==" ∷ []) BorderMismatch 3 }
    ensures no_border { BreaksSimple ("== ==" ∷ "a  b" ∷ "" ∷ "c" ∷ []) BottomMissing 4 }
    ensures head_border_alone { BreaksSimple ("== ==" ∷ "a  b" ∷ "== ==" ∷ "c  d" ∷ []) BottomMissing 3 }
{}

/// The messages on malformed tables (Markup Specification, 'Simple Tables').
pub fn messages()
    ensures grid { map malformed_text (BottomBorderMissing ∷ RightEdgeBroken ∷ TwoHeadRules 3 12 ∷ ParseIncomplete ∷ [])
        ≡ codes "Malformed table.\nBottom border missing."
        ∷ codes "Malformed table.\nRight edge broken."
        ∷ codes "Malformed table.\nMultiple head/body row separators (table lines 3 and 12); only one allowed."
        ∷ codes "Malformed table.\nMalformed table; parse incomplete."
        ∷ [] }
    ensures simple { map malformed_text (BorderMismatch ∷ BottomMissing ∷ ColumnSpan 3 ∷ Margin 12 ∷ [])
        ≡ codes "Malformed table.\nBottom border or header rule does not match top border."
        ∷ codes "Malformed table.\nNo bottom table border found."
        ∷ codes "Malformed table.\nColumn span alignment problem in table line 3."
        ∷ codes "Malformed table.\nText in column margin in table line 12."
        ∷ [] }
{}
