//! Laws on the definitions, each by a function that does nothing and whose contract is the law.
ghost use Rattle.rst_block_state.specs.machine.Begins.{MarksTellConstructs};
ghost use Rattle.rst_block_state.specs.looks.BudgetLaws as budget;
ghost use Rattle.rst_block.specs.InsideLaws as inside;
ghost use Rattle.rst_block_state.specs.looks.LedgerLaws as ledger;
ghost use Rattle.rst_block_state.specs.machine.MeaningLaws as meaning;
ghost use Rattle.rst_block_state.specs.looks.Reaches as reaches;
ghost use Rattle.rst_block_state.specs.machine.RestLaws as law;

/// The construct at a line is the one with the mark that is found there.
pub fn marks_tell_constructs()
    ensures { MarksTellConstructs }
{}

/// A block can be read from left to right, with at most one open run: what is still to come from its first line on is all that
/// the block gives. From each line on it is known what is still to come: after the last line what the open run gives, from a
/// blank line on what is still to come from the next one on, and else a construct and what follows it.
pub fn constructs_follow()
    ensures all { law.RestIsAll }
    ensures over { law.LastLineEndsRun }
    ensures blank { law.BlankGivesNothing }
    ensures text { law.ConstructThenRest }
{}

/// What a construct gives and which run is open after it, for each kind: an item, a line of a line block and explicit markup
/// may join the open run or begin one; any other construct is alone.
pub fn constructs_join_or_begin()
    ensures item_joins { law.ItemJoins }
    ensures item_begins { law.ItemBegins }
    ensures line_joins { law.LineJoins }
    ensures line_begins { law.LineBegins }
    ensures markup_joins { law.MarkupJoins }
    ensures markup_begins { law.MarkupBegins }
    ensures alone { law.AloneBegins }
{}

/// The count of quotes is no bound: as many quotes as lines are enough.
pub fn quotes_are_enough()
    ensures { meaning.EnoughQuotes }
{}

/// A part in which there is no attribution is read as one quote; one in which there is an attribution as the quote of the lines
/// before that, and then as further quotes of the lines after it.
pub(crate) fn quotes_are_read()
    ensures plain { meaning.QuoteIsRead }
    ensures attributed { meaning.AttributedQuoteIsRead }
{}

/// A block below the last level gives nothing if it is blank, and else is refused at its first line that isn't.
pub fn below_last_level_is_blank()
    ensures { meaning.BelowLastLevel }
{}

/// What the state of the machine means: a block of which nothing was read gives all that it means; a part that is read for a
/// block that waits is a block of its own, one level deeper; and the block that waits has its nodes once it is read.
pub(crate) fn waiting_blocks_go_on()
    ensures begun { meaning.NewBlockIsAll }
    ensures part { meaning.PartIsBlock }
    ensures ended { meaning.EndedBlockIsPassed }
    ensures item { meaning.ItemIsRead }
{}

/// What calls change of the block that is read, in what it gives: more nodes, one more item of a list, a title.
pub(crate) fn changes_are_read()
    ensures nodes { meaning.NodesAreRead }
    ensures item { meaning.ItemIsAdded }
    ensures title { meaning.TitleIsLast }
{}

/// The blocks that are opened in a block whose lines don't end in white are in its lines, one after another, and each begins with
/// a line that isn't blank. So the block's budget allows 128 looks for each line of it and of all blocks and cells inside. Its floor
/// asks for no more looks than there are lines of these.
pub fn budget_bounds_totals()
    ensures inside { budget.BlocksAreInside }
    ensures cells { budget.CellsAreTrimmed }
    ensures high { budget.TotalIsWithinBudget }
    ensures low { budget.FloorIsWithinTotal }
{}

/// No line is in the reaches of more than four constructs of a block. From the first line on, each construct pays for its reach
/// out of what is unpaid.
pub fn few_reaches_share_a_line()
    ensures paid { reaches.ReachesArePaid }
    ensures lines { reaches.LinesArePaid }
    ensures few { reaches.AtMostFour }
{}

/// How many looks a reading may still take, and has to take at least, by the state of the machine: at a block's begin as many as
/// its total, and at its end none. A blank line, a construct and a block inside take no more of them than they leave.
pub fn looks_are_paid()
    ensures begun { ledger.BlocksBegin }
    ensures ended { ledger.BlocksEnd }
    ensures blank { ledger.BlankLinesArePaid }
    ensures construct { ledger.ConstructIsPaid }
    ensures counted { ledger.LastIsCounted }
    ensures opened { ledger.OpenedIsPaid }
    ensures second { ledger.SecondIsPaid }
{}

/// What blocks that wait may still take of looks, and have to take: as they go on, wait for the next quote, or have read the
/// cells of a table.
pub(crate) fn waiting_blocks_are_paid()
    ensures quote { ledger.QuoteIsOne }
    ensures quotes { ledger.QuotesAreSplit }
    ensures resumed { ledger.ResumedIsPaid }
    ensures next_quote { ledger.QuotesArePaid }
    ensures cell { ledger.CellIsText }
    ensures rows { ledger.CellsAreOfRows }
    ensures table { ledger.TableIsPaid }
{}

/// The blocks inside a construct are those that are read for it: what it gives depends on no other block than those that it opens
/// and its cells.
pub fn inside_is_read()
    ensures { inside.InsideIsRead }
{}

/// What a text takes: one for each line below the last level. A document takes no more looks than its
/// budget allows and no fewer than its floor asks for, where it takes one to 128 for each line of it and of all inside.
pub fn documents_are_bounded()
    ensures flat { ledger.LastTextIsFlat }
    ensures bounded { ledger.DocumentIsBounded }
{}
