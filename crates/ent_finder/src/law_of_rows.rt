//! Laws of rows that are held, and of values that are found.

ghost use Rattle.ent_finder.specs.LawOfRows.{EmptyRowsDoNotCount, FirstSourceAnswers, IssuerNamesOneRow};
ghost use Rattle.ent_finder.specs.LawOfRows.{NoSourceAnswers, SwapChangesOneRow, SwapLeavesRow};
ghost use Rattle.ent_finder.specs.LawOfRows.{SecondSwapRestoresAllRows, SecondSwapRestoresRows, SwapLeavesOtherKeys};

/// A law, with nothing to run: a swap changes one row, and the row is there afterwards.
pub fn swap_changes_one_row()
    ensures changes { SwapChangesOneRow }
    ensures leaves { SwapLeavesRow }
{}

/// A law, with nothing to run: two equal swaps in turn leave what was there.
pub fn second_swap_restores_rows()
    ensures rows { SecondSwapRestoresRows }
    ensures all { SecondSwapRestoresAllRows }
{}

/// A law, with nothing to run: an empty row counts as none.
pub fn empty_rows_do_not_count()
    ensures { EmptyRowsDoNotCount }
{}

/// A law, with nothing to run: a key with an issuer finds the values of that issuer's row.
pub fn issuer_names_one_row()
    ensures { IssuerNamesOneRow }
{}

/// A law, with nothing to run: values that are found are all of one module, the first that supports the category and
/// has any.
pub fn first_source_answers()
    ensures found { FirstSourceAnswers }
    ensures none { NoSourceAnswers }
{}

/// A law, with nothing to run: a swap of a row leaves what every key finds that doesn't name the row.
pub fn swap_leaves_other_keys()
    ensures { SwapLeavesOtherKeys }
{}
