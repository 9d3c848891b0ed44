//! Laws of what is told of two tables, with nothing to run.

ghost use Rattle.law_compared.specs.Laws.{DifferencesAreTold, NothingIsToldOfTheSame};
ghost use Rattle.law_compared.specs.Services.{ComparisonsTellTables, TablesAreReplies};

/// A law, with nothing to run: whatever was asked of two services that held nothing at their start, of what they reply
/// to `table` the difference of their tables is told: each request whose decision is another, or that one of them alone
/// has, and then each whose decision is the same and anything else of its cell another, each with both cells.
pub fn differences_are_told()
    ensures { DifferencesAreTold }
{}

/// A law, with nothing to run: no change is told of the replies to `table` of two such services exactly where both
/// tables have the same cells at the same requests.
pub fn nothing_is_told_of_the_same()
    ensures { NothingIsToldOfTheSame }
{}

/// A law, with nothing to run: a table behind lines, of which `compare_from` speaks, is the reply of a service that has
/// come to a world by them; none of them has a newline.
pub fn tables_are_replies()
    ensures { TablesAreReplies }
{}

/// A law, with nothing to run: what `compare_from` writes where no line is refused is the difference of the tables of
/// two services, of which one has come to its world by the lines of the state, and the other by those that are sent to
/// it.
pub fn comparisons_tell_tables()
    ensures { ComparisonsTellTables }
{}
