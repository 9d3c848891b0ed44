//! Laws of rebuilding, with nothing to run.

ghost use Rattle.law_rebuild.specs.Laws.{ReachedEditsWereMade, ReachedStatesAreRebuilt, SoundnessIsKept};
ghost use Rattle.law_rebuild.specs.Laws.{StatesAreRebuilt};

/// A law, with nothing to run: a sound state is made anew by its documents, rows, environment, root and names as edits
/// in that order. None of them is refused, and only the serial is another than before.
pub fn states_are_rebuilt()
    ensures { StatesAreRebuilt }
{}

/// A law, with nothing to run: a state in which nothing is held, listed or set is sound, and so is each state that an
/// edit leads to from a sound state, if the edit's document was checked. The number of modules, their categories and
/// the limits stay.
pub fn soundness_is_kept()
    ensures { SoundnessIsKept }
{}

/// A law, with nothing to run: whichever edits were made, some of them refused, the state behind them is made anew out
/// of the same empty state.
pub fn reached_states_are_rebuilt()
    ensures { ReachedStatesAreRebuilt }
{}

/// A law, with nothing to run: each edit that makes a reached state anew is one of those that led to it, where putting
/// a document in the place of another counts as putting it there. So what holds of every edit that is read holds of
/// every edit that is written.
pub fn reached_edits_were_made()
    ensures { ReachedEditsWereMade }
{}
