//! Laws of what is held and what is found.

ghost use Rattle.ent_finder.specs.Law.{FirstModuleAnswers, MostRecentIsLatest, NoModuleAnswers, NoneIsNamed};
ghost use Rattle.ent_finder.specs.Law.{SecondSwapRestoresDocuments, SecondSwapRestoresSlots};
ghost use Rattle.ent_finder.specs.Law.{SwapChangesOneDocument, SwapLeavesOtherReferences, SwapLeavesSlot};

/// A law, with nothing to run: a swap changes one document, and the slot is there afterwards.
pub fn swap_changes_one_document()
    ensures changes { SwapChangesOneDocument }
    ensures leaves { SwapLeavesSlot }
{}

/// A law, with nothing to run: two equal swaps in turn leave what was there.
pub fn second_swap_undoes_first()
    ensures documents { SecondSwapRestoresDocuments }
    ensures slots { SecondSwapRestoresSlots }
{}

/// A law, with nothing to run: the most recent document is later than every other one that the reference names.
pub fn most_recent_is_latest()
    ensures found { MostRecentIsLatest }
    ensures none { NoneIsNamed }
{}

/// A law, with nothing to run: a document that a reference names in one module is never taken from a later one.
pub fn first_module_answers()
    ensures found { FirstModuleAnswers }
    ensures none { NoModuleAnswers }
{}

/// A law, with nothing to run: a swap under a key leaves what every reference of another kind or id finds.
pub fn swap_leaves_other_references()
    ensures { SwapLeavesOtherReferences }
{}
