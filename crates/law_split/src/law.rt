//! Laws of a review that is split, with nothing to run.

ghost use Rattle.law_split.specs.Laws.{NewReviewsAreASplit, PartsTellTheChanges, PartsTellTheWhole};
ghost use Rattle.law_split.specs.Laws.{SplitsAreKept, SplitsHaveAWhole, WholesAccept};

/// A law, with nothing to run: several reviews that hold the same and list nothing are a split of one that does,
/// whatever the limits of each.
pub fn new_reviews_are_a_split()
    ensures { NewReviewsAreASplit }
{}

/// A law, with nothing to run: a split stays one over all edits, where those that add or drop a person are told to her
/// part alone and all others to every part, if all are accepted.
pub fn splits_are_kept()
    ensures { SplitsAreKept }
{}

/// A law, with nothing to run: what the parts accept the whole accepts, unless it comes to one of its limits.
pub fn wholes_accept()
    ensures { WholesAccept }
{}

/// A law, with nothing to run: whatever several reviews accepted that held the same and listed nothing, there is a
/// review that would accept all of it, with limits that are large enough, and they are a split of what it comes to.
pub fn splits_have_a_whole()
    ensures { SplitsHaveAWhole }
{}

/// A law, with nothing to run: the cells of a person and what she can do are those of her part, the counts are sums,
/// and all cells, those of which a part failed, who can do something and what a rule decides are what the parts tell,
/// merged by the whole's order of people.
pub fn parts_tell_the_whole()
    ensures { PartsTellTheWhole }
{}

/// A law, with nothing to run: from before some edits to after them as many cells of the whole change as of the parts
/// together, and none of a part that isn't told any.
pub fn parts_tell_the_changes()
    ensures { PartsTellTheChanges }
{}
