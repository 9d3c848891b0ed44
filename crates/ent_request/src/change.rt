//! Laws of the look-ups that one change of what is held may change.

ghost use Rattle.ent_request.specs.Change.{DocumentLeavesOthers, EnvironmentLeavesOthers, RootLeavesOthers};
ghost use Rattle.ent_request.specs.Change.{ValuesLeaveOthers};

/// Law: with another root every look-up gives the same but that of the root.
pub fn root_leaves_others()
    ensures { RootLeavesOthers }
{}

/// Law: with another document under a key in one module, or none, every look-up gives the same but that of references
/// of the key's kind and id.
pub fn document_leaves_others()
    ensures { DocumentLeavesOthers }
{}

/// Law: with other values in a row, or none, every look-up gives the same but that of keys that name the row.
pub fn values_leave_others()
    ensures { ValuesLeaveOthers }
{}

/// Law: where something else is known of the time, every look-up gives the same but those of the date, of the time,
/// and of both together.
pub fn environment_leaves_others()
    ensures { EnvironmentLeavesOthers }
{}
