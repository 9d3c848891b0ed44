//! Laws of the lines, with nothing to run.

ghost use Rattle.law_restart.specs.Laws.{EditsReadBack};
ghost use Rattle.law_restart.specs.Plain.{TextsAreLines, TextsReadBack};
ghost use Rattle.law_restart.specs.Restart.{DumpsRestart, NewServicesAreEmpty, RepliesReadBack, RepliesRestart};
ghost use Rattle.law_restart.specs.Restart.{TakenDumpsRestart, TakenRepliesRestart};

/// A law, with nothing to run: the JSON object of an edit is read as a command, of the session that no line names,
/// which makes that edit, if what the edit carries can be said in a line.
pub fn edits_read_back()
    ensures { EditsReadBack }
{}

/// A law, with nothing to run: the compact text of JSON of whole numbers whose keys stand in byte order, none twice, is
/// read as that JSON, if it is UTF-8 and not too deep.
pub fn texts_read_back()
    ensures { TextsReadBack }
{}

/// A law, with nothing to run: the compact text of such JSON is one line.
pub fn texts_are_lines()
    ensures { TextsAreLines }
{}

/// A law, with nothing to run: whatever was asked of a service that held nothing at its start, a service with the same
/// start that is told the dump of its state, line by line, takes each and comes to the same state, but for the serial,
/// which is the number of edits: so to the same table and the same dump. What it wants is that the version can tell the
/// state, that memory isn't wanting, that the lines are not too long, and that no duration in the state has more years
/// than can be read.
pub fn dumps_restart()
    ensures { DumpsRestart }
{}

/// A law, with nothing to run: the same by what is seen of it alone. If the first line of the dump was answered by its
/// version and each other as accepted, the service has come to the same state.
pub fn taken_dumps_restart()
    ensures { TakenDumpsRestart }
{}

/// A law, with nothing to run: the dump of a service's state is lines, and these are read of the reply that tells them.
pub fn replies_read_back()
    ensures { RepliesReadBack }
{}

/// A law, with nothing to run: whatever was asked of a service that held nothing at its start, the lines of the reply
/// to `dump` bring a service with the same start to the same state, as [`dumps_restart`] says.
pub fn replies_restart()
    ensures { RepliesRestart }
{}

/// A law, with nothing to run: the same of these lines by what is seen of them, as [`taken_dumps_restart`] says.
pub fn taken_replies_restart()
    ensures { TakenRepliesRestart }
{}

/// A law, with nothing to run: a service at its start holds nothing, as a service that is made anew does.
pub fn new_services_are_empty()
    ensures { NewServicesAreEmpty }
{}
