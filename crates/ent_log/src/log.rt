//! The log.

ghost use Rattle.std.specs.Prelude.{◌≤◌, IsTrue};
ghost use Rattle.ent_log.specs.Entries.{is_in_order};

use crate::entry::Logged;
use std::collections::VecDeque;

/// What edits of a table changed: the old answers of each edit from a serial on. With the present table they give the
/// table at each of these serials. An edit that changed nothing takes no room.
///
/// While an edit is logged, one old answer after another, the log is open: the present table then stands between two
/// serials.
#[derive(Drop)]
pub struct Log<K, A> {
    // The least serial whose table is known, and how many edits there were.
    pub(crate) from: u64,
    pub(crate) serial: u64,
    // The old answers, the oldest first.
    pub(crate) entries: VecDeque<Logged<K, A>>,
    ghost within: { from ≤ serial },
    ghost in_order: { IsTrue (is_in_order from entries.items serial) },
}
