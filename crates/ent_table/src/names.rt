//! Edits of names.

ghost use Rattle.std.specs.Prelude.{◌≡◌, Err, IfErr};
ghost use Rattle.ent_table.specs.proofs_only.Change.{Counted, Keeps, Makes, Tries};
ghost use Rattle.ent_table.specs.Fresh.{IsFresh, state_of};
ghost use Rattle.ent_table.specs.Step.{name_added, name_dropped};
ghost use Rattle.ent_table.specs.proofs_only.Names.{Exceeds};

use crate::edit::{Accepted, EditFault, List};
use crate::review_parts::ReviewParts;
use ent_eval::Evaluates;
use ent_policy::is_bad_name;
use ent_values::Text;

impl<E: Evaluates> ReviewParts<E> {
    /// Puts a name last in its list. The other answers stay, so only the requests of the name are evaluated.
    pub(crate) fn add_name(&mut self, list: List, name: Text) -> Result<Accepted, EditFault>
        requires { IsFresh self.old }
        ensures fresh { IsFresh self.new }
        ensures step { Makes (λ s. name_added s list name) self.old self.new result }
        ensures counted { Counted (λ s. name_added s list name) self.old self.new result }
        ensures tables { Keeps self.old self.new }
    {
        self.name_fault(list, &name)?;
        match self.table.add(self.alloc, &mut self.log, list, name) {
            Ok(olds) => Ok(self.log_edit(olds)),
            Err(_) => Err(EditFault::Memory),
        }
    }

    /// Takes a name out of its list, and drops the cells of its requests. Nothing is evaluated, and no memory is taken.
    pub(crate) fn drop_name(&mut self, list: List, name: &Text) -> Result<Accepted, EditFault>
        requires { IsFresh self.old }
        ensures fresh { IsFresh self.new }
        ensures step { Makes (λ s. name_dropped s list name.now) self.old self.new result }
        ensures sure { IfErr result
            (λ fault. name_dropped (state_of self.old) list name.now ≡ Err fault) }
        ensures counted { Counted (λ s. name_dropped s list name.now) self.old self.new result }
        ensures tables { Keeps self.old self.new }
        ensures idle { self.new.table.cells.evaluator ≡ self.old.table.cells.evaluator }
    {
        if !self.table.names.has(list, name.as_str()) {
            return Err(EditFault::NotThere);
        }
        if self.is_last() {
            return Err(EditFault::Limit);
        }
        let Some(changes) = self.table.remove(&mut self.log, list, name.as_str()) else {
            return Err(EditFault::NotThere);
        };
        self.log.close();
        Ok(self.accepted(changes))
    }

    /// Why a name can't be added, if it can't.
    fn name_fault(&self, list: List, name: &Text) -> Result<(), EditFault>
        ensures { Tries (λ s. name_added s list name.now) self.now result }
    {
        if self.table.names.has(list, name.as_str()) {
            return Err(EditFault::AlreadyThere);
        }
        if self.is_last() || self.exceeds(list) {
            return Err(EditFault::Limit);
        }
        if is_bad_name(name.as_str()) {
            return Err(EditFault::BadValue);
        }
        Ok(())
    }

    /// Whether a name more would exceed a limit.
    fn exceeds(&self, list: List) -> bool
        ensures { Exceeds (state_of self.now) list result }
    {
        let most = match list {
            List::People => self.limits.people,
            List::Actions => self.limits.actions,
            List::Resources => self.limits.resources,
        };
        self.table.names.names(list).len() >= most
            || self.table.names.cell_count_with(list) > self.limits.cells
    }
}
