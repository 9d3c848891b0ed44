//! Tests that are evaluated alone.

ghost use Rattle.std.specs.Prelude.{◌≡◌, [], ◌++◌, IfOk, OnOk, true};
ghost use Rattle.ent_trace.specs.proofs_only.Path.{keys_of};
ghost use Rattle.ent_policy.specs.Typing.{given_is_typed};
ghost use Rattle.ent_walk.specs.Rule.{decided};
ghost use Rattle.ent_walk.specs.declared.evaluated.Truth.TheVariants.{True};
ghost use Rattle.ent_walk.specs.proofs_only.Comes.{Adds, Comes, in_walk};
ghost use Rattle.ent_walk.specs.proofs_only.Judged.{or_nothing};
ghost use Rattle.memo_plan.specs.Heard.{decides_part};
ghost use Rattle.memo_plan.specs.Alone.{task_part};
ghost use Rattle.memo_plan.specs.Plan.{TaskTyped};

use crate::Tested;
use crate::task::{TestTask, Within};
use ent_policy::{DocKey, Rule};
use ent_request::{Answer, LookUps};
use ent_trace::Path;
use ent_walk::{Truth, Walk};
use std::alloc::{AllocError, Global};

impl TestTask {
    /// What the test comes to, evaluated alone.
    ///
    /// # Errors
    ///
    /// `AllocError` if memory runs out.
    ///
    /// Its contract is an equation but for memory.
    pub fn tested<'a, L: LookUps>(
        &'a self,
        alloc: Global,
        walk: &mut Walk<'a, L>,
    ) -> Result<Tested, AllocError>
        requires { TaskTyped self.now }
        ensures { IfOk result (Comes (in_walk L.looks walk.old task_part self.now) walk.old walk.new) }
    {
        match self {
            TestTask::Target(target) => Ok(Tested::Target(walk.target(target)?)),
            TestTask::RuleTarget(rule) => Ok(Tested::Target(walk.target(&rule.get().target)?)),
            TestTask::Condition(within, rule) => {
                let definitions = within.get().definitions.as_slice();
                let truth = walk.condition(definitions, &rule.get().condition)?;
                Ok(Tested::Condition(truth))
            }
            TestTask::Decision(within, rule) => {
                let answer = decision(walk, within.get(), rule.get())?;
                Ok(Tested::Decides(answer.unwrap_or(Answer::not_applicable(alloc))))
            }
        }
    }
}

// A rule with a condition that is True, and what it gives itself.
fn decision<'a, L: LookUps>(
    walk: &mut Walk<'a, L>,
    within: &'a Within,
    rule: &'a Rule,
) -> Result<Option<Answer>, AllocError>
    requires { given_is_typed within.now.definitions rule.now.given ≡ true }
    ensures { IfOk result (λ a. Comes
        (in_walk L.looks walk.old decides_part within.now.definitions within.now.path rule.now)
        walk.old walk.new (or_nothing a)) }
{
    let answer = decided_under(walk, &Path::Root, within.path.as_slice(), rule)?;
    walk.finished(within.definitions.as_slice(), &rule.given, answer)
}

// A rule with a condition that is True, where the keys lead from the end of a path to what the rule stands in.
fn decided_under<L: LookUps>(
    walk: &mut Walk<'_, L>,
    above: &Path<'_>,
    keys: &[DocKey],
    rule: &Rule,
) -> Result<Option<Answer>, AllocError>
    ensures value { IfOk result (λ a. or_nothing a ≡ decided (keys_of above.now ++ keys.now) rule.now True) }
    ensures notes { OnOk result (Adds [] walk.old walk.new) }
{
    match keys.split_first() {
        None => walk.decide(above, rule, Truth::True),
        Some((key, below)) => {
            let here = Path::Below {
                above: &*above,
                kind: key.kind,
                id: &key.id,
                version: &key.version,
            };
            decided_under(walk, &here, below, rule)
        }
    }
}
