//! The way of a listed request.

ghost use Rattle.std.specs.Prelude.{ℕ, OnOk};
ghost use Rattle.ent_request.specs.Listed.{listed};
ghost use Rattle.ent_request.specs.Questions.{BeginsWith};
ghost use Rattle.memo_bags.specs.proofs_only.Ready.{Begins};
ghost use Rattle.memo_plan.specs.Heard.{Came};
ghost use Rattle.memo_plan.specs.Plan.{IsPlan};
ghost use Rattle.memo_answers.specs.Known.{AreKnown, TellsIn};
ghost use Rattle.memo_answers.specs.Told.{Signs, comes_of};

use crate::signing::Signing;
use crate::tests::EntryTests;
use ent_request::{LookUps, Questions};
use ent_values::Text;
use memo_bags::Findings;
use memo_plan::Entry;
use std::alloc::{AllocError, Global};
use std::mem;

/// Puts the numbers of what the tests of a plan come to for the request of three names in place of what stands in the
/// way. What isn't known of a test yet is learnt. To the rows of the names was turned.
///
/// # Errors
///
/// `AllocError` if memory runs out. What is known is kept, and what was learnt till then.
///
/// Its contract leaves open: which numbers outcomes, bags and questions have that weren't there before, and what else
/// is learnt.
pub fn way_of<L: LookUps>(
    alloc: Global,
    held: &L,
    entries: &[Entry],
    questions: &mut Questions,
    findings: &mut Findings,
    tests: &mut EntryTests,
    person: &Text,
    action: &Text,
    resource: &Text,
    way: &mut Vec<u32>,
) -> Result<(), AllocError>
    requires plan { IsPlan (L.looks held.now) entries.now }
    requires known { AreKnown (L.looks held.now) entries.now person.now action.now resource.now
        questions.old findings.old tests.old.list.items }
    ensures signed { OnOk result (Signs entries.now (TellsIn questions.new tests.new.list.items) way.new.items
        (comes_of entries.now (record {
          looks = L.looks held.now;
          request = listed person.now action.now resource.now;
        }))) }
    ensures known { AreKnown (L.looks held.now) entries.now person.now action.now resource.now
        questions.new findings.new tests.new.list.items }
    ensures questions { BeginsWith questions.new questions.old }
    ensures bags { Begins findings.new.bags findings.old.bags }
    ensures tells { (place n : ℕ) (c : Came) → TellsIn questions.old tests.old.list.items place n c
        → TellsIn questions.new tests.new.list.items place n c }
{
    let mut signing = Signing {
        alloc,
        held,
        entries,
        person,
        action,
        resource,
        request: None,
        questions: mem::replace(questions, Questions::new(alloc)),
        findings: mem::replace(findings, Findings::new(alloc)),
        tests: mem::replace(tests, EntryTests::new(alloc)),
    };
    let signed = signing.sign(way);
    *questions = signing.questions;
    *findings = signing.findings;
    *tests = signing.tests;
    signed
}
