//! What is known of the tests of entries.

ghost use Rattle.std.specs.Prelude.{◌≡◌, ◌<◌, [], IfOk, List, length};
ghost use Rattle.ent_values.specs.Bags.{Contents};
ghost use Rattle.ent_request.specs.Looks.{Looks};
ghost use Rattle.ent_request.specs.Questions.{AreNumbers};
ghost use Rattle.ent_request.specs.declared.question.Question.{Question};
ghost use Rattle.memo_bags.specs.proofs_only.Ready.{AreReady, KeepsReady, in_scene, request_of};
ghost use Rattle.memo_answers.specs.Known.{AreTestsOf};
ghost use Rattle.memo_answers.specs.proofs_only.Learning.{LearnsAt};

use ent_request::LookUps;
use ent_trace::Notebook;
use memo_bags::{Findings, Scene};
use memo_plan::Entry;
use memo_tests::{Test, TestOutcome};
use std::alloc::{AllocError, Global};

/// What is known of the tests of entries, each at the place of its entry.
#[derive(Drop)]
pub struct EntryTests {
    pub list: Vec<Test>,
    pub notebook: Notebook,
    /// How many places their trees have, and how many outcomes they have, in all.
    pub places: usize,
}

impl EntryTests {
    /// Of no entries. Nothing is allocated.
    ///
    /// Its contract leaves open: what it counts of places and outcomes.
    pub fn new(alloc: Global) -> EntryTests
        ensures { result.list.items ≡ [] }
    {
        EntryTests {
            list: Vec::new(alloc),
            notebook: Notebook::new(alloc),
            places: 0,
        }
    }

    /// Of entries, for each a test of which nothing is known, whatever is held.
    ///
    /// # Errors
    ///
    /// `AllocError` if memory runs out.
    ///
    /// Its contract leaves open: how much of each test is there beside that nothing is known of it; what is counted of
    /// places and outcomes.
    pub fn of(alloc: Global, entries: &[Entry]) -> Result<EntryTests, AllocError>
        ensures { (at : Looks) (questions : List Question) (bags : List Contents)
            → IfOk result (λ x. AreTestsOf at questions bags entries.now x.list.items) }
    {
        let mut tests = EntryTests::new(alloc);
        for _ in entries {
            tests.list.push(Test::new(alloc))?;
        }
        Ok(tests)
    }

    // Learns what the test at a place came to for a request, and gives the outcome's number.
    pub(crate) fn learn<L: LookUps>(
        &mut self,
        place: usize,
        scene: &Scene<'_, L>,
        findings: &mut Findings,
        outcome: TestOutcome,
    ) -> Result<usize, AllocError>
        requires there { place < length self.old.list.items }
        requires ready { AreReady (L.looks scene.now.held.now) scene.now findings.old }
        requires within { AreNumbers scene.now.questions.now outcome.asked }
        ensures learns { in_scene L.looks scene.now LearnsAt findings.old.bags findings.new.bags
            (request_of scene.now) outcome self.old.list.items self.new.list.items place result }
        ensures keeps { KeepsReady (L.looks scene.now.held.now) scene.now findings.old findings.new }
    {
        let test = &mut self.list[place];
        let before = size(test);
        let learnt = test.learn(scene, findings, outcome);
        let more = size(test).saturating_sub(before);
        self.places = self.places.saturating_add(more);
        learnt
    }
}

// How many places a test's tree has, and how many outcomes the test has.
fn size(test: &Test) -> usize {
    test.tree.len().saturating_add(test.outcomes.len())
}
