//! Tests by the bags that their questions found.

ghost use Rattle.std.specs.Prelude.{◌≡◌, IfOk, IfSome, List, Some, slice_get};
ghost use Rattle.ent_values.specs.Bags.{Contents};
ghost use Rattle.ent_request.specs.Looks.{Looks};
ghost use Rattle.ent_request.specs.Questions.{AreNumbers};
ghost use Rattle.ent_request.specs.declared.question.Question.{Question};
ghost use Rattle.ent_request.specs.declared.request.Request.{Request};
ghost use Rattle.memo_bags.specs.Ways.{AsksAbout};
ghost use Rattle.memo_bags.specs.proofs_only.Led.{AreAbout};
ghost use Rattle.memo_bags.specs.proofs_only.Ready.{AreReady, Begins, KeepsReady, in_scene, request_of};
ghost use Rattle.memo_plan.specs.Heard.{Came};
ghost use Rattle.memo_tests.specs.Tested.{ComesTo, IsTest, Learns};
ghost use Rattle.memo_tests.specs.proofs_only.Leading.{LeadsTo};

use crate::outcome::TestOutcome;
use ent_request::LookUps;
use memo_bags::{About, Finding, Findings, Scene, findings_of, make_way, seek};
use memo_trie::Trie;
use std::alloc::{AllocError, Global};

/// The outcomes of a test, each of which stands at the ends of the ways of what was found for it.
#[derive(Drop)]
pub struct Test {
    pub outcomes: Vec<TestOutcome>,
    pub tree: Trie<About, usize>,
}

impl Test {
    /// Without outcomes, whatever the test is. Nothing is allocated.
    ///
    /// Its contract leaves open: what stands in it: any test without outcomes would do.
    pub fn new(alloc: Global) -> Test
        ensures { (at : Looks) (questions : List Question) (bags : List Contents) (test : Looks → Request → Came)
            → IsTest at questions bags test result }
    {
        Test {
            outcomes: Vec::new(alloc),
            tree: Trie::new(alloc),
        }
    }

    /// The number of the outcome at the end of the way of what a request finds, if one leads there.
    ///
    /// Its contract leaves open: when it answers `None`, which it may always: its caller then evaluates and learns.
    pub fn known<L: LookUps>(
        &self,
        scene: &Scene<'_, L>,
        findings: &mut Findings,
    ) -> Result<Option<usize>, AllocError>
        requires ready { AreReady (L.looks scene.now.held.now) scene.now findings.old }
        requires asks { AsksAbout scene.now.questions.now self.now.tree.nodes.items }
        ensures comes { IfOk result (λ o. IfSome o
            (in_scene L.looks scene.now ComesTo findings.old.bags (request_of scene.now) self.now)) }
        ensures keeps { KeepsReady (L.looks scene.now.held.now) scene.now findings.old findings.new }
    {
        seek(scene, findings, &self.tree)
    }

    /// Learns what the test came to for a request, and gives its number. The others keep theirs, whatever comes.
    ///
    /// Its contract leaves open: which number a new outcome gets, whether it is found again, and what else findings
    /// keep.
    pub fn learn<L: LookUps>(
        &mut self,
        scene: &Scene<'_, L>,
        findings: &mut Findings,
        outcome: TestOutcome,
    ) -> Result<usize, AllocError>
        requires ready { AreReady (L.looks scene.now.held.now) scene.now findings.old }
        requires within { AreNumbers scene.now.questions.now outcome.asked }
        ensures there { IfOk result (λ n. slice_get self.new.outcomes.items n ≡ Some outcome) }
        ensures begins { Begins self.new.outcomes.items self.old.outcomes.items }
        ensures learns { in_scene L.looks scene.now Learns
            findings.old.bags findings.new.bags (request_of scene.now) outcome self.old self.new }
        ensures keeps { KeepsReady (L.looks scene.now.held.now) scene.now findings.old findings.new }
    {
        let found = findings_of(scene, findings, outcome.asked.as_slice())?;
        let number = self.number_of(outcome)?;
        self.lead(scene.alloc, found.as_slice(), number)?;
        Ok(number)
    }

    // The number of an outcome, which is put behind the others if it isn't there.
    fn number_of(&mut self, outcome: TestOutcome) -> Result<usize, AllocError>
        ensures there { IfOk result (λ n. slice_get self.new.outcomes.items n ≡ Some outcome) }
        ensures begins { Begins self.new.outcomes.items self.old.outcomes.items }
        ensures tree { self.new.tree.nodes.items ≡ self.old.tree.nodes.items }
    {
        if let Some(number) = number_among(self.outcomes.as_slice(), &outcome) {
            return Ok(number);
        }
        let number = self.outcomes.len();
        self.outcomes.push(outcome)?;
        Ok(number)
    }

    // Leads the way of what was found to the outcome of a number, unless something else stands on it.
    fn lead(&mut self, alloc: Global, found: &[Finding], number: usize) -> Result<(), AllocError>
        ensures outcomes { self.new.outcomes.items ≡ self.old.outcomes.items }
        ensures leads { LeadsTo found.now number self.old self.new }
    {
        match make_way(alloc, &mut self.tree, found)? {
            None => Ok(()),
            Some(place) => {
                self.tree.end(place, number);
                Ok(())
            }
        }
    }
}

// The number of an outcome among others, if it is found there.
fn number_among(outcomes: &[TestOutcome], outcome: &TestOutcome) -> Option<usize>
    ensures { IfSome result (λ n. slice_get outcomes.now n ≡ Some outcome.now) }
{
    for place in 0..outcomes.len() {
        if outcomes[place].is(outcome) {
            return Some(place);
        }
    }
    None
}
