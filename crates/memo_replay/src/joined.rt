//! Answers that are joined of what came of their tests.

ghost use Rattle.std.specs.Prelude.{◌≡◌, [], false, IfOk, IfSome, Some, drop};
ghost use Rattle.memo_bags.specs.proofs_only.Ready.{request_of};
ghost use Rattle.memo_plan.specs.Heard.{came};
ghost use Rattle.memo_answers.specs.Known.{TellsIn};
ghost use Rattle.memo_answers.specs.Told.{Signs};
ghost use Rattle.memo_replay.specs.Joined.{IsJoined};
ghost use Rattle.memo_replay.specs.proofs_only.Stands.{looks_in, questions_of, request_in};

use crate::over::{NotJoined, Over};
use crate::state::{JoinState, Pad};
use ent_policy::Reference;
use ent_request::{Answer, LookUps};
use ent_trace::{MarkedNumbers, Notes, Path};
use ent_values::Items;
use memo_bags::Scene;
use memo_plan::Entry;
use memo_tests::Test;
use std::alloc::{AllocError, Global};
use std::mem;

/// On each path so many references are followed: that of the root, and six more.
const MOST_HOPS: usize = 7;

/// Children stand at most so deep in what is joined: deeper than seven documents lead.
const MOST_DEPTH: usize = 256;

/// An answer, the numbers of the questions that are asked for it, each once, and whether a part of it failed by itself.
#[derive(Drop)]
pub struct Joined {
    pub answer: Answer,
    pub asked: Items<u32>,
    pub failed: bool,
}

/// The answer to a listed request over the document that the root names, joined of the outcomes of tests that a way
/// tells, if it can be.
///
/// # Errors
///
/// `AllocError` if memory runs out.
///
/// Its contract leaves open: when it answers `None`, which it may always: its caller then evaluates. What the pad
/// holds, which no call tells.
pub fn join<L: LookUps>(
    scene: &Scene<'_, L>,
    root: &Reference,
    entries: &[Entry],
    tests: &[Test],
    way: &[u32],
    pad: &mut Pad,
) -> Result<Option<Joined>, AllocError>
    requires root { (L.looks scene.now.held.now).root ≡ Some root.now }
    requires signed { Signs entries.now (TellsIn scene.now.questions.now tests.now) way.now
        (came (L.looks scene.now.held.now) (request_of scene.now)) }
    ensures { IfOk result (λ o. IfSome o
        (IsJoined (L.looks scene.now.held.now) (request_of scene.now) scene.now.questions.now)) }
{
    let over = Over {
        scene,
        entries,
        tests,
        way,
    };
    let mut state = JoinState {
        place: 0,
        at: 0,
        asked: mem::replace(&mut pad.asked, MarkedNumbers::new(scene.alloc)),
        failed: false,
        notes: mem::replace(&mut pad.notes, Notes::unasked(scene.alloc)),
        likely: mem::replace(&mut pad.likely, Vec::new(scene.alloc)),
    };
    state.asked.begin(scene.alloc);
    let came = over.whole(&mut state, root);
    pad.asked = state.asked;
    pad.notes = state.notes;
    pad.likely = state.likely;
    match came {
        Ok(joined) => Ok(Some(joined)),
        Err(NotJoined::Memory) => Err(AllocError),
        Err(NotJoined::Unfit) => Ok(None),
    }
}

impl<L: LookUps> Over<'_, L> {
    // The whole answer.
    fn whole(&self, state: &mut JoinState, root: &Reference) -> Result<Joined, NotJoined>
        requires root { (looks_in L.looks self.now).root ≡ Some root.now }
        requires nothing { state.old.asked ≡ [] }
        requires fine { state.old.failed ≡ false }
        requires signed { Signs self.now.entries.now (TellsIn (questions_of self.now) self.now.tests.now)
            (drop state.old.at self.now.way.now) (came (looks_in L.looks self.now) (request_in self.now)) }
        requires first { (state.old.place ≡ 0) × (state.old.at ≡ 0) }
        ensures { IfOk result
            (IsJoined (looks_in L.looks self.now) (request_in self.now) (questions_of self.now)) }
    {
        let alloc = self.scene.alloc;
        self.ask_root(state)?;
        let answer = self.reference(MOST_DEPTH, state, MOST_HOPS, &Path::Root, root)?;
        let asked = numbers(alloc, state.asked.as_slice())?;
        Ok(Joined {
            answer: answer.unwrap_or(Answer::not_applicable(alloc)),
            asked,
            failed: state.failed,
        })
    }
}

// Numbers in short. One from 2^32 on is refused, as for want of memory.
fn numbers(alloc: Global, asked: &[usize]) -> Result<Items<u32>, AllocError>
    ensures { IfOk result (λ ns. ns ≡ asked.now) }
{
    let mut numbers = Vec::with_capacity(alloc, asked.len())?;
    for number in asked {
        match u32::try_from(*number) {
            Err(_) => return Err(AllocError),
            Ok(short) => numbers.push(short)?,
        }
    }
    Ok(Items::from_vec(numbers))
}
