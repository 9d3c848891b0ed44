//! The decision point.

ghost use Rattle.std.specs.Prelude.{◌≡◌, ◌+◌, ◌-◌, ◌^◌, min, IfOk, OnOk};
ghost use Rattle.std.specs.Borrow.{sem};
ghost use Rattle.ent_walk.specs.Answer.{answer, answer_part, causes_told, recorded};
ghost use Rattle.ent_eval.specs.Lending.{LendsAttributes, LendsPolicies};
ghost use Rattle.ent_eval.specs.LooksOf.{looks_of};
ghost use Rattle.ent_trace.specs.proofs_only.Noted.{noting};
ghost use Rattle.ent_request.specs.Questions.{BeginsWith};
ghost use Rattle.ent_eval.specs.Point.{point_of};
ghost use Rattle.ent_eval.specs.Evaluated.{IsEvaluated};

use ent_finder::{AttrKey, AttributeFinder, Attributes, Policies, PolicyFinder};
use ent_policy::{Document, Reference};
use ent_request::{Answer, Cause, Environment, LookUps, Questions, Reads, Request};
use ent_trace::{Notebook, Notes};
use ent_values::{Bag, Date, DateTime, Items, Shared, Time, Value};
use ent_walk::Walk;
use std::alloc::{AllocError, Global};
use std::marker::Model;
use std::mem;

/// Answers requests by the documents that its policies hold, from the root on, by the values that its attributes hold,
/// and by what is known of the time, and counts the evaluations.
#[derive(Drop)]
pub struct Pdp<A: Attributes = AttributeFinder, P: Policies = PolicyFinder> {
    alloc: Global,
    attributes: A,
    policies: P,
    root: Option<Reference>,
    environment: Environment,
    evaluations: u128,
    notebook: Notebook,
}

/// The answer to a request, and the look-ups that it rests on.
#[derive(Drop)]
pub struct Evaluation {
    pub answer: Answer,
    pub reads: Reads,
}

/// The answer to a listed request, the numbers of the questions that were asked for it, and whether a part of it failed
/// by itself. The first two have as many owners as there are requests that were found to have the same.
#[derive(Drop)]
pub struct ListedEvaluation {
    pub answer: Shared<Answer>,
    pub asked: Shared<Items<u32>>,
    pub failed: bool,
}

/// The answer to a request, the look-ups that it rests on, and the parts that failed by themselves.
#[derive(Drop)]
pub struct Explained {
    pub answer: Answer,
    pub reads: Reads,
    pub causes: Items<Cause>,
}

impl<A: Attributes, P: Policies> Model for Pdp<A, P> {
    ghost use Rattle.ent_eval.specs.Point.{Point};
    ghost use Rattle.ent_eval.specs.proofs_only.Codes.{point_code};

    ghost Value = { Point };

    ghost coded = { point_code };

    ghost view = { λ p. record {
      sources = A.sources p.attributes;
      slots = P.slots p.policies;
      root = p.root;
      environment = p.environment;
      evaluations = p.evaluations;
    } };
}

impl<A: Attributes, P: Policies> LookUps for Pdp<A, P> {
    ghost looks = { looks_of };

    fn root(&self) -> &Option<Reference> {
        &self.root
    }

    fn document(&self, reference: &Reference) -> Option<&Document> {
        let (_, document) = self.policies.resolve(reference)?;
        Some(document)
    }

    fn values(&self, key: &AttrKey, bag: &mut Bag) -> Result<(), AllocError> {
        self.attributes.look(key, bag)
    }

    fn sole(&self, key: &AttrKey) -> Option<&[Value]> {
        self.attributes.sole(key)
    }

    fn date(&self) -> Option<Date> {
        self.environment.date()
    }

    fn time(&self) -> Option<Time> {
        self.environment.time()
    }

    fn date_time(&self) -> Option<DateTime> {
        self.environment.date_time()
    }
}

impl<A: Attributes, P: Policies> Pdp<A, P> {
    /// A decision point over these values of attributes and the documents of these policies, without a root, where
    /// nothing is known of the time. Nothing is allocated.
    ///
    /// Its contract is an equation.
    pub fn new(alloc: Global, attributes: A, policies: P) -> Pdp<A, P>
        ensures { result ≡ point_of (A.sources attributes) (P.slots policies) }
    {
        Pdp {
            alloc,
            attributes,
            policies,
            root: None,
            environment: Environment::Empty,
            evaluations: 0,
            notebook: Notebook::new(alloc),
        }
    }

    /// The answer to a request (section 7), and the look-ups that it rests on, each once.
    ///
    /// On each path from the root at most six references are followed. One more, or one that finds no document, is
    /// Indeterminate (section 7.15).
    ///
    /// Each call counts, also one that is refused for want of memory. It changes nothing but the count.
    ///
    /// Its contract is an equation but for memory.
    pub fn evaluate(&mut self, request: &Request) -> Result<Evaluation, AllocError>
        ensures answer { IfOk result (λ e. e.answer ≡ answer (looks_of self.old) request.now) }
        ensures reads { IfOk result (λ e. e.reads ≡ recorded (looks_of self.old) request.now) }
        ensures counted { self.new.evaluations ≡ min (self.old.evaluations + 1) (2 ^ 128 - 1) }
        ensures rest { self.new ≡ record self.old { evaluations = self.new.evaluations } }
    {
        let mut notes = self.notebook.open(self.alloc, true, false);
        let answer = self.answered(&mut notes, request)?;
        let reads = notes.reads(self.alloc, request)?;
        self.notebook.close(notes);
        Ok(Evaluation { answer, reads })
    }

    /// The same, and the causes: the parts that came to Indeterminate by themselves, each once. That of an
    /// Indeterminate answer stands first, whose status it is (section 5.55), and the others in the order of evaluation.
    /// A part that isn't evaluated has none, and that of a child is told whatever its parent decides.
    ///
    /// Its contract is an equation but for memory.
    pub fn explain(&mut self, request: &Request) -> Result<Explained, AllocError>
        ensures answer { IfOk result (λ e. e.answer ≡ answer (looks_of self.old) request.now) }
        ensures reads { IfOk result (λ e. e.reads ≡ recorded (looks_of self.old) request.now) }
        ensures causes { IfOk result (λ e. e.causes ≡ causes_told (looks_of self.old) request.now) }
        ensures counted { self.new.evaluations ≡ min (self.old.evaluations + 1) (2 ^ 128 - 1) }
        ensures rest { self.new ≡ record self.old { evaluations = self.new.evaluations } }
    {
        let mut notes = self.notebook.open(self.alloc, true, true);
        let answer = self.answered(&mut notes, request)?;
        let reads = notes.reads(self.alloc, request)?;
        let causes = notes.take_causes(self.alloc)?;
        self.notebook.close(notes);
        Ok(Explained {
            answer,
            reads,
            causes,
        })
    }

    /// The same of a listed one, with the numbers of its questions among those of the caller. One that has none there
    /// gets one; the others keep theirs, whatever comes. It isn't counted.
    ///
    /// Its contract leaves open: which numbers new questions get.
    pub fn evaluate_numbered(
        &mut self,
        questions: &mut Questions,
        request: &Request,
    ) -> Result<ListedEvaluation, AllocError>
        ensures evaluated { IfOk result
            (IsEvaluated (looks_of self.old) questions.new request.now) }
        ensures numbers { BeginsWith questions.new questions.old }
        ensures rest { self.new ≡ self.old }
    {
        let mut notes = self.notebook.open(self.alloc, true, false);
        let answer = self.walked(&mut notes, request)?;
        let failed = notes.has_failed();
        let numbers = notes.numbers_among(self.alloc, questions)?;
        self.notebook.close(notes);
        let asked = Shared::new(self.alloc, numbers)?;
        let answer = Shared::new(self.alloc, answer)?;
        Ok(ListedEvaluation {
            answer,
            asked,
            failed,
        })
    }

    /// The answer alone, for which no look-up is recorded. For the rest it is as `evaluate`.
    ///
    /// Its contract is an equation but for memory.
    pub fn answer(&mut self, request: &Request) -> Result<Answer, AllocError>
        ensures answer { IfOk result (λ a. a ≡ answer (looks_of self.old) request.now) }
        ensures counted { self.new.evaluations ≡ min (self.old.evaluations + 1) (2 ^ 128 - 1) }
        ensures rest { self.new ≡ record self.old { evaluations = self.new.evaluations } }
    {
        let mut notes = self.notebook.open(self.alloc, false, false);
        let answer = self.answered(&mut notes, request)?;
        self.notebook.close(notes);
        Ok(answer)
    }

    /// Counts an evaluation that is made by what it holds.
    ///
    /// Its contract is an equation.
    pub fn count(&mut self)
        ensures { self.new ≡ record self.old { evaluations = min (self.old.evaluations + 1) (2 ^ 128 - 1) } }
    {
        self.evaluations = raised(self.evaluations);
    }

    // The answer, which is counted, and its questions, which are noted where they are asked for.
    fn answered(&mut self, notes: &mut Notes, request: &Request) -> Result<Answer, AllocError>
        ensures answer { IfOk result (λ a. a ≡ answer (looks_of self.old) request.now) }
        ensures notes { OnOk result (notes.new
            ≡ noting notes.old (answer_part (looks_of self.old) request.now).notes) }
        ensures counted { self.new.evaluations ≡ min (self.old.evaluations + 1) (2 ^ 128 - 1) }
        ensures rest { self.new ≡ record self.old { evaluations = self.new.evaluations } }
    {
        self.count();
        self.walked(notes, request)
    }

    // The same, which isn't counted.
    fn walked(&self, notes: &mut Notes, request: &Request) -> Result<Answer, AllocError>
        ensures answer { IfOk result (λ a. a ≡ answer (looks_of self.now) request.now) }
        ensures notes { OnOk result (notes.new
            ≡ noting notes.old (answer_part (looks_of self.now) request.now).notes) }
    {
        let noted = mem::replace(notes, Notes::unasked(self.alloc));
        let mut walk = Walk::over(self.alloc, self, request, noted);
        let came = walk.answer();
        *notes = walk.notes;
        came
    }

    /// How many times `evaluate`, `explain`, `answer` or `count` was called. The count stays at its greatest value.
    ///
    /// Its contract is an equation.
    pub fn evaluations(&self) -> u128
        ensures { result ≡ self.now.evaluations }
    {
        self.evaluations
    }

    /// The root, if there is one.
    ///
    /// Its contract is an equation.
    pub fn root(&self) -> &Option<Reference>
        ensures { result.now ≡ self.now.root }
    {
        &self.root
    }

    /// What is known of the time.
    ///
    /// Its contract is an equation.
    pub fn environment(&self) -> Environment
        ensures { result ≡ self.now.environment }
    {
        self.environment
    }

    /// Where the values of attributes are held.
    ///
    /// Its contract is an equation.
    pub fn attributes(&self) -> &A
        ensures { A.sources result.now ≡ self.now.sources }
    {
        &self.attributes
    }

    /// Where the documents are held.
    ///
    /// Its contract is an equation.
    pub fn policies(&self) -> &P
        ensures { P.slots result.now ≡ self.now.slots }
    {
        &self.policies
    }

    /// Lends where the values of attributes are held. Nothing else is changed through it.
    ///
    /// Its contract leaves open: nothing that a caller doesn't write: the loan says of what comes back that only the
    /// sources are others.
    pub fn attributes_mut(&mut self) -> &mut A
        ensures* lends { sem 𝓛
            (LendsAttributes A.row P.row ⟦<A as Attributes>⟧ ⟦<P as Policies>⟧ self.entry result) }
        ensures value { A.sources result.now ≡ self.old.sources }
    {
        &mut self.attributes
    }

    /// Lends where the documents are held. Nothing else is changed through it.
    ///
    /// Its contract leaves open: nothing that a caller doesn't write: the loan says of what comes back that only the
    /// slots are others.
    pub fn policies_mut(&mut self) -> &mut P
        ensures* lends { sem 𝓛
            (LendsPolicies A.row P.row ⟦<A as Attributes>⟧ ⟦<P as Policies>⟧ self.entry result) }
        ensures value { P.slots result.now ≡ self.old.slots }
    {
        &mut self.policies
    }

    /// Sets the root, and gives the old one back. It takes no memory.
    ///
    /// Its contract is an equation.
    pub fn set_root(&mut self, root: Option<Reference>) -> Option<Reference>
        ensures old { result ≡ self.old.root }
        ensures new { self.new ≡ record self.old { root = root } }
    {
        mem::replace(&mut self.root, root)
    }

    /// Sets what is known of the time, and gives back what was. It takes no memory.
    ///
    /// Its contract is an equation.
    pub fn set_environment(&mut self, environment: Environment) -> Environment
        ensures old { result ≡ self.old.environment }
        ensures new { self.new ≡ record self.old { environment = environment } }
    {
        mem::replace(&mut self.environment, environment)
    }
}

// A count of evaluations, one higher, or at its greatest.
fn raised(count: u128) -> u128
    ensures { result ≡ min (count + 1) (2 ^ 128 - 1) }
{
    count.saturating_add(1)
}
