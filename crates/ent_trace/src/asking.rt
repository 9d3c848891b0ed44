//! The questions that an evaluation asks, each once.

ghost use Rattle.std.specs.Prelude.{◌≡◌, ◌<◌, [], length, slice_get, IfOk, IsTrue, OnErr, OnOk, Some};
ghost use Rattle.std.specs.List.{AllByRecursion, flat_map};
ghost use Rattle.ent_request.specs.Noted.{noted};
ghost use Rattle.ent_request.specs.Questions.{AreNumbers, BeginsWith, at_numbers, with_question};
ghost use Rattle.ent_request.specs.Sources.{asked_of, keys_of};
ghost use Rattle.ent_request.specs.declared.question.Question.TheVariants.{Of, Ref, Root};

use crate::marked::MarkedNumbers;
use ent_policy::{Designator, Reference};
use ent_request::{
    Asked, CURRENT_DATE, CURRENT_DATE_TIME, CURRENT_TIME, Question, Questions, ReadKey, Reads,
    Request, asks_for, entity_of, lacks, same_reference,
};
use ent_values::{DataType, Items};
use indexmap::IndexSet;
use std::alloc::{AllocError, Global};
use std::marker::Model;

/// So many places are kept.
const PLACES: usize = 256;

/// So many bytes of a text's end count in its slot.
const MIXED_BYTES: usize = 4;

/// What a slot is multiplied with for each of them.
const MIXING_FACTOR: usize = 31;

/// An evaluation finds no more questions of earlier ones than these.
const MOST_KEPT: usize = 4096;

// The questions that were asked, each once, in the order in which they were asked first. They are kept as numbers:
// where they stand among questions that were asked of late, also by earlier evaluations. For each slot, that of the
// question's text, there is the number of the one that was asked last: something else may have had the slot since, so
// that it is only where to look first. So is the number that one of them had among the questions of a caller.
#[derive(Drop)]
pub(crate) struct Asking {
    questions: IndexSet<Question>,
    numbers: MarkedNumbers,
    places: Vec<usize>,
    likely: Vec<u32>,
}

impl Model for Asking {
    ghost use Rattle.std.specs.Prelude.{List};
    ghost use Rattle.ent_request.specs.declared.question.Question.{Question};
    ghost use Rattle.ent_request.specs.proofs_only.Numbering.{IsNumbering, at_numbers};

    ghost Value = { List Question };

    ghost view = { λ a. at_numbers a.questions.keys a.numbers };

    ghost invariant = { λ a. IsNumbering a.questions.keys a.numbers };
}

impl Asking {
    // No questions, for which nothing is allocated.
    pub(crate) fn new(alloc: Global) -> Asking
        ensures { result ≡ [] }
    {
        Asking {
            questions: IndexSet::new(alloc),
            numbers: MarkedNumbers::new(alloc),
            places: Vec::new(alloc),
            likely: Vec::new(alloc),
        }
    }

    // None were asked: those of earlier evaluations may be asked again.
    pub(crate) fn begin(&mut self, alloc: Global)
        ensures { self.new ≡ [] }
    {
        self.numbers.begin(alloc);
        if self.questions.len() > MOST_KEPT {
            self.questions = IndexSet::new(alloc);
        }
    }

    // Notes that the root is asked for, if it isn't there yet.
    pub(crate) fn note_root(&mut self, alloc: Global) -> Result<(), AllocError>
        ensures { OnOk result (self.new ≡ with_question self.old Root) }
    {
        self.note(alloc, slot_of(""), Question::Root)
    }

    // The same of which document a reference names.
    pub(crate) fn note_reference(
        &mut self,
        alloc: Global,
        reference: &Reference,
    ) -> Result<(), AllocError>
        ensures { OnOk result (self.new ≡ with_question self.old (Ref reference.now)) }
    {
        let slot = slot_of(reference.id.as_str());
        let number = number_in(&self.places, slot);
        if is_reference(&self.questions, number, reference) {
            self.numbers.note(number)?;
            return Ok(());
        }
        self.note(alloc, slot, Question::Ref(reference.copy(alloc)?))
    }

    // The same of the values of a designator.
    pub(crate) fn note_values(
        &mut self,
        alloc: Global,
        designator: &Designator,
    ) -> Result<(), AllocError>
        ensures { OnOk result (self.new ≡ with_question self.old (Of (asked_of designator.now))) }
    {
        let slot = slot_of(designator.attribute.as_str());
        let number = number_in(&self.places, slot);
        if is_of(&self.questions, number, designator) {
            self.numbers.note(number)?;
            return Ok(());
        }
        self.note(alloc, slot, Question::Of(Asked::of(alloc, designator)?))
    }

    // The same of a question that isn't found by its slot, and is from now on.
    fn note(&mut self, alloc: Global, slot: usize, question: Question) -> Result<(), AllocError>
        ensures { OnOk result (self.new ≡ with_question self.old question) }
    {
        make_places(&mut self.places)?;
        let (number, _) = self.questions.insert_full(question)?;
        self.numbers.note(number)?;
        set_place(&mut self.places, slot, number);
        Ok(())
    }

    // Their numbers among the questions of a caller, who may have given them theirs before.
    pub(crate) fn numbers_among(
        &mut self,
        alloc: Global,
        questions: &mut Questions,
    ) -> Result<Items<u32>, AllocError>
        ensures asked { IfOk result (λ numbers. at_numbers questions.new numbers ≡ self.old) }
        ensures within { IfOk result (AreNumbers questions.new) }
        ensures begins { BeginsWith questions.new questions.old }
        ensures same { self.new ≡ self.old }
    {
        make_likely(&mut self.likely, self.questions.len())?;
        number_all(
            alloc,
            self.questions.as_slice(),
            self.numbers.as_slice(),
            &mut self.likely,
            questions,
        )
    }

    // The keys that are looked up for them, each once.
    pub(crate) fn keys(&self, alloc: Global, request: &Request) -> Result<Reads, AllocError>
        ensures { IfOk result (λ r. r ≡ noted [] (flat_map (keys_of request.now) self.now)) }
    {
        keys_of_all(
            alloc,
            request,
            self.questions.as_slice(),
            self.numbers.as_slice(),
        )
    }
}

// Makes the likely numbers of so many questions.
fn make_likely(likely: &mut Vec<u32>, count: usize) -> Result<(), AllocError> {
    likely.resize(count, 0)
}

// Gives the questions of these numbers numbers among others, and tells which.
fn number_all(
    alloc: Global,
    asked: &[Question],
    numbers: &[usize],
    likely: &mut Vec<u32>,
    questions: &mut Questions,
) -> Result<Items<u32>, AllocError>
    requires { AreNumbers asked.now numbers.now }
    ensures asked { IfOk result (λ ns. at_numbers questions.new ns ≡ at_numbers asked.now numbers.now) }
    ensures within { IfOk result (AreNumbers questions.new) }
    ensures begins { BeginsWith questions.new questions.old }
{
    let mut given = Vec::with_capacity(alloc, numbers.len())?;
    for number in numbers {
        let next = number_one(alloc, &asked[*number], likely.get_mut(*number), questions)?;
        given.push(next)?;
    }
    Ok(Items::from_vec(given))
}

// Gives a question a number among others, where it likely has this one, and notes that.
fn number_one(
    alloc: Global,
    asked: &Question,
    likely: Option<&mut u32>,
    questions: &mut Questions,
) -> Result<u32, AllocError>
    ensures number { IfOk result (λ n. slice_get questions.new n ≡ Some asked.now) }
    ensures ok { OnOk result (questions.new ≡ with_question questions.old asked.now) }
    ensures err { OnErr result (questions.new ≡ questions.old) }
{
    match likely {
        None => questions.note(alloc, asked, 0),
        Some(likely) => {
            let number = questions.note(alloc, asked, *likely)?;
            *likely = number;
            Ok(number)
        }
    }
}

// Makes the places, if they aren't there yet, each of them the first.
fn make_places(places: &mut Vec<usize>) -> Result<(), AllocError> {
    places.resize(PLACES, 0)
}

// The slot of a text: a number made of its end.
fn slot_of(text: &str) -> usize {
    let mut mixed = text.len();
    for byte in text.as_bytes().iter().rev().take(MIXED_BYTES) {
        mixed = mixed.wrapping_mul(MIXING_FACTOR) ^ usize::from(*byte);
    }
    mixed % PLACES
}

// The number in a slot, or the first.
fn number_in(places: &[usize], slot: usize) -> usize {
    match places.get(slot) {
        None => 0,
        Some(number) => *number,
    }
}

// Sets the number in a slot.
fn set_place(places: &mut Vec<usize>, slot: usize, number: usize) {
    if let Some(place) = places.get_mut(slot) {
        *place = number;
    }
}

// Whether a question asks which document a reference names.
fn is_reference(questions: &IndexSet<Question>, number: usize, reference: &Reference) -> bool
    ensures { IsTrue result → slice_get questions.now.keys number ≡ Some (Ref reference.now) }
{
    match questions.get_index(number) {
        Some(Question::Ref(asked)) => same_reference(asked, reference),
        _ => false,
    }
}

// Whether one asks for the values of a designator.
fn is_of(questions: &IndexSet<Question>, number: usize, designator: &Designator) -> bool
    ensures { IsTrue result → slice_get questions.now.keys number ≡ Some (Of (asked_of designator.now)) }
{
    match questions.get_index(number) {
        Some(Question::Of(asked)) => asked.is_of(designator),
        _ => false,
    }
}

// The keys that are looked up for the questions of these numbers, each once.
fn keys_of_all(
    alloc: Global,
    request: &Request,
    questions: &[Question],
    numbers: &[usize],
) -> Result<Reads, AllocError>
    requires { AllByRecursion (λ n. n < length questions.now) numbers.now }
    ensures { IfOk result (λ r. r ≡ noted [] (flat_map (keys_of request.now) (at_numbers questions.now numbers.now))) }
{
    let mut reads = Reads::new(alloc);
    for number in numbers {
        note_keys(alloc, request, &questions[*number], &mut reads)?;
    }
    Ok(reads)
}

// Notes the keys that are looked up for a question.
fn note_keys(
    alloc: Global,
    request: &Request,
    question: &Question,
    reads: &mut Reads,
) -> Result<(), AllocError>
    ensures { OnOk result (reads.new ≡ noted reads.old (keys_of request.now question.now)) }
{
    match question {
        Question::Root => reads.note(ReadKey::Root),
        Question::Ref(reference) => reads.note_reference(alloc, reference),
        Question::Of(asked) => note_attribute(alloc, request, asked, reads),
    }
}

// Notes the key that is looked up for an attribute, if there is one: the request's own values are no look-up.
fn note_attribute(
    alloc: Global,
    request: &Request,
    asked: &Asked,
    reads: &mut Reads,
) -> Result<(), AllocError>
    ensures { OnOk result (reads.new ≡ noted reads.old (keys_of request.now (Of asked.now))) }
{
    let sought = asked.sought();
    if !lacks(request, &sought) {
        return Ok(());
    }
    if asks_for(&sought, CURRENT_DATE, DataType::Date) {
        return reads.note(ReadKey::CurrentDate);
    }
    if asks_for(&sought, CURRENT_TIME, DataType::Time) {
        return reads.note(ReadKey::CurrentTime);
    }
    if asks_for(&sought, CURRENT_DATE_TIME, DataType::DateTime) {
        return reads.note(ReadKey::CurrentDateTime);
    }
    match entity_of(request, asked.category.as_str()) {
        None => Ok(()),
        Some(entity) => reads.note(ReadKey::Attr(asked.key(alloc, entity)?)),
    }
}
