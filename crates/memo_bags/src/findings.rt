//! What questions find for the names of listed requests.

ghost use Rattle.std.specs.Prelude.{◌≡◌, List, IfNone, IfOk, IfSome, None, OnOk, Some, slice_get};
ghost use Rattle.std.specs.List.{IsDistinct};
ghost use Rattle.ent_values.specs.Same.{same_bag};
ghost use Rattle.ent_request.specs.Looks.{Looks};
ghost use Rattle.memo_bags.specs.Findings.{AreFindings};
ghost use Rattle.memo_bags.specs.Found.{FindsBag, HaveSameOthers, IsAbout, bag_in};
ghost use Rattle.memo_bags.specs.Found as places;
ghost use Rattle.memo_bags.specs.proofs_only.Ready.{AreAt, AreReady, AreRows, Begins, FindsForName};
ghost use Rattle.memo_bags.specs.proofs_only.Ready.{IsAt, KeepsReady, in_scene, request_of};
ghost use Rattle.ent_request.specs.declared.question.Question.{Question};

use crate::bags::Bags;
use crate::names::NameRows;
use crate::scene::Scene;
use ent_request::readers::is_own;
use ent_request::{
    ACCESS_SUBJECT, ACTION, Asked, LookUps, NamePlace, Question, Questions, RESOURCE,
};
use ent_values::{Bag, Text, Value};
use std::alloc::{AllocError, Global};

/// The bags that were found, and which of them each question found for each name.
#[derive(Drop)]
pub struct Findings {
    pub bags: Bags,
    pub people: NameRows,
    pub actions: NameRows,
    pub resources: NameRows,
}

impl Findings {
    /// Nothing was found, for which nothing is allocated.
    ///
    /// Its contract leaves open: what stands in it: any in which nothing was found would do.
    pub fn new(alloc: Global) -> Findings
        ensures { (looks : Looks) (questions : List Question) → AreFindings looks questions result }
    {
        Findings {
            bags: Bags::new(alloc),
            people: NameRows::new(alloc),
            actions: NameRows::new(alloc),
            resources: NameRows::new(alloc),
        }
    }

    /// Forgets what was found for a name, wherever it stands. Bags keep their numbers.
    ///
    /// Its contract leaves open: how much it forgets beside what was found for the name. The bags are said.
    pub fn forget_name(&mut self, name: &Text)
        ensures kept { (before after : Looks) (questions : List Question)
            → HaveSameOthers name.now before after
            → AreFindings before questions self.old → AreFindings after questions self.new }
        ensures bags { self.new.bags ≡ self.old.bags }
    {
        self.people.forget(name);
        self.actions.forget(name);
        self.resources.forget(name);
    }

    /// How many names there are.
    ///
    /// Its contract leaves open: all of it: it tells how much is kept, by which a caller forgets.
    pub fn names(&self) -> usize {
        let people = self.people.rows.len();
        let actions = self.actions.rows.len();
        people
            .saturating_add(actions)
            .saturating_add(self.resources.rows.len())
    }

    /// Forgets what was found for names. Bags keep their numbers.
    ///
    /// Its contract leaves open: nothing that a call tells: what was found for a name is found again. The bags are
    /// said.
    pub fn forget_names(&mut self, alloc: Global)
        ensures kept { (looks : Looks) (other : Looks) (questions : List Question)
            → AreFindings looks questions self.old → AreFindings other questions self.new }
        ensures bags { self.new.bags ≡ self.old.bags }
    {
        self.people = NameRows::new(alloc);
        self.actions = NameRows::new(alloc);
        self.resources = NameRows::new(alloc);
    }

    /// Turns to the rows of a scene's names.
    ///
    /// Its contract leaves open: what is kept of other names. The bags are said.
    pub fn turn_to<L>(&mut self, scene: &Scene<'_, L>) -> Result<(), AllocError>
        ensures at { OnOk result (AreAt scene.now self.new) }
        ensures kept { (looks : Looks) (questions : List Question)
            → AreFindings looks questions self.old → AreFindings looks questions self.new }
        ensures bags { self.new.bags ≡ self.old.bags }
    {
        self.people.turn_to(scene.alloc, scene.person)?;
        self.actions.turn_to(scene.alloc, scene.action)?;
        self.resources.turn_to(scene.alloc, scene.resource)
    }

    /// The number of the bag that a question finds which is about the name at a place. The names were turned to.
    ///
    /// Its contract leaves open: which number a bag has that wasn't there, or that is there twice, and what else is
    /// kept.
    pub(crate) fn bag_of<L: LookUps>(
        &mut self,
        scene: &Scene<'_, L>,
        question: u32,
        place: NamePlace,
    ) -> Result<u32, AllocError>
        requires ready { AreReady (L.looks scene.now.held.now) scene.now self.old }
        requires about { IsAbout scene.now.questions.now question place }
        ensures found { IfOk result
            (in_scene L.looks scene.now FindsBag self.new.bags (request_of scene.now) question) }
        ensures keeps { KeepsReady (L.looks scene.now.held.now) scene.now self.old self.new }
    {
        let bags = &mut self.bags;
        match place {
            NamePlace::Person => find(scene, bags, &mut self.people, scene.person, question, place),
            NamePlace::Action => find(
                scene,
                bags,
                &mut self.actions,
                scene.action,
                question,
                place,
            ),
            NamePlace::Resource => find(
                scene,
                bags,
                &mut self.resources,
                scene.resource,
                question,
                place,
            ),
        }
    }
}

// The same among the names at the place.
fn find<L: LookUps>(
    scene: &Scene<'_, L>,
    bags: &mut Bags,
    names: &mut NameRows,
    name: &Text,
    question: u32,
    place: NamePlace,
) -> Result<u32, AllocError>
    requires rows { in_scene L.looks scene.now AreRows bags.old place names.old }
    requires at { IsAt names.old name.now }
    requires about { IsAbout scene.now.questions.now question place }
    requires distinct { IsDistinct same_bag bags.old }
    ensures found { IfOk result (in_scene L.looks scene.now FindsForName bags.new place name.now question) }
    ensures rows { in_scene L.looks scene.now AreRows bags.new place names.new }
    ensures at { IsAt names.new name.now }
    ensures begins { Begins bags.new bags.old }
    ensures distinct { IsDistinct same_bag bags.new }
{
    if let Some(bag) = names.known(question) {
        return Ok(bag);
    }
    match scene.questions.get(question) {
        Some(Question::Of(asked)) => {
            let found = look_up(scene, asked, name)?;
            let bag = bags.number_of(found)?;
            names.learn(question, bag)?;
            Ok(bag)
        }
        _ => unreachable!(),
    }
}

// What is asked about a name finds this for it.
fn look_up<L: LookUps>(scene: &Scene<'_, L>, asked: &Asked, name: &Text) -> Result<Bag, AllocError>
    ensures { IfOk result (λ b. b ≡ bag_in (L.looks scene.now.held.now) asked.now name.now) }
{
    let key = asked.key(scene.alloc, name)?;
    if is_own(&key) {
        return Bag::of_one(scene.alloc, Value::Text(name.copy(scene.alloc)?));
    }
    let mut bag = Bag::new(scene.alloc, asked.datatype);
    scene.held.values(&key, &mut bag)?;
    Ok(bag)
}

// The name of listed requests that the question of a number is about, if it is about one.
pub(crate) fn place_of(questions: &Questions, number: u32) -> Option<NamePlace>
    ensures some { IfSome result (IsAbout questions.now number) }
    ensures none { IfNone result ((x : Question) → slice_get questions.now number ≡ Some x → places.place_of x ≡ None) }
{
    match questions.get(number) {
        Some(Question::Of(asked)) => place_in(asked.category.as_str()),
        _ => None,
    }
}

// The name that a category is of.
fn place_in(category: &str) -> Option<NamePlace>
    ensures { result ≡ places.place_in category.now }
{
    if category == ACCESS_SUBJECT {
        Some(NamePlace::Person)
    } else if category == RESOURCE {
        Some(NamePlace::Resource)
    } else if category == ACTION {
        Some(NamePlace::Action)
    } else {
        None
    }
}
