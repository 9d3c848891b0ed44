//! All faults of a document: the first one, and those of other parts.

ghost use Rattle.std.specs.Prelude.{◌≡◌, ◌++◌, ◌∷◌, ◌||◌, [], Err, IfOk, OnOk, bytes_eq, false, map};
ghost use Rattle.std.specs.Prelude.{not, string_bytes, true};
ghost use Rattle.std.specs.List.{list_any};
ghost use Rattle.ent_polform.specs.Form.{document_of};
ghost use Rattle.lint_places.specs.Faults.{AreFaults, LeadsToOne, TellsEach, faulty, has_inside, is_looked_into};
ghost use Rattle.lint_places.specs.Faults.{is_told_at};
ghost use Rattle.lint_places.specs.Places.{IsSmallest, has_fault, inside, whole};
ghost use Rattle.lint_places.specs.proofs_only.Walk.{Keeps, TellsMore};
ghost use Rattle.lint_places.specs.Views.{fault_at, faults_in, spot_of};

use crate::faulty::is_fault;
use crate::own::{Faulty, is_inside};
use crate::place::{Place, place_of};
use ent_json::JsonTree;
use ent_policy::DocFault;
use std::alloc::{AllocError, Global};

/// The most faults of a document that are told.
pub const MOST_FAULTS: usize = 100;

/// The most JSON values that are judged in search of faults behind the first, each as often as it is judged.
const MOST_JUDGED: usize = 500_000;

/// The faults of a document that were found.
#[derive(Drop)]
pub struct Faults<'a, J> {
    /// What they are, and where they stand: the first one before the others, which come in the order of the form.
    pub places: Vec<Faulty<'a, J>>,
    /// Whether the search ended before it came to the end of the document, so that there may be more.
    pub is_cut: bool,
    /// How many values may still be judged.
    left: usize,
}

/// Whether a fault is told at that pointer.
fn is_told<J: JsonTree>(told: &[Faulty<'_, J>], pointer: &str) -> bool
    ensures { result ≡ list_any (λ x. bytes_eq (string_bytes x.place.pointer) pointer.now) told.now }
{
    told.iter()
        .any(|each| each.place.pointer.as_str() == pointer)
}

impl<'a, J: JsonTree> Faults<'a, J> {
    /// One fault, behind which nothing was judged.
    fn of_one(
        alloc: Global,
        fault: DocFault,
        place: Place<'a, J>,
    ) -> Result<Faults<'a, J>, AllocError>
        ensures { IfOk result (λ a. faults_in J.content a ≡ (fault, spot_of J.content place.entry) ∷ []) }
    {
        let mut places = Vec::new(alloc);
        places.push(Faulty { fault, place })?;
        Ok(Faults {
            places,
            is_cut: false,
            left: MOST_JUDGED,
        })
    }

    /// Whether what stands inside of a place may be judged; where it may, it counts as judged.
    fn may_judge(&mut self, alloc: Global, place: &Place<'a, J>) -> Result<bool, AllocError>
        ensures places { OnOk result (self.new.places ≡ self.old.places) }
        ensures cut { IfOk result (λ may. self.new.is_cut ≡ (self.old.is_cut || not may)) }
    {
        let cost = place.cost_inside(alloc)?;
        if self.places.len() >= MOST_FAULTS || cost > self.left {
            self.is_cut = true;
            return Ok(false);
        }
        self.left -= cost;
        Ok(true)
    }

    /// Puts a fault and its place last.
    fn add(
        &mut self,
        alloc: Global,
        fault: DocFault,
        place: &Place<'a, J>,
    ) -> Result<(), AllocError>
        ensures added { OnOk result (faults_in J.content self.new
            ≡ faults_in J.content self.old ++ (fault, spot_of J.content place.now) ∷ []) }
        ensures cut { self.new.is_cut ≡ self.old.is_cut }
    {
        let place = place.unmarked(alloc)?;
        self.places.push(Faulty { fault, place })?;
        Ok(())
    }

    /// Tells a fault at the smallest part that has it, unless one is told there already.
    fn tell(
        &mut self,
        alloc: Global,
        fault: DocFault,
        place: &Place<'a, J>,
    ) -> Result<(), AllocError>
        requires { IsSmallest fault (spot_of J.content place.now) (spot_of J.content place.now) }
        ensures right { OnOk result (Keeps (spot_of J.content place.now)
            (faults_in J.content self.old) (faults_in J.content self.new)) }
        ensures more { OnOk result (TellsMore (faults_in J.content self.old) (faults_in J.content self.new)) }
        ensures here { OnOk result (is_told_at (faults_in J.content self.new)
            (spot_of J.content place.now).pointer ≡ true) }
        ensures cut { self.new.is_cut ≡ self.old.is_cut }
    {
        let told = self.places.as_slice();
        let pointer = place.pointer.as_str();
        if is_told(told, pointer) {
            return Ok(());
        }
        self.add(alloc, fault, place)?;
        Ok(())
    }

    /// Tells the fault of a place, unless one of the parts inside of it has it. Gives whether what is inside of these is
    /// to be looked into: not where the place can't be read.
    fn tell_here(
        &mut self,
        alloc: Global,
        fault: DocFault,
        place: &Place<'a, J>,
        parts: &[Faulty<'a, J>],
    ) -> Result<bool, AllocError>
        requires faulty { has_fault fault (spot_of J.content place.now) ≡ true }
        requires parts { map (fault_at J.content) parts.now ≡ faulty (inside (spot_of J.content place.now)) }
        ensures right { OnOk result (Keeps (spot_of J.content place.now)
            (faults_in J.content self.old) (faults_in J.content self.new)) }
        ensures more { OnOk result (TellsMore (faults_in J.content self.old) (faults_in J.content self.new)) }
        ensures here { OnOk result (has_inside (fault, spot_of J.content place.now) ≡ false
            → is_told_at (faults_in J.content self.new) (spot_of J.content place.now).pointer ≡ true) }
        ensures into { IfOk result (λ into. into ≡ is_looked_into (fault, spot_of J.content place.now)) }
        ensures cut { self.new.is_cut ≡ self.old.is_cut }
    {
        if is_inside(parts, fault) {
            return Ok(true);
        }
        self.tell(alloc, fault, place)?;
        Ok(!is_fault(DocFault::Form, Some(fault)))
    }
}

/// Tells the faults of a place that has one, and of the parts inside of it.
fn walk<'a, J: JsonTree>(
    alloc: Global,
    fault: DocFault,
    place: &Place<'a, J>,
    faults: &mut Faults<'a, J>,
) -> Result<(), AllocError>
    requires { has_fault fault (spot_of J.content place.now) ≡ true }
    ensures right { OnOk result (Keeps (spot_of J.content place.now)
        (faults_in J.content faults.old) (faults_in J.content faults.new)) }
    ensures more { OnOk result (TellsMore (faults_in J.content faults.old) (faults_in J.content faults.new)) }
    ensures cut { OnOk result (faults.old.is_cut ≡ true → faults.new.is_cut ≡ true) }
    ensures each { OnOk result (faults.new.is_cut ≡ false
        → TellsEach (fault, spot_of J.content place.now) (faults_in J.content faults.new)) }
{
    if !faults.may_judge(alloc, place)? {
        return Ok(());
    }
    let parts = place.faulty_inside(alloc)?;
    if !faults.tell_here(alloc, fault, place, parts.as_slice())? {
        return Ok(());
    }
    for part in &parts {
        walk(alloc, part.fault, &part.place, faults)?;
    }
    Ok(())
}

/// Where the first fault of a document stands, and then others that parts of it have by themselves: of each part that can
/// be read those of the parts inside of it, as far as they have other faults than the variable definitions around them.
/// At most `MOST_FAULTS` are told, and so much is judged at most that the search ends soon; where it isn't cut, none is
/// left out.
///
/// # Errors
///
/// `AllocError` if memory runs out.
///
/// Its contract leaves open: which faults are told behind the first, and in which order, where the search was cut;
/// whether it is cut.
pub fn places_of<'a, J: JsonTree>(
    alloc: Global,
    json: &'a J,
    fault: DocFault,
) -> Result<Faults<'a, J>, AllocError>
    requires { document_of (J.content json.now) ≡ Err fault }
    ensures right { IfOk result (λ a. AreFaults fault (J.content json.now) (faults_in J.content a)) }
    ensures each { IfOk result (λ a. a.is_cut ≡ false
        → TellsEach (fault, whole (J.content json.now)) (faults_in J.content a)) }
{
    let first = place_of(alloc, json, fault)?;
    let mut faults = Faults::of_one(alloc, fault, first)?;
    walk(alloc, fault, &Place::whole(alloc, json), &mut faults)?;
    Ok(faults)
}

/// There is one place that is told first of a fault of a document.
pub fn leads_to_one()
    ensures { LeadsToOne }
{}
