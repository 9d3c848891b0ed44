//! Ways of a tree: what was found for what stands at their ends.

ghost use Rattle.std.specs.Prelude.{◌≡◌, [], IfNone, IfOk, IfSome, IsSome, IsTrue, Some, slice_get};
ghost use Rattle.memo_trie.specs.Tree.{AsksAtMost, LeadsAsBefore, key_at, leaf_at};
ghost use Rattle.memo_trie.specs.declared.node.Node.TheVariants.{Ask, Nothing};
ghost use Rattle.memo_bags.specs.declared.finding.About.{About};
ghost use Rattle.memo_bags.specs.Found.{IsAbout};
ghost use Rattle.memo_bags.specs.Ways.{AsksAbout, about_of};
ghost use Rattle.memo_bags.specs.proofs_only.Led.{AsksStill, FindsNext, GoesFree, IsMade, LeadsOn, Stands, StandsAt};
ghost use Rattle.memo_bags.specs.proofs_only.Led.{TellsEnd};
ghost use Rattle.memo_bags.specs.proofs_only.Ready.{AreReady, KeepsReady, in_scene, request_of};

use crate::finding::{About, Finding};
use crate::findings::Findings;
use crate::scene::Scene;
use ent_request::LookUps;
use memo_trie::{Fork, Node, Trie};
use std::alloc::{AllocError, Global};

/// What stands at a place where a way is to go on.
#[derive(Clone, Copy)]
enum Standing {
    /// Nothing yet.
    Nothing,
    /// The question of the way, which didn't find this bag yet.
    Free,
    /// The same, which leads to another place by this bag.
    Leads(usize),
    /// Something else.
    Other,
}

/// What stands at the end of the way of what a request finds, if one leads to an end.
///
/// Its contract leaves open: when it answers `None`, which it may always: its caller then learns what is there.
pub fn seek<L: LookUps>(
    scene: &Scene<'_, L>,
    findings: &mut Findings,
    tree: &Trie<About, usize>,
) -> Result<Option<usize>, AllocError>
    requires ready { AreReady (L.looks scene.now.held.now) scene.now findings.old }
    requires asks { AsksAbout scene.now.questions.now tree.now.nodes.items }
    ensures tells { IfOk result (in_scene L.looks scene.now TellsEnd
        findings.old.bags findings.new.bags (request_of scene.now) tree.now.nodes.items) }
    ensures keeps { KeepsReady (L.looks scene.now.held.now) scene.now findings.old findings.new }
{
    let mut place = 0;
    while let Some(fork) = question(tree, place) {
        match next(scene, findings, fork)? {
            None => return Ok(None),
            Some(further) => place = further,
        }
    }
    Ok(leaf(tree, place))
}

// The question at a place, if one stands there.
fn question(tree: &Trie<About, usize>, place: usize) -> Option<&Fork<About>>
    ensures some { IfSome result (λ f. slice_get tree.now.nodes.items place ≡ Some (Ask f.now)) }
    ensures none { IfNone result ((k : About) → key_at tree.now.nodes.items place ≡ Some k → ⊥) }
{
    match tree.get(place) {
        Some(Node::Ask(fork)) => Some(fork),
        _ => None,
    }
}

// The place to which what a request finds leads from a question, if it leads to one.
fn next<L: LookUps>(
    scene: &Scene<'_, L>,
    findings: &mut Findings,
    fork: &Fork<About>,
) -> Result<Option<usize>, AllocError>
    requires ready { AreReady (L.looks scene.now.held.now) scene.now findings.old }
    requires about { IsAbout scene.now.questions.now fork.now.key.question fork.now.key.place }
    ensures finds { IfOk result
        (in_scene L.looks scene.now FindsNext findings.new.bags (request_of scene.now) fork.now) }
    ensures keeps { KeepsReady (L.looks scene.now.held.now) scene.now findings.old findings.new }
{
    let about = fork.key();
    let bag = findings.bag_of(scene, about.question, about.place)?;
    Ok(fork.branch(bag))
}

// What stands at the end of a way, if a way ends at a place.
fn leaf(tree: &Trie<About, usize>, place: usize) -> Option<usize>
    ensures { result ≡ leaf_at tree.now.nodes.items place }
{
    match tree.get(place) {
        Some(Node::Leaf(number)) => Some(*number),
        _ => None,
    }
}

/// The place to which the way of what was found leads, if nothing stands there yet. The way is made as far as it isn't
/// there; but where something else stands on it, it isn't gone further.
///
/// Its contract leaves open: when it answers `None`, which it may wherever the tree isn't empty; which places are made
/// on the way.
pub fn make_way(
    alloc: Global,
    tree: &mut Trie<About, usize>,
    found: &[Finding],
) -> Result<Option<usize>, AllocError>
    ensures made { IfOk result (λ o. IfSome o (IsMade tree.new.nodes.items found.now)) }
    ensures free { tree.old.nodes.items ≡ [] → IfOk result IsSome }
    ensures leads { LeadsAsBefore tree.old.nodes.items tree.new.nodes.items }
    ensures asks { AsksStill found.now tree.old.nodes.items tree.new.nodes.items }
{
    tree.begin()?;
    let mut place = 0;
    for finding in found {
        match turn(alloc, tree, place, *finding)? {
            None => return Ok(None),
            Some(next) => place = next,
        }
    }
    Ok(free(tree, place))
}

// Goes one turn further on a way, which is made if it isn't there, unless something else stands at the place.
fn turn(
    alloc: Global,
    tree: &mut Trie<About, usize>,
    place: usize,
    finding: Finding,
) -> Result<Option<usize>, AllocError>
    ensures further { IfOk result (λ o. IfSome o
        (LeadsOn tree.old.nodes.items tree.new.nodes.items place finding)) }
    ensures free { IfOk result (GoesFree tree.old.nodes.items tree.new.nodes.items place) }
    ensures leads { LeadsAsBefore tree.old.nodes.items tree.new.nodes.items }
    ensures asks { AsksAtMost (about_of finding) tree.old.nodes.items tree.new.nodes.items }
{
    match at_place(tree, place, finding) {
        Standing::Other => Ok(None),
        Standing::Leads(next) => Ok(Some(next)),
        Standing::Free => Ok(Some(tree.branch(place, finding.bag)?)),
        Standing::Nothing => Ok(Some(tree.ask(alloc, place, finding.about(), finding.bag)?)),
    }
}

// What stands at a place where a way is to go on by what was found.
fn at_place(tree: &Trie<About, usize>, place: usize, finding: Finding) -> Standing
    ensures { Stands tree.now.nodes.items place finding result }
{
    match tree.get(place) {
        Some(Node::Nothing) => Standing::Nothing,
        Some(Node::Ask(fork)) => at_question(fork, finding),
        _ => Standing::Other,
    }
}

// The same of a question there.
fn at_question(fork: &Fork<About>, finding: Finding) -> Standing
    ensures { StandsAt fork.now finding result }
{
    if !is_same(fork.key(), finding) {
        return Standing::Other;
    }
    match fork.branch(finding.bag) {
        None => Standing::Free,
        Some(next) => Standing::Leads(next),
    }
}

// Whether it is the question for which something was found.
fn is_same(about: About, finding: Finding) -> bool
    ensures { IsTrue result → about ≡ about_of finding }
{
    about.question == finding.question && about.place == finding.place
}

// A place, if nothing stands there yet.
fn free(tree: &Trie<About, usize>, place: usize) -> Option<usize>
    ensures some { IfSome result (λ p. (p ≡ place) × (slice_get tree.now.nodes.items place ≡ Some Nothing)) }
    ensures there { slice_get tree.now.nodes.items place ≡ Some Nothing → IsSome result }
{
    match tree.get(place) {
        Some(Node::Nothing) => Some(place),
        _ => None,
    }
}
