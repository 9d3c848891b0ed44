//! The entries of what the root leads to.

ghost use Rattle.std.specs.Prelude.{◌≡◌, ◌++◌, ◌≤◌, [], ◌∷◌, IfOk, IfSome, IsTrue, OnOk, true};
ghost use Rattle.std.specs.List.{flat_map, list_all};
ghost use Rattle.ent_policy.specs.Children.{as_child};
ghost use Rattle.ent_policy.specs.Depths.{depth};
ghost use Rattle.ent_policy.specs.Typing.{policy_is_typed};
ghost use Rattle.ent_request.specs.Looks.{Looks};
ghost use Rattle.ent_walk.specs.proofs_only.Typed.{is_fit, set_is_fit};
ghost use Rattle.memo_plan.specs.Plan.{IsPlan};
ghost use Rattle.memo_plan.specs.proofs_only.Entries.{AreEntries, child_tests, children_tests, element_entries};
ghost use Rattle.memo_plan.specs.proofs_only.Entries.{named_entries, no_given, policy_tests, reference_tests};
ghost use Rattle.memo_plan.specs.proofs_only.Entries.{rule_entries, set_tests, tree_tests};

use crate::task::{Entry, Item, NamedDocument, TestTask, Within};
use ent_clone::{copied_definitions, copied_rule, copied_target, copied_tree};
use ent_policy::{
    Child, DocKey, GivenExpressions, Kind, Policy, PolicySet, Reference, Rule, Target, Tree,
    Version,
};
use ent_request::LookUps;
use ent_values::{Items, Shared, Text};
use std::alloc::{AllocError, Global};

/// On each path so many references are followed: that of the root, and six more.
const MOST_HOPS: usize = 7;

/// So many entries a plan has at most.
const MOST_ENTRIES: usize = 2048;

/// Why there are no entries.
#[derive(Drop)]
enum NoPlan {
    Memory,
    /// A policy or a set gives something itself.
    Unfit,
}

impl From<AllocError> for NoPlan {
    ghost use Rattle.std.specs.Prelude.{◌≡◌};
    ghost use Rattle.memo_plan.specs.declared.entries.NoPlan.TheVariants.{Memory};

    ghost from_gives = { λ _ e. e ≡ Memory };

    fn from(_: AllocError) -> NoPlan {
        NoPlan::Memory
    }
}

/// The entries of what the root leads to. There are none without a root, where a policy or a set gives something
/// itself, or where they would be more than 2,048.
///
/// # Errors
///
/// `AllocError` if memory runs out.
///
/// Its contract leaves open: when it answers `None`, which it may always: its caller then evaluates; how entries are
/// cut, as long as they list the same tests.
pub fn plan_of<L: LookUps>(alloc: Global, held: &L) -> Result<Option<Items<Entry>>, AllocError>
    ensures { IfOk result (λ plan. IfSome plan (IsPlan (L.looks held.now))) }
{
    let Some(root) = held.root() else {
        return Ok(None);
    };
    match reference_entries(alloc, held, MOST_HOPS, &[], root) {
        Err(NoPlan::Memory) => Err(AllocError),
        Err(NoPlan::Unfit) => Ok(None),
        Ok(entries) => {
            if entries.len() > MOST_ENTRIES {
                return Ok(None);
            }
            Ok(Some(entries))
        }
    }
}

// The entries of a reference, where the path leads from the root to what it stands in, and so many may be followed on
// the way down from here.
#[cycle(entries)]
fn reference_entries<L: LookUps>(
    alloc: Global,
    held: &L,
    hops: usize,
    path: &[DocKey],
    reference: &Reference,
) -> Result<Items<Entry>, NoPlan>
    ensures { IfOk result (AreEntries (L.looks held.now) (reference_tests hops path.now reference.now)) }
{
    if hops == 0 {
        return Ok(Items::new(alloc));
    }
    match held.document(reference) {
        None => named(alloc, reference, None, Items::new(alloc)),
        Some(document) => {
            let below = tree_entries(alloc, held, hops - 1, path, document.tree())?;
            let copy = copied_tree(alloc, document.tree())?;
            named(alloc, reference, Some(copy), below)
        }
    }
}

// Those of a document.
#[cycle(entries)]
fn tree_entries<L: LookUps>(
    alloc: Global,
    held: &L,
    hops: usize,
    path: &[DocKey],
    tree: &Tree,
) -> Result<Items<Entry>, NoPlan>
    requires fit { is_fit (as_child tree.now) ≡ true }
    requires shallow { depth (as_child tree.now) ≤ 16 }
    ensures { IfOk result (AreEntries (L.looks held.now) (tree_tests hops path.now tree.now)) }
{
    match tree {
        Tree::Policy(policy) => policy_entries(alloc, path, policy),
        Tree::Set(set) => set_entries(alloc, held, hops, path, set),
    }
}

// Those of a child.
#[cycle(entries)]
fn child_entries<L: LookUps>(
    alloc: Global,
    held: &L,
    hops: usize,
    path: &[DocKey],
    child: &Child,
) -> Result<Items<Entry>, NoPlan>
    requires { is_fit child.now ≡ true }
    ensures { IfOk result (AreEntries (L.looks held.now) (child_tests hops path.now child.now)) }
{
    match child {
        Child::Policy(policy) => policy_entries(alloc, path, policy),
        Child::Set(set) => set_entries(alloc, held, hops, path, set),
        Child::Reference(reference) => reference_entries(alloc, held, hops, path, reference),
    }
}

// Those of a set.
#[cycle(entries)]
fn set_entries<L: LookUps>(
    alloc: Global,
    held: &L,
    hops: usize,
    path: &[DocKey],
    set: &PolicySet,
) -> Result<Items<Entry>, NoPlan>
    requires { set_is_fit set.now ≡ true }
    ensures { IfOk result (AreEntries (L.looks held.now) (set_tests hops path.now set.now)) }
{
    if !is_nothing(&set.given) {
        return Err(NoPlan::Unfit);
    }
    let here = path_below(alloc, path, Kind::PolicySet, &set.id, &set.version)?;
    let children = set_children(alloc, held, hops, here.as_slice(), set)?;
    element(alloc, &set.target, children)
}

// Those of the children of a set, where the path leads from the root to the set.
#[cycle(entries)]
fn set_children<L: LookUps>(
    alloc: Global,
    held: &L,
    hops: usize,
    path: &[DocKey],
    set: &PolicySet,
) -> Result<Items<Entry>, NoPlan>
    requires { list_all is_fit set.now.children ≡ true }
    ensures { IfOk result (AreEntries (L.looks held.now) (children_tests hops path.now set.now.children)) }
{
    children_entries(alloc, held, hops, path, set.children.as_slice())
}

// Those of children, as many as a plan may have and not many more.
#[cycle(entries)]
fn children_entries<L: LookUps>(
    alloc: Global,
    held: &L,
    hops: usize,
    path: &[DocKey],
    children: &[Child],
) -> Result<Items<Entry>, NoPlan>
    requires { list_all is_fit children.now ≡ true }
    ensures { IfOk result (AreEntries (L.looks held.now) (children_tests hops path.now children.now)) }
{
    let mut entries = Items::new(alloc);
    for child in children {
        if entries.len() > MOST_ENTRIES {
            return Err(NoPlan::Unfit);
        }
        let more = child_entries(alloc, held, hops, path, child)?;
        entries.append(more)?;
    }
    Ok(entries)
}

// Those of a policy.
fn policy_entries(alloc: Global, path: &[DocKey], policy: &Policy) -> Result<Items<Entry>, NoPlan>
    requires { policy_is_typed policy.now ≡ true }
    ensures { (looks : Looks) → IfOk result (AreEntries looks (policy_tests path.now policy.now)) }
{
    if !is_nothing(&policy.given) {
        return Err(NoPlan::Unfit);
    }
    let within = Within {
        definitions: copied_definitions(alloc, policy.variables.as_slice())?,
        path: path_below(alloc, path, Kind::Policy, &policy.id, &policy.version)?,
    };
    let rules = rules_entries(alloc, &Shared::new(alloc, within)?, policy.rules.as_slice())?;
    element(alloc, &policy.target, rules)
}

// Those of rules.
fn rules_entries(
    alloc: Global,
    within: &Shared<Within>,
    rules: &[Rule],
) -> Result<Items<Entry>, AllocError>
    ensures { IfOk result (λ es. es ≡ flat_map (rule_entries within.now) rules.now) }
{
    let mut entries = Items::new(alloc);
    for rule in rules {
        add_rule(alloc, within, rule, &mut entries)?;
    }
    Ok(entries)
}

// Puts those of a rule last.
fn add_rule(
    alloc: Global,
    within: &Shared<Within>,
    rule: &Rule,
    entries: &mut Items<Entry>,
) -> Result<(), AllocError>
    ensures { OnOk result (entries.new ≡ entries.old ++ rule_entries within.now rule.now) }
{
    let rule = Shared::new(alloc, copied_rule(alloc, rule)?)?;
    entries.push(Entry {
        item: Item::Test(TestTask::RuleTarget(rule.copy()?)),
        skip: 2,
    })?;
    entries.push(Entry {
        item: Item::Test(TestTask::Condition(within.copy()?, rule.copy()?)),
        skip: 1,
    })?;
    entries.push(Entry {
        item: Item::Test(TestTask::Decision(within.copy()?, rule)),
        skip: 0,
    })
}

// Those of an element that gives nothing itself, by those of what stands in it.
fn element(alloc: Global, target: &Target, below: Items<Entry>) -> Result<Items<Entry>, NoPlan>
    ensures { IfOk result (λ es. es ≡ element_entries target.now below) }
{
    let mut behind = Items::of_one(
        alloc,
        Entry {
            item: Item::Given,
            skip: 0,
        },
    )?;
    behind.append(below)?;
    let mut entries = Items::of_one(
        alloc,
        Entry {
            item: Item::Test(TestTask::Target(copied_target(alloc, target)?)),
            skip: behind.len(),
        },
    )?;
    entries.append(behind)?;
    Ok(entries)
}

// Those of a reference, by a document that is equal to the one that it names, and the entries of this.
fn named(
    alloc: Global,
    reference: &Reference,
    copy: Option<Tree>,
    below: Items<Entry>,
) -> Result<Items<Entry>, NoPlan>
    ensures { IfOk result (λ es. es ≡ named_entries reference.now copy below) }
{
    let named = NamedDocument {
        reference: reference.copy(alloc)?,
        copy,
    };
    let mut entries = Items::of_one(
        alloc,
        Entry {
            item: Item::Named(Shared::new(alloc, named)?),
            skip: 0,
        },
    )?;
    entries.append(below)?;
    Ok(entries)
}

// The path to what stands in an element.
fn path_below(
    alloc: Global,
    path: &[DocKey],
    kind: Kind,
    id: &Text,
    version: &Version,
) -> Result<Items<DocKey>, AllocError>
    ensures { IfOk result (λ keys. keys ≡ path.now ++ record { kind = kind; id = id.now; version = version.now } ∷ []) }
{
    let mut keys = Items::new(alloc);
    for key in path {
        keys.push(key.copy(alloc)?)?;
    }
    keys.push(DocKey {
        kind,
        id: id.copy(alloc)?,
        version: version.copy(),
    })?;
    Ok(keys)
}

// Whether there is no obligation and no advice.
fn is_nothing(given: &GivenExpressions) -> bool
    ensures { IsTrue result → given.now ≡ no_given }
{
    given.obligations.is_empty() && given.advice.is_empty()
}
