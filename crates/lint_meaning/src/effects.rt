//! The effects that policies and sets may give.

ghost use Rattle.std.specs.Prelude.{◌≡◌};
ghost use Rattle.lint_meaning.specs.Effects.{both, either, may_give, neither, only, policy_effects, set_unless, unless};

use ent_combine::{PolicyAlg, RuleAlg};
use ent_policy::{Effect, Policy};

/// Which effects a part may give.
#[derive(Clone, Copy, PartialEq, Eq)]
pub(crate) struct Effects {
    pub(crate) permit: bool,
    pub(crate) deny: bool,
}

impl Effects {
    /// Neither.
    pub(crate) fn neither() -> Effects
        ensures { result ≡ neither }
    {
        Effects {
            permit: false,
            deny: false,
        }
    }

    /// Both.
    pub(crate) fn both() -> Effects
        ensures { result ≡ both }
    {
        Effects {
            permit: true,
            deny: true,
        }
    }

    /// This one alone.
    fn only(effect: Effect) -> Effects
        ensures { result ≡ only effect }
    {
        match effect {
            Effect::Permit => Effects {
                permit: true,
                deny: false,
            },
            Effect::Deny => Effects {
                permit: false,
                deny: true,
            },
        }
    }

    /// Those of two parts.
    pub(crate) fn or(self, other: Effects) -> Effects
        ensures { result ≡ either self other }
    {
        Effects {
            permit: self.permit || other.permit,
            deny: self.deny || other.deny,
        }
    }

    /// Whether an effect is among them.
    pub(crate) fn may_give(self, effect: Effect) -> bool
        ensures { result ≡ may_give self effect }
    {
        match effect {
            Effect::Permit => self.permit,
            Effect::Deny => self.deny,
        }
    }
}

/// What an algorithm gives where nothing decides.
fn unless(algorithm: RuleAlg) -> Effects
    ensures { result ≡ unless algorithm }
{
    match algorithm {
        RuleAlg::DenyUnlessPermit => Effects::only(Effect::Deny),
        RuleAlg::PermitUnlessDeny => Effects::only(Effect::Permit),
        _ => Effects::neither(),
    }
}

/// What an algorithm of policies and sets gives where nothing decides.
pub(crate) fn set_unless(algorithm: PolicyAlg) -> Effects
    ensures { result ≡ set_unless algorithm }
{
    match algorithm {
        PolicyAlg::Shared(shared) => unless(shared),
        PolicyAlg::OnlyOne => Effects::neither(),
    }
}

/// The effects that a policy may give.
pub(crate) fn policy_effects(policy: &Policy) -> Effects
    ensures { result ≡ policy_effects policy.now }
{
    let mut given = unless(policy.algorithm);
    let rules = policy.rules.as_slice();
    for rule in rules {
        given = given.or(Effects::only(rule.effect));
    }
    given
}
