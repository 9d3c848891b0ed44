ghost use Rattle.std.specs.Prelude.{◌≡◌};
ghost use Rattle.ent_combine.specs.Identifiers.{rule_id_of, shared_id_of, policy_id_of};
ghost use Rattle.ent_combine.specs.Identifiers.{rule_algorithm_of, policy_algorithm_of};
ghost use Rattle.ent_combine.specs.Identifiers.{RuleIdsReadBack, PolicyIdsReadBack};

use crate::outcome::{PolicyAlg, RuleAlg};

impl RuleAlg {
    /// The algorithm for rules that has the URI `id` (appendix C), None where there is none.
    ///
    /// Its contract is an equation.
    #[tactic(auto, unfolding(crate::specs::Identifiers::rule_algorithm_of))]
    pub fn from_id(id: &str) -> Option<RuleAlg>
        ensures { result ≡ rule_algorithm_of id.now }
    {
        [
            RuleAlg::DenyOverrides,
            RuleAlg::PermitOverrides,
            RuleAlg::OrderedDenyOverrides,
            RuleAlg::OrderedPermitOverrides,
            RuleAlg::DenyUnlessPermit,
            RuleAlg::PermitUnlessDeny,
            RuleAlg::FirstApplicable,
        ]
        .iter()
        .copied()
        .find(|algorithm| id == algorithm.rule_id())
    }

    /// The URI of the algorithm where it combines the rules of a policy (appendix C).
    ///
    /// Its contract is an equation.
    #[tactic(auto, unfolding(crate::specs::Identifiers::rule_id_of))]
    pub fn rule_id(self) -> &'static str
        ensures { result.now ≡ rule_id_of self }
    {
        match self {
            RuleAlg::DenyOverrides => {
                "urn:oasis:names:tc:xacml:3.0:rule-combining-algorithm:deny-overrides"
            }
            RuleAlg::PermitOverrides => {
                "urn:oasis:names:tc:xacml:3.0:rule-combining-algorithm:permit-overrides"
            }
            RuleAlg::OrderedDenyOverrides => {
                "urn:oasis:names:tc:xacml:3.0:rule-combining-algorithm:ordered-deny-overrides"
            }
            RuleAlg::OrderedPermitOverrides => {
                "urn:oasis:names:tc:xacml:3.0:rule-combining-algorithm:ordered-permit-overrides"
            }
            RuleAlg::DenyUnlessPermit => {
                "urn:oasis:names:tc:xacml:3.0:rule-combining-algorithm:deny-unless-permit"
            }
            RuleAlg::PermitUnlessDeny => {
                "urn:oasis:names:tc:xacml:3.0:rule-combining-algorithm:permit-unless-deny"
            }
            RuleAlg::FirstApplicable => {
                "urn:oasis:names:tc:xacml:1.0:rule-combining-algorithm:first-applicable"
            }
        }
    }
}

impl PolicyAlg {
    /// The algorithm for policies that has the URI `id` (appendix C), None where there is none.
    ///
    /// Its contract is an equation.
    #[tactic(auto, unfolding(crate::specs::Identifiers::policy_algorithm_of))]
    pub fn from_id(id: &str) -> Option<PolicyAlg>
        ensures { result ≡ policy_algorithm_of id.now }
    {
        [
            PolicyAlg::Shared(RuleAlg::DenyOverrides),
            PolicyAlg::Shared(RuleAlg::PermitOverrides),
            PolicyAlg::Shared(RuleAlg::OrderedDenyOverrides),
            PolicyAlg::Shared(RuleAlg::OrderedPermitOverrides),
            PolicyAlg::Shared(RuleAlg::DenyUnlessPermit),
            PolicyAlg::Shared(RuleAlg::PermitUnlessDeny),
            PolicyAlg::Shared(RuleAlg::FirstApplicable),
            PolicyAlg::OnlyOne,
        ]
        .iter()
        .copied()
        .find(|algorithm| id == algorithm.id())
    }

    /// The URI of the algorithm where it combines the children of a policy set (appendix C).
    ///
    /// Its contract is an equation.
    #[tactic(auto, unfolding(crate::specs::Identifiers::policy_id_of))]
    pub fn id(self) -> &'static str
        ensures { result.now ≡ policy_id_of self }
    {
        match self {
            PolicyAlg::Shared(algorithm) => shared_id(algorithm),
            PolicyAlg::OnlyOne => {
                "urn:oasis:names:tc:xacml:1.0:policy-combining-algorithm:only-one-applicable"
            }
        }
    }
}

// The URI of an algorithm that rules and policies share, where it combines policies.
#[tactic(auto, unfolding(crate::specs::Identifiers::shared_id_of))]
fn shared_id(algorithm: RuleAlg) -> &'static str
    ensures { result.now ≡ shared_id_of algorithm }
{
    match algorithm {
        RuleAlg::DenyOverrides => {
            "urn:oasis:names:tc:xacml:3.0:policy-combining-algorithm:deny-overrides"
        }
        RuleAlg::PermitOverrides => {
            "urn:oasis:names:tc:xacml:3.0:policy-combining-algorithm:permit-overrides"
        }
        RuleAlg::OrderedDenyOverrides => {
            "urn:oasis:names:tc:xacml:3.0:policy-combining-algorithm:ordered-deny-overrides"
        }
        RuleAlg::OrderedPermitOverrides => {
            "urn:oasis:names:tc:xacml:3.0:policy-combining-algorithm:ordered-permit-overrides"
        }
        RuleAlg::DenyUnlessPermit => {
            "urn:oasis:names:tc:xacml:3.0:policy-combining-algorithm:deny-unless-permit"
        }
        RuleAlg::PermitUnlessDeny => {
            "urn:oasis:names:tc:xacml:3.0:policy-combining-algorithm:permit-unless-deny"
        }
        RuleAlg::FirstApplicable => {
            "urn:oasis:names:tc:xacml:1.0:policy-combining-algorithm:first-applicable"
        }
    }
}

/// A law, with nothing to run: `from_id` gives an algorithm exactly where the text is the URI that
/// `rule_id` or `id` gives for it.
pub fn identifiers_read_back()
    ensures rules { RuleIdsReadBack }
    ensures policies { PolicyIdsReadBack }
{}
