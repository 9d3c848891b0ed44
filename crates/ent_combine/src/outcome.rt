ghost use Rattle.std.specs.Prelude.{◌≡◌};
ghost use Rattle.ent_combine.specs.Under.{under};

/// What an Indeterminate could have been, had nothing gone wrong (section 7.10).
#[derive(Clone, Copy, Debug, PartialEq, Eq)]
pub enum IndKind {
    /// Permit, but not Deny.
    P,
    /// Deny, but not Permit.
    D,
    /// Permit or Deny.
    DP,
}

/// The value of a rule, a policy or a policy set (sections 7.11 to 7.13).
#[derive(Clone, Copy, Debug, PartialEq, Eq)]
pub enum Outcome {
    /// The request is permitted.
    Permit,
    /// The request is denied.
    Deny,
    /// There is nothing to say of the request.
    NotApplicable,
    /// Indeterminate, with what it could have been.
    Ind(IndKind),
}

/// How the outcomes of several rules, or of several policies, become one (appendix C.2 to C.8).
#[derive(Clone, Copy, Debug, PartialEq, Eq)]
pub enum RuleAlg {
    /// A Deny decides (appendix C.2).
    DenyOverrides,
    /// A Permit decides (appendix C.4).
    PermitOverrides,
    /// As `DenyOverrides`, with the children taken in their order (appendix C.3).
    OrderedDenyOverrides,
    /// As `PermitOverrides`, with the children taken in their order (appendix C.5).
    OrderedPermitOverrides,
    /// Permit where one is Permit, otherwise Deny (appendix C.6).
    DenyUnlessPermit,
    /// Deny where one is Deny, otherwise Permit (appendix C.7).
    PermitUnlessDeny,
    /// The first that isn't NotApplicable decides (appendix C.8).
    FirstApplicable,
}

/// How a policy set comes to its outcome: as the rules of a policy do, or by the only child that
/// applies (appendix C.9).
#[derive(Clone, Copy, Debug, PartialEq, Eq)]
pub enum PolicyAlg {
    /// One that rules and policies share.
    Shared(RuleAlg),
    /// The only child whose target applies (appendix C.9).
    OnlyOne,
}

/// What a policy or policy set with an Indeterminate target comes to, where its children come to
/// `combined` (section 7.14, table 7).
///
/// Its contract is an equation.
pub fn under_indeterminate_target(combined: Outcome) -> Outcome
    ensures { result ≡ under combined }
{
    match combined {
        Outcome::NotApplicable => Outcome::NotApplicable,
        Outcome::Permit => Outcome::Ind(IndKind::P),
        Outcome::Deny => Outcome::Ind(IndKind::D),
        Outcome::Ind(kind) => Outcome::Ind(kind),
    }
}
