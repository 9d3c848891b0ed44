//! The parts of a document: what each is for, and of which parts it is made.

ghost use Rattle.std.specs.Prelude.{◌≡◌, map};
ghost use Rattle.lint_places.specs.Parts.{item, rows};

/// What a part of a document is for.
#[derive(Clone, Copy, Debug, PartialEq, Eq)]
pub enum Part {
    /// A whole document: an object with a policy or a policy set.
    Document,
    /// What stands at `Policy` (section 5.14).
    Policy,
    /// What stands at `PolicySet` (section 5.1).
    Set,
    /// The children of a set.
    Children,
    /// A child of a set: a document or a reference.
    Child,
    /// What stands at `PolicyIdReference` (section 5.11).
    PolicyReference,
    /// What stands at `PolicySetIdReference` (section 5.10).
    SetReference,
    /// The rules of a policy.
    Rules,
    /// A rule (section 5.21).
    Rule,
    /// The variable definitions of a policy.
    Definitions,
    /// A variable definition (section 5.23).
    Definition,
    /// A target (section 5.6).
    Target,
    /// The members of a target.
    AnyOfs,
    /// A member of a target (section 5.7).
    AnyOf,
    /// The members of a member of a target.
    AllOfs,
    /// A member of such a member (section 5.8).
    AllOf,
    /// The matches of one.
    Matches,
    /// A match (section 5.9).
    Match,
    /// The condition of a rule (section 5.26).
    Condition,
    /// The expression of a definition or of an assignment (section 5.25).
    Expression,
    /// The arguments of a function.
    Arguments,
    /// An argument of a function.
    Argument,
    /// What stands at `AttributeValue` (section 5.31).
    Value,
    /// What stands at `AttributeDesignator` (section 5.29).
    Designator,
    /// What stands at `VariableReference` (section 5.24).
    VariableReference,
    /// What stands at `Apply` (section 5.27).
    Apply,
    /// What stands at `Function` (section 5.28).
    FunctionReference,
    /// The obligation expressions of a rule, a policy or a set (section 5.37).
    Obligations,
    /// An obligation expression (section 5.39).
    Obligation,
    /// The advice expressions of a rule, a policy or a set (section 5.38).
    Advices,
    /// An advice expression (section 5.40).
    Advice,
    /// The assignments of an obligation or an advice.
    Assignments,
    /// An assignment (section 5.41).
    Assignment,
    /// An identifier.
    Name,
    /// A description.
    Description,
    /// A version (section 5.12).
    Version,
    /// A version pattern (section 5.13).
    Pattern,
    /// The identifier of a rule combining algorithm (appendix C).
    RuleAlgorithm,
    /// The identifier of a policy combining algorithm (appendix C).
    PolicyAlgorithm,
    /// The identifier of a function (appendix A.3).
    Function,
    /// The name of a data type.
    DataType,
    /// A literal: a text, a flag or a whole number.
    Literal,
    /// `Permit` or `Deny`.
    Effect,
    /// True or false.
    Flag,
}

const DOCUMENT: &[(&str, Part)] = &[("Policy", Part::Policy), ("PolicySet", Part::Set)];

const POLICY: &[(&str, Part)] = &[
    ("PolicyId", Part::Name),
    ("Version", Part::Version),
    ("RuleCombiningAlgId", Part::RuleAlgorithm),
    ("Description", Part::Description),
    ("VariableDefinition", Part::Definitions),
    ("Target", Part::Target),
    ("Rule", Part::Rules),
    ("ObligationExpressions", Part::Obligations),
    ("AdviceExpressions", Part::Advices),
];

const SET: &[(&str, Part)] = &[
    ("PolicySetId", Part::Name),
    ("Version", Part::Version),
    ("PolicyCombiningAlgId", Part::PolicyAlgorithm),
    ("Description", Part::Description),
    ("Target", Part::Target),
    ("Children", Part::Children),
    ("ObligationExpressions", Part::Obligations),
    ("AdviceExpressions", Part::Advices),
];

const CHILD: &[(&str, Part)] = &[
    ("Policy", Part::Policy),
    ("PolicySet", Part::Set),
    ("PolicyIdReference", Part::PolicyReference),
    ("PolicySetIdReference", Part::SetReference),
];

const REFERENCE: &[(&str, Part)] = &[
    ("Id", Part::Name),
    ("Version", Part::Pattern),
    ("EarliestVersion", Part::Pattern),
    ("LatestVersion", Part::Pattern),
];

const RULE: &[(&str, Part)] = &[
    ("RuleId", Part::Name),
    ("Effect", Part::Effect),
    ("Description", Part::Description),
    ("Target", Part::Target),
    ("Condition", Part::Condition),
    ("ObligationExpressions", Part::Obligations),
    ("AdviceExpressions", Part::Advices),
];

const DEFINITION: &[(&str, Part)] = &[("VariableId", Part::Name), ("Expression", Part::Expression)];

const MATCH: &[(&str, Part)] = &[
    ("MatchId", Part::Function),
    ("AttributeValue", Part::Value),
    ("AttributeDesignator", Part::Designator),
];

const EXPRESSION: &[(&str, Part)] = &[
    ("AttributeValue", Part::Value),
    ("AttributeDesignator", Part::Designator),
    ("VariableReference", Part::VariableReference),
    ("Apply", Part::Apply),
    ("Function", Part::FunctionReference),
];

const VALUE: &[(&str, Part)] = &[("DataType", Part::DataType), ("Value", Part::Literal)];

const DESIGNATOR: &[(&str, Part)] = &[
    ("Category", Part::Name),
    ("AttributeId", Part::Name),
    ("DataType", Part::DataType),
    ("Issuer", Part::Name),
    ("MustBePresent", Part::Flag),
];

const APPLY: &[(&str, Part)] = &[
    ("FunctionId", Part::Function),
    ("Arguments", Part::Arguments),
];

const OBLIGATION: &[(&str, Part)] = &[
    ("ObligationId", Part::Name),
    ("FulfillOn", Part::Effect),
    ("AttributeAssignmentExpression", Part::Assignments),
];

const ADVICE: &[(&str, Part)] = &[
    ("AdviceId", Part::Name),
    ("AppliesTo", Part::Effect),
    ("AttributeAssignmentExpression", Part::Assignments),
];

const ASSIGNMENT: &[(&str, Part)] = &[
    ("AttributeId", Part::Name),
    ("Category", Part::Name),
    ("Issuer", Part::Name),
    ("Expression", Part::Expression),
];

impl Part {
    /// The keys that an object of this part may have, with the part that stands at each; none where it isn't an object.
    ///
    /// Its contract is an equation.
    pub fn rows(self) -> &'static [(&'static str, Part)]
        ensures { map (λ r. (r.0.now, r.1)) result.now ≡ rows self }
    {
        match self {
            Part::Document => DOCUMENT,
            Part::Policy => POLICY,
            Part::Set => SET,
            Part::Child => CHILD,
            Part::PolicyReference | Part::SetReference => REFERENCE,
            Part::Rule => RULE,
            Part::Definition => DEFINITION,
            Part::Target => &[("AnyOf", Part::AnyOfs)],
            Part::AnyOf => &[("AllOf", Part::AllOfs)],
            Part::AllOf => &[("Match", Part::Matches)],
            Part::Match => MATCH,
            Part::Condition | Part::Expression | Part::Argument => EXPRESSION,
            Part::Value => VALUE,
            Part::Designator => DESIGNATOR,
            Part::VariableReference => &[("VariableId", Part::Name)],
            Part::Apply => APPLY,
            Part::FunctionReference => &[("FunctionId", Part::Function)],
            Part::Obligation => OBLIGATION,
            Part::Advice => ADVICE,
            Part::Assignment => ASSIGNMENT,
            _ => &[],
        }
    }

    /// What each member of a list of this part is, where it is a list.
    ///
    /// Its contract is an equation.
    pub fn item(self) -> Option<Part>
        ensures { result ≡ item self }
    {
        match self {
            Part::Children => Some(Part::Child),
            Part::Rules => Some(Part::Rule),
            Part::Definitions => Some(Part::Definition),
            Part::AnyOfs => Some(Part::AnyOf),
            Part::AllOfs => Some(Part::AllOf),
            Part::Matches => Some(Part::Match),
            Part::Arguments => Some(Part::Argument),
            Part::Obligations => Some(Part::Obligation),
            Part::Advices => Some(Part::Advice),
            Part::Assignments => Some(Part::Assignment),
            _ => None,
        }
    }
}
