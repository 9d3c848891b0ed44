//! The URIs that name the functions.

ghost use Rattle.std.specs.Prelude.{◌≡◌, ◌++◌, ◌∷◌, [], IfOk, map, find, bytes_eq, flat_map};
ghost use Rattle.ent_functions.specs.Identifiers.{element_word, ordered_word, comparison_word, prefix_of};
ghost use Rattle.ent_functions.specs.Identifiers.{type_word_of, operation_of, id_of, function_of, IdsReadBack};
ghost use Rattle.ent_functions.specs.Identifiers.{all_elements, all_ordered};
ghost use Rattle.ent_functions.specs.Identifiers.{functions_at, comparisons_at, single_functions};

use crate::function::{Comparison, Element, Function, Ordered};
use ent_values::Text;
use std::alloc::{AllocError, Global};

impl Element {
    /// The word for the type in the names of its functions.
    fn word(self) -> &'static str
        ensures { result.now ≡ element_word self }
    {
        match self {
            Element::Text => "string",
            Element::Boolean => "boolean",
            Element::Integer => "integer",
            Element::Date => "date",
            Element::AnyUri => "anyURI",
            Element::Time => "time",
            Element::DateTime => "dateTime",
        }
    }

    /// The functions on equality, bags and sets at the type.
    ///
    /// Its contract is an equation.
    pub fn functions(self) -> [Function; 10]
        ensures { result ≡ functions_at self }
    {
        [
            Function::Equal(self),
            Function::OneAndOnly(self),
            Function::BagSize(self),
            Function::IsIn(self),
            Function::Bag(self),
            Function::Intersection(self),
            Function::Union(self),
            Function::AtLeastOneMemberOf(self),
            Function::Subset(self),
            Function::SetEquals(self),
        ]
    }
}

impl Ordered {
    fn word(self) -> &'static str
        ensures { result.now ≡ ordered_word self }
    {
        match self {
            Ordered::Integer => "integer",
            Ordered::Text => "string",
            Ordered::Date => "date",
            Ordered::Time => "time",
            Ordered::DateTime => "dateTime",
        }
    }
}

impl Comparison {
    fn word(self) -> &'static str
        ensures { result.now ≡ comparison_word self }
    {
        match self {
            Comparison::GreaterThan => "-greater-than",
            Comparison::GreaterThanOrEqual => "-greater-than-or-equal",
            Comparison::LessThan => "-less-than",
            Comparison::LessThanOrEqual => "-less-than-or-equal",
        }
    }
}

impl Function {
    /// How the URI of the function begins, up to its name.
    #[tactic(auto, unfolding(crate::specs::Identifiers::prefix_of))]
    fn prefix(self) -> &'static str
        ensures { result.now ≡ prefix_of self }
    {
        match self {
            Function::Concatenate => "urn:oasis:names:tc:xacml:2.0:function:",
            Function::StartsWith
            | Function::EndsWith
            | Function::Contains
            | Function::DateAdd
            | Function::DateSubtract
            | Function::AnyOf
            | Function::AllOf => "urn:oasis:names:tc:xacml:3.0:function:",
            _ => "urn:oasis:names:tc:xacml:1.0:function:",
        }
    }

    #[tactic(auto, unfolding(crate::specs::Identifiers::type_word_of))]
    fn type_word(self) -> &'static str
        ensures { result.now ≡ type_word_of self }
    {
        match self {
            Function::Compare(_, order) => order.word(),
            Function::Equal(element)
            | Function::OneAndOnly(element)
            | Function::BagSize(element)
            | Function::IsIn(element)
            | Function::Bag(element)
            | Function::Intersection(element)
            | Function::Union(element)
            | Function::AtLeastOneMemberOf(element)
            | Function::Subset(element)
            | Function::SetEquals(element) => element.word(),
            _ => "",
        }
    }

    #[tactic(auto, unfolding(crate::specs::Identifiers::operation_of))]
    fn operation(self) -> &'static str
        ensures { result.now ≡ operation_of self }
    {
        match self {
            Function::Equal(_) => "-equal",
            Function::Compare(comparison, _) => comparison.word(),
            Function::Add => "integer-add",
            Function::Subtract => "integer-subtract",
            Function::Multiply => "integer-multiply",
            Function::Divide => "integer-divide",
            Function::Mod => "integer-mod",
            Function::Abs => "integer-abs",
            Function::Or => "or",
            Function::And => "and",
            Function::Not => "not",
            Function::OneAndOnly(_) => "-one-and-only",
            Function::BagSize(_) => "-bag-size",
            Function::IsIn(_) => "-is-in",
            Function::Bag(_) => "-bag",
            Function::Intersection(_) => "-intersection",
            Function::Union(_) => "-union",
            Function::AtLeastOneMemberOf(_) => "-at-least-one-member-of",
            Function::Subset(_) => "-subset",
            Function::SetEquals(_) => "-set-equals",
            Function::Concatenate => "string-concatenate",
            Function::StartsWith => "string-starts-with",
            Function::EndsWith => "string-ends-with",
            Function::Contains => "string-contains",
            Function::DateAdd => "date-add-yearMonthDuration",
            Function::DateSubtract => "date-subtract-yearMonthDuration",
            Function::AnyOf => "any-of",
            Function::AllOf => "all-of",
        }
    }

    /// The URI of the function (appendix A.3).
    ///
    /// Its contract is an equation but for memory.
    #[tactic(auto, unfolding(crate::specs::Identifiers::id_of))]
    pub fn id(self, alloc: Global) -> Result<Text, AllocError>
        ensures { IfOk result (λ t. t ≡ id_of self) }
    {
        let mut id = String::from_str(alloc, self.prefix())?;
        id.push_str(self.type_word())?;
        id.push_str(self.operation())?;
        Text::new(alloc, id)
    }

    /// Whether that URI is the function's.
    #[tactic(auto, unfolding(crate::specs::Identifiers::id_of))]
    fn is_named(self, id: &str) -> bool
        ensures { result ≡ bytes_eq id.now (id_of self) }
    {
        let Some(name) = id.strip_prefix(self.prefix()) else {
            return false;
        };
        let Some(operation) = name.strip_prefix(self.type_word()) else {
            return false;
        };
        operation == self.operation()
    }

    /// The function that has the URI `id` (appendix A.3), None where there is none. The type in its name is looked at
    /// once for all functions of that type.
    ///
    /// Its contract is an equation.
    #[tactic(auto, unfolding(crate::specs::Identifiers::function_of, crate::specs::Identifiers::all_functions))]
    pub fn from_id(id: &str) -> Option<Function>
        ensures { result ≡ function_of id.now }
    {
        if let Some(function) = of_element(id) {
            return Some(function);
        }
        if let Some(function) = comparison(id) {
            return Some(function);
        }
        single(id)
    }
}

/// The function of equality, bags or sets that has the URI `id`.
fn of_element(id: &str) -> Option<Function>
    ensures { result ≡ find (λ f. bytes_eq id.now (id_of f)) (flat_map functions_at all_elements) }
{
    function_at(Element::Text, id)
        .or(function_at(Element::Boolean, id))
        .or(function_at(Element::Integer, id))
        .or(function_at(Element::Date, id))
        .or(function_at(Element::AnyUri, id))
        .or(function_at(Element::Time, id))
        .or(function_at(Element::DateTime, id))
}

/// The function on equality, a bag or a set at one type that has the URI `id`.
fn function_at(element: Element, id: &str) -> Option<Function>
    ensures { result ≡ find (λ f. bytes_eq id.now (id_of f)) (functions_at element) }
{
    let name = id.strip_prefix("urn:oasis:names:tc:xacml:1.0:function:")?;
    let operation = name.strip_prefix(element.word())?;
    function_by_operation(element, operation)
}

/// That function by what follows the type in its name.
fn function_by_operation(element: Element, operation: &str) -> Option<Function>
    ensures { result ≡ find (λ f. bytes_eq operation.now (operation_of f)) (functions_at element) }
{
    element
        .functions()
        .iter()
        .copied()
        .find(|function| operation == function.operation())
}

/// The comparison that has the URI `id`.
fn comparison(id: &str) -> Option<Function>
    ensures { result ≡ find (λ f. bytes_eq id.now (id_of f)) (flat_map comparisons_at all_ordered) }
{
    comparison_at(Ordered::Integer, id)
        .or(comparison_at(Ordered::Text, id))
        .or(comparison_at(Ordered::Date, id))
        .or(comparison_at(Ordered::Time, id))
        .or(comparison_at(Ordered::DateTime, id))
}

/// The comparison at one type that has the URI `id`.
fn comparison_at(order: Ordered, id: &str) -> Option<Function>
    ensures { result ≡ find (λ f. bytes_eq id.now (id_of f)) (comparisons_at order) }
{
    let name = id.strip_prefix("urn:oasis:names:tc:xacml:1.0:function:")?;
    let operation = name.strip_prefix(order.word())?;
    comparison_by_operation(order, operation)
}

/// That comparison by what follows the type in its name.
fn comparison_by_operation(order: Ordered, operation: &str) -> Option<Function>
    ensures { result ≡ find (λ f. bytes_eq operation.now (operation_of f)) (comparisons_at order) }
{
    [
        Function::Compare(Comparison::GreaterThan, order),
        Function::Compare(Comparison::GreaterThanOrEqual, order),
        Function::Compare(Comparison::LessThan, order),
        Function::Compare(Comparison::LessThanOrEqual, order),
    ]
    .iter()
    .copied()
    .find(|function| operation == function.operation())
}

/// The function that has the URI `id`, of those that there are for no other type.
fn single(id: &str) -> Option<Function>
    ensures { result ≡ find (λ f. bytes_eq id.now (id_of f)) single_functions }
{
    Function::SINGLE
        .iter()
        .copied()
        .find(|function| function.is_named(id))
}

/// A law, with nothing to run: `from_id` gives a function exactly where the text is that function's own URI.
pub fn ids_read_back()
    ensures { IdsReadBack }
{}
