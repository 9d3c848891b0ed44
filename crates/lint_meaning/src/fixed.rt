//! Conditions that ask for nothing.

ghost use Rattle.std.specs.Prelude.{◌≡◌, map};
ghost use Rattle.std.specs.List.{list_all};
ghost use Rattle.lint_meaning.specs.Fixed.{is_fixed};

use ent_policy::Expression;

/// Whether an expression has literals and functions alone.
#[cycle(fixed)]
pub(crate) fn is_fixed(expression: &Expression) -> bool
    ensures { result ≡ is_fixed expression.now }
{
    match expression {
        Expression::Value(_) | Expression::Function(_) => true,
        Expression::Designator(_) | Expression::Variable(_) => false,
        Expression::Apply(_, arguments) => are_fixed(arguments.as_slice()),
    }
}

/// Whether each of some expressions does.
#[cycle(fixed)]
fn are_fixed(expressions: &[Expression]) -> bool
    ensures { result ≡ list_all (λ fixed. fixed) (map is_fixed expressions.now) }
{
    for expression in expressions {
        if !is_fixed(expression) {
            return false;
        }
    }
    true
}
