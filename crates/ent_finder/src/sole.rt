//! Values that lie in one place.

ghost use Rattle.std.specs.Prelude.{◌≡◌, ◌≤◌, ◌++◌, MatchOption, length};

use ent_values::Value;

/// The values of two slices, where one of these is empty.
///
/// Its contract is an equation.
pub fn either<'a>(first: &'a [Value], second: &'a [Value]) -> Option<&'a [Value]>
    ensures { MatchOption result (2 ≤ length (first.now ++ second.now)) (λ v. v.now ≡ first.now ++ second.now) }
{
    if second.is_empty() {
        Some(first)
    } else if first.is_empty() {
        Some(second)
    } else {
        None
    }
}
