//! How many elements in front pass a test.

ghost use Rattle.std.specs.Prelude.{◌≡◌, ◌≤◌, Bool, false, length, true};
ghost use Rattle.std.specs.Fn.{ComputesKey};
ghost use Rattle.std.specs.List.Sorted.{IsPartitionPoint, IsPartitionedBy};

/// That many elements in front are tested one by one: a key names few rows as a rule.
const NEAR: usize = 2;

/// How many elements pass a test, where those that pass stand in front of those that don't.
///
/// Its contract leaves open: what it tells where those that pass don't stand in front, beyond that it is no more than
/// there are.
pub fn count_passing<T, P: FnMut(&T) -> bool>(items: &[T], mut passes: P) -> usize
    requires { P.IsAlwaysCallable passes }
    ensures bound { result ≤ length items.now }
    ensures partitioned { (p : T → Bool) → ComputesKey P.FnMut p passes → IsPartitionedBy p items.now
        → IsPartitionPoint (λ y. p y ≡ true) (λ y. p y ≡ false) items.now result }
{
    let near = items.len().min(NEAR);
    for index in 0..near {
        if !passes(&items[index]) {
            return index;
        }
    }
    near + items[near..].partition_point(passes)
}
