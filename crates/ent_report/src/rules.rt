//! Which rule gave a decision.

ghost use Rattle.std.specs.Prelude.{◌≡◌, option_copied};
ghost use Rattle.ent_report.specs.Reports.{ends_in, has_rule, is_entry_of, same_rule};

use ent_eval::{Answer, WhyEntry};
use ent_policy::DocKey;
use ent_values::Text;

/// Whether a path ends in an element of that id.
fn ends_in(path: &[DocKey], id: &str) -> bool
    ensures { result ≡ ends_in id.now path.now }
{
    match path.last() {
        None => false,
        Some(key) => key.id.as_str() == id,
    }
}

/// Whether two rules have the same id, or both are defaults.
fn is_same_rule(entry: &Option<Text>, rule: Option<&str>) -> bool
    ensures { result ≡ same_rule entry.now (option_copied rule.entry) }
{
    match (entry, rule) {
        (None, None) => true,
        (Some(id), Some(rule)) => id.as_str() == rule,
        _ => false,
    }
}

/// Whether an entry is of a rule of an element, or of its default.
fn is_entry_of(policy: &str, rule: Option<&str>, entry: &WhyEntry) -> bool
    ensures { result ≡ is_entry_of policy.now (option_copied rule.entry) entry.now }
{
    ends_in(entry.path.get().as_slice(), policy) && is_same_rule(&entry.rule, rule)
}

/// Whether a rule gave a decision.
pub(crate) fn has_rule(policy: &str, rule: Option<&str>, answer: &Answer) -> bool
    ensures { result ≡ has_rule policy.now (option_copied rule.entry) answer.now }
{
    answer
        .why
        .as_slice()
        .iter()
        .any(|entry| is_entry_of(policy, rule, entry))
}
