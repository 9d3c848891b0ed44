//! Version patterns, and the versions that a reference accepts.

ghost use Rattle.std.specs.Prelude.{◌≡◌, ◌∷◌, [], IfOk, IsTrue, Some, not, refl};
ghost use Rattle.std.specs.Cmp as Cmp;
ghost use Rattle.std.specs.Cmp.Lexicographic.{lists_equiv, lists_per, lists_ties, lists_total, pointwise, slice_cmp};
ghost use Rattle.std.specs.List.{list_all};
ghost use Rattle.ent_policy.specs.Patterns.{beside, is_more, is_pattern, matches, more_is_last, part_of, part_text};
ghost use Rattle.ent_policy.specs.Patterns.{pattern_of, pattern_text, AnyAcceptsOneNumber, MoreAcceptsWhatGoesOn};
ghost use Rattle.ent_policy.specs.Patterns.{NumbersAcceptThemselves, PatternsReadBack};

use crate::version::{Version, VersionPiece, dotted, joined, number};
use ent_values::Text;
use std::alloc::{AllocError, Global};
use std::cmp::Ordering;
use std::marker::Model;

/// One part of a version pattern.
#[derive(Clone, Copy, PartialEq, Eq, PartialOrd, Ord)]
pub enum PatternPart {
    /// That number.
    Number(u32),
    /// `*`: any one number.
    Any,
    /// `+`: one number or more. It stands last.
    More,
}

/// A version pattern (section 5.13): 1 to 8 parts, each a number of at most 9 digits, `*`, or, in the last place, `+`.
/// Patterns order part by part: numbers, the smaller first, then `*`, then `+`.
#[derive(Drop)]
pub struct VersionMatch {
    parts: [PatternPart; 8],
    count: usize,
}

impl Model for VersionMatch {
    ghost use Rattle.std.specs.Prelude.{IsTrue, List, take, ◌≤◌};
    ghost use Rattle.ent_policy.specs.Patterns.{is_pattern};
    ghost use Rattle.ent_policy.specs.declared.pattern.PatternPart.{PatternPart};

    ghost Value = { List PatternPart };

    ghost view = { λ p. take p.count p.parts };

    ghost invariant = { λ p. (p.count ≤ 8) × IsTrue (is_pattern (take p.count p.parts)) };
}

/// Which versions of a document a reference accepts (sections 5.10 and 5.11): those that meet each constraint that is
/// there. Constraints order as their fields stand, none before any.
#[derive(PartialEq, Eq, PartialOrd, Ord, Drop)]
pub struct VersionConstraints {
    /// What the version matches.
    pub version: Option<VersionMatch>,
    /// What the version isn't earlier than.
    pub earliest: Option<VersionMatch>,
    /// What the version isn't later than.
    pub latest: Option<VersionMatch>,
}

impl VersionPiece for PatternPart {
    ghost spelled = { part_of };

    ghost spelling = { part_text };

    fn read(piece: &str) -> Option<PatternPart> {
        match piece {
            "*" => Some(PatternPart::Any),
            "+" => Some(PatternPart::More),
            _ => Some(PatternPart::Number(number(piece)?)),
        }
    }

    fn write(self, alloc: Global) -> Result<String, AllocError> {
        match self {
            PatternPart::Number(number) => format!(in alloc; "{number}"),
            PatternPart::Any => String::from_str(alloc, "*"),
            PatternPart::More => String::from_str(alloc, "+"),
        }
    }
}

/// Whether the part is `+`.
fn is_more(part: PatternPart) -> bool
    ensures { result ≡ is_more part }
{
    matches!(part, PatternPart::More)
}

/// Whether no part is `+`.
fn no_more(parts: &[PatternPart]) -> bool
    ensures { result ≡ list_all (λ p. not (is_more p)) parts.now }
{
    parts.iter().all(|part| !is_more(*part))
}

/// Whether no part but the last is `+`.
fn more_is_last(parts: &[PatternPart]) -> bool
    ensures { result ≡ more_is_last parts.now }
{
    match parts {
        [] => true,
        [front @ .., _] => no_more(front),
    }
}

/// Law: the text of a pattern reads as that pattern.
pub fn pattern_text_reads_back()
    ensures { PatternsReadBack }
{}

/// Laws: numbers accept the version of these numbers alone, `*` any one number, and `+` whatever goes on.
pub fn what_a_pattern_accepts()
    ensures numbers { NumbersAcceptThemselves }
    ensures any { AnyAcceptsOneNumber }
    ensures more { MoreAcceptsWhatGoesOn }
{}

impl VersionMatch {
    /// The pattern that a text writes, if it writes one. It takes no memory.
    ///
    /// Its contract is an equation.
    pub fn parse(text: &str) -> Option<VersionMatch>
        ensures { result ≡ pattern_of text.now }
    {
        let (parts, count) = dotted(text, PatternPart::Any)?;
        if !more_is_last(&parts[..count]) {
            return None;
        }
        Some(VersionMatch { parts, count })
    }

    /// The pattern `*`.
    pub(crate) fn any() -> VersionMatch
        ensures { result ≡ PatternPart.Any ∷ [] }
    {
        VersionMatch {
            parts: [PatternPart::Any; 8],
            count: 1,
        }
    }

    /// The text of the pattern: its parts, numbers in decimal, with dots between them.
    ///
    /// Its contract is an equation but for memory.
    pub fn text(&self, alloc: Global) -> Result<Text, AllocError>
        ensures { IfOk result (λ t. t ≡ pattern_text self.now) }
    {
        joined(alloc, self.parts())
    }

    /// The parts of the pattern, in their order: 1 to 8, each number of at most 9 digits, and `+` last.
    ///
    /// Its contract is an equation.
    pub fn parts(&self) -> &[PatternPart]
        ensures value { result.now ≡ self.now }
        ensures within { IsTrue (is_pattern self.now) }
    {
        &self.parts[..self.count]
    }

    /// An equal pattern. It takes no memory.
    ///
    /// Its contract is an equation.
    pub fn copy(&self) -> VersionMatch
        ensures { result ≡ self.now }
    {
        VersionMatch {
            parts: self.parts,
            count: self.count,
        }
    }

    /// Whether the version matches.
    fn matches(&self, version: &Version) -> bool
        ensures { result ≡ matches self.now version.now }
    {
        let parts = self.parts();
        let numbers = version.numbers();
        for (part, number) in parts.iter().zip(numbers) {
            match *part {
                PatternPart::More => return true,
                PatternPart::Number(wanted) if wanted != *number => return false,
                _ => {}
            }
        }
        parts.len() == numbers.len()
    }

    /// How the version stands to the pattern: earlier, equal or later.
    fn beside(&self, version: &Version) -> Ordering
        ensures { result ≡ beside version.now self.now }
    {
        let parts = self.parts();
        let numbers = version.numbers();
        for (part, number) in parts.iter().zip(numbers) {
            match *part {
                PatternPart::More => return Ordering::Equal,
                PatternPart::Number(wanted) if wanted != *number => return number.cmp(&wanted),
                _ => {}
            }
        }
        numbers.len().cmp(&parts.len())
    }
}

impl PartialEq for VersionMatch {
    ghost use Rattle.ent_policy.specs.contracts.pattern.PatternPartPartialEq.TheImpl.Laws.{laws-law};

    ghost eq = { pointwise ⟦<PatternPart as PartialEq>⟧.eq };

    ghost laws = { lists_per laws-law };

    fn eq(&self, other: &Self) -> bool {
        self.parts() == other.parts()
    }
}

impl Eq for VersionMatch {
    ghost use Rattle.ent_policy.specs.contracts.pattern.PatternPartEq.TheImpl.Laws.{laws-law};

    ghost laws = { lists_equiv laws-law };
}

impl PartialOrd for VersionMatch {
    ghost use Rattle.ent_policy.specs.contracts.pattern.PatternPartOrd.TheImpl.Laws.{matches_eq-law, total-law};

    ghost partial_cmp = { λ x y. Some (slice_cmp ⟦<PatternPart as Ord>⟧.cmp x y) };

    ghost laws = { Cmp.po (lists_total total-law) (lists_ties ⟦<PatternPart as Ord>⟧.cmp matches_eq-law) };

    fn partial_cmp(&self, other: &Self) -> Option<Ordering> {
        Some(self.cmp(other))
    }
}

impl Ord for VersionMatch {
    ghost use Rattle.ent_policy.specs.contracts.pattern.PatternPartOrd.TheImpl.Laws.{matches_eq-law, total-law};

    ghost cmp = { slice_cmp ⟦<PatternPart as Ord>⟧.cmp };

    ghost total = { lists_total total-law };

    ghost matches_partial_cmp = { λ x y. refl };

    ghost matches_eq = { lists_ties ⟦<PatternPart as Ord>⟧.cmp matches_eq-law };

    fn cmp(&self, other: &Self) -> Ordering {
        self.parts().cmp(other.parts())
    }
}

impl VersionConstraints {
    ghost use Rattle.ent_policy.specs.Constraints.{meets, unconstrained};

    /// No constraints: every version is accepted.
    ///
    /// Its contract is an equation.
    pub fn none() -> VersionConstraints
        ensures { result ≡ unconstrained }
    {
        VersionConstraints {
            version: None,
            earliest: None,
            latest: None,
        }
    }

    /// Whether a version meets each constraint that is there. It takes no memory.
    ///
    /// Its contract is an equation.
    pub fn meets(&self, version: &Version) -> bool
        ensures { result ≡ meets self.now version.now }
    {
        let matches = self
            .version
            .as_ref()
            .is_none_or(|pattern| pattern.matches(version));
        let late_enough = self
            .earliest
            .as_ref()
            .is_none_or(|pattern| pattern.beside(version) != Ordering::Less);
        let early_enough = self
            .latest
            .as_ref()
            .is_none_or(|pattern| pattern.beside(version) != Ordering::Greater);
        matches && late_enough && early_enough
    }

    /// Equal constraints. It takes no memory.
    ///
    /// Its contract is an equation.
    pub fn copy(&self) -> VersionConstraints
        ensures { result ≡ self.now }
    {
        VersionConstraints {
            version: self.version.as_ref().map(VersionMatch::copy),
            earliest: self.earliest.as_ref().map(VersionMatch::copy),
            latest: self.latest.as_ref().map(VersionMatch::copy),
        }
    }
}
