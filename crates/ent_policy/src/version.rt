//! Versions of policies.

ghost use Rattle.std.specs.Prelude.{◌≡◌, ◌∷◌, [], ◌++◌, map, nat_eq, refl, string_bytes};
ghost use Rattle.std.specs.Prelude.{IfOk, IsTrue, MatchOption, None, OnOk, Some};
ghost use Rattle.std.specs.Cmp as Cmp;
ghost use Rattle.std.specs.Cmp.Lexicographic.{nat_list_cmp_total, nat_list_eq_equiv, pointwise, slice_cmp};
ghost use Rattle.std.specs.Cmp.Lexicographic.{texts_po, texts_ties};
ghost use Rattle.std.specs.Ordering.{nat_cmp};
ghost use Rattle.std.specs.Char.{is_ascii_digit};
ghost use Rattle.std.specs.Fmt.{decimal};
ghost use Rattle.std.specs.List.{join_with_byte, list_all};
ghost use Rattle.ent_policy.specs.Versions.{dotted_of, is_number, is_version, number_of, version_of};
ghost use Rattle.ent_policy.specs.proofs_only.Versions.{behind_dot, IsSpelledBy};
ghost use Rattle.ent_policy.specs.Versions.{version_text, TextReadsBack};

use ent_values::Text;
use std::alloc::{AllocError, Global};
use std::cmp::Ordering;
use std::marker::Model;

/// The version of a policy or a policy set (section 5.12): 1 to 8 numbers, each of at most 9 digits.
///
/// Versions compare number by number, and one that another begins with is the earlier of the two.
#[derive(Drop)]
pub struct Version {
    numbers: [u32; 8],
    count: usize,
}

impl Model for Version {
    ghost use Rattle.std.specs.Prelude.{IsTrue, List, ℕ, take, ◌≤◌};
    ghost use Rattle.ent_policy.specs.Versions.{is_version};

    ghost Value = { List ℕ };

    ghost view = { λ v. take v.count v.numbers };

    ghost invariant = { λ v. (v.count ≤ 8) × IsTrue (is_version (take v.count v.numbers)) };
}

/// Whether each byte is a decimal digit.
fn are_digits(bytes: &[u8]) -> bool
    ensures { result ≡ list_all is_ascii_digit bytes.now }
{
    bytes.iter().all(|b| b.is_ascii_digit())
}

/// Whether the text is 1 to 9 decimal digits.
fn is_number(piece: &str) -> bool
    ensures { result ≡ is_number piece.now }
{
    piece.len() > 0 && piece.len() <= 9 && are_digits(piece.as_bytes())
}

/// The value of 1 to 9 decimal digits.
pub(crate) fn number(piece: &str) -> Option<u32>
    ensures { result ≡ number_of piece.now }
{
    if !is_number(piece) {
        return None;
    }
    piece.parse::<u32>().ok()
}

/// What may stand between two dots: a number of a version, or a part of a pattern.
pub(crate) trait VersionPiece: Copy {
    ghost use Rattle.std.specs.Prelude.{List, Option, ℕ};

    ghost spelled: { List ℕ → Option Self };

    ghost spelling: { Self → List ℕ };

    /// What a piece of a text spells, if it spells any.
    fn read(piece: &str) -> Option<Self>
        ensures { result ≡ spelled piece.now };

    /// The text that spells it.
    fn write(self, alloc: Global) -> Result<String, AllocError>
        ensures { IfOk result (λ s. string_bytes s ≡ spelling self) };
}

impl VersionPiece for u32 {
    ghost spelled = { number_of };

    ghost spelling = { decimal };

    fn read(piece: &str) -> Option<u32> {
        number(piece)
    }

    fn write(self, alloc: Global) -> Result<String, AllocError> {
        format!(in alloc; "{self}")
    }
}

/// What a text spells that has at most 8 pieces with dots between them, and how many there are. `blank` stands behind
/// them.
pub(crate) fn dotted<P: VersionPiece>(text: &str, blank: P) -> Option<([P; 8], usize)>
    ensures { MatchOption result (dotted_of P.spelled text.now ≡ None) (IsSpelledBy P.spelled text.now) }
{
    let mut parts = [blank; 8];
    let mut count = 0;
    for piece in text.split('.') {
        if count == 8 {
            return None;
        }
        parts[count] = P::read(piece)?;
        count += 1;
    }
    Some((parts, count))
}

/// Puts a piece behind a text, and a dot before it unless it is the first.
fn push_piece(text: &mut String, place: usize, piece: &str) -> Result<(), AllocError>
    ensures { OnOk result (string_bytes text.new ≡ string_bytes text.old ++ behind_dot place piece.now) }
{
    if place > 0 {
        text.push('.')?;
    }
    text.push_str(piece)
}

/// The text of these pieces, with dots between them.
pub(crate) fn joined<P: VersionPiece>(alloc: Global, parts: &[P]) -> Result<Text, AllocError>
    ensures { IfOk result (λ t. t ≡ join_with_byte 46 (map P.spelling parts.now)) }
{
    let mut text = String::new(alloc);
    for place in 0..parts.len() {
        let piece = parts[place].write(alloc)?;
        push_piece(&mut text, place, piece.as_str())?;
    }
    Text::new(alloc, text)
}

/// Law: the text of a version reads as that version.
pub fn text_reads_back()
    ensures { TextReadsBack }
{}

impl Version {
    /// The version that a text writes: 1 to 8 numbers of 1 to 9 digits, with dots between them. Leading zeros are read.
    ///
    /// Its contract is an equation.
    #[tactic(auto, unfolding(crate::specs::Versions::version_of))]
    pub fn parse(text: &str) -> Option<Version>
        ensures { result ≡ version_of text.now }
    {
        let (numbers, count) = dotted(text, 0u32)?;
        Some(Version { numbers, count })
    }

    /// The version 0.
    pub(crate) fn zero() -> Version
        ensures { result ≡ 0 ∷ [] }
    {
        Version {
            numbers: [0u32; 8],
            count: 1,
        }
    }

    /// The text of the version: its numbers in decimal, with dots between them.
    ///
    /// Its contract is an equation but for memory.
    pub fn text(&self, alloc: Global) -> Result<Text, AllocError>
        ensures { IfOk result (λ t. t ≡ version_text self.now) }
    {
        joined(alloc, self.numbers())
    }

    /// The numbers of the version, the first of them the most significant: 1 to 8, each of at most 9 digits.
    ///
    /// Its contract is an equation.
    pub fn numbers(&self) -> &[u32]
        ensures value { result.now ≡ self.now }
        ensures within { IsTrue (is_version self.now) }
    {
        &self.numbers[..self.count]
    }

    /// An equal version. It takes no memory.
    ///
    /// Its contract is an equation.
    pub fn copy(&self) -> Version
        ensures { result ≡ self.now }
    {
        Version {
            numbers: self.numbers,
            count: self.count,
        }
    }
}

impl PartialEq for Version {
    ghost eq = { pointwise nat_eq };

    ghost laws = { Cmp.partial_equiv_from_equiv nat_list_eq_equiv };

    fn eq(&self, other: &Self) -> bool {
        self.numbers() == other.numbers()
    }
}

impl Eq for Version {
    ghost laws = { nat_list_eq_equiv };
}

impl PartialOrd for Version {
    ghost partial_cmp = { λ x y. Some (slice_cmp nat_cmp x y) };

    ghost laws = { texts_po };

    fn partial_cmp(&self, other: &Self) -> Option<Ordering> {
        Some(self.cmp(other))
    }
}

impl Ord for Version {
    ghost cmp = { slice_cmp nat_cmp };

    ghost total = { nat_list_cmp_total };

    ghost matches_partial_cmp = { λ x y. refl };

    ghost matches_eq = { texts_ties };

    fn cmp(&self, other: &Self) -> Ordering {
        self.numbers().cmp(other.numbers())
    }
}
