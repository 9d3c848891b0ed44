//! Cells as bits of words.

ghost use Rattle.std.specs.Prelude.{◌≡◌, ◌≢◌, ◌<◌, ◌+◌, ◌++◌, ◌*◌, ◌/◌, ◌||◌, ℕ, IfOk, OnErr, OnOk, false, length, nat_eq};
ghost use Rattle.std.specs.Prelude.{slice_index_or, true};
ghost use Rattle.std.specs.List.{filter};
ghost use Rattle.std.specs.Bool.{OnFalse, OnTrue};
ghost use Rattle.ent_index.specs.Rolls.{cells_in, cells_of, is_member};
ghost use Rattle.ent_index.specs.proofs_only.Rolls.{AreWords, IsOf, IsSeat, IsWord, has_cells};
ghost use Rattle.ent_index.specs.declared.words.Word.{Word};

use std::alloc::AllocError;

/// So many cells have one word.
pub(crate) const BITS: u32 = 64;

/// Of the cells from 64 times a place on, those whose bits are set. It may have none: a word from which all were taken
/// stays where it is, since those behind it would have to move.
#[derive(Clone, Copy)]
pub(crate) struct Word {
    pub(crate) place: u32,
    pub(crate) bits: u64,
}

/// Where the word of a place is among words, or would go. Mostly it is the last one, or goes behind it.
fn seat(words: &[Word], place: u32) -> usize
    requires { AreWords 0 words.now }
    ensures { IsSeat place words.now result }
{
    let Some(last) = words.len().checked_sub(1) else {
        return 0;
    };
    if words[last].place < place {
        return last + 1;
    }
    if words[last].place == place {
        return last;
    }
    words.partition_point(|word| word.place < place)
}

/// Whether there is a word at a seat, and it is the one of a place.
fn is_at(words: &[Word], seat: usize, place: u32) -> bool
    ensures there { OnTrue result (IsOf place words.now seat) }
    ensures absent { OnFalse result ((d : Word) → seat < length words.now
        → (slice_index_or words.now seat d).place ≢ place) }
{
    seat < words.len() && words[seat].place == place
}

/// Whether a cell is one of those of words.
pub(crate) fn has(words: &[Word], cell: u32) -> bool
    requires { AreWords 0 words.now }
    ensures { result ≡ is_member (cells_of words.now) cell }
{
    let place = cell / BITS;
    let seat = seat(words, place);
    is_at(words, seat, place) && words[seat].bits >> (cell % BITS) & 1 == 1
}

/// Puts the cells of a word into the one of its place, which is at that seat, and tells how many weren't there.
fn put_at(words: &mut [Word], seat: usize, word: Word) -> u32
    requires words { AreWords 0 words.old }
    requires seat { IsOf word.place words.old seat }
    requires word { IsWord word }
    ensures words { AreWords 0 words.new }
    ensures cells { (c : ℕ)
        → is_member (cells_of words.new) c ≡ (is_member (cells_of words.old) c || is_member (cells_in word) c) }
    ensures count { length (cells_of words.new) ≡ length (cells_of words.old) + result }
{
    let before = words[seat];
    let bits = before.bits | word.bits;
    words[seat] = Word { bits, ..before };
    bits.count_ones() - before.bits.count_ones()
}

/// Puts the cells of a word into words, and tells how many weren't there. After a refusal these are as before.
pub(crate) fn put_in(words: &mut Vec<Word>, word: Word) -> Result<u32, AllocError>
    requires words { AreWords 0 words.old.items }
    requires word { IsWord word }
    ensures words { AreWords 0 words.new.items }
    ensures cells { OnOk result ((c : ℕ)
        → is_member (cells_of words.new.items) c
        ≡ (is_member (cells_of words.old.items) c || is_member (cells_in word) c)) }
    ensures count { IfOk result (λ n. length (cells_of words.new.items) ≡ length (cells_of words.old.items) + n) }
    ensures err { OnErr result (words.new.items ≡ words.old.items) }
{
    let seat = seat(words, word.place);
    if is_at(words, seat, word.place) {
        return Ok(put_at(words, seat, word));
    }
    words.insert(seat, word)?;
    Ok(word.bits.count_ones())
}

/// Takes a cell out of the word of its place, which is at that seat, and tells how many it took.
fn take_at(words: &mut [Word], seat: usize, cell: u32) -> u32
    requires words { AreWords 0 words.old }
    requires seat { IsOf (cell / 64) words.old seat }
    ensures words { AreWords 0 words.new }
    ensures cells { (c : ℕ) → nat_eq c cell ≡ false
        → is_member (cells_of words.new) c ≡ is_member (cells_of words.old) c }
    ensures gone { is_member (cells_of words.new) cell ≡ false }
    ensures count { length (cells_of words.old) ≡ length (cells_of words.new) + result }
{
    let before = words[seat];
    let bits = before.bits & !(1u64 << (cell % BITS));
    words[seat] = Word { bits, ..before };
    before.bits.count_ones() - bits.count_ones()
}

/// Takes a cell out of words, and tells how many were taken out: none where it isn't there.
pub(crate) fn take_out(words: &mut [Word], cell: u32) -> u32
    requires { AreWords 0 words.old }
    ensures words { AreWords 0 words.new }
    ensures cells { (c : ℕ) → nat_eq c cell ≡ false
        → is_member (cells_of words.new) c ≡ is_member (cells_of words.old) c }
    ensures gone { is_member (cells_of words.new) cell ≡ false }
    ensures count { length (cells_of words.old) ≡ length (cells_of words.new) + result }
{
    let place = cell / BITS;
    let seat = seat(words, place);
    if is_at(words, seat, place) {
        take_at(words, seat, cell)
    } else {
        0
    }
}

/// Whether a word has a cell.
fn has_cells(word: &Word) -> bool
    ensures { result ≡ has_cells word.now }
{
    word.bits != 0
}

/// Whether most of some words have no cell.
pub(crate) fn are_sparse(words: &[Word]) -> bool {
    let mut empty = 0usize;
    for word in words {
        if !has_cells(word) {
            empty = empty.saturating_add(1);
        }
    }
    empty > words.len() / 2
}

/// Takes out the words that have no cell. It takes no memory.
pub(crate) fn keep_filled(words: &mut Vec<Word>)
    ensures { words.new.items ≡ filter has_cells words.old.items }
{
    words.retain(|word| has_cells(word));
}

/// Puts the cells of a word last, in their order.
fn push_cells(word: &Word, cells: &mut Vec<usize>) -> Result<(), AllocError>
    requires { IsWord word.now }
    ensures { OnOk result (cells.new.items ≡ cells.old.items ++ cells_in word.now) }
{
    let first = (word.place * BITS) as usize;
    let mut bits = word.bits;
    while bits != 0 {
        cells.push(first + bits.trailing_zeros() as usize)?;
        bits &= bits - 1;
    }
    Ok(())
}

/// Puts the cells of words last, in their order.
pub(crate) fn push_all(words: &[Word], cells: &mut Vec<usize>) -> Result<(), AllocError>
    requires { AreWords 0 words.now }
    ensures { OnOk result (cells.new.items ≡ cells.old.items ++ cells_of words.now) }
{
    for word in words {
        push_cells(word, cells)?;
    }
    Ok(())
}
