//! Files whose tests can't run, and what is told of them.

ghost use Rattle.std.specs.Prelude.{◌≡◌, ◌≢◌, IfErr, IfOk};
ghost use Rattle.ent_wire.specs.Pieces.{Sends};
ghost use Rattle.ent_wire.specs.declared.fault.ServeFault.TheVariants.{Read};
ghost use Rattle.cli_replies.specs.Comparing.{told_at};
ghost use Rattle.cli_test.specs.Testing.{Untested, misplaced_line, mistake_text};

use cli_replies::tell;
use ent_values::Items;
use ent_wire::{ServeFault, send_all};
use script_files::Mistake;
use script_junit::Suite;
use std::alloc::{AllocError, Global};
use std::io::Write;

/// What is told of a file without tests.
pub(crate) const NO_TEST: &[u8] = b"no test begins here";

/// What is told of a line that can't stand where it stands.
fn mistake_text(mistake: Mistake) -> &'static str
    ensures { result.now ≡ mistake_text mistake }
{
    match mistake {
        Mistake::NoHeading => "a test begins with # NAME",
        Mistake::NoLine => "a reply stands right below the line that is sent",
        Mistake::Repeated => "what comes many times ends with an empty line",
        Mistake::Modules => "a test has from 1 to 4 modules of each sort",
        Mistake::NoMark => "a line begins with # > < = ~ * and a space, or with --",
    }
}

/// Writes which line of a file can't stand where it stands, and why.
pub(crate) fn tell_mistake<W: Write>(
    name: &str,
    number: u64,
    mistake: Mistake,
    writer: &mut W,
) -> Result<(), ServeFault>
    ensures { Sends (W.contents writer.old) (W.contents writer.new) (misplaced_line name.now number mistake) result }
{
    let said = mistake_text(mistake).as_bytes();
    tell(name, number, ": this line can't stand here: ", said, writer)
}

/// A line on a file: a word, and what is said behind it.
pub(crate) fn line_on(
    alloc: Global,
    name: &str,
    number: u64,
    word: &str,
    said: &[u8],
) -> Result<Vec<u8>, AllocError>
    ensures { IfOk result (λ v. v.items ≡ told_at name.now number word.now said.now) }
{
    let mut line = Vec::new(alloc);
    match tell(name, number, word, said, &mut line) {
        Ok(()) => Ok(line),
        // A list takes a line as long as there is memory.
        Err(_) => Err(AllocError),
    }
}

/// The line on a file of which the line of that number can't stand where it stands.
pub(crate) fn misplaced_line(
    alloc: Global,
    name: &str,
    number: u64,
    mistake: Mistake,
) -> Result<Vec<u8>, AllocError>
    ensures { IfOk result (λ v. v.items ≡ misplaced_line name.now number mistake) }
{
    let mut line = Vec::new(alloc);
    match tell_mistake(name, number, mistake, &mut line) {
        Ok(()) => Ok(line),
        // A list takes a line as long as there is memory.
        Err(_) => Err(AllocError),
    }
}

/// Writes why the tests of a file can't run, as a line on it.
pub(crate) fn untested<'n, W: Write>(
    alloc: Global,
    name: &'n str,
    line: Vec<u8>,
    writer: &mut W,
) -> Result<Suite<'n>, ServeFault>
    ensures name { IfOk result (λ suite. suite.name.now ≡ name.now) }
    ensures told { IfOk result (λ suite. Untested (W.contents writer.old) (W.contents writer.new) suite line.items) }
    ensures fault { IfErr result (λ e. e ≢ Read) }
{
    send_all(writer, &[line.as_slice()])?;
    Ok(Suite {
        name,
        cases: Items::new(alloc),
        error: Some(Items::from_vec(line)),
    })
}
