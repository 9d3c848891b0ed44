//! What became of tests, written as JUnit XML.

ghost use Rattle.std.specs.Prelude.{◌≢◌, IfErr, OnOk};
ghost use Rattle.std.specs.Io.KnownBytes.{Appends};
ghost use Rattle.script_junit.specs.Junit.{junit_of};
ghost use Rattle.ent_wire.specs.declared.fault.ServeFault.TheVariants.{Read};

use cli_words::tell;
use ent_values::Items;
use ent_wire::{ServeFault, send_all};
use script_junit::{Suite, junit_of};
use std::alloc::{AllocError, Global};
use std::fs::File;
use std::io::Write;
use std::rt::Files;

/// What is told of a file that can't be read, or whose tests didn't run to their end.
const BROKEN_OFF: &[u8] = b"the tests didn't run to their end: standard error says why";

/// Writes what became of the tests of files as JUnit XML ([`junit_of`]), and flushes the writer. Faults: the writer's,
/// which may have taken a front of it, and want of memory.
///
/// Its contract leaves open: when it answers want of memory, and how much a failing writer took.
pub fn send_junit<W: Write>(
    alloc: Global,
    suites: &[Suite<'_>],
    writer: &mut W,
) -> Result<(), ServeFault>
    ensures sent { OnOk result (Appends (W.contents writer.old) (W.contents writer.new) (junit_of suites.now)) }
    ensures fault { IfErr result (λ e. e ≢ Read) }
{
    let text = junit_of(alloc, suites)?;
    send_all(writer, &[text.as_slice()])?;
    match writer.flush() {
        Ok(()) => Ok(()),
        Err(_) => Err(ServeFault::Write),
    }
}

/// A file whose tests didn't run to their end.
pub(crate) fn broken_off(alloc: Global, name: &str) -> Result<Suite<'_>, AllocError> {
    let told = Vec::from_slice(alloc, BROKEN_OFF)?;
    Ok(Suite {
        name,
        cases: Items::new(alloc),
        error: Some(Items::from_vec(told)),
    })
}

/// Writes what became of the tests of files to the file of that path as JUnit XML. A fault is told on standard error.
pub(crate) fn write_junit<R: Files + Eprint + AllocGlobal>(
    rt: &R,
    path: &str,
    suites: &[Suite<'_>],
) -> Result<(), ServeFault> {
    let mut file = match File::create(rt, path) {
        Ok(file) => file,
        Err(cause) => {
            let fault = tell(rt, ServeFault::Write);
            let _ = eprintln!(rt; "{path}: {cause}");
            return Err(fault);
        }
    };
    match send_junit(rt.alloc(), suites, &mut file) {
        Ok(()) => Ok(()),
        Err(fault) => {
            let fault = tell(rt, fault);
            let _ = eprintln!(rt; "{path}: not written to its end");
            Err(fault)
        }
    }
}
