//! Runs the stored sessions: standard input holds them, and to standard output goes each reply that isn't the one that
//! a session expects, and how many of them passed.
#![tactic(auto)]

ghost use Rattle.std.specs.Prelude.{◌≡◌, ◌⊎◌};

use cli_test::{Tally, TestPlan, send_tally, test_from};
use std::io;
use std::io::{BufReader, BufWriter, Write};
use std::process::ExitCode;

/// All sessions passed.
const PASSED: u8 = 0;

/// A session failed.
const FAILED: u8 = 1;

/// Reading or writing failed, or memory was wanting.
const BROKEN: u8 = 2;

/// What the sessions are called in what is told of them.
const NAME: &str = "stdin";

/// Writes how many sessions passed, and gives the exit status for it.
fn told<W: Write>(writer: &mut W, tally: Tally) -> u8
    ensures { (result ≡ 0) ⊎ ((result ≡ 1) ⊎ (result ≡ 2)) }
{
    if send_tally(writer, tally).is_err() || writer.flush().is_err() {
        return BROKEN;
    }
    if tally.failed == 0 { PASSED } else { FAILED }
}

/// Runs the sessions of standard input, and gives the exit status.
fn run<R: Input + Print + AllocGlobal>(rt: &R) -> u8
    ensures { (result ≡ 0) ⊎ ((result ≡ 1) ⊎ (result ≡ 2)) }
{
    let alloc = rt.alloc();
    let (Ok(mut reader), Ok(mut writer)) = (
        BufReader::new(alloc, rt.reader()),
        BufWriter::new(alloc, io::writer(rt)),
    ) else {
        return BROKEN;
    };
    match test_from(alloc, TestPlan::all(), NAME, &mut reader, &mut writer) {
        Ok(suite) => told(&mut writer, Tally::of(&suite)),
        Err(_) => BROKEN,
    }
}

fn main(rt: HostRuntime) -> ExitCode {
    ExitCode::from(run(&rt))
}
