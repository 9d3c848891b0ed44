//! The program: `review serve` serves commands on standard input, one line each, to standard output, and
//! `review check FILE` says whether the policy in a file may be stored.
#![tactic(auto)]

use ent_program::run;
use std::io::IsTerminal;
use std::process::ExitCode;

fn main(rt: HostRuntime) -> ExitCode {
    ExitCode::from(run(&rt, rt.stdin().is_terminal()))
}
