//! The program once more, as it is called with other numbers of modules and other limits than without options: the gate
//! runs a program with one list of words.
#![tactic(auto)]

use ent_program::run;
use std::io::IsTerminal;
use std::process::ExitCode;

fn main(rt: HostRuntime) -> ExitCode {
    ExitCode::from(run(&rt, rt.stdin().is_terminal()))
}
