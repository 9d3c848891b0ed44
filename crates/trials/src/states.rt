//! States that are compared, by the whole program.

use crate::machine::Machine;
use crate::program::has_run;
use std::alloc::Global;

/// Lines of a state with one cell.
const ONE_CELL: &str = "\
{\"do\":\"person.add\",\"name\":\"ann\"}
{\"do\":\"action.add\",\"name\":\"read\"}
{\"do\":\"resource.add\",\"name\":\"plan\"}
";

/// The table that a person reads of one more.
const ONE_MORE: &str = "\
none to NotApplicable: 1
reasons: 0

person  action  resource  before  after          rules before  rules after  also another
ben     read    plan      none    NotApplicable                             
";

/// Changes to them, with the form that is asked for, what is written, and the status.
const COMPARED: &[(&str, &str, &str, u8)] = &[
    (
        "--text",
        "{\"do\":\"person.add\",\"name\":\"ben\"}\n",
        ONE_MORE,
        1,
    ),
    (
        "--",
        "{\"do\":\"serial\"}\n",
        "standard input:1: expected no refusal\nstandard input:1: replied {\"refused\":4}\n",
        2,
    ),
    (
        "--",
        "",
        "{\"counts\":{\"reasons\":0},\"decisions\":[],\"reasons\":[]}\n",
        0,
    ),
];

/// Whether a comparison of a state with changes to it has that end.
fn is_compared(alloc: Global, form: &str, changes: &str, written: &str, status: u8) -> bool {
    let words = &["review", "compare", form, "whole", "-"];
    let machine = Machine::new(alloc, words, changes, ONE_CELL);
    has_run(&machine, false, written, "", status)
}

#[test]
fn states_compared(rt: HostRuntime) {
    for &(form, changes, written, status) in COMPARED {
        assert!(rt;
            is_compared(rt.alloc(), form, changes, written, status),
            "{changes}"
        );
    }
}
