//! Tests of files, as the whole program runs them.

use crate::machine::Machine;
use crate::program::has_run;
use std::alloc::Global;

/// Two tests, of which the second expects another reply.
const TESTS: &str = "\
# passes
> {\"do\":\"person.add\",\"name\":\"ann\"}
< {\"changes\":0,\"serial\":1}
# fails
> {\"do\":\"person.add\",\"name\":\"ann\"}
< {\"changes\":0,\"serial\":2}
";

/// What is written of them.
const DIFFERENCE: &str = "\
whole:5: expected {\"changes\":0,\"serial\":2}
whole:5: replied {\"changes\":0,\"serial\":1}
whole:4: failed fails
1 passed, 1 failed
";

/// What is written of them where the second file can't be opened, which counts as a test that failed.
const BESIDE_THE_FAULT: &str = "\
whole:5: expected {\"changes\":0,\"serial\":2}
whole:5: replied {\"changes\":0,\"serial\":1}
whole:4: failed fails
1 passed, 2 failed
";

/// Lines as an editor of another system ends them.
const OTHER_ENDS: &str =
    "# passes\r\n\r\n> {\"do\":\"person.add\",\"name\":\"ann\"}\r\n< {\"changes\":0,\"serial\":1}\r\n";

/// Replies that are compared as JSON, and aren't as expected.
const AS_JSON: &str = "\
# as_json
> {\"do\":\"person.add\",\"name\":\"ann\"}
= {\"serial\":2,\"changes\":0}
> {\"do\":\"table\"}
~ {\"table\":[{}]}
";

/// What is written of them.
const AS_JSON_TOLD: &str = "\
whole:2: expected = {\"serial\":2,\"changes\":0}
whole:2: replied {\"changes\":0,\"serial\":1}
whole:2: differs at /serial: expected 2, replied 1
whole:4: expected ~ {\"table\":[{}]}
whole:4: replied {\"table\":[]}
whole:4: differs at /table/0: expected {}, no member has it
whole:1: failed as_json
0 passed, 1 failed
";

/// A test that passes.
const PASSES: &str = "# passes\n> {\"do\":\"table\"}\n< {\"table\":[]}\n";

/// Names of inputs, with the tests in them, what is written, and the status.
const READ: &[(&str, &str, &str, u8)] = &[
    ("whole", TESTS, DIFFERENCE, 1),
    (
        "-",
        "> {\"do\":\"table\"}\n",
        "standard input:1: this line can't stand here: a test begins with # NAME\n0 passed, 1 failed\n",
        1,
    ),
    (
        "whole",
        "# t 9\n",
        "whole:1: this line can't stand here: a test has from 1 to 4 modules of each sort\n0 passed, 1 failed\n",
        1,
    ),
    (
        "whole",
        "-- nothing\n",
        "whole:1: no test begins here\n0 passed, 1 failed\n",
        1,
    ),
    (
        "whole",
        "# nothing\n> {\"do\":\"table\"}\n",
        "whole:1: no reply is expected\nwhole:1: failed nothing\n0 passed, 1 failed\n",
        1,
    ),
    ("whole", AS_JSON, AS_JSON_TOLD, 1),
    ("whole", OTHER_ENDS, "1 passed, 0 failed\n", 0),
];

/// Words that ask for some tests or for their names, with what is written, and the status.
const CHOSEN: &[(&[&str], &str, u8)] = &[
    (
        &["review", "test", "--run", "passes", "whole"],
        "1 passed, 0 failed\n",
        0,
    ),
    (
        &["review", "test", "--list", "whole"],
        "whole:1: passes\nwhole:4: fails\n",
        0,
    ),
    (
        &["review", "test", "--run", "other", "whole"],
        "0 passed, 0 failed\n",
        1,
    ),
];

/// Words that ask for tests, with what is written, what is said, and the status.
const SAID: &[(&[&str], &str, &str, u8)] = &[
    (
        &["review", "test", "--junit", "none", "whole"],
        DIFFERENCE,
        "review: write fault\nnone: No such file or directory (os error 2)\n",
        2,
    ),
    (
        &["review", "test", "--junit", "broken", "whole"],
        DIFFERENCE,
        "review: write fault\nbroken: not written to its end\n",
        2,
    ),
    (
        &["review", "test", "--junit", "whole", "whole"],
        "",
        "review: --junit wants a file of its own, and no --list\n",
        1,
    ),
    (
        &["review", "test", "-", "-"],
        "",
        "review: standard input is named more than once\n",
        1,
    ),
    (
        &["review", "test", "whole", "none"],
        BESIDE_THE_FAULT,
        "review: read fault\nnone: No such file or directory (os error 2)\n",
        2,
    ),
];

/// Tests of a state that has a person.
const BEHIND: &str = "\
# with_ann
> {\"do\":\"can\",\"person\":\"ann\"}
= {\"can\":[]}
# with_ben
> {\"do\":\"person.add\",\"name\":\"ben\"}
< {\"changes\":0,\"serial\":2}
";

/// A line that adds a person.
const ANN: &str = "{\"do\":\"person.add\",\"name\":\"ann\"}\n";

/// Lines of a state, of which the second is refused.
const TWICE: &str =
    "{\"do\":\"person.add\",\"name\":\"ann\"}\n{\"do\":\"person.add\",\"name\":\"ann\"}\n";

/// What is written where it is.
const TWICE_TOLD: &str = "\
whole:2: expected no refusal
whole:2: replied {\"refused\":8}
standard input:1: failed with_ann
whole:2: expected no refusal
whole:2: replied {\"refused\":8}
standard input:4: failed with_ben
0 passed, 2 failed
";

/// Lines with which each of these tests begins, with what is written of them, and the status.
const STATED: &[(&str, &str, u8)] = &[(ANN, "2 passed, 0 failed\n", 0), (TWICE, TWICE_TOLD, 1)];

/// Whether tests behind lines have that end.
fn is_stated(alloc: Global, state: &str, written: &str, status: u8) -> bool {
    let words = &["review", "test", "--state", "whole", "-"];
    let machine = Machine::new(alloc, words, BEHIND, state);
    has_run(&machine, false, written, "", status)
}

#[test]
fn tests_behind_lines(rt: HostRuntime) {
    for &(state, written, status) in STATED {
        assert!(rt; is_stated(rt.alloc(), state, written, status), "{state}");
    }
}

/// Whether tests have that end.
fn is_tested(
    alloc: Global,
    words: &[&str],
    tests: &str,
    written: &str,
    told: &str,
    status: u8,
) -> bool {
    let machine = Machine::new(alloc, words, tests, tests);
    has_run(&machine, false, written, told, status)
}

/// Whether those of one input have it, and nothing is said.
fn is_read(alloc: Global, name: &str, tests: &str, written: &str, status: u8) -> bool {
    is_tested(alloc, &["review", "test", name], tests, written, "", status)
}

#[test]
fn tests_of_files(rt: HostRuntime) {
    for &(name, tests, written, status) in READ {
        assert!(rt;
            is_read(rt.alloc(), name, tests, written, status),
            "{tests}"
        );
    }
    let both = &["review", "test", "whole", "-"];
    assert!(rt; is_tested(rt.alloc(), both, PASSES, "2 passed, 0 failed\n", "", 0));
}

#[test]
fn some_tests_of_a_file(rt: HostRuntime) {
    for &(words, written, status) in CHOSEN {
        assert!(rt;
            is_tested(rt.alloc(), words, TESTS, written, "", status),
            "{words:?}"
        );
    }
}

#[test]
fn what_is_said_of_tests(rt: HostRuntime) {
    for &(words, written, told, status) in SAID {
        assert!(rt;
            is_tested(rt.alloc(), words, TESTS, written, told, status),
            "{words:?}"
        );
    }
}
