//! The whole program: what it writes, what it says on standard error, and its status.

use crate::machine::{Machine, is_all, is_front};
use ent_program::run;
use std::alloc::Global;

/// A policy of one rule.
const POLICY: &str = r#"{"Policy":{"PolicyId":"p3","Version":"1",
       "RuleCombiningAlgId":"urn:oasis:names:tc:xacml:3.0:rule-combining-algorithm:deny-overrides",
       "Rule":[{"RuleId":"ok","Effect":"Permit"}]}}"#;

/// Words, with what is written for them, what is said, and the status. The input and the file hold the policy.
const RUNS: &[(&[&str], &str, &str, u8)] = &[
    (
        &["review", "--version"],
        "review 1.1.0 (logic dac8208d650f15bf)\n",
        "",
        0,
    ),
    (
        &["review", "-V"],
        "review 1.1.0 (logic dac8208d650f15bf)\n",
        "",
        0,
    ),
    (&["review", "check", "whole"], "ok Policy p3 1\n", "", 0),
    (&["review", "check", "-"], "ok Policy p3 1\n", "", 0),
    (
        &["review", "check", "none"],
        "",
        "review: read fault\nnone: No such file or directory (os error 2)\n",
        2,
    ),
    (
        &["review", "check", "broken"],
        "",
        "review: read fault\nbroken: Input/output error (os error 5)\n",
        2,
    ),
    (&["review", "lines"], "", "review: not a dump\n", 1),
    (
        &["review", "serve", "--people", "0"],
        "",
        "review: --people takes a whole number from 1 to 65536, and not '0'\n",
        2,
    ),
    (
        &["review", "compare", "--cells", "many", "none", "none"],
        "",
        "review: --cells takes a whole number from 1 to 16777216, and not 'many'\n",
        2,
    ),
];

/// Whether the machine has written and said that and no more, and the status is that.
pub(crate) fn has_run(
    machine: &Machine<'_>,
    is_terminal: bool,
    written: &str,
    told: &str,
    status: u8,
) -> bool {
    let its_status = run(machine, is_terminal);
    its_status == status && is_all(&machine.written, written) && is_all(&machine.told, told)
}

/// Whether words have that end where the input and the file hold the policy.
fn is_run(alloc: Global, words: &[&str], written: &str, told: &str, status: u8) -> bool {
    let machine = Machine::new(alloc, words, POLICY, POLICY);
    has_run(&machine, false, written, told, status)
}

#[test]
fn what_is_written_and_said(rt: HostRuntime) {
    for &(words, written, told, status) in RUNS {
        assert!(rt;
            is_run(rt.alloc(), words, written, told, status),
            "{words:?}"
        );
    }
}

/// A policy whose effect has a small letter.
const SMALL_LETTER: &str = r#"{"Policy":{"PolicyId":"p3","Version":"1",
 "RuleCombiningAlgId":"urn:oasis:names:tc:xacml:3.0:rule-combining-algorithm:deny-overrides",
 "Rule":[{"RuleId":"ok","Effect":"permit"}]}}"#;

/// What is said of it.
const SMALL_LETTER_TOLD: &str = "\
review: a key is unknown or missing, or what stands at it has the wrong form
whole: /Policy/Rule/0/Effect: line 3, column 34: `Effect` is `permit`, and not `Permit` or `Deny`; \
did you mean `Permit`?
";

/// A policy that asks for an attribute of the resource.
const ASKING: &str = r#"{"Policy":{"PolicyId":"p","Version":"1",
 "RuleCombiningAlgId":"urn:oasis:names:tc:xacml:3.0:rule-combining-algorithm:deny-overrides",
 "Target":{"AnyOf":[{"AllOf":[{"Match":[{"MatchId":"urn:oasis:names:tc:xacml:1.0:function:string-equal",
  "AttributeValue":{"Value":"plan"},"AttributeDesignator":
  {"Category":"urn:oasis:names:tc:xacml:3.0:attribute-category:resource",
   "AttributeId":"kind","DataType":"string"}}]}]}]},
 "Rule":[{"RuleId":"ok","Effect":"Permit"}]}}"#;

/// A list with that attribute.
const DECLARED: &str =
    r#"{"Attributes":[{"Category":"urn:oasis:names:tc:xacml:3.0:attribute-category:resource",
 "AttributeId":"kind","DataType":"string"}]}"#;

/// A list without attributes.
const NONE_DECLARED: &str = r#"{"Attributes":[]}"#;

/// A set with references to two policies.
const TWO_REFERENCES: &str = r#"{"PolicySet":{"PolicySetId":"s","Version":"1",
 "PolicyCombiningAlgId":"urn:oasis:names:tc:xacml:3.0:policy-combining-algorithm:deny-overrides",
 "Children":[{"PolicyIdReference":{"Id":"p"}},{"PolicyIdReference":{"Id":"q"}}]}}"#;

/// The line of a dump that adds one of them.
const STORED: &str =
    r#"{"do":"policy.add","document":{"Policy":{"PolicyId":"p","Version":"1","RuleCombiningAlgId":"urn:oasis:names:tc:xacml:3.0:rule-combining-algorithm:deny-overrides"}},"module":0}"#;

/// Words that check the file or the input, with the file and the input, what is written, what is said at the beginning,
/// and the status.
const CHECKED: &[(&[&str], &str, &str, &str, &str, u8)] = &[
    (
        &["review", "check", "whole"],
        SMALL_LETTER,
        "",
        "refused 6 9\n",
        SMALL_LETTER_TOLD,
        1,
    ),
    (
        &["review", "check", "-"],
        "",
        "{\"Policy\":",
        "refused 2\n",
        "review: the file isn't JSON\nstandard input: line 1, column 11: ",
        1,
    ),
    (
        &["review", "check", "whole", "-"],
        SMALL_LETTER,
        TWO_REFERENCES,
        "refused 6 9\nok PolicySet s 1\n",
        "review: a key is unknown or missing, or what stands at it has the wrong form\nwhole: /",
        1,
    ),
];

/// Files of attributes beside a policy that asks for one, with what is written, what is said at the beginning, and the
/// status.
const OF_ATTRIBUTES: &[(&str, &str, &str, u8)] = &[
    (DECLARED, "ok Policy p 1\n", "", 0),
    (
        NONE_DECLARED,
        "ok Policy p 1\n",
        "review: the document asks for an attribute, or compares with a value, that isn't declared\nstandard input: ",
        1,
    ),
    (
        "{}",
        "",
        "review: the file of attributes hasn't the form of one\nwhole: ",
        1,
    ),
];

/// Files of a state beside a set with references, with what is written, and what is said at the beginning.
const OF_STATE: &[(&str, &str, &str)] = &[
    (
        STORED,
        "ok PolicySet s 1\n",
        "standard input: /PolicySet/Children/1: line 3, column 47: no Policy q is stored\nreview: 1 fault\n",
    ),
    (
        "{\"do\":\"work\"}",
        "",
        "review: the file of the state hasn't the lines of a dump\nwhole: line 1\n",
    ),
];

/// Whether a check has that end.
fn is_checked(
    alloc: Global,
    words: &[&str],
    file: &str,
    input: &str,
    written: &str,
    told: &str,
    status: u8,
) -> bool {
    let machine = Machine::new(alloc, words, input, file);
    let its_status = run(&machine, false);
    its_status == status
        && is_all(&machine.written, written)
        && is_front(&machine.told, told)
        && told.is_empty() == is_all(&machine.told, "")
}

#[test]
fn what_is_said_of_documents(rt: HostRuntime) {
    for &(words, file, input, written, told, status) in CHECKED {
        assert!(rt;
            is_checked(rt.alloc(), words, file, input, written, told, status),
            "{told}"
        );
    }
}

#[test]
fn what_is_said_beside_attributes(rt: HostRuntime) {
    for &(file, written, told, status) in OF_ATTRIBUTES {
        let words = &["review", "check", "--attributes", "whole", "-"];
        assert!(rt;
            is_checked(rt.alloc(), words, file, ASKING, written, told, status),
            "{told}"
        );
    }
}

#[test]
fn what_is_said_beside_a_state(rt: HostRuntime) {
    for &(file, written, told) in OF_STATE {
        let words = &["review", "check", "--stored", "whole", "-"];
        assert!(rt;
            is_checked(rt.alloc(), words, file, TWO_REFERENCES, written, told, 1),
            "{told}"
        );
    }
}

/// Words that read an input which breaks behind one line.
const BROKEN: &[(&[&str], &str)] = &[
    (&["review", "serve"], "{\"changes\":0,\"serial\":1}\n"),
    (&["review", "check", "-"], ""),
    (&["review", "lines"], ""),
];

/// Whether the cause of the fault is told of an input that breaks, behind what is written.
fn is_broken(alloc: Global, words: &[&str], written: &str) -> bool {
    let mut machine = Machine::new(
        alloc,
        words,
        "{\"do\":\"person.add\",\"name\":\"ann\"}\n",
        "",
    );
    machine.breaks = true;
    let told = "review: read fault\nstandard input: Input/output error (os error 5)\n";
    has_run(&machine, false, written, told, 2)
}

#[test]
fn why_an_input_is_not_read(rt: HostRuntime) {
    for &(words, written) in BROKEN {
        assert!(rt; is_broken(rt.alloc(), words, written), "{words:?}");
    }
}

/// What is said at a terminal.
const AT_A_TERMINAL: &str =
    "review: one command a line, as docs/COMMANDS.md says; Ctrl-D at the beginning of a line \
ends; a terminal cuts lines at 4,095 bytes\n";

/// Whether that is said by a service at a terminal or elsewhere, beside its reply.
fn is_served(alloc: Global, is_terminal: bool, told: &str) -> bool {
    let machine = Machine::new(alloc, &["review", "serve"], "{\"do\":\"counts\"}\n", "");
    let status = run(&machine, is_terminal);
    status == 0 && is_all(&machine.told, told)
}

#[test]
fn a_service_at_a_terminal_says_how_to_end_it(rt: HostRuntime) {
    assert!(rt; is_served(rt.alloc(), true, AT_A_TERMINAL));
    assert!(rt; is_served(rt.alloc(), false, ""));
}
