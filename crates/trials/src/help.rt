//! What is said of words that ask for help, and of words that the program doesn't take.

const HELP: &str = "\
Answers XACML requests, and keeps a review table of their answers

Usage: review <COMMAND>

Commands:
  serve    Serves commands on standard input, one line each, to standard output
  check    Says whether the policies in files may be stored, or why not
  lines    Writes the lines of a dump on standard input to standard output
  test     Runs the tests in files, and says which replies are not as expected
  compare  Says which requests have another decision or other reasons in another state
  help     Print this message or the help of the given subcommand(s)

Options:
  -h, --help     Print help
  -V, --version  Print version
";

const HELP_OF_SERVE: &str = "\
Serves commands on standard input, one line each, to standard output

Usage: review serve [OPTIONS]

Options:
      --attribute-modules <N>  How many modules hold values of attributes, from 1 to 4 [default: 2]
      --policy-modules <N>     How many modules hold policies, from 1 to 4 [default: 2]
      --people <N>             How many people may be listed, up to 65536 [default: 256]
      --actions <N>            How many actions may be listed, up to 1024 [default: 32]
      --resources <N>          How many resources may be listed, up to 65536 [default: 256]
      --cells <N>              How many cells the table may have, up to 16777216 [default: 65536]
      --documents <N>          How many policies and policy sets may be stored, up to 65536 [default: 1024]
  -h, --help                   Print help
";

const HELP_OF_CHECK: &str = "\
Says whether the policies in files may be stored, or why not

Usage: review check [OPTIONS] [FILE]...

Arguments:
  [FILE]...  Policies and policy sets in JSON, each of at most 1048576 bytes; - is standard input

Options:
      --attributes <DECLARED>  The attributes that the policies may ask for, and their values, in JSON
      --stored <STATE>         The lines of a dump, with whose policies the references are looked up
      --lines <LINES>          Lines that set values, to be compared with the attributes
      --all                    Tell what is wrong behind the first fault of a policy too
      --strict                 Count a warning as a fault
      --coverage <STATE>       The lines of a dump: tell which rules of its policies give no decision in its table
      --json                   Tell that as JSON
      --people <N>             How many people may be listed, up to 65536 [default: 256]
      --actions <N>            How many actions may be listed, up to 1024 [default: 32]
      --resources <N>          How many resources may be listed, up to 65536 [default: 256]
      --cells <N>              How many cells the table may have, up to 16777216 [default: 65536]
      --documents <N>          How many policies and policy sets may be stored, up to 65536 [default: 1024]
  -h, --help                   Print help
";

const HELP_OF_LINES: &str = "\
Writes the lines of a dump on standard input to standard output

Usage: review lines

Options:
  -h, --help  Print help
";

const HELP_OF_TEST: &str = "\
Runs the tests in files, and says which replies are not as expected

Usage: review test [OPTIONS] <FILE>...

Arguments:
  <FILE>...  Tests: lines with the replies that are expected; - is standard input

Options:
      --state <STATE>     Lines with which each test begins, as those of a dump; all have to be accepted
      --run <NAME>        Run the tests of that name alone
      --list              Say where each test begins and what it is called, and run none
      --junit <OUT>       Write what became of the tests to this file, as JUnit XML
      --coverage          Tell which rules of the policies give no decision that a test asks for
      --coverage-min <N>  The same, and fail where less than N of a hundred rules give one
      --people <N>        How many people may be listed, up to 65536 [default: 256]
      --actions <N>       How many actions may be listed, up to 1024 [default: 32]
      --resources <N>     How many resources may be listed, up to 65536 [default: 256]
      --cells <N>         How many cells the table may have, up to 16777216 [default: 65536]
      --documents <N>     How many policies and policy sets may be stored, up to 65536 [default: 1024]
  -h, --help              Print help
";

const HELP_OF_COMPARE: &str = "\
Says which requests have another decision or other reasons in another state

Usage: review compare [OPTIONS] <STATE> <CHANGES>

Arguments:
  <STATE>    The lines of a state, as those of a dump; - is standard input
  <CHANGES>  Lines that change it, or those of a dump of another state; - is standard input

Options:
      --text            Write a table for a person, and no JSON
      --markdown        Write Markdown of at most 50 lines: who gains Permit and who loses it, by rule
      --fail-on <KIND>  End with 4 where a request gains Permit, loses it, or anything differs, and else with 0 \
[possible values: gain, loss, any]
      --people <N>      How many people may be listed, up to 65536 [default: 256]
      --actions <N>     How many actions may be listed, up to 1024 [default: 32]
      --resources <N>   How many resources may be listed, up to 65536 [default: 256]
      --cells <N>       How many cells the table may have, up to 16777216 [default: 65536]
      --documents <N>   How many policies and policy sets may be stored, up to 65536 [default: 1024]
  -h, --help            Print help
";

const NO_COMMAND: &str = "\
error: 'review' requires a subcommand but one was not provided
  [subcommands: serve, check, lines, test, compare, help]

Usage: review <COMMAND>

For more information, try '--help'.
";

const NO_FILE: &str = "\
error: the following required arguments were not provided:
  <FILE>...

Usage: review check <FILE>...

For more information, try '--help'.
";

const A_DUMP: &str = "\
error: unexpected argument 'dump.json' found

Usage: review lines

For more information, try '--help'.
";

const FIVE_MODULES: &str = "\
error: invalid value '5' for '--policy-modules <N>': 5 is not in 1..=4

For more information, try '--help'.
";

const NO_SUCH_COMMAND: &str = "\
error: unrecognized subcommand 'surve'

  tip: a similar subcommand exists: 'serve'

Usage: review <COMMAND>

For more information, try '--help'.
";

/// Words that ask for help or that can't be used, with what is said of them and the status.
pub(crate) const SAID: &[(&[&str], &str, u8)] = &[
    (&["--help"], HELP, 0),
    (&["serve", "--help"], HELP_OF_SERVE, 0),
    (&["check", "-h"], HELP_OF_CHECK, 0),
    (&["lines", "--help"], HELP_OF_LINES, 0),
    (&["test", "--help"], HELP_OF_TEST, 0),
    (&["compare", "--help"], HELP_OF_COMPARE, 0),
    (&[], NO_COMMAND, 1),
    (&["check"], NO_FILE, 1),
    (&["lines", "dump.json"], A_DUMP, 1),
    (&["serve", "--policy-modules", "5"], FIVE_MODULES, 1),
    (&["surve"], NO_SUCH_COMMAND, 1),
];
