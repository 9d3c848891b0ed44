//! The check of a policy by a reader and by a writer that break.

use crate::serving::Narrow;
use cli_check::check_from;
use ent_line::ServeFault;
use std::alloc::Global;
use std::io;
use std::io::{ErrorKind, Read};

/// A policy of one rule.
const POLICY: &str = r#"{"Policy":{"PolicyId":"p3","Version":"1",
       "RuleCombiningAlgId":"urn:oasis:names:tc:xacml:3.0:rule-combining-algorithm:deny-overrides",
       "Rule":[{"RuleId":"ok","Effect":"Permit"}]}}"#;

/// A reader that gives its bytes one by one, each behind an interruption, and then fails.
#[derive(Drop)]
pub(crate) struct Breaking<'a> {
    text: &'a [u8],
    interrupted: bool,
}

impl<'a> Breaking<'a> {
    pub(crate) fn new(text: &'a [u8]) -> Breaking<'a> {
        Breaking {
            text,
            interrupted: false,
        }
    }
}

impl Read for Breaking<'_> {
    fn read(&mut self, buf: &mut [u8]) -> io::Result<usize> {
        self.interrupted = !self.interrupted;
        if self.interrupted {
            return Err(io::Error::from(ErrorKind::Interrupted));
        }
        if self.text.is_empty() || buf.is_empty() {
            return Err(io::Error::from(ErrorKind::BrokenPipe));
        }
        buf[0] = self.text[0];
        self.text = &self.text[1..];
        Ok(1)
    }
}

/// What a check of a text comes to whose reader breaks behind it, and whether nothing is said of it.
fn broken(alloc: Global, text: &str) -> (Result<bool, ServeFault>, bool) {
    let mut reader = Breaking::new(text.as_bytes());
    let mut line = Vec::new(alloc);
    let end = check_from(alloc, &mut reader, &mut line);
    (end, line.is_empty())
}

#[test]
fn a_reader_that_breaks_has_no_verdict(rt: HostRuntime) {
    assert!(rt; broken(rt.alloc(), POLICY) == (Err(ServeFault::Read), true));
}

/// Texts and how many bytes a writer takes, with what a check comes to and what the writer has taken.
const ROOMS: &[(&str, usize, Result<bool, ServeFault>, &str)] = &[
    (POLICY, 1000, Ok(true), "ok Policy p3 1\n"),
    (POLICY, 12, Err(ServeFault::Write), "ok Policy p3"),
    ("{", 1000, Ok(false), "refused 2\n"),
];

/// What a check of a text comes to whose writer takes so many bytes, and what it has taken.
fn narrowed(alloc: Global, text: &str, room: usize) -> (Result<bool, ServeFault>, Vec<u8>) {
    let mut writer = Narrow {
        taken: Vec::new(alloc),
        room,
        flushes: true,
    };
    let end = check_from(alloc, &mut text.as_bytes(), &mut writer);
    (end, writer.taken)
}

/// Whether it comes to that, and the writer has taken this.
fn is_cut(
    alloc: Global,
    text: &str,
    room: usize,
    end: Result<bool, ServeFault>,
    written: &str,
) -> bool {
    let (its_end, taken) = narrowed(alloc, text, room);
    its_end == end && taken.as_slice() == written.as_bytes()
}

#[test]
fn a_writer_that_breaks_holds_a_front(rt: HostRuntime) {
    for &(text, room, end, written) in ROOMS {
        assert!(rt; is_cut(rt.alloc(), text, room, end, written), "{room}");
    }
}
