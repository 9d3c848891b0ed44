//! The lines of a dump, out of replies of several kinds, by readers that fail and into writers that fail.

use crate::checking::Breaking;
use crate::serving::Narrow;
use cli_serve::lines_status;
use ent_dump::dump_lines_within;
use ent_line::{LinesFault, dump_lines};
use std::alloc::{AllocError, Global};
use std::io;
use std::io::{ErrorKind, Read};
use std::test::Fail;

/// The reply to `dump` of a service with one policy, which is the root, a day, and one name in each list.
const REPLY: &str = "{\"dump\":[\"{\\\"do\\\":\\\"format\\\",\\\"version\\\":2}\",\
\"{\\\"do\\\":\\\"policy.add\\\",\\\"document\\\":{\\\"Policy\\\":{\\\"PolicyId\\\":\\\"p3\\\",\
\\\"Rule\\\":[{\\\"Effect\\\":\\\"Permit\\\",\\\"RuleId\\\":\\\"ok\\\"}],\\\"RuleCombiningAlgId\\\":\
\\\"urn:oasis:names:tc:xacml:3.0:rule-combining-algorithm:deny-overrides\\\",\\\"Version\\\":\\\"1\\\"}},\
\\\"module\\\":0}\",\
\"{\\\"day\\\":\\\"2025-02-28\\\",\\\"do\\\":\\\"day.set\\\"}\",\
\"{\\\"do\\\":\\\"root.set\\\",\\\"reference\\\":{\\\"PolicyIdReference\\\":{\\\"Id\\\":\\\"p3\\\"}}}\",\
\"{\\\"do\\\":\\\"person.add\\\",\\\"name\\\":\\\"ann\\\"}\",\
\"{\\\"do\\\":\\\"action.add\\\",\\\"name\\\":\\\"read\\\"}\",\
\"{\\\"do\\\":\\\"resource.add\\\",\\\"name\\\":\\\"plan\\\"}\"]}";

/// Its seven lines.
const LINES: &str = "{\"do\":\"format\",\"version\":2}\n\
{\"do\":\"policy.add\",\"document\":{\"Policy\":{\"PolicyId\":\"p3\",\
\"Rule\":[{\"Effect\":\"Permit\",\"RuleId\":\"ok\"}],\"RuleCombiningAlgId\":\
\"urn:oasis:names:tc:xacml:3.0:rule-combining-algorithm:deny-overrides\",\"Version\":\"1\"}},\
\"module\":0}\n\
{\"day\":\"2025-02-28\",\"do\":\"day.set\"}\n\
{\"do\":\"root.set\",\"reference\":{\"PolicyIdReference\":{\"Id\":\"p3\"}}}\n\
{\"do\":\"person.add\",\"name\":\"ann\"}\n\
{\"do\":\"action.add\",\"name\":\"read\"}\n\
{\"do\":\"resource.add\",\"name\":\"plan\"}\n";

/// How writing the lines of a reply ends, and what is written.
fn written(alloc: Global, reply: &str) -> (Result<(), LinesFault>, Vec<u8>) {
    let mut lines = Vec::new(alloc);
    let end = dump_lines(alloc, &mut reply.as_bytes(), &mut lines);
    (end, lines)
}

/// Whether those are the lines of a reply, or this is the fault of it, and then nothing is written.
fn is_written(alloc: Global, reply: &str, want: Result<&str, LinesFault>) -> bool {
    let (end, lines) = written(alloc, reply);
    match want {
        Ok(text) => end == Ok(()) && lines.as_slice() == text.as_bytes(),
        Err(fault) => end == Err(fault) && lines.is_empty(),
    }
}

/// Replies with their lines, if they are dumps. White space stands where JSON allows it, and of two lists the last
/// counts. Others are no JSON, cut or followed by more; have other keys; no list of texts; or a text of two lines.
const REPLIES: &[(&str, Result<&str, LinesFault>)] = &[
    (REPLY, Ok(LINES)),
    ("{\"dump\":[]}", Ok("")),
    (" { \"dump\" : [ \"a\" , \"\" ] }\r\n", Ok("a\n\n")),
    ("{\"dump\":[\"a\"],\"dump\":[\"b\",\"c\"]}", Ok("b\nc\n")),
    ("", Err(LinesFault::NotDump)),
    ("{\"dump\":[\"a\"]", Err(LinesFault::NotDump)),
    ("{\"dump\":[\"a\"]} {}", Err(LinesFault::NotDump)),
    ("{}", Err(LinesFault::NotDump)),
    ("{\"dump\":[\"a\"],\"version\":2}", Err(LinesFault::NotDump)),
    ("[\"a\"]", Err(LinesFault::NotDump)),
    ("{\"dump\":\"a\"}", Err(LinesFault::NotDump)),
    ("{\"dump\":[\"a\",1]}", Err(LinesFault::NotDump)),
    ("{\"dump\":[\"a\",\"b\\nc\"]}", Err(LinesFault::NotDump)),
];

#[test]
fn each_dump_has_its_lines(rt: HostRuntime) {
    for &(reply, lines) in REPLIES {
        assert!(rt; is_written(rt.alloc(), reply, lines), "{reply}");
    }
}

#[test]
fn a_reader_that_breaks_has_no_lines(rt: HostRuntime) {
    let mut reader = Breaking::new(REPLY.as_bytes());
    let mut lines = Vec::new(rt.alloc());
    let end = dump_lines(rt.alloc(), &mut reader, &mut lines);
    assert_eq!(rt; end, Err(LinesFault::Read));
    assert!(rt; lines.is_empty());
    assert_eq!(rt; lines_status(&rt, end), 2);
}

/// A dump of one line of so many bytes.
fn long_dump(alloc: Global, length: usize) -> Result<Vec<u8>, AllocError> {
    let mut reply = Vec::new(alloc);
    reply.extend_from_slice(b"{\"dump\":[\"")?;
    let end = reply.len().saturating_add(length);
    reply.resize(end, b'a')?;
    reply.extend_from_slice(b"\"]}")?;
    Ok(reply)
}

/// How writing the lines of a dump of one line of so many bytes ends, with so many reads, and how much is written.
fn long_written(
    alloc: Global,
    length: usize,
    reads: u32,
) -> Result<(Result<(), LinesFault>, usize), AllocError> {
    let reply = long_dump(alloc, length)?;
    let mut lines = Vec::new(alloc);
    let end = dump_lines_within(alloc, &mut reply.as_slice(), &mut lines, reads);
    Ok((end, lines.len()))
}

/// Lengths of a line with a number of reads, how writing that dump ends, and how much is written. A read gives 65,536
/// bytes, and the last one shows that there are no more.
const LONG: &[(usize, u32, Result<(), LinesFault>, usize)] = &[
    (3, 0, Err(LinesFault::Read), 0),
    (3, 1, Err(LinesFault::Read), 0),
    (3, 2, Ok(()), 4),
    (65_523, 2, Ok(()), 65_524),
    (65_524, 2, Err(LinesFault::Read), 0),
    (65_524, 3, Ok(()), 65_525),
    (300_000, 5, Err(LinesFault::Read), 0),
    (300_000, 6, Ok(()), 300_001),
];

#[test]
fn a_dump_is_read_to_its_end(rt: HostRuntime) -> Result<(), Fail> {
    for &(length, reads, end, written) in LONG {
        let found = long_written(rt.alloc(), length, reads)?;
        assert!(rt; found == (end, written), "{length} {reads}");
    }
    let mut lines = Vec::new(rt.alloc());
    let reply = long_dump(rt.alloc(), 300_000)?;
    assert_eq!(rt;
        dump_lines(rt.alloc(), &mut reply.as_slice(), &mut lines),
        Ok(())
    );
    assert_eq!(rt; lines.len(), 300_001);
    Ok(())
}

/// A reader that gives spaces and interruptions and never ends, and counts how often it is asked.
#[derive(Drop)]
struct Endless {
    reads: u32,
}

impl Read for Endless {
    fn read(&mut self, buf: &mut [u8]) -> io::Result<usize> {
        self.reads = self.reads.saturating_add(1);
        if self.reads % 3 == 0 || buf.is_empty() {
            return Err(io::Error::from(ErrorKind::Interrupted));
        }
        buf[0] = b' ';
        Ok(1)
    }
}

#[test]
fn a_reader_that_never_ends_is_refused(rt: HostRuntime) {
    for reads in [0, 1, 2, 1000] {
        let mut reader = Endless { reads: 0 };
        let mut lines = Vec::new(rt.alloc());
        let end = dump_lines_within(rt.alloc(), &mut reader, &mut lines, reads);
        assert_eq!(rt; end, Err(LinesFault::Read));
        assert_eq!(rt; reader.reads, reads);
        assert!(rt; lines.is_empty());
    }
}

/// How writing the lines of the reply ends where the writer takes so many bytes and can be flushed or not, and what it
/// has taken.
fn narrowed(alloc: Global, room: usize, flushes: bool) -> (Result<(), LinesFault>, Vec<u8>) {
    let mut writer = Narrow {
        taken: Vec::new(alloc),
        room,
        flushes,
    };
    let end = dump_lines(alloc, &mut REPLY.as_bytes(), &mut writer);
    (end, writer.taken)
}

/// Whether a writer of so many bytes that can be flushed or not ends the call, and has taken a front of the lines.
fn is_cut(alloc: Global, room: usize, flushes: bool) -> bool {
    let (end, taken) = narrowed(alloc, room, flushes);
    end == Err(LinesFault::Write)
        && taken.len() == room
        && LINES.as_bytes().starts_with(taken.as_slice())
}

#[test]
fn a_writer_that_breaks_holds_a_front(rt: HostRuntime) -> Result<(), Fail> {
    let whole = LINES.len();
    for room in [0, 30, whole - 1] {
        assert!(rt; is_cut(rt.alloc(), room, true), "{room}");
    }
    assert!(rt; is_cut(rt.alloc(), whole, false));
    let (end, _) = narrowed(rt.alloc(), whole, true);
    assert_eq!(rt; lines_status(&rt, end), 0);
    Ok(())
}
