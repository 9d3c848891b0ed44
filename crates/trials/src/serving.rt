//! Serving readers and writers of several kinds, and what faults are called.

use crate::machine::{is_all, put};
use ent_line::{Answering, LINE_LIMIT, Refusal, Reply, ServeFault, serve, serve_within};
use ent_policy::DocFault;
use ent_table::Accepted;
use std::alloc::Global;
use std::cell::RefCell;
use std::io;
use std::io::{BufRead, ErrorKind, Read, Write};
use std::test::Fail;

/// A state that counts its lines: an accepted line has their number as its serial and its own length as its changes.
#[derive(Drop)]
struct LineTally {
    alloc: Global,
    lines: u64,
}

impl Answering for LineTally {
    ghost is_ready = { λ t. Unit {0} };

    ghost World = { Unit {0} };

    ghost world = { λ t. tt };

    ghost answers = { λ v line a w. Unit {0} };

    ghost long_lines_alike = { λ w v line other a p q h. h };

    fn handle(&mut self, line: &[u8]) -> Reply {
        self.lines = self.lines.saturating_add(1);
        if line.len() > LINE_LIMIT {
            return Reply::Refused(Refusal::TooLong);
        }
        match line.first() {
            None => Reply::Refused(Refusal::NotJson),
            Some(b'-') => Reply::Refused(Refusal::Document(DocFault::Form)),
            Some(b'"') => match String::from_str(self.alloc, "\"text\"") {
                Ok(text) => Reply::Text(text),
                Err(_) => Reply::Refused(Refusal::Memory),
            },
            Some(_) => Reply::Accepted(Accepted {
                serial: self.lines,
                changes: line.len() as u64,
            }),
        }
    }
}

/// A reader that shows so many bytes at a time. It is interrupted before each odd piece, and then ends or fails.
#[derive(Drop)]
pub(crate) struct Slow<'a> {
    text: &'a [u8],
    step: usize,
    fails: bool,
    interrupted: bool,
}

impl<'a> Slow<'a> {
    pub(crate) fn new(text: &'a [u8], step: usize, fails: bool) -> Slow<'a> {
        Slow {
            text,
            step,
            fails,
            interrupted: false,
        }
    }
}

impl Read for Slow<'_> {
    fn read(&mut self, _buf: &mut [u8]) -> io::Result<usize> {
        Ok(0)
    }
}

impl BufRead for Slow<'_> {
    fn fill_buf(&mut self) -> io::Result<&[u8]> {
        self.interrupted = !self.interrupted;
        if self.interrupted {
            return Err(io::Error::from(ErrorKind::Interrupted));
        }
        if self.text.is_empty() && self.fails {
            return Err(io::Error::from(ErrorKind::BrokenPipe));
        }
        let n = self.step.min(self.text.len());
        Ok(&self.text[..n])
    }

    fn consume(&mut self, amount: usize) {
        let n = amount.min(self.text.len());
        self.text = &self.text[n..];
    }
}

/// A writer that takes so many bytes, and then fails. It can be flushed where `flushes` is set.
#[derive(Drop)]
pub(crate) struct Narrow {
    pub(crate) taken: Vec<u8>,
    pub(crate) room: usize,
    pub(crate) flushes: bool,
}

impl Write for Narrow {
    fn write(&mut self, buf: &[u8]) -> io::Result<usize> {
        let n = buf.len().min(self.room);
        if n == 0 {
            return Err(io::Error::from(ErrorKind::BrokenPipe));
        }
        self.taken.extend_from_slice(&buf[..n])?;
        self.room -= n;
        Ok(n)
    }

    fn flush(&mut self) -> io::Result<()> {
        if self.flushes {
            Ok(())
        } else {
            Err(io::Error::from(ErrorKind::BrokenPipe))
        }
    }
}

/// What is written for the text, the number of lines, and the number of lines that were handled.
fn served(
    alloc: Global,
    text: &[u8],
    step: usize,
    fails: bool,
) -> (Vec<u8>, Result<u64, ServeFault>, u64) {
    let mut tally = LineTally { alloc, lines: 0 };
    let mut reader = Slow::new(text, step, fails);
    let mut out = Vec::new(alloc);
    let lines = serve(alloc, &mut tally, &mut reader, &mut out);
    (out, lines, tally.lines)
}

/// Whether the text, of which so many bytes are shown at a time, has that many lines and these replies.
fn is_served(alloc: Global, text: &[u8], step: usize, number: u64, replies: &str) -> bool {
    let (out, lines, handled) = served(alloc, text, step, false);
    lines == Ok(number) && handled == number && out.as_slice() == replies.as_bytes()
}

#[test]
fn serves_pieces(rt: HostRuntime) {
    let text = "abc\n\n-\n\"q\"\ndefgh";
    let replies =
        "{\"changes\":3,\"serial\":1}\n{\"refused\":2}\n{\"refused\":6,\"sub\":9}\n\"text\"\n{\"changes\":5,\"serial\":5}\n";
    for step in [1, 7, 1000] {
        assert!(rt;
            is_served(rt.alloc(), text.as_bytes(), step, 5, replies),
            "{step}"
        );
    }
}

/// Texts with how serving them ends within five looks, and how many lines were handled. The first, third and fifth look
/// are interrupted; the second and the fourth show what is left, take a line of it at most, and may find the end.
const FIVE_LOOKS: &[(&str, Result<u64, ServeFault>, u64)] = &[
    ("", Ok(0), 0),
    ("a", Ok(1), 1),
    ("a\n", Ok(1), 1),
    ("a\nb", Err(ServeFault::Read), 1),
    ("a\nb\n", Err(ServeFault::Read), 2),
    ("a\nb\nc\n", Err(ServeFault::Read), 2),
];

/// How serving a text ends within five looks, and how many lines were handled.
fn within_five(alloc: Global, text: &str) -> (Result<u64, ServeFault>, u64) {
    let mut tally = LineTally { alloc, lines: 0 };
    let mut reader = Slow::new(text.as_bytes(), 1000, false);
    let mut out = Vec::new(alloc);
    let lines = serve_within(alloc, &mut tally, &mut reader, &mut out, 5);
    (lines, tally.lines)
}

#[test]
fn ends_after_so_many_looks(rt: HostRuntime) {
    for &(text, end, number) in FIVE_LOOKS {
        assert!(rt; within_five(rt.alloc(), text) == (end, number), "{text}");
    }
}

#[test]
fn stops_at_a_read_fault(rt: HostRuntime) {
    let (out, lines, handled) = served(rt.alloc(), "ab\ncd".as_bytes(), 2, true);
    assert_eq!(rt; lines, Err(ServeFault::Read));
    assert_eq!(rt; handled, 1);
    assert!(rt; out.as_slice() == "{\"changes\":2,\"serial\":1}\n".as_bytes());
}

/// What is written of the replies to a text, the number of lines, and the number of lines that were handled, where
/// the writer takes so many bytes.
fn narrowed(
    alloc: Global,
    text: &str,
    room: usize,
    flushes: bool,
) -> (Vec<u8>, Result<u64, ServeFault>, u64) {
    let mut tally = LineTally { alloc, lines: 0 };
    let mut reader = Slow::new(text.as_bytes(), 9, false);
    let mut narrow = Narrow {
        taken: Vec::new(alloc),
        room,
        flushes,
    };
    let lines = serve(alloc, &mut tally, &mut reader, &mut narrow);
    (narrow.taken, lines, tally.lines)
}

/// How many bytes a writer takes and whether it can be flushed, with how many it holds in the end, and how many lines
/// were handled. One that can't be flushed holds the replies to all three, of which none is waited for.
const ROOMS: &[(usize, bool, usize, u64)] = &[
    (24, true, 24, 1),
    (25, true, 25, 2),
    (30, true, 30, 2),
    (90, false, 75, 3),
];

/// Whether a writer that takes so many bytes ends with a write fault, a front of the replies and so many lines handled.
fn is_cut(alloc: Global, room: usize, flushes: bool, written: usize, number: u64) -> bool {
    let (taken, lines, handled) = narrowed(alloc, "abc\ndef\nghi\n", room, flushes);
    let is_front = taken.len() == written && REPLIES.as_bytes().starts_with(taken.as_slice());
    is_front && lines == Err(ServeFault::Write) && handled == number
}

/// The replies to those lines.
const REPLIES: &str =
    "{\"changes\":3,\"serial\":1}\n{\"changes\":3,\"serial\":2}\n{\"changes\":3,\"serial\":3}\n";

#[test]
fn stops_at_a_write_fault(rt: HostRuntime) {
    for &(room, flushes, written, number) in ROOMS {
        assert!(rt;
            is_cut(rt.alloc(), room, flushes, written, number),
            "{room}"
        );
    }
}

/// A reader that shows its text in pieces of `step` bytes, each when the one before is used up. It notes whether it was
/// asked for one while replies were held back.
#[derive(Drop)]
struct Waiting<'a> {
    text: &'a [u8],
    step: usize,
    left: usize,
    held: &'a RefCell<Vec<u8>>,
    is_late: bool,
}

impl Read for Waiting<'_> {
    fn read(&mut self, _buf: &mut [u8]) -> io::Result<usize> {
        Ok(0)
    }
}

impl BufRead for Waiting<'_> {
    fn fill_buf(&mut self) -> io::Result<&[u8]> {
        if self.left == 0 {
            self.is_late |= !is_all(self.held, "");
            self.left = self.step;
        }
        let n = self.left.min(self.text.len());
        Ok(&self.text[..n])
    }

    fn consume(&mut self, amount: usize) {
        let n = amount.min(self.left).min(self.text.len());
        self.text = &self.text[n..];
        self.left -= n;
    }
}

/// A writer that shows the bytes that weren't flushed.
#[derive(Drop)]
struct Holding<'a> {
    held: &'a RefCell<Vec<u8>>,
}

impl Write for Holding<'_> {
    fn write(&mut self, buf: &[u8]) -> io::Result<usize> {
        put(self.held, buf)?;
        Ok(buf.len())
    }

    fn flush(&mut self) -> io::Result<()> {
        match self.held.try_borrow_mut() {
            Ok(mut held) => {
                held.clear();
                Ok(())
            }
            Err(_) => Err(io::Error::from(ErrorKind::BrokenPipe)),
        }
    }
}

/// Whether all replies to a text, shown in pieces of `step` bytes, left before the next piece was waited for, and
/// before the call ended, and how many lines they have.
fn is_in_time(alloc: Global, text: &str, step: usize, looks: u32) -> (bool, u64) {
    let held = RefCell::new(Vec::new(alloc));
    let mut tally = LineTally { alloc, lines: 0 };
    let mut reader = Waiting {
        text: text.as_bytes(),
        step,
        left: 0,
        held: &held,
        is_late: false,
    };
    let mut writer = Holding { held: &held };
    let _ = serve_within(alloc, &mut tally, &mut reader, &mut writer, looks);
    (!reader.is_late && is_all(&held, ""), tally.lines)
}

/// Texts with the bytes of a piece and the number of lines. A whole line and a part of the next, lines that fill a
/// piece, one that no newline ends, and pieces of a byte.
const PIECES: &[(&str, usize, u64)] = &[
    ("abc\ndef\n", 6, 2),
    ("abc\ndef\nghi\njkl\nmn", 8, 5),
    ("\n\n\na", 1, 4),
];

#[test]
fn replies_leave_before_a_wait(rt: HostRuntime) {
    for &(text, step, number) in PIECES {
        assert!(rt; is_in_time(rt.alloc(), text, step, 100) == (true, number));
    }
    assert!(rt; is_in_time(rt.alloc(), "abc\ndef\nghi\n", 12, 2) == (true, 2));
}

/// Faults with what each is called.
const NAMES: &[(ServeFault, &str)] = &[
    (ServeFault::Read, "read fault"),
    (ServeFault::Write, "write fault"),
    (ServeFault::Memory, "out of memory"),
];

#[test]
fn printed_faults(rt: HostRuntime) -> Result<(), Fail> {
    for &(fault, name) in NAMES {
        let printed = format!(in rt.alloc(); "{fault}")?;
        assert_eq!(rt; printed.as_str(), name);
    }
    Ok(())
}

#[test]
fn takes_its_memory_first(rt: HostRuntime) {
    let (out, lines, handled) = served(rt.alloc(), "abc\n".as_bytes(), 2, false);
    let is_refused = lines == Err(ServeFault::Memory);
    assert_eq!(rt; handled, if is_refused { 0 } else { 1 });
    assert!(rt; out.is_empty() || !is_refused);
}
