//! `review check`: what is said of a policy in a file.

ghost use Rattle.std.specs.Prelude.{◌≡◌, ◌≢◌, ◌+◌, Some, None, true, take, IfErr, IfOk, IfSome, option_map};
ghost use Rattle.std.specs.Prelude.{string_bytes};
ghost use Rattle.ent_wire.specs.Lines.{line_limit};
ghost use Rattle.ent_wire.specs.Pieces.{Sends};
ghost use Rattle.ent_json.specs.Line.{data_of};
ghost use Rattle.ent_wire.specs.declared.fault.ServeFault.TheVariants.{Write};
ghost use Rattle.cli_check.specs.Checking.{Checks, IsToldOf, Judges, is_fine, is_passed, line_of, passed_of};
ghost use Rattle.cli_check.specs.Checking.{document_in, refusal_line, verdict_in, verdict_of};
ghost use Rattle.cli_check.specs.declared.checking.Verdict.TheVariants.{Passed, Refused};

use cli_words::read_fault;
use ent_json::read_json;
use ent_polform::read_document;
use ent_policy::{CheckFault, DocFault, Document, Kind};
use ent_values::Text;
use ent_wire::{LINE_LIMIT, Refusal, ServeFault, send_all};
use itoa::Buffer;
use json::Scratch;
use lint_messages::explain;
use std::alloc::{AllocError, Global};
use std::io::{Read, Write};

/// The most bytes that the file of a document may have: as many as a line.
pub const FILE_LIMIT: usize = LINE_LIMIT;

/// Why a file is refused.
#[derive(Clone, Copy, Debug, PartialEq, Eq)]
pub enum FileFault {
    /// It has more than `FILE_LIMIT` bytes.
    TooLong,
    /// It isn't JSON.
    NotJson,
    /// Its JSON isn't a document that may be stored, by this fault.
    Document(DocFault),
}

/// What is said of a file.
#[derive(Drop)]
pub(crate) enum Verdict {
    /// The file holds a document of this kind, id and version, the version as it is written.
    Passed(Kind, Text, Text),
    /// The file is refused.
    Refused(FileFault),
}

/// What a file is read as.
#[derive(Drop)]
struct ReadFile {
    /// The verdict on the file.
    verdict: Verdict,
    /// Its document, if that may be stored.
    document: Option<Document>,
}

/// What a check comes to.
#[derive(Drop)]
pub(crate) struct CheckResult {
    /// The verdict on the file.
    pub(crate) verdict: Verdict,
    /// Where in the file what is wrong, if that can be said and was wanted: why it is refused, or else that an
    /// attribute isn't declared.
    pub(crate) told: Option<String>,
    /// Its document, if that may be stored.
    pub(crate) document: Option<Document>,
}

/// The bytes that the reader has, of which one more is read than a file may have.
fn read_front<R: Read>(alloc: Global, reader: &mut R) -> Result<Vec<u8>, ServeFault>
    ensures front { IfOk result (λ v. IfSome (R.remaining reader.old) (λ all. v.items ≡ take (line_limit + 1) all)) }
    ensures fault { IfErr result (λ e. e ≢ Write) }
{
    let mut bytes = Vec::new(alloc);
    let mut front = reader.take(FILE_LIMIT as u64 + 1);
    match front.read_to_end(&mut bytes) {
        Ok(_) => Ok(bytes),
        Err(e) => Err(read_fault(&e)),
    }
}

/// The verdict on a document that was read.
fn passed(alloc: Global, document: &Document) -> Result<Verdict, AllocError>
    ensures { IfOk result (λ v. v ≡ passed_of document.now) }
{
    let key = document.key(alloc)?;
    let version = key.version.text(alloc)?;
    Ok(Verdict::Passed(key.kind, key.id, version))
}

/// A file that is refused.
fn refused(fault: FileFault) -> ReadFile
    ensures verdict { result.verdict ≡ Refused fault }
    ensures document { result.document ≡ None }
{
    ReadFile {
        verdict: Verdict::Refused(fault),
        document: None,
    }
}

/// What the bytes of a file are read as.
#[tactic(auto, using(crate::proofs::Verdicts::too_long, crate::proofs::Verdicts::none_in_too_long), unfolding(crate::specs::Checking::verdict_of, crate::specs::Checking::document_in))]
fn read_file(alloc: Global, bytes: &[u8]) -> Result<ReadFile, AllocError>
    ensures verdict { IfOk result (λ r. r.verdict ≡ verdict_of bytes.now) }
    ensures document { IfOk result (λ r. r.document ≡ document_in bytes.now) }
{
    if bytes.len() > FILE_LIMIT {
        return Ok(refused(FileFault::TooLong));
    }
    let mut scratch = Scratch::new(alloc);
    let Some(json) = read_json(alloc, bytes, &mut scratch)? else {
        return Ok(refused(FileFault::NotJson));
    };
    match read_document(alloc, &json) {
        Ok(document) => Ok(ReadFile {
            verdict: passed(alloc, &document)?,
            document: Some(document),
        }),
        Err(CheckFault::Doc(fault)) => Ok(refused(FileFault::Document(fault))),
        Err(CheckFault::Memory) => Err(AllocError),
    }
}

/// Where in a file that is refused what is wrong, if that can be said.
fn told_of(alloc: Global, bytes: &[u8], verdict: &Verdict) -> Result<Option<String>, AllocError>
    ensures { IfOk result (λ told. IsToldOf verdict.now (data_of bytes.now) (option_map string_bytes told)) }
{
    match verdict {
        Verdict::Refused(FileFault::NotJson) => explain(alloc, bytes),
        Verdict::Refused(FileFault::Document(_)) => explain(alloc, bytes),
        _ => Ok(None),
    }
}

/// Where in a file that is refused what is wrong, if that is wanted and can be said.
fn told_if_wanted(
    alloc: Global,
    bytes: &[u8],
    verdict: &Verdict,
    wants_place: bool,
) -> Result<Option<String>, AllocError>
    ensures { wants_place ≡ true
        → IfOk result (λ told. IsToldOf verdict.now (data_of bytes.now) (option_map string_bytes told)) }
{
    if wants_place {
        told_of(alloc, bytes, verdict)
    } else {
        Ok(None)
    }
}

/// The verdict on the bytes of a file, and, if it is wanted, where in them what is wrong.
pub(crate) fn judge(
    alloc: Global,
    bytes: &[u8],
    wants_place: bool,
) -> Result<CheckResult, AllocError>
    ensures verdict { IfOk result (λ j. j.verdict ≡ verdict_of bytes.now) }
    ensures told { wants_place ≡ true
        → IfOk result (λ j. IsToldOf j.verdict (data_of bytes.now) (option_map string_bytes j.told)) }
    ensures document { IfOk result (λ j. j.document ≡ document_in bytes.now) }
{
    let ReadFile { verdict, document } = read_file(alloc, bytes)?;
    let told = told_if_wanted(alloc, bytes, &verdict, wants_place)?;
    Ok(CheckResult {
        verdict,
        told,
        document,
    })
}

/// Whether the document may be stored.
pub(crate) fn is_passed(verdict: &Verdict) -> bool
    ensures { result ≡ is_passed verdict.now }
{
    match verdict {
        Verdict::Passed(_, _, _) => true,
        Verdict::Refused(_) => false,
    }
}

/// Whether nothing is wrong with a file: its document may be stored, and nothing is told of it.
pub(crate) fn is_fine(judged: &CheckResult) -> bool
    ensures { result ≡ is_fine judged.now }
{
    is_passed(&judged.verdict) && judged.told.is_none()
}

/// Writes the line of a document that may be stored.
fn send_passed<'v, W: Write>(
    writer: &mut W,
    kind: Kind,
    id: &'v Text,
    version: &'v Text,
) -> Result<(), ServeFault>
    ensures { Sends (W.contents writer.old) (W.contents writer.new) (line_of (Passed kind id.now version.now)) result }
{
    let start = "ok ".as_bytes();
    let word = kind.word().as_bytes();
    let before_id = " ".as_bytes();
    let id = id.as_str().as_bytes();
    let before_version = " ".as_bytes();
    let version = version.as_str().as_bytes();
    let end = "\n".as_bytes();
    send_all(
        writer,
        &[start, word, before_id, id, before_version, version, end],
    )
}

/// Writes the line of a refusal that has no sub-code.
fn send_refused<W: Write>(writer: &mut W, code: u8) -> Result<(), ServeFault>
    ensures { Sends (W.contents writer.old) (W.contents writer.new) (refusal_line code None) result }
{
    let mut first = Buffer::new();
    let start = "refused ".as_bytes();
    let code_text = first.format(code).as_bytes();
    let end = "\n".as_bytes();
    send_all(writer, &[start, code_text, end])
}

/// Writes the line of a refused document.
fn send_sub<W: Write>(writer: &mut W, code: u8, sub: u8) -> Result<(), ServeFault>
    ensures { Sends (W.contents writer.old) (W.contents writer.new) (refusal_line code (Some sub)) result }
{
    let mut first = Buffer::new();
    let mut second = Buffer::new();
    let start = "refused ".as_bytes();
    let code_text = first.format(code).as_bytes();
    let middle = " ".as_bytes();
    let sub_text = second.format(sub).as_bytes();
    let end = "\n".as_bytes();
    send_all(writer, &[start, code_text, middle, sub_text, end])
}

/// Writes the line of a verdict, or a front of it where the writer fails. Takes no memory.
fn send_verdict<W: Write>(writer: &mut W, verdict: &Verdict) -> Result<(), ServeFault>
    ensures { Sends (W.contents writer.old) (W.contents writer.new) (line_of verdict.now) result }
{
    match verdict {
        Verdict::Passed(kind, id, version) => send_passed(writer, *kind, id, version),
        Verdict::Refused(FileFault::TooLong) => send_refused(writer, Refusal::TooLong.code()),
        Verdict::Refused(FileFault::NotJson) => send_refused(writer, Refusal::NotJson.code()),
        Verdict::Refused(FileFault::Document(fault)) => {
            send_sub(writer, Refusal::Document(*fault).code(), fault.code())
        }
    }
}

/// Writes the line of a verdict, or a front of it where the writer fails, and flushes the writer. Takes no memory.
pub(crate) fn write_verdict<W: Write>(writer: &mut W, verdict: &Verdict) -> Result<(), ServeFault>
    ensures { Sends (W.contents writer.old) (W.contents writer.new) (line_of verdict.now) result }
{
    send_verdict(writer, verdict)?;
    match writer.flush() {
        Ok(()) => Ok(()),
        Err(_) => Err(ServeFault::Write),
    }
}

/// Does what `check_from` does with a reader of these bytes, and gives what the check comes to; where in them what is
/// wrong, if it is wanted.
pub(crate) fn check<W: Write>(
    alloc: Global,
    bytes: &[u8],
    wants_place: bool,
    writer: &mut W,
) -> Result<CheckResult, ServeFault>
    ensures judges { Judges (Some bytes.now) (W.contents writer.old) (W.contents writer.new) (verdict_in result) }
    ensures told { wants_place ≡ true
        → IfOk result (λ j. IsToldOf j.verdict (data_of bytes.now) (option_map string_bytes j.told)) }
{
    let Ok(judged) = judge(alloc, bytes, wants_place) else {
        return Err(ServeFault::Memory);
    };
    write_verdict(writer, &judged.verdict)?;
    Ok(judged)
}

/// Reads the JSON of one document, of at most `FILE_LIMIT` bytes, and writes one line of what is said of it. Gives
/// whether it may be stored.
///
/// The line is `ok KIND ID VERSION`, the id as it stands; `refused 1` for more bytes; `refused 2` for what isn't JSON;
/// or `refused 6 SUB` with the sub-code of the document's first fault. Faults: the reader's, the writer's, which may
/// have taken a front of the line, and want of memory. The writer is flushed behind the line.
///
/// Its contract leaves open: how much of a longer input is read, when it answers a read fault or want of memory, and
/// how much a failing writer took.
pub fn check_from<R: Read, W: Write>(
    alloc: Global,
    reader: &mut R,
    writer: &mut W,
) -> Result<bool, ServeFault>
    ensures { Checks (R.remaining reader.old) (W.contents writer.old) (W.contents writer.new) result }
{
    let bytes = read_front(alloc, reader)?;
    let judged = check(alloc, bytes.as_slice(), false, writer)?;
    Ok(is_passed(&judged.verdict))
}
