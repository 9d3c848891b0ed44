//! Sessions out of the lines of a file.

ghost use Rattle.std.specs.Prelude.{◌≡◌, ◌<◌, ◌++◌, ◌∷◌, [], IfNone, IfOk, IfSome, OnOk, Some, length, option_map};
ghost use Rattle.std.specs.List.{slice_split};
ghost use Rattle.script_files.specs.Sessions.{body, is_empty, paragraph, reply_at, reply_in, session_at, sessions_in, step_at};
ghost use Rattle.script_files.specs.Sessions.{steps_at, steps_of, up_to_heading};
ghost use Rattle.script_files.specs.Standing.{is_heading};

use crate::line::{Content, Heading, NumberedLine};
use crate::session::{Expected, SentLine, Session};
use crate::writing::written;
use ent_values::Items;
use std::alloc::{AllocError, Global};

/// The reply that these lines begin with.
fn reply_in(lines: &[NumberedLine]) -> Option<&Expected>
    ensures { option_map (λ reply. reply.now) result ≡ reply_in lines.now }
{
    match &lines.first()?.content {
        Content::Reply(reply) => Some(reply),
        _ => None,
    }
}

/// What a reply of the file stands for, once or at a time.
fn reply_at(alloc: Global, time: Option<u32>, reply: &Expected) -> Result<Expected, AllocError>
    ensures { IfOk result (λ e. e ≡ reply_at time reply.now) }
{
    let text = written(alloc, time, reply.text.as_slice())?;
    Ok(Expected {
        comparison: reply.comparison,
        text,
    })
}

/// Puts the step of a line, if it is one, behind others. The second list is what stands behind the line.
fn push_step(
    alloc: Global,
    time: Option<u32>,
    line: &NumberedLine,
    behind: &[NumberedLine],
    steps: &mut Items<SentLine>,
) -> Result<(), AllocError>
    ensures { OnOk result (steps.new ≡ steps.old ++ step_at time line.now behind.now) }
{
    let Content::Sent(text) = &line.content else {
        return Ok(());
    };
    let expected = match reply_in(behind) {
        None => None,
        Some(reply) => Some(reply_at(alloc, time, reply)?),
    };
    let text = written(alloc, time, text.as_slice())?;
    steps.push(SentLine {
        number: line.number,
        line: text,
        expected,
    })
}

/// Puts the steps of lines behind others.
fn push_steps(
    alloc: Global,
    time: Option<u32>,
    lines: &[NumberedLine],
    steps: &mut Items<SentLine>,
) -> Result<(), AllocError>
    ensures { OnOk result (steps.new ≡ steps.old ++ steps_of time lines.now) }
{
    for i in 0..lines.len() {
        push_step(alloc, time, &lines[i], &lines[i + 1..], steps)?;
    }
    Ok(())
}

/// Puts the steps of lines that come so many times behind others.
fn push_times(
    alloc: Global,
    times: u32,
    lines: &[NumberedLine],
    steps: &mut Items<SentLine>,
) -> Result<(), AllocError>
    ensures { OnOk result (steps.new ≡ steps.old ++ steps_at times lines.now) }
{
    for time in 0..times {
        push_steps(alloc, Some(time), lines, steps)?;
    }
    Ok(())
}

/// Puts the steps of lines between two empty ones behind others.
fn push_paragraph(
    alloc: Global,
    lines: &[NumberedLine],
    steps: &mut Items<SentLine>,
) -> Result<(), AllocError>
    ensures { OnOk result (steps.new ≡ steps.old ++ paragraph lines.now) }
{
    for i in 0..lines.len() {
        if let Content::Times(times) = lines[i].content {
            return push_times(alloc, times, &lines[i + 1..], steps);
        }
        push_step(alloc, None, &lines[i], &lines[i + 1..], steps)?;
    }
    Ok(())
}

/// Whether a line is empty.
fn is_empty(line: &NumberedLine) -> bool
    ensures { result ≡ is_empty line.now.content }
{
    matches!(line.content, Content::Empty)
}

/// The lines before the first empty one, and those behind it.
fn split_paragraph(lines: &[NumberedLine]) -> Option<(&[NumberedLine], &[NumberedLine])>
    ensures none { IfNone result (slice_split (λ l. is_empty l.content) lines.now ≡ lines.now ∷ []) }
    ensures some { IfSome result (λ p. slice_split (λ l. is_empty l.content) lines.now ≡ p.0.now ∷ slice_split (λ l. is_empty l.content) p.1.now) }
    ensures shorter { IfSome result (λ p. length p.1.now < length lines.now) }
{
    for i in 0..lines.len() {
        if is_empty(&lines[i]) {
            return Some((&lines[..i], &lines[i + 1..]));
        }
    }
    None
}

/// The steps of the lines below a heading.
fn body(alloc: Global, lines: &[NumberedLine]) -> Result<Items<SentLine>, AllocError>
    ensures { IfOk result (λ steps. steps ≡ body lines.now) }
{
    let mut steps = Items::new(alloc);
    let mut rest = lines;
    while let Some((paragraph, behind)) = split_paragraph(rest) {
        push_paragraph(alloc, paragraph, &mut steps)?;
        rest = behind;
    }
    push_paragraph(alloc, rest, &mut steps)?;
    Ok(steps)
}

/// Whether a line is a heading.
fn is_heading(line: &NumberedLine) -> bool
    ensures { result ≡ is_heading line.now.content }
{
    matches!(line.content, Content::Heading(_))
}

/// The lines up to the next heading.
fn up_to_heading(lines: &[NumberedLine]) -> &[NumberedLine]
    ensures { result.now ≡ up_to_heading lines.now }
{
    for i in 0..lines.len() {
        if is_heading(&lines[i]) {
            return &lines[..i];
        }
    }
    lines
}

/// The session of a heading in the line of this number and the lines behind it.
fn session(
    alloc: Global,
    number: u64,
    heading: &Heading,
    behind: &[NumberedLine],
) -> Result<Session, AllocError>
    ensures { IfOk result (λ s. s ≡ session_at number heading.now behind.now) }
{
    let steps = body(alloc, up_to_heading(behind))?;
    let name = Vec::from_slice(alloc, heading.name.as_slice())?;
    Ok(Session {
        name: Items::from_vec(name),
        number,
        modules: heading.modules,
        steps,
    })
}

/// The sessions of the lines of a file.
pub(crate) fn sessions_in(
    alloc: Global,
    lines: &[NumberedLine],
) -> Result<Items<Session>, AllocError>
    ensures { IfOk result (λ sessions. sessions ≡ sessions_in lines.now) }
{
    let mut sessions = Items::new(alloc);
    for i in 0..lines.len() {
        if let Content::Heading(heading) = &lines[i].content {
            let session = session(alloc, lines[i].number, heading, &lines[i + 1..])?;
            sessions.push(session)?;
        }
    }
    Ok(sessions)
}
