//! Which lines can stand behind which.

ghost use Rattle.std.specs.Prelude.{◌≡◌, [], ◌∷◌, List};
ghost use Rattle.script_files.specs.Standing.{misplaced, mistake_at, place_of};
ghost use Rattle.script_files.specs.declared.line.NumberedLine.{NumberedLine};

use crate::fault::Mistake;
use crate::line::{Content, NumberedLine};

/// What the lines before a line say of which can stand there.
#[derive(Clone, Copy)]
pub(crate) struct LinePlace {
    /// A session has begun.
    begun: bool,
    /// What stands here comes many times.
    repeats: bool,
    /// The line before is sent.
    sent: bool,
}

impl LinePlace {
    /// The place of the first line.
    fn first() -> LinePlace
        ensures { result ≡ place_of [] }
    {
        LinePlace {
            begun: false,
            repeats: false,
            sent: false,
        }
    }

    /// Why a line can't stand here, if it can't.
    fn mistake(self, line: &NumberedLine) -> Option<Mistake>
        ensures { result ≡ mistake_at self line.now.content }
    {
        match line.content {
            Content::Heading(_) if self.repeats => Some(Mistake::Repeated),
            Content::Sent(_) if !self.begun => Some(Mistake::NoHeading),
            Content::Reply(_) if !self.sent => Some(Mistake::NoLine),
            Content::Times(_) if !self.begun => Some(Mistake::NoHeading),
            Content::Times(_) if self.repeats => Some(Mistake::Repeated),
            Content::NoModules => Some(Mistake::Modules),
            Content::Other => Some(Mistake::NoMark),
            _ => None,
        }
    }

    /// The place behind a line that stands here.
    fn behind(self, line: &NumberedLine) -> LinePlace
        ensures { (before : List NumberedLine) → self ≡ place_of before
            → result ≡ place_of (line.now ∷ before) }
    {
        let mut place = self;
        place.sent = false;
        match line.content {
            Content::Empty => place.repeats = false,
            Content::Heading(_) => place.begun = true,
            Content::Sent(_) => place.sent = true,
            Content::Times(_) => place.repeats = true,
            Content::Comment | Content::Reply(_) | Content::NoModules | Content::Other => {}
        }
        place
    }
}

/// The number of the first line that can't stand behind those before it, if there is one, and why it can't.
pub(crate) fn misplaced(lines: &[NumberedLine]) -> Option<(u64, Mistake)>
    ensures { result ≡ misplaced [] lines.now }
{
    let mut place = LinePlace::first();
    for line in lines {
        if let Some(mistake) = place.mistake(line) {
            return Some((line.number, mistake));
        }
        place = place.behind(line);
    }
    None
}
