//! Where documents, dumps and tests are read.

ghost use Rattle.std.specs.Prelude.{◌≡◌};
ghost use Rattle.cli_words.specs.Sources.{name_of, path_named, path_of};

use std::fmt;
use std::fmt::{Display, Formatter, Write};

/// The word that stands for standard input where a file is wanted.
const STANDARD_INPUT: &str = "-";

/// Where bytes are read.
#[derive(Clone, Copy, Debug, PartialEq, Eq)]
pub enum Source<'a> {
    /// From standard input.
    Input,
    /// From the file of this path.
    File(&'a str),
}

impl<'a> Source<'a> {
    /// The source that a word of the command line names: `-` is standard input, any other word a path.
    ///
    /// Its contract is an equation.
    pub fn named(word: &'a str) -> Source<'a>
        ensures { path_of result ≡ path_named word.now }
    {
        if word == STANDARD_INPUT {
            Source::Input
        } else {
            Source::File(word)
        }
    }

    /// What a source is called where it can't be read: a file by its path.
    ///
    /// Its contract is an equation.
    pub fn name(self) -> &'a str
        ensures { result.now ≡ name_of self.entry }
    {
        match self {
            Source::Input => "standard input",
            Source::File(path) => path,
        }
    }
}

/// A text as it is shown on one line: control characters, and those that change lines or their direction, as JSON
/// escapes them.
#[derive(Clone, Copy)]
pub struct Shown<'a>(pub &'a str);

impl Display for Shown<'_> {
    fn fmt<W: Write>(&self, f: &mut Formatter<W>) -> fmt::Result {
        for character in self.0.chars() {
            if is_hidden(character) {
                write!(f, "\\u{:04x}", character as u32)?;
            } else {
                f.write_char(character)?;
            }
        }
        Ok(())
    }
}

/// Whether a character isn't to be printed as it is.
fn is_hidden(character: char) -> bool {
    character.is_control()
        || matches!(character, '\u{2028}'..='\u{202E}' | '\u{2066}'..='\u{2069}' | '\u{FEFF}')
}
