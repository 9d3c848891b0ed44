//! A machine for the whole program: words, an input, two files, and what is written.

use std::alloc::{Allocator, Global};
use std::cell::RefCell;
use std::env::FillError;
use std::fmt::Display;
use std::fs::{Metadata, OpenFile, OpenOptions};
use std::io;
use std::io::{BufRead, ErrorKind, Lines, Read, Seek, SeekFrom, Write};
use std::rt::{Env, Files};

/// What a machine is not asked for.
fn unsupported() -> io::Error {
    io::Error::from(ErrorKind::Unsupported)
}

/// An open file, or the input: bytes that end, or behind which reading fails.
#[derive(Drop)]
pub(crate) struct Paper<'a> {
    text: &'a [u8],
    breaks: bool,
}

impl Read for Paper<'_> {
    fn read(&mut self, buf: &mut [u8]) -> io::Result<usize> {
        if self.text.is_empty() && self.breaks {
            return Err(io::Error::from_raw_os_error(5));
        }
        if self.text.is_empty() || buf.is_empty() {
            return Ok(0);
        }
        buf[0] = self.text[0];
        self.text = &self.text[1..];
        Ok(1)
    }
}

impl BufRead for Paper<'_> {
    fn fill_buf(&mut self) -> io::Result<&[u8]> {
        if self.text.is_empty() && self.breaks {
            return Err(io::Error::from_raw_os_error(5));
        }
        Ok(self.text)
    }

    fn consume(&mut self, amount: usize) {
        let n = amount.min(self.text.len());
        self.text = &self.text[n..];
    }
}

impl Write for Paper<'_> {
    fn write(&mut self, _buf: &[u8]) -> io::Result<usize> {
        Err(unsupported())
    }

    fn flush(&mut self) -> io::Result<()> {
        Ok(())
    }
}

impl Seek for Paper<'_> {
    fn seek(&mut self, _to: SeekFrom) -> io::Result<u64> {
        Err(unsupported())
    }
}

impl OpenFile for Paper<'_> {
    fn metadata(&self) -> io::Result<Metadata> {
        Err(unsupported())
    }

    fn set_len(&self, _size: u64) -> io::Result<()> {
        Err(unsupported())
    }

    fn sync_all(&self) -> io::Result<()> {
        Err(unsupported())
    }

    fn sync_data(&self) -> io::Result<()> {
        Err(unsupported())
    }
}

/// A machine whose program is called with those words, its name first, and reads that input. Its file `whole` has
/// those bytes; its file `broken` has them too, and then reading fails, as that of the input where `breaks` is set.
#[derive(Drop)]
pub(crate) struct Machine<'a> {
    pub(crate) alloc: Global,
    pub(crate) words: &'a [&'a str],
    pub(crate) input: &'a str,
    pub(crate) breaks: bool,
    pub(crate) file: &'a str,
    pub(crate) written: RefCell<Vec<u8>>,
    pub(crate) told: RefCell<Vec<u8>>,
}

impl<'a> Machine<'a> {
    pub(crate) fn new(
        alloc: Global,
        words: &'a [&'a str],
        input: &'a str,
        file: &'a str,
    ) -> Machine<'a> {
        Machine {
            alloc,
            words,
            input,
            breaks: false,
            file,
            written: RefCell::new(Vec::new(alloc)),
            told: RefCell::new(Vec::new(alloc)),
        }
    }
}

/// Puts bytes behind the others.
pub(crate) fn put(all: &RefCell<Vec<u8>>, bytes: &[u8]) -> io::Result<()> {
    let Ok(mut all) = all.try_borrow_mut() else {
        return Err(unsupported());
    };
    all.extend_from_slice(bytes)?;
    Ok(())
}

/// Whether that is all that was put there.
pub(crate) fn is_all(all: &RefCell<Vec<u8>>, text: &str) -> bool {
    match all.try_borrow() {
        Ok(all) => all.as_slice() == text.as_bytes(),
        Err(_) => false,
    }
}

/// Whether what was put there begins so.
pub(crate) fn is_front(all: &RefCell<Vec<u8>>, text: &str) -> bool {
    match all.try_borrow() {
        Ok(all) => all.as_slice().starts_with(text.as_bytes()),
        Err(_) => false,
    }
}

impl Alloc for Machine<'_> {
    type A = Global;

    fn alloc(&self) -> Global {
        self.alloc
    }
}

impl Env for Machine<'_> {
    fn arg(&self, i: usize, buf: &mut [u8]) -> Result<usize, FillError> {
        let Some(word) = self.words.get(i) else {
            return Err(FillError::NotPresent);
        };
        let bytes = word.as_bytes();
        if buf.len() < bytes.len() {
            return Err(FillError::TooLong);
        }
        buf[..bytes.len()].copy_from_slice(bytes);
        Ok(bytes.len())
    }

    fn var(&self, _name: &str, _buf: &mut [u8]) -> Result<usize, FillError> {
        Err(FillError::NotPresent)
    }

    fn var_at(&self, _i: usize, _buf: &mut [u8]) -> Result<usize, FillError> {
        Err(FillError::NotPresent)
    }
}

impl<'a> Input for Machine<'a> {
    type Reader = Paper<'a>;

    fn read_line<A: Allocator + Clone>(&self, _buf: &mut String<A>) -> io::Result<usize> {
        Err(unsupported())
    }

    fn lines<A: Allocator>(&self, alloc: A) -> Lines<Paper<'a>, A> {
        self.reader().lines(alloc)
    }

    fn reader(&self) -> Paper<'a> {
        Paper {
            text: self.input.as_bytes(),
            breaks: self.breaks,
        }
    }
}

impl Print for Machine<'_> {
    fn print<D: Display + Drop>(&self, value: D) -> io::Result<()> {
        let text = format!(in self.alloc; "{value}")?;
        put(&self.written, text.as_bytes())
    }

    fn println<D: Display + Drop>(&self, value: D) -> io::Result<()> {
        let text = format!(in self.alloc; "{value}\n")?;
        put(&self.written, text.as_bytes())
    }

    fn write_all(&self, bytes: &[u8]) -> io::Result<()> {
        put(&self.written, bytes)
    }
}

impl Eprint for Machine<'_> {
    fn eprint<D: Display + Drop>(&self, value: D) -> io::Result<()> {
        let text = format!(in self.alloc; "{value}")?;
        put(&self.told, text.as_bytes())
    }

    fn eprintln<D: Display + Drop>(&self, value: D) -> io::Result<()> {
        let text = format!(in self.alloc; "{value}\n")?;
        put(&self.told, text.as_bytes())
    }
}

impl<'a> Files for Machine<'a> {
    type File = Paper<'a>;

    type Dir = Paper<'a>;

    fn open_file(&self, _how: &OpenOptions, path: &str) -> io::Result<Paper<'a>> {
        match path {
            "whole" | "broken" => Ok(Paper {
                text: self.file.as_bytes(),
                breaks: path == "broken",
            }),
            _ => Err(io::Error::from_raw_os_error(2)),
        }
    }

    fn open_dir(&self, _path: &str) -> io::Result<Paper<'a>> {
        Err(unsupported())
    }

    fn metadata(&self, _path: &str) -> io::Result<Metadata> {
        Err(unsupported())
    }

    fn symlink_metadata(&self, _path: &str) -> io::Result<Metadata> {
        Err(unsupported())
    }

    fn copy(&self, _from: &str, _to: &str) -> io::Result<u64> {
        Err(unsupported())
    }

    fn rename(&self, _from: &str, _to: &str) -> io::Result<()> {
        Err(unsupported())
    }

    fn remove_file(&self, _path: &str) -> io::Result<()> {
        Err(unsupported())
    }

    fn create_dir(&self, _path: &str) -> io::Result<()> {
        Err(unsupported())
    }

    fn remove_dir(&self, _path: &str) -> io::Result<()> {
        Err(unsupported())
    }

    fn remove_dir_all<B: Allocator>(&self, _alloc: B, _path: &str) -> io::Result<()> {
        Err(unsupported())
    }
}
