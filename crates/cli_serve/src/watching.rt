//! A reader that keeps why it failed.

ghost use Rattle.std.specs.Prelude.{◌≡◌};
ghost use Rattle.std.specs.Result.{result_err};
ghost use Rattle.std.specs.Io.{ReadsAtMost};
ghost use Rattle.std.specs.Io.KnownBytes.{ReadConsumes};

use std::io;
use std::io::Read;

/// A reader that keeps the error of its last read, if that failed: a fault of a call above says only that one did.
#[derive(Drop)]
pub(crate) struct Watched<R> {
    inner: R,
    cause: Option<io::Error>,
}

impl<R> Watched<R> {
    /// The reader, of which nothing was read.
    pub(crate) fn new(inner: R) -> Watched<R>
        ensures inner { result.inner ≡ inner }
    {
        Watched { inner, cause: None }
    }

    /// Why the last read failed, if it did.
    pub(crate) fn cause(&self) -> Option<io::Error>
        ensures { result ≡ self.now.cause }
    {
        self.cause
    }
}

impl<R: Read> Read for Watched<R> {
    ghost remaining = { λ w. R.remaining w.inner };

    fn read(&mut self, buf: &mut [u8]) -> io::Result<usize>
        ensures bound { ReadsAtMost result buf.new }
        ensures bytes { ReadConsumes (R.remaining self.old.inner) (R.remaining self.new.inner) result buf.new }
        ensures cause { self.new.cause ≡ result_err result }
    {
        let read = self.inner.read(buf);
        self.cause = read.err();
        read
    }
}
