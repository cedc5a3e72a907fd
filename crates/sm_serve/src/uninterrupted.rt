//! Readers and writers that go on after a signal.

ghost use Rattle.std.specs.Prelude.{◌≡◌, ◌≢◌, IfErr};
ghost use Rattle.std.specs.IoError.{error_kind};
ghost use Rattle.std.specs.Io.{ReadsAtMost, WritesAtMost};
ghost use Rattle.std.specs.Io.KnownBytes.{ReadConsumes, WriteAppends, Keeps};

use std::io::{self, Error, ErrorKind, Read, Write};

/// A reader or a writer whose calls are repeated while a signal interrupts them, up to `u64::MAX` times. A stopped and
/// continued process has such calls, and one that is traced.
#[derive(Drop)]
pub struct Uninterrupted<T> {
    inner: T,
}

impl<T> Uninterrupted<T> {
    /// Wraps a reader or writer.
    pub fn new(inner: T) -> Uninterrupted<T>
        ensures { result.inner ≡ inner }
    {
        Uninterrupted { inner }
    }

    /// Returns the reader or writer.
    pub fn into_inner(self) -> T
        ensures { result ≡ self.inner }
    {
        let Uninterrupted { inner } = self;
        inner
    }
}

impl<R: Read> Read for Uninterrupted<R> {
    ghost remaining = { λ u. R.remaining u.inner };

    fn read(&mut self, buf: &mut [u8]) -> io::Result<usize>
        ensures bound { ReadsAtMost result buf.new }
        ensures bytes { ReadConsumes (R.remaining self.old.inner) (R.remaining self.new.inner) result buf.new }
        ensures repeated { IfErr result (λ e. error_kind e ≢ ErrorKind.Interrupted) }
    {
        for _ in 0..u64::MAX {
            match self.inner.read(buf) {
                Err(error) if error.kind() == ErrorKind::Interrupted => {}
                outcome => return outcome,
            }
        }
        Err(too_many_interruptions())
    }
}

impl<W: Write> Write for Uninterrupted<W> {
    ghost contents = { λ u. W.contents u.inner };

    fn write(&mut self, buf: &[u8]) -> io::Result<usize>
        ensures bound { WritesAtMost result buf.now }
        ensures bytes { WriteAppends (W.contents self.old.inner) (W.contents self.new.inner) result buf.now }
        ensures repeated { IfErr result (λ e. error_kind e ≢ ErrorKind.Interrupted) }
    {
        for _ in 0..u64::MAX {
            match self.inner.write(buf) {
                Err(error) if error.kind() == ErrorKind::Interrupted => {}
                outcome => return outcome,
            }
        }
        Err(too_many_interruptions())
    }

    fn flush(&mut self) -> io::Result<()>
        ensures { Keeps (W.contents self.old.inner) (W.contents self.new.inner) }
    {
        self.inner.flush()
    }
}

fn too_many_interruptions() -> Error
    ensures { error_kind result ≡ ErrorKind.TimedOut }
{
    Error::new(ErrorKind::TimedOut, "a call was interrupted too often")
}
