//! Readers and writers with counters.

ghost use Rattle.std.specs.Prelude.{◌≡◌, MatchResult, ◌+◌, ◌==◌, if◌then◌else◌};
ghost use Rattle.std.specs.Io.{ReadsAtMost, WritesAtMost};
ghost use Rattle.std.specs.Io.KnownBytes.{ReadConsumes, WriteAppends, Keeps};
ghost use Rattle.sm_engine.specs.Counts.{failures_of, calls_of, inner_of, one_more};

use std::io::{self, Read, Write};

/// A reader or a writer, with the number of its calls and of those that failed.
#[derive(Drop)]
pub struct Counted<T> {
    inner: T,
    calls: u64,
    failures: u64,
}

impl<T> Counted<T> {
    /// Wraps a reader or writer that hasn't been called yet.
    pub fn new(inner: T) -> Counted<T>
        ensures inner { inner_of result ≡ inner }
        ensures calls { calls_of result ≡ 0 }
        ensures failures { failures_of result ≡ 0 }
    {
        Counted {
            inner,
            calls: 0,
            failures: 0,
        }
    }

    /// Returns the number of reads that failed, or of writes that failed or took no byte. It saturates at `u64::MAX`.
    pub fn failures(&self) -> u64
        ensures { result ≡ failures_of self.now }
    {
        self.failures
    }

    /// Returns the reader or writer.
    pub fn into_inner(self) -> T
        ensures { result ≡ inner_of self }
    {
        let Counted {
            inner,
            calls: _,
            failures: _,
        } = self;
        inner
    }
}

impl<R: Read> Read for Counted<R> {
    ghost remaining = { λ c. R.remaining (inner_of c) };

    fn read(&mut self, buf: &mut [u8]) -> io::Result<usize>
        ensures bound { ReadsAtMost result buf.new }
        ensures bytes { ReadConsumes (R.remaining (inner_of self.old)) (R.remaining (inner_of self.new))
            result buf.new }
        ensures count { MatchResult result (λ _. failures_of self.new ≡ failures_of self.old)
            (λ _. failures_of self.new ≡ one_more (failures_of self.old)) }
        ensures calls { calls_of self.new ≡ one_more (calls_of self.old) }
    {
        self.calls = self.calls.saturating_add(1);
        let result = self.inner.read(buf);
        if result.is_err() {
            self.failures = self.failures.saturating_add(1);
        }
        result
    }
}

impl<W: Write> Write for Counted<W> {
    ghost contents = { λ c. W.contents (inner_of c) };

    fn write(&mut self, buf: &[u8]) -> io::Result<usize>
        ensures bound { WritesAtMost result buf.now }
        ensures bytes { WriteAppends (W.contents (inner_of self.old)) (W.contents (inner_of self.new)) result buf.now }
        ensures count { MatchResult result
            (λ n. failures_of self.new ≡ (if n == 0 then one_more (failures_of self.old) else failures_of self.old))
            (λ _. failures_of self.new ≡ one_more (failures_of self.old)) }
        ensures calls { calls_of self.new ≡ one_more (calls_of self.old) }
    {
        self.calls = self.calls.saturating_add(1);
        let result = self.inner.write(buf);
        if !matches!(result, Ok(1..)) {
            self.failures = self.failures.saturating_add(1);
        }
        result
    }

    fn flush(&mut self) -> io::Result<()>
        ensures bytes { Keeps (W.contents (inner_of self.old)) (W.contents (inner_of self.new)) }
        ensures count { failures_of self.new ≡ failures_of self.old }
        ensures calls { calls_of self.new ≡ calls_of self.old }
    {
        self.inner.flush()
    }
}
