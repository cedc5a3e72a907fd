//! Ends of a connection whose bytes are noted on pages.

ghost use Rattle.std.specs.Prelude.{◌≡◌};

use crate::patience::Limited;
use sm_account::Page;
use sm_values::drop_fields;
use std::io::{self, Read, Write};
use std::time::Duration;

/// A reader that notes what it has read.
pub struct NotedRead<I> {
    input: I,
    page: Page,
}

impl<I: Drop> Drop for NotedRead<I> {
    fn drop(self) {
        drop_fields!(self: input, page);
    }
}

impl<I> NotedRead<I> {
    /// A reader whose bytes are noted on this page.
    pub fn new(input: I, page: Page) -> NotedRead<I>
        ensures { result.input ≡ input }
    {
        NotedRead { input, page }
    }
}

impl<I: Drop> NotedRead<I> {
    /// Returns the page.
    pub fn into_page(self) -> Page {
        let NotedRead { input: _, page } = self;
        page
    }
}

impl<I: Read> Read for NotedRead<I> {
    ghost remaining = { λ r. I.remaining r.input };

    fn read(&mut self, buf: &mut [u8]) -> io::Result<usize> {
        let n = self.input.read(buf)?;
        self.page.note(&buf[..n]);
        Ok(n)
    }
}

impl<I: Limited> Limited for NotedRead<I> {
    fn limit_reads(&self, most: Option<Duration>) -> io::Result<()> {
        self.input.limit_reads(most)
    }

    fn limit_writes(&self, most: Option<Duration>) -> io::Result<()> {
        self.input.limit_writes(most)
    }
}

/// A writer that notes what it has written.
pub struct NotedWrite<O> {
    output: O,
    page: Page,
}

impl<O: Drop> Drop for NotedWrite<O> {
    fn drop(self) {
        drop_fields!(self: output, page);
    }
}

impl<O> NotedWrite<O> {
    /// A writer whose bytes are noted on this page.
    pub fn new(output: O, page: Page) -> NotedWrite<O>
        ensures { result.output ≡ output }
    {
        NotedWrite { output, page }
    }
}

impl<O: Drop> NotedWrite<O> {
    /// Returns the page.
    pub fn into_page(self) -> Page {
        let NotedWrite { output: _, page } = self;
        page
    }
}

impl<O: Write> Write for NotedWrite<O> {
    ghost contents = { λ w. O.contents w.output };

    fn write(&mut self, buf: &[u8]) -> io::Result<usize> {
        let n = self.output.write(buf)?;
        self.page.note(&buf[..n]);
        Ok(n)
    }

    fn flush(&mut self) -> io::Result<()> {
        self.output.flush()
    }
}

impl<O: Limited> Limited for NotedWrite<O> {
    fn limit_reads(&self, most: Option<Duration>) -> io::Result<()> {
        self.output.limit_reads(most)
    }

    fn limit_writes(&self, most: Option<Duration>) -> io::Result<()> {
        self.output.limit_writes(most)
    }
}
