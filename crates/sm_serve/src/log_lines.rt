//! Lines of a server's log.

ghost use Rattle.std.specs.Prelude.{◌≡◌, ◌≤◌, length, take};
ghost use Rattle.sm_serve.specs.Lines.{bytes_of, capacity_of, lines_in};

/// Whole lines.
#[derive(Drop)]
pub enum LogLines {
    /// They own no memory.
    Fixed(&'static [u8]),
    Made(Vec<u8>),
}

impl LogLines {
    pub fn bytes(&self) -> &[u8]
        ensures { result.now ≡ bytes_of self.now }
    {
        match self {
            LogLines::Fixed(bytes) => *bytes,
            LogLines::Made(bytes) => bytes.as_slice(),
        }
    }

    /// Returns the number of lines.
    pub fn count(&self) -> u64
        ensures { result ≡ lines_in (bytes_of self.now) }
    {
        count_lines(self.bytes())
    }

    /// Returns the number of bytes of memory that the lines own.
    pub fn capacity(&self) -> u64
        ensures { result ≡ capacity_of self.now }
    {
        match self {
            LogLines::Fixed(_) => 0,
            LogLines::Made(bytes) => bytes.capacity() as u64,
        }
    }

    /// Returns the first `end` bytes.
    pub fn truncated(self, end: usize) -> LogLines
        requires { end ≤ length (bytes_of self) }
        ensures { bytes_of result ≡ take end (bytes_of self) }
    {
        match self {
            LogLines::Fixed(bytes) => LogLines::Fixed(&bytes[..end]),
            LogLines::Made(mut bytes) => {
                bytes.truncate(end);
                LogLines::Made(bytes)
            }
        }
    }
}

/// Returns the number of lines that end in a text.
pub fn count_lines(text: &[u8]) -> u64
    ensures { result ≡ lines_in text.now }
{
    text.iter().filter(|byte| **byte == b'\n').count() as u64
}
