//! Bytes as text.

use std::fmt;

/// Writes bytes as text: graphic ASCII and spaces as they are, other bytes, quotes and backslashes as escapes of Rust.
pub fn write_escaped<W: fmt::Write>(f: &mut fmt::Formatter<W>, bytes: &[u8]) -> fmt::Result {
    for byte in bytes.escape_ascii() {
        f.write_char(char::from(byte))?;
    }
    Ok(())
}
