//! Numbers of options.

use clap::ArgMatches;

/// A number of an option, as it was written.
#[derive(Clone, Copy)]
pub struct Number<'a> {
    /// The option, as the parser's messages name it.
    pub option: &'static str,
    pub text: &'a str,
}

/// The options with numbers, by their ids and as the parser's messages name them.
const OPTIONS: [(&str, &str); 6] = [
    ("audit-rate", "--audit-rate <N>"),
    ("journal", "--journal <N>"),
    ("seal-at", "--seal-at <N>"),
    ("seal-bytes", "--seal-bytes <N>"),
    ("take-wait", "--take-wait <MS>"),
    ("workers", "--workers <W>"),
];

/// Returns the first number with a sign or a leading zero, which the parser accepts.
pub fn odd_number<'a>(matches: &ArgMatches<'a>) -> Option<Number<'a>> {
    for (id, option) in OPTIONS {
        if let Some(text) = matches.get_str(id)
            && !is_plain(text)
        {
            return Some(Number { option, text });
        }
    }
    None
}

/// Returns whether a text has only digits, and doesn't begin with `0` unless it is that.
fn is_plain(text: &str) -> bool {
    let digits = text.as_bytes();
    text == "0" || !digits.starts_with(b"0") && digits.iter().all(|digit| digit.is_ascii_digit())
}
