//! Tokens.

use sm_values::Word;

/// The kinds of tokens.
#[derive(Drop)]
pub enum TokenKind<'a> {
    Word(Word<'a>),
    Semicolon,
    Comma,
    Colon,
    Open,
    Close,
    Star,
    Tilde,
    Dash,
    /// A byte that begins no token, or a string in double quotes.
    Other,
}

/// A token, after the line that it begins in.
pub type Token<'a> = (u32, TokenKind<'a>);
