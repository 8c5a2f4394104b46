//! What the bytes of a text begin, and how far a token goes.

ghost use Rattle.std.specs.Prelude.{◌≡◌, ◌≤◌, length};
ghost use Rattle.std.specs.List.{prefix_len};
ghost use Rattle.acfg_text.specs.Lexes.{is_white, is_letter, is_digit, is_word, is_number, is_quote, is_symbol};
ghost use Rattle.acfg_text.specs.Lexes.{is_line_feed, lead};
ghost use Rattle.acfg_text.specs.Scanning.{comment_len};

use crate::token::TokenKind;

/// What a byte begins where no token is open.
#[derive(Clone, Copy, Debug, PartialEq, Eq)]
pub enum Lead {
    /// White space.
    White,
    /// A comment, which runs to the end of its line.
    Comment,
    Token(TokenKind),
    /// Nothing that the format has.
    Nothing,
}

#[tactic(auto, unfolding(crate::specs::Lexes::is_white))]
fn is_white(byte: u8) -> bool
    ensures { result ≡ is_white byte }
{
    byte == b' ' || (0x09 <= byte && byte <= 0x0D)
}

#[tactic(auto, unfolding(crate::specs::Lexes::is_letter))]
fn is_letter(byte: u8) -> bool
    ensures { result ≡ is_letter byte }
{
    (b'a' <= byte && byte <= b'z') || ((b'A' <= byte && byte <= b'Z') || byte == b'_')
}

#[tactic(auto, unfolding(crate::specs::Lexes::is_digit))]
fn is_digit(byte: u8) -> bool
    ensures { result ≡ is_digit byte }
{
    b'0' <= byte && byte <= b'9'
}

#[tactic(auto, unfolding(crate::specs::Lexes::is_word))]
fn is_word(byte: u8) -> bool
    ensures { result ≡ is_word byte }
{
    is_letter(byte) || is_digit(byte)
}

#[tactic(auto, unfolding(crate::specs::Lexes::is_number))]
fn is_number(byte: u8) -> bool
    ensures { result ≡ is_number byte }
{
    is_word(byte) || byte == b'.'
}

#[tactic(auto, unfolding(crate::specs::Lexes::is_quote))]
fn is_quote(byte: u8) -> bool
    ensures { result ≡ is_quote byte }
{
    byte == b'"' || byte == b'\''
}

#[tactic(auto, unfolding(crate::specs::Lexes::is_symbol))]
fn is_symbol(byte: u8) -> bool
    ensures { result ≡ is_symbol byte }
{
    matches!(
        byte,
        b'{' | b'}' | b'<' | b'>' | b'[' | b']' | b':' | b',' | b';'
    )
}

#[tactic(auto, unfolding(crate::specs::Lexes::is_line_feed))]
pub fn is_line_feed(byte: u8) -> bool
    ensures { result ≡ is_line_feed byte }
{
    byte == b'\n'
}

/// What a byte begins.
#[tactic(auto, unfolding(crate::specs::Lexes::lead))]
pub fn lead_of(byte: u8) -> Lead
    ensures { result ≡ lead byte }
{
    if is_white(byte) {
        Lead::White
    } else if byte == b'#' {
        Lead::Comment
    } else if is_letter(byte) {
        Lead::Token(TokenKind::Word)
    } else if is_digit(byte) {
        Lead::Token(TokenKind::Number)
    } else if is_quote(byte) {
        Lead::Token(TokenKind::Quoted)
    } else if is_symbol(byte) {
        Lead::Token(TokenKind::Symbol)
    } else {
        Lead::Nothing
    }
}

/// How many bytes at the front go on a word.
pub fn word_len(text: &[u8]) -> usize
    ensures value { result ≡ prefix_len is_word text.now }
    ensures within { result ≤ length text.now }
{
    text.iter().take_while(|byte| is_word(**byte)).count()
}

/// How many bytes at the front go on a number.
pub fn number_len(text: &[u8]) -> usize
    ensures value { result ≡ prefix_len is_number text.now }
    ensures within { result ≤ length text.now }
{
    text.iter().take_while(|byte| is_number(**byte)).count()
}

/// How many bytes at the front a comment has.
pub fn comment_len(text: &[u8]) -> usize
    ensures value { result ≡ comment_len text.now }
    ensures within { result ≤ length text.now }
{
    text.iter().take_while(|byte| !is_line_feed(**byte)).count()
}
