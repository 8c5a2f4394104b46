//! The tokens of a text.

ghost use Rattle.std.specs.Prelude.{◌≡◌, ◌+◌, ◌-◌, ◌^◌, ◌<◌, ◌≤◌, map, length, drop, slice_index, IfOk, IfErr, Ok, Err};
ghost use Rattle.acfg_text.specs.Terminals.{lexeme_of, terminal_of};
ghost use Rattle.acfg_text.specs.Lexes.{Lexes, AreSlices, LexFault};
ghost use Rattle.acfg_text.specs.TextFaults.{IfAt, Rising};
ghost use Rattle.acfg_text.specs.Scanning.{lex, token_len, quoted_len, scan};
ghost use Rattle.acfg_text.specs.Machine.{fault};
ghost use Rattle.acfg_text.specs.Marked.{marked};

use crate::bytes::{Lead, comment_len, lead_of, number_len, word_len};
use crate::fault::{TextFault, TextWhat};
use crate::marks::{Marks, Tokens};
use crate::quoted::{Scan, scan_quoted};
use crate::token::{Token, TokenKind};
use std::alloc::Global;

/// The tokens of a text: the Protocol Buffers text format, "Lexical elements". White space and comments stand
/// between them, and none could be longer.
///
/// # Errors
/// The first fault and its place: `BadByte`, `BadEscape` or `OpenString`.
pub fn tokens<'a>(alloc: Global, source: &'a [u8]) -> Result<Vec<Token<'a>>, TextFault>
    ensures ok { IfOk result (λ found. Lexes source.now (map lexeme_of found.items)) }
    ensures slices { IfOk result (λ found. AreSlices source.now (map lexeme_of found.items)) }
    ensures rising { IfOk result (λ found. Rising 0 (map terminal_of (map lexeme_of found.items)) (length source.now)) }
    ensures err { IfErr result (λ failure. IfAt failure (LexFault source.now)) }
{
    let found = lexed(alloc, source)?;
    let list = found.list(alloc)?;
    Ok(list)
}

/// The tokens of a text, as above, of which their marks alone are kept.
pub fn lexed<'a>(alloc: Global, source: &'a [u8]) -> Result<Tokens<'a>, TextFault>
    ensures ok { IfOk result (λ found. Lexes source.now found) }
    ensures few { IfOk result (λ found. length found < 2 ^ 64) }
    ensures err { IfErr result (λ failure. IfAt failure (LexFault source.now)) }
{
    let marks = read_marks(alloc, source)?;
    let found = Tokens::new(source, marks);
    let _count = found.len();
    Ok(found)
}

// Where the tokens of a text begin and end.
fn read_marks(alloc: Global, source: &[u8]) -> Result<Marks, TextFault>
    ensures ok { IfOk result (λ found. lex 0 0 source.now ≡ Ok (map (marked source.now) found)) }
    ensures err { IfErr result (λ failure. IfAt failure (λ p w. lex 0 0 source.now ≡ Err (fault p w))) }
{
    let mut found = Marks::new(alloc);
    let mut at = 0;
    while at < source.len() {
        match lead_of(source[at]) {
            Lead::White => at += 1,
            Lead::Comment => at += 1 + comment_len(&source[at + 1..]),
            Lead::Token(kind) => {
                let end = token_end(source, kind, at)?;
                found.push(at, end)?;
                at = end;
            }
            Lead::Nothing => return Err(TextFault::At(at, TextWhat::BadByte)),
        }
    }
    Ok(found)
}

// Where a token of this kind ends that begins here.
fn token_end(source: &[u8], kind: TokenKind, at: usize) -> Result<usize, TextFault>
    requires { at < length source.now }
    ensures ok { IfOk result (λ end.
        token_len kind (slice_index source.now at) at (drop (at + 1) source.now) ≡ Ok (end - (at + 1))) }
    ensures within { IfOk result (λ end. (at < end) × (end ≤ length source.now)) }
    ensures err { IfErr result (λ failure.
        IfAt failure (λ p w.
        token_len kind (slice_index source.now at) at (drop (at + 1) source.now) ≡ Err (fault p w))) }
{
    let text = &source[at + 1..];
    match kind {
        TokenKind::Word => Ok(at + 1 + word_len(text)),
        TokenKind::Number => Ok(at + 1 + number_len(text)),
        TokenKind::Quoted => quoted_end(at, source[at], text),
        TokenKind::Symbol => Ok(at + 1),
    }
}

fn quoted_end(at: usize, quote: u8, text: &[u8]) -> Result<usize, TextFault>
    requires { at + 1 + length text.now < 2 ^ 64 }
    ensures ok { IfOk result (λ end. quoted_len at (scan quote 0 0 text.now) ≡ Ok (end - (at + 1))) }
    ensures within { IfOk result (λ end. (at < end) × (end ≤ at + 1 + length text.now)) }
    ensures err { IfErr result (λ failure.
        IfAt failure (λ p w. quoted_len at (scan quote 0 0 text.now) ≡ Err (fault p w))) }
{
    match scan_quoted(quote, text) {
        Scan::Closed(length) => Ok(at + 1 + length),
        Scan::Bad(length) => Err(TextFault::At(at + 1 + length, TextWhat::BadEscape)),
        Scan::Open => Err(TextFault::At(at, TextWhat::OpenString)),
    }
}
