//! Tokens as the grammar's reader looks at them.

ghost use Rattle.std.specs.Prelude.{◌≡◌, [], ◌∷◌, ◌+◌, ◌<◌, ◌≤◌, false, length, slice_index, IfSome, IfOk, MatchOption};
ghost use Rattle.std.specs.Prelude.{◌≢◌, List, drop};
ghost use Rattle.std.specs.Bool.{OnTrue};
ghost use Rattle.std.specs.Str.{IsAscii};
ghost use Rattle.acfg_text.specs.Terminals.{Lexeme, symbol, class_of};
ghost use Rattle.acfg_text.specs.TextFaults.{is_quoted};
ghost use Rattle.acfg_text.specs.Reading.{ahead, ArePlain, seen_of, NoField, IsNext, SkipsEnd};

use crate::classes::{Bracket, Class};
use crate::marks::Tokens;
use crate::token::TokenKind;
use acfg_base::Text;
use std::alloc::{AllocError, Global};
use std::str;

/// A token as a terminal of the grammar.
#[derive(Clone, Copy, Debug)]
pub struct Seen<'a> {
    pub class: Class,
    pub place: usize,
    pub text: &'a [u8],
}

#[tactic(auto, unfolding(crate::specs::Terminals::symbol))]
fn class_of_symbol(byte: u8) -> Class
    ensures { result ≡ symbol byte }
{
    if byte == b':' {
        Class::Colon
    } else if byte == b',' {
        Class::Comma
    } else if byte == b'{' {
        Class::Open(Bracket::Curly)
    } else if byte == b'}' {
        Class::Close(Bracket::Curly)
    } else if byte == b'<' {
        Class::Open(Bracket::Angle)
    } else if byte == b'>' {
        Class::Close(Bracket::Angle)
    } else if byte == b'[' {
        Class::OpenList
    } else if byte == b']' {
        Class::CloseList
    } else {
        Class::Semicolon
    }
}

fn first_byte(text: &[u8]) -> u8
    ensures { result ≡ slice_index text.now 0 }
{
    if text.is_empty() { 0 } else { text[0] }
}

fn class_of(kind: TokenKind, text: &[u8]) -> Class
    ensures { result ≡ class_of kind text.now }
{
    match kind {
        TokenKind::Word => Class::Word,
        TokenKind::Number => Class::Number,
        TokenKind::Quoted => Class::Quoted,
        TokenKind::Symbol => class_of_symbol(first_byte(text)),
    }
}

/// The token at a place of the list.
pub fn peek<'a>(tokens: &Tokens<'a>, at: usize) -> Option<Seen<'a>>
    requires { ArePlain tokens.now }
    ensures ahead { MatchOption result (ahead tokens.now at ≡ []) (IsNext tokens.now at) }
    ensures within { IfSome result (λ t. at < length tokens.now) }
    ensures plain { IfSome result (λ t. is_quoted t.class ≡ false → IsAscii t.text.now) }
{
    if at >= tokens.len() {
        return None;
    }
    let token = tokens.token(at);
    Some(Seen {
        class: class_of(token.kind, token.text),
        place: token.place,
        text: token.text,
    })
}

/// The name of a field that begins here.
pub fn field_name<'a>(tokens: &Tokens<'a>, at: usize) -> Option<Seen<'a>>
    requires { ArePlain tokens.now }
    ensures ahead { MatchOption result (NoField (ahead tokens.now at)) (IsNext tokens.now at) }
    ensures word { IfSome result (λ t. t.class ≡ Class.Word) }
    ensures within { IfSome result (λ t. at < length tokens.now) }
    ensures plain { IfSome result (λ t. IsAscii t.text.now) }
{
    let seen = peek(tokens, at)?;
    if seen.class == Class::Word {
        Some(seen)
    } else {
        None
    }
}

/// Whether the token at a place of the list is of another kind than this.
pub fn is_of_another_kind(tokens: &Tokens<'_>, at: usize, kind: TokenKind) -> bool
    ensures { OnTrue result ((at < length tokens.now) × ((l : Lexeme) (rest : List Lexeme)
        → drop at tokens.now ≡ l ∷ rest → l.kind ≢ kind)) }
{
    at < tokens.len() && tokens.kind(at) != kind
}

/// Behind a field's end, which is nothing, a comma or a semicolon.
pub fn skip_end(tokens: &Tokens<'_>, at: usize) -> usize
    requires plain { ArePlain tokens.now }
    requires within { at ≤ length tokens.now }
    ensures leads { SkipsEnd tokens.now at result }
    ensures within { (at ≤ result) × (result ≤ length tokens.now) }
{
    if is_of_another_kind(tokens, at, TokenKind::Symbol) {
        return at;
    }
    let Some(seen) = peek(tokens, at) else {
        return at;
    };
    match seen.class {
        Class::Comma => at + 1,
        Class::Semicolon => at + 1,
        _ => at,
    }
}

/// A word or a number as it is spelled.
pub fn text_of(alloc: Global, text: &[u8]) -> Result<Text, AllocError>
    requires { IsAscii text.now }
    ensures { IfOk result (λ read. read ≡ text.now) }
{
    match str::from_utf8(text) {
        Ok(text) => Ok(Text::copy(alloc, text)?),
        Err(_) => unreachable!(),
    }
}
