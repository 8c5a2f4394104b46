//! Tokens kept as where they begin and end, so that the tokens of a large text take little memory.

ghost use Rattle.std.specs.Prelude.{◌≡◌, List, [], ◌∷◌, ◌++◌, ◌+◌, ◌-◌, ◌<◌, drop, length, map, take, IfOk, OnOk};
ghost use Rattle.std.specs.Prelude.{slice_index_or};
ghost use Rattle.acfg_text.specs.Terminals.{Lexeme, lexeme_of};
ghost use Rattle.acfg_text.specs.Lexes.{lead};
ghost use Rattle.acfg_text.specs.Marked.{begun_kind, kind_led, marked};

use crate::bytes::{Lead, lead_of};
use crate::token::{Token, TokenKind};
use std::alloc::{AllocError, Global};
use std::marker::Model;

/// The largest place that fits in a short mark.
const MOST_SHORT: usize = 0xFFFF_FFFF;

// Where a token begins and ends, in a text of less than 4 GiB.
#[derive(Clone, Copy, Debug)]
struct Short {
    start: u32,
    end: u32,
}

// Where a token begins and ends.
#[derive(Clone, Copy, Debug)]
struct Long {
    start: usize,
    end: usize,
}

/// Where tokens begin and end, in their order. Contracts see pairs.
#[derive(Debug, Drop)]
pub struct Marks {
    // The first ones.
    shorts: Vec<Short>,
    // Those behind them, from the first one that is too large for a short mark.
    longs: Vec<Long>,
}

impl Model for Marks {
    ghost use Rattle.std.specs.Prelude.{ℕ, List, ◌++◌, map};
    ghost use Rattle.acfg_text.specs.Marked.{long_pair, short_pair};

    ghost Value = { List (ℕ × ℕ) };

    ghost view = { λ marks. map short_pair marks.shorts.items ++ map long_pair marks.longs.items };
}

impl Marks {
    /// No marks, which take no memory.
    pub fn new(alloc: Global) -> Marks
        ensures { result ≡ [] }
    {
        Marks {
            shorts: Vec::new(alloc),
            longs: Vec::new(alloc),
        }
    }

    /// How many marks there are.
    pub fn len(&self) -> usize
        ensures { result ≡ length self.now }
    {
        let shorts = self.shorts.len();
        let longs = self.longs.len();
        shorts + longs
    }

    /// Puts a mark behind the others.
    pub fn push(&mut self, start: usize, end: usize) -> Result<(), AllocError>
        ensures { OnOk result (self.new ≡ self.old ++ (start, end) ∷ []) }
    {
        if self.longs.is_empty() && start <= MOST_SHORT && end <= MOST_SHORT {
            self.shorts.push(Short {
                start: start as u32,
                end: end as u32,
            })?;
        } else {
            self.longs.push(Long { start, end })?;
        }
        Ok(())
    }

    /// The mark at a position.
    pub fn at(&self, at: usize) -> (usize, usize)
        requires { at < length self.now }
        ensures { result ≡ slice_index_or self.now at (0, 0) }
    {
        if at < self.shorts.len() {
            let short = self.shorts[at];
            return (short.start as usize, short.end as usize);
        }
        let long = self.longs[at - self.shorts.len()];
        (long.start, long.end)
    }
}

/// The tokens of a source, of which the marks alone are kept. Contracts see the tokens.
#[derive(Debug, Drop)]
pub struct Tokens<'a> {
    source: &'a [u8],
    marks: Marks,
}

impl<'a> Model for Tokens<'a> {
    ghost use Rattle.std.specs.Prelude.{List, map};
    ghost use Rattle.acfg_text.specs.Terminals.{Lexeme};
    ghost use Rattle.acfg_text.specs.Marked.{marked};

    ghost Value = { List Lexeme };

    ghost view = { λ tokens. map (marked tokens.source.now) tokens.marks };
}

impl<'a> Tokens<'a> {
    /// The tokens at these marks.
    pub fn new(source: &'a [u8], marks: Marks) -> Tokens<'a>
        ensures { result ≡ map (marked source.now) marks }
    {
        Tokens { source, marks }
    }

    /// How many tokens there are.
    pub fn len(&self) -> usize
        ensures { result ≡ length self.now }
    {
        self.marks.len()
    }

    /// The token at a position.
    pub fn token(&self, at: usize) -> Token<'a>
        requires { at < length self.now }
        ensures { drop at self.now ≡ lexeme_of result ∷ drop (at + 1) self.now }
    {
        let (start, end) = self.marks.at(at);
        token_at(self.source, start, end)
    }

    /// The kind of the token at a position, which its first byte tells.
    pub fn kind(&self, at: usize) -> TokenKind
        requires { at < length self.now }
        ensures { (l : Lexeme) (rest : List Lexeme) → drop at self.now ≡ l ∷ rest → l.kind ≡ result }
    {
        let (start, end) = self.marks.at(at);
        kind_at(self.source, start, end)
    }

    /// The tokens, each with its kind and its slice of the source.
    pub fn list(&self, alloc: Global) -> Result<Vec<Token<'a>>, AllocError>
        ensures { IfOk result (λ list. map lexeme_of list.items ≡ self.now) }
    {
        let mut list = Vec::with_capacity(alloc, self.len())?;
        for at in 0..self.len() {
            list.push(self.token(at))?;
        }
        Ok(list)
    }
}

// The kind of the token between two places.
fn kind_at(source: &[u8], start: usize, end: usize) -> TokenKind
    ensures { result ≡ (marked source.now (start, end)).kind }
{
    kind_of(part(source, start, end))
}

// The token between two places.
fn token_at(source: &[u8], start: usize, end: usize) -> Token<'_>
    ensures { lexeme_of result ≡ marked source.now (start, end) }
{
    let text = part(source, start, end);
    Token {
        kind: kind_of(text),
        place: start,
        text,
    }
}

// What of a source stands between two places.
fn part(source: &[u8], start: usize, end: usize) -> &[u8]
    ensures { result.now ≡ take (end - start) (drop start source.now) }
{
    let behind = &source[start.min(source.len())..];
    &behind[..end.saturating_sub(start).min(behind.len())]
}

// The kind of a token of this text, which its first byte tells.
fn kind_of(text: &[u8]) -> TokenKind
    ensures { result ≡ begun_kind text.now }
{
    match text {
        [] => TokenKind::Symbol,
        [first, ..] => kind_led_by(*first),
    }
}

// The kind of a token that begins by this byte.
fn kind_led_by(byte: u8) -> TokenKind
    ensures { result ≡ kind_led (lead byte) }
{
    match lead_of(byte) {
        Lead::Token(kind) => kind,
        _ => TokenKind::Symbol,
    }
}
