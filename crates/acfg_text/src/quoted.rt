//! Quoted tokens, their escapes, and what they stand for.

ghost use Rattle.std.specs.Prelude.{◌≡◌, ◌+◌, ◌*◌, ◌^◌, ◌++◌, ◌∷◌, [], ◌≤◌, ◌<◌, length, map, option_map, OnOk, IfSome};
ghost use Rattle.std.specs.Prelude.{if◌then◌else◌, Some, None};
ghost use Rattle.acfg_text.specs.Escapes.{is_octal, is_hexadecimal, digit_value, is_scalar, digits, number, escape_by};
ghost use Rattle.acfg_text.specs.Escapes.{octal, hexadecimal, unicode, escape, within, value_behind, spelled};
ghost use Rattle.acfg_text.specs.Scanning.{scan, unknown_escape, is_cut, IsWithin};
ghost use Rattle.acfg_text.specs.Meanings.{digit_test, base_of, bytes_of, meaning_of, IsFew};

use crate::bytes::is_line_feed;
use std::alloc::AllocError;

/// What a byte is between two quotes.
#[derive(Clone, Copy, Debug, PartialEq, Eq)]
pub enum Within {
    /// The quote that closes.
    Close,
    /// A line feed.
    Line,
    Backslash,
    /// A byte that stands for itself.
    Plain,
}

/// An escape, by the byte behind its backslash.
#[derive(Clone, Copy, Debug, PartialEq, Eq)]
pub enum Escape {
    /// A single letter or sign, which stands for this byte.
    Byte(u8),
    /// One to three octal digits, of which this is the first one's value.
    Octal(u8),
    /// `x` or `X`, and one or two hexadecimal digits.
    Hexadecimal,
    /// `u` or `U`, and so many hexadecimal digits.
    Scalar(usize),
    Unknown,
}

/// Where a quoted text ends, in bytes behind its opening quote.
#[derive(Clone, Copy, Debug, PartialEq, Eq)]
pub enum Scan {
    /// Behind its closing quote.
    Closed(usize),
    /// At a backslash that begins no escape.
    Bad(usize),
    /// A line feed or the end comes first.
    Open,
}

/// The digits of an escape.
#[derive(Clone, Copy, Debug, PartialEq, Eq)]
pub enum Base {
    Octal,
    Hexadecimal,
}

/// What an escape stands for.
#[derive(Clone, Copy, Debug)]
pub enum Sign {
    Byte(u8),
    Char(char),
}

/// An escape: how many bytes it has behind its backslash, and what it stands for.
#[derive(Clone, Copy, Debug)]
pub struct Meaning {
    pub length: usize,
    pub sign: Sign,
}

/// Digits at a front: how many, and their value.
#[derive(Clone, Copy, Debug)]
pub struct Digits {
    pub count: usize,
    pub value: u64,
}

#[tactic(auto, unfolding(crate::specs::Escapes::is_octal))]
fn is_octal(byte: u8) -> bool
    ensures { result ≡ is_octal byte }
{
    b'0' <= byte && byte <= b'7'
}

#[tactic(auto, unfolding(crate::specs::Escapes::is_hexadecimal))]
fn is_hexadecimal(byte: u8) -> bool
    ensures { result ≡ is_hexadecimal byte }
{
    (b'0' <= byte && byte <= b'9')
        || ((b'A' <= byte && byte <= b'F') || (b'a' <= byte && byte <= b'f'))
}

fn is_digit(base: Base, byte: u8) -> bool
    ensures { result ≡ digit_test base byte }
{
    match base {
        Base::Octal => is_octal(byte),
        Base::Hexadecimal => is_hexadecimal(byte),
    }
}

#[tactic(auto, unfolding(crate::specs::Escapes::within))]
fn within_quotes(quote: u8, byte: u8) -> Within
    ensures { result ≡ within quote byte }
{
    if byte == quote {
        Within::Close
    } else if byte == b'\n' {
        Within::Line
    } else if byte == b'\\' {
        Within::Backslash
    } else {
        Within::Plain
    }
}

#[tactic(auto, unfolding(crate::specs::Escapes::escape_by))]
fn escape_by(byte: u8) -> Escape
    ensures value { result ≡ escape_by byte }
    ensures few { IsFew result }
{
    if byte == b'a' {
        Escape::Byte(0x07)
    } else if byte == b'b' {
        Escape::Byte(0x08)
    } else if byte == b't' {
        Escape::Byte(0x09)
    } else if byte == b'n' {
        Escape::Byte(0x0A)
    } else if byte == b'v' {
        Escape::Byte(0x0B)
    } else if byte == b'f' {
        Escape::Byte(0x0C)
    } else if byte == b'r' {
        Escape::Byte(0x0D)
    } else if byte == b'?' {
        Escape::Byte(b'?')
    } else if byte == b'\\' {
        Escape::Byte(b'\\')
    } else if byte == b'\'' {
        Escape::Byte(b'\'')
    } else if byte == b'"' {
        Escape::Byte(b'"')
    } else if is_octal(byte) {
        Escape::Octal(byte.saturating_sub(b'0'))
    } else if byte == b'x' {
        Escape::Hexadecimal
    } else if byte == b'X' {
        Escape::Hexadecimal
    } else if byte == b'u' {
        Escape::Scalar(4)
    } else if byte == b'U' {
        Escape::Scalar(8)
    } else {
        Escape::Unknown
    }
}

#[tactic(auto, unfolding(crate::specs::Escapes::digit_value))]
fn digit_value(byte: u8) -> u64
    ensures value { result ≡ digit_value byte }
    ensures small { result < 256 }
{
    if byte <= b'9' {
        u64::from(byte.saturating_sub(b'0'))
    } else if byte <= b'F' {
        u64::from(byte.saturating_sub(55))
    } else {
        u64::from(byte.saturating_sub(87))
    }
}

fn radix(base: Base) -> u64
    ensures value { result ≡ base_of base }
    ensures small { result ≤ 16 }
{
    match base {
        Base::Octal => 8,
        Base::Hexadecimal => 16,
    }
}

// The number that digits spell behind one that came before them: the digits at the front, at most so many.
fn read_digits(base: Base, start: u8, most: usize, text: &[u8]) -> Digits
    requires { most ≤ 8 }
    ensures count { result.count ≡ length (digits (digit_test base) most text.now) }
    ensures value { result.value ≡ number (base_of base) start (digits (digit_test base) most text.now) }
    ensures small { result.value < (start + 1) * 16 ^ result.count }
    ensures few { result.count ≤ most }
{
    let radix = radix(base);
    let mut count = 0;
    let mut value = u64::from(start);
    while count < most {
        if count >= text.len() {
            break;
        }
        let byte = text[count];
        if !is_digit(base, byte) {
            break;
        }
        value = value * radix + digit_value(byte);
        count += 1;
    }
    Digits { count, value }
}

fn read_octal(first: u8, text: &[u8]) -> Option<Meaning>
    ensures { option_map meaning_of result ≡ octal first (digits is_octal 2 text.now) }
{
    let found = read_digits(Base::Octal, first, 2, text);
    if found.value <= 255 {
        let sign = Sign::Byte(found.value as u8);
        Some(Meaning {
            length: found.count + 1,
            sign,
        })
    } else {
        None
    }
}

fn read_hexadecimal(text: &[u8]) -> Option<Meaning>
    ensures { option_map meaning_of result ≡ hexadecimal (digits is_hexadecimal 2 text.now) }
{
    let found = read_digits(Base::Hexadecimal, 0, 2, text);
    if found.count == 0 {
        None
    } else {
        let sign = Sign::Byte(found.value as u8);
        Some(Meaning {
            length: found.count + 1,
            sign,
        })
    }
}

fn read_scalar(count: usize, text: &[u8]) -> Option<Meaning>
    requires { count ≤ 8 }
    ensures { option_map meaning_of result ≡ unicode count (digits is_hexadecimal count text.now) }
{
    let found = read_digits(Base::Hexadecimal, 0, count, text);
    if found.count != count {
        return None;
    }
    match scalar(found.value) {
        Some(char) => Some(Meaning {
            length: count + 1,
            sign: Sign::Char(char),
        }),
        None => None,
    }
}

// The character of a Unicode scalar value.
#[tactic(auto, unfolding(crate::specs::Escapes::is_scalar))]
fn scalar(value: u64) -> Option<char>
    ensures { result ≡ (if is_scalar value then Some value else None) }
{
    if value < 0xD800 || (0xE000 <= value && value <= 0x10FFFF) {
        char::from_u32(value as u32)
    } else {
        None
    }
}

// The escape at the front of what stands behind a backslash.
#[tactic(auto, unfolding(crate::specs::Escapes::escape))]
fn read_escape(text: &[u8]) -> Option<Meaning>
    ensures { option_map meaning_of result ≡ escape text.now }
{
    match text {
        [] => None,
        [first, rest @ ..] => match escape_by(*first) {
            Escape::Byte(byte) => Some(Meaning {
                length: 1,
                sign: Sign::Byte(byte),
            }),
            Escape::Octal(value) => read_octal(value, rest),
            Escape::Hexadecimal => read_hexadecimal(rest),
            Escape::Scalar(count) => read_scalar(count, rest),
            Escape::Unknown => None,
        },
    }
}

fn is_cut(text: &[u8]) -> bool
    ensures { result ≡ is_cut text.now }
{
    match text {
        [] => true,
        [first, ..] => is_line_feed(*first),
    }
}

/// Where the text behind an opening quote ends.
pub fn scan_quoted(quote: u8, text: &[u8]) -> Scan
    ensures value { result ≡ scan quote 0 0 text.now }
    ensures within { IsWithin (length text.now) result }
{
    let mut at = 0;
    while at < text.len() {
        match within_quotes(quote, text[at]) {
            Within::Close => return Scan::Closed(at + 1),
            Within::Line => return Scan::Open,
            Within::Plain => at += 1,
            Within::Backslash => match read_escape(&text[at + 1..]) {
                Some(meaning) => at += meaning.length + 1,
                None => return unknown_escape(at, &text[at + 1..]),
            },
        }
    }
    Scan::Open
}

fn unknown_escape(at: usize, text: &[u8]) -> Scan
    ensures { result ≡ unknown_escape (is_cut text.now) at }
{
    if is_cut(text) {
        Scan::Open
    } else {
        Scan::Bad(at)
    }
}

/// What a quoted token stands for, as a part of it, where it has no escape.
#[tactic(auto, unfolding(crate::specs::Escapes::spelled))]
pub fn plain_value(token: &[u8]) -> Option<&[u8]>
    ensures { IfSome result (λ value. value.now ≡ spelled token.now) }
{
    match token {
        [] => None,
        [quote, text @ ..] => plain_behind(*quote, text),
    }
}

fn plain_behind(quote: u8, text: &[u8]) -> Option<&[u8]>
    ensures { IfSome result (λ value. value.now ≡ value_behind quote 0 text.now) }
{
    let mut at = 0;
    while at < text.len() {
        match within_quotes(quote, text[at]) {
            Within::Plain => at += 1,
            Within::Close => return Some(&text[..at]),
            Within::Line => return Some(&text[..at]),
            Within::Backslash => return None,
        }
    }
    Some(&text[..at])
}

/// Adds what a quoted token stands for.
#[tactic(auto, unfolding(crate::specs::Escapes::spelled))]
pub fn push_spelled(out: &mut Vec<u8>, token: &[u8]) -> Result<(), AllocError>
    ensures { OnOk result (out.new.items ≡ out.old.items ++ spelled token.now) }
{
    match token {
        [] => Ok(()),
        [quote, text @ ..] => push_value(out, *quote, text),
    }
}

fn push_value(out: &mut Vec<u8>, quote: u8, text: &[u8]) -> Result<(), AllocError>
    ensures { OnOk result (out.new.items ≡ out.old.items ++ value_behind quote 0 text.now) }
{
    let mut at = 0;
    while at < text.len() {
        let byte = text[at];
        match within_quotes(quote, byte) {
            Within::Close => return Ok(()),
            Within::Line => return Ok(()),
            Within::Plain => {
                out.push(byte)?;
                at += 1;
            }
            Within::Backslash => match read_escape(&text[at + 1..]) {
                Some(meaning) => {
                    push_sign(out, meaning.sign)?;
                    at += meaning.length + 1;
                }
                None => return Ok(()),
            },
        }
    }
    Ok(())
}

fn push_sign(out: &mut Vec<u8>, sign: Sign) -> Result<(), AllocError>
    ensures { OnOk result (out.new.items ≡ out.old.items ++ bytes_of sign) }
{
    match sign {
        Sign::Byte(byte) => out.push(byte)?,
        Sign::Char(char) => {
            let mut bytes = [0; 4];
            out.extend_from_slice(char.encode_utf8(&mut bytes).as_bytes())?;
        }
    }
    Ok(())
}
