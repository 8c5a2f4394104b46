//! The lines of a script, taken one at a time.

ghost use Rattle.std.specs.Prelude.{◌≡◌, ◌<◌, ◌↔◌, ◌++◌, ℕ, List, [], ◌∷◌, length, Contains, IsTrue};
ghost use Rattle.std.specs.List.{AllByRecursion};
ghost use Rattle.std.specs.Option.{option_map};
ghost use Rattle.std.specs.Fmt.{decimal};
ghost use Rattle.acfg_base.specs.Bytes.{backslash, line_feed};
ghost use Rattle.acfg_base.specs.Found.{Finds};
ghost use Rattle.acfg_daemon.specs.Bodies.{event_of, BeginsPlainly};
ghost use Rattle.acfg_daemon.specs.Lines.{lines, EndsIn, IsGood, IsEvent, joined};

use memchr::memchr;
use std::str;

/// The most bytes of a request.
const MOST_BYTES: usize = 4096;

/// What a line gives.
#[derive(Clone, Copy, Debug)]
pub enum Arrived<'a> {
    /// A client's request is complete: the client's number, and the request's text.
    Complete(u8, &'a [u8]),
    /// A client's request is over its most bytes.
    TooLong(u8),
    /// The line isn't a client's number, a space and a piece.
    BadLine,
}

/// A script's first line, and what stands behind it. A line ends at a line feed or at the script's end.
pub fn split_line<'a>(script: &'a [u8]) -> (&'a [u8], &'a [u8])
    requires { 0 < length script.now }
    ensures lines { lines script.now ≡ result.0.now ∷ lines result.1.now }
    ensures shorter { length result.1.now < length script.now }
{
    match memchr(b'\n', script) {
        Some(end) => (&script[..end], &script[end + 1..]),
        None => (script, &script[script.len()..]),
    }
}

/// What a line gives.
pub fn read_line<'a>(line: &'a [u8]) -> Arrived<'a>
    ensures { (number : ℕ) → IsEvent number line.now (event_of number result) }
{
    match good_line(line) {
        None => Arrived::BadLine,
        Some((client, piece)) if piece.len() > MOST_BYTES => Arrived::TooLong(client),
        Some((client, piece)) => Arrived::Complete(client, piece),
    }
}

// The client's number and the piece of a good line.
fn good_line<'a>(line: &'a [u8]) -> Option<(u8, &'a [u8])>
    ensures { Finds (λ (read : ℕ × List ℕ). IsGood line.now read.0 read.1)
        (option_map (λ read. (read.0, read.1.now)) result) }
{
    let space = memchr(b' ', line)?;
    let client = client_number(&line[..space])?;
    let piece = &line[space + 1..];
    if is_continued(piece) {
        return None;
    }
    Some((client, piece))
}

// Whether a piece is to be continued by a later line.
fn is_continued(piece: &[u8]) -> bool
    ensures { IsTrue result ↔ EndsIn piece.now backslash }
{
    piece.ends_with(b"\\")
}

// The number that a word is, in decimal without a sign or leading zeros.
fn client_number(word: &[u8]) -> Option<u8>
    ensures { Finds (λ client. (client < 256) × (word.now ≡ decimal client)) result }
{
    if !begins_plainly(word) {
        return None;
    }
    match str::from_utf8(word) {
        Ok(text) => text.parse().ok(),
        Err(_) => None,
    }
}

// Whether a word has no sign, and no zero in front of another byte.
fn begins_plainly(word: &[u8]) -> bool
    ensures { IsTrue result ↔ BeginsPlainly word.now }
{
    match word.first() {
        Some(b'+') => false,
        Some(b'0') => word.len() == 1,
        _ => true,
    }
}

/// No line of a script holds a line feed, and joined they are the script but for the end of its last line.
pub fn script_of_lines()
    ensures bare { (script : List ℕ) → AllByRecursion (λ line. ¬ Contains line line_feed) (lines script) }
    ensures whole { (script : List ℕ) → EndsIn script line_feed → joined (lines script) ≡ script }
    ensures unended { (script : List ℕ) → 0 < length script → ¬ EndsIn script line_feed
        → joined (lines script) ≡ script ++ line_feed ∷ [] }
{}
