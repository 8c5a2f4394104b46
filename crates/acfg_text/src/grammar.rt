//! Trees read from tokens, by the grammar of the Protocol Buffers text format.

ghost use Rattle.std.specs.Prelude.{◌≡◌, ◌≢◌, [], ◌∷◌, ◌+◌, ◌<◌, ◌≤◌, true, false, length, IfOk, IfErr, IfSome};
ghost use Rattle.std.specs.Prelude.{MatchOption, Bool, ℕ};
ghost use Rattle.std.specs.Bool.{OnTrue, OnFalse};
ghost use Rattle.std.specs.Str.{IsAscii};
ghost use Rattle.acfg_text.specs.Escapes.{spelled};
ghost use Rattle.acfg_text.specs.TextFaults.{is_quoted, IfAt, BeginsUnquoted};
ghost use Rattle.acfg_text.specs.Reading.{cursor, ahead, ArePlain, seen_of, NoField, IsNext, ReadsFields, FailsFields};
ghost use Rattle.acfg_text.specs.Reading.{ReadsField, FailsField, ReadsHeld, FailsHeld, ReadsColon, FailsColon};
ghost use Rattle.acfg_text.specs.Reading.{ReadsList, FailsList, ReadsValue, FailsValue, ReadsElement, FailsElement};
ghost use Rattle.acfg_text.specs.Reading.{ClosesBy, FailsToClose, GoesOn, FailsToGoOn, ClosesList, ClosesNoList};
ghost use Rattle.acfg_text.specs.Reading.{IsNoOpening, FailsScalar, Joins, IsQuoteAt};

use crate::classes::{Bracket, Class};
use crate::fault::{TextFault, TextWhat};
use crate::marks::Tokens;
use crate::quoted::{plain_value, push_spelled};
use crate::terminals::{Seen, field_name, is_of_another_kind, peek, skip_end, text_of};
use crate::token::TokenKind;
use crate::tree::{Item, Tree, Value};
use acfg_base::Text;
use sqlite_items::Items;
use std::alloc::{AllocError, Global};
use std::str;

/// The most messages that may be open in one another.
const MOST_OPEN: usize = 32;

// Reads fields up to a token that begins none.
#[cycle(fields)]
fn read_fields(
    alloc: Global,
    tokens: &Tokens<'_>,
    end: usize,
    from: usize,
    depth: usize,
) -> Result<(Items<Item>, usize), TextFault>
    requires plain { ArePlain tokens.now }
    requires depth { depth ≤ 32 }
    requires within { from ≤ length tokens.now }
    ensures ok { IfOk result (λ r. ReadsFields (cursor tokens.now end depth from) r.0 r.1) }
    ensures within { IfOk result (λ r. (from ≤ r.1) × (r.1 ≤ length tokens.now)) }
    ensures err { IfErr result (λ failure. IfAt failure (FailsFields (cursor tokens.now end depth from))) }
{
    let mut items = Items::new(alloc);
    let mut at = from;
    while let Some(name) = field_name(tokens, at) {
        let (item, next) = read_field(alloc, tokens, end, name, at, depth)?;
        items.push(item)?;
        at = next;
    }
    Ok((items, at))
}

/// Reads a field that begins with this name.
#[cycle(fields)]
pub fn read_field(
    alloc: Global,
    tokens: &Tokens<'_>,
    end: usize,
    name: Seen<'_>,
    at: usize,
    depth: usize,
) -> Result<(Item, usize), TextFault>
    requires plain { ArePlain tokens.now }
    requires depth { depth ≤ 32 }
    requires within { at < length tokens.now }
    requires next { IsNext tokens.now at name }
    requires word { name.class ≡ Class.Word }
    requires ascii { IsAscii name.text.now }
    ensures ok { IfOk result (λ r. ReadsField (cursor tokens.now end depth at) r.0 r.1) }
    ensures within { IfOk result (λ r. (at < r.1) × (r.1 ≤ length tokens.now)) }
    ensures err { IfErr result (λ failure. IfAt failure (FailsField (cursor tokens.now end depth at))) }
{
    let (listed, values, next) = read_held(alloc, tokens, end, at + 1, depth)?;
    let text = text_of(alloc, name.text)?;
    let item = Item {
        name: text,
        place: name.place,
        listed,
        values,
    };
    Ok((item, skip_end(tokens, next)))
}

// What a field holds behind its name.
#[cycle(fields)]
fn read_held(
    alloc: Global,
    tokens: &Tokens<'_>,
    end: usize,
    at: usize,
    depth: usize,
) -> Result<(bool, Items<Value>, usize), TextFault>
    requires plain { ArePlain tokens.now }
    requires depth { depth ≤ 32 }
    ensures ok { IfOk result (λ r. ReadsHeld (cursor tokens.now end depth at) r.0 r.1 r.2) }
    ensures within { IfOk result (λ r. (at < r.2) × (r.2 ≤ length tokens.now)) }
    ensures err { IfErr result (λ failure. IfAt failure (FailsHeld (cursor tokens.now end depth at))) }
{
    let Some(seen) = peek(tokens, at) else {
        return Err(TextFault::At(end, TextWhat::Unexpected));
    };
    match seen.class {
        Class::Colon => {
            let (listed, values, next) = read_valued(alloc, tokens, end, at + 1, depth)?;
            Ok((listed, values, next))
        }
        Class::Open(bracket) => {
            let (value, next) = read_message(alloc, tokens, end, seen, at, depth, bracket)?;
            Ok((false, only(alloc, value)?, next))
        }
        Class::OpenList => {
            let (values, next) = read_list(alloc, tokens, end, at + 1, depth, false)?;
            Ok((true, values, next))
        }
        _ => Err(TextFault::At(seen.place, TextWhat::Unexpected)),
    }
}

// What a field holds behind its name and a colon.
#[cycle(fields)]
fn read_valued(
    alloc: Global,
    tokens: &Tokens<'_>,
    end: usize,
    at: usize,
    depth: usize,
) -> Result<(bool, Items<Value>, usize), TextFault>
    requires plain { ArePlain tokens.now }
    requires depth { depth ≤ 32 }
    ensures ok { IfOk result (λ r. ReadsColon (cursor tokens.now end depth at) r.0 r.1 r.2) }
    ensures within { IfOk result (λ r. (at < r.2) × (r.2 ≤ length tokens.now)) }
    ensures err { IfErr result (λ failure. IfAt failure (FailsColon (cursor tokens.now end depth at))) }
{
    let Some(seen) = peek(tokens, at) else {
        return Err(TextFault::At(end, TextWhat::Unexpected));
    };
    match seen.class {
        Class::Open(bracket) => {
            let (value, next) = read_message(alloc, tokens, end, seen, at, depth, bracket)?;
            Ok((false, only(alloc, value)?, next))
        }
        Class::OpenList => {
            let (values, next) = read_list(alloc, tokens, end, at + 1, depth, true)?;
            Ok((true, values, next))
        }
        _ => {
            let (value, next) = read_scalar(alloc, tokens, end, seen, at)?;
            Ok((false, only(alloc, value)?, next))
        }
    }
}

// The values of a list behind its opening bracket.
#[cycle(fields)]
fn read_list(
    alloc: Global,
    tokens: &Tokens<'_>,
    end: usize,
    from: usize,
    depth: usize,
    colon: bool,
) -> Result<(Items<Value>, usize), TextFault>
    requires plain { ArePlain tokens.now }
    requires depth { depth ≤ 32 }
    requires within { from ≤ length tokens.now }
    ensures ok { IfOk result (λ r. ReadsList (cursor tokens.now end depth from) colon r.0 r.1) }
    ensures within { IfOk result (λ r. (from ≤ r.1) × (r.1 ≤ length tokens.now)) }
    ensures err { IfErr result (λ failure. IfAt failure (FailsList (cursor tokens.now end depth from) colon)) }
{
    let mut values = Items::new(alloc);
    if closes_list(tokens, from) {
        return Ok((values, from + 1));
    }
    let mut at = from;
    let mut more = true;
    while more {
        let (value, next) = read_element(alloc, tokens, end, at, depth, colon)?;
        values.push(value)?;
        more = goes_on(tokens, end, next)?;
        at = next + 1;
    }
    Ok((values, at))
}

// One item of a list.
#[cycle(fields)]
fn read_element(
    alloc: Global,
    tokens: &Tokens<'_>,
    end: usize,
    at: usize,
    depth: usize,
    colon: bool,
) -> Result<(Value, usize), TextFault>
    requires plain { ArePlain tokens.now }
    requires depth { depth ≤ 32 }
    ensures ok { IfOk result (λ r. ReadsElement (cursor tokens.now end depth at) colon r.0 r.1) }
    ensures within { IfOk result (λ r. (at < r.1) × (r.1 ≤ length tokens.now)) }
    ensures err { IfErr result (λ failure. IfAt failure (FailsElement (cursor tokens.now end depth at) colon)) }
{
    let Some(seen) = peek(tokens, at) else {
        return Err(TextFault::At(end, TextWhat::Unexpected));
    };
    match seen.class {
        Class::Open(bracket) => {
            let (value, next) = read_message(alloc, tokens, end, seen, at, depth, bracket)?;
            Ok((value, next))
        }
        Class::OpenList => Err(TextFault::At(seen.place, TextWhat::Unexpected)),
        _ => {
            if !colon {
                return Err(TextFault::At(seen.place, TextWhat::Unexpected));
            }
            let (value, next) = read_scalar(alloc, tokens, end, seen, at)?;
            Ok((value, next))
        }
    }
}

#[cycle(fields)]
fn read_message(
    alloc: Global,
    tokens: &Tokens<'_>,
    end: usize,
    opening: Seen<'_>,
    at: usize,
    depth: usize,
    bracket: Bracket,
) -> Result<(Value, usize), TextFault>
    requires plain { ArePlain tokens.now }
    requires depth { depth ≤ 32 }
    requires within { at < length tokens.now }
    requires next { IsNext tokens.now at opening }
    requires opens { opening.class ≡ Class.Open bracket }
    ensures ok { IfOk result (λ r. (colon : Bool) → ReadsValue (cursor tokens.now end depth at) colon r.0 r.1) }
    ensures within { IfOk result (λ r. (at < r.1) × (r.1 ≤ length tokens.now)) }
    ensures err { IfErr result (λ failure.
        IfAt failure (λ p w. (colon : Bool) → FailsValue (cursor tokens.now end depth at) colon p w)) }
{
    if depth >= MOST_OPEN {
        return Err(TextFault::At(opening.place, TextWhat::TooDeep));
    }
    let (items, close) = read_fields(alloc, tokens, end, at + 1, depth + 1)?;
    let place = read_close(tokens, end, close, bracket)?;
    let tree = Tree { items, end: place };
    Ok((Value::Message(opening.place, tree), close + 1))
}

// The place of a message's closing bracket, which is due here.
fn read_close(
    tokens: &Tokens<'_>,
    end: usize,
    at: usize,
    bracket: Bracket,
) -> Result<usize, TextFault>
    requires plain { ArePlain tokens.now }
    requires fields { NoField (ahead tokens.now at) }
    ensures ok { IfOk result (ClosesBy tokens.now end at bracket) }
    ensures within { IfOk result (λ place. at < length tokens.now) }
    ensures err { IfErr result (λ failure. IfAt failure (FailsToClose tokens.now end at bracket)) }
{
    let Some(seen) = peek(tokens, at) else {
        return Err(TextFault::At(end, TextWhat::Unexpected));
    };
    if seen.class == Class::Close(bracket) {
        Ok(seen.place)
    } else {
        Err(TextFault::At(seen.place, TextWhat::Unexpected))
    }
}

fn closes_list(tokens: &Tokens<'_>, at: usize) -> bool
    requires { ArePlain tokens.now }
    ensures yes { OnTrue result (ClosesList tokens.now at) }
    ensures no { OnFalse result (ClosesNoList tokens.now at) }
    ensures within { OnTrue result (at < length tokens.now) }
{
    match peek(tokens, at) {
        Some(seen) => seen.class == Class::CloseList,
        None => false,
    }
}

// Whether a comma goes on with a list, or its bracket closes it.
fn goes_on(tokens: &Tokens<'_>, end: usize, at: usize) -> Result<bool, TextFault>
    requires { ArePlain tokens.now }
    ensures ok { IfOk result (GoesOn tokens.now end at) }
    ensures within { IfOk result (λ more. at < length tokens.now) }
    ensures err { IfErr result (λ failure. IfAt failure (FailsToGoOn tokens.now end at)) }
{
    let Some(seen) = peek(tokens, at) else {
        return Err(TextFault::At(end, TextWhat::Unexpected));
    };
    match seen.class {
        Class::Comma => Ok(true),
        Class::CloseList => Ok(false),
        _ => Err(TextFault::At(seen.place, TextWhat::Unexpected)),
    }
}

// A word, a number or a text.
fn read_scalar(
    alloc: Global,
    tokens: &Tokens<'_>,
    end: usize,
    seen: Seen<'_>,
    at: usize,
) -> Result<(Value, usize), TextFault>
    requires plain { ArePlain tokens.now }
    requires within { at < length tokens.now }
    requires next { IsNext tokens.now at seen }
    requires ascii { is_quoted seen.class ≡ false → IsAscii seen.text.now }
    requires opens { IsNoOpening seen.class }
    ensures ok { IfOk result (λ r. (depth : ℕ) → ReadsValue (cursor tokens.now end depth at) true r.0 r.1) }
    ensures within { IfOk result (λ r. (at < r.1) × (r.1 ≤ length tokens.now)) }
    ensures err { IfErr result (λ failure.
        IfAt failure (λ p w. (depth : ℕ) → FailsScalar (cursor tokens.now end depth at) p w)) }
{
    match seen.class {
        Class::Word => Ok((Value::Word(seen.place, text_of(alloc, seen.text)?), at + 1)),
        Class::Number => Ok((
            Value::Number(seen.place, text_of(alloc, seen.text)?),
            at + 1,
        )),
        Class::Quoted => {
            let (value, next) = read_text(alloc, tokens, end, seen, at)?;
            Ok((value, next))
        }
        _ => Err(TextFault::At(seen.place, TextWhat::Unexpected)),
    }
}

// Quoted tokens, whose values join.
fn read_text(
    alloc: Global,
    tokens: &Tokens<'_>,
    end: usize,
    first: Seen<'_>,
    at: usize,
) -> Result<(Value, usize), TextFault>
    requires plain { ArePlain tokens.now }
    requires within { at < length tokens.now }
    requires next { IsNext tokens.now at first }
    requires quoted { first.class ≡ Class.Quoted }
    ensures ok { IfOk result (λ r. (depth : ℕ) → ReadsValue (cursor tokens.now end depth at) true r.0 r.1) }
    ensures within { IfOk result (λ r. (at < r.1) × (r.1 ≤ length tokens.now)) }
    ensures err { IfErr result (λ failure.
        IfAt failure (λ p w. (depth : ℕ) → FailsScalar (cursor tokens.now end depth at) p w)) }
{
    match lone_text(tokens, first.text, at + 1) {
        Some(text) => {
            let (value, next) = read_lone(alloc, tokens, end, first, at, text)?;
            Ok((value, next))
        }
        None => {
            let (value, next) = read_joined(alloc, tokens, end, first, at)?;
            Ok((value, next))
        }
    }
}

// What a quoted token stands for, where it has no escape and no further one stands behind it.
fn lone_text<'a>(tokens: &Tokens<'_>, first: &'a [u8], at: usize) -> Option<&'a [u8]>
    requires { ArePlain tokens.now }
    ensures value { IfSome result (λ value. value.now ≡ spelled first.now) }
    ensures ends { IfSome result (λ value. BeginsUnquoted (ahead tokens.now at)) }
{
    match quoted_text(tokens, at) {
        Some(_) => None,
        None => plain_value(first),
    }
}

// A quoted token with none behind it, which stands for this text.
fn read_lone(
    alloc: Global,
    tokens: &Tokens<'_>,
    end: usize,
    token: Seen<'_>,
    at: usize,
    text: &[u8],
) -> Result<(Value, usize), TextFault>
    requires plain { ArePlain tokens.now }
    requires within { at < length tokens.now }
    requires next { IsNext tokens.now at token }
    requires value { text.now ≡ spelled token.text.now }
    requires ends { BeginsUnquoted (ahead tokens.now (at + 1)) }
    requires quoted { token.class ≡ Class.Quoted }
    ensures ok { IfOk result (λ r. (depth : ℕ) → ReadsValue (cursor tokens.now end depth at) true r.0 r.1) }
    ensures within { IfOk result (λ r. (at < r.1) × (r.1 ≤ length tokens.now)) }
    ensures err { IfErr result (λ failure.
        IfAt failure (λ p w. (depth : ℕ) → FailsScalar (cursor tokens.now end depth at) p w)) }
{
    match str::from_utf8(text) {
        Ok(text) => Ok((Value::Text(token.place, Text::copy(alloc, text)?), at + 1)),
        Err(_) => Err(TextFault::At(token.place, TextWhat::BadUtf8)),
    }
}

// Quoted tokens, of any number and with any escapes.
fn read_joined(
    alloc: Global,
    tokens: &Tokens<'_>,
    end: usize,
    first: Seen<'_>,
    at: usize,
) -> Result<(Value, usize), TextFault>
    requires plain { ArePlain tokens.now }
    requires within { at < length tokens.now }
    requires next { IsNext tokens.now at first }
    requires quoted { first.class ≡ Class.Quoted }
    ensures ok { IfOk result (λ r. (depth : ℕ) → ReadsValue (cursor tokens.now end depth at) true r.0 r.1) }
    ensures within { IfOk result (λ r. (at < r.1) × (r.1 ≤ length tokens.now)) }
    ensures err { IfErr result (λ failure.
        IfAt failure (λ p w. (depth : ℕ) → FailsScalar (cursor tokens.now end depth at) p w)) }
{
    let (bytes, next) = join(alloc, tokens, end, first.text, at + 1)?;
    match String::from_utf8(bytes) {
        Ok(text) => Ok((Value::Text(first.place, Text::new(text)), next)),
        Err(_) => Err(TextFault::At(first.place, TextWhat::BadUtf8)),
    }
}

// What a quoted token and those behind it stand for.
fn join(
    alloc: Global,
    tokens: &Tokens<'_>,
    end: usize,
    first: &[u8],
    from: usize,
) -> Result<(Vec<u8>, usize), AllocError>
    requires plain { ArePlain tokens.now }
    requires within { from ≤ length tokens.now }
    ensures ok { IfOk result (λ r. Joins tokens.now end (spelled first.now) from r.0.items r.1) }
    ensures within { IfOk result (λ r. (from ≤ r.1) × (r.1 ≤ length tokens.now)) }
{
    let mut bytes = Vec::with_capacity(alloc, first.len())?;
    push_spelled(&mut bytes, first)?;
    let mut at = from;
    while let Some(text) = quoted_text(tokens, at) {
        push_spelled(&mut bytes, text)?;
        at += 1;
    }
    Ok((bytes, at))
}

// The text of a quoted token that stands here.
fn quoted_text<'a>(tokens: &Tokens<'a>, at: usize) -> Option<&'a [u8]>
    requires { ArePlain tokens.now }
    ensures ahead { MatchOption result (BeginsUnquoted (ahead tokens.now at))
        (λ text. IsQuoteAt tokens.now at text.now) }
    ensures within { IfSome result (λ text. at < length tokens.now) }
{
    if is_of_another_kind(tokens, at, TokenKind::Quoted) {
        return None;
    }
    let seen = peek(tokens, at)?;
    if seen.class == Class::Quoted {
        Some(seen.text)
    } else {
        None
    }
}

fn only(alloc: Global, value: Value) -> Result<Items<Value>, AllocError>
    ensures { IfOk result (λ values. values ≡ value ∷ []) }
{
    let mut values = Vec::with_capacity(alloc, 1)?;
    values.push(value)?;
    Ok(Items::from_vec(values))
}
