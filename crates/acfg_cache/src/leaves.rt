//! The texts and numbers among the fields of a message.

ghost use Rattle.std.specs.Prelude.{◌≡◌, IfOk, filter_map};
ghost use Rattle.std.specs.List.{last_or};
ghost use Rattle.std.specs.Option.{option_copied};
ghost use Rattle.acfg_cache.specs.Counted.{number, number_at, text, text_at, texts};
ghost use Rattle.acfg_cache.specs.Reading.{has_number, text_or_none, truth};
ghost use Rattle.acfg_cache.specs.Bodies.{leaf_read, leaves_read};

use acfg_base::{Sequence, Text};
use std::alloc::{AllocError, Global};

/// A text or a number, with the number of its field.
#[derive(Clone, Copy, Debug)]
pub enum Leaf<'a> {
    Text(u64, &'a str),
    Number(u64, u64),
}

// The text of a field of this number.
fn text_at<'a>(field: u64, leaf: Leaf<'a>) -> Option<&'a str>
    ensures { option_copied result ≡ text_at field (leaf_read leaf.entry) }
{
    match leaf {
        Leaf::Text(of, text) => { if of == field { Some(text) } else { None } }
        Leaf::Number(_, _) => None,
    }
}

// The number of a field of this number.
fn number_at(field: u64, leaf: Leaf<'_>) -> Option<u64>
    ensures { result ≡ number_at field (leaf_read leaf.entry) }
{
    match leaf {
        Leaf::Text(_, _) => None,
        Leaf::Number(of, number) => { if of == field { Some(number) } else { None } }
    }
}

/// The last text of a field.
pub fn text<'a>(field: u64, leaves: &[Leaf<'a>]) -> Option<&'a str>
    ensures { option_copied result ≡ text field (leaves_read leaves.now) }
{
    let mut i = leaves.len();
    while i > 0 {
        i -= 1;
        match text_at(field, leaves[i]) {
            Some(text) => return Some(text),
            None => {}
        }
    }
    None
}

/// The last number of a field.
pub fn number(field: u64, leaves: &[Leaf<'_>]) -> Option<u64>
    ensures { result ≡ number field (leaves_read leaves.now) }
{
    number_behind(field, leaves, None)
}

/// The last number of a field, behind an earlier one.
pub fn number_behind(field: u64, leaves: &[Leaf<'_>], before: Option<u64>) -> Option<u64>
    ensures { result ≡ last_or before (filter_map (number_at field) (leaves_read leaves.now)) }
{
    let mut i = leaves.len();
    while i > 0 {
        i -= 1;
        match number_at(field, leaves[i]) {
            Some(number) => return Some(number),
            None => {}
        }
    }
    before
}

/// All texts of a field, in their order.
pub fn texts(alloc: Global, field: u64, leaves: &[Leaf<'_>]) -> Result<Sequence<Text>, AllocError>
    ensures { IfOk result (λ all. all ≡ texts field (leaves_read leaves.now)) }
{
    let mut all = Sequence::from_vec(Vec::with_capacity(alloc, 1)?);
    for leaf in leaves {
        if let Some(text) = text_at(field, *leaf) {
            all.push(Text::copy(alloc, text)?)?;
        }
    }
    Ok(all)
}

/// The last text of a field, and none where there is no such field.
pub fn text_or_none<'a>(field: u64, leaves: &[Leaf<'a>]) -> &'a str
    ensures { result.now ≡ text_or_none field (leaves_read leaves.now) }
{
    match text(field, leaves) {
        Some(text) => text,
        None => "",
    }
}

/// Whether a field's last number is this one.
pub fn has_number(field: u64, of: u64, leaves: &[Leaf<'_>]) -> bool
    ensures { result ≡ has_number field of (leaves_read leaves.now) }
{
    number(field, leaves).unwrap_or(0) == of
}

/// Whether a bool is there and true: its last number isn't 0.
pub fn is_true(field: u64, leaves: &[Leaf<'_>]) -> bool
    ensures { result ≡ truth field (leaves_read leaves.now) }
{
    number(field, leaves).unwrap_or(0) != 0
}
