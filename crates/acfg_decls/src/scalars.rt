//! Bools, enums and numbers of a text.

ghost use Rattle.std.specs.Prelude.{◌≡◌, ◌≤◌, ◌<◌, ◌==◌, MatchOption, None};
ghost use Rattle.std.specs.List.{list_any};
ghost use Rattle.acfg_decls.specs.Messages.{numbers};
ghost use Rattle.acfg_decls.specs.Walk.{digit, digits, enum_value, number_value};
ghost use Rattle.acfg_decls.specs.Numbers.{IsAbout};

use crate::messages::{Words, word_number};
use acfg_text::Value;

// Numbers from here on are told apart from none that an enum has.
const LARGE: u64 = 1_000;

/// The number of an enum's or a bool's value, where it is lawful: that of one of its words, or a number that one of
/// them stands for.
pub fn enum_number(words: Words, value: &Value) -> Option<u64>
    ensures { result ≡ enum_value words value.now }
{
    match value {
        Value::Word(_, text) => word_number(words, text.as_str()),
        Value::Number(_, text) => match read_number(text.as_str().as_bytes()) {
            Some(number) => {
                if stands_for(words, number) {
                    Some(number)
                } else {
                    None
                }
            }
            None => None,
        },
        Value::Text(_, _) => None,
        Value::Message(_, _) => None,
    }
}

// Whether one of the words stands for a number.
fn stands_for(words: Words, number: u64) -> bool
    ensures { result ≡ list_any (λ row. row.1 == number) (numbers words) }
{
    match words {
        Words::Booleans => number <= 1,
        Words::Purposes => number <= 2,
        Words::States => number == 1 || number == 2,
        Words::Permissions => number == 1 || number == 2,
    }
}

// What a number's spelling stands for, where it stands for one; a large number may be another large one.
fn read_number(text: &[u8]) -> Option<u64>
    ensures { MatchOption result (number_value text.now ≡ None) (IsAbout (number_value text.now)) }
{
    match text {
        [] => None,
        [b'0'] => Some(0),
        [b'0', b'x' | b'X'] => None,
        [b'0', b'x' | b'X', rest @ ..] => read_digits(16, rest),
        [b'0', rest @ ..] => read_digits(8, rest),
        _ => read_digits(10, text),
    }
}

// The number of some digits, as above.
fn read_digits(base: u64, text: &[u8]) -> Option<u64>
    requires least { 2 ≤ base }
    requires most { base ≤ 16 }
    ensures { MatchOption result (digits base 0 text.now ≡ None) (IsAbout (digits base 0 text.now)) }
{
    let mut number = 0;
    for &byte in text {
        let Some(value) = read_digit(base, byte) else {
            return None;
        };
        if number < LARGE {
            number = number * base + value;
        }
    }
    Some(number)
}

// A byte as a digit.
fn read_digit(base: u64, byte: u8) -> Option<u64>
    requires { base ≤ 16 }
    ensures value { result ≡ digit base byte }
    ensures below { MatchOption result (Unit {0}) (λ value. value < base) }
{
    let value = match byte {
        b'0'..=b'9' => byte - b'0',
        b'a'..=b'f' => byte - b'a' + 10,
        b'A'..=b'F' => byte - b'A' + 10,
        _ => 16,
    };
    let value = u64::from(value);
    if value < base { Some(value) } else { None }
}
