//! The conditions of a filter.

ghost use Rattle.std.specs.Prelude.{◌≡◌, ◌∷◌, ◌++◌, IfOk, MatchOption};
ghost use Rattle.std.specs.List.{list_any};
ghost use Rattle.std.specs.Str.{bytes_eq};
ghost use Rattle.acfg_base.specs.Bytes.{colon};
ghost use Rattle.acfg_base.specs.Found.{Finds};
ghost use Rattle.acfg_dump.specs.Bodies.{IsCutAt, IsWithout};
ghost use Rattle.acfg_dump.specs.Filter.{fact_name, fact_of, fact_word, holds, key_name, texts_of};
ghost use Rattle.acfg_dump.specs.Filter.{IsCondition};

use crate::values::{bool_name, permission_name, state_name};
use acfg_base::Text;
use acfg_decls::Flag;
use std::alloc::{AllocError, Global};

/// A key whose value is compared with a flag's text.
#[derive(Clone, Copy, Debug, PartialEq, Eq)]
pub enum Key {
    Package,
    Name,
    Namespace,
    Container,
    /// One of the bugs is equal.
    Bug,
}

/// A key whose value is one of two words.
#[derive(Clone, Copy, Debug, PartialEq, Eq)]
pub enum Fact {
    /// Whether the flag is ENABLED.
    State,
    /// Whether it is READ_WRITE.
    Permission,
    IsFixedReadOnly,
    IsExported,
}

/// A condition of a filter, `KEY:VALUE`.
#[derive(Debug, Drop)]
pub enum Condition {
    /// The flag has this text, which isn't empty.
    Has(Key, Text),
    /// The fact is so, or isn't.
    Is(Fact, bool),
}

/// The condition of this text.
pub fn read_condition(alloc: Global, text: &str) -> Result<Option<Condition>, AllocError>
    ensures { IfOk result (Finds (IsCondition text.now)) }
{
    let Some((key, value)) = split_key(text) else {
        return Ok(None);
    };
    match read_fact(key) {
        Some(fact) => Ok(read_word(fact, value).map(|so| Condition::Is(fact, so))),
        None => read_value(alloc, key, value),
    }
}

// The key and the value of a condition.
fn split_key(text: &str) -> Option<(&str, &str)>
    ensures { MatchOption result
        (IsWithout colon text.now)
        (λ cut. IsCutAt colon text.now cut.0.now cut.1.now) }
{
    text.split_once(':')
}

// The condition of a key that isn't a fact's.
fn read_value(alloc: Global, key: &str, value: &str) -> Result<Option<Condition>, AllocError>
    requires apart { (fact : _) → key.now ≡ fact_name fact → ⊥ }
    requires whole { IsWithout colon key.now }
    ensures { IfOk result (Finds (IsCondition (key.now ++ colon ∷ value.now))) }
{
    let Some(key) = read_key(key) else {
        return Ok(None);
    };
    if value.is_empty() {
        return Ok(None);
    }
    let value = Text::new(String::from_str(alloc, value)?);
    Ok(Some(Condition::Has(key, value)))
}

fn read_key(word: &str) -> Option<Key>
    ensures { Finds (λ key. word.now ≡ key_name key) result }
{
    match word {
        "package" => Some(Key::Package),
        "name" => Some(Key::Name),
        "namespace" => Some(Key::Namespace),
        "container" => Some(Key::Container),
        "bug" => Some(Key::Bug),
        _ => None,
    }
}

fn read_fact(word: &str) -> Option<Fact>
    ensures { Finds (λ fact. word.now ≡ fact_name fact) result }
{
    match word {
        "state" => Some(Fact::State),
        "permission" => Some(Fact::Permission),
        "is_fixed_read_only" => Some(Fact::IsFixedReadOnly),
        "is_exported" => Some(Fact::IsExported),
        _ => None,
    }
}

// Whether a fact is so, by its word.
fn read_word(fact: Fact, word: &str) -> Option<bool>
    ensures { Finds (λ so. word.now ≡ fact_word fact so) result }
{
    if word == fact_word(fact, true) {
        Some(true)
    } else if word == fact_word(fact, false) {
        Some(false)
    } else {
        None
    }
}

fn fact_word(fact: Fact, so: bool) -> &'static str
    ensures { result.now ≡ fact_word fact so }
{
    match fact {
        Fact::State => state_name(so),
        Fact::Permission => permission_name(so),
        Fact::IsFixedReadOnly => bool_name(so),
        Fact::IsExported => bool_name(so),
    }
}

/// Whether a condition holds of a flag.
pub fn holds(flag: &Flag, condition: &Condition) -> bool
    ensures { result ≡ holds flag.now condition.now }
{
    match condition {
        Condition::Has(key, value) => has_text(flag, *key, value.as_str()),
        Condition::Is(fact, so) => fact_of(*fact, flag) == *so,
    }
}

fn has_text(flag: &Flag, key: Key, value: &str) -> bool
    ensures { result ≡ list_any (λ text. bytes_eq text value.now) (texts_of key flag.now) }
{
    match key {
        Key::Package => flag.package.as_str() == value,
        Key::Name => flag.name.as_str() == value,
        Key::Namespace => flag.namespace.as_str() == value,
        Key::Container => flag.container.as_str() == value,
        Key::Bug => flag.bugs.as_slice().iter().any(|bug| bug.as_str() == value),
    }
}

fn fact_of(fact: Fact, flag: &Flag) -> bool
    ensures { result ≡ fact_of fact flag.now }
{
    match fact {
        Fact::State => flag.enabled,
        Fact::Permission => flag.writable,
        Fact::IsFixedReadOnly => flag.fixed,
        Fact::IsExported => flag.exported,
    }
}
