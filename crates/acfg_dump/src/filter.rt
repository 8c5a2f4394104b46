//! Filters: which flags a dump has.

ghost use Rattle.std.specs.Prelude.{◌≡◌, ◌+◌, ◌^◌, ◌<◌, ◌≤◌, [], ◌∷◌, length, map, IfErr, IfOk};
ghost use Rattle.std.specs.List.{list_all, AllZip};
ghost use Rattle.acfg_base.specs.Bytes.{plus};
ghost use Rattle.acfg_dump.specs.Bodies.{AlternativesFail, ConditionsFail};
ghost use Rattle.acfg_dump.specs.Filter.{extent, holds, lets_through, pieces};
ghost use Rattle.acfg_dump.specs.Filter.{FilterFails, IsCondition, IsFilter};

use crate::conditions::{Condition, holds, read_condition};
use crate::fault::DumpFault;
use acfg_base::Sequence;
use acfg_decls::Flag;
use std::alloc::{AllocError, Global};
use std::marker::Model;

/// Which flags a dump has: alternatives, each of them conditions that have to hold together. Contracts see the list of
/// the alternatives.
#[derive(Debug, Drop)]
pub struct Filter {
    alternatives: Sequence<Sequence<Condition>>,
}

impl Model for Filter {
    ghost use Rattle.std.specs.Prelude.{List};
    ghost use Rattle.acfg_dump.specs.declared.conditions.Condition.{Condition};

    ghost Value = { List (List Condition) };

    ghost view = { λ filter. filter.alternatives };
}

impl Filter {
    /// The filter of a text: `all`, which lets each flag through, or alternatives joined by `,`, each of them
    /// conditions joined by `+`, each of them `KEY:VALUE`.
    ///
    /// | Key | Value |
    /// |---|---|
    /// | `package`, `name`, `namespace`, `container` | the flag's, or any other text but an empty one |
    /// | `bug` | one of the flag's bugs, or any other text but an empty one |
    /// | `state` | `ENABLED` or `DISABLED` |
    /// | `permission` | `READ_WRITE` or `READ_ONLY` |
    /// | `is_fixed_read_only`, `is_exported` | `true` or `false` |
    ///
    /// A value holds no `,` and no `+`. The fault is the place of the first bad condition.
    pub fn parse(alloc: Global, text: &str) -> Result<Filter, DumpFault>
        ensures ok { IfOk result (IsFilter text.now) }
        ensures err { IfErr result (FilterFails text.now) }
    {
        if text == "all" {
            return Ok(all_flags(alloc)?);
        }
        let texts = cut(alloc, text, ',')?;
        let alternatives = read_alternatives(alloc, &texts, text.len())?;
        Ok(Filter { alternatives })
    }

    /// Whether the filter lets a flag through.
    pub fn lets_through(&self, flag: &Flag) -> bool
        ensures { result ≡ lets_through self.now flag.now }
    {
        self.alternatives
            .as_slice()
            .iter()
            .any(|conditions| all_hold(flag, conditions.as_slice()))
    }
}

fn all_hold(flag: &Flag, conditions: &[Condition]) -> bool
    ensures { result ≡ list_all (holds flag.now) conditions.now }
{
    conditions.iter().all(|condition| holds(flag, condition))
}

// The filter that lets each flag through.
fn all_flags(alloc: Global) -> Result<Filter, AllocError>
    ensures { IfOk result (λ filter. filter ≡ [] ∷ []) }
{
    let mut alternatives = Sequence::new(alloc);
    alternatives.push(Sequence::new(alloc))?;
    Ok(Filter { alternatives })
}

// The pieces of a text that is cut at each separator.
fn cut<'a>(alloc: Global, text: &'a str, separator: char) -> Result<Vec<&'a str>, AllocError>
    requires { separator < 128 }
    ensures { IfOk result (λ texts. map (λ text. text.now) texts.items ≡ pieces separator text.now) }
{
    text.split(separator).collect(alloc)
}

// The alternatives of these texts, the pieces of a filter of this length.
fn read_alternatives(
    alloc: Global,
    texts: &[&str],
    length: usize,
) -> Result<Sequence<Sequence<Condition>>, DumpFault>
    requires { extent (map (λ text. text.now) texts.now) ≡ length + 1 }
    ensures ok { IfOk result (AllZip (AllZip IsCondition) (map (pieces plus) (map (λ text. text.now) texts.now))) }
    ensures err { IfErr result (AlternativesFail (map (pieces plus) (map (λ text. text.now) texts.now))) }
{
    let mut alternatives = Sequence::new(alloc);
    let mut before = 0;
    for (index, text) in texts.iter().enumerate() {
        alternatives.push(read_alternative(alloc, text, before + index)?)?;
        before += text.len();
    }
    Ok(alternatives)
}

// The conditions of an alternative that begins at a place.
fn read_alternative(
    alloc: Global,
    text: &str,
    start: usize,
) -> Result<Sequence<Condition>, DumpFault>
    requires { start + length text.now < 2 ^ 64 }
    ensures ok { IfOk result (AllZip IsCondition (pieces plus text.now)) }
    ensures err { IfErr result (ConditionsFail (pieces plus text.now) start) }
{
    let texts = cut(alloc, text, '+')?;
    read_conditions(alloc, &texts, start)
}

// The conditions of these texts, the pieces of an alternative that begins at a place.
fn read_conditions(
    alloc: Global,
    texts: &[&str],
    start: usize,
) -> Result<Sequence<Condition>, DumpFault>
    requires { start + extent (map (λ text. text.now) texts.now) ≤ 2 ^ 64 }
    ensures ok { IfOk result (AllZip IsCondition (map (λ text. text.now) texts.now)) }
    ensures err { IfErr result (ConditionsFail (map (λ text. text.now) texts.now) start) }
{
    let mut conditions = Sequence::new(alloc);
    let mut before = 0;
    for (index, text) in texts.iter().enumerate() {
        let Some(condition) = read_condition(alloc, text)? else {
            return Err(DumpFault::BadFilter(start + before + index));
        };
        conditions.push(condition)?;
        before += text.len();
    }
    Ok(conditions)
}
