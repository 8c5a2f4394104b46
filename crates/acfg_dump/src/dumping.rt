//! Dumps of flags.

ghost use Rattle.std.specs.Prelude.{◌≡◌, [], ◌++◌, if◌then◌else◌, IfOk, OnOk};
ghost use Rattle.acfg_dump.specs.Filter.{lets_through};
ghost use Rattle.acfg_dump.specs.Lines.{line, lines};

use crate::filter::Filter;
use crate::template::Template;
use crate::values::put_line;
use acfg_base::OutOfMemory;
use acfg_decls::{Flag, Flags};
use std::alloc::{AllocError, Global};

/// One line for each flag that a filter lets through, in the order of the flags: the template's text with the flag's
/// values in the place of the placeholders, and a line feed.
pub fn dump(
    alloc: Global,
    flags: &Flags,
    template: &Template,
    filter: &Filter,
) -> Result<Vec<u8>, OutOfMemory>
    ensures { IfOk result (λ text. text.items ≡ lines template.now filter.now flags.now) }
{
    let mut text = Vec::new(alloc);
    for flag in flags.list() {
        put_flag(&mut text, flag, template, filter)?;
    }
    Ok(text)
}

// Puts a flag's line behind what is there, where the filter lets the flag through.
fn put_flag(
    text: &mut Vec<u8>,
    flag: &Flag,
    template: &Template,
    filter: &Filter,
) -> Result<(), AllocError>
    ensures { OnOk result (text.new.items
        ≡ text.old.items ++ (if lets_through filter.now flag.now then line template.now flag.now else [])) }
{
    if filter.lets_through(flag) {
        put_line(text, flag, template.parts())
    } else {
        Ok(())
    }
}
