//! Templates: how a dump prints a flag.

ghost use Rattle.std.specs.Prelude.{◌≡◌, IfErr, IfOk};
ghost use Rattle.std.specs.List.{flat_map};
ghost use Rattle.acfg_dump.specs.Parts.{spelled};
ghost use Rattle.acfg_dump.specs.Template.{template_of, IsTemplate, PartsFail, TemplateFails};

use crate::fault::DumpFault;
use crate::parts::{Part, split_part};
use std::alloc::Global;
use std::marker::Model;

const TEXT_FORMAT: &str = "{fully_qualified_name} [{container}]: {permission} + {state}";

const BOOL_FORMAT: &str = "{fully_qualified_name}={state:bool}";

/// How a dump prints a flag. Contracts see the list of its parts.
#[derive(Debug, Drop)]
pub struct Template {
    parts: Vec<Part>,
}

impl Model for Template {
    ghost use Rattle.std.specs.Prelude.{List};
    ghost use Rattle.acfg_dump.specs.declared.parts.Part.{Part};

    ghost Value = { List Part };

    ghost view = { λ template. template.parts.items };
}

impl Template {
    /// The template of a text: raw text, `{{` for `{`, `}}` for `}`, and placeholders, as `{name}`. It is read from the
    /// left. The text `text` stands for `{fully_qualified_name} [{container}]: {permission} + {state}`, and `bool` for
    /// `{fully_qualified_name}={state:bool}`.
    ///
    /// The fault is the place of the first `{` or `}` that begins neither a pair nor a placeholder.
    pub fn parse(alloc: Global, text: &str) -> Result<Template, DumpFault>
        ensures ok { IfOk result (IsTemplate text.now) }
        ensures err { IfErr result (TemplateFails text.now) }
    {
        let parts = read_parts(alloc, template_of(text).as_bytes())?;
        Ok(Template { parts })
    }

    /// The parts, in order.
    pub fn parts(&self) -> &[Part]
        ensures { result.now ≡ self.now }
    {
        self.parts.as_slice()
    }
}

// The template that a text stands for.
fn template_of(text: &str) -> &str
    ensures { result.now ≡ template_of text.now }
{
    if text == "text" {
        TEXT_FORMAT
    } else if text == "bool" {
        BOOL_FORMAT
    } else {
        text
    }
}

fn read_parts(alloc: Global, text: &[u8]) -> Result<Vec<Part>, DumpFault>
    ensures ok { IfOk result (λ parts. text.now ≡ flat_map spelled parts.items) }
    ensures err { IfErr result (PartsFail text.now) }
{
    let mut parts = Vec::new(alloc);
    let mut rest = text;
    while !rest.is_empty() {
        let Some((part, behind)) = split_part(rest) else {
            return Err(DumpFault::BadPlaceholder(text.len() - rest.len()));
        };
        parts.push(part)?;
        rest = behind;
    }
    Ok(parts)
}
