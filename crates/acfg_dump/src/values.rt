//! The values of a flag as texts.

ghost use Rattle.std.specs.Prelude.{◌≡◌, ◌∷◌, ◌++◌, OnOk, map};
ghost use Rattle.std.specs.List.{flat_map, join_with_byte};
ghost use Rattle.acfg_base.specs.Bytes.{comma};
ghost use Rattle.acfg_base.specs.Words.{bool_word};
ghost use Rattle.acfg_decls.specs.Flags.{full_name};
ghost use Rattle.acfg_dump.specs.Lines.{line, part_text, point_text, value_text};
ghost use Rattle.acfg_dump.specs.Names.{permission_name, purpose_name, state_name};

use crate::parts::{Part, Placeholder};
use acfg_base::Text;
use acfg_decls::{Flag, Point, Purpose};
use std::alloc::AllocError;

/// A permission by its name: `READ_WRITE` or `READ_ONLY`.
pub fn permission_name(writable: bool) -> &'static str
    ensures { result.now ≡ permission_name writable }
{
    if writable { "READ_WRITE" } else { "READ_ONLY" }
}

/// A state by its name: `ENABLED` or `DISABLED`.
pub fn state_name(enabled: bool) -> &'static str
    ensures { result.now ≡ state_name enabled }
{
    if enabled { "ENABLED" } else { "DISABLED" }
}

/// `true` or `false`.
pub fn bool_name(so: bool) -> &'static str
    ensures { result.now ≡ bool_word so }
{
    if so { "true" } else { "false" }
}

fn purpose_name(purpose: Option<Purpose>) -> &'static str
    ensures { result.now ≡ purpose_name purpose }
{
    match purpose {
        None => "",
        Some(Purpose::Unspecified) => "PURPOSE_UNSPECIFIED",
        Some(Purpose::Feature) => "PURPOSE_FEATURE",
        Some(Purpose::Bugfix) => "PURPOSE_BUGFIX",
    }
}

/// Puts a flag's line behind what is there.
pub fn put_line(out: &mut Vec<u8>, flag: &Flag, parts: &[Part]) -> Result<(), AllocError>
    ensures { OnOk result (out.new.items ≡ out.old.items ++ line parts.now flag.now) }
{
    for part in parts {
        put_part(out, flag, *part)?;
    }
    out.push(b'\n')?;
    Ok(())
}

fn put_part(out: &mut Vec<u8>, flag: &Flag, part: Part) -> Result<(), AllocError>
    ensures { OnOk result (out.new.items ≡ out.old.items ++ part_text flag.now part) }
{
    match part {
        Part::Byte(byte) => Ok(out.push(byte)?),
        Part::Value(value) => put_value(out, flag, value),
    }
}

fn put_value(out: &mut Vec<u8>, flag: &Flag, value: Placeholder) -> Result<(), AllocError>
    ensures { OnOk result (out.new.items ≡ out.old.items ++ value_text flag.now value) }
{
    match value {
        Placeholder::Package => put(out, flag.package.as_str()),
        Placeholder::Name => put(out, flag.name.as_str()),
        Placeholder::FullyQualifiedName => put_full_name(out, flag),
        Placeholder::Namespace => put(out, flag.namespace.as_str()),
        Placeholder::Description => put(out, flag.description.as_str()),
        Placeholder::Bug => put_bugs(out, flag.bugs.as_slice()),
        Placeholder::State => put(out, state_name(flag.enabled)),
        Placeholder::StateBool => put(out, bool_name(flag.enabled)),
        Placeholder::Permission => put(out, permission_name(flag.writable)),
        Placeholder::IsFixedReadOnly => put(out, bool_name(flag.fixed)),
        Placeholder::IsExported => put(out, bool_name(flag.exported)),
        Placeholder::Container => put(out, flag.container.as_str()),
        Placeholder::Purpose => put(out, purpose_name(flag.purpose)),
        Placeholder::Trace => put_trace(out, flag.trace.as_slice()),
    }
}

fn put(out: &mut Vec<u8>, text: &str) -> Result<(), AllocError>
    ensures { OnOk result (out.new.items ≡ out.old.items ++ text.now) }
{
    out.extend_from_slice(text.as_bytes())
}

fn put_full_name(out: &mut Vec<u8>, flag: &Flag) -> Result<(), AllocError>
    ensures { OnOk result (out.new.items ≡ out.old.items ++ full_name flag.now) }
{
    put(out, flag.package.as_str())?;
    put(out, ".")?;
    put(out, flag.name.as_str())
}

fn put_bugs(out: &mut Vec<u8>, bugs: &[Text]) -> Result<(), AllocError>
    ensures { OnOk result (out.new.items ≡ out.old.items ++ join_with_byte comma bugs.now) }
{
    let [first, others @ ..] = bugs else {
        return Ok(());
    };
    put(out, first.as_str())?;
    put_other_bugs(out, others)
}

// Puts each text with a comma in front.
fn put_other_bugs(out: &mut Vec<u8>, bugs: &[Text]) -> Result<(), AllocError>
    ensures { OnOk result (out.new.items ≡ out.old.items ++ flat_map (λ bug. comma ∷ bug) bugs.now) }
{
    for bug in bugs {
        put(out, ",")?;
        put(out, bug.as_str())?;
    }
    Ok(())
}

fn put_trace(out: &mut Vec<u8>, trace: &[Point]) -> Result<(), AllocError>
    ensures { OnOk result (out.new.items ≡ out.old.items ++ join_with_byte comma (map point_text trace.now)) }
{
    let [first, others @ ..] = trace else {
        return Ok(());
    };
    put_point(out, first)?;
    put_other_points(out, others)
}

fn put_other_points(out: &mut Vec<u8>, points: &[Point]) -> Result<(), AllocError>
    ensures { OnOk result (out.new.items ≡ out.old.items ++ flat_map (λ point. comma ∷ point_text point) points.now) }
{
    for point in points {
        put(out, ",")?;
        put_point(out, point)?;
    }
    Ok(())
}

fn put_point(out: &mut Vec<u8>, point: &Point) -> Result<(), AllocError>
    ensures { OnOk result (out.new.items ≡ out.old.items ++ point_text point.now) }
{
    put(out, point.source.as_str())?;
    put(out, "=")?;
    put(out, state_name(point.enabled))?;
    put(out, "/")?;
    put(out, permission_name(point.writable))
}
