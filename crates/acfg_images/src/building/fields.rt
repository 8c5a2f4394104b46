//! The fields of headers and nodes, written.

ghost use Rattle.std.specs.Prelude.{◌≡◌, ◌<◌, ◌^◌, ◌++◌, OnOk, length};
ghost use Rattle.acfg_views.specs.Fields.{number, string};

use byteorder::{ByteOrder, LittleEndian};
use std::alloc::AllocError;

/// Writes a number in four bytes.
#[tactic(auto, unfolding(acfg_views::specs::Fields::number))]
pub(crate) fn put_u32(out: &mut Vec<u8>, n: u32) -> Result<(), AllocError>
    ensures { OnOk result (out.new.items ≡ out.old.items ++ number 4 n) }
{
    let mut bytes = [0; 4];
    LittleEndian::write_u32(&mut bytes, n);
    out.extend_from_slice(&bytes)
}

/// Writes a number in two bytes.
#[tactic(auto, unfolding(acfg_views::specs::Fields::number))]
pub(crate) fn put_u16(out: &mut Vec<u8>, n: u16) -> Result<(), AllocError>
    ensures { OnOk result (out.new.items ≡ out.old.items ++ number 2 n) }
{
    let mut bytes = [0; 2];
    LittleEndian::write_u16(&mut bytes, n);
    out.extend_from_slice(&bytes)
}

/// Writes a number in one byte.
#[tactic(auto, unfolding(acfg_views::specs::Fields::number))]
pub(crate) fn put_u8(out: &mut Vec<u8>, n: u8) -> Result<(), AllocError>
    ensures { OnOk result (out.new.items ≡ out.old.items ++ number 1 n) }
{
    out.push(n)?;
    Ok(())
}

/// Writes a text's length in four bytes, and the text.
#[tactic(auto, unfolding(acfg_views::specs::Fields::string))]
pub(crate) fn put_string(out: &mut Vec<u8>, text: &str) -> Result<(), AllocError>
    requires { length text.now < 2 ^ 32 }
    ensures { OnOk result (out.new.items ≡ out.old.items ++ string text.now) }
{
    put_u32(out, text.len() as u32)?;
    out.extend_from_slice(text.as_bytes())
}
