//! The fields of headers and nodes, each with the bytes behind it.

ghost use Rattle.std.specs.Prelude.{◌≡◌, ◌<◌, ◌^◌};
ghost use Rattle.std.specs.Str.{IsAscii};
ghost use Rattle.acfg_views.specs.Fields.{number_of};
ghost use Rattle.acfg_views.specs.Tests.{is_container, is_name, is_package};
ghost use Rattle.acfg_views.specs.Reading.{Answers, number_at, string_at, version_at, container_at, package_name_at};
ghost use Rattle.acfg_views.specs.Reading.{flag_name_at, file_type_at, size_at, kind_at, package_at, flag_at};
ghost use Rattle.acfg_views.specs.Reading.{package_of, flag_of, with_end};

use crate::fault::ViewFault;
use crate::nodes::{FlagNode, PackageNode};
use acfg_base::Kind;
use byteorder::{ByteOrder, LittleEndian};
use std::str;

const VERSION: u32 = 1;

#[tactic(auto, unfolding(crate::specs::Fields::number_of))]
pub(crate) fn u32_of(bytes: &[u8]) -> Result<(u32, &[u8]), ViewFault>
    ensures { Answers (λ read. (read.0, read.1.now)) result (number_at 4 bytes.now) }
{
    if bytes.len() < 4 {
        return Err(ViewFault::Short);
    }
    Ok((LittleEndian::read_u32(bytes), &bytes[4..]))
}

#[tactic(auto, unfolding(crate::specs::Fields::number_of))]
fn u16_of(bytes: &[u8]) -> Result<(u16, &[u8]), ViewFault>
    ensures { Answers (λ read. (read.0, read.1.now)) result (number_at 2 bytes.now) }
{
    if bytes.len() < 2 {
        return Err(ViewFault::Short);
    }
    Ok((LittleEndian::read_u16(bytes), &bytes[2..]))
}

#[tactic(auto, unfolding(crate::specs::Fields::number_of))]
fn u8_of(bytes: &[u8]) -> Result<(u8, &[u8]), ViewFault>
    ensures { Answers (λ read. (read.0, read.1.now)) result (number_at 1 bytes.now) }
{
    if bytes.is_empty() {
        return Err(ViewFault::Short);
    }
    Ok((bytes[0], &bytes[1..]))
}

#[tactic(auto, unfolding(crate::specs::Reading::string_at))]
fn string_of(bytes: &[u8]) -> Result<(&[u8], &[u8]), ViewFault>
    ensures { Answers (λ read. (read.0.now, read.1.now)) result (string_at bytes.now) }
{
    let (len, rest) = u32_of(bytes)?;
    let len = len as usize;
    if rest.len() < len {
        return Err(ViewFault::Short);
    }
    Ok(rest.split_at(len))
}

#[tactic(auto, unfolding(crate::specs::Reading::version_at))]
pub(crate) fn version_of(bytes: &[u8]) -> Result<(u32, &[u8]), ViewFault>
    ensures { Answers (λ read. (read.0, read.1.now)) result (version_at bytes.now) }
{
    let (version, rest) = u32_of(bytes)?;
    if version != VERSION {
        return Err(ViewFault::BadVersion(version));
    }
    Ok((version, rest))
}

#[tactic(auto, unfolding(crate::specs::Reading::file_type_at))]
pub(crate) fn file_type_of(file_type: u8, bytes: &[u8]) -> Result<(u8, &[u8]), ViewFault>
    ensures { Answers (λ read. (read.0, read.1.now)) result (file_type_at file_type bytes.now) }
{
    let (found, rest) = u8_of(bytes)?;
    if found != file_type {
        return Err(ViewFault::BadFileType(found));
    }
    Ok((found, rest))
}

#[tactic(auto, unfolding(crate::specs::Reading::size_at))]
pub(crate) fn size_of(size: usize, bytes: &[u8]) -> Result<(u32, &[u8]), ViewFault>
    ensures { Answers (λ read. (read.0, read.1.now)) result (size_at size bytes.now) }
{
    let (found, rest) = u32_of(bytes)?;
    if found as usize != size {
        return Err(ViewFault::BadSize(found));
    }
    Ok((found, rest))
}

// ---- names

fn is_container_text(text: &[u8]) -> bool
    ensures { result ≡ is_container text.now }
{
    acfg_base::is_container(text)
}

fn is_package_text(text: &[u8]) -> bool
    ensures { result ≡ is_package text.now }
{
    acfg_base::is_package(text)
}

fn is_name_text(text: &[u8]) -> bool
    ensures { result ≡ is_name text.now }
{
    acfg_base::is_name(text)
}

// A lawful name is ASCII, so it is a text.
fn ascii_text(bytes: &[u8]) -> &str
    requires { IsAscii bytes.now }
    ensures { result.now ≡ bytes.now }
{
    match str::from_utf8(bytes) {
        Ok(text) => text,
        Err(_) => unreachable!(),
    }
}

#[tactic(auto, unfolding(crate::specs::Reading::container_at))]
pub(crate) fn container_of(bytes: &[u8]) -> Result<(&str, &[u8]), ViewFault>
    ensures { Answers (λ read. (read.0.now, read.1.now)) result (container_at bytes.now) }
{
    let (text, rest) = string_of(bytes)?;
    if !is_container_text(text) {
        return Err(ViewFault::BadText);
    }
    Ok((ascii_text(text), rest))
}

#[tactic(auto, unfolding(crate::specs::Reading::package_name_at))]
fn package_name_of(bytes: &[u8]) -> Result<(&str, &[u8]), ViewFault>
    ensures { Answers (λ read. (read.0.now, read.1.now)) result (package_name_at bytes.now) }
{
    let (text, rest) = string_of(bytes)?;
    if !is_package_text(text) {
        return Err(ViewFault::BadText);
    }
    Ok((ascii_text(text), rest))
}

#[tactic(auto, unfolding(crate::specs::Reading::flag_name_at))]
fn flag_name_of(bytes: &[u8]) -> Result<(&str, &[u8]), ViewFault>
    ensures { Answers (λ read. (read.0.now, read.1.now)) result (flag_name_at bytes.now) }
{
    let (text, rest) = string_of(bytes)?;
    if !is_name_text(text) {
        return Err(ViewFault::BadText);
    }
    Ok((ascii_text(text), rest))
}

// ---- nodes

#[tactic(auto, unfolding(crate::specs::Reading::kind_at))]
fn kind_of(bytes: &[u8]) -> Result<(Kind, &[u8]), ViewFault>
    ensures { Answers (λ read. (read.0, read.1.now)) result (kind_at bytes.now) }
{
    let (number, rest) = u16_of(bytes)?;
    match number {
        0 => Ok((Kind::ReadWrite, rest)),
        1 => Ok((Kind::ReadOnly, rest)),
        2 => Ok((Kind::Fixed, rest)),
        _ => Err(ViewFault::BadKind(number)),
    }
}

/// The package's node at the front of the bytes that stand at the end of a file of this size.
#[tactic(auto, unfolding(crate::specs::Reading::package_at))]
pub(crate) fn package_node_of(size: usize, bytes: &[u8]) -> Result<PackageNode<'_>, ViewFault>
    requires { size < 2 ^ 32 }
    ensures { Answers (λ node. (package_of node, node.end)) result (with_end size (package_at bytes.now)) }
{
    let (name, rest) = package_name_of(bytes)?;
    let (id, rest) = u32_of(rest)?;
    let (start, rest) = u32_of(rest)?;
    let (next, rest) = u32_of(rest)?;
    let end = size.saturating_sub(rest.len()) as u32;
    Ok(PackageNode {
        name,
        id,
        start,
        next,
        end,
    })
}

/// The flag's node at the front of the bytes that stand at the end of a file of this size.
#[tactic(auto, unfolding(crate::specs::Reading::flag_at))]
pub(crate) fn flag_node_of(size: usize, bytes: &[u8]) -> Result<FlagNode<'_>, ViewFault>
    requires { size < 2 ^ 32 }
    ensures { Answers (λ node. (flag_of node, node.end)) result (with_end size (flag_at bytes.now)) }
{
    let (package_id, rest) = u32_of(bytes)?;
    let (name, rest) = flag_name_of(rest)?;
    let (kind, rest) = kind_of(rest)?;
    let (index, rest) = u16_of(rest)?;
    let (next, rest) = u32_of(rest)?;
    let end = size.saturating_sub(rest.len()) as u32;
    Ok(FlagNode {
        package_id,
        name,
        kind,
        index,
        next,
        end,
    })
}
