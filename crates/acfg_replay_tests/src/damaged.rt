//! Directories with a damaged file, and one that is spelled byte by byte.

use crate::calling::replay;
use crate::replaying::device;
use acfg_daemon::DaemonFault;
use acfg_device::{Device, Panel};
use acfg_memdev::MemDevice;
use std::alloc::Global;
use std::test::Fail;

/// What makes a directory of one container: its release in slot 0, its overrides in slot 1, its boot copy in slot 0.
const SCRIPT: &[u8] = b"0 update c rel1\n0 local c com.a f true\n0 boot\n";

/// A file of that directory, and the bytes in its place by which it is the first at fault, or none where it is gone.
const DAMAGE: [(&str, Option<&[u8]>); 26] = [
    ("dev/records", Some(b"ACRF\x02\0\0\0\0\0\0\0")),
    ("dev/records", Some(b"")),
    ("dev/c-r0-package.map", None),
    ("dev/c-r0-package.map", Some(b"")),
    ("dev/c-r0-flag.map", None),
    ("dev/c-r0-flag.map", Some(b"")),
    ("dev/c-r0-flag.val", None),
    ("dev/c-r0-flag.info", None),
    ("dev/c-o1-flag.val", None),
    ("dev/c-o1-flag.val", Some(b"")),
    ("dev/c-o1-flag.info", None),
    ("dev/c-o1-flag.info", Some(b"")),
    ("dev/c-o1-local", None),
    ("dev/c-o1-local", Some(b"\x01\0\0\0")),
    ("dev/c-o1-local", Some(b"\x01\0\0\0\0\0\0\0\x02")),
    ("dev/c-o1-local", Some(b"\x01\0\0\0\x01\0\0\0\x01")),
    ("dev/c-o1-local", Some(b"\x01\0\0\0\x03\0\0\0\x01")),
    ("dev/c-boot", Some(b"")),
    ("dev/c-boot", Some(b"\x02")),
    ("dev/c-boot", Some(b"\0\0")),
    ("dev/c-b0-package.map", None),
    ("dev/c-b0-flag.map", None),
    ("dev/c-b0-flag.map", Some(b"")),
    ("dev/c-b0-flag.val", None),
    ("dev/c-b0-flag.info", None),
    ("dev/c-b0-flag.info", Some(b"")),
];

// The directory with one file changed.
fn damaged(alloc: Global, name: &str, bytes: Option<&[u8]>) -> Result<MemDevice, Fail> {
    let mut device = device(alloc, Vec::new(alloc))?;
    let answered = replay(alloc, &mut device, "dev", SCRIPT).is_ok();
    let changed = match bytes {
        Some(bytes) => device.write(name, bytes).is_ok(),
        None => device.remove(name).is_ok(),
    };
    if answered && changed {
        Ok(device)
    } else {
        Err("no directory".into())
    }
}

#[test]
fn each_file_at_fault_is_told(rt: HostRuntime) -> Result<(), Fail> {
    let alloc = rt.alloc();
    for (name, bytes) in DAMAGE {
        let mut device = damaged(alloc, name, bytes)?;
        match replay(alloc, &mut device, "dev", b"") {
            Err(DaemonFault::Damaged(told)) => assert_eq!(rt; told.as_str(), name),
            _ => panic!(rt; "no damage"),
        }
    }
    Ok(())
}

/// A list of one container `c`: release slot 1, override slot 0, and the digest of its release's files.
const LIST: &[u8] = b"ACRF\x01\0\0\0\x01\0\0\0\x01\0\0\0c\x01\0\
    \x21\x02\x24\x43\x6a\xb1\x69\x00\xa9\xf9\xb4\x7e\x7a\xfd\x08\xcc\
    \x05\xb2\x3b\xb2\xa5\x52\x6c\xdc\x8c\xf0\xb5\x70\x59\x90\xaf\x08";

/// The files that a slot has in common with the folder of the release, each with its name there.
const COPIES: [(&str, &str); 6] = [
    ("rel1/package.map", "dev/c-r1-package.map"),
    ("rel1/flag.map", "dev/c-r1-flag.map"),
    ("rel1/flag.val", "dev/c-r1-flag.val"),
    ("rel1/flag.info", "dev/c-r1-flag.info"),
    ("rel1/flag.val", "dev/c-o0-flag.val"),
    ("rel1/flag.info", "dev/c-o0-flag.info"),
];

// A directory of a container that wasn't booted, in which its first flag has a local override.
fn spelled(alloc: Global) -> Result<MemDevice, Fail> {
    let mut device = device(alloc, Vec::new(alloc))?;
    let mut copied = true;
    for (from, name) in COPIES {
        copied = match device.read(alloc, from) {
            Ok(Some(bytes)) => copied && device.write(name, &bytes).is_ok(),
            _ => false,
        };
    }
    let list = device.write("dev/records", LIST).is_ok();
    let local = device
        .write("dev/c-o0-local", b"\x01\0\0\0\0\0\0\0\x01")
        .is_ok();
    let boot = device.remove("dev/c-boot").is_ok();
    if copied && list && local && boot {
        Ok(device)
    } else {
        Err("no directory".into())
    }
}

/// Requests on that directory, and what is answered.
const ASKED: &[u8] =
    b"0 get c com.a f\n0 update c rel1\n0 boot\n0 get c com.a f\n0 get c com.a k\n";

const ANSWERED: &[u8] = b"0 err 5 no-boot-copy\n0 unchanged\n0 ok\n0 true\n0 true\n";

#[test]
fn a_spelled_directory_is_opened(rt: HostRuntime) -> Result<(), Fail> {
    let alloc = rt.alloc();
    let mut device = spelled(alloc)?;
    assert!(rt; replay(alloc, &mut device, "dev", ASKED).is_ok());
    assert_eq!(rt; device.said(), ANSWERED);
    Ok(())
}
