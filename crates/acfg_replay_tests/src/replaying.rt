//! Scripts replayed on a device directory in memory.

use crate::calling::{replay, run};
use acfg_base::{ContainerName, Kind, Name, PackageName, Sequence, Text};
use acfg_daemon::DaemonFault;
use acfg_decls::{Flag, Flags, Point};
use acfg_images::build;
use acfg_memdev::MemDevice;
use std::alloc::Global;
use std::str;
use std::test::Fail;

/// Releases of a package, each flag with its kind and value, by the folders that hold their images.
const RELEASES: [(&str, &[(&str, Kind, bool)]); 2] = [
    (
        "rel1",
        &[
            ("f", Kind::ReadWrite, false),
            ("k", Kind::ReadOnly, true),
            ("x", Kind::Fixed, false),
        ],
    ),
    (
        "rel2",
        &[
            ("a", Kind::ReadWrite, true),
            ("f", Kind::ReadWrite, true),
            ("k", Kind::ReadOnly, true),
            ("x", Kind::Fixed, false),
        ],
    ),
];

/// Scripts behind an update to `rel1` and what is said behind its answer, without the client that asks all.
const SCRIPTS: [(&[&str], &[&str]); 4] = [
    (
        &[
            "boot",
            "update c rel2",
            "get c com.a f",
            "get c com.a a",
            "local-now c com.a a true",
            "boot",
            "get c com.a f",
            "get c com.a a",
        ],
        &[
            "ok",
            "updated 4",
            "false",
            "none",
            "err 6 not-booted",
            "ok",
            "true",
            "true",
        ],
    ),
    (
        &[
            "server c com.a f true",
            "local c com.a f false",
            "boot",
            "get c com.a f",
            "unset c com.a f",
            "get c com.a f",
            "boot",
            "get c com.a f",
        ],
        &["ok", "ok", "ok", "false", "ok", "false", "ok", "true"],
    ),
    (
        &[
            "local-now c com.a f true",
            "boot",
            "local-now c com.a k false",
            "unset-now c com.a k",
            "local-now c com.a f true",
            "get c com.a f",
            "unset c com.a f",
            "unset c com.a f",
            "get c com.a f",
            "get d com.a f",
            "server c com.a zz true",
            "BOOT",
        ],
        &[
            "err 5 no-boot-copy",
            "ok",
            "err 4 read-only",
            "err 7 no-override",
            "ok",
            "true",
            "ok",
            "err 7 no-override",
            "true",
            "err 2 unknown-container",
            "err 3 unknown-flag",
            "err 1 bad-request",
        ],
    ),
    (
        &["update c rel1", "update c nowhere", "update d rel1"],
        &["unchanged", "err 8 missing-file", "err 10 files-disagree"],
    ),
];

// What has to be there.
fn lawful<T>(name: Option<T>) -> Result<T, Fail> {
    match name {
        Some(name) => Ok(name),
        None => Err("no name".into()),
    }
}

fn make_flag(alloc: Global, name: &str, kind: Kind, value: bool) -> Result<Flag, Fail> {
    let point = Point {
        source: Text::new(String::from_str(alloc, "a")?),
        enabled: value,
        writable: kind == Kind::ReadWrite,
    };
    Ok(Flag {
        package: lawful(PackageName::parse(alloc, "com.a")?)?,
        name: lawful(Name::parse(alloc, name)?)?,
        namespace: lawful(Name::parse(alloc, "n")?)?,
        description: Text::new(String::from_str(alloc, "d")?),
        bugs: Sequence::new(alloc),
        enabled: value,
        writable: kind == Kind::ReadWrite,
        trace: Sequence::from_vec(vec![in alloc; point]?),
        fixed: kind == Kind::Fixed,
        exported: false,
        container: lawful(ContainerName::parse(alloc, "c")?)?,
        purpose: None,
    })
}

// The files of a release's folder.
fn put_release(
    alloc: Global,
    files: &mut Vec<(String, Vec<u8>)>,
    folder: &str,
    release: &[(&str, Kind, bool)],
) -> Result<(), Fail> {
    let mut list = Vec::new(alloc);
    for (name, kind, value) in release {
        list.push(make_flag(alloc, name, *kind, *value)?)?;
    }
    let container = lawful(ContainerName::parse(alloc, "c")?)?;
    let caches = vec![in alloc; lawful(Flags::new(alloc, list)?)?]?;
    let Ok(set) = build(alloc, &container, &caches) else {
        return Err("no image".into());
    };
    files.push((
        format!(in alloc; "{folder}/package.map")?,
        set.package_map().to_vec(alloc)?,
    ))?;
    files.push((
        format!(in alloc; "{folder}/flag.map")?,
        set.flag_map().to_vec(alloc)?,
    ))?;
    files.push((
        format!(in alloc; "{folder}/flag.val")?,
        set.flag_val().to_vec(alloc)?,
    ))?;
    files.push((
        format!(in alloc; "{folder}/flag.info")?,
        set.flag_info().to_vec(alloc)?,
    ))?;
    Ok(())
}

/// A device with the releases' folders, and one file of the directory that is free until there is a container. The
/// calls of these numbers fail.
pub(crate) fn device(alloc: Global, fails: Vec<u64>) -> Result<MemDevice, Fail> {
    let mut files = Vec::new(alloc);
    for (folder, release) in RELEASES {
        put_release(alloc, &mut files, folder, release)?;
    }
    files.push((String::from_str(alloc, "dev/c-boot")?, vec![in alloc; 0u8]?))?;
    Ok(MemDevice::new(alloc, files, fails)?)
}

// Answers without the client that asked, and updates without their digest.
fn shortened(alloc: Global, said: &[u8]) -> Result<String, Fail> {
    let text = str::from_utf8(said).unwrap_or("no text");
    let mut all = String::new(alloc);
    for line in text.lines() {
        let answer = line.strip_prefix("0 ").unwrap_or(line);
        match answer.strip_prefix("updated ") {
            Some(told) => {
                all.push_str("updated ")?;
                all.push_str(told.get(65..).unwrap_or("no count"))?;
            }
            None => all.push_str(answer)?,
        }
        all.push_str("\n")?;
    }
    Ok(all)
}

// The lines behind a text, each behind a word.
fn joined(alloc: Global, begin: &str, word: &str, lines: &[&str]) -> Result<String, Fail> {
    let mut text = String::from_str(alloc, begin)?;
    for line in lines {
        text.push_str(word)?;
        text.push_str(line)?;
        text.push_str("\n")?;
    }
    Ok(text)
}

#[test]
fn worked_scripts_are_replayed(rt: HostRuntime) -> Result<(), Fail> {
    let alloc = rt.alloc();
    for (asked, answers) in SCRIPTS {
        let mut device = device(alloc, Vec::new(alloc))?;
        let script = joined(alloc, "0 update c rel1\n0 get c com.a f\n", "0 ", asked)?;
        let expected = joined(alloc, "updated 3\nerr 5 no-boot-copy\n", "", answers)?;
        assert!(rt; replay(alloc, &mut device, "dev", script.as_bytes()).is_ok());
        let said = shortened(alloc, device.said())?;
        assert_eq!(rt; said.as_str(), expected.as_str());
    }
    Ok(())
}

// A list of two containers in the wrong order.
fn damaged_files(alloc: Global) -> Result<Vec<(String, Vec<u8>)>, Fail> {
    let mut list = Vec::from_slice(alloc, b"ACRF\x01\0\0\0\x02\0\0\0")?;
    for name in [b"\x01\0\0\0d", b"\x01\0\0\0c"] {
        list.extend_from_slice(name)?;
        list.extend_from_slice(&[0u8; 34])?;
    }
    let mut files = Vec::new(alloc);
    files.push((String::from_str(alloc, "dev/records")?, list))?;
    files.push((
        String::from_str(alloc, "script")?,
        Vec::from_slice(alloc, b"0 boot\n0 get c com.a f")?,
    ))?;
    Ok(files)
}

#[test]
fn a_damaged_list_is_told(rt: HostRuntime) -> Result<(), Fail> {
    let alloc = rt.alloc();
    let files = damaged_files(alloc)?;
    let mut device = MemDevice::new(alloc, files, Vec::new(alloc))?;
    match replay(alloc, &mut device, "dev", b"0 boot\n") {
        Err(DaemonFault::Damaged(name)) => assert_eq!(rt; name.as_str(), "dev/records"),
        _ => panic!(rt; "no damage"),
    }
    assert_eq!(rt; device.said().len(), 0);
    Ok(())
}

/// Words, the number of a call that fails, the status, and what is said.
const RUNS: [(&[&str], Option<u64>, u8, &[u8]); 6] = [
    (
        &["replay", "script", "dev"],
        None,
        3,
        b"damaged dev/records\n",
    ),
    (&["replay", "script", "dev"], Some(1), 4, b""),
    (
        &["replay", "script", "empty"],
        None,
        0,
        b"0 ok\n0 err 2 unknown-container\n",
    ),
    (
        &["replay", "nowhere", "dev"],
        None,
        2,
        b"refused nowhere: missing\n",
    ),
    (
        &["replay", "script"],
        None,
        1,
        b"usage: acfg COMMAND WORD..\n",
    ),
    (
        &["replay", "script", "dev", "dev"],
        None,
        1,
        b"usage: acfg COMMAND WORD..\n",
    ),
];

#[test]
fn the_command_tells_damage(rt: HostRuntime) -> Result<(), Fail> {
    let alloc = rt.alloc();
    for (texts, failing, status, said) in RUNS {
        let mut words = Vec::new(alloc);
        for text in texts {
            words.push(String::from_str(alloc, text)?)?;
        }
        let mut fails = Vec::new(alloc);
        if let Some(number) = failing {
            fails.push(number)?;
        }
        let files = damaged_files(alloc)?;
        let mut device = MemDevice::new(alloc, files, fails)?;
        assert_eq!(rt; run(alloc, &words, &mut device), status);
        assert_eq!(rt; device.said(), said);
    }
    Ok(())
}
