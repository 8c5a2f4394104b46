//! `create-all` over the device in memory.

use crate::caching::{ONE_FLAG, words};
use crate::calling::run;
use crate::query::ONE_FLAG as ONE_SET;
use crate::storage::ONE_STORED;
use acfg_device::{OutOfMemory, Panel};
use acfg_memdev::MemDevice;
use std::alloc::Global;
use std::test::Fail;

/// Caches, a file that is none, and lists of jobs.
const FILES: [(&str, &[u8]); 14] = [
    ("o", ONE_FLAG),
    ("text", b"flag { }"),
    ("jobs", b"c i1 o\nc i2 o"),
    ("empty", b""),
    ("same", b"c i3 o\nc i3 o"),
    ("blank", b"c i3 o\n\nc i4 o\n"),
    ("spaces", b"c i3  o\n"),
    ("few", b"c i3\n"),
    ("names", b"c i3 gone\nC i4 o\n"),
    ("lost", b"c i3 text away\nc i4 gone\n"),
    ("later", b"c i3 o\nc i4 gone\n"),
    ("strange", b"c i3 o\nd i4 o\nc i5 text\n"),
    ("clashes", b"c i3 o o\nc i4 text\n"),
    ("dashes", b"c -i3 o\n"),
];

/// What is told of each list, but for the first, and the status.
const TOLD: [(&str, u8, &str); 12] = [
    ("empty", 0, ""),
    ("none", 2, "refused none: missing\n"),
    ("same", 2, "refused same: bad-line 2\n"),
    ("blank", 2, "refused blank: bad-line 2\n"),
    ("spaces", 2, "refused spaces: bad-line 1\n"),
    ("few", 2, "refused few: bad-line 1\n"),
    ("names", 2, "refused names: bad-line 2\n"),
    ("lost", 2, "refused away: missing\n"),
    ("later", 2, "refused gone: missing\n"),
    ("strange", 2, "refused o: wrong-container flag 0\n"),
    ("clashes", 2, "refused o: clash com.a.f\n"),
    ("-jobs", 1, "usage: acfg COMMAND WORD..\n"),
];

// A device with the files, of whose calls these fail.
fn device(alloc: Global, fails: Vec<u64>) -> Result<MemDevice, OutOfMemory> {
    let mut held = Vec::new(alloc);
    for (name, bytes) in FILES {
        held.push((
            String::from_str(alloc, name)?,
            Vec::from_slice(alloc, bytes)?,
        ))?;
    }
    MemDevice::new(alloc, held, fails)
}

// What is at a name, or nothing.
fn file_at(alloc: Global, device: &mut MemDevice, name: &str) -> Vec<u8> {
    device
        .read(alloc, name)
        .ok()
        .flatten()
        .unwrap_or(Vec::new(alloc))
}

#[test]
fn jobs_are_stored_in_order(rt: HostRuntime) -> Result<(), Fail> {
    let alloc = rt.alloc();
    let mut device = device(alloc, Vec::new(alloc))?;
    let asked = words(alloc, &["create-all", "jobs"])?;
    assert_eq!(rt; run(alloc, &asked, &mut device), 0);
    let mut twice = String::from_str(alloc, ONE_STORED)?;
    twice.push_str(ONE_STORED)?;
    assert_eq!(rt; device.said(), twice.as_bytes());
    assert_eq!(rt;
        file_at(alloc, &mut device, "i1/package.map").as_slice(),
        ONE_SET[0]
    );
    assert_eq!(rt;
        file_at(alloc, &mut device, "i2/flag.val").as_slice(),
        ONE_SET[2]
    );
    Ok(())
}

#[test]
fn lists_are_refused_before_a_file_is_written(rt: HostRuntime) -> Result<(), Fail> {
    let alloc = rt.alloc();
    let mut device = device(alloc, Vec::new(alloc))?;
    let mut all_said = String::new(alloc);
    for (list, status, said) in TOLD {
        let asked = words(alloc, &["create-all", list])?;
        assert_eq!(rt; run(alloc, &asked, &mut device), status, "for {list}");
        all_said.push_str(said)?;
        assert_eq!(rt; device.said(), all_said.as_bytes(), "for {list}");
    }
    assert_eq!(rt; file_at(alloc, &mut device, "i3/package.map").len(), 0);
    assert_eq!(rt; file_at(alloc, &mut device, "i4/package.map").len(), 0);
    let asked = words(alloc, &["create-all", "dashes"])?;
    assert_eq!(rt; run(alloc, &asked, &mut device), 0);
    Ok(())
}

#[test]
fn all_sets_are_whole_before_a_word_is_said(rt: HostRuntime) -> Result<(), Fail> {
    let alloc = rt.alloc();
    let asked = words(alloc, &["create-all", "jobs"])?;
    let mut whole = device(alloc, Vec::new(alloc))?;
    assert_eq!(rt; run(alloc, &asked, &mut whole), 0);
    for call in 0..whole.calls() {
        let mut device = device(alloc, vec![in alloc; call]?)?;
        assert_eq!(rt; run(alloc, &asked, &mut device), 4, "call {call} fails");
        assert_eq!(rt; device.said().len(), 0, "call {call} fails");
    }
    Ok(())
}
