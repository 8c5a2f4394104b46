//! The device in memory: what a cut leaves, calls that fail, many calls.

use acfg_device::{Device, Failed, OutOfMemory, Panel, ReadFault};
use acfg_memdev::MemDevice;
use std::alloc::Global;
use std::process::Abort;
use std::test::Fail;

// A device with one file, `a` holding `old`.
fn device(alloc: Global, fails: &[u64]) -> Result<MemDevice, OutOfMemory> {
    let mut files = Vec::new(alloc);
    files.push((
        String::from_str(alloc, "a")?,
        Vec::from_slice(alloc, b"old")?,
    ))?;
    MemDevice::new(alloc, files, Vec::from_slice(alloc, fails)?)
}

fn holds(
    rt: &impl Abort,
    alloc: Global,
    device: &mut MemDevice,
    name: &str,
    wanted: Option<&str>,
) -> Result<(), ReadFault> {
    let found = device.read(alloc, name)?;
    match found {
        Some(bytes) => match wanted {
            Some(text) => assert_eq!(rt; bytes.as_slice(), text.as_bytes(), "in {name}"),
            None => assert!(rt; false, "there is a {name}"),
        },
        None => assert!(rt; wanted.is_none(), "there is no {name}"),
    }
    Ok(())
}

struct Row {
    calls: u64,
    names: u64,
    fill: Option<u8>,
    a: &'static str,
    b: Option<&'static str>,
}

const ROWS: [Row; 6] = [
    Row {
        calls: 1,
        names: 0,
        fill: None,
        a: "old",
        b: None,
    },
    Row {
        calls: 1,
        names: 1,
        fill: Some(b'x'),
        a: "old",
        b: Some("xxx"),
    },
    Row {
        calls: 3,
        names: 0,
        fill: None,
        a: "old",
        b: None,
    },
    Row {
        calls: 3,
        names: 1,
        fill: None,
        a: "old",
        b: Some("new"),
    },
    Row {
        calls: 3,
        names: 2,
        fill: None,
        a: "new",
        b: None,
    },
    Row {
        calls: 4,
        names: 0,
        fill: None,
        a: "new",
        b: None,
    },
];

// A file is replaced by way of another: a cut at each step, and a sync that fails.
#[test]
fn a_cut_leaves_what_was_synced(rt: HostRuntime) -> Result<(), Fail> {
    let alloc = rt.alloc();
    let mut whole = device(alloc, &[])?;
    whole.write("b", b"new")?;
    whole.sync("b")?;
    whole.rename("b", "a")?;
    whole.sync_names()?;
    for row in &ROWS {
        let mut left = whole.cut(alloc, row.calls, row.names, row.fill)?;
        holds(&rt, alloc, &mut left, "a", Some(row.a))?;
        holds(&rt, alloc, &mut left, "b", row.b)?;
    }
    let mut failing = device(alloc, &[1])?;
    failing.write("b", b"new")?;
    assert_eq!(rt; failing.sync("b"), Err(Failed));
    assert_eq!(rt; failing.starved(), 0);
    let mut left = failing.cut(alloc, 2, 1, Some(b'x'))?;
    holds(&rt, alloc, &mut left, "b", Some("xxx"))?;
    Ok(())
}

#[test]
fn each_call_is_done_where_there_is_memory(rt: HostRuntime) -> Result<(), Fail> {
    let alloc = rt.alloc();
    let mut whole = device(alloc, &[])?;
    whole.write("b", b"newer")?;
    whole.write_at("b", 2, b"st")?;
    holds(&rt, alloc, &mut whole, "b", Some("nestr"))?;
    whole.remove("a")?;
    holds(&rt, alloc, &mut whole, "a", None)?;
    whole.say(b"said")?;
    assert_eq!(rt; whole.said(), b"said".as_slice());
    let mut left = whole.cut(alloc, 9, 0, None)?;
    holds(&rt, alloc, &mut left, "a", Some("old"))?;
    assert_eq!(rt; left.said(), b"said".as_slice());
    Ok(())
}

// The count of calls is that of a caller's own, and a cut after each of them is had.
#[test]
fn thousands_of_calls_are_counted(rt: HostRuntime) -> Result<(), Fail> {
    let alloc = rt.alloc();
    let mut whole = device(alloc, &[])?;
    for _ in 0..1500 {
        whole.write("b", b"new")?;
        whole.sync("b")?;
    }
    assert_eq!(rt; whole.calls(), 3000);
    whole.remove("a")?;
    for calls in 2998..=whole.calls() {
        let mut left = whole.cut(alloc, calls, 1, None)?;
        holds(&rt, alloc, &mut left, "a", Some("old"))?;
        holds(&rt, alloc, &mut left, "b", Some("new"))?;
    }
    Ok(())
}
