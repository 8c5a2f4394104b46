//! `create-cache` and `dump` over the device in memory.

use crate::calling::run;
use acfg_device::{OutOfMemory, Panel};
use acfg_memdev::MemDevice;
use std::alloc::{AllocError, Global};
use std::test::Fail;

/// The cache of the one flag `com.a.f` of the container `c`, as the encoding of Protocol Buffers has it.
pub const ONE_FLAG: &[u8] =
    b"\x0a\x2f\x0a\x05com.a\x12\x01f\x1a\x01n\x22\x01d\x2a\x011\x30\x02\x38\x02\x42\x0f\x0a\x09\
    d.aconfig\x10\x02\x18\x02\x48\0\x50\0\x5a\x01c";

/// The same with its state once more, which is ENABLED, and an unknown field.
pub const ENABLED: &[u8] =
    b"\x0a\x33\x0a\x05com.a\x12\x01f\x1a\x01n\x22\x01d\x2a\x011\x30\x02\x38\x02\x42\x0f\x0a\x09\
    d.aconfig\x10\x02\x18\x02\x48\0\x50\0\x5a\x01c\x30\x01\x78\x05";

const FILES: [(&str, &[u8]); 7] = [
    (
        "d.aconfig",
        b"package: \"com.a\" container: \"c\" \
        flag { name: \"f\" namespace: \"n\" description: \"d\" bug: \"1\" }",
    ),
    (
        "x.aconfig",
        b"package: \"com.a\" container: \"c\" \
        flag { name: \"f\" namespace: \"n\" description: \"d\" bug: \"1\" is_fixed_read_only: true }",
    ),
    (
        "off",
        b"flag_value { package: \"com.a\" name: \"f\" state: DISABLED permission: READ_WRITE }",
    ),
    (
        "on",
        b"flag_value { package: \"com.a\" name: \"f\" state: ENABLED permission: READ_WRITE } \
        flag_value { package: \"com.a\" name: \"other\" state: ENABLED permission: READ_WRITE }",
    ),
    ("one", ONE_FLAG),
    ("enabled", ENABLED),
    ("empty", b""),
];

// A device with the files, whose calls of these numbers fail.
fn device(alloc: Global, fails: Vec<u64>) -> Result<MemDevice, OutOfMemory> {
    let mut held = Vec::new(alloc);
    for (name, bytes) in FILES {
        held.push((
            String::from_str(alloc, name)?,
            Vec::from_slice(alloc, bytes)?,
        ))?;
    }
    MemDevice::new(alloc, held, fails)
}

pub fn words(alloc: Global, texts: &[&str]) -> Result<Vec<String>, AllocError> {
    let mut words = Vec::new(alloc);
    for text in texts {
        words.push(String::from_str(alloc, text)?)?;
    }
    Ok(words)
}

#[test]
fn caches_are_written_and_dumped(rt: HostRuntime) -> Result<(), Fail> {
    let alloc = rt.alloc();
    let trace = "{name} {state} {trace}";
    let traced =
        "f ENABLED d.aconfig=DISABLED/READ_WRITE,off=DISABLED/READ_WRITE,on=ENABLED/READ_WRITE\n";
    let table = [
        (
            vec![in alloc; "create-cache", "com.a", "c", "o", "d.aconfig"]?,
            0,
            "cached 1 flags\n",
        ),
        (
            vec![in alloc; "dump", "text", "all", "o"]?,
            0,
            "com.a.f [c]: READ_WRITE + DISABLED\n",
        ),
        (
            vec![in alloc; "create-cache", "com.a", "c", "o", "d.aconfig", "off", "on"]?,
            0,
            "cached 1 flags\n",
        ),
        (vec![in alloc; "dump", trace, "all", "o"]?, 0, traced),
        (
            vec![in alloc; "create-cache", "com.a", "c", "o", "x.aconfig", "on"]?,
            2,
            "refused on: fixed-flag at 11\n",
        ),
        (
            vec![in alloc; "create-cache", "com.a", "c", "o", "on"]?,
            0,
            "cached 0 flags\n",
        ),
        (
            vec![in alloc; "create-cache", "com.a", "c", "o", "gone"]?,
            2,
            "refused gone: missing\n",
        ),
        (
            vec![in alloc; "create-cache", "com.a", "c", "o"]?,
            1,
            "usage: acfg COMMAND WORD..\n",
        ),
        (
            vec![in alloc; "create-cache", "com", "c", "o", "on"]?,
            1,
            "usage: acfg COMMAND WORD..\n",
        ),
        (
            vec![in alloc; "dump", "bool", "all", "o", "one", "one"]?,
            0,
            "com.a.f=false\n",
        ),
        (
            vec![in alloc; "dump", "bool", "all", "enabled"]?,
            0,
            "com.a.f=true\n",
        ),
        (
            vec![in alloc; "dump", "bool", "state:ENABLED", "one"]?,
            0,
            "",
        ),
        (
            vec![in alloc; "dump", "bool", "all", "one", "enabled"]?,
            2,
            "refused enabled: clash com.a.f\n",
        ),
        (
            vec![in alloc; "dump", "a}", "b", "gone"]?,
            2,
            "refused format: bad-placeholder at 1\n",
        ),
        (
            vec![in alloc; "dump", "a", "name:f,b", "gone"]?,
            2,
            "refused filter: bad-filter at 7\n",
        ),
        (
            vec![in alloc; "dump", "a", "all", "on", "gone"]?,
            2,
            "refused gone: missing\n",
        ),
        (
            vec![in alloc; "dump", "a", "all", "one", "on"]?,
            2,
            "refused on: bad-type at 0\n",
        ),
        (
            vec![in alloc; "dump", "a", "all"]?,
            1,
            "usage: acfg COMMAND WORD..\n",
        ),
    ];
    let mut device = device(alloc, Vec::new(alloc))?;
    let mut all_said = String::new(alloc);
    for (texts, status, said) in &table {
        let asked = words(alloc, texts)?;
        assert_eq!(rt; run(alloc, &asked, &mut device), *status, "for {texts:?}");
        all_said.push_str(said)?;
        assert_eq!(rt; device.said(), all_said.as_bytes(), "for {texts:?}");
    }
    Ok(())
}

#[test]
fn a_cache_is_whole_before_a_word_is_said(rt: HostRuntime) -> Result<(), Fail> {
    let alloc = rt.alloc();
    let asked = words(alloc, &["create-cache", "com.a", "c", "o", "d.aconfig"])?;
    // The read is call 0; the file is written and synced, then the names, and then what was done is said.
    for call in 0..5 {
        let mut device = device(alloc, vec![in alloc; call]?)?;
        assert_eq!(rt; run(alloc, &asked, &mut device), 4, "call {call} fails");
        assert_eq!(rt; device.said().len(), 0, "call {call} fails");
    }
    let mut device = device(alloc, Vec::new(alloc))?;
    assert_eq!(rt; run(alloc, &asked, &mut device), 0);
    let written = device
        .read(alloc, "o")
        .ok()
        .flatten()
        .unwrap_or(Vec::new(alloc));
    assert_eq!(rt; written.as_slice(), ONE_FLAG);
    Ok(())
}
