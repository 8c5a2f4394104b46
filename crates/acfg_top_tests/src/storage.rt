//! `create-storage` over the device in memory. The expected files were made apart from this program.

use crate::caching::{ENABLED, ONE_FLAG, words};
use crate::calling::run;
use crate::query::{NAMES, NO_FLAGS as NO_SET, ONE_FLAG as ONE_SET};
use acfg_device::{OutOfMemory, Panel};
use acfg_memdev::MemDevice;
use std::alloc::{AllocError, Global};
use std::test::Fail;

pub const ONE_STORED: &str = "stored 1 flags in 1 packages \
    17f48a1c9cc934024731c25f7769e503180d6821c943ca36c34582807291c4e4\n";

const NONE_STORED: &str = "stored 0 flags in 0 packages \
    a061264fcf7e27cfef9684bb5ec7fb1ede4bac664dbf89ce4a6bc4f358694d21\n";

const EIGHT_STORED: &str = "stored 8 flags in 3 packages \
    5389442fc5385b77d10398156db85c1fb048f019e481c7a69c43d9be2a8126e0\n";

/// Three caches, and a file that is none.
const CACHES: [(&str, &[u8]); 4] = [
    ("one", ONE_FLAG),
    ("enabled", ENABLED),
    ("empty", b""),
    ("text", b"flag { }"),
];

/// The declarations of three packages, in what differs of them: the end of the package's name, and the flags.
const DECLARED: [(&str, &str); 3] = [
    (
        "1",
        "flag { name: \"disabled_rw\" namespace: \"n\" description: \"d\" bug: \"1\" } \
        flag { name: \"enabled_ro\" namespace: \"n\" description: \"d\" bug: \"1\" } \
        flag { name: \"enabled_rw\" namespace: \"n\" description: \"d\" bug: \"1\" }",
    ),
    (
        "2",
        "flag { name: \"disabled_rw\" namespace: \"n\" description: \"d\" bug: \"1\" } \
        flag { name: \"enabled_fixed_ro\" namespace: \"n\" description: \"d\" bug: \"1\" is_fixed_read_only: true } \
        flag { name: \"enabled_ro\" namespace: \"n\" description: \"d\" bug: \"1\" }",
    ),
    (
        "4",
        "flag { name: \"enabled_fixed_ro\" namespace: \"n\" description: \"d\" bug: \"1\" is_fixed_read_only: true } \
        flag { name: \"enabled_rw\" namespace: \"n\" description: \"d\" bug: \"1\" }",
    ),
];

/// The values of their flags, with the end of each package's name.
const SET: [(&str, &str); 6] = [
    (
        "1",
        "name: \"enabled_ro\" state: ENABLED permission: READ_ONLY",
    ),
    (
        "1",
        "name: \"enabled_rw\" state: ENABLED permission: READ_WRITE",
    ),
    (
        "2",
        "name: \"enabled_fixed_ro\" state: ENABLED permission: READ_ONLY",
    ),
    (
        "2",
        "name: \"enabled_ro\" state: ENABLED permission: READ_ONLY",
    ),
    (
        "4",
        "name: \"enabled_fixed_ro\" state: ENABLED permission: READ_ONLY",
    ),
    (
        "4",
        "name: \"enabled_rw\" state: ENABLED permission: READ_WRITE",
    ),
];

// A device with caches, whose calls of these numbers fail.
fn device(alloc: Global, fails: Vec<u64>) -> Result<MemDevice, OutOfMemory> {
    let mut held = Vec::new(alloc);
    for (name, bytes) in CACHES {
        held.push((
            String::from_str(alloc, name)?,
            Vec::from_slice(alloc, bytes)?,
        ))?;
    }
    MemDevice::new(alloc, held, fails)
}

// A device with declarations of three packages, and with their values.
fn declared(alloc: Global) -> Result<MemDevice, OutOfMemory> {
    let mut held = Vec::new(alloc);
    for (end, flags) in DECLARED {
        let text = format!(in alloc;
            "package: \"com.android.aconfig.storage.test_{end}\" {flags}"
        )?;
        held.push((format!(in alloc; "{end}.aconfig")?, text.into_bytes()))?;
    }
    let mut values = String::new(alloc);
    for (end, set) in SET {
        values.push_str("flag_value { package: \"com.android.aconfig.storage.test_")?;
        values.push_str(end)?;
        values.push_str("\" ")?;
        values.push_str(set)?;
        values.push_str(" } ")?;
    }
    held.push((String::from_str(alloc, "values")?, values.into_bytes()))?;
    MemDevice::new(alloc, held, Vec::new(alloc))
}

// What is at a name, or nothing.
fn file_at(alloc: Global, device: &mut MemDevice, name: &str) -> Vec<u8> {
    device
        .read(alloc, name)
        .ok()
        .flatten()
        .unwrap_or(Vec::new(alloc))
}

#[test]
fn caches_are_stored_or_refused(rt: HostRuntime) -> Result<(), Fail> {
    let alloc = rt.alloc();
    let usage = "usage: acfg COMMAND WORD..\n";
    let stranger = "refused enabled: wrong-container flag 0\n";
    let table = [
        (
            vec![in alloc; "create-storage", "c", "img", "one"]?,
            0,
            ONE_STORED,
        ),
        (
            vec![in alloc; "query", "img", "com.a", "f"]?,
            0,
            "com.a.f: read-write false\n",
        ),
        (
            vec![in alloc; "create-storage", "c", "none", "empty"]?,
            0,
            NONE_STORED,
        ),
        (vec![in alloc; "query", "none", "com.a", "f"]?, 0, "none\n"),
        (
            vec![in alloc; "create-storage", "c", "img", "text", "gone"]?,
            2,
            "refused gone: missing\n",
        ),
        (
            vec![in alloc; "create-storage", "d", "img", "text", "one"]?,
            2,
            "refused text: bad-type at 0\n",
        ),
        (
            vec![in alloc; "create-storage", "d", "img", "enabled", "text"]?,
            2,
            stranger,
        ),
        (
            vec![in alloc; "create-storage", "c", "img", "one", "enabled"]?,
            2,
            "refused enabled: clash com.a.f\n",
        ),
        (
            vec![in alloc; "create-storage", "c", "img", "one", "one"]?,
            2,
            "refused one: clash com.a.f\n",
        ),
        (vec![in alloc; "create-storage", "c", "img"]?, 1, usage),
        (
            vec![in alloc; "create-storage", "C", "img", "one"]?,
            1,
            usage,
        ),
        (
            vec![in alloc; "create-storage", "c", "-img", "one"]?,
            1,
            usage,
        ),
    ];
    let mut device = device(alloc, Vec::new(alloc))?;
    let mut all_said = String::new(alloc);
    for (texts, status, said) in &table {
        let asked = words(alloc, texts)?;
        assert_eq!(rt; run(alloc, &asked, &mut device), *status, "for {texts:?}");
        all_said.push_str(said)?;
        assert_eq!(rt; device.said(), all_said.as_bytes(), "for {texts:?}");
    }
    for i in 0..4 {
        let name = NAMES[i];
        assert_eq!(rt;
            file_at(alloc, &mut device, name).as_slice(),
            ONE_SET[i],
            "at {name}"
        );
    }
    assert_eq!(rt;
        file_at(alloc, &mut device, "none/package.map").as_slice(),
        NO_SET[0]
    );
    Ok(())
}

#[test]
fn a_set_is_whole_before_a_word_is_said(rt: HostRuntime) -> Result<(), Fail> {
    let alloc = rt.alloc();
    let asked = words(alloc, &["create-storage", "c", "img", "one"])?;
    // The read is call 0; each file is written and synced, then the names, and then what was done is said.
    for call in 0..11 {
        let mut device = device(alloc, vec![in alloc; call]?)?;
        assert_eq!(rt; run(alloc, &asked, &mut device), 4, "call {call} fails");
        assert_eq!(rt; device.said().len(), 0, "call {call} fails");
    }
    let mut device = device(alloc, vec![in alloc; 11u64]?)?;
    assert_eq!(rt; run(alloc, &asked, &mut device), 0);
    Ok(())
}

// The status of `create-cache` for one of the three packages.
fn cached(alloc: Global, device: &mut MemDevice, end: &str) -> Result<u8, Fail> {
    let package = format!(in alloc; "com.android.aconfig.storage.test_{end}")?;
    let source = format!(in alloc; "{end}.aconfig")?;
    let asked = cache_words(alloc, package.as_str(), end, source.as_str())?;
    Ok(run(alloc, &asked, device))
}

// The words of `create-cache` for it.
fn cache_words(
    alloc: Global,
    package: &str,
    out: &str,
    source: &str,
) -> Result<Vec<String>, AllocError> {
    words(
        alloc,
        &["create-cache", package, "mockup", out, source, "values"],
    )
}

#[test]
fn packages_of_one_container(rt: HostRuntime) -> Result<(), Fail> {
    let alloc = rt.alloc();
    let mut device = declared(alloc)?;
    for (end, _) in DECLARED {
        assert_eq!(rt; cached(alloc, &mut device, end)?, 0, "for {end}");
    }
    let before = device.said().len();
    let asked = words(alloc, &["create-storage", "mockup", "m", "4", "1", "2"])?;
    assert_eq!(rt; run(alloc, &asked, &mut device), 0);
    let said = device.said().get(before..).unwrap_or(b"");
    assert_eq!(rt; said, EIGHT_STORED.as_bytes());
    let packages = file_at(alloc, &mut device, "m/package.map");
    assert_eq!(rt; packages.len(), 209);
    assert!(rt;
        packages.starts_with(
            b"\x01\0\0\0\x06\0\0\0mockup\0\xd1\0\0\0\x03\0\0\0\x1f\0\0\0\x3b\0\0\0"
        )
    );
    assert_eq!(rt; file_at(alloc, &mut device, "m/flag.map").len(), 321);
    let values: &[u8] =
        b"\x01\0\0\0\x06\0\0\0mockup\x02\x23\0\0\0\x08\0\0\0\x1b\0\0\0\0\x01\x01\0\x01\x01\x01\x01";
    assert_eq!(rt;
        file_at(alloc, &mut device, "m/flag.val").as_slice(),
        values
    );
    assert!(rt; file_at(alloc, &mut device, "m/flag.info").ends_with(b"\x02\0\x02\x02\0\0\0\x02"));
    Ok(())
}
