//! `query` over the device in memory, on sets whose bytes were made apart from this program.

use crate::calling::run;
use acfg_device::OutOfMemory;
use acfg_memdev::MemDevice;
use std::alloc::{AllocError, Global};
use std::test::Fail;

/// The set of container `c` with the one flag `com.a.f`, which is read-write and false.
pub const ONE_FLAG: [&[u8]; 4] = [
    b"\x01\0\0\0\x01\0\0\0c\0K\0\0\0\x01\0\0\0\x1a\0\0\06\0\0\0\0\0\0\0\0\0\0\06\0\0\0\0\0\0\0\0\0\
    \0\0\0\0\0\0\0\0\0\0\x05\0\0\0com.a\0\0\0\0\0\0\0\0\0\0\0\0",
    b"\x01\0\0\0\x01\0\0\0c\x01G\0\0\0\x01\0\0\0\x1a\0\0\06\0\0\0\0\0\0\0\0\0\0\0\0\0\0\0\0\0\0\0\
    \0\0\0\0\0\0\0\06\0\0\0\0\0\0\0\x01\0\0\0f\0\0\0\0\0\0\0\0",
    b"\x01\0\0\0\x01\0\0\0c\x02\x17\0\0\0\x01\0\0\0\x16\0\0\0\0",
    b"\x01\0\0\0\x01\0\0\0c\x03\x17\0\0\0\x01\0\0\0\x16\0\0\0\x02",
];

/// The set of a container without flags.
pub const NO_FLAGS: [&[u8]; 4] = [
    b"\x01\0\0\0\x01\0\0\0c\06\0\0\0\0\0\0\0\x1a\0\0\06\0\0\0\0\0\0\0\0\0\0\0\0\0\0\0\0\0\0\0\0\0\
    \0\0\0\0\0\0\0\0\0\0",
    b"\x01\0\0\0\x01\0\0\0c\x016\0\0\0\0\0\0\0\x1a\0\0\06\0\0\0\0\0\0\0\0\0\0\0\0\0\0\0\0\0\0\0\0\
    \0\0\0\0\0\0\0\0\0\0\0",
    b"\x01\0\0\0\x01\0\0\0c\x02\x16\0\0\0\0\0\0\0\x16\0\0\0",
    b"\x01\0\0\0\x01\0\0\0c\x03\x16\0\0\0\0\0\0\0\x16\0\0\0",
];

pub const NAMES: [&str; 4] = [
    "img/package.map",
    "img/flag.map",
    "img/flag.val",
    "img/flag.info",
];

// Bytes with some of them changed from a place on.
fn changed(alloc: Global, bytes: &[u8], at: usize, new: &[u8]) -> Result<Vec<u8>, AllocError> {
    let mut copy = bytes.to_vec(alloc)?;
    for (i, byte) in new.iter().enumerate() {
        if let Some(place) = copy.get_mut(at.saturating_add(i)) {
            *place = *byte;
        }
    }
    Ok(copy)
}

// A device with a set, in one of whose files some bytes are changed, and with the first few of its files alone.
fn device(
    alloc: Global,
    set: [&[u8]; 4],
    file: usize,
    at: usize,
    new: &[u8],
    few: usize,
) -> Result<MemDevice, OutOfMemory> {
    let mut held = Vec::new(alloc);
    for i in 0..few.min(4) {
        let new = if i == file { new } else { b"" };
        held.push((
            String::from_str(alloc, NAMES[i])?,
            changed(alloc, set[i], at, new)?,
        ))?;
    }
    MemDevice::new(alloc, held, Vec::new(alloc))
}

fn words(alloc: Global, texts: [&str; 4]) -> Result<Vec<String>, AllocError> {
    let mut words = Vec::new(alloc);
    for text in texts {
        words.push(String::from_str(alloc, text)?)?;
    }
    Ok(words)
}

// The set that is asked, which of its files is changed, from where on, to which bytes, how it ends and what is said.
type Row<'a> = ([&'a [u8]; 4], usize, usize, &'a [u8], u8, &'a str);

#[test]
fn a_flag_is_told_or_the_first_fault(rt: HostRuntime) -> Result<(), Fail> {
    let alloc = rt.alloc();
    let asked = words(alloc, ["query", "img", "com.a", "f"])?;
    let table: [Row<'_>; 17] = [
        (ONE_FLAG, 0, 0, b"", 0, "com.a.f: read-write false\n"),
        (ONE_FLAG, 2, 22, b"\x01", 0, "com.a.f: read-write true\n"),
        (ONE_FLAG, 3, 22, b"\x07", 0, "com.a.f: read-write false\n"),
        (NO_FLAGS, 0, 0, b"", 0, "none\n"),
        (
            ONE_FLAG,
            1,
            67,
            b"\x36\0\0\0",
            2,
            "refused img/flag.map: chain at 54\n",
        ),
        (
            ONE_FLAG,
            1,
            67,
            b"\x48\0\0\0",
            2,
            "refused img/flag.map: chain at 54\n",
        ),
        (
            ONE_FLAG,
            1,
            58,
            b"\xe8\x03",
            2,
            "refused img/flag.map: node at 54\n",
        ),
        (
            ONE_FLAG,
            0,
            0,
            b"\x02",
            2,
            "refused img/package.map: bad-version 2\n",
        ),
        (ONE_FLAG, 1, 4, b"\xff", 2, "refused img/flag.map: short\n"),
        (ONE_FLAG, 2, 8, b"C", 2, "refused img/flag.val: bad-text\n"),
        (
            ONE_FLAG,
            3,
            9,
            b"\x02",
            2,
            "refused img/flag.info: bad-file-type 2\n",
        ),
        (
            ONE_FLAG,
            0,
            10,
            b"\x4c",
            2,
            "refused img/package.map: bad-size 76\n",
        ),
        (
            ONE_FLAG,
            0,
            22,
            b"\x37",
            2,
            "refused img/package.map: bad-offsets\n",
        ),
        (
            ONE_FLAG,
            2,
            22,
            b"\x02",
            2,
            "refused img/flag.val: bits at 0\n",
        ),
        (
            ONE_FLAG,
            3,
            8,
            b"d",
            2,
            "refused img/package.map: disagree container 3 0\n",
        ),
        (
            ONE_FLAG,
            0,
            63,
            b"\x01",
            2,
            "refused img/package.map: disagree id 0 1\n",
        ),
        (
            ONE_FLAG,
            3,
            22,
            b"\0",
            2,
            "refused img/package.map: disagree kind 0 0\n",
        ),
    ];
    for (set, file, at, new, status, said) in table {
        let mut device = device(alloc, set, file, at, new, 4)?;
        assert_eq!(rt; run(alloc, &asked, &mut device), status, "for {said}");
        assert_eq!(rt; device.said(), said.as_bytes(), "for {said}");
    }
    for few in 0..4 {
        let mut device = device(alloc, ONE_FLAG, 0, 0, b"\x02", few)?;
        let name = NAMES[few];
        let said = format!(in alloc; "refused {name}: missing\n")?;
        assert_eq!(rt; run(alloc, &asked, &mut device), 2, "with {few} files");
        assert_eq!(rt; device.said(), said.as_bytes(), "with {few} files");
    }
    Ok(())
}

#[test]
fn names_are_lawful_words(rt: HostRuntime) -> Result<(), Fail> {
    let alloc = rt.alloc();
    let table = [
        ["query", "img", "com", "f"],
        ["query", "img", "com.a", "F"],
        ["query", "img", "com.a", "b.f"],
        ["query", "-img", "com.a", "f"],
        ["queries", "img", "com.a", "f"],
    ];
    for texts in table {
        let mut device = device(alloc, ONE_FLAG, 0, 0, b"", 4)?;
        let asked = words(alloc, texts)?;
        assert_eq!(rt; run(alloc, &asked, &mut device), 1, "for {texts:?}");
    }
    Ok(())
}
