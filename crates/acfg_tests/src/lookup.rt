//! AOSP's container `mockup`: each flag is found, and names that no node has are not. The files' bytes, hashes among
//! them, were made apart from this program.

ghost use Rattle.std.specs.Prelude.{◌≡◌};

use acfg_base::Kind;
use acfg_images::{Checked, ImageSet, Use, check};
use acfg_lookup::*;
use acfg_sip::flag_bucket;
use acfg_views::Steps;
use std::alloc::{AllocError, Global};
use std::marker::Brand;
use std::sync::ledger::{Blank, Ledger};
use std::test::Fail;

/// `package.map` of AOSP's container `mockup`: three packages in 7 buckets.
const PACKAGES: &[u8; 209] =
    b"\x01\0\0\0\x06\0\0\0mockup\0\xd1\0\0\0\x03\0\0\0\x1f\0\0\0;\0\0\0;\0\0\0\0\0\0\0\0\0\0\0m\0\
    \0\0\0\0\0\0\0\0\0\0\0\0\0\0\x22\0\0\0com.android.aconfig.storage.test_2\x01\0\0\0\x03\0\0\0\
    \0\0\0\0\x22\0\0\0com.android.aconfig.storage.test_1\0\0\0\0\0\0\0\0\x9f\0\0\0\x22\0\0\0com.\
    android.aconfig.storage.test_4\x02\0\0\0\x06\0\0\0\0\0\0\0";

/// `flag.map`: eight flags in 17 buckets, of which two have two nodes each.
const FLAGS: &[u8; 321] =
    b"\x01\0\0\0\x06\0\0\0mockup\x01A\x01\0\0\x08\0\0\0\x1f\0\0\0c\0\0\0c\0\0\0}\0\0\0\0\0\0\0\0\0\
    \0\0\0\0\0\0\0\0\0\0\xb1\0\0\0\xcc\0\0\0\0\0\0\0\x06\x01\0\0\0\0\0\0\0\0\0\0\0\0\0\0\0\0\0\0\
    \0\0\0\0&\x01\0\0\0\0\0\0\0\0\0\0\x0a\0\0\0enabled_ro\x01\0\x01\0\0\0\0\0\0\0\0\0\x0a\0\0\0e\
    nabled_rw\0\0\x02\0\x97\0\0\0\x02\0\0\0\x0a\0\0\0enabled_rw\0\0\x01\0\0\0\0\0\x01\0\0\0\x0b\
    \0\0\0disabled_rw\0\0\0\0\0\0\0\0\x01\0\0\0\x10\0\0\0enabled_fixed_ro\x02\0\x01\0\xec\0\0\0\
    \x01\0\0\0\x0a\0\0\0enabled_ro\x01\0\x02\0\0\0\0\0\x02\0\0\0\x10\0\0\0enabled_fixed_ro\x02\0\
    \0\0\0\0\0\0\0\0\0\0\x0b\0\0\0disabled_rw\0\0\0\0\0\0\0\0";

/// `flag.val`.
const VALUES: &[u8; 35] =
    b"\x01\0\0\0\x06\0\0\0mockup\x02#\0\0\0\x08\0\0\0\x1b\0\0\0\0\x01\x01\0\x01\x01\x01\x01";

/// `flag.info`, without notes.
const INFOS: &[u8; 35] =
    b"\x01\0\0\0\x06\0\0\0mockup\x03#\0\0\0\x08\0\0\0\x1b\0\0\0\x02\0\x02\x02\0\0\0\x02";

const ONE: &str = "com.android.aconfig.storage.test_1";

const TWO: &str = "com.android.aconfig.storage.test_2";

const FOUR: &str = "com.android.aconfig.storage.test_4";

/// The flags, with their kinds, values, bits and global indexes.
const LISTED: [(&str, &str, Kind, bool, u8, u32); 8] = [
    (ONE, "disabled_rw", Kind::ReadWrite, false, 2, 0),
    (ONE, "enabled_ro", Kind::ReadOnly, true, 0, 1),
    (ONE, "enabled_rw", Kind::ReadWrite, true, 2, 2),
    (TWO, "disabled_rw", Kind::ReadWrite, false, 2, 3),
    (TWO, "enabled_fixed_ro", Kind::Fixed, true, 0, 4),
    (TWO, "enabled_ro", Kind::ReadOnly, true, 0, 5),
    (FOUR, "enabled_fixed_ro", Kind::Fixed, true, 0, 6),
    (FOUR, "enabled_rw", Kind::ReadWrite, true, 2, 7),
];

/// No flags: of another package, of no package, or no lawful names.
const ABSENT: [(&str, &str); 8] = [
    (ONE, "enabled_fixed_ro"),
    (TWO, "enabled_rw"),
    (FOUR, "disabled_rw"),
    ("com.android.aconfig.storage.test_3", "enabled_rw"),
    ("com.android.aconfig.storage.test_1\0", "enabled_rw"),
    (ONE, "Enabled_rw"),
    (ONE, ""),
    ("", "enabled_rw"),
];

/// How many flags the set of `many` has, in how many buckets: as many flags as a container may have.
const MANY: u32 = 50_000;

const BUCKETS: u32 = 24_593;

/// The length of each of its flags' nodes: 16 bytes beside the name.
const NODE: u32 = 22;

/// A text that is too long for a name.
const LONG: [u8; 300] = [b'a'; 300];

fn mockup(alloc: Global) -> Result<ImageSet, AllocError> {
    Ok(ImageSet::new(
        PACKAGES.to_vec(alloc)?,
        FLAGS.to_vec(alloc)?,
        VALUES.to_vec(alloc)?,
        INFOS.to_vec(alloc)?,
    ))
}

/// A flag to look up.
#[derive(Clone, Copy)]
struct Asked<'a> {
    package: &'a str,
    flag: &'a str,
}

fn look_up<L: Ledger>(
    blank: Blank,
    set: &Checked<'_>,
    asked: Asked<'_>,
) -> (Option<PackageAt>, Option<Found>)
    requires name { blank.name ≡ L.name }
    requires parts { blank.parts ≡ L.parts }
    requires one { L.parts ≡ 1 }
{
    let mut steps = Steps::<L>::new(blank);
    (
        find_package(set, asked.package, &mut steps),
        find_flag(set, asked.package, asked.flag, &mut steps),
    )
}

fn look_up_in(set: &Checked<'_>, asked: Asked<'_>) -> (Option<PackageAt>, Option<Found>) {
    look_up::<Brand>(Blank::new(1), set, asked)
}

#[test]
fn each_flag_is_found_and_no_other(rt: HostRuntime) -> Result<(), Fail> {
    let set = mockup(rt.alloc())?;
    let Ok(set) = check(rt.alloc(), &set, Use::Release) else {
        assert!(rt; false);
        return Ok(());
    };
    for (package, flag, kind, value, bits, index) in LISTED {
        let found = Found {
            kind,
            value,
            bits,
            index,
        };
        let seen = look_up_in(&set, Asked { package, flag }).1;
        assert_eq!(rt; seen, Some(found), "{package}.{flag}");
    }
    for (package, flag) in ABSENT {
        let seen = look_up_in(&set, Asked { package, flag }).1;
        assert_eq!(rt; seen, None, "{package}.{flag}");
    }
    let flag = "enabled_rw";
    let seen = look_up_in(&set, Asked { package: TWO, flag });
    assert_eq!(rt; seen, (Some(PackageAt { id: 1, start: 3 }), None));
    if let Ok(text) = std::str::from_utf8(&LONG) {
        let seen = look_up_in(
            &set,
            Asked {
                package: text,
                flag,
            },
        );
        assert_eq!(rt; seen, (None, None));
        let seen = look_up_in(
            &set,
            Asked {
                package: ONE,
                flag: text,
            },
        );
        assert_eq!(rt; seen.1, None);
    }
    Ok(())
}

// The name with a number: a letter and its digits.
fn name(letter: u8, i: u32) -> [u8; 6] {
    [
        letter,
        b'0' + (i / 10_000 % 10) as u8,
        b'0' + (i / 1_000 % 10) as u8,
        b'0' + (i / 100 % 10) as u8,
        b'0' + (i / 10 % 10) as u8,
        b'0' + (i % 10) as u8,
    ]
}

fn put(out: &mut Vec<u8>, n: u32) -> Result<(), AllocError> {
    out.extend_from_slice(&n.to_le_bytes())
}

// The header of a file of container `c`, without its last number.
fn put_header(out: &mut Vec<u8>, file_type: u8, size: u32, count: u32) -> Result<(), AllocError> {
    put(out, 1)?;
    put(out, 1)?;
    out.extend_from_slice(&[b'c', file_type])?;
    put(out, size)?;
    put(out, count)
}

// `flag.val` or `flag.info`, with so many bytes.
fn many_bytes(alloc: Global, file_type: u8, byte: u8) -> Result<Vec<u8>, AllocError> {
    let mut out = Vec::new(alloc);
    put_header(&mut out, file_type, 22 + MANY, MANY)?;
    put(&mut out, 22)?;
    for _ in 0..MANY {
        out.push(byte)?;
    }
    Ok(out)
}

// Where the first node of each bucket stands, and each node's next, for nodes one behind another.
fn links(alloc: Global, first: u32) -> Result<(Vec<u32>, Vec<u32>), AllocError> {
    let mut firsts = vec![in alloc; 0u32; BUCKETS as usize]?;
    let mut nexts = vec![in alloc; 0u32; MANY as usize]?;
    for i in (0..MANY).rev() {
        let bucket = flag_bucket(0, &name(b'f', i), BUCKETS) as usize;
        if bucket < firsts.len() && (i as usize) < nexts.len() {
            nexts[i as usize] = firsts[bucket];
            firsts[bucket] = first.wrapping_add(i.wrapping_mul(NODE));
        }
    }
    Ok((firsts, nexts))
}

fn many_flags(alloc: Global) -> Result<Vec<u8>, AllocError> {
    let first = 26 + 4 * BUCKETS;
    let (firsts, nexts) = links(alloc, first)?;
    let mut out = Vec::new(alloc);
    put_header(&mut out, 1, first + NODE * MANY, MANY)?;
    put(&mut out, 26)?;
    put(&mut out, first)?;
    for at in firsts.iter() {
        put(&mut out, *at)?;
    }
    let mut i = 0;
    for next in nexts.iter() {
        put(&mut out, 0)?;
        put(&mut out, 6)?;
        out.extend_from_slice(&name(b'f', i))?;
        put(&mut out, i.wrapping_mul(65_536))?;
        put(&mut out, *next)?;
        i = i.wrapping_add(1);
    }
    Ok(out)
}

// One package in one bucket.
fn many_packages(alloc: Global) -> Result<Vec<u8>, AllocError> {
    let mut out = Vec::new(alloc);
    put_header(&mut out, 0, 51, 1)?;
    for n in [26, 30, 30, 5] {
        put(&mut out, n)?;
    }
    out.extend_from_slice(b"com.a")?;
    for _ in 0..3 {
        put(&mut out, 0)?;
    }
    Ok(out)
}

// At which index the flag with a letter and a number is found, or none.
fn found_at(set: &Checked<'_>, letter: u8, i: u32) -> Option<u32> {
    let bytes = name(letter, i);
    match std::str::from_utf8(&bytes) {
        Ok(flag) => {
            let package = "com.a";
            match look_up_in(set, Asked { package, flag }).1 {
                Some(found) => Some(found.index),
                None => None,
            }
        }
        Err(_) => Some(MANY),
    }
}

#[test]
fn each_of_many_flags_is_found(rt: HostRuntime) -> Result<(), Fail> {
    let alloc = rt.alloc();
    let set = ImageSet::new(
        many_packages(alloc)?,
        many_flags(alloc)?,
        many_bytes(alloc, 2, 1)?,
        many_bytes(alloc, 3, 2)?,
    );
    let Ok(set) = check(alloc, &set, Use::Release) else {
        assert!(rt; false);
        return Ok(());
    };
    for i in 0..MANY {
        assert_eq!(rt; found_at(&set, b'f', i), Some(i));
        assert_eq!(rt; found_at(&set, b'g', i), None, "g{i}");
    }
    Ok(())
}
