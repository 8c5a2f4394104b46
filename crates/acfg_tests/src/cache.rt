//! The worked caches, each fault once, every cut of a cache, and known fields with other types.

use acfg_base::{ContainerName, Name, PackageName, Sequence, Text};
use acfg_cache::*;
use acfg_decls::{Flag, Flags, Point, Purpose};
use acfg_wire::WireFault;
use std::alloc::Global;
use std::test::Fail;

/// The cache of one plain flag: package `com.a`, name `f`, namespace `n`, description `d`, bug `1`, DISABLED and
/// READ_WRITE, one trace of the source `d.aconfig`, container `c`.
const PLAIN: [u8; 49] = [
    0x0a, 0x2f, 0x0a, 0x05, b'c', b'o', b'm', b'.', b'a', 0x12, 0x01, b'f', 0x1a, 0x01, b'n', 0x22,
    0x01, b'd', 0x2a, 0x01, b'1', 0x30, 0x02, 0x38, 0x02, 0x42, 0x0f, 0x0a, 0x09, b'd', b'.', b'a',
    b'c', b'o', b'n', b'f', b'i', b'g', 0x10, 0x02, 0x18, 0x02, 0x48, 0x00, 0x50, 0x00, 0x5a, 0x01,
    b'c',
];

fn name(alloc: Global, text: &str) -> Result<Name, Fail> {
    Ok(Name::parse(alloc, text)?.ok_or("no name")?)
}

fn text(alloc: Global, text: &str) -> Result<Text, Fail> {
    Ok(Text::new(String::from_str(alloc, text)?))
}

fn plain_flag(alloc: Global, flag: &str, enabled: bool) -> Result<Flag, Fail> {
    Ok(Flag {
        package: PackageName::parse(alloc, "com.a")?.ok_or("no package")?,
        name: name(alloc, flag)?,
        namespace: name(alloc, "n")?,
        description: text(alloc, "d")?,
        bugs: Sequence::from_vec(vec![in alloc; text(alloc, "1")?]?),
        enabled,
        writable: true,
        trace: Sequence::from_vec(vec![in alloc;
            Point {
                source: text(alloc, "d.aconfig")?,
                enabled: false,
                writable: true,
            },
        ]?),
        fixed: false,
        exported: false,
        container: ContainerName::parse(alloc, "c")?.ok_or("no container")?,
        purpose: None,
    })
}

fn flags_of(alloc: Global, flag: Flag) -> Result<Flags, Fail> {
    Ok(Flags::new(alloc, vec![in alloc; flag]?)?.ok_or("no flags")?)
}

/// The plain cache with other bytes behind those of its flag.
fn with_more(alloc: Global, more: &[u8]) -> Result<Vec<u8>, Fail> {
    let len = u8::try_from(PLAIN.len() - 2 + more.len())?;
    let mut bytes = Vec::new(alloc);
    bytes.push(0x0a)?;
    bytes.push(len)?;
    bytes.extend_from_slice(&PLAIN[2..])?;
    bytes.extend_from_slice(more)?;
    Ok(bytes)
}

/// The plain flag, and the same with another name of one byte.
fn two_flags(alloc: Global, name: u8) -> Result<Vec<u8>, Fail> {
    let mut bytes = Vec::new(alloc);
    bytes.extend_from_slice(&PLAIN)?;
    bytes.extend_from_slice(&PLAIN[..11])?;
    bytes.push(name)?;
    bytes.extend_from_slice(&PLAIN[12..])?;
    Ok(bytes)
}

#[test]
fn plain_flags_are_written_and_read(rt: HostRuntime) -> Result<(), Fail> {
    let alloc = rt.alloc();
    let flags = flags_of(alloc, plain_flag(alloc, "f", false)?)?;
    let bytes = encode(alloc, &flags)?;
    assert_eq!(rt; bytes.as_slice(), PLAIN.as_slice());
    let again = encode(alloc, &decode(alloc, &bytes)?)?;
    assert_eq!(rt; again.as_slice(), PLAIN.as_slice());
    Ok(())
}

/// Fields behind those of the plain flag, and what becomes of them: the first fault, or whether the flag is enabled.
const MORE: [(&[u8], Result<bool, CacheFault>); 16] = [
    // The state once more, and an unknown field 15: the last state counts.
    (&[0x30, 0x01, 0x78, 0x05], Ok(true)),
    // A state that is no state, also where a later one is.
    (&[0x30, 0x03, 0x30, 0x01], Err(CacheFault::BadEnum(0))),
    // 2 and 2 to the 32nd.
    (
        &[0x30, 0x82, 0x80, 0x80, 0x80, 0x10],
        Err(CacheFault::BadEnum(0)),
    ),
    // A bool is true for 2, and a field of another type is skipped.
    (&[0x50, 0x02, 0x32, 0x01, b'x'], Ok(false)),
    // The flag's own fields aren't whole: the last key, at 49, has no value.
    (&[0x30], Err(CacheFault::Wire(WireFault::Truncated(49)))),
    // A trace and metadata whose fields aren't whole, with places in the whole cache.
    (
        &[0x42, 0x02, 0x10, 0x80],
        Err(CacheFault::Wire(WireFault::Truncated(51))),
    ),
    (
        &[0x62, 0x01, 0x0b, 0x30, 0x07],
        Err(CacheFault::Wire(WireFault::BadType(51))),
    ),
    // A text that isn't UTF-8 comes before a bad number behind it.
    (&[0x2a, 0x01, 0xff, 0x30, 0x07], Err(CacheFault::BadText(0))),
    // A trace without permission.
    (
        &[0x42, 0x05, 0x0a, 0x01, b's', 0x10, 0x01],
        Err(CacheFault::Missing(0)),
    ),
    // A bad number comes before what is missing.
    (&[0x42, 0x02, 0x10, 0x03], Err(CacheFault::BadEnum(0))),
    // An empty package is there, and is no lawful name.
    (&[0x0a, 0x00], Err(CacheFault::BadName(0))),
    (&[0x5a, 0x01, b'C'], Err(CacheFault::BadName(0))),
    // Fixed and READ_WRITE.
    (&[0x48, 0x01], Err(CacheFault::BadPermission(0))),
    (&[0x48, 0x01, 0x38, 0x01], Ok(false)),
    // An empty description, and a second bug.
    (&[0x22, 0x00, 0x2a, 0x01, b'2'], Ok(false)),
    // Metadata whose purpose is unknown.
    (&[0x62, 0x02, 0x08, 0x03], Err(CacheFault::BadEnum(0))),
];

#[test]
fn further_fields_are_read_or_refused(rt: HostRuntime) -> Result<(), Fail> {
    for (more, expected) in MORE {
        let bytes = with_more(rt.alloc(), more)?;
        match decode(rt.alloc(), &bytes) {
            Ok(flags) => {
                assert_eq!(rt; Ok(flags.list().iter().all(|flag| flag.enabled)), expected);
            }
            Err(fault) => assert_eq!(rt; Err(fault), expected),
        }
    }
    Ok(())
}

#[test]
fn the_last_purpose_of_several_metadata_counts(rt: HostRuntime) -> Result<(), Fail> {
    // A purpose, another one, and metadata without any.
    let more = [0x62, 0x02, 0x08, 0x01, 0x62, 0x02, 0x08, 0x02, 0x62, 0x00];
    let bytes = with_more(rt.alloc(), &more)?;
    let flags = decode(rt.alloc(), &bytes)?;
    let flag = flags.list().first().ok_or("no flag")?;
    assert_eq!(rt; flag.purpose, Some(Purpose::Bugfix));
    Ok(())
}

#[test]
fn flags_stand_in_order(rt: HostRuntime) -> Result<(), Fail> {
    let alloc = rt.alloc();
    assert_eq!(rt;
        decode(alloc, &two_flags(alloc, b'f')?).err(),
        Some(CacheFault::Duplicate(1))
    );
    assert_eq!(rt;
        decode(alloc, &two_flags(alloc, b'e')?).err(),
        Some(CacheFault::Unsorted(1))
    );
    assert_eq!(rt; decode(alloc, &two_flags(alloc, b'g')?)?.list().len(), 2);
    Ok(())
}

#[test]
fn each_cut_of_a_cache_is_refused(rt: HostRuntime) {
    for len in 1..PLAIN.len() {
        let fault = CacheFault::Wire(WireFault::Truncated(0));
        assert_eq!(rt;
            decode(rt.alloc(), &PLAIN[..len]).err(),
            Some(fault),
            "{len}"
        );
    }
}

#[test]
fn known_fields_of_other_types_are_skipped(rt: HostRuntime) -> Result<(), Fail> {
    for number in 1..=12u8 {
        // As a varint, eight bytes, a length and bytes, and four bytes.
        let fields: [&[u8]; 4] = [
            &[number * 8, 0xff, 0x7f],
            &[number * 8 + 1, 1, 2, 3, 4, 5, 6, 7, 8],
            &[number * 8 + 2, 1, 0xff],
            &[number * 8 + 5, 1, 2, 3, 4],
        ];
        for (place, field) in fields.iter().enumerate() {
            let is_number = matches!(number, 6 | 7 | 9 | 10);
            let counts = (place == 0 && is_number) || (place == 2 && !is_number);
            let bytes = with_more(rt.alloc(), field)?;
            assert!(rt;
                counts || decode(rt.alloc(), &bytes).is_ok(),
                "{number} {place}"
            );
        }
    }
    Ok(())
}

#[test]
fn lists_are_merged(rt: HostRuntime) -> Result<(), Fail> {
    let alloc = rt.alloc();
    let lists = vec![in alloc;
        flags_of(alloc, plain_flag(alloc, "g", false)?)?,
        flags_of(alloc, plain_flag(alloc, "f", false)?)?,
        flags_of(alloc, plain_flag(alloc, "f", false)?)?,
        flags_of(alloc, plain_flag(alloc, "f", true)?)?,
    ]?;
    assert_eq!(rt; lists.len(), 4);
    assert_eq!(rt; merge(alloc, &lists[..3], true)?.list().len(), 2);
    assert_eq!(rt; clash(merge(alloc, &lists[..3], false)), Some(2));
    assert_eq!(rt; clash(merge(alloc, &lists, true)), Some(3));
    Ok(())
}

/// The position of the list that clashes.
fn clash(answer: Result<Flags, MergeFault>) -> Option<usize> {
    match answer {
        Err(MergeFault::Clash(list, _)) => Some(list),
        _ => None,
    }
}
