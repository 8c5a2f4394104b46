//! Files of known bytes: each call once on a small set, and each refusal with its number.

ghost use Rattle.std.specs.Prelude.{◌≡◌};

use acfg_base::Kind;
use acfg_views::*;
use std::marker::Brand;
use std::sync::ledger::{Blank, Ledger};
use std::test::Fail;

/// `package.map` of container `c` with the one package `com.a`, in the last of 7 buckets.
const PACKAGES: &[u8; 75] =
    b"\x01\0\0\0\x01\0\0\0c\0\x4b\0\0\0\x01\0\0\0\x1a\0\0\0\x36\0\0\0\0\0\0\0\0\0\0\0\0\0\0\0\
    \0\0\0\0\0\0\0\0\0\0\0\0\x36\0\0\0\x05\0\0\0com.a\0\0\0\0\0\0\0\0\0\0\0\0";

/// `flag.map` with the one flag `f`, which is fixed.
const FLAGS: &[u8; 71] =
    b"\x01\0\0\0\x01\0\0\0c\x01\x47\0\0\0\x01\0\0\0\x1a\0\0\0\x36\0\0\0\x36\0\0\0\0\0\0\0\0\0\
    \0\0\0\0\0\0\0\0\0\0\0\0\0\0\0\0\0\0\0\0\0\0\x01\0\0\0f\x02\0\0\0\0\0\0\0";

/// `flag.val` of the container `mockup` with eight flags, as AOSP's tests have it.
const VALUES: &[u8; 35] =
    b"\x01\0\0\0\x06\0\0\0mockup\x02\x23\0\0\0\x08\0\0\0\x1b\0\0\0\0\x01\x01\0\x01\x01\x01\x01";

fn package_at<L: Ledger>(blank: Blank, off: u32) -> Result<PackageNode<'static>, ViewFault>
    requires name { blank.name ≡ L.name }
    requires parts { blank.parts ≡ L.parts }
    requires one { L.parts ≡ 1 }
{
    let mut steps = Steps::<L>::new(blank);
    PackageMap::open(PACKAGES)?.node_at(off, &mut steps)
}

fn flag_at<L: Ledger>(blank: Blank, off: u32) -> Result<FlagNode<'static>, ViewFault>
    requires name { blank.name ≡ L.name }
    requires parts { blank.parts ≡ L.parts }
    requires one { L.parts ≡ 1 }
{
    let mut steps = Steps::<L>::new(blank);
    FlagMap::open(FLAGS)?.node_at(off, &mut steps)
}

fn read_package(off: u32) -> Result<PackageNode<'static>, ViewFault> {
    package_at::<Brand>(Blank::new(1), off)
}

fn read_flag(off: u32) -> Result<FlagNode<'static>, ViewFault> {
    flag_at::<Brand>(Blank::new(1), off)
}

#[test]
fn nodes_are_read(rt: HostRuntime) {
    let package = read_package(54);
    assert_eq!(rt;
        package,
        Ok(PackageNode {
            name: "com.a",
            id: 0,
            start: 0,
            next: 0,
            end: 75
        })
    );
    let flag = read_flag(54);
    assert_eq!(rt;
        flag,
        Ok(FlagNode {
            package_id: 0,
            name: "f",
            kind: Kind::Fixed,
            index: 0,
            next: 0,
            end: 71
        })
    );
    assert_eq!(rt; read_package(53).err(), Some(ViewFault::BadOffsets));
    assert_eq!(rt; read_package(55).err(), Some(ViewFault::Short));
    assert_eq!(rt; read_package(4_000_000_000).err(), Some(ViewFault::Short));
    assert_eq!(rt; read_flag(58).err(), Some(ViewFault::Short));
}

#[test]
fn headers_are_lent(rt: HostRuntime) {
    if let Ok(map) = PackageMap::open(PACKAGES) {
        let seen = (
            map.version(),
            map.container(),
            map.count(),
            map.buckets(),
            map.first_node(),
        );
        assert_eq!(rt; seen, (1, "c", 1, 7, 54));
    } else {
        assert!(rt; false);
    }
    if let Ok(values) = Values::open(VALUES) {
        let seen = (values.version(), values.container(), values.count());
        assert_eq!(rt; seen, (1, "mockup", 8));
    } else {
        assert!(rt; false);
    }
}

/// `flag.info` of one read-write flag without notes.
const INFOS: &[u8; 23] = b"\x01\0\0\0\x01\0\0\0c\x03\x17\0\0\0\x01\0\0\0\x16\0\0\0\x02";

fn last_package_bucket() -> Option<u32> {
    match PackageMap::open(PACKAGES) {
        Ok(map) => Some(map.bucket_at(map.buckets() - 1)),
        Err(_) => None,
    }
}

fn last_flag_bucket() -> Option<u32> {
    match FlagMap::open(FLAGS) {
        Ok(map) => Some(map.bucket_at(map.buckets() - 1)),
        Err(_) => None,
    }
}

fn value_at(i: u32) -> Option<u8> {
    match Values::open(VALUES) {
        Ok(values) if i < values.count() => Some(values.at(i)),
        _ => None,
    }
}

fn info_at(i: u32) -> Option<u8> {
    match Infos::open(INFOS) {
        Ok(infos) if i < infos.count() => Some(infos.at(i)),
        _ => None,
    }
}

#[test]
fn places_are_lent(rt: HostRuntime) {
    let buckets = (last_package_bucket(), last_flag_bucket());
    assert_eq!(rt; buckets, (Some(54), Some(0)));
    let values = (value_at(2), value_at(3), value_at(8));
    assert_eq!(rt; values, (Some(1), Some(0), None));
    assert_eq!(rt; (info_at(0), info_at(1)), (Some(2), None));
}

/// A header of `flag.val` with one byte changed, and what is told.
const CHANGED: [(usize, u8, ViewFault); 8] = [
    (0, 9, ViewFault::BadVersion(9)),
    (3, 1, ViewFault::BadVersion(16_777_217)),
    (4, 200, ViewFault::Short),
    (8, b'M', ViewFault::BadText),
    (14, 3, ViewFault::BadFileType(3)),
    (15, 36, ViewFault::BadSize(36)),
    (19, 7, ViewFault::BadOffsets),
    (23, 26, ViewFault::BadOffsets),
];

#[test]
fn the_first_fault_is_told(rt: HostRuntime) -> Result<(), Fail> {
    for (at, byte, fault) in CHANGED {
        let mut bytes = VALUES.to_vec(rt.alloc())?;
        if at < bytes.len() {
            bytes[at] = byte;
        }
        assert_eq!(rt; Values::open(&bytes).err(), Some(fault), "byte {at}");
    }
    assert_eq!(rt; Infos::open(VALUES).err(), Some(ViewFault::BadFileType(2)));
    assert_eq!(rt; Values::open(&VALUES[..18]).err(), Some(ViewFault::Short));
    assert_eq!(rt;
        Values::open(&VALUES[..19]).err(),
        Some(ViewFault::BadSize(35))
    );
    Ok(())
}
