//! Images whose bytes were computed by hand.

use acfg_base::{ContainerName, Kind, Name, PackageName, Sequence, Text};
use acfg_decls::{Flag, Flags, Point};
use acfg_images::{Use, build, check};
use std::alloc::Global;
use std::test::Fail;

/// Eight flags in three packages: the package's last byte, the name, kind and value.
const MOCKUP: [(&str, &str, Kind, bool); 8] = [
    (
        "com.android.aconfig.storage.test_1",
        "disabled_rw",
        Kind::ReadWrite,
        false,
    ),
    (
        "com.android.aconfig.storage.test_1",
        "enabled_ro",
        Kind::ReadOnly,
        true,
    ),
    (
        "com.android.aconfig.storage.test_1",
        "enabled_rw",
        Kind::ReadWrite,
        true,
    ),
    (
        "com.android.aconfig.storage.test_2",
        "disabled_rw",
        Kind::ReadWrite,
        false,
    ),
    (
        "com.android.aconfig.storage.test_2",
        "enabled_fixed_ro",
        Kind::Fixed,
        true,
    ),
    (
        "com.android.aconfig.storage.test_2",
        "enabled_ro",
        Kind::ReadOnly,
        true,
    ),
    (
        "com.android.aconfig.storage.test_4",
        "enabled_fixed_ro",
        Kind::Fixed,
        true,
    ),
    (
        "com.android.aconfig.storage.test_4",
        "enabled_rw",
        Kind::ReadWrite,
        true,
    ),
];

/// `flag.val` of container `mockup` with these flags.
const VALUES: &[u8; 35] =
    b"\x01\0\0\0\x06\0\0\0mockup\x02\x23\0\0\0\x08\0\0\0\x1b\0\0\0\0\x01\x01\0\x01\x01\x01\x01";

/// `flag.info` of container `mockup` with these flags, behind its header.
const INFOS: &[u8; 8] = b"\x02\0\x02\x02\0\0\0\x02";

/// The first bytes of `package.map`.
const PACKAGES: &[u8; 31] = b"\x01\0\0\0\x06\0\0\0mockup\0\xd1\0\0\0\x03\0\0\0\x1f\0\0\0\x3b\0\0\0";

fn lawful<T>(name: Option<T>) -> Result<T, Fail> {
    match name {
        Some(name) => Ok(name),
        None => Err("no name".into()),
    }
}

fn make_flag(
    alloc: Global,
    package: &str,
    name: &str,
    kind: Kind,
    value: bool,
) -> Result<Flag, Fail> {
    let point = Point {
        source: Text::new(String::from_str(alloc, "a")?),
        enabled: value,
        writable: kind == Kind::ReadWrite,
    };
    Ok(Flag {
        package: lawful(PackageName::parse(alloc, package)?)?,
        name: lawful(Name::parse(alloc, name)?)?,
        namespace: lawful(Name::parse(alloc, "n")?)?,
        description: Text::new(String::from_str(alloc, "d")?),
        bugs: Sequence::new(alloc),
        enabled: value,
        writable: kind == Kind::ReadWrite,
        trace: Sequence::from_vec(vec![in alloc; point]?),
        fixed: kind == Kind::Fixed,
        exported: false,
        container: lawful(ContainerName::parse(alloc, "mockup")?)?,
        purpose: None,
    })
}

fn mockup(alloc: Global) -> Result<Flags, Fail> {
    let mut list = Vec::new(alloc);
    for (package, name, kind, value) in MOCKUP {
        list.push(make_flag(alloc, package, name, kind, value)?)?;
    }
    lawful(Flags::new(alloc, list)?)
}

#[test]
fn builds_three_packages(rt: HostRuntime) -> Result<(), Fail> {
    let alloc = rt.alloc();
    let container = lawful(ContainerName::parse(alloc, "mockup")?)?;
    let caches = vec![in alloc; mockup(alloc)?]?;
    match build(alloc, &container, &caches) {
        Ok(set) => {
            assert_eq!(rt; set.flag_val(), VALUES.as_slice());
            assert!(rt; set.flag_info().ends_with(INFOS));
            assert!(rt; set.package_map().starts_with(PACKAGES));
            assert_eq!(rt; set.package_map().len(), 209);
            assert_eq!(rt; set.flag_map().len(), 321);
            assert!(rt; check(alloc, &set, Use::Release).is_ok());
        }
        Err(_) => panic!(rt; "no image"),
    }
    Ok(())
}
