//! Names, paths and releases.

use acfg_base::{ContainerName, Entry, Kind, Name, OutOfMemory, PackageName, Release, is_path};
use std::alloc::Global;
use std::process::Abort;
use std::test::Fail;

// Types that threads share.
fn share<T: Send + Sync>(value: &T) -> &T {
    value
}

fn entry(
    rt: &impl Abort,
    alloc: Global,
    names: (&str, &str),
    kind: Kind,
    value: bool,
) -> Result<Entry, OutOfMemory> {
    Ok(Entry {
        package: PackageName::parse(alloc, names.0)?.expect(rt, "a package"),
        flag: Name::parse(alloc, names.1)?.expect(rt, "a name"),
        kind,
        value,
    })
}

#[test]
fn names_are_parsed_by_their_rules(rt: HostRuntime) -> Result<(), Fail> {
    // A text, and whether it names a flag, a package and a container.
    let table = [
        ("f", true, false, true),
        ("a_1", true, false, true),
        ("com.a", false, true, true),
        ("com.a.b_2", false, true, true),
        ("", false, false, false),
        ("1a", false, false, false),
        ("_a", false, false, false),
        ("a__b", false, false, false),
        ("A", false, false, false),
        ("a.", false, false, false),
        (".a", false, false, false),
        ("a..b", false, false, false),
        ("a-b", false, false, false),
    ];
    for (text, flag, package, container) in table {
        assert_eq!(rt;
            share(&Name::parse(rt.alloc(), text)?).is_some(),
            flag,
            "{text}"
        );
        assert_eq!(rt;
            share(&PackageName::parse(rt.alloc(), text)?).is_some(),
            package,
            "{text}"
        );
        assert_eq!(rt;
            share(&ContainerName::parse(rt.alloc(), text)?).is_some(),
            container,
            "{text}"
        );
    }
    let name = Name::parse(rt.alloc(), "new_page")?.expect(&rt, "a name");
    assert_eq!(rt; share(&name).as_str(), "new_page");
    Ok(())
}

#[test]
fn paths_are_told_from_other_texts(rt: HostRuntime) {
    let table = [
        ("a", true),
        ("-a b/\u{fc}", true),
        ("", false),
        ("a\nb", false),
    ];
    for (text, path) in table {
        assert_eq!(rt; is_path(text), path, "{text}");
    }
}

#[test]
fn releases_are_sorted_and_refuse_twins(rt: HostRuntime) -> Result<(), Fail> {
    let mut entries = Vec::new(rt.alloc());
    entries.push(entry(&rt, rt.alloc(), ("com.b", "f"), Kind::ReadOnly, true)?)?;
    entries.push(entry(&rt, rt.alloc(), ("com.a", "z"), Kind::Fixed, false)?)?;
    entries.push(entry(&rt, rt.alloc(), ("com.a", "f"), Kind::ReadWrite, true)?)?;
    let release = Release::new(rt.alloc(), entries)?.expect(&rt, "a release");
    assert_eq!(rt;
        share(&release).get("com.a", "f"),
        Some((Kind::ReadWrite, true))
    );
    assert_eq!(rt; release.get("com.a", "z"), Some((Kind::Fixed, false)));
    assert_eq!(rt; release.get("com.b", "f"), Some((Kind::ReadOnly, true)));
    assert_eq!(rt; release.get("com.b", "z"), None);
    let mut flags = release
        .entries()
        .iter()
        .map(|e| (e.package.as_str(), e.flag.as_str()));
    assert_eq!(rt; flags.next(), Some(("com.a", "f")));
    assert_eq!(rt; flags.next(), Some(("com.a", "z")));
    assert_eq!(rt; flags.next(), Some(("com.b", "f")));
    assert_eq!(rt; flags.next(), None);
    let mut entries = release.into_entries();
    entries.push(entry(&rt, rt.alloc(), ("com.a", "f"), Kind::ReadOnly, false)?)?;
    assert!(rt; Release::new(rt.alloc(), entries)?.is_none());
    Ok(())
}
