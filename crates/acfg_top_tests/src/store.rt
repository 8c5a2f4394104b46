use acfg_base::{ContainerName, OutOfMemory};
use acfg_images::FileType;
use acfg_store::{
    LocalOverride, OverrideFile, Part, Recorded, Slot, file_name, read_locals, read_pointer,
    read_records, write_locals, write_pointer, write_records,
};
use std::alloc::Global;
use std::process::Abort;
use std::test::Fail;

#[test]
fn names_are_spelled(rt: HostRuntime) -> Result<(), Fail> {
    let table = [
        ("", Part::Records, "d/records"),
        ("", Part::NewRecords, "d/records.new"),
        (
            "c",
            Part::Release(Slot::Zero, FileType::PackageMap),
            "d/c-r0-package.map",
        ),
        (
            "c",
            Part::Override(Slot::One, OverrideFile::Local),
            "d/c-o1-local",
        ),
        (
            "c.d",
            Part::Boot(Slot::One, FileType::FlagInfo),
            "d/c.d-b1-flag.info",
        ),
        ("c", Part::Pointer, "d/c-boot"),
        ("c", Part::NewPointer, "d/c-boot.new"),
    ];
    for (container, part, name) in table {
        assert_eq!(rt; file_name(rt.alloc(), "d", container, part)?.as_str(), name);
    }
    Ok(())
}

fn recorded(rt: &impl Abort, alloc: Global, name: &str) -> Result<Recorded, OutOfMemory> {
    Ok(Recorded {
        name: ContainerName::parse(alloc, name)?.expect(rt, "a container"),
        release: Slot::One,
        overrides: Slot::Zero,
        digest: [7; 32],
    })
}

#[test]
fn records_are_read_as_they_are_spelled(rt: HostRuntime) -> Result<(), Fail> {
    let rows = [
        recorded(&rt, rt.alloc(), "a")?,
        recorded(&rt, rt.alloc(), "a.b")?,
    ];
    let mut bytes = write_records(rt.alloc(), &rows)?;
    let header = [
        b'A', b'C', b'R', b'F', 1, 0, 0, 0, 2, 0, 0, 0, 1, 0, 0, 0, b'a', 1, 0, 7,
    ];
    assert!(rt; bytes.as_slice().starts_with(&header));
    assert_eq!(rt; bytes.len(), 12 + 39 + 41);
    let read = read_records(rt.alloc(), &bytes)?.expect(&rt, "a list of containers");
    assert_eq!(rt; read.as_slice().len(), 2);
    bytes.push(0)?;
    assert!(rt; read_records(rt.alloc(), &bytes)?.is_none());
    let twice = [
        recorded(&rt, rt.alloc(), "b")?,
        recorded(&rt, rt.alloc(), "b")?,
    ];
    assert!(rt; read_records(rt.alloc(), &write_records(rt.alloc(), &twice)?)?.is_none());
    Ok(())
}

#[test]
fn locals_and_pointers_are_read_as_they_are_spelled(rt: HostRuntime) -> Result<(), Fail> {
    let rows = [
        LocalOverride {
            index: 3,
            value: true,
        },
        LocalOverride {
            index: 258,
            value: false,
        },
    ];
    let bytes = write_locals(rt.alloc(), &rows)?;
    assert_eq!(rt;
        bytes.as_slice(),
        [2, 0, 0, 0, 3, 0, 0, 0, 1, 2, 1, 0, 0, 0].as_slice()
    );
    let read = read_locals(rt.alloc(), &bytes)?.expect(&rt, "local overrides");
    assert_eq!(rt; read.as_slice(), rows.as_slice());
    assert_eq!(rt;
        write_pointer(rt.alloc(), Slot::One)?.as_slice(),
        [1].as_slice()
    );
    assert_eq!(rt; read_pointer(&[1]), Some(Slot::One));
    assert_eq!(rt; read_pointer(&[2]), None);
    Ok(())
}
