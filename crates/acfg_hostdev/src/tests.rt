use crate::HostDevice;
use crate::folders::folder_of;
use acfg_device::{Device, Failed, Panel, ReadFault};
use std::alloc::Global;
use std::fs;
use std::process::Abort;
use std::rt::Files;
use std::test::Fail;

fn holds<R: Files + Print + Drop>(
    rt: &impl Abort,
    alloc: Global,
    device: &mut HostDevice<R>,
    name: &str,
    wanted: &[u8],
) -> Result<(), ReadFault> {
    let found = device.read(alloc, name)?;
    match found {
        Some(bytes) => assert!(rt; bytes.as_slice() == wanted, "in {name}"),
        None => assert!(rt; false, "there is no {name}"),
    }
    Ok(())
}

/// A name, the same file by a plain name, and the bytes that are written in turn.
const NAMES: [(&str, &str); 5] = [
    ("acfg_hostdev_test/one", "acfg_hostdev_test/one"),
    ("acfg_hostdev_test//two", "acfg_hostdev_test/two"),
    ("acfg_hostdev_test/./three", "acfg_hostdev_test/three"),
    ("acfg_hostdev_test/s/../four", "acfg_hostdev_test/four"),
    ("acfg_hostdev_test/a//b//five", "acfg_hostdev_test/a/b/five"),
];

// Each file is written long, short and in the middle, moved away and removed twice.
#[test]
fn files_of_a_real_folder(rt: HostRuntime) -> Result<(), Fail> {
    let alloc = rt.alloc();
    let mut device = HostDevice::new(rt.clone()?, alloc);
    let long = vec![in alloc; b'x'; 40_000]?;
    for (name, plain) in &NAMES {
        device.write(name, long.as_slice())?;
        holds(&rt, alloc, &mut device, plain, long.as_slice())?;
        device.write(name, b"shorter")?;
        device.write_at(name, 4, b"est")?;
        device.sync(name)?;
        holds(&rt, alloc, &mut device, plain, b"shorest")?;
        device.rename(name, "acfg_hostdev_test/kept")?;
        device.sync_names()?;
        assert_eq!(rt;
            device.read(alloc, plain)?.is_none(),
            true,
            "{plain} was moved"
        );
        holds(
            &rt,
            alloc,
            &mut device,
            "acfg_hostdev_test/kept",
            b"shorest",
        )?;
        device.remove("acfg_hostdev_test//kept")?;
        device.remove("acfg_hostdev_test//kept")?;
    }
    device.sync_names()?;
    for folder in [
        "acfg_hostdev_test/a/b",
        "acfg_hostdev_test/a",
        "acfg_hostdev_test/s",
        "acfg_hostdev_test",
    ] {
        fs::remove_dir(&rt, folder)?;
    }
    Ok(())
}

// A file that is missing, also in a missing folder, is none; what isn't a file, or is none of a folder, fails.
#[test]
fn what_the_host_cannot_hold_is_a_failure(rt: HostRuntime) -> Result<(), Fail> {
    let alloc = rt.alloc();
    let mut device = HostDevice::new(rt.clone()?, alloc);
    assert!(rt; device.read(alloc, "acfg_hostdev_none/no/such")?.is_none());
    device.write("acfg_hostdev_none/file", b"bytes")?;
    assert_eq!(rt;
        device.read(alloc, "acfg_hostdev_none").is_err(),
        true,
        "a folder is read"
    );
    assert_eq!(rt; device.write("acfg_hostdev_none", b""), Err(Failed));
    assert_eq!(rt; device.remove("acfg_hostdev_none"), Err(Failed));
    assert_eq!(rt; device.write("acfg_hostdev_none/file/x", b""), Err(Failed));
    assert_eq!(rt;
        device.read(alloc, "acfg_hostdev_none/file/x").is_err(),
        true,
        "a file is a folder"
    );
    holds(&rt, alloc, &mut device, "acfg_hostdev_none/file", b"bytes")?;
    device.remove("acfg_hostdev_none/file")?;
    fs::remove_dir(&rt, "acfg_hostdev_none")?;
    Ok(())
}

// POSIX.1-2017, `dirname`, Examples.
const FOLDERS: [(&str, &str); 9] = [
    ("/usr/lib", "/usr"),
    ("/usr/", "/"),
    ("/", "/"),
    (".", "."),
    ("..", "."),
    ("usr", "."),
    ("", "."),
    ("//a//b//", "//a"),
    ("dev//records", "dev"),
];

#[test]
fn folders_are_those_of_dirname(rt: HostRuntime) {
    for (name, folder) in &FOLDERS {
        assert_eq!(rt; folder_of(name), *folder, "the folder of {name}");
    }
}
