//! Scripts over the device in memory.

use crate::calling::run;
use acfg_memdev::MemDevice;
use std::alloc::Global;
use std::test::Fail;

// The status of a rehearsal of a script beside one declarations file, on a device whose calls of these numbers fail.
fn rehearsed(
    alloc: Global,
    source: &str,
    script: &[u8],
    fails: Vec<u64>,
) -> Result<(u8, MemDevice), Fail> {
    let mut files = Vec::new(alloc);
    files.push((
        String::from_str(alloc, "rel1/flags.aconfig")?,
        Vec::from_slice(alloc, source.as_bytes())?,
    ))?;
    files.push((
        String::from_str(alloc, "S")?,
        Vec::from_slice(alloc, script)?,
    ))?;
    let mut device = MemDevice::new(alloc, files, fails)?;
    let mut words = Vec::new(alloc);
    words.push(String::from_str(alloc, "rehearse")?)?;
    words.push(String::from_str(alloc, "S")?)?;
    let status = run(alloc, &words, &mut device);
    Ok((status, device))
}

const SYSTEM: &str = "package: \"com.example.a\" container: \"system\" \
     flag { name: \"f1\" namespace: \"ns\" description: \"d\" bug: \"1\" }";

const OWN: &str = "package: \"com.example.a\" container: \"c\" \
     flag { name: \"f1\" namespace: \"ns\" description: \"d\" bug: \"1\" }";

const EXTENDED: &str = "package: \"com.example.a\" container: \"system_ext\" \
     flag { name: \"f1\" namespace: \"ns\" description: \"d\" bug: \"1\" }";

#[test]
fn scripts_are_answered_line_by_line(rt: HostRuntime) -> Result<(), Fail> {
    let alloc = rt.alloc();
    let table = [
        (
            SYSTEM,
            "0 update c rel1\n0 boot\n",
            "0 err 10 files-disagree\n0 ok\n",
        ),
        (
            OWN,
            "0 update c rel1\n0 boot",
            "0 updated 0f6c18d9bc775991b67535e086d8cae978eda2af8eb94b1098061d5c001a4acf 1\n0 ok\n",
        ),
        (
            EXTENDED,
            "7 update system_ext rel1\n7 update system rel1\n7 update system rel1\n",
            "7 err 10 files-disagree\n7 updated ed70a4ebe97858ca8ec19f7d432bb65aee32ed9c5806d1ac7b040f24231cc044 1\n\
             7 unchanged\n",
        ),
        (
            "package: \"com.a\" ! x",
            "1 update c rel1\n2 update c rel2\n",
            "1 err 9 bad-image\n2 err 8 missing-file\n",
        ),
        (
            "package: \"com.a\" # x",
            "1 update c rel1\n2 update d rel1\n",
            "1 updated f52c1185e9e1e2535b8dd58d70d0b7f2fbd865aa5c13ce604a8826a0d957e2c1 0\n\
             2 updated f52c1185e9e1e2535b8dd58d70d0b7f2fbd865aa5c13ce604a8826a0d957e2c1 0\n",
        ),
        (
            OWN,
            "0 get c com.example.a f1\n0 update c rel1\n0 get c com.example.a f1\n0 boot\n1 get c com.example.a f1\n\
             0 server c com.example.a f1 true\n0 boot\n1 get c com.example.a f1\n0 local c com.example.a f1 false\n\
             0 boot\n1 get c com.example.a f1\n0 unset c com.example.a f1\n0 unset c com.example.a f1\n",
            "0 err 2 unknown-container\n\
             0 updated 0f6c18d9bc775991b67535e086d8cae978eda2af8eb94b1098061d5c001a4acf 1\n0 err 5 no-boot-copy\n\
             0 ok\n1 false\n0 ok\n0 ok\n1 true\n0 ok\n0 ok\n1 false\n0 ok\n0 err 7 no-override\n",
        ),
        (OWN, "", ""),
        (OWN, "\n", "? bad-line 1\n"),
        (
            OWN,
            "255 boot\n\n254 boot",
            "255 ok\n? bad-line 2\n254 ok\n",
        ),
        (OWN, "0 boot\r\n0 boot", "0 err 1 bad-request\n0 ok\n"),
        (OWN, "0 bo\0ot\n\0", "0 err 1 bad-request\n? bad-line 2\n"),
        (
            OWN,
            "00 boot\n256 boot\n+1 boot\n1  boot\n1\n1 \n-1 boot\n 1 boot\n",
            "? bad-line 1\n? bad-line 2\n? bad-line 3\n1 err 1 bad-request\n? bad-line 5\n1 err 1 bad-request\n\
             ? bad-line 7\n? bad-line 8\n",
        ),
        (
            OWN,
            "0 boo\\\n0 t\n0 \\x\n",
            "? bad-line 1\n0 err 1 bad-request\n0 err 1 bad-request\n",
        ),
    ];
    for (source, script, said) in table {
        let (status, device) = rehearsed(alloc, source, script.as_bytes(), Vec::new(alloc))?;
        assert_eq!(rt; status, 0, "for {script:?}");
        assert_eq!(rt; device.said(), said.as_bytes(), "for {script:?}");
    }
    Ok(())
}

#[test]
fn scripts_of_any_bytes(rt: HostRuntime) -> Result<(), Fail> {
    let alloc = rt.alloc();
    let bytes = b"0 \xff\n\xff boot\n0 boot".as_slice();
    let (_, device) = rehearsed(alloc, OWN, bytes, Vec::new(alloc))?;
    let said = b"0 err 1 bad-request\n? bad-line 2\n0 ok\n";
    assert_eq!(rt; device.said(), said.as_slice());

    let mut script = String::from_str(alloc, "3 ")?;
    for _ in 0..4096 {
        script.push_str("a")?;
    }
    let (_, device) = rehearsed(alloc, OWN, script.as_bytes(), Vec::new(alloc))?;
    assert_eq!(rt; device.said(), b"3 err 1 bad-request\n".as_slice());
    script.push_str("a")?;
    let (_, device) = rehearsed(alloc, OWN, script.as_bytes(), Vec::new(alloc))?;
    assert_eq!(rt; device.said(), b"3 err 12 too-long\n".as_slice());
    Ok(())
}

#[test]
fn failures_end_a_script(rt: HostRuntime) -> Result<(), Fail> {
    let alloc = rt.alloc();
    // The script is read in call 0. Its first line is said in call 1, the declarations are read in call 2, and the
    // second line is said in call 3.
    let script = b"0 boot\n0 update c rel1\n0 boot\n".as_slice();
    for (call, said) in [(1, ""), (2, "0 ok\n"), (3, "0 ok\n")] {
        let (status, device) = rehearsed(alloc, OWN, script, vec![in alloc; call]?)?;
        assert_eq!(rt; status, 4, "call {call} fails");
        assert_eq!(rt; device.said(), said.as_bytes(), "call {call} fails");
    }
    Ok(())
}
