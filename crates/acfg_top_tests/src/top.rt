//! `run` over the device in memory.

use crate::calling::run;
use acfg_commit::say_line;
use acfg_device::{Failed, OutOfMemory, Panel, ReadFault};
use acfg_memdev::MemDevice;
use std::alloc::{AllocError, Global};
use std::test::Fail;

// A device with these files, whose calls of these numbers fail.
fn device(
    alloc: Global,
    files: &[(&str, &str)],
    fails: Vec<u64>,
) -> Result<MemDevice, OutOfMemory> {
    let mut held = Vec::new(alloc);
    for (name, text) in files {
        held.push((
            String::from_str(alloc, name)?,
            Vec::from_slice(alloc, text.as_bytes())?,
        ))?;
    }
    MemDevice::new(alloc, held, fails)
}

fn words(alloc: Global, texts: &[&str]) -> Result<Vec<String>, AllocError> {
    let mut words = Vec::new(alloc);
    for text in texts {
        words.push(String::from_str(alloc, text)?)?;
    }
    Ok(words)
}

const ONE_FLAG: &str = "package: \"com.example.a\" container: \"system\" \
     flag { name: \"f1\" namespace: \"ns\" description: \"d\" bug: \"1\" }";

#[test]
fn flags_are_listed_or_refused(rt: HostRuntime) -> Result<(), Fail> {
    let alloc = rt.alloc();
    let asked = words(alloc, &["flags", "FILE"])?;
    let table = [
        (
            ONE_FLAG,
            0,
            "com.example.a.f1 [system]: READ_WRITE + DISABLED\n",
        ),
        ("", 2, "refused FILE: missing-field at 0\n"),
        (
            "package: \"single\" container: \"c\"",
            2,
            "refused FILE: bad-name at 9\n",
        ),
        (
            "package: \"com.a\" container: \"c\" \
             flag { name: \"a__b\" namespace: \"n\" description: \"d\" bug: \"1\" }",
            2,
            "refused FILE: bad-name at 45\n",
        ),
        (
            "package: \"com.a\" # x",
            2,
            "refused FILE: missing-field at 20\n",
        ),
        (
            "package: \"com.\" 'a' container: \"c\"; \
             flag < name: \"\\x66\" namespace: \"n\", description: 'it\\'s' bug: [ \"b1\" ] > # end",
            0,
            "com.a.f [c]: READ_WRITE + DISABLED\n",
        ),
        (
            "package: \"com.a\" container: \"c\" \
             flag { name: \"f\" namespace: \"n\" description: \"d\" bug: [\"1\", \"2\"] }",
            2,
            "refused FILE: bug-count 2 at 37\n",
        ),
        (
            "package: \"com.android.intro\" container: \"system_ext\" flag { name: \"new_page\" \
             namespace: \"intro\" description: \"d\" bug: \"1\" is_fixed_read_only: true }",
            0,
            "com.android.intro.new_page [system]: READ_ONLY + DISABLED\n",
        ),
        (
            "package: \"com.a\" flags: 1",
            2,
            "refused FILE: unknown-field at 17\n",
        ),
        (
            "a{a{a{a{a{a{a{a{a{a{a{a{a{a{a{a{a{a{a{a{a{a{a{a{a{a{a{a{a{a{a{a{a{",
            2,
            "refused FILE: too-deep at 65\n",
        ),
        (
            "a{a{a{a{a{a{a{a{a{a{a{a{a{a{a{a{a{a{a{a{a{a{a{a{a{a{a{a{a{a{a{a{",
            2,
            "refused FILE: unexpected at 64\n",
        ),
        (
            "package:\"com.a\"container:\"system_ext\"flag{name:\"z\"namespace:\"n\"description:\"d\"bug:\"1\"}\n\
             flag{name:\"b_1\"namespace:\"n\"description:\"d\"bug:\"1\"}",
            0,
            "com.a.b_1 [system]: READ_WRITE + DISABLED\ncom.a.z [system]: READ_WRITE + DISABLED\n",
        ),
    ];
    for (text, status, said) in table {
        let mut device = device(alloc, &[("FILE", text)], Vec::new(alloc))?;
        assert_eq!(rt; run(alloc, &asked, &mut device), status, "for {text:?}");
        assert_eq!(rt; device.said(), said.as_bytes(), "for {text:?}");
    }
    Ok(())
}

#[test]
fn words_files_and_faults(rt: HostRuntime) -> Result<(), Fail> {
    let alloc = rt.alloc();
    let usage = "usage: acfg COMMAND WORD..\n";
    let table = [
        (vec![in alloc]?, 1, usage),
        (vec![in alloc; "flags"]?, 1, usage),
        (vec![in alloc; "flags", ""]?, 1, usage),
        (vec![in alloc; "flags", "-f"]?, 1, usage),
        (vec![in alloc; "flags", "a\tb"]?, 1, usage),
        (vec![in alloc; "flags", "FILE", "FILE"]?, 1, usage),
        (vec![in alloc; "flag", "FILE"]?, 1, usage),
        (vec![in alloc; "rehearse"]?, 1, usage),
        (vec![in alloc; "rehearse", "-"]?, 1, usage),
        (
            vec![in alloc; "flags", "other"]?,
            2,
            "refused other: missing\n",
        ),
    ];
    for (texts, status, said) in &table {
        let mut device = device(alloc, &[("FILE", ONE_FLAG)], Vec::new(alloc))?;
        let asked = words(alloc, texts)?;
        assert_eq!(rt; run(alloc, &asked, &mut device), *status, "for {texts:?}");
        assert_eq!(rt; device.said(), said.as_bytes(), "for {texts:?}");
    }

    // The read is call 0, and what is said is call 1.
    let asked = words(alloc, &["flags", "FILE"])?;
    for call in [0, 1] {
        let mut device = device(alloc, &[("FILE", ONE_FLAG)], vec![in alloc; call]?)?;
        assert_eq!(rt; run(alloc, &asked, &mut device), 4, "call {call} fails");
        assert_eq!(rt; device.said().len(), 0, "call {call} fails");
    }
    Ok(())
}

#[test]
fn a_script_is_rehearsed(rt: HostRuntime) -> Result<(), Fail> {
    let alloc = rt.alloc();
    let in_c = "package: \"com.example.a\" container: \"c\" \
         flag { name: \"f1\" namespace: \"ns\" description: \"d\" bug: \"1\" }";
    let script = ("S", "0 update c rel1\n0 boot\n");
    let updated =
        "0 updated 0f6c18d9bc775991b67535e086d8cae978eda2af8eb94b1098061d5c001a4acf 1\n0 ok\n";
    let table = [
        (ONE_FLAG, "S", 0, "0 err 10 files-disagree\n0 ok\n"),
        (in_c, "S", 0, updated),
        (in_c, "T", 2, "refused T: missing\n"),
    ];
    for (text, name, status, said) in table {
        let files = [script, ("rel1/flags.aconfig", text)];
        let mut device = device(alloc, &files, Vec::new(alloc))?;
        let asked = words(alloc, &["rehearse", name])?;
        assert_eq!(rt; run(alloc, &asked, &mut device), status, "for {text:?}");
        assert_eq!(rt; device.said(), said.as_bytes(), "for {text:?}");
    }

    // The script's read is call 0, the declarations' call 1, and the two lines are said in calls 2 and 3.
    let asked = words(alloc, &["rehearse", "S"])?;
    for (call, said) in [
        (0, ""),
        (1, ""),
        (2, ""),
        (3, &updated[..updated.len() - 5]),
    ] {
        let files = [script, ("rel1/flags.aconfig", in_c)];
        let mut device = device(alloc, &files, vec![in alloc; call]?)?;
        assert_eq!(rt; run(alloc, &asked, &mut device), 4, "call {call} fails");
        assert_eq!(rt; device.said(), said.as_bytes(), "call {call} fails");
    }
    Ok(())
}

// A panel that takes so many bytes more and then fails.
#[derive(Drop)]
struct Narrow {
    said: Vec<u8>,
    room: usize,
    faults: u64,
}

impl Panel for Narrow {
    ghost use Rattle.std.specs.Prelude.{false, [], refl};
    ghost use Rattle.acfg_device.proofs.Cuts.{settled_leaves, told_now};
    ghost use Rattle.acfg_device.specs.Account.{untold};
    ghost use Rattle.acfg_device.specs.Disk.{told};

    ghost tells = { false };

    ghost files = { λ panel. told untold.now };

    ghost said = { λ panel. [] };

    ghost account = { λ panel. untold };

    ghost faults = { λ panel. panel.faults };

    ghost files_told = { λ panel. refl };

    ghost said_told = { λ panel. refl };

    ghost told_now = { λ panel. told_now untold.now };

    ghost settled_leaves = { λ panel files said. settled_leaves untold.now files said };

    fn read(&mut self, _alloc: Global, _name: &str) -> Result<Option<Vec<u8>>, ReadFault> {
        Ok(None)
    }

    fn say(&mut self, bytes: &[u8]) -> Result<(), Failed> {
        let room = bytes.len().min(self.room);
        let (part, _rest) = bytes.split_at(room);
        if self.said.extend_from_slice(part).is_ok() {
            self.room -= room;
            if room == bytes.len() {
                return Ok(());
            }
        }
        self.faults = self.faults.saturating_add(1);
        Err(Failed)
    }
}

#[test]
fn a_line_is_cut_off(rt: HostRuntime) {
    let mut panel = Narrow {
        said: Vec::new(rt.alloc()),
        room: 7,
        faults: 0,
    };
    assert!(rt; say_line(&mut panel, b"com.example.a.f1").is_err());
    assert_eq!(rt; panel.said.as_slice(), b"com.exa".as_slice());
}
