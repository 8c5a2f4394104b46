ghost use Rattle.std.specs.Prelude.{IfOk, None};
ghost use Rattle.acfg_model.specs.Step.{Fits, IsLoadedFor};

use acfg_model::{Loaded, Machine, Reply, Request};
use acfg_base::{ContainerName, Entry, Kind, Name, OutOfMemory, PackageName, Release, Text};
use std::alloc::{AllocError, Global};
use std::process::Abort;
use std::test::Fail;

// What a row of a table asks: the word of the request, the container, the flag of `com.a`, and the value.
type Asked<'a> = (&'a str, &'a str, &'a str, bool);

fn names(
    rt: &impl Abort,
    alloc: Global,
    asked: Asked<'_>,
) -> Result<(ContainerName, PackageName, Name), OutOfMemory> {
    Ok((
        ContainerName::parse(alloc, asked.1)?.expect(rt, "a container"),
        PackageName::parse(alloc, "com.a")?.expect(rt, "a package"),
        Name::parse(alloc, asked.2)?.expect(rt, "a flag"),
    ))
}

// The request of a row, which is no update.
fn request(rt: &impl Abort, alloc: Global, asked: Asked<'_>) -> Result<Request, OutOfMemory>
    ensures { IfOk result (λ request. IsLoadedFor request None) }
{
    let (container, package, flag) = names(rt, alloc, asked)?;
    let value = asked.3;
    Ok(match asked.0 {
        "server" => Request::Server {
            container,
            package,
            flag,
            value,
        },
        "local" | "local-now" => Request::Local {
            container,
            package,
            flag,
            value,
            now: asked.0 == "local-now",
        },
        "unset" | "unset-now" => Request::Unset {
            container,
            package,
            flag,
            now: asked.0 == "unset-now",
        },
        "get" => Request::Get {
            container,
            package,
            flag,
        },
        _ => Request::Boot,
    })
}

// A reply as one word.
fn told(alloc: Global, reply: Reply) -> Result<String, AllocError> {
    match reply {
        Reply::Fine => String::from_str(alloc, "ok"),
        Reply::Updated(digest, count) => format!(in alloc; "updated-{}-{count}", digest[31]),
        Reply::Unchanged => String::from_str(alloc, "unchanged"),
        Reply::Value(None) => String::from_str(alloc, "none"),
        Reply::Value(Some(value)) => format!(in alloc; "{value}"),
        Reply::Refused(number) => format!(in alloc; "{number}"),
    }
}

// The reply to one row.
fn answer(
    rt: &impl Abort,
    machine: &mut Machine,
    alloc: Global,
    asked: Asked<'_>,
) -> Result<String, OutOfMemory> {
    let request = request(rt, alloc, asked)?;
    let reply = machine.step(alloc, &request, None)?;
    Ok(told(alloc, reply)?)
}

// The replies to rows, one after another, each with a space in front.
fn answers(
    rt: &impl Abort,
    machine: &mut Machine,
    alloc: Global,
    rows: &[Asked<'_>],
) -> Result<String, OutOfMemory> {
    let mut said = String::new(alloc);
    for row in rows {
        let word = answer(rt, machine, alloc, *row)?;
        said.push_str(" ")?;
        said.push_str(word.as_str())?;
    }
    Ok(said)
}

// The reply to an update.
fn updated(
    rt: &impl Abort,
    machine: &mut Machine,
    alloc: Global,
    container: &str,
    loaded: Loaded,
) -> Result<String, OutOfMemory>
    requires { Fits loaded }
{
    let request = Request::Update {
        container: ContainerName::parse(alloc, container)?.expect(rt, "a container"),
        dir: Text::new(String::from_str(alloc, "rel")?),
    };
    let reply = machine.step(alloc, &request, Some(loaded))?;
    Ok(told(alloc, reply)?)
}

// A release of package `com.a`, with a digest of one byte.
fn release(
    rt: &impl Abort,
    alloc: Global,
    digest: u8,
    flags: &[(&str, Kind, bool)],
) -> Result<Loaded, OutOfMemory>
    ensures { IfOk result Fits }
{
    let mut entries = Vec::new(alloc);
    for (name, kind, value) in flags {
        let (_, package, flag) = names(rt, alloc, ("get", "c", name, false))?;
        entries.push(Entry {
            package,
            flag,
            kind: *kind,
            value: *value,
        })?;
    }
    let release = Release::new(alloc, entries)?.expect(rt, "no twins");
    assert!(rt; release.len() < 4_294_967_296);
    Ok(Loaded::Release([digest; 32], release))
}

const FIRST: [(&str, Kind, bool); 3] = [
    ("f", Kind::ReadWrite, false),
    ("k", Kind::ReadOnly, true),
    ("x", Kind::Fixed, false),
];

const SECOND: [(&str, Kind, bool); 4] = [
    ("a", Kind::ReadWrite, true),
    ("f", Kind::ReadWrite, true),
    ("k", Kind::ReadOnly, true),
    ("x", Kind::Fixed, false),
];

// The reply to an update by a release with a digest of one byte.
fn released(
    rt: &impl Abort,
    machine: &mut Machine,
    alloc: Global,
    container: &str,
    digest: u8,
    flags: &[(&str, Kind, bool)],
) -> Result<String, OutOfMemory> {
    let loaded = release(rt, alloc, digest, flags)?;
    updated(rt, machine, alloc, container, loaded)
}

// What a machine shows of its containers: the name, and how many flags and overrides it has.
fn shown(alloc: Global, machine: &Machine) -> Result<String, OutOfMemory> {
    let state = machine.view(alloc)?;
    let mut said = String::new(alloc);
    for container in state.as_slice() {
        let name = container.name.as_str();
        let flags = container.release.len();
        let server = container.server.as_slice().len();
        let local = container.local.as_slice().len();
        let word = format!(in alloc; "{name}: {flags} {server} {local};")?;
        said.push_str(word.as_str())?;
    }
    Ok(said)
}

const ROLLOUT: [Asked<'static>; 10] = [
    ("server", "c", "f", true),
    ("local", "c", "f", false),
    ("boot", "c", "f", false),
    ("get", "c", "f", false),
    ("unset", "c", "f", false),
    ("get", "c", "f", false),
    ("boot", "c", "f", false),
    ("get", "c", "f", false),
    ("get", "c", "k", false),
    ("get", "c", "a", false),
];

#[test]
fn overrides_count_from_the_next_boot(rt: HostRuntime) -> Result<(), Fail> {
    let alloc = rt.alloc();
    let mut m = Machine::new(alloc);
    let said = released(&rt, &mut m, alloc, "c", 1, &FIRST)?;
    assert_eq!(rt; said.as_str(), "updated-1-3");
    let said = answers(&rt, &mut m, alloc, &ROLLOUT)?;
    assert_eq!(rt; said.as_str(), " ok ok ok false ok false ok true true none");
    assert_eq!(rt; m.boot_value("c", "com.a", "f"), Some(true));
    assert_eq!(rt; m.boot_value("d", "com.a", "f"), None);
    let said = released(&rt, &mut m, alloc, "c", 1, &SECOND)?;
    assert_eq!(rt; said.as_str(), "unchanged");
    let said = released(&rt, &mut m, alloc, "c", 2, &SECOND)?;
    assert_eq!(rt; said.as_str(), "updated-2-4");
    let said = shown(alloc, &m)?;
    assert_eq!(rt; said.as_str(), "c: 4 1 0;");
    Ok(())
}

const AT_ONCE: [Asked<'static>; 8] = [
    ("local-now", "c", "f", true),
    ("boot", "c", "f", false),
    ("local-now", "c", "k", false),
    ("unset-now", "c", "k", false),
    ("local-now", "c", "f", true),
    ("get", "c", "f", false),
    ("unset", "c", "f", false),
    ("get", "c", "f", false),
];

const AFTER_AN_UPDATE: [Asked<'static>; 6] = [
    ("get", "c", "a", false),
    ("local-now", "c", "a", true),
    ("local-now", "c", "f", false),
    ("get", "c", "f", false),
    ("unset-now", "c", "f", false),
    ("get", "c", "f", false),
];

#[test]
fn an_override_for_now_counts_at_once(rt: HostRuntime) -> Result<(), Fail> {
    let alloc = rt.alloc();
    let mut m = Machine::new(alloc);
    released(&rt, &mut m, alloc, "c", 1, &FIRST)?;
    let said = answers(&rt, &mut m, alloc, &AT_ONCE)?;
    assert_eq!(rt; said.as_str(), " 5 ok 4 7 ok true ok true");
    released(&rt, &mut m, alloc, "c", 2, &SECOND)?;
    let said = answers(&rt, &mut m, alloc, &AFTER_AN_UPDATE)?;
    assert_eq!(rt; said.as_str(), " none 6 ok false ok true");
    Ok(())
}

const REFUSED: [Asked<'static>; 11] = [
    ("server", "d", "f", true),
    ("server", "c", "zz", true),
    ("server", "c", "k", true),
    ("local", "d", "f", true),
    ("local", "c", "zz", true),
    ("local", "c", "x", true),
    ("unset", "d", "f", true),
    ("unset", "c", "zz", true),
    ("unset", "c", "k", true),
    ("get", "d", "f", true),
    ("get", "c", "f", true),
];

#[test]
fn each_refusal_has_its_number(rt: HostRuntime) -> Result<(), Fail> {
    let alloc = rt.alloc();
    let mut m = Machine::new(alloc);
    released(&rt, &mut m, alloc, "c", 1, &FIRST)?;
    let said = answers(&rt, &mut m, alloc, &REFUSED)?;
    assert_eq!(rt; said.as_str(), " 2 3 4 2 3 4 2 3 7 2 5");
    for (loaded, number) in [
        (Loaded::Missing, "8"),
        (Loaded::Bad, "9"),
        (Loaded::Disagree, "10"),
    ] {
        let said = updated(&rt, &mut m, alloc, "c", loaded)?;
        assert_eq!(rt; said.as_str(), number);
    }
    for number in 1..256 {
        let name = format!(in alloc; "c{number}")?;
        let said = released(&rt, &mut m, alloc, name.as_str(), 1, &[])?;
        assert_eq!(rt; said.as_str(), "updated-1-0");
    }
    let said = released(&rt, &mut m, alloc, "d", 1, &[])?;
    assert_eq!(rt; said.as_str(), "11");
    Ok(())
}
