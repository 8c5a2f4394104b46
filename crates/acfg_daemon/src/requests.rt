//! Requests: the text of each, and what a text asks for.

ghost use Rattle.std.specs.Prelude.{◌≡◌, ◌==◌, ◌↔◌, ◌∷◌, map, IfOk, IsTrue};
ghost use Rattle.std.specs.Option.{SomeIff};
ghost use Rattle.std.specs.List.{slice_split};
ghost use Rattle.acfg_base.specs.Found.{Finds};
ghost use Rattle.acfg_base.specs.Names.{IsContainer, IsPackage, IsName};
ghost use Rattle.acfg_base.specs.Bytes.{space};
ghost use Rattle.acfg_base.specs.Paths.{IsPathInLine};
ghost use Rattle.acfg_base.specs.Words.{bool_word};
ghost use Rattle.acfg_daemon.specs.Requests.{Spells, AreWords};
ghost use Rattle.acfg_daemon.specs.Bodies.{verb_word};

use acfg_base::{ContainerName, Name, OutOfMemory, PackageName, Text, is_path};
use acfg_model::Request;
use std::alloc::{AllocError, Global};
use std::str;

// The most words of a request; a text may have more.
const MOST_WORDS: usize = 5;

/// The first word of a request; that of a local override tells whether it is for now.
#[derive(Clone, Copy, Debug)]
enum Verb {
    Update,
    Server,
    Local(bool),
    Unset(bool),
    Boot,
    Get,
}

/// What a flag's words name.
#[derive(Debug, Drop)]
struct Key {
    container: ContainerName,
    package: PackageName,
    flag: Name,
}

/// The request that bytes spell, and none exactly where they spell none.
///
/// A request is its words with one space between each two and none at either end: `update C DIR`,
/// `server C P F V`, `local C P F V`, `local-now C P F V`, `unset C P F`, `unset-now C P F`, `boot` or `get C P F`,
/// where `C`, `P` and `F` are lawful names, `V` is `true` or `false`, and `DIR` is a path.
pub fn parse_request(alloc: Global, bytes: &[u8]) -> Result<Option<Request>, OutOfMemory>
    ensures found { IfOk result (Finds (Spells bytes.now)) }
{
    let Ok(text) = str::from_utf8(bytes) else {
        return Ok(None);
    };
    let words = split_words(alloc, text)?;
    read_words(alloc, &words)
}

fn split_words<'a>(alloc: Global, text: &'a str) -> Result<Vec<&'a str>, AllocError>
    ensures { IfOk result (λ words. map (λ word. word.now) words.items ≡ slice_split (λ byte. byte == space) text.now) }
{
    let mut words = Vec::with_capacity(alloc, MOST_WORDS)?;
    let mut rest = text;
    while let Some((word, behind)) = rest.split_once(' ') {
        words.push(word)?;
        rest = behind;
    }
    words.push(rest)?;
    Ok(words)
}

fn read_words(alloc: Global, words: &[&str]) -> Result<Option<Request>, OutOfMemory>
    ensures { IfOk result (Finds (AreWords (map (λ word. word.now) words.now))) }
{
    let [verb, rest @ ..] = words else {
        return Ok(None);
    };
    match read_verb(verb) {
        Some(Verb::Update) => update(alloc, rest),
        Some(Verb::Server) => server(alloc, rest),
        Some(Verb::Local(now)) => local(alloc, rest, now),
        Some(Verb::Unset(now)) => unset(alloc, rest, now),
        Some(Verb::Boot) => Ok(boot(rest)),
        Some(Verb::Get) => get(alloc, rest),
        None => Ok(None),
    }
}

fn read_verb(word: &str) -> Option<Verb>
    ensures { Finds (λ verb. word.now ≡ verb_word verb) result }
{
    match word {
        "update" => Some(Verb::Update),
        "server" => Some(Verb::Server),
        "local" => Some(Verb::Local(false)),
        "local-now" => Some(Verb::Local(true)),
        "unset" => Some(Verb::Unset(false)),
        "unset-now" => Some(Verb::Unset(true)),
        "boot" => Some(Verb::Boot),
        "get" => Some(Verb::Get),
        _ => None,
    }
}

fn update(alloc: Global, words: &[&str]) -> Result<Option<Request>, OutOfMemory>
    ensures { IfOk result (Finds (AreWords (verb_word Verb.Update ∷ map (λ word. word.now) words.now))) }
{
    let [container, dir] = words else {
        return Ok(None);
    };
    if !is_directory(dir) {
        return Ok(None);
    }
    let Some(container) = ContainerName::parse(alloc, container)? else {
        return Ok(None);
    };
    let dir = Text::new(String::from_str(alloc, dir)?);
    Ok(Some(Request::Update { container, dir }))
}

fn server(alloc: Global, words: &[&str]) -> Result<Option<Request>, OutOfMemory>
    ensures { IfOk result (Finds (AreWords (verb_word Verb.Server ∷ map (λ word. word.now) words.now))) }
{
    let [container, package, flag, value] = words else {
        return Ok(None);
    };
    let Some(value) = read_value(value) else {
        return Ok(None);
    };
    let Some(key) = read_key(alloc, container, package, flag)? else {
        return Ok(None);
    };
    Ok(Some(Request::Server {
        container: key.container,
        package: key.package,
        flag: key.flag,
        value,
    }))
}

fn local(alloc: Global, words: &[&str], now: bool) -> Result<Option<Request>, OutOfMemory>
    ensures { IfOk result (Finds (AreWords (verb_word (Verb.Local now) ∷ map (λ word. word.now) words.now))) }
{
    let [container, package, flag, value] = words else {
        return Ok(None);
    };
    let Some(value) = read_value(value) else {
        return Ok(None);
    };
    let Some(key) = read_key(alloc, container, package, flag)? else {
        return Ok(None);
    };
    Ok(Some(Request::Local {
        container: key.container,
        package: key.package,
        flag: key.flag,
        value,
        now,
    }))
}

fn unset(alloc: Global, words: &[&str], now: bool) -> Result<Option<Request>, OutOfMemory>
    ensures { IfOk result (Finds (AreWords (verb_word (Verb.Unset now) ∷ map (λ word. word.now) words.now))) }
{
    let [container, package, flag] = words else {
        return Ok(None);
    };
    let Some(key) = read_key(alloc, container, package, flag)? else {
        return Ok(None);
    };
    Ok(Some(Request::Unset {
        container: key.container,
        package: key.package,
        flag: key.flag,
        now,
    }))
}

fn boot(words: &[&str]) -> Option<Request>
    ensures { Finds (AreWords (verb_word Verb.Boot ∷ map (λ word. word.now) words.now)) result }
{
    match words {
        [] => Some(Request::Boot),
        _ => None,
    }
}

fn get(alloc: Global, words: &[&str]) -> Result<Option<Request>, OutOfMemory>
    ensures { IfOk result (Finds (AreWords (verb_word Verb.Get ∷ map (λ word. word.now) words.now))) }
{
    let [container, package, flag] = words else {
        return Ok(None);
    };
    let Some(key) = read_key(alloc, container, package, flag)? else {
        return Ok(None);
    };
    Ok(Some(Request::Get {
        container: key.container,
        package: key.package,
        flag: key.flag,
    }))
}

fn read_key(
    alloc: Global,
    container: &str,
    package: &str,
    flag: &str,
) -> Result<Option<Key>, OutOfMemory>
    ensures { IfOk result (λ found. SomeIff found
        (IsContainer container.now × IsPackage «package».now × IsName flag.now)
        (record { container = container.now; «package» = «package».now; flag = flag.now })) }
{
    let Some(container) = ContainerName::parse(alloc, container)? else {
        return Ok(None);
    };
    let Some(package) = PackageName::parse(alloc, package)? else {
        return Ok(None);
    };
    let Some(flag) = Name::parse(alloc, flag)? else {
        return Ok(None);
    };
    Ok(Some(Key {
        container,
        package,
        flag,
    }))
}

fn read_value(word: &str) -> Option<bool>
    ensures { Finds (λ value. word.now ≡ bool_word value) result }
{
    match word {
        "true" => Some(true),
        "false" => Some(false),
        _ => None,
    }
}

fn is_directory(path: &str) -> bool
    ensures { IsTrue result ↔ IsPathInLine path.now }
{
    is_path(path) && !path.as_bytes().contains(&b' ')
}
