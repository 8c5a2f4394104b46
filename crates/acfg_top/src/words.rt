//! The command words.

ghost use Rattle.std.specs.Prelude.{◌≡◌, ◌≢◌, ◌↔◌, [], ◌∷◌, All, IsTrue, MatchOption, codes, map, string_bytes};
ghost use Rattle.acfg_base.specs.Names.{IsContainer, IsName, IsPackage};
ghost use Rattle.acfg_top.specs.Bodies.{command_of};
ghost use Rattle.acfg_top.specs.Words.{ArePathWords, Asks, IsPathWord, IsWord};

use acfg_base::{is_container, is_name, is_package, is_path};

/// What the command words ask for.
#[derive(Clone, Copy, Debug)]
pub enum Command<'a> {
    /// `flags FILE`
    Flags(&'a str),
    /// `rehearse SCRIPT`
    Rehearse(&'a str),
    /// `replay SCRIPT DIR`
    Replay(&'a str, &'a str),
    /// `query DIR P F`
    Query(&'a str, FlagWords<'a>),
    /// `dump FORMAT FILTER FILE..`
    Dump(DumpWords<'a>),
    /// `create-cache PACKAGE CONTAINER OUT FILE..`
    CreateCache(CacheWords<'a>),
    /// `create-storage CONTAINER DIR CACHE..`
    CreateStorage(StorageWords<'a>),
    /// `create-all LIST`
    CreateAll(&'a str),
}

/// A flag as words name it: lawful names of a package and of a flag.
#[derive(Clone, Copy, Debug)]
pub struct FlagWords<'a> {
    pub package: &'a str,
    pub flag: &'a str,
}

/// How caches are dumped, and which.
#[derive(Clone, Copy, Debug)]
pub struct DumpWords<'a> {
    pub format: &'a str,
    pub filter: &'a str,
    pub files: &'a [String],
}

/// A cache to be written, and what it is made of.
#[derive(Clone, Copy, Debug)]
pub struct CacheWords<'a> {
    pub package: &'a str,
    pub container: &'a str,
    pub out: &'a str,
    pub files: &'a [String],
}

/// An image set to be written, and what it is made of.
#[derive(Clone, Copy, Debug)]
pub struct StorageWords<'a> {
    pub container: &'a str,
    pub dir: &'a str,
    pub caches: &'a [String],
}

/// What the words ask for, by position alone; nothing where they are of no command.
pub fn read_command<'a>(words: &'a [String]) -> Option<Command<'a>>
    ensures { MatchOption result
        ((asked : _) → Asks (map string_bytes words.now) asked → ⊥)
        (λ asked. Asks (map string_bytes words.now) (command_of asked)) }
{
    match words {
        [name, path] => read_with_path(name.as_str(), path.as_str()),
        [name, first, second, rest @ ..] => {
            read_with_more(name.as_str(), first.as_str(), second.as_str(), rest)
        }
        _ => None,
    }
}

// What a name and a path ask for.
fn read_with_path<'a>(name: &str, path: &'a str) -> Option<Command<'a>>
    ensures { MatchOption result
        ((asked : _) → Asks (name.now ∷ path.now ∷ []) asked → ⊥)
        (λ asked. Asks (name.now ∷ path.now ∷ []) (command_of asked)) }
{
    if !is_path_word(path) {
        return None;
    }
    if name == "flags" {
        return Some(Command::Flags(path));
    }
    if name == "rehearse" {
        return Some(Command::Rehearse(path));
    }
    if name == "create-all" {
        return Some(Command::CreateAll(path));
    }
    None
}

// What a name, two words and more ask for.
fn read_with_more<'a>(
    name: &str,
    first: &'a str,
    second: &'a str,
    rest: &'a [String],
) -> Option<Command<'a>>
    ensures { MatchOption result
        ((asked : _) → Asks (name.now ∷ first.now ∷ second.now ∷ map string_bytes rest.now) asked → ⊥)
        (λ asked. Asks (name.now ∷ first.now ∷ second.now ∷ map string_bytes rest.now) (command_of asked)) }
{
    if name == "replay" {
        return read_replay(first, second, rest);
    }
    if name == "query" {
        return read_query(first, second, rest);
    }
    if name == "dump" {
        return read_dump(first, second, rest);
    }
    read_writing(name, first, second, rest)
}

// What a name of a command that writes files, two words and more ask for.
fn read_writing<'a>(
    name: &str,
    first: &'a str,
    second: &'a str,
    rest: &'a [String],
) -> Option<Command<'a>>
    requires replay { name.now ≢ codes "replay" }
    requires query { name.now ≢ codes "query" }
    requires dump { name.now ≢ codes "dump" }
    ensures { MatchOption result
        ((asked : _) → Asks (name.now ∷ first.now ∷ second.now ∷ map string_bytes rest.now) asked → ⊥)
        (λ asked. Asks (name.now ∷ first.now ∷ second.now ∷ map string_bytes rest.now) (command_of asked)) }
{
    if name == "create-cache" {
        return read_create_cache(first, second, rest);
    }
    if name == "create-storage" {
        return read_create_storage(first, second, rest);
    }
    None
}

// What `replay` and these words ask for.
fn read_replay<'a>(script: &'a str, dir: &'a str, rest: &'a [String]) -> Option<Command<'a>>
    ensures { MatchOption result
        ((asked : _) → Asks (codes "replay" ∷ script.now ∷ dir.now ∷ map string_bytes rest.now) asked → ⊥)
        (λ asked. Asks (codes "replay" ∷ script.now ∷ dir.now ∷ map string_bytes rest.now) (command_of asked)) }
{
    match rest {
        [] => read_places(script, dir),
        _ => None,
    }
}

// What `replay` and the words of a script and a directory ask for.
fn read_places<'a>(script: &'a str, dir: &'a str) -> Option<Command<'a>>
    ensures { MatchOption result
        ((asked : _) → Asks (codes "replay" ∷ script.now ∷ dir.now ∷ []) asked → ⊥)
        (λ asked. Asks (codes "replay" ∷ script.now ∷ dir.now ∷ []) (command_of asked)) }
{
    if !is_path_word(script) {
        return None;
    }
    if !is_path_word(dir) {
        return None;
    }
    Some(Command::Replay(script, dir))
}

// What `query` and these words ask for.
fn read_query<'a>(dir: &'a str, package: &'a str, rest: &'a [String]) -> Option<Command<'a>>
    ensures { MatchOption result
        ((asked : _) → Asks (codes "query" ∷ dir.now ∷ «package».now ∷ map string_bytes rest.now) asked → ⊥)
        (λ asked. Asks (codes "query" ∷ dir.now ∷ «package».now ∷ map string_bytes rest.now) (command_of asked)) }
{
    match rest {
        [flag] => read_flag(dir, package, flag.as_str()),
        _ => None,
    }
}

// What `query` and the words of a directory and a flag ask for.
fn read_flag<'a>(dir: &'a str, package: &'a str, flag: &'a str) -> Option<Command<'a>>
    ensures { MatchOption result
        ((asked : _) → Asks (codes "query" ∷ dir.now ∷ «package».now ∷ flag.now ∷ []) asked → ⊥)
        (λ asked. Asks (codes "query" ∷ dir.now ∷ «package».now ∷ flag.now ∷ []) (command_of asked)) }
{
    if !is_path_word(dir) {
        return None;
    }
    if !are_flag_words(package, flag) {
        return None;
    }
    Some(Command::Query(dir, FlagWords { package, flag }))
}

// What `dump` and these words ask for.
fn read_dump<'a>(format: &'a str, filter: &'a str, files: &'a [String]) -> Option<Command<'a>>
    ensures { MatchOption result
        ((asked : _) → Asks (codes "dump" ∷ format.now ∷ filter.now ∷ map string_bytes files.now) asked → ⊥)
        (λ asked. Asks (codes "dump" ∷ format.now ∷ filter.now ∷ map string_bytes files.now) (command_of asked)) }
{
    if !is_word(format) {
        return None;
    }
    if !is_word(filter) {
        return None;
    }
    if !are_path_words(files) {
        return None;
    }
    Some(Command::Dump(DumpWords {
        format,
        filter,
        files,
    }))
}

// What `create-cache` and these words ask for.
fn read_create_cache<'a>(
    package: &'a str,
    container: &'a str,
    rest: &'a [String],
) -> Option<Command<'a>>
    ensures { MatchOption result
        ((asked : _) → Asks (codes "create-cache" ∷ «package».now ∷ container.now ∷ map string_bytes rest.now) asked
        → ⊥)
        (λ asked. Asks (codes "create-cache" ∷ «package».now ∷ container.now ∷ map string_bytes rest.now)
        (command_of asked)) }
{
    match rest {
        [out, files @ ..] => read_sources(package, container, out.as_str(), files),
        _ => None,
    }
}

// What `create-cache` and the words of a package, a container, a cache and files ask for.
fn read_sources<'a>(
    package: &'a str,
    container: &'a str,
    out: &'a str,
    files: &'a [String],
) -> Option<Command<'a>>
    ensures { MatchOption result
        ((asked : _)
        → Asks (codes "create-cache" ∷ «package».now ∷ container.now ∷ out.now ∷ map string_bytes files.now) asked → ⊥)
        (λ asked. Asks (codes "create-cache" ∷ «package».now ∷ container.now ∷ out.now ∷ map string_bytes files.now)
        (command_of asked)) }
{
    if !are_source_words(package, container) {
        return None;
    }
    if !is_path_word(out) {
        return None;
    }
    if !are_path_words(files) {
        return None;
    }
    Some(Command::CreateCache(CacheWords {
        package,
        container,
        out,
        files,
    }))
}

// What `create-storage` and the words of a container, a directory and caches ask for.
fn read_create_storage<'a>(
    container: &'a str,
    dir: &'a str,
    caches: &'a [String],
) -> Option<Command<'a>>
    ensures { MatchOption result
        ((asked : _) → Asks (codes "create-storage" ∷ container.now ∷ dir.now ∷ map string_bytes caches.now) asked → ⊥)
        (λ asked. Asks (codes "create-storage" ∷ container.now ∷ dir.now ∷ map string_bytes caches.now)
        (command_of asked)) }
{
    if !is_container(container.as_bytes()) {
        return None;
    }
    if !is_path_word(dir) {
        return None;
    }
    if !are_path_words(caches) {
        return None;
    }
    Some(Command::CreateStorage(StorageWords {
        container,
        dir,
        caches,
    }))
}

/// Whether a word isn't empty, has no `-` in front and no byte below 0x20.
fn is_word(word: &str) -> bool
    ensures { IsTrue result ↔ IsWord word.now }
{
    let bytes = word.as_bytes();
    !bytes.is_empty() && bytes.iter().all(|byte| *byte >= 0x20) && bytes[0] != b'-'
}

/// Whether words are the names of a package and a container.
fn are_source_words(package: &str, container: &str) -> bool
    ensures { IsTrue result ↔ (IsPackage «package».now × IsContainer container.now) }
{
    is_package(package.as_bytes()) && is_container(container.as_bytes())
}

/// Whether words are one path or more.
fn are_path_words(words: &[String]) -> bool
    ensures { IsTrue result ↔ ArePathWords (map string_bytes words.now) }
{
    !words.is_empty() && are_paths(words)
}

/// Whether each word is a path, without `-` in front.
fn are_paths(words: &[String]) -> bool
    ensures { IsTrue result ↔ All (λ word. IsPathWord (string_bytes word)) words.now }
{
    words.iter().all(|word| is_path_word(word.as_str()))
}

/// Whether a word is a path, without `-` in front.
fn is_path_word(word: &str) -> bool
    ensures { IsTrue result ↔ IsPathWord word.now }
{
    is_path(word) && word.as_bytes()[0] != b'-'
}

/// Whether words are the names of a package and a flag.
fn are_flag_words(package: &str, flag: &str) -> bool
    ensures { IsTrue result ↔ (IsPackage «package».now × IsName flag.now) }
{
    is_package(package.as_bytes()) && is_name(flag.as_bytes())
}
