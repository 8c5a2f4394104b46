//! The top call.

ghost use Rattle.std.specs.Prelude.{◌≡◌, ◌≤◌, ◌⊎◌, ◌≢◌, ℕ, List, IsTrue, IfOk, OnErr, map, string_bytes};
ghost use Rattle.acfg_device.specs.Disk.{IsSettled};
ghost use Rattle.acfg_device.specs.Left.{LeavesSince};
ghost use Rattle.acfg_device.specs.Only.{OnlySays};
ghost use Rattle.acfg_device.specs.Panel.{Files, Rose};
ghost use Rattle.acfg_store.specs.Damage.{HoldBytes};
ghost use Rattle.acfg_top.specs.Bodies.{command_of, status_of, Comes, HasNames, OfReplay};
ghost use Rattle.acfg_top.specs.Commands.{CommandGives, Gives, Only};
ghost use Rattle.acfg_top.specs.Outcome.{Answers, IsBroken, IsDone, IsStatus, Outcome, Tells, Usage};
ghost use Rattle.acfg_top.specs.Replay.{LeavesOfCommand};
ghost use Rattle.acfg_top.specs.Words.{Asks, Replay};

use crate::create_all::create_all;
use crate::create_cache::create_cache;
use crate::create_storage::create_storage;
use crate::dump::dump_caches;
use crate::ending::{Ending, Stop};
use crate::flags::flags;
use crate::query::query;
use crate::rehearsal::rehearse_script;
use crate::replay::replay_script;
use crate::told::say;
use crate::words::{Command, read_command};
use acfg_device::{Device, Panel};
use std::alloc::Global;

const USAGE: &[u8] = b"usage: acfg COMMAND WORD..\n";

/// Does all that the program does, and answers its status.
///
/// | Status | Said | Comes |
/// |---|---|---|
/// | 0 | the command's text | the command's work is done |
/// | 1 | `usage: acfg COMMAND WORD..` | the words are of no command |
/// | 2 | `refused FILE: WHAT` | an input is missing, or is refused by its named condition |
/// | 3 | `damaged FILE` | the files of a device directory stand for no state, and FILE is the first at fault |
/// | 4 | nothing more | the outside failed |
/// | 5 | nothing more | memory was refused |
pub fn run<D: Device>(alloc: Global, words: &[String], dev: &mut D) -> u8
    // Where the device tells its files and words: a status that isn't of a failure is that of the words' and files'
    // outcome, and all is done that it asks for. Whatever the outcome is, the answer is its own.
    ensures told { IsTrue D.tells → result ≢ 4 → result ≢ 5
        → Tells D.Panel (Gives (map string_bytes words.now) (D.files dev.old)) result dev.old dev.new }
    ensures exact { IsTrue D.tells → (outcome : Outcome) → Gives (map string_bytes words.now) (D.files dev.old) outcome
        → Answers D.Panel outcome result dev.old dev.new }

    // Of a replay on a settled device: what a cut of power at any moment leaves, and a settled device unless the
    // outside failed.
    ensures cut { IsTrue D.tells → IsSettled (D.account dev.old).now → (script dir : List ℕ)
        → Asks (map string_bytes words.now) (Replay script dir)
        → LeavesSince (D.account dev.old) (D.account dev.new)
        (LeavesOfCommand script dir (D.files dev.old) (D.said dev.old)) }
    ensures settled { IsTrue D.tells → IsSettled (D.account dev.old).now → (script dir : List ℕ)
        → Asks (map string_bytes words.now) (Replay script dir) → result ≢ 4 → IsSettled (D.account dev.new).now }

    // Of every device.
    ensures only { (command : _) → Asks (map string_bytes words.now) command
        → Only D.Panel command dev.old dev.new (result ≡ 4) }
    ensures only_usage { ((command : _) → Asks (map string_bytes words.now) command → ⊥)
        → OnlySays D.Panel dev.old dev.new (result ≡ 4) }
    ensures statuses { IsStatus result }
    ensures usage { ((command : _) → Asks (map string_bytes words.now) command → ⊥) → (result ≡ 1) ⊎ (result ≡ 4) }
    ensures command { (command : _) → Asks (map string_bytes words.now) command → result ≢ 1 }
    ensures count { D.faults dev.old ≤ D.faults dev.new }
    ensures failed { result ≡ 4 → Rose (D.faults dev.old) (D.faults dev.new) }
{
    match read_command(words) {
        Some(command) => status(carry_out(alloc, command, dev)),
        None => tell_usage(dev),
    }
}

// The status of a command that ends so.
fn status(answer: Result<Ending, Stop>) -> u8
    ensures { result ≡ status_of answer }
{
    match answer {
        Ok(Ending::Done) => 0,
        Ok(Ending::Refused) => 2,
        Ok(Ending::Damaged) => 3,
        Err(Stop::Failed) => 4,
        Err(Stop::OutOfMemory) => 5,
    }
}

// Tells the usage, and answers its status.
fn tell_usage<D: Device>(dev: &mut D) -> u8
    ensures status { (result ≡ 1) ⊎ (result ≡ 4) }
    ensures told { IsTrue D.tells → result ≡ 1 → IsDone D.Panel Usage dev.old dev.new }
    ensures broken { IsTrue D.tells → result ≡ 4 → IsBroken D.Panel Usage dev.old dev.new }
    ensures says { OnlySays D.Panel dev.old dev.new (result ≡ 4) }
{
    match say(dev, USAGE) {
        Ok(()) => 1,
        Err(_) => 4,
    }
}

// Does what a command asks for.
fn carry_out<D: Device>(alloc: Global, command: Command<'_>, dev: &mut D) -> Result<Ending, Stop>
    requires { HasNames (command_of command) }
    ensures told { IsTrue D.tells → IfOk result (λ ending.
        Comes D.Panel (CommandGives (command_of command.entry) (D.files dev.old)) ending dev.old dev.new) }
    ensures broken { IsTrue D.tells → OnErr result ((outcome : Outcome)
        → CommandGives (command_of command.entry) (D.files dev.old) outcome
        → IsBroken D.Panel outcome dev.old dev.new) }
    ensures cut { IsTrue D.tells → IsSettled (D.account dev.old).now → OfReplay (command_of command.entry)
        (λ script dir. LeavesSince (D.account dev.old) (D.account dev.new)
        (LeavesOfCommand script dir (D.files dev.old) (D.said dev.old))) }
    ensures settled { IsTrue D.tells → IsSettled (D.account dev.old).now → OfReplay (command_of command.entry)
        (λ script dir. (result ≡ Err Stop.Failed → ⊥) → IsSettled (D.account dev.new).now) }
    ensures only { Only D.Panel (command_of command.entry) dev.old dev.new (result ≡ Err Stop.Failed) }
    ensures count { D.faults dev.old ≤ D.faults dev.new }
    ensures failed { result ≡ Err Stop.Failed → Rose (D.faults dev.old) (D.faults dev.new) }
{
    match command {
        Command::Flags(file) => flags(alloc, file, dev),
        Command::Rehearse(script) => rehearse_script(alloc, script, dev),
        Command::Replay(script, dir) => replay_script(alloc, script, dir, dev),
        Command::Query(dir, asked) => query(alloc, dir, asked, dev),
        Command::Dump(asked) => dump_caches(alloc, asked, dev),
        Command::CreateCache(asked) => create_cache(alloc, asked, dev),
        Command::CreateStorage(asked) => create_storage(alloc, asked, dev),
        Command::CreateAll(list) => create_all(alloc, list, dev),
    }
}

/// Words and files have one outcome.
pub fn one_outcome()
    ensures { (words : List (List ℕ)) (files : Files) (outcome other : Outcome)
        → Gives words files outcome → Gives words files other → outcome ≡ other }
{}

/// It can't be that words and files have no outcome. Of a replay this is said of files of bytes, as all files are.
pub fn some_outcome()
    ensures { (words : List (List ℕ)) (files : Files)
        → ((script dir : List ℕ) → Asks words (Replay script dir) → HoldBytes files)
        → ¬ ((outcome : Outcome) → Gives words files outcome → ⊥) }
{}
