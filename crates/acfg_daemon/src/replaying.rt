//! Scripts replayed on a device directory.

ghost use Rattle.std.specs.Prelude.{◌≡◌, ◌⊎◌, ◌++◌, ℕ, List, Err, IfErr, IfOk, IsTrue, OnErr, OnOk, string_bytes};
ghost use Rattle.acfg_device.specs.Disk.{IsSettled};
ghost use Rattle.acfg_device.specs.Left.{LeavesSince};
ghost use Rattle.acfg_device.specs.Only.{OnlyChanges, OnlySyncs};
ghost use Rattle.acfg_device.specs.Panel.{Files};
ghost use Rattle.acfg_model.specs.State.{State};
ghost use Rattle.acfg_store.specs.Applied.{IsOpen, state_in};
ghost use Rattle.acfg_store.specs.Commits.{LeavesState};
ghost use Rattle.acfg_store.specs.Damage.{IsDamaged};
ghost use Rattle.acfg_store.specs.Names.{IsOfDirectory};
ghost use Rattle.acfg_daemon.specs.Lines.{lines};
ghost use Rattle.acfg_daemon.specs.Playing.{BeginsSaid, IsBegun, IsPlayed, IsSaid, IsServed, IsTaken, LeavesLine};
ghost use Rattle.acfg_daemon.specs.Playing.{ServesTo};
ghost use Rattle.acfg_daemon.specs.Replayed.{HasBegun, ImageLoads, IsNoDamage, IsReplayed, LeavesOfReplay};
ghost use Rattle.acfg_daemon.specs.Replayed.{LeavesRun, OnlyAnswers, TellsDamage};
ghost use Rattle.acfg_daemon.specs.Replies.{IsNumbered};
ghost use Rattle.acfg_daemon.specs.Transcript.{Begins, Runs};

use crate::fault::DaemonFault;
use crate::lines::{Arrived, read_line, split_line};
use crate::replies::{put_bad_line, put_reply};
use crate::requests::parse_request;
use acfg_device::Device;
use acfg_model::{Refusal, Reply};
use acfg_store::Store;
use std::alloc::Global;

/// Answers a script on a device directory: one line said for each line of the script, whole, once its request is
/// committed and before the next line is taken. An update reads the four storage files of its folder.
///
/// # Errors
///
/// `Damaged` with the first file at fault, exactly where the files stand for no state; then nothing is said and no file
/// is changed. `Device` where the outside failed, and `OutOfMemory` where memory was refused: the lines before that one
/// were answered whole.
pub fn replay<D: Device>(
    alloc: Global,
    device: &mut D,
    dir: &str,
    script: &[u8],
) -> Result<(), DaemonFault>
    // Where the device tells its files and words: with `Ok` the transcript was said, from the state for which the files
    // stood, and they stand for the state after it; whatever ends the script, a first part of it was said.
    ensures told { IsTrue D.tells → OnOk result (IsReplayed (D.files device.old) (D.said device.old) dir.now script.now
        (D.files device.new) (D.said device.new)) }
    ensures begun { IsTrue D.tells → (D.said device.new ≡ D.said device.old)
        ⊎ HasBegun (D.files device.old) (D.said device.old) dir.now script.now (D.said device.new) }
    ensures damaged { IsTrue D.tells → IfErr result (TellsDamage (D.files device.old) dir.now) }

    // Where the files stand for no state, none of them is changed and nothing is said, whatever ends the script.
    ensures kept { IsTrue D.tells → (name : List ℕ) → IsDamaged (D.files device.old) dir.now name
        → (D.files device.new ≡ D.files device.old) × (D.said device.new ≡ D.said device.old) }

    // From a settled start: what a cut leaves at any moment, and a settled device unless it failed.
    ensures cut { IsTrue D.tells → IsSettled (D.account device.old).now
        → LeavesSince (D.account device.old) (D.account device.new)
        (LeavesOfReplay (D.files device.old) (D.said device.old) dir.now script.now) }
    ensures settled { IsTrue D.tells → IsSettled (D.account device.old).now → (result ≡ Err DaemonFault.Device → ⊥)
        → IsSettled (D.account device.new).now }

    // Of every device.
    ensures answers { OnlyAnswers D.Panel (IsOfDirectory dir.now) device.old device.new
        (result ≡ Err DaemonFault.Device) }
    ensures damage { (name : _) → result ≡ Err (DaemonFault.Damaged name)
        → OnlySyncs D.Panel device.old device.new ⊥ }
{
    let store = Store::open(alloc, device, dir)?;
    play(alloc, device, store, script)
}

// Answers a script on an open store.
fn play<D: Device>(
    alloc: Global,
    device: &mut D,
    opened: Store,
    script: &[u8],
) -> Result<(), DaemonFault>
    requires { IsTrue D.tells → IsOpen (D.files device.old) opened }
    ensures told { IsTrue D.tells → OnOk result (IsPlayed (D.files device.old) (D.said device.old) opened script.now
        (D.files device.new) (D.said device.new)) }
    ensures begun { IsTrue D.tells → IsBegun (D.files device.old) (D.said device.old) opened script.now
        (D.said device.new) }
    ensures cut { IsTrue D.tells → IsSettled (D.account device.old).now
        → LeavesSince (D.account device.old) (D.account device.new)
        (LeavesRun (D.files device.old) (D.said device.old) opened.dir (state_in opened) (lines script.now)) }
    ensures settled { IsTrue D.tells → IsSettled (D.account device.old).now → (result ≡ Err DaemonFault.Device → ⊥)
        → IsSettled (D.account device.new).now }
    ensures answers { OnlyAnswers D.Panel (IsOfDirectory opened.dir) device.old device.new
        (result ≡ Err DaemonFault.Device) }
    ensures fault { IfErr result IsNoDamage }
{
    let mut store = opened;
    let mut reply = String::new(alloc);
    let mut number = 0;
    let mut rest = script;
    while !rest.is_empty() {
        let (line, behind) = split_line(rest);
        number += 1;
        store = take_line(alloc, device, store, &mut reply, number, line)?;
        rest = behind;
    }
    Ok(())
}

// Answers one line, and says the answer. The text that holds it is kept for the next one.
fn take_line<D: Device>(
    alloc: Global,
    device: &mut D,
    store: Store,
    reply: &mut String,
    number: usize,
    line: &[u8],
) -> Result<Store, DaemonFault>
    requires { IsTrue D.tells → IsOpen (D.files device.old) store }
    ensures said { IsTrue D.tells → IfOk result (IsSaid (D.files device.old) (D.said device.old) store number line.now
        (D.said device.new)) }
    ensures begun { IsTrue D.tells → OnErr result (BeginsSaid (D.files device.old) (D.said device.old) store number
        line.now (D.said device.new)) }
    ensures dir { IfOk result (λ made. made.dir ≡ store.dir) }
    ensures open { IsTrue D.tells → IfOk result (IsOpen (D.files device.new)) }
    ensures cut { IsTrue D.tells → IsSettled (D.account device.old).now
        → LeavesSince (D.account device.old) (D.account device.new)
        (LeavesLine (D.files device.old) (D.said device.old) store number line.now) }
    ensures settled { IsTrue D.tells → IsSettled (D.account device.old).now → (result ≡ Err DaemonFault.Device → ⊥)
        → IsSettled (D.account device.new).now }
    ensures answers { OnlyAnswers D.Panel (IsOfDirectory store.dir) device.old device.new
        (result ≡ Err DaemonFault.Device) }
    ensures fault { IfErr result IsNoDamage }
{
    let store = answer(alloc, device, store, reply, number, line)?;
    device.say(reply.as_bytes())?;
    Ok(store)
}

// Gives a text the line that answers a line, once its request is committed.
fn answer<D: Device>(
    alloc: Global,
    device: &mut D,
    store: Store,
    reply: &mut String,
    number: usize,
    line: &[u8],
) -> Result<Store, DaemonFault>
    requires { IsTrue D.tells → IsOpen (D.files device.old) store }
    ensures taken { IsTrue D.tells → IfOk result (λ made. IsTaken (D.files device.old) store number line.now made
        (string_bytes reply.new)) }
    ensures dir { IfOk result (λ made. made.dir ≡ store.dir) }
    ensures open { IsTrue D.tells → IfOk result (IsOpen (D.files device.new)) }
    ensures cut { IsTrue D.tells → IsSettled (D.account device.old).now
        → LeavesSince (D.account device.old) (D.account device.new)
        (LeavesLine (D.files device.old) (D.said device.old) store number line.now) }
    ensures settled { IsTrue D.tells → IsSettled (D.account device.old).now → (result ≡ Err DaemonFault.Device → ⊥)
        → IsSettled (D.account device.new).now }
    ensures changes { OnlyChanges D.Panel (IsOfDirectory store.dir) device.old device.new
        (result ≡ Err DaemonFault.Device) }
    ensures fault { IfErr result IsNoDamage }
{
    match read_line(line) {
        Arrived::BadLine => {
            put_bad_line(reply, number)?;
            Ok(store)
        }
        Arrived::TooLong(client) => {
            let refused = Reply::Refused(Refusal::TooLong.number());
            put_reply(alloc, reply, client, &refused)?;
            Ok(store)
        }
        Arrived::Complete(client, text) => {
            let (store, served) = serve(alloc, device, store, text)?;
            put_reply(alloc, reply, client, &served)?;
            Ok(store)
        }
    }
}

// The store and the reply that a request's text makes.
fn serve<D: Device>(
    alloc: Global,
    device: &mut D,
    store: Store,
    text: &[u8],
) -> Result<(Store, Reply), DaemonFault>
    requires { IsTrue D.tells → IsOpen (D.files device.old) store }
    ensures served { IsTrue D.tells → IfOk result
        (λ made. IsServed (D.files device.old) store text.now made.0 made.1) }
    ensures numbered { IfOk result (λ made. IsNumbered made.1) }
    ensures dir { IfOk result (λ made. made.0.dir ≡ store.dir) }
    ensures open { IsTrue D.tells → IfOk result (λ made. IsOpen (D.files device.new) made.0) }
    ensures cut { IsTrue D.tells → IsSettled (D.account device.old).now
        → LeavesSince (D.account device.old) (D.account device.new) (LeavesState (D.files device.old)
        (D.said device.old) store.dir (ServesTo (D.files device.old) (state_in store) text.now)) }
    ensures settled { IsTrue D.tells → IsSettled (D.account device.old).now → (result ≡ Err DaemonFault.Device → ⊥)
        → IsSettled (D.account device.new).now }
    ensures changes { OnlyChanges D.Panel (IsOfDirectory store.dir) device.old device.new
        (result ≡ Err DaemonFault.Device) }
    ensures fault { IfErr result IsNoDamage }
{
    match parse_request(alloc, text)? {
        None => Ok((store, Reply::Refused(Refusal::BadRequest.number()))),
        Some(request) => Ok(store.apply(alloc, device, &request)?),
    }
}

/// From a state on, a script leads to one state by one transcript, where the same files are read; what begins its
/// transcript is a first part of it; and it can't be that it has none.
pub fn one_replay()
    ensures same { (files : Files) (state : State) (number : ℕ) (lines : List (List ℕ)) (after other : State)
        (text said : List ℕ) → Runs (ImageLoads files) state number lines after text
        → Runs (ImageLoads files) state number lines other said → (after ≡ other) × (text ≡ said) }
    ensures begins { (files : Files) (state : State) (number : ℕ) (lines : List (List ℕ)) (after : State)
        (part text : List ℕ) → Begins (ImageLoads files) state number lines part
        → Runs (ImageLoads files) state number lines after text → (rest : List ℕ) × (text ≡ part ++ rest) }
    ensures some { (files : Files) (state : State) (number : ℕ) (lines : List (List ℕ))
        → ¬ ((after : State) (text : List ℕ) → Runs (ImageLoads files) state number lines after text → ⊥) }
{}
