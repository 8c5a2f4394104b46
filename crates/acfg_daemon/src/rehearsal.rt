//! Scripts answered by the plain machine in memory.

ghost use Rattle.std.specs.Prelude.{◌≡◌, ◌≤◌, ◌++◌, ◌⊎◌, ℕ, List, Option, IfErr, IfOk, OnOk, OnErr, IsTrue};
ghost use Rattle.std.specs.Prelude.{string_bytes};
ghost use Rattle.std.specs.FinMap.{empty};
ghost use Rattle.acfg_device.specs.Only.{OnlyReads, OnlySays};
ghost use Rattle.acfg_device.specs.Panel.{Files, SaysPart};
ghost use Rattle.acfg_model.specs.State.{State};
ghost use Rattle.acfg_daemon.specs.Lines.{lines};
ghost use Rattle.acfg_daemon.specs.Replayed.{IsNoDamage};
ghost use Rattle.acfg_daemon.specs.Replies.{IsNumbered};
ghost use Rattle.acfg_model.specs.declared.requests.Loaded.{Loaded};
ghost use Rattle.acfg_daemon.specs.Sources.{BytesLoad, Loads};
ghost use Rattle.acfg_daemon.specs.Transcript.{Transcript, Begins, BeginsLine, LineSays, Serves};

use crate::fault::DaemonFault;
use crate::lines::{Arrived, read_line, split_line};
use crate::replies::{put_bad_line, put_reply};
use crate::requests::parse_request;
use crate::sources::load;
use acfg_device::Panel;
use acfg_model::{Machine, Refusal, Reply};
use std::alloc::Global;

/// Answers a script on an empty machine in memory: one line said for each line of the script, after its step and
/// before the next line is taken. An update reads `DIR/flags.aconfig`.
///
/// # Errors
/// `Device` where the outside failed, and `OutOfMemory` where memory was refused. The lines before that one were
/// answered whole.
pub fn rehearse<P: Panel>(alloc: Global, panel: &mut P, script: &[u8]) -> Result<(), DaemonFault>
    // Where the panel tells its files and words: with `Ok` the transcript was said; whatever ends the script, a first
    // part of it was said, and a part of each transcript.
    ensures told { IsTrue P.tells → OnOk result ((text : List ℕ)
        × Transcript (Loads (P.files panel.old)) empty 1 (lines script.now) text
        × (P.said panel.new ≡ P.said panel.old ++ text)) }
    ensures begun { IsTrue P.tells → (text : List ℕ)
        × Begins (Loads (P.files panel.old)) empty 1 (lines script.now) text
        × (P.said panel.new ≡ P.said panel.old ++ text) }
    ensures part { IsTrue P.tells → (text : List ℕ)
        → Transcript (Loads (P.files panel.old)) empty 1 (lines script.now) text
        → SaysPart (P.said panel.old) (P.said panel.new) text }

    // Of every panel.
    ensures says { OnlySays P.Panel panel.old panel.new (result ≡ Err DaemonFault.Device) }
    ensures fault { IfErr result IsNoDamage }
{
    let mut machine = Machine::new(alloc);
    let mut reply = String::new(alloc);
    let mut number = 0;
    let mut rest = script;
    while !rest.is_empty() {
        let (line, behind) = split_line(rest);
        number += 1;
        take_line(alloc, panel, &mut machine, &mut reply, number, line)?;
        rest = behind;
    }
    Ok(())
}

// Answers one line, and says the answer. The text that holds it is kept for the next one.
fn take_line<P: Panel>(
    alloc: Global,
    panel: &mut P,
    machine: &mut Machine,
    reply: &mut String,
    number: usize,
    line: &[u8],
) -> Result<(), DaemonFault>
    ensures ok { IsTrue P.tells → OnOk result ((said : List ℕ)
        × LineSays (Loads (P.files panel.old)) machine.old number line.now machine.new said
        × (P.said panel.new ≡ P.said panel.old ++ said)) }
    ensures err { IsTrue P.tells → OnErr result ((part : List ℕ)
        × BeginsLine (Loads (P.files panel.old)) machine.old number line.now part
        × (P.said panel.new ≡ P.said panel.old ++ part)) }
    ensures says { OnlySays P.Panel panel.old panel.new (result ≡ Err DaemonFault.Device) }
    ensures fault { IfErr result IsNoDamage }
{
    answer(alloc, panel, machine, reply, number, line)?;
    panel.say(reply.as_bytes())?;
    Ok(())
}

// Gives a text the line that answers a line.
fn answer<P: Panel>(
    alloc: Global,
    panel: &mut P,
    machine: &mut Machine,
    reply: &mut String,
    number: usize,
    line: &[u8],
) -> Result<(), DaemonFault>
    ensures told { IsTrue P.tells → OnOk result
        (LineSays (Loads (P.files panel.old)) machine.old number line.now machine.new (string_bytes reply.new)) }
    ensures reads { OnlyReads P.Panel panel.old panel.new (result ≡ Err DaemonFault.Device) }
    ensures fault { IfErr result IsNoDamage }
{
    match read_line(line) {
        Arrived::BadLine => Ok(put_bad_line(reply, number)?),
        Arrived::TooLong(client) => {
            let refused = Reply::Refused(Refusal::TooLong.number());
            Ok(put_reply(alloc, reply, client, &refused)?)
        }
        Arrived::Complete(client, text) => {
            let served = serve(alloc, panel, machine, text)?;
            Ok(put_reply(alloc, reply, client, &served)?)
        }
    }
}

// The reply to a request's text.
fn serve<P: Panel>(
    alloc: Global,
    panel: &mut P,
    machine: &mut Machine,
    text: &[u8],
) -> Result<Reply, DaemonFault>
    ensures told { IsTrue P.tells → IfOk result (Serves (Loads (P.files panel.old)) machine.old text.now machine.new) }
    ensures numbered { IfOk result IsNumbered }
    ensures reads { OnlyReads P.Panel panel.old panel.new (result ≡ Err DaemonFault.Device) }
    ensures fault { IfErr result IsNoDamage }
{
    let Some(request) = parse_request(alloc, text)? else {
        return Ok(Reply::Refused(Refusal::BadRequest.number()));
    };
    let loaded = load(alloc, panel, &request)?;
    Ok(machine.step(alloc, &request, loaded)?)
}

/// A script has one transcript on the same files, and what begins it is a first part of it.
pub fn one_transcript()
    ensures same { (files : Files) (state : State) (number : ℕ) (lines : List (List ℕ)) (text other : List ℕ)
        → Transcript (Loads files) state number lines text → Transcript (Loads files) state number lines other
        → text ≡ other }
    ensures begins { (files : Files) (state : State) (number : ℕ) (lines : List (List ℕ)) (part text : List ℕ)
        → Begins (Loads files) state number lines part → Transcript (Loads files) state number lines text
        → (rest : List ℕ) × (text ≡ part ++ rest) }
    ensures whole { (files : Files) (state : State) (number : ℕ) (lines : List (List ℕ)) (text : List ℕ)
        → Transcript (Loads files) state number lines text → Begins (Loads files) state number lines text }
{}

/// It can't be that a script has no transcript, nor that bytes load nothing.
pub fn some_transcript()
    ensures loads { (container path bytes : List ℕ)
        → ¬ ((loaded : Loaded) → BytesLoad container path bytes loaded → ⊥) }
    ensures script { (files : Files) (state : State) (number : ℕ) (lines : List (List ℕ))
        → ¬ ((text : List ℕ) → Transcript (Loads files) state number lines text → ⊥) }
{}
