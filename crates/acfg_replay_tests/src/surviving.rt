//! Scripts that are broken off: a cut of power after each call, and each call failing.

use crate::calling::replay;
use crate::replaying::device;
use acfg_daemon::DaemonFault;
use acfg_memdev::MemDevice;
use std::alloc::Global;
use std::test::Fail;

/// Lines with each kind of request, and what leads to the state that a cut may leave in the middle of each.
const LINES: [(&str, &str); 12] = [
    ("0 update c rel1\n", ""),
    ("0 boot\n", ""),
    ("0 server c com.a f true\n", ""),
    ("0 local c com.a f true\n", ""),
    ("0 get c com.a f\n", ""),
    ("0 boot\n", ""),
    ("0 local-now c com.a f false\n", "0 local c com.a f false\n"),
    ("0 unset-now c com.a f\n", "0 unset c com.a f\n"),
    ("0 update c rel2\n", ""),
    ("0 local c com.a a false\n", ""),
    ("0 unset c com.a a\n", ""),
    ("0 boot\n", ""),
];

/// Requests whose answers tell a state of the script from its neighbours.
const PROBE: &[u8] =
    b"0 get c com.a f\n0 get c com.a a\n0 unset c com.a a\n0 unset c com.a f\n0 boot\n\
    0 get c com.a f\n0 get c com.a a\n";

// What is answered to the probe on a device that is opened again.
fn probed(alloc: Global, device: &mut MemDevice) -> Result<Vec<u8>, Fail> {
    let before = device.said().len();
    match replay(alloc, device, "dev", PROBE) {
        Ok(()) => {}
        Err(_) => return Err("not opened".into()),
    }
    Ok(device.said().get(before..).unwrap_or(b"").to_vec(alloc)?)
}

// What is answered to the probe behind a script.
fn probed_behind(alloc: Global, script: &str) -> Result<Vec<u8>, Fail> {
    let mut device = device(alloc, Vec::new(alloc))?;
    match replay(alloc, &mut device, "dev", script.as_bytes()) {
        Ok(()) => {}
        Err(_) => return Err("not answered".into()),
    }
    probed(alloc, &mut device)
}

/// What is answered to the probe behind the first lines, by their number, and in the middle of the line behind them.
#[derive(Drop)]
struct States {
    behind: Vec<Vec<u8>>,
    within: Vec<Vec<u8>>,
}

fn all_states(alloc: Global) -> Result<States, Fail> {
    let mut behind = Vec::new(alloc);
    let mut within = Vec::new(alloc);
    let mut script = String::new(alloc);
    for (line, half) in LINES {
        behind.push(probed_behind(alloc, script.as_str())?)?;
        let mut middle = script.clone()?;
        middle.push_str(half)?;
        within.push(probed_behind(alloc, middle.as_str())?)?;
        script.push_str(line)?;
    }
    behind.push(probed_behind(alloc, script.as_str())?)?;
    Ok(States { behind, within })
}

// Whether a device that is opened again has the state behind the lines that were answered whole, behind one more, or
// in the middle of it.
fn is_allowed(alloc: Global, states: &States, device: &mut MemDevice) -> Result<bool, Fail> {
    let mut done = 0usize;
    for byte in device.said() {
        if *byte == b'\n' {
            done = done.saturating_add(1);
        }
    }
    let text = probed(alloc, device)?;
    let text = text.as_slice();
    for list in [&states.behind, &states.within] {
        if let Some(state) = list.get(done) {
            if state.as_slice() == text {
                return Ok(true);
            }
        }
    }
    match states.behind.get(done.saturating_add(1)) {
        Some(state) => Ok(state.as_slice() == text),
        None => Ok(false),
    }
}

fn script(alloc: Global) -> Result<String, Fail> {
    let mut script = String::new(alloc);
    for (line, _) in LINES {
        script.push_str(line)?;
    }
    Ok(script)
}

#[test]
fn each_cut_leaves_a_state_of_the_script(rt: HostRuntime) -> Result<(), Fail> {
    let alloc = rt.alloc();
    let states = all_states(alloc)?;
    let script = script(alloc)?;
    let mut whole = device(alloc, Vec::new(alloc))?;
    assert!(rt; replay(alloc, &mut whole, "dev", script.as_bytes()).is_ok());
    for calls in 0..=whole.calls() {
        for names in 0..=12 {
            for fill in [None, Some(0), Some(255)] {
                let mut left = whole.cut(alloc, calls, names, fill)?;
                assert!(rt; is_allowed(alloc, &states, &mut left)?);
            }
        }
    }
    for number in 0..whole.calls() {
        let mut fails = Vec::new(alloc);
        fails.push(number)?;
        let mut failing = device(alloc, fails)?;
        assert!(rt;
            replay(alloc, &mut failing, "dev", script.as_bytes()) == Err(DaemonFault::Device)
        );
        assert!(rt; is_allowed(alloc, &states, &mut failing)?);
    }
    Ok(())
}
