//! `acfg`: the words behind the program's name go in, words said and a status come out.
#![tactic(auto)]

use acfg_hostdev::HostDevice;
use acfg_top::run;
use std::io::ErrorKind;
use std::process::ExitCode;
use std::{env, io};

/// The status where the host gives no words for want of memory.
const NO_MEMORY: u8 = 5;

/// The status where the host gives no words for any other cause.
const NO_WORDS: u8 = 6;

fn main(rt: HostRuntime) -> ExitCode {
    let alloc = rt.alloc();
    let mut device = HostDevice::new(rt, alloc);
    let status = match words(&rt) {
        Ok(words) => run(alloc, &words, &mut device),
        // A word that isn't UTF-8 is of no command.
        Err(fault) if fault.kind() == ErrorKind::InvalidData => {
            run(alloc, &Vec::new(alloc), &mut device)
        }
        Err(fault) if fault.kind() == ErrorKind::OutOfMemory => NO_MEMORY,
        Err(_) => NO_WORDS,
    };
    ExitCode::from(status)
}

fn words(rt: &HostRuntime) -> io::Result<Vec<String>> {
    let mut words = Vec::new(rt.alloc());
    for word in env::args(rt)?.skip(1) {
        words.push(word)?;
    }
    Ok(words)
}
