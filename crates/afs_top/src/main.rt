//! The program: what it is given, what it gives, and the call that does all of it.
#![tactic(auto)]

pub mod cell;
mod made;
pub mod program;
mod streams;

use afs_command::statuses::Status;
use afs_disk::HostBank;
use afs_outside::buffered::BufferedSink;
use afs_outside::outside::{HostSink, HostSource, pass_on};
use program::{end_with, run};
use std::io::ErrorKind;
use std::process::ExitCode;
use std::{env, io};
use streams::Held;

/// The program over the standard streams. Words that are no text are no form of it.
fn main(rt: HostRuntime) -> ExitCode {
    let alloc = rt.alloc();
    let _held = Held::new(&rt);
    let mut errors = HostSink::new(rt.stderr());
    let words = match words(&rt) {
        Ok(words) => words,
        Err(error) if error.kind() == ErrorKind::OutOfMemory => {
            return ExitCode::from(end_with(&mut errors, Status::OutOfMemory).number);
        }
        Err(_) => Vec::new(alloc),
    };
    let mut source = HostSource::new(rt.reader());
    let mut sink = BufferedSink::new(HostSink::new(rt.stdout()));
    let mut bank = HostBank::new(&rt, alloc);
    let ended = run(
        alloc,
        words.as_slice(),
        &mut source,
        &mut sink,
        &mut errors,
        &mut bank,
    );
    let _passed = pass_on(&mut sink);
    ExitCode::from(ended.number)
}

/// The words behind the program's name.
fn words(rt: &HostRuntime) -> io::Result<Vec<String>> {
    let mut words = Vec::new(rt.alloc());
    for word in env::args(rt)?.skip(1) {
        words.push(word)?;
    }
    Ok(words)
}
