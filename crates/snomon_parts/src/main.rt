//! `snomon-parts`: cuts a deck into decks that share no data set, and puts together what these wrote.
#![tactic(auto)]

mod cutting;
mod fault;
mod folder;
mod joining;
mod options;
mod splitting;

use clap::Error;
use clap::error::ErrorKind;
use fault::Fault;
use joining::join;
use options::{Asked, no_text, read_asked};
use splitting::split;
use std::alloc::AllocError;
use std::process::ExitCode;
use std::rt::Env;
use std::{env, io};

/// The exit status where the words ask nothing.
const NOTHING_ASKED: u8 = 2;

fn main(rt: HostRuntime) -> ExitCode {
    let status = match given_words(&rt) {
        Ok(asked) => serve(&rt, &asked),
        Err(error) => tell_words(&rt, &error),
    };
    ExitCode::from(status)
}

// What the words ask that the program was started with.
fn given_words(rt: &HostRuntime) -> Result<Asked, Error> {
    match words(rt) {
        Ok(words) => read_asked(rt.alloc(), words.as_slice()),
        Err(error) if error.kind() == io::ErrorKind::InvalidData => Err(no_text(rt.alloc())),
        Err(_) => Err(Error::from(AllocError)),
    }
}

fn words<R: Env + AllocGlobal>(rt: &R) -> io::Result<Vec<String>> {
    let words = env::args(rt)?;
    Ok(words.collect(rt.alloc())?)
}

// Does what is asked, and gives the exit status.
fn serve(rt: &HostRuntime, asked: &Asked) -> u8 {
    let done = match asked {
        Asked::Split(asked) => split(rt, asked),
        Asked::Join(asked) => join(rt, asked),
    };
    match done {
        Ok(()) => 0,
        Err(fault) => tell(rt, &fault),
    }
}

fn tell(rt: &HostRuntime, fault: &Fault) -> u8 {
    let _told = eprintln!(rt; "snomon-parts: {fault}");
    fault.status()
}

// Help and the version are told on standard output.
fn tell_words(rt: &HostRuntime, error: &Error) -> u8 {
    if error.kind() == ErrorKind::OutOfMemory {
        return tell(rt, &Fault::Memory);
    }
    if error.use_stderr() {
        let _told = eprint!(rt; "{error}");
        return NOTHING_ASKED;
    }
    match print!(rt; "{error}") {
        Ok(()) => 0,
        Err(_) => tell(rt, &Fault::Output),
    }
}
