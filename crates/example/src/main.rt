//! An example of a program that builds on `snomon_library` (docs/howto/build-on-it.md): it runs the deck on standard input, keeps the
//! output in memory, and prints what of it tells of a denial.
#![tactic(auto)]

use anyhow::Result;
use snomon_library::{
    Counts, Devices, MemWriter, NoAudit, Options, RunError, Seed, Shortage, StdReader, exit_status,
    put_fault, read_options, run_deck,
};
use std::alloc::{AllocError, Global};
use std::io::Read;
use std::marker::Brand;
use std::process::ExitCode;
use std::{env, str};

/// Room for the longest output that is kept.
const ROOM: usize = 1_048_576;

/// What a run answered, and what it wrote.
#[derive(Drop)]
struct Ran {
    outcome: Result<Counts, RunError>,
    output: Vec<u8>,
}

fn main(rt: HostRuntime) -> Result<ExitCode> {
    let words: Vec<String> = env::args(&rt)?.collect(rt.alloc())?;
    match read_options(rt.alloc(), Seed::fixed(), words.as_slice()) {
        Ok(options) => tell(&rt, &run_kept(rt.alloc(), options, rt.stdin())?),
        Err(error) => {
            eprintln!(rt; "{error}")?;
            Ok(ExitCode::from(2))
        }
    }
}

// Runs a deck from a stream of std, and keeps what it writes.
fn run_kept<R: Read + Drop>(alloc: Global, options: Options, input: R) -> Result<Ran, AllocError> {
    let reader = StdReader::<R, Brand>::new(input);
    let writer = MemWriter::new(alloc, ROOM)?;
    let mut devices = Devices::new(reader, writer);
    let outcome = run_deck(
        alloc,
        &mut devices,
        options,
        &mut Shortage::new(),
        &mut NoAudit,
    );
    let Devices { reader: _, writer } = devices;
    Ok(Ran {
        outcome,
        output: writer.bytes,
    })
}

// Prints the denials and the counts; a fault goes to the stream of errors, as `snomon` has it.
fn tell<P: Print + Eprint + AllocGlobal>(rt: &P, ran: &Ran) -> Result<ExitCode> {
    for line in str::from_utf8(&ran.output).unwrap_or("").lines() {
        if line.starts_with("DENIED ") {
            println!(rt; "{line}")?;
        }
    }
    match &ran.outcome {
        Ok(Counts { jobs, commands }) => println!(rt; "{jobs} jobs, {commands} commands")?,
        Err(fault) => tell_fault(rt, fault)?,
    }
    Ok(ExitCode::from(exit_status(&ran.outcome)))
}

fn tell_fault<P: Eprint + AllocGlobal>(rt: &P, fault: &RunError) -> Result<()> {
    let mut line = Vec::new(rt.alloc());
    put_fault(fault, &mut line)?;
    for text in str::from_utf8(&line).unwrap_or("").lines() {
        eprintln!(rt; "{text}")?;
    }
    Ok(())
}
