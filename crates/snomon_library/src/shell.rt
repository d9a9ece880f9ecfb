//! How a run ends: what is told of it, and the exit status.
ghost use Rattle.std.specs.Prelude.{◌≡◌, true, OnOk, IfSome};
ghost use Rattle.std.specs.Io.KnownBytes.{Appends};
ghost use Rattle.deck_run.specs.Faults.{status_of, fault_line, shortage_line};
ghost use Rattle.snomon_library.specs.Streams.{told_since};
ghost use Rattle.snomon_library.specs.Endings.{Tells, Ends, told_of};

use crate::streams::run_streams;
use deck_run::{Counts, Options, RunError, Shortage, exit_status, put_fault, put_shortage};
use mon_device::Sink;
use std::alloc::Global;
use std::fmt::Display;
use std::io;
use std::io::{Read, Write};

/// The exit status where the words of the command line give no options.
pub const NO_OPTIONS: u8 = 2;

/// How the program ended, with the streams as it left them.
#[derive(Drop)]
pub struct Ended<R: Drop, W: Drop, E: Drop> {
    /// The exit status.
    pub status: u8,
    /// Whether all was written of what is told on the stream of errors: a fault, or why there are no options.
    pub is_told: bool,
    /// What the deck was read from.
    pub input: R,
    /// What the output was written to.
    pub output: W,
    /// What a fault was told to.
    pub errors: E,
}

/// Runs a deck from one stream to another, puts what it does to an audit, and tells a fault on a third.
pub fn run_options<R: Read + Drop, W: Write + Drop, E: Write + Drop, A: Sink>(
    alloc: Global,
    options: Options,
    input: R,
    output: W,
    errors: E,
    audit: &mut A,
) -> Ended<R, W, E>
    ensures ends { Ends options (R.remaining input) (told_since (R.remaining input) (R.remaining result.input))
        (W.contents output) (told_since (W.contents output) (W.contents result.output)) (A.standing audit.old) (A.standing audit.new) A.heeded result.status
        result.is_told (E.contents errors) (E.contents result.errors) }
    ensures silent { result.status ≡ 0 → result.errors ≡ errors }
{
    let ran = run_streams(alloc, options, input, output, audit);
    finish(
        alloc,
        ran.outcome,
        Some(ran.shortage),
        ran.input,
        ran.output,
        errors,
    )
}

/// Tells a fault, where there is one, and gives the exit status. Where memory ran out, how far the run had come is told too, if it
/// is given.
pub fn finish<R: Drop, W: Drop, E: Write + Drop>(
    alloc: Global,
    outcome: Result<Counts, RunError>,
    shortage: Option<Shortage>,
    input: R,
    output: W,
    mut errors: E,
) -> Ended<R, W, E>
    ensures status { result.status ≡ status_of outcome }
    ensures input { result.input ≡ input }
    ensures output { result.output ≡ output }
    ensures silent { OnOk outcome (result.errors ≡ errors) }
    ensures told { Tells outcome shortage result.is_told (E.contents errors) (E.contents result.errors) }
{
    let is_told = match &outcome {
        Ok(_) => false,
        Err(fault) => tell(alloc, fault, &shortage, &mut errors).is_ok(),
    };
    Ended {
        status: exit_status(&outcome),
        is_told,
        input,
        output,
        errors,
    }
}

// Writes the line for a fault, and behind it, where memory ran out, how far the run had come.
fn tell<E: Write>(
    alloc: Global,
    fault: &RunError,
    shortage: &Option<Shortage>,
    errors: &mut E,
) -> io::Result<()>
    ensures { OnOk result (Appends (E.contents errors.old) (E.contents errors.new) (told_of fault.now shortage.now)) }
{
    tell_fault(alloc, fault, errors)?;
    match fault {
        RunError::Memory => match shortage {
            Some(shortage) => tell_shortage(alloc, shortage, errors),
            None => Ok(()),
        },
        _ => Ok(()),
    }
}

// Writes the line for a fault. Where there is no memory for it nothing is written.
fn tell_fault<E: Write>(alloc: Global, fault: &RunError, errors: &mut E) -> io::Result<()>
    ensures { OnOk result (Appends (E.contents errors.old) (E.contents errors.new) (fault_line fault.now)) }
{
    let mut line = Vec::new(alloc);
    put_fault(fault, &mut line)?;
    errors.write_all(&line)
}

// Writes how far a run had come. Where there is no memory for the line nothing is written.
fn tell_shortage<E: Write>(alloc: Global, shortage: &Shortage, errors: &mut E) -> io::Result<()>
    ensures { OnOk result (Appends (E.contents errors.old) (E.contents errors.new) (shortage_line shortage.now)) }
{
    let mut line = Vec::new(alloc);
    put_shortage(shortage, &mut line)?;
    errors.write_all(&line)
}

/// Tells why the words of the command line give no options.
pub fn refuse<T: Display + Drop, R: Drop, W: Drop, E: Write + Drop>(
    reason: T,
    input: R,
    output: W,
    mut errors: E,
) -> Ended<R, W, E>
    ensures status { result.status ≡ 2 }
    ensures input { result.input ≡ input }
    ensures output { result.output ≡ output }
    ensures told { result.is_told ≡ true → IfSome (T.output reason) (Appends (E.contents errors) (E.contents result.errors)) }
{
    let is_told = write!(errors, "{reason}").is_ok();
    Ended {
        status: NO_OPTIONS,
        is_told,
        input,
        output,
        errors,
    }
}
