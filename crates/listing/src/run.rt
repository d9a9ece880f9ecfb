//! What the program does, over any streams of std: from its words to what stands in these, and the exit status.
ghost use Rattle.std.specs.Prelude.{◌≡◌, IfSome};
ghost use Rattle.access_report.specs.Reports.{ReportedTo, status_of};

use crate::options::{Asked, read_asked, refused};
use crate::streams::review_streams;
use access_report::{Fault, Question, report_streams};
use clap::Error;
use clap::error::ErrorKind;
use std::alloc::{AllocError, Global};
use std::convert::AsStr;
use std::io;
use std::io::{Read, Write};

/// The exit status where the words ask nothing.
const NOTHING_ASKED: u8 = 2;

/// The exit status where a listing has a mistake. Warnings alone are none.
const HAS_MISTAKES: u8 = 1;

/// Tells of the deck that comes from one stream what these words ask, writes it to another, and tells on a third what went
/// wrong. The first word is the program's name; words that are no text ask nothing. Help and version, where the words ask for
/// them, are written as a deck's listing is, with status 0, and nothing is read.
pub fn run<S: AsStr + Drop, R: Read, W: Write, E: Write>(
    alloc: Global,
    words: io::Result<Vec<S>>,
    input: &mut R,
    output: &mut W,
    errors: &mut E,
) -> u8 {
    match given_words(alloc, words) {
        Ok(Asked::Listing(listing)) => match review_streams(alloc, &listing, input, output) {
            Ok(tally) if tally.mistakes > 0 => HAS_MISTAKES,
            Ok(_) => 0,
            Err(fault) => tell(alloc, fault, errors),
        },
        Ok(Asked::Access(question)) => run_access(alloc, &question, input, output, errors),
        Err(error) if error.kind() == ErrorKind::OutOfMemory => tell(alloc, Fault::Memory, errors),
        Err(error) if error.use_stderr() => {
            let _told = write!(errors, "{error}");
            NOTHING_ASKED
        }
        Err(error) => match write!(output, "{error}") {
            Ok(()) => 0,
            Err(_) => tell(alloc, Fault::WriteFault, errors),
        },
    }
}

/// Tells who may do what.
pub fn run_access<R: Read, W: Write, E: Write>(
    alloc: Global,
    question: &Question,
    input: &mut R,
    output: &mut W,
    errors: &mut E,
) -> u8
    ensures reported { result ≡ 0 → IfSome (R.remaining input.old) (λ bytes. ReportedTo question.now bytes (W.contents output.old) (W.contents output.new)) }
{
    match report_streams(alloc, question, input, output) {
        Ok(()) => 0,
        Err(fault) => tell(alloc, fault, errors),
    }
}

// Tells a fault, as far as that can be done, and gives its status.
fn tell<E: Write>(alloc: Global, fault: Fault, errors: &mut E) -> u8
    ensures { result ≡ status_of fault }
{
    let mut line = Vec::new(alloc);
    if fault.put_line(&mut line).is_ok() {
        let _told = errors.write_all(&line);
    }
    fault.status()
}

// What the words ask.
fn given_words<S: AsStr + Drop>(alloc: Global, words: io::Result<Vec<S>>) -> Result<Asked, Error> {
    match words {
        Ok(words) => read_asked(alloc, words.as_slice()),
        Err(error) if error.kind() == io::ErrorKind::InvalidData => {
            let what = "a word is no text in UTF-8";
            Err(refused(alloc, ErrorKind::UnknownArgument, what)?)
        }
        Err(_) => Err(Error::from(AllocError)),
    }
}
