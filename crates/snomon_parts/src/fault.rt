//! What goes wrong, and what is told of it.
use deck_lines::DeckError;
use deck_parts::Uncut;
use preflight::Refusal;
use std::alloc::{AllocError, AllocFailed, Global};
use std::{fmt, io};

/// Why a call gave up.
#[derive(Drop)]
pub enum Fault {
    /// A growth was refused.
    Memory,
    /// Standard output failed.
    Output,
    /// The system refused a call on a file.
    Failed(String, io::Error),
    /// The deck is refused.
    Refused(String, u64, DeckError),
    /// The deck is one part.
    One(String, One),
    /// A file of another split is there.
    Older(String),
    /// The file is none that a split makes.
    NoRecord(String),
    /// What a part wrote is not what it writes, from this line on.
    Misfit(String, u64),
}

/// Why a deck is one part.
#[derive(Clone, Copy)]
pub enum One {
    /// It is not taken apart.
    Uncut(Uncut),
    /// There might come to be more data sets than there may be.
    Full,
    /// Its submissions are tied to one another.
    Tied,
}

impl Fault {
    /// The exit status.
    pub fn status(&self) -> u8 {
        match self {
            Fault::Refused(..)
            | Fault::One(..)
            | Fault::Older(_)
            | Fault::NoRecord(_)
            | Fault::Misfit(..) => 1,
            Fault::Memory | Fault::Output | Fault::Failed(..) => 3,
        }
    }

    /// That a call on the file of this path was refused.
    pub fn failed(alloc: Global, path: &str, error: io::Error) -> Fault {
        if error.kind() == io::ErrorKind::OutOfMemory {
            return Fault::Memory;
        }
        match String::from_str(alloc, path) {
            Ok(path) => Fault::Failed(path, error),
            Err(_) => Fault::Memory,
        }
    }
}

impl From<AllocError> for Fault {
    fn from(_: AllocError) -> Fault {
        Fault::Memory
    }
}

impl<T: Drop> From<AllocFailed<T>> for Fault {
    fn from(_: AllocFailed<T>) -> Fault {
        Fault::Memory
    }
}

impl fmt::Display for Fault {
    fn fmt<W: fmt::Write>(&self, f: &mut fmt::Formatter<W>) -> fmt::Result {
        match self {
            Fault::Memory => write!(f, "out of memory"),
            Fault::Output => write!(f, "standard output: write fault"),
            Fault::Failed(path, error) => write!(f, "{path}: {error}"),
            Fault::Refused(path, line, code) => write!(f, "{path}: line {line}: {code}"),
            Fault::One(path, one) => write!(f, "{path}: it is one part: {one}"),
            Fault::Older(path) => write!(f, "{path} is of another split"),
            Fault::NoRecord(path) => write!(f, "{path}: snomon-parts split writes no such file"),
            Fault::Misfit(path, line) => {
                write!(f, "{path}: line {line}: this is not what the part writes")
            }
        }
    }
}

impl fmt::Display for One {
    fn fmt<W: fmt::Write>(&self, f: &mut fmt::Formatter<W>) -> fmt::Result {
        match self {
            One::Uncut(Uncut::Text(number, refusal)) => write_text(*number, *refusal, f),
            One::Uncut(_) => write!(f, "it is not written as a round is"),
            One::Full => write!(f, "it may come to more than 1,000 data sets"),
            One::Tied => write!(f, "its submissions are tied to one another"),
        }
    }
}

fn write_text<W: fmt::Write>(
    number: u64,
    refusal: Refusal,
    f: &mut fmt::Formatter<W>,
) -> fmt::Result {
    let line = refusal.line;
    write!(
        f,
        "line {line} of submission {number} is none that its account may hand in"
    )
}
