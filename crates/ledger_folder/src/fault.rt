//! What goes wrong in a site.
use ledger_boxes::BoxFault;
use ledger_disk::DiskError;
use ledger_run::LedgerError;
use std::alloc::{AllocError, AllocFailed, Global};
use std::{fmt, io};

/// Why a call on a site gave up.
#[derive(Drop)]
pub enum Fault {
    /// A growth was refused.
    Memory,
    /// The disk is full.
    Full,
    /// The system refused a call of the ledger on a file.
    Disk,
    /// The ledger is not as it was written, or an act can't stand in it.
    Ledger,
    /// A submission ran longer than the limit `seconds` says.
    Late,
    /// A submission printed more than the limit `output` says.
    Long,
    /// The system refused a call on a file.
    Failed(String, io::Error),
    /// What stands at a place is not as it must be.
    Wrong(String, Wrong),
    /// Another run holds the lock.
    Held(String),
}

/// What is wrong with a place.
#[derive(Clone, Copy)]
pub enum Wrong {
    /// This, in words.
    Words(&'static str),
    /// A line, and what is wrong with it.
    Line(u64, &'static str),
    /// A limit that is missing.
    Missing(&'static str),
    /// Its mode lets too many do too much.
    Open(u32),
    /// Its owner is this user, and not that one.
    Owner(u32, u32),
    /// This user is not in it.
    NoUser(u32),
    /// The box is passed over.
    Box(BoxFault),
    /// The commit of this number does not name the one before it.
    Broken(u64),
}

/// The exit status of a fault.
pub const FAILED: u8 = 3;

/// The exit status where another run holds the lock.
pub const HELD: u8 = 4;

impl Fault {
    /// The exit status.
    pub fn status(&self) -> u8 {
        match self {
            Fault::Held(_) => HELD,
            _ => FAILED,
        }
    }

    /// That a call on the file of this path was refused.
    pub fn failed(alloc: Global, path: &str, error: io::Error) -> Fault {
        if error.kind() == io::ErrorKind::OutOfMemory {
            return Fault::Memory;
        }
        match String::from_str(alloc, path) {
            Ok(path) => Fault::Failed(path, error),
            Err(_) => Fault::Memory,
        }
    }

    /// That what stands at this path is wrong.
    pub fn wrong(alloc: Global, path: &str, wrong: Wrong) -> Fault {
        match String::from_str(alloc, path) {
            Ok(path) => Fault::Wrong(path, wrong),
            Err(_) => Fault::Memory,
        }
    }
}

impl From<AllocError> for Fault {
    fn from(_: AllocError) -> Fault {
        Fault::Memory
    }
}

impl<T: Drop> From<AllocFailed<T>> for Fault {
    fn from(_: AllocFailed<T>) -> Fault {
        Fault::Memory
    }
}

impl From<DiskError> for Fault {
    fn from(error: DiskError) -> Fault {
        match error {
            DiskError::Memory => Fault::Memory,
            DiskError::Full => Fault::Full,
            DiskError::Failed => Fault::Disk,
        }
    }
}

impl From<LedgerError> for Fault {
    fn from(error: LedgerError) -> Fault {
        match error {
            LedgerError::Disk(error) => Fault::from(error),
            LedgerError::Refused => Fault::Ledger,
            LedgerError::Late => Fault::Late,
            LedgerError::Long => Fault::Long,
        }
    }
}

fn box_words(fault: BoxFault) -> &'static str {
    match fault {
        BoxFault::Missing => "is missing: the box is passed over",
        BoxFault::NoFolder => "is no folder: the box is passed over",
        BoxFault::NotOwn =>
            "is not the operator's (nor its user's, where that is root): the box is passed over",
        BoxFault::Open => "may be written by others: the box is passed over",
        BoxFault::Sticky => "lets the operator take nothing out: the box is passed over",
    }
}

impl fmt::Display for Wrong {
    fn fmt<W: fmt::Write>(&self, f: &mut fmt::Formatter<W>) -> fmt::Result {
        match self {
            Wrong::Words(words) => write!(f, "{words}"),
            Wrong::Line(line, words) => write!(f, "line {line}: {words}"),
            Wrong::Missing(limit) => write!(f, "no line gives {limit}"),
            Wrong::Open(mode) => write!(f, "mode {mode:04o} is too open"),
            Wrong::NoUser(uid) => write!(f, "there is no user {uid}"),
            Wrong::Owner(uid, due) => write!(f, "its owner is user {uid}, and not {due}"),
            Wrong::Box(fault) => write!(f, "{}", box_words(*fault)),
            Wrong::Broken(n) => write!(f, "commit {n} does not stand behind the one before it"),
        }
    }
}

impl fmt::Display for Fault {
    fn fmt<W: fmt::Write>(&self, f: &mut fmt::Formatter<W>) -> fmt::Result {
        match self {
            Fault::Memory => write!(f, "out of memory"),
            Fault::Full => write!(f, "no space left on the disk"),
            Fault::Disk => write!(f, "the system refused a call on a file of the ledger"),
            Fault::Ledger => write!(f, "keep/ledger: is damaged, or this can't stand in it"),
            Fault::Late => write!(f, "a submission ran longer than `seconds` allows"),
            Fault::Long => write!(f, "a submission printed more than `output` allows"),
            Fault::Failed(place, error) => write!(f, "{}: {error}", Shown(place)),
            Fault::Wrong(place, wrong) => write!(f, "{}: {wrong}", Shown(place)),
            Fault::Held(place) => write!(f, "another run holds {}", Shown(place)),
        }
    }
}

// A path as it is told: users choose names of files, and a line that the operator reads has none of their control characters. A byte that is
// no printing ASCII, and a backslash, stands as `\xNN`.
#[derive(Clone, Copy)]
struct Shown<'a>(&'a str);

impl fmt::Display for Shown<'_> {
    fn fmt<W: fmt::Write>(&self, f: &mut fmt::Formatter<W>) -> fmt::Result {
        for byte in self.0.as_bytes() {
            put_shown(*byte, f)?;
        }
        Ok(())
    }
}

fn put_shown<W: fmt::Write>(byte: u8, f: &mut fmt::Formatter<W>) -> fmt::Result {
    if (b' '..=b'~').contains(&byte) && byte != b'\\' {
        f.write_char(char::from(byte))
    } else {
        write!(f, "\\x{byte:02x}")
    }
}
