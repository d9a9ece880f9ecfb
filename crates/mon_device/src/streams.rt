//! Readers and writers over those of std, as the standard streams are.
ghost use Rattle.std.specs.Prelude.{◌≡◌, Bool, false};
ghost use Rattle.mon_device.specs.Telling.{MayTell, where_told};

use crate::device::{DeckReader, DeckWriter, Failed};
use std::io::{ErrorKind, Read, Write};
use std::marker::{Brand, PhantomData};

/// How often a call that a signal interrupts is tried: far more often than signals come.
pub const MOST_ATTEMPTS: u64 = 4_294_967_295;

/// Whether the bytes of a stream of std are told. It has no code: the proof of a call picks it. A stream of std that tells none
/// of its bytes may begin to tell them, and what it then holds is not what it held and some bytes more; so of a stream that
/// tells none at first none are told.
pub trait Telling {
    // Whether they are told.
    ghost tells: { Bool };
}

// Where no proof picks, none are told.
impl Telling for Brand {
    ghost tells = { false };
}

/// Reads from a reader of std. It tells the bytes that this one tells, where they are told. A read that was interrupted is
/// tried again.
#[derive(Drop)]
pub struct StdReader<R: Read + Drop, T: Telling> {
    /// The reader of std.
    pub inner: R,
    /// Whether a call has failed.
    pub has_failed: bool,
    /// How many reads were made.
    pub reads: u64,
    of: PhantomData<T>,
    ghost told: { MayTell T.tells (R.remaining inner) },
}

impl<R: Read + Drop, T: Telling> StdReader<R, T> {
    /// A reader of which nothing was read.
    pub fn new(inner: R) -> StdReader<R, T>
        requires told { MayTell T.tells (R.remaining inner) }
        ensures inner { result.inner ≡ inner }
        ensures sound { result.has_failed ≡ false }
        ensures fresh { result.reads ≡ 0 }
    {
        StdReader {
            inner,
            has_failed: false,
            reads: 0,
            of: PhantomData,
        }
    }

    /// Gives the reader of std back.
    pub fn into_inner(self) -> R
        ensures { result ≡ self.inner }
    {
        self.inner
    }
}

impl<R: Read + Drop, T: Telling> DeckReader for StdReader<R, T> {
    ghost remaining = { λ s. where_told T.tells (R.remaining s.inner) };

    ghost has_failed = { λ s. s.has_failed };

    ghost reads = { λ s. s.reads };

    fn read(&mut self, buffer: &mut [u8]) -> Result<usize, Failed> {
        self.reads = self.reads.saturating_add(1);
        for _attempt in 0..MOST_ATTEMPTS {
            match self.inner.read(buffer) {
                Ok(count) => return Ok(count),
                Err(error) if error.kind() == ErrorKind::Interrupted => {}
                Err(_) => break,
            }
        }
        self.has_failed = true;
        Err(Failed)
    }
}

/// Writes to a writer of std. It tells the bytes that this one tells, where they are told. A write that was interrupted is
/// tried again.
#[derive(Drop)]
pub struct StdWriter<W: Write + Drop, T: Telling> {
    /// The writer of std.
    pub inner: W,
    /// Whether a call has failed.
    pub has_failed: bool,
    of: PhantomData<T>,
    ghost told: { MayTell T.tells (W.contents inner) },
}

impl<W: Write + Drop, T: Telling> StdWriter<W, T> {
    /// A writer of which no call has failed.
    pub fn new(inner: W) -> StdWriter<W, T>
        requires told { MayTell T.tells (W.contents inner) }
        ensures inner { result.inner ≡ inner }
        ensures sound { result.has_failed ≡ false }
    {
        StdWriter {
            inner,
            has_failed: false,
            of: PhantomData,
        }
    }

    /// Gives the writer of std back.
    pub fn into_inner(self) -> W
        ensures { result ≡ self.inner }
    {
        self.inner
    }
}

impl<W: Write + Drop, T: Telling> DeckWriter for StdWriter<W, T> {
    ghost written = { λ s. where_told T.tells (W.contents s.inner) };

    ghost has_failed = { λ s. s.has_failed };

    fn write(&mut self, piece: &[u8]) -> Result<usize, Failed> {
        for _attempt in 0..MOST_ATTEMPTS {
            match self.inner.write(piece) {
                Ok(0) => break,
                Ok(taken) => return Ok(taken),
                Err(error) if error.kind() == ErrorKind::Interrupted => {}
                Err(_) => break,
            }
        }
        self.has_failed = true;
        Err(Failed)
    }
}
