//! A reader and a writer as one, so that none of them is called once one has failed.
ghost use Rattle.std.specs.Prelude.{◌≡◌};

use crate::device::{DeckDevices, DeckReader, DeckWriter, Failed};

/// A reader and a writer.
#[derive(Drop)]
pub struct Devices<R: DeckReader + Drop, W: DeckWriter + Drop> {
    /// What a deck is read from.
    pub reader: R,
    /// What its output is written to.
    pub writer: W,
}

impl<R: DeckReader + Drop, W: DeckWriter + Drop> Devices<R, W> {
    /// These two.
    pub fn new(reader: R, writer: W) -> Devices<R, W>
        ensures reader { result.reader ≡ reader }
        ensures writer { result.writer ≡ writer }
    {
        Devices { reader, writer }
    }
}

impl<R: DeckReader + Drop, W: DeckWriter + Drop> DeckDevices for Devices<R, W> {
    ghost remaining = { λ s. R.remaining s.reader };

    ghost written = { λ s. W.written s.writer };

    ghost reads = { λ s. R.reads s.reader };

    ghost read_failed = { λ s. R.has_failed s.reader };

    ghost write_failed = { λ s. W.has_failed s.writer };

    fn read(&mut self, buffer: &mut [u8]) -> Result<usize, Failed> {
        self.reader.read(buffer)
    }

    fn write(&mut self, piece: &[u8]) -> Result<usize, Failed> {
        self.writer.write(piece)
    }
}
