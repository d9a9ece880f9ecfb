//! A stream that is interrupted or fails.
use mon_device::{DeckReader, DeckWriter, StdReader, StdWriter};
use std::io;
use std::io::{ErrorKind, Read, Write};
use std::marker::Brand;

/// A stream whose calls are interrupted so often, and then move a byte; or fail.
#[derive(Drop)]
struct Stream {
    interruptions: u32,
    fails: bool,
}

impl Stream {
    fn moved(&mut self) -> io::Result<usize> {
        if self.interruptions > 0 {
            self.interruptions -= 1;
            return Err(io::Error::from(ErrorKind::Interrupted));
        }
        if self.fails {
            return Err(io::Error::from(ErrorKind::BrokenPipe));
        }
        Ok(1)
    }
}

impl Read for Stream {
    fn read(&mut self, buffer: &mut [u8]) -> io::Result<usize> {
        let count = self.moved()?;
        Ok(count.min(buffer.len()))
    }
}

impl Write for Stream {
    fn write(&mut self, piece: &[u8]) -> io::Result<usize> {
        let count = self.moved()?;
        Ok(count.min(piece.len()))
    }

    fn flush(&mut self) -> io::Result<()> {
        Ok(())
    }
}

// Whether a read and a write, interrupted so often, fail as they should.
fn answers(interruptions: u32, fails: bool) -> bool {
    let mut reader = StdReader::<Stream, Brand>::new(Stream {
        interruptions,
        fails,
    });
    let mut writer = StdWriter::<Stream, Brand>::new(Stream {
        interruptions,
        fails,
    });
    reader.read(&mut [0; 2]).is_err() == fails
        && reader.has_failed == fails
        && reader.reads == 1
        && writer.write(b"SNOBOL").is_err() == fails
        && writer.has_failed == fails
}

#[test]
fn an_interrupted_call_is_tried_again(rt: HostRuntime) {
    for (interruptions, fails) in [(3, false), (0, true), (1, true)] {
        assert!(rt; answers(interruptions, fails));
    }
}
