//! A stream that notes whether its last call failed for want of waiting, as that of a non-blocking stream does.
ghost use Rattle.std.specs.Prelude.{◌≡◌, false};

use std::io;
use std::io::{ErrorKind, Read, Write};

/// A stream of std, which tells the bytes that this one tells, and why its last call failed.
#[derive(Drop)]
pub struct Noted<S: Drop> {
    /// The stream.
    pub inner: S,
    /// Whether it is non-blocking, and its last call failed since it would have had to wait.
    pub would_block: bool,
}

impl<S: Drop> Noted<S> {
    /// This stream, of which no call has failed.
    pub fn new(inner: S) -> Noted<S>
        ensures inner { result.inner ≡ inner }
        ensures would_block { result.would_block ≡ false }
    {
        Noted {
            inner,
            would_block: false,
        }
    }
}

impl<R: Read + Drop> Read for Noted<R> {
    ghost remaining = { λ s. R.remaining s.inner };

    fn read(&mut self, buf: &mut [u8]) -> io::Result<usize> {
        let given = self.inner.read(buf);
        self.would_block = would_block(&given);
        given
    }
}

impl<W: Write + Drop> Write for Noted<W> {
    ghost contents = { λ s. W.contents s.inner };

    fn write(&mut self, buf: &[u8]) -> io::Result<usize> {
        let taken = self.inner.write(buf);
        self.would_block = would_block(&taken);
        taken
    }

    fn flush(&mut self) -> io::Result<()> {
        self.inner.flush()
    }
}

// Whether a call failed since it would have had to wait.
fn would_block(moved: &io::Result<usize>) -> bool {
    matches!(moved, Err(error) if error.kind() == ErrorKind::WouldBlock)
}
