//! An audit to which somebody listens, or nobody; and the file that it is written to, or none. A program has one run for both: what is
//! called from one place stays so.
ghost use Rattle.std.specs.Prelude.{◌≡◌, Bool, false};
ghost use Rattle.snomon_library.specs.Endings.{heard_as};

use mon_device::{DeckDevices, DeviceSink, Failed, Sink};
use std::io;
use std::io::Write;
use std::marker::{Brand, PhantomData};

/// Whether somebody listens to an audit. It has no code: the proof of a call picks it.
pub trait Heeding {
    // Whether somebody listens.
    ghost heeds: { Bool };
}

// Where no proof picks, nobody does.
impl Heeding for Brand {
    ghost heeds = { false };
}

/// An audit that is put to devices. Where nobody listens it takes nothing, as one that has failed.
#[derive(Drop)]
pub struct AuditSink<'a, D: DeckDevices, H: Heeding> {
    sink: DeviceSink<'a, D>,
    is_heard: bool,
    of: PhantomData<H>,
    ghost heard: { is_heard ≡ H.heeds },
}

impl<'a, D: DeckDevices, H: Heeding> AuditSink<'a, D, H> {
    /// Puts to this sink, where somebody listens.
    pub fn new(sink: DeviceSink<'a, D>, is_heard: bool) -> AuditSink<'a, D, H>
        requires { is_heard ≡ H.heeds }
        ensures { ⟦<AuditSink<'a, D, H> as Sink>⟧.standing result ≡ heard_as is_heard (⟦<DeviceSink<'a, D> as Sink>⟧.standing sink.entry) }
    {
        AuditSink {
            sink,
            is_heard,
            of: PhantomData,
        }
    }
}

impl<'a, D: DeckDevices, H: Heeding> Sink for AuditSink<'a, D, H> {
    ghost use Rattle.snomon_library.specs.Endings.{heard_as};

    ghost standing = { λ s. heard_as s.is_heard (⟦<DeviceSink<'a, D> as Sink>⟧.standing s.sink) };

    ghost heeded = { H.heeds };

    fn put(&mut self, bytes: &[u8]) {
        if self.is_heard {
            self.sink.put(bytes);
        }
    }

    fn put_line(&mut self, before: &[u8], text: &[u8]) {
        if self.is_heard {
            self.sink.put_line(before, text);
        }
    }

    fn listens(&self) -> bool {
        self.is_heard
    }

    fn flush(&mut self) -> Result<(), Failed> {
        if self.is_heard {
            self.sink.settle()
        } else {
            Ok(())
        }
    }
}

/// A file, or none: what is written to that is let go.
#[derive(Drop)]
pub struct PerhapsFile<F: Write + Drop> {
    /// The file, if there is one.
    pub file: Option<F>,
}

impl<F: Write + Drop> Write for PerhapsFile<F> {
    ghost use Rattle.std.specs.Option.{option_and_then};

    ghost contents = { λ s. option_and_then F.contents s.file };

    fn write(&mut self, buf: &[u8]) -> io::Result<usize> {
        match &mut self.file {
            Some(file) => file.write(buf),
            None => Ok(buf.len()),
        }
    }

    fn flush(&mut self) -> io::Result<()> {
        match &mut self.file {
            Some(file) => file.flush(),
            None => Ok(()),
        }
    }
}
