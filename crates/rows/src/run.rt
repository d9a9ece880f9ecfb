//! A run of a deck, from memory to memory.
ghost use Rattle.std.specs.Prelude.{◌≡◌, false};

use deck_run::{
    Counts, DeckError, Devices, MemReader, MemWriter, NoAudit, Options, RunError, Shortage,
    run_deck,
};
use std::alloc::{AllocError, Global};

/// Room for the longest output of a case, and for some more.
const ROOM: usize = 131_072;

/// What a run answered, and what it wrote.
#[derive(Drop)]
pub struct Run {
    pub outcome: Result<Counts, RunError>,
    pub output: Vec<u8>,
}

/// Runs a deck. A write takes so many bytes at the most.
pub fn run_of(
    alloc: Global,
    reader: MemReader<'_>,
    most_written: usize,
    options: Options,
) -> Result<Run, AllocError>
    requires { reader.has_failed ≡ false }
{
    let writer = MemWriter::in_pieces(alloc, ROOM, most_written)?;
    let mut devices = Devices::new(reader, writer);
    let outcome = run_deck(
        alloc,
        &mut devices,
        options,
        &mut Shortage::new(),
        &mut NoAudit,
    );
    let Devices { reader: _, writer } = devices;
    Ok(Run {
        outcome,
        output: writer.bytes,
    })
}

impl Run {
    /// Whether it answered so, and wrote that.
    pub fn came_out(&self, outcome: &Result<Counts, RunError>, output: &[u8]) -> bool {
        let is_answer = match (&self.outcome, outcome) {
            (Ok(a), Ok(b)) => a.commands == b.commands && a.jobs == b.jobs,
            (Err(a), Err(b)) => a == b,
            _ => false,
        };
        is_answer && self.output.as_slice() == output
    }

    /// Whether the deck was cut off in this line.
    pub fn is_cut_in(&self, line: u64) -> bool {
        matches!(self.outcome, Err(RunError::DeckRefused(at, DeckError::Truncated)) if at == line)
    }
}
