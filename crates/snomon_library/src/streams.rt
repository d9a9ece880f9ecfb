//! A run over streams of std, which come back as it left them.
ghost use Rattle.mon_device.specs.Telling.{MayTell, where_told};
ghost use Rattle.snomon_library.specs.Streams.{Comes, told_since};

use deck_run::{
    Counts, Devices, Options, RunError, Shortage, StdReader, StdWriter, Telling, run_deck,
};
use mon_device::Sink;
use std::alloc::Global;
use std::io::{Read, Write};
use std::marker::Brand;

/// How a run came out, with the streams as it left them.
#[derive(Drop)]
pub struct Ran<R: Drop, W: Drop> {
    /// What the run answered.
    pub outcome: Result<Counts, RunError>,
    /// How far it had come, where memory ran out.
    pub shortage: Shortage,
    /// What the deck was read from.
    pub input: R,
    /// What the output was written to.
    pub output: W,
}

/// Runs a deck from one stream to another, and puts what it does to an audit. A stream that tells its bytes at first is held to them.
pub fn run_streams<R: Read + Drop, W: Write + Drop, A: Sink>(
    alloc: Global,
    options: Options,
    input: R,
    output: W,
    audit: &mut A,
) -> Ran<R, W>
    ensures { Comes options (R.remaining input) (told_since (R.remaining input) (R.remaining result.input))
        (W.contents output) (told_since (W.contents output) (W.contents result.output)) (A.standing audit.old) (A.standing audit.new) A.heeded result.outcome result.shortage }
{
    run_told::<R, W, A, Brand, Brand>(alloc, options, input, output, audit)
}

// The same, of streams whose bytes are told or not.
fn run_told<R: Read + Drop, W: Write + Drop, A: Sink, I: Telling, O: Telling>(
    alloc: Global,
    options: Options,
    input: R,
    output: W,
    audit: &mut A,
) -> Ran<R, W>
    requires input { MayTell I.tells (R.remaining input) }
    requires output { MayTell O.tells (W.contents output) }
    ensures { Comes options (where_told I.tells (R.remaining input)) (where_told I.tells (R.remaining result.input))
        (where_told O.tells (W.contents output)) (where_told O.tells (W.contents result.output)) (A.standing audit.old) (A.standing audit.new) A.heeded result.outcome result.shortage }
{
    let reader = StdReader::<R, I>::new(input);
    let writer = StdWriter::<W, O>::new(output);
    let mut devices = Devices::new(reader, writer);
    let mut shortage = Shortage::new();
    let outcome = run_deck(alloc, &mut devices, options, &mut shortage, audit);
    let Devices { reader, writer } = devices;
    Ran {
        outcome,
        shortage,
        input: reader.into_inner(),
        output: writer.into_inner(),
    }
}
