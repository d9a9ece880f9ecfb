//! A run whose audit goes to a file, if there is one.
ghost use Rattle.std.specs.Prelude.{◌≡◌, ◌⊎◌, true, Err, None, is_some};
ghost use Rattle.std.specs.Option.{option_and_then};
ghost use Rattle.deck_driver.specs.declared.fault.RunError.{RunError};
ghost use Rattle.mon_device.specs.Putting.{Standing};
ghost use Rattle.mon_device.specs.Telling.{MayTell, where_told};
ghost use Rattle.snomon_library.specs.Auditing.{Audits};
ghost use Rattle.snomon_library.specs.Endings.{Ends, Tells};
ghost use Rattle.snomon_library.specs.Streams.{told_since};

use crate::heeding::{AuditSink, Heeding, PerhapsFile};
use crate::shell::{Ended, finish, run_options};
use deck_driver::{Options, RunError};
use deck_run::{Devices, StdReader, StdWriter, Telling};
use mon_device::{DeviceSink, Room};
use std::alloc::Global;
use std::io;
use std::io::{Read, Write};
use std::marker::Brand;

/// How a run ended whose audit went to a file, if there was one.
#[derive(Drop)]
pub struct Audited<R: Drop, W: Drop, E: Drop, F: Drop> {
    /// How the run ended.
    pub ended: Ended<R, W, E>,
    /// The file, as the run left it.
    pub file: Option<F>,
}

/// Runs a deck, and writes what it does to this file, if there is one. Where there is no memory for what gathers the audit, nothing is
/// read.
pub fn run_audited<R: Read + Drop, W: Write + Drop, E: Write + Drop, F: Write + Drop>(
    alloc: Global,
    options: Options,
    input: R,
    output: W,
    errors: E,
    file: Option<F>,
) -> Audited<R, W, E, F>
    ensures ran { ((a b : Standing) × Ends options (R.remaining input) (told_since (R.remaining input) (R.remaining result.ended.input))
        (W.contents output) (told_since (W.contents output) (W.contents result.ended.output)) a b (is_some file)
        result.ended.status result.ended.is_told (E.contents errors) (E.contents result.ended.errors))
        ⊎ ((result.ended.status ≡ 3) × Tells (Err RunError.Memory) None result.ended.is_told (E.contents errors) (E.contents result.ended.errors)
        × (result.ended.input ≡ input) × (result.ended.output ≡ output) × (result.file ≡ file)) }
    ensures audited { is_some file ≡ true → Audits options (R.remaining input) (told_since (R.remaining input) (R.remaining result.ended.input))
        (W.contents output) (told_since (W.contents output) (W.contents result.ended.output)) (option_and_then F.contents file) (told_since (option_and_then F.contents file) (option_and_then F.contents result.file))
        result.ended.status result.ended.is_told (E.contents errors) (E.contents result.ended.errors)
        ⊎ ((result.ended.status ≡ 3) × Tells (Err RunError.Memory) None result.ended.is_told (E.contents errors) (E.contents result.ended.errors)
        × (result.ended.input ≡ input) × (result.ended.output ≡ output) × (result.file ≡ file)) }
    ensures silent { result.ended.status ≡ 0 → result.ended.errors ≡ errors }
{
    run_into::<R, W, E, F, Brand, Brand>(alloc, options, input, output, errors, file)
}

// The same, of a file whose bytes are told or not.
fn run_into<
    R: Read + Drop,
    W: Write + Drop,
    E: Write + Drop,
    F: Write + Drop,
    T: Telling,
    H: Heeding,
>(
    alloc: Global,
    options: Options,
    input: R,
    output: W,
    errors: E,
    file: Option<F>,
) -> Audited<R, W, E, F>
    requires told { MayTell T.tells (option_and_then F.contents file) }
    requires heard { is_some file ≡ H.heeds }
    ensures ran { ((a b : Standing) × Ends options (R.remaining input) (told_since (R.remaining input) (R.remaining result.ended.input))
        (W.contents output) (told_since (W.contents output) (W.contents result.ended.output)) a b H.heeds
        result.ended.status result.ended.is_told (E.contents errors) (E.contents result.ended.errors))
        ⊎ ((result.ended.status ≡ 3) × Tells (Err RunError.Memory) None result.ended.is_told (E.contents errors) (E.contents result.ended.errors)
        × (result.ended.input ≡ input) × (result.ended.output ≡ output) × (result.file ≡ file)) }
    ensures audited { H.heeds ≡ true → Audits options (R.remaining input) (told_since (R.remaining input) (R.remaining result.ended.input))
        (W.contents output) (told_since (W.contents output) (W.contents result.ended.output)) (where_told T.tells (option_and_then F.contents file)) (where_told T.tells (option_and_then F.contents result.file))
        result.ended.status result.ended.is_told (E.contents errors) (E.contents result.ended.errors)
        ⊎ ((result.ended.status ≡ 3) × Tells (Err RunError.Memory) None result.ended.is_told (E.contents errors) (E.contents result.ended.errors)
        × (result.ended.input ≡ input) × (result.ended.output ≡ output) × (result.file ≡ file)) }
    ensures silent { result.ended.status ≡ 0 → result.ended.errors ≡ errors }
{
    let Ok(mut room) = Room::new(alloc) else {
        let ended = finish(alloc, Err(RunError::Memory), None, input, output, errors);
        return Audited { ended, file };
    };
    let is_heard = file.is_some();
    let nothing = StdReader::<io::Empty, Brand>::new(io::empty());
    let kept = StdWriter::<PerhapsFile<F>, T>::new(PerhapsFile { file });
    let mut devices = Devices::new(nothing, kept);
    let sink = DeviceSink::new(&mut devices, &mut room);
    let mut audit = AuditSink::<_, H>::new(sink, is_heard);
    let ended = run_options(alloc, options, input, output, errors, &mut audit);
    let Devices { reader: _, writer } = devices;
    Audited {
        ended,
        file: writer.into_inner().file,
    }
}
