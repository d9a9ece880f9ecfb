//! A whole run: a deck is read piece by piece, and answered card by card.
ghost use Rattle.std.specs.Prelude.{◌≡◌, ◌++◌, ◌<◌, ◌≤◌, ◌+◌, ◌^◌, take, ◌⊎◌, ℕ, List, [], None, true, false, length, vec_len, Result, IfSome, IfOk, OnOk, OnErr};
ghost use Rattle.deck_lines.specs.declared.deck_error.DeckError.{DeckError, DeckError as AnyCode};
ghost use Rattle.mon_catalogue.specs.Sets.{Sets};
ghost use Rattle.scheduler.specs.Marks.{Marks};
ghost use Rattle.deck_syntax.specs.Decks.{Stopped, Refused};
ghost use Rattle.mon_device.specs.declared.transfer.TheConstants.{MOST_READS};
ghost use Rattle.mon_device.specs.Devices.{Gives, IsAtEnd, HasRead, holding};
ghost use Rattle.mon_device.specs.Putting.{Puts};
ghost use Rattle.deck_driver.specs.Feeds.{Begins, Good, refused_at, error_at, is_reading, used_by, IsReadBack};
ghost use Rattle.deck_driver.specs.Abstraction.{outcome_from, audit_told};
ghost use Rattle.deck_driver.specs.inner.Counting.{lines_ended};
ghost use Rattle.deck_driver.specs.Printouts.{ReadsBack};
ghost use Rattle.deck_run.specs.inner.Writing.{holds, HasGrown, Serves, Refuses, Starts, Begun, Runs, Stands, IsDue, BrokeOffAt, BrokeAt};
ghost use Rattle.deck_run.specs.Runs.{deck_ending, counts_of, HoldsBeginning, HasWritten, HasRun, HasBegun, HasPrinted, HasBrokenOff};
ghost use Rattle.deck_run.specs.Audited.{end_told, is_broken, Then, IsSettled, IsWrittenAhead};
ghost use Rattle.deck_run.specs.inner.Ahead.{IsAhead, EndsAhead};
ghost use Rattle.deck_run.specs.Faults.{status_of, fault_line};

use crate::output::{Output, Unwritten, write_out};
use crate::shortage::Shortage;
use audit::{print_deck_refused, print_stopped};
use deck_driver::{Counts, DeckFeed, Options, RunError};
use mon_device::{DeckDevices, Failed, MOST_READS, READ_SIZE, Sink, WRITE_SIZE};
use mon_text::put_number;
use std::alloc::{AllocError, Global};

/// Runs a deck: reads all of it, serves its commands and runs its jobs as its cards say, and writes the printout of each,
/// as it is served or has ended, and then the catalogue as it stands. Where the deck is only to be checked, none of this is
/// done, and `DECK OK` is written in place of it.
///
/// Memory may break off turns of jobs; the run goes on then. The marks say where it did. How far the run has come is noted in the
/// shortage, to be told where memory runs out.
///
/// What happens is told to the audit, a line each, as it happens, and the audit has taken its line before an effect of it is
/// written. At last it is told how the deck has ended.
///
/// The reader and the writer come as one, of which no call is made once one has failed.
///
/// # Errors
///
/// `DeckRefused` at the first line that is refused: what the cards before it print was written, unless the
/// deck was only to be checked, and no catalogue. `ReadFault` where the reader failed, or where 4,294,967,295 reads did not
/// come to its end: the output of all lines that were read whole was written. `WriteFault` where the writer failed; `Memory`
/// where a growth was refused: the output of the lines before that was written. `AuditFault` where the audit was not taken: of what
/// it was not told nothing was written.
pub fn run_deck<D: DeckDevices, A: Sink>(
    alloc: Global,
    devices: &mut D,
    options: Options,
    shortage: &mut Shortage,
    audit: &mut A,
) -> Result<Counts, RunError>
    requires sound { (D.read_failed devices.old ≡ false) × (D.write_failed devices.old ≡ false) }

    // A good deck was read to its end, and its output was written, whose catalogue can be read again.
    ensures at_end { OnOk result (IsAtEnd (D.remaining devices.new)) }
    ensures stopped { OnOk result (IfSome (D.remaining devices.old) (λ bytes. deck_ending bytes ≡ Stopped)) }
    ensures output { OnOk result (IfSome (D.remaining devices.old) (λ bytes. Then (HasRun options (D.written devices.old) (D.written devices.new) bytes (A.standing audit.old)) (end_told options.check result) (A.standing audit.new))) }
    ensures counts { IfOk result (λ counts. IfSome (D.remaining devices.old) (λ bytes. counts ≡ counts_of bytes)) }

    // A refused deck is refused at its first refusal, and what came before that was written.
    ensures refused { (line : ℕ) (code : DeckError) → result ≡ Err (RunError.DeckRefused line code) →
        IfSome (D.remaining devices.old) (λ bytes. deck_ending bytes ≡ Refused line code) }
    ensures refused_output { (line : ℕ) (code : DeckError) → result ≡ Err (RunError.DeckRefused line code) →
        IfSome (D.remaining devices.old) (λ bytes. Then (HasWritten options (D.written devices.old) (D.written devices.new) bytes (A.standing audit.old)) (end_told options.check result) (A.standing audit.new)) }

    // Whatever is answered, what was written is a beginning of the output, and what was put to the audit a beginning of the audit; and
    // behind it the line of an end at most.
    ensures begun { (end : Result Counts RunError) × Then (HasBegun options (D.remaining devices.old) (D.remaining devices.new) (D.written devices.old) (D.written devices.new) (A.standing audit.old)) (end_told options.check end) (A.standing audit.new) }

    // Nothing was written of which the audit's writer has not taken all lines before, and those of all that came before; and where the deck
    // came to its end, it has taken all.
    ensures ahead { A.heeded ≡ true → IsWrittenAhead options (D.remaining devices.old) (D.remaining devices.new) (D.written devices.old) (D.written devices.new) (A.standing audit.old) (A.standing audit.new) }
    ensures settled { A.heeded ≡ true → is_broken result ≡ false → IsSettled (A.standing audit.new) }

    // Where the reader failed, all lines that were read whole have been answered, and none was refused. They had been before
    // that read, since nothing may be written after it.
    ensures due { result ≡ Err RunError.ReadFault → HasPrinted options (D.remaining devices.old) (D.remaining devices.new) (D.written devices.old) (D.written devices.new) (A.standing audit.old) (A.standing audit.new) }

    // Where memory ran out, it did at the line that is noted, of the last read: those before it have been answered, none was refused,
    // and no `$STOP` was among them.
    ensures short { result ≡ Err RunError.Memory → HasBrokenOff options shortage.new.line (D.remaining devices.old) (D.remaining devices.new) (D.written devices.old) (D.written devices.new) (A.standing audit.old) (A.standing audit.new) }

    // Where a device failed, or the audit was not taken, that is told; and only there.
    ensures faults { (D.read_failed devices.new ≡ true → result ≡ Err RunError.ReadFault) × (D.write_failed devices.new ≡ true → result ≡ Err RunError.WriteFault) }
    ensures read_fault { result ≡ Err RunError.ReadFault →
        (D.read_failed devices.new ≡ true) ⊎ HasRead MOST_READS (D.reads devices.old) (D.reads devices.new) }
    ensures write_fault { result ≡ Err RunError.WriteFault → D.write_failed devices.new ≡ true }
    ensures audit_fault { result ≡ Err RunError.AuditFault → (A.heeded ≡ true) × ((A.standing audit.new).failed ≡ true) }
{
    let answer = run_cards(alloc, devices, options, shortage, audit);
    tell_end(options.check, answer, audit)
}

// Runs a deck up to its end, of which the audit is not told yet.
fn run_cards<D: DeckDevices, A: Sink>(
    alloc: Global,
    devices: &mut D,
    options: Options,
    shortage: &mut Shortage,
    audit: &mut A,
) -> Result<Counts, RunError>
    requires sound { (D.read_failed devices.old ≡ false) × (D.write_failed devices.old ≡ false) }
    ensures at_end { OnOk result (IsAtEnd (D.remaining devices.new)) }
    ensures stopped { OnOk result (IfSome (D.remaining devices.old) (λ bytes. deck_ending bytes ≡ Stopped)) }
    ensures output { OnOk result (IfSome (D.remaining devices.old) (λ bytes. HasRun options (D.written devices.old) (D.written devices.new) bytes (A.standing audit.old) (A.standing audit.new))) }
    ensures counts { IfOk result (λ counts. IfSome (D.remaining devices.old) (λ bytes. counts ≡ counts_of bytes)) }
    ensures refused { (line : ℕ) (code : DeckError) → result ≡ Err (RunError.DeckRefused line code) →
        IfSome (D.remaining devices.old) (λ bytes. deck_ending bytes ≡ Refused line code) }
    ensures refused_output { (line : ℕ) (code : DeckError) → result ≡ Err (RunError.DeckRefused line code) →
        IfSome (D.remaining devices.old) (λ bytes. HasWritten options (D.written devices.old) (D.written devices.new) bytes (A.standing audit.old) (A.standing audit.new)) }
    ensures begun { HasBegun options (D.remaining devices.old) (D.remaining devices.new) (D.written devices.old) (D.written devices.new) (A.standing audit.old) (A.standing audit.new) }
    ensures due { result ≡ Err RunError.ReadFault → HasPrinted options (D.remaining devices.old) (D.remaining devices.new) (D.written devices.old) (D.written devices.new) (A.standing audit.old) (A.standing audit.new) }
    ensures faults { (D.read_failed devices.new ≡ true → result ≡ Err RunError.ReadFault) × (D.write_failed devices.new ≡ true → result ≡ Err RunError.WriteFault) }
    ensures read_fault { result ≡ Err RunError.ReadFault →
        (D.read_failed devices.new ≡ true) ⊎ HasRead MOST_READS (D.reads devices.old) (D.reads devices.new) }
    ensures write_fault { result ≡ Err RunError.WriteFault → D.write_failed devices.new ≡ true }
    ensures audit_fault { result ≡ Err RunError.AuditFault → (A.heeded ≡ true) × ((A.standing audit.new).failed ≡ true) }
    ensures ahead { A.heeded ≡ true → IsWrittenAhead options (D.remaining devices.old) (D.remaining devices.new) (D.written devices.old) (D.written devices.new) (A.standing audit.old) (A.standing audit.new) }
    ensures short { result ≡ Err RunError.Memory → HasBrokenOff options shortage.new.line (D.remaining devices.old) (D.remaining devices.new) (D.written devices.old) (D.written devices.new) (A.standing audit.old) (A.standing audit.new) }
{
    *shortage = Shortage::new();
    let mut feed = DeckFeed::new(alloc, options);
    let mut out = Output::new(alloc)?;
    match feed_all(alloc, devices, &mut feed, &mut out, audit, shortage) {
        Ok(()) => finish(alloc, feed, &mut out, devices, audit),
        Err(error) => Err(error),
    }
}

// Tells the audit how the deck has come to its end, if it has.
fn tell_end<A: Sink>(
    check: bool,
    answer: Result<Counts, RunError>,
    audit: &mut A,
) -> Result<Counts, RunError>
    ensures puts { Puts (A.standing audit.old) (A.standing audit.new) (end_told check answer) }
    ensures answer { (result ≡ answer) ⊎ ((is_broken answer ≡ false) × (result ≡ Err RunError.AuditFault) × (A.heeded ≡ true) × ((A.standing audit.new).failed ≡ true)) }
    ensures broken { is_broken answer ≡ true → (result ≡ answer) × (A.standing audit.new ≡ A.standing audit.old) }
    ensures settled { A.heeded ≡ true → is_broken result ≡ false → IsSettled (A.standing audit.new) }
{
    if is_broken(&answer) {
        return answer;
    }
    print_end(check, &answer, audit);
    match audit.flush() {
        Ok(()) => answer,
        Err(_) => Err(RunError::AuditFault),
    }
}

// Whether the run broke off before its deck came to its end.
fn is_broken(answer: &Result<Counts, RunError>) -> bool
    ensures { result ≡ is_broken answer.now }
{
    match answer {
        Ok(_) | Err(RunError::DeckRefused(..)) => false,
        Err(RunError::ReadFault | RunError::WriteFault | RunError::AuditFault | RunError::Memory) =>
            true,
    }
}

#[tactic(auto, using(mon_device::proofs::Putting::puts_nothing))]
fn print_end<A: Sink>(check: bool, answer: &Result<Counts, RunError>, audit: &mut A)
    ensures { Puts (A.standing audit.old) (A.standing audit.new) (end_told check answer.now) }
{
    if check {
        return;
    }
    match answer {
        Ok(_) => print_stopped(audit),
        Err(RunError::DeckRefused(line, code)) => {
            print_deck_refused(*line, code.text().as_bytes(), audit);
        }
        Err(RunError::ReadFault | RunError::WriteFault | RunError::AuditFault | RunError::Memory) =>
            {}
    }
}

// Feeds all that is read, read by read, and writes what is printed.
fn feed_all<D: DeckDevices, A: Sink>(
    alloc: Global,
    devices: &mut D,
    feed: &mut DeckFeed,
    out: &mut Output,
    audit: &mut A,
    shortage: &mut Shortage,
) -> Result<(), RunError>
    requires sound { (D.read_failed devices.old ≡ false) × (D.write_failed devices.old ≡ false) }
    requires start { feed.old.fed ≡ 0 }
    requires first { shortage.old.line ≡ 1 }
    requires reading { is_reading feed.old.state ≡ true }
    requires empty { out.old.printed ≡ [] }
    ensures runs { OnOk result ((given : List ℕ) × Runs (D.remaining devices.old) (D.remaining devices.new) (D.written devices.old) (D.written devices.new) feed.old feed.new given (A.standing audit.old) (A.standing audit.new)
        × IsDue 1 shortage.new.line feed.new given × (A.heeded ≡ true → IsAhead (D.written devices.old) (D.written devices.new) [] feed.old given (A.standing audit.old) (A.standing audit.new))) }
    ensures begun { OnErr result ((given : List ℕ) × Begun (D.remaining devices.old) (D.remaining devices.new) (D.written devices.old) (D.written devices.new) feed.old given (A.standing audit.old) (A.standing audit.new)) }
    ensures due { result ≡ Err RunError.ReadFault → (given : List ℕ) × Runs (D.remaining devices.old) (D.remaining devices.new) (D.written devices.old) (D.written devices.new) feed.old feed.new given (A.standing audit.old) (A.standing audit.new) }
    ensures short { result ≡ Err RunError.Memory → (given : List ℕ) × BrokeAt (D.remaining devices.old) (D.remaining devices.new) (D.written devices.old) (D.written devices.new) feed.old given 1 shortage.new.line (A.standing audit.old) (A.standing audit.new) }
    ensures at_end { OnOk result (IsAtEnd (D.remaining devices.new)) }
    ensures empty { OnOk result (out.new.printed ≡ []) }
    ensures reads_back { IsReadBack feed.old.options.check feed.old.state → OnOk result (IsReadBack feed.new.options.check feed.new.state) }
    ensures options { feed.new.options ≡ feed.old.options }
    ensures refused { (n : ℕ) (code : AnyCode) → result ≡ Err (RunError.DeckRefused n code) →
        IfSome (D.remaining devices.old) (λ bytes. (marks : Marks) × (holds (D.written devices.new) (refused_at n code) ≡ holds (D.written devices.old) (outcome_from marks feed.old bytes)) × Puts (A.standing audit.old) (A.standing audit.new) (audit_told marks feed.old bytes)) }
    ensures sound { OnOk result ((D.read_failed devices.new ≡ false) × (D.write_failed devices.new ≡ false)) }
    ensures faults { (D.read_failed devices.new ≡ true → result ≡ Err RunError.ReadFault) × (D.write_failed devices.new ≡ true → result ≡ Err RunError.WriteFault) }
    ensures read_fault { result ≡ Err RunError.ReadFault →
        (D.read_failed devices.new ≡ true) ⊎ HasRead MOST_READS (D.reads devices.old) (D.reads devices.new) }
    ensures write_fault { result ≡ Err RunError.WriteFault → D.write_failed devices.new ≡ true }
    ensures audit_fault { result ≡ Err RunError.AuditFault → (A.heeded ≡ true) × ((A.standing audit.new).failed ≡ true) }
    ensures ahead { A.heeded ≡ true → OnErr result ((given : List ℕ) × Gives (D.remaining devices.old) given (D.remaining devices.new) × IsAhead (D.written devices.old) (D.written devices.new) [] feed.old given (A.standing audit.old) (A.standing audit.new)) }
{
    let mut buffer = buffer_of(alloc, READ_SIZE)?;
    for _read in 0..MOST_READS {
        match devices.read(&mut buffer) {
            Err(Failed) => return Err(RunError::ReadFault),
            Ok(0) => return Ok(()),
            Ok(count) => match serve(alloc, feed, &buffer[..count], out, devices, audit, shortage) {
                Ok(()) => {}
                Err(error) => return Err(error),
            },
        }
    }
    Err(RunError::ReadFault)
}

// A buffer for reads, of so many bytes.
fn buffer_of(alloc: Global, size: usize) -> Result<Vec<u8>, AllocError>
    ensures { IfOk result (λ buffer. vec_len buffer ≡ size) }
{
    Ok(vec![in alloc; 0; size]?)
}

// Feeds what a read gave, line by line, and writes what is printed.
fn serve<D: DeckDevices, A: Sink>(
    alloc: Global,
    feed: &mut DeckFeed,
    piece: &[u8],
    out: &mut Output,
    devices: &mut D,
    audit: &mut A,
    shortage: &mut Shortage,
) -> Result<(), RunError>
    requires sound { (D.read_failed devices.old ≡ false) × (D.write_failed devices.old ≡ false) }
    requires few { feed.old.fed + length piece.now < 2 ^ 63 }
    requires lines { shortage.old.line ≤ feed.old.fed + 1 }
    requires reading { error_at feed.old.state ≡ None }
    requires empty { out.old.printed ≡ [] }
    ensures served { OnOk result (Stands (D.written devices.old) (D.written devices.new) [] feed.old feed.new piece.now (A.standing audit.old) (A.standing audit.new)) }
    ensures refused { (n : ℕ) (code : AnyCode) → result ≡ Err (RunError.DeckRefused n code) →
        Refuses (D.written devices.old) (D.written devices.new) [] feed.old piece.now n code (A.standing audit.old) (A.standing audit.new) }
    ensures begun { Starts (D.written devices.old) (D.written devices.new) [] feed.old piece.now (A.standing audit.old) (A.standing audit.new) }
    ensures short { result ≡ Err RunError.Memory → BrokeOffAt (D.written devices.old) (D.written devices.new) feed.old piece.now shortage.old.line shortage.new.line (A.standing audit.old) (A.standing audit.new) }
    ensures due { OnOk result (IsDue shortage.old.line shortage.new.line feed.new piece.now) }
    ensures lines { OnOk result (shortage.new.line ≤ feed.new.fed + 1) }
    ensures empty { OnOk result (out.new.printed ≡ []) }
    ensures fed { OnOk result (feed.new.fed ≡ feed.old.fed + length piece.now) }
    ensures reads_back { IsReadBack feed.old.options.check feed.old.state → OnOk result (IsReadBack feed.new.options.check feed.new.state) }
    ensures options { feed.new.options ≡ feed.old.options }
    ensures apart { (D.remaining devices.new ≡ D.remaining devices.old) × (D.reads devices.new ≡ D.reads devices.old) × (D.read_failed devices.new ≡ false) }
    ensures sound { OnOk result (D.write_failed devices.new ≡ false) }
    ensures faults { D.write_failed devices.new ≡ true → result ≡ Err RunError.WriteFault }
    ensures read_fault { result ≡ Err RunError.ReadFault → ⊥ }
    ensures write_fault { result ≡ Err RunError.WriteFault → D.write_failed devices.new ≡ true }
    ensures audit_fault { result ≡ Err RunError.AuditFault → (A.heeded ≡ true) × ((A.standing audit.new).failed ≡ true) }
    ensures ahead { A.heeded ≡ true → IsAhead (D.written devices.old) (D.written devices.new) [] feed.old piece.now (A.standing audit.old) (A.standing audit.new) }
{
    let mut rest = piece;
    'lines: while !rest.is_empty() {
        let commands = feed.commands();
        let used = serve_line(alloc, feed, rest, out, devices, audit)?;
        shortage.look(feed, commands);
        shortage.pass(&rest[..used]);
        rest = &rest[used..];
    }
    match flush(out, devices, audit) {
        Ok(()) => Ok(()),
        Err(Unwritten::Audit) => Err(RunError::AuditFault),
        Err(Unwritten::Output) => Err(RunError::WriteFault),
    }
}

// Feeds up to the first line end, and writes what is gathered if it is much, or if the deck is refused there.
fn serve_line<D: DeckDevices, A: Sink>(
    alloc: Global,
    feed: &mut DeckFeed,
    piece: &[u8],
    out: &mut Output,
    devices: &mut D,
    audit: &mut A,
) -> Result<usize, RunError>
    requires sound { (D.read_failed devices.old ≡ false) × (D.write_failed devices.old ≡ false) }
    requires full { 0 < length piece.now }
    requires few { feed.old.fed + length piece.now < 2 ^ 63 }
    requires reading { error_at feed.old.state ≡ None }
    ensures used { IfOk result (λ used. (0 < used) × (used ≤ length piece.now) × (feed.new.fed ≡ feed.old.fed + used)) }
    ensures line { IfOk result (λ used. used ≡ used_by feed.old.state piece.now) }
    ensures served { IfOk result (λ used. Serves (D.written devices.old) (D.written devices.new) out.old.printed feed.old (take used piece.now) out.new.printed feed.new (A.standing audit.old) (A.standing audit.new)) }
    ensures refused { (n : ℕ) (code : AnyCode) → result ≡ Err (RunError.DeckRefused n code) →
        Refuses (D.written devices.old) (D.written devices.new) out.old.printed feed.old piece.now n code (A.standing audit.old) (A.standing audit.new) }
    ensures begun { Starts (D.written devices.old) (D.written devices.new) out.old.printed feed.old piece.now (A.standing audit.old) (A.standing audit.new) }
    ensures short { result ≡ Err RunError.Memory → (is_reading feed.old.state ≡ true) × (D.written devices.new ≡ holding (D.written devices.old) out.old.printed) × (more : List ℕ) × Puts (A.standing audit.old) (A.standing audit.new) more }
    ensures counted { IfOk result (λ used. is_reading feed.new.state ≡ true → (is_reading feed.old.state ≡ true) × (feed.old.lines_taken + lines_ended (take used piece.now) ≤ feed.new.lines_taken)) }
    ensures reading { OnOk result (error_at feed.new.state ≡ None) }
    ensures grown { HasGrown (D.written devices.old) (D.written devices.new) }
    ensures reads_back { IsReadBack feed.old.options.check feed.old.state → OnOk result (IsReadBack feed.new.options.check feed.new.state) }
    ensures options { feed.new.options ≡ feed.old.options }
    ensures apart { (D.remaining devices.new ≡ D.remaining devices.old) × (D.reads devices.new ≡ D.reads devices.old) × (D.read_failed devices.new ≡ false) }
    ensures sound { OnOk result (D.write_failed devices.new ≡ false) }
    ensures faults { D.write_failed devices.new ≡ true → result ≡ Err RunError.WriteFault }
    ensures read_fault { result ≡ Err RunError.ReadFault → ⊥ }
    ensures write_fault { result ≡ Err RunError.WriteFault → D.write_failed devices.new ≡ true }
    ensures audit_fault { result ≡ Err RunError.AuditFault → (A.heeded ≡ true) × ((A.standing audit.new).failed ≡ true) }
    ensures ahead { A.heeded ≡ true → IsAhead (D.written devices.old) (D.written devices.new) out.old.printed feed.old piece.now (A.standing audit.old) (A.standing audit.new) }
{
    match feed.feed_line(alloc, piece, &mut out.printed, audit) {
        Ok(used) => match flush_large(out, devices, audit) {
            Ok(()) => Ok(used),
            Err(Unwritten::Audit) => Err(RunError::AuditFault),
            Err(Unwritten::Output) => Err(RunError::WriteFault),
        },
        Err(error) => match write_out(out, devices, audit) {
            Ok(()) => Err(error),
            Err(Unwritten::Audit) => Err(RunError::AuditFault),
            Err(Unwritten::Output) => Err(RunError::WriteFault),
        },
    }
}

// Writes what is gathered, if it is much.
fn flush_large<D: DeckDevices, A: Sink>(
    out: &mut Output,
    devices: &mut D,
    audit: &mut A,
) -> Result<(), Unwritten>
    requires sound { (D.read_failed devices.old ≡ false) × (D.write_failed devices.old ≡ false) }
    ensures put { OnOk result (holding (D.written devices.new) out.new.printed ≡ holding (D.written devices.old) out.old.printed) }
    ensures begun { HoldsBeginning (D.written devices.old) (D.written devices.new) out.old.printed }
    ensures sound { OnOk result (D.write_failed devices.new ≡ false) }
    ensures failed { D.write_failed devices.new ≡ true → result ≡ Err Unwritten.Output }
    ensures write_fault { result ≡ Err Unwritten.Output → D.write_failed devices.new ≡ true }
    ensures audit_fault { result ≡ Err Unwritten.Audit → (A.heeded ≡ true) × ((A.standing audit.new).failed ≡ true) }
    ensures apart { (D.remaining devices.new ≡ D.remaining devices.old) × (D.reads devices.new ≡ D.reads devices.old) × (D.read_failed devices.new ≡ false) }
    ensures puts { Puts (A.standing audit.old) (A.standing audit.new) [] }
    ensures ahead { A.heeded ≡ true → (D.written devices.new ≡ D.written devices.old) ⊎ IsSettled (A.standing audit.new) }
{
    if out.printed.is_more_than(WRITE_SIZE) {
        return flush(out, devices, audit);
    }
    Ok(())
}

// The reader is at its end.
fn finish<D: DeckDevices, A: Sink>(
    alloc: Global,
    feed: DeckFeed,
    out: &mut Output,
    devices: &mut D,
    audit: &mut A,
) -> Result<Counts, RunError>
    requires sound { (D.read_failed devices.old ≡ false) × (D.write_failed devices.old ≡ false) }
    requires reading { error_at feed.state ≡ None }
    requires empty { out.old.printed ≡ [] }
    ensures ended { IfOk result (λ counts. (marks : Marks) × (sets : Sets)
        × (holds (D.written devices.new) (record { written = []; conclusion = Good counts sets }) ≡ holds (D.written devices.old) (outcome_from marks feed [])) × Puts (A.standing audit.old) (A.standing audit.new) (audit_told marks feed [])
        × (IsReadBack feed.options.check feed.state → feed.options.check ≡ false → ReadsBack sets)) }
    ensures refused { (n : ℕ) (code : AnyCode) → result ≡ Err (RunError.DeckRefused n code) →
        (marks : Marks) × (holds (D.written devices.new) (refused_at n code) ≡ holds (D.written devices.old) (outcome_from marks feed [])) × Puts (A.standing audit.old) (A.standing audit.new) (audit_told marks feed []) }
    ensures begun { (marks : Marks) × ((rest : Marks) → HoldsBeginning (D.written devices.old) (D.written devices.new) (outcome_from (marks ++ rest) feed []).written)
        × (audited : List ℕ) × ((rest : Marks) → Begins audited (audit_told (marks ++ rest) feed [])) × Puts (A.standing audit.old) (A.standing audit.new) audited }
    ensures short { result ≡ Err RunError.Memory → (is_reading feed.state ≡ true) × (D.written devices.new ≡ D.written devices.old) × (more : List ℕ) × Puts (A.standing audit.old) (A.standing audit.new) more }
    ensures apart { (D.remaining devices.new ≡ D.remaining devices.old) × (D.reads devices.new ≡ D.reads devices.old) × (D.read_failed devices.new ≡ false) }
    ensures faults { D.write_failed devices.new ≡ true → result ≡ Err RunError.WriteFault }
    ensures read_fault { result ≡ Err RunError.ReadFault → ⊥ }
    ensures write_fault { result ≡ Err RunError.WriteFault → D.write_failed devices.new ≡ true }
    ensures audit_fault { result ≡ Err RunError.AuditFault → (A.heeded ≡ true) × ((A.standing audit.new).failed ≡ true) }
    ensures ahead { A.heeded ≡ true → EndsAhead (D.written devices.old) (D.written devices.new) feed (A.standing audit.old) (A.standing audit.new) }
{
    let answer = feed.finish(alloc, &mut out.printed, audit);
    match write_out(out, devices, audit) {
        Ok(()) => answer,
        Err(Unwritten::Audit) => Err(RunError::AuditFault),
        Err(Unwritten::Output) => Err(RunError::WriteFault),
    }
}

// Writes what is gathered.
#[tactic(auto, using(mon_device::proofs::Holding::holds))]
fn flush<D: DeckDevices, A: Sink>(
    out: &mut Output,
    devices: &mut D,
    audit: &mut A,
) -> Result<(), Unwritten>
    requires sound { (D.read_failed devices.old ≡ false) × (D.write_failed devices.old ≡ false) }
    ensures written { OnOk result (D.written devices.new ≡ holding (D.written devices.old) out.old.printed) }
    ensures put { OnOk result (holding (D.written devices.new) out.new.printed ≡ holding (D.written devices.old) out.old.printed) }
    ensures begun { HoldsBeginning (D.written devices.old) (D.written devices.new) out.old.printed }
    ensures empty { OnOk result (out.new.printed ≡ []) }
    ensures sound { OnOk result (D.write_failed devices.new ≡ false) }
    ensures failed { D.write_failed devices.new ≡ true → result ≡ Err Unwritten.Output }
    ensures write_fault { result ≡ Err Unwritten.Output → D.write_failed devices.new ≡ true }
    ensures audit_fault { result ≡ Err Unwritten.Audit → (A.heeded ≡ true) × ((A.standing audit.new).failed ≡ true) }
    ensures apart { (D.remaining devices.new ≡ D.remaining devices.old) × (D.reads devices.new ≡ D.reads devices.old) × (D.read_failed devices.new ≡ false) }
    ensures puts { Puts (A.standing audit.old) (A.standing audit.new) [] }
    ensures ahead { A.heeded ≡ true → (D.written devices.new ≡ D.written devices.old) ⊎ IsSettled (A.standing audit.new) }
{
    write_out(out, devices, audit)?;
    out.printed.clear();
    Ok(())
}

/// The exit status of the program: 0, 1 where the deck is refused, 3 where something failed.
pub fn exit_status(outcome: &Result<Counts, RunError>) -> u8
    ensures { result ≡ status_of outcome.now }
{
    match outcome {
        Ok(_) => 0,
        Err(RunError::DeckRefused(..)) => 1,
        Err(RunError::ReadFault | RunError::WriteFault | RunError::AuditFault | RunError::Memory) =>
            3,
    }
}

/// Appends the line of standard error for a fault.
///
/// # Errors
///
/// Where a growth was refused; a part of the line may have been appended.
pub fn put_fault(fault: &RunError, out: &mut Vec<u8>) -> Result<(), AllocError>
    ensures { OnOk result (out.new.items ≡ out.old.items ++ fault_line fault.now) }
{
    out.extend_from_slice(b"snomon: ")?;
    match fault {
        RunError::DeckRefused(line, code) => {
            out.extend_from_slice(b"line ")?;
            put_number(*line, out)?;
            out.extend_from_slice(b": ")?;
            out.extend_from_slice(code.text().as_bytes())?;
        }
        RunError::ReadFault => out.extend_from_slice(b"read fault")?,
        RunError::WriteFault => out.extend_from_slice(b"write fault")?,
        RunError::AuditFault => out.extend_from_slice(b"audit fault")?,
        RunError::Memory => out.extend_from_slice(b"out of memory")?,
    }
    out.extend_from_slice(b"\n")
}
