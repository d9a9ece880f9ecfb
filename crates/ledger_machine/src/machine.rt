//! What runs a site's texts: each over a copy of the data sets as they stand, so that one that is broken off has changed nothing.
ghost use Rattle.std.specs.Prelude.{◌≡◌, ◌≤◌, List, ◌+◌, ◌++◌, [], length, Some, IfOk, OnOk};
ghost use Rattle.std.specs.Str.Lines.{lines};
ghost use Rattle.mon_monitor.specs.Abstraction.{system_of};
ghost use Rattle.deck_syntax.specs.Sections.{Closed};
ghost use Rattle.deck_syntax.specs.Decks.{Asked};
ghost use Rattle.preflight.specs.Submissions.{IsAdmitted, lines_of};
ghost use Rattle.site_plan.specs.Tables.{table_of};
ghost use Rattle.ledger_sets.specs.Seeing.{site_of};
ghost use Rattle.mon_monitor.specs.Printouts.{printouts_text};
ghost use Rattle.mon_monitor.specs.Played.{played};
ghost use Rattle.mon_monitor.specs.Audit.{audit_of};
ghost use Rattle.deck_run.specs.Laws.{jobs_in};
ghost use Rattle.ledger_machine.specs.Running.{asked_events, asked_ahead};
ghost use Rattle.ledger_machine.specs.Steps.{good_of, step_asked, step_at};
ghost use Rattle.ledger_machine.specs.Written.{IsWrittenAsked, LeavesWritten, site_over};
ghost use Rattle.ledger_sets.specs.Applying.{Site};
ghost use Rattle.ledger_sets.specs.Parts.{those_of};
ghost use Rattle.ledger_sets.specs.Changes.{run_changes, change_text};
ghost use Rattle.ledger_sets.specs.Laws.{AreSmall};
ghost use Rattle.mon_catalogue.specs.Stored.{IsStored, ArePrintable};

use crate::running::{Running, play};
use crate::watched_audit::WatchedAudit;
use crate::watching::{Unwatched, Watch};
use deck_syntax::first_line;
use ledger_frames::enough_for;
use ledger_frames::laws::some_are_enough;
use ledger_run::{LedgerError, Outcome};
use ledger_sets::{Part, State, run_change};
use mon_access::Accounts;
use mon_catalogue::Catalogue;
use mon_device::TextSink;
use mon_monitor::Monitor;
use mon_text::{Name, Stop, read_name};
use preflight::{Submission, examine};
use site_plan::read_table;
use sno_text::Seed;
use std::alloc::{AllocError, Global};

// Numbers and lengths that a commit can say are below this one.
const LIMIT: u64 = 1 << 63;

/// Runs a text over a state, which stays: what it prints, and what it changes. What it leaves and changes can be written.
///
/// # Errors
///
/// Where memory was short; or the state's table gives no accounts, or the text is none that its account may hand in, or so many jobs ran,
/// or it changes so much, that no commit can say it (`Refused`).
pub fn run_text(
    alloc: Global,
    seed: Seed,
    state: &State,
    file: &[u8],
) -> Result<Outcome, LedgerError>
    ensures told { IfOk result (λ outcome. step_at file.now (site_of state.now) ≡ (outcome.printout.items, outcome.change.items)) }
    ensures written { OnOk result (LeavesWritten file.now (site_of state.now)) }
{
    let mut free = Unwatched;
    run_watched(alloc, seed, state, file, &mut free)
}

/// Runs a text so, as long as it may go on. One that is broken off has no effect: it ran over a copy.
///
/// # Errors
///
/// As `run_text`, and where the watch says that it may not go on (`Late`, `Long`).
pub fn run_watched<W: Watch>(
    alloc: Global,
    seed: Seed,
    state: &State,
    file: &[u8],
    watch: &mut W,
) -> Result<Outcome, LedgerError>
    ensures told { IfOk result (λ outcome. step_at file.now (site_of state.now) ≡ (outcome.printout.items, outcome.change.items)) }
    ensures written { OnOk result (LeavesWritten file.now (site_of state.now)) }
    ensures within { IfOk result (λ outcome. length outcome.printout.items ≤ W.most watch.old) }
{
    if file.is_empty() {
        return Err(LedgerError::Refused);
    }
    watch.begin();
    let (line, text) = first_line(file);
    let own = read_own(line)?;
    let kept = examined(alloc, &own, text)?;
    let accounts = read_accounts(alloc, &state.tables.accounts)?;
    let which = enough_for(alloc, &kept)?;
    let over = Part {
        catalogue: &state.catalogue,
        which: &which,
    };
    state.catalogue.reads_back();
    some_are_enough();
    let means = Means {
        alloc,
        seed,
        jobs: state.jobs,
    };
    run_over(means, accounts, over, text, watch)
}

// Of what a run takes its memory, by what hash it finds what jobs name, and how many jobs ran before.
#[derive(Clone, Copy)]
struct Means {
    alloc: Global,
    seed: Seed,
    jobs: u64,
}

// Whose text it is.
fn read_own(line: &[u8]) -> Result<Name, LedgerError>
    ensures { IfOk result (λ own. own ≡ line.now) }
{
    match read_name(line) {
        Ok(own) => Ok(own),
        Err(_) => Err(LedgerError::Refused),
    }
}

// The text, which its account may hand in.
fn examined(alloc: Global, own: &Name, text: &[u8]) -> Result<Submission, LedgerError>
    ensures admitted { IfOk result (λ kept. (asked : List Asked) × IsAdmitted kept asked) }
    ensures account { IfOk result (λ kept. kept.account ≡ own.now) }
    ensures lines { IfOk result (λ kept. lines_of kept ≡ lines text.now) }
{
    match examine(alloc, own, text) {
        Ok(kept) => Ok(kept),
        Err(Stop::Refused(_)) => Err(LedgerError::Refused),
        Err(Stop::Memory) => Err(LedgerError::from(AllocError)),
    }
}

fn read_accounts(alloc: Global, table: &[u8]) -> Result<Accounts, LedgerError>
    ensures { IfOk result (λ accounts. good_of (table_of table.now) ≡ Some accounts) }
{
    match read_table(alloc, table) {
        Ok(accounts) => Ok(accounts),
        Err(Stop::Refused(_)) => Err(LedgerError::Refused),
        Err(Stop::Memory) => Err(LedgerError::from(AllocError)),
    }
}

fn copy_of(alloc: Global, over: Part<'_>) -> Result<Catalogue, LedgerError>
    ensures { IfOk result (λ copy. copy ≡ those_of over.entry.which.now over.entry.catalogue.now) }
{
    match over.copy(alloc) {
        Ok(copy) => Ok(copy),
        Err(_) => Err(LedgerError::from(AllocError)),
    }
}

// Runs a text that was examined, over a copy of these data sets.
fn run_over<W: Watch>(
    means: Means,
    accounts: Accounts,
    over: Part<'_>,
    text: &[u8],
    watch: &W,
) -> Result<Outcome, LedgerError>
    ensures told { (site : Site) → IfOk result (λ outcome.
        step_asked (site_over site means.jobs (those_of over.entry.which.now over.entry.catalogue.now)) accounts (asked_ahead Closed (lines text.now))
        ≡ (outcome.printout.items, outcome.change.items)) }
    ensures written { (site : Site) → OnOk result (IsWrittenAsked
        (site_over site means.jobs (those_of over.entry.which.now over.entry.catalogue.now)) accounts (asked_ahead Closed (lines text.now))) }
    ensures within { IfOk result (λ outcome. length outcome.printout.items ≤ W.most watch.now) }
{
    let alloc = means.alloc;
    let copy = copy_of(alloc, over)?;
    let monitor = Monitor::new(alloc, means.seed, accounts, copy, 4)?;
    let out = Vec::new(alloc);
    let mut told = Vec::new(alloc);
    let mut running = Running {
        monitor,
        jobs: means.jobs,
        out,
    };
    play_to(&mut running, alloc, text, &mut told, watch)?;
    let Running { monitor, jobs, out } = running;
    let change = change_of(alloc, jobs, &told, over, monitor.catalogue())?;
    Ok(Outcome {
        printout: out,
        change,
    })
}

// What a run changed of these data sets, which became those of a catalogue, and told. It can be written, as these can.
fn change_of(
    alloc: Global,
    jobs: u64,
    told: &[u8],
    before: Part<'_>,
    after: &Catalogue,
) -> Result<Vec<u8>, LedgerError>
    ensures is { IfOk result (λ change. change.items
        ≡ change_text (run_changes jobs told.now (those_of before.entry.which.now before.entry.catalogue.now) after.now)) }
    ensures small { OnOk result (AreSmall (run_changes jobs told.now (those_of before.entry.which.now before.entry.catalogue.now) after.now)) }
    ensures stored { OnOk result (IsStored after.now) }
    ensures printable { OnOk result (ArePrintable after.now) }
{
    let change = run_change(alloc, jobs, told, before, after)?;
    if jobs >= LIMIT {
        return Err(LedgerError::Refused);
    }
    if change.len() as u64 >= LIMIT {
        return Err(LedgerError::Refused);
    }
    before.catalogue.reads_back();
    after.reads_back();
    Ok(change)
}

// Plays a text, with its audit appended to a text. What failed when it was late, failed by that.
fn play_to<W: Watch>(
    running: &mut Running,
    alloc: Global,
    text: &[u8],
    told: &mut Vec<u8>,
    watch: &W,
) -> Result<(), LedgerError>
    ensures printed { OnOk result (running.new.out.items ≡ running.old.out.items
        ++ printouts_text (played (asked_events running.old.jobs (asked_ahead Closed (lines text.now))) [] (system_of running.old.monitor)).printouts) }
    ensures left { OnOk result ((played (asked_events running.old.jobs (asked_ahead Closed (lines text.now))) [] (system_of running.old.monitor)).after
        ≡ system_of running.new.monitor) }
    ensures told { OnOk result (told.new.items ≡ told.old.items
        ++ audit_of (asked_events running.old.jobs (asked_ahead Closed (lines text.now))) [] (system_of running.old.monitor)) }
    ensures counted { OnOk result (running.old.jobs + jobs_in (asked_ahead Closed (lines text.now)) ≡ running.new.jobs) }
    ensures within { OnOk result (length running.new.out.items ≤ W.most watch.now) }
{
    let sink = TextSink::new(told);
    let mut audit = WatchedAudit { sink, watch };
    match play(running, alloc, text, &mut audit, watch) {
        Ok(()) => Ok(audit.sink.settle()?),
        Err(_) if watch.is_late() => Err(LedgerError::Late),
        Err(error) => Err(error),
    }
}
