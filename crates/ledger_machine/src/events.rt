//! What happens in a run, event by event: what it prints is appended, and what it tells is put to an audit. A job that ends for want of
//! memory breaks the run off: so what was done is what is done where memory is never short.
ghost use Rattle.std.specs.Prelude.{◌≡◌, ◌≢◌, ◌++◌, true, OnOk};
ghost use Rattle.std.specs.List.{flat_map};
ghost use Rattle.sno_run.specs.declared.ending.Ending.TheVariants.{Memory};
ghost use Rattle.job_end.specs.Printouts.{printout};
ghost use Rattle.mon_monitor.specs.Abstraction.{system_of};
ghost use Rattle.mon_monitor.specs.Events.{Serve, Load, Give, Drain};
ghost use Rattle.mon_monitor.specs.Played.{of_loading};
ghost use Rattle.mon_monitor.specs.Audit.{loading_lines};
ghost use Rattle.mon_monitor.specs.Happening.{Does};
ghost use Rattle.ledger_machine.specs.Running.{HappensTo, AreWhole};

use deck_lines::Turn;
use mon_device::{Sink, TextSink};
use mon_monitor::{Command, JobDeck, JobEnd, Monitor, Printed, put_printout, put_refusal};
use mon_text::Stop;
use scheduler::laws::marks_end_jobs;
use scheduler::{print_loaded, print_refused};
use sno_run::Ending;
use std::alloc::{AllocError, Global};

// A command is served.
pub(crate) fn serve<S: Sink>(
    monitor: &mut Monitor,
    alloc: Global,
    command: Command,
    out: &mut Vec<u8>,
    audit: &mut S,
) -> Result<(), AllocError>
    ensures { OnOk result (HappensTo (Serve command) (system_of monitor.old) out.old.items
        (system_of monitor.new) out.new.items (S.standing audit.old) (S.standing audit.new)) }
{
    let mut printed = Printed::new(alloc)?;
    monitor.serve_command(alloc, command, &mut printed, audit)?;
    put_printed(&printed, out)
}

// Appends what is printed.
fn put_printed(printed: &Printed, out: &mut Vec<u8>) -> Result<(), AllocError>
    ensures { OnOk result (out.new.items ≡ out.old.items ++ printed.now) }
{
    let mut sink = TextSink::new(out);
    printed.print(&mut sink);
    sink.settle()
}

// All jobs come to their ends.
pub(crate) fn drain<S: Sink>(
    monitor: &mut Monitor,
    alloc: Global,
    out: &mut Vec<u8>,
    audit: &mut S,
) -> Result<(), AllocError>
    ensures { OnOk result (HappensTo Drain (system_of monitor.old) out.old.items
        (system_of monitor.new) out.new.items (S.standing audit.old) (S.standing audit.new)) }
{
    marks_end_jobs();
    let ends = monitor.drain(alloc, audit)?;
    put_ends(&ends, out)
}

// A slot has turns.
pub(crate) fn give<S: Sink>(
    monitor: &mut Monitor,
    alloc: Global,
    turn: Turn,
    out: &mut Vec<u8>,
    audit: &mut S,
) -> Result<(), AllocError>
    ensures { OnOk result (HappensTo (Give turn.slot turn.count) (system_of monitor.old) out.old.items
        (system_of monitor.new) out.new.items (S.standing audit.old) (S.standing audit.new)) }
{
    marks_end_jobs();
    let end = monitor.turns_of(alloc, turn.slot, turn.count, audit)?;
    match end {
        Some(end) => put_end(&end, out),
        None => Ok(()),
    }
}

// A job enters, behind the turns that make room for it.
pub(crate) fn enter<S: Sink>(
    monitor: &mut Monitor,
    alloc: Global,
    deck: JobDeck,
    out: &mut Vec<u8>,
    audit: &mut S,
) -> Result<(), AllocError>
    ensures { OnOk result (HappensTo (Load deck) (system_of monitor.old) out.old.items
        (system_of monitor.new) out.new.items (S.standing audit.old) (S.standing audit.new)) }
{
    marks_end_jobs();
    let ends = monitor.room(alloc, audit)?;
    put_ends(&ends, out)?;
    put_load(monitor, alloc, deck, out, audit)
}

// Loads a job, or appends why it is refused.
fn put_load<S: Sink>(
    monitor: &mut Monitor,
    alloc: Global,
    deck: JobDeck,
    out: &mut Vec<u8>,
    audit: &mut S,
) -> Result<(), AllocError>
    ensures { OnOk result (Does (of_loading deck) (loading_lines deck) (system_of monitor.old) out.old.items
        (system_of monitor.new) out.new.items (S.standing audit.old) (S.standing audit.new)) }
{
    let number = deck.number;
    let account = deck.account.copy();
    match monitor.load(alloc, deck) {
        Ok(_) => {
            print_loaded(number, &account, audit);
            Ok(())
        }
        Err(Stop::Refused(refusal)) => {
            print_refused(number, &account, &refusal, audit);
            put_refusal(number, &account, refusal, out)
        }
        Err(Stop::Memory) => Err(AllocError),
    }
}

// Appends what jobs print that have ended, none of them for want of memory.
fn put_ends(ends: &[JobEnd], out: &mut Vec<u8>) -> Result<(), AllocError>
    ensures printed { OnOk result (out.new.items ≡ out.old.items ++ flat_map printout ends.now) }
    ensures whole { OnOk result (AreWhole ends.now) }
{
    for end in ends {
        put_end(end, out)?;
    }
    Ok(())
}

fn put_end(end: &JobEnd, out: &mut Vec<u8>) -> Result<(), AllocError>
    ensures printed { OnOk result (out.new.items ≡ out.old.items ++ printout end.now) }
    ensures whole { OnOk result (end.now.ending ≢ Memory) }
{
    if !is_whole(end.ending) {
        return Err(AllocError);
    }
    put_printout(end, out)
}

fn is_whole(ending: Ending) -> bool
    ensures { result ≡ true → ending ≢ Memory }
{
    match ending {
        Ending::Normal | Ending::StatementLimit | Ending::MatchLimit(_) | Ending::Fault(_, _) =>
            true,
        Ending::Memory => false,
    }
}
