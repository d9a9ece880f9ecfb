//! A text is run: line by line, each event as it comes.
ghost use Rattle.std.specs.Prelude.{◌≡◌, ◌≤◌, suc, ◌+◌, ◌++◌, [], length, IfOk, OnOk};
ghost use Rattle.std.specs.Str.Lines.{lines};
ghost use Rattle.mon_device.specs.Putting.{Puts};
ghost use Rattle.mon_monitor.specs.Abstraction.{system_of};
ghost use Rattle.mon_monitor.specs.Events.{Load};
ghost use Rattle.mon_monitor.specs.Printouts.{printouts_text};
ghost use Rattle.mon_monitor.specs.Played.{played};
ghost use Rattle.mon_monitor.specs.Audit.{audit_of};
ghost use Rattle.deck_syntax.specs.Jobs.{job_deck_of};
ghost use Rattle.deck_syntax.specs.Sections.{Closed};
ghost use Rattle.deck_syntax.specs.Events.{open_in, event_in, open_after};
ghost use Rattle.deck_run.specs.Laws.{jobs_in};
ghost use Rattle.ledger_machine.specs.Running.{HappensTo, asked_events, Brings, asked_ahead};

use crate::events::{drain, enter, give, serve};
use crate::watching::Watch;
use deck_syntax::{Event, OpenJob, StreamReader, first_line};
use ledger_run::LedgerError;
use mon_device::Sink;
use mon_monitor::Monitor;
use std::alloc::{AllocError, Global};

// A run on its way: the system, how many jobs ran so far, and what was printed.
#[derive(Drop)]
pub(crate) struct Running {
    pub(crate) monitor: Monitor,
    pub(crate) jobs: u64,
    pub(crate) out: Vec<u8>,
}

// Runs a text that was examined, until all of its jobs have come to their ends, or it may not go on.
pub(crate) fn play<S: Sink, W: Watch>(
    running: &mut Running,
    alloc: Global,
    text: &[u8],
    audit: &mut S,
    watch: &W,
) -> Result<(), LedgerError>
    ensures printed { OnOk result (running.new.out.items ≡ running.old.out.items
        ++ printouts_text (played (asked_events running.old.jobs (asked_ahead Closed (lines text.now))) [] (system_of running.old.monitor)).printouts) }
    ensures left { OnOk result ((played (asked_events running.old.jobs (asked_ahead Closed (lines text.now))) [] (system_of running.old.monitor)).after
        ≡ system_of running.new.monitor) }
    ensures audited { OnOk result (Puts (S.standing audit.old) (S.standing audit.new)
        (audit_of (asked_events running.old.jobs (asked_ahead Closed (lines text.now))) [] (system_of running.old.monitor))) }
    ensures counted { OnOk result (running.old.jobs + jobs_in (asked_ahead Closed (lines text.now)) ≡ running.new.jobs) }
    ensures within { OnOk result (length running.new.out.items ≤ W.most watch.now) }
{
    let mut reader = StreamReader::Cards;
    let mut rest = text;
    'lines: while !rest.is_empty() {
        let (line, behind) = first_line(rest);
        let event = read_event(alloc, &mut reader, line)?;
        happen(running, alloc, event, audit)?;
        watch.look(running.out.len() as u64)?;
        rest = behind;
    }
    drain(&mut running.monitor, alloc, &mut running.out, audit)?;
    watch.look(running.out.len() as u64)?;
    Ok(())
}

// What a line brings. None of a text that was examined is refused.
fn read_event(alloc: Global, reader: &mut StreamReader, line: &[u8]) -> Result<Event, AllocError>
    ensures event { IfOk result (λ event. event ≡ event_in (open_in reader.old) line.now) }
    ensures after { OnOk result (open_in reader.new ≡ open_after (open_in reader.old) line.now) }
{
    match reader.line(alloc, line) {
        Ok(event) => Ok(event),
        Err(_) => Err(AllocError),
    }
}

// It happens. The first job has the number behind those that ran before.
fn happen<S: Sink>(
    running: &mut Running,
    alloc: Global,
    event: Event,
    audit: &mut S,
) -> Result<(), AllocError>
    ensures { OnOk result (Brings event running.old.jobs (system_of running.old.monitor) running.old.out.items (S.standing audit.old)
        running.new.jobs (system_of running.new.monitor) running.new.out.items (S.standing audit.new)) }
{
    match event {
        Event::Nothing => Ok(()),
        Event::Opens(_) => Ok(()),
        Event::Stops => Ok(()),
        Event::Asks(command) => serve(
            &mut running.monitor,
            alloc,
            command,
            &mut running.out,
            audit,
        ),
        Event::Enters(job) => begin_job(running, alloc, job, audit),
        Event::Turns(turn) => give(&mut running.monitor, alloc, turn, &mut running.out, audit),
        Event::Drains => drain(&mut running.monitor, alloc, &mut running.out, audit),
    }
}

// A job enters, with the number behind the last.
fn begin_job<S: Sink>(
    running: &mut Running,
    alloc: Global,
    job: OpenJob,
    audit: &mut S,
) -> Result<(), AllocError>
    ensures entered { OnOk result (HappensTo (Load (job_deck_of running.new.jobs job)) (system_of running.old.monitor) running.old.out.items
        (system_of running.new.monitor) running.new.out.items (S.standing audit.old) (S.standing audit.new)) }
    ensures counted { OnOk result (running.new.jobs ≡ suc running.old.jobs) }
{
    let number = next_number(running.jobs)?;
    running.jobs = number;
    let deck = job.into_deck(number);
    enter(&mut running.monitor, alloc, deck, &mut running.out, audit)
}

fn next_number(jobs: u64) -> Result<u64, AllocError>
    ensures { IfOk result (λ number. number ≡ suc jobs) }
{
    match jobs.checked_add(1) {
        Some(number) => Ok(number),
        None => Err(AllocError),
    }
}
