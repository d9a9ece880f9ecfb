//! What a line brings: its event happens, unless the deck is only to be checked, and what it prints is appended, and what it tells is put to
//! an audit.
ghost use Rattle.std.specs.Prelude.{◌≡◌, ℕ, List, ◌∷◌, ◌+◌, ◌<◌, ◌≤◌, ◌^◌, false, IfOk, IfErr, OnOk, OnErr};
ghost use Rattle.deck_lines.specs.declared.command.Command.TheVariants as commands;
ghost use Rattle.deck_lines.specs.inner.Stops.{IfRefused};
ghost use Rattle.deck_syntax.specs.Sections.{refused_on_line};
ghost use Rattle.deck_syntax.specs.declared.stream_reader.Event.TheVariants as event;
ghost use Rattle.deck_syntax.specs.Events.{cards_ahead, event_then};
ghost use Rattle.mon_monitor.specs.Abstraction.{system_of};
ghost use Rattle.deck_driver.specs.RunStates.{both_counted};
ghost use Rattle.deck_driver.specs.Printouts.{ReadsBack};
ghost use Rattle.deck_driver.specs.inner.Lines.{GoesOn, counted_by, Served, ServeBreaks, Stopping, StopBreaks};

use crate::options::Counts;
use deck_syntax::{DeckError, Event, Listing, StreamReader};
use mon_catalogue::Catalogue;
use mon_device::Sink;
use mon_monitor::{Monitor, Printed};
use mon_text::Stop;
use std::alloc::{AllocError, Global};
use std::rc::Rc;

// What the next line brings. Where a growth is refused, what is kept for cards gives way, and it is tried once more.
#[inline(always)]
#[tactic(auto, using(deck_syntax::proofs::Following::brings_so, deck_syntax::proofs::Following::refused_so))]
pub(crate) fn next_event(
    alloc: Global,
    reader: &mut StreamReader,
    monitor: &mut Monitor,
    text: &[u8],
) -> Result<Event, Stop<DeckError>>
    ensures brings { IfOk result (λ event. (n : ℕ) (ls : List (List ℕ)) → cards_ahead reader.old n (text.now ∷ ls) ≡ event_then event (cards_ahead reader.new (n + 1) ls)) }
    ensures refused { IfErr result (IfRefused (λ code. (n : ℕ) (ls : List (List ℕ)) → cards_ahead reader.old n (text.now ∷ ls) ≡ refused_on_line n code)) }
    ensures kept { monitor.new ≡ monitor.old }
{
    'tries: for _ in 0..2 {
        match reader.line(alloc, text) {
            Err(Stop::Memory) => {
                if !monitor.give_way() {
                    break;
                }
            }
            answer => return answer,
        }
    }
    Err(Stop::Memory)
}

// Serves what a line brings, unless the deck is only to be checked; commands and jobs are counted. The first job has number 1.
pub(crate) fn put_event<S: Sink>(
    alloc: Global,
    check: bool,
    monitor: &mut Monitor,
    event: Event,
    counts: &mut Counts,
    out: &mut Printed,
    audit: &mut S,
) -> Result<(), AllocError>
    requires few { counts.old.jobs + counts.old.commands < 2 ^ 63 }
    requires goes_on { GoesOn event }
    ensures served { OnOk result (Served check event (system_of monitor.old) out.old counts.old (system_of monitor.new) out.new counts.new (S.standing audit.old) (S.standing audit.new)) }
    ensures broken { OnErr result (ServeBreaks check event (system_of monitor.old) counts.old.jobs (S.standing audit.old) (S.standing audit.new)) }
    ensures counted { counts.new.jobs + counts.new.commands ≤ counts.old.jobs + counts.old.commands + 1 }
    ensures nothing { OnErr result (out.new ≡ out.old) }
{
    count(&event, counts);
    if check {
        return Ok(());
    }
    match event {
        Event::Nothing | Event::Opens(_) | Event::Stops => Ok(()),
        Event::Asks(command) => monitor.serve_command(alloc, command, out, audit),
        Event::Enters(job) => monitor.enter(alloc, job.into_deck(counts.jobs), out, audit),
        Event::Turns(turn) => monitor.give(alloc, turn.slot, turn.count, out, audit),
        Event::Drains => monitor.drain_all(alloc, out, audit),
    }
}

fn count(event: &Event, counts: &mut Counts)
    requires { counts.old.jobs + counts.old.commands < 2 ^ 63 }
    ensures counted { counts.new ≡ both_counted counts.old (counted_by event.now) }
    ensures within { counts.new.jobs + counts.new.commands ≤ counts.old.jobs + counts.old.commands + 1 }
{
    match event {
        Event::Asks(_) => counts.commands += 1,
        Event::Enters(_) => counts.jobs += 1,
        _ => {}
    }
}

// Serves a command that lists records, unless the deck is only to be checked, and counts it.
pub(crate) fn put_listing<S: Sink>(
    alloc: Global,
    check: bool,
    monitor: &mut Monitor,
    listing: Listing,
    counts: &mut Counts,
    out: &mut Printed,
    audit: &mut S,
) -> Result<(), AllocError>
    requires { counts.old.jobs + counts.old.commands < 2 ^ 63 }
    ensures served { OnOk result (Served check (event.Asks (commands.List listing.account listing.name)) (system_of monitor.old) out.old counts.old (system_of monitor.new) out.new counts.new (S.standing audit.old) (S.standing audit.new)) }
    ensures broken { OnErr result (ServeBreaks check (event.Asks (commands.List listing.account listing.name)) (system_of monitor.old) counts.old.jobs (S.standing audit.old) (S.standing audit.new)) }
    ensures counted { counts.new.jobs + counts.new.commands ≤ counts.old.jobs + counts.old.commands + 1 }
    ensures nothing { OnErr result (out.new ≡ out.old) }
{
    counts.commands += 1;
    if check {
        return Ok(());
    }
    monitor.serve_listing(alloc, listing.account, listing.name, out, audit)
}

// A deck that has come to its end gives all turns that there are to give, and then its catalogue back; or it is told to be
// good. Its data sets are the answer.
pub(crate) fn close<S: Sink>(
    alloc: Global,
    check: bool,
    monitor: Monitor,
    out: &mut Printed,
    audit: &mut S,
) -> Result<Rc<Catalogue>, AllocError>
    ensures stops { IfOk result (λ sets. (jobs : ℕ) → Stopping check jobs (system_of monitor) out.old sets.value out.new (S.standing audit.old) (S.standing audit.new)) }
    ensures broken { OnErr result ((jobs : ℕ) → StopBreaks check jobs (system_of monitor) (S.standing audit.old) (S.standing audit.new)) }
    ensures reads_back { IfOk result (λ sets. check ≡ false → ReadsBack sets.value) }
    ensures nothing { OnErr result (out.new ≡ out.old) }
{
    if check {
        out.put(b"DECK OK\n")?;
        return Ok(monitor.into_sets());
    }
    let sets = monitor.close(alloc, out, audit)?;
    sets.reads_back();
    Ok(sets)
}
