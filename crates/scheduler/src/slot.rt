//! A job in a slot, and its turns.
ghost use Rattle.std.specs.Prelude.{◌≡◌, Some, None, IsSome};
ghost use Rattle.mon_guard.specs.Cache.{CacheFits};
ghost use Rattle.scheduler.specs.States.{SlotState};
ghost use Rattle.scheduler.specs.Abstraction.{slot_of, seat_of};
ghost use Rattle.scheduler.specs.Floors.{Between, SameLoans};
ghost use Rattle.scheduler.specs.Turns.{job_end};
ghost use Rattle.sno_run.specs.Abstraction.{job_of};
ghost use Rattle.mon_unit.specs.Lent.{reach_of};
ghost use Rattle.audit.specs.inner.Keeping.{KeptFits};
ghost use Rattle.scheduler.specs.Turns.{reached};
ghost use Rattle.scheduler.specs.inner.Stepping.{Done, Stepped, StillKept, SeatStep};
ghost use Rattle.scheduler.specs.inner.Alone.{GoesToEnd, SeatEnds};

use crate::floor::Floor;
use audit::{AuditCache, AuditedService};
use job_end::JobEnd;
use mon_access::Account;
use mon_device::Sink;
use mon_unit::{UnitService, Units};
use sno_run::{Ending, Job, Step, statement_turn};
use std::alloc::Global;
use std::mem;

/// A job in a slot: its number, the account that it is for, the job itself, and its units.
#[derive(Drop)]
pub struct Slot {
    pub number: u64,
    pub account: Account,
    pub job: Job,
    pub units: Units,
}

// One turn of a job over its units, of which each exchange is put to the audit. It is apart from `turn_of`, where the loans are made.
#[inline(always)]
fn audited_turn<S: Sink>(
    alloc: Global,
    job: &mut Job,
    service: &mut UnitService,
    audit: &mut S,
    kept: &mut AuditCache,
) -> Step
    requires fit { CacheFits service.old.guard.now service.old.catalogue.now }
    requires kept { KeptFits kept.old.number service.old.account.now (reach_of service.old) kept.old }
    ensures turn { Done kept.old.number (job_of job.old) service.old result (job_of job.new) service.new (S.standing audit.old) (S.standing audit.new) }
    ensures fit { CacheFits service.new.guard.now service.new.catalogue.now }
    ensures kept { StillKept kept.old.number service.new kept.new }
{
    let mut audited = AuditedService {
        service: &mut *service,
        audit: &mut *audit,
        kept: &mut *kept,
    };
    statement_turn(alloc, job, &mut audited)
}

// One turn of the job in a slot.
#[inline(always)]
fn turn_of<S: Sink>(floor: &mut Floor<S>, slot: &mut Slot, kept: &mut AuditCache) -> Step
    requires kept { KeptFits slot.old.number slot.old.account (reached floor.old.catalogue.now (slot_of slot.old)) kept.old }
    requires number { kept.old.number ≡ slot.old.number }
    ensures step { Between S.standing (λ v w. Stepped (slot_of slot.old) v result (slot_of slot.new) w) floor.old floor.new }
    ensures loans { SameLoans floor.old floor.new }
    ensures kept { KeptFits slot.new.number slot.new.account (reached floor.new.catalogue.now (slot_of slot.new)) kept.new }
    ensures number { kept.new.number ≡ slot.new.number }
{
    let mut service = UnitService {
        alloc: floor.alloc,
        account: &slot.account,
        guard: &mut *floor.guard,
        catalogue: &mut *floor.catalogue,
        units: &mut slot.units,
    };
    audited_turn(floor.alloc, &mut slot.job, &mut service, floor.audit, kept)
}

// What is left of a job that has ended.
fn end_of(slot: Slot, ending: Ending) -> JobEnd
    ensures { result ≡ job_end (slot_of slot) ending }
{
    let account = slot.account.name.copy();
    let statements = slot.job.statements();
    let (spool, notes) = slot.units.into_parts();
    JobEnd {
        number: slot.number,
        account,
        spool,
        notes,
        ending,
        statements,
    }
}

// A job that has ended leaves its seat.
pub(crate) fn leave(seat: &mut Option<Slot>, ending: Ending) -> JobEnd
    requires { IsSome seat.old }
    ensures end { (slot : SlotState) → seat_of seat.old ≡ Some slot → result ≡ job_end slot ending }
    ensures empty { seat_of seat.new ≡ None }
{
    let slot = mem::replace(seat, None).unwrap();
    end_of(slot, ending)
}

// One turn of what a slot holds, if it holds a job. One that has ended stays in its seat until it leaves.
#[inline(always)]
pub(crate) fn step_at<S: Sink>(floor: &mut Floor<S>, seat: &mut Option<Slot>) -> Option<Step>
    ensures step { Between S.standing (λ v w. SeatStep (seat_of seat.old) v result (seat_of seat.new) w) floor.old floor.new }
    ensures loans { SameLoans floor.old floor.new }
{
    match seat {
        None => None,
        Some(slot) => {
            let mut kept = AuditCache::none(slot.number);
            Some(turn_of(floor, slot, &mut kept))
        }
    }
}

// Turns of a job, until it has ended. Words of the audit's lines are kept from one to the next.
fn run_to_end<S: Sink>(floor: &mut Floor<S>, slot: &mut Slot) -> Ending
    ensures goes { Between S.standing (λ v w. GoesToEnd (slot_of slot.old) v result (slot_of slot.new) w) floor.old floor.new }
    ensures loans { SameLoans floor.old floor.new }
{
    let mut kept = AuditCache::new(slot.number);
    'turns: loop {
        match turn_of(floor, slot, &mut kept) {
            Step::Goes => (),
            Step::Ended(ending) => return ending,
        }
    }
}

// Turns of what a slot holds, if it holds a job, until that has ended. It stays in its seat until it leaves.
pub(crate) fn run_at<S: Sink>(floor: &mut Floor<S>, seat: &mut Option<Slot>) -> Option<Ending>
    ensures ended { Between S.standing (λ v w. SeatEnds (seat_of seat.old) v result (seat_of seat.new) w) floor.old floor.new }
    ensures loans { SameLoans floor.old floor.new }
{
    match seat {
        None => None,
        Some(slot) => Some(run_to_end(floor, slot)),
    }
}
