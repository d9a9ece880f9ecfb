//! Slots.
ghost use Rattle.std.specs.Prelude.{◌≡◌, ◌<◌, ◌≤◌, ◌+◌, ◌↔◌, IsTrue, length, Some, None, Ok, Err, IfOk, IfErr, IsErrOf, OnErr, IsSome, IfSome, position, is_some, is_none, replicate};
ghost use Rattle.std.specs.List.{list_any, list_all};

use crate::card_reserve::CardReserve;
use crate::floor::Floor;
use crate::independence::are_apart;
use crate::largest_printout::{Holder, most_held};
use crate::loading::slot_for;
use crate::reserve::Reserve;
use crate::single_job::{are_empty, lone_in};
use crate::slot::{Slot, leave, run_at, step_at};
use deck_syntax::JobDeck;
use job_end::{JobEnd, Turned, print_ended};
use load_refusal::LoadError;
use mon_access::Accounts;
use mon_device::Sink;
use mon_text::Stop;
use sno_run::{Ending, Step};
use sno_text::Seed;
use std::alloc::{AllocError, Global};

// From so many turns on, the time that a call of the system takes does not count.
pub(crate) const MANY_TURNS: u64 = 1_000;

/// One to eight slots, each with a job or none.
///
/// Contracts see them by `slots_in` as the list of what they hold. They are counted from 1.
#[derive(Drop)]
pub struct Slots {
    items: Vec<Option<Slot>>,
    // By which what the jobs name is hashed.
    seed: Seed,
    // What jobs must leave to cards and commands, and what one must leave to the others.
    for_cards: CardReserve,
    for_jobs: Reserve,
    ghost some: { 1 ≤ length items.items },
    ghost few: { length items.items ≤ 8 },
}

impl Slots {
    ghost use Rattle.mon_catalogue.specs.Sets.{Sets};
    ghost use Rattle.mon_device.specs.Putting.{Puts};
    ghost use Rattle.job_end.specs.AuditLines.{ended_line};
    ghost use Rattle.scheduler.specs.Abstraction.{slots_in};
    ghost use Rattle.scheduler.specs.Floors.{SameLoans, scheduler_in};
    ghost use Rattle.scheduler.specs.Ties.{Independent};
    ghost use Rattle.scheduler.specs.Holding.{most_held};
    ghost use Rattle.scheduler.specs.Loads.{job_loaded};
    ghost use Rattle.scheduler.specs.Memory.{LoadMayGrow};
    ghost use Rattle.sno_cards.specs.Answers.{IfRefused};
    ghost use Rattle.scheduler.specs.States.{SlotState, scheduler, seat_at, with_seat, first_free};
    ghost use Rattle.scheduler.specs.Turns.{job_end};
    ghost use Rattle.scheduler.specs.Turning.{TurnOr};
    ghost use Rattle.scheduler.specs.inner.Stepping.{StepOr};
    ghost use Rattle.scheduler.specs.inner.Alone.{IsLone, LoneEnds};

    /// So many empty slots. What their jobs name is found by a hash of this seed.
    ///
    /// # Errors
    ///
    /// Where a growth was refused.
    #[tactic(auto, using(crate::proofs::Seats::empty_seats))]
    pub fn new(alloc: Global, seed: Seed, count: u8) -> Result<Slots, AllocError>
        requires { (1 ≤ count) × (count ≤ 8) }
        ensures { IfOk result (λ slots. slots_in slots ≡ replicate count None) }
    {
        let mut items = Vec::new(alloc);
        for _ in 0..count {
            items.push(None)?;
        }
        let for_jobs = Reserve::new(alloc);
        Ok(Slots {
            items,
            seed,
            for_cards: CardReserve::like(alloc, &for_jobs),
            for_jobs,
        })
    }

    // How many slots there are.
    pub(crate) fn len(&self) -> usize
        ensures { result ≡ length (slots_in self.now) }
    {
        self.items.len()
    }

    /// Whether a slot is empty.
    pub fn has_room(&self) -> bool
        ensures { result ≡ is_some (first_free (slots_in self.now)) }
    {
        has_room_in(&self.items)
    }

    // Whether all slots are empty.
    pub(crate) fn are_empty(&self) -> bool
        ensures { result ≡ list_all is_none (slots_in self.now) }
    {
        are_empty(&self.items)
    }

    // The slot whose job is alone, if one has a job and no other.
    pub(crate) fn lone_slot(&self) -> Option<u8>
        ensures { IfSome result (λ s. IsLone s (slots_in self.now)) }
    {
        let index = lone_in(&self.items)?;
        Some(index as u8 + 1)
    }

    /// Whether no data set is tied by units of two slots. It takes no memory.
    pub fn independent(&self) -> bool
        ensures { (sets : Sets) → IsTrue result ↔ Independent (scheduler sets (slots_in self.now)) }
    {
        are_apart(&self.items)
    }

    /// The job in a slot that holds most of its printout, if some slot has a job: the one in the lowest slot of those that hold as
    /// much. It takes no memory.
    pub fn holds_most(&self) -> Option<Holder>
        ensures { result ≡ most_held (slots_in self.now) }
    {
        most_held(&self.items)
    }

    /// Loads a job into the lowest free slot, and tells its number.
    ///
    /// # Errors
    ///
    /// `NoSlot` where each slot has a job; else `NoAccount` where there is no account of the deck's name; else `Cards` where a
    /// unit card ties a unit that there is not, or once more, card by card; else `Syntax` where the program is refused. `Memory`
    /// where a growth was refused. The slots are then unchanged. All of these but what is wrong in a statement take no memory.
    pub fn load(
        &mut self,
        alloc: Global,
        accounts: &Accounts,
        deck: JobDeck,
    ) -> Result<u8, Stop<LoadError>>
        ensures loaded { IfOk result (λ n. job_loaded accounts.now deck (slots_in self.old) ≡ (Ok n, slots_in self.new)) }
        ensures refused { IfErr result (IfRefused (λ refusal. job_loaded accounts.now deck (slots_in self.old) ≡ (Err refusal, slots_in self.old))) }
        ensures unchanged { OnErr result (self.new ≡ self.old) }
        ensures memory { IsErrOf result Stop.Memory → LoadMayGrow accounts.now deck (slots_in self.old) }
        ensures size { length (slots_in self.new) ≡ length (slots_in self.old) }
    {
        let Some(index) = free_in(&self.items) else {
            return Err(Stop::Refused(LoadError::NoSlot));
        };
        let slot = slot_for(alloc, self.seed, accounts, &deck, &mut self.for_cards)?;
        self.items[index] = Some(slot);
        Ok(index as u8 + 1)
    }

    // The index of a slot, if there is one of this number.
    fn index_of(&self, slot: u8) -> Option<usize>
        ensures index { IfSome result (λ index. (slot ≡ index + 1) × (index < length self.now.items.items)) }
        ensures none { result ≡ None → seat_at slot (slots_in self.now) ≡ None }
    {
        let index = slot.checked_sub(1)? as usize;
        if index < self.items.len() {
            Some(index)
        } else {
            None
        }
    }

    // Whether there is a job in a slot.
    pub(crate) fn has_job(&self, slot: u8) -> bool
        ensures { result ≡ is_some (seat_at slot (slots_in self.now)) }
    {
        match self.index_of(slot) {
            None => false,
            Some(index) => self.items[index].is_some(),
        }
    }

    // One turn of the job in a slot, if there is one. A job that has ended stays in its slot until it is taken out, so that
    // no turn but the last moves what is left of it.
    #[inline(always)]
    pub(crate) fn step<S: Sink>(&mut self, floor: &mut Floor<S>, slot: u8) -> Option<Step>
        ensures step { StepOr slot (scheduler_in self.old floor.old) result (scheduler_in self.new floor.new) (S.standing floor.old.audit.now) (S.standing floor.new.audit.now) }
        ensures size { length (slots_in self.new) ≡ length (slots_in self.old) }
        ensures loans { SameLoans floor.old floor.new }
    {
        match self.index_of(slot) {
            None => None,
            Some(index) => step_at(floor, &mut self.items[index]),
        }
    }

    // Turns of the job that is alone in the slots, until it has ended. It stays in its slot until it is taken out.
    pub(crate) fn run_lone<S: Sink>(&mut self, floor: &mut Floor<S>, slot: u8) -> Ending
        requires lone { IsLone slot (slots_in self.old) }
        ensures ended { LoneEnds slot (scheduler_in self.old floor.old) result (scheduler_in self.new floor.new) (S.standing floor.old.audit.now) (S.standing floor.new.audit.now) }
        ensures size { length (slots_in self.new) ≡ length (slots_in self.old) }
        ensures loans { SameLoans floor.old floor.new }
    {
        let index = self.index_of(slot).unwrap();
        run_at(floor, &mut self.items[index]).unwrap()
    }

    // Empties the slot of a job that has ended.
    fn empty(&mut self, slot: u8, ending: Ending) -> JobEnd
        requires { IsSome (seat_at slot (slots_in self.old)) }
        ensures end { (job : SlotState) → seat_at slot (slots_in self.old) ≡ Some job → result ≡ job_end job ending }
        ensures slots { slots_in self.new ≡ with_seat slot None (slots_in self.old) }
    {
        let index = self.index_of(slot).unwrap();
        leave(&mut self.items[index], ending)
    }

    // Takes a job out of its slot that has ended, and puts the line of that. Where it was for want of memory, the others get some.
    // It stays a call, since the room for what is left of a job is cleared where a function begins.
    #[inline(never)]
    pub(crate) fn take_out<S: Sink>(
        &mut self,
        alloc: Global,
        slot: u8,
        ending: Ending,
        audit: &mut S,
    ) -> JobEnd
        requires { IsSome (seat_at slot (slots_in self.old)) }
        ensures end { (job : SlotState) → seat_at slot (slots_in self.old) ≡ Some job → result ≡ job_end job ending }
        ensures slots { slots_in self.new ≡ with_seat slot None (slots_in self.old) }
        ensures audited { Puts (S.standing audit.old) (S.standing audit.new) (ended_line result) }
    {
        let end = self.empty(slot, ending);
        print_ended(&end, audit);
        if let Ending::Memory = ending {
            self.for_jobs.halve();
        }
        self.for_jobs.fill(alloc);
        end
    }

    // Before so many turns, if there are any: they leave to cards and commands, and to the other jobs, what can be kept for these. For so
    // few that it would take longer than they do, a little is kept.
    #[inline(never)]
    pub(crate) fn begin_turns(&mut self, alloc: Global, count: u64)
        ensures { slots_in self.new ≡ slots_in self.old }
    {
        if count >= MANY_TURNS {
            self.for_cards.take(alloc);
            self.for_jobs.fill(alloc);
        } else if count > 0 {
            self.for_cards.take_little(alloc);
        }
    }

    // After turns: what was kept for cards and commands stays for the next turns, until one of these needs it.
    pub(crate) fn end_turns(&mut self, alloc: Global)
        ensures slots { slots_in self.new ≡ slots_in self.old }
    {
        self.for_cards.stay(alloc);
    }

    /// Gives up what is kept for cards and commands, for one that needs memory: whether anything was kept.
    pub fn give_way(&mut self) -> bool
        ensures { self.new ≡ self.old }
    {
        self.for_cards.give_way()
    }

    /// One turn of the job in a slot. Slots are counted from 1; one that there isn't is empty. The lines of the turn are put to the audit.
    pub fn turn<S: Sink>(&mut self, floor: &mut Floor<S>, slot: u8) -> Turned
        ensures turn { TurnOr slot (scheduler_in self.old floor.old) result (scheduler_in self.new floor.new) (S.standing floor.old.audit.now) (S.standing floor.new.audit.now) }
        ensures size { length (slots_in self.new) ≡ length (slots_in self.old) }
        ensures loans { SameLoans floor.old floor.new }
    {
        match self.step(floor, slot) {
            None => Turned::Empty,
            Some(Step::Goes) => Turned::Goes,
            Some(Step::Ended(ending)) => {
                Turned::Ended(self.take_out(floor.alloc, slot, ending, floor.audit))
            }
        }
    }
}

fn free_in(slots: &[Option<Slot>]) -> Option<usize>
    ensures { result ≡ position (λ seat. is_none seat) slots.now }
{
    slots.iter().position(|seat| seat.is_none())
}

fn has_room_in(slots: &[Option<Slot>]) -> bool
    ensures { result ≡ list_any (λ seat. is_none seat) slots.now }
{
    slots.iter().any(|seat| seat.is_none())
}
