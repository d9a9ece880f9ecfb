//! Turns in an order, and rounds of turns.
ghost use Rattle.std.specs.Prelude.{◌≡◌, ℕ, ◌<◌, ◌≤◌, false, ◌+◌, ◌++◌, [], ◌∷◌, length, min, vec_len, vec_capacity, Some, None, IsSome, IfSome, IfOk, OnErr, replicate};
ghost use Rattle.mon_catalogue.specs.Sets.{Sets};
ghost use Rattle.mon_device.specs.Putting.{Puts};
ghost use Rattle.scheduler.specs.Abstraction.{slots_in};
ghost use Rattle.scheduler.specs.Floors.{SameLoans, scheduler_in};
ghost use Rattle.scheduler.specs.States.{SlotState, scheduler, seat_at, with_seat};
ghost use Rattle.scheduler.specs.Turning.{MarkedIs, RoundsAre, end_in};
ghost use Rattle.scheduler.specs.Turns.{job_end};
ghost use Rattle.job_end.specs.AuditLines.{ended_line};
ghost use Rattle.scheduler.specs.inner.Stepping.{jobs_in};
ghost use Rattle.scheduler.specs.Marks.{turns_left, is_done};
ghost use Rattle.scheduler.specs.inner.Rounding.{RoundTo, GoingTo, OneTurn, Unless, stop_of};
ghost use Rattle.scheduler.specs.inner.Alone.{IsLone};

use crate::floor::Floor;
use crate::slots::{MANY_TURNS, Slots};
use job_end::JobEnd;
use mon_device::Sink;
use sno_run::{Ending, Step};
use std::alloc::AllocError;

/// Where rounds of turns stop.
#[derive(Clone, Copy)]
pub enum Goal {
    /// All slots are empty.
    Empty,
    /// Some slot is empty.
    Room,
}

impl Goal {
    fn is_met(self, slots: &Slots) -> bool
        ensures { (sets : Sets) → result ≡ stop_of self (scheduler sets (slots_in slots.now)) }
    {
        match self {
            Goal::Empty => slots.are_empty(),
            Goal::Room => slots.has_room(),
        }
    }

    // Whether it is met where some slot has a job.
    fn is_met_beside_a_job(self, slots: &Slots) -> bool
        ensures { (sets : Sets) (s : ℕ) → IsSome (seat_at s (slots_in slots.now)) → result ≡ stop_of self (scheduler sets (slots_in slots.now)) }
    {
        match self {
            Goal::Empty => false,
            Goal::Room => slots.has_room(),
        }
    }
}

impl Slots {
    // Takes a job out of its slot that has ended, and keeps what is left of it. It stays a call, as `take_out` does.
    #[inline(never)]
    fn keep_end<S: Sink>(
        &mut self,
        floor: &mut Floor<S>,
        slot: u8,
        ending: Ending,
        ends: &mut Vec<JobEnd>,
    )
        requires job { IsSome (seat_at slot (slots_in self.old)) }
        requires room { vec_len ends.old + 1 ≤ vec_capacity ends.old }
        ensures items { (job : SlotState) → seat_at slot (slots_in self.old) ≡ Some job → ends.new.items ≡ ends.old.items ++ job_end job ending ∷ [] }
        ensures audited { (job : SlotState) → seat_at slot (slots_in self.old) ≡ Some job → Puts (S.standing floor.old.audit.now) (S.standing floor.new.audit.now) (ended_line (job_end job ending)) }
        ensures len { vec_len ends.new ≡ vec_len ends.old + 1 }
        ensures room { vec_capacity ends.old ≤ vec_capacity ends.new }
        ensures slots { slots_in self.new ≡ with_seat slot None (slots_in self.old) }
        ensures sets { floor.new.catalogue.now ≡ floor.old.catalogue.now }
        ensures loans { SameLoans floor.old floor.new }
    {
        let end = self.take_out(floor.alloc, slot, ending, floor.audit);
        ends.push(end).unwrap();
    }

    // One turn of the job in a slot. Where it ends, what is left of it is kept.
    fn turn_into<S: Sink>(&mut self, floor: &mut Floor<S>, slot: u8, ends: &mut Vec<JobEnd>)
        requires room { vec_len ends.old + min 1 (jobs_in (slots_in self.old)) ≤ vec_capacity ends.old }
        ensures turn { OneTurn slot (scheduler_in self.old floor.old) ends.old.items ends.new.items (scheduler_in self.new floor.new) (S.standing floor.old.audit.now) (S.standing floor.new.audit.now) }
        ensures jobs { vec_len ends.new + jobs_in (slots_in self.new) ≡ vec_len ends.old + jobs_in (slots_in self.old) }
        ensures one { vec_len ends.new ≤ vec_len ends.old + 1 }
        ensures room { vec_capacity ends.old ≤ vec_capacity ends.new }
        ensures size { length (slots_in self.new) ≡ length (slots_in self.old) }
        ensures loans { SameLoans floor.old floor.new }
    {
        match self.step(floor, slot) {
            None => (),
            Some(Step::Goes) => (),
            Some(Step::Ended(ending)) => self.keep_end(floor, slot, ending, ends),
        }
    }

    /// Turns of the jobs in these slots, in this order, and the jobs that ended.
    ///
    /// # Errors
    ///
    /// Where a growth was refused, before the first turn; nothing has changed then.
    pub fn turns<S: Sink>(
        &mut self,
        floor: &mut Floor<S>,
        order: &[u8],
    ) -> Result<Vec<JobEnd>, AllocError>
        ensures marked { IfOk result (λ ends. MarkedIs order.now (scheduler_in self.old floor.old) ends.items (scheduler_in self.new floor.new) (S.standing floor.old.audit.now) (S.standing floor.new.audit.now)) }
        ensures size { length (slots_in self.new) ≡ length (slots_in self.old) }
        ensures unchanged { OnErr result (self.new ≡ self.old) }
        ensures untouched { OnErr result (floor.new ≡ floor.old) }
        ensures loans { SameLoans floor.old floor.new }
    {
        // No more jobs end than turns are given, or sit in slots.
        let mut ends = Vec::with_capacity(floor.alloc, order.len().min(8))?;
        self.begin_turns(floor.alloc, order.len() as u64);
        for number in order {
            self.turn_into(floor, *number, &mut ends);
        }
        self.end_turns(floor.alloc);
        Ok(ends)
    }

    /// So many turns of the job in one slot, and the job, if it ended.
    ///
    /// It takes no memory of its own, and no time for the turns of a slot that is empty.
    pub fn give<S: Sink>(&mut self, floor: &mut Floor<S>, slot: u8, count: u64) -> Option<JobEnd>
        ensures marked { MarkedIs (replicate count slot) (scheduler_in self.old floor.old) (end_in result) (scheduler_in self.new floor.new) (S.standing floor.old.audit.now) (S.standing floor.new.audit.now) }
        ensures size { length (slots_in self.new) ≡ length (slots_in self.old) }
        ensures loans { SameLoans floor.old floor.new }
    {
        let turns = if self.has_job(slot) { count } else { 0 };
        self.begin_turns(floor.alloc, turns);
        let end = self.turns_of_one(floor, slot, count);
        self.end_turns(floor.alloc);
        end
    }

    // Turns of the job in one slot.
    fn turns_of_one<S: Sink>(
        &mut self,
        floor: &mut Floor<S>,
        slot: u8,
        count: u64,
    ) -> Option<JobEnd>
        ensures marked { MarkedIs (replicate count slot) (scheduler_in self.old floor.old) (end_in result) (scheduler_in self.new floor.new) (S.standing floor.old.audit.now) (S.standing floor.new.audit.now) }
        ensures size { length (slots_in self.new) ≡ length (slots_in self.old) }
        ensures loans { SameLoans floor.old floor.new }
    {
        for _ in 0..count {
            match self.step(floor, slot) {
                None => return None,
                Some(Step::Goes) => (),
                Some(Step::Ended(ending)) => {
                    return Some(self.take_out(floor.alloc, slot, ending, floor.audit));
                }
            }
        }
        None
    }

    // A turn of the job in a slot, unless the goal is met. A slot that is empty is passed, whether it is met or not.
    fn turn_unless<S: Sink>(
        &mut self,
        floor: &mut Floor<S>,
        goal: Goal,
        slot: u8,
        ends: &mut Vec<JobEnd>,
    )
        requires room { vec_len ends.old + jobs_in (slots_in self.old) ≤ vec_capacity ends.old }
        ensures turn { Unless (stop_of goal) slot (scheduler_in self.old floor.old) ends.old.items ends.new.items (scheduler_in self.new floor.new) (S.standing floor.old.audit.now) (S.standing floor.new.audit.now) }
        ensures room { vec_len ends.new + jobs_in (slots_in self.new) ≤ vec_capacity ends.new }
        ensures size { length (slots_in self.new) ≡ length (slots_in self.old) }
        ensures loans { SameLoans floor.old floor.new }
    {
        if self.has_job(slot) && !goal.is_met_beside_a_job(self) {
            self.turn_into(floor, slot, ends);
        }
    }

    // One turn for each slot, unless the goal is met.
    fn round<S: Sink>(&mut self, floor: &mut Floor<S>, goal: Goal, ends: &mut Vec<JobEnd>)
        requires room { vec_len ends.old + jobs_in (slots_in self.old) ≤ vec_capacity ends.old }
        ensures round { RoundTo (stop_of goal) (scheduler_in self.old floor.old) ends.old.items ends.new.items [] (scheduler_in self.new floor.new) (S.standing floor.old.audit.now) (S.standing floor.new.audit.now) }
        ensures room { vec_len ends.new + jobs_in (slots_in self.new) ≤ vec_capacity ends.new }
        ensures loans { SameLoans floor.old floor.new }
    {
        let count = self.len() as u8;
        for number in 0..count {
            self.turn_unless(floor, goal, number + 1, ends);
        }
    }

    // Turns of the job that is alone, until it has ended: each is a round.
    fn turns_of_lone<S: Sink>(&mut self, floor: &mut Floor<S>, slot: u8, ends: &mut Vec<JobEnd>)
        requires lone { IsLone slot (slots_in self.old) }
        requires room { vec_len ends.old + jobs_in (slots_in self.old) ≤ vec_capacity ends.old }
        ensures going { GoingTo is_done (scheduler_in self.old floor.old) ends.old.items ends.new.items (scheduler_in self.new floor.new) (S.standing floor.old.audit.now) (S.standing floor.new.audit.now) }
        ensures less { turns_left (slots_in self.new) < turns_left (slots_in self.old) }
        ensures room { vec_len ends.new + jobs_in (slots_in self.new) ≤ vec_capacity ends.new }
        ensures size { length (slots_in self.new) ≡ length (slots_in self.old) }
        ensures loans { SameLoans floor.old floor.new }
    {
        let ending = self.run_lone(floor, slot);
        self.keep_end(floor, slot, ending, ends);
    }

    // The slot of the job that is alone, if that is looked for on the way to empty slots.
    fn lone_on_way(&self, goal: Goal, looks: bool) -> Option<u8>
        ensures goal { IsSome result → goal ≡ Goal.Empty }
        ensures lone { IfSome result (λ s. IsLone s (slots_in self.now)) }
    {
        if !looks {
            return None;
        }
        match goal {
            Goal::Empty => self.lone_slot(),
            Goal::Room => None,
        }
    }

    // Rounds on the way to a goal that is not met: all of a job that is alone, if that is looked for, else one.
    fn some_rounds<S: Sink>(
        &mut self,
        floor: &mut Floor<S>,
        goal: Goal,
        looks: bool,
        ends: &mut Vec<JobEnd>,
    )
        requires busy { stop_of goal (scheduler_in self.old floor.old) ≡ false }
        requires room { vec_len ends.old + jobs_in (slots_in self.old) ≤ vec_capacity ends.old }
        ensures going { GoingTo (stop_of goal) (scheduler_in self.old floor.old) ends.old.items ends.new.items (scheduler_in self.new floor.new) (S.standing floor.old.audit.now) (S.standing floor.new.audit.now) }
        ensures less { turns_left (slots_in self.new) < turns_left (slots_in self.old) }
        ensures room { vec_len ends.new + jobs_in (slots_in self.new) ≤ vec_capacity ends.new }
        ensures size { length (slots_in self.new) ≡ length (slots_in self.old) }
        ensures loans { SameLoans floor.old floor.new }
    {
        match self.lone_on_way(goal, looks) {
            Some(slot) => self.turns_of_lone(floor, slot, ends),
            None => self.round(floor, goal, ends),
        }
    }

    /// Rounds of turns, from slot 1 upward, until the goal is met, and the jobs that ended.
    ///
    /// # Errors
    ///
    /// Where a growth was refused, before the first turn; nothing has changed then.
    pub fn rounds<S: Sink>(
        &mut self,
        floor: &mut Floor<S>,
        goal: Goal,
    ) -> Result<Vec<JobEnd>, AllocError>
        ensures rounds { IfOk result (λ ends. RoundsAre (stop_of goal) (scheduler_in self.old floor.old) ends.items (scheduler_in self.new floor.new) (S.standing floor.old.audit.now) (S.standing floor.new.audit.now)) }
        ensures size { length (slots_in self.new) ≡ length (slots_in self.old) }
        ensures unchanged { OnErr result (self.new ≡ self.old) }
        ensures untouched { OnErr result (floor.new ≡ floor.old) }
        ensures loans { SameLoans floor.old floor.new }
    {
        let mut ends = Vec::with_capacity(floor.alloc, self.len())?;
        let turns = if goal.is_met(self) { 0 } else { MANY_TURNS };
        self.begin_turns(floor.alloc, turns);
        // Whether a job is alone is asked before the first round, and after each in which a job has ended.
        let mut looks = true;
        'rounds: while !goal.is_met(self) {
            let ended = ends.len();
            self.some_rounds(floor, goal, looks, &mut ends);
            looks = ends.len() > ended;
        }
        self.end_turns(floor.alloc);
        Ok(ends)
    }
}
