//! A job's units.
ghost use Rattle.std.specs.Prelude.{◌≡◌, ◌<◌, ◌-◌, ◌^◌, [], ◌∷◌, ◌++◌, OnOk, OnErr, IfOk, IfSome, IsSome, slice_get};
ghost use Rattle.std.specs.List.{list_any};
ghost use Rattle.std.specs.Option.{option_copied};
ghost use Rattle.std.specs.Result.{result_err};
ghost use Rattle.mon_text.specs.Lines.{IsLine};
ghost use Rattle.mon_guard.specs.Acting.{read_at};
ghost use Rattle.mon_unit.specs.Tying.{new_units, tie_refusal, tied_to, first_target, with_tie, share, meets, is_set};
ghost use Rattle.mon_unit.specs.Serving.{moved, noted, with_note};
ghost use Rattle.mon_unit.specs.inner.Settling.{placed, target_of};

use crate::note::{Attempt, Note, NoteTarget, Notes, Why};
use crate::tie::{Target, Tie};
use deck_lines::UnitError;
use interaction::{Answer, Reason};
use mon_text::{Line, Lines, Name};
use packed_lines::PackedLines;
use std::alloc::{AllocError, Global};
use std::marker::Model;

/// How many ties a job's units have: units are 1 to 99, and the number of a unit is the place of its tie.
const TIES: u64 = 100;

/// A job's units: what each is tied to, the deck's data, the spool, and the notes.
#[derive(Drop)]
pub struct Units {
    ties: Vec<Tie>,
    deck: Lines,
    spool: PackedLines,
    notes: Notes,
}

impl Model for Units {
    ghost use Rattle.std.specs.Prelude.{◌≡◌, length};
    ghost use Rattle.mon_unit.specs.State.{UnitState};

    ghost Value = { UnitState };

    ghost view = { λ u. record { ties = u.ties.items; deck = u.deck; spool = u.spool; notes = u.notes } };

    ghost invariant = { λ u. length u.ties.items ≡ 100 };
}

impl Units {
    /// The units of a job with these data: unit 5 is the data, unit 6 the spool, and no other is tied.
    ///
    /// # Errors
    ///
    /// Where a growth was refused.
    #[tactic(auto, using(crate::proofs::Ties::ties))]
    pub fn new(alloc: Global, deck: Lines) -> Result<Units, AllocError>
        ensures { IfOk result (λ units. units ≡ new_units deck) }
    {
        let mut ties = Vec::with_capacity(alloc, TIES as usize)?;
        for unit in 0..TIES {
            ties.push(Tie {
                target: first_target(unit),
                position: 0,
            })?;
        }
        Ok(Units {
            ties,
            deck,
            spool: PackedLines::new(alloc),
            notes: Notes::new(alloc),
        })
    }

    /// Ties a unit to the data set of a name, at its first record. It takes no memory.
    ///
    /// # Errors
    ///
    /// `UnitRange` where the unit is none of 1 to 99, else `UnitTwice` where it is tied to a data set. The units are then
    /// unchanged.
    pub fn tie(&mut self, unit: u64, name: Name) -> Result<(), UnitError>
        ensures refused { result_err result ≡ tie_refusal unit self.old }
        ensures tied { OnOk result (self.new ≡ with_tie unit (tied_to (Target.Set name)) self.old) }
        ensures unchanged { OnErr result (self.new ≡ self.old) }
    {
        if unit == 0 || unit >= TIES {
            return Err(UnitError::UnitRange(unit));
        }
        if let Target::Set(_) = &self.ties[unit as usize].target {
            return Err(UnitError::UnitTwice(unit));
        }
        self.ties[unit as usize] = Tie {
            target: Target::Set(name),
            position: 0,
        };
        Ok(())
    }

    /// What was spooled, in order.
    pub fn spool(&self) -> &PackedLines
        ensures { result.now ≡ self.now.spool }
    {
        &self.spool
    }

    /// What was noted, in order.
    pub fn notes(&self) -> &[Note]
        ensures { result.now ≡ self.now.notes }
    {
        self.notes.as_slice()
    }

    /// What was spooled, and what was noted.
    pub fn into_parts(self) -> (PackedLines, Notes)
        ensures { result ≡ (self.spool, self.notes) }
    {
        (self.spool, self.notes)
    }

    /// Whether some data set is tied in both. It takes no memory.
    pub fn shares(&self, other: &Units) -> bool
        ensures { result ≡ share self.now other.now }
    {
        self.ties.iter().any(|tie| meets(&tie.target, &other.ties))
    }

    /// The tie of a unit. Where there is no such unit there is none, which is as if it were tied to nothing. It takes no memory.
    pub fn tie_at(&self, unit: u64) -> Option<&Tie>
        ensures { option_copied result ≡ slice_get self.now.ties unit }
    {
        self.ties.get(unit as usize)
    }

    // Reads the line at a position of the deck's data.
    pub(crate) fn read_deck(
        &mut self,
        alloc: Global,
        unit: u64,
        position: u64,
    ) -> Result<Answer, AllocError>
        ensures answer { IfOk result (λ answer. answer ≡ (read_at position (slice_get self.old.deck position)).answer) }
        ensures read { OnOk result (self.new ≡ moved unit (read_at position (slice_get self.old.deck position)).position self.old) }
        ensures unchanged { OnErr result (self.new ≡ self.old) }
        ensures memory { OnErr result (IsSome (slice_get self.old.deck position)) }
    {
        let Some(line) = self.deck_line(alloc, position)? else {
            return Ok(Answer::EndOfFile);
        };
        self.place(unit, position + 1);
        Ok(Answer::Got(line))
    }

    // The line at a position of the deck's data, once more.
    #[inline(always)]
    fn deck_line(&self, alloc: Global, position: u64) -> Result<Option<Line>, AllocError>
        ensures line { IfOk result (λ line. line ≡ slice_get self.now.deck position) }
        ensures within { IfOk result (λ line. IfSome line (λ l. position < 2 ^ 64 - 1)) }
        ensures memory { OnErr result (IsSome (slice_get self.now.deck position)) }
    {
        match self.deck.as_slice().get(position as usize) {
            Some(line) => Ok(Some(line.copy(alloc)?)),
            None => Ok(None),
        }
    }

    // The unit's next record is at the position.
    pub(crate) fn place(&mut self, unit: u64, position: u64)
        ensures { self.new ≡ placed unit position self.old }
    {
        if unit < TIES {
            self.ties[unit as usize].position = position;
        }
    }

    // Adds a line to the spool.
    pub(crate) fn put_spool(&mut self, line: &[u8]) -> Result<Answer, AllocError>
        requires printable { IsLine line.now }
        ensures answer { IfOk result (λ answer. answer ≡ Answer.Done) }
        ensures spooled { OnOk result (self.new ≡ record self.old { spool = self.old.spool ++ line.now ∷ [] }) }
        ensures unchanged { OnErr result (self.new ≡ self.old) }
    {
        self.spool.push(line)?;
        Ok(Answer::Done)
    }

    // Notes what was not done.
    pub(crate) fn note(
        &mut self,
        attempt: Attempt,
        target: NoteTarget,
        why: Why,
    ) -> Result<(), AllocError>
        ensures noted { OnOk result (self.new ≡ with_note (record { statement = attempt.statement; act = attempt.act; target = target; why = why }) self.old) }
        ensures unchanged { OnErr result (self.new ≡ self.old) }
    {
        self.notes.push(Note {
            statement: attempt.statement,
            act: attempt.act,
            target,
            why,
        })
    }

    // What is denied at a unit that is tied to no data set.
    pub(crate) fn denied(&mut self, attempt: Attempt, reason: Reason) -> Result<Answer, AllocError>
        ensures answer { IfOk result (λ answer. answer ≡ Answer.Denied reason) }
        ensures noted { OnOk result (self.new ≡ noted attempt.statement attempt.act (NoteTarget.Unit attempt.unit) (Answer.Denied reason) self.old) }
        ensures unchanged { OnErr result (self.new ≡ self.old) }
    {
        let why = Why::Denied(reason.copy());
        self.note(attempt, NoteTarget::Unit(attempt.unit), why)?;
        Ok(Answer::Denied(reason))
    }

    // What a note of a unit names: its data set, or else the unit.
    pub(crate) fn note_target(&self, unit: u64) -> NoteTarget
        ensures { result ≡ target_of unit self.now }
    {
        match self.tie_at(unit) {
            Some(tie) => match &tie.target {
                Target::Set(name) => NoteTarget::Set(name.copy()),
                Target::Untied | Target::Data | Target::Spool => NoteTarget::Unit(unit),
            },
            None => NoteTarget::Unit(unit),
        }
    }
}

// What a unit is tied to before any card ties it.
fn first_target(unit: u64) -> Target
    ensures { result ≡ first_target unit }
{
    if unit == 5 {
        Target::Data
    } else if unit == 6 {
        Target::Spool
    } else {
        Target::Untied
    }
}

// Whether a data set that is tied is tied in others, too.
fn meets(target: &Target, ties: &[Tie]) -> bool
    ensures { result ≡ meets target.now ties.now }
{
    match target {
        Target::Set(name) => is_tied_in(name, ties),
        Target::Untied | Target::Data | Target::Spool => false,
    }
}

fn is_tied_in(name: &Name, ties: &[Tie]) -> bool
    ensures { result ≡ list_any (λ tie. is_set name.now tie.target) ties.now }
{
    ties.iter().any(|tie| is_set(name, &tie.target))
}

fn is_set(name: &Name, target: &Target) -> bool
    ensures { result ≡ is_set name.now target.now }
{
    match target {
        Target::Set(other) => name == other,
        Target::Untied | Target::Data | Target::Spool => false,
    }
}
