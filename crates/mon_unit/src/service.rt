//! The service that answers a program's requests from units and data sets.
ghost use Rattle.std.specs.Prelude.{◌≡◌, ◌≤◌, length, take, IfOk, OnOk, OnErr};
ghost use Rattle.mon_text.specs.Lines.{IsLine};
ghost use Rattle.mon_guard.specs.Cache.{CacheFits};
ghost use Rattle.mon_unit.specs.Serving.{noted};
ghost use Rattle.mon_unit.specs.Memory.{MayGrow};
ghost use Rattle.mon_unit.specs.inner.Settling.{asked, settled, target_of, IsNoted};

use crate::note::{Attempt, NoteAct, Why};
use crate::tie::Target;
use crate::units::Units;
use interaction::{Act, Answer, Reason, Request, Service};
use mon_access::Account;
use mon_catalogue::{Catalogue, MOST_RECORD_CHARACTERS};
use mon_guard::{Answered, Guard};
use mon_text::Line;
use std::alloc::{AllocError, Global};

/// Answers an account's requests from the data sets and the units that it is lent.
///
/// Each request on a data set is decided by the set's owner, group and permission list as they stand then. What is denied
/// and what there is no room for is noted.
#[derive(Drop)]
pub struct UnitService<'a> {
    pub alloc: Global,
    pub account: &'a Account,
    pub guard: &'a mut Guard,
    pub catalogue: &'a mut Catalogue,
    pub units: &'a mut Units,
}

impl Service for UnitService<'_> {
    ghost use Rattle.interaction.specs.Fitting.{Fits, IsShort, writing};
    ghost use Rattle.mon_unit.specs.Lent.{UnitAnswers, reach_of};
    ghost use Rattle.mon_guard.specs.Cache.{CacheFits};

    ghost ready = { λ s. CacheFits s.guard.now s.catalogue.now };

    ghost answers = { UnitAnswers };

    fn ask(&mut self, request: &Request) -> Result<Answer, AllocError>
        requires ready { CacheFits self.old.guard.now self.old.catalogue.now }
        requires short { IsShort request.now.act }
        ensures answered { IfOk result (λ answer. UnitAnswers self.old request.now answer self.new) }
        ensures fits { IfOk result (λ answer. Fits request.now answer) }
        ensures unchanged { OnErr result (self.new ≡ self.old) }
        ensures ready { CacheFits self.new.guard.now self.new.catalogue.now }
        ensures memory { OnErr result (MayGrow self.old.account.now (reach_of self.old) request.now) }
    {
        let statement = request.statement;
        match &request.act {
            Act::Read(unit) => self.read(statement, *unit),
            Act::Write(unit, line) => self.write_line(statement, *unit, line.as_bytes()),
            Act::Endfile(unit) => self.end(statement, *unit),
            Act::Rewind(unit) => self.rewind(statement, *unit),
        }
    }

    fn write(&mut self, statement: u64, unit: u64, line: &[u8]) -> Result<Answer, AllocError>
        requires ready { CacheFits self.old.guard.now self.old.catalogue.now }
        requires printable { IsLine line.now }
        requires short { length line.now ≤ 1024 }
        ensures answered { IfOk result (λ answer. UnitAnswers self.old (writing statement unit line.now) answer self.new) }
        ensures fits { IfOk result (λ answer. Fits (writing statement unit line.now) answer) }
        ensures unchanged { OnErr result (self.new ≡ self.old) }
        ensures ready { CacheFits self.new.guard.now self.new.catalogue.now }
        ensures memory { OnErr result (MayGrow self.old.account.now (reach_of self.old) (writing statement unit line.now)) }
    {
        self.write_line(statement, unit, line)
    }
}

impl UnitService<'_> {
    ghost use Rattle.interaction.specs.Fitting.{writing};
    ghost use Rattle.mon_unit.specs.Lent.{UnitAnswers, reach_of, left_with};

    fn read(&mut self, statement: u64, unit: u64) -> Result<Answer, AllocError>
        requires fit { CacheFits self.old.guard.now self.old.catalogue.now }
        ensures answered { IfOk result (λ answer. UnitAnswers self.old (asked statement (Act.Read unit)) answer self.new) }
        ensures unchanged { OnErr result (self.new ≡ self.old) }
        ensures fit { CacheFits self.new.guard.now self.new.catalogue.now }
        ensures memory { OnErr result (MayGrow self.old.account.now (reach_of self.old) (asked statement (Act.Read unit))) }
    {
        let attempt = Attempt {
            statement,
            act: NoteAct::Read,
            unit,
        };
        let Some(tie) = self.units.tie_at(unit) else {
            return self.units.denied(attempt, Reason::NoUnit);
        };
        let position = tie.position;
        match &tie.target {
            Target::Untied => self.units.denied(attempt, Reason::NoUnit),
            Target::Data => self.units.read_deck(self.alloc, unit, position),
            Target::Spool => self.units.denied(attempt, Reason::SpoolUnit),
            Target::Set(name) => {
                let known = self
                    .guard
                    .cached_record(self.account, self.catalogue, name, position);
                if let Some(text) = known {
                    let line = Line::in_room(Vec::with_capacity(self.alloc, text.len())?, text);
                    self.units.place(unit, position + 1);
                    return Ok(Answer::Got(line));
                }
                let cached = self.guard.cached();
                let told = self
                    .guard
                    .read(self.alloc, self.account, self.catalogue, name, position)?;
                self.settle(cached, attempt, told)
            }
        }
    }

    fn write_line(&mut self, statement: u64, unit: u64, line: &[u8]) -> Result<Answer, AllocError>
        requires printable { IsLine line.now }
        requires short { length line.now ≤ MOST_RECORD_CHARACTERS }
        requires fit { CacheFits self.old.guard.now self.old.catalogue.now }
        ensures answered { IfOk result (λ answer. UnitAnswers self.old (writing statement unit line.now) answer self.new) }
        ensures unchanged { OnErr result (self.new ≡ self.old) }
        ensures fit { CacheFits self.new.guard.now self.new.catalogue.now }
        ensures memory { OnErr result (MayGrow self.old.account.now (reach_of self.old) (writing statement unit line.now)) }
    {
        let attempt = Attempt {
            statement,
            act: NoteAct::Write,
            unit,
        };
        let Some(tie) = self.units.tie_at(unit) else {
            return self.units.denied(attempt, Reason::NoUnit);
        };
        let position = tie.position;
        match &tie.target {
            Target::Untied => self.units.denied(attempt, Reason::NoUnit),
            Target::Data => self.units.denied(attempt, Reason::InStream),
            Target::Spool => self.units.put_spool(line),
            Target::Set(name) => {
                let cached = self.guard.cached();
                let told = self
                    .guard
                    .write(self.account, self.catalogue, name, position, line)?;
                self.settle(cached, attempt, told)
            }
        }
    }

    fn end(&mut self, statement: u64, unit: u64) -> Result<Answer, AllocError>
        requires fit { CacheFits self.old.guard.now self.old.catalogue.now }
        ensures answered { IfOk result (λ answer. UnitAnswers self.old (asked statement (Act.Endfile unit)) answer self.new) }
        ensures unchanged { OnErr result (self.new ≡ self.old) }
        ensures fit { CacheFits self.new.guard.now self.new.catalogue.now }
        ensures memory { OnErr result (MayGrow self.old.account.now (reach_of self.old) (asked statement (Act.Endfile unit))) }
    {
        let attempt = Attempt {
            statement,
            act: NoteAct::Endfile,
            unit,
        };
        let Some(tie) = self.units.tie_at(unit) else {
            return self.units.denied(attempt, Reason::NoUnit);
        };
        let position = tie.position;
        match &tie.target {
            Target::Untied => self.units.denied(attempt, Reason::NoUnit),
            Target::Data => self.units.denied(attempt, Reason::InStream),
            Target::Spool => self.units.denied(attempt, Reason::SpoolUnit),
            Target::Set(name) => {
                let cached = self.guard.cached();
                let told = self.guard.end(self.account, self.catalogue, name, position);
                self.settle(cached, attempt, told)
            }
        }
    }

    fn rewind(&mut self, statement: u64, unit: u64) -> Result<Answer, AllocError>
        ensures answered { IfOk result (λ answer. UnitAnswers self.old (asked statement (Act.Rewind unit)) answer self.new) }
        ensures unchanged { OnErr result (self.new ≡ self.old) }
        ensures guard { self.new.guard.now ≡ self.old.guard.now }
        ensures memory { OnErr result (MayGrow self.old.account.now (reach_of self.old) (asked statement (Act.Rewind unit))) }
    {
        let attempt = Attempt {
            statement,
            act: NoteAct::Rewind,
            unit,
        };
        let Some(tie) = self.units.tie_at(unit) else {
            return self.units.denied(attempt, Reason::NoUnit);
        };
        match &tie.target {
            Target::Untied => self.units.denied(attempt, Reason::NoUnit),
            Target::Spool => Ok(Answer::Done),
            Target::Data | Target::Set(_) => {
                self.units.place(unit, 0);
                Ok(Answer::Done)
            }
        }
    }

    // Answers what the guard told of a data set. What was done is answered here, and all else by a call, since few requests are noted.
    #[inline(always)]
    fn settle(
        &mut self,
        cached: u64,
        attempt: Attempt,
        told: Answered,
    ) -> Result<Answer, AllocError>
        ensures answer { IfOk result (λ answer. answer ≡ told.answer) }
        ensures settled { OnOk result (self.new ≡ left_with self.old self.old.guard.now (settled attempt.statement attempt.act (target_of attempt.unit self.old.units.now) attempt.unit told self.old.units.now)) }
        ensures cache { OnErr result (self.new ≡ left_with self.old (take cached self.old.guard.now) self.old.units.now) }
        ensures memory { OnErr result (IsNoted told.answer) }
    {
        let Answered { answer, position } = told;
        match answer {
            Answer::Done => {
                self.units.place(attempt.unit, position);
                Ok(Answer::Done)
            }
            Answer::Got(line) => {
                self.units.place(attempt.unit, position);
                Ok(Answer::Got(line))
            }
            answer => self.note(cached, attempt, answer),
        }
    }

    // Notes an answer where it is to be noted. Where the growth for the note is refused, the guard is left with the rows that it had
    // before, so that the whole request leaves nothing behind.
    #[inline(never)]
    fn note(&mut self, cached: u64, attempt: Attempt, answer: Answer) -> Result<Answer, AllocError>
        ensures answer { IfOk result (λ given. given ≡ answer) }
        ensures noted { OnOk result (self.new ≡ left_with self.old self.old.guard.now (noted attempt.statement attempt.act (target_of attempt.unit self.old.units.now) answer self.old.units.now)) }
        ensures cache { OnErr result (self.new ≡ left_with self.old (take cached self.old.guard.now) self.old.units.now) }
        ensures memory { OnErr result (IsNoted answer) }
    {
        let why = match &answer {
            Answer::Denied(reason) => Why::Denied(reason.copy()),
            Answer::Full => Why::Full,
            Answer::Done | Answer::Got(_) | Answer::EndOfFile => return Ok(answer),
        };
        let target = self.units.note_target(attempt.unit);
        match self.units.note(attempt, target, why) {
            Ok(()) => Ok(answer),
            Err(AllocError) => {
                self.guard.keep_first(cached);
                Err(AllocError)
            }
        }
    }
}
