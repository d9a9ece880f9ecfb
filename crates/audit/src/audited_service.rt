//! The service that answers a program's requests from units and data sets, and puts a line for each to an audit.
ghost use Rattle.std.specs.Prelude.{◌≡◌, ◌≤◌, length, IfOk, OnErr};
ghost use Rattle.std.specs.Option.{option_copied, option_and_then};
ghost use Rattle.mon_text.specs.Lines.{IsLine};
ghost use Rattle.mon_catalogue.specs.Sets.{find_set};
ghost use Rattle.mon_unit.specs.Lent.{reach_of};
ghost use Rattle.mon_unit.specs.Serving.{unit_of, note_act, set_at};
ghost use Rattle.interaction.specs.Fitting.{Fits, IsShort, writing};
ghost use Rattle.mon_guard.specs.Cache.{CacheFits};
ghost use Rattle.audit.specs.Requests.{asked_at, asked_of};
ghost use Rattle.audit.specs.AuditedAnswers.{Audited};
ghost use Rattle.audit.specs.inner.Keeping.{KeptFits};

use crate::audit_cache::AuditCache;
use crate::cached_line::print_again;
use crate::request::{AuditedRequest, grant, place, print_request};
use interaction::{Act, Answer, Request, Service};
use mon_catalogue::{Catalogue, DataSet};
use mon_device::Sink;
use mon_text::Line;
use mon_unit::{NoteAct, Target, Tie, UnitService};
use std::alloc::AllocError;

/// Answers as the units do, and puts a line for each exchange to an audit, unless nobody listens. Where a growth is refused there is
/// no line. Words of lines are kept for as long as no other job or command has the data sets.
#[derive(Drop)]
pub struct AuditedService<'a, 'b, S: Sink> {
    /// Who answers.
    pub service: &'a mut UnitService<'b>,
    /// What the lines are put to.
    pub audit: &'a mut S,
    /// Of which job the lines are, and words of those that were put.
    pub kept: &'a mut AuditCache,
}

impl<S: Sink> Service for AuditedService<'_, '_, S> {
    ghost use Rattle.std.specs.Prelude.{◌≡◌};
    ghost use Rattle.mon_guard.specs.Cache.{CacheFits};
    ghost use Rattle.mon_unit.specs.Lent.{reach_of};
    ghost use Rattle.audit.specs.AuditedAnswers.{Audited};
    ghost use Rattle.audit.specs.inner.Keeping.{KeptFits};

    ghost ready = { λ s. CacheFits s.service.now.guard.now s.service.now.catalogue.now × KeptFits s.kept.now.number s.service.now.account.now (reach_of s.service.now) s.kept.now };

    ghost answers = { λ s q answer t. Audited s.kept.now.number s.service.now (S.standing s.audit.now) q answer t.kept.now.number t.service.now (S.standing t.audit.now) × (t.service.ghost_name ≡ s.service.ghost_name) × (t.audit.ghost_name ≡ s.audit.ghost_name) × (t.kept.ghost_name ≡ s.kept.ghost_name) };

    // Mostly nobody listens: so it is in its caller, and what else there is to do is a call.
    #[inline(always)]
    fn ask(&mut self, request: &Request) -> Result<Answer, AllocError> {
        if !self.audit.listens() {
            return self.service.ask(request);
        }
        ask_heeded(self.service, request, self.kept, self.audit)
    }

    fn write(&mut self, statement: u64, unit: u64, line: &[u8]) -> Result<Answer, AllocError> {
        if !self.audit.listens() {
            return self.service.write(statement, unit, line);
        }
        write_heeded(self.service, statement, unit, line, self.kept, self.audit)
    }

    fn is_late(&self) -> bool {
        self.audit.is_late()
    }
}

// Answers a request, and puts its line, of words that are kept where it is like one before. It stays a
// call, so that where nobody listens there is nothing but the question whether somebody does.
#[inline(never)]
fn ask_heeded<S: Sink>(
    service: &mut UnitService,
    request: &Request,
    kept: &mut AuditCache,
    sink: &mut S,
) -> Result<Answer, AllocError>
    requires fit { CacheFits service.old.guard.now service.old.catalogue.now }
    requires kept { KeptFits kept.old.number service.old.account.now (reach_of service.old) kept.old }
    requires short { IsShort request.now.act }
    ensures answered { IfOk result (λ answer.
        Audited kept.old.number service.old (S.standing sink.old) request.now answer kept.new.number service.new (S.standing sink.new)) }
    ensures fits { IfOk result (λ answer. Fits request.now answer) }
    ensures unchanged { OnErr result ((service.new ≡ service.old) × (kept.new ≡ kept.old) × (sink.new ≡ sink.old)) }
    ensures fit { CacheFits service.new.guard.now service.new.catalogue.now }
    ensures kept { KeptFits kept.new.number service.new.account.now (reach_of service.new) kept.new }
{
    let statement = request.statement;
    if let Some((line, place)) = kept.known(service, &request.act) {
        let answer = service.ask(request)?;
        print_again(line, statement, place, &answer, sink);
        return Ok(answer);
    }
    let asked = asked_by(kept.number, service, statement, &request.act);
    let answer = service.ask(request)?;
    print_request(&asked, &answer, sink);
    kept.keep(service.alloc, &asked, service.catalogue);
    Ok(answer)
}

// Writes a line as `ask_heeded` answers a request, from a copy of it. It stays a call for the same reason.
#[inline(never)]
fn write_heeded<S: Sink>(
    service: &mut UnitService,
    statement: u64,
    unit: u64,
    line: &[u8],
    kept: &mut AuditCache,
    sink: &mut S,
) -> Result<Answer, AllocError>
    requires fit { CacheFits service.old.guard.now service.old.catalogue.now }
    requires kept { KeptFits kept.old.number service.old.account.now (reach_of service.old) kept.old }
    requires printable { IsLine line.now }
    requires short { length line.now ≤ 1024 }
    ensures answered { IfOk result (λ answer.
        Audited kept.old.number service.old (S.standing sink.old) (writing statement unit line.now) answer kept.new.number service.new (S.standing sink.new)) }
    ensures fits { IfOk result (λ answer. Fits (writing statement unit line.now) answer) }
    ensures unchanged { OnErr result ((service.new ≡ service.old) × (kept.new ≡ kept.old) × (sink.new ≡ sink.old)) }
    ensures fit { CacheFits service.new.guard.now service.new.catalogue.now }
    ensures kept { KeptFits kept.new.number service.new.account.now (reach_of service.new) kept.new }
{
    let room = Vec::with_capacity(service.alloc, line.len())?;
    let act = Act::Write(unit, Line::in_room(room, line));
    ask_heeded(service, &Request { statement, act }, kept, sink)
}

// What the line of a request says, as the units and the data sets stand.
fn asked_by(number: u64, service: &UnitService, statement: u64, act: &Act) -> AuditedRequest
    ensures { result ≡ asked_of number service.now.account.now (reach_of service.now) (record { statement = statement; act = act.now }) }
{
    match service.units.tie_at(unit_of(act)) {
        Some(tie) => asked_at(number, service, statement, act, tie),
        None => asked_at(
            number,
            service,
            statement,
            act,
            &Tie {
                target: Target::Untied,
                position: 0,
            },
        ),
    }
}

// The same, where the unit is tied so.
fn asked_at(
    number: u64,
    service: &UnitService,
    statement: u64,
    act: &Act,
    tie: &Tie,
) -> AuditedRequest
    ensures { result ≡ asked_at number service.now.account.now service.now.catalogue.now (record { statement = statement; act = act.now }) tie.now }
{
    let note = note_act(act);
    let (place, grant) = match set_of(act, &tie.target, service.catalogue) {
        Some(set) => (
            place(note, set, tie.position),
            grant(service.account, note, set),
        ),
        None => (tie.position, None),
    };
    AuditedRequest {
        number,
        account: service.account.name.copy(),
        statement,
        act: note,
        unit: unit_of(act),
        target: copied(&tie.target),
        place,
        grant,
    }
}

// The data set that a request looks at, if it looks at one that is there.
fn set_of<'a>(act: &Act, target: &Target, catalogue: &'a Catalogue) -> Option<&'a DataSet>
    ensures { option_copied result ≡ option_and_then (λ name. find_set name catalogue.now) (set_at act.now target.now) }
{
    match (act, target) {
        (Act::Rewind(_), _) => None,
        (_, Target::Set(name)) => catalogue.find(name),
        _ => None,
    }
}

fn copied(target: &Target) -> Target
    ensures { result ≡ target.now }
{
    match target {
        Target::Untied => Target::Untied,
        Target::Data => Target::Data,
        Target::Spool => Target::Spool,
        Target::Set(name) => Target::Set(name.copy()),
    }
}

fn unit_of(act: &Act) -> u64
    ensures { result ≡ unit_of act.now }
{
    match act {
        Act::Read(unit) => *unit,
        Act::Write(unit, _) => *unit,
        Act::Endfile(unit) => *unit,
        Act::Rewind(unit) => *unit,
    }
}

fn note_act(act: &Act) -> NoteAct
    ensures { result ≡ note_act act.now }
{
    match act {
        Act::Read(_) => NoteAct::Read,
        Act::Write(_, _) => NoteAct::Write,
        Act::Endfile(_) => NoteAct::Endfile,
        Act::Rewind(_) => NoteAct::Rewind,
    }
}
