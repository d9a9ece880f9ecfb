//! Who a match asks: the variables of the job, which may read and write records.
ghost use Rattle.std.specs.Prelude.{◌≡◌, ◌<◌};
ghost use Rattle.interaction.specs.Asking.{Executes};
ghost use Rattle.sno_pattern.specs.Looks.{LookUp, Assign};
ghost use Rattle.sno_pattern.specs.Hosts.{WasFound, WasGiven};
ghost use Rattle.sno_state.specs.Using.{used, assigned};
ghost use Rattle.sno_state.specs.Matching.{looked_at, value_taken};
ghost use Rattle.sno_state.specs.inner.Parts.{cursor_number};
ghost use Rattle.sno_state.specs.inner.Telling.{Looks, StateTells, StateBroken};

use crate::using::{assigned, used};
use interaction::Service;
use sno_pattern::{Looked, MatchHost, Stop, Taken};
use sno_semantics::{Evaluated, Halt};
use sno_store::{Found, Store};
use sno_text::{Fault, Named, Text};
use sno_value::Value;
use std::alloc::{AllocError, Global};

/// The state of a job and its service, lent to a match.
#[derive(Drop)]
pub struct Host<'a, S> {
    pub alloc: Global,
    pub state: &'a mut Store,
    pub service: &'a mut S,
}

impl<S: Service> MatchHost for Host<'_, S> {
    ghost use Rattle.sno_state.specs.inner.Lent.{HostTells, HostBroken};

    ghost ready = { λ h. S.ready h.service.now };

    ghost tells = { HostTells S.answers };

    ghost broken = { HostBroken S.answers };

    fn look_up(&mut self, variable: &Named) -> Result<Looked, Stop> {
        match look_up(self.alloc, variable, self.state, self.service) {
            Ok(looked) => Ok(looked),
            Err(Stop::Fail) => Err(Stop::Fail),
            Err(Stop::Fault(fault)) => Err(Stop::Fault(fault)),
            Err(Stop::Memory) => Err(Stop::Memory),
        }
    }

    fn assign(&mut self, variable: &Text, taken: Taken) -> Result<(), Stop> {
        match assign(self.alloc, variable, taken, self.state, self.service) {
            Ok(()) => Ok(()),
            Err(Stop::Fail) => Err(Stop::Fail),
            Err(Stop::Fault(fault)) => Err(Stop::Fault(fault)),
            Err(Stop::Memory) => Err(Stop::Memory),
        }
    }

    fn is_late(&self) -> bool {
        self.service.is_late()
    }
}

/// What a value stands for in a pattern.
#[inline(always)]
fn looked_at(alloc: Global, value: &Value) -> Result<Looked, Stop>
    ensures { Looks result (looked_at value.now) }
{
    match value {
        Value::Pattern(pattern) => match pattern.copy() {
            Ok(pattern) => Ok(Looked::Pattern(pattern)),
            Err(_) => Err(Stop::Memory),
        },
        Value::Text(text) => match text.copy() {
            Ok(text) => Ok(Looked::Text(text)),
            Err(_) => Err(Stop::Memory),
        },
        Value::Integer(number) => match Text::of_number(alloc, *number) {
            Ok(text) => Ok(Looked::Text(text)),
            Err(_) => Err(Stop::Memory),
        },
        Value::Unevaluated(name) => match name.copy() {
            Ok(name) => Ok(Looked::Defer(name)),
            Err(_) => Err(Stop::Memory),
        },
        Value::Table(_) => Err(Stop::Fault(Fault::WrongType)),
    }
}

/// The number of characters before a cursor.
fn place_of(at: u64) -> i64
    ensures { result ≡ cursor_number at }
{
    match i64::try_from(at) {
        Ok(place) => place,
        Err(_) => 0,
    }
}

/// What a variable is assigned in a match.
fn value_taken(taken: Taken) -> Value
    ensures { result ≡ value_taken taken }
{
    match taken {
        Taken::Part(text) => Value::Text(text),
        Taken::Cursor(at) => Value::Integer(place_of(at)),
    }
}

/// What a variable stands for whose value is read from a unit.
#[inline(never)]
#[tactic(auto, using(interaction::proofs::Held::talking))]
fn look_up_read<S: Service>(
    alloc: Global,
    name: &Named,
    state: &mut Store,
    service: &mut S,
) -> Result<Looked, Stop>
    requires { S.ready service.old }
    ensures told { WasFound (StateTells S.answers) (StateBroken S.answers) (state.old, service.old) (LookUp name.now) result (state.new, service.new) }
    ensures counted { state.new.keywords.begun ≡ state.old.keywords.begun }
    ensures ready { S.ready service.new }
{
    match used(alloc, name, state, service) {
        Ok(Evaluated::Gives(value)) => match looked_at(alloc, &value) {
            Ok(looked) => Ok(looked),
            Err(Stop::Fail) => Err(Stop::Fail),
            Err(Stop::Fault(fault)) => Err(Stop::Fault(fault)),
            Err(Stop::Memory) => Err(Stop::Memory),
        },
        Ok(Evaluated::Fails) => Err(Stop::Fail),
        Ok(Evaluated::Halts(Halt::Fault(fault))) => Err(Stop::Fault(fault)),
        Ok(Evaluated::Halts(_)) => Err(Stop::Fail),
        Err(_) => Err(Stop::Memory),
    }
}

fn assign_variable<S: Service>(
    alloc: Global,
    variable: &Text,
    value: Value,
    state: &mut Store,
    service: &mut S,
) -> Result<Evaluated, AllocError>
    requires { S.ready service.old }
    ensures runs { Executes S.answers (assigned variable.now value state.old) service.old result (λ got. (got, state.new)) service.new }
    ensures counted { state.new.keywords.begun ≡ state.old.keywords.begun }
    ensures ready { S.ready service.new }
{
    let name = Named::new(variable.copy()?, 0);
    match assigned(alloc, &name, value, state, service) {
        Ok(got) => Ok(got),
        Err(e) => Err(e),
    }
}

/// What a name stands for. Its value is looked at where it stands, unless it is read from a unit.
#[tactic(auto, using(interaction::proofs::Held::talking))]
fn look_up<S: Service>(
    alloc: Global,
    name: &Named,
    state: &mut Store,
    service: &mut S,
) -> Result<Looked, Stop>
    requires { S.ready service.old }
    ensures told { WasFound (StateTells S.answers) (StateBroken S.answers) (state.old, service.old) (LookUp name.now) result (state.new, service.new) }
    ensures counted { state.new.keywords.begun ≡ state.old.keywords.begun }
    ensures ready { S.ready service.new }
{
    match state.get(name) {
        Found::Plain(value) => return looked_at(alloc, value),
        Found::Null => return Ok(Looked::Text(Text::null())),
        Found::Reads(_) => {}
    }
    look_up_read(alloc, name, state, service)
}

#[tactic(auto, using(interaction::proofs::Held::talking))]
fn assign<S: Service>(
    alloc: Global,
    variable: &Text,
    taken: Taken,
    state: &mut Store,
    service: &mut S,
) -> Result<(), Stop>
    requires { S.ready service.old }
    ensures told { WasGiven (StateTells S.answers) (StateBroken S.answers) (state.old, service.old) (Assign variable.now taken) result (state.new, service.new) }
    ensures counted { state.new.keywords.begun ≡ state.old.keywords.begun }
    ensures ready { S.ready service.new }
{
    match assign_variable(alloc, variable, value_taken(taken), state, service) {
        Ok(Evaluated::Gives(_)) => Ok(()),
        Ok(Evaluated::Fails) => Err(Stop::Fail),
        Ok(Evaluated::Halts(Halt::Fault(fault))) => Err(Stop::Fault(fault)),
        Ok(Evaluated::Halts(_)) => Err(Stop::Fail),
        Err(_) => Err(Stop::Memory),
    }
}
