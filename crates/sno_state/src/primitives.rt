//! The functions that a program does not define.
ghost use Rattle.std.specs.Prelude.{◌≡◌, IfOk, OnErr};
ghost use Rattle.mon_text.specs.Stops.{Gives};
ghost use Rattle.sno_value.specs.Values.{null};
ghost use Rattle.sno_value.specs.Primitives.{argument, primitive_named};
ghost use Rattle.interaction.specs.Asking.{Executes};
ghost use Rattle.interaction.specs.Fitting.{IsShort};
ghost use Rattle.interaction.specs.declared.request.Act.TheVariants.{Endfile as Ending, Rewind as Rewinding};
ghost use Rattle.interaction.specs.Interactions.{Returns};
ghost use Rattle.sno_declarations.specs.Arguments.{unit_in};
ghost use Rattle.sno_state.specs.Asking.{asked, changed_by};
ghost use Rattle.sno_store.specs.States.{new_table, with_new_table};
ghost use Rattle.sno_state.specs.Primitives.{state_changed, on_unit, state_function_done, primitive};
ghost use Rattle.sno_state.specs.inner.Parts.{on_values};

use interaction::{Act, Answer, Request, Service};
use mon_text::Stop;
use sno_declarations::unit_in;
use sno_semantics::{Evaluated, Halt, got_of};
use sno_store::{Callee, Change, StateFunction, Store};
use sno_text::Fault;
use sno_value::Value;
use std::alloc::{AllocError, Global};

/// The argument at a place, or what stands for one that is missing.
fn argument<'a>(given: &'a [Value], at: usize, missing: &'a Value) -> &'a Value
    requires { missing.now ≡ null }
    ensures { result.now ≡ argument at given.now }
{
    match given.get(at) {
        Some(value) => value,
        None => missing,
    }
}

fn make_change(
    alloc: Global,
    which: Change,
    first: &Value,
    second: &Value,
    third: &Value,
    state: &mut Store,
) -> Result<(), Stop<Fault>>
    ensures answered { Gives (λ _. state.new) result (state_changed which first.now second.now third.now state.old) }
    ensures unchanged { OnErr result (state.new ≡ state.old) }
{
    match which {
        Change::Define => state.define(alloc, first, second),
        Change::Input => state.associate_input(alloc, first, second, third),
        Change::Output => state.associate_output(alloc, first, second, third),
        Change::Detach => state.detach(alloc, first),
    }
}

/// Changes the state, and gives null or a fault.
fn change_state(
    alloc: Global,
    which: Change,
    first: &Value,
    second: &Value,
    third: &Value,
    state: &mut Store,
) -> Result<Evaluated, AllocError>
    ensures changed { IfOk result (λ got. (got, state.new) ≡ changed_by null (state_changed which first.now second.now third.now state.old) state.old) }
    ensures counted { state.new.keywords.begun ≡ state.old.keywords.begun }
{
    match make_change(alloc, which, first, second, third, state) {
        Ok(()) => Ok(Evaluated::Gives(Value::null())),
        Err(Stop::Refused(fault)) => Ok(Evaluated::Halts(Halt::Fault(fault))),
        Err(Stop::Memory) => Err(AllocError),
    }
}

/// Makes a table, and gives it; or there is the fault `Length`, and nothing has changed.
fn make_table(state: &mut Store) -> Evaluated
    ensures made { (result, state.new) ≡ changed_by (new_table state.old) (with_new_table state.old) state.old }
    ensures counted { state.new.keywords.begun ≡ state.old.keywords.begun }
{
    match state.new_table() {
        Ok(table) => Evaluated::Gives(table),
        Err(fault) => Evaluated::Halts(Halt::Fault(fault)),
    }
}

/// Asks for an act, and gives null where it is done.
#[tactic(auto, using(interaction::proofs::Held::talking))]
fn ask_for<S: Service>(act: Act, state: &Store, service: &mut S) -> Result<Evaluated, AllocError>
    requires ready { S.ready service.old }
    requires short { IsShort act }
    ensures runs { Executes S.answers (asked act state.now) service.old result (λ got. (got, state.now)) service.new }
    ensures ready { S.ready service.new }
{
    let request = Request {
        statement: state.statement(),
        act,
    };
    match service.ask(&request)? {
        Answer::Done => Ok(Evaluated::Gives(Value::null())),
        _ => Ok(Evaluated::Fails),
    }
}

/// Asks for an act on the unit that an argument tells.
#[tactic(auto, using(interaction::proofs::Held::talking))]
fn endfile<S: Service>(
    unit: &Value,
    state: &Store,
    service: &mut S,
) -> Result<Evaluated, AllocError>
    requires { S.ready service.old }
    ensures runs { Executes S.answers (on_unit Ending (unit_in unit.now) state.now) service.old result (λ got. (got, state.now)) service.new }
    ensures ready { S.ready service.new }
{
    match unit_in(unit) {
        Ok(unit) => match ask_for(Act::Endfile(unit), state, service) {
            Ok(got) => Ok(got),
            Err(e) => Err(e),
        },
        Err(fault) => Ok(Evaluated::Halts(Halt::Fault(fault))),
    }
}

#[tactic(auto, using(interaction::proofs::Held::talking))]
fn rewind<S: Service>(unit: &Value, state: &Store, service: &mut S) -> Result<Evaluated, AllocError>
    requires { S.ready service.old }
    ensures runs { Executes S.answers (on_unit Rewinding (unit_in unit.now) state.now) service.old result (λ got. (got, state.now)) service.new }
    ensures ready { S.ready service.new }
{
    match unit_in(unit) {
        Ok(unit) => match ask_for(Act::Rewind(unit), state, service) {
            Ok(got) => Ok(got),
            Err(e) => Err(e),
        },
        Err(fault) => Ok(Evaluated::Halts(Halt::Fault(fault))),
    }
}

/// Calls a function on the state of the job.
#[tactic(auto, using(interaction::proofs::Held::talking))]
fn on_state<S: Service>(
    alloc: Global,
    which: StateFunction,
    arguments: &[Value],
    state: &mut Store,
    service: &mut S,
) -> Result<Evaluated, AllocError>
    requires { S.ready service.old }
    ensures runs { Executes S.answers (state_function_done which (argument 0 arguments.now) (argument 1 arguments.now) (argument 2 arguments.now) state.old) service.old result (λ got. (got, state.new)) service.new }
    ensures counted { state.new.keywords.begun ≡ state.old.keywords.begun }
    ensures ready { S.ready service.new }
{
    let null = Value::null();
    let first = argument(arguments, 0, &null);
    let second = argument(arguments, 1, &null);
    let third = argument(arguments, 2, &null);
    match which {
        StateFunction::Changes(which) => {
            let got = change_state(alloc, which, first, second, third, state)?;
            Ok(got)
        }
        StateFunction::NewTable => Ok(make_table(state)),
        StateFunction::Endfile => match endfile(first, state, service) {
            Ok(got) => Ok(got),
            Err(e) => Err(e),
        },
        StateFunction::Rewind => match rewind(first, state, service) {
            Ok(got) => Ok(got),
            Err(e) => Err(e),
        },
    }
}

/// Calls a function on values alone, if there is one of that name.
fn on_values(
    alloc: Global,
    name: &Callee,
    arguments: &[Value],
    state: &Store,
) -> Result<Evaluated, AllocError>
    ensures { IfOk result (λ got. Returns (got, state.now) ≡ on_values (primitive_named name.now) arguments.now state.now) }
{
    match name.primitive() {
        Some(primitive) => {
            let outcome = primitive.call(alloc, arguments, state.maximum_length())?;
            Ok(got_of(outcome))
        }
        None => Ok(Evaluated::Halts(Halt::Fault(Fault::Function))),
    }
}

/// Calls a function that the program did not define: one on the state of the job, or one on values alone. There is the fault
/// `Function` where there is none of that name.
///
/// # Errors
///
/// Where a growth was refused.
#[tactic(auto, using(interaction::proofs::Held::talking, crate::proofs::Ending::ended_so))]
pub fn primitive<S: Service>(
    alloc: Global,
    name: &Callee,
    arguments: &[Value],
    state: &mut Store,
    service: &mut S,
) -> Result<Evaluated, AllocError>
    requires { S.ready service.old }
    ensures runs { Executes S.answers (primitive name.now arguments.now state.old) service.old result (λ got. (got, state.new)) service.new }
    ensures counted { state.new.keywords.begun ≡ state.old.keywords.begun }
    ensures ready { S.ready service.new }
{
    match name.state_function() {
        Some(which) => match on_state(alloc, which, arguments, state, service) {
            Ok(got) => Ok(got),
            Err(e) => Err(e),
        },
        None => {
            let got = on_values(alloc, name, arguments, state)?;
            Ok(got)
        }
    }
}
