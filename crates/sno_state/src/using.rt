//! A variable used, and assigned a value.
ghost use Rattle.std.specs.Prelude.{◌≡◌, ◌≤◌, length, IfOk, OnErr};
ghost use Rattle.mon_text.specs.Lines.{IsLine};
ghost use Rattle.interaction.specs.Interactions.{ask};
ghost use Rattle.sno_value.specs.Values.{text_of};
ghost use Rattle.sno_value.specs.declared.value.Value.TheVariants as value;
ghost use Rattle.interaction.specs.Asking.{RunsTo, Executes};
ghost use Rattle.interaction.specs.declared.request.Act.TheVariants.{Write as Writing};
ghost use Rattle.sno_declarations.specs.Formats.{laid_out, records};
ghost use Rattle.sno_variables.specs.Variables.{Reads};
ghost use Rattle.sno_store.specs.States.{kept_of};
ghost use Rattle.sno_state.specs.Asking.{request};
ghost use Rattle.sno_state.specs.Using.{used_by, used, write_all, assigned};
ghost use Rattle.sno_state.specs.inner.Parts.{stored, write_text, written_on, writing_got};

use interaction::{Act, Answer, Request, Service};
use mon_text::Line;
use sno_declarations::laws::records_follow;
use sno_declarations::{Input, Output, after_blank};
use sno_semantics::{Evaluated, Halt};
use sno_store::{Found, Store};
use sno_text::{Fault, Named, Text};
use sno_value::Value;
use std::alloc::{AllocError, Global};

/// Stores what is kept of a record, and gives it.
fn store_record(
    alloc: Global,
    name: &Named,
    input: Input,
    line: Line,
    state: &mut Store,
) -> Result<Evaluated, AllocError>
    ensures stored { IfOk result (λ got. (got, state.new) ≡ stored name.now (value.Text (kept_of input state.old.keywords line)) state.old) }
    ensures counted { state.new.keywords.begun ≡ state.old.keywords.begun }
{
    let text = state.kept(alloc, input, line)?;
    let copy = text.copy()?;
    state.set(name, Value::Text(copy))?;
    Ok(Evaluated::Gives(Value::Text(text)))
}

/// Reads a record for a variable.
#[tactic(auto, using(interaction::proofs::Held::talking))]
fn read<S: Service>(
    alloc: Global,
    name: &Named,
    input: Input,
    state: &mut Store,
    service: &mut S,
) -> Result<Evaluated, AllocError>
    requires { S.ready service.old }
    ensures runs { Executes S.answers (used_by name.now (Reads input) state.old) service.old result (λ got. (got, state.new)) service.new }
    ensures counted { state.new.keywords.begun ≡ state.old.keywords.begun }
    ensures ready { S.ready service.new }
{
    let request = Request {
        statement: state.statement(),
        act: Act::Read(input.unit),
    };
    match service.ask(&request)? {
        Answer::Got(line) => store_record(alloc, name, input, line, state),
        _ => Ok(Evaluated::Fails),
    }
}

/// Uses the value of a variable: a record is read, where it is associated with a unit.
///
/// # Errors
///
/// Where a growth was refused, and the record may have been read then; or where as many share the value as can be counted.
#[tactic(auto, using(interaction::proofs::Held::talking))]
pub fn used<S: Service>(
    alloc: Global,
    name: &Named,
    state: &mut Store,
    service: &mut S,
) -> Result<Evaluated, AllocError>
    requires { S.ready service.old }
    ensures runs { Executes S.answers (used name.now state.old) service.old result (λ got. (got, state.new)) service.new }
    ensures counted { state.new.keywords.begun ≡ state.old.keywords.begun }
    ensures ready { S.ready service.new }
{
    let input = match state.get(name) {
        Found::Null => return Ok(Evaluated::Gives(Value::null())),
        Found::Plain(value) => return Ok(Evaluated::Gives(value.copy()?)),
        Found::Reads(input) => input,
    };
    match read(alloc, name, input, state, service) {
        Ok(got) => Ok(got),
        Err(e) => Err(e),
    }
}

/// Writes a record, and tells the answer.
fn write<S: Service>(
    unit: u64,
    line: &[u8],
    state: &Store,
    service: &mut S,
) -> Result<Answer, AllocError>
    requires ready { S.ready service.old }
    requires printable { IsLine line.now }
    requires short { length line.now ≤ 1024 }
    ensures held { IfOk result (λ answer. RunsTo S.answers (ask (request (Writing unit line.now) state.now)) service.old answer service.new) }
    ensures cut { OnErr result (service.new ≡ service.old) }
    ensures ready { S.ready service.new }
{
    match service.write(state.statement(), unit, line) {
        Ok(answer) => Ok(answer),
        Err(e) => Err(e),
    }
}

/// Writes a piece of a text as a record: from where it stands, or behind a blank.
fn write_piece<S: Service>(
    alloc: Global,
    output: Output,
    piece: &[u8],
    state: &Store,
    service: &mut S,
) -> Result<Answer, AllocError>
    requires ready { S.ready service.old }
    requires printable { IsLine piece.now }
    requires short { length (laid_out output.format piece.now) ≤ 1024 }
    ensures held { IfOk result (λ answer.
        RunsTo S.answers (ask (request (Writing output.unit (laid_out output.format piece.now)) state.now)) service.old answer service.new) }
    ensures cut { OnErr result (service.new ≡ service.old) }
    ensures ready { S.ready service.new }
{
    if output.format.has_blank() {
        let line = after_blank(alloc, piece)?;
        return write(output.unit, line.as_bytes(), state, service);
    }
    write(output.unit, piece, state, service)
}

/// What writing the records of a value comes to.
#[derive(Clone, Copy)]
pub enum WriteEnd {
    /// All are written.
    Done,
    /// One is not written, and those behind it are not tried.
    Fails,
    /// The value has no text.
    NoText,
}

/// What an assignment gets then.
pub fn writing_got(writing: WriteEnd) -> Evaluated
    ensures { result ≡ writing_got writing }
{
    match writing {
        WriteEnd::Done => Evaluated::Gives(Value::null()),
        WriteEnd::Fails => Evaluated::Fails,
        WriteEnd::NoText => Evaluated::Halts(Halt::Fault(Fault::WrongType)),
    }
}

/// Writes the records of a text in their order, up to the first that is not written.
#[tactic(auto, using(interaction::proofs::Held::talking))]
fn write_records<S: Service>(
    alloc: Global,
    output: Output,
    text: &Text,
    state: &Store,
    service: &mut S,
) -> Result<WriteEnd, AllocError>
    requires { S.ready service.old }
    ensures runs { Executes S.answers (write_all output.unit (records output.format text.now) state.now) service.old result (λ writing. (writing_got writing, state.now)) service.new }
    ensures ready { S.ready service.new }
{
    records_follow();
    let characters = output.format.characters() as usize;
    let mut from = 0;
    loop {
        let piece = output.format.piece(text, from);
        match write_piece(alloc, output, piece, state, service)? {
            Answer::Done => {}
            _ => return Ok(WriteEnd::Fails),
        }
        if text.len() - from <= characters {
            return Ok(WriteEnd::Done);
        }
        from += characters;
    }
}

/// Writes a value, which has to have a text.
#[tactic(auto, using(interaction::proofs::Held::talking))]
fn write_value<S: Service>(
    alloc: Global,
    output: Output,
    value: &Value,
    state: &Store,
    service: &mut S,
) -> Result<WriteEnd, AllocError>
    requires { S.ready service.old }
    ensures runs { Executes S.answers (write_text output (text_of value.now) state.now) service.old result (λ writing. (writing_got writing, state.now)) service.new }
    ensures ready { S.ready service.new }
{
    match value {
        Value::Text(text) => match write_records(alloc, output, text, state, service) {
            Ok(writing) => Ok(writing),
            Err(e) => Err(e),
        },
        _ => write_other(alloc, output, value, state, service),
    }
}

/// Writes any value in this way: its text is made first. It stays a call, since what is written nearly always is a text.
#[inline(never)]
#[tactic(auto, using(interaction::proofs::Held::talking))]
fn write_other<S: Service>(
    alloc: Global,
    output: Output,
    value: &Value,
    state: &Store,
    service: &mut S,
) -> Result<WriteEnd, AllocError>
    requires { S.ready service.old }
    ensures runs { Executes S.answers (write_text output (text_of value.now) state.now) service.old result (λ writing. (writing_got writing, state.now)) service.new }
    ensures ready { S.ready service.new }
{
    match value.to_text(alloc)? {
        Some(text) => match write_records(alloc, output, &text, state, service) {
            Ok(writing) => Ok(writing),
            Err(e) => Err(e),
        },
        None => Ok(WriteEnd::NoText),
    }
}

/// Writes the value that a variable has from where it stands, where the variable is associated with a unit.
#[tactic(auto, using(interaction::proofs::Held::talking))]
pub fn write_variable<S: Service>(
    alloc: Global,
    name: &Named,
    state: &Store,
    service: &mut S,
) -> Result<WriteEnd, AllocError>
    requires { S.ready service.old }
    ensures runs { Executes S.answers (written_on name.now state.now) service.old result (λ writing. (writing_got writing, state.now)) service.new }
    ensures ready { S.ready service.new }
{
    match state.written(name) {
        Some((value, output)) => match write_value(alloc, output, value, state, service) {
            Ok(writing) => Ok(writing),
            Err(e) => Err(e),
        },
        None => Ok(WriteEnd::Done),
    }
}

/// Assigns a value to a variable that most likely was not named before or is written: it is not tried first whether it is neither.
///
/// # Errors
///
/// Where a growth was refused; some records may have been written then.
#[inline(never)]
#[tactic(auto, using(interaction::proofs::Held::talking, crate::proofs::OnVariable::assigned_on))]
pub fn assigned_first<S: Service>(
    alloc: Global,
    name: &Named,
    value: Value,
    state: &mut Store,
    service: &mut S,
) -> Result<Evaluated, AllocError>
    requires { S.ready service.old }
    ensures runs { Executes S.answers (assigned name.now value state.old) service.old result (λ got. (got, state.new)) service.new }
    ensures counted { state.new.keywords.begun ≡ state.old.keywords.begun }
    ensures ready { S.ready service.new }
{
    match state.set(name, value)? {
        Some(_) => match write_variable(alloc, name, state, service) {
            Ok(writing) => Ok(writing_got(writing)),
            Err(e) => Err(e),
        },
        None => Ok(Evaluated::Gives(Value::null())),
    }
}

/// Assigns a value to a variable: it is stored, and its records are written where the variable is associated with a unit.
///
/// It fails where a record is not written, and those behind it are not tried; the variable has the value then too.
///
/// # Errors
///
/// Where a growth was refused; some records may have been written then.
#[inline(always)]
#[tactic(auto, using(interaction::proofs::Held::talking, crate::proofs::OnVariable::assigned_on))]
pub fn assigned<S: Service>(
    alloc: Global,
    name: &Named,
    value: Value,
    state: &mut Store,
    service: &mut S,
) -> Result<Evaluated, AllocError>
    requires { S.ready service.old }
    ensures runs { Executes S.answers (assigned name.now value state.old) service.old result (λ got. (got, state.new)) service.new }
    ensures counted { state.new.keywords.begun ≡ state.old.keywords.begun }
    ensures ready { S.ready service.new }
{
    let mut value = value;
    if state.replace(name, &mut value) {
        Ok(Evaluated::Gives(Value::null()))
    } else {
        assigned_first(alloc, name, value, state, service)
    }
}
