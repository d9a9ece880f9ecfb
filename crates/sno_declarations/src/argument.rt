//! The arguments of the primitive functions that change the state.
ghost use Rattle.std.specs.Prelude.{◌≡◌, ok_or, IsSome, IsErrOf};
ghost use Rattle.mon_text.specs.Stops.{Gives};
ghost use Rattle.sno_value.specs.Values.{text_of};
ghost use Rattle.sno_declarations.specs.Arguments.{name_in, number_within, unit_in, unit_or, most_in, format_in, input_in, output_in};
ghost use Rattle.std.specs.Option.{option_and_then};
ghost use Rattle.sno_declarations.specs.Formats.{format_of};

use crate::association::{Input, Output};
use crate::format::{Format, read_format};
use mon_text::Stop;
use sno_text::{Fault, Text};
use sno_value::Value;
use std::alloc::Global;

/// The text of a value.
pub(crate) fn text_in(alloc: Global, value: &Value) -> Result<Text, Stop<Fault>>
    ensures text { Gives (λ text. text) result (ok_or (text_of value.now) Fault.WrongType) }
    ensures memory { IsErrOf result Stop.Memory → IsSome (text_of value.now) }
{
    match value {
        Value::Text(text) => {
            let text = text.copy()?;
            Ok(text)
        }
        Value::Integer(number) => {
            let text = Text::of_number(alloc, *number)?;
            Ok(text)
        }
        Value::Pattern(_) | Value::Unevaluated(_) | Value::Table(_) => {
            Err(Stop::Refused(Fault::WrongType))
        }
    }
}

/// The variable that a value names. A value that has no text takes no memory.
///
/// # Errors
///
/// `WrongType` where the value has no text, `Null` where it is the null string; `Memory` where a growth was refused.
pub fn name_in(alloc: Global, value: &Value) -> Result<Text, Stop<Fault>>
    ensures name { Gives (λ name. name) result (name_in value.now) }
    ensures memory { IsErrOf result Stop.Memory → IsSome (text_of value.now) }
{
    let name = text_in(alloc, value)?;
    if name.is_null() {
        Err(Stop::Refused(Fault::Null))
    } else {
        Ok(name)
    }
}

fn number_within(low: u64, high: u64, number: i64) -> Option<u64>
    ensures { result ≡ number_within low high number }
{
    match u64::try_from(number) {
        Ok(number) => {
            if low <= number && number <= high {
                Some(number)
            } else {
                None
            }
        }
        Err(_) => None,
    }
}

/// The unit that a value tells. The null string tells none.
///
/// # Errors
///
/// `WrongType` where the value has no number, `BadUnit` where it is not from 1 to 99.
pub fn unit_in(value: &Value) -> Result<u64, Fault>
    ensures { result ≡ unit_in value.now }
{
    match value.to_number() {
        Some(number) => match number_within(1, 99, number) {
            Some(unit) => Ok(unit),
            None => Err(Fault::BadUnit),
        },
        None => Err(Fault::WrongType),
    }
}

fn unit_or(usual: u64, value: &Value) -> Result<u64, Fault>
    ensures { result ≡ unit_or usual value.now }
{
    if value.is_null() {
        Ok(usual)
    } else {
        unit_in(value)
    }
}

fn most_in(value: &Value) -> Result<u64, Fault>
    ensures { result ≡ most_in value.now }
{
    if value.is_null() {
        return Ok(1024);
    }
    match value.to_number() {
        Some(number) => match number_within(1, 1024, number) {
            Some(most) => Ok(most),
            None => Err(Fault::Format),
        },
        None => Err(Fault::Format),
    }
}

/// The format that the text of a value is. That of a number is none.
#[tactic(auto, using(crate::proofs::Decimals::no_format))]
fn format_by(value: &Value) -> Option<Format>
    ensures { result ≡ option_and_then format_of (text_of value.now) }
{
    match value {
        Value::Text(text) => read_format(text.as_bytes()),
        Value::Integer(_) | Value::Pattern(_) | Value::Unevaluated(_) | Value::Table(_) => None,
    }
}

fn format_in(value: &Value) -> Result<Format, Fault>
    ensures { result ≡ format_in value.now }
{
    if value.is_null() {
        return Ok(Format::new(1024, false));
    }
    match format_by(value) {
        Some(format) => Ok(format),
        None => Err(Fault::Format),
    }
}

/// What INPUT associates a variable with.
///
/// # Errors
///
/// `WrongType` or `BadUnit` for the unit, then `Format` for anything wrong with the number of characters.
pub fn input_in(unit: &Value, most: &Value) -> Result<Input, Fault>
    ensures { result ≡ input_in unit.now most.now }
{
    match unit_or(5, unit) {
        Ok(unit) => match most_in(most) {
            Ok(most) => Ok(Input { unit, most }),
            Err(fault) => Err(fault),
        },
        Err(fault) => Err(fault),
    }
}

/// What OUTPUT associates a variable with. It takes no memory.
///
/// # Errors
///
/// `WrongType` or `BadUnit` for the unit, then `Format` for anything wrong with the format.
pub fn output_in(unit: &Value, format: &Value) -> Result<Output, Fault>
    ensures { result ≡ output_in unit.now format.now }
{
    match unit_or(6, unit) {
        Ok(unit) => match format_in(format) {
            Ok(format) => Ok(Output { unit, format }),
            Err(fault) => Err(fault),
        },
        Err(fault) => Err(fault),
    }
}
