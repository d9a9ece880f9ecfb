//! Arithmetic.
ghost use Rattle.std.specs.Prelude.{◌≡◌, ◌≤◌};
ghost use Rattle.std.specs.Int.{int_pow};
ghost use Rattle.sno_value.specs.Values.{integer_of};
ghost use Rattle.std.specs.Option.{option_map_or};
ghost use Rattle.sno_text.specs.declared.fault.Fault.TheVariants.{Arithmetic};
ghost use Rattle.sno_value.specs.declared.value.Value.TheVariants.{Integer};
ghost use Rattle.sno_value.specs.declared.outcome.Outcome.TheVariants.{Gives, Faults};
ghost use Rattle.sno_value.specs.declared.calculating.Operation.TheVariants.{Quotient, Power};
ghost use Rattle.sno_value.specs.Operators.{calculation, arithmetic, negation, affirmation};

use crate::outcome::Outcome;
use crate::value::Value;
use sno_text::Fault;

/// What is calculated of two numbers.
#[derive(Clone, Copy)]
pub enum Operation {
    /// `+`
    Sum,
    /// `-`
    Difference,
    /// `*`
    Product,
    /// `/`, rounded toward zero.
    Quotient,
    /// `**`
    Power,
}

// A number that was calculated, unless 64 bits do not hold it.
fn calculated(number: Option<i64>) -> Outcome
    ensures { result ≡ option_map_or (λ n. Gives (Integer n)) number (Faults Arithmetic) }
{
    match number {
        Some(number) => Outcome::Gives(Value::Integer(number)),
        None => Outcome::Faults(Fault::Arithmetic),
    }
}

fn quotient(dividend: i64, divisor: i64) -> Outcome
    ensures { result ≡ calculation Quotient dividend divisor }
{
    calculated(dividend.checked_div(divisor))
}

// A number to a large power: only 0, 1 and -1 have one that 64 bits hold.
fn raised_high(base: i64, exponent: u64) -> Option<i64>
    requires { 64 ≤ exponent }
    ensures { result ≡ integer_of (int_pow base exponent) }
{
    if base.unsigned_abs() > 1 {
        None
    } else if base >= 0 {
        Some(base)
    } else if exponent % 2 == 0 {
        Some(1)
    } else {
        Some(-1)
    }
}

// A number to a power.
fn raised(base: i64, exponent: u64) -> Option<i64>
    ensures { result ≡ integer_of (int_pow base exponent) }
{
    if exponent < 64 {
        base.checked_pow(exponent as u32)
    } else {
        raised_high(base, exponent)
    }
}

fn power(base: i64, exponent: i64) -> Outcome
    ensures { result ≡ calculation Power base exponent }
{
    if exponent < 0 {
        Outcome::Faults(Fault::Arithmetic)
    } else {
        calculated(raised(base, exponent.unsigned_abs()))
    }
}

fn calculate(operation: Operation, left: i64, right: i64) -> Outcome
    ensures { result ≡ calculation operation left right }
{
    match operation {
        Operation::Sum => calculated(left.checked_add(right)),
        Operation::Difference => calculated(left.checked_sub(right)),
        Operation::Product => calculated(left.checked_mul(right)),
        Operation::Quotient => quotient(left, right),
        Operation::Power => power(left, right),
    }
}

/// What is calculated of two values by their numbers. It takes no memory.
pub fn arith(operation: Operation, left: &Value, right: &Value) -> Outcome
    ensures { result ≡ arithmetic operation left.now right.now }
{
    match (left.to_number(), right.to_number()) {
        (Some(left), Some(right)) => calculate(operation, left, right),
        _ => Outcome::Faults(Fault::WrongType),
    }
}

/// What unary `-` gives. It takes no memory.
pub fn negate(value: &Value) -> Outcome
    ensures { result ≡ negation value.now }
{
    match value.to_number() {
        Some(number) => calculated(number.checked_neg()),
        None => Outcome::Faults(Fault::WrongType),
    }
}

/// What unary `+` gives: the number of the value. It takes no memory.
pub fn affirm(value: &Value) -> Outcome
    ensures { result ≡ affirmation value.now }
{
    match value.to_number() {
        Some(number) => Outcome::Gives(Value::Integer(number)),
        None => Outcome::Faults(Fault::WrongType),
    }
}
