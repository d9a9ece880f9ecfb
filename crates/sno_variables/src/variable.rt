//! Variables.
ghost use Rattle.std.specs.Prelude.{◌≡◌};
ghost use Rattle.sno_variables.specs.Variables.{holding};

use sno_declarations::{Input, Output};
use sno_value::Value;

/// A variable: its value, and what it is associated with.
#[derive(Drop)]
pub struct Variable {
    pub value: Value,
    pub input: Option<Input>,
    pub output: Option<Output>,
}

impl Variable {
    /// A variable of a value, which is associated with nothing.
    pub fn holding(value: Value) -> Variable
        ensures { result ≡ holding value }
    {
        Variable {
            value,
            input: None,
            output: None,
        }
    }
}

/// What using a variable meets.
#[derive(Drop)]
pub enum Found<'a> {
    /// The null string, as the variable has no value.
    Null,
    /// Its value.
    Plain(&'a Value),
    /// A record is to be read.
    Reads(Input),
}
