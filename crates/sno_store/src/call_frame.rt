//! What a call has to restore, and how calls begin and end.
ghost use Rattle.std.specs.Prelude.{◌≡◌, ◌<◌, ◌≤◌, ◌^◌, ◌∷◌, ◌++◌, [], length, take, drop, reverse, slice_get, unwrap_or, option_map, vec_len, vec_capacity, IfOk, OnOk, OnErr};
ghost use Rattle.sno_value.specs.Values.{null};
ghost use Rattle.sno_declarations.specs.Prototypes.{names_of};
ghost use Rattle.sno_variables.specs.Bindings.{assigned, paired};
ghost use Rattle.sno_store.specs.Calls.{bindings_of, level_with, saved_by, statement_of};
ghost use Rattle.sno_store.specs.inner.Parts.{value_given};
ghost use Rattle.sno_store.specs.inner.Filling.{fitted, values_for};

use crate::keyword::KeywordNumber;
use sno_declarations::{Function, Prototype};
use sno_value::Value;
use sno_variables::Variables;
use std::alloc::{AllocError, Global};
use std::marker::Model;
use std::mem;

/// A call: the function, the values of its variables before, and the statement that called.
#[derive(Drop)]
pub struct CallFrame {
    function: Function,
    // That of the function's name first, then those of its parameters and of its locals.
    values: Vec<Value>,
    statement: KeywordNumber,
}

impl Model for CallFrame {
    ghost use Rattle.std.specs.Prelude.{◌≡◌, length};
    ghost use Rattle.std.specs.Coded.{codes};
    ghost use Rattle.sno_text.specs.inner.Codes.{pattern_code};
    ghost use Rattle.sno_declarations.specs.Prototypes.{names_of};
    ghost use Rattle.sno_variables.specs.Bindings.{paired};
    ghost use Rattle.sno_store.specs.CallFrames.{CallFrame as Kept};

    ghost Value = { Kept };

    ghost coded = { Prim.hlevel (codes, pattern_code) };

    ghost view = { λ l. record { name = l.function.prototype.name; saved = paired (names_of l.function.prototype) l.values.items; statement = l.statement } };

    ghost invariant = { λ l. length l.values.items ≡ length (names_of l.function.prototype) };
}

/// The calls that are not at their end, the innermost first.
#[derive(Drop)]
pub struct CallStack {
    // The innermost stands last.
    levels: Vec<CallFrame>,
    // Room for the values of further calls.
    spares: Vec<Vec<Value>>,
}

impl Model for CallStack {
    ghost use Rattle.std.specs.Prelude.{List, reverse};
    ghost use Rattle.std.specs.Coded.{codes};
    ghost use Rattle.sno_text.specs.inner.Codes.{pattern_code};
    ghost use Rattle.sno_store.specs.CallFrames.{CallFrame as Kept};

    ghost Value = { List Kept };

    ghost coded = { Prim.hlevel (codes, pattern_code) };

    ghost view = { λ l. reverse l.levels.items };
}

// At most so many of the first values.
#[inline(always)]
fn cut(values: &mut Vec<Value>, count: usize)
    ensures { values.new.items ≡ take count values.old.items }
{
    if values.len() > count {
        values.truncate(count);
    }
}

// Null behind others, up to so many values.
#[tactic(auto, using(crate::proofs::Calling::padding))]
#[inline(always)]
fn pad(values: &mut Vec<Value>, count: usize) -> Result<(), AllocError>
    requires { length values.old.items ≤ count }
    ensures { OnOk result (values.new.items ≡ fitted count values.old.items) }
{
    while values.len() < count {
        values.push(Value::null())?;
    }
    Ok(())
}

// What a call gives the function's variables, where the arguments stand there, the last first.
#[inline(always)]
fn fill(values: &mut Vec<Value>, prototype: &Prototype) -> Result<(), AllocError>
    ensures { OnOk result (values.new.items ≡ values_for prototype.now (reverse values.old.items)) }
{
    values.push(Value::null())?;
    values.reverse();
    let count = 1 + prototype.parameters.as_slice().len();
    cut(values, count);
    pad(values, count + prototype.locals.as_slice().len())
}

/// A further call, for which there is room.
fn add(levels: &mut Vec<CallFrame>, level: CallFrame)
    requires { vec_len levels.old < vec_capacity levels.old }
    ensures { levels.new.items ≡ levels.old.items ++ level ∷ [] }
{
    let _pushed = levels.push(level);
}

// The first value, or the null string where there is none.
fn take_first(values: &mut Vec<Value>) -> Value
    ensures { result ≡ unwrap_or (slice_get values.old.items 0) null }
{
    match values.get_mut(0) {
        Some(value) => mem::replace(value, Value::null()),
        None => Value::null(),
    }
}

/// Lets values go. Numbers, which have nothing to be let go, are told first: there are the most of them.
fn empty(values: &mut Vec<Value>)
    ensures { values.new.items ≡ [] }
{
    while let Some(value) = values.pop() {
        match value {
            Value::Integer(_) | Value::Table(_) => {}
            Value::Text(text) => drop(text),
            other => drop(other),
        }
    }
}

impl CallStack {
    /// No calls.
    pub fn new(alloc: Global) -> CallStack
        ensures { result ≡ [] }
    {
        CallStack {
            levels: Vec::new(alloc),
            spares: Vec::new(alloc),
        }
    }

    /// How many calls there are.
    pub fn len(&self) -> u64
        ensures value { result ≡ length self.now }
        ensures small { length self.now < 2 ^ 63 }
    {
        self.levels.len() as u64
    }

    /// Room for the values of a call.
    #[inline(always)]
    pub fn room(&mut self, alloc: Global) -> Vec<Value>
        ensures room { result.items ≡ [] }
        ensures same { self.new ≡ self.old }
    {
        match self.spares.pop() {
            Some(values) => {
                let mut values = values;
                if !values.is_empty() {
                    values.clear();
                }
                values
            }
            None => Vec::new(alloc),
        }
    }

    /// Keeps the room of a call's values for another call, where it can be kept, and gives the first of them.
    fn keep(&mut self, values: Vec<Value>) -> Value
        ensures first { result ≡ unwrap_or (slice_get values.items 0) null }
        ensures same { self.new ≡ self.old }
    {
        let mut values = values;
        let first = take_first(&mut values);
        empty(&mut values);
        let _kept = self.spares.push(values);
        first
    }

    /// A further call, with arguments that stand there, the last first: its variables have what it gives them. It keeps the
    /// room of the arguments.
    ///
    /// # Errors
    ///
    /// Where a growth was refused; nothing has changed then.
    #[tactic(auto, using(crate::proofs::Calling::beginning))]
    pub fn begin(
        &mut self,
        alloc: Global,
        function: Function,
        arguments: Vec<Value>,
        statement: KeywordNumber,
        variables: &mut Variables,
    ) -> Result<(), AllocError>
        ensures begun { OnOk result (self.new ≡ level_with function statement variables.old ∷ self.old) }
        ensures assigned { OnOk result (variables.new ≡ assigned (bindings_of function.prototype (reverse arguments.items)) variables.old) }
        ensures unchanged { OnErr result ((self.new ≡ self.old) × (variables.new ≡ variables.old)) }
    {
        let mut values = arguments;
        fill(&mut values, &function.definition().prototype)?;
        self.begin_with(alloc, function, values, statement, variables)
    }

    // A further call, with a value for each of its variables.
    #[tactic(auto, using(crate::proofs::Calling::beginning))]
    #[inline(always)]
    fn begin_with(
        &mut self,
        alloc: Global,
        function: Function,
        values: Vec<Value>,
        statement: KeywordNumber,
        variables: &mut Variables,
    ) -> Result<(), AllocError>
        requires { length values.items ≡ length (names_of function.prototype) }
        ensures begun { OnOk result (self.new ≡ level_with function statement variables.old ∷ self.old) }
        ensures assigned { OnOk result (variables.new ≡ assigned (paired (names_of function.prototype) values.items) variables.old) }
        ensures unchanged { OnErr result ((self.new ≡ self.old) × (variables.new ≡ variables.old)) }
    {
        let mut values = values;
        self.levels.reserve(1)?;
        variables.exchange(alloc, &function.definition().prototype, &mut values)?;
        let level = CallFrame {
            function,
            values,
            statement,
        };
        add(&mut self.levels, level);
        Ok(())
    }

    /// Ends the innermost call: its variables have again what they had. It tells the statement that called, and the value of
    /// the function's name at the end; `None` where there is no call.
    ///
    /// # Errors
    ///
    /// Where a growth was refused; nothing has changed then. Where there is no call it takes no memory.
    #[tactic(auto, using(crate::proofs::Calling::ending))]
    pub fn end(
        &mut self,
        variables: &mut Variables,
    ) -> Result<Option<(KeywordNumber, Value)>, AllocError>
        ensures statement { IfOk result (λ back. option_map (λ b. b.0) back ≡ statement_of self.old) }
        ensures value { IfOk result (λ back. unwrap_or (option_map (λ b. b.1) back) null ≡ value_given self.old variables.old) }
        ensures ended { OnOk result (self.new ≡ drop 1 self.old) }
        ensures assigned { OnOk result (variables.new ≡ assigned (saved_by self.old) variables.old) }
        ensures unchanged { OnErr result ((self.new ≡ self.old) × (variables.new ≡ variables.old)) }
        ensures memory { OnErr result (0 < length self.old) }
    {
        let alloc = *self.levels.allocator();
        let Some(
            CallFrame {
                function,
                values,
                statement,
            },
        ) = self.levels.pop()
        else {
            return Ok(None);
        };
        let mut values = values;
        match variables.exchange(alloc, &function.definition().prototype, &mut values) {
            Ok(()) => {
                let value = self.keep(values);
                Ok(Some((statement, value)))
            }
            Err(_) => {
                let level = CallFrame {
                    function,
                    values,
                    statement,
                };
                let _pushed = self.levels.push(level);
                Err(AllocError)
            }
        }
    }
}
