//! The primitive functions that depend on nothing but their arguments.
ghost use Rattle.std.specs.Prelude.{◌≡◌, true, IfOk, OnErr};
ghost use Rattle.sno_value.specs.Values.{null};
ghost use Rattle.sno_value.specs.Primitives.{argument, applied, takes_memory, primitive_gives, primitive_named};
ghost use Rattle.sno_value.specs.inner.Names.{pattern_function, comparison_function};
ghost use Rattle.sno_value.specs.Memory.{is_given};

use crate::outcome::Outcome;
use crate::patterns::{any_number_of, of_characters, of_number};
use crate::predicates::{compare, different, identical, lexically_greater, numeric};
use crate::texts::{data_type, duplicate, replace, size, trim};
use crate::value::Value;
use std::alloc::{AllocError, Global};

/// How two numbers are compared.
#[derive(Clone, Copy)]
pub enum Comparison {
    /// EQ
    Equal,
    /// NE
    NotEqual,
    /// LT
    Less,
    /// LE
    LessOrEqual,
    /// GT
    Greater,
    /// GE
    GreaterOrEqual,
}

/// The patterns of a number.
#[derive(Clone, Copy)]
pub enum NumberPattern {
    Len,
    Pos,
    RPos,
    Tab,
    RTab,
}

/// The patterns of some characters.
#[derive(Clone, Copy)]
pub enum CharacterPattern {
    Span,
    Break,
    Any,
    NotAny,
}

/// A primitive function that depends on nothing but its arguments.
///
/// Those that change or read the state of a job, as DEFINE and INPUT, are not among them.
#[derive(Clone, Copy)]
pub enum Primitive {
    /// SIZE
    Size,
    /// TRIM
    Trim,
    /// DUPL
    Duplicate,
    /// REPLACE
    Replace,
    /// EQ, NE, LT, LE, GT, GE
    Compare(Comparison),
    /// LGT
    LexicallyGreater,
    /// IDENT
    Identical,
    /// DIFFER
    Different,
    /// INTEGER
    Numeric,
    /// DATATYPE
    DataType,
    /// LEN, POS, RPOS, TAB, RTAB
    OfNumber(NumberPattern),
    /// SPAN, BREAK, ANY, NOTANY
    OfCharacters(CharacterPattern),
    /// ARBNO
    Arbno,
}

impl Primitive {
    /// What it gives for its first three arguments. A string that DUPL forms has at most `most` characters.
    /// Failure and faults take no memory.
    ///
    /// # Errors
    ///
    /// Where a growth was refused.
    pub fn apply(
        self,
        alloc: Global,
        first: &Value,
        second: &Value,
        third: &Value,
        most: u64,
    ) -> Result<Outcome, AllocError>
        ensures value { IfOk result (λ outcome. outcome ≡ applied self first.now second.now third.now most) }
        ensures memory { OnErr result (takes_memory self ≡ true) }
        ensures given { OnErr result (is_given (applied self first.now second.now third.now most) ≡ true) }
    {
        match self {
            Primitive::Size => Ok(size(first)),
            Primitive::Trim => trim(alloc, first),
            Primitive::Duplicate => duplicate(alloc, first, second, most),
            Primitive::Replace => replace(alloc, first, second, third),
            Primitive::Compare(comparison) => Ok(compare(comparison, first, second)),
            Primitive::LexicallyGreater => Ok(lexically_greater(first, second)),
            Primitive::Identical => Ok(identical(first, second)),
            Primitive::Different => Ok(different(first, second)),
            Primitive::Numeric => Ok(numeric(first)),
            Primitive::DataType => data_type(alloc, first),
            Primitive::OfNumber(kind) => of_number(alloc, kind, first),
            Primitive::OfCharacters(kind) => of_characters(alloc, kind, first),
            Primitive::Arbno => any_number_of(alloc, first),
        }
    }

    /// What it gives for the arguments of a call: those that are missing are null, further ones are dropped.
    ///
    /// # Errors
    ///
    /// Where a growth was refused.
    pub fn call(self, alloc: Global, given: &[Value], most: u64) -> Result<Outcome, AllocError>
        ensures value { IfOk result (λ outcome. outcome ≡ primitive_gives self given.now most) }
        ensures memory { OnErr result (takes_memory self ≡ true) }
        ensures given { OnErr result (is_given (primitive_gives self given.now most) ≡ true) }
    {
        let null = Value::null();
        let first = argument(given, 0, &null);
        let second = argument(given, 1, &null);
        let third = argument(given, 2, &null);
        self.apply(alloc, first, second, third, most)
    }
}

/// The argument of a call at a place, or the null string that stands for one that is missing.
pub fn argument<'a>(given: &'a [Value], at: usize, missing: &'a Value) -> &'a Value
    requires { missing.now ≡ null }
    ensures { result.now ≡ argument at given.now }
{
    match given.get(at) {
        Some(value) => value,
        None => missing,
    }
}

// The functions that make patterns.
fn pattern_function(name: &[u8]) -> Option<Primitive>
    ensures { result ≡ pattern_function name.now }
{
    if name == b"LEN".as_slice() {
        Some(Primitive::OfNumber(NumberPattern::Len))
    } else if name == b"POS".as_slice() {
        Some(Primitive::OfNumber(NumberPattern::Pos))
    } else if name == b"RPOS".as_slice() {
        Some(Primitive::OfNumber(NumberPattern::RPos))
    } else if name == b"TAB".as_slice() {
        Some(Primitive::OfNumber(NumberPattern::Tab))
    } else if name == b"RTAB".as_slice() {
        Some(Primitive::OfNumber(NumberPattern::RTab))
    } else if name == b"SPAN".as_slice() {
        Some(Primitive::OfCharacters(CharacterPattern::Span))
    } else if name == b"BREAK".as_slice() {
        Some(Primitive::OfCharacters(CharacterPattern::Break))
    } else if name == b"ANY".as_slice() {
        Some(Primitive::OfCharacters(CharacterPattern::Any))
    } else if name == b"NOTANY".as_slice() {
        Some(Primitive::OfCharacters(CharacterPattern::NotAny))
    } else if name == b"ARBNO".as_slice() {
        Some(Primitive::Arbno)
    } else {
        None
    }
}

// The functions that compare numbers, and those that make patterns.
fn comparison_function(name: &[u8]) -> Option<Primitive>
    ensures { result ≡ comparison_function name.now }
{
    if name == b"EQ".as_slice() {
        Some(Primitive::Compare(Comparison::Equal))
    } else if name == b"NE".as_slice() {
        Some(Primitive::Compare(Comparison::NotEqual))
    } else if name == b"LT".as_slice() {
        Some(Primitive::Compare(Comparison::Less))
    } else if name == b"LE".as_slice() {
        Some(Primitive::Compare(Comparison::LessOrEqual))
    } else if name == b"GT".as_slice() {
        Some(Primitive::Compare(Comparison::Greater))
    } else if name == b"GE".as_slice() {
        Some(Primitive::Compare(Comparison::GreaterOrEqual))
    } else {
        pattern_function(name)
    }
}

/// The primitive of a name. It takes no memory.
pub fn primitive_named(name: &[u8]) -> Option<Primitive>
    ensures { result ≡ primitive_named name.now }
{
    if name == b"SIZE".as_slice() {
        Some(Primitive::Size)
    } else if name == b"TRIM".as_slice() {
        Some(Primitive::Trim)
    } else if name == b"DUPL".as_slice() {
        Some(Primitive::Duplicate)
    } else if name == b"REPLACE".as_slice() {
        Some(Primitive::Replace)
    } else if name == b"LGT".as_slice() {
        Some(Primitive::LexicallyGreater)
    } else if name == b"IDENT".as_slice() {
        Some(Primitive::Identical)
    } else if name == b"DIFFER".as_slice() {
        Some(Primitive::Different)
    } else if name == b"INTEGER".as_slice() {
        Some(Primitive::Numeric)
    } else if name == b"DATATYPE".as_slice() {
        Some(Primitive::DataType)
    } else {
        comparison_function(name)
    }
}
