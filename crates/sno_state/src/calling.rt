//! Statements that begin, and calls of functions that the program defined.
ghost use Rattle.std.specs.Prelude.{◌≡◌, ◌+◌, reverse, Some, IfOk, OnErr, if◌then◌else◌};
ghost use Rattle.std.specs.Option.{MatchOption};
ghost use Rattle.sno_text.specs.declared.fault.Fault.TheVariants.{Depth};
ghost use Rattle.sno_semantics.specs.Keeping.{Enters, Refused};
ghost use Rattle.sno_store.specs.States.{may_begin};
ghost use Rattle.sno_state.specs.Calling.{begun};
ghost use Rattle.sno_state.specs.inner.Parts.{called};
ghost use Rattle.sno_state.specs.inner.Answers.{Began};

use sno_store::{Function, KeywordNumber, Store};
use sno_text::Text;
use sno_value::Value;
use std::alloc::{AllocError, Global};

/// How many calls may be in one another.
pub const MOST_CALLS: u64 = 200;

/// Begins the statement of a number, if one more may begin in a job that may begin so many, and then the state has counted
/// it. It tells whether it did; where it did not, nothing has changed. It takes no memory.
pub fn begin(limit: u64, number: KeywordNumber, state: &mut Store) -> bool
    ensures begun { Began (begun limit number state.old) result state.old state.new }
    ensures may { result ≡ may_begin limit state.old }
    ensures counted { state.new.keywords.begun ≡ (if result then state.old.keywords.begun + 1 else state.old.keywords.begun) }
{
    state.begin(number, limit)
}

/// Enters a function that the program defined, with arguments that stand there, the last first. It tells the label of the
/// statement at which the function goes on, or nothing where 200 calls are open, and then nothing has changed.
///
/// # Errors
///
/// Where a growth was refused; nothing has changed then.
#[inline(always)]
pub fn enter(
    alloc: Global,
    function: Function,
    arguments: Vec<Value>,
    state: &mut Store,
) -> Result<Option<Text>, AllocError>
    ensures entered { IfOk result (λ label. MatchOption label ((called function (reverse arguments.items) state.old ≡ Refused Depth) × (state.new ≡ state.old)) (λ l. called function (reverse arguments.items) state.old ≡ Enters l state.new)) }
    ensures unchanged { OnErr result (state.new ≡ state.old) }
    ensures counted { state.new.keywords.begun ≡ state.old.keywords.begun }
{
    if state.level() >= MOST_CALLS {
        return Ok(None);
    }
    let label = function.definition().entry.copy()?;
    state.enter(alloc, function, arguments)?;
    Ok(Some(label))
}
