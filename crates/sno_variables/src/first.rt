//! The variables that there are at first.
ghost use Rattle.std.specs.Prelude.{◌≡◌, ◌≤◌, false, codes, IfOk, OnOk};
ghost use Rattle.mon_text.specs.Lines.{IsLine};
ghost use Rattle.sno_text.specs.Patterns as patterns;
ghost use Rattle.sno_value.specs.declared.value.Value.TheVariants.{Pattern};
ghost use Rattle.sno_variables.specs.First.{with_patterns, first_variables};
ghost use Rattle.sno_variables.specs.Variables.{given, reading, writing};

use crate::variables::Variables;
use sno_declarations::{Format, Input, Output};
use sno_text::{Named, Pat, Seed, Text};
use sno_value::Value;
use std::alloc::{AllocError, Global};

/// How many variables there is room for from the beginning: the ten of each job, and those of a small program.
const FIRST_ROOM: usize = 14;

fn named(alloc: Global, name: &[u8]) -> Result<Named, AllocError>
    requires { IsLine name.now }
    ensures { IfOk result (λ named. named ≡ name.now) }
{
    let name = Text::of_slice(alloc, name)?;
    Ok(Named::new(name, 0))
}

/// Gives a variable a pattern.
fn hold(
    alloc: Global,
    variables: &mut Variables,
    name: &[u8],
    pattern: Pat,
) -> Result<(), AllocError>
    requires { IsLine name.now }
    ensures { OnOk result (variables.new ≡ given name.now (Pattern pattern) variables.old) }
{
    let name = named(alloc, name)?;
    variables.give(&name, Value::Pattern(pattern))?;
    Ok(())
}

fn hold_abort_and_arb(alloc: Global, variables: &mut Variables) -> Result<(), AllocError>
    ensures { OnOk result (variables.new ≡ given (codes "ARB") (Pattern patterns.Arb) (given (codes "ABORT") (Pattern patterns.Abort) variables.old)) }
{
    let pattern = Pat::abort(alloc)?;
    hold(alloc, variables, b"ABORT", pattern)?;
    let pattern = Pat::arb(alloc)?;
    hold(alloc, variables, b"ARB", pattern)
}

fn hold_bal_and_fail(alloc: Global, variables: &mut Variables) -> Result<(), AllocError>
    ensures { OnOk result (variables.new ≡ given (codes "FAIL") (Pattern patterns.Fail) (given (codes "BAL") (Pattern patterns.Bal) variables.old)) }
{
    let pattern = Pat::bal(alloc)?;
    hold(alloc, variables, b"BAL", pattern)?;
    let pattern = Pat::fail(alloc)?;
    hold(alloc, variables, b"FAIL", pattern)
}

fn hold_fence_and_rem(alloc: Global, variables: &mut Variables) -> Result<(), AllocError>
    ensures { OnOk result (variables.new ≡ given (codes "REM") (Pattern patterns.Rem) (given (codes "FENCE") (Pattern patterns.Fence) variables.old)) }
{
    let pattern = Pat::fence(alloc)?;
    hold(alloc, variables, b"FENCE", pattern)?;
    let pattern = Pat::rem(alloc)?;
    hold(alloc, variables, b"REM", pattern)
}

fn hold_succeed(alloc: Global, variables: &mut Variables) -> Result<(), AllocError>
    ensures { OnOk result (variables.new ≡ given (codes "SUCCEED") (Pattern patterns.Succeed) variables.old) }
{
    let pattern = Pat::succeed(alloc)?;
    hold(alloc, variables, b"SUCCEED", pattern)
}

fn read_input(alloc: Global, variables: &mut Variables) -> Result<(), AllocError>
    ensures { OnOk result (variables.new ≡ reading (codes "INPUT") (record { unit = 5; most = 1024 }) variables.old) }
{
    let name = named(alloc, b"INPUT")?;
    let input = Input {
        unit: 5,
        most: 1024,
    };
    variables.read_from(name.text(), input)
}

fn write_to(
    alloc: Global,
    variables: &mut Variables,
    name: &[u8],
    unit: u64,
    characters: u64,
) -> Result<(), AllocError>
    requires printable { IsLine name.now }
    requires positive { 1 ≤ characters }
    requires fits { characters ≤ 1024 }
    ensures { OnOk result (variables.new ≡ writing name.now (record { unit = unit; format = record { characters = characters; blank = false } }) variables.old) }
{
    let name = named(alloc, name)?;
    let format = Format::new(characters, false);
    variables.write_to(name.text(), Output { unit, format })
}

fn hold_patterns(alloc: Global, variables: &mut Variables) -> Result<(), AllocError>
    ensures { OnOk result (variables.new ≡ with_patterns variables.old) }
{
    hold_abort_and_arb(alloc, variables)?;
    hold_bal_and_fail(alloc, variables)?;
    hold_fence_and_rem(alloc, variables)?;
    hold_succeed(alloc, variables)
}

/// The variables of a job, at first. They are found by a hash of this seed.
///
/// # Errors
///
/// Where a growth was refused.
pub fn first_variables(alloc: Global, seed: Seed) -> Result<Variables, AllocError>
    ensures { IfOk result (λ variables. variables ≡ first_variables) }
{
    let mut variables = Variables::with_room(alloc, seed, FIRST_ROOM)?;
    hold_patterns(alloc, &mut variables)?;
    read_input(alloc, &mut variables)?;
    write_to(alloc, &mut variables, b"OUTPUT", 6, 132)?;
    write_to(alloc, &mut variables, b"PUNCH", 7, 80)?;
    Ok(variables)
}
