//! Expressions as text: each with its operands behind it, in parentheses.
ghost use Rattle.std.specs.Prelude.{◌≡◌, ◌++◌, codes, OnOk};
ghost use Rattle.sno_expression.specs.Abstraction.{expression_of, arguments_of};
ghost use Rattle.sno_expression.specs.inner.Runs.{right_of};
ghost use Rattle.programs.specs.inner.Trees.{expression_text, arguments_text, unary_text, operator_text};
ghost use Rattle.programs.specs.inner.Runs.{lefts_text, ends_text};

use itoa::Buffer;
use sno_expression::{Arguments, BinaryOperator, Expression, Operands, Pending, UnaryOperator};
use sno_lexer::Characters;
use std::alloc::AllocError;

/// Appends a text.
pub fn put(text: &[u8], out: &mut Vec<u8>) -> Result<(), AllocError>
    ensures { OnOk result (out.new.items ≡ out.old.items ++ text.now) }
{
    out.extend_from_slice(text)
}

/// Appends an expression.
#[cycle(printing)]
#[tactic(auto, using(sno_expression::proofs::Runs::binary_is, sno_expression::proofs::Runs::left_is))]
pub fn put_expression(expression: &Expression, out: &mut Vec<u8>) -> Result<(), AllocError>
    ensures { OnOk result (out.new.items ≡ out.old.items ++ expression_text (expression_of expression.now)) }
{
    match expression {
        Expression::Identifier(name) => put(name.as_bytes(), out),
        Expression::Literal(text) => {
            put_word(b"'", text, out)?;
            put(b"'", out)
        }
        Expression::Integer(number) => put(Buffer::new().format(*number).as_bytes(), out),
        Expression::Keyword(name) => put_word(b"&", name, out),
        Expression::Unevaluated(name) => put_word(b"*", name, out),
        Expression::Group(inner) => {
            put(b"(group ", out)?;
            put_expression(inner, out)?;
            put(b")", out)
        }
        Expression::Call(call) => {
            put_word(b"(call ", &call.name, out)?;
            put_arguments(&call.arguments, out)?;
            put(b")", out)
        }
        Expression::TableItem(item) => {
            put_word(b"(item ", &item.name, out)?;
            put(b" ", out)?;
            put_expression(&item.key, out)?;
            put(b")", out)
        }
        Expression::Unary(operator, operand) => {
            put_head(unary_text(*operator), out)?;
            put_expression(operand, out)?;
            put(b")", out)
        }
        Expression::Binary(operator, operands) => {
            put_head(operator_text(*operator), out)?;
            put_expression(&operands.left, out)?;
            put(b" ", out)?;
            put_run(operands, out)?;
            put(b")", out)
        }
    }
}

// Appends what stands on the right of an operator.
#[cycle(printing)]
fn put_run(operands: &Operands, out: &mut Vec<u8>) -> Result<(), AllocError>
    ensures { OnOk result (out.new.items ≡ out.old.items ++ expression_text (right_of operands.now)) }
{
    let run = operands.run.as_slice();
    put_lefts(run, out)?;
    put_expression(&operands.last, out)?;
    put_ends(run, out)
}

// Appends the operators of a run, each with its left operand.
#[cycle(printing)]
fn put_lefts(run: &[Pending], out: &mut Vec<u8>) -> Result<(), AllocError>
    ensures { OnOk result (out.new.items ≡ out.old.items ++ lefts_text run.now) }
{
    for i in 0..run.len() {
        put_head(operator_text(run[i].operator), out)?;
        put_expression(&run[i].left, out)?;
        put(b" ", out)?;
    }
    Ok(())
}

// Appends the end of each.
fn put_ends(run: &[Pending], out: &mut Vec<u8>) -> Result<(), AllocError>
    ensures { OnOk result (out.new.items ≡ out.old.items ++ ends_text run.now) }
{
    let mut left = run.len();
    while left > 0 {
        left -= 1;
        put(b")", out)?;
    }
    Ok(())
}

// Appends a blank and an argument, for each.
#[cycle(printing)]
fn put_arguments(arguments: &Arguments, out: &mut Vec<u8>) -> Result<(), AllocError>
    ensures { OnOk result (out.new.items ≡ out.old.items ++ arguments_text (arguments_of arguments.now)) }
{
    match arguments {
        Arguments::NoArguments => Ok(()),
        Arguments::Omitted(before) => {
            put_arguments(before, out)?;
            put(b" null", out)
        }
        Arguments::Argument(before, argument) => {
            put_arguments(before, out)?;
            put(b" ", out)?;
            put_expression(argument, out)
        }
    }
}

// What an operator and its operands begin with.
fn put_head(operator: &[u8], out: &mut Vec<u8>) -> Result<(), AllocError>
    ensures { OnOk result (out.new.items ≡ out.old.items ++ codes "(" ++ operator.now ++ codes " ") }
{
    put(b"(", out)?;
    put(operator, out)?;
    put(b" ", out)
}

fn put_word(before: &[u8], name: &Characters, out: &mut Vec<u8>) -> Result<(), AllocError>
    ensures { OnOk result (out.new.items ≡ out.old.items ++ before.now ++ name.now) }
{
    put(before, out)?;
    put(name.as_bytes(), out)
}

fn unary_text(operator: UnaryOperator) -> &'static [u8]
    ensures { result.now ≡ unary_text operator }
{
    match operator {
        UnaryOperator::Plus => b"unary+",
        UnaryOperator::Minus => b"unary-",
        UnaryOperator::Indirect => b"unary$",
        UnaryOperator::Name => b"unary.",
        UnaryOperator::Cursor => b"unary@",
        UnaryOperator::Not => b"unary~",
        UnaryOperator::Query => b"unary?",
    }
}

fn operator_text(operator: BinaryOperator) -> &'static [u8]
    ensures { result.now ≡ operator_text operator }
{
    match operator {
        BinaryOperator::Concatenation => b"cat",
        BinaryOperator::Conditional => b".",
        BinaryOperator::Immediate => b"$",
        BinaryOperator::Power => b"**",
        BinaryOperator::Times => b"*",
        BinaryOperator::Over => b"/",
        BinaryOperator::Plus => b"+",
        BinaryOperator::Minus => b"-",
        BinaryOperator::Alternation => b"|",
    }
}
