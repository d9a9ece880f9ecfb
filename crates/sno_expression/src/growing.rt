//! Trees that grow while they are read.
ghost use Rattle.std.specs.Prelude.{◌≡◌, true, IfOk};
ghost use Rattle.sno_expression.specs.Expressions as expressions;
ghost use Rattle.sno_expression.specs.Abstraction.{expression_of, expressions_of, arguments_of};
ghost use Rattle.sno_expression.specs.inner.Reading.{more, with_prefix};
ghost use Rattle.sno_expression.specs.inner.Spines.{is_element};

use crate::tree::{Arguments, BinaryOperator, Expression, IdentifierPrefix, Operands};
use sno_lexer::{Characters, Constant};
use std::alloc::{AllocError, Global};

// Two operands under their operator.
pub(crate) fn join(
    alloc: Global,
    operator: BinaryOperator,
    left: Expression,
    right: Expression,
) -> Result<Expression, AllocError>
    ensures { IfOk result (λ t. expression_of t ≡ expressions.Binary operator (expression_of left) (expression_of right)) }
{
    let operands = Operands {
        left,
        run: Vec::new(alloc),
        last: right,
    };
    let operands = Box::new(alloc, operands)?;
    Ok(Expression::Binary(operator, operands))
}

// The tree of `&` or `*` with its identifier.
pub(crate) fn with_prefix(prefix: IdentifierPrefix, name: Characters) -> Expression
    ensures { expression_of result ≡ with_prefix prefix name }
{
    match prefix {
        IdentifierPrefix::Keyword => Expression::Keyword(name),
        IdentifierPrefix::Unevaluated => Expression::Unevaluated(name),
    }
}

// One more argument, which may be empty.
pub(crate) fn add_argument(
    alloc: Global,
    arguments: Arguments,
    tree: Option<Expression>,
) -> Result<Arguments, AllocError>
    ensures { IfOk result (λ a. arguments_of a ≡ more (arguments_of arguments) (expressions_of tree)) }
{
    let arguments = Box::new(alloc, arguments)?;
    match tree {
        None => Ok(Arguments::Omitted(arguments)),
        Some(tree) => {
            let tree = Box::new(alloc, tree)?;
            Ok(Arguments::Argument(arguments, tree))
        }
    }
}

// The tree of a constant.
pub(crate) fn tree_of(alloc: Global, constant: &Constant) -> Result<Expression, AllocError>
    ensures tree { IfOk result (λ t. expression_of t ≡ expressions.Constant constant.now) }
    ensures element { IfOk result (λ t. is_element t ≡ true) }
{
    match constant {
        Constant::Literal(text) => {
            let text = Characters::of_slice(alloc, text.as_bytes())?;
            Ok(Expression::Literal(text))
        }
        Constant::Integer(value) => Ok(Expression::Integer(*value)),
    }
}
