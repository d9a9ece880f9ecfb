//! Laws of expressions: each function's contract is one, and its body is empty.
ghost use Rattle.sno_expression.specs.Laws.{OneExpression};
ghost use Rattle.sno_expression.specs.inner.Laws.{ReadsExactly};

/// Tokens spell at most one tree.
pub fn one_expression()
    ensures { OneExpression }
{}

/// An expression is read exactly where its tree is spelled, and an element alone exactly where it is.
pub fn reads_exactly()
    ensures { ReadsExactly }
{}
