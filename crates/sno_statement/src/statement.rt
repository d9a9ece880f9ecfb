//! Statements without their labels.

use mon_text::Line;
use sno_expression::Expression;

/// Where a goto leads.
#[derive(Drop)]
pub enum Target {
    Label(Line),
    /// `$` and this element: the label is its value.
    Computed(Expression),
}

/// Where a statement goes on.
#[derive(Drop)]
pub enum Goto {
    /// At the next statement.
    Next,
    Always(Target),
    OnSuccess(Target),
    OnFailure(Target),
    /// On success at the first, on failure at the second.
    OnBoth(Target, Target),
}

/// What `=` assigns.
#[derive(Drop)]
pub enum Object {
    /// There is no `=`.
    Nothing,
    /// Nothing stands behind `=`: the null string.
    Null,
    Value(Expression),
}

/// What a statement does before it goes on.
#[derive(Drop)]
pub struct Body {
    /// One element. Where there is an object it is a variable or, without pattern, a keyword.
    pub subject: Expression,
    pub pattern: Option<Expression>,
    pub object: Object,
}

/// A statement without its label.
#[derive(Drop)]
pub struct Statement {
    pub body: Option<Body>,
    pub goto: Goto,
}
