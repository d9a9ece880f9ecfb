//! A statement read part by part, each part as far as it goes: in one pass its trees, the leftmost place that lacks a
//! variable, and where the tokens go no further, why.

ghost use Rattle.std.specs.Prelude.{◌≡◌, Option, Some, None, IfOk, true, false, length};
ghost use Rattle.sno_expression.specs.Abstraction.{expression_of, expressions_of};
ghost use Rattle.sno_expression.specs.Expressions as tree;
ghost use Rattle.sno_expression.specs.inner.Telling.{Tells, with_lack, telling};
ghost use Rattle.sno_statement.specs.Statements as the;
ghost use Rattle.sno_statement.specs.inner.Parsing.{blamed, closing, computed, element, inside, target_in, at_last, is_other, next, goto_in};
ghost use Rattle.sno_statement.specs.inner.Parsing.{is_colon, is_equals, ending, set, giving, object_in, parted, matching, subject_then, acting, begun};
ghost use Rattle.sno_statement.specs.Abstraction.{target_of, goto_of, object_of, body_of, statement_of};
ghost use Rattle.sno_statement.specs.inner.Told.{aims_of, led_of, reached};

use crate::fault::FaultKind;
use crate::statement::{Body, Goto, Object, Statement, Target};
use sno_expression::{Expression, Found, Rest, UnaryOperator, begins, most, read_expression};
use sno_lexer::{Mark, Outcome, Part, Token, TokenKind};
use std::alloc::{AllocError, Global};

/// What was read, or why nothing was.
type Read<X> = Result<Result<X, Refusal>, AllocError>;

/// Why tokens are read as no statement. A place is told by the number of tokens from it on.
#[derive(Clone, Copy)]
pub struct Refusal {
    /// The leftmost place before it that lacks a variable, or 0.
    pub lacking: usize,
    /// The place of the token that does not fit.
    pub left: usize,
    pub kind: FaultKind,
}

/// A target, and the tokens behind it.
#[derive(Drop)]
pub struct Aim<'a, 't> {
    pub target: Target,
    pub rest: Rest<'a, 't>,
}

/// Where a statement goes, and the leftmost place so far that lacks a variable, or 0.
#[derive(Drop)]
pub struct Led {
    pub goto: Goto,
    pub lacking: usize,
}

// The first of the tokens does not fit; with other blanks it would, or not.
fn refused(blank: bool, at: Rest) -> Refusal
    ensures { result ≡ blamed blank at.entry.lacking at.entry.tokens.now }
{
    Refusal {
        lacking: at.lacking,
        left: at.tokens.len(),
        kind: if blank {
            FaultKind::MissingBlank
        } else {
            FaultKind::Unfit
        },
    }
}

// The tokens behind one that was taken.
fn onto<'a, 't>(at: Rest, tokens: &'a [Token<'t>]) -> Rest<'a, 't>
    ensures tokens { result.tokens.now ≡ tokens.now }
    ensures lacking { result.lacking ≡ at.entry.lacking }
    ensures blank { result.blank ≡ false }
{
    Rest {
        tokens,
        lacking: at.lacking,
        blank: false,
    }
}

// An expression, or one element, with the leftmost place up to its end that lacks a variable.
fn expression<'a, 't>(
    alloc: Global,
    alone: bool,
    at: Rest<'a, 't>,
) -> Result<Found<'a, 't>, AllocError>
    ensures { IfOk result (λ found. with_lack at.entry.lacking (telling alone at.entry.tokens.now)
        ≡ Tells (expressions_of found.tree) found.rest.tokens.now found.rest.lacking found.rest.blank) }
{
    let Found { tree, rest } = read_expression(alloc, alone, at.tokens)?;
    let lacking = most(at.lacking, rest.lacking);
    let rest = Rest { lacking, ..rest };
    Ok(Found { tree, rest })
}

fn closing<'a, 't>(target: Target, at: Rest<'a, 't>) -> Result<Aim<'a, 't>, Refusal>
    ensures { aims_of result ≡ closing at.entry.blank (target_of target) at.entry.lacking at.entry.tokens.now }
{
    match at.tokens.split_first() {
        None => Err(refused(at.blank, at)),
        Some((token, rest)) => match &token.kind {
            TokenKind::Close => Ok(Aim {
                target,
                rest: onto(at, rest),
            }),
            _ => Err(refused(at.blank, at)),
        },
    }
}

fn computed<'a, 't>(alloc: Global, at: Rest<'a, 't>) -> Read<Aim<'a, 't>>
    ensures { IfOk result (λ a. aims_of a ≡ computed (with_lack at.entry.lacking (telling true at.entry.tokens.now))) }
{
    let Found { tree, rest } = expression(alloc, true, at)?;
    match tree {
        None => Ok(Err(refused(rest.blank, rest))),
        Some(tree) => Ok(closing(Target::Computed(tree), rest)),
    }
}

// Behind the `$` of a target.
fn element<'a, 't>(alloc: Global, at: Rest<'a, 't>) -> Read<Aim<'a, 't>>
    ensures { IfOk result (λ a. aims_of a ≡ element at.entry.lacking at.entry.tokens.now) }
{
    let Some((token, _)) = at.tokens.split_first() else {
        return Ok(Err(refused(false, at)));
    };
    if token.blank_before {
        return Ok(Err(refused(begins(false, &token.kind), at)));
    }
    computed(alloc, at)
}

// Behind the parenthesis of a target.
fn inside<'a, 't>(alloc: Global, at: Rest<'a, 't>) -> Read<Aim<'a, 't>>
    ensures { IfOk result (λ a. aims_of a ≡ inside at.entry.lacking at.entry.tokens.now) }
{
    let Some((token, rest)) = at.tokens.split_first() else {
        return Ok(Err(refused(false, at)));
    };
    match &token.kind {
        TokenKind::Part(Part::Label(label)) => {
            let label = label.line(alloc)?;
            Ok(closing(Target::Label(label), onto(at, rest)))
        }
        TokenKind::Mark(Mark::Dollar) => {
            if token.blank_after {
                return Ok(Err(refused(true, at)));
            }
            element(alloc, onto(at, rest))
        }
        _ => Ok(Err(refused(false, at))),
    }
}

fn target_in<'a, 't>(alloc: Global, at: Rest<'a, 't>) -> Read<Aim<'a, 't>>
    ensures { IfOk result (λ a. aims_of a ≡ target_in at.entry.lacking at.entry.tokens.now) }
{
    let Some((token, rest)) = at.tokens.split_first() else {
        return Ok(Err(refused(false, at)));
    };
    match &token.kind {
        TokenKind::Open => inside(alloc, onto(at, rest)),
        _ => Ok(Err(refused(false, at))),
    }
}

// Behind the last target.
fn at_last(goto: Goto, at: Rest) -> Result<Led, Refusal>
    ensures { (b : the.Body) → led_of b result ≡ at_last b (goto_of goto) at.entry.lacking at.entry.tokens.now }
{
    let lacking = at.lacking;
    match at.tokens.split_first() {
        None => Ok(Led { goto, lacking }),
        Some(_) => Err(refused(false, at)),
    }
}

fn is_other(outcome: Outcome, kind: &TokenKind) -> bool
    ensures { result ≡ is_other outcome kind.now }
{
    match (outcome, kind) {
        (Outcome::Success, TokenKind::Part(Part::On(Outcome::Failure))) => true,
        (Outcome::Failure, TokenKind::Part(Part::On(Outcome::Success))) => true,
        _ => false,
    }
}

// Behind the target of the first outcome.
fn next(alloc: Global, outcome: Outcome, first: Target, at: Rest) -> Read<Led>
    ensures { IfOk result (λ l. (b : the.Body) → led_of b l ≡ next b outcome (target_of first) at.entry.lacking at.entry.tokens.now) }
{
    let Some((token, rest)) = at.tokens.split_first() else {
        let goto = match outcome {
            Outcome::Success => Goto::OnSuccess(first),
            Outcome::Failure => Goto::OnFailure(first),
        };
        return Ok(at_last(goto, at));
    };
    if !is_other(outcome, &token.kind) {
        return Ok(Err(refused(false, at)));
    }
    match target_in(alloc, onto(at, rest))? {
        Err(refusal) => Ok(Err(refusal)),
        Ok(aim) => {
            let goto = match outcome {
                Outcome::Success => Goto::OnBoth(first, aim.target),
                Outcome::Failure => Goto::OnBoth(aim.target, first),
            };
            Ok(at_last(goto, aim.rest))
        }
    }
}

// Behind `:`.
fn goto_in(alloc: Global, at: Rest) -> Read<Led>
    ensures { IfOk result (λ l. (b : the.Body) → led_of b l ≡ goto_in b at.entry.lacking at.entry.tokens.now) }
{
    let Some((token, rest)) = at.tokens.split_first() else {
        return Ok(Err(refused(false, at)));
    };
    match &token.kind {
        TokenKind::Open => match inside(alloc, onto(at, rest))? {
            Err(refusal) => Ok(Err(refusal)),
            Ok(aim) => Ok(at_last(Goto::Always(aim.target), aim.rest)),
        },
        TokenKind::Part(Part::On(outcome)) => match target_in(alloc, onto(at, rest))? {
            Err(refusal) => Ok(Err(refusal)),
            Ok(aim) => next(alloc, *outcome, aim.target, aim.rest),
        },
        _ => Ok(Err(refused(false, at))),
    }
}

fn is_colon(kind: &TokenKind) -> bool
    ensures { result ≡ is_colon kind.now }
{
    matches!(kind, TokenKind::Part(Part::Colon))
}

fn is_equals(kind: &TokenKind) -> bool
    ensures { result ≡ is_equals kind.now }
{
    matches!(kind, TokenKind::Part(Part::Equals))
}

// Behind a body.
fn ending(alloc: Global, goto: &mut Goto, at: Rest) -> Read<usize>
    requires { goto_of goto.old ≡ the.NoGoto }
    ensures { IfOk result (λ l. (b : the.Body) → reached b (goto_of goto.new) l ≡ ending at.entry.blank b at.entry.lacking at.entry.tokens.now) }
{
    let Some((token, rest)) = at.tokens.split_first() else {
        return Ok(Ok(at.lacking));
    };
    if !is_colon(&token.kind) {
        Ok(Err(refused(at.blank, at)))
    } else if token.blank_before {
        match goto_in(alloc, onto(at, rest))? {
            Err(refusal) => Ok(Err(refusal)),
            Ok(led) => {
                *goto = led.goto;
                Ok(Ok(led.lacking))
            }
        }
    } else {
        Ok(Err(refused(true, at)))
    }
}

fn giving(alloc: Global, object: &mut Object, goto: &mut Goto, at: Rest) -> Read<usize>
    requires { goto_of goto.old ≡ the.NoGoto }
    ensures { IfOk result (λ l. (s : tree.Expression) (p : Option tree.Expression) → reached (the.Does s p (object_of object.new)) (goto_of goto.new) l
        ≡ giving s p (with_lack at.entry.lacking (telling false at.entry.tokens.now))) }
{
    let Found { tree, rest } = expression(alloc, false, at)?;
    match tree {
        None => Ok(Err(refused(rest.blank, rest))),
        Some(value) => {
            *object = Object::Value(value);
            ending(alloc, goto, rest)
        }
    }
}

// Behind `=`.
fn object_in(alloc: Global, object: &mut Object, goto: &mut Goto, at: Rest) -> Read<usize>
    requires { goto_of goto.old ≡ the.NoGoto }
    ensures { IfOk result (λ l. (s : tree.Expression) (p : Option tree.Expression) → reached (the.Does s p (object_of object.new)) (goto_of goto.new) l
        ≡ object_in s p at.entry.lacking at.entry.tokens.now) }
{
    let Some((token, _)) = at.tokens.split_first() else {
        *object = Object::Null;
        return Ok(Ok(at.lacking));
    };
    if token.blank_before && !is_colon(&token.kind) {
        return giving(alloc, object, goto, at);
    }
    *object = Object::Null;
    let blank = begins(false, &token.kind);
    ending(alloc, goto, Rest { blank, ..at })
}

#[tactic(auto, using(sno_expression::proofs::Runs::binary_is))]
fn may_be_set(subject: &Expression, pattern: bool) -> bool
    ensures { result ≡ the.may_be_set (expression_of subject.now) pattern }
{
    match subject {
        Expression::Identifier(_)
        | Expression::TableItem(_)
        | Expression::Unary(UnaryOperator::Indirect, _) => true,
        Expression::Keyword(_) => !pattern,
        _ => false,
    }
}

// The leftmost place that lacks a variable, where a subject is assigned to, with `total` tokens from it on.
fn set(total: usize, subject: &Expression, pattern: bool, lacking: usize) -> usize
    ensures { result ≡ set total (expression_of subject.now) pattern lacking }
{
    if may_be_set(subject, pattern) {
        lacking
    } else {
        most(lacking, total)
    }
}

// Behind the subject, and the pattern where there is one.
fn parted(alloc: Global, total: usize, body: &mut Body, goto: &mut Goto, at: Rest) -> Read<usize>
    requires object { object_of body.old.object ≡ the.NoObject }
    requires goto { goto_of goto.old ≡ the.NoGoto }
    ensures { IfOk result (λ l. reached (body_of (Some body.new)) (goto_of goto.new) l
        ≡ parted total at.entry.blank (expression_of body.old.subject) (expressions_of body.old.pattern) at.entry.lacking at.entry.tokens.now) }
{
    let Some((token, rest)) = at.tokens.split_first() else {
        return Ok(Ok(at.lacking));
    };
    if !is_equals(&token.kind) {
        ending(alloc, goto, at)
    } else if token.blank_before && token.blank_after {
        let lacking = set(total, &body.subject, body.pattern.is_some(), at.lacking);
        object_in(
            alloc,
            &mut body.object,
            goto,
            onto(Rest { lacking, ..at }, rest),
        )
    } else {
        Ok(Err(refused(true, at)))
    }
}

fn matching(alloc: Global, total: usize, body: &mut Body, goto: &mut Goto, at: Rest) -> Read<usize>
    requires object { object_of body.old.object ≡ the.NoObject }
    requires goto { goto_of goto.old ≡ the.NoGoto }
    ensures { IfOk result (λ l. reached (body_of (Some body.new)) (goto_of goto.new) l
        ≡ matching total (expression_of body.old.subject) (with_lack at.entry.lacking (telling false at.entry.tokens.now))) }
{
    let Found { tree, rest } = expression(alloc, false, at)?;
    match tree {
        None => Ok(Err(refused(rest.blank, rest))),
        Some(pattern) => {
            body.pattern = Some(pattern);
            parted(alloc, total, body, goto, rest)
        }
    }
}

// Behind the subject.
fn subject_then(
    alloc: Global,
    total: usize,
    body: &mut Body,
    goto: &mut Goto,
    at: Rest,
) -> Read<usize>
    requires pattern { expressions_of body.old.pattern ≡ None }
    requires object { object_of body.old.object ≡ the.NoObject }
    requires goto { goto_of goto.old ≡ the.NoGoto }
    ensures { IfOk result (λ l. reached (body_of (Some body.new)) (goto_of goto.new) l
        ≡ subject_then total at.entry.blank (expression_of body.old.subject) at.entry.lacking at.entry.tokens.now) }
{
    let Some((token, _)) = at.tokens.split_first() else {
        return Ok(Ok(at.lacking));
    };
    if token.blank_before && begins(token.blank_after, &token.kind) {
        return matching(alloc, total, body, goto, at);
    }
    let blank = at.blank || begins(false, &token.kind);
    parted(alloc, total, body, goto, Rest { blank, ..at })
}

fn acting(alloc: Global, statement: &mut Statement, at: Rest) -> Read<usize>
    requires { goto_of statement.old.goto ≡ the.NoGoto }
    ensures { IfOk result (λ l. reached (body_of statement.new.body) (goto_of statement.new.goto) l
        ≡ acting (length at.entry.tokens.now) (with_lack at.entry.lacking (telling true at.entry.tokens.now))) }
{
    let Found { tree, rest } = expression(alloc, true, at)?;
    match tree {
        None => Ok(Err(refused(rest.blank, rest))),
        Some(subject) => {
            let mut body = Body {
                subject,
                pattern: None,
                object: Object::Nothing,
            };
            let total = at.tokens.len();
            let lacking = subject_then(alloc, total, &mut body, &mut statement.goto, rest);
            statement.body = Some(body);
            lacking
        }
    }
}

/// Fills a statement that does nothing and goes on with what the tokens are read as, and tells its leftmost place that lacks a
/// variable, or 0; or why they are read as none. An error is a growth that was refused.
pub fn read_statement(alloc: Global, tokens: &[Token], statement: &mut Statement) -> Read<usize>
    requires { statement_of statement.old ≡ the.Says the.NoBody the.NoGoto }
    ensures { IfOk result (λ l. reached (body_of statement.new.body) (goto_of statement.new.goto) l ≡ begun 0 tokens.now) }
{
    let at = Rest {
        tokens,
        lacking: 0,
        blank: false,
    };
    let Some((token, _)) = tokens.split_first() else {
        return Ok(Ok(0));
    };
    if is_colon(&token.kind) {
        return ending(alloc, &mut statement.goto, at);
    }
    acting(alloc, statement, at)
}
