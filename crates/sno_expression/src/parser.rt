//! The reading of one expression.

ghost use Rattle.std.specs.Prelude.{◌≡◌, ◌≤◌, ◌<◌, IfOk, IfSome, length, drop, true, false, Some, None};
ghost use Rattle.sno_expression.specs.Expressions as expressions;
ghost use Rattle.sno_expression.specs.inner.Spines.{is_element};
ghost use Rattle.sno_expression.specs.inner.Reading.{fill, prefixed, begin, go_on, after, ended, variable_due, result as result_of};
ghost use Rattle.sno_expression.specs.inner.Telling.{lack_at, begins, goes_on, onward};
ghost use Rattle.sno_expression.specs.inner.Telling.{told, telling, Tells};
ghost use Rattle.sno_expression.specs.inner.First.{is_apart, plain, Joins, operand_by, marked_operand, next_operand};
ghost use Rattle.sno_expression.specs.inner.Reading as states;
ghost use Rattle.sno_expression.specs.Abstraction.{expression_of, expressions_of};
ghost use Rattle.sno_expression.specs.inner.Told.{spine_tree, hole_of, bracket_of, stack_of, state_of, joint_of, told_of};
ghost use Rattle.sno_expression.specs.inner.Told.{stepped, closing, or_ended, reading, step_of, Next, End};

use crate::growing::{add_argument, tree_of, with_prefix};
use crate::position::{begins, begins_variable, most, opens_bracket};
use crate::pushing::{closed as closed_tree, extend, grow};
use crate::spine::{Plain, Spine};
use crate::tree::{
    Arguments, BinaryOperator, Call, Expression, IdentifierPrefix, Pending, Prefix, TableItem,
    UnaryOperator, needs_variable, operand_is_variable, operator_of, prefix_of,
};
use sno_lexer::{Characters, Mark, Token, TokenKind, Word};
use std::alloc::{AllocError, Global};

type Turn = Result<Step, AllocError>;

type MaybeTree = Result<Option<Expression>, AllocError>;

/// What waits for an operand.
#[derive(Drop)]
pub(crate) enum Hole {
    Begin,
    After(Spine, BinaryOperator),
    Under(UnaryOperator, Box<Hole>),
}

/// An open bracket, with what has been read in it.
#[derive(Drop)]
pub(crate) enum Bracket {
    Group,
    Call(Characters, Arguments),
    Item(Characters),
}

/// The open brackets.
#[derive(Drop)]
#[cycle(stack)]
pub(crate) enum Stack {
    Bottom,
    Above(Box<Frame>),
}

/// The innermost open bracket, what waits for it, and those around it.
#[derive(Drop)]
#[cycle(stack)]
pub(crate) struct Frame {
    held: Bracket,
    hole: Hole,
    below: Stack,
}

/// How far an expression has been read, by what stands innermost.
#[derive(Drop)]
pub(crate) enum State {
    /// An operand is due.
    Due(Stack, Hole),
    /// The identifier of a keyword or of an unevaluated expression is due.
    Prefixed(Stack, Hole, IdentifierPrefix),
    /// An identifier, which may yet open a call.
    Named(Stack, Hole, Characters),
    /// A whole operand.
    Whole(Stack, Spine),
}

/// What one more token leads to.
#[derive(Drop)]
pub(crate) enum Step {
    Next(State),
    /// It is not taken: the tree, where one is complete, and whether it would be taken with other blanks round it.
    End(Option<Expression>, bool),
}

/// How far plain operands have led.
#[derive(Drop)]
pub(crate) struct Run<'a, 't> {
    spine: Spine,
    rest: &'a [Token<'t>],
}

/// The tokens at which an expression ends.
#[derive(Clone, Copy)]
pub struct Rest<'a, 't> {
    pub tokens: &'a [Token<'t>],
    /// How many tokens there are from the leftmost place on that lacks a variable; 0 where none does.
    pub lacking: usize,
    /// Whether the first would go on with what stands before it, with other blanks round it.
    pub blank: bool,
}

/// What was read as an expression.
#[derive(Drop)]
pub struct Found<'a, 't> {
    /// The tree, where one was complete.
    pub tree: Option<Expression>,
    pub rest: Rest<'a, 't>,
}

fn fill(alloc: Global, hole: Hole, operand: Expression) -> Result<Spine, AllocError>
    requires { is_element operand ≡ true }
    ensures { IfOk result (λ s. spine_tree s ≡ fill (hole_of hole) (expression_of operand)) }
{
    match hole {
        Hole::Begin => Ok(Spine {
            pending: Vec::new(alloc),
            last: operand,
        }),
        Hole::After(spine, operator) => {
            let Spine { pending, last } = spine;
            grow(alloc, operator, operand, pending, last)
        }
        Hole::Under(unary, rest) => {
            let operand = Expression::Unary(unary, Box::new(alloc, operand)?);
            fill(alloc, Box::into_inner(rest), operand)
        }
    }
}

// A whole operand, in its place.
#[inline(always)]
fn whole(alloc: Global, stack: Stack, hole: Hole, operand: Expression) -> Turn
    requires { is_element operand ≡ true }
    ensures { IfOk result (λ s. step_of s ≡ Next (states.At (stack_of stack) (states.Whole (fill (hole_of hole) (expression_of operand))))) }
{
    let spine = fill(alloc, hole, operand)?;
    Ok(Step::Next(State::Whole(stack, spine)))
}

// A bracket opens.
fn open(alloc: Global, held: Bracket, hole: Hole, below: Stack) -> Turn
    ensures { IfOk result (λ s. step_of s ≡ Next (states.At (states.In (bracket_of held) (hole_of hole) (stack_of below)) (states.Due states.Begin))) }
{
    let frame = Box::new(alloc, Frame { held, hole, below })?;
    Ok(Step::Next(State::Due(Stack::Above(frame), Hole::Begin)))
}

// The tree, where one is complete.
#[inline(always)]
fn complete(alloc: Global, stack: Stack, spine: Spine) -> MaybeTree
    ensures { IfOk result (λ t. expressions_of t ≡ ended (stack_of stack) (Some (spine_tree spine))) }
{
    match stack {
        Stack::Bottom => {
            let tree = closed_tree(alloc, spine)?;
            Ok(Some(tree))
        }
        Stack::Above(_) => Ok(None),
    }
}

// A token that is not taken after a whole operand.
#[inline(always)]
fn stop(alloc: Global, stack: Stack, spine: Spine, blank: bool) -> Turn
    ensures { IfOk result (λ s. step_of s ≡ End (ended (stack_of stack) (Some (spine_tree spine))) blank) }
{
    let tree = complete(alloc, stack, spine)?;
    Ok(Step::End(tree, blank))
}

#[inline(always)]
fn prefix_begins(alloc: Global, stack: Stack, hole: Hole, prefix: Prefix) -> Turn
    ensures { IfOk result (λ s. step_of s ≡ stepped (prefixed (stack_of stack) (hole_of hole) (Some prefix)) None true) }
{
    match prefix {
        Prefix::OfOperand(unary) => {
            let hole = Hole::Under(unary, Box::new(alloc, hole)?);
            Ok(Step::Next(State::Due(stack, hole)))
        }
        Prefix::OfIdentifier(prefix) => Ok(Step::Next(State::Prefixed(stack, hole, prefix))),
    }
}

// An operand begins, where one is due.
#[inline(always)]
fn begin(alloc: Global, stack: Stack, hole: Hole, after: bool, kind: &TokenKind) -> Turn
    ensures { IfOk result (λ s. step_of s ≡ stepped (begin (stack_of stack) (hole_of hole) after kind.now) None (begins false kind.now)) }
{
    match kind {
        TokenKind::Identifier(name) => {
            let name = name.characters(alloc)?;
            Ok(Step::Next(State::Named(stack, hole, name)))
        }
        TokenKind::Constant(constant) => {
            let constant = tree_of(alloc, constant)?;
            whole(alloc, stack, hole, constant)
        }
        TokenKind::Mark(mark) => match prefix_of(*mark) {
            Some(prefix) => {
                if after {
                    return Ok(Step::End(None, true));
                }
                prefix_begins(alloc, stack, hole, prefix)
            }
            None => Ok(Step::End(None, false)),
        },
        TokenKind::Open => open(alloc, Bracket::Group, hole, stack),
        _ => Ok(Step::End(None, false)),
    }
}

// What a bracket holds ends, or one of its arguments, which may be empty.
fn close(alloc: Global, stack: Stack, tree: Option<Expression>, kind: &TokenKind) -> Turn
    ensures { IfOk result (λ s. step_of s ≡ closing (stack_of stack) (expressions_of tree) kind.now) }
{
    let Stack::Above(frame) = stack else {
        return Ok(Step::End(tree, false));
    };
    let Frame { held, hole, below } = Box::into_inner(frame);
    match held {
        Bracket::Group => match kind {
            TokenKind::Close => match tree {
                Some(tree) => {
                    let tree = Box::new(alloc, tree)?;
                    whole(alloc, below, hole, Expression::Group(tree))
                }
                None => Ok(Step::End(None, false)),
            },
            _ => Ok(Step::End(None, false)),
        },
        Bracket::Call(name, arguments) => {
            let arguments = add_argument(alloc, arguments, tree)?;
            match kind {
                TokenKind::Close => {
                    let call = Box::new(alloc, Call { name, arguments })?;
                    whole(alloc, below, hole, Expression::Call(call))
                }
                TokenKind::Comma => open(alloc, Bracket::Call(name, arguments), hole, below),
                _ => Ok(Step::End(None, false)),
            }
        }
        Bracket::Item(name) => match kind {
            TokenKind::CloseAngle => match tree {
                Some(key) => {
                    let item = Box::new(alloc, TableItem { name, key })?;
                    whole(alloc, below, hole, Expression::TableItem(item))
                }
                None => Ok(Step::End(None, false)),
            },
            _ => Ok(Step::End(None, false)),
        },
    }
}

// A mark after an operand and a blank.
#[inline(always)]
fn mark_follows(alloc: Global, stack: Stack, spine: Spine, after: bool, mark: Mark) -> Turn
    ensures { IfOk result (λ s. step_of s ≡ or_ended stack spine (λ st t. go_on st t true after (TokenKind.Mark mark)) true) }
{
    if after {
        match operator_of(mark) {
            Some(operator) => Ok(Step::Next(State::Due(stack, Hole::After(spine, operator)))),
            None => stop(alloc, stack, spine, true),
        }
    } else {
        match prefix_of(mark) {
            Some(prefix) => {
                let hole = Hole::After(spine, BinaryOperator::Concatenation);
                prefix_begins(alloc, stack, hole, prefix)
            }
            None => stop(alloc, stack, spine, true),
        }
    }
}

// After an operand.
#[inline(always)]
fn follow(alloc: Global, stack: Stack, spine: Spine, token: &Token, opens: bool) -> Turn
    ensures { IfOk result (λ s. step_of s
        ≡ or_ended stack spine (λ st t. go_on st t token.now.blank_before token.now.blank_after token.now.kind) (goes_on (stack_of stack) (spine_tree spine) opens token.now.kind)) }
{
    match &token.kind {
        TokenKind::Close | TokenKind::Comma | TokenKind::CloseAngle => {
            let tree = closed_tree(alloc, spine)?;
            close(alloc, stack, Some(tree), &token.kind)
        }
        TokenKind::OpenAngle => stop(alloc, stack, spine, opens),
        TokenKind::Part(_) => stop(alloc, stack, spine, false),
        TokenKind::Mark(mark) => {
            if token.blank_before {
                mark_follows(alloc, stack, spine, token.blank_after, *mark)
            } else {
                stop(alloc, stack, spine, true)
            }
        }
        TokenKind::Identifier(_) | TokenKind::Constant(_) | TokenKind::Open => {
            if token.blank_before {
                let hole = Hole::After(spine, BinaryOperator::Concatenation);
                begin(alloc, stack, hole, token.blank_after, &token.kind)
            } else {
                stop(alloc, stack, spine, true)
            }
        }
    }
}

#[inline(always)]
fn after(alloc: Global, alone: bool, stack: Stack, spine: Spine, token: &Token, opens: bool) -> Turn
    ensures { IfOk result (λ s. step_of s
        ≡ or_ended stack spine (λ st t. after alone st t token.now.blank_before token.now.blank_after token.now.kind) (onward alone (stack_of stack) (spine_tree spine) opens token.now.kind)) }
{
    match stack {
        Stack::Bottom => {
            if alone {
                stop(alloc, Stack::Bottom, spine, opens)
            } else {
                follow(alloc, Stack::Bottom, spine, token, opens)
            }
        }
        Stack::Above(frame) => follow(alloc, Stack::Above(frame), spine, token, opens),
    }
}

// Whether the operand that is due has to be a variable.
#[inline(always)]
fn variable_due(hole: &Hole) -> bool
    ensures { result ≡ variable_due (hole_of hole.now) }
{
    match hole {
        Hole::Begin => false,
        Hole::After(_, operator) => needs_variable(*operator),
        Hole::Under(unary, _) => operand_is_variable(*unary),
    }
}

// The place that a token shows to lack a variable, with `left` tokens from the token on; 0 where it shows none.
#[inline(always)]
fn lack(state: &State, token: &Token, left: usize) -> usize
    requires { left < 9223372036854775808 }
    ensures { result ≡ lack_at (state_of state.now) token.now left }
{
    match state {
        State::Due(_, hole) => {
            let misfit = variable_due(hole) && !begins_variable(&token.kind);
            if misfit { left } else { 0 }
        }
        State::Named(_, hole, _) => {
            let misfit = variable_due(hole) && opens_bracket(token.blank_before, &token.kind);
            if misfit { left + 1 } else { 0 }
        }
        State::Prefixed(_, _, _) | State::Whole(_, _) => 0,
    }
}

#[inline(always)]
fn due(alloc: Global, stack: Stack, hole: Hole, token: &Token) -> Turn
    ensures { IfOk result (λ s. step_of s ≡ reading false (states.At (stack_of stack) (states.Due (hole_of hole))) token.now) }
{
    let after = token.blank_after;
    match hole {
        Hole::Begin => match &token.kind {
            TokenKind::Comma | TokenKind::Close => close(alloc, stack, None, &token.kind),
            _ => begin(alloc, stack, hole, after, &token.kind),
        },
        Hole::After(spine, operator) => {
            if !token.blank_before {
                return Ok(Step::End(None, begins(false, &token.kind)));
            }
            begin(
                alloc,
                stack,
                Hole::After(spine, operator),
                after,
                &token.kind,
            )
        }
        Hole::Under(unary, rest) => {
            if token.blank_before {
                return Ok(Step::End(None, begins(false, &token.kind)));
            }
            begin(alloc, stack, Hole::Under(unary, rest), after, &token.kind)
        }
    }
}

// One more token.
#[inline(always)]
fn read(alloc: Global, alone: bool, state: State, token: &Token) -> Turn
    ensures { IfOk result (λ s. step_of s ≡ reading alone (state_of state) token.now) }
{
    match state {
        State::Due(stack, hole) => due(alloc, stack, hole, token),
        State::Prefixed(stack, hole, prefix) => match &token.kind {
            TokenKind::Identifier(name) => {
                if token.blank_before {
                    return Ok(Step::End(None, true));
                }
                let name = name.characters(alloc)?;
                whole(alloc, stack, hole, with_prefix(prefix, name))
            }
            _ => Ok(Step::End(None, false)),
        },
        State::Named(stack, hole, name) => {
            if opens_bracket(token.blank_before, &token.kind) {
                let held = match &token.kind {
                    TokenKind::OpenAngle => Bracket::Item(name),
                    _ => Bracket::Call(name, Arguments::NoArguments),
                };
                return open(alloc, held, hole, stack);
            }
            let opens = opens_bracket(false, &token.kind);
            let spine = fill(alloc, hole, Expression::Identifier(name))?;
            after(alloc, alone, stack, spine, token, opens)
        }
        State::Whole(stack, spine) => after(alloc, alone, stack, spine, token, false),
    }
}

// The tree at the end of the tokens, where one is complete.
fn finish(alloc: Global, state: State) -> MaybeTree
    ensures { IfOk result (λ t. expressions_of t ≡ result_of (state_of state)) }
{
    match state {
        State::Due(_, _) | State::Prefixed(_, _, _) => Ok(None),
        State::Named(stack, hole, name) => {
            let spine = fill(alloc, hole, Expression::Identifier(name))?;
            complete(alloc, stack, spine)
        }
        State::Whole(stack, spine) => complete(alloc, stack, spine),
    }
}

// Whether no bracket comes next, which a name before it might open.
#[inline(always)]
fn is_apart(tokens: &[Token]) -> bool
    ensures { result ≡ is_apart tokens.now }
{
    match tokens {
        [] => true,
        [token, ..] => !opens_bracket(false, &token.kind),
    }
}

// The operand that a token is by itself.
#[inline(always)]
fn plain(
    alloc: Global,
    kind: &TokenKind,
    behind: &[Token],
) -> Result<Option<Expression>, AllocError>
    ensures tree { IfOk result (λ t. expressions_of t ≡ plain kind.now behind.now) }
    ensures element { IfOk result (λ t. IfSome t (λ x. is_element x ≡ true)) }
{
    match kind {
        TokenKind::Identifier(name) => {
            if is_apart(behind) {
                let name = name.characters(alloc)?;
                Ok(Some(Expression::Identifier(name)))
            } else {
                Ok(None)
            }
        }
        TokenKind::Constant(constant) => {
            let constant = tree_of(alloc, constant)?;
            Ok(Some(constant))
        }
        _ => Ok(None),
    }
}

// An operand behind the operator, where the token tells it.
#[inline(always)]
fn operand_by(
    alloc: Global,
    operator: BinaryOperator,
    taken: usize,
    token: &Token,
    behind: &[Token],
) -> Result<Option<Plain>, AllocError>
    ensures { IfOk result (λ next. joint_of next ≡ operand_by operator taken (plain token.now.kind behind.now)) }
{
    match plain(alloc, &token.kind, behind)? {
        None => Ok(None),
        Some(operand) => Ok(Some(Plain {
            operator,
            operand,
            taken,
        })),
    }
}

// Behind a mark that joins two operands.
#[inline(always)]
fn marked_operand(
    alloc: Global,
    operator: Option<BinaryOperator>,
    tokens: &[Token],
) -> Result<Option<Plain>, AllocError>
    ensures { IfOk result (λ next. joint_of next ≡ marked_operand operator tokens.now) }
{
    match operator {
        None => Ok(None),
        Some(operator) => match tokens {
            [] => Ok(None),
            [token, behind @ ..] => {
                let misfit = needs_variable(operator) && !begins_variable(&token.kind);
                if !token.blank_before || misfit {
                    return Ok(None);
                }
                operand_by(alloc, operator, 2, token, behind)
            }
        },
    }
}

// The next operand behind one, where a blank or a mark leads to it.
#[inline(always)]
fn next_operand(alloc: Global, tokens: &[Token]) -> Result<Option<Plain>, AllocError>
    ensures { IfOk result (λ next. joint_of next ≡ next_operand tokens.now) }
{
    match tokens {
        [] => Ok(None),
        [token, behind @ ..] => {
            if !token.blank_before {
                return Ok(None);
            }
            match &token.kind {
                TokenKind::Mark(mark) => {
                    if !token.blank_after {
                        return Ok(None);
                    }
                    marked_operand(alloc, operator_of(*mark), behind)
                }
                _ => operand_by(alloc, BinaryOperator::Concatenation, 1, token, behind),
            }
        }
    }
}

// The name that comes next behind an operand and a blank, where no bracket follows.
#[inline(always)]
fn next_name<'a, 't>(tokens: &'a [Token<'t>]) -> Option<&'a Word<'t>>
    ensures { IfSome result (λ name. Some (Joins BinaryOperator.Concatenation (expressions.Identifier name.now) 1) ≡ next_operand tokens.now) }
{
    match tokens {
        [] => None,
        [token, behind @ ..] => match &token.kind {
            TokenKind::Identifier(name) => {
                if token.blank_before && is_apart(behind) {
                    Some(name)
                } else {
                    None
                }
            }
            _ => None,
        },
    }
}

// Plain operands that go on behind the first: as many steps of `read`, but nothing is moved from step to step. Names come first:
// a concatenation may stand under concatenations, so nothing is closed or compared for them.
#[inline(never)]
fn operands_follow<'a, 't>(
    alloc: Global,
    first: Expression,
    tokens: &'a [Token<'t>],
) -> Result<Run<'a, 't>, AllocError>
    requires { is_element first ≡ true }
    ensures { IfOk result (λ run. told false (states.At states.Bottom (states.Whole (expression_of first))) tokens.now
        ≡ told false (states.At states.Bottom (states.Whole (spine_tree run.spine))) run.rest.now) }
{
    let mut pending = Vec::new(alloc);
    let mut last = first;
    let mut at = 0;
    'names: while let Some(word) = next_name(&tokens[at..]) {
        let name = word.characters(alloc)?;
        pending.push(Pending {
            left: last,
            operator: BinaryOperator::Concatenation,
        })?;
        last = Expression::Identifier(name);
        at += 1;
    }
    'operands: while let Some(next) = next_operand(alloc, &tokens[at..])? {
        let grown = extend(alloc, next.operator, next.operand, pending, last)?;
        pending = grown.pending;
        last = grown.last;
        at += next.taken;
    }
    let rest = &tokens[at..];
    let spine = Spine { pending, last };
    Ok(Run { spine, rest })
}

// An expression goes no further than up to some token.
#[inline(always)]
fn ended_at<'a, 't>(
    tree: Option<Expression>,
    tokens: &'a [Token<'t>],
    at: usize,
    lacking: usize,
    blank: bool,
) -> Found<'a, 't>
    requires { at ≤ length tokens.now }
    ensures { told_of result ≡ Tells (expressions_of tree) (drop at tokens.now) lacking blank }
{
    let tokens = &tokens[at..];
    let rest = Rest {
        tokens,
        lacking,
        blank,
    };
    Found { tree, rest }
}

// Reads on, from some state.
fn read_on<'a, 't>(
    alloc: Global,
    alone: bool,
    begun: State,
    tokens: &'a [Token<'t>],
) -> Result<Found<'a, 't>, AllocError>
    ensures { IfOk result (λ found. told alone (state_of begun) tokens.now ≡ told_of found) }
{
    let mut state = begun;
    let mut at = 0;
    let mut lacking = 0;
    while at < tokens.len() {
        let token = &tokens[at];
        let here = lack(&state, token, tokens.len() - at);
        match read(alloc, alone, state, token)? {
            Step::Next(next) => {
                lacking = most(lacking, here);
                at += 1;
                state = next;
            }
            Step::End(tree, blank) => return Ok(ended_at(tree, tokens, at, lacking, blank)),
        }
    }
    let tree = finish(alloc, state)?;
    Ok(ended_at(tree, tokens, at, lacking, false))
}

// Reads on behind a first operand, which is all where it stands alone.
#[inline(always)]
#[tactic(auto, using(crate::proofs::First::alone_told))]
fn read_behind<'a, 't>(
    alloc: Global,
    alone: bool,
    first: Expression,
    tokens: &'a [Token<'t>],
) -> Result<Found<'a, 't>, AllocError>
    requires { is_element first ≡ true }
    ensures { IfOk result (λ found. told alone (states.At states.Bottom (states.Whole (expression_of first))) tokens.now ≡ told_of found) }
{
    if alone {
        return Ok(ended_at(Some(first), tokens, 0, 0, false));
    }
    let Run { spine, rest } = operands_follow(alloc, first, tokens)?;
    read_on(alloc, false, State::Whole(Stack::Bottom, spine), rest)
}

/// Reads one expression from the tokens, or where it stands `alone` one element.
///
/// It ends before the first token that is not taken, or at the end of the tokens.
///
/// # Errors
///
/// Where a growth was refused.
#[tactic(auto, using(crate::proofs::First::first_told))]
pub fn read_expression<'a, 't>(
    alloc: Global,
    alone: bool,
    tokens: &'a [Token<'t>],
) -> Result<Found<'a, 't>, AllocError>
    ensures { IfOk result (λ found. telling alone tokens.now ≡ Tells (expressions_of found.tree) found.rest.tokens.now found.rest.lacking found.rest.blank) }
{
    if let Some((token, behind)) = tokens.split_first() {
        if let Some(first) = plain(alloc, &token.kind, behind)? {
            return read_behind(alloc, alone, first, behind);
        }
    }
    read_on(alloc, alone, State::Due(Stack::Bottom, Hole::Begin), tokens)
}
