//! Statements as text.
ghost use Rattle.std.specs.Prelude.{◌≡◌, ◌++◌, OnOk};
ghost use Rattle.std.specs.Option.{option_copied};
ghost use Rattle.sno_expression.specs.Abstraction.{expressions_of};
ghost use Rattle.sno_statement.specs.Abstraction.{statement_of, body_of, object_of, goto_of, target_of};
ghost use Rattle.programs.specs.inner.Statements.{statement_text, body_text, pattern_text, object_text, goto_text, target_text};

use crate::reading::expression::{put, put_expression};
use sno_expression::Expression;
use sno_statement::{Body, Goto, Object, Statement, Target};
use std::alloc::AllocError;

/// What stands for a part that a statement has not.
const NOTHING: &[u8] = b"-";

/// Appends a statement: its label, subject, pattern, object and goto.
pub fn put_statement(
    label: Option<&[u8]>,
    statement: &Statement,
    out: &mut Vec<u8>,
) -> Result<(), AllocError>
    ensures { OnOk result (out.new.items ≡ out.old.items ++ statement_text (option_copied label.entry) (statement_of statement.now)) }
{
    put(label.unwrap_or(NOTHING), out)?;
    put(b" ", out)?;
    put_body(&statement.body, out)?;
    put(b" ", out)?;
    put_goto(&statement.goto, out)
}

fn put_body(body: &Option<Body>, out: &mut Vec<u8>) -> Result<(), AllocError>
    ensures { OnOk result (out.new.items ≡ out.old.items ++ body_text (body_of body.now)) }
{
    match body {
        None => put(b"- - -", out),
        Some(body) => {
            put_expression(&body.subject, out)?;
            put(b" ", out)?;
            put_pattern(&body.pattern, out)?;
            put(b" ", out)?;
            put_object(&body.object, out)
        }
    }
}

fn put_pattern(pattern: &Option<Expression>, out: &mut Vec<u8>) -> Result<(), AllocError>
    ensures { OnOk result (out.new.items ≡ out.old.items ++ pattern_text (expressions_of pattern.now)) }
{
    match pattern {
        Some(pattern) => put_expression(pattern, out),
        None => put(NOTHING, out),
    }
}

fn put_object(object: &Object, out: &mut Vec<u8>) -> Result<(), AllocError>
    ensures { OnOk result (out.new.items ≡ out.old.items ++ object_text (object_of object.now)) }
{
    match object {
        Object::Nothing => put(NOTHING, out),
        Object::Null => put(b"(=)", out),
        Object::Value(value) => {
            put(b"(= ", out)?;
            put_expression(value, out)?;
            put(b")", out)
        }
    }
}

fn put_goto(goto: &Goto, out: &mut Vec<u8>) -> Result<(), AllocError>
    ensures { OnOk result (out.new.items ≡ out.old.items ++ goto_text (goto_of goto.now)) }
{
    match goto {
        Goto::Next => put(NOTHING, out),
        Goto::Always(target) => put_jump(b"(: ", target, b")", out),
        Goto::OnSuccess(target) => put_jump(b"(:S ", target, b")", out),
        Goto::OnFailure(target) => put_jump(b"(:F ", target, b")", out),
        Goto::OnBoth(success, failure) => {
            put_jump(b"(:S ", success, b" ", out)?;
            put_jump(b":F ", failure, b")", out)
        }
    }
}

fn put_jump(
    before: &[u8],
    target: &Target,
    behind: &[u8],
    out: &mut Vec<u8>,
) -> Result<(), AllocError>
    ensures { OnOk result (out.new.items ≡ out.old.items ++ before.now ++ target_text (target_of target.now) ++ behind.now) }
{
    put(before, out)?;
    put_target(target, out)?;
    put(behind, out)
}

fn put_target(target: &Target, out: &mut Vec<u8>) -> Result<(), AllocError>
    ensures { OnOk result (out.new.items ≡ out.old.items ++ target_text (target_of target.now)) }
{
    match target {
        Target::Label(label) => put(label.as_bytes(), out),
        Target::Computed(element) => {
            put(b"(unary$ ", out)?;
            put_expression(element, out)?;
            put(b")", out)
        }
    }
}
