//! What is shown of a program that was read or refused.
ghost use Rattle.std.specs.Prelude.{◌≡◌, ◌+◌, ◌<◌, ◌≤◌, ◌^◌, ◌++◌, option_map, OnOk};
ghost use Rattle.std.specs.Option.{option_copied};
ghost use Rattle.programs.specs.inner.Answers.{own_label, passed, statements_from, answer_text, start_text, refusal_text};

use crate::cards::Answer;
use crate::reading::case::Form;
use crate::reading::expression::put;
use crate::reading::statement::put_statement;
use mon_text::{Stop, put_number};
use sno_statement::Statement;
use sno_syntax::{Labels, Start, SyntaxError};
use std::alloc::AllocError;

/// Appends what is shown of a program, a line for each statement or `parsed`; or where it is refused.
pub fn put_answer(form: Form, answer: &Answer, out: &mut Vec<u8>) -> Result<(), AllocError>
    ensures { OnOk result (out.new.items ≡ out.old.items ++ answer_text form answer.now) }
{
    match answer {
        Ok(program) => match form {
            Form::Verdicts => put(b"parsed\n", out),
            Form::Trees => {
                put_each(&program.labels, &program.statements, out)?;
                put_start(program.start, out)
            }
            Form::Statements => put_each(&program.labels, &program.statements, out),
        },
        Err(Stop::Refused(refusal)) => put_refusal(*refusal, out),
        Err(Stop::Memory) => Err(AllocError),
    }
}

type Entry<'a> = Option<(&'a [u8], usize)>;

// The label of the statement at an index, where the next of the labels is its.
fn own_label(next: Entry<'_>, index: usize) -> Option<&[u8]>
    ensures { option_copied result ≡ own_label (option_map (λ e. (e.0.now, e.1)) next.entry) index }
{
    match next {
        Some((label, at)) if at == index => Some(label),
        _ => None,
    }
}

// How many labels are behind that statement then.
fn passed(count: usize, next: Entry<'_>, index: usize) -> usize
    requires { count + 1 < 2 ^ 64 }
    ensures count { result ≡ passed count (option_map (λ e. (e.0.now, e.1)) next.entry) index }
    ensures within { result ≤ count + 1 }
{
    match next {
        Some((_, at)) if at == index => count + 1,
        _ => count,
    }
}

fn put_each(labels: &Labels, statements: &[Statement], out: &mut Vec<u8>) -> Result<(), AllocError>
    ensures { OnOk result (out.new.items ≡ out.old.items ++ statements_from labels.now 0 0 statements.now) }
{
    let mut count = 0;
    for (index, statement) in statements.iter().enumerate() {
        let next = labels.entry(count);
        count = passed(count, next, index);
        put_statement(own_label(next, index), statement, out)?;
        put(b"\n", out)?;
    }
    Ok(())
}

fn put_start(start: Start, out: &mut Vec<u8>) -> Result<(), AllocError>
    ensures { OnOk result (out.new.items ≡ out.old.items ++ start_text start) }
{
    match start {
        Start::End => put(b"start END\n", out),
        Start::Statement(index) => {
            put(b"start ", out)?;
            put_number(index as u64, out)?;
            put(b"\n", out)
        }
    }
}

fn put_refusal(refusal: SyntaxError, out: &mut Vec<u8>) -> Result<(), AllocError>
    ensures { OnOk result (out.new.items ≡ out.old.items ++ refusal_text refusal) }
{
    put(b"REFUSED ", out)?;
    put(refusal.code.symbol().as_bytes(), out)?;
    put(b" CARD ", out)?;
    put_number(refusal.place.card, out)?;
    put(b" COLUMN ", out)?;
    put_number(refusal.place.column, out)?;
    put(b"\n", out)
}
