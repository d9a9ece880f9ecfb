//! A worked case: its cards, and what must come out.

use crate::cards::program_of;
use crate::reading::answer::put_answer;
use anyhow::{Context, Result};
use mon_device::first_difference;
use std::alloc::Global;
use std::fs;
use std::rt::Files;

/// What the cards of a case are, and what is shown of them.
#[derive(Clone, Copy)]
pub enum Form {
    /// A program: whether it is read.
    Verdicts,
    /// A program: its statements.
    Trees,
    /// A card for each program: its statement.
    Statements,
}

impl Form {
    /// The folder of the cases. Their list is called so too, with `.txt` behind it.
    pub fn folder(self) -> &'static str {
        match self {
            Form::Verdicts => "verdicts",
            Form::Trees => "trees",
            Form::Statements => "statements",
        }
    }
}

/// Reads the cards of a case, and prints a line on it: `ok NAME`, or the first line that is not as wanted.
pub fn holds<R: Files + Print + AllocGlobal>(rt: &R, form: Form, name: &str) -> Result<bool> {
    let cards = read_part(rt, form, name, "cards")?;
    let seen = seen_of(rt.alloc(), form, cards.as_str())?;
    let wanted = read_part(rt, form, name, "wanted")?;
    if let Some(difference) = first_difference(wanted.as_bytes(), &seen) {
        println!(rt; "FAILED {name}: {difference}")?;
        return Ok(false);
    }
    println!(rt; "ok {name}")?;
    Ok(true)
}

fn read_part<R: Files + AllocGlobal>(rt: &R, form: Form, name: &str, part: &str) -> Result<String> {
    let path = format!(in rt.alloc(); "{}/{name}/{part}", form.folder())?;
    fs::read_to_string(rt, path.as_str()).context(format_args!("reading {path}"))
}

fn seen_of(alloc: Global, form: Form, cards: &str) -> Result<Vec<u8>> {
    let mut out = Vec::new(alloc);
    match form {
        Form::Verdicts | Form::Trees => put_program(alloc, form, cards, &mut out)?,
        Form::Statements => {
            for card in cards.lines() {
                let cards = format!(in alloc; "{card}\nEND")?;
                put_program(alloc, form, cards.as_str(), &mut out)?;
            }
        }
    }
    Ok(out)
}

fn put_program(alloc: Global, form: Form, cards: &str, out: &mut Vec<u8>) -> Result<()> {
    let answer = program_of(alloc, cards)?;
    put_answer(form, &answer, out)?;
    Ok(())
}
