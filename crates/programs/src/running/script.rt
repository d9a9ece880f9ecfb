//! Programs and answers, from the lines of a case.
use crate::cards::{self, line_of};
use anyhow::{Context, Result};
use interaction::{Answer, Reason};
use sno_syntax::Program;
use std::alloc::{AllocError, Global};

/// How many characters a record has at the most.
const RECORD_LIMIT: usize = 1_024;

/// Reads the program of these cards.
pub fn program_of(alloc: Global, text: &str) -> Result<Program> {
    cards::program_of(alloc, text)?
        .ok()
        .context("its program is refused")
}

/// Reads the answers of a service: `DONE`, `GOT` with a record, `EOF`, `DENIED` or `FULL`, a line for each.
pub fn answers_of(alloc: Global, text: &str) -> Result<Vec<Answer>> {
    let mut answers = Vec::new(alloc);
    for line in text.lines() {
        let answer = answer_of(alloc, line)?;
        answers.push(answer).map_err(AllocError::from)?;
    }
    Ok(answers)
}

fn answer_of(alloc: Global, line: &str) -> Result<Answer> {
    Ok(match line {
        "DONE" => Answer::Done,
        "EOF" => Answer::EndOfFile,
        "DENIED" => Answer::Denied(Reason::NoSet),
        "FULL" => Answer::Full,
        "GOT" => Answer::Got(line_of(alloc, "", RECORD_LIMIT)?),
        _ => {
            let record = line.strip_prefix("GOT ").context("an unknown answer")?;
            Answer::Got(line_of(alloc, record, RECORD_LIMIT)?)
        }
    })
}
