//! Programs that run.
//!
//! `files.txt` names the files. Behind a title each has its cases, with blank lines between them:
//!
//! ```text
//! $CASE a-name ST=50000 MATCH=1000000
//!   OUTPUT = INPUT '!'
//! END
//! $ANSWERS
//! GOT ADA
//! $WANTED
//! 1 READ 5
//! 1 WRITE 6 'ADA!'
//! END NORMAL AFTER 1 IN 1 TURNS
//! ```
//!
//! `ST` and `MATCH` are how many statements may begin, and how many steps a match may take; the case has those of jobs that
//! name none. The service gives the answers in order: `DONE`, `GOT` with a record, `EOF`, `DENIED` or `FULL`. One that does
//! not fit what is asked waits; where none is left a read meets the end of file, and anything else is done. What is wanted is
//! a line for each request, with the statement that asks, and a last one: how the job ends, how many statements had begun,
//! at every level, and how many turns there were.

ghost use Rattle.sno_cards.specs.Limits.{AreLimits};

mod case;
mod run;
mod script;
mod seen;

use crate::lists::list_of;
use anyhow::{Context, Result};
use case::{Case, HEAD};
use mon_device::{Tally, first_difference};
use run::seen_of;
use std::fs::{self, Files};

/// Runs the cases of all files, and prints a line for each where what it asks or how it ends is not as wanted.
pub fn run_all<R: Files + Print + AllocGlobal>(rt: &R, tally: &mut Tally) -> Result<()> {
    let files = list_of(rt, "files.txt")?;
    for file in files.lines() {
        let text = fs::read_to_string(rt, file).context(format_args!("reading {file}"))?;
        for part in text.split(HEAD).skip(1) {
            let case = Case::read(part).context(format_args!("{file} has a bad case"))?;
            tally.note(holds(rt, &case)?);
        }
    }
    Ok(())
}

fn holds<R: Print + AllocGlobal>(rt: &R, case: &Case<'_>) -> Result<bool>
    requires { AreLimits case.now.limits }
{
    let name = case.name;
    match seen_of(rt.alloc(), case) {
        Ok(seen) => match first_difference(case.wanted.as_bytes(), &seen) {
            Some(difference) => println!(rt; "FAILED {name}: {difference}")?,
            None => return Ok(true),
        },
        Err(error) => println!(rt; "FAILED {name}: {error}")?,
    }
    Ok(false)
}
