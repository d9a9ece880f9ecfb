//! Tries worked cases on what takes in texts and runs rounds of them: a line is printed for each where not what was worked out by
//! hand comes out.
//!
//! `files.txt` names the files. Behind a title each has its cases, with blank lines between them. A line that is given or
//! wanted has a blank before it; the last line of a text has a `-` in its place where it lacks its line end.
//!
//! ```text
//! $CASE TEXT a-name lisa
//!  $LIST lisa PAYROLL
//! $WANTED
//!  ADMITTED jobs=0 statements=0 largest=0 work=0 creates=0 bytes=19
//!
//! $CASE LIMITS a-name
//!  2 1000 5 200000 50000000000 200000000000 10 4096
//!  3 120
//!  1 50000 50000000000 50000000000 0 87
//! $WANTED
//!  NONE
//!
//! $CASE ORDER a-name 1
//!  a1 a2
//!  b1
//! $WANTED
//!  b1
//!  a1
//!  a2
//!
//! $CASE ROUND a-name 4
//!  lisa staff
//! $SETS
//! $OF lisa
//!  $CATALOG lisa
//! $WANTED
//!  $OF lisa
//!  CATALOG lisa
//!  NAMES 0
//!  $LEFT
//!  $CATALOGUE 2
//! ```
//!
//! | Kind | Given | Wanted |
//! |---|---|---|
//! | `TEXT` | an account, and its text | its tally; or `REFUSED`, a line, and why |
//! | `LIMITS` | the limits, as `Quota` has them; how many data sets an account owns, and the bytes of their records; a line for each text, as `Tally` has them | the first limit that is broken, or `NONE` |
//! | `ORDER` | the number of a round, and a line for each account, with its texts | the texts in the round's order |
//! | `ROUND` | how many slots; accounts; behind `$SETS` data sets; behind `$OF` each text, with its account | the part of each text, and the catalogue that is left; and that the deck of the round prints the same |

mod block;
mod case;
mod limits;
mod order;
mod round;
mod text;

use anyhow::{Context, Result, bail};
use block::text_of;
use case::{Case, HEAD};
use mon_device::{Tally, first_difference};
use std::alloc::Global;
use std::fs::{self, Files};

fn seen_of(alloc: Global, case: &Case<'_>) -> Result<Vec<u8>> {
    match case.kind {
        "TEXT" => text::seen_of(alloc, case.further, case.given),
        "LIMITS" => limits::seen_of(alloc, case.given),
        "ORDER" => order::seen_of(alloc, case.further, case.given),
        "ROUND" => round::seen_of(alloc, case.further, case.given),
        _ => bail!("its kind is unknown"),
    }
}

fn holds<R: Print + AllocGlobal>(rt: &R, case: &Case<'_>) -> Result<bool> {
    let name = case.name;
    let wanted = text_of(rt.alloc(), case.wanted)?;
    match seen_of(rt.alloc(), case) {
        Ok(seen) => match first_difference(&wanted, &seen) {
            Some(difference) => println!(rt; "FAILED {name}: {difference}")?,
            None => return Ok(true),
        },
        Err(error) => println!(rt; "FAILED {name}: {error}")?,
    }
    Ok(false)
}

/// Tries the cases of the files that `files.txt` names.
pub fn run_all<R: Files + Print + AllocGlobal>(rt: &R, tally: &mut Tally) -> Result<()> {
    let files = fs::read_to_string(rt, "files.txt")?;
    for file in files.lines() {
        let text = fs::read_to_string(rt, file).context(format_args!("reading {file}"))?;
        for part in text.split(HEAD).skip(1) {
            let case = Case::read(part).context(format_args!("{file} has a bad case"))?;
            tally.note(holds(rt, &case)?);
        }
    }
    Ok(())
}
