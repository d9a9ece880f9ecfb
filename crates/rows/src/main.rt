//! Runs the worked cases of `data/`, and prints a line for each deck, for each other case that fails, and a last one on how many there
//! were.
//!
//! Decks go through `run_deck`, from memory to memory: whether the output, the line for standard error and the exit status are those
//! that were worked out by hand, in pieces of any size; whether the deck is refused alike where it is only checked; and whether the deck
//! cut anywhere shows a beginning of that. `submissions` tries what takes in texts and runs rounds of them.
#![tactic(auto)]

mod case;
mod cuts;
mod run;
mod submissions;

use anyhow::Result;
use case::Case;
use mon_device::Tally;
use std::fs;
use std::process::ExitCode;

fn main(rt: HostRuntime) -> Result<ExitCode> {
    let mut tally = Tally::new();
    let names = fs::read_to_string(&rt, "cases.txt")?;
    for name in names.lines() {
        let case = Case::read(&rt, name)?;
        tally.note(case.holds(&rt, name)?);
    }
    submissions::run_all(&rt, &mut tally)?;
    let Tally { cases, failed } = tally;
    println!(rt; "{cases} cases, {failed} failed")?;
    Ok(ExitCode::from(u8::from(failed > 0)))
}
