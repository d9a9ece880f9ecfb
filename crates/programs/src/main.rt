//! Reads and runs the worked programs of `data/`: whether each is read, and does, as was worked out by hand.
//!
//! A line is printed for each that is read, for each that does something else when it runs, and a last one on how many there
//! were. Where a list of cases is missing there are none of its kind.
#![tactic(auto)]

mod cards;
mod lists;
mod reading;
mod running;

use anyhow::Result;
use mon_device::Tally;
use std::process::ExitCode;

fn main(rt: HostRuntime) -> Result<ExitCode> {
    let mut tally = Tally::new();
    reading::read_all(&rt, &mut tally)?;
    running::run_all(&rt, &mut tally)?;
    let Tally { cases, failed } = tally;
    println!(rt; "{cases} cases, {failed} failed")?;
    Ok(ExitCode::from(u8::from(failed > 0)))
}
