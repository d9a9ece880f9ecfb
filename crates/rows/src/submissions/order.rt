//! In which order a round takes its texts.

use crate::submissions::block::put_line;
use anyhow::Result;
use ledger_turns::in_turns;
use std::alloc::{AllocError, Global};
use std::collections::VecDeque;

/// The names of texts in the order of the round of this number. A line has those of an account.
pub fn seen_of(alloc: Global, number: &str, given: &str) -> Result<Vec<u8>> {
    let number = number.parse::<u64>()?;
    let queues = queues_of(alloc, given)?;
    let order = in_turns(alloc, number, queues)?;
    let mut out = Vec::new(alloc);
    for text in &order {
        put_line(text.as_bytes(), &mut out)?;
    }
    Ok(out)
}

fn queues_of<'a>(alloc: Global, given: &'a str) -> Result<Vec<VecDeque<&'a str>>, AllocError> {
    let mut queues = Vec::new(alloc);
    for line in given.lines() {
        let queue: VecDeque<&str> = line.split_whitespace().collect(alloc)?;
        queues.push(queue)?;
    }
    Ok(queues)
}
