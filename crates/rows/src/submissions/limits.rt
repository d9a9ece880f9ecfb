//! Which limit an account breaks first.

use crate::submissions::block::put_line;
use anyhow::{Result, bail};
use preflight::{HandedIn, Limit, Quota, Tally, within};
use std::alloc::{AllocError, Global};

/// The first limit that the texts of an account break.
pub fn seen_of(alloc: Global, given: &str) -> Result<Vec<u8>> {
    let mut lines = given.lines();
    let limits = read_limits(alloc, lines.next().unwrap_or(""))?;
    let mut handed = read_owner(alloc, lines.next().unwrap_or(""))?;
    for line in lines {
        handed = handed.with_text(read_tally(alloc, line)?);
    }
    let mut out = Vec::new(alloc);
    put_line(word_of(within(&limits, &handed)).as_bytes(), &mut out)?;
    Ok(out)
}

fn numbers_of(alloc: Global, line: &str) -> Result<Vec<u64>> {
    let mut numbers = Vec::new(alloc);
    for word in line.split_whitespace() {
        let number = word.parse::<u64>()?;
        numbers.push(number).map_err(AllocError::from)?;
    }
    Ok(numbers)
}

fn read_limits(alloc: Global, line: &str) -> Result<Quota> {
    let numbers = numbers_of(alloc, line)?;
    match numbers.as_slice() {
        [
            texts,
            bytes,
            jobs,
            statements,
            largest,
            work,
            data_sets,
            records,
        ] => Ok(Quota {
            texts: *texts,
            bytes: *bytes,
            jobs: *jobs,
            statements: *statements,
            largest: *largest,
            work: *work,
            data_sets: *data_sets,
            records: *records,
        }),
        _ => bail!("it has no limits"),
    }
}

fn read_owner(alloc: Global, line: &str) -> Result<HandedIn> {
    let numbers = numbers_of(alloc, line)?;
    match numbers.as_slice() {
        [data_sets, records] => Ok(HandedIn::none(*data_sets, *records)),
        _ => bail!("it has no owner"),
    }
}

fn read_tally(alloc: Global, line: &str) -> Result<Tally> {
    let numbers = numbers_of(alloc, line)?;
    match numbers.as_slice() {
        [jobs, statements, largest, work, creates, bytes] => Ok(Tally {
            jobs: *jobs,
            statements: u128::from(*statements),
            largest: *largest,
            work: u128::from(*work),
            creates: *creates,
            bytes: *bytes,
        }),
        _ => bail!("a text has no tally"),
    }
}

fn word_of(limit: Option<Limit>) -> &'static str {
    match limit {
        None => "NONE",
        Some(Limit::Texts) => "TEXTS",
        Some(Limit::Bytes) => "BYTES",
        Some(Limit::Jobs) => "JOBS",
        Some(Limit::Statements) => "STATEMENTS",
        Some(Limit::Largest) => "LARGEST",
        Some(Limit::Work) => "WORK",
        Some(Limit::DataSets) => "DATA SETS",
        Some(Limit::Records) => "RECORDS",
    }
}
