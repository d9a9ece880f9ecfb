//! `snomon-parts join`.
use crate::fault::Fault;
use crate::folder::{RECORD, joined, part_path, read_file, replace_file};
use crate::options::Joining;
use deck_parts::{
    Misfit, Record, joined_audit, joined_output, read_record, take_audit, take_output,
};
use mon_text::Stop;
use parts::Part;
use std::io::Write;

/// Puts together what the parts in a folder wrote.
pub fn join(rt: &HostRuntime, asked: &Joining) -> Result<(), Fault> {
    let record = record_in(rt, asked)?;
    let bytes = if record.parts == 1 {
        let path = path_of(rt, asked, 0)?;
        read_file(rt, path.as_str())?
    } else {
        joined_parts(rt, asked, &record)?
    };
    put(rt, asked, &bytes)
}

fn record_in(rt: &HostRuntime, asked: &Joining) -> Result<Record, Fault> {
    let path = joined(rt.alloc(), asked.folder.as_str(), RECORD)?;
    let text = read_file(rt, path.as_str())?;
    match read_record(rt.alloc(), &text)? {
        Some(record) => Ok(record),
        None => Err(Fault::NoRecord(path)),
    }
}

fn joined_parts(rt: &HostRuntime, asked: &Joining, record: &Record) -> Result<Vec<u8>, Fault> {
    let mut parts = Vec::new(rt.alloc());
    for part in 0..record.parts {
        let given = part_of(rt, asked, record, part)?;
        parts.push(given)?;
    }
    let bytes = if asked.audit {
        joined_audit(rt.alloc(), record, &parts)?
    } else {
        joined_output(rt.alloc(), record, &parts)?
    };
    Ok(bytes)
}

fn part_of(rt: &HostRuntime, asked: &Joining, record: &Record, part: u64) -> Result<Part, Fault> {
    let path = path_of(rt, asked, part)?;
    let bytes = read_file(rt, path.as_str())?;
    let taken = if asked.audit {
        take_audit(rt.alloc(), record, part, &bytes)
    } else {
        take_output(rt.alloc(), record, part, &bytes)
    };
    match taken {
        Ok(given) => Ok(given),
        Err(Stop::Refused(Misfit { line })) => Err(Fault::Misfit(path, line)),
        Err(Stop::Memory) => Err(Fault::Memory),
    }
}

fn path_of(rt: &HostRuntime, asked: &Joining, part: u64) -> Result<String, Fault> {
    let kind = if asked.audit { "audit" } else { "out" };
    Ok(part_path(rt.alloc(), asked.folder.as_str(), part, kind)?)
}

fn put(rt: &HostRuntime, asked: &Joining, bytes: &[u8]) -> Result<(), Fault> {
    match &asked.output {
        Some(path) => replace_file(rt, path.as_str(), bytes),
        None => put_out(rt, bytes),
    }
}

fn put_out(rt: &HostRuntime, bytes: &[u8]) -> Result<(), Fault> {
    let mut output = rt.stdout();
    match output.write_all(bytes) {
        Ok(()) => Ok(()),
        Err(_) => Err(Fault::Output),
    }
}
