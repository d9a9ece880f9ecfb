//! Whether a ledger's texts are kept, run once and answered rightly, whatever a crash leaves: every outcome of every crash of the calls of
//! `ledger_run` on a disk in memory, with one text and with two; or with so many as its word says.
#![tactic(auto)]

mod checks;
mod pool;
mod search;
mod site;
mod slots;
mod teller;
mod watched;

use anyhow::Result;
use ledger_disk::{Folder, Name};
use ledger_run::LedgerError;
use search::Search;
use std::env;
use std::fmt::{self, Display};
use std::process::ExitCode;
use std::rt::Env;
use watched::Made;

/// A name, as it is shown.
#[derive(Clone, Copy)]
struct ShownName(Name);

impl Display for ShownName {
    fn fmt<W: fmt::Write>(&self, f: &mut fmt::Formatter<W>) -> fmt::Result {
        match self.0 {
            Name::Commit(number) => write!(f, "commit {number}"),
            Name::Draft => f.write_str("draft"),
            Name::Dropped(place) => write!(f, "dropped {place}"),
            Name::Claimed(number) => write!(f, "claimed {number}"),
            Name::Answer(number) => write!(f, "answer {number}"),
            Name::Unfinished => f.write_str("unfinished"),
        }
    }
}

/// A call, as it is shown.
#[derive(Clone, Copy)]
struct ShownCall(Made);

impl Display for ShownCall {
    fn fmt<W: fmt::Write>(&self, f: &mut fmt::Formatter<W>) -> fmt::Result {
        match self.0 {
            Made::Write(name) => write!(f, "write {}", ShownName(name)),
            Made::SyncFile(name) => write!(f, "sync {}", ShownName(name)),
            Made::Rename(from, to) => write!(f, "rename {} to {}", ShownName(from), ShownName(to)),
            Made::Link(from, to) => write!(f, "link {} to {}", ShownName(from), ShownName(to)),
            Made::Remove(name) => write!(f, "remove {}", ShownName(name)),
            Made::SyncFolder(folder) => write!(f, "sync {}", shown_folder(folder)),
        }
    }
}

fn shown_folder(folder: Folder) -> &'static str {
    match folder {
        Folder::Ledger => "ledger",
        Folder::Boxes => "boxes",
        Folder::Taken => "taken",
        Folder::Out => "out",
    }
}

fn why(error: LedgerError) -> &'static str {
    match error {
        LedgerError::Refused => "a ledger is refused",
        LedgerError::Disk(_) => "a disk failed, or memory was short",
        LedgerError::Late | LedgerError::Long => "a text was broken off",
    }
}

// Searches, and tells what was found.
fn tell<R: Print + AllocGlobal>(rt: &R, texts: usize, batch: usize) -> Result<bool> {
    let mut search = Search::new(rt.alloc(), texts, batch)?;
    print!(rt; "{texts} dropped, {batch} in a batch: ")?;
    let holds = match search.run() {
        Ok(true) => {
            print!(rt; "holds: ")?;
            true
        }
        Ok(false) => {
            print!(rt; "FAILS: ")?;
            false
        }
        Err(error) => {
            print!(rt; "FAILS: {}: ", why(error))?;
            false
        }
    };
    let disks = search.disks();
    println!(rt;
        "{disks} disks, {} outcomes, {} calls",
        search.outcomes, search.calls
    )?;
    Ok(holds)
}

// The calls of a run that is not cut off.
fn tell_calls<R: Print + AllocGlobal>(rt: &R, texts: usize) -> Result<bool> {
    let search = Search::new(rt.alloc(), texts, 1)?;
    match search.calls() {
        Ok(made) => {
            for call in &made {
                println!(rt; "  {}", ShownCall(*call))?;
            }
            Ok(true)
        }
        Err(error) => {
            println!(rt; "FAILS: {}", why(error))?;
            Ok(false)
        }
    }
}

fn tell_all<R: Print + AllocGlobal>(rt: &R, texts: usize) -> Result<bool> {
    let one = tell(rt, texts, 1)?;
    let two = tell(rt, texts, 2)?;
    let calls = tell_calls(rt, texts)?;
    Ok(one && two && calls)
}

// The number of texts that a word says, if there is one.
fn texts_wanted<R: Env + AllocGlobal>(rt: &R) -> Result<Option<usize>> {
    let words: Vec<String> = env::args(rt)?.collect(rt.alloc())?;
    Ok(match words.get(1) {
        Some(word) => word.parse::<usize>().ok(),
        None => None,
    })
}

fn main(rt: HostRuntime) -> Result<ExitCode> {
    let holds = match texts_wanted(&rt)? {
        Some(texts) => tell_all(&rt, texts)?,
        None => {
            let one = tell_all(&rt, 1)?;
            let two = tell_all(&rt, 2)?;
            one && two
        }
    };
    Ok(if holds {
        ExitCode::SUCCESS
    } else {
        ExitCode::FAILURE
    })
}
