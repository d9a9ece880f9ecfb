//! What the folders of a site have to be.
use ledger_folder::{Fault, Host, Place, Wrong};
use std::fs::Metadata;
use std::os::unix::fs::MetadataExt;

/// The bits by which a group or others may write.
pub const WRITERS: u32 = 0o022;

/// The bits by which a group or others may do anything.
const NOT_OWNER: u32 = 0o077;

/// Adds what is wrong with the operator's folders.
pub fn check_folders<R: Host>(
    place: &Place<R>,
    runner: u32,
    faults: &mut Vec<Fault>,
) -> Result<(), Fault> {
    let due = [
        ("", WRITERS),
        ("in", WRITERS),
        ("out", WRITERS),
        ("keep", NOT_OWNER),
        ("keep/ledger", NOT_OWNER),
        ("keep/draft", NOT_OWNER),
        ("keep/taken", NOT_OWNER),
    ];
    for (name, closed) in due {
        check_folder(place, name, runner, closed, faults)?;
    }
    Ok(())
}

fn check_folder<R: Host>(
    place: &Place<R>,
    name: &str,
    runner: u32,
    closed: u32,
    faults: &mut Vec<Fault>,
) -> Result<(), Fault> {
    let path = place.path(name)?;
    let wrong = match place.look(&path)? {
        Some(seen) => wrong_in(&seen, runner, closed),
        None => Some(Wrong::Words("is missing")),
    };
    if let Some(wrong) = wrong {
        faults.push(place.wrong(name, wrong))?;
    }
    Ok(())
}

/// What is wrong with a folder that this user has to own, if something is: its kind, its owner, or one of these bits of its mode.
pub fn wrong_in(seen: &Metadata, runner: u32, closed: u32) -> Option<Wrong> {
    let mode = seen.mode() & 0o7777;
    if !seen.is_dir() {
        Some(Wrong::Words("is no folder"))
    } else if seen.uid() != runner {
        Some(Wrong::Owner(seen.uid(), runner))
    } else if mode & closed != 0 {
        Some(Wrong::Open(mode))
    } else {
        None
    }
}

/// Refuses a site of which a folder is not as it must be.
pub fn refuse_open<R: Host>(place: &Place<R>, runner: u32) -> Result<(), Fault> {
    let mut faults = Vec::new(place.alloc());
    check_folders(place, runner, &mut faults)?;
    match faults.into_iter().next() {
        Some(fault) => Err(fault),
        None => Ok(()),
    }
}
