//! `status --sizes`: how many bytes the files have that a site keeps.
use ledger_folder::{ARCHIVE, Fault, Host, LEDGER, Place, joined};
use ledger_opening::checkpoint::CHECKPOINTS;
use std::os::unix::fs::MetadataExt;

/// How many bytes the files of a site have, by what they are.
#[derive(Clone, Copy)]
pub struct Sizes {
    /// Its commits.
    pub commits: u64,
    /// Those that were archived.
    pub archived: u64,
    /// Its checkpoints.
    pub checkpoints: u64,
    /// The answers of all accounts.
    pub answers: u64,
}

/// How many bytes the files of a site have.
///
/// # Errors
///
/// Memory, and what the system refuses.
pub fn sizes_of<R: Host>(place: &Place<R>) -> Result<Sizes, Fault> {
    let commits = size_in(place, LEDGER)?;
    let archived = size_in(place, ARCHIVE)?;
    let checkpoints = size_in(place, CHECKPOINTS)?;
    let answers = size_of_answers(place)?;
    Ok(Sizes {
        commits,
        archived,
        checkpoints,
        answers,
    })
}

// How many bytes the files have in the folder of this name; none where there is no such folder.
fn size_in<R: Host>(place: &Place<R>, name: &str) -> Result<u64, Fault> {
    let folder = place.path(name)?;
    match place.look(&folder)? {
        Some(seen) if seen.is_dir() => size_at(place, &folder),
        _ => Ok(0),
    }
}

fn size_at<R: Host>(place: &Place<R>, folder: &str) -> Result<u64, Fault> {
    let mut size: u64 = 0;
    for name in place.names(folder)? {
        let path = joined(place.alloc(), folder, &name)?;
        size = size.saturating_add(size_of_file(place, &path)?);
    }
    Ok(size)
}

// How many bytes a file has; none where it is no regular file, or gone.
fn size_of_file<R: Host>(place: &Place<R>, path: &str) -> Result<u64, Fault> {
    match place.look(path)? {
        Some(seen) if seen.is_file() => Ok(seen.size()),
        _ => Ok(0),
    }
}

fn size_of_answers<R: Host>(place: &Place<R>) -> Result<u64, Fault> {
    let outs = place.path("out")?;
    let mut size: u64 = 0;
    for name in place.names(&outs)? {
        let account = joined(place.alloc(), "out", &name)?;
        size = size.saturating_add(size_in(place, &account)?);
    }
    Ok(size)
}
