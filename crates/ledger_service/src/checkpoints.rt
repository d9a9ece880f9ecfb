//! Checkpoints are written, each behind so many commits: so the next run reads what it says, and the commits behind it.
use ledger_behind::Behind as Taken;
use ledger_checkpoint::{Behind, NotPut, Pieces, write_checkpoint};
use ledger_folder::{Fault, Host, Place, joined, seconds_now};
use ledger_opening::checkpoint::{CHECKPOINTS, PIECES, index_path, pieces_path};
use ledger_opening::{Site, state_of};
use ledger_run::{course_of, record_act};
use ledger_text::{Entry, Record, digest};
use mon_text::{Stop, read_count};
use std::fs::OpenFile;
use std::io::{self, Write};
use std::os::unix::fs::MetadataExt;

/// So many commits stand behind a checkpoint before the next one is written,
const EVERY: u64 = 1_000;

/// or so many bytes, and half as many as its pieces have.
const LEAST: u64 = 4 << 20;

/// Writes a checkpoint, if so much stands behind the last one that it takes long to read it.
///
/// # Errors
///
/// Memory, and what the system refuses.
pub fn check<R: Host>(site: &mut Site<R>) -> Result<(), Fault> {
    if !is_due(site)? {
        return Ok(());
    }
    make_folder(&site.place)?;
    let digest = put_checkpoint(site)?;
    let count = site.ledger.commits;
    let entry = Entry {
        time: seconds_now(&site.place.rt),
        record: Record::Checked(count, &digest),
    };
    record_act(
        &mut site.disk,
        &mut site.machine,
        &mut site.ledger,
        entry,
        &[],
    )?;
    remove_others(&site.place, site.checked, count)?;
    site.checked = count;
    Ok(())
}

fn is_due<R: Host>(site: &Site<R>) -> Result<bool, Fault> {
    if site.ledger.commits.saturating_sub(site.checked) >= EVERY {
        return Ok(true);
    }
    let weight = site.disk.weight();
    Ok(weight >= LEAST && weight >= weight_of_last(site)? / 2)
}

// So many bytes the pieces of the last checkpoint have.
fn weight_of_last<R: Host>(site: &Site<R>) -> Result<u64, Fault> {
    let path = pieces_path(&site.place, site.checked)?;
    match site.place.look(&path)? {
        Some(seen) => Ok(seen.size()),
        None => Ok(0),
    }
}

fn make_folder<R: Host>(place: &Place<R>) -> Result<(), Fault> {
    let path = place.path(CHECKPOINTS)?;
    match place.look(&path)? {
        Some(_) => Ok(()),
        None => place.make_folder(&path, 0o700),
    }
}

// A file that takes the pieces, and what the system refused.
#[derive(Drop)]
struct FilePieces<F: OpenFile + Write + Drop> {
    file: F,
    taken: Taken,
    refused: Option<io::Error>,
}

impl<F: OpenFile + Write + Drop> FilePieces<F> {
    // That all of them are on the disk.
    fn settle(self) -> io::Result<()> {
        match self.refused {
            Some(error) => Err(error),
            None => self.file.sync_all(),
        }
    }
}

impl<F: OpenFile + Write + Drop> Pieces for FilePieces<F> {
    ghost taken = { λ pieces. pieces.taken.changes };

    fn put(&mut self, piece: &[u8]) -> Result<(), Stop<NotPut>> {
        match self.file.write_all(piece) {
            Ok(()) => {
                self.taken.note(piece);
                Ok(())
            }
            Err(error) => {
                self.refused = Some(error);
                Err(Stop::Refused(NotPut))
            }
        }
    }
}

// Writes the files of a checkpoint: the digest of its index.
fn put_checkpoint<R: Host>(site: &Site<R>) -> Result<Vec<u8>, Fault> {
    let alloc = site.place.alloc();
    let path = pieces_path(&site.place, site.ledger.commits)?;
    site.place.remove(&path)?;
    let mut pieces = FilePieces {
        file: site.place.create_new(&path)?,
        taken: Taken::new(),
        refused: None,
    };
    let index = put_pieces(site, &mut pieces);
    if let Err(error) = pieces.settle() {
        return Err(Fault::failed(alloc, &path, error));
    }
    let index = index?;
    let path = index_path(&site.place, site.ledger.commits)?;
    put_file(&site.place, &path, &index)?;
    Ok(digest(alloc, &index)?)
}

// Writes the pieces: their index.
fn put_pieces<R: Host>(site: &Site<R>, pieces: &mut FilePieces<R::File>) -> Result<Vec<u8>, Fault> {
    let alloc = site.place.alloc();
    let course = course_of(alloc, &site.ledger)?;
    let behind = Behind {
        count: site.ledger.commits,
        last: &site.ledger.last,
        course: &course,
    };
    let state = state_of(&site.place, &site.machine.machine)?;
    match write_checkpoint(alloc, behind, state, pieces) {
        Ok(index) => Ok(index),
        Err(_) => Err(Fault::Memory),
    }
}

// A file that an ended run left half written is written anew.
fn put_file<R: Host>(place: &Place<R>, path: &str, bytes: &[u8]) -> Result<(), Fault> {
    place.remove(path)?;
    place.write_new(path, bytes)
}

// This checkpoint and the one before it stay.
fn remove_others<R: Host>(place: &Place<R>, before: u64, last: u64) -> Result<(), Fault> {
    let folder = place.path(CHECKPOINTS)?;
    for name in place.names(&folder)? {
        match number_of(&name) {
            Some(number) if number != before && number != last => {
                place.remove(&joined(place.alloc(), &folder, &name)?)?;
            }
            _ => {}
        }
    }
    Ok(())
}

// Behind how many commits the checkpoint is that a file is of.
fn number_of(name: &str) -> Option<u64> {
    let number = name.strip_suffix(PIECES).unwrap_or(name);
    read_count(number.as_bytes()).ok()
}
