//! The last checkpoint of a site: files beside its ledger. They are not trusted: the ledger has the digest of an index, and that has the digest of
//! each piece. Where one of them is missing, can't be read or has another digest, the whole ledger is read.
use ledger_checkpoint::{Source, take_rest, take_sets};
use ledger_disk::{Disk, Name};
use ledger_folder::{Fault, Host, Place, SiteDisk, joined};
use ledger_index::{CheckpointFault, Index, Sealed, read_index};
use ledger_run::{Ledger, Machine, known_ledger};
use ledger_text::{Record, read_commit, read_record};
use mon_text::{Stop, read_count};
use std::alloc::{AllocError, Global};
use std::fs::{self, File};
use std::io::{self, Read, Seek, SeekFrom};

/// The folder of checkpoints: N is the index of the one behind N commits, and N.pieces has its pieces.
pub const CHECKPOINTS: &str = "keep/check";

/// What the name of a file with pieces ends with.
pub const PIECES: &str = ".pieces";

// The pieces of a checkpoint, in their file.
#[derive(Drop)]
struct FilePieces<F: Read + Seek + Drop> {
    file: F,
}

impl<F: Read + Seek + Drop> FilePieces<F> {
    fn read_at(&mut self, bytes: &mut [u8], place: u64) -> io::Result<()> {
        self.file.seek(SeekFrom::Start(place))?;
        self.file.read_exact(bytes)
    }
}

impl<F: Read + Seek + Drop> Source for FilePieces<F> {
    fn piece(
        &mut self,
        alloc: Global,
        place: u64,
        size: u64,
    ) -> Result<Option<Vec<u8>>, AllocError> {
        let Ok(size) = usize::try_from(size) else {
            return Ok(None);
        };
        let mut bytes = Vec::from_elem(alloc, 0, size)?;
        match self.read_at(&mut bytes, place) {
            Ok(()) => Ok(Some(bytes)),
            Err(_) => Ok(None),
        }
    }
}

/// What the first commits of a site's ledger come to, by the last checkpoint, which the machine takes; none where there is none that can be
/// used, and then the machine may have taken a part.
///
/// # Errors
///
/// Memory, and what the system refuses.
pub fn known_there<R: Host, M: Machine>(
    place: &Place<R>,
    disk: &mut SiteDisk<R>,
    machine: &mut M,
) -> Result<Option<Ledger>, Fault> {
    match last_number(place)? {
        Some(number) => known_at(place, disk, machine, number),
        None => Ok(None),
    }
}

// The number of the last checkpoint. A site that has none may lack the folder.
fn last_number<R: Host>(place: &Place<R>) -> Result<Option<u64>, Fault> {
    let folder = place.path(CHECKPOINTS)?;
    if place.look(&folder)?.is_none() {
        return Ok(None);
    }
    let mut last = None;
    for name in place.names(&folder)? {
        if let Ok(number) = read_count(name.as_bytes()) {
            last = last.max(Some(number));
        }
    }
    Ok(last)
}

fn known_at<R: Host, M: Machine>(
    place: &Place<R>,
    disk: &mut SiteDisk<R>,
    machine: &mut M,
    number: u64,
) -> Result<Option<Ledger>, Fault> {
    let Some(commit) = disk.read(Name::Commit(number))? else {
        return Ok(None);
    };
    let path = index_path(place, number)?;
    let Ok(text) = fs::read(&place.rt, path.as_str()) else {
        return Ok(None);
    };
    let Ok(file) = File::open(&place.rt, pieces_path(place, number)?.as_str()) else {
        return Ok(None);
    };
    let mut pieces = FilePieces { file };
    match taken(place.alloc(), number, &commit, &text, &mut pieces, machine) {
        Ok(known) => Ok(known),
        Err(Stop::Refused(_)) => Ok(None),
        Err(Stop::Memory) => Err(Fault::Memory),
    }
}

// What the index of this text says, if the commit behind the checkpoint has its digest.
fn taken<S: Source, M: Machine>(
    alloc: Global,
    number: u64,
    commit: &[u8],
    text: &[u8],
    pieces: &mut S,
    machine: &mut M,
) -> Result<Option<Ledger>, Stop<CheckpointFault>> {
    let Some(fields) = read_commit(alloc, commit)? else {
        return Ok(None);
    };
    let [last, head, _] = fields.as_slice() else {
        return Ok(None);
    };
    let Some(head) = read_commit(alloc, head)? else {
        return Ok(None);
    };
    match digest_in(&head, number) {
        Some(digest) => {
            let sealed = Sealed {
                count: number,
                last,
                digest,
            };
            let index = read_index(alloc, sealed, text)?;
            ledger_of(alloc, &index, pieces, machine)
        }
        None => Ok(None),
    }
}

// The digest that a record has of the index behind so many commits, if it is a record of that.
fn digest_in<'a>(fields: &[&'a [u8]], number: u64) -> Option<&'a [u8]> {
    match read_record(fields)?.record {
        Record::Checked(count, digest) if count == number => Some(digest),
        _ => None,
    }
}

fn ledger_of<S: Source, M: Machine>(
    alloc: Global,
    index: &Index<'_>,
    pieces: &mut S,
    machine: &mut M,
) -> Result<Option<Ledger>, Stop<CheckpointFault>> {
    take_sets(alloc, pieces, &index.entries, machine)?;
    take_rest(alloc, index.head, machine)?;
    let head = index.head;
    Ok(known_ledger(alloc, head.count, head.last, head.course)?)
}

/// The path of the index behind so many commits.
pub fn index_path<R: Host>(place: &Place<R>, number: u64) -> Result<String, Fault> {
    let folder = place.path(CHECKPOINTS)?;
    let name = format!(in place.alloc(); "{number}")?;
    Ok(joined(place.alloc(), &folder, &name)?)
}

/// The path of its pieces.
pub fn pieces_path<R: Host>(place: &Place<R>, number: u64) -> Result<String, Fault> {
    let mut path = index_path(place, number)?;
    path.push_str(PIECES)?;
    Ok(path)
}
