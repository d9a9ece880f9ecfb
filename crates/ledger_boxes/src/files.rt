//! Boxes over the folders of the system. This file is trusted for one thing that no contract says: that each method of `Boxes` tells what
//! the system shows of the paths that it was given, and notes that.
use crate::boxes::Boxes;
use crate::glimpse::Glimpse;
use crate::look::{BoxLook, Entry, Kind, Look};
use crate::patience::Patience;
use crate::record::Record;
use ledger_disk::{DiskError, System};
use std::alloc::AllocError;
use std::fs::{self, DirEntry, FileType, Metadata, ReadDir};
use std::io::{self, ErrorKind};
use std::os::unix::fs::MetadataExt;
use std::time::Clock;

// Of a folder's mode: others may write there; only its owner may take a name out of it.
const OPEN: u32 = 0o002;

const STICKY: u32 = 0o1000;

// A name that is no text is met as this one, which is hidden, and which no folder lists.
const STRANGE: &[u8] = b".";

/// A box whose names are met one by one: they are read in pieces, and not gathered.
#[derive(Drop)]
struct Listing<R: System> {
    place: usize,
    names: ReadDir<R>,
}

/// The boxes of a site, and what was claimed.
#[derive(Drop)]
pub struct FileBoxes<R: System + Clock> {
    rt: R,
    // The boxes by their places, each by its path.
    boxes: Vec<String>,
    // What was claimed, by its number and its path.
    claimed: Vec<(u64, String)>,
    listing: Option<Listing<R>>,
    // The places of boxes in which a name was met that is no text.
    strange: Vec<usize>,
    patience: Patience,
    saw: Record,
}

impl<R: System + Clock> FileBoxes<R> {
    ghost use Rattle.std.specs.Prelude.{◌≡◌, []};

    /// No box is known, and no claimed file.
    pub fn new(rt: R) -> FileBoxes<R>
        ensures { result.saw.sights ≡ [] }
    {
        let boxes = Vec::new(rt.alloc());
        let claimed = Vec::new(rt.alloc());
        let strange = Vec::new(rt.alloc());
        let patience = Patience::new(rt.alloc());
        FileBoxes {
            rt,
            boxes,
            claimed,
            listing: None,
            strange,
            patience,
            saw: Record::new(),
        }
    }

    /// The next box is the folder at this path.
    ///
    /// # Errors
    ///
    /// Where a growth was refused.
    pub fn add_box(&mut self, path: String) -> Result<(), AllocError>
        ensures { self.new.saw.sights ≡ self.old.saw.sights }
    {
        self.boxes.push(path)?;
        Ok(())
    }

    /// What was claimed under this number stands at this path.
    ///
    /// # Errors
    ///
    /// Where a growth was refused.
    pub fn add_claimed(&mut self, number: u64, path: String) -> Result<(), AllocError>
        ensures { self.new.saw.sights ≡ self.old.saw.sights }
    {
        self.claimed.push((number, path))?;
        Ok(())
    }

    /// Whether a name was met in the box of this place that is no text, and so was passed over.
    pub fn has_strange(&self, place: usize) -> bool {
        self.strange.contains(&place)
    }

    /// What the box of this place is; a link is not followed.
    ///
    /// # Errors
    ///
    /// Where the system can't say it.
    pub fn box_look(&self, place: usize) -> Result<Option<BoxLook>, DiskError> {
        match look_at(&self.rt, self.boxes.get(place))? {
            Some(seen) => Ok(Some(box_look_of(&seen))),
            None => Ok(None),
        }
    }
}

impl<R: System + Clock> Boxes for FileBoxes<R> {
    ghost seen = { λ boxes. boxes.saw.sights };

    fn next_entry(&mut self, place: usize) -> Result<Option<Entry>, DiskError> {
        let found = next_of(&self.rt, self.boxes.get(place), &mut self.listing, place)?;
        if matches!(&found, Some(entry) if entry.name.as_slice() == STRANGE)
            && !self.has_strange(place)
        {
            self.strange.push(place)?;
        }
        match &found {
            Some(entry) => self
                .saw
                .note(&Glimpse::Name(place, entry.kind), &entry.name),
            None => self.saw.note(&Glimpse::End(place), &[]),
        }
        Ok(found)
    }

    fn look(&mut self, number: u64) -> Result<Option<Look>, DiskError> {
        let found = match look_at(&self.rt, path_of(&self.claimed, number))? {
            Some(seen) => Some(look_of(&seen)),
            None => None,
        };
        match found {
            Some(look) => self.saw.note(&Glimpse::Stands(number, look), &[]),
            None => self.saw.note(&Glimpse::Lacks(number), &[]),
        }
        Ok(found)
    }

    // Whatever hinders it is its user's doing, but for want of memory.
    fn bytes(&mut self, number: u64, most: u64) -> Result<Option<Vec<u8>>, DiskError> {
        let read = match path_of(&self.claimed, number) {
            Some(path) => self.patience.read(&self.rt, path.as_str(), most),
            None => Ok(None),
        };
        let found = match read {
            Ok(found) => found,
            Err(error) if error.kind() == ErrorKind::OutOfMemory => return Err(DiskError::Memory),
            Err(_) => None,
        };
        match &found {
            Some(bytes) => self.saw.note(&Glimpse::Bytes(number), bytes),
            None => self.saw.note(&Glimpse::Closed(number), &[]),
        }
        Ok(found)
    }
}

// The next name in a box. It is opened where another one was, and anew behind its end.
fn next_of<R: System>(
    rt: &R,
    path: Option<&String>,
    listing: &mut Option<Listing<R>>,
    place: usize,
) -> io::Result<Option<Entry>> {
    let is_listed = matches!(listing, Some(listing) if listing.place == place);
    if !is_listed {
        let Some(path) = path else {
            return Ok(None);
        };
        let names = fs::read_dir(rt, path.as_str())?;
        *listing = Some(Listing { place, names });
    }
    let found = match listing {
        Some(listing) => next_name(rt, &mut listing.names)?,
        None => None,
    };
    if found.is_none() {
        *listing = None;
    }
    Ok(found)
}

fn next_name<R: System>(rt: &R, names: &mut ReadDir<R>) -> io::Result<Option<Entry>> {
    let (name, kind) = match names.next() {
        None => return Ok(None),
        Some(Ok(entry)) => {
            let name = Vec::from_slice(rt.alloc(), entry.file_name().as_bytes())?;
            (name, kind_under(&entry))
        }
        Some(Err(error)) if error.kind() == ErrorKind::InvalidFilename => {
            (Vec::from_slice(rt.alloc(), STRANGE)?, Kind::Other)
        }
        Some(Err(error)) => return Err(error),
    };
    Ok(Some(Entry { name, kind }))
}

fn kind_under<R: System>(entry: &DirEntry<R>) -> Kind {
    match entry.file_type() {
        Ok(kind) => kind_of(kind),
        Err(_) => Kind::Other,
    }
}

fn kind_of(kind: FileType) -> Kind {
    if kind.is_file() {
        Kind::File
    } else if kind.is_dir() {
        Kind::Folder
    } else {
        Kind::Other
    }
}

fn path_of(claimed: &[(u64, String)], number: u64) -> Option<&String> {
    for (known, path) in claimed {
        if *known == number {
            return Some(path);
        }
    }
    None
}

fn look_at<R: System>(rt: &R, path: Option<&String>) -> io::Result<Option<Metadata>> {
    let Some(path) = path else {
        return Ok(None);
    };
    match fs::symlink_metadata(rt, path.as_str()) {
        Ok(seen) => Ok(Some(seen)),
        Err(error) if error.kind() == ErrorKind::NotFound => Ok(None),
        Err(error) => Err(error),
    }
}

fn look_of(seen: &Metadata) -> Look {
    Look {
        kind: kind_of(seen.file_type()),
        owner: u64::from(seen.uid()),
        links: seen.nlink(),
        size: seen.len(),
    }
}

fn box_look_of(seen: &Metadata) -> BoxLook {
    BoxLook {
        kind: kind_of(seen.file_type()),
        owner: u64::from(seen.uid()),
        is_open: seen.mode() & OPEN != 0,
        is_sticky: seen.mode() & STICKY != 0,
    }
}
