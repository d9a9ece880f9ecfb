//! A disk in memory, whose reads tell what is there. That there is one shows that a disk can be what `Disk` says.
ghost use Rattle.std.specs.Prelude.{◌≡◌, ℕ, ◌++◌, [], ◌∷◌, map, option_map, OnOk, OnErr};
ghost use Rattle.ledger_disk.specs.Disks.{Disk as AnyDisk, after, after_all, found_in, empty, Which, which_after, which_behind, none_there, new_identity};
ghost use Rattle.ledger_disk.specs.Events.{call_of};
ghost use Rattle.ledger_disk.specs.Memory.{entry_call, found_by, which_by};

use crate::event::Event;
use crate::{Disk, DiskError, Folder, Identity, Name};
use std::alloc::{AllocError, Global};

/// A call that was made, and the bytes that it wrote or found.
#[derive(Drop)]
pub(crate) struct Entry {
    event: Event,
    bytes: Vec<u8>,
}

/// A disk in memory, as the calls that were made.
#[derive(Drop)]
pub struct MemoryDisk {
    alloc: Global,
    pub(crate) entries: Vec<Entry>,
}

impl MemoryDisk {
    ghost use Rattle.ledger_disk.specs.Memory.{calls_of};

    /// A disk without a file.
    pub fn new(alloc: Global) -> MemoryDisk
        ensures { calls_of result ≡ [] }
    {
        MemoryDisk {
            alloc,
            entries: Vec::new(alloc),
        }
    }

    // One call more.
    fn note(&mut self, event: Event, bytes: &[u8]) -> Result<(), AllocError>
        ensures ok { OnOk result (calls_of self.new ≡ calls_of self.old ++ call_of event bytes.now ∷ []) }
        ensures err { OnErr result (calls_of self.new ≡ calls_of self.old) }
    {
        let bytes = bytes.to_vec(self.alloc)?;
        match self.entries.push(Entry { event, bytes }) {
            Ok(()) => Ok(()),
            Err(_) => Err(AllocError),
        }
    }
}

/// Where a call got what a name has.
#[derive(Clone, Copy)]
pub(crate) enum Origin<'a> {
    /// It was written.
    Bytes(&'a [u8]),
    /// It has nothing.
    Nothing,
    /// It has what this name had before the call.
    Name(Name),
}

fn comes_from<'a>(entry: &'a Entry, name: Name) -> Origin<'a>
    ensures bytes { (disk : AnyDisk) → found_in (after (entry_call entry.now) disk) name ≡ found_by result disk }
    ensures which { (time : ℕ) → (which : Which) → (which_after time (entry_call entry.now) which name).now ≡ which_by time result which }
{
    match entry.event {
        Event::Wrote(given) if given == name => Origin::Bytes(&entry.bytes),
        Event::Removed(given) if given == name => Origin::Nothing,
        Event::Renamed(from, to) | Event::Linked(from, to) if to == name => Origin::Name(from),
        Event::Renamed(from, _) if from == name => Origin::Nothing,
        _ => Origin::Name(name),
    }
}

// What a name has behind these calls.
fn found<'a>(entries: &'a [Entry], name: Name) -> Option<&'a [u8]>
    ensures { option_map (λ bytes. bytes.now) result ≡ found_in (after_all (map entry_call entries.now) empty) name }
{
    let mut wanted = name;
    let count = entries.len();
    for index in 0..count {
        match comes_from(&entries[count - 1 - index], wanted) {
            Origin::Bytes(bytes) => return Some(bytes),
            Origin::Nothing => return None,
            Origin::Name(from) => wanted = from,
        }
    }
    None
}

// Which file a name has behind these calls: it is told by the place of the call that wrote it.
fn looked(entries: &[Entry], name: Name) -> Option<Identity>
    ensures { result ≡ (which_behind 0 (map entry_call entries.now) none_there name).now }
{
    let mut wanted = name;
    let count = entries.len();
    for index in 0..count {
        let place = count - 1 - index;
        match comes_from(&entries[place], wanted) {
            Origin::Bytes(_) => return Some(made_at(place)),
            Origin::Nothing => return None,
            Origin::Name(from) => wanted = from,
        }
    }
    None
}

fn made_at(place: usize) -> Identity
    ensures { result ≡ new_identity place }
{
    Identity {
        device: 0,
        inode: place as u64,
    }
}

// The number under which a call claimed a file.
fn claimed_by(entry: &Entry) -> Option<u64> {
    match entry.event {
        Event::Wrote(Name::Claimed(number))
        | Event::Renamed(_, Name::Claimed(number))
        | Event::Linked(_, Name::Claimed(number)) => Some(number),
        _ => None,
    }
}

fn lesser(least: Option<u64>, number: u64) -> Option<u64> {
    match least {
        Some(least) if least <= number => Some(least),
        _ => Some(number),
    }
}

// The least number from this one on under which a claimed file stands behind these calls.
fn next_in(entries: &[Entry], from: u64) -> Option<u64> {
    let mut least = None;
    for entry in entries {
        match claimed_by(entry) {
            Some(number) if from <= number && looked(entries, Name::Claimed(number)).is_some() => {
                least = lesser(least, number);
            }
            _ => {}
        }
    }
    least
}

impl Disk for MemoryDisk {
    ghost use Rattle.ledger_disk.specs.Memory.{calls_of};

    ghost calls = { calls_of };

    ghost tells = { Unit {0} };

    fn read(&mut self, name: Name) -> Result<Option<Vec<u8>>, DiskError> {
        match found(&self.entries, name) {
            Some(bytes) => {
                let bytes = bytes.to_vec(self.alloc)?;
                self.note(Event::Found(name), &bytes)?;
                Ok(Some(bytes))
            }
            None => {
                self.note(Event::Missed(name), &[])?;
                Ok(None)
            }
        }
    }

    fn look(&mut self, name: Name) -> Result<Option<Identity>, DiskError> {
        let found = looked(&self.entries, name);
        match found {
            Some(identity) => self.note(Event::Looked(name, identity), &[])?,
            None => self.note(Event::Unseen(name), &[])?,
        }
        Ok(found)
    }

    fn next_claimed(&mut self, from: u64) -> Result<Option<u64>, DiskError> {
        let next = next_in(&self.entries, from);
        match next {
            Some(number) => self.note(Event::Next(from, number), &[])?,
            None => self.note(Event::NoNext(from), &[])?,
        }
        Ok(next)
    }

    fn write(&mut self, name: Name, bytes: &[u8]) -> Result<(), DiskError> {
        Ok(self.note(Event::Wrote(name), bytes)?)
    }

    fn sync_file(&mut self, name: Name) -> Result<(), DiskError> {
        Ok(self.note(Event::SyncedFile(name), &[])?)
    }

    fn rename(&mut self, from: Name, to: Name) -> Result<(), DiskError> {
        Ok(self.note(Event::Renamed(from, to), &[])?)
    }

    fn link(&mut self, from: Name, to: Name) -> Result<(), DiskError> {
        Ok(self.note(Event::Linked(from, to), &[])?)
    }

    fn remove(&mut self, name: Name) -> Result<(), DiskError> {
        Ok(self.note(Event::Removed(name), &[])?)
    }

    fn sync_folder(&mut self, folder: Folder) -> Result<(), DiskError> {
        Ok(self.note(Event::SyncedFolder(folder), &[])?)
    }
}
