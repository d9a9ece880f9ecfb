//! A disk in memory that is watched: behind each call that changes it stands what its names have then.
ghost use Rattle.ledger_disk.specs.Memory.{calls_of};

use crate::pool::Pool;
use crate::slots::{Held, Slot, Slots};
use ledger_disk::{Disk, DiskError, Folder, Identity, MemoryDisk, Name};
use std::alloc::{AllocError, Global};

/// A call that changed the disk.
#[derive(Clone, Copy)]
pub enum Made {
    Write(Name),
    SyncFile(Name),
    Rename(Name, Name),
    Link(Name, Name),
    Remove(Name),
    SyncFolder(Folder),
}

/// What was seen so far.
#[derive(Drop)]
pub struct Watch {
    /// The texts of all files.
    pub pool: Pool,
    /// What the names have now.
    pub now: Slots,
    /// What they had at the beginning, and behind each call.
    pub moments: Vec<Slots>,
    /// The calls.
    pub made: Vec<Made>,
}

/// A disk in memory that is watched.
#[derive(Drop)]
pub struct Watched {
    disk: MemoryDisk,
    /// What was seen so far.
    pub watch: Watch,
}

impl Watch {
    fn begin(pool: Pool, start: &Slots, alloc: Global) -> Result<Watch, AllocError> {
        let mut moments = Vec::new(alloc);
        moments.push(start.copy()?)?;
        Ok(Watch {
            pool,
            now: start.copy()?,
            moments,
            made: Vec::new(alloc),
        })
    }

    // A call was made.
    fn done(&mut self, made: Made) -> Result<(), AllocError> {
        let moment = self.now.copy()?;
        self.moments.push(moment)?;
        self.made.push(made)?;
        Ok(())
    }

    fn write(&mut self, name: Name, bytes: &[u8]) -> Result<(), AllocError> {
        let text = self.pool.place_of(bytes)?;
        let held = Held {
            text,
            is_whole: false,
        };
        self.now.give(name, Some(held))?;
        self.done(Made::Write(name))
    }

    fn sync_file(&mut self, name: Name) -> Result<(), AllocError> {
        self.now.sync_file(name);
        self.done(Made::SyncFile(name))
    }

    fn rename(&mut self, from: Name, to: Name) -> Result<(), AllocError> {
        let held = self.now.now(from);
        self.now.give(from, None)?;
        self.now.give(to, held)?;
        self.done(Made::Rename(from, to))
    }

    fn link(&mut self, from: Name, to: Name) -> Result<(), AllocError> {
        let held = self.now.now(from);
        self.now.give(to, held)?;
        self.done(Made::Link(from, to))
    }

    fn remove(&mut self, name: Name) -> Result<(), AllocError> {
        self.now.give(name, None)?;
        self.done(Made::Remove(name))
    }

    fn sync_folder(&mut self, folder: Folder) -> Result<(), AllocError> {
        self.now.sync_folder(folder);
        self.done(Made::SyncFolder(folder))
    }
}

// Whether a dropped file of this text stands already under another name, and which.
fn stands_under(slots: &[Slot], text: usize) -> Option<Name> {
    for slot in slots {
        if matches!(slot.name, Name::Dropped(_) | Name::Claimed(_)) && is_of(slot, text) {
            return Some(slot.name);
        }
    }
    None
}

fn is_of(slot: &Slot, text: usize) -> bool {
    match slot.now {
        Some(held) => held.text == text,
        None => false,
    }
}

// Puts what a name has. No two files that were dropped have the same text: two names with one have one file.
fn put_slot(
    disk: &mut MemoryDisk,
    pool: &Pool,
    before: &[Slot],
    slot: &Slot,
) -> Result<(), DiskError> {
    let Some(held) = slot.now else {
        return Ok(());
    };
    match stands_under(before, held.text) {
        Some(other) => disk.link(other, slot.name),
        None => disk.write(slot.name, pool.text(held.text)),
    }
}

// A disk on which the names have these files.
fn disk_of(alloc: Global, pool: &Pool, start: &Slots) -> Result<MemoryDisk, DiskError> {
    let mut disk = MemoryDisk::new(alloc);
    for place in 0..start.slots.len() {
        put_slot(&mut disk, pool, &start.slots[..place], &start.slots[place])?;
    }
    Ok(disk)
}

impl Watched {
    /// A disk on which the names have these files, before the first call.
    pub fn begin(alloc: Global, pool: Pool, start: &Slots) -> Result<Watched, DiskError> {
        let disk = disk_of(alloc, &pool, start)?;
        let watch = Watch::begin(pool, start, alloc)?;
        Ok(Watched { disk, watch })
    }
}

impl Disk for Watched {
    ghost calls = { λ watched. calls_of watched.disk };

    ghost tells = { Unit {0} };

    fn read(&mut self, name: Name) -> Result<Option<Vec<u8>>, DiskError> {
        self.disk.read(name)
    }

    fn look(&mut self, name: Name) -> Result<Option<Identity>, DiskError> {
        self.disk.look(name)
    }

    fn next_claimed(&mut self, from: u64) -> Result<Option<u64>, DiskError> {
        self.disk.next_claimed(from)
    }

    fn write(&mut self, name: Name, bytes: &[u8]) -> Result<(), DiskError> {
        self.watch.write(name, bytes)?;
        self.disk.write(name, bytes)
    }

    fn sync_file(&mut self, name: Name) -> Result<(), DiskError> {
        self.watch.sync_file(name)?;
        self.disk.sync_file(name)
    }

    fn rename(&mut self, from: Name, to: Name) -> Result<(), DiskError> {
        self.watch.rename(from, to)?;
        self.disk.rename(from, to)
    }

    fn link(&mut self, from: Name, to: Name) -> Result<(), DiskError> {
        self.watch.link(from, to)?;
        self.disk.link(from, to)
    }

    fn remove(&mut self, name: Name) -> Result<(), DiskError> {
        self.watch.remove(name)?;
        self.disk.remove(name)
    }

    fn sync_folder(&mut self, folder: Folder) -> Result<(), DiskError> {
        self.watch.sync_folder(folder)?;
        self.disk.sync_folder(folder)
    }
}
