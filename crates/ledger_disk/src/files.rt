//! The disk over the files of the system. This file is trusted for one thing that no contract says: that each method of `Disk` makes
//! the calls of the system that it notes, on the paths that the names stand for.
use crate::event::Event;
use crate::paths::{Paths, lesser, number_of};
use crate::record::Record;
use crate::{Disk, DiskError, Folder, Identity, Name};
use std::alloc::{AllocError, Global};
use std::fs::{self, DirEntry, File, OpenFile, OpenOptions};
use std::io::{self, ErrorKind, Write};
use std::os::unix::fs::{MetadataExt, OpenOptionsExt};
use std::rt::Files;

/// What the disk asks of the system.
pub trait System: Files + AllocGlobal + Clone + Drop {}

impl<R: Files + AllocGlobal + Clone + Drop> System for R {}

/// The folder of a site.
#[derive(Drop)]
pub struct FileDisk<R: System> {
    rt: R,
    paths: Paths,
    made: Record,
}

impl<R: System> FileDisk<R> {
    ghost use Rattle.std.specs.Prelude.{◌≡◌, []};

    /// The folder at this path, of which no file in a box and no answer is known.
    pub fn new(rt: R, top: String) -> FileDisk<R>
        ensures { result.made.calls ≡ [] }
    {
        let paths = Paths::new(rt.alloc(), top);
        FileDisk {
            rt,
            paths,
            made: Record::new(),
        }
    }

    /// A file in this box is called by its place from here on.
    pub fn add_dropped(&mut self, folder: String, name: &str) -> Result<u64, AllocError>
        ensures { self.new.made.calls ≡ self.old.made.calls }
    {
        self.paths.add_dropped(folder, name)
    }

    /// The answer to the text of this number stands in this folder under this name.
    pub fn add_answer(&mut self, number: u64, folder: String, name: &str) -> Result<(), AllocError>
        ensures { self.new.made.calls ≡ self.old.made.calls }
    {
        self.paths.add_answer(number, folder, name)
    }

    /// What was claimed under this number stands under this name, and is put there.
    pub fn add_claimed(&mut self, number: u64, name: &str) -> Result<(), AllocError>
        ensures { self.new.made.calls ≡ self.old.made.calls }
    {
        self.paths.add_claimed(number, name)
    }

    /// The names of what was claimed.
    pub fn claimed_names(&self) -> io::Result<Vec<String>> {
        let mut names = Vec::new(self.rt.alloc());
        let path = self.paths.kept("taken")?;
        for entry in fs::read_dir(&self.rt, path.as_str())? {
            add_name(self.rt.alloc(), entry, &mut names)?;
        }
        Ok(names)
    }

    // A commit may have been archived: it is the same one there.
    fn read_file(&self, name: Name) -> io::Result<Option<Vec<u8>>> {
        match (self.read_at(&self.paths.of(name)?)?, name) {
            (None, Name::Commit(number)) => self.read_at(&self.paths.archived(number)?),
            (found, _) => Ok(found),
        }
    }

    fn read_at(&self, path: &String) -> io::Result<Option<Vec<u8>>> {
        if_there(fs::read(&self.rt, path.as_str()))
    }

    fn look_at(&self, name: Name) -> io::Result<Option<Identity>> {
        let path = self.paths.of(name)?;
        match if_there(fs::symlink_metadata(&self.rt, path.as_str()))? {
            Some(seen) => {
                let (device, inode) = (seen.dev(), seen.ino());
                Ok(Some(Identity { device, inode }))
            }
            None => Ok(None),
        }
    }

    fn least_claimed(&self, from: u64) -> io::Result<Option<u64>> {
        let mut least = None;
        let names = self.claimed_names()?;
        for name in &names {
            least = lesser(least, from, number_of(name));
        }
        Ok(least)
    }

    // A new file for its owner alone. One that is there, as a crash leaves it, is no longer.
    fn write_file(&self, name: Name, bytes: &[u8]) -> io::Result<()> {
        let path = self.paths.of(name)?;
        if_there(fs::remove_file(&self.rt, path.as_str()))?;
        let mut file = OpenOptions::new()
            .write(true)
            .create_new(true)
            .mode(0o600)
            .open(&self.rt, path.as_str())?;
        file.write_all(bytes)
    }

    fn rename_file(&self, from: Name, to: Name) -> io::Result<()> {
        let old = self.paths.of(from)?;
        let new = self.paths.of(to)?;
        fs::rename(&self.rt, old.as_str(), new.as_str())
    }

    fn link_file(&self, from: Name, to: Name) -> io::Result<()> {
        let old = self.paths.of(from)?;
        let new = self.paths.of(to)?;
        fs::hard_link(&self.rt, old.as_str(), new.as_str())
    }

    fn remove_file(&self, name: Name) -> io::Result<()> {
        let path = self.paths.of(name)?;
        if_there(fs::remove_file(&self.rt, path.as_str()))?;
        Ok(())
    }

    fn sync_path(&self, path: &String) -> io::Result<()> {
        let file = File::open(&self.rt, path.as_str())?;
        file.sync_all()
    }

    fn sync_names(&self, folder: Folder) -> io::Result<()> {
        match folder {
            Folder::Ledger => self.sync_path(&self.paths.kept("ledger")?),
            Folder::Taken => self.sync_path(&self.paths.kept("taken")?),
            Folder::Boxes => self.sync_each(&self.paths.boxes),
            Folder::Out => self.sync_each(&self.paths.outs),
        }
    }

    fn sync_each(&self, folders: &[String]) -> io::Result<()> {
        for folder in folders {
            self.sync_path(folder)?;
        }
        Ok(())
    }
}

impl<R: System> Disk for FileDisk<R> {
    ghost calls = { λ disk. disk.made.calls };

    ghost tells = { ⊥ };

    fn read(&mut self, name: Name) -> Result<Option<Vec<u8>>, DiskError> {
        let found = self.read_file(name)?;
        match &found {
            Some(bytes) => self.made.note(&Event::Found(name), bytes),
            None => self.made.note(&Event::Missed(name), &[]),
        }
        Ok(found)
    }

    fn look(&mut self, name: Name) -> Result<Option<Identity>, DiskError> {
        let found = self.look_at(name)?;
        match found {
            Some(identity) => self.made.note(&Event::Looked(name, identity), &[]),
            None => self.made.note(&Event::Unseen(name), &[]),
        }
        Ok(found)
    }

    fn next_claimed(&mut self, from: u64) -> Result<Option<u64>, DiskError> {
        let next = self.least_claimed(from)?;
        match next {
            Some(number) => self.made.note(&Event::Next(from, number), &[]),
            None => self.made.note(&Event::NoNext(from), &[]),
        }
        Ok(next)
    }

    // It is noted where it fails too: some bytes may stand there then.
    fn write(&mut self, name: Name, bytes: &[u8]) -> Result<(), DiskError> {
        let written = self.write_file(name, bytes);
        self.made.note(&Event::Wrote(name), bytes);
        Ok(written?)
    }

    fn sync_file(&mut self, name: Name) -> Result<(), DiskError> {
        let path = self.paths.of(name)?;
        self.sync_path(&path)?;
        self.made.note(&Event::SyncedFile(name), &[]);
        Ok(())
    }

    fn rename(&mut self, from: Name, to: Name) -> Result<(), DiskError> {
        self.rename_file(from, to)?;
        self.made.note(&Event::Renamed(from, to), &[]);
        Ok(())
    }

    fn link(&mut self, from: Name, to: Name) -> Result<(), DiskError> {
        self.link_file(from, to)?;
        self.made.note(&Event::Linked(from, to), &[]);
        Ok(())
    }

    fn remove(&mut self, name: Name) -> Result<(), DiskError> {
        self.remove_file(name)?;
        self.made.note(&Event::Removed(name), &[]);
        Ok(())
    }

    fn sync_folder(&mut self, folder: Folder) -> Result<(), DiskError> {
        self.sync_names(folder)?;
        self.made.note(&Event::SyncedFolder(folder), &[]);
        Ok(())
    }
}

// What a call on a file gave, if the file is there.
fn if_there<T: Drop>(called: io::Result<T>) -> io::Result<Option<T>> {
    match called {
        Ok(value) => Ok(Some(value)),
        Err(error) if error.kind() == ErrorKind::NotFound => Ok(None),
        Err(error) => Err(error),
    }
}

// A name that is no text is nobody's.
fn add_name<R: System>(
    alloc: Global,
    entry: io::Result<DirEntry<R>>,
    names: &mut Vec<String>,
) -> io::Result<()> {
    match entry {
        Ok(entry) => Ok(names.push(String::from_str(alloc, entry.file_name())?)?),
        Err(error) if error.kind() == ErrorKind::InvalidFilename => Ok(()),
        Err(error) => Err(error),
    }
}
