//! The folder of a site, over the files of the system: what the ledger's own disk does not do.
ghost use Rattle.std.specs.Prelude.{◌≡◌, IfOk, string_bytes};
ghost use Rattle.ledger_folder.specs.Known.{joined};

use crate::fault::{Fault, Wrong};
use std::alloc::{AllocError, Global};
use std::fs::{self, DirBuilder, DirEntry, Metadata, OpenFile, OpenOptions, Permissions};
use std::io::{self, ErrorKind, Write};
use std::os::unix::fs::{DirBuilderExt, MetadataExt, OpenOptionsExt, PermissionsExt, lchown};
use std::time::{Clock, SystemTime, UNIX_EPOCH};

/// How often a file is tried to be made that others may be making too.
const OWNER_ATTEMPTS: u64 = 100;

/// The folder of the commits.
pub const LEDGER: &str = "keep/ledger";

/// The folder of those that were archived.
pub const ARCHIVE: &str = "keep/archive";

/// What the program asks of the system.
pub trait Host: ledger_disk::System + Clock + Eprint {}

impl<R: ledger_disk::System + Clock + Eprint> Host for R {}

/// The folder of a site.
#[derive(Drop)]
pub struct Place<R: Host> {
    /// The system.
    pub rt: R,
    /// The path of the folder.
    pub top: String,
}

impl<R: Host> Place<R> {
    /// The allocator.
    pub fn alloc(&self) -> Global {
        self.rt.alloc()
    }

    /// The path of a name.
    pub fn path(&self, name: &str) -> Result<String, AllocError> {
        joined(self.rt.alloc(), &self.top, name)
    }

    /// The path of an account's folder.
    pub fn path_of(&self, folder: &str, account: &[u8]) -> Result<String, Fault> {
        let name = text_of(self.alloc(), account)?;
        let folder = self.path(folder)?;
        Ok(joined(self.rt.alloc(), &folder, &name)?)
    }

    /// What the system says of a path, if it is there; a link is not followed.
    pub fn look(&self, path: &str) -> Result<Option<Metadata>, Fault> {
        self.given(path, if_there(fs::symlink_metadata(&self.rt, path)))
    }

    /// Makes a folder. Its mode is this one, whatever the process's mask is.
    pub fn make_folder(&self, path: &str, mode: u32) -> Result<(), Fault> {
        self.given(path, make_with_mode(&self.rt, path, mode))
    }

    /// Sets the mode of a folder.
    pub fn set_mode(&self, path: &str, mode: u32) -> Result<(), Fault> {
        let set = fs::set_permissions(&self.rt, path, Permissions::from_mode(mode));
        self.given(path, set)
    }

    /// Gives a folder to a user or to a group.
    pub fn give(&self, path: &str, uid: Option<u32>, gid: Option<u32>) -> Result<(), Fault> {
        self.given(path, lchown(&self.rt, path, uid, gid))
    }

    /// The names in a folder.
    pub fn names(&self, path: &str) -> Result<Vec<String>, Fault> {
        self.given(path, names_in(&self.rt, path))
    }

    /// The bytes of a file, which has to be there.
    pub fn read(&self, path: &str) -> Result<Vec<u8>, Fault> {
        self.given(path, fs::read(&self.rt, path))
    }

    /// Removes a file, if it is there.
    pub fn remove(&self, path: &str) -> Result<(), Fault> {
        self.given(path, remove_if_there(&self.rt, path))
    }

    /// A new file with these bytes, which are on the disk then; its owner may write it, and its group read it.
    pub fn write_new(&self, path: &str, bytes: &[u8]) -> Result<(), Fault> {
        self.given(path, write_new(&self.rt, path, bytes))
    }

    /// A new file that its owner may write and its group read, open for writing.
    pub fn create_new(&self, path: &str) -> Result<R::File, Fault> {
        self.given(path, create_new(&self.rt, path))
    }

    /// Gives a file another name.
    pub fn rename(&self, from: &str, to: &str) -> Result<(), Fault> {
        self.given(to, fs::rename(&self.rt, from, to))
    }

    /// Who runs the program: the owner of a file that is made for it in this folder, and removed.
    pub fn runner(&self, folder: &str) -> Result<u32, Fault> {
        let path = joined(self.rt.alloc(), folder, "owner.tmp")?;
        self.given(&path, uid_of_new(&self.rt, &path))
    }

    /// That something is wrong with a name.
    pub fn wrong(&self, name: &str, wrong: Wrong) -> Fault {
        match self.path(name) {
            Ok(path) => Fault::Wrong(path, wrong),
            Err(_) => Fault::Memory,
        }
    }

    fn given<T: Drop>(&self, path: &str, called: io::Result<T>) -> Result<T, Fault> {
        match called {
            Ok(value) => Ok(value),
            Err(error) => Err(Fault::failed(self.rt.alloc(), path, error)),
        }
    }
}

/// A path of a folder and a name in it; of the folder alone where the name is empty.
///
/// # Errors
///
/// Where a growth was refused.
pub fn joined(alloc: Global, folder: &str, name: &str) -> Result<String, AllocError>
    ensures { IfOk result (λ path. string_bytes path ≡ joined folder.now name.now) }
{
    let mut path = String::from_str(alloc, folder)?;
    if name.is_empty() {
        return Ok(path);
    }
    path.push_str("/")?;
    path.push_str(name)?;
    Ok(path)
}

/// Bytes that are a text.
///
/// # Errors
///
/// Where a growth was refused, or they are none (`Disk`).
pub fn text_of(alloc: Global, bytes: &[u8]) -> Result<String, Fault>
    ensures { IfOk result (λ text. string_bytes text ≡ bytes.now) }
{
    match std::str::from_utf8(bytes) {
        Ok(text) => Ok(String::from_str(alloc, text)?),
        Err(_) => Err(Fault::Disk),
    }
}

/// How many seconds have passed since 1970; 0 where the clock does not tell.
pub fn seconds_now<C: Clock>(clock: &C) -> u64 {
    match SystemTime::now(clock) {
        Ok(now) => match now.duration_since(UNIX_EPOCH) {
            Ok(passed) => passed.as_secs(),
            Err(_) => 0,
        },
        Err(_) => 0,
    }
}

/// What a call on a file gave, if the file is there.
fn if_there<T: Drop>(called: io::Result<T>) -> io::Result<Option<T>> {
    match called {
        Ok(value) => Ok(Some(value)),
        Err(error) if error.kind() == ErrorKind::NotFound => Ok(None),
        Err(error) => Err(error),
    }
}

/// Removes a file, if it is there.
pub(crate) fn remove_if_there<R: Host>(rt: &R, path: &str) -> io::Result<()> {
    if_there(fs::remove_file(rt, path))?;
    Ok(())
}

/// A new file that its owner may write and its group read, on the disk.
pub(crate) fn write_new<R: Host>(rt: &R, path: &str, bytes: &[u8]) -> io::Result<()> {
    let mut file = create_new(rt, path)?;
    file.write_all(bytes)?;
    file.sync_all()
}

fn create_new<R: Host>(rt: &R, path: &str) -> io::Result<R::File> {
    let file = OpenOptions::new()
        .write(true)
        .create_new(true)
        .mode(0o640)
        .open(rt, path)?;
    file.set_permissions(Permissions::from_mode(0o640))?;
    Ok(file)
}

fn make_with_mode<R: Host>(rt: &R, path: &str, mode: u32) -> io::Result<()> {
    DirBuilder::new().mode(0o700).create(rt, path)?;
    fs::set_permissions(rt, path, Permissions::from_mode(mode))
}

// The owner of a file that is made for it, and removed. Where others ask at the same time, they may remove it first, or make theirs.
fn uid_of_new<R: Host>(rt: &R, path: &str) -> io::Result<u32> {
    for _ in 0..OWNER_ATTEMPTS {
        remove_if_there(rt, path)?;
        match uid_of_created(rt, path) {
            Err(error) if error.kind() == ErrorKind::AlreadyExists => {}
            made => {
                remove_if_there(rt, path)?;
                return made;
            }
        }
    }
    Err(io::Error::from(ErrorKind::AlreadyExists))
}

fn uid_of_created<R: Host>(rt: &R, path: &str) -> io::Result<u32> {
    let file = OpenOptions::new()
        .write(true)
        .create_new(true)
        .mode(0o600)
        .open(rt, path)?;
    let seen = file.metadata()?;
    Ok(seen.uid())
}

fn names_in<R: Host>(rt: &R, path: &str) -> io::Result<Vec<String>> {
    let mut names = Vec::new(rt.alloc());
    for entry in fs::read_dir(rt, path)? {
        add_name(rt.alloc(), entry, &mut names)?;
    }
    Ok(names)
}

// A name that is no text is nobody's.
fn add_name<R: Host>(
    alloc: Global,
    entry: io::Result<DirEntry<R>>,
    names: &mut Vec<String>,
) -> io::Result<()> {
    match entry {
        Ok(entry) => {
            let name = String::from_str(alloc, entry.file_name())?;
            names.push(name)?;
            Ok(())
        }
        Err(error) if error.kind() == ErrorKind::InvalidFilename => Ok(()),
        Err(error) => Err(error),
    }
}
