//! The disk of a site: that of the ledger over the system's files, where each claimed file gets the name that says whose it is, and each
//! answer is for its user before it takes its place; and what leaves a box is the file that was claimed, also where its user puts another
//! one under its name meanwhile. What is said of `ledger_disk`'s files holds of this one too: it is to be read.
use crate::place::{Host, joined, remove_if_there, write_new};
use ledger_disk::{Disk, DiskError, FileDisk, Folder, Identity, Name};
use ledger_run::{Claim, claimed_name};
use std::alloc::AllocError;
use std::fs;
use std::io::{self, ErrorKind};
use std::os::unix::fs::{MetadataExt, lchown};

// A file in a box: whose it is, its name and its path, and which file it was when it was looked at or claimed.
#[derive(Drop)]
struct Dropped {
    account: Vec<u8>,
    name: Vec<u8>,
    path: String,
    seen: Option<Identity>,
}

// Who is to read an answer, and the folder where it stands.
#[derive(Drop)]
struct Reader {
    number: u64,
    uid: u32,
    folder: String,
}

/// The disk of a site.
#[derive(Drop)]
pub struct SiteDisk<R: Host> {
    rt: R,
    files: FileDisk<R>,
    // Where an answer is written.
    draft: String,
    // Where claimed files stand.
    taken: String,
    // Who runs the program.
    runner: u32,
    dropped: Vec<Dropped>,
    readers: Vec<Reader>,
    // The numbers under which a file was to be claimed.
    named: Vec<u64>,
    // So many bytes of commits were read and written.
    weight: u64,
}

impl<R: Host> SiteDisk<R> {
    ghost use Rattle.std.specs.Prelude.{◌≡◌, [], IfOk};

    /// The disk of the site at this path, for who runs the program. No file in a box and no answer is known.
    pub fn new(rt: R, top: &str, runner: u32) -> Result<SiteDisk<R>, AllocError>
        ensures { IfOk result (λ disk. disk.files.made.calls ≡ []) }
    {
        let alloc = rt.alloc();
        let draft = joined(alloc, top, "keep/draft/answer")?;
        let taken = joined(alloc, top, "keep/taken")?;
        let own = String::from_str(alloc, top)?;
        let files = FileDisk::new(rt.clone()?, own);
        Ok(SiteDisk {
            rt,
            files,
            draft,
            taken,
            runner,
            dropped: Vec::new(alloc),
            readers: Vec::new(alloc),
            named: Vec::new(alloc),
            weight: 0,
        })
    }

    /// So many bytes of commits were read and written.
    pub fn weight(&self) -> u64 {
        self.weight
    }

    // So many bytes were read or written under this name.
    fn weigh(&mut self, name: Name, size: usize)
        ensures { self.new.files.made.calls ≡ self.old.files.made.calls }
    {
        match name {
            Name::Commit(_) | Name::Draft => {
                self.weight = self.weight.saturating_add(size as u64);
            }
            Name::Dropped(_) | Name::Claimed(_) | Name::Answer(_) | Name::Unfinished => {}
        }
    }

    /// A file in the box at this path is called by its place from here on.
    pub fn add_dropped(
        &mut self,
        folder: String,
        account: &[u8],
        name: &str,
    ) -> Result<u64, AllocError>
        ensures { self.new.files.made.calls ≡ self.old.files.made.calls }
    {
        let alloc = self.rt.alloc();
        let account = account.to_vec(alloc)?;
        let own = name.as_bytes().to_vec(alloc)?;
        let path = joined(alloc, &folder, name)?;
        let place = self.files.add_dropped(folder, name)?;
        self.dropped.push(Dropped {
            account,
            name: own,
            path,
            seen: None,
        })?;
        Ok(place)
    }

    /// The answer to the text of this number stands in this folder under this name, for this user.
    pub fn add_answer(
        &mut self,
        number: u64,
        uid: u32,
        folder: String,
        name: &str,
    ) -> Result<(), AllocError>
        ensures { self.new.files.made.calls ≡ self.old.files.made.calls }
    {
        let own = folder.clone()?;
        self.files.add_answer(number, folder, name)?;
        self.readers.push(Reader {
            number,
            uid,
            folder: own,
        })?;
        Ok(())
    }

    /// Answers may stand in this folder: it is brought to the disk with the others.
    pub fn add_out(&mut self, folder: String) -> Result<(), AllocError>
        ensures { self.new.files.made.calls ≡ self.old.files.made.calls }
    {
        self.files.add_answer(u64::MAX, folder, ".answer")
    }

    /// What was claimed under this number stands under this name.
    pub fn add_claimed(&mut self, number: u64, name: &str) -> Result<(), AllocError>
        ensures { self.new.files.made.calls ≡ self.old.files.made.calls }
    {
        self.files.add_claimed(number, name)
    }

    // The file of this place gets the name that says whose it is once it has this number. A number names one file: where that was refused,
    // another is not linked under its name.
    fn name_claimed(&mut self, place: u64, number: u64) -> io::Result<()>
        ensures { self.new.files.made.calls ≡ self.old.files.made.calls }
    {
        if self.named.contains(&number) {
            return Err(ErrorKind::AlreadyExists.into());
        }
        self.named.push(number)?;
        let name = self.name_of(place, number)?;
        match std::str::from_utf8(&name) {
            Ok(text) => Ok(self.files.add_claimed(number, text)?),
            Err(_) => Err(ErrorKind::InvalidFilename.into()),
        }
    }

    fn name_of(&self, place: u64, number: u64) -> io::Result<Vec<u8>> {
        match self.dropped.get(place as usize) {
            Some(one) => Ok(claimed_name(
                self.rt.alloc(),
                Claim {
                    number,
                    account: &one.account,
                    name: &one.name,
                },
            )?),
            None => Err(ErrorKind::NotFound.into()),
        }
    }

    // The file of this place was this one.
    fn note_seen(&mut self, place: u64, seen: Identity)
        ensures { self.new.files.made.calls ≡ self.old.files.made.calls }
    {
        if let Some(one) = self.dropped.get_mut(place as usize) {
            one.seen = Some(seen);
        }
    }

    // The file of this place was the one that has this number now.
    fn note_claimed(&mut self, place: u64, number: u64)
        ensures { self.new.files.made.calls ≡ self.old.files.made.calls }
    {
        if let Ok(seen) = self.identity_claimed(place, number) {
            self.note_seen(place, seen);
        }
    }

    fn identity_claimed(&self, place: u64, number: u64) -> io::Result<Identity> {
        let bytes = self.name_of(place, number)?;
        match std::str::from_utf8(&bytes) {
            Ok(name) => {
                let path = joined(self.rt.alloc(), &self.taken, name)?;
                identity_at(&self.rt, &path)
            }
            Err(_) => Err(ErrorKind::InvalidFilename.into()),
        }
    }

    // Whether another file has the name of this place by now.
    fn has_another(&self, place: u64) -> bool {
        let Some(one) = self.dropped.get(place as usize) else {
            return false;
        };
        match (one.seen, identity_at(&self.rt, &one.path)) {
            (Some(seen), Ok(now)) => seen.device != now.device || seen.inode != now.inode,
            _ => false,
        }
    }

    // What was written as an answer is for its user from here on.
    fn give_draft(&self, number: u64) -> io::Result<()> {
        match self.reader_of(number) {
            Some(reader) if reader.uid == self.runner => Ok(()),
            Some(reader) if self.runner == 0 => {
                lchown(&self.rt, self.draft.as_str(), Some(reader.uid), None)
            }
            Some(reader) => self.make_in(&reader.folder),
            None => Err(ErrorKind::NotFound.into()),
        }
    }

    fn reader_of(&self, number: u64) -> Option<&Reader> {
        for reader in self.readers.iter() {
            if reader.number == number {
                return Some(reader);
            }
        }
        None
    }

    // The same bytes as a file that was made in the folder of its user: so it has that one's group, and what the folder's default list says.
    fn make_in(&self, folder: &str) -> io::Result<()> {
        let bytes = fs::read(&self.rt, self.draft.as_str())?;
        let path = joined(self.rt.alloc(), folder, ".answer")?;
        remove_if_there(&self.rt, &path)?;
        write_new(&self.rt, &path, &bytes)?;
        fs::rename(&self.rt, path.as_str(), self.draft.as_str())
    }
}

impl<R: Host> Disk for SiteDisk<R> {
    ghost calls = { λ disk. disk.files.made.calls };

    ghost tells = { ⊥ };

    fn read(&mut self, name: Name) -> Result<Option<Vec<u8>>, DiskError> {
        let found = self.files.read(name)?;
        if let Some(bytes) = &found {
            self.weigh(name, bytes.len());
        }
        Ok(found)
    }

    fn look(&mut self, name: Name) -> Result<Option<Identity>, DiskError> {
        let found = self.files.look(name)?;
        if let (Name::Dropped(place), Some(seen)) = (name, found) {
            self.note_seen(place, seen);
        }
        Ok(found)
    }

    fn next_claimed(&mut self, from: u64) -> Result<Option<u64>, DiskError> {
        self.files.next_claimed(from)
    }

    fn write(&mut self, name: Name, bytes: &[u8]) -> Result<(), DiskError> {
        self.weigh(name, bytes.len());
        self.files.write(name, bytes)
    }

    fn sync_file(&mut self, name: Name) -> Result<(), DiskError> {
        self.files.sync_file(name)
    }

    fn rename(&mut self, from: Name, to: Name) -> Result<(), DiskError> {
        if let (Name::Unfinished, Name::Answer(number)) = (from, to) {
            self.give_draft(number)?;
        }
        self.files.rename(from, to)
    }

    fn link(&mut self, from: Name, to: Name) -> Result<(), DiskError> {
        if let (Name::Dropped(place), Name::Claimed(number)) = (from, to) {
            self.name_claimed(place, number)?;
        }
        self.files.link(from, to)?;
        if let (Name::Dropped(place), Name::Claimed(number)) = (from, to) {
            self.note_claimed(place, number);
        }
        Ok(())
    }

    fn remove(&mut self, name: Name) -> Result<(), DiskError> {
        if let Name::Dropped(place) = name {
            if self.has_another(place) {
                return Err(DiskError::Failed);
            }
        }
        self.files.remove(name)
    }

    fn sync_folder(&mut self, folder: Folder) -> Result<(), DiskError> {
        self.files.sync_folder(folder)
    }
}

fn identity_at<R: Host>(rt: &R, path: &str) -> io::Result<Identity> {
    let seen = fs::symlink_metadata(rt, path)?;
    Ok(Identity {
        device: seen.dev(),
        inode: seen.ino(),
    })
}
