//! The folder of a split's files.
use crate::fault::Fault;
use std::alloc::{AllocError, Global};
use std::fs::{DirBuilder, File, OpenOptions};
use std::io::{ErrorKind, Write};
use std::os::unix::fs::{DirBuilderExt, OpenOptionsExt};
use std::{fs, io};

/// The file of a split's record.
pub const RECORD: &str = "cards";

/// The path of a name in a folder.
pub fn joined(alloc: Global, folder: &str, name: &str) -> Result<String, AllocError> {
    let mut path = String::from_str(alloc, folder)?;
    if !folder.ends_with("/") {
        path.push_str("/")?;
    }
    path.push_str(name)?;
    Ok(path)
}

/// The path of a part's file: its number is counted from 1 there.
pub fn part_path(alloc: Global, folder: &str, part: u64, kind: &str) -> Result<String, AllocError> {
    let number = part.saturating_add(1);
    let name = format!(in alloc; "{number}.{kind}")?;
    joined(alloc, folder, name.as_str())
}

/// The bytes of a file.
pub fn read_file(rt: &HostRuntime, path: &str) -> Result<Vec<u8>, Fault> {
    match fs::read(rt, path) {
        Ok(bytes) => Ok(bytes),
        Err(error) => Err(Fault::failed(rt.alloc(), path, error)),
    }
}

/// Puts a file that is not there yet, for its owner alone.
pub fn put_file(rt: &HostRuntime, path: &str, bytes: &[u8]) -> Result<(), Fault> {
    match write_new(rt, path, bytes) {
        Ok(()) => Ok(()),
        Err(error) if error.kind() == ErrorKind::AlreadyExists => {
            Err(Fault::Older(String::from_str(rt.alloc(), path)?))
        }
        Err(error) => Err(Fault::failed(rt.alloc(), path, error)),
    }
}

fn write_new(rt: &HostRuntime, path: &str, bytes: &[u8]) -> io::Result<()> {
    let mut file = OpenOptions::new()
        .write(true)
        .create_new(true)
        .mode(0o600)
        .open(rt, path)?;
    file.write_all(bytes)
}

/// Puts a file whole in the place of one that may be there. What is there and no file, as a device or a link, is written to.
pub fn replace_file(rt: &HostRuntime, path: &str, bytes: &[u8]) -> Result<(), Fault> {
    let mut beside = String::from_str(rt.alloc(), path)?;
    beside.push_str(".new")?;
    let written = if is_other_than_file(rt, path) {
        write_into(rt, path, bytes)
    } else {
        write_whole(rt, path, beside.as_str(), bytes)
    };
    match written {
        Ok(()) => Ok(()),
        Err(error) => Err(Fault::failed(rt.alloc(), path, error)),
    }
}

fn is_other_than_file(rt: &HostRuntime, path: &str) -> bool {
    match fs::symlink_metadata(rt, path) {
        Ok(seen) => !seen.is_file(),
        Err(_) => false,
    }
}

fn write_into(rt: &HostRuntime, path: &str, bytes: &[u8]) -> io::Result<()> {
    let mut file = emptied(rt, path)?;
    file.write_all(bytes)
}

fn write_whole(rt: &HostRuntime, path: &str, beside: &str, bytes: &[u8]) -> io::Result<()> {
    let mut file = emptied(rt, beside)?;
    file.write_all(bytes)?;
    file.sync_all()?;
    fs::rename(rt, beside, path)
}

// A file with nothing in it, for its owner alone where it is new.
fn emptied(rt: &HostRuntime, path: &str) -> io::Result<File> {
    OpenOptions::new()
        .write(true)
        .create(true)
        .truncate(true)
        .mode(0o600)
        .open(rt, path)
}

/// Makes the folder, if it is not there.
pub fn make_folder(rt: &HostRuntime, path: &str) -> Result<(), Fault> {
    match DirBuilder::new().mode(0o700).create(rt, path) {
        Ok(()) => Ok(()),
        Err(error) if error.kind() == ErrorKind::AlreadyExists => refuse_older(rt, path),
        Err(error) => Err(Fault::failed(rt.alloc(), path, error)),
    }
}

// An output of another split that was left in the folder would be joined as that of a new one.
fn refuse_older(rt: &HostRuntime, path: &str) -> Result<(), Fault> {
    match older_in(rt, path) {
        Ok(None) => Ok(()),
        Ok(Some(name)) => Err(Fault::Older(joined(rt.alloc(), path, name.as_str())?)),
        Err(error) => Err(Fault::failed(rt.alloc(), path, error)),
    }
}

fn older_in(rt: &HostRuntime, path: &str) -> io::Result<Option<String>> {
    for entry in fs::read_dir(rt, path)? {
        let entry = entry?;
        let name = entry.file_name();
        if is_of_split(name) {
            return Ok(Some(String::from_str(rt.alloc(), name)?));
        }
    }
    Ok(None)
}

// Whether a file of this name is a split's, or of a run of its parts.
fn is_of_split(name: &str) -> bool {
    let bytes = name.as_bytes();
    if bytes == RECORD.as_bytes() {
        return true;
    }
    let mut digits: usize = 0;
    for byte in bytes {
        if !byte.is_ascii_digit() {
            break;
        }
        digits = digits.saturating_add(1);
    }
    let Some(kind) = bytes.get(digits..) else {
        return false;
    };
    digits > 0
        && (kind == b".deck".as_slice()
            || kind == b".new".as_slice()
            || kind == b".out".as_slice()
            || kind == b".audit".as_slice())
}
