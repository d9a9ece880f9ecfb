//! How claimed files are read. Their user can hold one back by a lease, until the system takes that away (`/proc/sys/fs/lease-break-time`,
//! 45 seconds as a rule): so where a file of a user took long, no other of that user is waited for.
use ledger_disk::System;
use std::alloc::Global;
use std::fs::{self, File, Metadata, OpenFile};
use std::io::{self, Read};
use std::os::unix::fs::MetadataExt;
use std::time::{Clock, Instant};

/// So many seconds are long for a file.
const LONG: u64 = 10;

/// Whose files took long.
#[derive(Drop)]
pub(crate) struct Patience {
    slow: Vec<u32>,
}

impl Patience {
    pub(crate) fn new(alloc: Global) -> Patience {
        Patience {
            slow: Vec::new(alloc),
        }
    }

    /// The bytes of the file that stands there; none where it is no file, its user is not waited for, or another one is opened than was seen.
    pub(crate) fn read<R: System + Clock>(
        &mut self,
        rt: &R,
        path: &str,
        most: u64,
    ) -> io::Result<Option<Vec<u8>>> {
        let seen = fs::symlink_metadata(rt, path)?;
        if !seen.is_file() || self.slow.contains(&seen.uid()) {
            return Ok(None);
        }
        let begun = Instant::now(rt)?;
        let bytes = read_same(rt, path, &seen, most)?;
        let passed = Instant::now(rt)?.saturating_duration_since(begun);
        if passed.as_secs() >= LONG {
            self.slow.push(seen.uid())?;
        }
        Ok(bytes)
    }
}

fn read_same<R: System>(
    rt: &R,
    path: &str,
    seen: &Metadata,
    most: u64,
) -> io::Result<Option<Vec<u8>>> {
    let mut file = File::open(rt, path)?;
    let held = file.metadata()?;
    if held.dev() != seen.dev() || held.ino() != seen.ino() {
        return Ok(None);
    }
    let mut bytes = Vec::new(rt.alloc());
    file.take(most.saturating_add(1)).read_to_end(&mut bytes)?;
    Ok(Some(bytes))
}
