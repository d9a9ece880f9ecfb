//! What names have, and what else a crash may leave of them: the disk of `ledger_disk`, written a second time to be run.
use ledger_disk::{Folder, Name};
use std::alloc::{AllocError, Global};

/// A file: which text it has, and whether that is on the disk.
#[derive(Clone, Copy, PartialEq, Eq)]
pub struct Held {
    /// The place of its text among all.
    pub text: usize,
    /// Whether it is on the disk.
    pub is_whole: bool,
}

/// A name.
#[derive(Drop)]
pub struct Slot {
    /// The name.
    pub name: Name,
    /// What is seen.
    pub now: Option<Held>,
    /// What was seen since its folder was last brought to the disk, each once.
    pub others: Vec<Option<Held>>,
}

impl Slot {
    fn copy(&self, alloc: Global) -> Result<Slot, AllocError> {
        Ok(Slot {
            name: self.name,
            now: self.now,
            others: self.others.to_vec(alloc)?,
        })
    }

    // It gets this file, or none.
    fn give(&mut self, held: Option<Held>) -> Result<(), AllocError> {
        let before = self.now;
        self.now = held;
        if !is_draft(self.name) && !self.others.contains(&before) {
            self.others.push(before)?;
        }
        Ok(())
    }

    // Whether it has something, or may have; what is to be a commit or an answer is written anew before it is used, so no crash leaves it.
    fn counts(&self) -> bool {
        !is_draft(self.name) && (self.now.is_some() || !self.others.is_empty())
    }

    fn is_as(&self, other: &Slot) -> bool {
        self.name == other.name
            && self.now == other.now
            && self.others.len() == other.others.len()
            && self.others.iter().all(|held| other.others.contains(held))
    }
}

/// Names, and what they have.
#[derive(Drop)]
pub struct Slots {
    alloc: Global,
    /// Each name that has or had something, once.
    pub slots: Vec<Slot>,
}

impl Slots {
    /// No name has anything.
    pub fn new(alloc: Global) -> Slots {
        Slots {
            alloc,
            slots: Vec::new(alloc),
        }
    }

    /// The same names with the same files.
    pub fn copy(&self) -> Result<Slots, AllocError> {
        let mut slots = Vec::new(self.alloc);
        for slot in &self.slots {
            if slot.counts() {
                slots.push(slot.copy(self.alloc)?)?;
            }
        }
        Ok(Slots {
            alloc: self.alloc,
            slots,
        })
    }

    /// What is seen of a name.
    pub fn now(&self, name: Name) -> Option<Held> {
        for slot in &self.slots {
            if slot.name == name {
                return slot.now;
            }
        }
        None
    }

    /// A name gets this file, or none.
    pub fn give(&mut self, name: Name, held: Option<Held>) -> Result<(), AllocError> {
        for slot in self.slots.iter_mut() {
            if slot.name == name {
                return slot.give(held);
            }
        }
        self.add(name, held)
    }

    fn add(&mut self, name: Name, held: Option<Held>) -> Result<(), AllocError> {
        let mut slot = Slot {
            name,
            now: None,
            others: Vec::new(self.alloc),
        };
        slot.give(held)?;
        self.slots.push(slot)?;
        Ok(())
    }

    /// A name has this file, which is on the disk.
    pub fn settle(&mut self, name: Name, text: usize) -> Result<(), AllocError> {
        let slot = Slot {
            name,
            now: Some(Held {
                text,
                is_whole: true,
            }),
            others: Vec::new(self.alloc),
        };
        self.slots.push(slot)?;
        Ok(())
    }

    /// The file of a name is on the disk.
    pub fn sync_file(&mut self, name: Name) {
        for slot in self.slots.iter_mut() {
            if slot.name == name {
                slot.now = whole(slot.now);
            }
        }
    }

    /// What the names of a folder have is on the disk.
    pub fn sync_folder(&mut self, folder: Folder) {
        for slot in self.slots.iter_mut() {
            if stands_in(folder, slot.name) {
                slot.others.clear();
            }
        }
    }

    /// Whether these are the same names with the same files, and a crash may leave the same.
    pub fn are_as(&self, other: &Slots) -> bool {
        self.count() == other.count()
            && self
                .slots
                .iter()
                .all(|slot| !slot.counts() || other.has(slot))
    }

    fn has(&self, slot: &Slot) -> bool {
        self.slots.iter().any(|own| own.is_as(slot))
    }

    fn count(&self) -> usize {
        let mut count = 0usize;
        for slot in &self.slots {
            if slot.counts() {
                count = count.saturating_add(1);
            }
        }
        count
    }

    /// A number that is the same for names with the same files.
    pub fn mark(&self) -> u64 {
        let mut sum = 0u64;
        for slot in &self.slots {
            if slot.counts() {
                sum = sum.wrapping_add(mark_of(slot));
            }
        }
        sum
    }
}

fn whole(held: Option<Held>) -> Option<Held> {
    match held {
        Some(held) => Some(Held {
            text: held.text,
            is_whole: true,
        }),
        None => None,
    }
}

fn is_draft(name: Name) -> bool {
    matches!(name, Name::Draft | Name::Unfinished)
}

fn stands_in(folder: Folder, name: Name) -> bool {
    match name {
        Name::Commit(_) => matches!(folder, Folder::Ledger),
        Name::Dropped(_) => matches!(folder, Folder::Boxes),
        Name::Claimed(_) => matches!(folder, Folder::Taken),
        Name::Answer(_) => matches!(folder, Folder::Out),
        Name::Draft | Name::Unfinished => false,
    }
}

fn mark_of(slot: &Slot) -> u64 {
    let mut sum = mark_of_held(slot.now).wrapping_mul(3);
    for held in slot.others.iter() {
        sum = sum.wrapping_add(mark_of_held(*held));
    }
    mixed(sum.wrapping_add(mark_of_name(slot.name)))
}

fn mark_of_name(name: Name) -> u64 {
    match name {
        Name::Commit(number) => mixed(number.wrapping_mul(8)),
        Name::Dropped(place) => mixed(place.wrapping_mul(8).wrapping_add(1)),
        Name::Claimed(number) => mixed(number.wrapping_mul(8).wrapping_add(2)),
        Name::Answer(number) => mixed(number.wrapping_mul(8).wrapping_add(3)),
        Name::Draft | Name::Unfinished => 0,
    }
}

fn mark_of_held(held: Option<Held>) -> u64 {
    match held {
        None => 11,
        Some(held) => mixed(
            (held.text as u64)
                .wrapping_mul(2)
                .wrapping_add(u64::from(held.is_whole)),
        ),
    }
}

fn mixed(number: u64) -> u64 {
    let times = number.wrapping_add(1).wrapping_mul(0x9e37_79b9_7f4a_7c15);
    (times ^ (times >> 29)).wrapping_mul(0xbf58_476d_1ce4_e5b9)
}
