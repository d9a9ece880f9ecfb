//! What is promised of each disk: no dropped text is lost, none is in two commits, each ran once over what ran before it, and under an
//! answer's name stands nothing or that answer.
use crate::pool::Pool;
use crate::slots::Slots;
use ledger_disk::Name;
use ledger_text::{Record, digest, read_commit, read_record};
use std::alloc::{AllocError, Global};

/// More commits than there are.
const MOST: u64 = 64;

/// A text that was taken, and what it printed, if it ran.
#[derive(Drop)]
struct Text {
    number: u64,
    text: Vec<u8>,
    printed: Option<Vec<u8>>,
}

/// What the commits of a ledger say.
#[derive(Drop)]
struct Said {
    alloc: Global,
    texts: Vec<Text>,
    // What ran so far, one text behind the other.
    ran: Vec<u8>,
    // The digest of the last commit, and how many there are.
    last: Vec<u8>,
    count: u64,
}

/// Whether all that is promised holds of these names; of those behind a whole run more.
pub fn holds(
    alloc: Global,
    pool: &Pool,
    slots: &Slots,
    texts: &[&[u8]],
    is_over: bool,
) -> Result<bool, AllocError> {
    let Some(said) = read_ledger(alloc, pool, slots)? else {
        return Ok(false);
    };
    Ok(
        texts
            .iter()
            .all(|text| is_kept(&said, pool, slots, text, is_over))
            && are_answers(&said, pool, slots)
            && (!is_over || said.is_over(slots)),
    )
}

// What the commits say; none if one is no commit, or names another one before it than there is, or says what can't be so there.
fn read_ledger(alloc: Global, pool: &Pool, slots: &Slots) -> Result<Option<Said>, AllocError> {
    let mut said = Said {
        alloc,
        texts: Vec::new(alloc),
        ran: Vec::new(alloc),
        last: Vec::new(alloc),
        count: 0,
    };
    for number in 0..MOST {
        let Some(held) = slots.now(Name::Commit(number)) else {
            break;
        };
        if !said.follow(pool.text(held.text))? {
            return Ok(None);
        }
        said.count = said.count.saturating_add(1);
    }
    if said.count == commits(slots) {
        Ok(Some(said))
    } else {
        Ok(None)
    }
}

fn commits(slots: &Slots) -> u64 {
    let mut count = 0u64;
    for slot in &slots.slots {
        if matches!(slot.name, Name::Commit(_)) && slot.now.is_some() {
            count = count.saturating_add(1);
        }
    }
    count
}

impl Said {
    // Whether a commit may stand here; what it says is so from here on.
    fn follow(&mut self, text: &[u8]) -> Result<bool, AllocError> {
        let Some(fields) = read_commit(self.alloc, text)? else {
            return Ok(false);
        };
        let follows = match fields.as_slice() {
            [named, head, change] if *named == self.last.as_slice() => {
                self.follow_head(head, change)?
            }
            _ => false,
        };
        self.last = digest(self.alloc, text)?;
        Ok(follows)
    }

    fn follow_head(&mut self, head: &[u8], change: &[u8]) -> Result<bool, AllocError> {
        let Some(fields) = read_commit(self.alloc, head)? else {
            return Ok(false);
        };
        match read_record(&fields) {
            Some(entry) => self.follow_record(entry.record, change),
            None => Ok(false),
        }
    }

    fn follow_record(&mut self, record: Record<'_>, change: &[u8]) -> Result<bool, AllocError> {
        match record {
            Record::Took(claimed, text) => self.take(claimed.number, text),
            Record::Ran(number, printout) => self.run(number, printout, change),
            Record::Gave(_, _) => Ok(change.is_empty()),
            _ => Ok(false),
        }
    }

    fn take(&mut self, number: u64, text: &[u8]) -> Result<bool, AllocError> {
        if self.texts.iter().any(|other| other.number >= number) {
            return Ok(false);
        }
        let text = text.to_vec(self.alloc)?;
        self.texts.push(Text {
            number,
            text,
            printed: None,
        })?;
        Ok(true)
    }

    // The first text that waits ran, over what ran before it.
    fn run(&mut self, number: u64, printout: &[u8], change: &[u8]) -> Result<bool, AllocError> {
        let Some(place) = self.first() else {
            return Ok(false);
        };
        self.ran.extend_from_slice(change)?;
        let printed = printout.to_vec(self.alloc)?;
        let is_right = self.ran.as_slice() == printout;
        match self.texts.get_mut(place) {
            Some(text) => {
                let is_it = text.number == number && text.text.as_slice() == change;
                text.printed = Some(printed);
                Ok(is_it && is_right)
            }
            None => Ok(false),
        }
    }

    // The place of the first text that waits.
    fn first(&self) -> Option<usize> {
        for place in 0..self.texts.len() {
            if self.texts[place].printed.is_none() {
                return Some(place);
            }
        }
        None
    }

    fn takes(&self, text: &[u8]) -> usize {
        let mut count = 0usize;
        for one in &self.texts {
            if one.text.as_slice() == text {
                count = count.saturating_add(1);
            }
        }
        count
    }

    fn answer(&self, number: u64) -> Option<&Vec<u8>> {
        for text in &self.texts {
            if text.number == number {
                return text.printed.as_ref();
            }
        }
        None
    }

    // Whether each text ran, and its answer is there.
    fn is_over(&self, slots: &Slots) -> bool {
        self.texts.iter().all(|text| text.printed.is_some()
            && slots.now(Name::Answer(text.number)).is_some())
    }
}

// Whether a dropped text is in one commit, or waits in its box or under a number; behind a whole run in a commit alone.
fn is_kept(said: &Said, pool: &Pool, slots: &Slots, text: &[u8], is_over: bool) -> bool {
    let taken = said.takes(text);
    let waits = waits(pool, slots, text);
    if is_over {
        taken == 1 && !waits
    } else {
        taken == 1 || (taken == 0 && waits)
    }
}

fn waits(pool: &Pool, slots: &Slots, text: &[u8]) -> bool {
    for slot in &slots.slots {
        if let (Name::Dropped(_) | Name::Claimed(_), Some(held)) = (slot.name, slot.now) {
            if pool.text(held.text) == text {
                return true;
            }
        }
    }
    false
}

// Whether under each answer's name stands nothing, or the answer that the ledger has.
fn are_answers(said: &Said, pool: &Pool, slots: &Slots) -> bool {
    for slot in &slots.slots {
        if let (Name::Answer(number), Some(held)) = (slot.name, slot.now) {
            if !is_answer(said, number, pool.text(held.text)) {
                return false;
            }
        }
    }
    true
}

fn is_answer(said: &Said, number: u64, text: &[u8]) -> bool {
    match said.answer(number) {
        Some(printed) => printed.as_slice() == text,
        None => false,
    }
}
