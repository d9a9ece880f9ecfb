//! The search: a run is cut off behind each of its calls, by a kill or by a power cut, and another run goes on from whatever that leaves,
//! until nothing new is reached.
use crate::checks::holds;
use crate::pool::{Pool, TORN};
use crate::site::run;
use crate::slots::{Held, Slot, Slots};
use crate::watched::{Made, Watch, Watched};
use ledger_disk::Name;
use ledger_run::LedgerError;
use std::alloc::{AllocError, Global};

/// What is dropped: no two texts are the same.
const TEXTS: [&[u8]; 3] = [b"ONE\n", b"TWO\n", b"THREE\n"];

/// More disks than are reached.
const MOST: usize = 10_000_000;

const BUCKETS: usize = 65_536;

/// The disks that are known, each once.
#[derive(Drop)]
struct Known {
    disks: Vec<Slots>,
    // The places of those with one mark, but for its upper part.
    buckets: Vec<Vec<usize>>,
}

impl Known {
    fn new(alloc: Global) -> Result<Known, AllocError> {
        let mut buckets = Vec::new(alloc);
        for _ in 0..BUCKETS {
            buckets.push(Vec::new(alloc))?;
        }
        Ok(Known {
            disks: Vec::new(alloc),
            buckets,
        })
    }

    // Whether this one is new. It is known then.
    fn add(&mut self, slots: Slots) -> Result<bool, AllocError> {
        let bucket = (slots.mark() % BUCKETS as u64) as usize;
        if self.has(bucket, &slots) {
            return Ok(false);
        }
        if let Some(places) = self.buckets.get_mut(bucket) {
            places.push(self.disks.len())?;
        }
        self.disks.push(slots)?;
        Ok(true)
    }

    fn has(&self, bucket: usize, slots: &Slots) -> bool {
        match self.buckets.get(bucket) {
            Some(places) => places.iter().any(|place| self.is_at(*place, slots)),
            None => false,
        }
    }

    fn is_at(&self, place: usize, slots: &Slots) -> bool {
        match self.disks.get(place) {
            Some(known) => known.are_as(slots),
            None => false,
        }
    }
}

/// A search.
#[derive(Drop)]
pub struct Search {
    alloc: Global,
    texts: usize,
    batch: usize,
    known: Known,
    /// How many outcomes were looked at.
    pub outcomes: u64,
    /// How many calls were made, and one more for each run.
    pub calls: u64,
}

impl Search {
    /// A search from so many dropped texts on, of runs that answer behind so many texts.
    pub fn new(alloc: Global, texts: usize, batch: usize) -> Result<Search, AllocError> {
        Ok(Search {
            alloc,
            texts,
            batch,
            known: Known::new(alloc)?,
            outcomes: 0,
            calls: 0,
        })
    }

    /// How many disks were reached.
    pub fn disks(&self) -> usize {
        self.known.disks.len()
    }

    /// Goes on to the end; whether all that is promised holds of each disk.
    ///
    /// # Errors
    ///
    /// Where a run fails.
    pub fn run(&mut self) -> Result<bool, LedgerError> {
        let mut pool = Pool::new(self.alloc)?;
        let start = dropped(self.alloc, &mut pool, self.texts)?;
        self.known.add(start)?;
        for place in 0..MOST {
            let Some(start) = self.disk(place)? else {
                return Ok(true);
            };
            let watch = self.run_from(pool, &start)?;
            if !self.follow(&watch)? {
                return Ok(false);
            }
            pool = watch.pool;
        }
        Ok(false)
    }

    /// The calls of a run that is not cut off.
    ///
    /// # Errors
    ///
    /// Where it fails.
    pub fn calls(&self) -> Result<Vec<Made>, LedgerError> {
        let mut pool = Pool::new(self.alloc)?;
        let start = dropped(self.alloc, &mut pool, self.texts)?;
        let watch = self.run_from(pool, &start)?;
        Ok(watch.made)
    }

    fn disk(&self, place: usize) -> Result<Option<Slots>, AllocError> {
        match self.known.disks.get(place) {
            Some(slots) => Ok(Some(slots.copy()?)),
            None => Ok(None),
        }
    }

    fn run_from(&self, pool: Pool, start: &Slots) -> Result<Watch, LedgerError> {
        let mut disk = Watched::begin(self.alloc, pool, start)?;
        run(self.alloc, &mut disk, self.texts as u64, self.batch)?;
        Ok(disk.watch)
    }

    // What the run leaves in the end holds what is promised, and so does all that is left where it is cut off.
    fn follow(&mut self, watch: &Watch) -> Result<bool, AllocError> {
        if !self.holds(&watch.pool, &watch.now, true)? {
            return Ok(false);
        }
        for moment in &watch.moments {
            self.calls = self.calls.saturating_add(1);
            if !self.cut(&watch.pool, moment)? {
                return Ok(false);
            }
        }
        Ok(true)
    }

    fn cut(&mut self, pool: &Pool, moment: &Slots) -> Result<bool, AllocError> {
        let killed = moment.copy()?;
        if !self.reach(pool, killed)? {
            return Ok(false);
        }
        let choices = choices(self.alloc, moment)?;
        for number in 0..product(&choices) {
            let left = outcome(self.alloc, &choices, number)?;
            if !self.reach(pool, left)? {
                return Ok(false);
            }
        }
        Ok(true)
    }

    fn reach(&mut self, pool: &Pool, left: Slots) -> Result<bool, AllocError> {
        self.outcomes = self.outcomes.saturating_add(1);
        let is_right = self.holds_if_new(pool, &left)?;
        self.known.add(left)?;
        Ok(is_right)
    }

    fn holds_if_new(&self, pool: &Pool, left: &Slots) -> Result<bool, AllocError> {
        let bucket = (left.mark() % BUCKETS as u64) as usize;
        if self.known.has(bucket, left) {
            return Ok(true);
        }
        self.holds(pool, left, false)
    }

    fn holds(&self, pool: &Pool, slots: &Slots, is_over: bool) -> Result<bool, AllocError> {
        match TEXTS.get(..self.texts) {
            Some(texts) => holds(self.alloc, pool, slots, texts, is_over),
            None => Ok(false),
        }
    }
}

// So many texts are dropped, and are on the disk.
fn dropped(alloc: Global, pool: &mut Pool, texts: usize) -> Result<Slots, AllocError> {
    let mut slots = Slots::new(alloc);
    for place in 0..TEXTS.len() {
        if place < texts {
            let text = pool.place_of(TEXTS[place])?;
            slots.settle(Name::Dropped(place as u64), text)?;
        }
    }
    Ok(slots)
}

/// A name, and what a power cut may leave of it: which text, or none.
#[derive(Drop)]
struct Choice {
    name: Name,
    lefts: Vec<Option<usize>>,
}

fn choices(alloc: Global, moment: &Slots) -> Result<Vec<Choice>, AllocError> {
    let mut choices = Vec::new(alloc);
    for slot in &moment.slots {
        choices.push(choice_of(alloc, slot)?)?;
    }
    Ok(choices)
}

fn choice_of(alloc: Global, slot: &Slot) -> Result<Choice, AllocError> {
    let mut lefts = Vec::new(alloc);
    add_left(&mut lefts, slot.now)?;
    for held in slot.others.iter() {
        add_left(&mut lefts, *held)?;
    }
    Ok(Choice {
        name: slot.name,
        lefts,
    })
}

// A file whose text is not on the disk may have another one.
fn add_left(lefts: &mut Vec<Option<usize>>, held: Option<Held>) -> Result<(), AllocError> {
    match held {
        None => add_new(lefts, None),
        Some(held) => {
            add_new(lefts, Some(held.text))?;
            if held.is_whole {
                return Ok(());
            }
            add_new(lefts, Some(TORN))
        }
    }
}

fn add_new(lefts: &mut Vec<Option<usize>>, left: Option<usize>) -> Result<(), AllocError> {
    if !lefts.contains(&left) {
        lefts.push(left)?;
    }
    Ok(())
}

fn product(choices: &[Choice]) -> u64 {
    let mut product = 1u64;
    for choice in choices {
        product = product.saturating_mul(choice.lefts.len() as u64);
    }
    product
}

// The outcome of this number.
fn outcome(alloc: Global, choices: &[Choice], number: u64) -> Result<Slots, AllocError> {
    let mut slots = Slots::new(alloc);
    let mut rest = number;
    for choice in choices {
        rest = choose(&mut slots, choice, rest)?;
    }
    Ok(slots)
}

// The name gets what the number says; what is left of that.
fn choose(slots: &mut Slots, choice: &Choice, number: u64) -> Result<u64, AllocError> {
    let count = choice.lefts.len() as u64;
    if count == 0 {
        return Ok(number);
    }
    if let Some(Some(text)) = choice.lefts.get((number % count) as usize) {
        slots.settle(choice.name, *text)?;
    }
    Ok(number / count)
}
