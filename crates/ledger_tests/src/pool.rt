//! The texts that files have, each once.
use std::alloc::{AllocError, Global};

/// The place of a text that was not on the disk.
pub const TORN: usize = 0;

/// The texts that files have.
#[derive(Drop)]
pub struct Pool {
    alloc: Global,
    texts: Vec<Vec<u8>>,
}

impl Pool {
    /// The text of a file that was not on the disk, and no other.
    pub fn new(alloc: Global) -> Result<Pool, AllocError> {
        let mut pool = Pool {
            alloc,
            texts: Vec::new(alloc),
        };
        pool.place_of(b"TORN")?;
        Ok(pool)
    }

    /// The place of a text.
    pub fn place_of(&mut self, text: &[u8]) -> Result<usize, AllocError> {
        let count = self.texts.len();
        for place in 0..count {
            if self.is_at(place, text) {
                return Ok(place);
            }
        }
        let text = text.to_vec(self.alloc)?;
        self.texts.push(text)?;
        Ok(count)
    }

    fn is_at(&self, place: usize, text: &[u8]) -> bool {
        self.text(place) == text
    }

    /// The text at a place.
    pub fn text(&self, place: usize) -> &[u8] {
        match self.texts.get(place) {
            Some(text) => text.as_slice(),
            None => &[],
        }
    }
}
