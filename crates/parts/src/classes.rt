//! Texts that share a name, together: union-find over their places. Whoever uses it tests what comes of it.

use std::alloc::{AllocError, Global};

/// Each place with one before it of its class; the first of a class is its own.
#[derive(Drop)]
pub(crate) struct Classes {
    before: Vec<usize>,
}

impl Classes {
    /// So many places, each alone.
    pub(crate) fn alone(alloc: Global, count: usize) -> Result<Classes, AllocError> {
        let mut before = Vec::with_capacity(alloc, count)?;
        for place in 0..count {
            before.push(place)?;
        }
        Ok(Classes { before })
    }

    /// The first place of this one's class.
    pub(crate) fn first_of(&self, place: usize) -> usize {
        let mut at = place;
        for _ in 0..self.before.len() {
            let next = self.before_place(at);
            if next == at {
                return at;
            }
            at = next;
        }
        at
    }

    /// The classes of two places become one.
    pub(crate) fn join(&mut self, one: usize, other: usize) {
        let first = self.first_of(one);
        let second = self.first_of(other);
        let (low, high) = if first < second {
            (first, second)
        } else {
            (second, first)
        };
        self.put(high, low);
        self.put(one, low);
        self.put(other, low);
    }

    fn before_place(&self, place: usize) -> usize {
        match self.before.get(place) {
            Some(before) => *before,
            None => place,
        }
    }

    fn put(&mut self, place: usize, before: usize) {
        if let Some(own) = self.before.get_mut(place) {
            *own = before;
        }
    }
}
