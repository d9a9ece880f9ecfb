//! The seed of the hash by which names and keys are found, so that whoever picks them can't make them collide.
use std::hash::{BuildHasher, FoldHasher, Hasher};

/// What a hash begins with. Nothing but time depends on it: maps keep the order in which their keys came.
#[derive(Clone, Copy)]
pub struct Seed {
    start: FoldHasher,
}

impl Seed {
    /// The seed that a number gives. Where strangers pick the keys, it is to be one of chance.
    pub fn new(number: u64) -> Seed {
        let mut start = FoldHasher::default();
        start.write_u64(number);
        Seed { start }
    }

    /// A seed that is the same each time, for keys that no stranger picks, and for runs that are to be measured.
    pub fn fixed() -> Seed {
        Seed::new(0)
    }
}

impl BuildHasher for Seed {
    type Hasher = FoldHasher;

    ghost build_hasher = { λ s. s.start };

    fn build_hasher(&self) -> FoldHasher {
        self.start
    }
}
