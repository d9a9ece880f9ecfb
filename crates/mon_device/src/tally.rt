//! What has come out so far, for the programs that try worked cases.

/// How many cases there were, and how many of them failed.
#[derive(Clone, Copy)]
pub struct Tally {
    pub cases: u64,
    pub failed: u64,
}

impl Tally {
    pub fn new() -> Tally {
        Tally {
            cases: 0,
            failed: 0,
        }
    }

    pub fn note(&mut self, holds: bool) {
        self.cases = self.cases.saturating_add(1);
        if !holds {
            self.failed = self.failed.saturating_add(1);
        }
    }
}
