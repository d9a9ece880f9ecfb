//! What a text asks for, in numbers.
ghost use Rattle.std.specs.Prelude.{◌≡◌, []};
ghost use Rattle.preflight.specs.Allowances.{both_tallies};
ghost use Rattle.preflight.specs.Tallies.{tally_of};

/// What a text asks for, in numbers.
#[derive(Clone, Copy)]
pub struct Tally {
    /// How many jobs.
    pub jobs: u64,
    /// How many statements they may begin, all together.
    pub statements: u128,
    /// The most that one of them may do: its statements, times the steps of a match.
    pub largest: u64,
    /// The sum of that.
    pub work: u128,
    /// How many `$CREATE` cards.
    pub creates: u64,
    /// How many bytes the text has, with each line ended by LF.
    pub bytes: u64,
}

impl Tally {
    /// Of no text.
    pub fn none() -> Tally
        ensures { result ≡ tally_of [] 0 }
    {
        Tally {
            jobs: 0,
            statements: 0,
            largest: 0,
            work: 0,
            creates: 0,
            bytes: 0,
        }
    }

    /// Of two texts, one after the other. A sum that is too large to be told is told as the largest number.
    pub fn with(self, other: Tally) -> Tally
        ensures { result ≡ both_tallies self other }
    {
        Tally {
            jobs: self.jobs.saturating_add(other.jobs),
            statements: self.statements.saturating_add(other.statements),
            largest: self.largest.max(other.largest),
            work: self.work.saturating_add(other.work),
            creates: self.creates.saturating_add(other.creates),
            bytes: self.bytes.saturating_add(other.bytes),
        }
    }
}
