//! What an account may hand in for a round.
ghost use Rattle.std.specs.Prelude.{◌≡◌, []};
ghost use Rattle.preflight.specs.Allowances.{broken_limit, with_text};
ghost use Rattle.preflight.specs.Tallies.{tally_of};

use crate::tally::Tally;

/// What an account may hand in for a round.
#[derive(Clone, Copy)]
pub struct Quota {
    /// How many texts.
    pub texts: u64,
    /// How many bytes they have, all together.
    pub bytes: u64,
    /// How many jobs they have.
    pub jobs: u64,
    /// How many statements their jobs may begin.
    pub statements: u64,
    /// The most that one job may do: its statements, times the steps of a match.
    pub largest: u64,
    /// The sum of that.
    pub work: u64,
    /// How many data sets the account owns when the round starts, with one more for each `$CREATE` card.
    pub data_sets: u64,
    /// How many bytes the records have that the account owns when the round starts.
    pub records: u64,
}

/// What an account hands in for a round, and what it owns when the round starts.
#[derive(Clone, Copy)]
pub struct HandedIn {
    /// How many texts.
    pub texts: u64,
    /// What they ask for, all together.
    pub tally: Tally,
    /// How many data sets it owns.
    pub data_sets: u64,
    /// How many bytes their records have.
    pub records: u64,
}

/// A limit, by its name.
#[derive(Clone, Copy, PartialEq, Eq)]
pub enum Limit {
    Texts,
    Bytes,
    Jobs,
    Statements,
    Largest,
    Work,
    DataSets,
    Records,
}

impl HandedIn {
    /// No text so far, of an account that owns so many data sets, with records of so many bytes.
    pub fn none(data_sets: u64, records: u64) -> HandedIn
        ensures { result ≡ record { texts = 0; tally = tally_of [] 0; data_sets = data_sets; records = records } }
    {
        HandedIn {
            texts: 0,
            tally: Tally::none(),
            data_sets,
            records,
        }
    }

    /// One text more.
    pub fn with_text(self, tally: Tally) -> HandedIn
        ensures { result ≡ with_text self tally }
    {
        HandedIn {
            texts: self.texts.saturating_add(1),
            tally: self.tally.with(tally),
            data_sets: self.data_sets,
            records: self.records,
        }
    }
}

/// The first limit that is broken, if one is.
pub fn within(quota: &Quota, handed: &HandedIn) -> Option<Limit>
    ensures { result ≡ broken_limit quota.now handed.now }
{
    let tally = handed.tally;
    let data_sets = u128::from(handed.data_sets) + u128::from(tally.creates);
    if handed.texts > quota.texts {
        Some(Limit::Texts)
    } else if tally.bytes > quota.bytes {
        Some(Limit::Bytes)
    } else if tally.jobs > quota.jobs {
        Some(Limit::Jobs)
    } else if tally.statements > u128::from(quota.statements) {
        Some(Limit::Statements)
    } else if tally.largest > quota.largest {
        Some(Limit::Largest)
    } else if tally.work > u128::from(quota.work) {
        Some(Limit::Work)
    } else if data_sets > u128::from(quota.data_sets) {
        Some(Limit::DataSets)
    } else if handed.records > quota.records {
        Some(Limit::Records)
    } else {
        None
    }
}
