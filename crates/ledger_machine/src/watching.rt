//! How long a text may run, and how much it may print. Both are looked at between the events of its run: behind each card, when what the
//! card asked for is done, and once more behind the last. The time is looked at while jobs run too, where each 256th statement begins
//! and behind each 65,536th step of a match: a job that is late ends as where memory is short. What was printed until then is in memory.
//! Whatever is broken off has no effect: no contract says when a text is late, but that it did nothing then.
ghost use Rattle.std.specs.Prelude.{◌≡◌, ◌≤◌, ℕ, OnOk};

use ledger_run::LedgerError;

/// Tells the time.
pub trait Clock {
    /// So many seconds passed since some moment, which stays the same.
    fn seconds(&self) -> u64;
}

/// Is asked during a text's run whether it may go on.
pub trait Watch {
    /// So many bytes may be printed.
    ghost most: { Self → ℕ };

    /// A text begins.
    fn begin(&mut self)
        ensures { most self.new ≡ most self.old };

    /// Whether a text may go on that has printed so many bytes.
    ///
    /// # Errors
    ///
    /// Where it may not: it ran too long (`Late`), or printed too much (`Long`).
    fn look(&self, printed: u64) -> Result<(), LedgerError>
        ensures within { OnOk result (printed ≤ most self.now) };

    /// Whether it ran too long.
    fn is_late(&self) -> bool;
}

/// What a text's run may take.
#[derive(Clone, Copy)]
pub struct Bounds {
    /// So many seconds.
    pub seconds: u64,
    /// So many bytes of its answer.
    pub output: u64,
}

/// Bounds that are watched by a clock.
#[derive(Drop)]
pub struct Bounded<C: Clock + Drop> {
    /// The bounds of the texts that begin from here on.
    pub bounds: Bounds,
    clock: C,
    begun: u64,
}

impl<C: Clock + Drop> Bounded<C> {
    ghost use Rattle.std.specs.Prelude.{◌≡◌};

    /// Before the first text.
    pub fn new(clock: C, bounds: Bounds) -> Bounded<C>
        ensures { result.bounds ≡ bounds }
    {
        Bounded {
            bounds,
            clock,
            begun: 0,
        }
    }
}

impl<C: Clock + Drop> Watch for Bounded<C> {
    ghost most = { λ watch. watch.bounds.output };

    fn begin(&mut self) {
        self.begun = self.clock.seconds();
    }

    fn look(&self, printed: u64) -> Result<(), LedgerError> {
        if self.is_late() {
            return Err(LedgerError::Late);
        }
        if printed > self.bounds.output {
            return Err(LedgerError::Long);
        }
        Ok(())
    }

    fn is_late(&self) -> bool {
        self.clock.seconds().saturating_sub(self.begun) > self.bounds.seconds
    }
}

/// Watches nothing: a text may run and print as long as its jobs' own limits let it.
#[derive(Clone, Copy)]
pub struct Unwatched;

impl Watch for Unwatched {
    ghost use Rattle.std.specs.Prelude.{◌-◌, ◌^◌};

    ghost most = { λ watch. 2 ^ 64 - 1 };

    fn begin(&mut self) {}

    fn look(&self, _printed: u64) -> Result<(), LedgerError> {
        Ok(())
    }

    fn is_late(&self) -> bool {
        false
    }
}
