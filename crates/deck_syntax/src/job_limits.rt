//! The limits of a job, as they may be.
ghost use Rattle.std.specs.Prelude.{◌≡◌};
ghost use Rattle.sno_cards.specs.Limits.{IsLimit, AreLimits};

use sno_cards::Limits;
use std::marker::Model;

/// How much a job may do where its card does not say it.
pub const USUAL_STATEMENTS: u64 = 50_000;

/// How many steps each match of a job may take where its card does not say it.
pub const USUAL_STEPS: u64 = 1_000_000;

/// How much a job may do: each limit is from 1 to 10,000,000. A contract sees the limits alone.
#[derive(Drop)]
pub struct JobLimits {
    limits: Limits,
}

impl Model for JobLimits {
    ghost use Rattle.sno_cards.specs.declared.limits.Limits.{Limits};
    ghost use Rattle.sno_cards.specs.Limits.{AreLimits};

    ghost Value = { Limits };

    ghost view = { λ l. l.limits };

    ghost invariant = { λ l. AreLimits l.limits };
}

impl JobLimits {
    /// The limits of a job whose card does not say them.
    pub fn usual() -> JobLimits
        ensures { result ≡ record { statements = 50000; steps = 1000000 } }
    {
        JobLimits {
            limits: Limits {
                statements: USUAL_STATEMENTS,
                steps: USUAL_STEPS,
            },
        }
    }

    /// The same, but for how many statements may begin.
    pub fn with_statements(self, statements: u64) -> JobLimits
        requires { IsLimit statements }
        ensures { result ≡ record self { statements = statements } }
    {
        JobLimits {
            limits: Limits {
                statements,
                steps: self.limits.steps,
            },
        }
    }

    /// The same, but for how many steps each match may take.
    pub fn with_steps(self, steps: u64) -> JobLimits
        requires { IsLimit steps }
        ensures { result ≡ record self { steps = steps } }
    {
        JobLimits {
            limits: Limits {
                statements: self.limits.statements,
                steps,
            },
        }
    }

    /// The limits.
    pub fn get(&self) -> Limits
        ensures value { result ≡ self.now }
        ensures within { AreLimits self.now }
    {
        self.limits
    }
}
