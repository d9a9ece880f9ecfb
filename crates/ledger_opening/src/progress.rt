//! How far a run is, for who looks on. No promise rests on it: what fails here ends nothing.
use ledger_folder::Host;
use std::time::Instant;

/// How far a run is.
#[derive(Clone, Copy)]
pub struct Progress {
    /// Which of its submissions runs, counted from 1.
    pub submission: u64,
    /// How many it runs.
    pub submissions: u64,
    /// When it began, in seconds since the beginning of 1970, UTC.
    pub since: u64,
}

impl Progress {
    /// Before a run.
    pub fn none() -> Progress {
        Progress {
            submission: 0,
            submissions: 0,
            since: 0,
        }
    }
}

/// A terminal that is told which submission is at work, at most once a second; or none.
#[derive(Drop)]
pub struct Terminal {
    tells: bool,
    told: Option<Instant>,
}

impl Terminal {
    /// Nobody looks on.
    pub fn none() -> Terminal {
        Terminal::new(false)
    }

    /// Whether somebody looks on.
    pub fn new(tells: bool) -> Terminal {
        Terminal { tells, told: None }
    }

    /// A submission is at work.
    pub fn tell<R: Host>(&mut self, rt: &R, progress: Progress) {
        if !self.tells {
            return;
        }
        let Ok(now) = Instant::now(rt) else {
            return;
        };
        if matches!(self.told, Some(told) if now.saturating_duration_since(told).as_secs() == 0) {
            return;
        }
        let (submission, submissions) = (progress.submission, progress.submissions);
        let _told = eprintln!(rt; "snomon-site: submission {submission} of {submissions}");
        self.told = Some(now);
    }
}
