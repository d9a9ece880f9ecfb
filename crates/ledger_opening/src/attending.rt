//! What watches a submission while it runs: how long it may run, how much it may print, and a file that names it. So the next run knows
//! during which submission the program ended, and whoever asks meanwhile how far the run is. The file is not brought to the disk, and what
//! fails on it ends nothing: an end of the program leaves it, and where a power cut does not, the submission is tried once more.
use crate::progress::{Progress, Terminal};
use ledger_folder::{Host, Place, joined, seconds_now};
use ledger_machine::{Bounded, Bounds, Clock, Watch};
use ledger_run::LedgerError;
use mon_text::read_count;
use std::alloc::AllocError;
use std::fs::{self, OpenFile, OpenOptions};
use std::io::{self, Write};
use std::os::unix::fs::OpenOptionsExt;
use std::time::Instant;

/// The file: five numbers, which are those of `Attempt`.
const FILE: &str = "keep/attempt";

// What is tried.
#[derive(Clone, Copy)]
struct Attempt {
    // The number of the commit that it would become.
    commit: u64,
    // It is tried for the so manieth time.
    times: u64,
    progress: Progress,
}

/// Tells the seconds since it was made. Where the system tells no time, none pass.
#[derive(Drop)]
pub struct Ticks<R: Host> {
    rt: R,
    begun: Option<Instant>,
}

impl<R: Host> Ticks<R> {
    fn new(rt: R) -> Ticks<R> {
        let begun = Instant::now(&rt).ok();
        Ticks { rt, begun }
    }
}

impl<R: Host> Clock for Ticks<R> {
    fn seconds(&self) -> u64 {
        match (self.begun, Instant::now(&self.rt)) {
            (Some(begun), Ok(now)) => now.saturating_duration_since(begun).as_secs(),
            _ => 0,
        }
    }
}

/// Watches submissions, each while it runs.
#[derive(Drop)]
pub struct Attended<R: Host> {
    rt: R,
    path: String,
    bounded: Bounded<Ticks<R>>,
    // The run that begins next becomes the commit of this number.
    commit: u64,
    /// It is tried for the so manieth time.
    pub times: u64,
    progress: Progress,
    terminal: Terminal,
}

impl<R: Host> Attended<R> {
    /// Before the first submission, which nothing bounds yet.
    pub fn new(place: &Place<R>) -> Result<Attended<R>, AllocError> {
        let path = joined(place.alloc(), &place.top, FILE)?;
        let clock = Ticks::new(place.rt.clone()?);
        let free = Bounds {
            seconds: u64::MAX,
            output: u64::MAX,
        };
        Ok(Attended {
            rt: place.rt.clone()?,
            path,
            bounded: Bounded::new(clock, free),
            commit: 0,
            times: 1,
            progress: Progress::none(),
            terminal: Terminal::none(),
        })
    }

    /// So many submissions are to run. A terminal is told which of them is at work, or none.
    pub fn expect(&mut self, submissions: u64, tells: bool) {
        self.progress = Progress {
            submission: 0,
            submissions,
            since: seconds_now(&self.rt),
        };
        self.terminal = Terminal::new(tells);
    }

    /// What bounds the submissions that begin from here on.
    pub fn bound(&mut self, bounds: Bounds) {
        self.bounded.bounds = bounds;
    }

    /// The submission that runs next becomes the commit of this number; with it so many wait.
    pub fn prepare(&mut self, commit: u64, waiting: usize) {
        self.commit = commit;
        self.progress.submission = self.progress.submissions.saturating_sub(waiting as u64);
    }

    /// How often the program ended while it ran the submission of which the commit of this number would be.
    pub fn ended(&self, commit: u64) -> u64 {
        match read_attempt(&self.rt, &self.path) {
            Some(attempt) if attempt.commit == commit => attempt.times,
            _ => 0,
        }
    }

    /// No submission runs.
    pub fn forget(&self) {
        let _gone = fs::remove_file(&self.rt, self.path.as_str());
    }

    fn note(&self) -> io::Result<()> {
        let (commit, times) = (self.commit, self.times);
        let Progress {
            submission,
            submissions,
            since,
        } = self.progress;
        let line = format!(in self.rt.alloc();
            "{commit} {times} {submission} {submissions} {since}\n"
        )?;
        write_over(&self.rt, &self.path, line.as_bytes())
    }
}

/// How far a run is, or the one that was ended, if a file tells.
pub fn progress_there<R: Host>(place: &Place<R>) -> Result<Option<Progress>, AllocError> {
    let path = joined(place.alloc(), &place.top, FILE)?;
    match read_attempt(&place.rt, &path) {
        Some(attempt) => Ok(Some(attempt.progress)),
        None => Ok(None),
    }
}

fn read_attempt<R: Host>(rt: &R, path: &str) -> Option<Attempt> {
    attempt_in(&fs::read(rt, path).ok()?)
}

fn write_over<R: Host>(rt: &R, path: &str, text: &[u8]) -> io::Result<()> {
    let mut file = OpenOptions::new()
        .write(true)
        .create(true)
        .truncate(true)
        .mode(0o600)
        .open(rt, path)?;
    file.write_all(text)
}

// What the file tells.
fn attempt_in(text: &[u8]) -> Option<Attempt> {
    let line = text.strip_suffix(b"\n")?;
    let mut numbers = [0; 5];
    let mut words = line.split(|code| *code == b' ');
    for number in numbers.iter_mut() {
        *number = read_count(words.next()?).ok()?;
    }
    let [commit, times, submission, submissions, since] = numbers;
    let progress = Progress {
        submission,
        submissions,
        since,
    };
    Some(Attempt {
        commit,
        times,
        progress,
    })
}

impl<R: Host> Watch for Attended<R> {
    ghost most = { λ watch. watch.bounded.bounds.output };

    fn begin(&mut self) {
        self.progress.submission = self.progress.submission.saturating_add(1);
        let _noted = self.note();
        self.terminal.tell(&self.rt, self.progress);
        self.commit = self.commit.saturating_add(1);
        self.times = 1;
        self.bounded.begin();
    }

    fn look(&self, printed: u64) -> Result<(), LedgerError> {
        self.bounded.look(printed)
    }

    fn is_late(&self) -> bool {
        self.bounded.is_late()
    }
}
