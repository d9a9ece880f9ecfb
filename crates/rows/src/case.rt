//! A worked deck, the words that it is run with, and what a run of it has to show.
ghost use Rattle.std.specs.Prelude.{◌≡◌, ◌≢◌, ◌↔◌, Bool, IfSome, IfOk, IsTrue, None};
ghost use Rattle.rows.specs.Outcomes.{AreSame};
ghost use Rattle.rows.specs.Words.{words_for, slots_words};

use crate::cuts::first_bad_cut;
use crate::run::run_of;
use anyhow::{Context, Result};
use deck_run::{MemReader, Options, Slots, exit_status, put_fault};
use mon_device::first_difference;
use std::alloc::{AllocError, Global};
use std::fs;
use std::rt::Files;

/// How many bytes a read and a write move at the most. Each case is run once with each of these pairs.
const PIECES: [(usize, usize); 5] = [
    (usize::MAX, usize::MAX),
    (1, 1),
    (7, 3),
    (1, usize::MAX),
    (usize::MAX, 1),
];

/// What a run shows to the outside.
#[derive(Drop)]
pub struct Outcome {
    pub stdout: Vec<u8>,
    pub stderr: Vec<u8>,
    pub status: u8,
}

#[derive(Drop)]
pub struct Case {
    options: Options,
    deck: Vec<u8>,
    wanted: Outcome,
}

impl Case {
    /// Reads the files of a case: `args`, `deck`, `stdout`, `stderr` and `status`, in its own folder of `cases/`.
    pub fn read<R: Files + AllocGlobal>(rt: &R, name: &str) -> Result<Case> {
        let options = read_args(rt, name)?;
        let status = read_status(rt, name)?;
        let stdout = read_part(rt, name, "stdout")?;
        let stderr = read_part(rt, name, "stderr")?;
        let deck = read_part(rt, name, "deck")?;
        Ok(Case {
            options,
            deck,
            wanted: Outcome {
                stdout,
                stderr,
                status,
            },
        })
    }

    /// Runs the deck, and prints a line on how it went: `ok NAME`, or what is not as wanted.
    pub fn holds<R: Print + AllocGlobal>(&self, rt: &R, name: &str) -> Result<bool> {
        if !self.is_shown_in_pieces(rt, name)? {
            return Ok(false);
        }
        if !self.is_only_checked(rt.alloc())? {
            println!(rt; "FAILED {name}: --check")?;
            return Ok(false);
        }
        if let Some(end) = first_bad_cut(rt.alloc(), self.deck.as_slice(), self.options) {
            println!(rt; "FAILED {name}: cut behind {end} bytes")?;
            return Ok(false);
        }
        println!(rt; "ok {name}")?;
        Ok(true)
    }

    // Whether all is shown as wanted, in whatever pieces it comes and goes.
    fn is_shown_in_pieces<R: Print + AllocGlobal>(&self, rt: &R, name: &str) -> Result<bool> {
        for (most_read, most_written) in PIECES {
            let seen = self.run(rt.alloc(), self.options, most_read, most_written)?;
            if !is_wanted(rt, name, &self.wanted, &seen)? {
                return Ok(false);
            }
        }
        Ok(true)
    }

    // Whether a run that only checks the deck shows that it is good, or nothing but its refusal.
    fn is_only_checked(&self, alloc: Global) -> Result<bool, AllocError> {
        let mut options = self.options;
        options.check = true;
        let seen = self.run(alloc, options, usize::MAX, usize::MAX)?;
        let verdict = match self.wanted.status {
            0 => b"DECK OK\n".as_slice(),
            _ => b"".as_slice(),
        };
        Ok(
            seen.stdout.as_slice() == verdict
                && seen.stderr.as_slice() == self.wanted.stderr.as_slice()
                && seen.status == self.wanted.status,
        )
    }

    fn run(
        &self,
        alloc: Global,
        options: Options,
        most_read: usize,
        most_written: usize,
    ) -> Result<Outcome, AllocError> {
        let reader = MemReader::in_pieces(self.deck.as_slice(), most_read);
        let run = run_of(alloc, reader, most_written, options)?;
        let mut stderr = Vec::new(alloc);
        if let Err(fault) = &run.outcome {
            put_fault(fault, &mut stderr)?;
        }
        let status = exit_status(&run.outcome);
        Ok(Outcome {
            stdout: run.output,
            stderr,
            status,
        })
    }
}

// Compares the outputs, then what goes to standard error, then the exit statuses, and prints the first difference.
fn is_wanted<R: Print + AllocGlobal>(
    rt: &R,
    name: &str,
    wanted: &Outcome,
    seen: &Outcome,
) -> Result<bool>
    ensures { IfOk result (λ same. IsTrue same ↔ AreSame wanted.now seen.now) }
{
    if let Some(line) = first_difference(&wanted.stdout, &seen.stdout) {
        println!(rt; "FAILED {name}: stdout, {line}")?;
        Ok(false)
    } else if let Some(line) = first_difference(&wanted.stderr, &seen.stderr) {
        println!(rt; "FAILED {name}: stderr, {line}")?;
        Ok(false)
    } else if wanted.status != seen.status {
        println!(rt;
            "FAILED {name}: status {} is wanted, and not {}",
            wanted.status, seen.status
        )?;
        Ok(false)
    } else {
        Ok(true)
    }
}

fn read_part<R: Files + AllocGlobal>(rt: &R, name: &str, part: &str) -> Result<Vec<u8>> {
    let path = format!(in rt.alloc(); "cases/{name}/{part}")?;
    fs::read(rt, path.as_str()).context(format_args!("reading {path}"))
}

fn read_status<R: Files + AllocGlobal>(rt: &R, name: &str) -> Result<u8> {
    let text = read_part(rt, name, "status")?;
    let status = match text.as_slice() {
        [digit, b'\n'] => digit.checked_sub(b'0'),
        _ => None,
    };
    status.context("a status is a digit on a line of its own")
}

fn read_args<R: Files + AllocGlobal>(rt: &R, name: &str) -> Result<Options> {
    let words = read_part(rt, name, "args")?;
    if let Some(slots) = slots_of(words.as_slice()) {
        let mut options = Options::new();
        options.slots = slots;
        return Ok(options);
    }
    options_of(words.as_slice()).context(
        "args has `--check` on a line, or `--slots` and a digit on two, or nothing",
    )
}

/// The number of slots that a digit behind `--slots` tells, each on a line of its own.
fn slots_of(words: &[u8]) -> Option<Slots>
    ensures given { IfSome result (λ slots. words.now ≡ slots_words slots) }
{
    match words.strip_prefix(b"--slots\n")? {
        [digit, b'\n'] => Slots::new(digit.checked_sub(b'0')?),
        _ => None,
    }
}

/// The options that the words of a case give: `--check` on a line of its own, or no word.
fn options_of(words: &[u8]) -> Option<Options>
    ensures given { IfSome result (λ options. (options.slots.number ≡ 4) × (words.now ≡ words_for options.check)) }
    ensures refused { result ≡ None → (check : Bool) → words.now ≢ words_for check }
{
    let mut options = Options::new();
    if words == b"--check\n".as_slice() {
        options.check = true;
        Some(options)
    } else if words == b"".as_slice() {
        Some(options)
    } else {
        None
    }
}
