//! What stays where so many days are kept.
ghost use Rattle.std.specs.Prelude.{◌≡◌, ◌<◌, ◌==◌, length, IfSome};
ghost use Rattle.std.specs.List.{list_any};
ghost use Rattle.ledger_pruning.specs.Ages.{since, kept_since, is_given, is_outdated, point, is_named, number_of, answer_of};

use crate::pruning::first_since;
use mon_text::read_count;

/// So many seconds a day has.
const DAY: u64 = 86_400;

/// An answer that stands in the folder of its account.
#[derive(Clone, Copy)]
pub struct Answer {
    /// The number of its submission.
    pub number: u64,
    /// When its file was written, in seconds since the beginning of 1970, UTC.
    pub time: u64,
}

/// When so many days before now began, in seconds since the beginning of 1970; 0 where that is earlier.
pub fn since(now: u64, days: u64) -> u64
    ensures { result ≡ since now days }
{
    now.saturating_sub(days.saturating_mul(DAY))
}

/// How many of the last commits stay, of so many: all from the first on that is of this time or later. These are the times of those from the
/// first number on; where all of them are earlier, those behind them stay.
pub fn kept_since(since: u64, commits: u64, first: u64, times: &[u64]) -> u64
    ensures { result ≡ kept_since since commits first times.now }
{
    let earlier = first_since(times, since) as u64;
    commits.saturating_sub(first.saturating_add(earlier))
}

/// Whether an answer may be removed: it was given, and its file is of an earlier time than this one. No submission has the number `next` or a
/// later one; those of the numbers in `pending` wait, or their answers are owed.
pub fn is_outdated(since: u64, next: u64, pending: &[u64], answer: Answer) -> bool
    ensures { result ≡ is_outdated since next pending.now answer }
{
    is_given(next, pending, answer.number) && answer.time < since
}

fn is_given(next: u64, pending: &[u64], number: u64) -> bool
    ensures { result ≡ is_given next pending.now number }
{
    number < next && !is_among(pending, number)
}

fn is_among(numbers: &[u64], number: u64) -> bool
    ensures { result ≡ list_any (λ other. other == number) numbers.now }
{
    numbers.iter().any(|other| *other == number)
}

/// The number of the submission whose answer stands under this name, if it is the name of one: NUMBER.NAME.out.
pub fn answer_of(name: &[u8]) -> Option<u64>
    ensures { result ≡ answer_of name.now }
{
    match point(name) {
        Some(place) => number_of(&name[..place], &name[place + 1..]),
        None => None,
    }
}

fn number_of(digits: &[u8], rest: &[u8]) -> Option<u64>
    ensures { result ≡ number_of digits.now rest.now }
{
    if !is_named(rest) {
        return None;
    }
    match read_count(digits) {
        Ok(number) => Some(number),
        Err(_) => None,
    }
}

fn is_named(rest: &[u8]) -> bool
    ensures { result ≡ is_named rest.now }
{
    rest.len() > 4 && rest.ends_with(b".out".as_slice())
}

// Where the first point stands.
fn point(name: &[u8]) -> Option<usize>
    ensures place { result ≡ point 0 name.now }
    ensures within { IfSome result (λ place. place < length name.now) }
{
    for index in 0..name.len() {
        if name[index] == b'.' {
            return Some(index);
        }
    }
    None
}
