//! What a site's file of limits says, and its text.
ghost use Rattle.std.specs.Prelude.{◌≡◌, ◌++◌, Ok, Err, None, Some, map, IfOk, IfErr, OnOk, codes, bytes_eq, ok_or, if◌then◌else◌};
ghost use Rattle.std.specs.List.{list_any};
ghost use Rattle.mon_text.specs.Stops.{Gives};
ghost use Rattle.preflight.specs.Submissions.{IfStopped};
ghost use Rattle.site_plan.specs.Terms.{limit_on};
ghost use Rattle.site_plan.specs.Tables.{ended_lines};
ghost use Rattle.ledger_tables.specs.Limits.{bound_name, bound_on, number_on, said_on, is_same_bound, is_same, is_beyond, says_too_much};
ghost use Rattle.ledger_tables.specs.Limits.{with_said, after_line, number_of, quota_in, limits_in, limits_of};
ghost use Rattle.ledger_tables.specs.Limits.{given_by, given_line, days_lines, demonstration_lines, limits_text};

use deck_syntax::first_line;
use mon_text::{Stop, put_number, read_count, split_words};
use preflight::{Limit, Quota};
use site_plan::{is_skipped, limit_name, stop_at};
use std::alloc::{AllocError, Global};

/// Answers are kept for so many days at the most, where a limit says it.
pub const MOST_DAYS: u64 = 36_500;

/// What a site's file of limits says.
#[derive(Clone, Copy)]
pub struct Limits {
    /// What each account may hand in for a run.
    pub quota: Quota,
    /// How many seconds a text may run.
    pub seconds: u64,
    /// How many bytes its answer may have.
    pub output: u64,
    /// For how many days answers are kept; for ever where there is none.
    pub days: Option<u64>,
    /// Whether a user of the system may have several accounts.
    pub demonstration: bool,
}

/// What a line of the file limits.
#[derive(Clone, Copy)]
pub enum Bound {
    /// What an account may hand in, and own.
    HandedIn(Limit),
    /// How long a text may run.
    Seconds,
    /// How long its answer may be.
    Output,
    /// How long answers are kept.
    Days,
}

/// Why a line of the limits is refused, or all of them.
#[derive(Clone, Copy)]
pub enum LimitsFault {
    /// The line is not a limit and a number, nor the word `demonstration`.
    BadLine,
    /// It says for how many days answers are kept, and these are none, or more than `MOST_DAYS`.
    WrongDays,
    /// A line before says this.
    Twice,
    /// No line gives this limit.
    Missing(Bound),
}

/// A limit and its number.
#[derive(Clone, Copy)]
pub(crate) struct Given {
    bound: Bound,
    number: u64,
}

/// What a line says.
#[derive(Clone, Copy)]
pub(crate) enum Said {
    /// How much there may be of what a limit is about.
    Gives(Given),
    /// That a user may have several accounts.
    Demonstration,
}

/// The name of a limit.
pub fn bound_name(bound: Bound) -> &'static str
    ensures { result.now ≡ bound_name bound }
{
    match bound {
        Bound::HandedIn(limit) => limit_name(limit),
        Bound::Seconds => "seconds",
        Bound::Output => "output",
        Bound::Days => "days",
    }
}

/// The limits that a text gives: a name and a number on each line, each of the ten once, and `days` and the word `demonstration` or not.
/// Blank lines, and those that begin with `#`, are skipped.
///
/// # Errors
///
/// The number of the first line that is wrong, counted from 1, and why. Where a limit is missing it is the number behind the last
/// line. `Memory` where a growth was refused.
pub fn read_limits(alloc: Global, text: &[u8]) -> Result<Limits, Stop<(u64, LimitsFault)>>
    ensures { Gives (λ limits. limits) result (limits_of text.now) }
{
    let mut said = Vec::new(alloc);
    let mut number: u64 = 1;
    let mut rest = text;
    'lines: while !rest.is_empty() {
        let (line, behind) = first_line(rest);
        match take_line(alloc, &mut said, line) {
            Ok(()) => {}
            Err(stop) => return Err(stop_at(number, stop)),
        }
        number += 1;
        rest = behind;
    }
    match limits_in(&said) {
        Ok(limits) => Ok(limits),
        Err(fault) => Err(Stop::Refused((number, fault))),
    }
}

// Takes a line.
fn take_line(alloc: Global, said: &mut Vec<Said>, line: &[u8]) -> Result<(), Stop<LimitsFault>>
    ensures taken { OnOk result (after_line said.old.items line.now ≡ Ok said.new.items) }
    ensures refused { IfErr result (IfStopped (λ why. after_line said.old.items line.now ≡ Err why)) }
{
    if is_skipped(line) {
        return Ok(());
    }
    let words = split_words(alloc, line)?;
    match said_on(words.as_slice()) {
        None => Err(Stop::Refused(LimitsFault::BadLine)),
        Some(one) => add_said(said, one),
    }
}

// The same with what a line says, unless that is too much, or one before says it.
fn add_said(said: &mut Vec<Said>, one: Said) -> Result<(), Stop<LimitsFault>>
    ensures taken { OnOk result (with_said said.old.items one ≡ Ok said.new.items) }
    ensures refused { IfErr result (IfStopped (λ why. with_said said.old.items one ≡ Err why)) }
{
    if says_too_much(one) {
        return Err(Stop::Refused(LimitsFault::WrongDays));
    }
    if is_said(said, one) {
        return Err(Stop::Refused(LimitsFault::Twice));
    }
    match said.push(one) {
        Ok(()) => Ok(()),
        Err(_) => Err(Stop::Memory),
    }
}

fn says_too_much(one: Said) -> bool
    ensures { result ≡ says_too_much one }
{
    match one {
        Said::Gives(given) => is_beyond(given.bound, given.number),
        Said::Demonstration => false,
    }
}

// Whether this limit can't be of this number.
fn is_beyond(bound: Bound, number: u64) -> bool
    ensures { result ≡ is_beyond bound number }
{
    match bound {
        Bound::HandedIn(_) | Bound::Seconds | Bound::Output => false,
        Bound::Days => number == 0 || MOST_DAYS < number,
    }
}

// Whether a line before says the same.
fn is_said(said: &[Said], one: Said) -> bool
    ensures { result ≡ list_any (is_same one) said.now }
{
    said.iter().any(|other| is_same(one, *other))
}

fn is_same(one: Said, other: Said) -> bool
    ensures { result ≡ is_same one other }
{
    match one {
        Said::Gives(given) => match other {
            Said::Gives(another) => is_same_bound(given.bound, another.bound),
            Said::Demonstration => false,
        },
        Said::Demonstration => match other {
            Said::Gives(_) => false,
            Said::Demonstration => true,
        },
    }
}

fn is_same_bound(bound: Bound, other: Bound) -> bool
    ensures { result ≡ is_same_bound bound other }
{
    bound_name(bound).as_bytes() == bound_name(other).as_bytes()
}

// What these words say.
fn said_on(words: &[&[u8]]) -> Option<Said>
    ensures { result ≡ said_on (map (λ word. word.now) words.now) }
{
    match words {
        [word] => demonstration_on(word),
        [name, number] => number_on(bound_on(name), number),
        _ => None,
    }
}

fn demonstration_on(word: &[u8]) -> Option<Said>
    ensures { result ≡ (if bytes_eq word.now (codes "demonstration") then Some Said.Demonstration else None) }
{
    if word == b"demonstration".as_slice() {
        Some(Said::Demonstration)
    } else {
        None
    }
}

fn number_on(bound: Option<Bound>, number: &[u8]) -> Option<Said>
    ensures { result ≡ number_on bound number.now }
{
    match bound {
        None => None,
        Some(bound) => match read_count(number) {
            Ok(number) => Some(Said::Gives(Given { bound, number })),
            Err(_) => None,
        },
    }
}

// The limit of this name.
fn bound_on(name: &[u8]) -> Option<Bound>
    ensures { result ≡ bound_on name.now }
{
    if is_named(Bound::Seconds, name) {
        Some(Bound::Seconds)
    } else if is_named(Bound::Output, name) {
        Some(Bound::Output)
    } else if is_named(Bound::Days, name) {
        Some(Bound::Days)
    } else {
        match limit_on(name) {
            Some(limit) => Some(Bound::HandedIn(limit)),
            None => None,
        }
    }
}

fn limit_on(name: &[u8]) -> Option<Limit>
    ensures { result ≡ limit_on name.now }
{
    if is_named(Bound::HandedIn(Limit::Texts), name) {
        Some(Limit::Texts)
    } else if is_named(Bound::HandedIn(Limit::Bytes), name) {
        Some(Limit::Bytes)
    } else if is_named(Bound::HandedIn(Limit::Jobs), name) {
        Some(Limit::Jobs)
    } else if is_named(Bound::HandedIn(Limit::Statements), name) {
        Some(Limit::Statements)
    } else if is_named(Bound::HandedIn(Limit::Largest), name) {
        Some(Limit::Largest)
    } else if is_named(Bound::HandedIn(Limit::Work), name) {
        Some(Limit::Work)
    } else if is_named(Bound::HandedIn(Limit::DataSets), name) {
        Some(Limit::DataSets)
    } else if is_named(Bound::HandedIn(Limit::Records), name) {
        Some(Limit::Records)
    } else {
        None
    }
}

fn is_named(bound: Bound, name: &[u8]) -> bool
    ensures { result ≡ bytes_eq (bound_name bound) name.now }
{
    bound_name(bound).as_bytes() == name
}

// What all lines say.
fn limits_in(said: &[Said]) -> Result<Limits, LimitsFault>
    ensures { result ≡ limits_in said.now }
{
    let quota = quota_in(said)?;
    let seconds = needed(said, Bound::Seconds)?;
    let output = needed(said, Bound::Output)?;
    Ok(Limits {
        quota,
        seconds,
        output,
        days: number_of(said, Bound::Days),
        demonstration: is_said(said, Said::Demonstration),
    })
}

// What an account may hand in.
fn quota_in(said: &[Said]) -> Result<Quota, LimitsFault>
    ensures { result ≡ quota_in said.now }
{
    let texts = needed(said, Bound::HandedIn(Limit::Texts))?;
    let bytes = needed(said, Bound::HandedIn(Limit::Bytes))?;
    let jobs = needed(said, Bound::HandedIn(Limit::Jobs))?;
    let statements = needed(said, Bound::HandedIn(Limit::Statements))?;
    let largest = needed(said, Bound::HandedIn(Limit::Largest))?;
    let work = needed(said, Bound::HandedIn(Limit::Work))?;
    let data_sets = needed(said, Bound::HandedIn(Limit::DataSets))?;
    let records = needed(said, Bound::HandedIn(Limit::Records))?;
    Ok(Quota {
        texts,
        bytes,
        jobs,
        statements,
        largest,
        work,
        data_sets,
        records,
    })
}

// The number that is given for a limit that has to be there.
fn needed(said: &[Said], bound: Bound) -> Result<u64, LimitsFault>
    ensures { result ≡ ok_or (number_of bound said.now) (LimitsFault.Missing bound) }
{
    match number_of(said, bound) {
        Some(number) => Ok(number),
        None => Err(LimitsFault::Missing(bound)),
    }
}

// The number that is given for a limit.
fn number_of(said: &[Said], bound: Bound) -> Option<u64>
    ensures { result ≡ number_of bound said.now }
{
    for one in said {
        if let Said::Gives(given) = *one {
            if is_same_bound(given.bound, bound) {
                return Some(given.number);
            }
        }
    }
    None
}

/// The text of limits, as `read_limits` reads it: so it does where the numbers are below 2^63, and the days are none, or 1 to `MOST_DAYS`.
///
/// # Errors
///
/// Where a growth was refused.
pub fn limits_text(alloc: Global, limits: &Limits) -> Result<Vec<u8>, AllocError>
    ensures { IfOk result (λ text. text.items ≡ limits_text limits.now) }
{
    let mut text = Vec::new(alloc);
    put_given(&given_by(limits), &mut text)?;
    put_days(limits.days, &mut text)?;
    put_demonstration(limits.demonstration, &mut text)?;
    Ok(text)
}

fn given_by(limits: &Limits) -> [Given; 10]
    ensures { result ≡ given_by limits.now }
{
    let quota = limits.quota;
    [
        bound_to(Bound::HandedIn(Limit::Texts), quota.texts),
        bound_to(Bound::HandedIn(Limit::Bytes), quota.bytes),
        bound_to(Bound::HandedIn(Limit::Jobs), quota.jobs),
        bound_to(Bound::HandedIn(Limit::Statements), quota.statements),
        bound_to(Bound::HandedIn(Limit::Largest), quota.largest),
        bound_to(Bound::HandedIn(Limit::Work), quota.work),
        bound_to(Bound::HandedIn(Limit::DataSets), quota.data_sets),
        bound_to(Bound::HandedIn(Limit::Records), quota.records),
        bound_to(Bound::Seconds, limits.seconds),
        bound_to(Bound::Output, limits.output),
    ]
}

fn bound_to(bound: Bound, number: u64) -> Given
    ensures { result ≡ record { bound = bound; number = number } }
{
    Given { bound, number }
}

fn put_given(all: &[Given], text: &mut Vec<u8>) -> Result<(), AllocError>
    ensures { OnOk result (text.new.items ≡ text.old.items ++ ended_lines (map given_line all.now)) }
{
    for given in all {
        put_line(*given, text)?;
    }
    Ok(())
}

fn put_line(given: Given, text: &mut Vec<u8>) -> Result<(), AllocError>
    ensures { OnOk result (text.new.items ≡ text.old.items ++ (given_line given ++ codes "\n")) }
{
    text.extend_from_slice(bound_name(given.bound).as_bytes())?;
    text.push(b' ')?;
    put_number(given.number, text)?;
    text.push(b'\n')?;
    Ok(())
}

fn put_days(days: Option<u64>, text: &mut Vec<u8>) -> Result<(), AllocError>
    ensures { OnOk result (text.new.items ≡ text.old.items ++ ended_lines (days_lines days)) }
{
    match days {
        Some(number) => put_line(bound_to(Bound::Days, number), text),
        None => Ok(()),
    }
}

fn put_demonstration(demonstration: bool, text: &mut Vec<u8>) -> Result<(), AllocError>
    ensures { OnOk result (text.new.items ≡ text.old.items ++ ended_lines (demonstration_lines demonstration)) }
{
    if demonstration {
        text.extend_from_slice(b"demonstration\n")?;
    }
    Ok(())
}
