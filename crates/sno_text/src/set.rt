//! How a text begins: with a part, or with characters of a set.
ghost use Rattle.std.specs.Prelude.{◌≡◌, ◌≤◌, not, length, nat_eq};
ghost use Rattle.std.specs.List.{starts_with, prefix_len, position_or_len};
ghost use Rattle.sno_text.specs.Sets.{is_one_of};
ghost use Rattle.mon_text.specs.Beginnings.{first_passes};

use crate::class::Class;

/// Whether a text begins with a part. Most often the first character tells.
#[inline(always)]
pub fn stands_first(rest: &[u8], part: &[u8]) -> bool
    ensures { result ≡ starts_with nat_eq rest.now part.now }
{
    match (rest.first(), part) {
        (Some(one), [only]) => *one == *only,
        (Some(one), [other, ..]) if *one != *other => false,
        _ => rest.starts_with(part),
    }
}

/// Whether a character of the set comes first.
#[inline]
pub fn begins_with_one_of(rest: &[u8], set: &Class) -> bool
    ensures { result ≡ first_passes (is_one_of set.now) rest.now }
{
    match rest.first() {
        Some(first) => set.has(*first),
        None => false,
    }
}

/// Whether a character comes first that is not of the set.
#[inline]
pub fn begins_with_another(rest: &[u8], set: &Class) -> bool
    ensures { result ≡ first_passes (λ x. not (is_one_of set.now x)) rest.now }
{
    match rest.first() {
        Some(first) => !set.has(*first),
        None => false,
    }
}

/// How far characters are looked up one by one. A run that goes on behind them is worth a table.
const NEAR: usize = 1_024;

/// How many characters of the set come first, where many may.
#[inline(never)]
fn long_run_of(rest: &[u8], set: &Class) -> usize
    ensures value { result ≡ prefix_len (is_one_of set.now) rest.now }
    ensures within { result ≤ length rest.now }
{
    let table = set.table();
    let mut count = 0;
    'fours: while rest.len() - count >= 4
        && table[usize::from(rest[count])]
        && table[usize::from(rest[count + 1])]
        && table[usize::from(rest[count + 2])]
        && table[usize::from(rest[count + 3])]
    {
        count += 4;
    }
    'ones: while count < rest.len() && table[usize::from(rest[count])] {
        count += 1;
    }
    count
}

/// How many characters of the set come first.
#[inline]
pub fn run_of(rest: &[u8], set: &Class) -> usize
    ensures value { result ≡ prefix_len (is_one_of set.now) rest.now }
    ensures within { result ≤ length rest.now }
{
    let near = rest.len().min(NEAR);
    let mut count = 0;
    while count < near && set.has(rest[count]) {
        count += 1;
    }
    if count < NEAR {
        count
    } else {
        count + long_run_of(&rest[count..], set)
    }
}

/// How many characters come before the first one of the set, where many may.
#[inline(never)]
fn long_gap_before(rest: &[u8], set: &Class) -> usize
    ensures value { result ≡ position_or_len (is_one_of set.now) rest.now }
    ensures within { result ≤ length rest.now }
{
    let table = set.table();
    let mut count = 0;
    'fours: while rest.len() - count >= 4
        && !table[usize::from(rest[count])]
        && !table[usize::from(rest[count + 1])]
        && !table[usize::from(rest[count + 2])]
        && !table[usize::from(rest[count + 3])]
    {
        count += 4;
    }
    'ones: while count < rest.len() && !table[usize::from(rest[count])] {
        count += 1;
    }
    count
}

/// How many characters come before the first one of the set.
#[inline]
pub fn gap_before(rest: &[u8], set: &Class) -> usize
    ensures value { result ≡ position_or_len (is_one_of set.now) rest.now }
    ensures within { result ≤ length rest.now }
{
    let near = rest.len().min(NEAR);
    let mut count = 0;
    while count < near && !set.has(rest[count]) {
        count += 1;
    }
    if count < NEAR {
        count
    } else {
        count + long_gap_before(&rest[count..], set)
    }
}
