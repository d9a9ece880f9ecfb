//! Lines, their words, and what a word names.
ghost use Rattle.std.specs.Prelude.{◌≡◌, ◌<◌, ◌≤◌, ◌+◌, ◌∷◌, length, filter, slice_get, None, Some, IfOk, OnOk, IsErrOf, not};
ghost use Rattle.std.specs.List.{slice_split};
ghost use Rattle.mon_text.specs.Names.{is_name};
ghost use Rattle.mon_text.specs.Counts.{is_count, value_of};
ghost use Rattle.mon_text.specs.Beginnings.{without_leading};
ghost use Rattle.mon_text.specs.Characters.{is_blank};
ghost use Rattle.mon_text.specs.Lines.{IsLine, is_line, is_blank_line, is_nonempty, words};
ghost use Rattle.deck_lines.specs.declared.deck_error.DeckError.TheVariants.{BadName, BadNumber};
ghost use Rattle.deck_lines.specs.Cards.{card_among};
ghost use Rattle.deck_lines.specs.Refusing.{unless, line_refusal, is_dollar_line};
ghost use Rattle.deck_lines.specs.Turns.{is_within};
ghost use Rattle.deck_lines.specs.inner.Stops.{Answers};

use crate::card::{Card, card_of};
use crate::deck_error::{DeckError, stop_of_line};
use mon_text::{Line, Name, Stop, read_count, read_line, read_name};
use std::alloc::Global;
use std::marker::Model;

/// How many characters a line has at the most outside the catalogue.
pub const MOST_LINE_CHARACTERS: usize = 200;

// How many characters are tested at once where a line has so many: such a number takes no loop.
const BLOCK: usize = 32;

/// A line, read with at most `limit` characters. Memory is told only where it has no refusal.
pub fn line_of(alloc: Global, text: &[u8], limit: usize) -> Result<Line, Stop<DeckError>>
    ensures answers { Answers (line_refusal limit text.now) result }
    ensures memory { IsErrOf result Stop.Memory → line_refusal limit text.now ≡ None }
    ensures value { IfOk result (λ line. line ≡ text.now) }
{
    match read_line(alloc, text, limit) {
        Ok(line) => Ok(line),
        Err(error) => Err(stop_of_line(error)),
    }
}

/// Tests a line with at most `limit` characters.
#[inline(always)]
pub fn check_line(text: &[u8], limit: usize) -> Result<(), Stop<DeckError>>
    ensures answers { Answers (line_refusal limit text.now) result }
    ensures printable { OnOk result (IsLine text.now) }
    ensures memory { IsErrOf result Stop.Memory → line_refusal limit text.now ≡ None }
{
    match line_refusal(text, limit) {
        Some(code) => Err(Stop::Refused(code)),
        None => Ok(()),
    }
}

/// What is wrong with a line by its length and its characters, if anything is: it may have `limit` characters. It takes no memory.
#[inline(always)]
pub fn line_refusal(text: &[u8], limit: usize) -> Option<DeckError>
    ensures { result ≡ line_refusal limit text.now }
{
    if text.len() > limit {
        Some(DeckError::LineTooLong)
    } else if !is_line(text) {
        Some(DeckError::BadCharacter)
    } else {
        None
    }
}

// The characters of a long line are tested by blocks, of which the last may have some that the one before it has.
#[inline(always)]
fn is_line(text: &[u8]) -> bool
    ensures { result ≡ is_line text.now }
{
    if text.len() < BLOCK {
        return are_printable(text);
    }
    let mut from = 0;
    while from < text.len() - BLOCK {
        if !are_printable(&text[from..from + BLOCK]) {
            return false;
        }
        from += BLOCK;
    }
    are_printable(&text[text.len() - BLOCK..])
}

// Whether all of these characters are printable.
#[inline(always)]
fn are_printable(text: &[u8]) -> bool
    ensures { result ≡ is_line text.now }
{
    let mut printable = true;
    for byte in text {
        printable &= (b' '..=b'~').contains(byte);
    }
    printable
}

/// Whether a line has no character but blanks.
pub fn is_blank(text: &[u8]) -> bool
    ensures { result ≡ is_blank_line text.now }
{
    text.iter().all(|byte| *byte == b' ')
}

/// Whether a line begins with a dollar sign.
pub fn begins_with_dollar(text: &[u8]) -> bool
    ensures { result ≡ is_dollar_line text.now }
{
    text.first() == Some(&b'$')
}

/// A word that has to be a name.
pub fn name_of(word: &[u8]) -> Result<Name, Stop<DeckError>>
    ensures answers { Answers (unless (is_name word.now) BadName) result }
    ensures value { IfOk result (λ name. name ≡ word.now) }
{
    match read_name(word) {
        Ok(name) => Ok(name),
        Err(_) => Err(Stop::Refused(DeckError::BadName)),
    }
}

/// A word that has to be a number.
pub fn number_of(word: &[u8]) -> Result<u64, Stop<DeckError>>
    ensures answers { Answers (unless (is_count word.now) BadNumber) result }
    ensures value { IfOk result (λ number. number ≡ value_of word.now) }
{
    match read_count(word) {
        Ok(number) => Ok(number),
        Err(_) => Err(Stop::Refused(DeckError::BadNumber)),
    }
}

/// Whether a number is from 1 to so many.
pub fn is_within(most: u64, number: u64) -> bool
    ensures { result ≡ is_within most number }
{
    (1..=most).contains(&number)
}

/// The words of a line, where they stand in it. A contract sees them as the list of their bytes. The first three are found at
/// once, since few cards have more; those behind them are sought each time.
#[derive(Drop)]
pub struct Words<'a> {
    first: &'a [u8],
    second: &'a [u8],
    third: &'a [u8],
    /// What stands behind the third.
    others: &'a [u8],
}

impl<'a> Model for Words<'a> {
    ghost use Rattle.std.specs.Prelude.{ℕ, List};
    ghost use Rattle.deck_lines.specs.inner.Found.{found, AreInOrder};

    ghost Value = { List (List ℕ) };

    ghost view = { λ w. found w.first.now w.second.now w.third.now w.others.now };

    ghost invariant = { λ w. AreInOrder w.first.now w.second.now w.third.now w.others.now };
}

impl<'a> Words<'a> {
    /// The words of this line.
    #[inline(always)]
    pub fn of(line: &'a [u8]) -> Words<'a>
        ensures { result ≡ words line.now }
    {
        let (first, behind_first) = next_word(line);
        let (second, behind_second) = next_word(behind_first);
        let (third, others) = next_word(behind_second);
        Words {
            first,
            second,
            third,
            others,
        }
    }

    pub fn len(&self) -> usize
        ensures { result ≡ length self.now }
    {
        if self.first.is_empty() {
            0
        } else if self.second.is_empty() {
            1
        } else if self.third.is_empty() {
            2
        } else {
            3 + number_of_words(self.others)
        }
    }

    /// The word at a place, counted from 0.
    pub fn at(&self, place: usize) -> &[u8]
        requires { place < length self.now }
        ensures { slice_get self.now place ≡ Some result.now }
    {
        match place {
            0 => self.first,
            1 => self.second,
            2 => self.third,
            _ => word_at(self.others, place - 3),
        }
    }

    /// The card that the first word names.
    pub fn card(&self) -> Option<Card>
        ensures { result ≡ card_among self.now }
    {
        card_of(self.first)
    }
}

/// What stands from the first word on.
pub fn from_word(text: &[u8]) -> &[u8]
    ensures { result.now ≡ without_leading is_blank text.now }
{
    let mut rest = text;
    'blanks: while let [b' ', others @ ..] = rest {
        rest = others;
    }
    rest
}

/// What stands from the first blank on.
#[inline(always)]
pub fn from_blank(text: &[u8]) -> &[u8]
    ensures { result.now ≡ without_leading (λ c. not (is_blank c)) text.now }
{
    let mut rest = text;
    'letters: while let [first, others @ ..] = rest {
        if *first == b' ' {
            break;
        }
        rest = others;
    }
    rest
}

/// The first word of a text, which is empty where it has none, and what stands behind it.
#[inline(always)]
fn next_word(text: &[u8]) -> (&[u8], &[u8])
    ensures words { words text.now ≡ filter is_nonempty (result.0.now ∷ slice_split is_blank result.1.now) }
    ensures none { length result.0.now ≡ 0 → length result.1.now ≡ 0 }
    ensures within { length result.0.now + length result.1.now ≤ length text.now }
{
    let from = from_word(text);
    let behind = from_blank(from);
    (&from[..from.len() - behind.len()], behind)
}

/// How many words a text has.
fn number_of_words(text: &[u8]) -> usize
    ensures value { result ≡ length (words text.now) }
    ensures within { result ≤ length text.now }
{
    let mut count = 0;
    let mut rest = text;
    loop {
        let (word, behind) = next_word(rest);
        if word.is_empty() {
            return count;
        }
        count += 1;
        rest = behind;
    }
}

/// The word at a place of a text, counted from 0.
fn word_at(text: &[u8], place: usize) -> &[u8]
    requires { place < length (words text.now) }
    ensures { slice_get (words text.now) place ≡ Some result.now }
{
    let mut left = place;
    let mut rest = text;
    loop {
        let (word, behind) = next_word(rest);
        if left == 0 {
            return word;
        }
        left -= 1;
        rest = behind;
    }
}
