//! What has to be known of a split to join what its parts wrote, and the text of that.

ghost use Rattle.std.specs.Prelude.{◌≡◌, ◌<◌, length};

use deck_lines::Words;
use deck_syntax::first_line;
use mon_text::{Name, put_number, read_count, read_name};
use parts::Split;
use std::alloc::{AllocError, Global};

/// There are so many parts at most.
pub const MOST_PARTS: u64 = 999;

/// The first line of a record.
const FIRST_LINE: &[u8] = b"snomon-parts 1";

/// A text of the whole: the part that it goes to, and how many printouts it gives.
#[derive(Clone, Copy)]
pub struct TextNote {
    /// The number of the part, from 0.
    pub part: u64,
    /// How many commands it has.
    pub commands: u64,
    /// How many jobs it has.
    pub jobs: u64,
}

/// A data set that is there in the end, and the part that has it.
#[derive(Drop)]
pub struct SetNote {
    /// The number of the part, from 0.
    pub part: u64,
    /// The name.
    pub name: Name,
}

/// What has to be known of a split.
#[derive(Drop)]
pub struct Record {
    /// How many parts there are.
    pub parts: u64,
    /// The texts, in the order of the whole; none, where the deck is one part and was not taken apart.
    pub texts: Vec<TextNote>,
    /// The data sets, in the order that they have in the end.
    pub sets: Vec<SetNote>,
}

impl Record {
    /// That of a deck that is one part.
    pub fn of_one(alloc: Global) -> Record {
        Record {
            parts: 1,
            texts: Vec::new(alloc),
            sets: Vec::new(alloc),
        }
    }

    /// The split.
    pub(crate) fn split(&self, alloc: Global) -> Result<Split, AllocError> {
        let mut split = Split::one_part(alloc);
        for text in &self.texts {
            split.push_text(text.part)?;
        }
        for set in &self.sets {
            split.put_name(&set.name, set.part)?;
        }
        Ok(split)
    }
}

/// The text of a record.
///
/// # Errors
///
/// Where a growth was refused.
pub fn put_record(alloc: Global, record: &Record) -> Result<Vec<u8>, AllocError> {
    let mut out = Vec::from_slice(alloc, FIRST_LINE)?;
    put_word(&mut out, b"\nparts ", record.parts)?;
    for text in &record.texts {
        put_text(&mut out, *text)?;
    }
    for set in &record.sets {
        put_word(&mut out, b"\nset ", set.part)?;
        out.extend_from_slice(b" ")?;
        out.extend_from_slice(set.name.as_bytes())?;
    }
    out.extend_from_slice(b"\n")?;
    Ok(out)
}

fn put_text(out: &mut Vec<u8>, text: TextNote) -> Result<(), AllocError> {
    put_word(out, b"\ntext ", text.part)?;
    put_word(out, b" ", text.commands)?;
    put_word(out, b" ", text.jobs)
}

fn put_word(out: &mut Vec<u8>, before: &[u8], number: u64) -> Result<(), AllocError> {
    out.extend_from_slice(before)?;
    put_number(number, out)
}

/// The record of a text, if it is one.
///
/// # Errors
///
/// Where a growth was refused.
pub fn read_record(alloc: Global, text: &[u8]) -> Result<Option<Record>, AllocError> {
    let mut record = Record::of_one(alloc);
    let mut number: u64 = 0;
    let mut rest = text;
    'lines: while !rest.is_empty() {
        let (line, behind) = first_line(rest);
        if !take_line(&mut record, number, line)? {
            return Ok(None);
        }
        number = number.saturating_add(1);
        rest = behind;
    }
    if number < 2 {
        return Ok(None);
    }
    Ok(Some(record))
}

// The line of this number, from 0: whether it is one.
fn take_line(record: &mut Record, number: u64, line: &[u8]) -> Result<bool, AllocError> {
    if number == 0 {
        return Ok(line == FIRST_LINE);
    }
    let words = Words::of(line);
    if words.len() == 0 {
        return Ok(false);
    }
    take_words(record, number, &words)
}

fn take_words(record: &mut Record, number: u64, words: &Words<'_>) -> Result<bool, AllocError>
    requires { 0 < length words.now }
{
    let kind = words.at(0);
    if number == 1 {
        return Ok(kind == b"parts".as_slice() && take_count(record, words));
    }
    match words.len() {
        4 if kind == b"text".as_slice() => take_text(record, words),
        3 if kind == b"set".as_slice() => take_set(record, words),
        _ => Ok(false),
    }
}

fn take_count(record: &mut Record, words: &Words<'_>) -> bool {
    if words.len() != 2 {
        return false;
    }
    match read_count(words.at(1)) {
        Ok(count) if count >= 1 && count <= MOST_PARTS => {
            record.parts = count;
            true
        }
        _ => false,
    }
}

fn take_text(record: &mut Record, words: &Words<'_>) -> Result<bool, AllocError>
    requires { length words.now ≡ 4 }
{
    match text_on(words) {
        Some(text) if text.part < record.parts => {
            record.texts.push(text)?;
            Ok(true)
        }
        _ => Ok(false),
    }
}

fn text_on(words: &Words<'_>) -> Option<TextNote>
    requires { length words.now ≡ 4 }
{
    let part = read_count(words.at(1)).ok()?;
    let commands = read_count(words.at(2)).ok()?;
    let jobs = read_count(words.at(3)).ok()?;
    Some(TextNote {
        part,
        commands,
        jobs,
    })
}

fn take_set(record: &mut Record, words: &Words<'_>) -> Result<bool, AllocError>
    requires { length words.now ≡ 3 }
{
    match set_on(words) {
        Some(set) if set.part < record.parts => {
            record.sets.push(set)?;
            Ok(true)
        }
        _ => Ok(false),
    }
}

fn set_on(words: &Words<'_>) -> Option<SetNote>
    requires { length words.now ≡ 3 }
{
    let part = read_count(words.at(1)).ok()?;
    let name = read_name(words.at(2)).ok()?;
    Some(SetNote { part, name })
}
