//! The texts that wait and the answers that are owed, as a text of a checkpoint's index.
ghost use Rattle.std.specs.Prelude.{◌≡◌, map, option_map, IfOk};
ghost use Rattle.ledger_text.specs.Text.{commit_text};
ghost use Rattle.ledger_text.specs.Records.{seen as said_by};
ghost use Rattle.ledger_index.specs.Course.{seen_kept, seen_list, seen_course, kept_text, list_text, course_text};
ghost use Rattle.ledger_index.specs.Course.{kept_said, kept_of, list_in, list_of, course_in, course_of};

use crate::reading::read_number;
use itoa::Buffer;
use ledger_text::{Claimed, Record, commit_text, read_commit, read_record, record_text};
use std::alloc::{AllocError, Global};

/// A text or an answer, with its number and whose it is.
#[derive(Clone, Copy)]
pub struct Kept<'a> {
    /// Whose it is: the file that was taken.
    pub file: Claimed<'a>,
    /// The text.
    pub text: &'a [u8],
}

/// What a ledger has in memory besides its state.
#[derive(Drop)]
pub struct Course<'a> {
    /// No text has this number or a later one.
    pub next: u64,
    /// The texts that wait, the first of them first.
    pub waiting: Vec<Kept<'a>>,
    /// The answers that are not yet on the disk for good.
    pub owed: Vec<Kept<'a>>,
}

// As the ledger has it of a file that is taken.
fn kept_text(alloc: Global, one: Kept<'_>) -> Result<Vec<u8>, AllocError>
    ensures { IfOk result (λ text. text.items ≡ kept_text (seen_kept one.entry)) }
{
    record_text(alloc, 0, Record::Took(one.file, one.text))
}

fn list_texts(alloc: Global, list: &[Kept<'_>]) -> Result<Vec<Vec<u8>>, AllocError>
    ensures { IfOk result (λ texts. map (λ text. text.items) texts.items ≡ map kept_text (seen_list list.now)) }
{
    let mut texts = Vec::new(alloc);
    for one in list {
        let text = kept_text(alloc, *one)?;
        texts.push(text)?;
    }
    Ok(texts)
}

fn list_text(alloc: Global, list: &[Kept<'_>]) -> Result<Vec<u8>, AllocError>
    ensures { IfOk result (λ text. text.items ≡ list_text (seen_list list.now)) }
{
    let texts = list_texts(alloc, list)?;
    joined(alloc, &texts)
}

// The text of fields that are these.
fn joined(alloc: Global, texts: &[Vec<u8>]) -> Result<Vec<u8>, AllocError>
    ensures { IfOk result (λ text. text.items ≡ commit_text (map (λ text. text.items) texts.now)) }
{
    let mut fields = Vec::new(alloc);
    for text in texts {
        fields.push(text.as_slice())?;
    }
    commit_text(alloc, &fields)
}

/// The text of what a ledger has in memory besides its state.
///
/// # Errors
///
/// Where a growth was refused.
pub fn course_text(alloc: Global, course: &Course<'_>) -> Result<Vec<u8>, AllocError>
    ensures { IfOk result (λ text. text.items ≡ course_text (seen_course course.now)) }
{
    let waiting = list_text(alloc, &course.waiting)?;
    let owed = list_text(alloc, &course.owed)?;
    let mut digits = Buffer::new();
    let next = digits.format(course.next).as_bytes();
    commit_text(alloc, &[next, waiting.as_slice(), owed.as_slice()])
}

fn kept_said<'a>(said: Record<'a>) -> Option<Kept<'a>>
    ensures { option_map seen_kept result ≡ kept_said (said_by said.entry) }
{
    match said {
        Record::Took(file, text) => Some(Kept { file, text }),
        _ => None,
    }
}

fn kept_of<'a>(alloc: Global, field: &'a [u8]) -> Result<Option<Kept<'a>>, AllocError>
    ensures { IfOk result (λ found. option_map seen_kept found ≡ kept_of field.now) }
{
    let Some(fields) = read_commit(alloc, field)? else {
        return Ok(None);
    };
    match read_record(&fields) {
        Some(entry) => Ok(kept_said(entry.record)),
        None => Ok(None),
    }
}

fn list_in<'a>(alloc: Global, fields: &[&'a [u8]]) -> Result<Option<Vec<Kept<'a>>>, AllocError>
    ensures { IfOk result (λ found. option_map (λ list. seen_list list.items) found ≡ list_in (map (λ field. field.now) fields.now)) }
{
    let mut list = Vec::new(alloc);
    for field in fields {
        match kept_of(alloc, field)? {
            Some(one) => list.push(one)?,
            None => return Ok(None),
        }
    }
    Ok(Some(list))
}

fn list_of<'a>(alloc: Global, field: &'a [u8]) -> Result<Option<Vec<Kept<'a>>>, AllocError>
    ensures { IfOk result (λ found. option_map (λ list. seen_list list.items) found ≡ list_of field.now) }
{
    match read_commit(alloc, field)? {
        Some(fields) => list_in(alloc, &fields),
        None => Ok(None),
    }
}

fn course_in<'a>(alloc: Global, fields: &[&'a [u8]]) -> Result<Option<Course<'a>>, AllocError>
    ensures { IfOk result (λ found. option_map seen_course found ≡ course_in (map (λ field. field.now) fields.now)) }
{
    let [number, waits, owes] = fields else {
        return Ok(None);
    };
    let Some(next) = read_number(number) else {
        return Ok(None);
    };
    let Some(waiting) = list_of(alloc, waits)? else {
        return Ok(None);
    };
    match list_of(alloc, owes)? {
        Some(owed) => Ok(Some(Course {
            next,
            waiting,
            owed,
        })),
        None => Ok(None),
    }
}

/// What a ledger had in memory by a text of it; none where the text is none of that.
///
/// # Errors
///
/// Where a growth was refused.
pub fn read_course<'a>(alloc: Global, text: &'a [u8]) -> Result<Option<Course<'a>>, AllocError>
    ensures { IfOk result (λ found. option_map seen_course found ≡ course_of text.now) }
{
    match read_commit(alloc, text)? {
        Some(fields) => course_in(alloc, &fields),
        None => Ok(None),
    }
}
