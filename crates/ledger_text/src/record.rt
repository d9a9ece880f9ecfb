//! What a commit records, and the fields that a record is made of.
ghost use Rattle.std.specs.Prelude.{◌≡◌, [], ◌∷◌, codes, decimal, map, option_map, IfOk};
ghost use Rattle.ledger_text.specs.Text.{commit_text};
ghost use Rattle.ledger_text.specs.Records.{seen, seen_at, fields_of, said_of, rest_of, count_of, tables_of, pair_of, short_of, long_of, set_of, file_of};

use crate::commit_text;
use itoa::Buffer;
use mon_text::read_count;
use std::alloc::{AllocError, Global};

/// A file that was claimed.
#[derive(Clone, Copy)]
pub struct Claimed<'a> {
    /// Its number.
    pub number: u64,
    /// The account in whose box it was.
    pub account: &'a [u8],
    /// The user of the system whose it was.
    pub uid: u64,
    /// Its name there.
    pub name: &'a [u8],
}

/// What a commit records.
#[derive(Clone, Copy)]
pub enum Record<'a> {
    /// A file was taken, and this is its text.
    Took(Claimed<'a>, &'a [u8]),
    /// A file was refused, and this is the reply.
    Refused(Claimed<'a>, &'a [u8]),
    /// The text of a number ran, and printed this.
    Ran(u64, &'a [u8]),
    /// The lines of its audit.
    Audit(u64, &'a [u8]),
    /// It left a set as it was but for the records behind the first so many.
    Keep(u64, &'a [u8], u64, &'a [u8]),
    /// It left a set with this head and these records.
    Set(u64, &'a [u8], &'a [u8], &'a [u8]),
    /// It left no set of this name.
    Gone(u64, &'a [u8]),
    /// It was dropped for this reason, with this reply, and left everything as it was.
    Dropped(u64, &'a [u8], &'a [u8]),
    /// The answers from one number to another are on the disk.
    Gave(u64, u64),
    /// The tables of the operator.
    Tables(&'a [u8]),
    /// A checkpoint of the state behind so many commits stands, with this digest.
    Checked(u64, &'a [u8]),
    /// The operator did this.
    Edit(&'a [u8], &'a [u8]),
}

/// A record, and when it was made.
#[derive(Clone, Copy)]
pub struct Entry<'a> {
    /// Seconds since the beginning of 1970, UTC.
    pub time: u64,
    /// What it says.
    pub record: Record<'a>,
}

// What the fields of a record begin with.
#[derive(Clone, Copy)]
struct Head<'a> {
    kind: &'a [u8],
    time: u64,
    number: u64,
}

/// The text of a record that is made at this time.
///
/// # Errors
///
/// Where a growth was refused.
pub fn record_text(alloc: Global, time: u64, said: Record<'_>) -> Result<Vec<u8>, AllocError>
    ensures { IfOk result (λ text. text.items ≡ commit_text (fields_of time (seen said.entry))) }
{
    match said {
        Record::Took(file, text) => file_text(alloc, b"TOOK".as_slice(), time, file, text),
        Record::Refused(file, reply) => file_text(alloc, b"REFUSED".as_slice(), time, file, reply),
        Record::Ran(number, printout) => short_text(
            alloc,
            Head {
                kind: b"RAN".as_slice(),
                time,
                number,
            },
            printout,
        ),
        Record::Audit(number, lines) => short_text(
            alloc,
            Head {
                kind: b"AUDIT".as_slice(),
                time,
                number,
            },
            lines,
        ),
        Record::Keep(number, set, first, records) => keep_text(
            alloc,
            Head {
                kind: b"KEEP".as_slice(),
                time,
                number,
            },
            set,
            first,
            records,
        ),
        Record::Set(number, set, words, records) => set_text(
            alloc,
            Head {
                kind: b"SET".as_slice(),
                time,
                number,
            },
            set,
            words,
            records,
        ),
        Record::Gone(number, set) => short_text(
            alloc,
            Head {
                kind: b"GONE".as_slice(),
                time,
                number,
            },
            set,
        ),
        Record::Dropped(number, reason, reply) => long_text(
            alloc,
            Head {
                kind: b"DROPPED".as_slice(),
                time,
                number,
            },
            reason,
            reply,
        ),
        Record::Gave(first, last) => gave_text(
            alloc,
            Head {
                kind: b"GAVE".as_slice(),
                time,
                number: first,
            },
            last,
        ),
        Record::Tables(tables) => tables_text(alloc, time, tables),
        Record::Checked(count, digest) => short_text(
            alloc,
            Head {
                kind: b"CHECKED".as_slice(),
                time,
                number: count,
            },
            digest,
        ),
        Record::Edit(who, act) => edit_text(alloc, time, who, act),
    }
}

fn tables_text(alloc: Global, time: u64, tables: &[u8]) -> Result<Vec<u8>, AllocError>
    ensures { IfOk result (λ text. text.items ≡ commit_text (codes "TABLES" ∷ decimal time ∷ tables.now ∷ [])) }
{
    let mut digits = Buffer::new();
    commit_text(
        alloc,
        &[b"TABLES".as_slice(), digits.format(time).as_bytes(), tables],
    )
}

fn edit_text<'a>(
    alloc: Global,
    time: u64,
    who: &'a [u8],
    act: &'a [u8],
) -> Result<Vec<u8>, AllocError>
    ensures { IfOk result (λ text. text.items ≡ commit_text (codes "EDIT" ∷ decimal time ∷ who.now ∷ act.now ∷ [])) }
{
    let mut digits = Buffer::new();
    commit_text(
        alloc,
        &[b"EDIT".as_slice(), digits.format(time).as_bytes(), who, act],
    )
}

fn short_text<'a>(alloc: Global, head: Head<'a>, body: &'a [u8]) -> Result<Vec<u8>, AllocError>
    ensures { IfOk result (λ text. text.items
        ≡ commit_text (head.entry.kind.now ∷ decimal head.entry.time ∷ decimal head.entry.number ∷ body.now ∷ [])) }
{
    let mut times = Buffer::new();
    let mut digits = Buffer::new();
    let time = times.format(head.time).as_bytes();
    let number = digits.format(head.number).as_bytes();
    commit_text(alloc, &[head.kind, time, number, body])
}

fn gave_text(alloc: Global, head: Head<'_>, last: u64) -> Result<Vec<u8>, AllocError>
    ensures { IfOk result (λ text. text.items
        ≡ commit_text (head.entry.kind.now ∷ decimal head.entry.time ∷ decimal head.entry.number ∷ decimal last ∷ [])) }
{
    let mut digits = Buffer::new();
    short_text(alloc, head, digits.format(last).as_bytes())
}

fn long_text<'a>(
    alloc: Global,
    head: Head<'a>,
    one: &'a [u8],
    body: &'a [u8],
) -> Result<Vec<u8>, AllocError>
    ensures { IfOk result (λ text. text.items
        ≡ commit_text (head.entry.kind.now ∷ decimal head.entry.time ∷ decimal head.entry.number ∷ one.now ∷ body.now ∷ [])) }
{
    let mut times = Buffer::new();
    let mut digits = Buffer::new();
    let time = times.format(head.time).as_bytes();
    let number = digits.format(head.number).as_bytes();
    commit_text(alloc, &[head.kind, time, number, one, body])
}

fn set_text<'a>(
    alloc: Global,
    head: Head<'a>,
    set: &'a [u8],
    one: &'a [u8],
    records: &'a [u8],
) -> Result<Vec<u8>, AllocError>
    ensures { IfOk result (λ text. text.items
        ≡ commit_text (head.entry.kind.now ∷ decimal head.entry.time ∷ decimal head.entry.number ∷ set.now ∷ one.now ∷ records.now ∷ [])) }
{
    let mut times = Buffer::new();
    let mut digits = Buffer::new();
    let time = times.format(head.time).as_bytes();
    let number = digits.format(head.number).as_bytes();
    commit_text(alloc, &[head.kind, time, number, set, one, records])
}

fn keep_text(
    alloc: Global,
    head: Head<'_>,
    set: &[u8],
    first: u64,
    records: &[u8],
) -> Result<Vec<u8>, AllocError>
    ensures { IfOk result (λ text. text.items
        ≡ commit_text (head.entry.kind.now ∷ decimal head.entry.time ∷ decimal head.entry.number ∷ set.now ∷ decimal first ∷ records.now ∷ [])) }
{
    let mut digits = Buffer::new();
    set_text(alloc, head, set, digits.format(first).as_bytes(), records)
}

fn file_text<'a>(
    alloc: Global,
    kind: &'a [u8],
    time: u64,
    file: Claimed<'a>,
    body: &'a [u8],
) -> Result<Vec<u8>, AllocError>
    ensures { IfOk result (λ text. text.items ≡ commit_text (kind.now ∷ decimal time ∷ decimal file.entry.number
        ∷ file.entry.account.now ∷ decimal file.entry.uid ∷ file.entry.name.now ∷ body.now ∷ [])) }
{
    let mut times = Buffer::new();
    let mut digits = Buffer::new();
    let mut others = Buffer::new();
    let time = times.format(time).as_bytes();
    let number = digits.format(file.number).as_bytes();
    let uid = others.format(file.uid).as_bytes();
    commit_text(
        alloc,
        &[kind, time, number, file.account, uid, file.name, body],
    )
}

/// The record that these fields make, and its time; none where they make none.
pub fn read_record<'a>(fields: &[&'a [u8]]) -> Option<Entry<'a>>
    ensures { option_map seen_at result ≡ said_of (map (λ field. field.now) fields.now) }
{
    let [kind, time, rest @ ..] = fields else {
        return None;
    };
    let time = read_number(time)?;
    let record = read_rest(kind, rest)?;
    Some(Entry { time, record })
}

// What is said by the fields behind the kind and the time.
fn read_rest<'a>(kind: &[u8], fields: &[&'a [u8]]) -> Option<Record<'a>>
    ensures { option_map seen result ≡ rest_of kind.now (map (λ field. field.now) fields.now) }
{
    match fields {
        [body] => read_tables(kind, body),
        [one, body] => read_pair(kind, one, body),
        [number, one, body] => match read_number(number) {
            Some(number) => read_long(kind, number, one, body),
            None => None,
        },
        [number, set, one, body] => match read_number(number) {
            Some(number) => read_set(kind, number, set, one, body),
            None => None,
        },
        [number, account, uid, name, body] => match read_number(number) {
            Some(number) => read_file(kind, number, account, uid, name, body),
            None => None,
        },
        _ => None,
    }
}

fn read_pair<'a>(kind: &[u8], one: &'a [u8], body: &'a [u8]) -> Option<Record<'a>>
    ensures { option_map seen result ≡ pair_of kind.now one.now body.now }
{
    if kind == b"EDIT".as_slice() {
        return Some(Record::Edit(one, body));
    }
    match read_number(one) {
        Some(number) => read_short(kind, number, body),
        None => None,
    }
}

fn read_number(text: &[u8]) -> Option<u64>
    ensures { result ≡ count_of text.now }
{
    match read_count(text) {
        Ok(count) => Some(count),
        Err(_) => None,
    }
}

fn read_tables<'a>(kind: &[u8], body: &'a [u8]) -> Option<Record<'a>>
    ensures { option_map seen result ≡ tables_of kind.now body.now }
{
    if kind == b"TABLES".as_slice() {
        Some(Record::Tables(body))
    } else {
        None
    }
}

fn read_short<'a>(kind: &[u8], number: u64, body: &'a [u8]) -> Option<Record<'a>>
    ensures { option_map seen result ≡ short_of kind.now number body.now }
{
    if kind == b"RAN".as_slice() {
        Some(Record::Ran(number, body))
    } else if kind == b"AUDIT".as_slice() {
        Some(Record::Audit(number, body))
    } else if kind == b"GONE".as_slice() {
        Some(Record::Gone(number, body))
    } else if kind == b"CHECKED".as_slice() {
        Some(Record::Checked(number, body))
    } else if kind == b"GAVE".as_slice() {
        match read_number(body) {
            Some(last) => Some(Record::Gave(number, last)),
            None => None,
        }
    } else {
        None
    }
}

fn read_long<'a>(kind: &[u8], number: u64, one: &'a [u8], body: &'a [u8]) -> Option<Record<'a>>
    ensures { option_map seen result ≡ long_of kind.now number one.now body.now }
{
    if kind == b"DROPPED".as_slice() {
        Some(Record::Dropped(number, one, body))
    } else {
        None
    }
}

fn read_set<'a>(
    kind: &[u8],
    number: u64,
    set: &'a [u8],
    one: &'a [u8],
    body: &'a [u8],
) -> Option<Record<'a>>
    ensures { option_map seen result ≡ set_of kind.now number set.now one.now body.now }
{
    if kind == b"SET".as_slice() {
        Some(Record::Set(number, set, one, body))
    } else if kind == b"KEEP".as_slice() {
        match read_number(one) {
            Some(first) => Some(Record::Keep(number, set, first, body)),
            None => None,
        }
    } else {
        None
    }
}

fn read_file<'a>(
    kind: &[u8],
    number: u64,
    account: &'a [u8],
    uid: &[u8],
    name: &'a [u8],
    body: &'a [u8],
) -> Option<Record<'a>>
    ensures { option_map seen result ≡ file_of kind.now number account.now uid.now name.now body.now }
{
    let Some(uid) = read_number(uid) else {
        return None;
    };
    let file = Claimed {
        number,
        account,
        uid,
        name,
    };
    if kind == b"TOOK".as_slice() {
        Some(Record::Took(file, body))
    } else if kind == b"REFUSED".as_slice() {
        Some(Record::Refused(file, body))
    } else {
        None
    }
}
