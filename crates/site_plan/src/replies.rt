//! What a user is told whose text does not run.
ghost use Rattle.std.specs.Prelude.{◌≡◌, ◌<◌, ◌≤◌, ◌++◌, [], map, take, length, position, unwrap_or, codes, IfOk, IfSome, OnOk};
ghost use Rattle.std.specs.Str.Lines.{lines};
ghost use Rattle.mon_text.specs.Characters.{is_printable, is_blank};
ghost use Rattle.site_plan.specs.Terms.{limit_name};
ghost use Rattle.site_plan.specs.Replies.{is_no_blank, is_unprintable, is_never_good, first_bad, first_word, behind_word, second_word, mark_of, shown, shown_line, mark_line, line_at, heading, refusal_text, reason_text, reply_text};

use crate::lines::put_times;
use crate::reason::Reason;
use crate::terms::limit_name;
use deck_lines::DeckError;
use deck_syntax::first_line;
use itoa::Buffer;
use mon_text::{Name, put_number};
use preflight::{Limit, Refusal, Why};
use std::alloc::{AllocError, Global};

/// How many characters of a line are shown at the most.
const MOST_SHOWN: usize = 200;

/// What a user is told whose text is refused: the file's name, as it is shown, and why. Where a line is wrong it stands there, with a
/// mark under the place.
///
/// # Errors
///
/// Where a growth was refused.
pub fn reply(
    alloc: Global,
    file: &[u8],
    account: &Name,
    reason: Reason,
    text: &[u8],
) -> Result<Vec<u8>, AllocError>
    ensures { IfOk result (λ reply. reply.items ≡ reply_text file.now account.now reason text.now) }
{
    let why = reason_for(alloc, account, reason, text)?;
    let mut reply = Vec::from_slice(alloc, b"REFUSED ")?;
    reply.extend_from_slice(file)?;
    reply.extend_from_slice(b"\n")?;
    reply.extend_from_slice(&why)?;
    Ok(reply)
}

fn reason_for(
    alloc: Global,
    account: &Name,
    reason: Reason,
    text: &[u8],
) -> Result<Vec<u8>, AllocError>
    ensures { IfOk result (λ why. why.items ≡ reason_text account.now reason text.now) }
{
    match reason {
        Reason::NotOwn => not_own(alloc, account),
        Reason::TooLong => Vec::from_slice(alloc, b"TOO LONG\n"),
        Reason::NotReadable => Vec::from_slice(alloc, b"NOT READABLE\n"),
        Reason::Memory => Vec::from_slice(alloc, b"OUT OF MEMORY\n"),
        Reason::Limit(limit, amount, allowed) => limit_broken(alloc, limit, amount, allowed),
        Reason::Line(refusal) => line_refused(alloc, refusal, line_of(refusal.line, text)),
    }
}

fn not_own(alloc: Global, account: &Name) -> Result<Vec<u8>, AllocError>
    ensures { IfOk result (λ why. why.items ≡ reason_text account.now Reason.NotOwn []) }
{
    let mut why = Vec::from_slice(alloc, b"NOT A FILE OF ")?;
    why.extend_from_slice(account.as_bytes())?;
    why.extend_from_slice(b"\n")?;
    Ok(why)
}

fn limit_broken(
    alloc: Global,
    limit: Limit,
    amount: u128,
    allowed: u64,
) -> Result<Vec<u8>, AllocError>
    ensures { IfOk result (λ why. why.items ≡ reason_text [] (Reason.Limit limit amount allowed) []) }
{
    let mut buffer = Buffer::new();
    let mut why = limit_named(alloc, limit)?;
    why.extend_from_slice(buffer.format(amount).as_bytes())?;
    why.extend_from_slice(b" of ")?;
    put_number(allowed, &mut why)?;
    why.extend_from_slice(b"\n")?;
    Ok(why)
}

fn limit_named(alloc: Global, limit: Limit) -> Result<Vec<u8>, AllocError>
    ensures { IfOk result (λ why. why.items ≡ codes "LIMIT " ++ limit_name limit ++ codes ": ") }
{
    let mut why = Vec::from_slice(alloc, b"LIMIT ")?;
    why.extend_from_slice(limit_name(limit).as_bytes())?;
    why.extend_from_slice(b": ")?;
    Ok(why)
}

// The number of a line, why it is refused, the line, and a mark under the place.
fn line_refused(alloc: Global, refusal: Refusal, line: &[u8]) -> Result<Vec<u8>, AllocError>
    ensures { IfOk result (λ why. why.items ≡ refusal_text refusal line.now) }
{
    let shown = line_shown(alloc, line)?;
    let mark = mark_at(alloc, mark_of(refusal.why, line))?;
    let mut why = heading(alloc, refusal)?;
    why.extend_from_slice(&shown)?;
    why.extend_from_slice(&mark)?;
    Ok(why)
}

fn heading(alloc: Global, refusal: Refusal) -> Result<Vec<u8>, AllocError>
    ensures { IfOk result (λ heading_. heading_.items ≡ heading refusal) }
{
    let mut words = Vec::from_slice(alloc, b"LINE ")?;
    put_number(refusal.line, &mut words)?;
    words.extend_from_slice(b": ")?;
    words.extend_from_slice(refusal.why.text().as_bytes())?;
    words.extend_from_slice(b"\n")?;
    Ok(words)
}

// The line of this number, counted from 1; an empty one behind the last.
fn line_of(number: u64, text: &[u8]) -> &[u8]
    ensures { result.now ≡ line_at number (lines text.now) }
{
    let mut left = number;
    let mut rest = text;
    'lines: while !rest.is_empty() {
        let (line, behind) = first_line(rest);
        if left <= 1 {
            return line;
        }
        left -= 1;
        rest = behind;
    }
    rest
}

// A line as it is shown, behind a blank: what is no printable character as a question mark.
fn line_shown(alloc: Global, line: &[u8]) -> Result<Vec<u8>, AllocError>
    ensures { IfOk result (λ line_. line_.items ≡ shown_line line.now) }
{
    let mut out = Vec::from_slice(alloc, b" ")?;
    put_shown(&mut out, front_of(line))?;
    out.extend_from_slice(b"\n")?;
    Ok(out)
}

// As much of a line as is shown.
fn front_of(line: &[u8]) -> &[u8]
    ensures { result.now ≡ take 200 line.now }
{
    if line.len() > MOST_SHOWN {
        &line[..MOST_SHOWN]
    } else {
        line
    }
}

fn put_shown(out: &mut Vec<u8>, line: &[u8]) -> Result<(), AllocError>
    ensures { OnOk result (out.new.items ≡ out.old.items ++ map shown line.now) }
{
    for byte in line {
        out.push(shown(*byte))?;
    }
    Ok(())
}

fn shown(byte: u8) -> u8
    ensures { result ≡ shown byte }
{
    if is_printable(byte) { byte } else { b'?' }
}

fn is_printable(byte: u8) -> bool
    ensures { result ≡ is_printable byte }
{
    (b' '..=b'~').contains(&byte)
}

// A mark under this place of a line, counted from 0.
fn mark_at(alloc: Global, place: usize) -> Result<Vec<u8>, AllocError>
    ensures { IfOk result (λ mark. mark.items ≡ mark_line place) }
{
    let mut mark = Vec::from_slice(alloc, b" ")?;
    put_times(&mut mark, b' ', place)?;
    mark.extend_from_slice(b"^\n")?;
    Ok(mark)
}

// Under which place of a line the mark stands.
fn mark_of(why: Why, line: &[u8]) -> usize
    ensures { result ≡ mark_of why line.now }
{
    match why {
        Why::Line(code) => mark_of_code(code, line),
        Why::Foreign => second_word(line),
        Why::Stops | Why::Unfinished => first_word(line),
    }
}

fn mark_of_code(code: DeckError, line: &[u8]) -> usize
    ensures { result ≡ mark_of (Why.Line code) line.now }
{
    match code {
        DeckError::BadCharacter => first_bad(line),
        DeckError::LineTooLong => MOST_SHOWN,
        _ => first_word(line),
    }
}

// Where the first character stands that may not stand there. In permission lists tabs may.
fn first_bad(line: &[u8]) -> usize
    ensures { result ≡ first_bad line.now }
{
    let unprintable = place_or(first_unprintable(line), 0);
    if line.first() == Some(&b'$') {
        unprintable
    } else {
        place_or(first_never_good(line), unprintable)
    }
}

// A place, or another where there is none.
fn place_or(place: Option<usize>, other: usize) -> usize
    ensures { result ≡ unwrap_or place other }
{
    match place {
        Some(place) => place,
        None => other,
    }
}

fn first_unprintable(line: &[u8]) -> Option<usize>
    ensures { result ≡ position is_unprintable line.now }
{
    line.iter().position(|byte| is_unprintable(*byte))
}

fn is_unprintable(byte: u8) -> bool
    ensures { result ≡ is_unprintable byte }
{
    !is_printable(byte)
}

fn first_never_good(line: &[u8]) -> Option<usize>
    ensures { result ≡ position is_never_good line.now }
{
    line.iter().position(|byte| is_never_good(*byte))
}

fn is_never_good(byte: u8) -> bool
    ensures { result ≡ is_never_good byte }
{
    is_unprintable(byte) && byte != b'\t'
}

fn first_blank(line: &[u8]) -> Option<usize>
    ensures place { result ≡ position is_blank line.now }
    ensures within { IfSome result (λ place. place < length line.now) }
{
    line.iter().position(|byte| *byte == b' ')
}

fn first_no_blank(line: &[u8]) -> Option<usize>
    ensures place { result ≡ position is_no_blank line.now }
    ensures within { IfSome result (λ place. place < length line.now) }
{
    line.iter().position(|byte| *byte != b' ')
}

// Where the first character stands that is no blank.
fn first_word(line: &[u8]) -> usize
    ensures value { result ≡ first_word line.now }
    ensures within { result ≤ length line.now }
{
    match first_no_blank(line) {
        Some(place) => place,
        None => 0,
    }
}

// Where the first word has ended.
fn behind_word(line: &[u8]) -> usize
    ensures value { result ≡ behind_word line.now }
    ensures within { result ≤ length line.now }
{
    let first = first_word(line);
    let rest = &line[first..];
    match first_blank(rest) {
        Some(place) => first + place,
        None => first + rest.len(),
    }
}

// Where the second word begins.
fn second_word(line: &[u8]) -> usize
    ensures { result ≡ second_word line.now }
{
    let behind = behind_word(line);
    let rest = &line[behind..];
    match first_no_blank(rest) {
        Some(place) => behind + place,
        None => behind + rest.len(),
    }
}
