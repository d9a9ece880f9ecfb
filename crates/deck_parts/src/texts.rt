//! The stream of a deck, cut into its texts.
ghost use Rattle.std.specs.Prelude.{◌≡◌, ◌↔◌, ◌++◌, ◌<◌, ◌≤◌, true, length, codes, IfOk, IfSome, OnOk};
ghost use Rattle.deck_parts.specs.Wholes.{texts_text, AtLineEnd, IsBefore, IsEnded, IsSettled};

use crate::deck::Uncut;
use crate::pieces::first_piece;
use deck_syntax::{Event, StreamReader, first_line};
use mon_text::{Name, Stop, read_name};
use preflight::{Submission, examine};
use std::alloc::{AllocError, Global};

/// The card behind each text.
pub(crate) const FENCE: &[u8] = b"$DRAIN\n";

/// The card that ends a deck.
const STOP: &[u8] = b"$STOP";

/// What stands in a stream before the card `$STOP`, with a fence at its end; nothing, where that card isn't there.
#[tactic(auto, using(crate::proofs::Apart::settles))]
pub(crate) fn settled(alloc: Global, stream: &[u8]) -> Result<Option<Vec<u8>>, AllocError>
    ensures { IfOk result (λ found. IfSome found (λ settled. IsSettled stream.now settled.items)) }
{
    let Some(before) = before_stop(stream) else {
        return Ok(None);
    };
    let text = fenced(alloc, before)?;
    Ok(Some(text))
}

// What stands before the first line that begins as the card `$STOP` does, where that line is the card and no more.
#[tactic(auto, using(crate::proofs::Apart::stands_before))]
fn before_stop(stream: &[u8]) -> Option<&[u8]>
    ensures { IfSome result (λ before. IsBefore stream.now before.now) }
{
    let (before, rest) = stream.split_at(place_of(stream, STOP));
    match rest.strip_prefix(STOP) {
        Some(behind) if is_at_line_end(behind) => Some(before),
        _ => None,
    }
}

// Whether a line ends here.
fn is_at_line_end(rest: &[u8]) -> bool
    ensures { result ≡ true ↔ AtLineEnd rest.now }
{
    match rest.first() {
        Some(byte) => *byte == b'\n',
        None => true,
    }
}

// A text with a fence at its end.
fn fenced(alloc: Global, before: &[u8]) -> Result<Vec<u8>, AllocError>
    ensures { IfOk result (λ text. IsEnded before.now text.items) }
{
    let mut text = Vec::from_slice(alloc, before)?;
    end_by_fence(&mut text)?;
    Ok(text)
}

// A fence at the end of a text, unless one stands there.
fn end_by_fence(text: &mut Vec<u8>) -> Result<(), AllocError>
    ensures { OnOk result (IsEnded text.old.items text.new.items) }
{
    if text.ends_with(FENCE) {
        return Ok(());
    }
    text.extend_from_slice(FENCE)
}

// Where the first line stands that begins so; the end, if none does.
fn place_of(text: &[u8], word: &[u8]) -> usize
    ensures { result ≤ length text.now }
{
    let mut rest = text;
    for _ in 0..text.len() {
        if rest.is_empty() || rest.starts_with(word) {
            break;
        }
        let (_, behind) = first_piece(rest);
        rest = behind;
    }
    text.len().saturating_sub(rest.len())
}

/// The texts of a stream that has a fence behind each.
pub(crate) fn texts_in(alloc: Global, stream: &[u8]) -> Result<Vec<Submission>, Stop<Uncut>>
    ensures { IfOk result (λ texts. texts_text texts.items ≡ stream.now) }
{
    let mut texts = Vec::new(alloc);
    let mut rest = stream;
    'texts: while !rest.is_empty() {
        rest = take_text(alloc, &mut texts, rest)?;
    }
    Ok(texts)
}

// Takes the first text.
fn take_text<'a>(
    alloc: Global,
    texts: &mut Vec<Submission>,
    stream: &'a [u8],
) -> Result<&'a [u8], Stop<Uncut>>
    ensures parts { IfOk result (λ rest. texts_text texts.new.items ++ rest.now ≡ texts_text texts.old.items ++ stream.now) }
    ensures less { IfOk result (λ rest. length rest.now < length stream.now) }
{
    let Some((text, behind)) = first_text(stream) else {
        return Err(Stop::Refused(Uncut::Form));
    };
    let number = texts.len() as u64 + 1;
    let submission = examined(alloc, number, text)?;
    match texts.push(submission) {
        Ok(()) => Ok(behind),
        Err(_) => Err(Stop::Memory),
    }
}

// The first text of a stream, and what stands behind its fence.
fn first_text(stream: &[u8]) -> Option<(&[u8], &[u8])>
    ensures parts { IfSome result (λ parts. (parts.0.now ++ codes "$DRAIN\n") ++ parts.1.now ≡ stream.now) }
    ensures less { IfSome result (λ parts. length parts.1.now < length stream.now) }
{
    let (text, rest) = stream.split_at(place_of(stream, FENCE));
    match rest.strip_prefix(FENCE) {
        Some(behind) => Some((text, behind)),
        None => None,
    }
}

// The text, if the account whose cards it has may hand it in as it is.
fn examined(alloc: Global, number: u64, text: &[u8]) -> Result<Submission, Stop<Uncut>>
    ensures { IfOk result (λ submission. submission.text.items ≡ text.now) }
{
    let own = account_of(alloc, text)?;
    match examine(alloc, &own, text) {
        Ok(submission) if submission.text.as_slice() == text => Ok(submission),
        Ok(_) => Err(Stop::Refused(Uncut::Form)),
        Err(Stop::Refused(refusal)) => Err(Stop::Refused(Uncut::Text(number, refusal))),
        Err(Stop::Memory) => Err(Stop::Memory),
    }
}

// The account of the first card that has one. Where none does it is all the same.
fn account_of(alloc: Global, text: &[u8]) -> Result<Name, Stop<Uncut>> {
    let mut reader = StreamReader::Cards;
    let mut rest = text;
    'lines: while !rest.is_empty() {
        let (line, behind) = first_line(rest);
        if let Some(name) = account_on(alloc, &mut reader, line)? {
            return Ok(name);
        }
        rest = behind;
    }
    match read_name(b"nobody") {
        Ok(name) => Ok(name),
        Err(_) => Err(Stop::Refused(Uncut::Form)),
    }
}

fn account_on(
    alloc: Global,
    reader: &mut StreamReader,
    line: &[u8],
) -> Result<Option<Name>, Stop<Uncut>> {
    match reader.line(alloc, line) {
        Ok(Event::Opens(account)) => Ok(Some(account)),
        Ok(Event::Asks(command)) => Ok(Some(command.account().copy())),
        Ok(_) => Ok(None),
        Err(Stop::Refused(_)) => Ok(None),
        Err(Stop::Memory) => Err(Stop::Memory),
    }
}
