//! A deck, taken apart: what stands before its data sets, each of them, and each text of its stream.
ghost use Rattle.std.specs.Prelude.{◌≡◌, ◌++◌, ◌<◌, length, codes, IfOk, IfSome};
ghost use Rattle.deck_parts.specs.Wholes.{sets_text, texts_text, IsSettled, IsStream, IsTakenApart};

use crate::deck::{SetText, Uncut, Whole};
use crate::pieces::{end_of_lines, first_piece};
use crate::texts::{settled, texts_in};
use deck_lines::Words;
use mon_text::{Name, Stop, read_count, read_name};
use preflight::Submission;
use std::alloc::{AllocError, Global};

/// The card of a stream.
const STREAM: &[u8] = b"$STREAM\n";

/// Takes a deck apart, whose front was read.
///
/// # Errors
///
/// Where it is not one of texts that accounts may hand in, each with a `$DRAIN` card behind it, written as a round is; `Memory` where a
/// growth was refused.
#[tactic(auto, using(crate::proofs::Apart::taken_apart))]
pub fn read_whole(alloc: Global, deck: &[u8]) -> Result<Whole, Stop<Uncut>>
    ensures { IfOk result (λ whole. IsTakenApart deck.now whole) }
{
    let mut front = Vec::new(alloc);
    let Some(catalogue) = take_front(&mut front, deck)? else {
        return Err(Stop::Refused(Uncut::Form));
    };
    let mut sets = Vec::new(alloc);
    let Some(stream) = take_sets(alloc, &mut sets, catalogue)? else {
        return Err(Stop::Refused(Uncut::Form));
    };
    let texts = read_stream(alloc, stream)?;
    Ok(Whole { front, sets, texts })
}

// The texts of a stream, from its card on.
#[tactic(auto, using(crate::proofs::Apart::stream_of))]
fn read_stream(alloc: Global, stream: &[u8]) -> Result<Vec<Submission>, Stop<Uncut>>
    ensures { IfOk result (λ texts. IsStream stream.now texts.items) }
{
    match behind_card(stream) {
        Some(cards) => read_cards(alloc, cards),
        None => Err(Stop::Refused(Uncut::Form)),
    }
}

// What is behind the card of a stream.
fn behind_card(stream: &[u8]) -> Option<&[u8]>
    ensures { IfSome result (λ cards. stream.now ≡ codes "$STREAM\n" ++ cards.now) }
{
    match stream.strip_prefix(STREAM) {
        Some(cards) => Some(cards),
        None => None,
    }
}

// The texts of these cards.
#[tactic(auto, using(crate::proofs::Apart::settled_texts))]
fn read_cards(alloc: Global, cards: &[u8]) -> Result<Vec<Submission>, Stop<Uncut>>
    ensures { IfOk result (λ texts. IsSettled cards.now (texts_text texts.items)) }
{
    match settled(alloc, cards)? {
        Some(fenced) => texts_in(alloc, &fenced),
        None => Err(Stop::Refused(Uncut::Form)),
    }
}

// The lines of a deck up to the card of its catalogue, and what is behind that.
fn take_front<'a>(front: &mut Vec<u8>, deck: &'a [u8]) -> Result<Option<&'a [u8]>, AllocError>
    ensures { IfOk result (λ found. IfSome found (λ rest. front.new.items ++ rest.now ≡ front.old.items ++ deck.now)) }
{
    let mut rest = deck;
    'lines: while !rest.is_empty() {
        let (line, behind) = first_piece(rest);
        front.extend_from_slice(line)?;
        rest = behind;
        if line.starts_with(b"$CATALOGUE") {
            return Ok(Some(rest));
        }
    }
    Ok(None)
}

// The data sets of a catalogue, and what is behind them.
fn take_sets<'a>(
    alloc: Global,
    sets: &mut Vec<SetText>,
    catalogue: &'a [u8],
) -> Result<Option<&'a [u8]>, AllocError>
    ensures { IfOk result (λ found. IfSome found (λ rest. sets_text sets.new.items ++ rest.now ≡ sets_text sets.old.items ++ catalogue.now)) }
{
    let mut rest = catalogue;
    'sets: while rest.starts_with(b"$SET ") {
        let Some((set, behind)) = first_set(alloc, rest)? else {
            return Ok(None);
        };
        sets.push(set)?;
        rest = behind;
    }
    Ok(Some(rest))
}

/// The first data set of a text, and what is behind it.
pub(crate) fn first_set(alloc: Global, text: &[u8]) -> Result<Option<(SetText, &[u8])>, AllocError>
    ensures parts { IfOk result (λ found. IfSome found (λ parts. parts.0.text.items ++ parts.1.now ≡ text.now)) }
    ensures less { IfOk result (λ found. IfSome found (λ parts. length parts.1.now < length text.now)) }
{
    let (line, _) = first_piece(text);
    let Some((name, count)) = heading(line) else {
        return Ok(None);
    };
    let Some(end) = end_of_lines(text, count.saturating_add(2)) else {
        return Ok(None);
    };
    let (own, behind) = text.split_at(end);
    if own.is_empty() {
        return Ok(None);
    }
    let text = Vec::from_slice(alloc, own)?;
    Ok(Some((SetText { name, text }, behind)))
}

// The name and the number of records of a data set, by its first line.
fn heading(line: &[u8]) -> Option<(Name, u64)> {
    let words = Words::of(line.strip_suffix(b"\n".as_slice())?);
    let count = words.len();
    if count < 3 {
        return None;
    }
    let name = read_name(words.at(1)).ok()?;
    let records = read_count(words.at(count - 1)).ok()?;
    Some((name, records))
}
