//! What a round gives back: to each text its part, and then the catalogue that is left.

use crate::submissions::block::{put_line, text_of};
use crate::submissions::text::examined;
use anyhow::{Context, Result, bail, ensure};
use deck_run::{Devices, MemReader, MemWriter, Options, Shortage, Slots, run_deck};
use mon_catalogue::{Catalogue, Version, read_text};
use mon_device::TextSink;
use mon_text::read_line;
use preflight::Submission;
use rounds::{Round, RoundError, compose, compose_head, run_round};
use std::alloc::{AllocError, Global};

/// How many characters a line of the catalogue has at the most.
const MOST_CHARACTERS: usize = 5_000;

/// The parts of a round with so many slots. Of what is given the lines of accounts come first, then those of data sets, and then each
/// text, with its account.
pub fn seen_of(alloc: Global, slots: &str, given: &str) -> Result<Vec<u8>> {
    let options = options_of(slots).context("it has no slots")?;
    let (front, texts) = given.split_once("\n$OF ").context("it has no text")?;
    let texts = texts_of(alloc, texts)?;
    let round = round_of(alloc, options, front, &texts)?;
    let mut out = Vec::new(alloc);
    put_parts(&round, &texts, &mut out)?;
    Ok(out)
}

fn options_of(slots: &str) -> Option<Options> {
    let number = slots.parse::<u8>().ok()?;
    let mut options = Options::new();
    options.slots = Slots::new(number)?;
    Some(options)
}

fn texts_of(alloc: Global, given: &str) -> Result<Vec<Submission>> {
    let mut texts = Vec::new(alloc);
    for part in given.split("\n$OF ") {
        let (own, lines) = part.split_once('\n').unwrap_or((part, ""));
        let text = examined(alloc, own, lines)?
            .ok()
            .context("a text is refused")?;
        texts.push(text).map_err(AllocError::from)?;
    }
    Ok(texts)
}

// The round of these accounts and data sets, and of these texts.
fn round_of(alloc: Global, options: Options, front: &str, texts: &[Submission]) -> Result<Round> {
    let (table, sets) = front.split_once("\n$SETS").context("it has no data sets")?;
    let table = text_of(alloc, table)?;
    let catalogue = catalogue_of(alloc, sets)?;
    serve(alloc, options, &table, &catalogue, texts)
}

// The data sets of these lines, each behind a line end and a blank.
fn catalogue_of(alloc: Global, sets: &str) -> Result<Catalogue> {
    let mut lines = Vec::new(alloc);
    for line in sets.split("\n ").skip(1) {
        let line = read_line(alloc, line.as_bytes(), MOST_CHARACTERS)
            .ok()
            .context("a line of its data sets is refused")?;
        lines.push(line).map_err(AllocError::from)?;
    }
    read_text(alloc, Version::Two, &lines)
        .ok()
        .context("its data sets are refused")
}

// Runs the round, and its deck too: both have to print the same, and to tell the same of it.
fn serve(
    alloc: Global,
    options: Options,
    table: &[u8],
    catalogue: &Catalogue,
    texts: &[Submission],
) -> Result<Round> {
    let deck = compose(alloc, table, catalogue, texts)?;
    let head = compose_head(alloc, table, catalogue)?;
    let mut told = Vec::new(alloc);
    let mut audit = TextSink::new(&mut told);
    let round = match run_round(alloc, options, head, texts, &mut audit) {
        Ok(round) => round,
        Err(RoundError::Refused(line, code)) => bail!("its deck is refused at line {line}: {code}"),
        Err(RoundError::Memory { .. }) => return Err(AllocError.into()),
    };
    audit.settle()?;
    ensure!(
        prints(alloc, options, &deck, &round.output, &told)?,
        "its deck prints something else, or tells something else"
    );
    Ok(round)
}

// Whether that is what a run of the deck prints, and what it tells.
fn prints(
    alloc: Global,
    options: Options,
    deck: &[u8],
    output: &[u8],
    told: &[u8],
) -> Result<bool, AllocError> {
    let writer = MemWriter::new(alloc, output.len())?;
    let mut devices = Devices::new(MemReader::new(deck), writer);
    let mut again = Vec::new(alloc);
    let mut audit = TextSink::new(&mut again);
    let is_good = run_deck(
        alloc,
        &mut devices,
        options,
        &mut Shortage::new(),
        &mut audit,
    )
    .is_ok();
    audit.settle()?;
    Ok(is_good && devices.writer.as_bytes() == output && again.as_slice() == told)
}

fn put_parts(round: &Round, texts: &[Submission], out: &mut Vec<u8>) -> Result<(), AllocError> {
    let mut begun = 0;
    for (text, end) in texts.iter().zip(&round.ends) {
        out.extend_from_slice(b"$OF ")?;
        put_line(text.account.as_bytes(), out)?;
        put_part(&round.output, begun, *end, out)?;
        begun = *end;
    }
    put_line(b"$LEFT", out)?;
    put_part(&round.output, begun, round.output.len(), out)
}

fn put_part(output: &[u8], begun: usize, end: usize, out: &mut Vec<u8>) -> Result<(), AllocError> {
    match output.get(begun..end) {
        Some(part) => out.extend_from_slice(part),
        None => put_line(b"$NO PART", out),
    }
}
