//! A review from one stream to another.

use crate::options::Listing;
use access_report::Fault;
use deck_review::{Review, Tally};
use mon_device::READ_SIZE;
use mon_device::streams::MOST_ATTEMPTS;
use mon_text::LineFeed;
use std::alloc::{AllocError, Global};
use std::io::{ErrorKind, Read, Write};

/// Reviews the deck or submission that comes from one stream, and writes to another what is told of it: how much was found.
///
/// # Errors
///
/// Where the reader or the writer failed, or a growth was refused. A beginning may have been written then.
pub fn review_streams<R: Read, W: Write>(
    alloc: Global,
    listing: &Listing,
    input: &mut R,
    output: &mut W,
) -> Result<Tally, Fault> {
    let mut review = match &listing.own {
        None => Review::new(alloc, listing.detail),
        Some(own) => Review::of_submission(alloc, listing.detail, own)?,
    };
    review_input(alloc, &mut review, input, output)?;
    review.finish()?;
    write_out(output, &mut review.reporter.out)?;
    Ok(review.reporter.tally)
}

// Reviews what comes, up to the end of the stream.
fn review_input<R: Read, W: Write>(
    alloc: Global,
    review: &mut Review,
    input: &mut R,
    output: &mut W,
) -> Result<(), Fault> {
    let mut feed = LineFeed::new(alloc);
    let mut buffer = vec![in alloc; 0; READ_SIZE]?;
    for _ in 0..u64::MAX {
        let count = read_piece(input, &mut buffer)?;
        if count == 0 {
            break;
        }
        if let Some(piece) = buffer.get(..count) {
            review_piece(review, &mut feed, piece)?;
        }
        write_out(output, &mut review.reporter.out)?;
    }
    let rest = feed.rest();
    if !rest.is_empty() {
        review.take_line(&rest)?;
    }
    Ok(())
}

// Reviews the lines that are whole by these bytes.
fn review_piece(review: &mut Review, feed: &mut LineFeed, piece: &[u8]) -> Result<(), AllocError> {
    let mut rest = piece;
    for _ in 0..piece.len() {
        let (used, line) = feed.take(rest)?;
        if let Some(line) = line {
            review.take_line(line.text())?;
        }
        rest = match rest.get(used..) {
            Some(behind) if !behind.is_empty() => behind,
            _ => return Ok(()),
        };
    }
    Ok(())
}

// Reads some bytes: how many; none at the end.
fn read_piece<R: Read>(input: &mut R, buffer: &mut [u8]) -> Result<usize, Fault> {
    for _ in 0..MOST_ATTEMPTS {
        match input.read(buffer) {
            Ok(count) => return Ok(count),
            Err(error) if error.kind() == ErrorKind::Interrupted => {}
            Err(_) => break,
        }
    }
    Err(Fault::ReadFault)
}

// Writes what was gathered, and gathers anew.
fn write_out<W: Write>(output: &mut W, out: &mut Vec<u8>) -> Result<(), Fault> {
    if output.write_all(out.as_slice()).is_err() {
        return Err(Fault::WriteFault);
    }
    out.clear();
    Ok(())
}
