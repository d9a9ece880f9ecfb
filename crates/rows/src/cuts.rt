//! A deck that is cut anywhere, or whose reader fails there: what the whole lines before that print is out, and no more.
ghost use Rattle.std.specs.Prelude.{◌<◌};

use crate::run::{Run, run_of};
use deck_run::{DeckFeed, MemReader, NoAudit, Options, RunError};
use mon_device::TextSink;
use mon_monitor::Printed;
use std::alloc::{AllocError, Global};

/// About how many bytes the cuts of one deck have together, at which it is run. A deck of up to 1,731 bytes is run cut at each
/// of them, a longer one at as many places as this allows, and at its end, where no read but the last can fail; what is out
/// behind each byte is looked at of every deck.
const MOST_CUT_BYTES: usize = 1_500_000;

/// More bytes than any deck has here, and fewer than a feed may be given.
const MANY_BYTES: u64 = 4_294_967_296;

/// A deck that is cut, and what a run of the whole of it shows.
#[derive(Drop)]
struct Tried<'a> {
    alloc: Global,
    deck: &'a [u8],
    options: Options,
    whole: Run,
}

/// The place of the first cut at which a run shows something else than it must, if there is one.
pub fn first_bad_cut(alloc: Global, deck: &[u8], options: Options) -> Option<usize> {
    let Ok(whole) = run_of(alloc, MemReader::new(deck), usize::MAX, options) else {
        return Some(0);
    };
    let tried = Tried {
        alloc,
        deck,
        options,
        whole,
    };
    match tried.first_bad_byte() {
        Some(end) => Some(end),
        None => tried.first_bad_end(),
    }
}

impl Tried<'_> {
    // The place of the first byte behind which a deck that is fed byte by byte shows something else than it must, or does not come
    // out as it did as a whole.
    fn first_bad_byte(&self) -> Option<usize> {
        let Ok(mut printed) = Printed::new(self.alloc) else {
            return Some(0);
        };
        let mut feed = DeckFeed::new(self.alloc, self.options);
        let mut out = Vec::new(self.alloc);
        if let Err(end) = self.feed_all(&mut feed, &mut printed, &mut out) {
            return end;
        }
        let outcome = feed.finish(self.alloc, &mut printed, &mut NoAudit);
        if gather(&mut printed, &mut out).is_ok() && self.whole.came_out(&outcome, &out) {
            return None;
        }
        Some(self.deck.len())
    }

    // Feeds all bytes: something is printed only where a line ends, and all of it is what the whole run wrote. An error has the byte
    // behind which something else was shown; or none, where the deck came out before its end as it did as a whole.
    fn feed_all(
        &self,
        feed: &mut DeckFeed,
        printed: &mut Printed,
        out: &mut Vec<u8>,
    ) -> Result<(), Option<usize>> {
        for at in 0..self.deck.len() {
            let before = out.len();
            match feed_byte(self.alloc, feed, self.deck[at], printed, out) {
                Ok(fed) => {
                    let due = match self.deck[at] {
                        b'\n' => self.whole.output.get(before..out.len()),
                        _ => Some(b"".as_slice()),
                    };
                    if fed != at as u64 + 1 || out.get(before..) != due {
                        return Err(Some(at));
                    }
                }
                Err(error) => {
                    let is_as_whole = self.whole.came_out(&Err(error), out);
                    return Err(if is_as_whole { None } else { Some(at) });
                }
            }
        }
        Ok(())
    }

    fn first_bad_end(&self) -> Option<usize> {
        let length = self.deck.len();
        let step = (length.saturating_mul(length) / MOST_CUT_BYTES).max(1);
        for end in 0..=length {
            let is_cut = end % step == 0 || end == length;
            if is_cut && !matches!(self.shows_what_is_due(end), Ok(true)) {
                return Some(end);
            }
        }
        None
    }

    // Whether runs of a deck that is cut there, or whose read fails there, show what they must: its whole lines are all that counts in
    // it, or it goes on behind them, and what they print is the beginning of what the deck does.
    fn shows_what_is_due(&self, end: usize) -> Result<bool, AllocError> {
        let cut = &self.deck[..end.min(self.deck.len())];
        let lines = match cut.iter().rposition(|byte| *byte == b'\n') {
            Some(last) => &cut[..last + 1],
            None => b"".as_slice(),
        };
        let count = lines.iter().filter(|byte| **byte == b'\n').count() as u64;
        let line = count.saturating_add(1);
        let due = run_of(self.alloc, MemReader::new(lines), usize::MAX, self.options)?;
        let is_begun = self.whole.came_out(&due.outcome, &due.output)
            || due.is_cut_in(line) && self.whole.output.starts_with(&due.output);
        Ok(
            is_begun
                && self.ends_there(cut, &due, line)?
                && self.fails_there(end, 1, &due, line)?
                && self.fails_there(end, 7, &due, line)?,
        )
    }

    // Whether the deck that ends there is refused in the line of the cut, or behind it, or ends with `$STOP`.
    fn ends_there(&self, cut: &[u8], due: &Run, line: u64) -> Result<bool, AllocError> {
        let seen = run_of(self.alloc, MemReader::new(cut), usize::MAX, self.options)?;
        if !due.is_cut_in(line) {
            return Ok(seen.came_out(&due.outcome, &due.output));
        }
        if matches!(seen.outcome, Err(RunError::DeckRefused(at, _)) if at == line) {
            return Ok(seen.output.as_slice() == due.output.as_slice());
        }
        let is_stopped = seen.outcome.is_ok() && cut.trim_ascii_end().ends_with(b"$STOP");
        Ok(
            (seen.is_cut_in(line.saturating_add(1)) || is_stopped)
                && seen.output.starts_with(&due.output),
        )
    }

    // Whether what is due is out where reads give so many bytes, and the one fails that would give what stands there. The read fault
    // is told, unless the deck was refused before.
    fn fails_there(&self, end: usize, most: usize, due: &Run, line: u64) -> Result<bool, AllocError>
        requires { 0 < most }
    {
        if end % most != 0 {
            return Ok(true);
        }
        let reader = MemReader::failing_at(self.deck, most, (end / most) as u64);
        let seen = run_of(self.alloc, reader, usize::MAX, self.options)?;
        if matches!(due.outcome, Err(RunError::DeckRefused(..))) && !due.is_cut_in(line) {
            return Ok(seen.came_out(&due.outcome, &due.output));
        }
        Ok(
            matches!(seen.outcome, Err(RunError::ReadFault))
                && seen.output.as_slice() == due.output.as_slice(),
        )
    }
}

// Feeds a byte: how many were fed then. What is printed is appended.
fn feed_byte(
    alloc: Global,
    feed: &mut DeckFeed,
    byte: u8,
    printed: &mut Printed,
    out: &mut Vec<u8>,
) -> Result<u64, RunError> {
    if feed.fed() < MANY_BYTES {
        feed.feed(alloc, &[byte], printed, &mut NoAudit)?;
        gather(printed, out)?;
    }
    Ok(feed.fed())
}

// Appends what is printed to a text, and forgets it.
fn gather(printed: &mut Printed, out: &mut Vec<u8>) -> Result<(), AllocError> {
    let mut sink = TextSink::new(out);
    printed.print(&mut sink);
    sink.settle()?;
    printed.clear();
    Ok(())
}
