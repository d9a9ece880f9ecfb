//! A review of a deck, line by line. It goes on behind a line that is refused: that is read once more where its card leads to.

use crate::catalogue::{Due, SetHead};
use deck_lines::{DeckError, MOST_LINE_CHARACTERS};
use deck_lint::{Detail, JobCards, NO_COLUMN, Reporter, SourceSpan, is_line_code};
use deck_syntax::{StreamReader, first_line};
use mon_acl::{Acl, AclError};
use mon_catalogue::Version;
use mon_device::{Sink, TextSink, print_number};
use mon_text::{Name, Stop};
use std::alloc::{AllocError, Global};

/// Which part of a deck the next line belongs to.
#[derive(Clone, Copy)]
pub(crate) enum Part {
    /// `$ACCOUNTS` is due.
    Opening,
    /// An account, or `$CATALOGUE`.
    Accounts,
    /// The catalogue, or `$STREAM`.
    Catalogue(Version),
    /// The stream.
    Stream,
    /// Nothing: `$STOP` came.
    Ended,
}

/// What is told of all that an account submits, a text whose lines are not too long.
///
/// # Errors
///
/// Where a growth was refused.
pub fn review_submission(
    alloc: Global,
    detail: Detail,
    own: &Name,
    text: &[u8],
) -> Result<Reporter, AllocError> {
    let mut review = Review::of_submission(alloc, detail, own)?;
    review.take_lines(text)?;
    review.finish()?;
    Ok(review.reporter)
}

/// A review of a deck. Each of its methods has an error where a growth was refused; the review is then of no use.
#[derive(Drop)]
pub struct Review {
    /// What is known of the deck, and what is told.
    pub reporter: Reporter,
    pub(crate) part: Part,
    /// What is due in the catalogue.
    pub(crate) due: Due,
    /// The data set whose card was the last.
    pub(crate) last: Option<SetHead>,
    /// What is open in the stream.
    pub(crate) reader: StreamReader,
    /// Where the cards stand of the job that is open.
    pub(crate) cards: JobCards,
}

impl Review {
    /// The start of a review, of which so much is told.
    pub fn new(alloc: Global, detail: Detail) -> Review {
        Review {
            reporter: Reporter::new(alloc, detail),
            part: Part::Opening,
            due: Due::Set,
            last: None,
            reader: StreamReader::Cards,
            cards: JobCards::new(0, Vec::new(alloc), true),
        }
    }

    /// The start of a review of what an account submits: a part of a deck's stream. All its cards are to name that account.
    pub fn of_submission(alloc: Global, detail: Detail, own: &Name) -> Result<Review, AllocError> {
        let mut line = Vec::from_slice(alloc, own.as_bytes())?;
        line.extend_from_slice(b" users")?;
        let mut review = Review::new(alloc, detail);
        review.take_account_line(&line)?;
        review.reporter.is_submission = true;
        review.part = Part::Stream;
        Ok(review)
    }

    // Takes all lines of a text.
    fn take_lines(&mut self, text: &[u8]) -> Result<(), AllocError> {
        let mut rest = text;
        for _ in 0..text.len() {
            if rest.is_empty() {
                break;
            }
            let (line, behind) = first_line(rest);
            self.take_line(line)?;
            rest = behind;
        }
        Ok(())
    }

    /// Takes a line.
    pub fn take_line(&mut self, text: &[u8]) -> Result<(), AllocError> {
        self.reporter.line = self.reporter.line.saturating_add(1);
        let is_read = self.read_line(text)?;
        if !is_read && self.goes_on_at(text) {
            self.read_line(text)?;
        }
        Ok(())
    }

    // Takes a line where it stands: whether it was read there. Else it is refused there, and may be read elsewhere.
    fn read_line(&mut self, text: &[u8]) -> Result<bool, AllocError> {
        match self.part {
            Part::Opening => self.take_opening_line(text),
            Part::Accounts => self.take_account_line(text),
            Part::Catalogue(version) => self.take_catalogue_line(version, text),
            Part::Stream => self.take_stream_line(text),
            Part::Ended => Ok(true),
        }
    }

    /// All lines were taken. A deck is whole only behind `$STOP`, and a submission where no job and no list is open.
    pub fn finish(&mut self) -> Result<(), AllocError> {
        if let Some(what) = self.end_lacking() {
            self.end_body()?;
            let line = self.reporter.line.saturating_add(1);
            let spot = SourceSpan::on_line(line, b"", NO_COLUMN);
            self.reporter.mistake(spot, &[what.as_bytes()])?;
            if let (Part::Catalogue(_), Due::List(_) | Due::Records(_)) = (self.part, self.due) {
                self.put_head(b"    in data set ")?;
            }
        }
        self.put_tally()
    }

    // What is told of the end, where it comes too early.
    fn end_lacking(&self) -> Option<&'static str> {
        if !self.reporter.is_submission {
            return match self.part {
                Part::Ended => None,
                _ => Some("E4 TRUNCATED: the deck ends before its $STOP"),
            };
        }
        match &self.reader {
            StreamReader::Cards => None,
            StreamReader::Job(_) => Some("I3 UNFINISHED: it ends before the $EOJ of a job"),
            StreamReader::List(_) => Some("I3 UNFINISHED: it ends before the $ENDACL of a list"),
        }
    }

    fn put_tally(&mut self) -> Result<(), AllocError> {
        if self.reporter.detail == Detail::Mistakes {
            return Ok(());
        }
        let tally = self.reporter.tally;
        let mut sink = TextSink::new(&mut self.reporter.out);
        sink.put(b"MISTAKES");
        print_number(tally.mistakes, &mut sink);
        sink.put(b" WARNINGS");
        print_number(tally.warnings, &mut sink);
        sink.put(b"\n");
        sink.settle()
    }

    // Tells why a line outside the catalogue is refused: whether it is read nowhere else for this.
    pub(crate) fn refuse(
        &mut self,
        stop: Stop<DeckError>,
        text: &[u8],
    ) -> Result<bool, AllocError> {
        match stop {
            Stop::Refused(code) => {
                self.reporter.refuse(code, text, MOST_LINE_CHARACTERS)?;
                Ok(is_line_code(code))
            }
            Stop::Memory => Err(AllocError),
        }
    }

    // Tells why a text is no permission list, if it is none: whether it is none.
    pub(crate) fn tell_list(
        &mut self,
        read: Result<Acl, Stop<AclError>>,
        text: &[u8],
        column: u64,
    ) -> Result<bool, AllocError> {
        match read {
            Ok(_acl) => Ok(false),
            Err(Stop::Refused(error)) => {
                self.reporter.refuse_list(error, text, column)?;
                Ok(true)
            }
            Err(Stop::Memory) => Err(AllocError),
        }
    }
}
