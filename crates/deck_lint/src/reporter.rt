//! What a review knows of the deck so far, and what it tells: mistakes and warnings, each with where it is, what it is, the text,
//! and a caret under the column.

use crate::advice::cause_of;
use crate::column::{column_of, word_column};
use acl_text::print_list_refusal;
use deck_lines::DeckError;
use mon_access::Accounts;
use mon_acl::AclError;
use mon_device::{Sink, TextSink, print_number};
use mon_text::Name;
use std::alloc::{AllocError, Global};

/// How many characters of a line are shown at the most.
pub const MOST_SHOWN: usize = 200;

/// The column of what has none: no caret is shown then.
pub const NO_COLUMN: u64 = 0;

/// The number of the statement where there is none.
pub const NO_STATEMENT: u64 = 0;

/// Where something is that is told: the line of the deck, the number of the statement, the text of the line, and the column.
#[derive(Clone, Copy)]
pub struct SourceSpan<'a> {
    pub line: u64,
    pub statement: u64,
    pub text: &'a [u8],
    pub column: u64,
}

impl<'a> SourceSpan<'a> {
    /// A place on a line, and in no statement.
    pub fn on_line(line: u64, text: &'a [u8], column: u64) -> SourceSpan<'a> {
        SourceSpan {
            line,
            statement: NO_STATEMENT,
            text,
            column,
        }
    }
}

/// How much is told.
#[derive(Clone, Copy, PartialEq, Eq)]
pub enum Detail {
    /// Mistakes.
    Mistakes,
    /// Warnings too, and of each job whether it loads.
    Jobs,
    /// Mistakes and warnings, and each job's source listing.
    Listing,
}

/// How many mistakes and warnings were found.
#[derive(Clone, Copy)]
pub struct Tally {
    pub mistakes: u64,
    pub warnings: u64,
}

/// What a review knows of the deck so far, and what it tells.
#[derive(Drop)]
pub struct Reporter {
    pub alloc: Global,
    /// How much is told.
    pub detail: Detail,
    /// Whether it is an account's submission, and no deck: that account is then the only one of the table, and the catalogue is
    /// not known.
    pub is_submission: bool,
    /// The number of the line that is looked at.
    pub line: u64,
    /// How many jobs have begun.
    pub jobs: u64,
    /// The account table.
    pub accounts: Accounts,
    /// The names of the data sets.
    pub sets: Vec<Name>,
    /// How much was found.
    pub tally: Tally,
    /// What is told and not yet written.
    pub out: Vec<u8>,
}

/// Each method that tells something has an error where a growth was refused; a part may have been told then.
impl Reporter {
    /// Nothing of a deck.
    pub fn new(alloc: Global, detail: Detail) -> Reporter {
        Reporter {
            alloc,
            detail,
            is_submission: false,
            line: 0,
            jobs: 0,
            accounts: Accounts::new(alloc),
            sets: Vec::new(alloc),
            tally: Tally {
                mistakes: 0,
                warnings: 0,
            },
            out: Vec::new(alloc),
        }
    }

    /// Tells a mistake: what it is, in parts.
    pub fn mistake(&mut self, spot: SourceSpan<'_>, what: &[&[u8]]) -> Result<(), AllocError> {
        self.tally.mistakes = self.tally.mistakes.saturating_add(1);
        put_told(spot, b" ", what, &mut self.out)
    }

    /// Tells a warning, unless mistakes alone are told.
    pub fn warning(&mut self, spot: SourceSpan<'_>, what: &[&[u8]]) -> Result<(), AllocError> {
        self.tally.warnings = self.tally.warnings.saturating_add(1);
        if self.detail == Detail::Mistakes {
            return Ok(());
        }
        put_told(spot, b" WARNING ", what, &mut self.out)
    }

    /// Tells a mistake at a column of the line that is looked at.
    pub fn mistake_here(
        &mut self,
        text: &[u8],
        column: u64,
        what: &[&[u8]],
    ) -> Result<(), AllocError> {
        self.mistake(SourceSpan::on_line(self.line, text, column), what)
    }

    /// Tells that the line that is looked at is refused. It may have so many characters.
    pub fn refuse(&mut self, code: DeckError, text: &[u8], limit: usize) -> Result<(), AllocError> {
        let what = [
            code.text().as_bytes(),
            b": ".as_slice(),
            cause_of(code).as_bytes(),
        ];
        self.mistake_here(text, column_of(code, text, limit), &what)
    }

    /// Tells that the line that is looked at is, or ends, no permission list, as commands are told it.
    pub fn refuse_list(
        &mut self,
        error: AclError,
        text: &[u8],
        column: u64,
    ) -> Result<(), AllocError> {
        let mut what = Vec::new(self.alloc);
        let mut sink = TextSink::new(&mut what);
        print_list_refusal(error, &mut sink);
        sink.settle()?;
        self.mistake_here(text, column, &[what.as_slice()])
    }

    /// Tells that a card, on a line, names no account of the table.
    pub fn no_account(&mut self, line: u64, card: &[u8]) -> Result<(), AllocError> {
        let what = if self.is_submission {
            b"I1 FOREIGN ACCOUNT: the card names another account".as_slice()
        } else {
            b"M2 NO ACCOUNT: no account has that name".as_slice()
        };
        let spot = SourceSpan::on_line(line, card, word_column(card, 1));
        self.mistake(spot, &[what])
    }
}

// Appends what is told of a spot; and where it has a column, the first characters of its text, with a question mark for each that
// can't be printed, and a caret under the column, if that much of the text is shown.
fn put_told(
    spot: SourceSpan<'_>,
    kind: &[u8],
    what: &[&[u8]],
    out: &mut Vec<u8>,
) -> Result<(), AllocError> {
    let mut sink = TextSink::new(out);
    sink.put(b"LINE");
    print_number(spot.line, &mut sink);
    if spot.statement != NO_STATEMENT {
        sink.put(b" STATEMENT");
        print_number(spot.statement, &mut sink);
    }
    sink.put(kind);
    for part in what {
        sink.put(part);
    }
    sink.put(b"\n");
    if spot.column != NO_COLUMN {
        print_text(spot, &mut sink);
    }
    sink.settle()
}

fn print_text<S: Sink>(spot: SourceSpan<'_>, sink: &mut S) {
    sink.put(b"    ");
    for byte in spot.text.iter().take(MOST_SHOWN) {
        let is_printable = (b' '..=b'~').contains(byte);
        sink.put(&[if is_printable { *byte } else { b'?' }]);
    }
    sink.put(b"\n");
    if spot.column <= MOST_SHOWN as u64 + 1 {
        sink.put(b"    ");
        for _ in 1..spot.column {
            sink.put(b" ");
        }
        sink.put(b"^\n");
    }
}
