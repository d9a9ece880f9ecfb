//! The catalogue of a deck, line by line. Of a data set no record is kept.

use crate::review::{Part, Review};
use acl_text::parse_short;
use deck_lines::{DeckError, Words, is_blank, line_refusal};
use deck_lint::is_line_code;
use deck_syntax::put_catalogue_line;
use deck_syntax::reading::MOST_CATALOGUE_LINE_CHARACTERS;
use mon_catalogue::{Loading, MOST_RECORD_CHARACTERS, MOST_SETS, Version};
use mon_device::{Sink, TextSink, print_number};
use mon_text::{Name, Stop, read_count, read_name};
use std::alloc::{AllocError, Global};

/// A data set, as its `$SET` card on a line of the deck has it.
#[derive(Drop)]
pub(crate) struct SetHead {
    name: Name,
    line: u64,
    count: u64,
}

/// What is due in the catalogue.
#[derive(Clone, Copy)]
pub(crate) enum Due {
    /// A `$SET` card, or `$STREAM`.
    Set,
    /// The permission list of the data set that is being read, and then so many records.
    List(u64),
    /// So many records.
    Records(u64),
    /// Whatever stands before the next card.
    Card,
}

impl Due {
    fn records(count: u64) -> Due {
        if count > 0 {
            Due::Records(count)
        } else {
            Due::Set
        }
    }
}

// Whether a line where a card is due is `$STREAM`. Else it is a `$SET` card, or blank.
fn ends_catalogue(alloc: Global, version: Version, text: &[u8]) -> Result<bool, Stop<DeckError>> {
    let mut loading = Loading::new(alloc, version);
    put_catalogue_line(alloc, &mut loading, text)
}

impl Review {
    /// The catalogue begins.
    pub(crate) fn open_catalogue(&mut self, version: Version) {
        self.part = Part::Catalogue(version);
        self.due = Due::Set;
        self.last = None;
    }

    /// Takes a line of the catalogue: whether it was read there.
    pub(crate) fn take_catalogue_line(
        &mut self,
        version: Version,
        text: &[u8],
    ) -> Result<bool, AllocError> {
        match self.due {
            Due::Card if Words::of(text).card().is_none() => return Ok(true),
            Due::Set | Due::Card => return self.take_due_line(version, text),
            Due::List(count) => {
                self.tell_inner_line(true, text)?;
                self.due = Due::records(count);
            }
            Due::Records(left) => {
                self.tell_inner_line(false, text)?;
                self.due = Due::records(left.saturating_sub(1));
            }
        }
        Ok(true)
    }

    // A line where a `$SET` card or `$STREAM` is due: whether it was read, or is read nowhere else.
    fn take_due_line(&mut self, version: Version, text: &[u8]) -> Result<bool, AllocError> {
        self.due = Due::Set;
        match ends_catalogue(self.reporter.alloc, version, text) {
            Ok(true) => self.part = Part::Stream,
            Ok(false) if is_blank(text) => {}
            Ok(false) => self.open_set(text)?,
            Err(Stop::Refused(code)) => {
                self.due = Due::Card;
                self.refuse_in_catalogue(code, text)?;
                if matches!(code, DeckError::UnknownCard | DeckError::OutOfPlace) {
                    self.put_head(b"    behind data set ")?;
                }
                return Ok(is_line_code(code));
            }
            Err(Stop::Memory) => return Err(AllocError),
        }
        Ok(true)
    }

    // A good `$SET` card: its name is noted, or it is told why it may not be.
    fn open_set(&mut self, text: &[u8]) -> Result<(), AllocError> {
        self.last = read_head(self.reporter.line, text);
        let Some(head) = &self.last else {
            return Ok(());
        };
        self.due = Due::List(head.count);
        if self.reporter.sets.contains(&head.name) {
            self.refuse_in_catalogue(DeckError::NameTaken, text)
        } else if self.reporter.sets.len() >= MOST_SETS {
            self.refuse_in_catalogue(DeckError::CatalogueFull, text)
        } else {
            self.reporter.sets.push(head.name.copy())?;
            Ok(())
        }
    }

    // Tells what is wrong with the line of a permission list, or else with a record, if anything is.
    fn tell_inner_line(&mut self, is_list: bool, text: &[u8]) -> Result<(), AllocError> {
        let alloc = self.reporter.alloc;
        let is_refused = match line_refusal(text, MOST_CATALOGUE_LINE_CHARACTERS) {
            None if is_list => self.tell_list(parse_short(alloc, text), text, 1)?,
            None if text.len() <= MOST_RECORD_CHARACTERS => false,
            code => {
                self.refuse_in_catalogue(code.unwrap_or(DeckError::BadText), text)?;
                true
            }
        };
        if is_refused {
            self.put_head(b"    in data set ")?;
        }
        Ok(())
    }

    fn refuse_in_catalogue(&mut self, code: DeckError, text: &[u8]) -> Result<(), AllocError> {
        self.reporter
            .refuse(code, text, MOST_CATALOGUE_LINE_CHARACTERS)
    }

    // Appends which data set was the last, if there was one, behind what a line has to do with it.
    pub(crate) fn put_head(&mut self, before: &[u8]) -> Result<(), AllocError> {
        let Some(head) = &self.last else {
            return Ok(());
        };
        let mut sink = TextSink::new(&mut self.reporter.out);
        sink.put(before);
        sink.put(head.name.as_bytes());
        sink.put(b" of line");
        print_number(head.line, &mut sink);
        sink.put(b", which was to have");
        print_number(head.count, &mut sink);
        sink.put(b" records\n");
        sink.settle()
    }
}

// What a good `$SET` card on a line of the deck says.
fn read_head(line: u64, text: &[u8]) -> Option<SetHead> {
    let words = Words::of(text);
    let places = words.len();
    if places < 2 {
        return None;
    }
    let name = read_name(words.at(1)).ok()?;
    let count = read_count(words.at(places - 1)).ok()?;
    Some(SetHead { name, line, count })
}
