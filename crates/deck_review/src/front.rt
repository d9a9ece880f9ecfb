//! A deck up to its catalogue; and where a line before the stream is read that was refused. A review keeps no record of a data
//! set, and goes on behind a refusal, also to another part: so it asks for each line by itself, and not the reader of fronts.

use crate::review::{Part, Review};
use deck_lines::{Card, Words};
use deck_lint::is_stream_card;
use deck_syntax::{opens_accounts, put_account_line};
use mon_catalogue::Version;
use std::alloc::AllocError;

impl Review {
    /// Takes a line before the account table: whether it was read there.
    pub(crate) fn take_opening_line(&mut self, text: &[u8]) -> Result<bool, AllocError> {
        match opens_accounts(self.reporter.alloc, text) {
            Ok(true) => self.part = Part::Accounts,
            Ok(false) => {}
            Err(stop) => return self.refuse(stop, text),
        }
        Ok(true)
    }

    /// Takes a line of the account table: whether it was read there.
    pub(crate) fn take_account_line(&mut self, text: &[u8]) -> Result<bool, AllocError> {
        let alloc = self.reporter.alloc;
        match put_account_line(alloc, &mut self.reporter.accounts, text) {
            Ok(Some(version)) => self.open_catalogue(version),
            Ok(None) => {}
            Err(stop) => return self.refuse(stop, text),
        }
        Ok(true)
    }

    /// A line was refused where it stands: the review goes on where its card leads to, as if what lacks before it were there.
    /// Whether the line has to be read there.
    pub(crate) fn goes_on_at(&mut self, text: &[u8]) -> bool {
        match Words::of(text).card() {
            Some(Card::Stream) => self.part = Part::Stream,
            Some(Card::Catalogue) => self.open_catalogue(Version::Two),
            Some(Card::Accounts) => self.part = Part::Accounts,
            Some(Card::Set) if matches!(self.part, Part::Opening | Part::Accounts) => {
                self.open_catalogue(Version::Two);
                return true;
            }
            Some(card) if is_stream_card(card) => {
                self.part = Part::Stream;
                return true;
            }
            None if matches!(self.part, Part::Opening) => {
                // It may be an account.
                self.part = Part::Accounts;
                return true;
            }
            _ => {}
        }
        false
    }
}
