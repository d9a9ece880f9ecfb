//! The stream of a deck: what the reader's events say, and what is read behind a line that it refuses.

use crate::review::{Part, Review};
use acl_text::AclText;
use deck_lines::{Card, Command, Words, begins_with_dollar};
use deck_lint::{JobCards, JobCase, is_stream_card, word_column};
use deck_syntax::{Event, JobLimits, OpenJob, OpenList, StreamReader};
use mon_text::{Name, Stop, read_name};
use std::alloc::AllocError;
use std::mem;

impl Review {
    /// Takes a line of the stream: whether it was read there, or is a card that ends what is open, and has to be read once more.
    pub(crate) fn take_stream_line(&mut self, text: &[u8]) -> Result<bool, AllocError> {
        match self.reader.line(self.reporter.alloc, text) {
            Ok(event) => {
                self.follow(event, text)?;
                Ok(true)
            }
            Err(stop) => {
                let is_final = self.refuse(stop, text)?;
                self.follow_refused(is_final, text)
            }
        }
    }

    // What a line brings.
    fn follow(&mut self, event: Event, text: &[u8]) -> Result<(), AllocError> {
        match event {
            Event::Nothing => self.note_line(),
            Event::Opens(account) => match &self.reader {
                StreamReader::Job(_) => self.open_job(true, text),
                _ => self.tell_account(&account, text),
            },
            Event::Asks(command) => self.tell_command(&command, text),
            Event::Enters(job) => self.tell_job(job),
            Event::Turns(_) | Event::Drains => Ok(()),
            Event::Stops if self.reporter.is_submission => {
                let what = b"I2 STOP CARD: it would end the run for all";
                self.reporter.mistake_here(text, 1, &[what.as_slice()])
            }
            Event::Stops => {
                self.part = Part::Ended;
                Ok(())
            }
        }
    }

    // Notes where a unit card stands, or the first card of the program.
    fn note_line(&mut self) -> Result<(), AllocError> {
        let StreamReader::Job(job) = &self.reader else {
            return Ok(());
        };
        if job.ties.as_slice().len() > self.cards.tie_lines.len() {
            self.cards.tie_lines.push(self.reporter.line)?;
        } else if self.cards.first_line.is_none() {
            self.cards.first_line = Some(self.reporter.line);
        }
        Ok(())
    }

    fn open_job(&mut self, is_good: bool, text: &[u8]) -> Result<(), AllocError> {
        let card = Vec::from_slice(self.reporter.alloc, text)?;
        self.reporter.jobs = self.reporter.jobs.saturating_add(1);
        self.cards = JobCards::new(self.reporter.line, card, is_good);
        Ok(())
    }

    // Tells all of a job whose lines are all there.
    fn tell_job(&mut self, job: OpenJob) -> Result<(), AllocError> {
        let none = JobCards::new(0, Vec::new(self.reporter.alloc), true);
        let case = JobCase {
            deck: job.into_deck(self.reporter.jobs),
            cards: mem::replace(&mut self.cards, none),
        };
        self.reporter.tell_job(&case)
    }

    // Tells that there is no account of this name, if there is none.
    fn tell_account(&mut self, name: &Name, text: &[u8]) -> Result<(), AllocError> {
        let line = self.reporter.line;
        match self.reporter.accounts.find(name) {
            Some(_) => Ok(()),
            None => self.reporter.no_account(line, text),
        }
    }

    // The account of a list in lines was told of at its card.
    fn tell_command(&mut self, command: &Command, text: &[u8]) -> Result<(), AllocError> {
        let alloc = self.reporter.alloc;
        match command {
            Command::SetAcl { text: list, .. } if matches!(list, AclText::Long(_)) => {
                self.tell_list(list.read(alloc), text, 1)?;
            }
            Command::SetAcl {
                account,
                text: list,
                ..
            } => {
                self.tell_account(account, text)?;
                self.tell_list(list.read(alloc), text, word_column(text, 3))?;
            }
            _ => self.tell_account(command.account(), text)?,
        }
        Ok(())
    }

    // What is read behind a line that is refused: whether it is not to be read once more. A card of the stream ends a list that has
    // no `$ENDACL`, and a job that has no `$EOJ`. A line that is refused for its characters is no card.
    fn follow_refused(&mut self, is_final: bool, text: &[u8]) -> Result<bool, AllocError> {
        let card = if is_final || !begins_with_dollar(text) {
            None
        } else {
            Words::of(text).card()
        };
        let ends = matches!(card, Some(card) if is_stream_card(card));
        match mem::replace(&mut self.reader, StreamReader::Cards) {
            StreamReader::Cards => {
                self.open_refused(text)?;
                Ok(true)
            }
            StreamReader::List(list) if card == Some(Card::EndAcl) => {
                self.tell_command(&list.into_command(), text)?;
                Ok(true)
            }
            StreamReader::Job(job) if ends || card == Some(Card::EndJob) => {
                self.tell_job(job)?;
                Ok(!ends)
            }
            _ if ends => Ok(false),
            open => {
                self.reader = open;
                self.put_stand_in()?;
                Ok(true)
            }
        }
    }

    // A comment stands in for a line of a program that is refused, so that the lines behind it keep their numbers.
    fn put_stand_in(&mut self) -> Result<(), AllocError> {
        if self.cards.first_line.is_some() && matches!(&self.reader, StreamReader::Job(_)) {
            if let Err(Stop::Memory) = self.reader.line(self.reporter.alloc, b"*") {
                return Err(AllocError);
            }
        }
        Ok(())
    }

    // Behind a card that is refused the lines of a job or of a permission list may follow all the same.
    fn open_refused(&mut self, text: &[u8]) -> Result<(), AllocError> {
        let alloc = self.reporter.alloc;
        let words = Words::of(text);
        match words.card() {
            Some(Card::Job) => {
                let job = OpenJob::new(alloc, name_on(&words)?, JobLimits::usual());
                self.reader = StreamReader::Job(job);
                self.open_job(false, text)
            }
            Some(Card::SetAcl) if words.len() == 3 => {
                let account = name_on(&words)?;
                let name = account.copy();
                self.reader = StreamReader::List(OpenList::new(alloc, account, name));
                Ok(())
            }
            _ => Ok(()),
        }
    }

    /// The deck ends: what is told of a job that is open.
    pub(crate) fn end_body(&mut self) -> Result<(), AllocError> {
        match mem::replace(&mut self.reader, StreamReader::Cards) {
            StreamReader::Job(job) => self.tell_job(job),
            _ => Ok(()),
        }
    }
}

// The account that a card names; another name, where it names none.
fn name_on(words: &Words<'_>) -> Result<Name, AllocError> {
    let word = if words.len() > 1 { words.at(1) } else { b"" };
    if let Ok(name) = read_name(word) {
        return Ok(name);
    }
    match read_name(b"unknown") {
        Ok(name) => Ok(name),
        Err(_) => Err(AllocError),
    }
}
