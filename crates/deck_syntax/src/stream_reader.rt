//! Reading a deck's stream: what is open in it, and what the next line brings.
ghost use Rattle.std.specs.Prelude.{◌≡◌, ℕ, ◌∷◌, ◌+◌, true, false, if◌then◌else◌, List, IfOk, IfSome, OnOk, OnErr};
ghost use Rattle.deck_lines.specs.declared.command.Command.TheVariants as commands;
ghost use Rattle.deck_lines.specs.Refusing.{is_dollar_line};
ghost use Rattle.deck_lines.specs.inner.Stops.{Answers};
ghost use Rattle.deck_syntax.specs.Decks.{Commands};
ghost use Rattle.deck_syntax.specs.Requests.{list_line_refusal, with_line};
ghost use Rattle.deck_syntax.specs.Sections.{Closed, asked_then};
ghost use Rattle.deck_syntax.specs.declared.stream_reader.StreamReader.TheVariants as reader;
ghost use Rattle.deck_syntax.specs.Events.{open_in, refusal_in, event_in, open_after, event_of, opened_by, event_at_end, cards_ahead};

use crate::job::{OpenJob, is_job_card_line};
use crate::list::OpenList;
use crate::listing::{Listing, listing_on};
use crate::request::{Request, ends_list, read_request};
use deck_lines::{Command, DeckError, Turn, begins_with_dollar};
use mon_text::{Name, Stop};
use std::alloc::Global;
use std::mem;

/// How far the stream of a deck was read: what the next line belongs to.
#[derive(Drop)]
pub enum StreamReader {
    /// A card.
    Cards,
    /// A line of a permission list, or `$ENDACL`.
    List(OpenList),
    /// A line of a job, or `$EOJ`.
    Job(OpenJob),
}

/// What a line of the stream brings.
#[derive(Drop)]
pub enum Event {
    /// Nothing: a blank line, or one more line of what is open.
    Nothing,
    /// A permission list or a job of this account, whose lines follow.
    Opens(Name),
    /// A command.
    Asks(Command),
    /// A job that is whole.
    Enters(OpenJob),
    /// Turns for a slot.
    Turns(Turn),
    /// Turns until all slots are empty.
    Drains,
    /// The deck ends.
    Stops,
}

impl StreamReader {
    /// Takes a line: what it brings.
    ///
    /// # Errors
    ///
    /// The line's refusal; `Memory` where a growth was refused. The reader is then unchanged.
    pub fn line(&mut self, alloc: Global, text: &[u8]) -> Result<Event, Stop<DeckError>>
        ensures answers { Answers (refusal_in (open_in self.old) text.now) result }
        ensures event { IfOk result (λ event. event ≡ event_in (open_in self.old) text.now) }
        ensures after { OnOk result (open_in self.new ≡ open_after (open_in self.old) text.now) }
        ensures unchanged { OnErr result (self.new ≡ self.old) }
    {
        match self {
            StreamReader::Cards => {
                let request = read_request(alloc, text)?;
                Ok(self.follow(alloc, request))
            }
            StreamReader::List(list) => {
                if take_list_line(alloc, list, text)? {
                    return Ok(self.close());
                }
                Ok(Event::Nothing)
            }
            StreamReader::Job(job) => {
                if job.take_line(alloc, text)? {
                    return Ok(self.close());
                }
                Ok(Event::Nothing)
            }
        }
    }

    /// Takes a line that is no card, within a permission list or a job that is open, as most lines of a long one are: whether so it is.
    /// Otherwise nothing has changed, and the line is left to `line`.
    #[inline(always)]
    #[tactic(auto, using(crate::proofs::Following::list_goes, crate::proofs::Following::job_goes))]
    pub fn take_inner_line(&mut self, alloc: Global, text: &[u8]) -> bool
        ensures goes { result ≡ true → (n : ℕ) (ls : List (List ℕ)) → cards_ahead self.old n (text.now ∷ ls) ≡ cards_ahead self.new (n + 1) ls }
        ensures unchanged { result ≡ false → self.new ≡ self.old }
    {
        match self {
            StreamReader::Cards => false,
            StreamReader::List(list) if !begins_with_dollar(text) => take_list_line(
                alloc, list, text,
            ).is_ok(),
            StreamReader::Job(job) if !is_job_card_line(text) => job.take_line(alloc, text).is_ok(),
            StreamReader::List(_) | StreamReader::Job(_) => false,
        }
    }

    // What a card asks for. Where lines of its own follow, they are due.
    fn follow(&mut self, alloc: Global, request: Request) -> Event
        requires { self.old ≡ reader.Cards }
        ensures event { result ≡ event_of request }
        ensures after { open_in self.new ≡ opened_by request }
    {
        match request {
            Request::Nothing => Event::Nothing,
            Request::Asks(command) => Event::Asks(command),
            Request::OpensList(account, name) => {
                let event = Event::Opens(account.copy());
                *self = StreamReader::List(OpenList::new(alloc, account, name));
                event
            }
            Request::OpensJob(job) => {
                let event = Event::Opens(job.account.copy());
                *self = StreamReader::Job(job);
                event
            }
            Request::Turns(turn) => Event::Turns(turn),
            Request::Drains => Event::Drains,
            Request::Stops => Event::Stops,
        }
    }

    // What is open is whole: what it asks for.
    #[inline(always)]
    fn close(&mut self) -> Event
        ensures event { result ≡ event_at_end (open_in self.old) }
        ensures after { open_in self.new ≡ Closed }
    {
        match mem::replace(self, StreamReader::Cards) {
            StreamReader::Cards => Event::Nothing,
            StreamReader::List(list) => Event::Asks(list.into_command()),
            StreamReader::Job(job) => Event::Enters(job),
        }
    }

    /// What a line lists, where a card is due and it is one that lists records, with one blank before each word. Such cards are
    /// most of many a stream, and so are read in one pass. Any other line is left to `line`.
    #[inline(always)]
    pub fn listing(&self, text: &[u8]) -> Option<Listing>
        ensures { IfSome result (λ listing. (n : ℕ) (ls : List (List ℕ)) → cards_ahead self.now n (text.now ∷ ls)
            ≡ asked_then (Commands (commands.List listing.account listing.name)) (cards_ahead self.now (n + 1) ls)) }
    {
        match self {
            StreamReader::Cards => listing_on(text),
            StreamReader::List(_) | StreamReader::Job(_) => None,
        }
    }
}

// Takes a line where a permission list is open: whether it ends the list. Else it is put to those before it.
fn take_list_line(alloc: Global, list: &mut OpenList, text: &[u8]) -> Result<bool, Stop<DeckError>>
    ensures answers { Answers (list_line_refusal text.now) result }
    ensures ends { IfOk result (λ ends. ends ≡ is_dollar_line text.now) }
    ensures taken { IfOk result (λ ends. list.new ≡ (if ends then list.old else with_line list.old text.now)) }
    ensures unchanged { OnErr result (list.new ≡ list.old) }
{
    if ends_list(alloc, text)? {
        return Ok(true);
    }
    list.text.push_line(text)?;
    Ok(false)
}
