//! A text is taken in line by line: what the reader's events ask for is counted, if it may be asked.
ghost use Rattle.std.specs.Prelude.{◌≡◌, List, IfOk, IfErr, OnOk};
ghost use Rattle.std.specs.Str.Lines.{lines};
ghost use Rattle.deck_syntax.specs.Events.{open_in, event_in, open_after};
ghost use Rattle.deck_syntax.specs.Decks.{Asked, Commands};
ghost use Rattle.deck_syntax.specs.Sections.{Closed};
ghost use Rattle.preflight.specs.Examined.{Admits, Refuses};
ghost use Rattle.preflight.specs.inner.Reading.{asks_of, examined, foreign, refused_to, why_in};
ghost use Rattle.preflight.specs.Submissions.{IfStopped};
ghost use Rattle.preflight.specs.Tallies.{creates, tally_of};
ghost use Rattle.preflight.specs.inner.Counts.{HasRoom, Answers, Counted, one_line, one_creation, one_job, refusal_at, ended};
ghost use Rattle.sno_cards.specs.Limits.{AreLimits};

use crate::tally::Tally;
use crate::why::{Refusal, Why};
use deck_lines::Command;
use deck_syntax::{Event, StreamReader, first_line};
use mon_text::{Name, Stop};
use sno_cards::Limits;
use std::alloc::Global;

/// What is asked so far, in numbers, and the number of the next line, counted from 1.
#[derive(Clone, Copy)]
pub(crate) struct Counts {
    pub(crate) number: u64,
    pub(crate) tally: Tally,
}

// What a text asks for in numbers, but for its bytes.
pub(crate) fn count(alloc: Global, own: &Name, text: &[u8]) -> Result<Tally, Stop<Refusal>>
    ensures admitted { IfOk result (λ tally. (asked : List Asked) × (examined own.now 1 Closed (lines text.now) ≡ Admits asked) × (tally ≡ tally_of asked 0)) }
    ensures refused { IfErr result (IfStopped (λ refusal. examined own.now 1 Closed (lines text.now) ≡ Refuses refusal.line refusal.why)) }
{
    let mut reader = StreamReader::Cards;
    let mut counts = Counts {
        number: 1,
        tally: Tally::none(),
    };
    let mut rest = text;
    'lines: while !rest.is_empty() {
        let (line, behind) = first_line(rest);
        match counts.take(alloc, own, &mut reader, line) {
            Ok(after) => counts = after,
            Err(stop) => return Err(refusal_at(counts.number, stop)),
        }
        rest = behind;
    }
    finish(&reader, counts)
}

// A refusal of line n, or want of memory.
fn refusal_at(line: u64, stop: Stop<Why>) -> Stop<Refusal>
    ensures { result ≡ refusal_at line stop }
{
    match stop {
        Stop::Refused(why) => Stop::Refused(Refusal { line, why }),
        Stop::Memory => Stop::Memory,
    }
}

// What is answered at the end of a text.
fn finish(reader: &StreamReader, counts: Counts) -> Result<Tally, Stop<Refusal>>
    ensures { result ≡ ended (open_in reader.now) counts }
{
    match reader {
        StreamReader::Cards => Ok(counts.tally),
        StreamReader::List(_) | StreamReader::Job(_) => Err(Stop::Refused(Refusal {
            line: counts.number,
            why: Why::Unfinished,
        })),
    }
}

// Why an event is refused to an account.
fn refused_to(own: &Name, event: &Event) -> Option<Why>
    ensures { result ≡ refused_to own.now event.now }
{
    match event {
        Event::Nothing | Event::Turns(_) | Event::Drains => None,
        Event::Opens(account) => foreign(own, account),
        Event::Asks(command) => foreign(own, command.account()),
        Event::Enters(job) => foreign(own, &job.account),
        Event::Stops => Some(Why::Stops),
    }
}

fn foreign(own: &Name, account: &Name) -> Option<Why>
    ensures { result ≡ foreign own.now account.now }
{
    if account == own {
        None
    } else {
        Some(Why::Foreign)
    }
}

// Whether a command makes a data set.
fn creates(command: &Command) -> bool
    ensures { result ≡ creates (Commands command.now) }
{
    matches!(command, Command::Create { .. })
}

impl Counts {
    // One line more of an account's text.
    fn take(
        self,
        alloc: Global,
        own: &Name,
        reader: &mut StreamReader,
        line: &[u8],
    ) -> Result<Counts, Stop<Why>>
        requires { HasRoom self }
        ensures why { Answers (why_in own.now (open_in reader.old) line.now) result }
        ensures counts { IfOk result (λ after. Counted self after (asks_of (event_in (open_in reader.old) line.now))) }
        ensures after { OnOk result (open_in reader.new ≡ open_after (open_in reader.old) line.now) }
    {
        match reader.line(alloc, line) {
            Ok(event) => match refused_to(own, &event) {
                None => Ok(self.with(&event)),
                Some(why) => Err(Stop::Refused(why)),
            },
            Err(Stop::Refused(code)) => Err(Stop::Refused(Why::Line(code))),
            Err(Stop::Memory) => Err(Stop::Memory),
        }
    }

    // With a line that brings this.
    fn with(self, event: &Event) -> Counts
        requires { HasRoom self }
        ensures { Counted self result (asks_of event.now) }
    {
        match event {
            Event::Nothing | Event::Opens(_) | Event::Turns(_) | Event::Drains | Event::Stops => {
                self.with_line()
            }
            Event::Asks(command) if creates(command) => self.with_creation(),
            Event::Asks(_) => self.with_line(),
            Event::Enters(job) => self.with_job(job.limits.get()),
        }
    }

    fn with_line(self) -> Counts
        requires { HasRoom self }
        ensures { result ≡ one_line self }
    {
        Counts {
            number: self.number + 1,
            tally: self.tally,
        }
    }

    fn with_creation(self) -> Counts
        requires { HasRoom self }
        ensures { result ≡ one_creation self }
    {
        Counts {
            number: self.number + 1,
            tally: Tally {
                creates: self.tally.creates + 1,
                ..self.tally
            },
        }
    }

    // With the last line of a job with these limits.
    fn with_job(self, limits: Limits) -> Counts
        requires within { AreLimits limits }
        requires room { HasRoom self }
        ensures { result ≡ one_job self limits }
    {
        let work = limits.statements * limits.steps;
        Counts {
            number: self.number + 1,
            tally: Tally {
                jobs: self.tally.jobs + 1,
                statements: self.tally.statements + u128::from(limits.statements),
                largest: self.tally.largest.max(work),
                work: self.tally.work + u128::from(work),
                ..self.tally
            },
        }
    }
}
