//! A text is read line by line, as the reader of decks takes it: of each card the names of data sets are kept.
ghost use Rattle.std.specs.Prelude.{◌≡◌, ℕ, ◌∷◌, ◌++◌, ◌||◌, [], List, None, map, IfOk, OnOk};
ghost use Rattle.std.specs.Str.Lines.{lines};
ghost use Rattle.deck_syntax.specs.Events.{open_in, open_after, event_in, refusal_in};
ghost use Rattle.deck_syntax.specs.Decks.{Asked};
ghost use Rattle.preflight.specs.Examined.{IsSubmission};
ghost use Rattle.text_names.specs.Names.{Speaks, command_names, is_catalog};
ghost use Rattle.text_names.specs.inner.Lines.{names_brought, all_brought, Follows};

use deck_lines::Command;
use deck_syntax::{Event, StreamReader, UnitCard, first_line};
use mon_text::{Name, Stop};
use parts::Text;
use std::alloc::{AllocError, Global};

/// What was found so far.
#[derive(Drop)]
pub(crate) struct Found {
    pub(crate) names: Vec<Name>,
    pub(crate) all: bool,
}

/// The text of this number and so much work, with the names that its cards have. Where a line is refused, it is taken to speak of all.
///
/// # Errors
///
/// Where a growth was refused.
pub fn text_of(alloc: Global, number: u64, work: u128, bytes: &[u8]) -> Result<Text, AllocError>
    ensures number { IfOk result (λ text. text.number ≡ number) }
    ensures work { IfOk result (λ text. text.work ≡ work) }
    ensures speaks { IfOk result (λ text. (own : List ℕ) (asked : List Asked) → IsSubmission own (lines bytes.now) asked
        → Speaks text.names.items text.all asked) }
{
    let found = names_in(alloc, bytes)?;
    Ok(Text {
        number,
        names: found.names,
        all: found.all,
        work,
    })
}

fn names_in(alloc: Global, bytes: &[u8]) -> Result<Found, AllocError>
    ensures { IfOk result (λ found. (own : List ℕ) (asked : List Asked) → IsSubmission own (lines bytes.now) asked → Speaks found.names.items found.all asked) }
{
    let mut reader = StreamReader::Cards;
    let mut found = Found {
        names: Vec::new(alloc),
        all: false,
    };
    let mut rest = bytes;
    'lines: while !rest.is_empty() {
        let (line, behind) = first_line(rest);
        found.take(alloc, &mut reader, line)?;
        rest = behind;
    }
    Ok(found)
}

impl Found {
    // One line more.
    fn take(
        &mut self,
        alloc: Global,
        reader: &mut StreamReader,
        line: &[u8],
    ) -> Result<(), AllocError>
        ensures { OnOk result (refusal_in (open_in reader.old) line.now ≡ None
            → Follows self.old self.new (open_in reader.new) (open_after (open_in reader.old) line.now) (event_in (open_in reader.old) line.now)) }
    {
        match reader.line(alloc, line) {
            Ok(event) => self.add(&event),
            Err(Stop::Refused(_)) => {
                self.all = true;
                Ok(())
            }
            Err(Stop::Memory) => Err(AllocError),
        }
    }

    #[tactic(auto, using(crate::proofs::Reached::or_false, crate::proofs::Reached::or_true, crate::proofs::Reached::and_nothing))]
    fn add(&mut self, event: &Event) -> Result<(), AllocError>
        ensures names { OnOk result (self.new.names.items ≡ self.old.names.items ++ names_brought event.now) }
        ensures all { OnOk result (self.new.all ≡ (self.old.all || all_brought event.now)) }
    {
        match event {
            Event::Nothing | Event::Opens(_) | Event::Turns(_) | Event::Drains | Event::Stops => {
                Ok(())
            }
            Event::Asks(command) => self.add_command(command),
            Event::Enters(job) => self.add_ties(job.ties.as_slice()),
        }
    }

    #[tactic(auto, using(crate::proofs::Reached::or_false, crate::proofs::Reached::or_true, crate::proofs::Reached::and_nothing))]
    fn add_command(&mut self, command: &Command) -> Result<(), AllocError>
        ensures names { OnOk result (self.new.names.items ≡ self.old.names.items ++ command_names command.now) }
        ensures all { OnOk result (self.new.all ≡ (self.old.all || is_catalog command.now)) }
    {
        match command {
            Command::Create { name, .. }
            | Command::Delete { name, .. }
            | Command::SetAcl { name, .. }
            | Command::ShowAcl { name, .. }
            | Command::List { name, .. } => self.add_name(name),
            Command::Catalog { .. } => {
                self.all = true;
                Ok(())
            }
        }
    }

    fn add_ties(&mut self, cards: &[UnitCard]) -> Result<(), AllocError>
        ensures names { OnOk result (self.new.names.items ≡ self.old.names.items ++ map (λ card. card.set) cards.now) }
        ensures all { OnOk result (self.new.all ≡ self.old.all) }
    {
        for card in cards {
            self.add_name(&card.set)?;
        }
        Ok(())
    }

    fn add_name(&mut self, name: &Name) -> Result<(), AllocError>
        ensures names { OnOk result (self.new.names.items ≡ self.old.names.items ++ name.now ∷ []) }
        ensures all { OnOk result (self.new.all ≡ self.old.all) }
    {
        self.names.push(name.copy())?;
        Ok(())
    }
}
