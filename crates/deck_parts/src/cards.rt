//! The cards of texts: how many printouts they give, and which data sets there are behind them.
ghost use Rattle.std.specs.Prelude.{◌≡◌, nat_eq, OnOk};
ghost use Rattle.std.specs.Cmp.Lexicographic.{pointwise};
ghost use Rattle.indexmap.specs.IndexMap.{insert_entry};
ghost use Rattle.deck_parts.specs.Owning.{created, deleted, is_owner, may_be_created, owner_of};

use deck_lines::Command;
use deck_syntax::{Event, StreamReader, first_line};
use indexmap::IndexMap;
use mon_access::Accounts;
use mon_catalogue::Catalogue;
use mon_text::{Name, Stop};
use std::alloc::{AllocError, Global};

/// So many data sets there may be.
const MOST_SETS: usize = 1000;

/// How many commands and jobs a text has: each gives a printout.
#[derive(Clone, Copy)]
pub(crate) struct Counted {
    pub(crate) commands: u64,
    pub(crate) jobs: u64,
}

/// The data sets that there are, in their order, and whose each is.
#[derive(Drop)]
pub(crate) struct Owners<'a> {
    accounts: &'a Accounts,
    pub(crate) owners: IndexMap<Name, Name>,
}

impl<'a> Owners<'a> {
    /// Those of a catalogue.
    pub(crate) fn of(
        alloc: Global,
        accounts: &'a Accounts,
        catalogue: &Catalogue,
    ) -> Result<Owners<'a>, AllocError> {
        let mut owners = IndexMap::new(alloc);
        for place in 0..catalogue.len() {
            if let Some((name, set)) = catalogue.at(place) {
                put_owner(&mut owners, name, &set.owner)?;
            }
        }
        Ok(Owners { accounts, owners })
    }

    /// Goes on behind a text: how many printouts it gives.
    pub(crate) fn follow(&mut self, alloc: Global, text: &[u8]) -> Result<Counted, AllocError> {
        let mut reader = StreamReader::Cards;
        let mut counted = Counted {
            commands: 0,
            jobs: 0,
        };
        let mut rest = text;
        'lines: while !rest.is_empty() {
            let (line, behind) = first_line(rest);
            if !reader.take_inner_line(alloc, line) {
                self.take(alloc, &mut reader, line, &mut counted)?;
            }
            rest = behind;
        }
        Ok(counted)
    }

    fn take(
        &mut self,
        alloc: Global,
        reader: &mut StreamReader,
        line: &[u8],
        counted: &mut Counted,
    ) -> Result<(), AllocError> {
        match reader.line(alloc, line) {
            Ok(Event::Asks(command)) => {
                counted.commands = counted.commands.saturating_add(1);
                self.take_command(&command)
            }
            Ok(Event::Enters(_)) => {
                counted.jobs = counted.jobs.saturating_add(1);
                Ok(())
            }
            Ok(_) | Err(Stop::Refused(_)) => Ok(()),
            Err(Stop::Memory) => Err(AllocError),
        }
    }

    // An account that is known makes a data set unless the name is taken or there are 1,000, and deletes what is its own.
    fn take_command(&mut self, command: &Command) -> Result<(), AllocError> {
        if self.accounts.find(command.account()).is_none() {
            return Ok(());
        }
        match command {
            Command::Create { account, name, .. } => self.create(account, name),
            Command::Delete { account, name } => {
                self.delete(account, name);
                Ok(())
            }
            Command::SetAcl { .. }
            | Command::ShowAcl { .. }
            | Command::List { .. }
            | Command::Catalog { .. } => Ok(()),
        }
    }

    #[tactic(auto, using(crate::proofs::Owners::one_more, crate::proofs::Owners::no_more))]
    fn create(&mut self, account: &Name, name: &Name) -> Result<(), AllocError>
        ensures { OnOk result (self.new.owners.entries ≡ created account.now name.now self.old.owners.entries) }
    {
        if self.may_create(name) {
            put_owner(&mut self.owners, name, account)
        } else {
            Ok(())
        }
    }

    fn may_create(&self, name: &Name) -> bool
        ensures { result ≡ may_be_created name.now self.now.owners.entries }
    {
        match self.owners.get(name) {
            Some(_) => false,
            None => self.owners.len() < MOST_SETS,
        }
    }

    #[tactic(auto, using(crate::proofs::Owners::gone, crate::proofs::Owners::stays))]
    fn delete(&mut self, account: &Name, name: &Name)
        ensures { self.new.owners.entries ≡ deleted account.now name.now self.old.owners.entries }
    {
        if self.is_of(account, name) {
            let removed = self.owners.shift_remove(name);
            drop(removed);
        }
    }

    fn is_of(&self, account: &Name, name: &Name) -> bool
        ensures { result ≡ is_owner account.now (owner_of name.now self.now.owners.entries) }
    {
        match self.owners.get(name) {
            Some(owner) => owner == account,
            None => false,
        }
    }
}

fn put_owner(owners: &mut IndexMap<Name, Name>, name: &Name, owner: &Name) -> Result<(), AllocError>
    ensures { OnOk result (owners.new.entries ≡ insert_entry (pointwise nat_eq) owners.old.entries name.now owner.now) }
{
    let before = owners.insert(name.copy(), owner.copy())?;
    drop(before);
    Ok(())
}
