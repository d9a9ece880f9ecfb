//! Serving commands, one function a command.
//!
//! The printout of a command that is done is made before anything changes, so that a growth that is refused leaves
//! everything as it was. Where the change is then denied or refused, nothing has changed, and the printout is made anew.
ghost use Rattle.std.specs.Prelude.{◌≡◌, ◌++◌, length, IfOk, OnOk, OnErr};
ghost use Rattle.std.specs.List.{flat_map};
ghost use Rattle.mon_guard.specs.Views.{records_lent, acl_lent, names_lent};
ghost use Rattle.mon_guard.specs.Owning.{created, removed, acl_set};
ghost use Rattle.mon_guard.specs.Cache.{CacheFits};
ghost use Rattle.mon_command.specs.Commanded.{Told, Names, Records as Listed, Shown, told_by, creation_reply, removal_reply, acl_reply, shown_as, served, answered, printed, commanded};
ghost use Rattle.mon_command.specs.Saying.{said_of};
ghost use Rattle.mon_command.specs.Printouts.{name_line, names_text};
ghost use Rattle.mon_command.specs.inner.Names.{shown_at};
ghost use Rattle.mon_command.specs.inner.Serving.{Answers, Serves};
ghost use Rattle.deck_lines.specs.declared.command.Command.TheVariants as commands;

use crate::printing::{put_acl, put_count, put_heading, put_listing, put_name};
use crate::printout::{Answered, Printout, USUAL_BYTES, told};
use crate::reply::Reply;
use crate::said::Said;
use acl_text::AclText;
use deck_lines::Command;
use mon_access::{Account, Accounts};
use mon_catalogue::{Catalogue, CreateError, Mode};
use mon_guard::{AclAnswer, AclView, Guard};
use mon_text::{Name, Stop};
use std::alloc::{AllocError, Global};

/// Serves a command: what it prints, and the data sets after it, are `commanded`. Accounts are found by hash, and so is the
/// data set of a command: but for `Catalog`, which goes over all sets, and `Delete`, behind which the others keep their order,
/// the time does not grow with the catalogue.
///
/// That something is refused or denied is an answer, and stands in the printout.
///
/// # Errors
///
/// Where a growth was refused; the data sets are then unchanged.
pub fn execute(
    alloc: Global,
    accounts: &Accounts,
    guard: &mut Guard,
    catalogue: &mut Catalogue,
    command: Command,
) -> Result<Printout, AllocError>
    ensures printout { IfOk result (λ printout. printout ≡ (commanded accounts.now catalogue.old command).printout) }
    ensures sets { OnOk result (catalogue.new ≡ (commanded accounts.now catalogue.old command).sets) }
    ensures unchanged { OnErr result (catalogue.new ≡ catalogue.old) }
    ensures fit { CacheFits guard.old catalogue.old → CacheFits guard.new catalogue.new }
{
    let answered = answer(alloc, accounts, guard, catalogue, &command)?;
    Ok(answered.printout)
}

/// Serves a command as `execute` does, appends its printout, and says what was answered, without what is shown. A listing is printed
/// where it is to stand.
///
/// # Errors
///
/// Where a growth was refused; nothing was appended then, but the data sets may have changed.
pub fn put_answered(
    alloc: Global,
    accounts: &Accounts,
    guard: &mut Guard,
    catalogue: &mut Catalogue,
    command: &Command,
    out: &mut Vec<u8>,
) -> Result<Said, AllocError>
    ensures printed { OnOk result (out.new.items ≡ out.old.items ++ (commanded accounts.now catalogue.old command.now).printout) }
    ensures said { IfOk result (λ said. said ≡ said_of (answered accounts.now catalogue.old command.now).answer) }
    ensures sets { OnOk result (catalogue.new ≡ (commanded accounts.now catalogue.old command.now).sets) }
    ensures nothing { OnErr result (out.new.items ≡ out.old.items) }
    ensures fit { CacheFits guard.old catalogue.old → CacheFits guard.new catalogue.new }
{
    if let Command::List { account: by, name } = command {
        return match accounts.find(by) {
            Some(account) => put_list(alloc, account, guard, catalogue, by, name, out),
            None => put_unlisted(alloc, by, name, Reply::NoAccount, out),
        };
    }
    let answered = answer(alloc, accounts, guard, catalogue, command)?;
    append(answered, out)
}

// Appends a printout, and says what was answered.
fn append(answered: Answered, out: &mut Vec<u8>) -> Result<Said, AllocError>
    ensures printed { OnOk result (out.new.items ≡ out.old.items ++ answered.printout) }
    ensures said { IfOk result (λ said. said ≡ answered.said) }
    ensures nothing { OnErr result (out.new.items ≡ out.old.items) }
{
    out.extend_from_slice(answered.printout.as_slice())?;
    Ok(answered.said)
}

// Serves a listing of a known account, and appends its printout.
fn put_list(
    alloc: Global,
    account: &Account,
    guard: &Guard,
    catalogue: &Catalogue,
    by: &Name,
    name: &Name,
    out: &mut Vec<u8>,
) -> Result<Said, AllocError>
    ensures printed { OnOk result (out.new.items
        ≡ out.old.items ++ printed (commands.List by.now name.now) (shown_as Listed (records_lent account.now catalogue.now name.now))) }
    ensures said { IfOk result (λ said. said ≡ said_of (shown_as Listed (records_lent account.now catalogue.now name.now))) }
    ensures nothing { OnErr result (out.new.items ≡ out.old.items) }
{
    match guard.records(account, catalogue, name) {
        Ok(records) => {
            put_listing(by, name, records, out)?;
            Ok(Said::Records(records.len()))
        }
        Err(reason) => put_unlisted(alloc, by, name, Reply::Denied(reason), out),
    }
}

/// Appends the printout of a command that lists records, where it is told this instead, and says what was answered.
///
/// # Errors
///
/// Where a growth was refused; nothing was appended then.
pub fn put_unlisted(
    alloc: Global,
    account: &Name,
    name: &Name,
    reply: Reply,
    out: &mut Vec<u8>,
) -> Result<Said, AllocError>
    ensures printed { OnOk result (out.new.items ≡ out.old.items ++ printed (commands.List account.now name.now) (Told reply)) }
    ensures said { IfOk result (λ said. said ≡ said_of (Told reply)) }
    ensures nothing { OnErr result (out.new.items ≡ out.old.items) }
{
    let command = Command::List {
        account: account.copy(),
        name: name.copy(),
    };
    let answered = told(alloc, &command, reply)?;
    append(answered, out)
}

// What a command is answered, and what the data sets are after it.
fn answer(
    alloc: Global,
    accounts: &Accounts,
    guard: &mut Guard,
    catalogue: &mut Catalogue,
    command: &Command,
) -> Result<Answered, AllocError>
    ensures serves { Serves command.now result catalogue.old catalogue.new (answered accounts.now catalogue.old command.now) }
    ensures fit { CacheFits guard.old catalogue.old → CacheFits guard.new catalogue.new }
{
    let Some(account) = accounts.find(command.account()) else {
        return told(alloc, command, Reply::NoAccount);
    };
    let mut execution = Execution {
        alloc,
        account,
        guard: &mut *guard,
        catalogue: &mut *catalogue,
        command,
    };
    execution.execute()
}

// A command of a known account, and what it is executed on.
#[derive(Drop)]
struct Execution<'a> {
    alloc: Global,
    account: &'a Account,
    guard: &'a mut Guard,
    catalogue: &'a mut Catalogue,
    command: &'a Command,
}

impl Execution<'_> {
    ghost use Rattle.mon_command.specs.inner.Executing.{Executes, SameLoans};

    fn execute(&mut self) -> Result<Answered, AllocError>
        ensures serves { Executes self.old result self.new (served self.old.account.now self.old.command.now self.old.catalogue.now) }
        ensures fit { CacheFits self.old.guard.now self.old.catalogue.now → CacheFits self.new.guard.now self.new.catalogue.now }
        ensures loans { SameLoans self.old self.new }
    {
        let command = self.command;
        match command {
            Command::Create { name, mode, .. } => self.create(name, *mode),
            Command::Delete { name, .. } => self.delete(name),
            Command::SetAcl { name, text, .. } => self.set_acl(name, text),
            Command::ShowAcl { name, .. } => self.show_acl(name),
            Command::List { account, name } => self.list(account, name),
            Command::Catalog { .. } => self.catalog(),
        }
    }

    fn create(&mut self, name: &Name, mode: Mode) -> Result<Answered, AllocError>
        ensures serves { Executes self.old result self.new (told_by creation_reply (created self.old.account.now self.old.catalogue.now name.now mode)) }
        ensures fit { CacheFits self.old.guard.now self.old.catalogue.now → CacheFits self.new.guard.now self.new.catalogue.now }
        ensures loans { SameLoans self.old self.new }
    {
        let done = self.told(Reply::Done)?;
        let made = self.guard.create(self.alloc, self.account, self.catalogue, name.copy(), mode);
        match made {
            Ok(()) => Ok(done),
            Err(Stop::Refused(CreateError::NameTaken)) => self.told(Reply::NameTaken),
            Err(Stop::Refused(CreateError::CatalogueFull)) => self.told(Reply::CatalogueFull),
            Err(Stop::Memory) => Err(AllocError),
        }
    }

    fn delete(&mut self, name: &Name) -> Result<Answered, AllocError>
        ensures serves { Executes self.old result self.new (told_by removal_reply (removed self.old.account.now self.old.catalogue.now name.now)) }
        ensures fit { CacheFits self.old.guard.now self.old.catalogue.now → CacheFits self.new.guard.now self.new.catalogue.now }
        ensures loans { SameLoans self.old self.new }
    {
        let done = self.told(Reply::Done)?;
        match self.guard.try_remove(self.account, self.catalogue, name) {
            Ok(()) => Ok(done),
            Err(reason) => self.told(Reply::Denied(reason)),
        }
    }

    fn set_acl(&mut self, name: &Name, text: &AclText) -> Result<Answered, AllocError>
        ensures serves { Executes self.old result self.new (told_by acl_reply (acl_set self.old.account.now self.old.catalogue.now name.now text.now)) }
        ensures fit { CacheFits self.old.guard.now self.old.catalogue.now → CacheFits self.new.guard.now self.new.catalogue.now }
        ensures loans { SameLoans self.old self.new }
    {
        let done = self.told(Reply::Done)?;
        let set = self
            .guard
            .try_set_acl(self.alloc, self.account, self.catalogue, name, text)?;
        match set {
            AclAnswer::Done => Ok(done),
            AclAnswer::Denied(reason) => self.told(Reply::Denied(reason)),
            AclAnswer::BadList(error) => self.told(Reply::BadList(error)),
        }
    }

    fn show_acl(&self, name: &Name) -> Result<Answered, AllocError>
        ensures { IfOk result (λ given. Answers self.now.command.now given
            (shown_as Shown (acl_lent self.now.account.now self.now.catalogue.now name.now))) }
    {
        match self.guard.acl(self.account, self.catalogue, name) {
            Ok(shown) => self.acl_of(&shown),
            Err(reason) => self.told(Reply::Denied(reason)),
        }
    }

    fn acl_of(&self, shown: &AclView) -> Result<Answered, AllocError>
        ensures { IfOk result (λ given. Answers self.now.command.now given (Shown shown.now)) }
    {
        let mut bytes = Vec::with_capacity(self.alloc, USUAL_BYTES)?;
        put_heading(self.command, &mut bytes)?;
        put_acl(shown, &mut bytes)?;
        Ok(Answered {
            printout: Printout { bytes },
            said: Said::Entries(shown.acl.len() as u64),
        })
    }

    fn list(&self, by: &Name, name: &Name) -> Result<Answered, AllocError>
        ensures { IfOk result (λ given. Answers (commands.List by.now name.now) given
            (shown_as Listed (records_lent self.now.account.now self.now.catalogue.now name.now))) }
    {
        let mut bytes = Vec::with_capacity(self.alloc, USUAL_BYTES)?;
        let said = put_list(
            self.alloc,
            self.account,
            self.guard,
            self.catalogue,
            by,
            name,
            &mut bytes,
        )?;
        Ok(Answered {
            printout: Printout { bytes },
            said,
        })
    }

    fn catalog(&self) -> Result<Answered, AllocError>
        ensures { IfOk result (λ given. Answers self.now.command.now given (Names (names_lent self.now.account.now self.now.catalogue.now))) }
    {
        let mut bytes = Vec::with_capacity(self.alloc, USUAL_BYTES)?;
        put_heading(self.command, &mut bytes)?;
        let names = put_names(self.account, self.guard, self.catalogue, &mut bytes)?;
        Ok(Answered {
            printout: Printout { bytes },
            said: Said::Names(names),
        })
    }

    // The command is told a reply.
    fn told(&self, reply: Reply) -> Result<Answered, AllocError>
        ensures { IfOk result (λ given. Answers self.now.command.now given (Told reply)) }
    {
        told(self.alloc, self.command, reply)
    }
}

// Appends the names that the account is shown, and how many they are, and answers that.
#[inline(never)]
fn put_names(
    account: &Account,
    guard: &Guard,
    catalogue: &Catalogue,
    out: &mut Vec<u8>,
) -> Result<u64, AllocError>
    ensures names { OnOk result (out.new.items ≡ out.old.items ++ names_text (names_lent account.now catalogue.now)) }
    ensures count { IfOk result (λ count. count ≡ length (names_lent account.now catalogue.now)) }
{
    let mut count = 0;
    for index in 0..catalogue.len() {
        count += put_if_shown(account, guard, catalogue, index, out)?;
    }
    put_count(b"NAMES", count, out)?;
    Ok(count)
}

// Appends the name of the set at an index where the account is shown it, and answers how many names that are.
fn put_if_shown(
    account: &Account,
    guard: &Guard,
    catalogue: &Catalogue,
    index: usize,
    out: &mut Vec<u8>,
) -> Result<u64, AllocError>
    ensures count { IfOk result (λ count. count ≡ length (shown_at account.now catalogue.now index)) }
    ensures names { OnOk result (out.new.items ≡ out.old.items ++ flat_map name_line (shown_at account.now catalogue.now index)) }
{
    match guard.name_at(account, catalogue, index) {
        Some(shown) => {
            put_name(&shown, out)?;
            Ok(1)
        }
        None => Ok(0),
    }
}
