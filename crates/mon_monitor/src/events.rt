//! Events: each happens, and what it prints is appended, and what it tells is put to an audit.
//!
//! Where a growth is refused nothing is appended; jobs that ended are then lost, and the monitor is of no more use. An audit then has a
//! beginning of what the event tells.
ghost use Rattle.std.specs.Prelude.{◌≡◌, ◌++◌, true, false, None, IfOk, IfSome, OnOk, OnSome, OnErr};
ghost use Rattle.mon_command.specs.Commanded.{Told, answered, printed, commanded};
ghost use Rattle.mon_command.specs.Saying.{said_of};
ghost use Rattle.deck_lines.specs.declared.command.Command.TheVariants as commands;
ghost use Rattle.mon_monitor.specs.Abstraction.{system_of};
ghost use Rattle.mon_monitor.specs.SystemStates.{with_sets};
ghost use Rattle.mon_monitor.specs.Printed.{listing};
ghost use Rattle.mon_monitor.specs.Played.{of_loading};
ghost use Rattle.mon_monitor.specs.Events.{Serve, Load, Give, Drain};
ghost use Rattle.mon_monitor.specs.Audit.{event_lines, loading_lines};
ghost use Rattle.mon_monitor.specs.Happening.{Does, Happens, HappensUnmarked, Breaks, Closes};

use crate::monitor::Monitor;
use crate::printed::{Piece, Printed};
use audit::print_command;
use mon_catalogue::Catalogue;
use mon_command::{Command, Reply, Said, put_listing, put_unlisted};
use mon_device::Sink;
use mon_text::{Name, Stop};
use scheduler::{JobDeck, print_loaded, print_refused, put_refusal};
use std::alloc::{AllocError, Global};
use std::rc::Rc;

/// How many records are copied into a text where a command lists them.
const FEW_RECORDS: u64 = 64;

impl Monitor {
    /// A command is served. It gives no turn.
    ///
    /// # Errors
    ///
    /// Where a growth was refused; nothing was appended then.
    pub fn serve_command<S: Sink>(
        &mut self,
        alloc: Global,
        command: Command,
        out: &mut Printed,
        audit: &mut S,
    ) -> Result<(), AllocError>
        ensures happens { OnOk result (HappensUnmarked (Serve command) (system_of self.old) out.old (system_of self.new) out.new (S.standing audit.old) (S.standing audit.new)) }
        ensures broken { OnErr result (Breaks (event_lines (Serve command)) (system_of self.old) (S.standing audit.old) (S.standing audit.new)) }
        ensures nothing { OnErr result (out.new ≡ out.old) }
    {
        let said = self.put_served(alloc, &command, out)?;
        print_command(&self.accounts, &command, &said, self.catalogue(), audit);
        Ok(())
    }

    /// The command that lists the records of a data set for an account is served, as `serve_command` does. It is made only where somebody
    /// listens to the audit, or more is to be done than to append the records.
    ///
    /// # Errors
    ///
    /// Where a growth was refused; nothing was appended then.
    pub fn serve_listing<S: Sink>(
        &mut self,
        alloc: Global,
        account: Name,
        name: Name,
        out: &mut Printed,
        audit: &mut S,
    ) -> Result<(), AllocError>
        ensures happens { OnOk result (HappensUnmarked (Serve (commands.List account name)) (system_of self.old) out.old (system_of self.new) out.new (S.standing audit.old) (S.standing audit.new)) }
        ensures broken { OnErr result (Breaks (event_lines (Serve (commands.List account name))) (system_of self.old) (S.standing audit.old) (S.standing audit.new)) }
        ensures nothing { OnErr result (out.new ≡ out.old) }
    {
        let done = self.list_unaudited(alloc, &account, &name, out, audit);
        if done {
            self.give_way_to(out);
            return Ok(());
        }
        self.serve_command(alloc, Command::List { account, name }, out, audit)
    }

    // Serves a command that lists records, where nobody listens to the audit and `put_listed` does so in the memory that there is: whether it
    // did.
    #[tactic(auto, using(crate::proofs::Playing::unheard))]
    fn list_unaudited<S: Sink>(
        &self,
        alloc: Global,
        account: &Name,
        name: &Name,
        out: &mut Printed,
        audit: &S,
    ) -> bool
        ensures happens { result ≡ true → HappensUnmarked (Serve (commands.List account.now name.now)) (system_of self.now) out.old (system_of self.now) out.new (S.standing audit.now) (S.standing audit.now) }
        ensures left { result ≡ false → out.new ≡ out.old }
    {
        if audit.listens() {
            return false;
        }
        match self.put_listed(alloc, account, name, out) {
            Ok(Some(_)) => true,
            Ok(None) => false,
            Err(_) => false,
        }
    }

    // Serves a command and appends its printout.
    fn put_served(
        &mut self,
        alloc: Global,
        command: &Command,
        out: &mut Printed,
    ) -> Result<Said, AllocError>
        ensures printed { OnOk result (out.new ≡ out.old ++ (commanded (system_of self.old).accounts (system_of self.old).scheduler.sets command.now).printout) }
        ensures said { IfOk result (λ said. said ≡ said_of (answered (system_of self.old).accounts (system_of self.old).scheduler.sets command.now).answer) }
        ensures system { OnOk result (system_of self.new ≡ with_sets (system_of self.old) (commanded (system_of self.old).accounts (system_of self.old).scheduler.sets command.now).sets) }
        ensures nothing { OnErr result (out.new ≡ out.old) }
    {
        if let Command::List { account, name } = command {
            return match self.put_listed(alloc, account, name, out) {
                Ok(Some(said)) => {
                    self.give_way_to(out);
                    Ok(said)
                }
                Ok(None) => self.print_other(alloc, command, out),
                Err(_) => self.print_other(alloc, command, out),
            };
        }
        self.print_other(alloc, command, out)
    }

    // Where a printout shows data sets, a text is made of it, or they are copied, before these change: for which what is kept for commands
    // gives way.
    fn give_way_to(&mut self, out: &Printed)
        ensures { self.new ≡ self.old }
    {
        if !out.rest.is_empty() {
            self.give_way();
        }
    }

    // Appends the printout of a command that lists records, and says what was answered. Records that are many are shown from where they
    // stand. Few that come behind pieces are left to `print_other`, and nothing is appended then.
    fn put_listed(
        &self,
        alloc: Global,
        account: &Name,
        name: &Name,
        out: &mut Printed,
    ) -> Result<Option<Said>, AllocError>
        ensures printed { IfOk result (λ listed. OnSome listed (out.new ≡ out.old ++ (commanded (system_of self.now).accounts (system_of self.now).scheduler.sets (commands.List account.now name.now)).printout)) }
        ensures said { IfOk result (λ listed. IfSome listed (λ said. said ≡ said_of (answered (system_of self.now).accounts (system_of self.now).scheduler.sets (commands.List account.now name.now)).answer)) }
        ensures left { IfOk result (λ listed. listed ≡ None → out.new ≡ out.old) }
        ensures nothing { OnErr result (out.new ≡ out.old) }
    {
        match self.listed(account, name) {
            Ok(records) if records.len() > FEW_RECORDS => {
                self.put_shared(account, name, out)?;
                Ok(Some(Said::Records(records.len())))
            }
            Ok(records) if out.rest.is_empty() => {
                put_listing(account, name, records, &mut out.text)?;
                Ok(Some(Said::Records(records.len())))
            }
            Ok(_) => Ok(None),
            Err(reply) => {
                let said = print_unlisted(alloc, account, name, reply, out)?;
                Ok(Some(said))
            }
        }
    }

    // Appends the printout of a command that lists records, to be shown from where they stand. It stays a call, since the room for a
    // piece is cleared where this stands, and most lists are short.
    #[inline(never)]
    fn put_shared(&self, account: &Name, name: &Name, out: &mut Printed) -> Result<(), AllocError>
        ensures printed { OnOk result (out.new ≡ out.old ++ listing account.now name.now (system_of self.now).scheduler.sets) }
        ensures nothing { OnErr result (out.new ≡ out.old) }
    {
        let sets = self.catalogue.clone()?;
        out.put_piece(Piece::Listed(sets, account.copy(), name.copy()))
    }

    // Serves a command and appends its printout as a text, behind pieces as one of them.
    fn print_other(
        &mut self,
        alloc: Global,
        command: &Command,
        out: &mut Printed,
    ) -> Result<Said, AllocError>
        ensures printed { OnOk result (out.new ≡ out.old ++ (commanded (system_of self.old).accounts (system_of self.old).scheduler.sets command.now).printout) }
        ensures said { IfOk result (λ said. said ≡ said_of (answered (system_of self.old).accounts (system_of self.old).scheduler.sets command.now).answer) }
        ensures system { OnOk result (system_of self.new ≡ with_sets (system_of self.old) (commanded (system_of self.old).accounts (system_of self.old).scheduler.sets command.now).sets) }
        ensures nothing { OnErr result (out.new ≡ out.old) }
    {
        if out.rest.is_empty() {
            return self.put_command(alloc, command, &mut out.text);
        }
        let mut text = Vec::new(alloc);
        let said = self.put_command(alloc, command, &mut text)?;
        out.put_piece(Piece::Text(text))?;
        Ok(said)
    }

    /// A job enters: where no slot is free, turns are given in rounds until one is; then it is loaded, or it is refused.
    ///
    /// # Errors
    ///
    /// Where a growth was refused; nothing was appended then.
    pub fn enter<S: Sink>(
        &mut self,
        alloc: Global,
        deck: JobDeck,
        out: &mut Printed,
        audit: &mut S,
    ) -> Result<(), AllocError>
        ensures happens { OnOk result (Happens (Load deck) (system_of self.old) out.old (system_of self.new) out.new (S.standing audit.old) (S.standing audit.new)) }
        ensures broken { OnErr result (Breaks (event_lines (Load deck)) (system_of self.old) (S.standing audit.old) (S.standing audit.new)) }
        ensures nothing { OnErr result (out.new ≡ out.old) }
    {
        let mut text = Vec::new(alloc);
        let ends = self.room(alloc, audit)?;
        self.put_load(alloc, deck, &mut text, audit)?;
        out.put_ends_and_text(ends, text)
    }

    // Loads a job, or appends why it is refused.
    fn put_load<S: Sink>(
        &mut self,
        alloc: Global,
        deck: JobDeck,
        out: &mut Vec<u8>,
        audit: &mut S,
    ) -> Result<(), AllocError>
        ensures does { OnOk result (Does (of_loading deck) (loading_lines deck) (system_of self.old) out.old.items (system_of self.new) out.new.items (S.standing audit.old) (S.standing audit.new)) }
        ensures broken { OnErr result (Breaks (loading_lines deck) (system_of self.old) (S.standing audit.old) (S.standing audit.new)) }
    {
        let number = deck.number;
        let account = deck.account.copy();
        match self.load(alloc, deck) {
            Ok(_) => {
                print_loaded(number, &account, audit);
                Ok(())
            }
            Err(Stop::Refused(refusal)) => {
                print_refused(number, &account, &refusal, audit);
                put_refusal(number, &account, refusal, out)
            }
            Err(Stop::Memory) => Err(AllocError),
        }
    }

    /// A slot is given so many turns.
    ///
    /// # Errors
    ///
    /// Where a growth was refused; nothing was appended then.
    pub fn give<S: Sink>(
        &mut self,
        alloc: Global,
        slot: u8,
        count: u64,
        out: &mut Printed,
        audit: &mut S,
    ) -> Result<(), AllocError>
        ensures happens { OnOk result (Happens (Give slot count) (system_of self.old) out.old (system_of self.new) out.new (S.standing audit.old) (S.standing audit.new)) }
        ensures broken { OnErr result (Breaks (event_lines (Give slot count)) (system_of self.old) (S.standing audit.old) (S.standing audit.new)) }
        ensures nothing { OnErr result (out.new ≡ out.old) }
    {
        let end = self.turns_of(alloc, slot, count, audit)?;
        match end {
            Some(end) => out.put_piece(Piece::End(end)),
            None => Ok(()),
        }
    }

    /// Turns are given in rounds until all slots are empty.
    ///
    /// # Errors
    ///
    /// Where a growth was refused; nothing was appended then.
    pub fn drain_all<S: Sink>(
        &mut self,
        alloc: Global,
        out: &mut Printed,
        audit: &mut S,
    ) -> Result<(), AllocError>
        ensures happens { OnOk result (Happens Drain (system_of self.old) out.old (system_of self.new) out.new (S.standing audit.old) (S.standing audit.new)) }
        ensures broken { OnErr result (Breaks (event_lines Drain) (system_of self.old) (S.standing audit.old) (S.standing audit.new)) }
        ensures nothing { OnErr result (out.new ≡ out.old) }
    {
        let ends = self.drain(alloc, audit)?;
        out.put_ends(ends)
    }

    /// Turns are given in rounds until all slots are empty, and then the data sets are given back. They are the answer, too:
    /// what is printed is no copy of them.
    ///
    /// # Errors
    ///
    /// Where a growth was refused; nothing was appended then.
    pub fn close<S: Sink>(
        self,
        alloc: Global,
        out: &mut Printed,
        audit: &mut S,
    ) -> Result<Rc<Catalogue>, AllocError>
        ensures closes { IfOk result (λ sets. Closes (system_of self) out.old sets.value out.new (S.standing audit.old) (S.standing audit.new)) }
        ensures broken { OnErr result (Breaks (event_lines Drain) (system_of self) (S.standing audit.old) (S.standing audit.new)) }
        ensures nothing { OnErr result (out.new ≡ out.old) }
    {
        let mut monitor = self;
        let ends = monitor.drain(alloc, audit)?;
        let sets = monitor.into_sets();
        let printed = sets.clone()?;
        out.put_ends_and_sets(ends, printed)?;
        Ok(sets)
    }
}

// Appends the printout of a command that lists records, where it is told this instead, as a text, behind pieces as one of them.
fn print_unlisted(
    alloc: Global,
    account: &Name,
    name: &Name,
    reply: Reply,
    out: &mut Printed,
) -> Result<Said, AllocError>
    ensures printed { OnOk result (out.new ≡ out.old ++ printed (commands.List account.now name.now) (Told reply)) }
    ensures said { IfOk result (λ said. said ≡ said_of (Told reply)) }
    ensures nothing { OnErr result (out.new ≡ out.old) }
{
    if out.rest.is_empty() {
        return put_unlisted(alloc, account, name, reply, &mut out.text);
    }
    let mut text = Vec::new(alloc);
    let said = put_unlisted(alloc, account, name, reply, &mut text)?;
    out.put_piece(Piece::Text(text))?;
    Ok(said)
}
