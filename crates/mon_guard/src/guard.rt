//! The guard: what an account asks, done exactly where it is granted.
ghost use Rattle.std.specs.Prelude.{◌≡◌, ◌≤◌, ◌<◌, ◌-◌, ◌^◌, ◌↔◌, [], take, length, slice_get, Some, Ok, IfOk, IfSome, OnOk, OnErr, is_some, IsSome, IsErrOf, IsOkAnd};
ghost use Rattle.std.specs.Result.{result_map_both};
ghost use Rattle.mon_text.specs.Lines.{IsLine};
ghost use Rattle.mon_text.specs.Stops.{Gives, refused_as};
ghost use Rattle.acl_text.specs.Forms.{MayTakeMemory};
ghost use Rattle.mon_access.specs.Matches.{is_owner};
ghost use Rattle.mon_catalogue.specs.Sets.{create_refusal, find_set};
ghost use Rattle.mon_catalogue.specs.Changes.{with_acl};
ghost use Rattle.interaction.specs.declared.answer.Reason.{Reason};
ghost use Rattle.mon_guard.specs.Deciding.{to_read, to_write, to_execute, decision_on, decided, where_granted};
ghost use Rattle.mon_guard.specs.Views.{records_lent, acl_lent, name_lent};
ghost use Rattle.mon_guard.specs.Owning.{owner_denial, removed, acl_set, created, new_list};
ghost use Rattle.mon_guard.specs.Acting.{Read, Write, End, acted, changed, changing, done, left, told, read_at};
ghost use Rattle.mon_catalogue.specs.Writing.{Put, Add};
ghost use Rattle.mon_guard.specs.Answers.{guard_answer, acl_answer};
ghost use Rattle.mon_guard.specs.inner.Judging.{acted_by};

use crate::answer::{AclAnswer, Answered, Decided, guard_answer, reason_of};
use crate::cache::DecisionCache;
use crate::views::{AclView, NameView};
use acl_text::{AclText, parse_short};
use interaction::{Answer, Reason};
use mon_access::{Account, Decision, check};
use mon_acl::{Acl, AclError, Perms};
use mon_catalogue::{
    Catalogue, CreateError, DataSet, MOST_RECORD_CHARACTERS, Mode, NoSet, Records, SetFull,
};
use mon_text::{Line, Name, Stop};
use std::alloc::{AllocError, Global};
use std::marker::Model;

/// Answers requests on data sets, each by the set's owner, group and permission list as they stand at that moment.
///
/// What only the owner may do is denied to all others, whatever the list grants them.
///
/// What was decided of requests is kept as rows, at most 1,000, which contracts see as a list. A call that answers by them asks
/// that they fit the data sets, and each call keeps that. They change no answer.
#[derive(Drop)]
pub struct Guard {
    cache: DecisionCache,
}

impl Model for Guard {
    ghost use Rattle.std.specs.Prelude.{List};
    ghost use Rattle.mon_guard.specs.declared.cache.CachedDecision.{CachedDecision};

    ghost Value = { List CachedDecision };

    ghost view = { λ g. g.cache };
}

impl Guard {
    ghost use Rattle.mon_guard.specs.Cache.{CacheFits, Begins, cache_beside};

    /// A guard that keeps no row.
    pub fn new(alloc: Global) -> Guard
        ensures { result ≡ [] }
    {
        Guard {
            cache: DecisionCache::new(alloc),
        }
    }

    /// How many rows are kept. It takes no memory.
    pub fn cached(&self) -> u64
        ensures value { result ≡ length self.now }
        ensures at_most { length self.now ≤ 1000 }
    {
        self.cache.len() as u64
    }

    /// Drops all rows but the first `count`. It takes no memory.
    pub fn keep_first(&mut self, count: u64)
        ensures { self.new ≡ take count self.old }
    {
        self.cache.keep_first(count as usize);
    }

    /// What is decided of a request on the set of a name: the access check, or that there is no such set. It takes no
    /// memory.
    #[tactic(auto, using(crate::proofs::Fitting::fitting))]
    pub fn decide(
        &self,
        account: &Account,
        catalogue: &Catalogue,
        name: &Name,
        request: Perms,
    ) -> Decided
        requires fit { CacheFits self.now catalogue.now }
        ensures { result ≡ decided account.now catalogue.now name.now request }
    {
        match catalogue.find(name) {
            Some(set) if request.is_one() => {
                let lookup = self.cache.lookup(account, catalogue, name);
                Decided::of(
                    self.cache
                        .decide(lookup, account, name, set, request)
                        .decision,
                )
            }
            Some(set) => Decided::of(decision_on(account, set, request)),
            None => Decided::NoSet,
        }
    }

    /// The records of the set of a name, where r is granted on it. It takes no memory.
    ///
    /// # Errors
    ///
    /// Why they are denied.
    pub fn records<'a>(
        &self,
        account: &Account,
        catalogue: &'a Catalogue,
        name: &Name,
    ) -> Result<&'a Records, Reason>
        ensures { result_map_both (λ records. records.now) (λ reason. reason) result ≡ records_lent account.now catalogue.now name.now }
    {
        let Some(set) = catalogue.find(name) else {
            return Err(Reason::NoSet);
        };
        permit(account, set, to_read())?;
        Ok(&set.records)
    }

    /// The owner, the group and the permission list of the set of a name, for its owner and where x is granted on it. It
    /// takes no memory.
    ///
    /// # Errors
    ///
    /// Why they are denied.
    pub fn acl<'a>(
        &self,
        account: &Account,
        catalogue: &'a Catalogue,
        name: &Name,
    ) -> Result<AclView<'a>, Reason>
        ensures { result ≡ acl_lent account.now catalogue.now name.now }
    {
        let Some(set) = catalogue.find(name) else {
            return Err(Reason::NoSet);
        };
        if !owns(account, set) {
            permit(account, set, to_execute())?;
        }
        Ok(AclView {
            owner: &set.owner,
            group: &set.group,
            acl: &set.acl,
        })
    }

    /// The name, the owner, the group and the number of records of the set at an index in the catalogue's order, where x
    /// is granted on it. Past the end there is none. It takes no memory.
    pub fn name_at<'a>(
        &self,
        account: &Account,
        catalogue: &'a Catalogue,
        index: usize,
    ) -> Option<NameView<'a>>
        ensures { result ≡ name_lent account.now catalogue.now index }
    {
        let (name, set) = catalogue.at(index)?;
        match decision_on(account, set, to_execute()) {
            Decision::Granted => Some(NameView {
                name,
                owner: &set.owner,
                group: &set.group,
                records: set.records.len(),
            }),
            Decision::Denied(_) => None,
        }
    }

    /// Whether a name is shown to an account: that of the set at an index in the catalogue's order, counted from 0. Past
    /// the end there is none to be shown. It takes no memory.
    pub fn list_name(&self, account: &Account, catalogue: &Catalogue, index: usize) -> bool
        ensures { result ≡ is_some (name_lent account.now catalogue.now index) }
    {
        self.name_at(account, catalogue, index).is_some()
    }

    /// Whether a set's permission list is shown to an account: it is `Done` for the owner, and where x is granted.
    pub fn show(&self, account: &Account, catalogue: &Catalogue, name: &Name) -> Answer
        ensures { result ≡ guard_answer (acl_lent account.now catalogue.now name.now) }
    {
        match self.acl(account, catalogue, name) {
            Ok(_) => Answer::Done,
            Err(reason) => Answer::Denied(reason),
        }
    }

    /// Gives a set another permission list, which only its owner may do.
    ///
    /// It is denied where there is no such set, and then where the account is not the owner, whatever memory there is.
    /// Only then is the text read.
    ///
    /// # Errors
    ///
    /// Where a growth was refused, which no text of four entries needs, nor one that is refused within its first five; the
    /// catalogue is then unchanged.
    #[tactic(auto, using(crate::proofs::Fitting::fitting))]
    pub fn try_set_acl(
        &mut self,
        alloc: Global,
        account: &Account,
        catalogue: &mut Catalogue,
        name: &Name,
        text: &AclText,
    ) -> Result<AclAnswer, AllocError>
        ensures answer { IfOk result (λ answer. answer ≡ (acl_set account.now catalogue.old name.now text.now).0) }
        ensures sets { OnOk result (catalogue.new ≡ (acl_set account.now catalogue.old name.now text.now).1) }
        ensures unchanged { OnErr result (catalogue.new ≡ catalogue.old) }
        ensures denied { (reason : Reason) → (result ≡ Ok (AclAnswer.Denied reason)) ↔ (owner_denial account.now catalogue.old name.now ≡ Some reason) }
        ensures memory { OnErr result (MayTakeMemory text.now) }
        ensures fit { CacheFits self.old catalogue.old → CacheFits self.new catalogue.new }
        ensures rows_stay { OnErr result (self.new ≡ self.old) }
        ensures dropped { result ≡ Ok AclAnswer.Done → self.new ≡ cache_beside name.now self.old }
        ensures others_stay { cache_beside name.now self.new ≡ cache_beside name.now self.old }
    {
        if let Some(reason) = owner_denial(account, catalogue, name) {
            return Ok(AclAnswer::Denied(reason));
        }
        match text.read(alloc) {
            Ok(acl) => {
                let answer = put_acl(catalogue, name, acl);
                self.cache.forget(name);
                Ok(answer)
            }
            Err(Stop::Refused(error)) => Ok(AclAnswer::BadList(error)),
            Err(Stop::Memory) => Err(AllocError),
        }
    }

    /// Gives a set another permission list, as `try_set_acl` does.
    ///
    /// # Errors
    ///
    /// The text's first refusal, or `Memory` where a growth was refused. The catalogue is then unchanged.
    pub fn set_acl(
        &mut self,
        alloc: Global,
        account: &Account,
        catalogue: &mut Catalogue,
        name: &Name,
        text: &AclText,
    ) -> Result<Answer, Stop<AclError>>
        ensures answer { Gives (λ answer. answer) result (acl_answer (acl_set account.now catalogue.old name.now text.now).0) }
        ensures sets { OnOk result (catalogue.new ≡ (acl_set account.now catalogue.old name.now text.now).1) }
        ensures unchanged { OnErr result (catalogue.new ≡ catalogue.old) }
        ensures denied { (reason : Reason) → (result ≡ Ok (Answer.Denied reason)) ↔ (owner_denial account.now catalogue.old name.now ≡ Some reason) }
        ensures memory { IsErrOf result Stop.Memory → MayTakeMemory text.now }
        ensures fit { CacheFits self.old catalogue.old → CacheFits self.new catalogue.new }
        ensures dropped { result ≡ Ok Answer.Done → self.new ≡ cache_beside name.now self.old }
        ensures others_stay { cache_beside name.now self.new ≡ cache_beside name.now self.old }
    {
        match self.try_set_acl(alloc, account, catalogue, name, text) {
            Ok(AclAnswer::Done) => Ok(Answer::Done),
            Ok(AclAnswer::Denied(reason)) => Ok(Answer::Denied(reason)),
            Ok(AclAnswer::BadList(error)) => Err(Stop::Refused(error)),
            Err(AllocError) => Err(Stop::Memory),
        }
    }

    /// Takes a set out of the catalogue, which only its owner may do. It takes no memory.
    ///
    /// # Errors
    ///
    /// Why it is denied: there is no such set, or the account is not the owner.
    #[tactic(auto, using(crate::proofs::Fitting::fitting))]
    pub fn try_remove(
        &mut self,
        account: &Account,
        catalogue: &mut Catalogue,
        name: &Name,
    ) -> Result<(), Reason>
        ensures answer { result ≡ (removed account.now catalogue.old name.now).0 }
        ensures sets { catalogue.new ≡ (removed account.now catalogue.old name.now).1 }
        ensures fit { CacheFits self.old catalogue.old → CacheFits self.new catalogue.new }
        ensures dropped { OnOk result (self.new ≡ cache_beside name.now self.old) }
        ensures others_stay { cache_beside name.now self.new ≡ cache_beside name.now self.old }
    {
        if let Some(reason) = owner_denial(account, catalogue, name) {
            return Err(reason);
        }
        match catalogue.remove(name) {
            Ok(()) => {
                self.cache.forget(name);
                Ok(())
            }
            Err(NoSet) => Err(Reason::NoSet),
        }
    }

    /// Takes a set out of the catalogue, as `try_remove` does.
    pub fn remove(&mut self, account: &Account, catalogue: &mut Catalogue, name: &Name) -> Answer
        ensures answer { result ≡ guard_answer (removed account.now catalogue.old name.now).0 }
        ensures sets { catalogue.new ≡ (removed account.now catalogue.old name.now).1 }
        ensures fit { CacheFits self.old catalogue.old → CacheFits self.new catalogue.new }
        ensures dropped { result ≡ Answer.Done → self.new ≡ cache_beside name.now self.old }
        ensures others_stay { cache_beside name.now self.new ≡ cache_beside name.now self.old }
    {
        guard_answer(self.try_remove(account, catalogue, name))
    }

    /// Reads the record at a position, counted from 0, of the set of a name, where r is granted on it. The position is then
    /// behind the record; past the end it is `EndOfFile`, and the position stays.
    ///
    /// # Errors
    ///
    /// Where a growth was refused, which only a record that is read needs; the rows are then unchanged.
    #[tactic(auto, using(crate::proofs::Fitting::fitting))]
    pub fn read(
        &mut self,
        alloc: Global,
        account: &Account,
        catalogue: &Catalogue,
        name: &Name,
        position: u64,
    ) -> Result<Answered, AllocError>
        requires fit { CacheFits self.old catalogue.now }
        ensures answer { IfOk result (λ answered. answered ≡ told position (acted account.now (Read position) catalogue.now name.now)) }
        ensures memory { OnErr result (IsSome (acted account.now (Read position) catalogue.now name.now).position) }
        ensures fit { CacheFits self.new catalogue.now }
        ensures rows { Begins self.old self.new }
        ensures rows_stay { OnErr result (self.new ≡ self.old) }
    {
        let lookup = self.cache.lookup(account, catalogue, name);
        let Some(set) = catalogue.find_near(lookup.set, name) else {
            return Ok(Answered::denied(Reason::NoSet, position));
        };
        let verdict = self.cache.decide(lookup, account, name, set, to_read());
        let answered = match verdict.decision {
            Decision::Granted => read_at(alloc, &set.records, position)?,
            Decision::Denied(decider) => Answered::denied_by(decider, &set.acl, position),
        };
        self.cache.remember(verdict.next, account, name, set);
        Ok(answered)
    }

    /// The record that `read` would read, where the two decisions used last grant it. Else there is none, which says nothing. It
    /// takes no memory, and changes no row.
    #[inline(always)]
    #[tactic(auto, using(crate::proofs::Fitting::fitting))]
    pub fn cached_record<'a>(
        &self,
        account: &Account,
        catalogue: &'a Catalogue,
        name: &Name,
        position: u64,
    ) -> Option<&'a [u8]>
        requires fit { CacheFits self.now catalogue.now }
        ensures record { IfSome result (λ line. acted account.now (Read position) catalogue.now name.now ≡ read_at position (Some line.now)) }
        ensures within { IfSome result (λ line. position < 2 ^ 64 - 1) }
        ensures printable { IfSome result (λ line. IsLine line.now) }
    {
        let lookup = self.cache.cached(account, name)?;
        let set = catalogue.find_near(lookup.set, name)?;
        let verdict = self.cache.decide(lookup, account, name, set, to_read());
        match verdict.decision {
            Decision::Granted => set.records.get(position),
            Decision::Denied(_) => None,
        }
    }

    /// Writes a record of at most 1,024 printable characters to the set of a name, where w is granted on it. On a set of
    /// mode SEQ it is written at the position, counted from 0: what stood there and behind it is gone, and the position is
    /// then behind the record. On one of mode APPEND it is put behind all records, and the position stays. Where 100,000
    /// records stand before it it is `Full`, and nothing changes.
    ///
    /// # Errors
    ///
    /// Where a growth was refused, which only a record that is written needs; the catalogue and the rows are then unchanged.
    #[tactic(auto, using(crate::proofs::Acting::changes, crate::proofs::Fitting::fitting))]
    pub fn write(
        &mut self,
        account: &Account,
        catalogue: &mut Catalogue,
        name: &Name,
        position: u64,
        line: &[u8],
    ) -> Result<Answered, AllocError>
        requires short { length line.now ≤ MOST_RECORD_CHARACTERS }
        requires printable { IsLine line.now }
        requires fit { CacheFits self.old catalogue.old }
        ensures answer { IfOk result (λ answered. answered ≡ told position (acted account.now (Write position line.now) catalogue.old name.now)) }
        ensures sets { OnOk result
            (catalogue.new ≡ changed name.now (acted account.now (Write position line.now) catalogue.old name.now).change catalogue.old) }
        ensures unchanged { OnErr result (catalogue.new ≡ catalogue.old) }
        ensures fit { CacheFits self.new catalogue.new }
        ensures rows { Begins self.old self.new }
        ensures rows_stay { OnErr result (self.new ≡ self.old) }
        ensures memory { OnErr result ((acted account.now (Write position line.now) catalogue.old name.now).answer ≡ Answer.Done) }
    {
        let lookup = self.cache.lookup(account, catalogue, name);
        let Some(set) = catalogue.find_mut_near(lookup.set, name) else {
            return Ok(Answered::denied(Reason::NoSet, position));
        };
        let verdict = self.cache.decide(lookup, account, name, set, to_write());
        let answered = write_by(verdict.decision, set, position, line)?;
        self.cache.remember(verdict.next, account, name, set);
        Ok(answered)
    }

    /// Cuts off the records at a position, counted from 0, and behind it, of the set of a name, where w is granted on it. The
    /// position is then behind the last record that is left. On a set of mode APPEND it is denied. It takes no memory.
    #[tactic(auto, using(crate::proofs::Acting::changes, crate::proofs::Fitting::fitting))]
    pub fn end(
        &mut self,
        account: &Account,
        catalogue: &mut Catalogue,
        name: &Name,
        position: u64,
    ) -> Answered
        requires fit { CacheFits self.old catalogue.old }
        ensures answer { result ≡ told position (acted account.now (End position) catalogue.old name.now) }
        ensures sets { catalogue.new ≡ changed name.now (acted account.now (End position) catalogue.old name.now).change catalogue.old }
        ensures fit { CacheFits self.new catalogue.new }
        ensures rows { Begins self.old self.new }
    {
        let lookup = self.cache.lookup(account, catalogue, name);
        let Some(set) = catalogue.find_mut_near(lookup.set, name) else {
            return Answered::denied(Reason::NoSet, position);
        };
        let verdict = self.cache.decide(lookup, account, name, set, to_write());
        let answered = end_by(verdict.decision, set, position);
        self.cache.remember(verdict.next, account, name, set);
        answered
    }

    /// Creates a data set of this mode with no records, which every account may do: it is the account's, of the account's primary
    /// group, grants all to its owner and nothing to others, and is put last.
    ///
    /// # Errors
    ///
    /// `NameTaken` where there is a set of this name, else `CatalogueFull` where there are 1,000 sets, whatever memory there
    /// is; else `Memory` where a growth was refused. The catalogue is then unchanged.
    #[tactic(auto, using(crate::proofs::Fitting::fitting))]
    pub fn create(
        &mut self,
        alloc: Global,
        account: &Account,
        catalogue: &mut Catalogue,
        name: Name,
        mode: Mode,
    ) -> Result<(), Stop<CreateError>>
        ensures answer { Gives (λ done. done) result (created account.now catalogue.old name mode).0 }
        ensures refused { refused_as result ≡ create_refusal name catalogue.old }
        ensures sets { OnOk result (catalogue.new ≡ (created account.now catalogue.old name mode).1) }
        ensures unchanged { OnErr result (catalogue.new ≡ catalogue.old) }
        ensures fit { CacheFits self.old catalogue.old → CacheFits self.new catalogue.new }
        ensures rows_stay { self.new ≡ self.old }
    {
        let acl = new_list(alloc)?;
        catalogue.create(name, account.name.copy(), account.primary.copy(), mode, acl)
    }
}

// The permission list of a new data set. So few entries take no memory.
fn new_list(alloc: Global) -> Result<Acl, AllocError>
    ensures { IsOkAnd result (λ acl. acl ≡ new_list) }
{
    match parse_short(alloc, b"u::rwx,g::---,o::---") {
        Ok(acl) => Ok(acl),
        Err(_) => Err(AllocError),
    }
}

// Why an account may not do what only the owner may.
fn owner_denial(account: &Account, catalogue: &Catalogue, name: &Name) -> Option<Reason>
    ensures { result ≡ owner_denial account.now catalogue.now name.now }
{
    match catalogue.find(name) {
        Some(set) if owns(account, set) => None,
        Some(_) => Some(Reason::NotOwner),
        None => Some(Reason::NoSet),
    }
}

// Gives the set of a name another permission list.
fn put_acl(catalogue: &mut Catalogue, name: &Name, acl: Acl) -> AclAnswer
    ensures answer { IsSome (find_set name.now catalogue.old) → result ≡ AclAnswer.Done }
    ensures sets { catalogue.new ≡ with_acl name.now acl catalogue.old }
{
    match catalogue.set_acl(name, acl) {
        Ok(_) => AclAnswer::Done,
        Err(NoSet) => AclAnswer::Denied(Reason::NoSet),
    }
}

fn to_read() -> Perms
    ensures { result ≡ to_read }
{
    Perms::new(true, false, false)
}

fn to_write() -> Perms
    ensures { result ≡ to_write }
{
    Perms::new(false, true, false)
}

fn to_execute() -> Perms
    ensures { result ≡ to_execute }
{
    Perms::new(false, false, true)
}

// The record at a position, and the position behind it.
fn read_at(alloc: Global, records: &Records, position: u64) -> Result<Answered, AllocError>
    ensures answer { IfOk result (λ answered. answered ≡ told position (read_at position (slice_get records.now position))) }
    ensures memory { OnErr result (IsSome (read_at position (slice_get records.now position)).position) }
{
    match records.get(position) {
        Some(text) => {
            let line = Line::in_room(Vec::with_capacity(alloc, text.len())?, text);
            Ok(Answered {
                answer: Answer::Got(line),
                position: position + 1,
            })
        }
        None => Ok(Answered {
            answer: Answer::EndOfFile,
            position,
        }),
    }
}

// Writes a record where that was granted.
#[inline(always)]
fn write_by(
    decision: Decision,
    set: &mut DataSet,
    position: u64,
    line: &[u8],
) -> Result<Answered, AllocError>
    requires short { length line.now ≤ MOST_RECORD_CHARACTERS }
    requires printable { IsLine line.now }
    ensures answer { IfOk result (λ answered. answered ≡ told position (acted_by decision (Write position line.now) set.old)) }
    ensures set { OnOk result (set.new ≡ left (acted_by decision (Write position line.now) set.old).change set.old) }
    ensures unchanged { OnErr result (set.new ≡ set.old) }
    ensures memory { OnErr result ((acted_by decision (Write position line.now) set.old).answer ≡ Answer.Done) }
{
    match decision {
        Decision::Granted => write_to(set, position, line),
        Decision::Denied(decider) => Ok(Answered::denied_by(decider, &set.acl, position)),
    }
}

// Writes a record by the set's mode.
fn write_to(set: &mut DataSet, position: u64, line: &[u8]) -> Result<Answered, AllocError>
    requires short { length line.now ≤ MOST_RECORD_CHARACTERS }
    requires printable { IsLine line.now }
    ensures answer { IfOk result (λ answered. answered ≡ told position (done (Write position line.now) set.old)) }
    ensures set { OnOk result (set.new ≡ left (done (Write position line.now) set.old).change set.old) }
    ensures unchanged { OnErr result (set.new ≡ set.old) }
    ensures memory { OnErr result ((done (Write position line.now) set.old).answer ≡ Answer.Done) }
{
    match set.mode {
        Mode::Seq => put_at(set, position, line),
        Mode::Append => append(set, position, line),
    }
}

// Puts a record at a position, which is then behind it.
#[inline(always)]
fn put_at(set: &mut DataSet, position: u64, line: &[u8]) -> Result<Answered, AllocError>
    requires short { length line.now ≤ MOST_RECORD_CHARACTERS }
    requires printable { IsLine line.now }
    ensures answer { IfOk result (λ answered. answered ≡ told position (changing (Put position line.now) set.old.records)) }
    ensures set { OnOk result (set.new ≡ left (changing (Put position line.now) set.old.records).change set.old) }
    ensures unchanged { OnErr result (set.new ≡ set.old) }
    ensures memory { OnErr result ((changing (Put position line.now) set.old.records).answer ≡ Answer.Done) }
{
    match set.put_at(position, line) {
        Ok(()) => Ok(Answered::done(set.records.len())),
        Err(Stop::Refused(SetFull)) => Ok(Answered::full(position)),
        Err(Stop::Memory) => Err(AllocError),
    }
}

// Puts a record behind all others; the position stays.
#[inline(always)]
fn append(set: &mut DataSet, position: u64, line: &[u8]) -> Result<Answered, AllocError>
    requires short { length line.now ≤ MOST_RECORD_CHARACTERS }
    requires printable { IsLine line.now }
    ensures answer { IfOk result (λ answered. answered ≡ told position (changing (Add line.now) set.old.records)) }
    ensures set { OnOk result (set.new ≡ left (changing (Add line.now) set.old.records).change set.old) }
    ensures unchanged { OnErr result (set.new ≡ set.old) }
    ensures memory { OnErr result ((changing (Add line.now) set.old.records).answer ≡ Answer.Done) }
{
    match set.append(line) {
        Ok(()) => Ok(Answered::done(position)),
        Err(Stop::Refused(SetFull)) => Ok(Answered::full(position)),
        Err(Stop::Memory) => Err(AllocError),
    }
}

// Ends a set where that was granted.
#[inline(always)]
fn end_by(decision: Decision, set: &mut DataSet, position: u64) -> Answered
    ensures answer { result ≡ told position (acted_by decision (End position) set.old) }
    ensures set { set.new ≡ left (acted_by decision (End position) set.old).change set.old }
{
    match decision {
        Decision::Granted => end_at(set, position),
        Decision::Denied(decider) => Answered::denied_by(decider, &set.acl, position),
    }
}

// Ends a set, where sets of its mode can be ended.
fn end_at(set: &mut DataSet, position: u64) -> Answered
    ensures answer { result ≡ told position (done (End position) set.old) }
    ensures set { set.new ≡ left (done (End position) set.old).change set.old }
{
    match set.mode {
        Mode::Seq => {
            set.cut_at(position);
            Answered::done(set.records.len())
        }
        Mode::Append => Answered::denied(Reason::Mode, position),
    }
}

// The access check on a set.
fn decision_on(account: &Account, set: &DataSet, request: Perms) -> Decision
    ensures { result ≡ decision_on account.now set.now request }
{
    check(account, &set.owner, &set.group, &set.acl, request)
}

// Whether the access check grants a request on a set; else the entry that decides.
fn permit(account: &Account, set: &DataSet, request: Perms) -> Result<(), Reason>
    ensures { result ≡ where_granted account.now request set.now tt }
{
    match decision_on(account, set, request) {
        Decision::Granted => Ok(()),
        Decision::Denied(decider) => Err(reason_of(decider, &set.acl)),
    }
}

fn owns(account: &Account, set: &DataSet) -> bool
    ensures { result ≡ is_owner account.now set.now.owner }
{
    account.name == set.owner
}
