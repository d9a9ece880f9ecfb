//! The operator's acts: data sets are put or put back, users come and go, and what the ledger says is printed.
use crate::archiving::whole_ledger;
use crate::making::{catalogue_at, make_user, put_access, put_user, system_users};
use crate::moment::Moment;
use deck_syntax::first_line;
use ledger_folder::{Fault, Host, Wrong, place_of, seconds_now, tables_in};
use ledger_opening::{Site, state_of};
use ledger_pruning::first_since;
use ledger_restoring::{RestoreFault, restore_change};
use ledger_sets::{State, sets_change, tables_change};
use ledger_site::past::said_in;
use ledger_site::{count_behind, state_behind, stretch_of};
use ledger_tables::Texts;
use mon_catalogue::Catalogue;
use mon_device::TextSink;
use mon_text::{Name, Stop, read_name};
use preflight::{Submission, examine};
use rounds::compose;
use site_plan::{User, whole_table};
use std::alloc::{AllocError, Global};

/// Data sets that are put.
#[derive(Drop)]
pub struct Put {
    /// The path of a file with a catalogue.
    pub file: String,
    /// The one data set of it that is put; all of them where there is none.
    pub set: Option<Name>,
}

/// A data set that is put back.
#[derive(Drop)]
pub struct Restore {
    /// Its name.
    pub set: Name,
    /// When it was what it gets back.
    pub at: Moment,
    /// The word that tells it.
    pub word: String,
}

/// A user who comes.
#[derive(Drop)]
pub struct NewUser {
    /// The account.
    pub account: Name,
    /// The number that the system has for the user.
    pub uid: u64,
    /// The groups of the account, where it is new.
    pub groups: String,
}

/// Other groups of an account.
#[derive(Drop)]
pub struct NewGroups {
    /// The account.
    pub account: Name,
    /// Its groups.
    pub groups: String,
}

/// The catalogue of a site, as a file that `put` takes: as it is, or as it was at a moment, which is told as for `restore_set`.
pub fn catalogue_of<R: Host>(site: &mut Site<R>, at: Option<Moment>) -> Result<Vec<u8>, Fault> {
    let alloc = site.place.alloc();
    match at {
        Some(moment) => {
            let State { catalogue, .. } = state_at(site, moment)?;
            Ok(catalogue_text(alloc, &catalogue)?)
        }
        None => {
            let state = state_of(&site.place, &site.machine.machine)?;
            Ok(catalogue_text(alloc, &state.catalogue)?)
        }
    }
}

fn catalogue_text(alloc: Global, catalogue: &Catalogue) -> Result<Vec<u8>, AllocError> {
    let mut text = Vec::from_slice(alloc, b"$CATALOGUE 2\n")?;
    put_sets(catalogue, &mut text)?;
    Ok(text)
}

fn put_sets(catalogue: &Catalogue, text: &mut Vec<u8>) -> Result<(), AllocError> {
    let mut sink = TextSink::new(text);
    catalogue.print(&mut sink);
    sink.settle()
}

/// Puts the data sets of a file in the place of all, or one of them in the place of the one of its name.
pub fn put_file<R: Host>(site: &mut Site<R>, asked: &Put) -> Result<(), Fault> {
    let given = catalogue_at(&site.place, &asked.file)?;
    match &asked.set {
        Some(name) => put_one(site, given, name, &asked.file),
        None => put_all(site, &given),
    }
}

fn put_all<R: Host>(site: &mut Site<R>, given: &Catalogue) -> Result<(), Fault> {
    let state = state_of(&site.place, &site.machine.machine)?;
    let change = sets_change(site.place.alloc(), &state.catalogue, given)?;
    site.edit(b"PUT", &change)
}

fn put_one<R: Host>(
    site: &mut Site<R>,
    given: Catalogue,
    name: &Name,
    file: &str,
) -> Result<(), Fault> {
    let alloc = site.place.alloc();
    match set_change(alloc, given, name)? {
        Some(change) => {
            let said = said_of(alloc, b"PUT ", name)?;
            site.edit(&said, &change)
        }
        None => Err(Fault::wrong(alloc, file, Wrong::Words("has no such data set"))),
    }
}

// The change that puts the data set of a name there as it is in another catalogue, if that has it.
fn set_change(alloc: Global, from: Catalogue, name: &Name) -> Result<Option<Vec<u8>>, AllocError> {
    let mut only = from;
    if only.find(name).is_none() {
        return Ok(None);
    }
    for other in others_in(alloc, &only, name)? {
        let _removed = only.remove(&other);
    }
    let change = sets_change(alloc, &Catalogue::new(alloc), &only)?;
    Ok(Some(change))
}

fn others_in(alloc: Global, sets: &Catalogue, name: &Name) -> Result<Vec<Name>, AllocError> {
    let mut others = Vec::new(alloc);
    for place in 0..sets.len() {
        match sets.at(place) {
            Some((other, _)) if other != name => others.push(other.copy())?,
            _ => {}
        }
    }
    Ok(others)
}

fn said_of(alloc: Global, words: &[u8], name: &Name) -> Result<Vec<u8>, AllocError> {
    let mut said = words.to_vec(alloc)?;
    said.extend_from_slice(name.as_bytes())?;
    Ok(said)
}

/// Puts a data set back as it was at a moment: behind a submission, with what the operator did until the next one ran; or at a time.
pub fn restore_set<R: Host>(site: &mut Site<R>, asked: &Restore) -> Result<(), Fault> {
    let State { catalogue, .. } = state_at(site, asked.at)?;
    if catalogue.find(&asked.set).is_none() {
        return Err(no_set(site));
    }
    let change = restoring(site, &asked.set, catalogue)?;
    let said = said_at(site.place.alloc(), asked)?;
    site.edit(&said, &change)
}

// The change that makes of a data set what it was in this catalogue.
fn restoring<R: Host>(site: &Site<R>, set: &Name, past: Catalogue) -> Result<Vec<u8>, Fault> {
    let state = state_of(&site.place, &site.machine.machine)?;
    match restore_change(site.place.alloc(), set, past, &state.catalogue) {
        Ok(change) => Ok(change),
        Err(Stop::Refused(RestoreFault::NeverThere)) => Err(no_set(site)),
        Err(Stop::Refused(RestoreFault::NoRoom)) => Err(no_room(site)),
        Err(Stop::Memory) => Err(Fault::Memory),
    }
}

fn no_set<R: Host>(site: &Site<R>) -> Fault {
    let words = Wrong::Words("had no such data set then");
    site.place.wrong("keep/ledger", words)
}

fn no_time<R: Host>(site: &Site<R>) -> Fault {
    site.place
        .wrong("keep/ledger", Wrong::Words("is not so old yet"))
}

fn no_room<R: Host>(site: &Site<R>) -> Fault {
    let words = Wrong::Words("has no room for one data set more");
    site.place.wrong("keep/ledger", words)
}

fn state_at<R: Host>(site: &mut Site<R>, moment: Moment) -> Result<State, Fault> {
    let alloc = site.place.alloc();
    let commits = whole_ledger(site)?;
    let count = match moment {
        Moment::Behind(number) => count_behind(alloc, &commits, number)?,
        Moment::At(time) if time <= seconds_now(&site.place.rt) => {
            count_until(alloc, &commits, time)?
        }
        Moment::At(_) => return Err(no_time(site)),
    };
    Ok(state_behind(alloc, &commits[..count.min(commits.len())])?)
}

// How many commits stand before the first that was made behind a time.
fn count_until(alloc: Global, commits: &[Vec<u8>], time: u64) -> Result<usize, Fault> {
    let mut times = Vec::new(alloc);
    for text in commits {
        let said = said_in(alloc, text)?;
        times.push(said.time)?;
    }
    Ok(first_since(&times, time.saturating_add(1)))
}

fn said_at(alloc: Global, asked: &Restore) -> Result<Vec<u8>, AllocError> {
    let mut said = said_of(alloc, b"RESTORE ", &asked.set)?;
    said.extend_from_slice(b" AT ")?;
    said.extend_from_slice(asked.word.as_bytes())?;
    Ok(said)
}

/// The accounts of a site: the lines of its table.
pub fn accounts_of<R: Host>(site: &Site<R>) -> Result<Vec<u8>, Fault> {
    let state = state_of(&site.place, &site.machine.machine)?;
    Ok(state.tables.accounts.to_vec(site.place.alloc())?)
}

/// Gives an account these groups, the primary one first, in the place of those that it has.
pub fn set_groups<R: Host>(site: &mut Site<R>, asked: &NewGroups) -> Result<(), Fault> {
    let change = with_groups(site, asked)?;
    let said = said_of(site.place.alloc(), b"GROUPS ", &asked.account)?;
    site.edit(&said, &change)
}

// The tables with these groups, which are looked at before anything is recorded.
fn with_groups<R: Host>(site: &Site<R>, asked: &NewGroups) -> Result<Vec<u8>, Fault> {
    let alloc = site.place.alloc();
    refuse_lines(site, &asked.groups)?;
    if site.tables.accounts.find(&asked.account).is_none() {
        return Err(
            site.place
                .wrong("accounts", Wrong::Words("has no such account")),
        );
    }
    let tables = &state_of(&site.place, &site.machine.machine)?.tables;
    let accounts = regrouped(alloc, &tables.accounts, asked)?;
    changed_tables(alloc, &accounts, &tables.users, &tables.limits)
}

// The table with these groups on the line of the account.
fn regrouped(alloc: Global, table: &[u8], asked: &NewGroups) -> Result<Vec<u8>, AllocError> {
    let mut text = Vec::new(alloc);
    for line in table.split(|byte| *byte == b'\n') {
        if first_word(line) == asked.account.as_bytes() {
            put_account(&asked.account, &asked.groups, &mut text)?;
        } else if !line.is_empty() {
            text.extend_from_slice(line)?;
            text.extend_from_slice(b"\n")?;
        }
    }
    Ok(text)
}

fn first_word(line: &[u8]) -> &[u8] {
    let word = line
        .split(|byte| *byte == b' ')
        .find(|word| !word.is_empty());
    word.unwrap_or(b"".as_slice())
}

/// The limits of a site, as a file that `set_limits` takes.
pub fn limits_of<R: Host>(site: &Site<R>) -> Result<Vec<u8>, Fault> {
    let state = state_of(&site.place, &site.machine.machine)?;
    Ok(state.tables.limits.to_vec(site.place.alloc())?)
}

/// Puts the limits of a file in the place of those that a site has.
pub fn set_limits<R: Host>(site: &mut Site<R>, file: &str) -> Result<(), Fault> {
    let limits = site.place.read(file)?;
    let change = with_limits(site, &limits)?;
    site.edit(b"LIMITS", &change)
}

fn with_limits<R: Host>(site: &Site<R>, limits: &[u8]) -> Result<Vec<u8>, Fault> {
    let state = state_of(&site.place, &site.machine.machine)?;
    let tables = &state.tables;
    changed_tables(site.place.alloc(), &tables.accounts, &tables.users, limits)
}

/// Gives an account a user and a box, and tells what is left to do. The account is new, or stands in the table and has no user.
pub fn add_user<R: Host>(site: &mut Site<R>, asked: &NewUser) -> Result<Vec<u8>, Fault> {
    let Ok(uid) = u32::try_from(asked.uid) else {
        return Err(
            site.place
                .wrong("users", Wrong::Words("not a user's number")),
        );
    };
    let user = User {
        uid,
        account: asked.account.copy(),
    };
    let change = with_user(site, &user, &asked.groups)?;
    make_room(site, &user)?;
    let said = said_of(site.place.alloc(), b"ADDUSER ", &user.account)?;
    site.edit(&said, &change)?;
    let mut told = Vec::new(site.place.alloc());
    put_access(&site.place, &user, site.runner, &mut told)?;
    Ok(told)
}

fn make_room<R: Host>(site: &Site<R>, user: &User) -> Result<(), Fault> {
    let system = system_users(&site.place, site.runner)?;
    make_user(&site.place, user, &system)
}

// The tables with this user, which are looked at before anything is made.
fn with_user<R: Host>(site: &Site<R>, user: &User, groups: &str) -> Result<Vec<u8>, Fault> {
    let alloc = site.place.alloc();
    let state = state_of(&site.place, &site.machine.machine)?;
    let mut accounts = state.tables.accounts.clone()?;
    if site.tables.accounts.find(&user.account).is_none() {
        refuse_lines(site, groups)?;
        put_account(&user.account, groups, &mut accounts)?;
    }
    let mut users = state.tables.users.clone()?;
    end_line(&mut users)?;
    put_user(user.uid, &user.account, &mut users)?;
    changed_tables(alloc, &accounts, &users, &state.tables.limits)
}

// The groups are words of one line.
fn refuse_lines<R: Host>(site: &Site<R>, groups: &str) -> Result<(), Fault> {
    if groups.as_bytes().contains(&b'\n') {
        Err(
            site.place
                .wrong("accounts", Wrong::Words("a group has a line end")),
        )
    } else {
        Ok(())
    }
}

fn put_account(account: &Name, groups: &str, text: &mut Vec<u8>) -> Result<(), AllocError> {
    end_line(text)?;
    text.extend_from_slice(account.as_bytes())?;
    text.extend_from_slice(b" ")?;
    text.extend_from_slice(groups.as_bytes())?;
    text.extend_from_slice(b"\n")
}

fn end_line(text: &mut Vec<u8>) -> Result<(), AllocError> {
    if !text.is_empty() && !text.ends_with(b"\n".as_slice()) {
        text.extend_from_slice(b"\n")?;
    }
    Ok(())
}

// The change to tables that say something.
fn changed_tables(
    alloc: Global,
    accounts: &[u8],
    users: &[u8],
    limits: &[u8],
) -> Result<Vec<u8>, Fault> {
    let _tables = tables_in(
        alloc,
        Texts {
            accounts,
            users,
            limits,
        },
    )?;
    Ok(tables_change(alloc, accounts, users, limits)?)
}

/// Takes the user of an account away, whose submissions have all been answered. The account stays in the table, and its folders stay too.
pub fn del_user<R: Host>(site: &mut Site<R>, account: &Name) -> Result<(), Fault> {
    if place_of(&site.owners, account.as_bytes()).is_none() {
        return Err(
            site.place
                .wrong("users", Wrong::Words("no user has this account")),
        );
    }
    let change = without_user(site, account)?;
    let said = said_of(site.place.alloc(), b"DELUSER ", account)?;
    site.edit(&said, &change)
}

fn without_user<R: Host>(site: &Site<R>, account: &Name) -> Result<Vec<u8>, Fault> {
    let alloc = site.place.alloc();
    let state = state_of(&site.place, &site.machine.machine)?;
    let mut users = Vec::new(alloc);
    for user in &site.tables.users {
        if &user.account != account {
            put_user(user.uid, &user.account, &mut users)?;
        }
    }
    changed_tables(alloc, &state.tables.accounts, &users, &state.tables.limits)
}

/// The deck of the submissions that ran, between two acts of the operator, with the one of this number: of that a plain `snomon` gives what they
/// printed, but for the numbers of jobs, which begin with 1 there.
pub fn deck_of<R: Host>(site: &mut Site<R>, number: u64) -> Result<Vec<u8>, Fault> {
    let alloc = site.place.alloc();
    let commits = whole_ledger(site)?;
    match stretch_of(alloc, &commits, number)? {
        Some(stretch) => composed(alloc, &stretch.state, &stretch.texts),
        None => Err(site.place.wrong("keep/ledger", Wrong::Words("has no run of this submission"))),
    }
}

fn composed(alloc: Global, state: &State, texts: &[Vec<u8>]) -> Result<Vec<u8>, Fault> {
    let mut submissions = Vec::new(alloc);
    for text in texts {
        submissions.push(submission_of(alloc, text)?)?;
    }
    let table = whole_table(alloc, &state.tables.accounts)?;
    Ok(compose(alloc, &table, &state.catalogue, &submissions)?)
}

// The submission that stands in a submission behind the line of its account.
fn submission_of(alloc: Global, text: &[u8]) -> Result<Submission, Fault> {
    if text.is_empty() {
        return Err(Fault::Ledger);
    }
    let (line, rest) = first_line(text);
    let Ok(account) = read_name(line) else {
        return Err(Fault::Ledger);
    };
    match examine(alloc, &account, rest) {
        Ok(submission) => Ok(submission),
        Err(Stop::Refused(_)) => Err(Fault::Ledger),
        Err(Stop::Memory) => Err(Fault::Memory),
    }
}
