//! A site that is open: its ledger, followed by the machine that runs its submissions, and what its tables say.
ghost use Rattle.std.specs.Prelude.{◌≡◌, [], IfOk};

use crate::attending::Attended;
use crate::checkpoint::known_there;
use ledger_boxes::{FileBoxes, Owner};
use ledger_folder::known::{add_answers, add_boxes, add_outs, held_files, know_claimed};
use ledger_folder::{ARCHIVE, Fault, Host, LEDGER, Place, SiteDisk, Wrong, seconds_now, tables_in};
use ledger_machine::{Bounds, SiteMachine, WatchedMachine};
use ledger_run::{Ledger, finish_claims, open_behind, open_ledger};
use ledger_sets::State;
use ledger_site::{Act, Held, edit, owners_of};
use ledger_tables::{Tables, Texts};
use mon_text::{put_number, read_count};
use sno_text::Seed;
use std::alloc::{AllocError, Global};
use std::mem;
use std::os::unix::fs::MetadataExt;

const LACKING: Wrong = Wrong::Words("lacks a commit");

/// A site that is open.
#[derive(Drop)]
pub struct Site<R: Host> {
    /// Its folder.
    pub place: Place<R>,
    /// Who runs the program.
    pub runner: u32,
    /// Its disk.
    pub disk: SiteDisk<R>,
    /// Its boxes, in the order of the users.
    pub boxes: FileBoxes<R>,
    /// What runs its submissions.
    pub machine: WatchedMachine<Attended<R>>,
    /// What its commits come to.
    pub ledger: Ledger,
    /// What its tables say.
    pub tables: Tables,
    /// Whose the boxes are, in the order of the users.
    pub owners: Vec<Owner>,
    /// The files that an ended run left claimed, in the order of their numbers.
    pub left: Vec<Held>,
    /// How often the program ended while it ran the first submission that waits.
    pub ended: u64,
    /// Behind so many commits stands the checkpoint from which it was opened; 0 where it was opened from none.
    pub checked: u64,
}

// What is known of a site's names before its ledger is open.
#[derive(Drop)]
struct Known<R: Host> {
    disk: SiteDisk<R>,
    boxes: FileBoxes<R>,
    // Under which names an ended run left files claimed.
    names: Vec<String>,
    // The places of the names that these had in their boxes.
    drops: Vec<u64>,
}

// What the tables of a site say, and what an ended run left.
#[derive(Drop)]
struct Desk {
    tables: Tables,
    owners: Vec<Owner>,
    left: Vec<Held>,
}

/// Opens a site.
///
/// # Errors
///
/// What is wrong with its folder, or with what its ledger says; memory, and what the system refuses.
pub fn open_site<R: Host>(rt: R, top: String) -> Result<Site<R>, Fault> {
    let place = Place { rt, top };
    let runner = runner_of(&place)?;
    remove_drafts(&place)?;
    let commits = commits_there(&place)?;
    let known = know(&place, runner)?;
    follow(place, runner, known, commits)
}

// What an ended run, or a full disk, left of a file that was to be put whole.
fn remove_drafts<R: Host>(place: &Place<R>) -> Result<(), Fault> {
    for name in ["keep/draft/commit", "keep/draft/answer"] {
        let path = place.path(name)?;
        place.remove(&path)?;
    }
    Ok(())
}

/// How many commits a site has. Those that stand in its ledger follow one another; the ones before them were archived, and are not looked for.
///
/// # Errors
///
/// Where one between them is missing; what the system refuses.
pub fn commits_there<R: Host>(place: &Place<R>) -> Result<u64, Fault> {
    let numbers = numbers_in(place, LEDGER)?;
    let mut first = u64::MAX;
    let mut behind = 0;
    for number in numbers.iter() {
        first = first.min(*number);
        behind = number.saturating_add(1).max(behind);
    }
    let lacking = behind
        .saturating_sub(first)
        .saturating_sub(numbers.len() as u64);
    if lacking == 0 || lacking <= archived_behind(place, first)? {
        Ok(behind)
    } else {
        Err(place.wrong(LEDGER, LACKING))
    }
}

// How many commits behind this one were archived: some are where that was broken off.
fn archived_behind<R: Host>(place: &Place<R>, first: u64) -> Result<u64, Fault> {
    if place.look(&place.path(ARCHIVE)?)?.is_none() {
        return Ok(0);
    }
    let numbers = numbers_in(place, ARCHIVE)?;
    let behind = numbers.iter().filter(|number| **number > first);
    Ok(behind.count() as u64)
}

/// The numbers of the commits in a folder.
///
/// # Errors
///
/// Where it has another file; memory, and what the system refuses.
pub fn numbers_in<R: Host>(place: &Place<R>, folder: &str) -> Result<Vec<u64>, Fault> {
    let mut numbers = Vec::new(place.alloc());
    for name in place.names(&place.path(folder)?)? {
        match read_count(name.as_bytes()) {
            Ok(number) => numbers.push(number)?,
            Err(_) => return Err(place.wrong(folder, Wrong::Words("has a file of no number"))),
        }
    }
    Ok(numbers)
}

fn know<R: Host>(place: &Place<R>, runner: u32) -> Result<Known<R>, Fault> {
    let mut disk = SiteDisk::new(place.rt.clone()?, &place.top, runner)?;
    add_outs(place, runner, &mut disk)?;
    know_boxes(place, disk)
}

fn know_boxes<R: Host>(place: &Place<R>, disk: SiteDisk<R>) -> Result<Known<R>, Fault> {
    let mut known = Known {
        disk,
        boxes: FileBoxes::new(place.rt.clone()?),
        names: Vec::new(place.alloc()),
        drops: Vec::new(place.alloc()),
    };
    known.names = know_claimed(place, &mut known.disk, &mut known.boxes, &mut known.drops)?;
    Ok(known)
}

// The machine follows the ledger, which has so many commits, and what that says is looked at.
fn follow<R: Host>(
    place: Place<R>,
    runner: u32,
    known: Known<R>,
    commits: u64,
) -> Result<Site<R>, Fault> {
    let mut known = known;
    let mut machine = new_machine(&place)?;
    let start = known_there(&place, &mut known.disk, &mut machine)?;
    let checked = match &start {
        Some(ledger) => ledger.commits,
        None => 0,
    };
    let ledger = match start {
        Some(ledger) => open_behind(ledger, &mut known.disk, &mut machine, &mut known.drops)?,
        None => {
            machine = new_machine(&place)?;
            open_ledger(
                place.alloc(),
                &mut known.disk,
                &mut machine,
                &mut known.drops,
            )?
        }
    };
    if ledger.commits != commits {
        return Err(place.wrong(LEDGER, LACKING));
    }
    let desk = desk_of(&place, &mut known, &machine.machine, &ledger)?;
    machine.watch.bound(bounds_in(&desk.tables));
    let ended = times_ended(&machine.watch, &ledger);
    Ok(Site {
        place,
        runner,
        disk: known.disk,
        boxes: known.boxes,
        machine,
        ledger,
        tables: desk.tables,
        owners: desk.owners,
        left: desk.left,
        ended,
        checked,
    })
}

// A machine that knows no change yet.
fn new_machine<R: Host>(place: &Place<R>) -> Result<WatchedMachine<Attended<R>>, AllocError>
    ensures { IfOk result (λ made. made.machine ≡ []) }
{
    Ok(WatchedMachine {
        machine: SiteMachine::new(place.alloc(), Seed::fixed()),
        watch: Attended::new(place)?,
    })
}

// How often the program ended while it ran the first submission that waits.
fn times_ended<R: Host>(watch: &Attended<R>, ledger: &Ledger) -> u64 {
    if ledger.waiting.is_empty() {
        return 0;
    }
    watch.ended(ledger.commits)
}

fn desk_of<R: Host>(
    place: &Place<R>,
    known: &mut Known<R>,
    machine: &SiteMachine,
    ledger: &Ledger,
) -> Result<Desk, Fault> {
    let tables = tables_of(place, machine)?;
    let owners = owners_at(place, machine, &tables)?;
    add_boxes(place, &owners, &mut known.boxes)?;
    add_answers(place, ledger, &mut known.disk)?;
    let names = mem::replace(&mut known.names, Vec::new(place.alloc()));
    let left = held_files(place, &owners, names)?;
    Ok(Desk {
        tables,
        owners,
        left,
    })
}

// How long a submission may run, and how much it may print.
fn bounds_in(tables: &Tables) -> Bounds {
    Bounds {
        seconds: tables.limits.seconds,
        output: tables.limits.output,
    }
}

/// Who runs the program, who has to be who made the site.
///
/// # Errors
///
/// Where the folder is none of a site, or another one's; what the system refuses.
pub fn runner_of<R: Host>(place: &Place<R>) -> Result<u32, Fault> {
    let keep = place.path("keep")?;
    let Some(seen) = place.look(&keep)? else {
        return Err(place.wrong("keep", Wrong::Words("is missing: this is no site")));
    };
    let runner = place.runner(&keep)?;
    if seen.uid() == runner {
        Ok(runner)
    } else {
        Err(place.wrong("keep", Wrong::Owner(seen.uid(), runner)))
    }
}

/// The state of a site, as its ledger has it.
pub fn state_of<'a, R: Host>(
    place: &Place<R>,
    machine: &'a SiteMachine,
) -> Result<&'a State, Fault> {
    match machine.state() {
        Some(state) if !state.tables.accounts.is_empty() => Ok(state),
        Some(_) => Err(place.wrong(LEDGER, Wrong::Words("is of a site that is not made yet"))),
        None => Err(Fault::Ledger),
    }
}

fn tables_of<R: Host>(place: &Place<R>, machine: &SiteMachine) -> Result<Tables, Fault> {
    let state = state_of(place, machine)?;
    tables_in(
        place.alloc(),
        Texts {
            accounts: &state.tables.accounts,
            users: &state.tables.users,
            limits: &state.tables.limits,
        },
    )
}

fn owners_at<R: Host>(
    place: &Place<R>,
    machine: &SiteMachine,
    tables: &Tables,
) -> Result<Vec<Owner>, Fault> {
    let state = state_of(place, machine)?;
    Ok(owners_of(place.alloc(), tables, &state.catalogue)?)
}

impl<R: Host> Site<R> {
    /// The number behind all that files stand under.
    pub fn free_number(&self) -> u64 {
        let mut free = self.ledger.next;
        for held in self.left.iter() {
            free = free.max(held.number.saturating_add(1));
        }
        free
    }

    /// Of these files in boxes, by their places, those that an ended run claimed leave their boxes: the others.
    pub fn finish(&mut self, drops: &[u64]) -> Result<Vec<u64>, Fault> {
        Ok(finish_claims(self.place.alloc(), &mut self.disk, drops)?)
    }

    /// Records an act of the operator, and makes this change.
    pub fn edit(&mut self, what: &[u8], change: &[u8]) -> Result<(), Fault> {
        let who = who_is(self.place.alloc(), self.runner)?;
        let time = seconds_now(&self.place.rt);
        let act = Act {
            time,
            who: &who,
            what,
        };
        Ok(edit(
            &mut self.disk,
            &mut self.machine,
            &mut self.ledger,
            act,
            change,
        )?)
    }
}

/// Who does something: the number of a user of the system.
pub fn who_is(alloc: Global, uid: u32) -> Result<Vec<u8>, AllocError> {
    let mut who = Vec::new(alloc);
    put_number(u64::from(uid), &mut who)?;
    Ok(who)
}
