//! `run`: what an ended run left is brought to its end, and then what users dropped is claimed, taken up, run and answered.
use crate::answers::prune;
use crate::checkpoints::check;
use crate::folders::{WRITERS, refuse_open, wrong_in};
use crate::serving::serve;
use ledger_boxes::{BoxFault, Owner, box_fault, names_in_box};
use ledger_disk::DiskError;
use ledger_folder::{Fault, Host, Place, Wrong, add_answer, joined, seconds_now, text_of};
use ledger_opening::Site;
use ledger_run::{Claim, claimed_name};
use ledger_site::{Claimed, Held, claim_all, take_each};
use ledger_turns::in_turns;
use site_plan::shown_name;
use std::alloc::{AllocError, Global};
use std::collections::VecDeque;
use std::mem;
use std::os::unix::fs::MetadataExt;

const UNCLAIMED: Wrong = Wrong::Words("the system lets the operator not claim it: it stays there");

const UNTAKEN: Wrong = Wrong::Words(
    "the system lets the operator not take it out of its box: it stays there",
);

const UNSEEN: Wrong = Wrong::Words("can't be looked at: it is passed over");

const STRANGE: Wrong = Wrong::Words("has a name that is no text: what has it stays there");

const TWICE: Wrong = Wrong::Words("stands under two names: it stays there");

/// So many names of a box are looked at in a run.
const LOOKS: u64 = 1_000_000;

/// What a run came to.
#[derive(Drop)]
pub struct Report {
    /// How many files were taken up.
    pub taken: u64,
    /// How many of them were refused.
    pub refused: u64,
    /// How many submissions ran.
    pub run: u64,
    /// What was passed over.
    pub passed: Vec<Fault>,
    /// The number of a submission that left what found no room on the disk, if one did.
    pub full: Option<u64>,
}

impl Report {
    /// Before a run.
    pub fn new(alloc: Global) -> Report {
        Report {
            taken: 0,
            refused: 0,
            run: 0,
            passed: Vec::new(alloc),
            full: None,
        }
    }
}

// A file in a box that is to be claimed.
#[derive(Drop)]
struct Found {
    // Its place among all files in boxes.
    drop: u64,
    // The place of its user among the owners.
    owner: usize,
    name: Vec<u8>,
}

/// Runs a site. A terminal is told which submission is at work, or none.
///
/// # Errors
///
/// A folder that others may write to; memory, and what the system refuses a run.
pub fn run_site<R: Host>(
    site: &mut Site<R>,
    report: &mut Report,
    tells: bool,
) -> Result<(), Fault> {
    refuse_open(&site.place, site.runner)?;
    let found = look_into_boxes(site, report)?;
    let found = not_claimed_yet(site, found, report)?;
    take_left(site, report)?;
    take_found(site, found, report)?;
    serve(site, report, tells)?;
    prune_by_limit(site, report)?;
    check(site)
}

// Removes answers that are older than the limits keep them. What the system refuses of that is told, and ends nothing.
fn prune_by_limit<R: Host>(site: &Site<R>, report: &mut Report) -> Result<(), Fault> {
    let Some(days) = site.tables.limits.days else {
        return Ok(());
    };
    for fault in prune(site, days)?.faults {
        report.passed.push(fault)?;
    }
    Ok(())
}

// Claims what was found in boxes, and takes it up.
fn take_found<R: Host>(
    site: &mut Site<R>,
    found: Vec<Found>,
    report: &mut Report,
) -> Result<(), Fault> {
    let order = order_of(site, found)?;
    let held = claim(site, &order, report)?;
    take(site, &held, report)
}

// Takes up what an ended run left claimed: behind `not_claimed_yet`, which looks whether one of these stands in a box too.
fn take_left<R: Host>(site: &mut Site<R>, report: &mut Report) -> Result<(), Fault> {
    let none = Vec::new(site.place.alloc());
    let left = mem::replace(&mut site.left, none);
    take(site, &left, report)
}

// Takes up claimed files: each has an answer, now or later.
fn take<R: Host>(site: &mut Site<R>, all: &[Held], report: &mut Report) -> Result<(), Fault> {
    for held in all {
        know_answer(site, held)?;
    }
    let owed = site.ledger.owed.len();
    let time = seconds_now(&site.place.rt);
    take_each(
        site.place.alloc(),
        &mut site.disk,
        &mut site.machine,
        &mut site.ledger,
        &mut site.boxes,
        &mut site.owners,
        all,
        time,
    )?;
    report.taken = report.taken.saturating_add(all.len() as u64);
    let refused = site.ledger.owed.len().saturating_sub(owed);
    report.refused = report.refused.saturating_add(refused as u64);
    Ok(())
}

fn know_answer<R: Host>(site: &mut Site<R>, held: &Held) -> Result<(), Fault> {
    if held.number < site.ledger.next {
        return Ok(());
    }
    match site.owners.get(held.place) {
        Some(owner) => {
            let claimed = ledger_text::Claimed {
                number: held.number,
                account: owner.account.as_bytes(),
                uid: owner.uid,
                name: &held.name,
            };
            add_answer(&site.place, claimed, &mut site.disk)
        }
        None => Err(Fault::Ledger),
    }
}

// The files in all boxes that are served.
fn look_into_boxes<R: Host>(site: &mut Site<R>, report: &mut Report) -> Result<Vec<Found>, Fault> {
    let mut found = Vec::new(site.place.alloc());
    for owner in 0..site.owners.len() {
        match fault_of_box(site, owner)? {
            Some(fault) => report.passed.push(fault)?,
            None => look_into(site, owner, &mut found, report)?,
        }
    }
    Ok(found)
}

/// Why a box is passed over, or the folder of its answers.
pub fn fault_of_box<R: Host>(site: &Site<R>, owner: usize) -> Result<Option<Fault>, Fault> {
    let Some(one) = site.owners.get(owner) else {
        return Ok(None);
    };
    let answers = site.place.path_of("out", one.account.as_bytes())?;
    if let Some(wrong) = wrong_with_answers(site, &answers)? {
        return Ok(Some(Fault::Wrong(answers, wrong)));
    }
    let wrong = match site.boxes.box_look(owner) {
        Ok(look) => match box_fault(u64::from(site.runner), one.uid, look) {
            Some(fault) => Some(Wrong::Box(fault)),
            None => None,
        },
        Err(DiskError::Memory) => return Err(Fault::Memory),
        Err(_) => Some(UNSEEN),
    };
    match wrong {
        Some(wrong) => Ok(Some(wrong_box(site, one, wrong)?)),
        None => Ok(None),
    }
}

// What is wrong with the folder of a user's answers: it has to be the operator's, and others may not write to it.
fn wrong_with_answers<R: Host>(site: &Site<R>, path: &str) -> Result<Option<Wrong>, Fault> {
    match site.place.look(path) {
        Ok(Some(seen)) => Ok(wrong_in(&seen, site.runner, WRITERS)),
        Ok(None) => Ok(Some(Wrong::Box(BoxFault::Missing))),
        Err(Fault::Memory) => Err(Fault::Memory),
        Err(_) => Ok(Some(UNSEEN)),
    }
}

fn wrong_box<R: Host>(site: &Site<R>, owner: &Owner, wrong: Wrong) -> Result<Fault, Fault> {
    let path = site.place.path_of("in", owner.account.as_bytes())?;
    Ok(Fault::Wrong(path, wrong))
}

// At most twice as many files of a box as the limits allow submissions are claimed.
fn look_into<R: Host>(
    site: &mut Site<R>,
    owner: usize,
    found: &mut Vec<Found>,
    report: &mut Report,
) -> Result<(), Fault> {
    let most = site.tables.limits.quota.texts.saturating_mul(2) as usize;
    let names = names_in_box(site.place.alloc(), &mut site.boxes, owner, LOOKS, most)?;
    for name in names {
        add_found(site, owner, name, found, report)?;
    }
    tell_strange(site, owner, report)
}

fn tell_strange<R: Host>(site: &Site<R>, owner: usize, report: &mut Report) -> Result<(), Fault> {
    match site.owners.get(owner) {
        Some(one) if site.boxes.has_strange(owner) => {
            Ok(report.passed.push(wrong_box(site, one, STRANGE)?)?)
        }
        _ => Ok(()),
    }
}

// A file that the system shows nothing of stays in its box.
fn add_found<R: Host>(
    site: &mut Site<R>,
    owner: usize,
    name: Vec<u8>,
    found: &mut Vec<Found>,
    report: &mut Report,
) -> Result<(), Fault> {
    let Some(one) = site.owners.get(owner) else {
        return Ok(());
    };
    let account = one.account.as_bytes();
    let folder = site.place.path_of("in", account)?;
    let text = text_of(site.place.alloc(), &name)?;
    let path = joined(site.place.alloc(), &folder, &text)?;
    match site.place.look(&path) {
        Ok(Some(_)) => {}
        Ok(None) => return Ok(()),
        Err(Fault::Memory) => return Err(Fault::Memory),
        Err(fault) => return Ok(report.passed.push(fault)?),
    }
    let drop = site.disk.add_dropped(folder, account, &text)?;
    found.push(Found { drop, owner, name })?;
    Ok(())
}

// Those that an ended run claimed leave their boxes.
fn not_claimed_yet<R: Host>(
    site: &mut Site<R>,
    found: Vec<Found>,
    report: &mut Report,
) -> Result<Vec<Found>, Fault> {
    let alloc = site.place.alloc();
    let mut drops = Vec::new(alloc);
    for one in found.iter() {
        drops.push(one.drop)?;
    }
    let left = site.finish(&drops)?;
    let mut kept = Vec::new(alloc);
    for one in found {
        keep_if(site, one, &left, &mut kept, report)?;
    }
    Ok(kept)
}

// A file that is left out, and still stands there, has a second name.
fn keep_if<R: Host>(
    site: &Site<R>,
    one: Found,
    left: &[u64],
    kept: &mut Vec<Found>,
    report: &mut Report,
) -> Result<(), Fault> {
    if left.contains(&one.drop) {
        return Ok(kept.push(one)?);
    }
    let path = path_in_box(site, &one)?;
    match site.place.look(&path) {
        Ok(Some(_)) => Ok(report.passed.push(Fault::Wrong(path, TWICE))?),
        Err(Fault::Memory) => Err(Fault::Memory),
        _ => Ok(()),
    }
}

// The first file of each box, then the second of each; each run begins with another box.
fn order_of<R: Host>(site: &Site<R>, found: Vec<Found>) -> Result<Vec<Found>, Fault> {
    let alloc = site.place.alloc();
    let mut queues = Vec::new(alloc);
    for _ in 0..site.owners.len() {
        queues.push(VecDeque::new(alloc))?;
    }
    for one in found {
        put_in_queue(one, &mut queues)?;
    }
    Ok(in_turns(alloc, site.ledger.commits, queues)?)
}

fn put_in_queue(one: Found, queues: &mut Vec<VecDeque<Found>>) -> Result<(), AllocError> {
    match queues.get_mut(one.owner) {
        Some(queue) => {
            queue.push_back(one)?;
            Ok(())
        }
        None => Ok(()),
    }
}

// Claims these files, in this order: those that were. What the system let nobody claim stays in its box.
fn claim<R: Host>(
    site: &mut Site<R>,
    order: &[Found],
    report: &mut Report,
) -> Result<Vec<Held>, Fault> {
    let alloc = site.place.alloc();
    let mut drops = Vec::new(alloc);
    for one in order {
        drops.push(one.drop)?;
    }
    let first = site.free_number();
    let claimed = claim_all(
        alloc,
        &mut site.disk,
        &site.machine,
        &site.ledger,
        first,
        &drops,
    )?;
    tell_unclaimed(site, order, &claimed, report)?;
    held_of(site, order, &claimed, report)
}

// The claimed files are in the same order.
fn tell_unclaimed<R: Host>(
    site: &Site<R>,
    order: &[Found],
    claimed: &[Claimed],
    report: &mut Report,
) -> Result<(), Fault> {
    let mut made = claimed.iter();
    let mut next = made.next();
    for one in order {
        match next {
            Some(claimed) if claimed.drop == one.drop => next = made.next(),
            _ => report
                .passed
                .push(Fault::Wrong(path_in_box(site, one)?, UNCLAIMED))?,
        }
    }
    Ok(())
}

// The path of a file in its box.
fn path_in_box<R: Host>(site: &Site<R>, found: &Found) -> Result<String, Fault> {
    let alloc = site.place.alloc();
    let account = account_of(site, found);
    let folder = site.place.path_of("in", account)?;
    let name = text_of(alloc, &found.name)?;
    Ok(joined(alloc, &folder, &name)?)
}

// The path of a file in its box under the number that it was claimed by.
fn path_claimed<R: Host>(site: &Site<R>, found: &Found, number: u64) -> Result<String, Fault> {
    let alloc = site.place.alloc();
    let claim = Claim {
        number,
        account: account_of(site, found),
        name: &found.name,
    };
    let bytes = claimed_name(alloc, claim)?;
    let name = text_of(alloc, &bytes)?;
    let taken = site.place.path("keep/taken")?;
    Ok(joined(alloc, &taken, &name)?)
}

fn account_of<'a, R: Host>(site: &'a Site<R>, found: &Found) -> &'a [u8] {
    match site.owners.get(found.owner) {
        Some(owner) => owner.account.as_bytes(),
        None => b"".as_slice(),
    }
}

// Whether one file stands under both names.
fn is_same_file<R: Host>(place: &Place<R>, one: &str, other: &str) -> Result<bool, Fault> {
    let (Ok(Some(one)), Some(other)) = (place.look(one), place.look(other)?) else {
        return Ok(false);
    };
    Ok(one.dev() == other.dev() && one.ino() == other.ino())
}

fn held_of<R: Host>(
    site: &mut Site<R>,
    order: &[Found],
    claimed: &[Claimed],
    report: &mut Report,
) -> Result<Vec<Held>, Fault> {
    let mut all = Vec::new(site.place.alloc());
    let mut at = 0;
    for one in claimed {
        at = place_behind(order, at, one.drop);
        if let Some(found) = order.get(at) {
            add_one(site, found, one.number, &mut all, report)?;
        }
    }
    Ok(all)
}

// The place of a file, from this one on.
fn place_behind(order: &[Found], from: usize, drop: u64) -> usize {
    for place in from..order.len() {
        if order[place].drop == drop {
            return place;
        }
    }
    order.len()
}

// A file that the system let nobody take out of its box stays there alone.
fn add_one<R: Host>(
    site: &mut Site<R>,
    found: &Found,
    number: u64,
    all: &mut Vec<Held>,
    report: &mut Report,
) -> Result<(), Fault> {
    let alloc = site.place.alloc();
    let path = path_claimed(site, found, number)?;
    let own = path_in_box(site, found)?;
    if is_same_file(&site.place, &own, &path)? {
        site.place.remove(&path)?;
        return Ok(report.passed.push(Fault::Wrong(own, UNTAKEN))?);
    }
    site.boxes.add_claimed(number, path)?;
    let shown = shown_name(&found.name).to_vec(alloc)?;
    all.push(Held {
        number,
        place: found.owner,
        name: shown,
    })?;
    Ok(())
}
