//! `status`: what stands, and what is not as it must be. `verify`: the ledger is read through, and each submission runs again.
use crate::folders::check_folders;
use crate::running::fault_of_box;
use crate::sizes::{Sizes, sizes_of};
use crate::ties::largest_tied;
use deck_syntax::first_line;
use ledger_boxes::names_in_box;
use ledger_folder::{ARCHIVE, Fault, Host, Place, SiteDisk, Wrong};
use ledger_machine::SiteMachine;
use ledger_opening::{Site, commits_there};
use ledger_run::read_ledger;
use ledger_site::{first_broken, first_other};
use parts::Text;
use sno_text::Seed;
use std::alloc::{AllocError, Global};
use std::os::unix::fs::MetadataExt;
use text_names::text_of;

/// How often the names of commits are listed that lack one.
const LISTINGS: u64 = 10;

/// So many names of a box are looked at.
const LOOKS: u64 = 1_000_000;

/// Of so many submissions that wait it is told how many are tied together.
const MOST_TIED: usize = 2_000;

/// What stands in a site.
#[derive(Drop)]
pub struct Standing {
    /// How many commits.
    pub commits: u64,
    /// The number behind that of the last submission.
    pub next: u64,
    /// How many submissions wait in the ledger.
    pub waiting: usize,
    /// How many of those are tied together by data sets, at the most.
    pub tied: u64,
    /// How many answers are owed.
    pub owed: usize,
    /// How many files an ended run left claimed.
    pub left: usize,
    /// How many files wait in boxes, of each account.
    pub boxes: Vec<Waiting>,
    /// How many bytes its files have, if that is asked.
    pub sizes: Option<Sizes>,
    /// What is wrong.
    pub faults: Vec<Fault>,
}

/// What waits in a box.
#[derive(Drop)]
pub struct Waiting {
    /// The account.
    pub account: Vec<u8>,
    /// How many files.
    pub files: usize,
}

/// What stands in a site, with the sizes of its files or without.
///
/// # Errors
///
/// Memory, and what the system refuses.
pub fn standing_of<R: Host>(site: &mut Site<R>, with_sizes: bool) -> Result<Standing, Fault> {
    let mut faults = Vec::new(site.place.alloc());
    check_folders(&site.place, site.runner, &mut faults)?;
    let boxes = look_into_boxes(site, &mut faults)?;
    let tied = tied_in(site)?;
    let sizes = if with_sizes {
        Some(sizes_of(&site.place)?)
    } else {
        None
    };
    Ok(Standing {
        commits: site.ledger.commits,
        next: site.ledger.next,
        waiting: site.ledger.waiting.len(),
        tied,
        owed: site.ledger.owed.len(),
        left: site.left.len(),
        boxes,
        sizes,
        faults,
    })
}

// How many of the submissions that wait are tied together, of the first 2,000. One that asks for all data sets ties all of them, and so does
// one with a card that is refused.
fn tied_in<R: Host>(site: &Site<R>) -> Result<u64, AllocError> {
    let alloc = site.place.alloc();
    let mut texts = Vec::new(alloc);
    for waiting in site.ledger.waiting.iter().take(MOST_TIED) {
        add_text(alloc, &waiting.text, &mut texts)?;
    }
    largest_tied(alloc, &texts)
}

fn add_text(alloc: Global, waiting: &[u8], texts: &mut Vec<Text>) -> Result<(), AllocError> {
    let number = texts.len() as u64;
    let text = text_of(alloc, number, 1, cards_in(waiting))?;
    texts.push(text)?;
    Ok(())
}

// The cards of a submission that waits, which stand behind the line of its account.
fn cards_in(waiting: &[u8]) -> &[u8] {
    if waiting.is_empty() {
        return waiting;
    }
    let (_account, cards) = first_line(waiting);
    cards
}

fn look_into_boxes<R: Host>(
    site: &mut Site<R>,
    faults: &mut Vec<Fault>,
) -> Result<Vec<Waiting>, Fault> {
    let mut all = Vec::new(site.place.alloc());
    for owner in 0..site.owners.len() {
        match fault_of_box(site, owner)? {
            Some(fault) => faults.push(fault)?,
            None => look_into(site, owner, &mut all)?,
        }
    }
    Ok(all)
}

fn look_into<R: Host>(
    site: &mut Site<R>,
    owner: usize,
    all: &mut Vec<Waiting>,
) -> Result<(), Fault> {
    let alloc = site.place.alloc();
    let names = names_in_box(alloc, &mut site.boxes, owner, LOOKS, usize::MAX)?;
    if let Some(one) = site.owners.get(owner) {
        let account = one.account.as_bytes().to_vec(alloc)?;
        all.push(Waiting {
            account,
            files: names.len(),
        })?;
    }
    Ok(())
}

/// What a reading of the whole ledger finds.
#[derive(Clone, Copy)]
pub enum Verified {
    /// So many commits stand, each behind the one before it, and each submission's run comes to the same.
    Whole(usize),
    /// The commit of this number does not name the one before it.
    Broken(u64),
    /// The run that the commit of this number has comes to something else.
    Other(u64),
}

/// Reads the ledger through, and runs each submission again.
///
/// # Errors
///
/// Memory, and what the system refuses.
pub fn verify<R: Host>(rt: R, top: String) -> Result<Verified, Fault> {
    let place = Place { rt, top };
    let commits = commits_in(&place)?;
    verify_commits(place.alloc(), &commits)
}

fn commits_in<R: Host>(place: &Place<R>) -> Result<Vec<Vec<u8>>, Fault> {
    let Some(keep) = place.look(&place.path("keep")?)? else {
        return Err(place.wrong("keep", Wrong::Words("is missing: this is no site")));
    };
    let count = count_commits(place)?;
    let mut disk = SiteDisk::new(place.rt.clone()?, &place.top, keep.uid())?;
    let commits = read_ledger(place.alloc(), &mut disk, count)?;
    if commits.len() as u64 == count {
        Ok(commits)
    } else {
        Err(place.wrong(ARCHIVE, Wrong::Words("lacks a commit")))
    }
}

// While a run adds commits, a list of their names may lack one for a moment.
fn count_commits<R: Host>(place: &Place<R>) -> Result<u64, Fault> {
    for _ in 0..LISTINGS {
        match commits_there(place) {
            Err(Fault::Wrong(..)) => {}
            counted => return counted,
        }
    }
    commits_there(place)
}

fn verify_commits(alloc: Global, commits: &[Vec<u8>]) -> Result<Verified, Fault> {
    if let Some(number) = first_broken(alloc, commits)? {
        return Ok(Verified::Broken(number));
    }
    let mut machine = SiteMachine::new(alloc, Seed::fixed());
    match first_other(alloc, &mut machine, commits)? {
        Some(number) => Ok(Verified::Other(number)),
        None => Ok(Verified::Whole(commits.len())),
    }
}
