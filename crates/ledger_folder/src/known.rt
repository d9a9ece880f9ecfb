//! What a site's disk and boxes are told of names: where answers stand, where boxes are, and what an ended run left claimed.
ghost use Rattle.std.specs.Prelude.{◌≡◌, ◌≤◌, length};
ghost use Rattle.ledger_folder.specs.Known.{place_from};

use crate::disk::SiteDisk;
use crate::fault::{Fault, Wrong};
use crate::place::{Host, Place, joined, text_of};
use ledger_boxes::{FileBoxes, Owner};
use ledger_run::{Ledger, Sender, read_claimed_name};
use ledger_site::Held;
use ledger_text::Claimed;
use mon_text::put_number;
use site_plan::shown_name;
use std::alloc::{AllocError, Global};
use std::os::unix::fs::MetadataExt;

/// The folders of answers that are the operator's, who runs the program.
pub fn add_outs<R: Host>(place: &Place<R>, runner: u32, disk: &mut SiteDisk<R>) -> Result<(), Fault>
    ensures { disk.new.files.made.calls ≡ disk.old.files.made.calls }
{
    let outs = place.path("out")?;
    for name in place.names(&outs)? {
        let folder = joined(place.alloc(), &outs, &name)?;
        add_out(place, runner, folder, disk)?;
    }
    Ok(())
}

fn add_out<R: Host>(
    place: &Place<R>,
    runner: u32,
    folder: String,
    disk: &mut SiteDisk<R>,
) -> Result<(), Fault>
    ensures { disk.new.files.made.calls ≡ disk.old.files.made.calls }
{
    match place.look(&folder)? {
        Some(seen) if seen.is_dir() && seen.uid() == runner => Ok(disk.add_out(folder)?),
        _ => Ok(()),
    }
}

/// The boxes of these users.
pub fn add_boxes<R: Host>(
    place: &Place<R>,
    owners: &[Owner],
    boxes: &mut FileBoxes<R>,
) -> Result<(), Fault>
    ensures { boxes.new.saw.sights ≡ boxes.old.saw.sights }
{
    for owner in owners {
        let path = place.path_of("in", owner.account.as_bytes())?;
        boxes.add_box(path)?;
    }
    Ok(())
}

/// The place of the owner who has this account.
pub fn place_of(owners: &[Owner], account: &[u8]) -> Option<usize>
    ensures { result ≡ place_from account.now 0 owners.now }
{
    for place in 0..owners.len() {
        if owners[place].account.as_bytes() == account {
            return Some(place);
        }
    }
    None
}

/// Where the answers stand that are owed, or will be: each in the folder of its account, under the name of its submission.
pub fn add_answers<R: Host>(
    place: &Place<R>,
    ledger: &Ledger,
    disk: &mut SiteDisk<R>,
) -> Result<(), Fault>
    ensures { disk.new.files.made.calls ≡ disk.old.files.made.calls }
{
    for waiting in ledger.waiting.iter() {
        add_answer(place, claimed_by(waiting.number, &waiting.sender), disk)?;
    }
    for owed in ledger.owed.iter() {
        add_answer(place, claimed_by(owed.number, &owed.sender), disk)?;
    }
    Ok(())
}

fn claimed_by(number: u64, sender: &Sender) -> Claimed<'_> {
    Claimed {
        number,
        account: &sender.account,
        uid: sender.uid,
        name: &sender.name,
    }
}

/// The answer to this submission stands in the folder of its account from here on, for the user whose file it was, under the name that
/// the file had.
pub fn add_answer<R: Host>(
    place: &Place<R>,
    claimed: Claimed<'_>,
    disk: &mut SiteDisk<R>,
) -> Result<(), Fault>
    ensures { disk.new.files.made.calls ≡ disk.old.files.made.calls }
{
    let folder = place.path_of("out", claimed.account)?;
    let name = answer_name(place.alloc(), claimed.number, claimed.name)?;
    match u32::try_from(claimed.uid) {
        Ok(uid) => Ok(disk.add_answer(claimed.number, uid, folder, &name)?),
        Err(_) => Err(Fault::Ledger),
    }
}

// NUMBER.NAME.out
fn answer_name(alloc: Global, number: u64, name: &[u8]) -> Result<String, Fault> {
    let mut text = Vec::new(alloc);
    put_number(number, &mut text)?;
    text.extend_from_slice(b".")?;
    text.extend_from_slice(shown_name(name))?;
    text.extend_from_slice(b".out")?;
    text_of(alloc, &text)
}

/// The names under which an ended run left files claimed: each is known to the disk and the boxes from here on, and where a file stands in
/// its box under the name that it had, that one's place is among `drops`: it leaves the box, if it is the same file.
pub fn know_claimed<R: Host>(
    place: &Place<R>,
    disk: &mut SiteDisk<R>,
    boxes: &mut FileBoxes<R>,
    drops: &mut Vec<u64>,
) -> Result<Vec<String>, Fault>
    ensures disk { disk.new.files.made.calls ≡ disk.old.files.made.calls }
    ensures boxes { boxes.new.saw.sights ≡ boxes.old.saw.sights }
{
    let taken = place.path("keep/taken")?;
    let names = place.names(&taken)?;
    for name in names.iter() {
        know_one(place, name, disk, boxes, drops)?;
    }
    Ok(names)
}

fn know_one<R: Host>(
    place: &Place<R>,
    name: &str,
    disk: &mut SiteDisk<R>,
    boxes: &mut FileBoxes<R>,
    drops: &mut Vec<u64>,
) -> Result<(), Fault>
    ensures disk { disk.new.files.made.calls ≡ disk.old.files.made.calls }
    ensures boxes { boxes.new.saw.sights ≡ boxes.old.saw.sights }
{
    let Some(claim) = read_claimed_name(name.as_bytes()) else {
        return Err(place.wrong("keep/taken", Wrong::Words("has a file of no number")));
    };
    add_held(place, name, claim.number, disk, boxes)?;
    let folder = place.path_of("in", claim.account)?;
    let own = text_of(place.alloc(), claim.name)?;
    let path = joined(place.alloc(), &folder, &own)?;
    if let Ok(Some(_)) = place.look(&path) {
        drops.push(disk.add_dropped(folder, claim.account, &own)?)?;
    }
    Ok(())
}

/// The files that an ended run left claimed, in the order of their numbers.
pub fn held_files<R: Host>(
    place: &Place<R>,
    owners: &[Owner],
    names: Vec<String>,
) -> Result<Vec<Held>, Fault> {
    let mut left = Vec::new(place.alloc());
    for name in names {
        let held = held_under(place, owners, &name)?;
        if has_number(&left, held.number) {
            return Err(place.wrong("keep/taken", Wrong::Words("has two files of one number")));
        }
        put_in_order(&mut left, held)?;
    }
    Ok(left)
}

fn has_number(all: &[Held], number: u64) -> bool {
    all.iter().any(|held| held.number == number)
}

fn held_under<R: Host>(place: &Place<R>, owners: &[Owner], name: &str) -> Result<Held, Fault> {
    let alloc = place.alloc();
    let Some(claim) = read_claimed_name(name.as_bytes()) else {
        return Err(place.wrong("keep/taken", Wrong::Words("has a file of no number")));
    };
    let Some(owner) = place_of(owners, claim.account) else {
        return Err(place.wrong(
            "keep/taken",
            Wrong::Words("has a file of an account that no user has"),
        ));
    };
    let name = shown_name(claim.name).to_vec(alloc)?;
    Ok(Held {
        number: claim.number,
        place: owner,
        name,
    })
}

// What was claimed under this number stands under this name.
fn add_held<R: Host>(
    place: &Place<R>,
    name: &str,
    number: u64,
    disk: &mut SiteDisk<R>,
    boxes: &mut FileBoxes<R>,
) -> Result<(), Fault>
    ensures disk { disk.new.files.made.calls ≡ disk.old.files.made.calls }
    ensures boxes { boxes.new.saw.sights ≡ boxes.old.saw.sights }
{
    let taken = place.path("keep/taken")?;
    let path = joined(place.alloc(), &taken, name)?;
    disk.add_claimed(number, name)?;
    boxes.add_claimed(number, path)?;
    Ok(())
}

fn put_in_order(all: &mut Vec<Held>, held: Held) -> Result<(), AllocError> {
    let place = place_for(all, held.number);
    match all.insert(place, held) {
        Ok(()) => Ok(()),
        Err(_) => Err(AllocError),
    }
}

// How many of these stand before the first with a larger number.
fn place_for(all: &[Held], number: u64) -> usize
    ensures { result ≤ length all.now }
{
    for place in 0..all.len() {
        if all[place].number > number {
            return place;
        }
    }
    all.len()
}
