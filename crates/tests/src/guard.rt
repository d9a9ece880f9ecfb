//! What no deck asks of a guard: what it decides and shows of a set by itself, and the rows that it keeps. The other requests are
//! decks, which the program `rows` runs.
ghost use Rattle.mon_guard.specs.Cache.{CacheFits};

use crate::access::{ANNA, Asked, HUGO, LISA, R, RW, RWX, W, account, perms_of};
use crate::catalogue::read;
use acl_text::{AclText, Bytes};
use mon_access::{Account, Decider};
use mon_acl::Tag;
use mon_catalogue::{Catalogue, Version};
use mon_guard::{Answered, Decided, Guard, GuardAnswer, Reason};
use mon_text::{Name, read_line, read_name};
use std::alloc::Global;

/// A guard over data sets, and the name of the one that is asked for.
#[derive(Drop)]
struct Desk {
    guard: Guard,
    catalogue: Catalogue,
    name: Name,
    ghost fit: { CacheFits guard catalogue },
}

/// The data set of the worked decks.
const PAYROLL: &str = "$SET PAYROLL anna admin 3
user::rwx,user:lisa:rw-,group::r--,mask::r--,other::---
ADA 100
BOB 200

";

fn payroll(alloc: Global) -> Option<Desk> {
    let name = read_name(b"PAYROLL").ok()?;
    let catalogue = read(alloc, Version::One, PAYROLL)?;
    Some(Desk {
        guard: Guard::new(alloc),
        catalogue,
        name,
    })
}

/// The owner, one who may read, and one who may do nothing.
#[derive(Drop)]
struct Askers {
    anna: Account,
    lisa: Account,
    hugo: Account,
}

fn askers_of(alloc: Global) -> Option<Askers> {
    let anna = account(alloc, ANNA)?;
    let lisa = account(alloc, LISA)?;
    let hugo = account(alloc, HUGO)?;
    Some(Askers { anna, lisa, hugo })
}

// Whether a request is granted, or else denied by the mask.
fn is_decided(desk: &Desk, account: &Account, asked: Asked, is_granted: bool) -> bool {
    match desk
        .guard
        .decide(account, &desk.catalogue, &desk.name, perms_of(asked))
    {
        Decided::Granted => is_granted,
        Decided::Denied(Decider::Mask) => !is_granted,
        _ => false,
    }
}

// The owner may do all, lisa may read, and of a set that is not there nothing is decided.
fn decides(desk: &Desk, askers: &Askers) -> bool {
    let Ok(gone) = read_name(b"GONE") else {
        return false;
    };
    is_decided(desk, &askers.anna, RWX, true)
        && is_decided(desk, &askers.lisa, R, true)
        && is_decided(desk, &askers.lisa, W, false)
        && is_decided(desk, &askers.lisa, RW, false)
        && matches!(
            desk.guard
                .decide(&askers.anna, &desk.catalogue, &gone, perms_of(R)),
            Decided::NoSet
        )
}

// Whether the list is shown, or else denied by the entry of this type.
fn is_shown(desk: &Desk, account: &Account, denied_by: Option<Tag>) -> bool {
    let answer = desk.guard.show(account, &desk.catalogue, &desk.name);
    match (answer, denied_by) {
        (GuardAnswer::Done, None) => true,
        (GuardAnswer::Denied(Reason::By(tag, _)), Some(by)) => tag == by,
        _ => false,
    }
}

// The list and the name are shown to the owner alone, and past the end there is no name.
fn shows(desk: &Desk, askers: &Askers) -> bool {
    is_shown(desk, &askers.anna, None)
        && is_shown(desk, &askers.lisa, Some(Tag::User))
        && is_shown(desk, &askers.hugo, Some(Tag::Other))
        && desk.guard.list_name(&askers.anna, &desk.catalogue, 0)
        && !desk.guard.list_name(&askers.lisa, &desk.catalogue, 0)
        && !desk.guard.list_name(&askers.anna, &desk.catalogue, 1)
}

// What is answered to a write of the second record.
fn written(alloc: Global, desk: &mut Desk, account: &Account) -> Option<Answered> {
    match read_line(alloc, b"X", 1_024) {
        Ok(line) => desk
            .guard
            .write(account, &mut desk.catalogue, &desk.name, 1, line.as_bytes())
            .ok(),
        Err(_) => None,
    }
}

// What is answered to a read.
fn read_at(alloc: Global, desk: &mut Desk, account: &Account, at: u64) -> Option<Answered> {
    desk.guard
        .read(alloc, account, &desk.catalogue, &desk.name, at)
        .ok()
}

// Whether the entry of this type denied it, and the position stays.
fn is_denied(answered: Option<Answered>, by: Tag, at: u64) -> bool {
    match answered {
        Some(answered) => {
            matches!(&answered.answer, GuardAnswer::Denied(Reason::By(tag, None)) if *tag == by)
                && answered.position == at
        }
        None => false,
    }
}

// Whether this record is got at a position.
fn reads(alloc: Global, desk: &mut Desk, account: &Account, at: u64, text: &[u8]) -> bool {
    match read_at(alloc, desk, account, at) {
        Some(answered) => {
            matches!(&answered.answer, GuardAnswer::Got(line) if line.as_bytes() == text)
                && answered.position == at.saturating_add(1)
        }
        None => false,
    }
}

fn removed(desk: &mut Desk, account: &Account) -> GuardAnswer {
    desk.guard.remove(account, &mut desk.catalogue, &desk.name)
}

// Only its owner takes a set away, and once.
fn removes(desk: &mut Desk, owner: &Account, other: &Account) -> bool {
    matches!(removed(desk, other), GuardAnswer::Denied(Reason::NotOwner))
        && matches!(removed(desk, owner), GuardAnswer::Done)
        && matches!(removed(desk, owner), GuardAnswer::Denied(Reason::NoSet))
}

// Whether the set is given this list.
fn lists(alloc: Global, desk: &mut Desk, account: &Account, list: &[u8]) -> bool {
    let Ok(text) = Vec::from_slice(alloc, list) else {
        return false;
    };
    let text = AclText::Short(Bytes::new(text));
    matches!(
        desk.guard
            .set_acl(alloc, account, &mut desk.catalogue, &desk.name, &text),
        Ok(GuardAnswer::Done)
    )
}

// One row for each account that asked, whatever it was answered, until the set's list is another, or the set is gone.
fn keeps_and_drops(alloc: Global, desk: &mut Desk, askers: &Askers) -> bool {
    reads(alloc, desk, &askers.lisa, 0, b"ADA 100")
        && is_denied(written(alloc, desk, &askers.lisa), Tag::Mask, 1)
        && desk.guard.cached() == 1
        && is_denied(read_at(alloc, desk, &askers.hugo, 0), Tag::Other, 0)
        && desk.guard.cached() == 2
        && lists(alloc, desk, &askers.anna, b"u::rwx,u:lisa:r,g::,m::r,o::")
        && desk.guard.cached() == 0
        && reads(alloc, desk, &askers.lisa, 2, b"")
        && desk.guard.cached() == 1
        && removes(desk, &askers.anna, &askers.lisa)
        && desk.guard.cached() == 0
}

fn guards(alloc: Global) -> bool {
    match (payroll(alloc), askers_of(alloc)) {
        (Some(mut desk), Some(askers)) => {
            decides(&desk, &askers)
                && shows(&desk, &askers)
                && keeps_and_drops(alloc, &mut desk, &askers)
        }
        _ => false,
    }
}

#[test]
fn a_guard_decides_shows_and_keeps_rows(rt: HostRuntime) {
    assert!(rt; guards(rt.alloc()));
}
