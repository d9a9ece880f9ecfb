//! The files that a run claims. Where the system refuses one, the others are claimed all the same, in passes.
ghost use Rattle.std.specs.Prelude.{◌≡◌, ◌≤◌, ◌⊎◌, ◌+◌, ◌++◌, [], ◌∷◌, length, IfOk, OnOk};
ghost use Rattle.ledger_laws.specs.Claims.{AreOf};
ghost use Rattle.ledger_run.specs.Claiming.{ClaimsSome};
ghost use Rattle.ledger_run.specs.Moments.{KeepsEach};
ghost use Rattle.ledger_run.specs.Runs.{seen_ledger, SafeFrom, CarriesOn};
ghost use Rattle.ledger_site.specs.Claiming.{numbered, ClaimsAll};

use ledger_disk::Disk;
use ledger_run::{Claims, Ledger, LedgerError, Machine, claim_beside};
use std::alloc::{AllocError, Global};

/// A file that was claimed.
#[derive(Clone, Copy)]
pub struct Claimed {
    /// Its number.
    pub number: u64,
    /// Its place among the files in boxes.
    pub drop: u64,
}

// No file has this number or a later one, and no run claims so many files.
const MOST: u64 = 1 << 62;

// Claims these files, under the numbers from this one on.
fn claim_some<D: Disk, M: Machine>(
    alloc: Global,
    disk: &mut D,
    machine: &M,
    ledger: &Ledger,
    first: u64,
    drops: &[u64],
) -> Result<Claims, LedgerError>
    ensures did { IfOk result (λ claims. ClaimsSome D.calls first drops.now claims.made.items claims.gone.items disk.old disk.new) }
    ensures any_moment { SafeFrom D.calls M.step (seen_ledger ledger.now) (M.behind machine.now) disk.old disk.new }
    ensures done { OnOk result (CarriesOn D.calls M.step (seen_ledger ledger.now) (M.behind machine.now)
        (seen_ledger ledger.now) (M.behind machine.now) disk.old disk.new) }
{
    if first >= MOST || drops.len() as u64 >= MOST {
        return Err(LedgerError::Refused);
    }
    let claims = claim_beside(alloc, disk, machine, ledger, first, drops)?;
    Ok(claims)
}

// Which files were claimed so far, which are to be tried next, and the number from which on they are.
#[derive(Drop)]
struct Passes {
    all: Vec<Claimed>,
    rest: Vec<u64>,
    next: u64,
}

impl Passes {
    // A pass is over, in which these files were claimed.
    fn follow(&mut self, alloc: Global, made: &[u64]) -> Result<(), LedgerError>
        ensures all { OnOk result (self.new.all.items ≡ self.old.all.items ++ numbered self.old.next made.now) }
        ensures rest { OnOk result (AreOf self.new.rest.items self.old.rest.items) }
        ensures next { OnOk result (self.old.next + length made.now ≤ self.new.next) }
    {
        let free = add_claimed(self.next, made, &mut self.all)?;
        let others = others(alloc, &self.rest, made)?;
        self.rest = others;
        self.next = free;
        Ok(())
    }
}

// These were claimed under the numbers from this one on. The number behind the next one, which was refused a file, if one was.
fn add_claimed(first: u64, drops: &[u64], all: &mut Vec<Claimed>) -> Result<u64, LedgerError>
    ensures all { OnOk result (all.new.items ≡ all.old.items ++ numbered first drops.now) }
    ensures next { IfOk result (λ next. next ≡ first + length drops.now + 1) }
{
    let mut number = first;
    for place in drops {
        if number >= MOST {
            return Err(LedgerError::Refused);
        }
        all.push(Claimed {
            number,
            drop: *place,
        })?;
        number += 1;
    }
    if number >= MOST {
        return Err(LedgerError::Refused);
    }
    Ok(number + 1)
}

// The files that were not claimed, but for the first of them, which the system refused.
fn others(alloc: Global, drops: &[u64], made: &[u64]) -> Result<Vec<u64>, AllocError>
    ensures { IfOk result (λ others. AreOf others.items drops.now) }
{
    let mut others = Vec::new(alloc);
    let mut is_refused = false;
    for place in drops {
        is_refused = add_other(*place, made, is_refused, &mut others)?;
    }
    Ok(others)
}

// Adds a file that was not claimed, if one was refused before; whether one was refused then.
fn add_other(
    place: u64,
    made: &[u64],
    is_refused: bool,
    others: &mut Vec<u64>,
) -> Result<bool, AllocError>
    ensures { OnOk result ((others.new.items ≡ others.old.items) ⊎ (others.new.items ≡ others.old.items ++ place ∷ [])) }
{
    if made.contains(&place) {
        return Ok(is_refused);
    }
    if !is_refused {
        return Ok(true);
    }
    others.push(place)?;
    Ok(true)
}

/// Claims these files, by their places, under numbers from this one on: no file has one of these. A file that the system refuses stays in
/// its box, and the number that it would have is left out: so a disk may name what it links by what it was told of the place, and may
/// refuse every file behind one that was refused under its number. No file is lost: a crash at any moment leaves each in its box, or
/// under a number.
///
/// # Errors
///
/// Where the disk failed, a growth was refused, or there are no more numbers (`Refused`).
pub fn claim_all<D: Disk, M: Machine>(
    alloc: Global,
    disk: &mut D,
    machine: &M,
    ledger: &Ledger,
    first: u64,
    drops: &[u64],
) -> Result<Vec<Claimed>, LedgerError>
    ensures did { IfOk result (λ all. ClaimsAll D.calls first drops.now all.items disk.old disk.new) }
    ensures kept { OnOk result (KeepsEach D.calls first disk.old disk.new) }
    ensures any_moment { SafeFrom D.calls M.step (seen_ledger ledger.now) (M.behind machine.now) disk.old disk.new }
    ensures done { OnOk result (CarriesOn D.calls M.step (seen_ledger ledger.now) (M.behind machine.now)
        (seen_ledger ledger.now) (M.behind machine.now) disk.old disk.new) }
{
    let mut passes = Passes {
        all: Vec::new(alloc),
        rest: drops.to_vec(alloc)?,
        next: first,
    };
    for _ in 0..drops.len() {
        let claims = claim_some(alloc, disk, machine, ledger, passes.next, &passes.rest)?;
        passes.follow(alloc, &claims.made)?;
        if passes.rest.is_empty() {
            return Ok(passes.all);
        }
    }
    Ok(passes.all)
}
