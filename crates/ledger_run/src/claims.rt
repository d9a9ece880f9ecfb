//! How files are claimed: call by call. Where the system refuses one, it stays where it is, and the others are claimed.
ghost use Rattle.std.specs.Prelude.{◌≡◌, ◌+◌, ◌^◌, ◌<◌, [], ◌∷◌, true, false, length, IfOk, OnOk, OnErr};
ghost use Rattle.ledger_disk.specs.Disks.{Link, Remove};
ghost use Rattle.ledger_disk.specs.declared.name.Name.TheVariants.{Dropped, Claimed};
ghost use Rattle.ledger_disk.specs.Plans.{Did};
ghost use Rattle.ledger_laws.specs.Claims.{links, removals};
ghost use Rattle.ledger_run.specs.Claiming.{DoesSome, DidSome, DoesNext, LinksNext, ClaimsSome, ClaimsBegun};
ghost use Rattle.ledger_run.specs.Moments.{KeepsEach};
ghost use Rattle.ledger_run.specs.Runs.{seen_ledger, SafeFrom, CarriesOn};

use crate::{Ledger, LedgerError, Machine};
use ledger_disk::{Disk, DiskError, Folder, Name};
use std::alloc::Global;

/// Which files were claimed.
#[derive(Drop)]
pub struct Claims {
    /// The places of those that stand under numbers, in the order of these.
    pub made: Vec<u64>,
    /// The places of those of them that left their boxes. What did not is still under both names: the next run finishes that.
    pub gone: Vec<u64>,
}

// Gives a file this number as its second name; whether the system let it.
fn link_one<D: Disk>(disk: &mut D, number: u64, drop: u64) -> Result<bool, DiskError>
    ensures linked { IfOk result (λ linked. linked ≡ true → Did D.calls (Link (Dropped drop) (Claimed number) ∷ []) disk.old disk.new) }
    ensures stays { IfOk result (λ linked. linked ≡ false → D.calls disk.new ≡ D.calls disk.old) }
    ensures err { OnErr result (D.calls disk.new ≡ D.calls disk.old) }
{
    match disk.link(Name::Dropped(drop), Name::Claimed(number)) {
        Ok(()) => Ok(true),
        Err(DiskError::Memory) => Err(DiskError::Memory),
        Err(DiskError::Full | DiskError::Failed) => Ok(false),
    }
}

// The next of these files gets this number, if the system lets it; which number is free then.
fn link_next<D: Disk>(
    disk: &mut D,
    number: u64,
    drop: u64,
    made: &mut Vec<u64>,
) -> Result<u64, DiskError>
    requires { number + 1 < 2 ^ 64 }
    ensures ok { IfOk result (λ next. LinksNext D.calls number next drop made.old.items made.new.items disk.old disk.new) }
    ensures err { OnErr result (DidSome D.calls (links number) (drop ∷ []) disk.old disk.new) }
{
    let linked = link_one(disk, number, drop)?;
    if linked {
        made.push(drop)?;
        return Ok(number + 1);
    }
    Ok(number)
}

// Each of these files gets a number as its second name, from this one on, if the system lets it.
fn link_each<D: Disk>(
    disk: &mut D,
    first: u64,
    drops: &[u64],
    made: &mut Vec<u64>,
) -> Result<(), DiskError>
    requires room { first + length drops.now < 2 ^ 64 }
    requires none { made.old.items ≡ [] }
    ensures ok { OnOk result (DoesSome D.calls (links first) drops.now made.new.items disk.old disk.new) }
    ensures err { OnErr result (DidSome D.calls (links first) drops.now disk.old disk.new) }
{
    let mut number = first;
    for drop in drops {
        let next = link_next(disk, number, *drop, made)?;
        number = next;
    }
    Ok(())
}

// Removes the first name of a file; whether the system let it.
fn remove_one<D: Disk>(disk: &mut D, drop: u64) -> Result<bool, DiskError>
    ensures removed { IfOk result (λ removed. removed ≡ true → Did D.calls (Remove (Dropped drop) ∷ []) disk.old disk.new) }
    ensures stays { IfOk result (λ removed. removed ≡ false → D.calls disk.new ≡ D.calls disk.old) }
    ensures err { OnErr result (D.calls disk.new ≡ D.calls disk.old) }
{
    match disk.remove(Name::Dropped(drop)) {
        Ok(()) => Ok(true),
        Err(DiskError::Memory) => Err(DiskError::Memory),
        Err(DiskError::Full | DiskError::Failed) => Ok(false),
    }
}

fn remove_next<D: Disk>(disk: &mut D, drop: u64, gone: &mut Vec<u64>) -> Result<(), DiskError>
    ensures ok { OnOk result (DoesNext D.calls removals drop gone.old.items gone.new.items disk.old disk.new) }
    ensures err { OnErr result (DidSome D.calls removals (drop ∷ []) disk.old disk.new) }
{
    let removed = remove_one(disk, drop)?;
    if removed {
        gone.push(drop)?;
        return Ok(());
    }
    Ok(())
}

// Removes the first name of each of these files, if the system lets it.
pub(crate) fn remove_each<D: Disk>(
    disk: &mut D,
    drops: &[u64],
    gone: &mut Vec<u64>,
) -> Result<(), DiskError>
    requires { gone.old.items ≡ [] }
    ensures ok { OnOk result (DoesSome D.calls removals drops.now gone.new.items disk.old disk.new) }
    ensures err { OnErr result (DidSome D.calls removals drops.now disk.old disk.new) }
{
    for drop in drops {
        remove_next(disk, *drop, gone)?;
    }
    Ok(())
}

// Claims these files, under the numbers from this one on.
fn make_claims<D: Disk>(
    disk: &mut D,
    first: u64,
    drops: &[u64],
    made: &mut Vec<u64>,
    gone: &mut Vec<u64>,
) -> Result<(), DiskError>
    requires room { first + length drops.now < 2 ^ 64 }
    requires none { made.old.items ≡ [] }
    requires none_gone { gone.old.items ≡ [] }
    ensures began { ClaimsBegun D.calls first drops.now disk.old disk.new }
    ensures did { OnOk result (ClaimsSome D.calls first drops.now made.new.items gone.new.items disk.old disk.new) }
{
    link_each(disk, first, drops, made)?;
    disk.sync_folder(Folder::Taken)?;
    remove_each(disk, made, gone)?;
    disk.sync_folder(Folder::Boxes)?;
    Ok(())
}

/// Claims these files, under the numbers from this one on, while the ledger stays what it is: an act of a run. A file that the system
/// refuses to link stays in its box, and no number is used for it; the others are claimed all the same. No file is lost: a crash at any
/// moment leaves it in its box, or under a number.
///
/// # Errors
///
/// Where a growth was refused, or a folder could not be brought to the disk.
pub fn claim_beside<D: Disk, M: Machine>(
    alloc: Global,
    disk: &mut D,
    machine: &M,
    ledger: &Ledger,
    first: u64,
    drops: &[u64],
) -> Result<Claims, DiskError>
    requires { first + length drops.now < 2 ^ 64 }
    ensures did { IfOk result (λ claims. ClaimsSome D.calls first drops.now claims.made.items claims.gone.items disk.old disk.new) }
    ensures kept { KeepsEach D.calls first disk.old disk.new }
    ensures any_moment { SafeFrom D.calls M.step (seen_ledger ledger.now) (M.behind machine.now) disk.old disk.new }
    ensures done { OnOk result (CarriesOn D.calls M.step (seen_ledger ledger.now) (M.behind machine.now)
        (seen_ledger ledger.now) (M.behind machine.now) disk.old disk.new) }
{
    let mut made = Vec::new(alloc);
    let mut gone = Vec::new(alloc);
    make_claims(disk, first, drops, &mut made, &mut gone)?;
    Ok(Claims { made, gone })
}

/// Removes a claimed file that is recorded, while the ledger stays what it is: an act of a run, behind the record. A crash may leave the
/// file, and then it is removed again.
///
/// # Errors
///
/// Where no record has its number or a later one (`Refused`), or the disk failed.
pub fn remove_claimed<D: Disk, M: Machine>(
    disk: &mut D,
    machine: &M,
    ledger: &Ledger,
    number: u64,
) -> Result<(), LedgerError>
    ensures did { OnOk result (Did D.calls (Remove (Claimed number) ∷ []) disk.old disk.new) }
    ensures recorded { OnOk result (number < ledger.now.next) }
    ensures any_moment { SafeFrom D.calls M.step (seen_ledger ledger.now) (M.behind machine.now) disk.old disk.new }
    ensures done { OnOk result (CarriesOn D.calls M.step (seen_ledger ledger.now) (M.behind machine.now)
        (seen_ledger ledger.now) (M.behind machine.now) disk.old disk.new) }
{
    if ledger.next <= number {
        return Err(LedgerError::Refused);
    }
    disk.remove(Name::Claimed(number))?;
    Ok(())
}
