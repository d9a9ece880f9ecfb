//! The change that brings one data set back to what it was in another catalogue.
ghost use Rattle.std.specs.Prelude.{◌≡◌, ◌++◌, ◌∷◌, [], None, Some, Err, IfOk, OnOk};
ghost use Rattle.mon_text.specs.declared.stop.Stop.TheVariants.{Refused};
ghost use Rattle.mon_catalogue.specs.Sets.{find_set, empty_set};
ghost use Rattle.mon_catalogue.specs.Changes.{with_changed};
ghost use Rattle.ledger_sets.specs.Applying.{Site, put_set, with_sets, after_change};
ghost use Rattle.ledger_sets.specs.Changes.{changes_between, change_text};
ghost use Rattle.ledger_sets.specs.Laws.{AreSmall};
ghost use Rattle.ledger_restoring.specs.declared.restoring.RestoreFault.TheVariants.{NeverThere};
ghost use Rattle.ledger_restoring.specs.Restoring.{restored};

use ledger_sets::laws::{changes_lead, texts_lead};
use ledger_sets::sets_change;
use mon_catalogue::{Catalogue, DataSet};
use mon_text::{Name, Stop};
use std::alloc::Global;
use std::mem;

/// Why a data set can't be brought back.
#[derive(Clone, Copy)]
pub enum RestoreFault {
    /// It was not there then, and is not there now.
    NeverThere,
    /// There is no room for it: there are 1,000 others.
    NoRoom,
}

/// The change that makes of the present data sets those in which one is as it was in the past ones. Where it was not there then, it is
/// taken out.
///
/// # Errors
///
/// `NeverThere` where it is in neither; `NoRoom` where it was there then, and 1,000 others are now. `Memory` where a growth was refused.
pub fn restore_change(
    alloc: Global,
    name: &Name,
    past: Catalogue,
    present: &Catalogue,
) -> Result<Vec<u8>, Stop<RestoreFault>>
    ensures change { IfOk result (λ text. text.items ≡ change_text (changes_between present.now (restored name.now past present.now))) }
    // Wherever these are the data sets, it leads to those.
    ensures leads { IfOk result (λ text. (site : Site) → site.sets ≡ present.now
        → AreSmall (changes_between present.now (restored name.now past present.now))
        → after_change text.items site ≡ Some (with_sets site (restored name.now past present.now))) }
    ensures never { find_set name.now past ≡ None → find_set name.now present.now ≡ None → result ≡ Err (Refused NeverThere) }
{
    if past.find(name).is_none() && present.find(name).is_none() {
        return Err(Stop::Refused(RestoreFault::NeverThere));
    }
    let mut target = copy_of(present)?;
    put_back(alloc, name, past, &mut target)?;
    leading_change(alloc, present, &target)
}

fn copy_of(catalogue: &Catalogue) -> Result<Catalogue, Stop<RestoreFault>>
    ensures { IfOk result (λ copy. copy ≡ catalogue.now) }
{
    match catalogue.clone() {
        Ok(copy) => Ok(copy),
        Err(_) => Err(Stop::Memory),
    }
}

fn no_room<R: Drop>(stop: Stop<R>) -> Stop<RestoreFault> {
    match stop {
        Stop::Refused(_) => Stop::Refused(RestoreFault::NoRoom),
        Stop::Memory => Stop::Memory,
    }
}

// The change from one catalogue to another, and that it leads there.
fn leading_change(
    alloc: Global,
    before: &Catalogue,
    after: &Catalogue,
) -> Result<Vec<u8>, Stop<RestoreFault>>
    ensures change { IfOk result (λ text. text.items ≡ change_text (changes_between before.now after.now)) }
    ensures leads { IfOk result (λ text. (site : Site) → site.sets ≡ before.now → AreSmall (changes_between before.now after.now)
        → after_change text.items site ≡ Some (with_sets site after.now)) }
{
    before.reads_back();
    after.reads_back();
    changes_lead();
    texts_lead();
    let text = sets_change(alloc, before, after)?;
    Ok(text)
}

// The data set of a name as it was; or none, if there was none.
fn put_back(
    alloc: Global,
    name: &Name,
    mut past: Catalogue,
    target: &mut Catalogue,
) -> Result<(), Stop<RestoreFault>>
    ensures { OnOk result (target.new ≡ restored name.now past target.old) }
{
    match past.find_mut(name) {
        Some(set) => put_set(alloc, name, set, target),
        None => {
            let removed = target.remove(name);
            drop(removed);
            Ok(())
        }
    }
}

#[tactic(auto, using(ledger_sets::proofs::Made::put_there))]
fn put_set(
    alloc: Global,
    name: &Name,
    set: &mut DataSet,
    target: &mut Catalogue,
) -> Result<(), Stop<RestoreFault>>
    ensures { OnOk result (target.new ≡ put_set name.now set.old target.old) }
{
    match target.find(name) {
        Some(_) => exchange(name, set, target),
        None => add(alloc, name, set, target),
    }
}

fn add(
    alloc: Global,
    name: &Name,
    set: &mut DataSet,
    target: &mut Catalogue,
) -> Result<(), Stop<RestoreFault>>
    ensures { OnOk result (target.new ≡ with_changed name.now (λ _. set.old) (target.old
        ++ (name.now, empty_set set.old.owner set.old.group set.old.mode set.old.acl) ∷ [])) }
{
    add_empty(alloc, name, set, target)?;
    exchange(name, set, target)
}

// The data set of this name and the other change places.
fn exchange(
    name: &Name,
    set: &mut DataSet,
    target: &mut Catalogue,
) -> Result<(), Stop<RestoreFault>>
    ensures { OnOk result (target.new ≡ with_changed name.now (λ _. set.old) target.old) }
{
    match target.find_mut(name) {
        Some(place) => {
            mem::swap(place, set);
            Ok(())
        }
        None => Err(Stop::Refused(RestoreFault::NoRoom)),
    }
}

// A data set of this name, with no records, is put last.
fn add_empty(
    alloc: Global,
    name: &Name,
    set: &DataSet,
    target: &mut Catalogue,
) -> Result<(), Stop<RestoreFault>>
    ensures { OnOk result (target.new ≡ target.old ++ (name.now, empty_set set.now.owner set.now.group set.now.mode set.now.acl) ∷ []) }
{
    let acl = set.acl.copy(alloc)?;
    match target.create(
        name.copy(),
        set.owner.copy(),
        set.group.copy(),
        set.mode,
        acl,
    ) {
        Ok(()) => Ok(()),
        Err(stop) => Err(no_room(stop)),
    }
}
