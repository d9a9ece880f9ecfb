//! What changes one catalogue into another, as the texts of records.
ghost use Rattle.std.specs.Prelude.{◌≡◌, ◌<◌, ◌+◌, ◌++◌, ◌∷◌, [], map, drop, length, IfOk, OnOk};
ghost use Rattle.mon_catalogue.specs.Text.{text_of};
ghost use Rattle.ledger_text.specs.Records.{Keep, Gone};
ghost use Rattle.ledger_sets.specs.Changes.{whole, changed, said_text, changes_between};
ghost use Rattle.ledger_sets.specs.Parts.{those_of};
ghost use Rattle.ledger_sets.specs.Writing.{texts_in, said_texts};

use crate::heads::{head_text, same_head};
use crate::part::Part;
use crate::records::{records_text, shared};
use ledger_text::{Record, record_text};
use mon_catalogue::{Catalogue, DataSet, Records};
use mon_text::Name;
use std::alloc::{AllocError, Global};

// Appends the texts of the changes from these data sets to those of a catalogue.
pub(crate) fn put_changes(
    alloc: Global,
    before: Part<'_>,
    after: &Catalogue,
    out: &mut Vec<Vec<u8>>,
) -> Result<(), AllocError>
    ensures { OnOk result (texts_in out.new.items ≡ texts_in out.old.items
        ++ said_texts (changes_between (those_of before.entry.which.now before.entry.catalogue.now) after.now)) }
{
    let met = put_met(alloc, before, after, out)?;
    put_new(alloc, after, met, out)
}

// For each data set that was: whether it is met again, and what changed of it; and how many are met.
#[tactic(auto, using(crate::proofs::Walking::all_met, crate::proofs::Copying::none_of))]
fn put_met(
    alloc: Global,
    before: Part<'_>,
    after: &Catalogue,
    out: &mut Vec<Vec<u8>>,
) -> Result<usize, AllocError>
    ensures { IfOk result (λ met. texts_in out.old.items ++ said_texts (changes_between (those_of before.entry.which.now before.entry.catalogue.now) after.now)
        ≡ texts_in out.new.items ++ said_texts (map whole (drop met after.now))) }
{
    let mut met = 0;
    for place in 0..before.catalogue.len() {
        let now = put_next(alloc, before, place, after, met, out)?;
        met = now;
    }
    Ok(met)
}

// The same for the data set at this place, if it is one of them, where so many are met.
#[tactic(auto, using(crate::proofs::Walking::met_again, crate::proofs::Walking::gone_before, crate::proofs::Walking::gone_last))]
fn put_next(
    alloc: Global,
    before: Part<'_>,
    place: usize,
    after: &Catalogue,
    met: usize,
    out: &mut Vec<Vec<u8>>,
) -> Result<usize, AllocError>
    ensures { IfOk result (λ now. texts_in out.old.items
        ++ said_texts (changes_between (those_of before.entry.which.now (drop place before.entry.catalogue.now)) (drop met after.now))
        ≡ texts_in out.new.items
        ++ said_texts (changes_between (those_of before.entry.which.now (drop (place + 1) before.entry.catalogue.now)) (drop now after.now))) }
{
    let _count = after.len();
    let Some((old, was)) = before.at(place) else {
        return Ok(met);
    };
    match after.at(met) {
        Some((new, is)) if old == new => {
            put_changed(alloc, old, was, is, out)?;
            Ok(met + 1)
        }
        _ => {
            put_gone(alloc, old, out)?;
            Ok(met)
        }
    }
}

// The data sets from this place on are new.
#[tactic(auto, using(crate::proofs::Walking::all_new))]
fn put_new(
    alloc: Global,
    after: &Catalogue,
    met: usize,
    out: &mut Vec<Vec<u8>>,
) -> Result<(), AllocError>
    ensures { OnOk result (texts_in out.new.items ≡ texts_in out.old.items ++ said_texts (map whole (drop met after.now))) }
{
    for place in met..after.len() {
        put_at(alloc, after, place, out)?;
    }
    Ok(())
}

fn put_at(
    alloc: Global,
    after: &Catalogue,
    place: usize,
    out: &mut Vec<Vec<u8>>,
) -> Result<(), AllocError>
    requires { place < length after.now }
    ensures { OnOk result (texts_in out.new.items ++ said_texts (map whole (drop (place + 1) after.now))
        ≡ texts_in out.old.items ++ said_texts (map whole (drop place after.now))) }
{
    match after.at(place) {
        Some((name, set)) => put_whole(alloc, name, set, out),
        None => Ok(()),
    }
}

// A data set of this name was so, and is so.
fn put_changed(
    alloc: Global,
    name: &Name,
    was: &DataSet,
    is: &DataSet,
    out: &mut Vec<Vec<u8>>,
) -> Result<(), AllocError>
    ensures { OnOk result (texts_in out.new.items ≡ texts_in out.old.items ++ said_texts (changed name.now was.now is.now)) }
{
    if !same_head(alloc, was, is)? {
        return put_whole(alloc, name, is, out);
    }
    let first = shared(&was.records, &is.records);
    if first == was.records.len() && first == is.records.len() {
        return Ok(());
    }
    put_kept(alloc, name, first, &is.records, out)
}

pub(crate) fn put_whole(
    alloc: Global,
    name: &Name,
    set: &DataSet,
    out: &mut Vec<Vec<u8>>,
) -> Result<(), AllocError>
    ensures { OnOk result (texts_in out.new.items ≡ texts_in out.old.items ++ said_text (whole (name.now, set.now)) ∷ []) }
{
    let head = head_text(alloc, name, set)?;
    let records = records_text(alloc, &set.records, 0)?;
    let text = record_text(alloc, 0, Record::Set(0, name.as_bytes(), &head, &records))?;
    out.push(text)?;
    Ok(())
}

fn put_kept(
    alloc: Global,
    name: &Name,
    first: u64,
    records: &Records,
    out: &mut Vec<Vec<u8>>,
) -> Result<(), AllocError>
    ensures { OnOk result (texts_in out.new.items ≡ texts_in out.old.items ++ said_text (Keep 0 name.now first (text_of (drop first records.now))) ∷ []) }
{
    let behind = records_text(alloc, records, first)?;
    let text = record_text(alloc, 0, Record::Keep(0, name.as_bytes(), first, &behind))?;
    out.push(text)?;
    Ok(())
}

fn put_gone(alloc: Global, name: &Name, out: &mut Vec<Vec<u8>>) -> Result<(), AllocError>
    ensures { OnOk result (texts_in out.new.items ≡ texts_in out.old.items ++ said_text (Gone 0 name.now) ∷ []) }
{
    let text = record_text(alloc, 0, Record::Gone(0, name.as_bytes()))?;
    out.push(text)?;
    Ok(())
}
