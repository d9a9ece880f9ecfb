//! A data set as a change has it: its head and its records, read as lines of a catalogue's text.
ghost use Rattle.std.specs.Prelude.{◌≡◌, ◌+◌, ◌<◌, ◌≤◌, ◌^◌, ◌++◌, ◌∷◌, [], length, Ok, IfOk, IfSome, OnOk};
ghost use Rattle.std.specs.List.{fold};
ghost use Rattle.std.specs.Str.Lines.{lines};
ghost use Rattle.mon_text.specs.Lines.{is_line};
ghost use Rattle.mon_catalogue.specs.declared.version.Version.TheVariants.{Two};
ghost use Rattle.mon_catalogue.specs.Progress.{step, lines_taken};
ghost use Rattle.mon_catalogue.specs.Reading.{catalogue_of};
ghost use Rattle.mon_catalogue.specs.Sets.{Sets};
ghost use Rattle.mon_catalogue.specs.declared.data_set.DataSet.{DataSet as AnySet};

use crate::NoChange;
use deck_syntax::first_line;
use mon_catalogue::{Catalogue, DataSet, Loading, Records, Version};
use mon_text::{Name, Stop};
use std::alloc::{AllocError, Global};
use std::mem;

// No text has so many bytes.
pub(crate) const MOST_BYTES: usize = 1 << 62;

// The data sets that two texts spell, one behind the other.
pub(crate) fn read_sets(
    alloc: Global,
    head: &[u8],
    records: &[u8],
) -> Result<Catalogue, Stop<NoChange>>
    ensures { IfOk result (λ sets. catalogue_of Two (lines head.now ++ lines records.now) ≡ Ok sets) }
{
    if head.len() >= MOST_BYTES || records.len() >= MOST_BYTES {
        return Err(Stop::Refused(NoChange));
    }
    let mut loading = Loading::new(alloc, Version::Two);
    take_lines(&mut loading, head)?;
    take_lines(&mut loading, records)?;
    match loading.finish() {
        Ok(sets) => Ok(sets),
        Err(stop) => Err(stopped(stop)),
    }
}

// Takes the lines of a text.
pub(crate) fn take_lines(loading: &mut Loading, text: &[u8]) -> Result<(), Stop<NoChange>>
    requires { lines_taken loading.old + length text.now < 2 ^ 63 }
    ensures taken { OnOk result (loading.new ≡ fold step loading.old (lines text.now)) }
    ensures counted { lines_taken loading.new ≤ lines_taken loading.old + length text.now }
{
    let mut rest = text;
    'lines: while !rest.is_empty() {
        let (line, behind) = first_line(rest);
        take_line(loading, line)?;
        rest = behind;
    }
    Ok(())
}

fn take_line(loading: &mut Loading, line: &[u8]) -> Result<(), Stop<NoChange>>
    requires { lines_taken loading.old < 2 ^ 63 }
    ensures taken { OnOk result (loading.new ≡ step loading.old line.now) }
    ensures counted { lines_taken loading.new ≤ lines_taken loading.old + 1 }
{
    if !is_line(line) {
        return Err(Stop::Refused(NoChange));
    }
    match loading.take(line) {
        Ok(()) => Ok(()),
        Err(stop) => Err(stopped(stop)),
    }
}

pub(crate) fn stopped<R: Drop>(stop: Stop<R>) -> Stop<NoChange> {
    match stop {
        Stop::Refused(_) => Stop::Refused(NoChange),
        Stop::Memory => Stop::Memory,
    }
}

// Whether all characters are printable.
pub(crate) fn is_line(text: &[u8]) -> bool
    ensures { result ≡ is_line text.now }
{
    let mut printable = true;
    for byte in text {
        printable &= (b' '..=b'~').contains(byte);
    }
    printable
}

// The data set of a catalogue that has one.
pub(crate) fn only_set(
    alloc: Global,
    one: &mut Catalogue,
) -> Result<Option<(Name, DataSet)>, AllocError>
    ensures { IfOk result (λ found. IfSome found (λ named. one.old ≡ (named.0, named.1) ∷ [])) }
{
    if one.len() != 1 {
        return Ok(None);
    }
    let Some((name, empty)) = first_emptied(alloc, one)? else {
        return Ok(None);
    };
    match one.find_mut(&name) {
        Some(set) => Ok(Some((name, mem::replace(set, empty)))),
        None => Ok(None),
    }
}

// The name of the first data set, and the same data set without its records.
fn first_emptied(alloc: Global, one: &Catalogue) -> Result<Option<(Name, DataSet)>, AllocError>
    ensures { IfOk result (λ found. IfSome found (λ named. (set : AnySet) × (rest : Sets) × (one.now ≡ (named.0, set) ∷ rest))) }
{
    let Some((name, set)) = one.at(0) else {
        return Ok(None);
    };
    let acl = set.acl.copy(alloc)?;
    let empty = DataSet {
        owner: set.owner.copy(),
        group: set.group.copy(),
        mode: set.mode,
        acl,
        records: Records::new(alloc),
    };
    Ok(Some((name.copy(), empty)))
}
