//! A change is made: record by record, over the data sets as they stand.
ghost use Rattle.std.specs.Prelude.{◌≡◌, ◌≤◌, ◌++◌, ◌∷◌, [], map, length, Some, OnOk};
ghost use Rattle.std.specs.Str.Lines.{lines};
ghost use Rattle.mon_catalogue.specs.declared.version.Version.TheVariants.{Two};
ghost use Rattle.mon_catalogue.specs.Reading.{catalogue_of};
ghost use Rattle.mon_catalogue.specs.Sets.{empty_set};
ghost use Rattle.mon_catalogue.specs.Changes.{with_changed};
ghost use Rattle.ledger_text.specs.Text.{commit_of};
ghost use Rattle.ledger_text.specs.Records.{seen};
ghost use Rattle.ledger_sets.specs.Applying.{kept_as, keeping, put_set, setting, removing, after_said, after_field, after_fields, after_change};
ghost use Rattle.ledger_sets.specs.Seeing.{site_of};

use crate::reading::{only_set, read_sets, stopped};
use crate::{NoChange, State, Tables};
use deck_syntax::first_line;
use ledger_text::{Record, read_commit, read_record};
use mon_catalogue::{Catalogue, DataSet, MOST_RECORD_CHARACTERS};
use mon_text::{Name, Stop, read_line, read_name};
use std::alloc::Global;

/// Makes a change.
///
/// # Errors
///
/// Where the text is no change of this state (`NoChange`): it was cut off, a data set that it speaks of is not there, more records are to
/// stay than there are, or what is to stand there can't. `Memory` where a growth was refused. The state is then of no more use.
pub fn apply_change(alloc: Global, change: &[u8], state: &mut State) -> Result<(), Stop<NoChange>>
    ensures { OnOk result (after_change change.now (site_of state.old) ≡ Some (site_of state.new)) }
{
    if change.is_empty() {
        return Ok(());
    }
    match read_commit(alloc, change)? {
        Some(fields) => apply_fields(alloc, &fields, state),
        None => Err(Stop::Refused(NoChange)),
    }
}

fn apply_fields(alloc: Global, fields: &[&[u8]], state: &mut State) -> Result<(), Stop<NoChange>>
    ensures { OnOk result (after_fields (map (λ field. field.now) fields.now) (site_of state.old) ≡ Some (site_of state.new)) }
{
    for field in fields {
        apply_field(alloc, field, state)?;
    }
    Ok(())
}

fn apply_field(alloc: Global, field: &[u8], state: &mut State) -> Result<(), Stop<NoChange>>
    ensures { OnOk result (after_field field.now (site_of state.old) ≡ Some (site_of state.new)) }
{
    let Some(fields) = read_commit(alloc, field)? else {
        return Err(Stop::Refused(NoChange));
    };
    match read_record(&fields) {
        Some(entry) => apply_record(alloc, entry.record, state),
        None => Err(Stop::Refused(NoChange)),
    }
}

fn apply_record(alloc: Global, said: Record<'_>, state: &mut State) -> Result<(), Stop<NoChange>>
    ensures { OnOk result (after_said (seen said.entry) (site_of state.old) ≡ Some (site_of state.new)) }
{
    match said {
        Record::Audit(jobs, _) => {
            state.jobs = jobs;
            Ok(())
        }
        Record::Keep(_, name, first, records) => keep(
            alloc,
            name,
            first,
            records,
            &mut state.catalogue,
        ),
        Record::Set(_, name, head, records) => set(
            alloc,
            name,
            head,
            records,
            &mut state.catalogue,
        ),
        Record::Gone(_, name) => remove(name, &mut state.catalogue),
        Record::Tables(tables) => table(alloc, tables, &mut state.tables),
        Record::Took(_, _)
        | Record::Refused(_, _)
        | Record::Ran(_, _)
        | Record::Dropped(_, _, _)
        | Record::Gave(_, _)
        | Record::Checked(_, _)
        | Record::Edit(_, _) => Err(Stop::Refused(NoChange)),
    }
}

fn table(alloc: Global, text: &[u8], tables: &mut Tables) -> Result<(), Stop<NoChange>>
    ensures { OnOk result (commit_of text.now ≡ Some (tables.new.accounts.items ∷ tables.new.users.items ∷ tables.new.limits.items ∷ [])) }
{
    let Some(fields) = read_commit(alloc, text)? else {
        return Err(Stop::Refused(NoChange));
    };
    match fields.as_slice() {
        [accounts, users, limits] => {
            *tables = Tables {
                accounts: accounts.to_vec(alloc)?,
                users: users.to_vec(alloc)?,
                limits: limits.to_vec(alloc)?,
            };
            Ok(())
        }
        _ => Err(Stop::Refused(NoChange)),
    }
}

// The first so many records of a data set stay, with these behind them.
fn keep(
    alloc: Global,
    name: &[u8],
    first: u64,
    records: &[u8],
    catalogue: &mut Catalogue,
) -> Result<(), Stop<NoChange>>
    ensures { OnOk result (keeping name.now first (lines records.now) catalogue.old ≡ Some catalogue.new) }
{
    let Ok(name) = read_name(name) else {
        return Err(Stop::Refused(NoChange));
    };
    match catalogue.find_mut(&name) {
        Some(set) => {
            keep_in(alloc, first, records, set)?;
            Ok(())
        }
        None => Err(Stop::Refused(NoChange)),
    }
}

fn keep_in(
    alloc: Global,
    first: u64,
    records: &[u8],
    set: &mut DataSet,
) -> Result<(), Stop<NoChange>>
    ensures kept { OnOk result (set.new ≡ kept_as first (lines records.now) set.old) }
    ensures there { OnOk result (first ≤ length set.old.records) }
{
    if first > set.records.len() {
        return Err(Stop::Refused(NoChange));
    }
    set.cut_at(first);
    add_lines(alloc, records, set)
}

// Puts the lines of a text behind all records.
fn add_lines(alloc: Global, text: &[u8], set: &mut DataSet) -> Result<(), Stop<NoChange>>
    ensures { OnOk result (set.new ≡ record set.old { records = set.old.records ++ lines text.now }) }
{
    let mut rest = text;
    'lines: while !rest.is_empty() {
        let (line, behind) = first_line(rest);
        add_line(alloc, line, set)?;
        rest = behind;
    }
    Ok(())
}

fn add_line(alloc: Global, text: &[u8], set: &mut DataSet) -> Result<(), Stop<NoChange>>
    ensures { OnOk result (set.new ≡ record set.old { records = set.old.records ++ text.now ∷ [] }) }
{
    let line = match read_line(alloc, text, MOST_RECORD_CHARACTERS) {
        Ok(line) => line,
        Err(stop) => return Err(stopped(stop)),
    };
    match set.append(line.as_bytes()) {
        Ok(()) => Ok(()),
        Err(stop) => Err(stopped(stop)),
    }
}

// The data set of this name is this one.
fn set(
    alloc: Global,
    name: &[u8],
    head: &[u8],
    records: &[u8],
    catalogue: &mut Catalogue,
) -> Result<(), Stop<NoChange>>
    ensures { OnOk result (setting name.now (catalogue_of Two (lines head.now ++ lines records.now)) catalogue.old ≡ Some catalogue.new) }
{
    let mut spelled = read_sets(alloc, head, records)?;
    match only_set(alloc, &mut spelled)? {
        Some((found, set)) if found.as_bytes() == name => put_set(alloc, found, set, catalogue),
        _ => Err(Stop::Refused(NoChange)),
    }
}

// Puts a data set under this name: in the place of the one that is there, or behind all.
#[tactic(auto, using(crate::proofs::Made::put_there))]
pub(crate) fn put_set(
    alloc: Global,
    name: Name,
    set: DataSet,
    catalogue: &mut Catalogue,
) -> Result<(), Stop<NoChange>>
    ensures { OnOk result (catalogue.new ≡ put_set name set catalogue.old) }
{
    match catalogue.find(&name) {
        Some(_) => replace(&name, set, catalogue),
        None => add(alloc, &name, set, catalogue),
    }
}

fn add(
    alloc: Global,
    name: &Name,
    set: DataSet,
    catalogue: &mut Catalogue,
) -> Result<(), Stop<NoChange>>
    ensures { OnOk result (catalogue.new ≡ with_changed name.now (λ _. set) (catalogue.old
        ++ (name.now, empty_set set.owner set.group set.mode set.acl) ∷ [])) }
{
    add_empty(alloc, name, &set, catalogue)?;
    replace(name, set, catalogue)
}

// The data set of this name is another.
fn replace(name: &Name, set: DataSet, catalogue: &mut Catalogue) -> Result<(), Stop<NoChange>>
    ensures { OnOk result (catalogue.new ≡ with_changed name.now (λ _. set) catalogue.old) }
{
    match catalogue.find_mut(name) {
        Some(place) => {
            *place = set;
            Ok(())
        }
        None => Err(Stop::Refused(NoChange)),
    }
}

// A data set of this name, with no records, is put last.
fn add_empty(
    alloc: Global,
    name: &Name,
    set: &DataSet,
    catalogue: &mut Catalogue,
) -> Result<(), Stop<NoChange>>
    ensures { OnOk result (catalogue.new ≡ catalogue.old ++ (name.now, empty_set set.now.owner set.now.group set.now.mode set.now.acl) ∷ []) }
{
    let acl = set.acl.copy(alloc)?;
    match catalogue.create(
        name.copy(),
        set.owner.copy(),
        set.group.copy(),
        set.mode,
        acl,
    ) {
        Ok(()) => Ok(()),
        Err(stop) => Err(stopped(stop)),
    }
}

fn remove(name: &[u8], catalogue: &mut Catalogue) -> Result<(), Stop<NoChange>>
    ensures { OnOk result (removing name.now catalogue.old ≡ Some catalogue.new) }
{
    let Ok(name) = read_name(name) else {
        return Err(Stop::Refused(NoChange));
    };
    match catalogue.remove(&name) {
        Ok(()) => Ok(()),
        Err(_) => Err(Stop::Refused(NoChange)),
    }
}
