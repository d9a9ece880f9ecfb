//! What accounts own, of a catalogue.
ghost use Rattle.std.specs.Prelude.{◌≡◌, ◌++◌, map, drop, take, IfOk, OnOk};
ghost use Rattle.site_plan.specs.Owning.{bytes_of, with_set, with_sets, held_by, holdings_of};

use mon_access::Accounts;
use mon_catalogue::{Catalogue, DataSet, Records};
use mon_text::Name;
use std::alloc::{AllocError, Global};

/// What an account owns.
#[derive(Clone, Copy)]
pub struct Holding {
    /// How many data sets.
    pub data_sets: u64,
    /// How many bytes their records have, without line ends.
    pub records: u64,
}

/// What each account of a table owns, in the table's order.
///
/// # Errors
///
/// Where a growth was refused.
pub fn holdings(
    alloc: Global,
    accounts: &Accounts,
    catalogue: &Catalogue,
) -> Result<Vec<Holding>, AllocError>
    ensures { IfOk result (λ held. held.items ≡ holdings_of accounts.now catalogue.now) }
{
    let mut held = Vec::new(alloc);
    for place in 0..accounts.len() {
        add_holding(accounts, place, catalogue, &mut held)?;
    }
    Ok(held)
}

// Appends what the account at this place owns.
fn add_holding(
    accounts: &Accounts,
    place: usize,
    catalogue: &Catalogue,
    held: &mut Vec<Holding>,
) -> Result<(), AllocError>
    ensures { OnOk result (held.new.items ≡ held.old.items ++ map (λ account. held_by catalogue.now account.name) (take 1 (drop place accounts.now))) }
{
    match accounts.at(place) {
        Some(account) => {
            held.push(holding_of(&account.name, catalogue))?;
            Ok(())
        }
        None => Ok(()),
    }
}

// What an account owns.
fn holding_of(own: &Name, catalogue: &Catalogue) -> Holding
    ensures { result ≡ held_by catalogue.now own.now }
{
    let mut held = Holding {
        data_sets: 0,
        records: 0,
    };
    for place in 0..catalogue.len() {
        held = with_set_at(own, held, catalogue, place);
    }
    held
}

// The same with the data set at this place.
fn with_set_at(own: &Name, held: Holding, catalogue: &Catalogue, place: usize) -> Holding
    ensures { result ≡ with_sets own.now held (take 1 (drop place catalogue.now)) }
{
    match catalogue.at(place) {
        Some((_, set)) => with_set(own, held, set),
        None => held,
    }
}

fn with_set(own: &Name, held: Holding, set: &DataSet) -> Holding
    ensures { result ≡ with_set own.now held set.now }
{
    if &set.owner == own {
        Holding {
            data_sets: held.data_sets.saturating_add(1),
            records: held.records.saturating_add(bytes_of(&set.records)),
        }
    } else {
        held
    }
}

// How many bytes records have, without line ends.
fn bytes_of(records: &Records) -> u64
    ensures { result ≡ bytes_of records.now }
{
    let mut bytes: u64 = 0;
    for index in 0..records.len() {
        bytes = bytes.saturating_add(records.at(index).len() as u64);
    }
    bytes
}
