//! Whose the boxes are, and what each may hand in.
ghost use Rattle.std.specs.Prelude.{◌≡◌, ◌++◌, ◌∷◌, [], map, IfOk, OnOk};
ghost use Rattle.ledger_site.specs.Owning.{seen_owner, served_for};

use ledger_boxes::Owner;
use ledger_tables::Tables;
use mon_catalogue::Catalogue;
use mon_text::Name;
use preflight::HandedIn;
use site_plan::{Holding, User, holdings};
use std::alloc::{AllocError, Global};

/// The owners of the boxes, in the order of the users: each may hand in what the limits say, and owns what it does by this catalogue.
///
/// # Errors
///
/// Where a growth was refused.
pub fn owners_of(
    alloc: Global,
    tables: &Tables,
    catalogue: &Catalogue,
) -> Result<Vec<Owner>, AllocError>
    ensures { IfOk result (λ owners. map seen_owner owners.items ≡ map (served_for tables.now.limits) tables.now.users.items) }
{
    let held = holdings(alloc, &tables.accounts, catalogue)?;
    let mut owners = Vec::new(alloc);
    for user in &tables.users {
        add_owner(tables, &held, user, &mut owners)?;
    }
    Ok(owners)
}

fn add_owner(
    tables: &Tables,
    held: &[Holding],
    user: &User,
    owners: &mut Vec<Owner>,
) -> Result<(), AllocError>
    ensures { OnOk result (map seen_owner owners.new.items ≡ map seen_owner owners.old.items ++ served_for tables.now.limits user.now ∷ []) }
{
    let holding = holding_of(tables, held, &user.account);
    owners.push(Owner {
        account: user.account.copy(),
        uid: u64::from(user.uid),
        quota: tables.limits.quota,
        handed: HandedIn::none(holding.data_sets, holding.records),
    })?;
    Ok(())
}

// What the account of this name owns, where those of the table own this.
fn holding_of(tables: &Tables, held: &[Holding], own: &Name) -> Holding {
    for place in 0..tables.accounts.len() {
        match (tables.accounts.at(place), held.get(place)) {
            (Some(account), Some(holding)) if &account.name == own => return *holding,
            _ => {}
        }
    }
    Holding {
        data_sets: 0,
        records: 0,
    }
}
