//! The account table: accounts in the order in which they were added, found by name.
ghost use Rattle.std.specs.Prelude.{◌≡◌, ◌<◌, ◌↔◌, [], ◌∷◌, ◌++◌, length, slice_get, None, OnOk, OnErr, IsSome, IsErrOf};
ghost use Rattle.std.specs.Option.{option_copied};
ghost use Rattle.mon_access.specs.Accounts.{find_account, HaveDifferentNames};

use crate::account::Account;
use indexmap::IndexMap;
use mon_text::{Name, Stop};
use std::alloc::Global;
use std::marker::Model;
use thiserror::Error;

/// How many groups an account has beside its primary one at the most.
pub const MOST_GROUPS: usize = 16;

/// The accounts of a deck, no two of one name, in the order in which they were added.
///
/// A contract sees the table as the list of its accounts.
#[derive(Drop)]
pub struct Accounts {
    by_name: IndexMap<Name, Account>,
}

impl Model for Accounts {
    ghost use Rattle.std.specs.Prelude.{List};
    ghost use Rattle.mon_access.specs.declared.account.Account.{Account};

    ghost Value = { List Account };

    ghost use Rattle.mon_access.specs.inner.Layout.{accounts_of, IsTable};

    ghost view = { λ t. accounts_of t.by_name.entries };

    ghost invariant = { λ t. IsTable t.by_name.entries };
}

/// Why an account could not be added.
#[derive(Clone, Copy, Debug, Error)]
pub enum AccountError {
    /// The table has an account of this name.
    #[error("C1 ACCOUNT TWICE")]
    AccountTwice,
    /// The account has more than 16 groups beside its primary one.
    #[error("C2 TOO MANY GROUPS")]
    TooManyGroups,
}

impl Accounts {
    /// A table with no account.
    pub fn new(alloc: Global) -> Accounts
        ensures { result ≡ [] }
    {
        Accounts {
            by_name: IndexMap::new(alloc),
        }
    }

    /// Adds an account at the end. Its groups are those beside the primary one, and one that was given twice counts twice.
    ///
    /// # Errors
    ///
    /// `AccountTwice` where the table has an account of that name; else `TooManyGroups` where the account has more than
    /// 16 groups; `Memory` where a growth was refused. The table is then unchanged.
    pub fn add(&mut self, account: Account) -> Result<(), Stop<AccountError>>
        ensures added { OnOk result (self.new ≡ self.old ++ account ∷ []) }
        ensures unchanged { OnErr result (self.new ≡ self.old) }

        // A name that is there is told before too many groups.
        ensures twice { IsErrOf result (Stop.Refused AccountError.AccountTwice) ↔ IsSome (find_account self.old account.name) }
        ensures too_many { IsErrOf result (Stop.Refused AccountError.TooManyGroups)
            ↔ ((find_account self.old account.name ≡ None) × (MOST_GROUPS < length account.groups)) }
    {
        if self.find(&account.name).is_some() {
            return Err(Stop::Refused(AccountError::AccountTwice));
        }
        if account.groups.len() > MOST_GROUPS {
            return Err(Stop::Refused(AccountError::TooManyGroups));
        }
        self.by_name
            .insert(account.name.copy(), account)
            .map_err(|_| Stop::Memory)?;
        Ok(())
    }

    /// How many accounts there are.
    pub fn len(&self) -> usize
        ensures { result ≡ length self.now }
    {
        self.by_name.len()
    }

    /// The account at an index of the order in which they were added, from 0. It takes no memory.
    pub fn at(&self, index: usize) -> Option<&Account>
        ensures { option_copied result ≡ slice_get self.now index }
    {
        let (_, account) = self.by_name.get_index(index)?;
        Some(account)
    }

    /// The account of this name, found by hash.
    pub fn find(&self, name: &Name) -> Option<&Account>
        ensures found { option_copied result ≡ find_account self.now name.now }
        ensures different { HaveDifferentNames self.now }
    {
        self.by_name.get(name)
    }
}
