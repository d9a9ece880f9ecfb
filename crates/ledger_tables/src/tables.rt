//! The tables of an operator: as texts in a record, and as what these say.
ghost use Rattle.std.specs.Prelude.{◌≡◌, option_map, IfOk};
ghost use Rattle.mon_text.specs.Stops.{Gives};
ghost use Rattle.site_plan.specs.Tables.{table_of};
ghost use Rattle.site_plan.specs.Users.{users_of};
ghost use Rattle.ledger_tables.specs.Limits.{limits_of};
ghost use Rattle.ledger_tables.specs.Tables.{seen_texts, seen_tables, tables_text, texts_of, tables_of, in_file};

use crate::limits::{Limits, LimitsFault, read_limits};
use ledger_text::{commit_text, read_commit};
use mon_access::Accounts;
use mon_text::Stop;
use site_plan::{TableFault, User, UsersFault, read_table, read_users};
use std::alloc::{AllocError, Global};

/// The texts of the operator's files.
#[derive(Clone, Copy)]
pub struct Texts<'a> {
    /// Of the accounts.
    pub accounts: &'a [u8],
    /// Of the users.
    pub users: &'a [u8],
    /// Of the limits.
    pub limits: &'a [u8],
}

/// What they say.
#[derive(Drop)]
pub struct Tables {
    /// The accounts.
    pub accounts: Accounts,
    /// Which user each of them is.
    pub users: Vec<User>,
    /// What an account may hand in, and how long a text may run.
    pub limits: Limits,
}

/// What is wrong in which of them.
#[derive(Clone, Copy)]
pub enum TablesFault {
    /// In the accounts.
    Accounts(TableFault),
    /// In the limits.
    Limits(LimitsFault),
    /// In the users.
    Users(UsersFault),
}

/// The texts as the body of a record.
///
/// # Errors
///
/// Where a growth was refused.
pub fn tables_text(alloc: Global, texts: Texts<'_>) -> Result<Vec<u8>, AllocError>
    ensures { IfOk result (λ text. text.items ≡ tables_text (seen_texts texts.entry)) }
{
    commit_text(alloc, &[texts.accounts, texts.users, texts.limits])
}

/// The texts in the body of a record; none where it is no body of tables.
///
/// # Errors
///
/// Where a growth was refused.
pub fn read_texts(alloc: Global, body: &[u8]) -> Result<Option<Texts<'_>>, AllocError>
    ensures { IfOk result (λ found. option_map seen_texts found ≡ texts_of body.now) }
{
    let Some(fields) = read_commit(alloc, body)? else {
        return Ok(None);
    };
    match fields.as_slice() {
        [accounts, users, limits] => Ok(Some(Texts {
            accounts,
            users,
            limits,
        })),
        _ => Ok(None),
    }
}

/// What the texts say.
///
/// # Errors
///
/// The number of the first line that is wrong, and in which text: in the accounts, else in the limits, else in the users. `Memory`
/// where a growth was refused.
pub fn read_tables(alloc: Global, texts: Texts<'_>) -> Result<Tables, Stop<(u64, TablesFault)>>
    ensures { Gives seen_tables result (tables_of (seen_texts texts.entry)) }
{
    let accounts = accounts_in(alloc, texts.accounts)?;
    let limits = limits_in(alloc, texts.limits)?;
    let users = users_in(alloc, limits.demonstration, &accounts, texts.users)?;
    Ok(Tables {
        accounts,
        users,
        limits,
    })
}

fn accounts_in(alloc: Global, text: &[u8]) -> Result<Accounts, Stop<(u64, TablesFault)>>
    ensures { Gives (λ accounts. accounts) result (in_file TablesFault.Accounts (table_of text.now)) }
{
    match read_table(alloc, text) {
        Ok(accounts) => Ok(accounts),
        Err(Stop::Refused((line, why))) => Err(Stop::Refused((line, TablesFault::Accounts(why)))),
        Err(Stop::Memory) => Err(Stop::Memory),
    }
}

fn limits_in(alloc: Global, text: &[u8]) -> Result<Limits, Stop<(u64, TablesFault)>>
    ensures { Gives (λ limits. limits) result (in_file TablesFault.Limits (limits_of text.now)) }
{
    match read_limits(alloc, text) {
        Ok(limits) => Ok(limits),
        Err(Stop::Refused((line, why))) => Err(Stop::Refused((line, TablesFault::Limits(why)))),
        Err(Stop::Memory) => Err(Stop::Memory),
    }
}

fn users_in(
    alloc: Global,
    several: bool,
    accounts: &Accounts,
    text: &[u8],
) -> Result<Vec<User>, Stop<(u64, TablesFault)>>
    ensures { Gives (λ users. users.items) result (in_file TablesFault.Users (users_of several accounts.now text.now)) }
{
    match read_users(alloc, several, accounts, text) {
        Ok(users) => Ok(users),
        Err(Stop::Refused((line, why))) => Err(Stop::Refused((line, TablesFault::Users(why)))),
        Err(Stop::Memory) => Err(Stop::Memory),
    }
}
