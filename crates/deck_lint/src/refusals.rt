//! Why a job is not loaded: its account, its unit cards, its program.
ghost use Rattle.std.specs.Prelude.{◌≡◌, ◌++◌, OnOk, IfOk};
ghost use Rattle.mon_access.specs.Accounts.{find_account};
ghost use Rattle.load_refusal.specs.Loads.{job_refusal};
ghost use Rattle.deck_lint.specs.Refused.{account_refused, deck_refused, first_of};

use crate::ties::put_ties;
use deck_syntax::JobDeck;
use load_refusal::LoadError;
use mon_access::Accounts;
use mon_text::Name;
use program_listing::put_program;
use std::alloc::{AllocError, Global};

// Puts that there is no account of this name, if there is none.
fn put_account(
    accounts: &Accounts,
    name: &Name,
    found: &mut Vec<LoadError>,
) -> Result<(), AllocError>
    ensures { OnOk result (found.new.items ≡ found.old.items ++ account_refused (find_account accounts.now name.now)) }
{
    match accounts.find(name) {
        Some(_) => Ok(()),
        None => {
            found.push(LoadError::NoAccount)?;
            Ok(())
        }
    }
}

/// Why a job is not loaded, where a slot is free: each reason, in the order in which a load looks for them. There is none
/// exactly where the job is loaded, and the first is the one that a load answers.
///
/// # Errors
///
/// Where a growth was refused.
pub fn all_refusals(
    alloc: Global,
    accounts: &Accounts,
    deck: &JobDeck,
) -> Result<Vec<LoadError>, AllocError>
    ensures all { IfOk result (λ found. found.items ≡ deck_refused accounts.now deck.now) }
    ensures first { IfOk result (λ found. first_of found.items ≡ job_refusal accounts.now deck.now) }
{
    let mut found = Vec::new(alloc);
    put_account(accounts, &deck.account, &mut found)?;
    put_ties(deck.ties.as_slice(), &mut found)?;
    put_program(alloc, deck.lines.as_slice(), &mut found)?;
    Ok(found)
}
