//! The texts of changes: what a commit has beside its record.
ghost use Rattle.std.specs.Prelude.{◌≡◌, ◌++◌, ◌∷◌, [], IfOk, OnOk};
ghost use Rattle.ledger_text.specs.Text.{commit_text};
ghost use Rattle.ledger_text.specs.Records.{Audit, Tables};
ghost use Rattle.ledger_sets.specs.Changes.{whole, said_text, change_text, changes_between, run_changes, tables_changes};
ghost use Rattle.ledger_sets.specs.Parts.{those_of};
ghost use Rattle.ledger_sets.specs.Writing.{texts_in};

use crate::part::{Part, Which};
use crate::sets::{put_changes, put_whole};
use ledger_text::{Record, commit_text, record_text};
use mon_catalogue::{Catalogue, DataSet};
use mon_text::Name;
use std::alloc::{AllocError, Global};

/// The change from one catalogue to another, as the operator makes it.
///
/// # Errors
///
/// Where a growth was refused.
#[tactic(auto, using(crate::proofs::Copying::all_of))]
pub fn sets_change(
    alloc: Global,
    before: &Catalogue,
    after: &Catalogue,
) -> Result<Vec<u8>, AllocError>
    ensures { IfOk result (λ text. text.items ≡ change_text (changes_between before.now after.now)) }
{
    let whole = Part {
        catalogue: before,
        which: &Which::All,
    };
    let mut texts = Vec::new(alloc);
    put_changes(alloc, whole, after, &mut texts)?;
    text_of_all(alloc, &texts)
}

/// What a text changed that ran: behind it so many jobs ran so far; its audit has these lines; and these data sets became those of a
/// catalogue.
///
/// # Errors
///
/// Where a growth was refused.
pub fn run_change(
    alloc: Global,
    jobs: u64,
    audit: &[u8],
    before: Part<'_>,
    after: &Catalogue,
) -> Result<Vec<u8>, AllocError>
    ensures { IfOk result (λ text. text.items
        ≡ change_text (run_changes jobs audit.now (those_of before.entry.which.now before.entry.catalogue.now) after.now)) }
{
    let mut texts = Vec::new(alloc);
    put_audit(alloc, jobs, audit, &mut texts)?;
    put_changes(alloc, before, after, &mut texts)?;
    text_of_all(alloc, &texts)
}

/// The operator's texts are these.
///
/// # Errors
///
/// Where a growth was refused.
pub fn tables_change(
    alloc: Global,
    accounts: &[u8],
    users: &[u8],
    limits: &[u8],
) -> Result<Vec<u8>, AllocError>
    ensures { IfOk result (λ text. text.items ≡ change_text (tables_changes accounts.now users.now limits.now)) }
{
    let tables = commit_text(alloc, &[accounts, users, limits])?;
    let said = record_text(alloc, 0, Record::Tables(&tables))?;
    commit_text(alloc, &[said.as_slice()])
}

/// A data set that is put whole, as a change of its own.
///
/// # Errors
///
/// Where a growth was refused.
pub fn whole_change(alloc: Global, name: &Name, set: &DataSet) -> Result<Vec<u8>, AllocError>
    ensures { IfOk result (λ text. text.items ≡ change_text (whole (name.now, set.now) ∷ [])) }
{
    let mut texts = Vec::new(alloc);
    put_whole(alloc, name, set, &mut texts)?;
    text_of_all(alloc, &texts)
}

/// What a state has besides its data sets, as a change of its own: how many jobs ran, and the operator's texts, as a record has them.
///
/// # Errors
///
/// Where a growth was refused.
pub fn rest_change(alloc: Global, jobs: u64, tables: &[u8]) -> Result<Vec<u8>, AllocError>
    ensures { IfOk result (λ text. text.items ≡ change_text (Audit jobs [] ∷ Tables tables.now ∷ [])) }
{
    let mut texts = Vec::new(alloc);
    put_audit(alloc, jobs, b"", &mut texts)?;
    let said = record_text(alloc, 0, Record::Tables(tables))?;
    texts.push(said)?;
    text_of_all(alloc, &texts)
}

fn put_audit(
    alloc: Global,
    jobs: u64,
    audit: &[u8],
    out: &mut Vec<Vec<u8>>,
) -> Result<(), AllocError>
    ensures { OnOk result (texts_in out.new.items ≡ texts_in out.old.items ++ said_text (Audit jobs audit.now) ∷ []) }
{
    let text = record_text(alloc, 0, Record::Audit(jobs, audit))?;
    out.push(text)?;
    Ok(())
}

// The text of fields that are these.
fn text_of_all(alloc: Global, texts: &[Vec<u8>]) -> Result<Vec<u8>, AllocError>
    ensures { IfOk result (λ text. text.items ≡ commit_text (texts_in texts.now)) }
{
    let mut fields = Vec::new(alloc);
    for text in texts {
        fields.push(text.as_slice())?;
    }
    commit_text(alloc, &fields)
}
