//! Which entries of an index are those of some names.
ghost use Rattle.std.specs.Prelude.{◌≡◌, map, IfOk};
ghost use Rattle.ledger_index.specs.Index.{seen_entries};
ghost use Rattle.ledger_checkpoint.specs.Picking.{is_among, picked};

use ledger_index::Entry;
use std::alloc::{AllocError, Global};

/// The entries whose names are among these, in their order.
///
/// # Errors
///
/// Where a growth was refused.
pub fn pick_entries<'a>(
    alloc: Global,
    entries: &[Entry<'a>],
    names: &[&[u8]],
) -> Result<Vec<Entry<'a>>, AllocError>
    ensures { IfOk result (λ found. seen_entries found.items ≡ picked (is_among (map (λ name. name.now) names.now)) (seen_entries entries.now)) }
{
    let mut found = Vec::new(alloc);
    for entry in entries {
        if is_among(names, entry.name) {
            found.push(*entry)?;
        }
    }
    Ok(found)
}

fn is_among(names: &[&[u8]], name: &[u8]) -> bool
    ensures { result ≡ is_among (map (λ name. name.now) names.now) name.now }
{
    for other in names {
        if *other == name {
            return true;
        }
    }
    false
}
