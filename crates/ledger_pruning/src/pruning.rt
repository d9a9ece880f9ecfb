//! Which commits may be removed.
ghost use Rattle.std.specs.Prelude.{◌≡◌, filter, nat_lt, IfOk};
ghost use Rattle.ledger_pruning.specs.Pruning.{first_kept, first_since};

use std::alloc::{AllocError, Global};

/// The first commit that stays: so many of the last stay, and all that stand behind the checkpoint.
pub fn first_kept(commits: u64, checkpoint: u64, keep: u64) -> u64
    ensures { result ≡ first_kept commits checkpoint keep }
{
    if keep >= commits {
        return 0;
    }
    let first = commits - keep;
    if first < checkpoint {
        first
    } else {
        checkpoint
    }
}

/// The first commit that was made at this time or later, by the times of all commits: all those stand before it that are earlier than the
/// first such one.
pub fn first_since(times: &[u64], since: u64) -> usize
    ensures { result ≡ first_since since times.now }
{
    for index in 0..times.len() {
        if times[index] >= since {
            return index;
        }
    }
    times.len()
}

/// Of these numbers those that stand before the first that stays.
///
/// # Errors
///
/// Where a growth was refused.
pub fn removable(alloc: Global, numbers: &[u64], first: u64) -> Result<Vec<u64>, AllocError>
    ensures { IfOk result (λ old. old.items ≡ filter (λ n. nat_lt n first) numbers.now) }
{
    let mut old = Vec::new(alloc);
    for number in numbers {
        if *number < first {
            old.push(*number)?;
        }
    }
    Ok(old)
}
