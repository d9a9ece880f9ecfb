//! How many texts the data sets tie together that their cards name: they can't be run apart.
ghost use Rattle.std.specs.Prelude.{◌≡◌, IfOk};
ghost use Rattle.parts.specs.Told.{Told};
ghost use Rattle.ledger_service.specs.Ties.{count_of, most_of, parts_of, AreTied};

use parts::{Split, Text, pack};
use std::alloc::{AllocError, Global};

/// How many of these texts, whose numbers are their places, are tied together at the most. They are packed into as many parts as there are
/// texts: where each has as much work, a part has those that are tied together, and no other.
///
/// # Errors
///
/// Where a growth was refused.
pub fn largest_tied(alloc: Global, texts: &[Text]) -> Result<u64, AllocError>
    ensures { IfOk result (λ most. (told : Told) × AreTied most texts.now told) }
{
    let split = pack(alloc, texts, texts.len() as u64)?;
    let parts = parts_of(alloc, &split, texts)?;
    Ok(most_of(&parts))
}

fn parts_of(alloc: Global, split: &Split, texts: &[Text]) -> Result<Vec<u64>, AllocError>
    ensures { IfOk result (λ parts. parts.items ≡ parts_of split.now texts.now) }
{
    let mut parts = Vec::new(alloc);
    for text in texts {
        parts.push(split.of_text(text.number))?;
    }
    Ok(parts)
}

// How often the one stands among these that is there most often.
fn most_of(parts: &[u64]) -> u64
    ensures { result ≡ most_of parts.now parts.now }
{
    let mut most = 0;
    for part in parts {
        most = count_of(*part, parts).max(most);
    }
    most
}

fn count_of(part: u64, parts: &[u64]) -> u64
    ensures { result ≡ count_of part parts.now }
{
    let mut count = 0;
    for other in parts {
        if *other == part {
            count += 1;
        }
    }
    count
}
