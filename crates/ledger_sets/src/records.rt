//! The records of a data set, as text, and how many of the first ones are those of another.
ghost use Rattle.std.specs.Prelude.{◌≡◌, ◌++◌, ◌∷◌, [], drop, IfOk, OnOk};
ghost use Rattle.mon_catalogue.specs.Text.{text_of};
ghost use Rattle.ledger_sets.specs.Changes.{shared};

use mon_catalogue::Records;
use std::alloc::{AllocError, Global};

// How many of the first records are the same.
pub(crate) fn shared(was: &Records, is: &Records) -> u64
    ensures { result ≡ shared was.now is.now }
{
    let most = was.len().min(is.len());
    for index in 0..most {
        if was.at(index) != is.at(index) {
            return index;
        }
    }
    most
}

// The records behind the first so many, each ended by LF.
pub(crate) fn records_text(
    alloc: Global,
    records: &Records,
    first: u64,
) -> Result<Vec<u8>, AllocError>
    ensures { IfOk result (λ text. text.items ≡ text_of (drop first records.now)) }
{
    let mut text = Vec::new(alloc);
    for index in first..records.len() {
        put_record(records.at(index), &mut text)?;
    }
    Ok(text)
}

fn put_record(line: &[u8], out: &mut Vec<u8>) -> Result<(), AllocError>
    ensures { OnOk result (out.new.items ≡ out.old.items ++ (line.now ++ 10 ∷ [])) }
{
    out.extend_from_slice(line)?;
    out.push(b'\n')?;
    Ok(())
}
