//! What parts printed and left, in the order of the whole.
ghost use Rattle.std.specs.Prelude.{◌≡◌, ◌==◌, ◌++◌, [], nat_eq, unwrap_or, IfOk, OnOk};
ghost use Rattle.std.specs.List.{flat_map};
ghost use Rattle.std.specs.Map.{lookup};
ghost use Rattle.std.specs.Cmp.Lexicographic.{pointwise};
ghost use Rattle.parts.specs.Splits.{goes};
ghost use Rattle.parts.specs.Joining.{bytes_of, joined, texts_joined};
ghost use Rattle.parts.specs.inner.Picks.{printout_of, set_of};

use crate::split::Split;
use indexmap::IndexMap;
use mon_text::Name;
use std::alloc::{AllocError, Global};

/// What a part gave.
#[derive(Drop)]
pub struct Part {
    /// The printout of each of its texts, by the text's number.
    pub printed: IndexMap<u64, Vec<u8>>,
    /// Each data set that it left, as it is printed, by its name.
    pub left: IndexMap<Name, Vec<u8>>,
}

/// What a round prints: the printouts of these texts, in this order, each from its part; and then the catalogue, the data sets of these
/// names in this order, each from its part, if it has one.
///
/// # Errors
///
/// Where a growth was refused.
pub fn join_parts(
    alloc: Global,
    split: &Split,
    parts: &[Part],
    numbers: &[u64],
    names: &[Name],
) -> Result<Vec<u8>, AllocError>
    ensures { IfOk result (λ out. out.items ≡ joined (goes split.now) parts.now numbers.now names.now) }
{
    let mut out = Vec::new(alloc);
    put_printouts(split, parts, numbers, &mut out)?;
    out.extend_from_slice(b"$CATALOGUE 2\n")?;
    put_sets(split, parts, names, &mut out)?;
    Ok(out)
}

/// What a round's audit says before its last line: of these texts, in this order, each from its part.
///
/// # Errors
///
/// Where a growth was refused.
pub fn join_audits(
    alloc: Global,
    split: &Split,
    parts: &[Part],
    numbers: &[u64],
) -> Result<Vec<u8>, AllocError>
    ensures { IfOk result (λ out. out.items ≡ texts_joined (goes split.now) parts.now numbers.now) }
{
    let mut out = Vec::new(alloc);
    put_printouts(split, parts, numbers, &mut out)?;
    Ok(out)
}

fn put_printouts(
    split: &Split,
    parts: &[Part],
    numbers: &[u64],
    out: &mut Vec<u8>,
) -> Result<(), AllocError>
    ensures { OnOk result (out.new.items ≡ out.old.items ++ flat_map (printout_of (goes split.now) parts.now) numbers.now) }
{
    for number in numbers {
        out.extend_from_slice(printout(split, parts, *number))?;
    }
    Ok(())
}

// The printout of the text of this number; no bytes, where its part has none.
fn printout<'a>(split: &Split, parts: &'a [Part], number: u64) -> &'a [u8]
    ensures { result.now ≡ printout_of (goes split.now) parts.now number }
{
    match parts.get(split.of_text(number) as usize) {
        Some(part) => part.printout(number),
        None => b"",
    }
}

fn put_sets(
    split: &Split,
    parts: &[Part],
    names: &[Name],
    out: &mut Vec<u8>,
) -> Result<(), AllocError>
    ensures { OnOk result (out.new.items ≡ out.old.items ++ flat_map (set_of (goes split.now) parts.now) names.now) }
{
    for name in names {
        out.extend_from_slice(set_text(split, parts, name))?;
    }
    Ok(())
}

// The data set of this name, as it is printed; no bytes, where its part has none.
fn set_text<'a>(split: &Split, parts: &'a [Part], name: &Name) -> &'a [u8]
    ensures { result.now ≡ set_of (goes split.now) parts.now name.now }
{
    match parts.get(split.of_name(name) as usize) {
        Some(part) => part.set_text(name),
        None => b"",
    }
}

impl Part {
    #[tactic(auto, using(crate::proofs::PickedBytes::found_bytes))]
    fn printout(&self, number: u64) -> &[u8]
        ensures { result.now ≡ unwrap_or (lookup (λ m. number == m) (bytes_of self.now.printed.entries)) [] }
    {
        match self.printed.get(&number) {
            Some(text) => text,
            None => b"",
        }
    }

    #[tactic(auto, using(crate::proofs::PickedBytes::found_bytes))]
    fn set_text(&self, name: &Name) -> &[u8]
        ensures { result.now ≡ unwrap_or (lookup (pointwise nat_eq name.now) (bytes_of self.now.left.entries)) [] }
    {
        match self.left.get(name) {
            Some(text) => text,
            None => b"",
        }
    }
}
