//! The first names of a box, kept as they come: so a box of any size takes no more memory than these.
ghost use Rattle.std.specs.Prelude.{◌≡◌, ◌≤◌, map, length, OnOk};
ghost use Rattle.std.specs.List.{insert};
ghost use Rattle.ledger_turns.specs.Names.{is_before, kept_with, place_from};

use std::alloc::AllocError;

/// Keeps a name among the first so many, which stand in their order.
///
/// # Errors
///
/// Where a growth was refused.
pub fn keep_first(names: &mut Vec<Vec<u8>>, most: usize, name: Vec<u8>) -> Result<(), AllocError>
    ensures { OnOk result (map (λ other. other.items) names.new.items ≡ kept_with most (map (λ other. other.items) names.old.items) name.items) }
{
    let place = place_of(names, &name);
    put_name(names, place, name)?;
    names.truncate(most);
    Ok(())
}

fn put_name(names: &mut Vec<Vec<u8>>, place: usize, name: Vec<u8>) -> Result<(), AllocError>
    requires { place ≤ length names.old.items }
    ensures { OnOk result (names.new.items ≡ insert names.old.items place name) }
{
    match names.insert(place, name) {
        Ok(()) => Ok(()),
        Err(_) => Err(AllocError),
    }
}

// How many of these names come before the first that this one stands before.
fn place_of(names: &[Vec<u8>], name: &[u8]) -> usize
    ensures place { result ≡ place_from (λ other. other.items) 0 name.now names.now }
    ensures within { result ≤ length names.now }
{
    for index in 0..names.len() {
        if is_before(name, &names[index]) {
            return index;
        }
    }
    names.len()
}

fn is_before(name: &[u8], other: &[u8]) -> bool
    ensures { result ≡ is_before name.now other.now }
{
    name.cmp(other).is_lt()
}
