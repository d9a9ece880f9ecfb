//! Whether jobs in slots are tied to one data set.
ghost use Rattle.std.specs.Prelude.{◌≡◌};
ghost use Rattle.std.specs.List.{list_any};
ghost use Rattle.scheduler.specs.inner.Sharing.{seats_share, are_apart};

use crate::slot::Slot;

// Whether a data set is tied in both.
fn share(seat: &Option<Slot>, other: &Option<Slot>) -> bool
    ensures { result ≡ seats_share seat.now other.now }
{
    match (seat, other) {
        (Some(slot), Some(other)) => slot.units.shares(&other.units),
        _ => false,
    }
}

fn any_shares(seat: &Option<Slot>, others: &[Option<Slot>]) -> bool
    ensures { result ≡ list_any (seats_share seat.now) others.now }
{
    others.iter().any(|other| share(seat, other))
}

// Whether no data set is tied in two of these.
pub(crate) fn are_apart(slots: &[Option<Slot>]) -> bool
    ensures { result ≡ are_apart slots.now }
{
    for index in 0..slots.len() {
        if any_shares(&slots[index], &slots[index + 1..]) {
            return false;
        }
    }
    true
}
