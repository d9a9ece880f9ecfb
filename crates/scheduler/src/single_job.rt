//! Whether a job is alone in the slots.
ghost use Rattle.std.specs.Prelude.{◌≡◌, ◌<◌, ◌+◌, length, position, is_some, is_none, IfSome};
ghost use Rattle.std.specs.List.{list_all};
ghost use Rattle.scheduler.specs.Abstraction.{seats_of};
ghost use Rattle.scheduler.specs.inner.Alone.{IsLone};

use crate::slot::Slot;

// Whether all of these are empty.
pub(crate) fn are_empty(slots: &[Option<Slot>]) -> bool
    ensures { result ≡ list_all (λ seat. is_none seat) slots.now }
{
    slots.iter().all(|seat| seat.is_none())
}

// The first that has a job.
fn taken_in(slots: &[Option<Slot>]) -> Option<usize>
    ensures { result ≡ position (λ seat. is_some seat) slots.now }
{
    slots.iter().position(|seat| seat.is_some())
}

// The one that has a job, if no other has.
pub(crate) fn lone_in(slots: &[Option<Slot>]) -> Option<usize>
    ensures lone { IfSome result (λ index. IsLone (index + 1) (seats_of slots.now)) }
    ensures within { IfSome result (λ index. index < length slots.now) }
{
    let index = taken_in(slots)?;
    if are_empty(&slots[index + 1..]) {
        Some(index)
    } else {
        None
    }
}
