//! Which job in a slot holds most of its printout. Nothing here takes memory: it is told where there is none.
ghost use Rattle.std.specs.Prelude.{◌≡◌};
ghost use Rattle.scheduler.specs.Abstraction.{slot_of, seat_of, seats_of};
ghost use Rattle.scheduler.specs.Holding.{held_by, is_more, more_held, most_held};

use crate::slot::Slot;
use mon_text::Name;

/// A job in a slot, and how much it holds of its printout.
#[derive(Drop)]
pub struct Holder {
    /// The job's number in its deck, from 1.
    pub number: u64,
    /// The name of the account that it is for.
    pub account: Name,
    /// How many bytes its printout takes so far: for each spooled line its characters and 5 more, and for each note 96. From 2^64 - 1
    /// on it is that.
    pub bytes: u64,
}

// What a spooled line takes beside its characters, in bytes.
const LINE_BYTES: u64 = 5;

// What a note takes, in bytes.
const NOTE_BYTES: u64 = 96;

// How many bytes the printout of a job takes so far.
fn held_by(slot: &Slot) -> u64
    ensures { result ≡ held_by (slot_of slot.now) }
{
    let spool = slot.units.spool();
    let characters = spool.characters() as u64;
    let lines = (spool.len() as u64).saturating_mul(LINE_BYTES);
    let notes = (slot.units.notes().len() as u64).saturating_mul(NOTE_BYTES);
    characters.saturating_add(lines).saturating_add(notes)
}

// Whether so many bytes are more than what a job holds, or there is none.
fn is_more(bytes: u64, most: &Option<Holder>) -> bool
    ensures { result ≡ is_more bytes most.now }
{
    match most {
        None => true,
        Some(most) => most.bytes < bytes,
    }
}

// Notes the job of a seat, where it holds more than the one that is noted.
fn note_more(most: &mut Option<Holder>, seat: &Option<Slot>)
    ensures { most.new ≡ more_held most.old (seat_of seat.now) }
{
    if let Some(slot) = seat {
        let bytes = held_by(slot);
        if is_more(bytes, most) {
            *most = Some(Holder {
                number: slot.number,
                account: slot.account.name.copy(),
                bytes,
            });
        }
    }
}

// The job in these seats that holds most, if there is a job: the first of those that hold as much.
pub(crate) fn most_held(seats: &[Option<Slot>]) -> Option<Holder>
    ensures { result ≡ most_held (seats_of seats.now) }
{
    let mut most = None;
    for seat in seats {
        note_more(&mut most, seat);
    }
    most
}
