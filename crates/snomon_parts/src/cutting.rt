//! The decks of a deck's parts.
ghost use Rattle.std.specs.Prelude.{length, IfOk, IfSome};
ghost use Rattle.std.specs.Str.Lines.{lines};
ghost use Rattle.access_report.specs.Fronts.{ReachesStream};
ghost use Rattle.round_cut.specs.Cuts.{IsLawful};
ghost use Rattle.snomon_parts.specs.Cuts.{IsCut};

use access_report::{Refusal, read_front};
use deck_parts::{Uncut, Whole, read_whole};
use deck_syntax::Front;
use mon_text::Stop;
use parts::Split;
use round_cut::cut_round;
use std::alloc::{AllocError, Global};

/// No deck has so many bytes.
const MOST_BYTES: u64 = 1 << 63;

/// A deck, taken apart, and the split by which it is cut.
#[derive(Drop)]
pub struct Cut {
    /// What stands before its stream, read.
    pub front: Front,
    /// The deck.
    pub whole: Whole,
    /// The split; none, where there might come to be more data sets than there may be.
    pub split: Option<Split>,
}

/// Takes a deck apart, and cuts it into so many parts at most.
///
/// # Errors
///
/// Why it is not taken apart; `Memory` where a growth was refused.
pub fn cut_deck(alloc: Global, deck: &[u8], most: u64) -> Result<Cut, Stop<Uncut>>
    ensures { IfOk result (λ cut. IsCut deck.now cut) }
{
    let front = front_of(alloc, deck)?;
    let whole = read_whole(alloc, deck)?;
    let split = split_of(alloc, &whole, most)?;
    Ok(Cut {
        front,
        whole,
        split,
    })
}

// By as many data sets as the deck has.
fn split_of(alloc: Global, whole: &Whole, most: u64) -> Result<Option<Split>, AllocError>
    ensures { IfOk result (λ cut. IfSome cut (λ split. IsLawful split whole.now.texts.items (length whole.now.sets.items))) }
{
    let sets = whole.sets.len() as u64;
    cut_round(alloc, &whole.texts, sets, most)
}

fn front_of(alloc: Global, deck: &[u8]) -> Result<Front, Stop<Uncut>>
    ensures { IfOk result (λ front. ReachesStream (lines deck.now) front.accounts front.catalogue) }
{
    if deck.len() as u64 >= MOST_BYTES {
        return Err(Stop::Memory);
    }
    match read_front(alloc, deck) {
        Ok(front) => Ok(front),
        Err(Stop::Refused(Refusal { line, code })) => {
            Err(Stop::Refused(Uncut::Refused(line, code)))
        }
        Err(Stop::Memory) => Err(Stop::Memory),
    }
}
