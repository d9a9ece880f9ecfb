//! The deck of a part: the accounts, the data sets that go to it, and its texts, each with a fence behind it.
ghost use Rattle.std.specs.Prelude.{◌≡◌, ◌++◌, IfOk, OnOk};
ghost use Rattle.std.specs.List.{flat_map};
ghost use Rattle.parts.specs.Splits.{goes};
ghost use Rattle.deck_parts.specs.PartDecks.{deck_of_part, set_in, text_in, texts_in};

use crate::deck::{SetText, Whole};
use crate::texts::FENCE;
use parts::Split;
use preflight::Submission;
use std::alloc::{AllocError, Global};

/// The deck of the part of this number.
///
/// # Errors
///
/// Where a growth was refused.
pub fn part_deck(
    alloc: Global,
    whole: &Whole,
    split: &Split,
    part: u64,
) -> Result<Vec<u8>, AllocError>
    ensures { IfOk result (λ deck. deck.items ≡ deck_of_part (goes split.now) part whole.now) }
{
    let mut deck = Vec::from_slice(alloc, &whole.front)?;
    put_sets(&mut deck, split, part, &whole.sets)?;
    deck.extend_from_slice(b"$STREAM\n")?;
    put_texts(&mut deck, split, part, &whole.texts)?;
    deck.extend_from_slice(b"$STOP\n")?;
    Ok(deck)
}

fn put_sets(
    deck: &mut Vec<u8>,
    split: &Split,
    part: u64,
    sets: &[SetText],
) -> Result<(), AllocError>
    ensures { OnOk result (deck.new.items ≡ deck.old.items ++ flat_map (set_in (goes split.now) part) sets.now) }
{
    for set in sets {
        put_set(deck, split, part, set)?;
    }
    Ok(())
}

// A data set, if it goes to the part.
fn put_set(deck: &mut Vec<u8>, split: &Split, part: u64, set: &SetText) -> Result<(), AllocError>
    ensures { OnOk result (deck.new.items ≡ deck.old.items ++ set_in (goes split.now) part set.now) }
{
    if split.of_name(&set.name) == part {
        deck.extend_from_slice(&set.text)?;
    }
    Ok(())
}

fn put_texts(
    deck: &mut Vec<u8>,
    split: &Split,
    part: u64,
    texts: &[Submission],
) -> Result<(), AllocError>
    ensures { OnOk result (deck.new.items ≡ deck.old.items ++ texts_in (goes split.now) part 0 texts.now) }
{
    for (place, text) in texts.iter().enumerate() {
        put_text(deck, split, part, place as u64, text)?;
    }
    Ok(())
}

// A text with its fence, if it goes to the part.
fn put_text(
    deck: &mut Vec<u8>,
    split: &Split,
    part: u64,
    place: u64,
    text: &Submission,
) -> Result<(), AllocError>
    ensures { OnOk result (deck.new.items ≡ deck.old.items ++ text_in (goes split.now) part place text.now) }
{
    if split.of_text(place) == part {
        deck.extend_from_slice(&text.text)?;
        deck.extend_from_slice(FENCE)?;
    }
    Ok(())
}
