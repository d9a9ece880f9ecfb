//! A split of a round's texts, of which the law of a round in parts holds.
ghost use Rattle.std.specs.Prelude.{◌≡◌, ◌↔◌, ◌+◌, ◌<◌, ◌≤◌, None, max, true, IfOk, OnOk, IfSome};
ghost use Rattle.parts.specs.Splits.{AreWithin};
ghost use Rattle.round_cut.specs.Cuts.{IsLawful, SpeaksOfItsOwn, AddsOne, AreReadFrom, creations};

use parts::{Split, Text, pack};
use preflight::Submission;
use std::alloc::{AllocError, Global};
use text_names::text_of;

/// So many data sets there may be.
const MOST_SETS: u64 = 1000;

/// A split of the texts of a round into so many parts at most, where there are so many data sets before it. There is none where there
/// might come to be more data sets than there may be, as then what a text makes depends on all texts.
///
/// # Errors
///
/// Where a growth was refused.
pub fn cut_round(
    alloc: Global,
    submissions: &[Submission],
    sets: u64,
    most: u64,
) -> Result<Option<Split>, AllocError>
    ensures lawful { IfOk result (λ cut. IfSome cut (λ split. IsLawful split submissions.now sets)) }
    ensures few { IfOk result (λ cut. IfSome cut (λ split. AreWithin (max most 1) split)) }
    ensures none { IfOk result (λ cut. cut ≡ None → 1000 < sets + creations submissions.now) }
{
    frame_audit::laws::texts_run_in_parts();
    if have_room(sets, submissions) {
        let split = packed(alloc, submissions, most)?;
        Ok(Some(split))
    } else {
        Ok(None)
    }
}

/// Whether there is room for all data sets that these texts may make, where there are so many before them.
pub fn have_room(sets: u64, submissions: &[Submission]) -> bool
    ensures { result ≡ true ↔ sets + creations submissions.now ≤ 1000 }
{
    let mut all = sets;
    for submission in submissions {
        all = all.saturating_add(submission.tally.creates);
    }
    all <= MOST_SETS
}

// By the names that their cards have.
fn packed(alloc: Global, submissions: &[Submission], most: u64) -> Result<Split, AllocError>
    ensures own { IfOk result (λ split. SpeaksOfItsOwn split submissions.now) }
    ensures few { IfOk result (λ split. AreWithin (max most 1) split) }
{
    let texts = read_all(alloc, submissions)?;
    let split = pack(alloc, texts.as_slice(), most)?;
    Ok(split)
}

// The texts as a split sees them, by their places.
fn read_all(alloc: Global, submissions: &[Submission]) -> Result<Vec<Text>, AllocError>
    ensures { IfOk result (λ texts. AreReadFrom 0 submissions.now texts.items) }
{
    let mut texts = Vec::new(alloc);
    for (place, submission) in submissions.iter().enumerate() {
        read_one(alloc, place as u64, submission, &mut texts)?;
    }
    Ok(texts)
}

fn read_one(
    alloc: Global,
    place: u64,
    submission: &Submission,
    texts: &mut Vec<Text>,
) -> Result<(), AllocError>
    ensures { OnOk result (AddsOne place submission.now texts.old.items texts.new.items) }
{
    let text = text_of(alloc, place, work_of(submission), &submission.text)?;
    texts.push(text)?;
    Ok(())
}

// What its jobs may do; and its bytes, since one that has no job is work, too.
fn work_of(submission: &Submission) -> u128 {
    submission
        .tally
        .work
        .saturating_add(submission.tally.bytes as u128)
}
