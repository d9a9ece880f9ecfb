//! A deck that comes in pieces.
ghost use Rattle.std.specs.Prelude.{◌+◌, ◌≤◌, ◌<◌, ◌^◌, IsTrue};
ghost use Rattle.mon_text.specs.Feeding.{has_no_end};
ghost use Rattle.deck_driver.specs.Feeds.{lines_loaded};

use crate::options::{Counts, Options};
use crate::section::DeckState;
use mon_text::LineFeed;

/// A deck on its way in. What it keeps grows with the accounts, the catalogue, the jobs in the slots and the card that is
/// open, and not with the deck.
#[derive(Drop)]
pub struct DeckFeed {
    pub(crate) options: Options,
    pub(crate) state: DeckState,
    pub(crate) line: LineFeed,
    pub(crate) lines_taken: u64,
    pub(crate) counts: Counts,
    pub(crate) fed: u64,
    ghost counted: { (counts.jobs + counts.commands ≤ lines_taken) × (lines_taken ≤ fed) × (fed < 2 ^ 63) },
    ghost within: { lines_loaded state ≤ lines_taken },
    ghost unended: { IsTrue (has_no_end line) },
}
