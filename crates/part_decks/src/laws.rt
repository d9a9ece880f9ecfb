//! The law is the contract of a function that does nothing.
ghost use Rattle.part_decks.specs.Laws.{PartsAreWritten};

/// Of a good round's deck, taken apart, `part_deck` writes for each part the deck of its data sets and texts: such a deck, run by itself,
/// writes what is told of the part in the round, but for the numbers of jobs.
pub fn parts_are_written()
    ensures { PartsAreWritten }
{
    job_numbers::laws::parts_run_alone();
}
