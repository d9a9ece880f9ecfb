//! Each law is the contract of a function that does nothing.
ghost use Rattle.round_parts.specs.Names.{NamesAreSpoken};
ghost use Rattle.round_parts.specs.Laws.{SplitsAreLawful, JoinedIsOutput};

/// A text speaks of the names that are read from its cards, and of no others.
pub fn names_are_spoken()
    ensures { NamesAreSpoken }
{}

/// Where a split was told to be one of the texts as they were read, the texts of the round run in parts by it: each text prints and is
/// audited in its part as in the whole, and the parts leave what the whole leaves.
pub fn splits_are_lawful()
    ensures { SplitsAreLawful }
{
    frame_audit::laws::texts_run_in_parts();
}

/// What the parts of a round wrote, joined, is the output of the whole round's deck, byte for byte; and their audits are its audit:
/// with some marks for the turns that memory breaks off.
pub fn joined_is_output()
    ensures { JoinedIsOutput }
{
    frame_audit::laws::texts_run_in_parts();
    rounds::laws::each_its_part();
    preflight::laws::never_refused();
    mon_monitor::laws::card_by_card();
    mon_monitor::laws::drain_empties();
    mon_monitor::laws::accounts_stay();
    mon_monitor::laws::slots_stay();
}
