//! The law is the contract of a function that only cites laws of the crates below.
ghost use Rattle.ledger_frames.specs.Laws.{SomeAreEnough};

/// A text that makes no data set, run over those that its cards name, or these and more, prints, tells its audit and changes what it does
/// over all; and what it leaves can be written where what it leaves of these can.
pub fn some_are_enough()
    ensures { SomeAreEnough }
{
    frame_laws::laws::texts_are_framed();
    frame_laws::laws::names_are_known();
    frame_laws::laws::names_stay_apart();
    frame_audit::laws::audits_are_framed();
}
