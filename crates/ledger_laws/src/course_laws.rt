//! Laws of what the commits say: each is the contract of a function that does nothing.
ghost use Rattle.ledger_laws.specs.CourseLaws.{Honest, Once, Progress, TakenAsRecorded};

/// Each committed text ran over the state that the commits before it left; whatever intakes and batches are appended.
pub fn honest<Text, Out, State, Change>()
    ensures { Honest Text Out State Change }
{}

/// Each number is answered once, or waits once.
pub fn once<Text, Out, State, Change>()
    ensures { Once Text Out State Change }
{}

/// A batch leaves fewer texts waiting, if any wait.
pub fn progress<Text, Out, State, Change>()
    ensures { Progress Text Out State Change }
{}

/// The numbers that records take are those under which they take a file, as often as they do: what `keeps_each_file` says of numbers, it
/// says of records.
pub fn taken_as_recorded<Text, Out, Change>()
    ensures { TakenAsRecorded Text Out Change }
{}
