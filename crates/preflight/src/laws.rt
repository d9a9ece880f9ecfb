//! Laws over texts that are handed in: each function's contract is one, and its body is empty.
ghost use Rattle.preflight.specs.Laws.{LimitsAreTold, NeverRefused, OneVerdict};

/// Each text is one that its account may hand in, or one line of it is the first that is wrong, for one reason: the lines before it
/// begin a text that the account may hand in, and no such text begins with the lines up to it. That line is the one behind the last
/// where the text ends too early.
pub fn one_verdict()
    ensures { OneVerdict }
{}

/// What is handed in breaks no limit exactly where each number is within its own, and the limit that is told is one that is broken.
pub fn limits_are_told()
    ensures { LimitsAreTold }
{}

/// A deck of admitted texts, over a catalogue as it is written, is good: none of its lines is refused.
pub fn never_refused()
    ensures { NeverRefused }
{}
