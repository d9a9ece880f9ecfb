//! Each law is the contract of a function that does nothing.
ghost use Rattle.frame_laws.specs.Laws.{TextsAreFramed, NamesAreKnown, NamesStayApart, TextsRunInParts};

/// A text that is run over the data sets that its cards name, or over these and more, prints what it prints over all, and
/// leaves of them what it leaves there; and over all it leaves the others as they are.
pub fn texts_are_framed()
    ensures { TextsAreFramed }
{}

/// Which data sets there are behind a text, in which order and whose, follows from its commands alone.
pub fn names_are_known()
    ensures { NamesAreKnown }
{}

/// No two data sets have one name behind a text, if none had before it.
pub fn names_stay_apart()
    ensures { NamesStayApart }
{}

/// Texts that are run in parts, each over the data sets of its part, print what they print one after the other over all, and leave
/// what they leave there; wherever memory breaks turns off in the parts, it may have done so in the whole.
pub fn texts_run_in_parts()
    ensures { TextsRunInParts }
{}
