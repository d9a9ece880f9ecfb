//! Laws of records. Each is the contract of a function that does nothing.
ghost use Rattle.sno_declarations.specs.Laws.{RecordsFollow, RecordsFit};

/// The records whose pieces `Format::piece` takes one after another are those of the text.
pub fn records_follow()
    ensures { RecordsFollow }
{}

/// No record is longer than 1,024 characters.
pub fn records_fit()
    ensures { RecordsFit }
{}
