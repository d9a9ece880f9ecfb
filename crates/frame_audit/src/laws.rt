//! Each law is the contract of a function that does nothing.
ghost use Rattle.frame_audit.specs.Laws.{AuditsAreFramed, TextsRunInParts};

/// A text that is run over the data sets that its cards name, or over these and more, has the audit that it has over all.
pub fn audits_are_framed()
    ensures { AuditsAreFramed }
{}

/// Texts that are run in parts, each over the data sets of its part, print what they print one after the other over all, have the
/// audits that they have there, and leave what they leave there; wherever memory breaks turns off in the parts, it may have done so
/// in the whole.
pub fn texts_run_in_parts()
    ensures { TextsRunInParts }
{}
