//! Laws over audits and histories: each function's contract is one.
ghost use Rattle.audit_laws.specs.Sound.{ListsAreSpelled};
ghost use Rattle.audit_laws.specs.Laws.{NumbersAreTold, LinesAreTold, AuditsAreRead, HistoriesAreSound, AuditTellsHistory};

/// A number of 64 bits is told as it is.
pub fn numbers_are_told()
    ensures { NumbersAreTold }
{}

/// A list that a text spells is one that a data set may have.
pub fn lists_are_spelled()
    ensures { ListsAreSpelled }
{
    acl_text::laws::reading_spells();
    acl_text::laws::long_reading_spells();
}

/// The lines of an entry of a history are those of no other entry that differs in what is told of it.
pub fn lines_are_told()
    ensures { LinesAreTold }
{
    lists_are_spelled();
    acl_text::laws::reads_back();
}

/// An audit is read in one way: what is read of its lines is what the entries tell, in their order.
pub fn audits_are_read()
    ensures { AuditsAreRead }
{
    lists_are_spelled();
    acl_text::laws::reads_back();
}

/// In the history of a deck, whatever its bytes are, names stand where names are due, and entries are such as a list may have.
pub fn histories_are_sound()
    ensures { HistoriesAreSound }
{
    lists_are_spelled();
    deck_syntax::laws::reading_spells();
    deck_syntax::laws::good_beginnings();
    deck_run::laws::headline();
}

/// Two decks that are run and have one audit have one history, entry by entry: who asked for what in which order, of which data set and
/// at which place, what came of it, by which entry it was granted or why it was denied, and which jobs began, were refused and ended,
/// and how. Not told are the characters of records, programs, units and limits of jobs, the mode or list that a refused command asked
/// for, and what a printout shows beyond its number of lines.
pub fn audit_tells_history()
    ensures { AuditTellsHistory }
{
    audits_are_read();
    histories_are_sound();
    deck_run::laws::audited();
}
