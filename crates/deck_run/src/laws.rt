//! Laws of the definitions: what a deck's output says. Each is the contract of a function that does nothing.
ghost use Rattle.deck_run.specs.Laws.{ShowsWhereGranted, DenialsSayWhy, InItsPlace, InOrder, Unmarked, ShowsItsMarks, RefusedPrintsAsGood, PiecesAreJoined, HoweverCut, ReadBackIsStored, CataloguesRunAgain};
ghost use Rattle.deck_run.specs.Isolation.{DecksIsolated};
ghost use Rattle.deck_run.specs.Example.{TheyLookAlike};
ghost use Rattle.deck_run.specs.Headline.{Headline};
ghost use Rattle.deck_run.specs.Audited.{Audited};
ghost use Rattle.deck_run.specs.Appending.{AppendOnly};
ghost use Rattle.deck_run.specs.Seeing.{ReadsSeeWrites};
ghost use Rattle.deck_run.specs.Schedules.{AnyTurns, ApartByTheirCards};

/// All that a deck's jobs ask and its commands order is one list. Each job's entries there are what its program means, as it is
/// answered; each is answered over the data sets as the one before it left them; a record is got, a data set changed, a
/// record, list or name shown, exactly where that is asked, the access check, or ownership, then grants it, and the data set's
/// mode has it; every denial says why; and the output is what these entries print. Each card brings its turns and its entry in
/// its time, and a job ends for want of memory only in a turn with a mark.
pub fn headline()
    ensures { Headline }
{
    mon_monitor::laws::card_by_card();
    mon_monitor::laws::drain_empties();
    mon_monitor::laws::history_tells();
    mon_monitor::laws::turns_come();
}

/// Of a deck that is run the audit has the line of each entry of the history, in its order.
pub fn audited()
    ensures { Audited }
{}

/// The records that a set of mode APPEND has in a deck's catalogue are the first that it has in the catalogue that is written, unless
/// its owner has deleted it.
pub fn append_only()
    ensures { AppendOnly }
{
    mon_monitor::laws::append_only();
}

/// A line that a job wrote, and was told to be done, is got at its place by exactly whoever is granted r then, until its data set is
/// written again, ended or deleted.
pub fn reads_see_writes()
    ensures { ReadsSeeWrites }
{
    mon_monitor::laws::reads_see_writes();
}

/// A `$LIST` card shows records exactly where its account is known, its data set is there, and the access check of
/// acl(5) grants r to that account on that set's list; and then it shows the data set's records.
pub fn shows_where_granted()
    ensures { ShowsWhereGranted }
{}

/// A `$LIST` card that shows no records names the entry that decided, or what is missing.
pub fn denials_say_why()
    ensures { DenialsSayWhy }
{}

/// The output of a deck has what each of its cards prints, as it is over the system that the cards before it left, and with the
/// marks that they left; and so the laws of one command hold of each command of a deck.
pub fn in_its_place()
    ensures { InItsPlace }
{
    mon_monitor::laws::card_by_card();
}

/// What the cards print stands in their order, with nothing between them, and then come the jobs that are left, and the
/// catalogue.
pub fn in_order()
    ensures { InOrder }
{
    mon_monitor::laws::card_by_card();
}

/// Where no job ended for want of memory, the output is a function of the options and of the deck's bytes.
pub fn unmarked()
    ensures { Unmarked }
{
    mon_monitor::laws::unmarked();
}

/// Whoever reads an output can tell whether memory ended a job: where no line of it begins with `END MEMORY`, it is a function of the
/// options and of the deck's bytes.
pub fn shows_its_marks()
    ensures { ShowsItsMarks }
{
    unmarked();
}

/// A refused deck has printed what a good deck prints that begins with the lines before the refused one, up to the permission
/// list or the job that stood open there, if one did.
pub fn refused_prints_as_good()
    ensures { RefusedPrintsAsGood }
{
    mon_monitor::laws::card_by_card();
}

/// A feed takes pieces one after the other as it takes all of them at once.
pub fn pieces_are_joined()
    ensures { PiecesAreJoined }
{}

/// However the bytes of a deck are cut, the whole is the same.
pub fn however_cut()
    ensures { HoweverCut }
{}

/// Data sets that are read back, as those that a run writes are, hold to what every catalogue holds to.
pub fn read_back_is_stored()
    ensures { ReadBackIsStored }
{}

/// The catalogue that a run writes is good in the next deck, behind any good account table, and is there the same data sets.
pub fn catalogues_run_again()
    ensures { CataloguesRunAgain }
{}

/// Two decks of an account's own cards, over data sets that differ only in records that it does not own and may neither read nor
/// count, print the same up to their catalogues, if memory breaks the same turns off.
pub fn decks_isolated()
    ensures { DecksIsolated }
{
    deck_syntax::laws::reading_spells();
    deck_syntax::laws::good_beginnings();
    mon_monitor::isolation::isolated();
}

/// There are such decks that differ.
pub fn they_look_alike()
    ensures { TheyLookAlike }
{
    mon_monitor::isolation::they_agree();
}

/// Where no data set is tied by jobs in two slots, it doesn't matter which `$TURN` and `$DRAIN` cards come behind the others:
/// each job prints the same, and the catalogue at the end is the same.
pub fn any_turns()
    ensures { AnyTurns }
{
    deck_syntax::laws::reading_spells();
    mon_monitor::laws::card_by_card();
    mon_monitor::laws::drain_empties();
    mon_monitor::isolation::commands_agree();
    mon_monitor::isolation::any_schedule();
    mon_monitor::isolation::ends_as_alone();
}

/// That no data set is tied by jobs in two slots, a deck's cards can show: no two of its jobs name one data set.
pub fn apart_by_their_cards()
    ensures { ApartByTheirCards }
{}
