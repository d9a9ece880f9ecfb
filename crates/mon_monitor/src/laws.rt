//! Laws of events. Each is the contract of a function that does nothing, or only cites laws of the crates below.
ghost use Rattle.mon_monitor.specs.Laws.{CardByCard, PrintedInOrder, PlayedUnmarked, DrainEmpties, LoadHasRoom, CommandsKeepSlots, AccountsStay, SlotsStay};
ghost use Rattle.mon_monitor.specs.Headline.{HistoryTells};
ghost use Rattle.mon_monitor.specs.Granted.{AccessesAreNamed};
ghost use Rattle.mon_monitor.specs.Turns.{TurnsCome};
ghost use Rattle.mon_monitor.specs.Appending.{AppendOnly};
ghost use Rattle.mon_monitor.specs.Seeing.{ReadsSeeWrites};

use scheduler::laws;

/// More events only add printouts: those of the first come first, and the others happen in the system that these leave.
pub fn card_by_card()
    ensures { CardByCard }
{}

/// So what is printed of the first events is where the whole printout begins.
pub fn printed_in_order()
    ensures { PrintedInOrder }
{}

/// Where no job ended for want of memory, printouts and system are those of no marks.
pub fn unmarked()
    ensures { PlayedUnmarked }
{
    laws::marks_end_jobs();
}

/// After a drain all slots are empty.
pub fn drain_empties()
    ensures { DrainEmpties }
{
    laws::drain_empties();
}

/// A job that enters is never refused for want of a slot.
pub fn load_has_room()
    ensures { LoadHasRoom }
{
    laws::room_is_made();
}

/// A command gives no turn: it takes no mark, and no slot changes.
pub fn commands_keep_slots()
    ensures { CommandsKeepSlots }
{}

/// No event changes the account table.
pub fn accounts_stay()
    ensures { AccountsStay }
{}

/// There are as many slots as before.
pub fn slots_stay()
    ensures { SlotsStay }
{}

/// From empty slots on, one list tells all that happens: of each job what its program means, one entry after another over the
/// data sets as they stand, who is granted what, why something is denied, and what is printed.
pub fn history_tells()
    ensures { HistoryTells }
{
    sno_syntax::laws::spells_one();
    sno_syntax::laws::reads_programs();
    laws::room_is_made();
    slots_stay();
    mon_unit::laws::got_where_granted();
    mon_unit::laws::changed_where_granted();
    mon_unit::laws::denials_say_why();
    mon_unit::laws::denials_change_nothing();
    mon_command::laws::changes_where_granted();
    mon_command::laws::shows_where_granted();
    mon_command::laws::denials_say_why();
}

/// From empty slots on, each card brings its turns and its entry in its time: turns of the slot that its card names, or of slot after
/// slot, one statement of a job each; and a job ends for want of memory only in a turn that has a mark.
pub fn turns_come()
    ensures { TurnsCome }
{
    laws::room_is_made();
    slots_stay();
}

/// The records of a set of mode APPEND stay as they are and where they are, and others only come behind them, until it is deleted.
pub fn append_only()
    ensures { AppendOnly }
{
    mon_unit::laws::changed_where_granted();
}

/// What a job wrote, and was told to be done, is got at its place by whoever is granted r, until its data set is written again, ended or
/// deleted.
pub fn reads_see_writes()
    ensures { ReadsSeeWrites }
{
    mon_unit::laws::got_where_granted();
    mon_unit::laws::changed_where_granted();
}

/// Each record that a job gets of a data set, and each change of one, has a line in the audit that names the entry which granted it; and so has
/// what a command shows or changes, or that its account is the owner.
pub fn accesses_are_named()
    ensures { AccessesAreNamed }
{
    audit::laws::entries_are_named();
    audit::laws::grants_are_named();
    audit::laws::changes_are_named();
    mon_guard::laws::lends_where_granted();
}
