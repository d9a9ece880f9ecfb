//! Laws over rounds: each function's contract is one.
ghost use Rattle.rounds.specs.Example.{TheyFindAlike};
ghost use Rattle.rounds.specs.Isolation.{TextsIsolated, SitesIsolated};
ghost use Rattle.rounds.specs.InParts.{RoundsRunInParts};
ghost use Rattle.rounds.specs.Laws.{EachAlone, Delivers, EachTells, EachItsPart, GoesOn};

/// A text leaves all slots empty: the next one finds nothing of it except the data sets.
pub fn each_alone()
    ensures { EachAlone }
{
    mon_monitor::laws::card_by_card();
    mon_monitor::laws::drain_empties();
    mon_monitor::laws::accounts_stay();
    mon_monitor::laws::slots_stay();
}

/// What a round writes is what each text prints, run alone over the data sets that the text before it left, in order, and then
/// the catalogue that the last of them left.
pub fn delivers()
    ensures { Delivers }
{
    preflight::laws::never_refused();
    mon_monitor::laws::card_by_card();
    mon_monitor::laws::drain_empties();
    mon_monitor::laws::accounts_stay();
    mon_monitor::laws::slots_stay();
}

/// Each text has a history of its own, which tells all of it: its cards, its jobs, what was granted and denied, what it prints.
pub fn each_tells()
    ensures { EachTells }
{
    mon_monitor::laws::history_tells();
}

/// Cut where the printouts of its texts end, the output of a round has the printout of each text, whole and alone, and behind the
/// last the catalogue.
pub fn each_its_part()
    ensures { EachItsPart }
{
    preflight::laws::never_refused();
    mon_monitor::laws::card_by_card();
    mon_monitor::laws::drain_empties();
    mon_monitor::laws::accounts_stay();
    mon_monitor::laws::slots_stay();
}

/// A round's deck is never refused, and what a round leaves is good for the next: for ever.
pub fn goes_on()
    ensures { GoesOn }
{
    preflight::laws::never_refused();
}

/// A round that is run in parts, each over the data sets of its part alone, prints what it prints as one, and leaves what it leaves.
pub fn rounds_run_in_parts()
    ensures { RoundsRunInParts }
{
    frame_laws::laws::texts_run_in_parts();
}

/// Over data sets that look alike to its account, a text prints the same, and leaves data sets that look alike to it again.
pub fn texts_isolated()
    ensures { TextsIsolated }
{
    mon_monitor::isolation::isolated();
}

/// At a site, where others hand in what they like between an account's texts: if at each of its texts it finds data sets that look
/// alike to it, its answers are the same.
pub fn sites_isolated()
    ensures { SitesIsolated }
{
    mon_monitor::isolation::isolated();
    frame_laws::laws::names_stay_apart();
}

/// There are such sites: an example of two that differ, at which an account finds the same.
pub fn they_find_alike()
    ensures { TheyFindAlike }
{}
