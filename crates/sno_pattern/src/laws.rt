//! Laws over the definitions alone. Each is the contract of a function that does nothing.
ghost use Rattle.sno_pattern.specs.Laws.{TakesOff, StepsFall, AnyDepth, NeedsSteps, StepsAreExact, MatchesAlike, FirstEnd, FirstMatch, MatchIsWithin, MatchesGoOn};

use crate::host::MatchHost;

/// Taking a goal off is one step, and the rest goes on as goals come out.
pub fn takes_off()
    ensures { TakesOff }
{}

/// Whatever the host tells, no more steps are left than there were.
pub fn steps_fall()
    ensures { StepsFall }
{}

/// Any two depths give the same, if there are as many as steps.
pub fn any_depth()
    ensures { AnyDepth }
{}

/// Each end but Limit needs some number of steps, within the limit.
pub fn needs_steps()
    ensures { NeedsSteps }
{}

/// With as many steps or more a match ends as it does, and with fewer by Limit.
pub fn steps_are_exact()
    ensures { StepsAreExact }
{}

/// Two matches whose hosts answer alike ask the same and end alike.
pub fn matches_alike()
    ensures { MatchesAlike }
{}

/// A pattern that asks no host and cuts nothing off comes out at the first of its ends.
pub fn first_end()
    ensures { FirstEnd }
{}

/// A whole match of such a pattern is from the first start that has an end to the first of its ends.
pub fn first_match()
    ensures { FirstMatch }
{}

/// Whatever the host tells, what is matched is a part of the text.
pub fn matches_within()
    ensures { MatchIsWithin }
{}

/// What a match was broken off after, inside a call of the host too, begins a whole match.
pub fn matches_go_on<H: MatchHost>()
    ensures { MatchesGoOn H.tells H.broken }
{}
