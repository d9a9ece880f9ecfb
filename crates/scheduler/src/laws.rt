//! Laws of loads, turns and rounds. Each is the contract of a function that does nothing.
ghost use Rattle.scheduler.specs.Loads.{ToldByCards};
ghost use Rattle.scheduler.specs.Rounds.{WithoutMarks, MarksEndJobs, TakesOneMark, RoundsEnd, DrainEmpties, RoomIsMade};

/// Turns without marks are the turns of the definitions.
pub fn without_marks()
    ensures { WithoutMarks }
{}

/// And so are those in which no job ends for want of memory.
pub fn marks_end_jobs()
    ensures { MarksEndJobs }
{}

/// A turn takes one mark.
pub fn takes_one_mark()
    ensures { TakesOneMark }
{}

/// As many rounds as the jobs can have turns are enough, and more change nothing.
pub fn rounds_end()
    ensures { RoundsEnd }
{}

/// After a drain all slots are empty.
pub fn drain_empties()
    ensures { DrainEmpties }
{}

/// After turns for room a slot is empty.
pub fn room_is_made()
    ensures { RoomIsMade }
{}

/// Why a job is not loaded where a slot is free is told by its cards alone.
pub fn told_by_cards()
    ensures { ToldByCards }
{}
