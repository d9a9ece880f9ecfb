//! What an account may not see does not show, and jobs on data sets of their own don't depend on the schedule: laws of whole runs.
//! Each is the contract of a function that does nothing.
ghost use Rattle.mon_monitor.specs.Example.{TheyAgree};
ghost use Rattle.mon_monitor.specs.Isolation.{RequestsAgree, CommandsAgree, LoadsAgree, TurnsAgree, Isolated};
ghost use Rattle.mon_monitor.specs.Beginnings.{FromTheBeginning};
ghost use Rattle.mon_monitor.specs.Schedules.{EachAsAlone, EndsAsAlone, Rearranged, AnySchedule, DrainSettles};

/// There are systems that differ and agree.
pub fn they_agree()
    ensures { TheyAgree }
{}

/// One request of a job has one answer in what agrees for its account, and that agrees again.
pub fn requests_agree()
    ensures { RequestsAgree }
{}

/// So has a command of the account.
pub fn commands_agree()
    ensures { CommandsAgree }
{}

/// So has the loading of a job of the account.
pub fn loads_agree()
    ensures { LoadsAgree }
{}

/// So has a turn, even one that memory breaks off.
pub fn turns_agree()
    ensures { TurnsAgree }
{}

/// And so have any events of the account's own: what is printed is the same, and the systems agree again.
pub fn isolated()
    ensures { Isolated }
{}

/// So from the beginning on: over catalogues that look alike to an account its own events print the same text.
pub fn from_the_beginning()
    ensures { FromTheBeginning }
{}

/// Where no data set is tied by two jobs, each job does what it does alone.
pub fn each_as_alone()
    ensures { EachAsAlone }
{}

/// Each that ends, ends as it does alone.
pub fn ends_as_alone()
    ensures { EndsAsAlone }
{}

/// Where one list of turns ends all jobs, so does each list that gives every slot as many.
pub fn rearranged()
    ensures { Rearranged }
{}

/// All orders of turns that end all jobs end them alike, and leave one catalogue.
pub fn any_schedule()
    ensures { AnySchedule }
{}

/// And so does a drain, where memory sufficed.
pub fn drain_settles()
    ensures { DrainSettles }
{}
