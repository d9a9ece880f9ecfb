//! Public calls that no deck makes: jobs of a monitor that are given turns one by one, and in an order.
use crate::access::{ANNA, LISA, is_known};
use crate::catalogue::{lines_of, put_text, read};
use deck_run::NoAudit;
use mon_access::Accounts;
use mon_catalogue::Version;
use mon_monitor::{Monitor, Turned};
use mon_text::{Stop, read_name};
use mon_unit::Lines;
use scheduler::{JobDeck, JobLimits, LoadError, UnitCard, UnitCards, put_printout};
use sno_text::Seed;
use std::alloc::Global;

/// The data sets of the jobs: one that lisa may read, and one of anna's alone.
const SETS: &str = "$SET PAYROLL anna admin 3
user::rwx,user:lisa:rw-,group::r--,mask::r--,other::---
ADA 100
BOB 200

$SET FIVE anna admin 5
user::rwx,group::---,other::---
A
B
C
D
E
";

/// A job: who enters it, a unit that it ties to a set, and its program.
struct Entered {
    account: &'static [u8],
    unit: u64,
    set: &'static [u8],
    program: &'static str,
}

/// Reads three records, and then tells whether there is no fourth: six turns, where there is none.
static READER: Entered = Entered {
    account: b"anna",
    unit: 8,
    set: b"FIVE",
    program: " INPUT('R',8)
 X = R; X = R; X = R
 OUTPUT = R :S(END)
 OUTPUT = 'EOF'
END
",
};

/// Writes the first record of the same set, which cuts off the rest: two turns.
static WRITER: Entered = Entered {
    account: b"anna",
    unit: 9,
    set: b"FIVE",
    program: " OUTPUT('W',9)
 W = 'Z'
END
",
};

/// Writes the third record: five turns.
static LONG: Entered = Entered {
    account: b"anna",
    unit: 8,
    set: b"FIVE",
    program: " INPUT('R',8); OUTPUT('W',8)
 X = R; X = R; W = 'NEW'
END
",
};

/// Is denied to write the other set: two turns.
static SHORT: Entered = Entered {
    account: b"lisa",
    unit: 8,
    set: b"PAYROLL",
    program: " OUTPUT('P',8)
 P = 'X'
END
",
};

/// What it prints.
const SHORT_PRINTOUT: &[u8] = b"JOB 2 lisa\n\
    DENIED STATEMENT 2 WRITE PAYROLL BY mask::\n\
    END NORMAL AFTER 2\n";

/// What is answered where a job is to be loaded.
type Loaded = Result<u8, Stop<LoadError>>;

fn loaded(alloc: Global, monitor: &mut Monitor, number: u64, job: &Entered) -> Option<Loaded> {
    let unit = job.unit;
    let account = read_name(job.account).ok()?;
    let set = read_name(job.set).ok()?;
    let lines = lines_of(alloc, job.program)?;
    let mut ties = UnitCards::new(alloc);
    ties.push(UnitCard { unit, set }).ok()?;
    let deck = JobDeck {
        number,
        account,
        limits: JobLimits::usual(),
        ties,
        lines: Lines::of(lines),
    };
    Some(monitor.load(alloc, deck))
}

// A monitor of two slots, of which the first has a job, and the second another.
fn monitor_of(alloc: Global, first: &Entered, second: &Entered) -> Option<Monitor> {
    let mut accounts = Accounts::new(alloc);
    let are_known = is_known(alloc, &mut accounts, ANNA) && is_known(alloc, &mut accounts, LISA);
    let catalogue = read(alloc, Version::One, SETS)?;
    let mut monitor = Monitor::new(alloc, Seed::fixed(), accounts, catalogue, 2).ok()?;
    let are_loaded = matches!(loaded(alloc, &mut monitor, 1, first), Some(Ok(1)))
        && matches!(loaded(alloc, &mut monitor, 2, second), Some(Ok(2)));
    if are_known && are_loaded {
        Some(monitor)
    } else {
        None
    }
}

fn finds_no_slot(alloc: Global, monitor: &mut Monitor) -> bool {
    matches!(
        loaded(alloc, monitor, 3, &SHORT),
        Some(Err(Stop::Refused(LoadError::NoSlot)))
    )
}

fn ends(alloc: Global, monitor: &mut Monitor, slot: u8, printout: &[u8]) -> bool {
    let mut out = Vec::new(alloc);
    match monitor.turn(alloc, slot, &mut NoAudit) {
        Ok(Turned::Ended(end)) => {
            put_printout(&end, &mut out).is_ok() && out.as_slice() == printout
        }
        _ => false,
    }
}

fn is_empty(alloc: Global, monitor: &mut Monitor, slot: u8) -> bool {
    matches!(monitor.turn(alloc, slot, &mut NoAudit), Ok(Turned::Empty))
}

// Both slots have a job, until the second is given turns to its end.
fn empties(alloc: Global, monitor: &mut Monitor) -> bool {
    !monitor.has_room()
        && finds_no_slot(alloc, monitor)
        && matches!(monitor.turn(alloc, 2, &mut NoAudit), Ok(Turned::Goes))
        && ends(alloc, monitor, 2, SHORT_PRINTOUT)
        && is_empty(alloc, monitor, 2)
        && is_empty(alloc, monitor, 3)
        && monitor.has_room()
}

fn turns_to_an_end(alloc: Global) -> bool {
    match monitor_of(alloc, &LONG, &SHORT) {
        Some(mut monitor) => empties(alloc, &mut monitor),
        None => false,
    }
}

#[test]
fn a_job_is_given_turns_to_its_end(rt: HostRuntime) {
    assert!(rt; turns_to_an_end(rt.alloc()));
}

fn is_independence(alloc: Global, first: &Entered, second: &Entered, wanted: bool) -> bool {
    match monitor_of(alloc, first, second) {
        Some(monitor) => monitor.independent() == wanted,
        None => false,
    }
}

#[test]
fn jobs_that_tie_one_set_are_not_independent(rt: HostRuntime) {
    assert!(rt; is_independence(rt.alloc(), &LONG, &SHORT, true));
    assert!(rt; is_independence(rt.alloc(), &READER, &WRITER, false));
}

/// The writer ends first, so that the reader finds no fourth record.
const SHARED_OUTPUT: &[u8] = b"JOB 2 anna\n\
    END NORMAL AFTER 2\n\
    JOB 1 anna\n\
    \x20EOF\n\
    END NORMAL AFTER 6\n\
    $SET PAYROLL anna admin SEQ 3\n\
    user::rwx,user:lisa:rw-,group::r--,mask::r--,other::---\n\
    ADA 100\n\
    BOB 200\n\
    \n\
    $SET FIVE anna admin SEQ 1\n\
    user::rwx,group::---,other::---\n\
    Z\n";

// Whether jobs that are given turns in an order print this, with what they leave.
fn prints(alloc: Global, monitor: &mut Monitor, order: &[u8], output: &[u8]) -> bool {
    let Ok(ends) = monitor.turns(alloc, order, &mut NoAudit) else {
        return false;
    };
    let mut out = Vec::new(alloc);
    let mut is_put = true;
    for end in &ends {
        is_put = is_put && put_printout(end, &mut out).is_ok();
    }
    is_put && put_text(monitor.catalogue(), &mut out) && out.as_slice() == output
}

// Whether the reader and the writer print this where they are given turns in an order.
fn takes_turns(alloc: Global, order: &[u8], output: &[u8]) -> bool {
    match monitor_of(alloc, &READER, &WRITER) {
        Some(mut monitor) => prints(alloc, &mut monitor, order, output),
        None => false,
    }
}

#[test]
fn jobs_on_one_set_take_turns_in_an_order(rt: HostRuntime) {
    let order = [1, 1, 1, 1, 2, 2, 1, 1];
    assert!(rt; takes_turns(rt.alloc(), &order, SHARED_OUTPUT));
}
