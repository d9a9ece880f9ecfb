//! Submissions that run longer or print more than they may: they have no effect, and it is told which it was.
use crate::life::founded;
use ledger_machine::{Bounded, Bounds, Clock, WatchedMachine};
use ledger_run::{LedgerError, Machine};
use std::time::Instant;

const CARDS: &[u8] = b"ANN\n$CREATE ANN PAY\n$LIST ANN PAY\n";

// A job whose function takes minutes, statement by statement.
const STATEMENTS: &[u8] = b"ANN
$JOB ANN ST=10000000
 DEFINE(\"F()\") :(G)
F S = DUPL(\"A\",5000) :(F)
G X = F()
END
$EOJ
";

// One whose every match takes a million steps.
const STEPS: &[u8] = b"ANN
$JOB ANN ST=10000000 MATCH=10000000
 S = DUPL(\"A\",26)
L S POS(0) ARBNO(\"A\" | \"AA\") \"B\" :(L)
END
$EOJ
";

// So many seconds are far from one, and far from what these take.
const FAR: u64 = 30;

// The system's clock.
#[derive(Drop)]
struct Passing {
    rt: HostRuntime,
    begun: Option<Instant>,
}

impl Clock for Passing {
    fn seconds(&self) -> u64 {
        match (self.begun, Instant::now(&self.rt)) {
            (Some(begun), Ok(now)) => now.saturating_duration_since(begun).as_secs(),
            _ => 0,
        }
    }
}

// Why a submission is broken off, if it is.
fn broken_off(rt: HostRuntime, text: &[u8], seconds: u64, output: u64) -> Option<LedgerError> {
    let Some(machine) = founded(rt.alloc()) else {
        return Some(LedgerError::Refused);
    };
    let begun = Instant::now(&rt).ok();
    let watch = Bounded::new(Passing { rt, begun }, Bounds { seconds, output });
    let mut watched = WatchedMachine { machine, watch };
    watched.run(text).err()
}

#[test]
fn what_prints_is_watched(rt: HostRuntime) {
    assert!(rt; broken_off(rt, CARDS, 100, 1_000).is_none());
    assert!(rt; matches!(broken_off(rt, CARDS, 100, 10), Some(LedgerError::Long)));
}

// Whether it is broken off when a second has passed, and not when it is done.
fn is_late(rt: HostRuntime, text: &[u8]) -> bool {
    let Ok(begun) = Instant::now(&rt) else {
        return false;
    };
    let error = broken_off(rt, text, 0, 1_000);
    let passed = match Instant::now(&rt) {
        Ok(now) => now.saturating_duration_since(begun).as_secs(),
        Err(_) => FAR,
    };
    matches!(error, Some(LedgerError::Late)) && passed < FAR
}

#[test]
fn what_takes_long_is_late(rt: HostRuntime) {
    assert!(rt; is_late(rt, STATEMENTS));
    assert!(rt; is_late(rt, STEPS));
}
