//! A site of two accounts, submission by submission: what a plain `snomon` writes for the deck of them.
use ledger_machine::SiteMachine;
use ledger_run::Machine;
use ledger_sets::tables_change;
use sno_text::Seed;
use std::alloc::Global;

// The machine of a site that has accounts, and nothing else yet.
pub(crate) fn founded(alloc: Global) -> Option<SiteMachine> {
    let tables = tables_change(alloc, b"ANN DESK\nBOB DESK\n", b"1000 ANN\n", b"").ok()?;
    let mut machine = SiteMachine::new(alloc, Seed::fixed());
    machine.apply(&tables).ok()?;
    Some(machine)
}

// Runs a submission, and makes what it changes: whether it printed this.
fn prints(machine: &mut SiteMachine, file: &[u8], printout: &[u8]) -> bool {
    match machine.run(file) {
        Ok(outcome) => outcome.printout.as_slice() == printout
            && machine.apply(&outcome.change).is_ok(),
        Err(_) => false,
    }
}

fn lives(alloc: Global) -> bool {
    let Some(mut machine) = founded(alloc) else {
        return false;
    };
    let submissions = [
        (
            b"ANN\n$CREATE ANN PAY\n".as_slice(),
            b"CREATE ANN PAY\nDONE\n".as_slice(),
        ),
        (
            b"ANN\n$JOB ANN\n$UNIT 1 PAY\n OUTPUT(.X,1,\"(80A1)\")\n X = \"ONE\"\nEND\n$EOJ\n".as_slice(),
            b"JOB 1 ANN\nEND NORMAL AFTER 2\n".as_slice(),
        ),
        (
            b"ANN\n$LIST ANN PAY\n$LIST ANN NONE\n".as_slice(),
            b"LIST ANN PAY\n ONE\nRECORDS 1\nLIST ANN NONE\nDENIED NO DATA SET\n".as_slice(),
        ),
        (
            b"BOB\n$JOB BOB\n OUTPUT = \"TWO\"\nEND\n$EOJ\n$LIST BOB PAY\n".as_slice(),
            b"LIST BOB PAY\nDENIED BY group::\nJOB 2 BOB\n TWO\nEND NORMAL AFTER 1\n".as_slice(),
        ),
    ];
    for (file, printout) in submissions {
        if !prints(&mut machine, file, printout) {
            return false;
        }
    }
    true
}

// Whether it answers an error to this.
fn refuses(alloc: Global, file: &[u8]) -> bool {
    match founded(alloc) {
        Some(mut machine) => machine.run(file).is_err(),
        None => false,
    }
}

#[test]
fn each_submission_prints_its_part(rt: HostRuntime) {
    assert!(rt; lives(rt.alloc()));
}

#[test]
fn anothers_cards_are_refused(rt: HostRuntime) {
    assert!(rt; refuses(rt.alloc(), b"ANN\n$LIST BOB PAY\n"));
    assert!(rt; refuses(rt.alloc(), b""));
}
