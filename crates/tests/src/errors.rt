//! What each error says of itself: the words of its code in docs/reference/errors.md, without what a printout adds to them. `K2` and
//! the fault of a device stand there in no table, since no deck brings them about. And the line that a run's fault has.
use deck_run::{DeckError, Holder, RunError, Shortage, exit_status, put_fault, put_shortage};
use mon_access::AccountError;
use mon_acl::{AclError, Tag};
use mon_catalogue::{CatalogueError, CreateError, NoSet, SetFull};
use mon_device::Failed;
use mon_text::{BadName, BadNumber, LineError, read_name};
use mon_unit::UnitError;
use std::alloc::Global;
use std::fmt::Display;

fn says<E: Display>(alloc: Global, error: &E, text: &str) -> bool {
    match format!(in alloc; "{error}") {
        Ok(said) => said.as_str() == text,
        Err(_) => false,
    }
}

fn texts_say(alloc: Global) -> bool {
    says(alloc, &BadName, "T1 BAD NAME")
        && says(alloc, &BadNumber, "T2 BAD NUMBER")
        && says(alloc, &LineError::BadCharacter, "T3 BAD CHARACTER")
        && says(alloc, &LineError::LineTooLong, "T4 LINE TOO LONG")
        && says(alloc, &AclError::BadTag(1), "A1 BAD TAG")
        && says(alloc, &AclError::BadQualifier(2), "A2 BAD QUALIFIER")
        && says(alloc, &AclError::BadPerms(3), "A3 BAD PERMS")
        && says(alloc, &AclError::Missing(Tag::Other), "A4 MISSING")
        && says(alloc, &AclError::Twice(4), "A5 TWICE")
        && says(alloc, &AclError::NoMask, "A6 NO MASK")
        && says(alloc, &AclError::TooMany(101), "A7 TOO MANY")
}

fn sets_say(alloc: Global) -> bool {
    says(alloc, &CreateError::NameTaken, "K1 NAME TAKEN")
        && says(alloc, &CreateError::CatalogueFull, "K4 CATALOGUE FULL")
        && says(alloc, &NoSet, "K2 NO SET")
        && says(alloc, &SetFull, "K3 SET FULL")
        && says(alloc, &CatalogueError::NameTaken(1), "K1 NAME TAKEN")
        && says(alloc, &CatalogueError::SetFull(2), "K3 SET FULL")
        && says(
            alloc,
            &CatalogueError::CatalogueFull(3),
            "K4 CATALOGUE FULL",
        )
        && says(alloc, &CatalogueError::BadText(4), "K5 BAD TEXT")
}

fn decks_say(alloc: Global) -> bool {
    says(alloc, &AccountError::AccountTwice, "C1 ACCOUNT TWICE")
        && says(alloc, &AccountError::TooManyGroups, "C2 TOO MANY GROUPS")
        && says(alloc, &UnitError::UnitTwice(7), "U1 UNIT 7")
        && says(alloc, &UnitError::UnitRange(100), "U2 UNIT 100")
        && says(alloc, &DeckError::Truncated, "E4 TRUNCATED")
        && says(alloc, &Failed, "the device failed")
}

#[test]
fn errors_say_their_words(rt: HostRuntime) {
    assert!(rt; texts_say(rt.alloc()));
    assert!(rt; sets_say(rt.alloc()));
    assert!(rt; decks_say(rt.alloc()));
}

fn faults_say(alloc: Global, fault: RunError, line: &[u8], status: u8) -> bool {
    let mut out = Vec::new(alloc);
    put_fault(&fault, &mut out).is_ok()
        && out.as_slice() == line
        && exit_status(&Err(fault)) == status
}

#[test]
fn faults_have_a_line_and_a_status(rt: HostRuntime) {
    let faults: [(RunError, &[u8], u8); 5] = [
        (
            RunError::DeckRefused(14, DeckError::Truncated),
            b"snomon: line 14: E4 TRUNCATED\n",
            1,
        ),
        (RunError::ReadFault, b"snomon: read fault\n", 3),
        (RunError::WriteFault, b"snomon: write fault\n", 3),
        (RunError::AuditFault, b"snomon: audit fault\n", 3),
        (RunError::Memory, b"snomon: out of memory\n", 3),
    ];
    for (fault, line, status) in faults {
        assert!(rt; faults_say(rt.alloc(), fault, line, status));
    }
}

// Whether it is told how far a run had come, and which job holds most.
fn tells_how_far(alloc: Global) -> bool {
    let Ok(account) = read_name(b"lisa") else {
        return false;
    };
    let mut shortage = Shortage::new();
    shortage.line = 1_234;
    shortage.job = Some(Holder {
        number: 3,
        account,
        bytes: 52_428_800,
    });
    let mut out = Vec::new(alloc);
    let told = b"snomon: at line 1234; job 3 of lisa holds most: 52428800 bytes of printout\n";
    put_shortage(&shortage, &mut out).is_ok() && out.as_slice() == told.as_slice()
}

#[test]
fn a_lack_of_memory_has_a_line_and_a_job(rt: HostRuntime) {
    assert!(rt; tells_how_far(rt.alloc()));
}
