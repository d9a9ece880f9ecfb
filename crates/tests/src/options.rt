//! What `read_options` makes of the words of a command line. How many slots they give shows in which of the jobs of a deck ends first.
use snomon_library::{
    Devices, MemReader, MemWriter, NoAudit, Options, Seed, Shortage, read_options, run_deck,
};
use std::alloc::Global;

/// Room for the output of each deck.
const ROOM: usize = 4_096;

const BEGINNING: &[u8] = b"$ACCOUNTS\nanna admin\n$CATALOGUE\n$STREAM\n";

const JOB: &[u8] = b"$JOB anna\nEND\n$EOJ\n";

// A number of one digit, as it is written.
fn digit(number: u8) -> u8 {
    b'0' | number
}

// A deck of so many jobs, which gives turns to the slot of that number.
fn put_deck(jobs: u8, deck: &mut Vec<u8>) -> bool {
    let mut is_put = deck.extend_from_slice(BEGINNING).is_ok();
    for _ in 0..jobs {
        is_put = is_put && deck.extend_from_slice(JOB).is_ok();
    }
    is_put
        && deck.extend_from_slice(b"$TURN ").is_ok()
        && deck.push(digit(jobs)).is_ok()
        && deck.extend_from_slice(b" 9\n$STOP\n").is_ok()
}

// Whether the last of so many jobs ends first: each then has a slot of its own.
fn has_slot_for(alloc: Global, options: Options, jobs: u8) -> bool {
    let mut deck = Vec::new(alloc);
    let is_put = put_deck(jobs, &mut deck);
    let Ok(writer) = MemWriter::new(alloc, ROOM) else {
        return false;
    };
    let mut devices = Devices::new(MemReader::new(deck.as_slice()), writer);
    let counts = run_deck(
        alloc,
        &mut devices,
        options,
        &mut Shortage::new(),
        &mut NoAudit,
    );
    let first = devices.writer.as_bytes().get(b"JOB ".len());
    is_put && counts.is_ok() && first.is_some_and(|byte| *byte == digit(jobs))
}

// Whether words give so many slots and no more, and a run.
fn give_slots(alloc: Global, words: &[&str], slots: u8, more: u8) -> bool {
    let Ok(options) = read_options(alloc, Seed::fixed(), words) else {
        return false;
    };
    !options.check && has_slot_for(alloc, options, slots) && !has_slot_for(alloc, options, more)
}

fn give_a_check(alloc: Global, words: &[&str]) -> bool {
    matches!(read_options(alloc, Seed::fixed(), words), Ok(options) if options.check)
}

fn are_refused(alloc: Global, words: &[&str]) -> bool {
    read_options(alloc, Seed::fixed(), words).is_err()
}

fn good_words_are_read(alloc: Global) -> bool {
    give_slots(alloc, &["snomon"], 4, 5)
        && give_slots(alloc, &["snomon", "--slots", "8"], 8, 9)
        && give_slots(alloc, &["snomon", "--slots=1"], 1, 2)
        && give_a_check(alloc, &["snomon", "--check"])
        && give_a_check(alloc, &["snomon", "--slots", "2", "--check"])
}

fn other_words_are_refused(alloc: Global) -> bool {
    are_refused(alloc, &["snomon", "--slots", "9"])
        && are_refused(alloc, &["snomon", "--slots", "0"])
        && are_refused(alloc, &["snomon", "--slots"])
        && are_refused(alloc, &["snomon", "--check", "--check"])
        && are_refused(alloc, &["snomon", "--trace"])
        && are_refused(alloc, &["snomon", "deck"])
        && are_refused(alloc, &["snomon", "--help"])
}

#[test]
fn words_give_options(rt: HostRuntime) {
    let alloc = rt.alloc();
    assert!(rt; good_words_are_read(alloc) && other_words_are_refused(alloc));
}
