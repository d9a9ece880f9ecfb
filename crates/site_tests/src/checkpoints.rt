//! A state of three data sets: its checkpoint is read whole and in parts, and refused where it was changed; a data set is brought back.
use ledger_checkpoint::{
    Behind, MemoryPieces, MemorySource, pick_entries, take_rest, take_sets, write_checkpoint,
};
use ledger_index::{CheckpointFault, Course, Kept, Sealed, course_text, read_course, read_index};
use ledger_machine::SiteMachine;
use ledger_pruning::{first_kept, first_since, removable, start_for};
use ledger_restoring::restore_change;
use ledger_sets::{State, apply_change, sets_change, tables_change};
use ledger_text::{Claimed, Record, commit_text, digest, record_text};
use mon_catalogue::Catalogue;
use mon_text::{Stop, read_name};
use sno_text::Seed;
use std::alloc::Global;

// A checkpoint as two texts.
#[derive(Drop)]
struct Checkpoint {
    index: Vec<u8>,
    pieces: Vec<u8>,
}

// A data set by its name, the head of its text, and its records.
type Spelled<'a> = (&'a [u8], &'a [u8], &'a [u8]);

const LONG: &[u8] = b"$SET LONG ANN DESK SEQ 3\nuser::rwx,group::r--,other::---\n";

const SHORT: &[u8] = b"$SET SHORT BOB DESK APPEND 1\nuser::rw-,group::---,other::---\n";

const NONE: &[u8] =
    b"$SET NONE ANN DESK SEQ 0\nuser::rw-,user:BOB:r--,group::---,mask::r--,other::---\n";

const OTHER: &[u8] = b"$SET SHORT ANN DESK SEQ 2\nuser::rw-,group::---,other::---\n";

fn put(alloc: Global, set: Spelled<'_>, state: &mut State) -> bool {
    let Ok(said) = record_text(alloc, 0, Record::Set(0, set.0, set.1, set.2)) else {
        return false;
    };
    let Ok(change) = commit_text(alloc, &[said.as_slice()]) else {
        return false;
    };
    apply_change(alloc, &change, state).is_ok()
}

fn founded(alloc: Global) -> Option<State> {
    let mut state = State::new(alloc);
    let tables = tables_change(alloc, b"ANN DESK\nBOB DESK\n", b"1000 ANN\n", b"texts 5\n").ok()?;
    apply_change(alloc, &tables, &mut state).ok()?;
    let is_put = put(alloc, (b"LONG", LONG, b"one\n\nthree\n"), &mut state)
        && put(alloc, (b"SHORT", SHORT, b"alone\n"), &mut state)
        && put(alloc, (b"NONE", NONE, b""), &mut state);
    if is_put { Some(state) } else { None }
}

fn checkpoint_of(alloc: Global, state: &State) -> Option<Checkpoint> {
    let behind = Behind {
        count: 7,
        last: b"0123",
        course: b"",
    };
    let mut pieces = MemoryPieces::new(alloc);
    let index = write_checkpoint(alloc, behind, state, &mut pieces).ok()?;
    let pieces = pieces.text().ok()?;
    Some(Checkpoint { index, pieces })
}

// Whether nothing leads from the one to the other.
fn are_same(alloc: Global, one: &Catalogue, other: &Catalogue) -> bool {
    match sets_change(alloc, one, other) {
        Ok(change) => change.as_slice() == b"0\n".as_slice(),
        Err(_) => false,
    }
}

// Whether a checkpoint is read as this state.
fn is_read(alloc: Global, made: &Checkpoint, state: &State) -> bool {
    let Ok(sum) = digest(alloc, &made.index) else {
        return false;
    };
    let sealed = Sealed {
        count: 7,
        last: b"0123",
        digest: sum.as_slice(),
    };
    let Ok(index) = read_index(alloc, sealed, &made.index) else {
        return false;
    };
    let mut source = MemorySource {
        pieces: made.pieces.as_slice(),
    };
    let mut machine = SiteMachine::new(alloc, Seed::fixed());
    if take_sets(alloc, &mut source, &index.entries, &mut machine).is_err()
        || take_rest(alloc, index.head, &mut machine).is_err()
    {
        return false;
    }
    match machine.state() {
        Some(read) => are_same(alloc, &state.catalogue, &read.catalogue)
            && read.jobs == state.jobs
            && read.tables.accounts.as_slice() == state.tables.accounts.as_slice()
            && read.tables.limits.as_slice() == state.tables.limits.as_slice(),
        None => false,
    }
}

fn is_back(alloc: Global) -> bool {
    let Some(state) = founded(alloc) else {
        return false;
    };
    match checkpoint_of(alloc, &state) {
        Some(made) => is_read(alloc, &made, &state),
        None => false,
    }
}

// How many data sets are taken of those names; 9 where a piece is refused as changed, and 10 where anything else fails.
fn read_of(alloc: Global, made: &Checkpoint, names: &[&[u8]]) -> usize {
    let Ok(sum) = digest(alloc, &made.index) else {
        return 10;
    };
    let sealed = Sealed {
        count: 7,
        last: b"0123",
        digest: sum.as_slice(),
    };
    let Ok(index) = read_index(alloc, sealed, &made.index) else {
        return 10;
    };
    let Ok(picked) = pick_entries(alloc, &index.entries, names) else {
        return 10;
    };
    let mut source = MemorySource {
        pieces: made.pieces.as_slice(),
    };
    let mut machine = SiteMachine::new(alloc, Seed::fixed());
    match take_sets(alloc, &mut source, &picked, &mut machine) {
        Ok(()) => sets_in(&machine),
        Err(Stop::Refused(CheckpointFault::Changed)) => 9,
        Err(_) => 10,
    }
}

fn sets_in(machine: &SiteMachine) -> usize {
    match machine.state() {
        Some(state) => state.catalogue.len(),
        None => 10,
    }
}

// A changed piece is met by whoever takes it, and by no other.
fn parts(alloc: Global) -> bool {
    let Some(state) = founded(alloc) else {
        return false;
    };
    let Some(mut made) = checkpoint_of(alloc, &state) else {
        return false;
    };
    let is_whole = read_of(alloc, &made, &[b"SHORT".as_slice(), b"NONE".as_slice()]) == 2;
    match made.pieces.get_mut(0) {
        Some(byte) => *byte = b'O',
        None => return false,
    }
    is_whole
        && read_of(alloc, &made, &[b"SHORT".as_slice()]) == 1
        && read_of(alloc, &made, &[b"LONG".as_slice()]) == 9
}

// Whether the index is refused as one of another chain where the ledger has so many commits, the last of this digest.
fn is_others(alloc: Global, count: u64, last: &[u8]) -> bool {
    let Some(state) = founded(alloc) else {
        return false;
    };
    let Some(made) = checkpoint_of(alloc, &state) else {
        return false;
    };
    let Ok(sum) = digest(alloc, &made.index) else {
        return false;
    };
    let sealed = Sealed {
        count,
        last,
        digest: sum.as_slice(),
    };
    matches!(
        read_index(alloc, sealed, &made.index),
        Err(Stop::Refused(CheckpointFault::OtherChain))
    )
}

// Whether a text is refused as changed where the ledger has this digest.
fn is_changed(alloc: Global, text: &[u8], sum: &[u8]) -> bool {
    let sealed = Sealed {
        count: 7,
        last: b"0123",
        digest: sum,
    };
    matches!(
        read_index(alloc, sealed, text),
        Err(Stop::Refused(CheckpointFault::Changed))
    )
}

// A data set that was changed since is brought back; one that is new since is taken out; and of one that never was there is none.
fn restores(alloc: Global) -> bool {
    let Some(past) = founded(alloc) else {
        return false;
    };
    let Some(mut present) = founded(alloc) else {
        return false;
    };
    put(alloc, (b"SHORT", OTHER, b"x\ny\n"), &mut present)
        && !are_same(alloc, &past.catalogue, &present.catalogue)
        && !brings_back(alloc, b"NEVER", &mut present)
        && brings_back(alloc, b"SHORT", &mut present)
        && are_same(alloc, &past.catalogue, &present.catalogue)
}

fn brings_back(alloc: Global, name: &[u8], present: &mut State) -> bool {
    let Some(past) = founded(alloc) else {
        return false;
    };
    let Ok(name) = read_name(name) else {
        return false;
    };
    match restore_change(alloc, &name, past.catalogue, &present.catalogue) {
        Ok(change) => apply_change(alloc, &change, present).is_ok(),
        Err(_) => false,
    }
}

fn courses(alloc: Global) -> bool {
    let Ok(mut waiting) = Vec::with_capacity(alloc, 1) else {
        return false;
    };
    let file = Claimed {
        number: 17,
        account: b"ANN",
        uid: 1000,
        name: b"it",
    };
    let one = Kept {
        file,
        text: b"ANN\n",
    };
    if waiting.push(one).is_err() {
        return false;
    }
    let course = Course {
        next: 18,
        waiting,
        owed: Vec::new(alloc),
    };
    let Ok(text) = course_text(alloc, &course) else {
        return false;
    };
    match read_course(alloc, &text) {
        Ok(Some(read)) => read.next == 18 && read.waiting.len() == 1 && read.owed.is_empty(),
        _ => false,
    }
}

fn goes(alloc: Global) -> bool {
    let first = first_kept(10, 6, 2);
    match removable(alloc, &[3, 5, 6, 9], first) {
        Ok(old) => first == 6
            && old.len() == 2
            && first_since(&[10, 20, 20, 30], 20) == 1
            && matches!(start_for(&[0, 4, 8], 3, 9), Some(8))
            && start_for(&[0, 4, 8], 5, 7).is_none(),
        Err(_) => false,
    }
}

#[test]
fn checkpoints_are_read(rt: HostRuntime) {
    assert!(rt; is_back(rt.alloc()));
    assert!(rt; parts(rt.alloc()));
    assert!(rt; courses(rt.alloc()));
}

#[test]
fn others_are_refused(rt: HostRuntime) {
    assert!(rt; is_others(rt.alloc(), 6, b"0123"));
    assert!(rt; is_others(rt.alloc(), 7, b"0124"));
    assert!(rt; is_changed(rt.alloc(), b"1\n", b"0123"));
}

#[test]
fn sets_are_brought_back(rt: HostRuntime) {
    assert!(rt; restores(rt.alloc()));
}

#[test]
fn commits_may_go(rt: HostRuntime) {
    assert!(rt; goes(rt.alloc()));
}
