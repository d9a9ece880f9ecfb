//! `snomon-parts split`.
use crate::cutting::{Cut, cut_deck};
use crate::fault::{Fault, One};
use crate::folder::{RECORD, joined, make_folder, part_path, put_file, read_file};
use crate::options::Splitting;
use deck_parts::{Record, Tie, Uncut, Whole, part_deck, put_record, record_of, ties_of};
use mon_text::Stop;
use parts::Split;
use std::str;

/// Cuts a deck into parts, whose decks it puts into a folder.
pub fn split(rt: &HostRuntime, asked: &Splitting) -> Result<(), Fault> {
    let deck = read_file(rt, asked.deck.as_str())?;
    match cut_deck(rt.alloc(), &deck, asked.most) {
        Ok(cut) => put_cut(rt, asked, &deck, &cut),
        Err(Stop::Refused(Uncut::Refused(line, code))) => {
            Err(Fault::Refused(asked.deck.clone()?, line, code))
        }
        Err(Stop::Refused(uncut)) => put_one(rt, asked, &deck, One::Uncut(uncut)),
        Err(Stop::Memory) => Err(Fault::Memory),
    }
}

fn put_cut(rt: &HostRuntime, asked: &Splitting, deck: &[u8], cut: &Cut) -> Result<(), Fault> {
    if asked.ties {
        tell_ties(rt, asked, &cut.whole)?;
    }
    let Some(split) = &cut.split else {
        return put_one(rt, asked, deck, One::Full);
    };
    let record = record_of(rt.alloc(), &cut.front, &cut.whole, split)?;
    if record.parts == 1 {
        return put_one(rt, asked, deck, One::Tied);
    }
    make_folder(rt, asked.folder.as_str())?;
    for part in 0..record.parts {
        put_part(rt, asked, &cut.whole, split, part)?;
    }
    keep(rt, asked, &record)
}

fn put_part(
    rt: &HostRuntime,
    asked: &Splitting,
    whole: &Whole,
    split: &Split,
    part: u64,
) -> Result<(), Fault> {
    let deck = part_deck(rt.alloc(), whole, split, part)?;
    put_deck(rt, asked, part, &deck)
}

// A deck that is one part, as it is.
fn put_one(rt: &HostRuntime, asked: &Splitting, deck: &[u8], one: One) -> Result<(), Fault> {
    let told = Fault::One(asked.deck.clone()?, one);
    if asked.several {
        return Err(told);
    }
    let _told = eprintln!(rt; "snomon-parts: {told}");
    make_folder(rt, asked.folder.as_str())?;
    put_deck(rt, asked, 0, deck)?;
    keep(rt, asked, &Record::of_one(rt.alloc()))
}

// Puts a part's deck, and tells its path.
fn put_deck(rt: &HostRuntime, asked: &Splitting, part: u64, deck: &[u8]) -> Result<(), Fault> {
    let path = part_path(rt.alloc(), asked.folder.as_str(), part, "deck")?;
    put_file(rt, path.as_str(), deck)?;
    match println!(rt; "{path}") {
        Ok(()) => Ok(()),
        Err(_) => Err(Fault::Output),
    }
}

// The record is put last: where it stands, all parts do.
fn keep(rt: &HostRuntime, asked: &Splitting, record: &Record) -> Result<(), Fault> {
    let text = put_record(rt.alloc(), record)?;
    let path = joined(rt.alloc(), asked.folder.as_str(), RECORD)?;
    put_file(rt, path.as_str(), &text)
}

fn tell_ties(rt: &HostRuntime, asked: &Splitting, whole: &Whole) -> Result<(), Fault> {
    let all = whole.texts.len() as u64;
    let found = ties_of(rt.alloc(), &whole.texts)?;
    for tie in &found {
        tell_tie(rt, asked.deck.as_str(), tie, all);
    }
    Ok(())
}

fn tell_tie(rt: &HostRuntime, deck: &str, tie: &Tie, all: u64) {
    let name = str::from_utf8(tie.name.as_bytes()).unwrap_or("");
    let own = tie.texts;
    let _told = eprintln!(rt;
        "snomon-parts: {deck}: {name} keeps {own} of {all} submissions in one part"
    );
}
