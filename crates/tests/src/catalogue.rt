//! Catalogue texts of both versions that are read at once. Line by line it is read by the decks of the program `rows`.
use mon_catalogue::{Catalogue, Version, read_text};
use mon_device::TextSink;
use mon_text::{Line, read_line};
use std::alloc::Global;

/// The words of modes, of the first two data sets and of the others.
type Modes = (&'static str, &'static str);

// A text of lists long and short, records full and empty, and sets enough that the catalogue grows more than once.
fn text_of(alloc: Global, (first, others): Modes) -> Option<String> {
    format!(in alloc;
        "$SET A anna admin{first} 6
user::rwx,user:hugo:r--,user:lisa:rw-,group::r--,group:ops:r-x,group:staff:-w-,mask::rw-,other::--x
one

a record that is longer than those before it, and than those behind it
$SET
x
y
$SET B lisa staff{first} 0
user::rw-,group::---,other::---
$SET C lisa staff{others} 1
user::rw-,group::---,other::---
z
$SET D hugo ops{others} 0
user::rw-,group::---,other::---
$SET E hugo ops{others} 0
user::rw-,user:lisa:r--,group::---,mask::r--,other::---
"
    )
    .ok()
}

pub(crate) fn lines_of(alloc: Global, text: &str) -> Option<Vec<Line>> {
    let mut lines = Vec::new(alloc);
    for line in text.lines() {
        let line = read_line(alloc, line.as_bytes(), 200).ok()?;
        lines.push(line).ok()?;
    }
    Some(lines)
}

pub(crate) fn read(alloc: Global, version: Version, text: &str) -> Option<Catalogue> {
    let lines = lines_of(alloc, text)?;
    if lines.len() < 100 {
        read_text(alloc, version, &lines).ok()
    } else {
        None
    }
}

// Appends a catalogue's text, and tells whether all of it was.
pub(crate) fn put_text(catalogue: &Catalogue, out: &mut Vec<u8>) -> bool {
    let mut sink = TextSink::new(out);
    catalogue.print(&mut sink);
    sink.settle().is_ok()
}

// Whether a text with these modes is read, and then written with those.
fn is_rewritten(alloc: Global, version: Version, modes: Modes, written: Modes) -> bool {
    let mut out = Vec::new(alloc);
    let (Some(text), Some(written)) = (text_of(alloc, modes), text_of(alloc, written)) else {
        return false;
    };
    match read(alloc, version, text.as_str()) {
        Some(catalogue) => {
            put_text(&catalogue, &mut out) && out.as_slice() == written.as_bytes()
        }
        None => false,
    }
}

#[test]
fn a_text_is_read_and_written(rt: HostRuntime) {
    let texts = [
        (Version::One, ("", ""), (" SEQ", " SEQ")),
        (Version::Two, (" SEQ", " SEQ"), (" SEQ", " SEQ")),
        (Version::Two, (" SEQ", " APPEND"), (" SEQ", " APPEND")),
    ];
    for (version, modes, written) in texts {
        assert!(rt; is_rewritten(rt.alloc(), version, modes, written));
    }
}
