//! Assignments that are faults within a match, which no program brings about.
use mon_text::read_line;
use sno_pattern::{Looked, MatchEnd, MatchHost, Pat, Stop, Taken, matches};
use sno_text::{Fault, Named, Text};
use std::alloc::Global;

/// A host to which everything is a fault.
#[derive(Drop)]
struct Faulty;

impl MatchHost for Faulty {
    ghost ready = { λ s. Unit {0} };

    ghost tells = { λ s q r t. Unit {0} };

    ghost broken = { λ s q t. Unit {0} };

    fn look_up(&mut self, _variable: &Named) -> Result<Looked, Stop> {
        Err(Stop::Fault(Fault::WrongType))
    }

    fn assign(&mut self, _variable: &Text, _taken: Taken) -> Result<(), Stop> {
        Err(Stop::Fault(Fault::WrongType))
    }
}

fn text_of(alloc: Global, text: &[u8]) -> Option<Text> {
    let line = read_line(alloc, text, 10).ok()?;
    Text::of_line(alloc, &line).ok()
}

// `LEN(1) $ X`
fn immediate(alloc: Global) -> Option<Pat> {
    let variable = text_of(alloc, b"X")?;
    let one = Pat::len(alloc, 1).ok()?;
    Pat::immediate(alloc, &one, variable).ok()
}

// `LEN(1) @X`
fn length_and_cursor(alloc: Global) -> Option<Pat> {
    let variable = text_of(alloc, b"X")?;
    let cursor = Pat::cursor(alloc, variable).ok()?;
    let one = Pat::len(alloc, 1).ok()?;
    Pat::cat(alloc, &one, &cursor).ok()
}

// Whether the third step is a fault, and comes within that many steps alone.
fn is_fault(alloc: Global, pattern: Option<Pat>) -> bool {
    let (Some(pattern), Some(text)) = (pattern, text_of(alloc, b"AB")) else {
        return false;
    };
    matches!(
        matches(alloc, &pattern, &text, true, 3, &mut Faulty),
        Ok(MatchEnd::Fault(_))
    ) && matches!(
        matches(alloc, &pattern, &text, true, 2, &mut Faulty),
        Ok(MatchEnd::Limit)
    )
}

#[test]
fn assignments_can_be_faults(rt: HostRuntime) {
    assert!(rt; is_fault(rt.alloc(), immediate(rt.alloc())));
    assert!(rt; is_fault(rt.alloc(), length_and_cursor(rt.alloc())));
}
