//! The tokens of a long statement, which no program asks for by themselves: no clause can say that memory is there. And what a
//! refusal says of itself.
use mon_text::read_line;
use sno_syntax::{Place, ProgramCards, SyntaxCode, SyntaxError, lex, statements};
use std::alloc::Global;

// What is read of a card and an END line.
fn cards_of(alloc: Global, card: &[u8]) -> Option<ProgramCards> {
    let end = read_line(alloc, b"END", 3).ok()?;
    let line = read_line(alloc, card, 5_000).ok()?;
    let lines = Vec::from_array(alloc, [line, end]).ok()?;
    statements(alloc, &lines).ok()
}

// A label of 190 characters, and 1,000 operators behind it.
fn reads_a_long_statement(alloc: Global) -> bool {
    let mut card = [b'+'; 1_191];
    card[..190].fill(b'L');
    card[190] = b' ';
    let Some(cards) = cards_of(alloc, &card) else {
        return false;
    };
    match cards.statements() {
        [first, ..] => matches!(lex(alloc, first), Ok(tokens) if tokens.tokens().len() == 1_000),
        _ => false,
    }
}

#[test]
fn long_statements_have_their_tokens(rt: HostRuntime) {
    assert!(rt; reads_a_long_statement(rt.alloc()));
}

// A refusal tells its code and its place.
fn tells_where(alloc: Global) -> bool {
    let refusal = SyntaxError {
        code: SyntaxCode::BadEnd,
        place: Place {
            card: 12,
            column: 70,
        },
    };
    match format!(in alloc; "{refusal}") {
        Ok(told) => told.as_str() == "P7 BAD END CARD 12 COLUMN 70",
        Err(_) => false,
    }
}

#[test]
fn refusals_tell_where(rt: HostRuntime) {
    assert!(rt; tells_where(rt.alloc()));
}
