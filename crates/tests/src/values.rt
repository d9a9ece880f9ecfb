//! A text that is longer than a job may have: no clause can say that memory is there for it.
use sno_text::Text;
use sno_value::{Outcome, Value, concat};
use std::alloc::Global;

/// The most characters that a string of a job has.
const MOST: u64 = 100_000;

fn is_joined(alloc: Global) -> bool {
    let Ok(long) = Text::repeated(alloc, b"A".as_slice(), 100_000) else {
        return false;
    };
    match concat(alloc, Value::Text(long), Value::Integer(1), MOST + 1) {
        Ok(Outcome::Gives(Value::Text(text))) => text.len() == 100_001,
        _ => false,
    }
}

#[test]
fn longer_texts_are_joined(rt: HostRuntime) {
    assert!(rt; is_joined(rt.alloc()));
}
