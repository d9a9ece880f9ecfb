//! A deck up to its stream: its account table and its catalogue, read line by line.
ghost use Rattle.std.specs.Prelude.{◌≡◌, ℕ, ◌<◌, ◌^◌, length, IfOk, Err};
ghost use Rattle.std.specs.Str.Lines.{lines};
ghost use Rattle.access_report.specs.Fronts.{refusal_at, ReachesStream, IsRefusedEarly};
ghost use Rattle.deck_lines.specs.declared.deck_error.DeckError.{DeckError as AnyCode};

use deck_syntax::{DeckError, Front, FrontReader, first_line};
use mon_text::Stop;
use std::alloc::Global;

/// A deck is refused before its stream: at this line, counted from 1.
#[derive(Clone, Copy)]
pub struct Refusal {
    pub line: u64,
    pub code: DeckError,
}

/// Reads a deck up to its stream. Lines behind `$STREAM` are not looked at.
///
/// # Errors
///
/// The deck's refusal, where it is refused before its stream; `Memory` where a growth was refused.
pub fn read_front(alloc: Global, bytes: &[u8]) -> Result<Front, Stop<Refusal>>
    requires { length bytes.now < 2 ^ 63 }
    ensures read { IfOk result (λ front. ReachesStream (lines bytes.now) front.accounts front.catalogue) }
    ensures refused { (n : ℕ) (code : AnyCode) → result ≡ Err (Stop.Refused (record { line = n; code = code })) → IsRefusedEarly (lines bytes.now) n code }
{
    let mut reader = FrontReader::Opening;
    let mut number = 0;
    let mut rest = bytes;
    'lines: while !rest.is_empty() {
        let (line, behind) = first_line(rest);
        number += 1;
        match reader.line(alloc, line) {
            Ok(Some(front)) => return Ok(front),
            Ok(None) => {}
            Err(stop) => return Err(refusal_at(number, stop)),
        }
        rest = behind;
    }
    Err(Stop::Refused(Refusal {
        line: number + 1,
        code: DeckError::Truncated,
    }))
}

// A refusal of line n, or want of memory.
fn refusal_at(line: u64, stop: Stop<DeckError>) -> Stop<Refusal>
    ensures { result ≡ refusal_at line stop }
{
    match stop {
        Stop::Refused(code) => Stop::Refused(Refusal { line, code }),
        Stop::Memory => Stop::Memory,
    }
}
