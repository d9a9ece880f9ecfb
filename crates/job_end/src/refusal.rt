//! What is printed of a job that is not loaded.
ghost use Rattle.std.specs.Prelude.{◌≡◌, ◌++◌, length, take, OnOk, OnErr};
ghost use Rattle.mon_device.specs.Putting.{Puts};
ghost use Rattle.job_end.specs.Printouts.{unit_refusal, syntax_words, refusal_words, refusal_text};

use crate::printout::print_job_line;
use deck_lines::UnitError;
use load_refusal::LoadError;
use mon_device::{Sink, TextSink, print_number};
use mon_text::Name;
use sno_syntax::SyntaxError;
use std::alloc::AllocError;

/// Puts what a job that is not loaded prints: its own line, and why. A job for which there was no slot prints nothing.
pub fn print_refusal<S: Sink>(number: u64, account: &Name, error: LoadError, sink: &mut S)
    ensures { Puts (S.standing sink.old) (S.standing sink.new) (refusal_text number account.now error) }
{
    if let LoadError::NoSlot = error {
        return;
    }
    print_job_line(number, account, sink);
    sink.put(b"REFUSED ");
    print_refusal_words(&error, sink);
    sink.put(b"\n");
}

/// Appends what a job that is not loaded prints.
///
/// # Errors
///
/// Where a growth was refused; nothing was appended then.
pub fn put_refusal(
    number: u64,
    account: &Name,
    error: LoadError,
    out: &mut Vec<u8>,
) -> Result<(), AllocError>
    ensures printed { OnOk result (out.new.items ≡ out.old.items ++ refusal_text number account.now error) }
    ensures unchanged { OnErr result (out.new.items ≡ out.old.items) }
{
    let before = out.len();
    match put_text(number, account, error, out) {
        Ok(()) => Ok(()),
        Err(error) => {
            out.truncate(before);
            Err(error)
        }
    }
}

fn put_text(
    number: u64,
    account: &Name,
    error: LoadError,
    out: &mut Vec<u8>,
) -> Result<(), AllocError>
    ensures printed { OnOk result (out.new.items ≡ out.old.items ++ refusal_text number account.now error) }
    ensures begun { take (length out.old.items) out.new.items ≡ out.old.items }
{
    let mut sink = TextSink::new(out);
    print_refusal(number, account, error, &mut sink);
    sink.settle()
}

// Puts why a job is not loaded.
pub(crate) fn print_refusal_words<S: Sink>(refusal: &LoadError, sink: &mut S)
    ensures { Puts (S.standing sink.old) (S.standing sink.new) (refusal_words refusal.now) }
{
    match refusal {
        LoadError::NoSlot => sink.put(b"NO SLOT"),
        LoadError::NoAccount => sink.put(b"M2 NO ACCOUNT"),
        LoadError::Cards(error) => print_unit_words(*error, sink),
        LoadError::Syntax(error) => print_syntax_words(*error, sink),
    }
}

fn print_unit_words<S: Sink>(error: UnitError, sink: &mut S)
    ensures { Puts (S.standing sink.old) (S.standing sink.new) (unit_refusal error) }
{
    match error {
        UnitError::UnitRange(unit) => {
            sink.put(b"U2 UNIT");
            print_number(unit, sink);
        }
        UnitError::UnitTwice(unit) => {
            sink.put(b"U1 UNIT");
            print_number(unit, sink);
        }
    }
}

fn print_syntax_words<S: Sink>(error: SyntaxError, sink: &mut S)
    ensures { Puts (S.standing sink.old) (S.standing sink.new) (syntax_words error) }
{
    sink.put(error.code.symbol().as_bytes());
    sink.put(b" CARD");
    print_number(error.place.card, sink);
    sink.put(b" COLUMN");
    print_number(error.place.column, sink);
}
