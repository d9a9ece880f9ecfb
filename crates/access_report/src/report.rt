//! The report of who may do what, from a deck's bytes, and from one stream to another.
ghost use Rattle.std.specs.Prelude.{◌≡◌, ℕ, ◌<◌, ◌^◌, ◌++◌, length, None, Some, OnOk, IfOk, IfSome};
ghost use Rattle.std.specs.Str.Lines.{lines};
ghost use Rattle.std.specs.Io.KnownBytes.{Appends};
ghost use Rattle.access_report.specs.Fronts.{IsRefusedEarly};
ghost use Rattle.access_report.specs.Access.{access_text};
ghost use Rattle.access_report.specs.Reports.{missing, IsMissing, Reported, ReportedTo};
ghost use Rattle.deck_lines.specs.declared.deck_error.DeckError.{DeckError as AnyCode};

use crate::access::put_access;
use crate::fault::Fault;
use crate::front::read_front;
use crate::question::Question;
use deck_syntax::Front;
use std::alloc::Global;
use std::io::{ErrorKind, Read, Write};

/// Appends who may do what, of the accounts and the data sets of a deck, as far as these are asked about. Of the deck only
/// what stands before its stream is read.
///
/// # Errors
///
/// `DeckRefused` where the deck is refused before its stream; `NoAccount` or `NoSet` where it has none of the name that is
/// asked about; `Memory` where a growth was refused, and `out` may then hold a part of the report.
#[tactic(auto, using(crate::proofs::Faults::no_account_of, crate::proofs::Faults::no_set_of))]
pub fn put_report(
    alloc: Global,
    bytes: &[u8],
    question: &Question,
    out: &mut Vec<u8>,
) -> Result<(), Fault>
    requires { length bytes.now < 2 ^ 63 }
    ensures reported { OnOk result (Reported question.now bytes.now out.old.items out.new.items) }
    ensures refused { (n : ℕ) (code : AnyCode) → result ≡ Err (Fault.DeckRefused n code) → IsRefusedEarly (lines bytes.now) n code }
    ensures no_account { result ≡ Err Fault.NoAccount → IsMissing question.now bytes.now Fault.NoAccount }
    ensures no_set { result ≡ Err Fault.NoSet → IsMissing question.now bytes.now Fault.NoSet }
{
    match read_front(alloc, bytes) {
        Ok(front) => put_front_report(&front, question, out),
        Err(stop) => Err(Fault::of(stop)),
    }
}

// Appends who may do what, of these accounts and data sets.
fn put_front_report(front: &Front, question: &Question, out: &mut Vec<u8>) -> Result<(), Fault>
    ensures there { OnOk result (missing question.now front.now.accounts front.now.catalogue ≡ None) }
    ensures written { OnOk result (out.new.items ≡ out.old.items ++ access_text question.now front.now.accounts front.now.catalogue) }
    ensures never { (n : ℕ) (code : AnyCode) → result ≡ Err (Fault.DeckRefused n code) → ⊥ }
    ensures no_account { result ≡ Err Fault.NoAccount → missing question.now front.now.accounts front.now.catalogue ≡ Some Fault.NoAccount }
    ensures no_set { result ≡ Err Fault.NoSet → missing question.now front.now.accounts front.now.catalogue ≡ Some Fault.NoSet }
{
    if let Some(fault) = missing(front, question) {
        return Err(fault);
    }
    match put_access(&front.accounts, &front.catalogue, question, out) {
        Ok(()) => Ok(()),
        Err(_) => Err(Fault::Memory),
    }
}

// What is asked about and is not there.
fn missing(front: &Front, question: &Question) -> Option<Fault>
    ensures { result ≡ missing question.now front.now.accounts front.now.catalogue }
{
    if let Some(name) = &question.account {
        if front.accounts.find(name).is_none() {
            return Some(Fault::NoAccount);
        }
    }
    if let Some(name) = &question.set {
        if front.catalogue.find(name).is_none() {
            return Some(Fault::NoSet);
        }
    }
    None
}

/// Reads a deck from one stream, and writes to another who may do what.
///
/// # Errors
///
/// As `put_report`, and nothing was written then; `ReadFault` where the reader failed, and `WriteFault` where the writer did.
pub fn report_streams<R: Read, W: Write>(
    alloc: Global,
    question: &Question,
    input: &mut R,
    output: &mut W,
) -> Result<(), Fault>
    ensures reported { OnOk result (IfSome (R.remaining input.old) (λ bytes. ReportedTo question.now bytes (W.contents output.old) (W.contents output.new))) }
    ensures refused { (n : ℕ) (code : AnyCode) → result ≡ Err (Fault.DeckRefused n code) →
        IfSome (R.remaining input.old) (λ bytes. IsRefusedEarly (lines bytes) n code) }
    ensures no_account { result ≡ Err Fault.NoAccount → IfSome (R.remaining input.old) (λ bytes. IsMissing question.now bytes Fault.NoAccount) }
    ensures no_set { result ≡ Err Fault.NoSet → IfSome (R.remaining input.old) (λ bytes. IsMissing question.now bytes Fault.NoSet) }
{
    let bytes = read_all(alloc, input)?;
    let mut out = Vec::new(alloc);
    put_report(alloc, &bytes, question, &mut out)?;
    write_all(output, &out)
}

// All bytes that come.
fn read_all<R: Read>(alloc: Global, input: &mut R) -> Result<Vec<u8>, Fault>
    ensures all { IfOk result (λ bytes. IfSome (R.remaining input.old) (λ told. bytes.items ≡ told)) }
    ensures never { (n : ℕ) (code : AnyCode) → result ≡ Err (Fault.DeckRefused n code) → ⊥ }
    ensures no_account { result ≡ Err Fault.NoAccount → ⊥ }
    ensures no_set { result ≡ Err Fault.NoSet → ⊥ }
{
    let mut bytes = Vec::new(alloc);
    match input.read_to_end(&mut bytes) {
        Ok(_) => Ok(bytes),
        Err(error) if error.kind() == ErrorKind::OutOfMemory => Err(Fault::Memory),
        Err(_) => Err(Fault::ReadFault),
    }
}

fn write_all<W: Write>(output: &mut W, text: &[u8]) -> Result<(), Fault>
    ensures written { OnOk result (Appends (W.contents output.old) (W.contents output.new) text.now) }
    ensures never { (n : ℕ) (code : AnyCode) → result ≡ Err (Fault.DeckRefused n code) → ⊥ }
    ensures no_account { result ≡ Err Fault.NoAccount → ⊥ }
    ensures no_set { result ≡ Err Fault.NoSet → ⊥ }
{
    match output.write_all(text) {
        Ok(()) => Ok(()),
        Err(_) => Err(Fault::WriteFault),
    }
}
