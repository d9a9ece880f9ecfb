//! The catalogue of a site, as it stands in its file: the card of a catalogue, and data sets to the file's end.
ghost use Rattle.std.specs.Prelude.{◌≡◌, ◌≤◌, ◌<◌, ◌+◌, ◌-◌, ◌^◌, Ok, Err, length, IfOk, IfErr, OnOk};
ghost use Rattle.std.specs.Str.Lines.{lines};
ghost use Rattle.mon_text.specs.Stops.{Gives};
ghost use Rattle.mon_catalogue.specs.Progress.{lines_taken};
ghost use Rattle.preflight.specs.Submissions.{IfStopped};
ghost use Rattle.site_plan.specs.Catalogues.{version_of, after_line, is_ended, whole, sets_behind, catalogue_of};

use crate::lines::stop_at;
use deck_syntax::{DeckError, finish_catalogue, first_line, put_account_line, put_catalogue_line};
use mon_access::Accounts;
use mon_catalogue::{Catalogue, Loading, Version};
use mon_text::Stop;
use std::alloc::Global;

/// No file has so many bytes.
const MOST_BYTES: u64 = 1 << 63;

/// Why the file of a catalogue is refused.
#[derive(Clone, Copy)]
pub enum CatalogueFault {
    /// A deck would be refused at this line, with this code.
    Line(DeckError),
    /// The first line is not the card of a catalogue.
    NoCard,
    /// In a deck the card would end the catalogue.
    Ends,
    /// The last line has no line end.
    Unended,
    /// The file ends within a data set.
    Unfinished,
}

impl CatalogueFault {
    /// What is wrong, in words.
    pub fn text(self) -> &'static str {
        match self {
            CatalogueFault::Line(code) => code.text(),
            CatalogueFault::NoCard => "not $CATALOGUE or $CATALOGUE 2",
            CatalogueFault::Ends => "a card that ends the catalogue",
            CatalogueFault::Unended => "the last line has no line end",
            CatalogueFault::Unfinished => "the file ends within a data set",
        }
    }
}

/// The catalogue that a file spells: `$CATALOGUE` or `$CATALOGUE 2`, and whole data sets to the file's end.
///
/// # Errors
///
/// The number of the first line that is wrong, counted from 1, and why. Where a data set is not whole it is the number behind the last
/// line. `Memory` where a growth was refused, or the file has 2^63 bytes.
pub fn read_catalogue(alloc: Global, text: &[u8]) -> Result<Catalogue, Stop<(u64, CatalogueFault)>>
    ensures { Gives (λ catalogue. catalogue) result (catalogue_of text.now) }
{
    if text.len() as u64 >= MOST_BYTES {
        return Err(Stop::Memory);
    }
    if text.is_empty() {
        return Err(Stop::Refused((1, CatalogueFault::NoCard)));
    }
    let (card, rest) = first_line(text);
    match version_of(alloc, card) {
        Ok(version) => read_sets(alloc, version, rest, is_ended(text)),
        Err(stop) => Err(stop_at(1, stop)),
    }
}

// Whether the last line of a text has a line end.
fn is_ended(text: &[u8]) -> bool
    ensures { result ≡ is_ended text.now }
{
    match text.last() {
        Some(last) => *last == b'\n',
        None => false,
    }
}

// The version that the card of a catalogue gives, as the one behind the account table of a deck.
fn version_of(alloc: Global, line: &[u8]) -> Result<Version, Stop<CatalogueFault>>
    ensures given { IfOk result (λ version. version_of line.now ≡ Ok version) }
    ensures refused { IfErr result (IfStopped (λ why. version_of line.now ≡ Err why)) }
{
    if line.first() != Some(&b'$') {
        return Err(Stop::Refused(CatalogueFault::NoCard));
    }
    match put_account_line(alloc, &mut Accounts::new(alloc), line) {
        Ok(Some(version)) => Ok(version),
        Ok(None) => Err(Stop::Refused(CatalogueFault::NoCard)),
        Err(Stop::Refused(code)) => Err(Stop::Refused(CatalogueFault::Line(code))),
        Err(Stop::Memory) => Err(Stop::Memory),
    }
}

// The data sets of the lines behind the card.
fn read_sets(
    alloc: Global,
    version: Version,
    text: &[u8],
    is_ended: bool,
) -> Result<Catalogue, Stop<(u64, CatalogueFault)>>
    requires { length text.now < 2 ^ 63 }
    ensures { Gives (λ catalogue. catalogue) result (sets_behind version is_ended (lines text.now)) }
{
    let mut loading = Loading::new(alloc, version);
    let mut number: u64 = 2;
    let mut rest = text;
    'lines: while !rest.is_empty() {
        let (line, behind) = first_line(rest);
        match take_line(alloc, &mut loading, line) {
            Ok(()) => {}
            Err(stop) => return Err(stop_at(number, stop)),
        }
        number += 1;
        rest = behind;
    }
    match finish(loading, is_ended, number - 1) {
        Ok(catalogue) => Ok(catalogue),
        Err(refusal) => Err(Stop::Refused(refusal)),
    }
}

// Takes a line behind the card.
fn take_line(alloc: Global, loading: &mut Loading, line: &[u8]) -> Result<(), Stop<CatalogueFault>>
    requires { lines_taken loading.old < 2 ^ 63 }
    ensures taken { OnOk result (after_line loading.old line.now ≡ Ok loading.new) }
    ensures refused { IfErr result (IfStopped (λ why. after_line loading.old line.now ≡ Err why)) }
    ensures counted { lines_taken loading.new ≤ lines_taken loading.old + 1 }
{
    match put_catalogue_line(alloc, loading, line) {
        Ok(false) => Ok(()),
        Ok(true) => Err(Stop::Refused(CatalogueFault::Ends)),
        Err(Stop::Refused(code)) => Err(Stop::Refused(CatalogueFault::Line(code))),
        Err(Stop::Memory) => Err(Stop::Memory),
    }
}

// What the lines of a file spell, of which there are so many.
fn finish(loading: Loading, is_ended: bool, count: u64) -> Result<Catalogue, (u64, CatalogueFault)>
    requires { count < 2 ^ 64 - 1 }
    ensures { result ≡ whole is_ended count loading }
{
    if !is_ended {
        Err((count, CatalogueFault::Unended))
    } else if loading.due() {
        Ok(finish_catalogue(loading))
    } else {
        Err((count + 1, CatalogueFault::Unfinished))
    }
}
