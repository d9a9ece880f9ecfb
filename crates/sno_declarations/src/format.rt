//! Formats of records.
ghost use Rattle.std.specs.Prelude.{◌≡◌, ◌≤◌, ◌<◌, ◌∷◌, length, take, drop, IfOk, IfSome};
ghost use Rattle.std.specs.List.{list_all};
ghost use Rattle.mon_text.specs.Characters.{is_digit};
ghost use Rattle.mon_text.specs.Lines.{IsLine};
ghost use Rattle.sno_declarations.specs.Formats.{most_characters, number_to, characters_in, with_characters, format_of, laid_out};

use mon_text::Line;
use sno_text::Text;
use std::alloc::{AllocError, Global};
use std::marker::Model;

/// How texts are cut into records: so many characters of a text in each, behind a blank or not.
///
/// There is at least one, and the whole record has at most 1,024 characters, by the type's invariant.
#[derive(Clone, Copy)]
pub struct Format {
    characters: u64,
    blank: bool,
}

impl Model for Format {
    ghost use Rattle.sno_declarations.specs.Formats.{RecordFormat, IsFormat};

    ghost Value = { RecordFormat };

    ghost view = { λ f. record { characters = f.characters; blank = f.blank } };

    ghost inverse = { λ f. record { characters = f.characters; blank = f.blank } };

    ghost invariant = { λ f. IsFormat (record { characters = f.characters; blank = f.blank }) };
}

fn are_digits(text: &[u8]) -> bool
    ensures { result ≡ list_all is_digit text.now }
{
    text.iter().all(|code| code.is_ascii_digit())
}

/// The number that digits stand for, if it is from 1 to so many.
fn number_to(text: &[u8], most: u64) -> Option<u64>
    requires { most ≤ 1024 }
    ensures number { result ≡ number_to most text.now }
    ensures within { IfSome result (λ number. (1 ≤ number) × (number ≤ most)) }
{
    if !are_digits(text) {
        return None;
    }
    let mut number = 0;
    for digit in text {
        number = 10 * number + u64::from(*digit - b'0');
        if number > most {
            return None;
        }
    }
    if number == 0 { None } else { Some(number) }
}

/// The number before `A1)`.
fn characters_in(text: &[u8], most: u64) -> Option<u64>
    requires { most ≤ 1024 }
    ensures number { result ≡ characters_in most text.now }
    ensures within { IfSome result (λ number. (1 ≤ number) × (number ≤ most)) }
{
    match text.strip_suffix(b"A1)") {
        Some(digits) => number_to(digits, most),
        None => None,
    }
}

/// How many characters of a text a record has at the most.
fn most_characters(blank: bool) -> u64
    ensures { result ≡ most_characters blank }
{
    if blank { 1023 } else { 1024 }
}

/// The format that what stands before `nA1)` begins.
fn with_characters(blank: bool, text: &[u8]) -> Option<Format>
    ensures { result ≡ with_characters blank text.now }
{
    match characters_in(text, most_characters(blank)) {
        Some(characters) => Some(Format::new(characters, blank)),
        None => None,
    }
}

/// Reads a format: `(nA1)`, or `(1X,nA1)` for a blank before each record.
pub fn read_format(text: &[u8]) -> Option<Format>
    ensures { result ≡ format_of text.now }
{
    if let Some(rest) = text.strip_prefix(b"(1X,") {
        return with_characters(true, rest);
    }
    match text.strip_prefix(b"(") {
        Some(rest) => with_characters(false, rest),
        None => None,
    }
}

/// A blank and some characters as a line.
///
/// # Errors
///
/// Where a growth was refused.
pub fn after_blank(alloc: Global, piece: &[u8]) -> Result<Line, AllocError>
    requires { IsLine piece.now }
    ensures { IfOk result (λ line. line ≡ 32 ∷ piece.now) }
{
    let mut text = Vec::from_slice(alloc, b" ")?;
    text.extend_from_slice(piece)?;
    let room = Vec::with_capacity(alloc, text.len())?;
    Ok(Line::in_room(room, text.as_slice()))
}

impl Format {
    /// So many characters a record, behind a blank or not.
    pub fn new(characters: u64, blank: bool) -> Format
        requires positive { 1 ≤ characters }
        requires fits { characters ≤ most_characters blank }
        ensures { result ≡ record { characters = characters; blank = blank } }
    {
        Format { characters, blank }
    }

    /// How many characters of a text go into a record, not counting the blank.
    pub fn characters(&self) -> u64
        ensures value { result ≡ self.now.characters }
        ensures positive { 1 ≤ result }
        ensures fits { result ≤ most_characters self.now.blank }
    {
        self.characters
    }

    /// Whether a blank stands before each record.
    pub fn has_blank(&self) -> bool
        ensures { result ≡ self.now.blank }
    {
        self.blank
    }

    /// The characters of a text that go into the record which begins at a place of it.
    #[tactic(auto, using(sno_text::proofs::Printable::line_of_take, sno_text::proofs::Printable::line_of_drop))]
    pub fn piece<'a>(&self, text: &'a Text, from: usize) -> &'a [u8]
        requires { from ≤ length text.now }
        ensures value { result.now ≡ take self.now.characters (drop from text.now) }
        ensures printable { IsLine result.now }
        ensures short { length (laid_out self.now result.now) ≤ 1024 }
    {
        let left = text.len() - from;
        let taken = if left as u64 <= self.characters {
            left
        } else {
            self.characters as usize
        };
        &text.as_bytes()[from..from + taken]
    }
}
