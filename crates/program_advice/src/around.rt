//! The characters around a place of a line.
ghost use Rattle.std.specs.Prelude.{◌≡◌, find, reverse, option_copied};
ghost use Rattle.mon_text.specs.Characters.{is_identifier_character};
ghost use Rattle.program_advice.specs.Causes.{or_end, is_apart, is_no_blank, around};

use crate::brackets::open_behind;

/// What stands for a character that the line does not have.
const END: u8 = b'\n';

/// The characters around a place of a line; a line feed for each that the line does not have.
#[derive(Clone, Copy)]
pub struct Around {
    /// The last before the place that belongs to no identifier.
    pub sign: u8,
    /// The last before the place.
    pub before: u8,
    /// The last before the place that is no blank.
    pub ended: u8,
    /// The innermost `(` or `<` that is open at the place.
    pub opened: u8,
    /// That at the place.
    pub here: u8,
    /// The next.
    pub behind: u8,
    /// The first, from the place on, that belongs to no identifier.
    pub follows: u8,
}

impl Around {
    /// Around a place that parts a line in two.
    pub fn of(before: &[u8], from_here: &[u8]) -> Around
        ensures { result ≡ around before.now from_here.now }
    {
        Around {
            sign: last_apart(before),
            before: or_end(before.last()),
            ended: last_in_print(before),
            opened: open_behind(before),
            here: or_end(from_here.first()),
            behind: or_end(from_here.get(1)),
            follows: first_apart(from_here),
        }
    }
}

// The last character that belongs to no identifier.
fn last_apart(text: &[u8]) -> u8
    ensures { result ≡ or_end (find is_apart (reverse text.now)) }
{
    or_end(text.iter().rev().find(|code| is_apart(**code)))
}

// The last character that is no blank.
fn last_in_print(text: &[u8]) -> u8
    ensures { result ≡ or_end (find is_no_blank (reverse text.now)) }
{
    or_end(text.iter().rev().find(|code| is_no_blank(**code)))
}

fn is_no_blank(code: u8) -> bool
    ensures { result ≡ is_no_blank code }
{
    code != b' '
}

// The first such character.
fn first_apart(text: &[u8]) -> u8
    ensures { result ≡ or_end (find is_apart text.now) }
{
    or_end(text.iter().find(|code| is_apart(**code)))
}

fn or_end(code: Option<&u8>) -> u8
    ensures { result ≡ or_end (option_copied code.entry) }
{
    match code {
        Some(code) => *code,
        None => END,
    }
}

// Whether a character belongs to no identifier.
fn is_apart(code: u8) -> bool
    ensures { result ≡ is_apart code }
{
    !is_identifier_character(code)
}

pub(crate) fn is_identifier_character(code: u8) -> bool
    ensures { result ≡ is_identifier_character code }
{
    code.is_ascii_alphanumeric() || code == b'.' || code == b'_'
}
