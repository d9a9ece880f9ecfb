//! A short line that is put together in a room, piece behind piece, and appended by one copy: a piece of a few bytes is put by copies
//! of a fixed length, which take less than a call.
ghost use Rattle.std.specs.Prelude.{◌≡◌, ◌++◌, ◌+◌, ◌≤◌, OnOk, length, take, drop};
ghost use Rattle.mon_command.specs.Printouts.{word, number};

use itoa::Buffer;
use mon_text::Name;
use std::alloc::AllocError;

/// How many bytes a line has at the most: three names and a number, a blank before each, and LF are 118.
pub(crate) const MOST_ON_LINE: usize = 128;

/// How many a line mostly has at the most.
const USUAL_ON_LINE: usize = 48;

// Appends the first bytes of a line. Mostly they are few: then as many are copied as needs no call, and those behind them let go.
#[inline(always)]
pub(crate) fn put_first(
    room: &[u8; MOST_ON_LINE],
    count: usize,
    out: &mut Vec<u8>,
) -> Result<(), AllocError>
    requires { count ≤ 128 }
    ensures { OnOk result (out.new.items ≡ out.old.items ++ take count room.now) }
{
    if count > USUAL_ON_LINE {
        return out.extend_from_slice(&room[..count]);
    }
    let before = out.len();
    out.extend_from_slice(&room[..USUAL_ON_LINE])?;
    out.truncate(before + count);
    Ok(())
}

// Puts bytes into the room. Most names have 4 to 16, which need no call: so many of the first and of the last ones are put, which may
// lie over one another.
#[inline(always)]
fn place_text(room: &mut [u8; MOST_ON_LINE], at: usize, bytes: &[u8])
    requires { at + length bytes.now ≤ 128 }
    ensures { take (at + length bytes.now) room.new ≡ take at room.old ++ bytes.now }
{
    let count = bytes.len();
    if count >= 8 && count <= 16 {
        place_eight(room, at, bytes, 0);
        place_eight(room, at + count - 8, bytes, count - 8);
    } else if count >= 4 && count <= 7 {
        place_four(room, at, four_at(bytes, 0));
        place_four(room, at + count - 4, four_at(bytes, count - 4));
    } else {
        place(room, at, bytes);
    }
}

// Puts eight of the bytes into the room. All are read before one is written, so that it is done at once.
#[inline(always)]
fn place_eight(room: &mut [u8; MOST_ON_LINE], at: usize, bytes: &[u8], from: usize)
    requires room { at + 8 ≤ 128 }
    requires bytes { from + 8 ≤ length bytes.now }
    ensures { take (at + 8) room.new ≡ take at room.old ++ take 8 (drop from bytes.now) }
{
    let (first, last) = (four_at(bytes, from), four_at(bytes, from + 4));
    place_four(room, at, first);
    place_four(room, at + 4, last);
}

// Four of the bytes.
#[inline(always)]
fn four_at(bytes: &[u8], from: usize) -> [u8; 4]
    requires { from + 4 ≤ length bytes.now }
    ensures { result ≡ take 4 (drop from bytes.now) }
{
    [
        bytes[from],
        bytes[from + 1],
        bytes[from + 2],
        bytes[from + 3],
    ]
}

// Puts four bytes into the room.
#[inline(always)]
fn place_four(room: &mut [u8; MOST_ON_LINE], at: usize, four: [u8; 4])
    requires { at + 4 ≤ 128 }
    ensures { take (at + 4) room.new ≡ take at room.old ++ four }
{
    room[at] = four[0];
    room[at + 1] = four[1];
    room[at + 2] = four[2];
    room[at + 3] = four[3];
}

// Puts bytes into the room.
fn place(room: &mut [u8; MOST_ON_LINE], at: usize, bytes: &[u8])
    requires { at + length bytes.now ≤ 128 }
    ensures { take (at + length bytes.now) room.new ≡ take at room.old ++ bytes.now }
{
    room[at..at + bytes.len()].copy_from_slice(bytes);
}

// Puts a name behind a blank into the room, and answers where it ends.
#[inline(always)]
pub(crate) fn place_name(room: &mut [u8; MOST_ON_LINE], at: usize, name: &Name) -> usize
    requires { at + 32 ≤ 128 }
    ensures placed { take result room.new ≡ take at room.old ++ word name.now }
    ensures few { result ≤ at + 32 }
{
    place_word(room, at, name.as_bytes())
}

// Puts a word behind a blank into the room, and answers where it ends.
#[inline(always)]
fn place_word(room: &mut [u8; MOST_ON_LINE], at: usize, text: &[u8]) -> usize
    requires { at + (length text.now + 1) ≤ 128 }
    ensures placed { take result room.new ≡ take at room.old ++ word text.now }
    ensures end { result ≡ at + (length text.now + 1) }
{
    room[at] = b' ';
    place_text(room, at + 1, text);
    at + 1 + text.len()
}

// Puts a number behind a blank into the room, and answers where it ends. Mostly it has one digit.
#[inline(always)]
pub(crate) fn place_number(room: &mut [u8; MOST_ON_LINE], at: usize, value: u64) -> usize
    requires { at + 21 ≤ 128 }
    ensures placed { take result room.new ≡ take at room.old ++ number value }
    ensures few { result ≤ at + 21 }
{
    if value < 10 {
        place_digit(room, at, value)
    } else {
        let mut digits = Buffer::new();
        place_word(room, at, digits.format(value).as_bytes())
    }
}

// Puts a number of one digit behind a blank into the room, and answers where it ends.
#[inline(always)]
fn place_digit(room: &mut [u8; MOST_ON_LINE], at: usize, value: u64) -> usize
    requires room { at + 21 ≤ 128 }
    requires digit { value + 1 ≤ 10 }
    ensures placed { take result room.new ≡ take at room.old ++ number value }
    ensures few { result ≤ at + 21 }
{
    room[at] = b' ';
    room[at + 1] = b'0' + value as u8;
    at + 2
}
