//! Lines one behind the other, as they are printed.
ghost use Rattle.std.specs.Prelude.{◌≡◌, ℕ, ◌==◌, ◌+◌, ◌<◌, ◌≤◌, [], ◌∷◌, ◌++◌, length, take, drop, slice_get, slice_index_or, vec_len, vec_capacity, IfSome, IfOk, OnOk, OnErr};
ghost use Rattle.std.specs.List.{AllByRecursion, concat, flat_map};
ghost use Rattle.std.specs.Option.{option_map};
ghost use Rattle.mon_device.specs.Putting.{Puts, PutsBut};
ghost use Rattle.mon_text.specs.Lines.{IsLine};
ghost use Rattle.packed_lines.specs.Packing.{printed, start_of};

use mon_device::Sink;
use std::alloc::{AllocError, Global};
use std::marker::Model;

/// How many characters a line has at the most that takes no memory where it is put in the place of others.
pub const ROOM: usize = 1_024;

// Where a line ends at the most, so that four bytes say it.
const LAST_END: usize = u32::MAX as usize;

// How many bytes are put at once where lines stand as they are printed: few enough to be gathered by whoever takes them.
const PIECE: usize = 2_048;

// How many bytes are gathered where something stands before each line.
const GATHERED: usize = 4_096;

// How many bytes are copied at once where a line has no more: such a number takes no call and no loop.
const WIDE: usize = 128;

// From how many lines on it is worth the room to gather them.
const MANY: usize = 16;

// Up to how many bytes no more room is taken than a few lines want.
const FEW: usize = 4_096;

// How many bytes of room are taken beside a line's own while there are few.
const SPARE: usize = 256;

/// Lines in order, one behind the other in one piece of memory, each with the LF that it is printed with: 4,294,967,295 bytes at
/// the most.
///
/// A contract sees them as a list, without LF.
#[derive(Drop)]
pub struct PackedLines {
    // The characters of all lines, with LF behind each. From where any line begins there is room for one of `ROOM` characters.
    bytes: Vec<u8>,
    // Where each line ends, behind its LF: at `LAST_END` at the most.
    ends: Vec<u32>,
}

impl Model for PackedLines {
    ghost use Rattle.std.specs.Prelude.{ℕ, ◌-◌, List, ◌∷◌, length, map, min, slice_index_or, vec_capacity};
    ghost use Rattle.std.specs.List.{range_with_len, slice_range};
    ghost use Rattle.packed_lines.specs.Packing.{pieces, IsPacked};

    ghost Value = { List (List ℕ) };

    ghost view = { λ l. map (λ i. slice_range l.bytes.items (slice_index_or (0 ∷ l.ends.items) i 0) (slice_index_or l.ends.items i 0 - 1)) (range_with_len 0 (length l.ends.items)) };

    ghost invariant = { λ l. IsPacked (min (vec_capacity l.bytes) 4294967295) l.ends.items l.bytes.items (pieces l.ends.items l.bytes.items) };
}

impl PackedLines {
    /// No lines.
    pub fn new(alloc: Global) -> PackedLines
        ensures { result ≡ [] }
    {
        PackedLines {
            bytes: Vec::new(alloc),
            ends: Vec::new(alloc),
        }
    }

    /// How many lines there are.
    pub fn len(&self) -> usize
        ensures { result ≡ length self.now }
    {
        self.ends.len()
    }

    /// Whether there is no line.
    pub fn is_empty(&self) -> bool
        ensures { result ≡ (length self.now == 0) }
    {
        self.ends.is_empty()
    }

    // Where a line begins, or the one that comes next.
    fn start(&self, at: usize) -> usize
        requires { at ≤ length self.now }
        ensures { result ≡ start_of at self.now }
    {
        if at == 0 {
            0
        } else {
            self.ends[at - 1] as usize
        }
    }

    /// The line at an index, from 0, which there must be.
    pub fn at(&self, at: usize) -> &[u8]
        requires { at < length self.now }
        ensures value { result.now ≡ slice_index_or self.now at [] }
        ensures printable { IsLine result.now }
    {
        let start = self.start(at);
        let end = self.ends[at] as usize - 1;
        &self.bytes[start..end]
    }

    /// The line at an index, from 0, where there is one.
    pub fn get(&self, at: usize) -> Option<&[u8]>
        ensures value { option_map (λ line. line.now) result ≡ slice_get self.now at }
        ensures printable { IfSome result (λ line. IsLine line.now) }
    {
        if at < self.ends.len() {
            Some(self.at(at))
        } else {
            None
        }
    }

    /// Says of every line that it is printable. It looks at none of them.
    pub fn are_printable(&self)
        ensures { AllByRecursion IsLine self.now }
    {
        let _count = self.ends.len();
    }

    /// How many characters all lines have together.
    pub fn characters(&self) -> usize
        ensures { result ≡ length (concat self.now) }
    {
        self.bytes.len() - self.ends.len()
    }

    /// Puts the lines where they stand, each with these bytes before it and LF behind it. It takes no memory.
    pub fn print<S: Sink>(&self, before: &[u8], sink: &mut S)
        ensures { Puts (S.standing sink.old) (S.standing sink.new) (flat_map (λ line. before.now ++ line ++ 10 ∷ []) self.now) }
    {
        match before {
            [] => self.print_whole(sink),
            [byte] if self.len() >= MANY => self.print_gathered(*byte, sink),
            _ => self.print_each(before, sink),
        }
    }

    // Puts the lines as they stand in memory.
    fn print_whole<S: Sink>(&self, sink: &mut S)
        ensures { Puts (S.standing sink.old) (S.standing sink.new) (printed self.now) }
    {
        let mut from = 0;
        while from < self.bytes.len() {
            let to = (from + PIECE).min(self.bytes.len());
            sink.put(&self.bytes[from..to]);
            from = to;
        }
    }

    // Puts the lines one by one.
    fn print_each<S: Sink>(&self, before: &[u8], sink: &mut S)
        ensures { Puts (S.standing sink.old) (S.standing sink.new) (flat_map (λ line. before.now ++ line ++ 10 ∷ []) self.now) }
    {
        for index in 0..self.len() {
            sink.put_line(before, self.at(index));
        }
    }

    // The same, by as many lines at once as can be gathered. It stays a call of its own, since its room is cleared on entry.
    #[inline(never)]
    fn print_gathered<S: Sink>(&self, before: u8, sink: &mut S)
        ensures { Puts (S.standing sink.old) (S.standing sink.new) (flat_map (λ line. (before ∷ []) ++ line ++ 10 ∷ []) self.now) }
    {
        let mut room = [0; GATHERED];
        let mut filled = 0;
        let mut start = 0;
        let bytes = self.bytes.as_slice();
        for end in &self.ends {
            let end = *end as usize;
            let rest = &bytes[start..];
            filled = put_next(&mut room, filled, before, rest, end - start, sink);
            start = end;
        }
        sink.put(&room[..filled]);
    }

    /// Adds a line at the end.
    ///
    /// # Errors
    ///
    /// Where a growth was refused, or the lines would have more than 4,294,967,295 bytes, with a last one shorter than `ROOM`
    /// counted as if it had so many; the lines are then unchanged.
    pub fn push(&mut self, line: &[u8]) -> Result<(), AllocError>
        requires { IsLine line.now }
        ensures added { OnOk result (self.new ≡ self.old ++ line.now ∷ []) }
        ensures unchanged { OnErr result (self.new ≡ self.old) }
    {
        let room = line.len().max(ROOM) + 1;
        if self.bytes.len() + room > LAST_END {
            return Err(AllocError);
        }
        // Mostly there is room.
        if room > self.bytes.capacity() - self.bytes.len() {
            take_room(&mut self.bytes, room)?;
        }
        self.ends.reserve(1)?;
        self.bytes.extend_from_slice(line).unwrap();
        self.bytes.push_reserved(b'\n');
        self.ends.push_reserved(self.bytes.len() as u32);
        Ok(())
    }

    /// Puts a line of at most `ROOM` characters in the place of one and of those behind it. It takes no memory.
    pub fn put_at(&mut self, at: usize, line: &[u8])
        requires within { at < length self.old }
        requires short { length line.now ≤ ROOM }
        requires printable { IsLine line.now }
        ensures { self.new ≡ take at self.old ++ line.now ∷ [] }
    {
        let start = self.start(at);
        self.bytes.truncate(start);
        self.bytes.extend_from_slice(line).unwrap();
        self.bytes.push_reserved(b'\n');
        self.ends[at] = self.bytes.len() as u32;
        self.ends.truncate(at + 1);
    }

    /// Cuts off the line at an index and those behind it. It takes no memory.
    pub fn truncate(&mut self, at: usize)
        ensures { self.new ≡ take at self.old }
    {
        if at < self.ends.len() {
            let start = self.start(at);
            self.bytes.truncate(start);
            self.ends.truncate(at);
        }
    }

    /// The same lines once more, with the same room.
    ///
    /// # Errors
    ///
    /// Where a growth was refused.
    pub fn copy(&self, alloc: Global) -> Result<PackedLines, AllocError>
        ensures { IfOk result (λ copy. copy ≡ self.now) }
    {
        let mut bytes = Vec::with_capacity(alloc, self.bytes.capacity())?;
        bytes.extend_from_slice(&self.bytes)?;
        let ends = Vec::from_slice(alloc, &self.ends)?;
        Ok(PackedLines { bytes, ends })
    }
}

// Takes room for one more line: while there are few, no more than a few lines want, and else twice what there was at the least.
// It stays a call, since there mostly is some.
#[inline(never)]
fn take_room(bytes: &mut Vec<u8>, room: usize) -> Result<(), AllocError>
    requires { room ≤ 4294967295 }
    ensures items { bytes.new.items ≡ bytes.old.items }
    ensures len { vec_len bytes.new ≡ vec_len bytes.old }
    ensures ok { OnOk result (vec_len bytes.new + room ≤ vec_capacity bytes.new) }
    ensures capacity { vec_capacity bytes.old ≤ vec_capacity bytes.new }
    ensures err { OnErr result (vec_capacity bytes.new ≡ vec_capacity bytes.old) }
{
    if bytes.len() < FEW {
        bytes.reserve_exact(room + SPARE)
    } else {
        bytes.reserve(room)
    }
}

// Gathers the first of the lines that are left, which has `count` bytes, and puts what it had no room for: how much is gathered then.
//
// A short line is copied with what follows it, by a length that is known: what is too much is overwritten by the next line, or not put.
#[inline(always)]
fn put_next<S: Sink>(
    room: &mut [u8; GATHERED],
    filled: usize,
    before: u8,
    rest: &[u8],
    count: usize,
    sink: &mut S,
) -> usize
    requires filled { filled ≤ GATHERED }
    requires within { count ≤ length rest.now }
    ensures within { result ≤ GATHERED }
    ensures put { PutsBut (S.standing sink.old) (S.standing sink.new) (take result room.new) (take filled room.old ++ ((before ∷ []) ++ take count rest.now)) }
{
    if count <= WIDE && filled < GATHERED - WIDE {
        if let Some(block) = rest.first_chunk::<WIDE>() {
            gather_block(room, filled, before, block);
            return filled + 1 + count;
        }
    }
    put_behind(room, filled, &[before], &rest[..count], sink)
}

// Puts a byte and a block behind it into the room.
#[inline(always)]
fn gather_block(room: &mut [u8; GATHERED], filled: usize, before: u8, block: &[u8; WIDE])
    requires { filled + WIDE < GATHERED }
    ensures { (count : ℕ) → count ≤ WIDE → take (filled + 1 + count) room.new ≡ take filled room.old ++ ((before ∷ []) ++ take count block.now) }
{
    room[filled] = before;
    lay(&mut room[filled + 1..], block);
}

// Puts a block at the begin of a place that has room for it.
#[inline(always)]
fn lay(place: &mut [u8], block: &[u8; WIDE])
    requires { WIDE ≤ length place.old }
    ensures { place.new ≡ block.now ++ drop WIDE place.old }
{
    if let Some(begin) = place.first_chunk_mut::<WIDE>() {
        *begin = *block;
    }
}

// Gathers one more line behind what is gathered, and puts what it had no room for: how much is gathered then. It stays a call, since
// most lines are short.
#[inline(never)]
fn put_behind<S: Sink>(
    room: &mut [u8; GATHERED],
    filled: usize,
    before: &[u8],
    line: &[u8],
    sink: &mut S,
) -> usize
    requires { filled ≤ GATHERED }
    ensures within { result ≤ GATHERED }
    ensures put { PutsBut (S.standing sink.old) (S.standing sink.new) (take result room.new) (take filled room.old ++ (before.now ++ line.now)) }
{
    let length = before.len() + line.len();
    if length <= GATHERED - filled {
        gather(room, filled, before, line);
        return filled + length;
    }
    sink.put(&room[..filled]);
    if length <= GATHERED {
        gather(room, 0, before, line);
        return length;
    }
    sink.put(before);
    sink.put(line);
    0
}

// Puts what stands before a line, and the line, into the room behind what it has.
#[inline(always)]
fn gather(room: &mut [u8; GATHERED], filled: usize, before: &[u8], line: &[u8])
    requires { filled + (length before.now + length line.now) ≤ GATHERED }
    ensures { take (filled + (length before.now + length line.now)) room.new ≡ take filled room.old ++ (before.now ++ line.now) }
{
    place_before(room, filled, before);
    place(room, filled + before.len(), line);
}

// Puts what stands before a line into the room. Mostly it is one blank, which needs no call.
fn place_before(room: &mut [u8; GATHERED], at: usize, before: &[u8])
    requires { at + length before.now ≤ GATHERED }
    ensures { take (at + length before.now) room.new ≡ take at room.old ++ before.now }
{
    match before {
        [byte] => room[at] = *byte,
        _ => place(room, at, before),
    }
}

// Puts bytes into the room.
fn place(room: &mut [u8; GATHERED], at: usize, bytes: &[u8])
    requires { at + length bytes.now ≤ GATHERED }
    ensures { take (at + length bytes.now) room.new ≡ take at room.old ++ bytes.now }
{
    room[at..at + bytes.len()].copy_from_slice(bytes);
}
