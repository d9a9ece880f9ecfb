//! A reader and a writer over memory: what each call moves and which call fails is said exactly.
ghost use Rattle.std.specs.Prelude.{◌≡◌, ◌<◌, ◌≤◌, ◌-◌, ◌||◌, [], Some, None, false, length, take, drop, max, nat_le, is_err, vec_capacity, IfOk, OnErr};
ghost use Rattle.mon_device.specs.Devices.{Gives, IsAtEnd, one_more, holding};
ghost use Rattle.mon_device.specs.Memory.{fails_next, counted_down, moved};

use crate::device::{DeckReader, DeckWriter, Failed};
use std::alloc::{AllocError, Global};

/// Reads bytes from memory.
#[derive(Drop)]
pub struct MemReader<'a> {
    /// The bytes that are still to come.
    pub rest: &'a [u8],
    /// How many bytes a call gives at the most: at least one.
    pub most: usize,
    /// How many calls come before the one that fails, if one does. From that one on each call fails.
    pub calls_to_failure: Option<u64>,
    /// Whether a call has failed.
    pub has_failed: bool,
    /// How many reads were made.
    pub reads: u64,
    ghost gives_some: { 0 < most },
}

impl<'a> MemReader<'a> {
    /// A reader that gives all these bytes.
    pub fn new(bytes: &'a [u8]) -> MemReader<'a>
        ensures bytes { result.rest.now ≡ bytes.now }
        ensures most { result.most ≡ usize.MAX }
        ensures succeeds { result.calls_to_failure ≡ None }
        ensures sound { result.has_failed ≡ false }
        ensures fresh { result.reads ≡ 0 }
    {
        MemReader {
            rest: bytes,
            most: usize::MAX,
            calls_to_failure: None,
            has_failed: false,
            reads: 0,
        }
    }

    /// A reader that gives at most so many bytes a call, at least one.
    pub fn in_pieces(bytes: &'a [u8], most: usize) -> MemReader<'a>
        ensures bytes { result.rest.now ≡ bytes.now }
        ensures most { result.most ≡ max most 1 }
        ensures succeeds { result.calls_to_failure ≡ None }
        ensures sound { result.has_failed ≡ false }
        ensures fresh { result.reads ≡ 0 }
    {
        MemReader {
            rest: bytes,
            most: at_least_one(most),
            calls_to_failure: None,
            has_failed: false,
            reads: 0,
        }
    }

    /// A reader that gives at most so many bytes a call, at least one, and fails from the call of this number on,
    /// counted from 0.
    pub fn failing_at(bytes: &'a [u8], most: usize, call: u64) -> MemReader<'a>
        ensures bytes { result.rest.now ≡ bytes.now }
        ensures most { result.most ≡ max most 1 }
        ensures fails { result.calls_to_failure ≡ Some call }
        ensures sound { result.has_failed ≡ false }
        ensures fresh { result.reads ≡ 0 }
    {
        MemReader {
            rest: bytes,
            most: at_least_one(most),
            calls_to_failure: Some(call),
            has_failed: false,
            reads: 0,
        }
    }
}

fn at_least_one(most: usize) -> usize
    ensures value { result ≡ max most 1 }
    ensures some { 0 < result }
{
    most.max(1)
}

impl DeckReader for MemReader<'_> {
    ghost remaining = { λ s. Some s.rest.now };

    ghost has_failed = { λ s. s.has_failed };

    ghost reads = { λ s. s.reads };

    fn read(&mut self, buffer: &mut [u8]) -> Result<usize, Failed>
        requires { 0 < length buffer.old }

        // What every reader says.
        ensures within { IfOk result (λ count. count ≤ length buffer.new) }
        ensures given { IfOk result (λ count. Gives (Some self.old.rest.now) (take count buffer.new) (Some self.new.rest.now)) }
        ensures end { IfOk result (λ count. count ≡ 0 → IsAtEnd (Some self.new.rest.now)) }
        ensures err { OnErr result (Some self.new.rest.now ≡ Some self.old.rest.now) }
        ensures failed { self.new.has_failed ≡ (self.old.has_failed || is_err result) }
        ensures counted { self.new.reads ≡ one_more self.old.reads }

        // Which call fails, how many bytes the others give, and that nothing else changes.
        ensures fails { is_err result ≡ fails_next self.old.calls_to_failure }
        ensures count { IfOk result (λ count. count ≡ moved (length self.old.rest.now) (length buffer.old) self.old.most) }
        ensures beyond { IfOk result (λ count. drop count buffer.new ≡ drop count buffer.old) }
        ensures untouched { OnErr result (buffer.new ≡ buffer.old) }
        ensures countdown { self.new.calls_to_failure ≡ counted_down self.old.calls_to_failure }
        ensures most { self.new.most ≡ self.old.most }
    {
        self.reads = self.reads.saturating_add(1);
        if is_due(&mut self.calls_to_failure) {
            self.has_failed = true;
            return Err(Failed);
        }
        let count = moved(self.rest.len(), buffer.len(), self.most);
        let (given, rest) = self.rest.split_at(count);
        buffer[..count].copy_from_slice(given);
        self.rest = rest;
        Ok(count)
    }
}

// Counts a call down, and tells whether it is one that fails.
fn is_due(calls_to_failure: &mut Option<u64>) -> bool
    ensures due { result ≡ fails_next calls_to_failure.old }
    ensures counted { calls_to_failure.new ≡ counted_down calls_to_failure.old }
{
    match *calls_to_failure {
        None => false,
        Some(0) => true,
        Some(calls) => {
            *calls_to_failure = Some(calls - 1);
            false
        }
    }
}

// How many bytes a call moves.
fn moved(there: usize, room: usize, most: usize) -> usize
    ensures { result ≡ moved there room most }
{
    there.min(room).min(most)
}

/// Keeps what is written in memory, up to the room that it was made with.
#[derive(Drop)]
pub struct MemWriter {
    /// What was written.
    pub bytes: Vec<u8>,
    /// How many bytes it holds at the most.
    pub room: usize,
    /// How many bytes a call takes at the most: at least one.
    pub most: usize,
    /// How many calls come before the one that fails, if one does. From that one on each call fails.
    pub calls_to_failure: Option<u64>,
    /// Whether a call has failed.
    pub has_failed: bool,
    ghost takes_some: { 0 < most },
    ghost within_room: { length bytes.items ≤ room },
    ghost has_room: { room ≤ vec_capacity bytes },
}

impl MemWriter {
    /// A writer with room for so many bytes.
    ///
    /// # Errors
    ///
    /// Where that room was refused.
    pub fn new(alloc: Global, room: usize) -> Result<MemWriter, AllocError>
        ensures empty { IfOk result (λ writer. writer.bytes.items ≡ []) }
        ensures room { IfOk result (λ writer. writer.room ≡ room) }
        ensures most { IfOk result (λ writer. writer.most ≡ usize.MAX) }
        ensures succeeds { IfOk result (λ writer. writer.calls_to_failure ≡ None) }
        ensures sound { IfOk result (λ writer. writer.has_failed ≡ false) }
    {
        Ok(MemWriter {
            bytes: Vec::with_capacity(alloc, room)?,
            room,
            most: usize::MAX,
            calls_to_failure: None,
            has_failed: false,
        })
    }

    /// A writer that takes at most so many bytes a call, at least one.
    ///
    /// # Errors
    ///
    /// Where that room was refused.
    pub fn in_pieces(alloc: Global, room: usize, most: usize) -> Result<MemWriter, AllocError>
        ensures empty { IfOk result (λ writer. writer.bytes.items ≡ []) }
        ensures room { IfOk result (λ writer. writer.room ≡ room) }
        ensures most { IfOk result (λ writer. writer.most ≡ max most 1) }
        ensures succeeds { IfOk result (λ writer. writer.calls_to_failure ≡ None) }
        ensures sound { IfOk result (λ writer. writer.has_failed ≡ false) }
    {
        Ok(MemWriter {
            bytes: Vec::with_capacity(alloc, room)?,
            room,
            most: at_least_one(most),
            calls_to_failure: None,
            has_failed: false,
        })
    }

    /// A writer that takes at most so many bytes a call, at least one, and fails from the call of this number on,
    /// counted from 0.
    ///
    /// # Errors
    ///
    /// Where that room was refused.
    pub fn failing_at(
        alloc: Global,
        room: usize,
        most: usize,
        call: u64,
    ) -> Result<MemWriter, AllocError>
        ensures empty { IfOk result (λ writer. writer.bytes.items ≡ []) }
        ensures room { IfOk result (λ writer. writer.room ≡ room) }
        ensures most { IfOk result (λ writer. writer.most ≡ max most 1) }
        ensures fails { IfOk result (λ writer. writer.calls_to_failure ≡ Some call) }
        ensures sound { IfOk result (λ writer. writer.has_failed ≡ false) }
    {
        Ok(MemWriter {
            bytes: Vec::with_capacity(alloc, room)?,
            room,
            most: at_least_one(most),
            calls_to_failure: Some(call),
            has_failed: false,
        })
    }

    /// What was written.
    pub fn as_bytes(&self) -> &[u8]
        ensures { result.now ≡ self.now.bytes.items }
    {
        self.bytes.as_slice()
    }
}

impl DeckWriter for MemWriter {
    ghost written = { λ s. Some s.bytes.items };

    ghost has_failed = { λ s. s.has_failed };

    fn write(&mut self, piece: &[u8]) -> Result<usize, Failed>
        requires { 0 < length piece.now }

        // What every writer says.
        ensures some { IfOk result (λ count. 0 < count) }
        ensures within { IfOk result (λ count. count ≤ length piece.now) }
        ensures taken { IfOk result (λ count. Some self.new.bytes.items ≡ holding (Some self.old.bytes.items) (take count piece.now)) }
        ensures err { OnErr result (Some self.new.bytes.items ≡ Some self.old.bytes.items) }
        ensures failed { self.new.has_failed ≡ (self.old.has_failed || is_err result) }

        // Which call fails, how many bytes the others take, and that nothing else changes.
        ensures fails { is_err result ≡ (fails_next self.old.calls_to_failure || nat_le self.old.room (length self.old.bytes.items)) }
        ensures count { IfOk result (λ count. count ≡ moved (length piece.now) (self.old.room - length self.old.bytes.items) self.old.most) }
        ensures counted { self.new.calls_to_failure ≡ counted_down self.old.calls_to_failure }
        ensures room { self.new.room ≡ self.old.room }
        ensures most { self.new.most ≡ self.old.most }
    {
        let space = self.room - self.bytes.len();
        if is_due(&mut self.calls_to_failure) || space == 0 {
            self.has_failed = true;
            return Err(Failed);
        }
        let count = moved(piece.len(), space, self.most);
        // There is room for these bytes, so that nothing has to grow.
        let Ok(()) = self.bytes.extend_from_slice(&piece[..count]) else {
            unreachable!();
        };
        Ok(count)
    }
}
