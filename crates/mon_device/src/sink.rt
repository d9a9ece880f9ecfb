//! What a printout is put to, piece by piece: a text in memory, or a writer, through a room of fixed size.
ghost use Rattle.std.specs.Prelude.{◌≡◌, ◌≤◌, ◌<◌, ◌+◌, ◌-◌, ◌∷◌, ◌++◌, ℕ, List, [], Some, None, true, false, length, is_err, Bool, IfOk, OnOk, OnErr};
ghost use Rattle.mon_device.specs.Devices.{HasTaken, holding};
ghost use Rattle.mon_device.specs.declared.transfer.TheConstants.{WRITE_SIZE};
ghost use Rattle.mon_device.specs.Putting.{Standing, Puts};

use crate::device::{DeckDevices, Failed};
use crate::transfer::{WRITE_SIZE, write_all};
use std::alloc::{AllocError, Global};
use std::marker::Model;

/// What a printout is put to.
pub trait Sink {
    // How it stands, and whether anybody listens.
    ghost standing: { Self → Standing };

    ghost heeded: { Bool };

    /// Takes bytes, in order. It answers nothing: a sink that has failed takes nothing more, and tells so at the end.
    fn put(&mut self, bytes: &[u8])
        ensures { Puts (standing self.old) (standing self.new) bytes.now };

    /// Takes a line, as `put` takes bytes: what stands before its text, the text, and LF behind it.
    fn put_line(&mut self, before: &[u8], text: &[u8])
        ensures { Puts (standing self.old) (standing self.new) (before.now ++ text.now ++ 10 ∷ []) };

    /// Whether anybody listens. A sink to which nobody does is as one that has failed, and what is put to it is not looked at.
    fn listens(&self) -> bool
        ensures is { result ≡ heeded }
        ensures silent { heeded ≡ false → (standing self.now).failed ≡ true };

    /// Writes what is gathered.
    ///
    /// # Errors
    ///
    /// `Failed` where something was not taken, now or before, and somebody listens.
    fn flush(&mut self) -> Result<(), Failed>
        ensures puts { Puts (standing self.old) (standing self.new) [] }
        ensures written { OnOk result (heeded ≡ true → ((standing self.new).gathered ≡ []) × ((standing self.new).failed ≡ false)) }
        ensures failed { OnErr result ((heeded ≡ true) × ((standing self.new).failed ≡ true)) };

    /// Whether whoever takes it wants the run broken off, as where a growth is refused. It is asked now and then.
    fn is_late(&self) -> bool {
        false
    }
}

/// A text in memory to which a printout is put.
#[derive(Drop)]
pub struct TextSink<'a> {
    text: &'a mut Vec<u8>,
    has_failed: bool,
}

impl<'a> TextSink<'a> {
    /// Puts behind this text.
    pub fn new(text: &'a mut Vec<u8>) -> TextSink<'a>
        ensures { ⟦<TextSink<'a> as Sink>⟧.standing result ≡ record { written = Some text.old.items; gathered = []; failed = false; remaining = None; reads = 0; lent = text.entry.ghost_name ∷ [] } }
    {
        TextSink {
            text,
            has_failed: false,
        }
    }

    /// Whether all was put.
    ///
    /// # Errors
    ///
    /// Where a growth was refused; the text may then hold a part of what was put.
    pub fn settle(&mut self) -> Result<(), AllocError>
        ensures same { ⟦<TextSink<'a> as Sink>⟧.standing self.new ≡ ⟦<TextSink<'a> as Sink>⟧.standing self.old }
        ensures failed { (⟦<TextSink<'a> as Sink>⟧.standing self.new).failed ≡ is_err result }
    {
        if self.has_failed {
            Err(AllocError)
        } else {
            Ok(())
        }
    }

    // Appends bytes, unless a growth was refused before.
    fn take(&mut self, bytes: &[u8])
        ensures { Puts (⟦<TextSink<'a> as Sink>⟧.standing self.old) (⟦<TextSink<'a> as Sink>⟧.standing self.new) bytes.now }
    {
        if !self.has_failed {
            self.has_failed = self.text.extend_from_slice(bytes).is_err();
        }
    }
}

impl Sink for TextSink<'_> {
    ghost standing = { λ s. record { written = Some s.text.now.items; gathered = []; failed = s.has_failed; remaining = None; reads = 0; lent = s.text.ghost_name ∷ [] } };

    ghost heeded = { true };

    fn put(&mut self, bytes: &[u8]) {
        self.take(bytes);
    }

    fn put_line(&mut self, before: &[u8], text: &[u8]) {
        self.take(before);
        self.take(text);
        self.take(b"\n");
    }

    fn listens(&self) -> bool {
        true
    }

    fn flush(&mut self) -> Result<(), Failed> {
        if self.has_failed { Err(Failed) } else { Ok(()) }
    }
}

/// The memory in which a run gathers what it writes: at most `WRITE_SIZE` bytes. It is taken when the run begins, and never
/// grows.
///
/// A contract sees it as the bytes that are gathered.
#[derive(Drop)]
pub struct Room {
    bytes: Vec<u8>,
}

impl Model for Room {
    ghost use Rattle.std.specs.Prelude.{◌≤◌, ℕ, List, length, vec_capacity};
    ghost use Rattle.mon_device.specs.declared.transfer.TheConstants.{WRITE_SIZE};

    ghost Value = { List ℕ };

    ghost view = { λ r. r.bytes.items };

    ghost invariant = { λ r. (length r.bytes.items ≤ WRITE_SIZE) × (WRITE_SIZE ≤ vec_capacity r.bytes) };
}

impl Room {
    /// Takes the memory. Nothing is gathered.
    ///
    /// # Errors
    ///
    /// Where it was refused.
    pub fn new(alloc: Global) -> Result<Room, AllocError>
        ensures { IfOk result (λ room. room ≡ []) }
    {
        Ok(Room {
            bytes: Vec::with_capacity(alloc, WRITE_SIZE)?,
        })
    }

    /// Forgets what is gathered.
    pub fn clear(&mut self)
        ensures { self.new ≡ [] }
    {
        self.bytes.clear();
    }

    // How many bytes more it can take.
    fn left(&self) -> usize
        ensures value { result ≡ WRITE_SIZE - length self.now }
        ensures within { length self.now ≤ WRITE_SIZE }
    {
        WRITE_SIZE - self.bytes.len()
    }

    // Gathers bytes for which there is room.
    fn keep(&mut self, bytes: &[u8])
        requires { length self.old + length bytes.now ≤ WRITE_SIZE }
        ensures { self.new ≡ self.old ++ bytes.now }
    {
        let Ok(()) = self.bytes.extend_from_slice(bytes) else {
            unreachable!();
        };
    }

    // Gathers a byte for which there is room.
    fn keep_byte(&mut self, byte: u8)
        requires { length self.old < WRITE_SIZE }
        ensures { self.new ≡ self.old ++ byte ∷ [] }
    {
        self.bytes.push_reserved(byte);
    }

    // Gathers what stands before the text of a line, which is mostly one blank.
    fn keep_before(&mut self, before: &[u8])
        requires { length self.old + length before.now ≤ WRITE_SIZE }
        ensures { self.new ≡ self.old ++ before.now }
    {
        match before {
            [byte] => self.keep_byte(*byte),
            _ => self.keep(before),
        }
    }

    // Gathers a line for which there is room.
    fn keep_line(&mut self, before: &[u8], text: &[u8])
        requires { length self.old + (length before.now + length text.now) < WRITE_SIZE }
        ensures { self.new ≡ self.old ++ (before.now ++ text.now ++ 10 ∷ []) }
    {
        self.keep_before(before);
        self.keep(text);
        self.keep_byte(b'\n');
    }

    // Writes what is gathered.
    fn write_to<D: DeckDevices>(&mut self, devices: &mut D) -> Result<(), Failed>
        requires sound { (D.read_failed devices.old ≡ false) × (D.write_failed devices.old ≡ false) }
        ensures settled { OnOk result (self.new ≡ []) }
        ensures all { OnOk result (D.written devices.new ≡ holding (D.written devices.old) self.old) }
        ensures taken { (left : List ℕ) × HasTaken (D.written devices.old) (D.written devices.new) self.old left }
        ensures failed { D.write_failed devices.new ≡ is_err result }
        ensures apart { (D.remaining devices.new ≡ D.remaining devices.old) × (D.reads devices.new ≡ D.reads devices.old) × (D.read_failed devices.new ≡ false) }
    {
        write_all(devices, &self.bytes)?;
        self.bytes.clear();
        Ok(())
    }
}

/// Devices to whose writer a printout is put: what is gathered is written where there is no room for more, and at the end.
#[derive(Drop)]
pub struct DeviceSink<'a, D: DeckDevices> {
    devices: &'a mut D,
    room: &'a mut Room,
    has_failed: bool,
    ghost sound: { (D.read_failed devices.now ≡ false) × (D.write_failed devices.now ≡ has_failed) },
}

impl<'a, D: DeckDevices> DeviceSink<'a, D> {
    /// Puts to the writer of these devices, behind what is gathered in the room.
    pub fn new(devices: &'a mut D, room: &'a mut Room) -> DeviceSink<'a, D>
        requires sound { (D.read_failed devices.old ≡ false) × (D.write_failed devices.old ≡ false) }
        ensures { ⟦<DeviceSink<'a, D> as Sink>⟧.standing result ≡ record { written = D.written devices.old; gathered = room.old; failed = false; remaining = D.remaining devices.old; reads = D.reads devices.old; lent = devices.entry.ghost_name ∷ room.entry.ghost_name ∷ [] } }
    {
        DeviceSink {
            devices,
            room,
            has_failed: false,
        }
    }

    /// Whether all went well so far. It writes nothing.
    ///
    /// # Errors
    ///
    /// `Failed` where the writer failed.
    pub fn outcome(&self) -> Result<(), Failed>
        ensures { (⟦<DeviceSink<'a, D> as Sink>⟧.standing self.now).failed ≡ is_err result }
    {
        if self.has_failed { Err(Failed) } else { Ok(()) }
    }

    /// Writes what is gathered.
    ///
    /// # Errors
    ///
    /// `Failed` where the writer failed, now or before.
    pub fn settle(&mut self) -> Result<(), Failed>
        ensures puts { Puts (⟦<DeviceSink<'a, D> as Sink>⟧.standing self.old) (⟦<DeviceSink<'a, D> as Sink>⟧.standing self.new) [] }
        ensures settled { OnOk result ((⟦<DeviceSink<'a, D> as Sink>⟧.standing self.new).gathered ≡ []) }
        ensures failed { (⟦<DeviceSink<'a, D> as Sink>⟧.standing self.new).failed ≡ is_err result }
    {
        if self.has_failed {
            return Err(Failed);
        }
        self.write_out()
    }

    // Writes what is gathered, where nothing has failed so far.
    fn write_out(&mut self) -> Result<(), Failed>
        requires { (⟦<DeviceSink<'a, D> as Sink>⟧.standing self.old).failed ≡ false }
        ensures puts { Puts (⟦<DeviceSink<'a, D> as Sink>⟧.standing self.old) (⟦<DeviceSink<'a, D> as Sink>⟧.standing self.new) [] }
        ensures settled { OnOk result ((⟦<DeviceSink<'a, D> as Sink>⟧.standing self.new).gathered ≡ []) }
        ensures failed { (⟦<DeviceSink<'a, D> as Sink>⟧.standing self.new).failed ≡ is_err result }
    {
        let written = self.room.write_to(self.devices);
        self.has_failed = written.is_err();
        written
    }

    // Writes a piece, where nothing is gathered.
    fn write_through(&mut self, bytes: &[u8])
        requires sound { (⟦<DeviceSink<'a, D> as Sink>⟧.standing self.old).failed ≡ false }
        requires settled { (⟦<DeviceSink<'a, D> as Sink>⟧.standing self.old).gathered ≡ [] }
        ensures { Puts (⟦<DeviceSink<'a, D> as Sink>⟧.standing self.old) (⟦<DeviceSink<'a, D> as Sink>⟧.standing self.new) bytes.now }
    {
        self.has_failed = write_all(self.devices, bytes).is_err();
    }

    // Takes a piece for which there is room.
    fn gather(&mut self, bytes: &[u8])
        requires sound { (⟦<DeviceSink<'a, D> as Sink>⟧.standing self.old).failed ≡ false }
        requires room { length (⟦<DeviceSink<'a, D> as Sink>⟧.standing self.old).gathered + length bytes.now ≤ WRITE_SIZE }
        ensures { Puts (⟦<DeviceSink<'a, D> as Sink>⟧.standing self.old) (⟦<DeviceSink<'a, D> as Sink>⟧.standing self.new) bytes.now }
    {
        self.room.keep(bytes);
    }

    // Takes a line for which there is room.
    fn gather_line(&mut self, before: &[u8], text: &[u8])
        requires sound { (⟦<DeviceSink<'a, D> as Sink>⟧.standing self.old).failed ≡ false }
        requires room { length (⟦<DeviceSink<'a, D> as Sink>⟧.standing self.old).gathered + (length before.now + length text.now) < WRITE_SIZE }
        ensures { Puts (⟦<DeviceSink<'a, D> as Sink>⟧.standing self.old) (⟦<DeviceSink<'a, D> as Sink>⟧.standing self.new) (before.now ++ text.now ++ 10 ∷ []) }
    {
        self.room.keep_line(before, text);
    }

    // Takes a piece behind all that is gathered, for which there is no room.
    fn make_room(&mut self, bytes: &[u8])
        requires sound { (⟦<DeviceSink<'a, D> as Sink>⟧.standing self.old).failed ≡ false }
        ensures { Puts (⟦<DeviceSink<'a, D> as Sink>⟧.standing self.old) (⟦<DeviceSink<'a, D> as Sink>⟧.standing self.new) bytes.now }
    {
        if self.write_out().is_err() {
            return;
        }
        if bytes.len() <= WRITE_SIZE {
            self.gather(bytes);
        } else {
            self.write_through(bytes);
        }
    }

    // Takes bytes, unless a write failed before.
    fn take(&mut self, bytes: &[u8])
        ensures { Puts (⟦<DeviceSink<'a, D> as Sink>⟧.standing self.old) (⟦<DeviceSink<'a, D> as Sink>⟧.standing self.new) bytes.now }
    {
        if self.has_failed {
            return;
        }
        let left = self.room.left();
        if bytes.len() <= left {
            self.gather(bytes);
        } else {
            self.make_room(bytes);
        }
    }

    // Takes a line in three pieces: there is no room for the whole of it, or nothing is taken any more.
    #[inline(never)]
    fn take_line(&mut self, before: &[u8], text: &[u8])
        ensures { Puts (⟦<DeviceSink<'a, D> as Sink>⟧.standing self.old) (⟦<DeviceSink<'a, D> as Sink>⟧.standing self.new) (before.now ++ text.now ++ 10 ∷ []) }
    {
        self.take(before);
        self.take(text);
        self.take(b"\n");
    }
}

impl<'a, D: DeckDevices> Sink for DeviceSink<'a, D> {
    ghost standing = { λ s. record { written = D.written s.devices.now; gathered = s.room.now; failed = s.has_failed; remaining = D.remaining s.devices.now; reads = D.reads s.devices.now; lent = s.devices.ghost_name ∷ s.room.ghost_name ∷ [] } };

    ghost heeded = { true };

    fn put(&mut self, bytes: &[u8]) {
        self.take(bytes);
    }

    fn put_line(&mut self, before: &[u8], text: &[u8]) {
        if !self.has_failed && before.len() + text.len() < self.room.left() {
            self.gather_line(before, text);
        } else {
            self.take_line(before, text);
        }
    }

    fn listens(&self) -> bool {
        true
    }

    fn flush(&mut self) -> Result<(), Failed> {
        self.settle()
    }
}
