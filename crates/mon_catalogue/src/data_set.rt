//! A data set and its records.
ghost use Rattle.std.specs.Prelude.{◌≡◌, ◌==◌, ◌<◌, ◌≤◌, ◌-◌, ◌^◌, [], ◌∷◌, ◌++◌, length, slice_get, slice_index_or, IfSome, IfOk, OnOk, OnErr, IsErrOf};
ghost use Rattle.std.specs.List.{AllByRecursion, flat_map};
ghost use Rattle.std.specs.Option.{option_map};
ghost use Rattle.mon_device.specs.Putting.{Puts};
ghost use Rattle.mon_text.specs.Lines.{IsLine};
ghost use Rattle.mon_text.specs.Stops.{refused_as};
ghost use Rattle.mon_text.specs.declared.stop.Stop.{Stop};
ghost use Rattle.mon_catalogue.specs.Records.{AreRecords};
ghost use Rattle.mon_catalogue.specs.Writing.{Put, Cut, Add, recorded, records_after, change_refusal};

use crate::mode::Mode;
use mon_acl::Acl;
use mon_device::Sink;
use mon_text::{Name, Stop};
use packed_lines::PackedLines;
use std::alloc::{AllocError, Global};
use std::marker::Model;
use thiserror::Error;

/// How many records a data set has at the most.
pub const MOST_RECORDS: u64 = 100_000;

/// How many characters a record has at the most.
pub const MOST_RECORD_CHARACTERS: usize = 1_024;

/// The records of a data set, in order: at most 100,000, each of at most 1,024 characters.
///
/// A contract sees them as a list. A record may be empty.
#[derive(Drop)]
pub struct Records {
    lines: PackedLines,
}

impl Model for Records {
    ghost use Rattle.std.specs.Prelude.{ℕ, List};
    ghost use Rattle.mon_catalogue.specs.Records.{AreRecords};

    ghost Value = { List (List ℕ) };

    ghost view = { λ r. r.lines };

    ghost invariant = { λ r. AreRecords r.lines };
}

/// A data set: who owns it, its group, how it may be written, its permission list and its records.
///
/// The owner and the group need not be known accounts.
#[derive(Drop)]
pub struct DataSet {
    pub owner: Name,
    pub group: Name,
    pub mode: Mode,
    pub acl: Acl,
    pub records: Records,
}

/// No record can be put there: 100,000 stand before the position.
#[derive(Clone, Copy, Debug, Error)]
#[error("K3 SET FULL")]
pub struct SetFull;

impl Records {
    /// No records.
    pub fn new(alloc: Global) -> Records
        ensures { result ≡ [] }
    {
        Records {
            lines: PackedLines::new(alloc),
        }
    }

    /// How many records there are.
    pub fn len(&self) -> u64
        ensures value { result ≡ length self.now }
        ensures within { AreRecords self.now }
    {
        self.lines.len() as u64
    }

    /// Whether there is no record.
    pub fn is_empty(&self) -> bool
        ensures { result ≡ (length self.now == 0) }
    {
        self.lines.is_empty()
    }

    /// The record at an index, from 0, where there is one.
    pub fn get(&self, index: u64) -> Option<&[u8]>
        ensures value { option_map (λ line. line.now) result ≡ slice_get self.now index }
        ensures within { IfSome result (λ line. index < 2 ^ 64 - 1) }
        ensures printable { IfSome result (λ line. IsLine line.now) }
    {
        self.lines.get(index as usize)
    }

    /// The record at an index, which there must be.
    pub fn at(&self, index: u64) -> &[u8]
        requires { index < length self.now }
        ensures value { result.now ≡ slice_index_or self.now index [] }
        ensures printable { IsLine result.now }
    {
        self.lines.at(index as usize)
    }

    /// Says of every record that it is a printable line. It looks at none of them.
    pub fn are_printable(&self)
        ensures { AllByRecursion IsLine self.now }
    {
        self.lines.are_printable();
    }

    /// Puts the records where they stand, each with these bytes before it and LF behind it. It takes no memory.
    pub fn print_lines<S: Sink>(&self, before: &[u8], sink: &mut S)
        ensures { Puts (S.standing sink.old) (S.standing sink.new) (flat_map (λ line. before.now ++ line ++ 10 ∷ []) self.now) }
    {
        self.lines.print(before, sink);
    }

    /// Adds a record at the end, for which there must be room.
    ///
    /// # Errors
    ///
    /// Where a growth was refused; the records are then unchanged.
    pub(crate) fn push(&mut self, line: &[u8]) -> Result<(), AllocError>
        requires short { length line.now ≤ MOST_RECORD_CHARACTERS }
        requires room { length self.old < MOST_RECORDS }
        requires printable { IsLine line.now }
        ensures added { OnOk result (self.new ≡ self.old ++ line.now ∷ []) }
        ensures unchanged { OnErr result (self.new ≡ self.old) }
    {
        self.lines.push(line)?;
        Ok(())
    }

    // Puts a line at a position, and cuts off what stands behind it.
    fn put_at(&mut self, position: u64, line: &[u8]) -> Result<(), Stop<SetFull>>
        requires short { length line.now ≤ MOST_RECORD_CHARACTERS }
        requires printable { IsLine line.now }
        ensures put { OnOk result (self.new ≡ records_after (Put position line.now) self.old) }
        ensures refused { refused_as result ≡ change_refusal (Put position line.now) self.old }
        ensures unchanged { OnErr result (self.new ≡ self.old) }
        ensures memory { IsErrOf result Stop.Memory → length self.old ≤ position }
    {
        if position < self.len() {
            self.lines.put_at(position as usize, line);
            return Ok(());
        }
        if self.len() >= MOST_RECORDS {
            return Err(Stop::Refused(SetFull));
        }
        self.push(line)?;
        Ok(())
    }

    // Puts a line last.
    fn add(&mut self, line: &[u8]) -> Result<(), Stop<SetFull>>
        requires short { length line.now ≤ MOST_RECORD_CHARACTERS }
        requires printable { IsLine line.now }
        ensures added { OnOk result (self.new ≡ records_after (Add line.now) self.old) }
        ensures refused { refused_as result ≡ change_refusal (Add line.now) self.old }
        ensures unchanged { OnErr result (self.new ≡ self.old) }
    {
        if self.len() >= MOST_RECORDS {
            return Err(Stop::Refused(SetFull));
        }
        self.push(line)?;
        Ok(())
    }

    // Cuts off what stands at a position and behind it.
    fn cut_at(&mut self, position: u64)
        ensures { self.new ≡ records_after (Cut position) self.old }
    {
        if position < self.len() {
            self.lines.truncate(position as usize);
        }
    }

    /// The same records once more.
    ///
    /// # Errors
    ///
    /// Where a growth was refused.
    pub fn copy(&self, alloc: Global) -> Result<Records, AllocError>
        ensures { IfOk result (λ copy. copy ≡ self.now) }
    {
        Ok(Records {
            lines: self.lines.copy(alloc)?,
        })
    }
}

impl DataSet {
    /// The record at an index, from 0, where there is one.
    pub fn record_at(&self, index: u64) -> Option<&[u8]>
        ensures value { option_map (λ line. line.now) result ≡ slice_get self.now.records index }
        ensures printable { IfSome result (λ line. IsLine line.now) }
    {
        self.records.get(index)
    }

    /// Puts a record of at most 1,024 printable characters at a position, counted from 0, or at the end where fewer stand
    /// before it. What stood there and behind it is gone. Memory is taken at the end alone.
    ///
    /// # Errors
    ///
    /// `SetFull` where 100,000 records stand before the position, whatever memory there is; `Memory` where a growth was
    /// refused. The set is then unchanged.
    pub fn put_at(&mut self, position: u64, line: &[u8]) -> Result<(), Stop<SetFull>>
        requires short { length line.now ≤ MOST_RECORD_CHARACTERS }
        requires printable { IsLine line.now }
        ensures put { OnOk result (self.new ≡ recorded (Put position line.now) self.old) }
        ensures refused { refused_as result ≡ change_refusal (Put position line.now) self.old.records }
        ensures unchanged { OnErr result (self.new ≡ self.old) }
        ensures memory { IsErrOf result Stop.Memory → length self.old.records ≤ position }
    {
        self.records.put_at(position, line)
    }

    /// Puts a record of at most 1,024 printable characters behind all others.
    ///
    /// # Errors
    ///
    /// `SetFull` where there are 100,000 records, whatever memory there is; `Memory` where a growth was refused. The set is
    /// then unchanged.
    pub fn append(&mut self, line: &[u8]) -> Result<(), Stop<SetFull>>
        requires short { length line.now ≤ MOST_RECORD_CHARACTERS }
        requires printable { IsLine line.now }
        ensures added { OnOk result (self.new ≡ recorded (Add line.now) self.old) }
        ensures refused { refused_as result ≡ change_refusal (Add line.now) self.old.records }
        ensures unchanged { OnErr result (self.new ≡ self.old) }
    {
        self.records.add(line)
    }

    /// Cuts off the records at a position, counted from 0, and behind it. It takes no memory.
    pub fn cut_at(&mut self, position: u64)
        ensures { self.new ≡ recorded (Cut position) self.old }
    {
        self.records.cut_at(position);
    }

    /// The same set once more.
    ///
    /// # Errors
    ///
    /// Where a growth was refused.
    pub fn copy(&self, alloc: Global) -> Result<DataSet, AllocError>
        ensures { IfOk result (λ copy. copy ≡ self.now) }
    {
        let acl = self.acl.copy(alloc)?;
        let records = self.records.copy(alloc)?;
        Ok(DataSet {
            owner: self.owner.copy(),
            group: self.group.copy(),
            mode: self.mode,
            acl,
            records,
        })
    }
}
