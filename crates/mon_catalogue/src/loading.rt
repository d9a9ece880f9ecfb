//! Reading a catalogue's text.
ghost use Rattle.std.specs.Prelude.{◌≡◌, ◌<◌, ◌≤◌, ◌+◌, ◌^◌, [], length, true, false, Some, Ok, Err, IfOk, OnOk, OnErr, IsErrOf, IsTrue};
ghost use Rattle.mon_text.specs.Lines.{IsLine, is_blank_line};
ghost use Rattle.mon_text.specs.declared.stop.Stop.{Stop};
ghost use Rattle.acl_text.specs.Reading.{read_short};
ghost use Rattle.mon_catalogue.specs.declared.loading.CatalogueError.{CatalogueError};
ghost use Rattle.mon_catalogue.specs.Head.{head_refusal};
ghost use Rattle.mon_catalogue.specs.Progress.{Answers, SetDue, stopped, MayGrow, ListGrows, step, finished, is_due, lines_taken, with_due, after_set_due, after_acl, ListDue, Refused};
ghost use Rattle.mon_catalogue.specs.inner.Parts.{after_record};
ghost use Rattle.mon_catalogue.specs.Reading.{catalogue_of, catalogue_refusal, Gives};
ghost use Rattle.mon_catalogue.specs.Records.{is_record};
ghost use Rattle.mon_catalogue.specs.Sets.{Sets};
ghost use Rattle.mon_catalogue.specs.Spelling.{IsCatalogueText};
ghost use Rattle.mon_catalogue.specs.inner.Stages.{Reaches, Arrives, Pushes, IsSound, IsAwaited, progress_of};
ghost use Rattle.std.specs.Option.{option_map_or};

use crate::catalogue::{Catalogue, MOST_SETS};
use crate::data_set::{DataSet, MOST_RECORD_CHARACTERS, MOST_RECORDS, Records};
use crate::head::{Head, read_head};
use crate::version::Version;
use acl_text::parse_short;
use mon_text::{Line, Name, Stop};
use std::alloc::Global;
use std::marker::Model;
use std::mem;
use thiserror::Error;

/// Why a text is no catalogue. The number is that of the line within the text, from 1.
#[derive(Clone, Copy, Debug, Error)]
pub enum CatalogueError {
    /// A set before has this name.
    #[error("K1 NAME TAKEN")]
    NameTaken(u64),
    /// The set would have more than 100,000 records.
    #[error("K3 SET FULL")]
    SetFull(u64),
    /// There are 1,000 sets before.
    #[error("K4 CATALOGUE FULL")]
    CatalogueFull(u64),
    /// The line is not what must stand there, or the text ends within a set.
    #[error("K5 BAD TEXT")]
    BadText(u64),
}

// What is due next.
#[derive(Drop)]
pub(crate) enum Stage {
    SetDue,
    ListDue(Head),
    RecordsDue(Name, DataSet, u64),
    Stopped(Stop<CatalogueError>),
}

/// A catalogue's text on its way in, line by line.
///
/// A contract sees how far it has come: what the lines spell so far and what is due next, or why the text is refused.
#[derive(Drop)]
pub struct Loading {
    version: Version,
    catalogue: Catalogue,
    lines_taken: u64,
    stage: Stage,
}

impl Model for Loading {
    ghost use Rattle.std.specs.Prelude.{◌≤◌, ◌^◌};
    ghost use Rattle.mon_catalogue.specs.Progress.{Progress};
    ghost use Rattle.mon_catalogue.specs.inner.Stages.{progress_of, IsSound};

    ghost Value = { Progress };

    ghost view = { λ l. progress_of l.version l.lines_taken l.catalogue l.stage };

    ghost invariant = { λ l. (l.lines_taken ≤ 2 ^ 63) × IsSound l.catalogue l.stage };
}

impl Loading {
    /// A loading of a text of this version that has taken no line.
    pub fn new(alloc: Global, version: Version) -> Loading
        ensures { result ≡ SetDue version 0 [] }
    {
        Loading {
            version,
            catalogue: Catalogue::new(alloc),
            lines_taken: 0,
            stage: Stage::SetDue,
        }
    }

    /// Whether a `$SET` line is due: nothing was refused, and each set so far is whole.
    pub fn due(&self) -> bool
        ensures { result ≡ is_due self.now }
    {
        matches!(&self.stage, Stage::SetDue)
    }

    /// Takes the next line. Blank lines where a `$SET` line is due are skipped.
    ///
    /// There must be fewer than 2^63 lines.
    ///
    /// # Errors
    ///
    /// `BadText` where the line is not what is due; for a `$SET` line then `SetFull`, `NameTaken` and `CatalogueFull`, in this order;
    /// `Memory` where a growth was refused. After an error each further call answers the same error.
    pub fn line(&mut self, line: Line) -> Result<(), Stop<CatalogueError>>
        requires { lines_taken self.old < 2 ^ 63 }
        ensures step { Answers result self.new (step self.old line) }
        ensures again { (stop : Stop CatalogueError) → stopped self.old ≡ Some stop → (result ≡ Err stop) × (self.new ≡ self.old) }
        ensures memory { IsErrOf result Stop.Memory → MayGrow self.old line }
        ensures counted { lines_taken self.new ≤ lines_taken self.old + 1 }
    {
        self.take(line.as_bytes())
    }

    /// Takes the next line, given as its characters.
    ///
    /// # Errors
    ///
    /// As `line`.
    pub fn take(&mut self, line: &[u8]) -> Result<(), Stop<CatalogueError>>
        requires few { lines_taken self.old < 2 ^ 63 }
        requires printable { IsLine line.now }
        ensures step { Answers result self.new (step self.old line.now) }
        ensures again { (stop : Stop CatalogueError) → stopped self.old ≡ Some stop → (result ≡ Err stop) × (self.new ≡ self.old) }
        ensures memory { IsErrOf result Stop.Memory → MayGrow self.old line.now }
        ensures counted { lines_taken self.new ≤ lines_taken self.old + 1 }
    {
        if let Stage::Stopped(stop) = &self.stage {
            return Err(*stop);
        }
        let answer = advance(
            self.version,
            &mut self.catalogue,
            &mut self.stage,
            self.lines_taken,
            line,
        );
        self.lines_taken += 1;
        answer
    }

    /// Whether more than one record is due.
    #[inline(always)]
    pub fn awaits_records(&self) -> bool
        ensures { result ≡ true → is_due self.now ≡ false }
    {
        match &self.stage {
            Stage::RecordsDue(_, _, left) => *left > 1,
            _ => false,
        }
    }

    /// Takes the next line where it is a record of a set that is not whole by it, and there is memory for it: whether so it is.
    /// Otherwise nothing has changed.
    pub fn take_record(&mut self, line: &[u8]) -> bool
        requires few { lines_taken self.old < 2 ^ 63 }
        requires printable { IsLine line.now }
        ensures step { result ≡ true → (is_due self.old ≡ false) × (self.new ≡ step self.old line.now) × (stopped self.new ≡ None) }
        ensures unchanged { result ≡ false → self.new ≡ self.old }
        ensures counted { lines_taken self.new ≤ lines_taken self.old + 1 }
    {
        match &mut self.stage {
            Stage::RecordsDue(_, set, left) if *left > 1 => {
                if push_record(set, left, self.lines_taken + 1, line).is_err() {
                    return false;
                }
                self.lines_taken += 1;
                true
            }
            _ => false,
        }
    }

    /// The catalogue that the lines spell.
    ///
    /// # Errors
    ///
    /// The error that `line` answered, if any, else `BadText` at the line after the last where a set is not whole.
    pub fn finish(self) -> Result<Catalogue, Stop<CatalogueError>>
        ensures { result ≡ finished self }
    {
        let Loading {
            version: _,
            catalogue,
            lines_taken,
            stage,
        } = self;
        match stage {
            Stage::SetDue => Ok(catalogue),
            Stage::ListDue(_) | Stage::RecordsDue(..) => Err(Stop::Refused(CatalogueError::BadText(
                lines_taken + 1,
            ))),
            Stage::Stopped(stop) => Err(stop),
        }
    }
}

// Goes on by one more line. Where that is an error, the stage is that error from then on.
fn advance(
    version: Version,
    catalogue: &mut Catalogue,
    stage: &mut Stage,
    lines_taken: u64,
    line: &[u8],
) -> Result<(), Stop<CatalogueError>>
    requires few { lines_taken < 2 ^ 63 }
    requires sound { IsSound catalogue.old stage.old }
    requires printable { IsLine line.now }
    ensures step { Answers result (progress_of version (lines_taken + 1) catalogue.new stage.new) (step (progress_of version lines_taken catalogue.old stage.old) line.now) }
    ensures sound { IsSound catalogue.new stage.new }
    ensures memory { IsErrOf result Stop.Memory → MayGrow (progress_of version lines_taken catalogue.old stage.old) line.now }
{
    let answer = match stage {
        Stage::RecordsDue(_, set, left) if *left > 1 => push_record(
            set,
            left,
            lines_taken + 1,
            line,
        ),
        _ => turn(version, catalogue, stage, lines_taken, line),
    };
    if let Err(stop) = answer {
        *stage = Stage::Stopped(stop);
    }
    answer
}

// One more record of a set that is not whole by it. The set stays where it is, since most lines of a text are records.
fn push_record(
    set: &mut DataSet,
    left: &mut u64,
    number: u64,
    line: &[u8],
) -> Result<(), Stop<CatalogueError>>
    requires more { 1 < left.old }
    requires room { length set.old.records + left.old ≤ MOST_RECORDS }
    requires printable { IsLine line.now }
    ensures pushed { Pushes number set.old left.old line.now set.new left.new result }
    ensures unchanged { OnErr result ((set.new ≡ set.old) × (left.new ≡ left.old)) }
{
    if !is_record(line) {
        return Err(Stop::Refused(CatalogueError::BadText(number)));
    }
    match set.records.push(line) {
        Ok(()) => {
            *left -= 1;
            Ok(())
        }
        Err(_) => Err(Stop::Memory),
    }
}

// Whether a line can be a record.
#[inline(always)]
fn is_record(line: &[u8]) -> bool
    ensures value { result ≡ is_record line.now }
    ensures short { result ≡ true → length line.now ≤ MOST_RECORD_CHARACTERS }
{
    line.len() <= MOST_RECORD_CHARACTERS
}

// Goes on to what is due after one more line. It stays a call, so that a record is put without its room.
#[inline(never)]
fn turn(
    version: Version,
    catalogue: &mut Catalogue,
    stage: &mut Stage,
    lines_taken: u64,
    line: &[u8],
) -> Result<(), Stop<CatalogueError>>
    requires few { lines_taken < 2 ^ 63 }
    requires sound { IsSound catalogue.old stage.old }
    requires printable { IsLine line.now }
    ensures step { Arrives version (lines_taken + 1) catalogue.new stage.new (MayGrow (progress_of version lines_taken catalogue.old stage.old) line.now) result (step (progress_of version lines_taken catalogue.old stage.old) line.now) }
    ensures sound { OnOk result (IsSound catalogue.new stage.new) }
{
    let due = mem::replace(stage, Stage::SetDue);
    *stage = after(version, catalogue, lines_taken, due, line)?;
    Ok(())
}

// What is due after one more line.
fn after(
    version: Version,
    catalogue: &mut Catalogue,
    lines_taken: u64,
    stage: Stage,
    line: &[u8],
) -> Result<Stage, Stop<CatalogueError>>
    requires few { lines_taken < 2 ^ 63 }
    requires sound { IsSound catalogue.old stage }
    requires printable { IsLine line.now }
    ensures step { Reaches version (lines_taken + 1) catalogue.new (MayGrow (progress_of version lines_taken catalogue.old stage) line.now) result (step (progress_of version lines_taken catalogue.old stage) line.now) }
    ensures sound { IfOk result (IsSound catalogue.new) }
{
    let number = lines_taken + 1;
    match stage {
        Stage::SetDue => after_set_due(version, catalogue, number, line),
        Stage::ListDue(head) => after_list(version, catalogue, number, head, line),
        Stage::RecordsDue(name, set, left) => after_record(
            version, catalogue, number, name, set, left, line,
        ),
        Stage::Stopped(stop) => Err(stop),
    }
}

fn is_blank(text: &[u8]) -> bool
    ensures { result ≡ is_blank_line text.now }
{
    text.iter().all(|byte| *byte == b' ')
}

fn after_set_due(
    version: Version,
    catalogue: &Catalogue,
    number: u64,
    line: &[u8],
) -> Result<Stage, Stop<CatalogueError>>
    requires { IsLine line.now }
    ensures step { Reaches version number catalogue.now (is_blank_line line.now ≡ false) result (after_set_due version number catalogue.now line.now) }
    ensures sound { IfOk result (IsSound catalogue.now) }
{
    if is_blank(line) {
        return Ok(Stage::SetDue);
    }
    match read_head(catalogue.allocator(), version, line) {
        Err(_) => Err(Stop::Memory),
        Ok(None) => Err(Stop::Refused(CatalogueError::BadText(number))),
        Ok(Some(head)) => after_head(version, catalogue, number, head),
    }
}

fn after_head(
    version: Version,
    catalogue: &Catalogue,
    number: u64,
    head: Head,
) -> Result<Stage, Stop<CatalogueError>>
    ensures step { Reaches version number catalogue.now ⊥ result (option_map_or Refused (head_refusal number catalogue.now head) (ListDue version number catalogue.now head)) }
    ensures sound { IfOk result (IsSound catalogue.now) }
{
    if head.count > MOST_RECORDS {
        return Err(Stop::Refused(CatalogueError::SetFull(number)));
    }
    if catalogue.find(&head.name).is_some() {
        return Err(Stop::Refused(CatalogueError::NameTaken(number)));
    }
    if catalogue.len() >= MOST_SETS {
        return Err(Stop::Refused(CatalogueError::CatalogueFull(number)));
    }
    Ok(Stage::ListDue(head))
}

fn after_list(
    version: Version,
    catalogue: &mut Catalogue,
    number: u64,
    head: Head,
    line: &[u8],
) -> Result<Stage, Stop<CatalogueError>>
    requires sound { IsAwaited catalogue.old head.name head.count }
    ensures step { Reaches version number catalogue.new (ListGrows head line.now) result (after_acl version number catalogue.old head (read_short line.now)) }
    ensures sound { IfOk result (IsSound catalogue.new) }
{
    match parse_short(catalogue.allocator(), line) {
        Ok(acl) => {
            let records = Records::new(catalogue.allocator());
            let set = DataSet {
                owner: head.owner,
                group: head.group,
                mode: head.mode,
                acl,
                records,
            };
            with_due(version, catalogue, number, head.name, set, head.count)
        }
        Err(Stop::Refused(_)) => Err(Stop::Refused(CatalogueError::BadText(number))),
        Err(Stop::Memory) => Err(Stop::Memory),
    }
}

fn after_record(
    version: Version,
    catalogue: &mut Catalogue,
    number: u64,
    name: Name,
    mut set: DataSet,
    left: u64,
    line: &[u8],
) -> Result<Stage, Stop<CatalogueError>>
    requires sound { IsSound catalogue.old (Stage.RecordsDue name set left) }
    requires printable { IsLine line.now }
    ensures step { Reaches version number catalogue.new (IsTrue (is_record line.now)) result (after_record version number catalogue.old name set left line.now) }
    ensures sound { IfOk result (IsSound catalogue.new) }
{
    if !is_record(line) {
        return Err(Stop::Refused(CatalogueError::BadText(number)));
    }
    match set.records.push(line) {
        Ok(()) => with_due(version, catalogue, number, name, set, left - 1),
        Err(_) => Err(Stop::Memory),
    }
}

// The set has so many more records to come.
fn with_due(
    version: Version,
    catalogue: &mut Catalogue,
    number: u64,
    name: Name,
    set: DataSet,
    left: u64,
) -> Result<Stage, Stop<CatalogueError>>
    requires sound { IsAwaited catalogue.old name (length set.records + left) }
    ensures step { Reaches version number catalogue.new (left ≡ 0) result (with_due version number catalogue.old name set left) }
    ensures sound { IfOk result (IsSound catalogue.new) }
{
    if left > 0 {
        return Ok(Stage::RecordsDue(name, set, left));
    }
    match catalogue.add(name, set) {
        Ok(()) => Ok(Stage::SetDue),
        Err(_) => Err(Stop::Memory),
    }
}

/// Reads a catalogue's text of this version, given as its lines.
///
/// # Errors
///
/// As `Loading::line` at the first line that is refused, else as `Loading::finish`.
pub fn read_text(
    alloc: Global,
    version: Version,
    lines: &[Line],
) -> Result<Catalogue, Stop<CatalogueError>>
    requires { length lines.now < 2 ^ 63 }
    ensures spelled { IfOk result (λ catalogue. IsCatalogueText version lines.now catalogue) }
    ensures only { (sets : Sets) → IsCatalogueText version lines.now sets → Gives result (Ok sets) }
    ensures refused { (refusal : CatalogueError) → IsErrOf result (Stop.Refused refusal) → catalogue_refusal version lines.now ≡ Some refusal }
    ensures computed { Gives result (catalogue_of version lines.now) }
{
    let mut loading = Loading::new(alloc, version);
    for line in lines {
        match line.copy(alloc) {
            Ok(line) => loading.line(line)?,
            Err(_) => return Err(Stop::Memory),
        }
    }
    loading.finish()
}
