//! How answers are put: call by call.
ghost use Rattle.std.specs.Prelude.{[], ◌∷◌, map, OnOk};
ghost use Rattle.ledger_disk.specs.Disks.{Write, SyncFile, Rename};
ghost use Rattle.ledger_disk.specs.declared.name.Name.TheVariants.{Answer, Unfinished};
ghost use Rattle.ledger_disk.specs.Plans.{Did, Began};
ghost use Rattle.ledger_laws.specs.Answers.{deliver_calls};
ghost use Rattle.ledger_run.specs.Moments.{AnswersEach};
ghost use Rattle.ledger_run.specs.Owing.{owed_as};

use crate::Sender;
use ledger_disk::{Disk, DiskError, Folder, Name};

/// An answer that is to be put.
#[derive(Drop)]
pub struct Owed {
    /// The number of the text that it answers.
    pub number: u64,
    /// The answer.
    pub bytes: Vec<u8>,
    /// Whose the text was.
    pub sender: Sender,
}

// Puts an answer whole: its name is brought to the disk later.
fn put_answer<D: Disk>(disk: &mut D, number: u64, bytes: &[u8]) -> Result<(), DiskError>
    ensures did { OnOk result (Did D.calls (Write Unfinished bytes.now ∷ SyncFile Unfinished ∷ Rename Unfinished (Answer number) ∷ []) disk.old disk.new) }
    ensures began { Began D.calls (Write Unfinished bytes.now ∷ SyncFile Unfinished ∷ Rename Unfinished (Answer number) ∷ []) disk.old disk.new }
{
    disk.write(Name::Unfinished, bytes)?;
    disk.sync_file(Name::Unfinished)?;
    disk.rename(Name::Unfinished, Name::Answer(number))
}

// Puts these answers whole, and brings their names to the disk.
pub(crate) fn put_answers<D: Disk>(disk: &mut D, owed: &[Owed]) -> Result<(), DiskError>
    ensures did { OnOk result (Did D.calls (deliver_calls (map owed_as owed.now)) disk.old disk.new) }
    ensures began { Began D.calls (deliver_calls (map owed_as owed.now)) disk.old disk.new }
{
    for answer in owed {
        put_answer(disk, answer.number, &answer.bytes)?;
    }
    disk.sync_folder(Folder::Out)
}

/// Puts these answers whole. A crash at any moment leaves each absent, or as the ledger has it.
///
/// # Errors
///
/// Where the disk failed; they may be put again.
pub fn deliver<D: Disk>(disk: &mut D, owed: &[Owed]) -> Result<(), DiskError>
    ensures did { OnOk result (Did D.calls (deliver_calls (map owed_as owed.now)) disk.old disk.new) }
    ensures any_moment { AnswersEach D.calls (map owed_as owed.now) disk.old disk.new }
{
    put_answers(disk, owed)
}
