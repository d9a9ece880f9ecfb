//! Each law is the contract of a function that does nothing.
ghost use Rattle.job_numbers.specs.Laws.{NumbersAreTold, TextsAreNumbered};
ghost use Rattle.job_numbers.specs.Alone.{PartsRunAlone};

/// Whatever numbers jobs have, the same happens: the printouts, and all entries of the history, are the same but for these numbers,
/// and the same data sets are left.
pub fn numbers_are_told()
    ensures { NumbersAreTold }
{}

/// A text of a round has behind so many jobs the events that it has by itself, with each job's number so much larger.
pub fn texts_are_numbered()
    ensures { TextsAreNumbered }
{}

/// The deck of a part, run by itself with jobs that it numbers from 1, writes what is told of the part in the round, but for the
/// numbers of jobs: of each text by so much less as jobs stand before it in the round and not in the part.
pub fn parts_run_alone()
    ensures { PartsRunAlone }
{
    rounds::laws::each_its_part();
}
