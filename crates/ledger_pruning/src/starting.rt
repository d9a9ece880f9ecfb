//! From which checkpoint the state behind some commit can be told.
ghost use Rattle.std.specs.Prelude.{◌≡◌};
ghost use Rattle.ledger_pruning.specs.Starting.{serves, greater, start_for};

// Whether all commits behind this checkpoint up to that one stand, where those from this number on stand.
fn serves(first: u64, at: u64, checkpoint: u64) -> bool
    ensures { result ≡ serves first at checkpoint }
{
    first <= checkpoint && checkpoint <= at
}

fn greater(best: Option<u64>, checkpoint: u64) -> Option<u64>
    ensures { result ≡ greater best checkpoint }
{
    match best {
        Some(number) if checkpoint < number => Some(number),
        _ => Some(checkpoint),
    }
}

/// The last of these checkpoints that stands before so many commits, or behind them all, where the commits from the first number on stand.
/// None where what was behind so many commits is not kept. The state of no commit is a checkpoint, too: that behind 0.
pub fn start_for(checkpoints: &[u64], first: u64, at: u64) -> Option<u64>
    ensures { result ≡ start_for first at checkpoints.now }
{
    let mut best = None;
    for checkpoint in checkpoints {
        if serves(first, at, *checkpoint) {
            best = greater(best, *checkpoint);
        }
    }
    best
}
