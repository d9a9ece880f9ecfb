//! What a run sees of boxes and of what was claimed of them.
ghost use Rattle.std.specs.Prelude.{◌≡◌, ◌++◌, [], ◌∷◌, List, option_map, IfOk};
ghost use Rattle.ledger_boxes.specs.Sights.{Sight, Met, Looked, Held, seen_entry};

use crate::look::{Entry, Look};
use ledger_disk::DiskError;

/// The boxes of a site, by their places in the account table, and what was claimed, by its numbers. Nothing is changed by a look.
pub trait Boxes {
    /// What was seen, the first of it first.
    ghost seen: { Self → List Sight };

    /// The next name in a box, behind those that were given since it was opened; none behind the last.
    ///
    /// # Errors
    ///
    /// Where a growth was refused, or the box can't be read.
    fn next_entry(&mut self, place: usize) -> Result<Option<Entry>, DiskError>
        ensures { IfOk result (λ found. seen self.new ≡ seen self.old ++ Met place (option_map seen_entry found) ∷ []) };

    /// What stands under a number among what was claimed; a link is not followed.
    ///
    /// # Errors
    ///
    /// Where the system can't say it.
    fn look(&mut self, number: u64) -> Result<Option<Look>, DiskError>
        ensures { IfOk result (λ found. seen self.new ≡ seen self.old ++ Looked number found ∷ []) };

    /// The bytes of a claimed file, of a longer one so many and one more; none where it may not be read, or another stands there by now.
    ///
    /// # Errors
    ///
    /// Where a growth was refused, or the file can't be read.
    fn bytes(&mut self, number: u64, most: u64) -> Result<Option<Vec<u8>>, DiskError>
        ensures { IfOk result (λ found. seen self.new ≡ seen self.old ++ Held number (option_map (λ bytes. bytes.items) found) ∷ []) };
}
