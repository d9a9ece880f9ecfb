//! What a deck is read from and an output is written to.
ghost use Rattle.std.specs.Prelude.{◌≡◌, ◌≤◌, ◌<◌, ◌||◌, ℕ, List, [], Option, Bool, false, length, take, is_err, IfOk, OnErr};
ghost use Rattle.mon_device.specs.Devices.{Gives, IsAtEnd, one_more, holding};

use thiserror::Error;

/// A call of a reader or a writer that failed, for whatever reason.
#[derive(Clone, Copy, Debug, PartialEq, Eq, Error)]
#[error("the device failed")]
pub struct Failed;

/// What a deck is read from.
pub trait DeckReader {
    // The bytes that are still to come, where the reader tells them.
    ghost remaining: { Self → Option (List ℕ) };

    // Whether a call has failed.
    ghost has_failed: { Self → Bool };

    // How many reads were made.
    ghost reads: { Self → ℕ };

    /// Reads bytes into the front of the buffer, and answers how many: 0 at the end alone.
    ///
    /// # Errors
    ///
    /// `Failed` where the device failed; no byte is lost then.
    fn read(&mut self, buffer: &mut [u8]) -> Result<usize, Failed>
        requires { 0 < length buffer.old }
        ensures within { IfOk result (λ count. count ≤ length buffer.new) }
        ensures given { IfOk result (λ count. Gives (remaining self.old) (take count buffer.new) (remaining self.new)) }
        ensures end { IfOk result (λ count. count ≡ 0 → IsAtEnd (remaining self.new)) }
        ensures err { OnErr result (remaining self.new ≡ remaining self.old) }
        ensures failed { has_failed self.new ≡ (has_failed self.old || is_err result) }
        ensures counted { reads self.new ≡ one_more (reads self.old) };
}

/// What an output is written to.
pub trait DeckWriter {
    // The bytes that it holds, where the writer tells them.
    ghost written: { Self → Option (List ℕ) };

    // Whether a call has failed.
    ghost has_failed: { Self → Bool };

    /// Takes bytes from the front of the piece, and answers how many: at least one.
    ///
    /// # Errors
    ///
    /// `Failed` where the device failed, and took nothing of this piece.
    fn write(&mut self, piece: &[u8]) -> Result<usize, Failed>
        requires { 0 < length piece.now }
        ensures some { IfOk result (λ count. 0 < count) }
        ensures within { IfOk result (λ count. count ≤ length piece.now) }
        ensures taken { IfOk result (λ count. written self.new ≡ holding (written self.old) (take count piece.now)) }
        ensures err { OnErr result (written self.new ≡ written self.old) }
        ensures failed { has_failed self.new ≡ (has_failed self.old || is_err result) };
}

/// What a deck is read from and what its output is written to, as a run uses them: once a call of either has failed, none may
/// follow. So what stands written after a read that failed was written before that read.
pub trait DeckDevices {
    // The bytes that are still to come, where they are told.
    ghost remaining: { Self → Option (List ℕ) };

    // The bytes that were written, where they are told.
    ghost written: { Self → Option (List ℕ) };

    // How many reads were made.
    ghost reads: { Self → ℕ };

    // Whether a read has failed.
    ghost read_failed: { Self → Bool };

    // Whether a write has failed.
    ghost write_failed: { Self → Bool };

    /// Reads bytes into the front of the buffer, and answers how many: 0 at the end alone.
    ///
    /// # Errors
    ///
    /// `Failed` where the reader failed; no byte is lost then.
    fn read(&mut self, buffer: &mut [u8]) -> Result<usize, Failed>
        requires room { 0 < length buffer.old }
        requires sound { (read_failed self.old ≡ false) × (write_failed self.old ≡ false) }
        ensures within { IfOk result (λ count. count ≤ length buffer.new) }
        ensures given { IfOk result (λ count. Gives (remaining self.old) (take count buffer.new) (remaining self.new)) }
        ensures end { IfOk result (λ count. count ≡ 0 → IsAtEnd (remaining self.new)) }
        ensures err { OnErr result (remaining self.new ≡ remaining self.old) }
        ensures failed { read_failed self.new ≡ is_err result }
        ensures counted { reads self.new ≡ one_more (reads self.old) }
        ensures apart { (written self.new ≡ written self.old) × (write_failed self.new ≡ false) };

    /// Takes bytes from the front of the piece, and answers how many: at least one.
    ///
    /// # Errors
    ///
    /// `Failed` where the writer failed, and took nothing of this piece.
    fn write(&mut self, piece: &[u8]) -> Result<usize, Failed>
        requires some { 0 < length piece.now }
        requires sound { (read_failed self.old ≡ false) × (write_failed self.old ≡ false) }
        ensures some { IfOk result (λ count. 0 < count) }
        ensures within { IfOk result (λ count. count ≤ length piece.now) }
        ensures taken { IfOk result (λ count. written self.new ≡ holding (written self.old) (take count piece.now)) }
        ensures err { OnErr result (written self.new ≡ written self.old) }
        ensures failed { write_failed self.new ≡ is_err result }
        ensures apart { (remaining self.new ≡ remaining self.old) × (reads self.new ≡ reads self.old) × (read_failed self.new ≡ false) };
}
