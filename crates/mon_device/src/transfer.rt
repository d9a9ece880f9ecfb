//! How a deck is read, and all bytes to a writer.
ghost use Rattle.std.specs.Prelude.{◌≡◌, ℕ, List, false, OnOk, is_err};
ghost use Rattle.mon_device.specs.Devices.{HasTaken, holding};

use crate::device::{DeckDevices, Failed};

/// How many bytes one read asks for.
pub const READ_SIZE: usize = 65_536;

/// How many bytes of output are gathered at the most before they are written.
pub const WRITE_SIZE: usize = 65_536;

/// How many reads a run makes at the most.
pub const MOST_READS: u64 = 4_294_967_295;

/// Writes all the bytes.
///
/// # Errors
///
/// `Failed` where the writer failed; it has taken bytes from the front then, or none.
#[tactic(auto, using(crate::proofs::Holding::holds))]
pub fn write_all<D: DeckDevices>(devices: &mut D, bytes: &[u8]) -> Result<(), Failed>
    requires sound { (D.read_failed devices.old ≡ false) × (D.write_failed devices.old ≡ false) }
    ensures all { OnOk result (D.written devices.new ≡ holding (D.written devices.old) bytes.now) }
    ensures taken { (left : List ℕ) × HasTaken (D.written devices.old) (D.written devices.new) bytes.now left }
    ensures failed { D.write_failed devices.new ≡ is_err result }
    ensures apart { (D.remaining devices.new ≡ D.remaining devices.old) × (D.reads devices.new ≡ D.reads devices.old) × (D.read_failed devices.new ≡ false) }
{
    let mut rest = bytes;
    while !rest.is_empty() {
        let count = devices.write(rest)?;
        rest = &rest[count..];
    }
    Ok(())
}
