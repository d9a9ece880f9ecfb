//! What a run prints: what is still to be written, and the room through which it goes to the writer.
ghost use Rattle.std.specs.Prelude.{◌≡◌, ◌⊎◌, [], true, false, is_err, IfOk, OnOk};
ghost use Rattle.mon_device.specs.Devices.{holding};
ghost use Rattle.mon_device.specs.Putting.{Puts};
ghost use Rattle.deck_run.specs.Runs.{HoldsBeginning};
ghost use Rattle.deck_run.specs.Audited.{IsSettled};

use mon_device::{DeckDevices, DeviceSink, Failed, Room, Sink};
use mon_monitor::Printed;
use std::alloc::{AllocError, Global};

/// What is printed and not yet written, and the room through which it is written. Both are taken when the run begins.
#[derive(Drop)]
pub(crate) struct Output {
    pub(crate) printed: Printed,
    room: Room,
}

impl Output {
    /// Nothing is printed.
    ///
    /// # Errors
    ///
    /// Where the memory was refused.
    pub(crate) fn new(alloc: Global) -> Result<Output, AllocError>
        ensures { IfOk result (λ output. output.printed ≡ []) }
    {
        let printed = Printed::new(alloc)?;
        let room = Room::new(alloc)?;
        Ok(Output { printed, room })
    }
}

/// Why what is printed was not written, or not all of it.
#[derive(Clone, Copy, PartialEq, Eq)]
pub(crate) enum Unwritten {
    /// The audit was not taken, so that nothing was written.
    Audit,
    /// The writer failed.
    Output,
}

/// Writes what is printed, once the audit has taken all that it was told.
///
/// # Errors
///
/// `Audit` where the audit was not taken; nothing is written then. `Output` where the writer failed; it has taken bytes from the
/// front then, or none.
pub(crate) fn write_out<D: DeckDevices, A: Sink>(
    output: &mut Output,
    devices: &mut D,
    audit: &mut A,
) -> Result<(), Unwritten>
    requires sound { (D.read_failed devices.old ≡ false) × (D.write_failed devices.old ≡ false) }
    ensures all { OnOk result (D.written devices.new ≡ holding (D.written devices.old) output.old.printed) }
    ensures taken { HoldsBeginning (D.written devices.old) (D.written devices.new) output.old.printed }
    ensures same { output.new.printed ≡ output.old.printed }
    ensures sound { OnOk result (D.write_failed devices.new ≡ false) }
    ensures failed { D.write_failed devices.new ≡ true → result ≡ Err Unwritten.Output }
    ensures write_fault { result ≡ Err Unwritten.Output → D.write_failed devices.new ≡ true }
    ensures audit_fault { result ≡ Err Unwritten.Audit → (A.heeded ≡ true) × ((A.standing audit.new).failed ≡ true) }
    ensures apart { (D.remaining devices.new ≡ D.remaining devices.old) × (D.reads devices.new ≡ D.reads devices.old) × (D.read_failed devices.new ≡ false) }
    ensures puts { Puts (A.standing audit.old) (A.standing audit.new) [] }
    ensures ahead { A.heeded ≡ true → (D.written devices.new ≡ D.written devices.old) ⊎ IsSettled (A.standing audit.new) }
{
    if audit.flush().is_err() {
        return Err(Unwritten::Audit);
    }
    match write_printed(&output.printed, &mut output.room, devices) {
        Ok(()) => Ok(()),
        Err(_) => Err(Unwritten::Output),
    }
}

fn write_printed<D: DeckDevices>(
    printed: &Printed,
    room: &mut Room,
    devices: &mut D,
) -> Result<(), Failed>
    requires sound { (D.read_failed devices.old ≡ false) × (D.write_failed devices.old ≡ false) }
    ensures all { OnOk result (D.written devices.new ≡ holding (D.written devices.old) printed.now) }
    ensures taken { HoldsBeginning (D.written devices.old) (D.written devices.new) printed.now }
    ensures failed { D.write_failed devices.new ≡ is_err result }
    ensures apart { (D.remaining devices.new ≡ D.remaining devices.old) × (D.reads devices.new ≡ D.reads devices.old) × (D.read_failed devices.new ≡ false) }
{
    room.clear();
    let mut sink = DeviceSink::new(devices, room);
    printed.print(&mut sink);
    sink.settle()
}
