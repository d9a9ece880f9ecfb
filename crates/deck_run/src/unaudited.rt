//! Where no audit is wanted.
ghost use Rattle.std.specs.Prelude.{[], None, true, false};

use mon_device::{Failed, Sink};

/// A sink to which nobody listens: as one that has failed, it takes nothing.
#[derive(Drop)]
pub struct NoAudit;

impl Sink for NoAudit {
    ghost use Rattle.std.specs.Prelude.{[], None, true, false};

    ghost standing = { λ s. record { written = None; gathered = []; failed = true; remaining = None; reads = 0; lent = [] } };

    ghost heeded = { false };

    fn put(&mut self, _bytes: &[u8]) {}

    fn put_line(&mut self, _before: &[u8], _text: &[u8]) {}

    fn listens(&self) -> bool {
        false
    }

    fn flush(&mut self) -> Result<(), Failed> {
        Ok(())
    }
}
