//! A text of a fixed room, to which words are put. It takes no memory.
ghost use Rattle.std.specs.Prelude.{◌≡◌, [], None, Some, false, true};
ghost use Rattle.mon_device.specs.Putting.{Puts};

use arrayvec::ArrayVec;
use mon_device::{Failed, Sink};

/// How many bytes there is room for.
const ROOM: usize = 160;

/// Words that were put one behind the other, as far as there is room for them.
#[derive(Drop)]
pub struct Words {
    text: ArrayVec<u8, ROOM>,
    has_failed: bool,
}

impl Words {
    // None so far.
    pub(crate) fn new() -> Words
        ensures none { result.text.items ≡ [] }
        ensures whole { result.has_failed ≡ false }
    {
        Words {
            text: ArrayVec::new(),
            has_failed: false,
        }
    }

    // All of them, one behind the other.
    pub(crate) fn text(&self) -> &[u8]
        ensures { result.now ≡ self.now.text.items }
    {
        self.text.as_slice()
    }

    // Whether there was no room for some of them.
    pub(crate) fn lack_room(&self) -> bool
        ensures { result ≡ self.now.has_failed }
    {
        self.has_failed
    }

    // Puts a word behind the others, if none was left out before.
    fn take(&mut self, bytes: &[u8])
        ensures { Puts (⟦<Words as Sink>⟧.standing self.old) (⟦<Words as Sink>⟧.standing self.new) bytes.now }
    {
        if !self.has_failed {
            self.has_failed = self.text.try_extend_from_slice(bytes).is_err();
        }
    }
}

impl Sink for Words {
    ghost standing = { λ s. record { written = Some s.text.items; gathered = []; failed = s.has_failed; remaining = None; reads = 0; lent = [] } };

    ghost heeded = { true };

    fn put(&mut self, bytes: &[u8]) {
        self.take(bytes);
    }

    fn put_line(&mut self, before: &[u8], text: &[u8]) {
        self.take(before);
        self.take(text);
        self.take(b"\n");
    }

    fn listens(&self) -> bool {
        true
    }

    fn flush(&mut self) -> Result<(), Failed> {
        if self.has_failed { Err(Failed) } else { Ok(()) }
    }
}
