//! The audit of a text's run that is watched.
use crate::watching::Watch;
use mon_device::{Failed, Sink};

/// Takes an audit, and says of the text's run whether it is late.
#[derive(Drop)]
pub(crate) struct WatchedAudit<'a, S: Sink + Drop, W: Watch> {
    /// What takes it.
    pub(crate) sink: S,
    /// What is asked whether it is late.
    pub(crate) watch: &'a W,
}

impl<S: Sink + Drop, W: Watch> Sink for WatchedAudit<'_, S, W> {
    ghost standing = { λ audit. S.standing audit.sink };

    ghost heeded = { S.heeded };

    fn put(&mut self, bytes: &[u8]) {
        self.sink.put(bytes);
    }

    fn put_line(&mut self, before: &[u8], text: &[u8]) {
        self.sink.put_line(before, text);
    }

    fn listens(&self) -> bool {
        self.sink.listens()
    }

    fn flush(&mut self) -> Result<(), Failed> {
        self.sink.flush()
    }

    fn is_late(&self) -> bool {
        self.watch.is_late()
    }
}
