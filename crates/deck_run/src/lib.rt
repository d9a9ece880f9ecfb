//! From a deck's bytes to the bytes of its output: what `snomon` does, over any reader and writer.
#![tactic(auto)]

pub mod laws;
mod output;
pub mod run;
pub mod shortage;
pub mod unaudited;

pub use deck_driver::{Counts, DeckFeed, Holder, Options, RunError, Slots};
pub use deck_syntax::DeckError;
pub use mon_device::{
    DeckDevices, DeckReader, DeckWriter, Devices, Failed, MemReader, MemWriter, StdReader,
    StdWriter, Telling,
};
pub use run::{exit_status, put_fault, run_deck};
pub use shortage::{Shortage, put_shortage};
pub use unaudited::NoAudit;
