//! What the program `snomon` does but for its `main`, and what others may build on: from a deck's bytes to those of its output.
//!
//! `run_deck` runs a deck over any reader and writer, `DeckFeed` takes one in pieces. `read_options` reads the words of a command line;
//! `run::run` goes from these and three streams of std to what stands in the streams and the exit status.
#![tactic(auto)]

pub mod asking;
pub mod audited_run;
pub mod heeding;
pub mod options;
pub mod run;
pub mod shell;
pub mod streams;

pub use deck_run::{
    Counts, DeckDevices, DeckError, DeckFeed, DeckReader, DeckWriter, Devices, Failed, MemReader,
    MemWriter, NoAudit, Options, RunError, Shortage, Slots, StdReader, StdWriter, Telling,
    exit_status, put_fault, run_deck,
};
pub use mon_device::Sink;
pub use mon_monitor::Printed;
pub use options::read_options;
pub use run::{Given, given_options};
pub use shell::Ended;
pub use sno_text::Seed;
