//! What a deck is read from and an output is written to: readers and writers that tell their bytes to contracts, over
//! memory and over std's streams, and the moving of all bytes to one. And for the programs that try worked cases: where an output
//! differs from what was wanted, and how many did.
#![tactic(auto)]

pub mod device;
pub mod difference;
pub mod memory;
pub mod noted;
pub mod pair;
pub mod sink;
pub mod streams;
pub mod tally;
pub mod transfer;
pub mod words;

pub use device::{DeckDevices, DeckReader, DeckWriter, Failed};
pub use difference::{Difference, first_difference};
pub use memory::{MemReader, MemWriter};
pub use noted::Noted;
pub use pair::Devices;
pub use sink::{DeviceSink, Room, Sink, TextSink};
pub use streams::{StdReader, StdWriter, Telling};
pub use tally::Tally;
pub use transfer::{MOST_READS, READ_SIZE, WRITE_SIZE, write_all};
pub use words::{print_number, print_word};
