//! A job that has ended.

use mon_text::Name;
use mon_unit::Notes;
use packed_lines::PackedLines;
use sno_run::Ending;

/// A job that has ended: its number and the name of its account, what it spooled, its notes, how it ended, and how many of
/// its statements had begun.
#[derive(Drop)]
pub struct JobEnd {
    pub number: u64,
    pub account: Name,
    pub spool: PackedLines,
    pub notes: Notes,
    pub ending: Ending,
    pub statements: u64,
}
