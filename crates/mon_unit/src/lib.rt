//! A job's units over the guard: what a program reads and writes, and what is noted of it.
//!
//! A unit is tied to a data set, to the deck's own data, to the spool, or to nothing. A `UnitService` answers the requests of
//! one account's program from the units and the data sets that it is lent; what a request means is the function `serve`.
#![tactic(auto)]

pub mod laws;
pub mod note;
pub mod service;
pub mod tie;
pub mod units;

pub use deck_lines::UnitError;
pub use mon_text::Lines;
pub use note::{Note, NoteAct, NoteTarget, Notes, Why};
pub use service::UnitService;
pub use tie::{Target, Tie};
pub use units::Units;
