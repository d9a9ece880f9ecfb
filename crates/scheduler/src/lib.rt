//! Slots: jobs that take turns over one guarded catalogue.
//!
//! A slot holds a job with its units, or none. `load` puts a job into the lowest free slot, or tells why not. A turn gives the
//! job of one slot one statement; `turns` and `rounds` give turns in an order. What turns do is a function of the data
//! sets, of the jobs in the slots, and of where memory broke turns off; `laws` says what holds of it.
//!
//! What is asked in turns, and that a job has ended, is put to an audit, a line each, as it happens: `turn_lines` in specs/ says what.
//!
//! What is printed of a job as it ends, and of a load that is refused, stands in job_end, whose calls are handed on.
#![tactic(auto)]

mod card_reserve;
pub mod floor;
mod independence;
pub mod largest_printout;
pub mod laws;
mod loading;
mod reserve;
mod rounds;
mod single_job;
mod slot;
pub mod slots;

pub use deck_lines::tie_refused;
pub use deck_syntax::{JobDeck, JobLimits, UnitCard, UnitCards};
pub use floor::Floor;
pub use job_end::{
    JobEnd, Turned, print_end, print_loaded, print_refusal, print_refused, put_printout,
    put_refusal,
};
pub use largest_printout::Holder;
pub use load_refusal::LoadError;
pub use rounds::Goal;
pub use slots::Slots;
