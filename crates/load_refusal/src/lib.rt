//! Why a job is not loaded, told by its cards and the account table alone: no machine and no catalogue is asked.
//!
//! `job_refusal` in specs/ is the definition; the scheduler proves by a law that a load in which a slot is free is refused for
//! exactly that.
#![tactic(auto)]

pub mod load_error;

pub use load_error::LoadError;
