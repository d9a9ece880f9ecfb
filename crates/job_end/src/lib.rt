//! How jobs end, and what is printed of it; what is printed of a job that is not loaded.
//!
//! `printout` and `refusal_text` in specs/ say what; `print_end` and `print_refusal` put exactly that to a sink, and
//! `put_printout` and `put_refusal` append it, or nothing. `print_loaded`, `print_refused` and `print_ended` put an audit's lines.
#![tactic(auto)]

pub mod audit_lines;
pub mod job_end;
pub mod printout;
pub mod refusal;
pub mod turned;

pub use audit_lines::{print_ended, print_loaded, print_refused};
pub use job_end::JobEnd;
pub use printout::{print_end, put_printout};
pub use refusal::{print_refusal, put_refusal};
pub use turned::Turned;
