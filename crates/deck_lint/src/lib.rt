//! What is told of a deck: mistakes and warnings, each with its line, text and column, and the listing of a job.
//!
//! What a listing shows of a program, program_listing reads; why a program is refused, and what to write instead of a name,
//! program_advice says. Why a job is not loaded is told with each reason, and not only the first: `deck_refused` in specs/ lists
//! them, over the definitions of load_refusal, and `all_refusals` answers exactly that list.
#![tactic(auto)]

mod advice;
mod column;
pub mod job;
pub mod refusals;
pub mod reporter;
mod ties;

pub use column::{is_line_code, is_stream_card, word_column};
pub use job::{JobCards, JobCase};
pub use refusals::all_refusals;
pub use reporter::{Detail, NO_COLUMN, Reporter, SourceSpan, Tally};
