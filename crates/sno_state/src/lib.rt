//! What statements do to the state of a job, over whatever answers their requests.
//!
//! A variable that is used or assigned to may read or write records; a match uses and assigns to variables meanwhile. All
//! of it is told without the service: the definitions say what is asked, for whatever is answered.
//!
//! A program stands here with the code of its statements (`compiled`), and with what of it is done at once (`fast_path`, `sums`).
#![tactic(auto)]

mod calling;
pub mod compiled;
pub mod fast_path;
mod host;
mod items;
mod keywords;
pub mod laws;
mod matching;
mod primitives;
pub mod resting;
pub mod sums;
mod using;

pub use calling::{MOST_CALLS, begin, enter};
pub use compiled::CompiledProgram;
pub use items::{held_item, item, set_item};
pub use keywords::{keyword, set_keyword};
pub use matching::matched;
pub use primitives::primitive;
pub use sno_cards::Limits;
pub use using::{assigned, used};
