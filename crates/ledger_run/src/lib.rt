//! What is done to a disk, call by call: the ledger is read, commits are put, files claimed, answers put.
#![tactic(auto)]

pub mod answers;
pub mod attempts;
pub mod chain;
pub mod claims;
pub mod commits;
pub mod error;
mod event;
pub mod finishing;
mod folding;
pub mod known;
pub mod laws;
pub mod ledger;
pub mod machine;
pub mod opening;
pub mod recording;
pub mod running;
pub mod sender;

pub use answers::{Owed, deliver};
pub use attempts::{Attempt, Dropping, drop_first, try_first};
pub use chain::{read_behind, read_ledger};
pub use claims::{Claims, claim_beside, remove_claimed};
pub use commits::commit;
pub use error::LedgerError;
pub use finishing::finish_claims;
pub use known::{course_of, known_ledger};
pub use ledger::{Ledger, Waiting};
pub use ledger_names::{Claim, claimed_name, naming, read_claimed_name};
pub use machine::{Machine, Outcome};
pub use opening::{open_behind, open_ledger};
pub use recording::{give, record_act};
pub use running::{run_and_give, run_first, run_texts};
pub use sender::Sender;
