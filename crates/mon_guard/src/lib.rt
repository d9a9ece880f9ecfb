//! Every access behind the check.
//!
//! A `Guard` does what an account asks of a data set exactly where the set's owner, group and permission list grant it
//! as they stand at that moment, and lends of a set what is granted and nothing else. What is denied changes nothing and
//! shows nothing.
#![tactic(auto)]

pub mod answer;
pub mod cache;
pub mod guard;
pub mod laws;
pub mod views;

pub use acl_text::AclText;
pub use answer::{AclAnswer, Answered, Decided};
pub use cache::{CachedDecision, MOST_CACHED_DECISIONS};
pub use guard::Guard;
pub use interaction::{Answer as GuardAnswer, Reason};
pub use views::{AclView, NameView};
