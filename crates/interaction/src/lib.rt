//! What a program asks of whoever keeps its records, and how it is answered.
//!
//! A program knows no catalogue and no permission. It puts requests to a `Service`, and goes on as the answers say.
//!
//! An interaction is what someone asks of another, told without the other; `interaction_laws` says what holds of every one. What
//! a request for a record is answered, and why it is denied, is the same for all who keep records.
#![tactic(auto)]

pub mod answer;
pub mod interaction_laws;
pub mod laws;
pub mod request;
pub mod script;
pub mod service;

pub use answer::{Answer, Reason};
pub use request::{Act, Request};
pub use script::Script;
pub use service::Service;
