//! The lines of an audit: who asked for what, what came of it, and by which entry it was granted or why it was denied.
//!
//! There is a line for each thing that happens. What it says of a job's request is `request_line` in specs/, and of a command
//! `ordered_line`. `print_request` and `print_command` put a line to a sink and take no memory; `grant` finds the entry that grants. An
//! `AuditedService` answers as a `UnitService` does, and puts the line of each exchange.
#![tactic(auto)]

pub mod audit_cache;
pub mod audited_service;
pub mod cached_line;
pub mod catalog;
pub mod command;
pub mod grants;
pub mod laws;
pub mod request;
pub mod run_end;
pub mod words;

pub use audit_cache::AuditCache;
pub use audited_service::AuditedService;
pub use command::print_command;
pub use grants::{Grant, granting_entry};
pub use request::{AuditedRequest, act_word, grant, place, print_request};
pub use run_end::{print_deck_refused, print_stopped};
