//! The tables of a site's operator, accounts, users and limits, as the ledger has them: read from their texts, and printed.
#![tactic(auto)]

pub mod laws;
pub mod limits;
pub mod tables;
pub mod users;

pub use limits::{Bound, Limits, LimitsFault, MOST_DAYS, bound_name, limits_text, read_limits};
pub use tables::{Tables, TablesFault, Texts, read_tables, read_texts, tables_text};
pub use users::users_text;
