//! What a site does with its files, as functions over what stands in them: who its users are, what its data sets are and what each account
//! owns, which files are claimed, and what a user is told whose text does not run.
#![tactic(auto)]

pub mod catalogue;
pub mod file_names;
pub mod laws;
pub mod lines;
pub mod owning;
pub mod reason;
pub mod replies;
pub mod table;
pub mod terms;
pub mod users;

pub use catalogue::{CatalogueFault, read_catalogue};
pub use file_names::{is_claimed, shown_name};
pub use lines::{is_skipped, stop_at};
pub use owning::{Holding, holdings};
pub use reason::Reason;
pub use replies::reply;
pub use table::{TableFault, read_table, whole_table};
pub use terms::limit_name;
pub use users::{User, UsersFault, read_users};
