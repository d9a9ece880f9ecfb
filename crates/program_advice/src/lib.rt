//! What helps where a program is refused, or where a name in it leads nowhere: a cause, told by the code and the characters around
//! the place; and what to write instead of a name that other SNOBOL4 systems have.
//!
//! Both are tables, in specs/: `cause_of` and `instead_of_function` with its neighbours. LANGUAGE's index by name has the same rows.
#![tactic(auto)]

pub mod around;
pub mod brackets;
pub mod cause;
pub mod instead;

pub use around::Around;
pub use cause::{Cause, cause_of};
pub use instead::{
    Instead, instead_of_function, instead_of_keyword, instead_of_label, instead_of_variable,
};
