//! The two text forms of permission lists, after acl(5), "ACL TEXT FORMS": reading and printing them.
#![tactic(auto)]

mod entry;
mod fields;
pub mod forms;
pub mod laws;
pub mod parser;
mod pieces;
mod plain_entry;
pub mod refused;
mod sorted_entries;
pub mod text;

pub use forms::{
    print_head, print_line, print_long, print_short, put_head, put_line, put_long, put_short,
};
pub use parser::{parse_long, parse_short};
pub use refused::print_list_refusal;
pub use text::{AclText, Bytes};
