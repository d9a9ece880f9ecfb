//! What DEFINE, INPUT and OUTPUT read in their arguments: prototypes of functions, units, and the formats of records.
#![tactic(auto)]

pub mod argument;
pub mod association;
pub mod binding;
pub mod definition;
pub mod format;
pub mod laws;
pub mod prototype;

pub use argument::{input_in, name_in, output_in, unit_in};
pub use association::{Input, Output};
pub use binding::Bindings;
pub use definition::{Definition, Function, definition_in};
pub use format::{Format, after_blank, read_format};
pub use prototype::{Names, Prototype, read_prototype};
