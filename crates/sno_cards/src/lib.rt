//! Cards: from the lines of a program to the texts of its statements, the END line and the data.
//!
//! Each character of a statement's text knows the card and the column that it stands on, so that whatever reads a
//! statement can say where it refuses it.
#![tactic(auto)]

pub mod card;
pub mod cutting;
pub mod laws;
pub mod limits;
pub mod lines;
pub mod program;
pub mod reading;
pub mod refusal;
pub mod text;

pub use limits::Limits;
pub use program::ProgramCards;
pub use reading::statements;
pub use refusal::{Place, SyntaxCode, SyntaxError};
pub use text::StatementText;
