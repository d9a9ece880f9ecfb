//! Programs.

use crate::label::Labels;
use crate::start::Start;
use sno_statement::Statement;

/// A program: its statements in order, the labels that stand before them, and where a run of it begins.
#[derive(Drop)]
pub struct Program {
    pub statements: Vec<Statement>,
    pub labels: Labels,
    pub start: Start,
}
