//! What the cards of a program hold.
ghost use Rattle.std.specs.Prelude.{◌≡◌};

use crate::text::StatementText;
use std::marker::Model;

/// The cards of a program: the texts of its statements, the rest of its END line, and where its data begin.
#[derive(Drop)]
pub struct ProgramCards {
    statements: Vec<StatementText>,
    end_rest: StatementText,
    data_from: usize,
}

impl Model for ProgramCards {
    ghost use Rattle.sno_cards.specs.Programs.{ProgramText};

    ghost Value = { ProgramText };

    ghost view = { λ p. record { statements = p.statements.items; end_rest = p.end_rest; data_from = p.data_from } };
}

impl ProgramCards {
    pub(crate) fn new(
        statements: Vec<StatementText>,
        end_rest: StatementText,
        data_from: usize,
    ) -> ProgramCards
        ensures { result ≡ record { statements = statements.items; end_rest = end_rest; data_from = data_from } }
    {
        ProgramCards {
            statements,
            end_rest,
            data_from,
        }
    }

    /// The texts of the statements, in order. Statement 1 is the first of them.
    pub fn statements(&self) -> &[StatementText]
        ensures { result.now ≡ self.now.statements }
    {
        &self.statements
    }

    /// What stands on the END line after END, up to the first `;`.
    pub fn end_rest(&self) -> &StatementText
        ensures { result.now ≡ self.now.end_rest }
    {
        &self.end_rest
    }

    /// The index of the first data line, counted from 0: that of the line after the END line.
    pub fn data_from(&self) -> usize
        ensures { result ≡ self.now.data_from }
    {
        self.data_from
    }
}
