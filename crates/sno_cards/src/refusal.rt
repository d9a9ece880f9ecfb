//! Why a program is refused, and where.
ghost use Rattle.std.specs.Prelude.{◌≡◌};
ghost use Rattle.sno_cards.specs.Codes.{code_text, code_symbol};

use std::fmt;

/// Where a character stands: its card and its column, both counted from 1.
#[derive(Clone, Copy, PartialEq, Eq)]
pub struct Place {
    pub card: u64,
    pub column: u64,
}

/// Why a program is refused. The codes that begin with S are those of its cards, the others those of its statements.
#[derive(Clone, Copy, PartialEq, Eq)]
pub enum SyntaxCode {
    /// S1: there is no END line.
    NoEndLine,
    /// S2: a continuation has no line of statements before it.
    NothingToContinue,
    /// S3: a control card is none of `-LIST`, `-UNLIST` and `-EJECT`.
    UnknownControlCard,
    /// P1: a literal is not closed, or an integer is too large.
    BadConstant,
    /// P2: a blank is missing.
    BlankMissing,
    /// P3: something does not fit where it stands.
    Unexpected,
    /// P4: a label is defined before, or it is one of those that the language keeps for itself.
    LabelTaken,
    /// P5: a variable must stand here.
    VariableNeeded,
    /// P6: a statement has too many parentheses or `<` open at one place, or too many tokens.
    StatementTooLarge,
    /// P7: the label END elsewhere than on the END line, or an END line that names no start.
    BadEnd,
}

impl SyntaxCode {
    /// The code and its name, as `S1 NO END LINE`.
    pub fn text(self) -> &'static str
        ensures { result.now ≡ code_text self }
    {
        match self {
            SyntaxCode::NoEndLine => "S1 NO END LINE",
            SyntaxCode::NothingToContinue => "S2 NOTHING TO CONTINUE",
            SyntaxCode::UnknownControlCard => "S3 UNKNOWN CONTROL CARD",
            SyntaxCode::BadConstant => "P1 BAD CONSTANT",
            SyntaxCode::BlankMissing => "P2 BLANK MISSING",
            SyntaxCode::Unexpected => "P3 UNEXPECTED",
            SyntaxCode::LabelTaken => "P4 LABEL TAKEN",
            SyntaxCode::VariableNeeded => "P5 VARIABLE NEEDED",
            SyntaxCode::StatementTooLarge => "P6 STATEMENT TOO LARGE",
            SyntaxCode::BadEnd => "P7 BAD END",
        }
    }

    /// The code alone, as `S1`.
    pub fn symbol(self) -> &'static str
        ensures { result.now ≡ code_symbol self }
    {
        match self {
            SyntaxCode::NoEndLine => "S1",
            SyntaxCode::NothingToContinue => "S2",
            SyntaxCode::UnknownControlCard => "S3",
            SyntaxCode::BadConstant => "P1",
            SyntaxCode::BlankMissing => "P2",
            SyntaxCode::Unexpected => "P3",
            SyntaxCode::LabelTaken => "P4",
            SyntaxCode::VariableNeeded => "P5",
            SyntaxCode::StatementTooLarge => "P6",
            SyntaxCode::BadEnd => "P7",
        }
    }
}

impl fmt::Display for SyntaxCode {
    fn fmt<W: fmt::Write>(&self, f: &mut fmt::Formatter<W>) -> fmt::Result {
        f.write_str(self.text())
    }
}

/// The first refusal of a program.
#[derive(Clone, Copy, PartialEq, Eq)]
pub struct SyntaxError {
    pub code: SyntaxCode,
    pub place: Place,
}

impl fmt::Display for SyntaxError {
    fn fmt<W: fmt::Write>(&self, f: &mut fmt::Formatter<W>) -> fmt::Result {
        let code = self.code;
        let card = self.place.card;
        let column = self.place.column;
        write!(f, "{code} CARD {card} COLUMN {column}")
    }
}
