//! Why a text is not admitted.
ghost use Rattle.std.specs.Prelude.{◌≡◌};
ghost use Rattle.preflight.specs.Whys.{why_text};

use deck_lines::DeckError;

/// Why a text is not admitted.
#[derive(Clone, Copy)]
pub enum Why {
    /// A deck would be refused at this line, with this code.
    Line(DeckError),
    /// The card names another account.
    Foreign,
    /// `$STOP` would end everyone's deck.
    Stops,
    /// The text ends within a job or a permission list.
    Unfinished,
}

impl Why {
    /// The code and its name, as `T1 BAD NAME`.
    pub fn text(self) -> &'static str
        ensures { result.now ≡ why_text self }
    {
        match self {
            Why::Line(code) => code.text(),
            Why::Foreign => "I1 FOREIGN ACCOUNT",
            Why::Stops => "I2 STOP CARD",
            Why::Unfinished => "I3 UNFINISHED",
        }
    }
}

/// Where a text is refused, and why.
#[derive(Clone, Copy)]
pub struct Refusal {
    /// The number of the line, counted from 1. That behind the last line where the text ends too early.
    pub line: u64,
    /// What is wrong with it.
    pub why: Why,
}
