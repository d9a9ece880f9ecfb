//! Why a deck is refused at a line.
ghost use Rattle.std.specs.Prelude.{◌≡◌};
ghost use Rattle.deck_lines.specs.Codes.{code_text};
ghost use Rattle.deck_lines.specs.Codes.{code_of_catalogue};
ghost use Rattle.deck_lines.specs.inner.Stops.{refused_as, code_of_line, code_of_account};

use mon_access::AccountError;
use mon_catalogue::CatalogueError;
use mon_text::{LineError, Stop};
use std::fmt;

/// Why a deck is refused at a line.
#[derive(Clone, Copy, Debug, PartialEq, Eq)]
pub enum DeckError {
    /// T1: a word that is to be a name is none.
    BadName,
    /// T2: a word that is to be a number is none.
    BadNumber,
    /// T3: a line has a character outside ASCII 32 to 126.
    BadCharacter,
    /// T4: a line has more characters than its section allows.
    LineTooLong,
    /// C1: an account of that name is there.
    AccountTwice,
    /// C2: an account has more than 16 groups beside its primary one.
    TooManyGroups,
    /// K1: a data set of that name is there.
    NameTaken,
    /// K3: a data set is to have more than 100,000 records.
    SetFull,
    /// K4: 1,000 data sets are there.
    CatalogueFull,
    /// K5: the text of the catalogue is none.
    BadText,
    /// E1: the first word of a line is no card.
    UnknownCard,
    /// E2: a card has a wrong number of words, an option that is none or stands twice, or a number out of its range.
    BadCard,
    /// E3: a card stands where it may not; in a program, a line that begins with one `$`.
    OutOfPlace,
    /// E4: the deck ends before `$STOP`.
    Truncated,
}

impl DeckError {
    /// The code and its name, as `T1 BAD NAME`.
    pub fn text(self) -> &'static str
        ensures { result.now ≡ code_text self }
    {
        match self {
            DeckError::BadName => "T1 BAD NAME",
            DeckError::BadNumber => "T2 BAD NUMBER",
            DeckError::BadCharacter => "T3 BAD CHARACTER",
            DeckError::LineTooLong => "T4 LINE TOO LONG",
            DeckError::AccountTwice => "C1 ACCOUNT TWICE",
            DeckError::TooManyGroups => "C2 TOO MANY GROUPS",
            DeckError::NameTaken => "K1 NAME TAKEN",
            DeckError::SetFull => "K3 SET FULL",
            DeckError::CatalogueFull => "K4 CATALOGUE FULL",
            DeckError::BadText => "K5 BAD TEXT",
            DeckError::UnknownCard => "E1 UNKNOWN CARD",
            DeckError::BadCard => "E2 BAD CARD",
            DeckError::OutOfPlace => "E3 OUT OF PLACE",
            DeckError::Truncated => "E4 TRUNCATED",
        }
    }
}

impl fmt::Display for DeckError {
    fn fmt<W: fmt::Write>(&self, f: &mut fmt::Formatter<W>) -> fmt::Result {
        f.write_str(self.text())
    }
}

/// What a refusal of a line, or want of memory, is for the deck.
pub fn stop_of_line(stop: Stop<LineError>) -> Stop<DeckError>
    ensures { result ≡ refused_as code_of_line stop }
{
    match stop {
        Stop::Refused(LineError::LineTooLong) => Stop::Refused(DeckError::LineTooLong),
        Stop::Refused(LineError::BadCharacter) => Stop::Refused(DeckError::BadCharacter),
        Stop::Memory => Stop::Memory,
    }
}

/// What a refusal of an account, or want of memory, is for the deck.
pub fn stop_of_account(stop: Stop<AccountError>) -> Stop<DeckError>
    ensures { result ≡ refused_as code_of_account stop }
{
    match stop {
        Stop::Refused(AccountError::AccountTwice) => Stop::Refused(DeckError::AccountTwice),
        Stop::Refused(AccountError::TooManyGroups) => Stop::Refused(DeckError::TooManyGroups),
        Stop::Memory => Stop::Memory,
    }
}

/// What a refusal of the catalogue's text, or want of memory, is for the deck.
pub fn stop_of_catalogue(stop: Stop<CatalogueError>) -> Stop<DeckError>
    ensures { result ≡ refused_as code_of_catalogue stop }
{
    match stop {
        Stop::Refused(error) => Stop::Refused(code_of_catalogue(error)),
        Stop::Memory => Stop::Memory,
    }
}

fn code_of_catalogue(error: CatalogueError) -> DeckError
    ensures { result ≡ code_of_catalogue error }
{
    match error {
        CatalogueError::NameTaken(_) => DeckError::NameTaken,
        CatalogueError::SetFull(_) => DeckError::SetFull,
        CatalogueError::CatalogueFull(_) => DeckError::CatalogueFull,
        CatalogueError::BadText(_) => DeckError::BadText,
    }
}
