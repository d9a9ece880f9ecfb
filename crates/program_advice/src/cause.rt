//! Why a program is refused, as far as the characters around the place tell.
ghost use Rattle.std.specs.Prelude.{◌≡◌};
ghost use Rattle.mon_text.specs.Characters.{is_quote};
ghost use Rattle.program_advice.specs.Causes.{cause_of, blank_cause, unexpected_cause, sign_cause, variable_cause, is_comment, is_behind_subject, ends_element};

use crate::around::{Around, is_identifier_character};
use sno_cards::SyntaxCode;

/// Why a program is refused.
#[derive(Clone, Copy)]
pub enum Cause {
    /// No line is `END`.
    NoEndLine,
    /// A continuation of nothing.
    NothingToContinue,
    /// `-INCLUDE`
    ControlCard,
    /// `'it`
    OpenLiteral,
    /// Too many digits.
    LargeInteger,
    /// `3.5`
    Real,
    /// `'it''s'`
    QuoteInLiteral,
    /// `*F(X)`, `*(A B)`
    LaterThanVariables,
    /// `S ? P`, `A & B`
    NotBinary,
    /// `A=B`
    TightEquals,
    /// `X:(L)`
    TightColon,
    /// `A * B P`
    SubjectOfOne,
    /// Another blank.
    OtherBlanks,
    /// `(A, B)`
    Alternatives,
    /// `A<I,J>`
    Comma,
    /// `A[I]`
    SquareBracket,
    /// `:<C>`
    CodeGoto,
    /// `F(X)<1>`
    ItemOfValue,
    /// `A < B`
    Comparison,
    /// `T<>`
    NoKey,
    /// `(A = B)`, `A == B`
    Assignment,
    /// `:s(L)`
    SmallOutcome,
    /// `A ! B`, `A ^ B`
    Power,
    /// `\A`
    Not,
    /// `# and so on`
    Comment,
    /// `(1 + 2`
    EndsEarly,
    /// `1 + 2)`
    NoneOpen,
    /// A statement without a label that begins in its first column.
    FirstColumn,
    /// Something else that doesn't fit.
    Unexpected,
    /// A label for the second time.
    LabelTaken,
    /// `AGE(X) = 3`, `'A' . F(X)`
    CallAssigned,
    /// `'A' . T<1>`
    ItemNamed,
    /// Something else that is no variable.
    VariableNeeded,
    /// Too many tokens.
    StatementTooLarge,
    /// A wrong `END`.
    BadEnd,
}

impl Cause {
    /// What it says.
    pub fn text(self) -> &'static str {
        match self {
            Cause::NoEndLine => "no line begins with END, in capitals",
            Cause::NothingToContinue => "no statement is before it",
            Cause::ControlCard =>
                "only -LIST, -UNLIST and -EJECT are known: take it out, and put here what it would copy",
            Cause::OpenLiteral =>
                "the literal is not closed: write \"it's\", and '\"' for a quote of the other kind",
            Cause::LargeInteger => "an integer is at most 9,223,372,036,854,775,807",
            Cause::Real => "there are no reals: count in integers of a smaller unit, as cents",
            Cause::QuoteInLiteral =>
                "a literal has none of its own quotes: write \"it's\", and '\"' for one of the other kind",
            Cause::LaterThanVariables =>
                "only a variable is evaluated later: P = F(X), and then *P, or call F behind the match; a product is A * F(X)",
            Cause::NotBinary =>
                "it stands before one operand, which it touches; a match is S P, without a ?",
            Cause::TightEquals => "= has a blank on both sides",
            Cause::TightColon => "a goto has a blank before its :",
            Cause::SubjectOfOne => "the subject is one element: write (A * B) P",
            Cause::OtherBlanks => "it would fit with other blanks around it",
            Cause::Alternatives =>
                "there is no (A,B): a statement for each, as X = A :S(GO), and then X = B",
            Cause::Comma => "only a call has commas: an item has one key, as A<I ',' J>",
            Cause::SquareBracket => "there are no square brackets: an item is T<E>",
            Cause::CodeGoto => "a goto has a label, or $ and what names one: there is no code",
            Cause::ItemOfValue => "an item is of a variable: Y = F(X), and then Y<1>",
            Cause::Comparison => "numbers are compared by LT(M,N), LE, GT, GE, EQ and NE",
            Cause::NoKey => "an item has a key, as T<1>",
            Cause::Assignment => "a statement assigns once: compare by EQ(M,N) or IDENT(S,T)",
            Cause::SmallOutcome => "the S and F of a goto are in capitals",
            Cause::Power => "a power is M ** N",
            Cause::Not => "the sign for not is ~",
            Cause::Comment => "a comment is a card of its own that begins with *",
            Cause::EndsEarly => "the statement ends too early: an operand, a ) or a > is missing",
            Cause::NoneOpen => "no ( is open, or an operand is missing before it",
            Cause::FirstColumn =>
                "a label begins with a letter or a digit; without one the first column is blank",
            Cause::Unexpected => "the statement can't go on or end like this",
            Cause::LabelTaken => "the label is further up, or kept for the language",
            Cause::CallAssigned =>
                "neither a call nor a parenthesis is a variable: for a field write $(NAME '.AGE')",
            Cause::ItemNamed => "an item has no name: take a variable, and then T<I> = V",
            Cause::VariableNeeded => "a variable has to stand here",
            Cause::StatementTooLarge => "it has too many tokens or open parentheses",
            Cause::BadEnd => "END, or what stands behind it, is no label of a statement",
        }
    }
}

/// Why a program is refused with a code, by the characters around the place.
pub fn cause_of(code: SyntaxCode, around: Around) -> Cause
    ensures { result ≡ cause_of code around }
{
    match code {
        SyntaxCode::NoEndLine => Cause::NoEndLine,
        SyntaxCode::NothingToContinue => Cause::NothingToContinue,
        SyntaxCode::UnknownControlCard => Cause::ControlCard,
        SyntaxCode::BadConstant if is_quote(around.here) => Cause::OpenLiteral,
        SyntaxCode::BadConstant => Cause::LargeInteger,
        SyntaxCode::BlankMissing => blank_cause(around),
        SyntaxCode::Unexpected => unexpected_cause(around),
        SyntaxCode::LabelTaken => Cause::LabelTaken,
        SyntaxCode::VariableNeeded => variable_cause(around),
        SyntaxCode::StatementTooLarge => Cause::StatementTooLarge,
        SyntaxCode::BadEnd => Cause::BadEnd,
    }
}

// Where a token would fit with other blanks.
fn blank_cause(around: Around) -> Cause
    ensures { result ≡ blank_cause around }
{
    let is_real = around.before.is_ascii_digit() && !around.behind.is_ascii_alphabetic();
    match around.here {
        b'.' if is_real => Cause::Real,
        _ if is_quote(around.here) && around.before == around.here => Cause::QuoteInLiteral,
        b'(' if around.sign == b'*' => Cause::LaterThanVariables,
        b'?' | b'&' | b'@' | b'~' => Cause::NotBinary,
        b'=' => Cause::TightEquals,
        b':' => Cause::TightColon,
        b'<' if around.behind == b' ' => Cause::Comparison,
        _ if is_behind_subject(around) => Cause::SubjectOfOne,
        _ => Cause::OtherBlanks,
    }
}

// Whether a binary operator stands between blanks, behind an element.
#[tactic(auto, unfolding(crate::specs::Causes::is_behind_subject))]
fn is_behind_subject(around: Around) -> bool
    ensures { result ≡ is_behind_subject around }
{
    matches!(around.here, b'+' | b'-' | b'*' | b'/' | b'|' | b'.' | b'$')
        && around.before == b' '
        && around.behind == b' '
        && ends_element(around.ended)
}

// Whether a character may end an element.
fn ends_element(code: u8) -> bool
    ensures { result ≡ ends_element code }
{
    is_identifier_character(code) || is_quote(code) || code == b')' || code == b'>'
}

// Where something stands that fits with no blanks.
fn unexpected_cause(around: Around) -> Cause
    ensures { result ≡ unexpected_cause around }
{
    match around.here {
        _ if is_comment(around) => Cause::Comment,
        b'(' if around.sign == b'*' => Cause::LaterThanVariables,
        b'<' if around.before == b':' => Cause::CodeGoto,
        b'<' if matches!(around.before, b'>' | b')') => Cause::ItemOfValue,
        b'>' if around.before == b'<' => Cause::NoKey,
        b's' | b'f' if around.behind == b'(' => Cause::SmallOutcome,
        _ => sign_cause(around),
    }
}

// Where a sign stands that fits with no blanks, whatever is around it.
fn sign_cause(around: Around) -> Cause
    ensures { result ≡ sign_cause around }
{
    match around.here {
        b',' if around.opened == b'(' => Cause::Alternatives,
        b',' => Cause::Comma,
        b'[' | b']' => Cause::SquareBracket,
        b'<' | b'>' => Cause::Comparison,
        b'=' => Cause::Assignment,
        b'!' | b'^' => Cause::Power,
        b'\\' => Cause::Not,
        b' ' | b';' | b'\n' => Cause::EndsEarly,
        b')' => Cause::NoneOpen,
        _ if around.before == b'\n' => Cause::FirstColumn,
        _ if is_behind_subject(around) => Cause::SubjectOfOne,
        _ => Cause::Unexpected,
    }
}

// Where something stands that is no variable.
fn variable_cause(around: Around) -> Cause
    ensures { result ≡ variable_cause around }
{
    match around.follows {
        _ if around.here.is_ascii_digit() && around.before == b'.' => Cause::Real,
        b'(' => Cause::CallAssigned,
        b'<' => Cause::ItemNamed,
        _ => Cause::VariableNeeded,
    }
}

// Whether something is a comment on other systems: by `#`; by `|` or `!` in the first column; by `*` behind `;`.
fn is_comment(around: Around) -> bool
    ensures { result ≡ is_comment around }
{
    around.here == b'#'
        || (matches!(around.here, b'|' | b'!') && around.before == b'\n')
        || (around.here == b'*' && around.before == b';')
}

fn is_quote(code: u8) -> bool
    ensures { result ≡ is_quote code }
{
    code == b'\'' || code == b'"'
}
