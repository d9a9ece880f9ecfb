//! The characters that tokens are made of, and runs of them.
ghost use Rattle.std.specs.Prelude.{not, ◌≡◌, ◌==◌, ◌≤◌, length, position, IfSome, ◌||◌};
ghost use Rattle.std.specs.List.{before_first, position_or_len};
ghost use Rattle.mon_text.specs.Characters.{is_letter, is_digit, is_printable, is_quote, is_identifier_character};
ghost use Rattle.mon_text.specs.Lines.{is_line};
ghost use Rattle.sno_lexer.specs.inner.Classes.{goes_on, run_in};

/// Characters that belong together.
#[derive(Clone, Copy)]
pub(crate) enum Run {
    /// An identifier.
    InIdentifier,
    /// An integer.
    InInteger,
    /// The label of a goto's target.
    InLabel,
    /// What stands in a literal, up to its second quote.
    InLiteral(u8),
}

#[inline(always)]
pub(crate) fn is_letter(code: u8) -> bool
    ensures { result ≡ is_letter code }
{
    code.is_ascii_alphabetic()
}

#[inline(always)]
pub(crate) fn is_digit(code: u8) -> bool
    ensures { result ≡ is_digit code }
{
    code.is_ascii_digit()
}

#[inline(always)]
pub(crate) fn is_quote(code: u8) -> bool
    ensures { result ≡ is_quote code }
{
    code == b'\'' || code == b'"'
}

fn is_printable(code: u8) -> bool
    ensures { result ≡ is_printable code }
{
    (b' '..=b'~').contains(&code)
}

pub(crate) fn is_line(text: &[u8]) -> bool
    ensures { result ≡ is_line text.now }
{
    text.iter().all(|code| is_printable(*code))
}

// Whether a character goes on with an identifier after its first letter. None before `.` does, so a blank is told at once.
#[inline(always)]
fn is_identifier_character(code: u8) -> bool
    ensures { result ≡ is_identifier_character code }
{
    code >= b'.' && (is_digit(code) || is_letter(code) || code == b'_' || code == b'.')
}

#[inline(always)]
fn goes_on(run: Run, code: u8) -> bool
    ensures { result ≡ goes_on run code }
{
    match run {
        Run::InIdentifier => is_identifier_character(code),
        Run::InInteger => is_digit(code),
        Run::InLabel => !(code == b' ' || code == b')'),
        Run::InLiteral(quote) => code != quote,
    }
}

#[inline(always)]
fn end_of(run: Run, text: &[u8]) -> Option<usize>
    ensures offset { result ≡ position (λ c. not (goes_on run c)) text.now }
    ensures within { IfSome result (λ index. index ≤ length text.now) }
{
    text.iter().position(|code| !goes_on(run, *code))
}

#[inline(always)]
fn length_of(run: Run, text: &[u8]) -> usize
    ensures offset { result ≡ position_or_len (λ c. not (goes_on run c)) text.now }
    ensures within { result ≤ length text.now }
{
    end_of(run, text).unwrap_or(text.len())
}

/// The run that begins a text.
#[inline(always)]
pub(crate) fn run_in(run: Run, text: &[u8]) -> &[u8]
    ensures value { result.now ≡ run_in run text.now }
    ensures within { length result.now ≤ length text.now }
{
    &text[..length_of(run, text)]
}
