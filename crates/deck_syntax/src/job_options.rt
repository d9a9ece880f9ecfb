//! The options of a job's card: how many statements may begin, and how many steps a match may take.
ghost use Rattle.std.specs.Prelude.{◌≡◌, ◌≤◌, ◌||◌, true, length, IfOk};
ghost use Rattle.mon_text.specs.Counts.{value_of};
ghost use Rattle.deck_lines.specs.declared.deck_error.DeckError.TheVariants.{BadNumber, BadCard};
ghost use Rattle.deck_lines.specs.Refusing.{unless};
ghost use Rattle.deck_syntax.specs.Jobs.{sets_statements, sets_steps, option_text, has_number, is_limit, with_option};
ghost use Rattle.deck_lines.specs.Turns.{is_within};
ghost use Rattle.deck_lines.specs.inner.Stops.{Answers};

use crate::job_limits::JobLimits;
use deck_lines::{DeckError, is_within, number_of};
use mon_text::Stop;

/// How much a limit of a job may be.
const MOST_LIMIT: u64 = 10_000_000;

// Whether an option says how many statements may begin.
pub(crate) fn sets_statements(word: &[u8]) -> bool
    ensures { result ≡ sets_statements word.now }
{
    word.starts_with(b"ST=".as_slice())
}

// Whether an option says how many steps a match may take.
pub(crate) fn sets_steps(word: &[u8]) -> bool
    ensures { result ≡ sets_steps word.now }
{
    word.starts_with(b"MATCH=".as_slice())
}

// What stands behind the `=` of an option.
fn option_text(word: &[u8]) -> &[u8]
    requires { (sets_statements word.now || sets_steps word.now) ≡ true }
    ensures { result.now ≡ option_text word.now }
{
    if sets_statements(word) {
        &word[3..]
    } else {
        &word[6..]
    }
}

// The number of an option.
pub(crate) fn option_number(word: &[u8]) -> Result<u64, Stop<DeckError>>
    requires { (sets_statements word.now || sets_steps word.now) ≡ true }
    ensures answers { Answers (unless (has_number word.now) BadNumber) result }
    ensures value { IfOk result (λ number. number ≡ value_of (option_text word.now)) }
{
    number_of(option_text(word))
}

// Limits, where this option has this number.
pub(crate) fn with_option(
    limits: JobLimits,
    word: &[u8],
    number: u64,
) -> Result<JobLimits, Stop<DeckError>>
    requires { number ≡ value_of (option_text word.now) }
    ensures answers { Answers (unless (is_limit word.now) BadCard) result }
    ensures value { IfOk result (λ after. after ≡ with_option limits word.now) }
{
    if !is_within(MOST_LIMIT, number) {
        return Err(Stop::Refused(DeckError::BadCard));
    }
    if sets_statements(word) {
        Ok(limits.with_statements(number))
    } else {
        Ok(limits.with_steps(number))
    }
}
