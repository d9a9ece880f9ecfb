//! A job whose lines come one by one: its card, its unit cards, its program and its data.
ghost use Rattle.std.specs.Prelude.{◌≡◌, ◌<◌, ◌&&◌, not, true, [], ◌∷◌, None, length, if◌then◌else◌, drop, nat_lt, IfOk, OnOk, OnErr, IsErrOf};
ghost use Rattle.mon_text.specs.Counts.{value_of};
ghost use Rattle.mon_text.specs.Lines.{words};
ghost use Rattle.deck_lines.specs.declared.deck_error.DeckError.TheVariants.{BadCard, OutOfPlace};
ghost use Rattle.deck_lines.specs.declared.card.Card.TheVariants as card;
ghost use Rattle.deck_lines.specs.Cards.{card_among, is_card};
ghost use Rattle.deck_lines.specs.Refusing.{unless, line_refusal};
ghost use Rattle.deck_syntax.specs.Jobs.{are_options, option_text, is_limit, with_option, limits_refusal, usual_limits, job_refusal, job_on, is_job_card_line, unit_card_refusal, unit_on, job_card_refusal, job_line_refusal, ends_job, after_job_line, job_deck_of};
ghost use Rattle.deck_syntax.specs.inner.Parts.{opened_job, program_text, has_begun, with_unit, with_program_line};
ghost use Rattle.deck_lines.specs.inner.Stops.{Answers};
ghost use Rattle.std.specs.Option.{option_or};
ghost use Rattle.std.specs.List.{fold};

use crate::job_deck::{JobDeck, UnitCard, UnitCards};
use crate::job_limits::JobLimits;
use crate::job_options::{option_number, sets_statements, sets_steps, with_option};
use deck_lines::{
    Card, DeckError, MOST_LINE_CHARACTERS, Words, begins_with_dollar, check_line, line_of, name_of,
    number_of,
};
use mon_text::{Line, Lines, Name, Stop};
use std::alloc::Global;

/// A job whose lines are still to come: the name of its account, its limits, its unit cards so far, and the lines of its
/// program and its data so far. The program has begun where it has a line.
#[derive(Drop)]
pub struct OpenJob {
    pub account: Name,
    pub limits: JobLimits,
    pub ties: UnitCards,
    pub lines: Lines,
}

// ---- `$JOB`

// Whether the options behind the account are options, at most one of each kind.
fn has_options(words: &Words<'_>) -> bool
    requires { 1 < length words.now }
    ensures { result ≡ are_options (drop 2 words.now) }
{
    match words.len() {
        2 => true,
        3 => sets_statements(words.at(2)) || sets_steps(words.at(2)),
        4 => are_two_options(words.at(2), words.at(3)),
        _ => false,
    }
}

fn are_two_options(word: &[u8], other: &[u8]) -> bool
    ensures { result ≡ are_options (word.now ∷ other.now ∷ []) }
{
    sets_statements(word) && sets_steps(other) || sets_steps(word) && sets_statements(other)
}

// The limits that the options behind the account set.
fn read_limits(words: &Words<'_>) -> Result<JobLimits, Stop<DeckError>>
    requires { (nat_lt 1 (length words.now) && are_options (drop 2 words.now)) ≡ true }
    ensures answers { Answers (limits_refusal (drop 2 words.now)) result }
    ensures value { IfOk result (λ limits. limits ≡ fold with_option usual_limits (drop 2 words.now)) }
{
    match words.len() {
        2 => Ok(JobLimits::usual()),
        3 => read_option(words.at(2)),
        _ => read_two_options(words.at(2), words.at(3)),
    }
}

fn read_option(word: &[u8]) -> Result<JobLimits, Stop<DeckError>>
    requires { are_options (word.now ∷ []) ≡ true }
    ensures answers { Answers (limits_refusal (word.now ∷ [])) result }
    ensures value { IfOk result (λ limits. limits ≡ fold with_option usual_limits (word.now ∷ [])) }
{
    let number = option_number(word)?;
    with_option(JobLimits::usual(), word, number)
}

// The numbers of both are read before either's range is tried.
fn read_two_options(word: &[u8], other: &[u8]) -> Result<JobLimits, Stop<DeckError>>
    requires { are_options (word.now ∷ other.now ∷ []) ≡ true }
    ensures answers { Answers (limits_refusal (word.now ∷ other.now ∷ [])) result }
    ensures value { IfOk result (λ limits. limits ≡ fold with_option usual_limits (word.now ∷ other.now ∷ [])) }
{
    let number = option_number(word)?;
    let last = option_number(other)?;
    with_two_options(word, number, other, last)
}

fn with_two_options(
    word: &[u8],
    number: u64,
    other: &[u8],
    last: u64,
) -> Result<JobLimits, Stop<DeckError>>
    requires first { number ≡ value_of (option_text word.now) }
    requires second { last ≡ value_of (option_text other.now) }
    ensures answers { Answers (unless (is_limit word.now && is_limit other.now) BadCard) result }
    ensures value { IfOk result (λ limits. limits ≡ with_option (with_option usual_limits word.now) other.now) }
{
    let limits = with_option(JobLimits::usual(), word, number)?;
    with_option(limits, other, last)
}

// The job that the words of its card open.
pub(crate) fn read_job(alloc: Global, words: &Words<'_>) -> Result<OpenJob, Stop<DeckError>>
    ensures answers { Answers (job_refusal words.now) result }
    ensures value { IfOk result (λ job. job ≡ job_on words.now) }
{
    if words.len() < 2 || !has_options(words) {
        return Err(Stop::Refused(DeckError::BadCard));
    }
    let account = name_of(words.at(1))?;
    let limits = read_limits(words)?;
    Ok(OpenJob::new(alloc, account, limits))
}

// ---- `$UNIT`

// The unit card of these words.
fn read_unit(words: &Words<'_>) -> Result<UnitCard, Stop<DeckError>>
    ensures answers { Answers (unit_card_refusal words.now) result }
    ensures value { IfOk result (λ card. card ≡ unit_on words.now) }
{
    if words.len() != 3 {
        return Err(Stop::Refused(DeckError::BadCard));
    }
    let unit = number_of(words.at(1))?;
    let set = name_of(words.at(2))?;
    Ok(UnitCard { unit, set })
}

// ---- where a job is open

/// Whether a line is a card where a job is open: it begins with a dollar sign, and not with two.
pub fn is_job_card_line(text: &[u8]) -> bool
    ensures { result ≡ is_job_card_line text.now }
{
    begins_with_dollar(text) && !begins_with_dollar(&text[1..])
}

// Any other line, with one dollar sign at its front in place of two.
fn program_line(alloc: Global, text: &[u8]) -> Result<Line, Stop<DeckError>>
    ensures answers { Answers (line_refusal 200 text.now) result }
    ensures memory { IsErrOf result Stop.Memory → line_refusal 200 text.now ≡ None }
    ensures value { IfOk result (λ line. line ≡ program_text text.now) }
{
    let line = line_of(alloc, text, MOST_LINE_CHARACTERS)?;
    if begins_with_dollar(text) {
        return line_of(alloc, &text[1..], MOST_LINE_CHARACTERS);
    }
    Ok(line)
}

impl OpenJob {
    /// A job without lines so far.
    pub fn new(alloc: Global, account: Name, limits: JobLimits) -> OpenJob
        ensures { result ≡ opened_job account limits }
    {
        OpenJob {
            account,
            limits,
            ties: UnitCards::new(alloc),
            lines: Lines::new(alloc),
        }
    }

    /// Takes a line of the job: whether it ends the job. Else it is put to those before it.
    ///
    /// A line that begins with one `$` is a card: `$EOJ`, or before the first line of the program a `$UNIT` card. Any other is
    /// a line of the program or of its data, with `$$` at its front standing for `$`.
    ///
    /// # Errors
    ///
    /// The line's refusal; `Memory` where a growth was refused, for which a line that is too long or has a bad character has
    /// no need. The job is then unchanged.
    pub fn take_line(&mut self, alloc: Global, text: &[u8]) -> Result<bool, Stop<DeckError>>
        ensures answers { Answers (job_line_refusal self.old text.now) result }
        ensures ends { IfOk result (λ ends. ends ≡ ends_job text.now) }
        ensures taken { IfOk result (λ ends. self.new ≡ (if ends then self.old else after_job_line self.old text.now)) }
        ensures unchanged { OnErr result (self.new ≡ self.old) }
        ensures memory { IsErrOf result Stop.Memory → line_refusal 200 text.now ≡ None }
    {
        if is_job_card_line(text) {
            return self.take_card(alloc, text);
        }
        self.take_program_line(alloc, text)?;
        Ok(false)
    }

    // A line that is no card.
    fn take_program_line(&mut self, alloc: Global, text: &[u8]) -> Result<(), Stop<DeckError>>
        ensures answers { Answers (line_refusal 200 text.now) result }
        ensures taken { OnOk result (self.new ≡ with_program_line self.old (program_text text.now)) }
        ensures unchanged { OnErr result (self.new ≡ self.old) }
        ensures memory { IsErrOf result Stop.Memory → line_refusal 200 text.now ≡ None }
    {
        let line = program_line(alloc, text)?;
        self.lines.push(line)?;
        Ok(())
    }

    // A line that is a card: whether it ends the job.
    fn take_card(&mut self, alloc: Global, text: &[u8]) -> Result<bool, Stop<DeckError>>
        ensures answers { Answers (option_or (line_refusal 200 text.now) (job_card_refusal (card_among (words text.now)) (has_begun self.old) (words text.now))) result }
        ensures ends { IfOk result (λ ends. ends ≡ is_card card.EndJob (card_among (words text.now))) }
        ensures taken { IfOk result (λ ends. self.new ≡ (if ends then self.old else with_unit self.old (unit_on (words text.now)))) }
        ensures unchanged { OnErr result (self.new ≡ self.old) }
        ensures memory { IsErrOf result Stop.Memory → line_refusal 200 text.now ≡ None }
    {
        check_line(text, MOST_LINE_CHARACTERS)?;
        let words = Words::of(text);
        self.take_words(&words)
    }

    // The words of a card: whether it ends the job.
    fn take_words(&mut self, words: &Words<'_>) -> Result<bool, Stop<DeckError>>
        ensures answers { Answers (job_card_refusal (card_among words.now) (has_begun self.old) words.now) result }
        ensures ends { IfOk result (λ ends. ends ≡ is_card card.EndJob (card_among words.now)) }
        ensures taken { IfOk result (λ ends. self.new ≡ (if ends then self.old else with_unit self.old (unit_on words.now))) }
        ensures unchanged { OnErr result (self.new ≡ self.old) }
    {
        match words.card() {
            Some(Card::EndJob) if words.len() == 1 => Ok(true),
            Some(Card::EndJob) => Err(Stop::Refused(DeckError::BadCard)),
            Some(Card::Tie) => {
                self.take_unit(words)?;
                Ok(false)
            }
            None if !self.has_begun() => Err(Stop::Refused(DeckError::UnknownCard)),
            _ => Err(Stop::Refused(DeckError::OutOfPlace)),
        }
    }

    // A unit card.
    fn take_unit(&mut self, words: &Words<'_>) -> Result<(), Stop<DeckError>>
        ensures answers { Answers (option_or (unless (not (has_begun self.old)) OutOfPlace) (unit_card_refusal words.now)) result }
        ensures taken { OnOk result (self.new ≡ with_unit self.old (unit_on words.now)) }
        ensures unchanged { OnErr result (self.new ≡ self.old) }
    {
        if self.has_begun() {
            return Err(Stop::Refused(DeckError::OutOfPlace));
        }
        let card = read_unit(words)?;
        self.ties.push(card)?;
        Ok(())
    }

    // Whether the program has a line.
    fn has_begun(&self) -> bool
        ensures { result ≡ has_begun self.now }
    {
        !self.lines.is_empty()
    }

    /// The job as it is to be loaded, with this number.
    pub fn into_deck(self, number: u64) -> JobDeck
        ensures { result ≡ job_deck_of number self }
    {
        JobDeck {
            number,
            account: self.account,
            limits: self.limits,
            ties: self.ties,
            lines: self.lines,
        }
    }
}
