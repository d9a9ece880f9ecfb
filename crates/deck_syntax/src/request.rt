//! What a line of the stream asks for: a command, lines of a permission list or of a job, turns, the deck's end, or nothing.
ghost use Rattle.std.specs.Prelude.{◌≡◌, ◌<◌, true, None, length, unwrap_or, OnSome, IfOk, IsErrOf};
ghost use Rattle.std.specs.Result.{result_err};
ghost use Rattle.std.specs.List.{list_all};
ghost use Rattle.mon_text.specs.Lines.{words};
ghost use Rattle.mon_catalogue.specs.declared.mode.Mode.TheVariants.{Seq};
ghost use Rattle.deck_lines.specs.declared.command.Command.TheVariants as command;
ghost use Rattle.deck_syntax.specs.declared.request.Request.TheVariants.{Asks};
ghost use Rattle.deck_lines.specs.Cards.{card_among, word_at};
ghost use Rattle.deck_lines.specs.Refusing.{line_refusal, is_dollar_line, further_refusal};
ghost use Rattle.deck_syntax.specs.Requests.{names_refusal, two_names_refusal, mode_on, set_acl_on, stream_refusal, stream_card_refusal, card_request, request_on, behind_word, end_refusal, list_text_refusal, list_line_refusal, is_list_character};
ghost use Rattle.deck_syntax.specs.inner.Parts.{creation_refusal, set_acl_refusal, catalog_refusal};
ghost use Rattle.deck_lines.specs.inner.Stops.{Answers};
ghost use Rattle.std.specs.Option.{option_or};

use crate::job::{OpenJob, read_job};
use acl_text::{AclText, Bytes};
use deck_lines::{
    Card, Command, DeckError, MOST_LINE_CHARACTERS, Turn, Words, begins_with_dollar, check_line,
    from_blank, from_word, is_blank, name_of, read_turn,
};
use mon_catalogue::{Mode, read_mode};
use mon_text::{Name, Stop};
use std::alloc::Global;

/// What a line of the stream asks for.
#[derive(Drop)]
pub enum Request {
    /// Nothing: a blank line.
    Nothing,
    /// A command.
    Asks(Command),
    /// The permission list of a data set is to be set, and its lines follow.
    OpensList(Name, Name),
    /// A job, whose lines follow.
    OpensJob(OpenJob),
    /// Turns for a slot.
    Turns(Turn),
    /// Turns until all slots are empty.
    Drains,
    /// The deck ends.
    Stops,
}

/// What a line of the stream asks for.
///
/// # Errors
///
/// The line's refusal; `Memory` where a growth was refused, for which a line that is too long or has a bad character has no
/// need.
pub fn read_request(alloc: Global, text: &[u8]) -> Result<Request, Stop<DeckError>>
    ensures answers { Answers (option_or (line_refusal 200 text.now) (stream_refusal text.now)) result }
    ensures memory { IsErrOf result Stop.Memory → line_refusal 200 text.now ≡ None }
    ensures value { IfOk result (λ request. request ≡ request_on text.now) }
{
    check_line(text, MOST_LINE_CHARACTERS)?;
    if is_blank(text) {
        return Ok(Request::Nothing);
    }
    read_card(alloc, text, &Words::of(text))
}

// What the card of these words asks for. The line is theirs: behind the names of a `$SETACL` card all of it counts.
fn read_card(alloc: Global, line: &[u8], words: &Words<'_>) -> Result<Request, Stop<DeckError>>
    ensures answers { Answers (stream_card_refusal (card_among words.now) words.now) result }
    ensures value { IfOk result (λ request. request ≡ card_request (card_among words.now) line.now words.now) }
{
    match words.card() {
        None => Err(Stop::Refused(DeckError::UnknownCard)),
        Some(Card::Create) => read_create(words),
        Some(Card::Delete) => {
            let (account, name) = two_names(words)?;
            Ok(Request::Asks(Command::Delete { account, name }))
        }
        Some(Card::ShowAcl) => {
            let (account, name) = two_names(words)?;
            Ok(Request::Asks(Command::ShowAcl { account, name }))
        }
        Some(Card::List) => {
            let (account, name) = two_names(words)?;
            Ok(Request::Asks(Command::List { account, name }))
        }
        Some(Card::SetAcl) => read_set_acl(alloc, line, words),
        Some(Card::Catalog) => read_catalog(words),
        Some(Card::Job) => Ok(Request::OpensJob(read_job(alloc, words)?)),
        Some(Card::Turn) => Ok(Request::Turns(read_turn(words)?)),
        Some(Card::Drain) => {
            check_alone(words)?;
            Ok(Request::Drains)
        }
        Some(Card::Stop) => {
            check_alone(words)?;
            Ok(Request::Stops)
        }
        Some(_) => Err(Stop::Refused(DeckError::OutOfPlace)),
    }
}

// The account and the data set that a card names.
fn names_on(words: &Words<'_>) -> Result<(Name, Name), Stop<DeckError>>
    requires { 2 < length words.now }
    ensures answers { Answers (names_refusal words.now) result }
    ensures account { IfOk result (λ names. names.0 ≡ word_at 1 words.now) }
    ensures name { IfOk result (λ names. names.1 ≡ word_at 2 words.now) }
{
    let account = name_of(words.at(1))?;
    let name = name_of(words.at(2))?;
    Ok((account, name))
}

// The account and the data set of a card with no further words.
fn two_names(words: &Words<'_>) -> Result<(Name, Name), Stop<DeckError>>
    ensures answers { Answers (two_names_refusal words.now) result }
    ensures account { IfOk result (λ names. names.0 ≡ word_at 1 words.now) }
    ensures name { IfOk result (λ names. names.1 ≡ word_at 2 words.now) }
{
    if words.len() != 3 {
        return Err(Stop::Refused(DeckError::BadCard));
    }
    names_on(words)
}

fn read_create(words: &Words<'_>) -> Result<Request, Stop<DeckError>>
    ensures answers { Answers (creation_refusal words.now) result }
    ensures value { IfOk result (λ request. request ≡ Asks (command.Create (word_at 1 words.now) (word_at 2 words.now) (unwrap_or (mode_on words.now) Seq))) }
{
    let Some(mode) = mode_on(words) else {
        return Err(Stop::Refused(DeckError::BadCard));
    };
    let (account, name) = names_on(words)?;
    Ok(Request::Asks(Command::Create {
        account,
        name,
        mode,
    }))
}

// The mode of a `$CREATE` card, where its words are so many as they may be.
fn mode_on(words: &Words<'_>) -> Option<Mode>
    ensures mode { result ≡ mode_on words.now }
    ensures names { OnSome result (2 < length words.now) }
{
    match words.len() {
        3 => Some(Mode::Seq),
        4 => read_mode(words.at(3)),
        _ => None,
    }
}

fn read_set_acl(alloc: Global, line: &[u8], words: &Words<'_>) -> Result<Request, Stop<DeckError>>
    ensures answers { Answers (set_acl_refusal words.now) result }
    ensures value { IfOk result (λ request. request ≡ set_acl_on line.now words.now) }
{
    if words.len() < 3 {
        return Err(Stop::Refused(DeckError::BadCard));
    }
    let (account, name) = names_on(words)?;
    if words.len() == 3 {
        return Ok(Request::OpensList(account, name));
    }
    let text = Vec::from_slice(alloc, behind_word(behind_word(behind_word(line))))?;
    Ok(Request::Asks(Command::SetAcl {
        account,
        name,
        text: AclText::Short(Bytes::new(text)),
    }))
}

fn read_catalog(words: &Words<'_>) -> Result<Request, Stop<DeckError>>
    ensures answers { Answers (catalog_refusal words.now) result }
    ensures value { IfOk result (λ request. request ≡ Asks (command.Catalog (word_at 1 words.now))) }
{
    if words.len() != 2 {
        return Err(Stop::Refused(DeckError::BadCard));
    }
    let account = name_of(words.at(1))?;
    Ok(Request::Asks(Command::Catalog { account }))
}

// A card that has no further words.
fn check_alone(words: &Words<'_>) -> Result<(), Stop<DeckError>>
    ensures { Answers (further_refusal words.now) result }
{
    if words.len() != 1 {
        return Err(Stop::Refused(DeckError::BadCard));
    }
    Ok(())
}

// What stands behind the first word.
fn behind_word(text: &[u8]) -> &[u8]
    ensures { result.now ≡ behind_word text.now }
{
    from_blank(from_word(text))
}

/// Whether a line where a permission list is open ends that list.
///
/// # Errors
///
/// The line's refusal; `Memory` where a growth was refused, for which only a card has need.
pub fn ends_list(alloc: Global, text: &[u8]) -> Result<bool, Stop<DeckError>>
    ensures answers { Answers (list_line_refusal text.now) result }
    ensures memory { IsErrOf result Stop.Memory → (is_dollar_line text.now ≡ true) × (line_refusal 200 text.now ≡ None) }
    ensures value { IfOk result (λ ends. ends ≡ is_dollar_line text.now) }
{
    if begins_with_dollar(text) {
        read_end(text)?;
        return Ok(true);
    }
    match check_list_line(text) {
        Ok(()) => Ok(false),
        Err(code) => Err(Stop::Refused(code)),
    }
}

// A line of a list that is a card has to be `$ENDACL`, alone.
fn read_end(text: &[u8]) -> Result<(), Stop<DeckError>>
    ensures answers { Answers (option_or (line_refusal 200 text.now) (end_refusal (words text.now))) result }
    ensures memory { IsErrOf result Stop.Memory → line_refusal 200 text.now ≡ None }
{
    check_line(text, MOST_LINE_CHARACTERS)?;
    let words = Words::of(text);
    if words.card() != Some(Card::EndAcl) {
        return Err(Stop::Refused(DeckError::OutOfPlace));
    }
    check_alone(&words)
}

// Another line of a list may have tabs.
fn check_list_line(text: &[u8]) -> Result<(), DeckError>
    ensures { result_err result ≡ list_text_refusal text.now }
{
    if text.len() > MOST_LINE_CHARACTERS {
        return Err(DeckError::LineTooLong);
    }
    if !has_list_characters(text) {
        return Err(DeckError::BadCharacter);
    }
    Ok(())
}

fn has_list_characters(text: &[u8]) -> bool
    ensures { result ≡ list_all is_list_character text.now }
{
    let mut good = true;
    for byte in text {
        good &= is_list_character(*byte);
    }
    good
}

fn is_list_character(byte: u8) -> bool
    ensures { result ≡ is_list_character byte }
{
    byte == b'\t' || (b' '..=b'~').contains(&byte)
}
