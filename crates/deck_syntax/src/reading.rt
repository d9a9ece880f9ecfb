//! Reading a deck up to its stream, line by line: what a line of each section adds.
ghost use Rattle.std.specs.Prelude.{◌≡◌, ◌+◌, ◌<◌, ◌≤◌, ◌^◌, ◌⊎◌, [], ◌∷◌, ◌++◌, not, true, false, None, Some, IsSome, IsErrOf, drop, if◌then◌else◌, IfOk, OnOk, OnErr};
ghost use Rattle.std.specs.List.{list_all};
ghost use Rattle.mon_text.specs.Names.{is_name};
ghost use Rattle.mon_text.specs.Lines.{is_blank_line, words};
ghost use Rattle.mon_catalogue.specs.Progress.{lines_taken, step, stopped, is_due};
ghost use Rattle.deck_lines.specs.declared.card.Card.TheVariants as card;
ghost use Rattle.deck_lines.specs.declared.deck_error.DeckError.TheVariants.{BadName};
ghost use Rattle.deck_lines.specs.Refusing.{unless, line_refusal, lone_card_refusal, is_dollar_line};
ghost use Rattle.deck_syntax.specs.Sections.{account_on, account_refusal, opening_refusal, accounts_refusal, version_on, table_after, catalogue_refusal, ends_catalogue, sets_of};
ghost use Rattle.deck_syntax.specs.inner.Parts.{words_refusal, version_in, heading_refusal};
ghost use Rattle.deck_lines.specs.inner.Stops.{Answers};
ghost use Rattle.std.specs.Option.{option_or};

use deck_lines::{
    Card, DeckError, MOST_LINE_CHARACTERS, Words, begins_with_dollar, check_line, is_blank,
    name_of, stop_of_account, stop_of_catalogue,
};
use mon_access::{Account, Accounts, Groups};
use mon_catalogue::{Catalogue, Loading, Version};
use mon_text::Stop;
use std::alloc::Global;

/// How many characters a line of the catalogue has at the most.
pub const MOST_CATALOGUE_LINE_CHARACTERS: usize = 5_000;

// A line that has to be this card, alone.
fn expect_card(words: &Words<'_>, due: Card) -> Result<(), Stop<DeckError>>
    ensures { Answers (lone_card_refusal due words.now) result }
{
    match words.card() {
        None => Err(Stop::Refused(DeckError::UnknownCard)),
        Some(card) if card != due => Err(Stop::Refused(DeckError::OutOfPlace)),
        Some(_) if words.len() != 1 => Err(Stop::Refused(DeckError::BadCard)),
        Some(_) => Ok(()),
    }
}

// The version of the catalogue's text, by its card.
fn read_heading(words: &Words<'_>) -> Result<Version, Stop<DeckError>>
    ensures answers { Answers (heading_refusal words.now) result }
    ensures value { IfOk result (λ version. version ≡ version_in words.now) }
{
    match words.card() {
        None => Err(Stop::Refused(DeckError::UnknownCard)),
        Some(Card::Catalogue) => match version_on(words) {
            Some(version) => Ok(version),
            None => Err(Stop::Refused(DeckError::BadCard)),
        },
        Some(_) => Err(Stop::Refused(DeckError::OutOfPlace)),
    }
}

fn version_on(words: &Words<'_>) -> Option<Version>
    ensures { result ≡ version_on words.now }
{
    match words.len() {
        1 => Some(Version::One),
        2 if words.at(1) == b"2".as_slice() => Some(Version::Two),
        _ => None,
    }
}

// The account that these words give.
#[tactic(auto, using(crate::proofs::AccountWords::account_words))]
fn read_account(alloc: Global, words: &Words<'_>) -> Result<Account, Stop<DeckError>>
    ensures answers { Answers (words_refusal words.now) result }
    ensures value { IfOk result (λ account. account ≡ account_on words.now) }
{
    if words.len() < 2 {
        return Err(Stop::Refused(DeckError::BadCard));
    }
    let name = name_of(words.at(0))?;
    let primary = name_of(words.at(1))?;
    let groups = read_groups(alloc, words)?;
    Ok(Account {
        name,
        primary,
        groups,
    })
}

// The names that these words are from the third one on.
fn read_groups(alloc: Global, words: &Words<'_>) -> Result<Groups, Stop<DeckError>>
    ensures answers { Answers (unless (list_all is_name (drop 2 words.now)) BadName) result }
    ensures value { IfOk result (λ groups. groups ≡ drop 2 words.now) }
{
    let mut groups = Groups::new(alloc);
    for place in 2..words.len() {
        groups.push(name_of(words.at(place))?)?;
    }
    Ok(groups)
}

// Puts the account that these words give last in the table.
fn add_account(
    alloc: Global,
    accounts: &mut Accounts,
    words: &Words<'_>,
) -> Result<(), Stop<DeckError>>
    ensures answers { Answers (account_refusal accounts.old words.now) result }
    ensures added { OnOk result (accounts.new ≡ accounts.old ++ account_on words.now ∷ []) }
    ensures unchanged { OnErr result (accounts.new ≡ accounts.old) }
{
    match accounts.add(read_account(alloc, words)?) {
        Ok(()) => Ok(()),
        Err(error) => Err(stop_of_account(error)),
    }
}

/// Whether a line before the account table is `$ACCOUNTS`: else it is blank.
///
/// # Errors
///
/// The line's refusal; `Memory` where a growth was refused, for which a line that is too long or has a bad character has no
/// need.
pub fn opens_accounts(alloc: Global, text: &[u8]) -> Result<bool, Stop<DeckError>>
    ensures answers { Answers (option_or (line_refusal 200 text.now) (opening_refusal text.now)) result }
    ensures memory { IsErrOf result Stop.Memory → line_refusal 200 text.now ≡ None }
    ensures value { IfOk result (λ opens. opens ≡ not (is_blank_line text.now)) }
{
    check_line(text, MOST_LINE_CHARACTERS)?;
    if is_blank(text) {
        return Ok(false);
    }
    expect_card(&Words::of(text), Card::Accounts)?;
    Ok(true)
}

/// Takes a line of the account table: the version of the catalogue's text where it is `$CATALOGUE`. Else its account, if it has
/// one, is put last.
///
/// # Errors
///
/// The line's refusal; `Memory` where a growth was refused, for which a line that is too long or has a bad character has no
/// need. The table is then unchanged.
pub fn put_account_line(
    alloc: Global,
    accounts: &mut Accounts,
    text: &[u8],
) -> Result<Option<Version>, Stop<DeckError>>
    ensures answers { Answers (option_or (line_refusal 200 text.now) (accounts_refusal accounts.old text.now)) result }
    ensures ends { IfOk result (λ version. version ≡ (if is_dollar_line text.now then Some (version_in (words text.now)) else None)) }
    ensures table { OnOk result (accounts.new ≡ (if is_dollar_line text.now then accounts.old else table_after accounts.old text.now)) }
    ensures unchanged { OnErr result (accounts.new ≡ accounts.old) }
    ensures memory { IsErrOf result Stop.Memory → line_refusal 200 text.now ≡ None }
{
    check_line(text, MOST_LINE_CHARACTERS)?;
    let words = Words::of(text);
    if begins_with_dollar(text) {
        let version = read_heading(&words)?;
        return Ok(Some(version));
    }
    if !is_blank(text) {
        add_account(alloc, accounts, &words)?;
    }
    Ok(None)
}

/// Takes a line of the catalogue where it is a record of a data set that is not whole by it, and there is memory for it: whether so
/// it is. Otherwise nothing has changed. It stays a call of its own, since most lines of a catalogue are records, and those need no
/// room for what else a line may bring.
#[inline(never)]
#[tactic(auto, using(crate::proofs::CatalogueLines::goes_on_within, crate::proofs::CatalogueLines::taken_within))]
pub fn put_record_line(loading: &mut Loading, text: &[u8]) -> bool
    requires { lines_taken loading.old < 2 ^ 63 }
    ensures good { result ≡ true → option_or (line_refusal 5000 text.now) (catalogue_refusal loading.old text.now) ≡ None }
    ensures step { result ≡ true → (ends_catalogue loading.old text.now ≡ false) × (loading.new ≡ step loading.old text.now) }
    ensures unchanged { result ≡ false → loading.new ≡ loading.old }
    ensures counted { lines_taken loading.new ≤ lines_taken loading.old + 1 }
{
    match check_line(text, MOST_CATALOGUE_LINE_CHARACTERS) {
        Ok(()) => loading.take_record(text),
        Err(_) => false,
    }
}

/// Takes a line of the catalogue: whether it is `$STREAM`. Else it is the next line of the catalogue's text.
///
/// # Errors
///
/// The line's refusal; `Memory` where a growth was refused, for which a line that is too long or has a bad character has no
/// need. The text is then as it was; or it has stopped, where it was the text that refused the line or wanted memory.
pub fn put_catalogue_line(
    alloc: Global,
    loading: &mut Loading,
    text: &[u8],
) -> Result<bool, Stop<DeckError>>
    requires { lines_taken loading.old < 2 ^ 63 }
    ensures answers { Answers (option_or (line_refusal 5000 text.now) (catalogue_refusal loading.old text.now)) result }
    ensures ends { IfOk result (λ ends. ends ≡ ends_catalogue loading.old text.now) }
    ensures step { IfOk result (λ ends. loading.new ≡ (if ends then loading.old else step loading.old text.now)) }
    ensures stopped { OnErr result ((loading.new ≡ loading.old) ⊎ IsSome (stopped loading.new)) }
    ensures memory { IsErrOf result Stop.Memory → line_refusal 5000 text.now ≡ None }
    ensures counted { lines_taken loading.new ≤ lines_taken loading.old + 1 }
{
    check_line(text, MOST_CATALOGUE_LINE_CHARACTERS)?;
    if ends_catalogue(alloc, loading, text)? {
        return Ok(true);
    }
    match loading.take(text) {
        Ok(()) => Ok(false),
        Err(error) => Err(stop_of_catalogue(error)),
    }
}

// Whether a line of the catalogue is `$STREAM`.
fn ends_catalogue(alloc: Global, loading: &Loading, line: &[u8]) -> Result<bool, Stop<DeckError>>
    ensures answers { Answers (if ends_catalogue loading.now line.now then lone_card_refusal card.Stream (words line.now) else None) result }
    ensures value { IfOk result (λ ends. ends ≡ ends_catalogue loading.now line.now) }
{
    if !loading.due() || is_blank(line) {
        return Ok(false);
    }
    let words = Words::of(line);
    if words.card() == Some(Card::Set) {
        return Ok(false);
    }
    expect_card(&words, Card::Stream)?;
    Ok(true)
}

/// The data sets of a text that is whole.
pub fn finish_catalogue(loading: Loading) -> Catalogue
    requires { is_due loading ≡ true }
    ensures { result ≡ sets_of loading }
{
    // Where a `$SET` line is due nothing was refused, and each set is whole.
    let Ok(catalogue) = loading.finish() else {
        unreachable!();
    };
    catalogue
}
