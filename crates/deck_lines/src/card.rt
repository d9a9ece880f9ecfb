//! The cards of a deck, by their first words.
ghost use Rattle.std.specs.Prelude.{◌≡◌, bytes_eq};
ghost use Rattle.std.specs.Map.{lookup};
ghost use Rattle.deck_lines.specs.Cards.{card_of, stream_cards, job_cards};

/// A card that is known.
#[derive(Clone, Copy, Debug, PartialEq, Eq)]
pub enum Card {
    /// `$ACCOUNTS` begins the account table.
    Accounts,
    /// `$CATALOGUE` begins the data sets.
    Catalogue,
    /// `$SET` begins a data set.
    Set,
    /// `$STREAM` begins the commands, jobs and turns.
    Stream,
    /// `$CREATE` makes a data set.
    Create,
    /// `$DELETE` deletes a data set.
    Delete,
    /// `$SETACL` puts another permission list into a data set.
    SetAcl,
    /// `$ENDACL` ends the lines of a permission list.
    EndAcl,
    /// `$SHOWACL` shows the permission list of a data set.
    ShowAcl,
    /// `$LIST` lists the records of a data set.
    List,
    /// `$CATALOG` names the data sets.
    Catalog,
    /// `$JOB` opens a job.
    Job,
    /// `$UNIT` ties a unit of the job to a data set.
    Tie,
    /// `$EOJ` ends the job's lines.
    EndJob,
    /// `$TURN` gives turns to a slot.
    Turn,
    /// `$DRAIN` gives turns until all slots are empty.
    Drain,
    /// `$STOP` ends the deck.
    Stop,
}

/// The card that a line's first word names.
pub fn card_of(word: &[u8]) -> Option<Card>
    ensures { result ≡ card_of word.now }
{
    if word == b"$ACCOUNTS".as_slice() {
        Some(Card::Accounts)
    } else if word == b"$CATALOGUE".as_slice() {
        Some(Card::Catalogue)
    } else if word == b"$SET".as_slice() {
        Some(Card::Set)
    } else if word == b"$STREAM".as_slice() {
        Some(Card::Stream)
    } else {
        stream_card_of(word)
    }
}

// The card of the stream that it names.
#[inline(always)]
fn stream_card_of(word: &[u8]) -> Option<Card>
    ensures { result ≡ lookup (bytes_eq word.now) stream_cards }
{
    if word == b"$CREATE".as_slice() {
        Some(Card::Create)
    } else if word == b"$DELETE".as_slice() {
        Some(Card::Delete)
    } else if word == b"$SETACL".as_slice() {
        Some(Card::SetAcl)
    } else if word == b"$ENDACL".as_slice() {
        Some(Card::EndAcl)
    } else if word == b"$SHOWACL".as_slice() {
        Some(Card::ShowAcl)
    } else if word == b"$LIST".as_slice() {
        Some(Card::List)
    } else if word == b"$CATALOG".as_slice() {
        Some(Card::Catalog)
    } else if word == b"$STOP".as_slice() {
        Some(Card::Stop)
    } else {
        job_card_of(word)
    }
}

// The card of jobs or of turns that it names.
#[inline(always)]
fn job_card_of(word: &[u8]) -> Option<Card>
    ensures { result ≡ lookup (bytes_eq word.now) job_cards }
{
    if word == b"$JOB".as_slice() {
        Some(Card::Job)
    } else if word == b"$UNIT".as_slice() {
        Some(Card::Tie)
    } else if word == b"$EOJ".as_slice() {
        Some(Card::EndJob)
    } else if word == b"$TURN".as_slice() {
        Some(Card::Turn)
    } else if word == b"$DRAIN".as_slice() {
        Some(Card::Drain)
    } else {
        None
    }
}
