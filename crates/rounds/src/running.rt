//! A round's run: its deck is fed text by text, and where each text's printout ends is noted.
ghost use Rattle.std.specs.Prelude.{◌≡◌, ◌⊎◌, ℕ, List, ◌+◌, ◌<◌, ◌^◌, [], ◌∷◌, ◌++◌, true, length, Ok, Err, IfOk, OnOk, codes};
ghost use Rattle.mon_access.specs.declared.account.Account.{Account};
ghost use Rattle.mon_catalogue.specs.Sets.{Sets};
ghost use Rattle.mon_device.specs.Putting.{Standing, Puts};
ghost use Rattle.scheduler.specs.Marks.{Marks};
ghost use Rattle.deck_lines.specs.declared.deck_error.DeckError.{DeckError as AnyCode};
ghost use Rattle.deck_syntax.specs.Decks.{Refused};
ghost use Rattle.deck_driver.specs.declared.options.Counts.{Counts as AnyCounts};
ghost use Rattle.deck_driver.specs.declared.options.Options.{Options as AnyOptions};
ghost use Rattle.deck_driver.specs.Feeds.{EndsLine, IsReadBack, is_reading};
ghost use Rattle.deck_driver.specs.Abstraction.{Took};
ghost use Rattle.deck_run.specs.Audited.{end_told};
ghost use Rattle.deck_run.specs.Runs.{deck_ending};
ghost use Rattle.preflight.specs.declared.submission.Submission.{Submission as AnySubmission};
ghost use Rattle.preflight.specs.Rounds.{Handed};
ghost use Rattle.rounds.specs.Compositions.{with_fence, front_text, round_text, IsGoodRound};
ghost use Rattle.rounds.specs.Serving.{IsServed, StopsWithin, StopsInText, StopsAtEnd, StopsIn, Stands, BeginsTelling, BeginsEnding, IsBad, IsBadAtEnd, Finishes, HasEnded};

use audit::print_stopped;
use deck_driver::{DeckFeed, Options, RunError};
use deck_lines::DeckError;
use mon_device::{Failed, Sink, TextSink};
use mon_monitor::Printed;
use preflight::Submission;
use std::alloc::{AllocError, Global};

/// What a round wrote, and where in it each text's printout ends.
#[derive(Drop)]
pub struct Round {
    /// The printouts of the texts, one behind the other, and then the catalogue.
    pub output: Vec<u8>,
    /// For each text, where its printout ends in the output.
    pub ends: Vec<usize>,
}

/// Why a round was not served.
#[derive(Clone, Copy)]
pub enum RoundError {
    /// The deck is refused at this line, counted from 1. The deck of admitted texts behind a good head never is.
    Refused(u64, DeckError),
    /// A growth was refused, or the audit was not taken, while this text was served, counted from 1: 0 where it was the head, and one
    /// more than there are texts where it was the end.
    Memory {
        /// The number of the text.
        text: u64,
    },
}

// A round on its way: what was printed stands in the output, and where it ended behind each text.
#[derive(Drop)]
pub(crate) struct Running {
    pub(crate) feed: DeckFeed,
    pub(crate) printed: Printed,
    pub(crate) output: Vec<u8>,
    pub(crate) ends: Vec<usize>,
}

/// Serves a round: the texts are run as one deck, behind a head of accounts and a catalogue, each as if it were alone. What happens is
/// put to the audit, a line each, as it happens, and written behind each text; no memory is taken for that.
///
/// Fewer than 2^63 bytes may be served in all. The head's memory is let go once it is served.
///
/// # Errors
///
/// `Refused` at the first line that is refused; `Memory` where a growth was refused, or the audit was not taken.
pub fn run_round<A: Sink>(
    alloc: Global,
    options: Options,
    head: Vec<u8>,
    texts: &[Submission],
    audit: &mut A,
) -> Result<Round, RoundError>
    requires { length (round_text head.items texts.now) < 2 ^ 63 }
    ensures served { IfOk result (λ round. (marks : Marks) × IsServed options marks head.items texts.now round (A.standing audit.old) (A.standing audit.new)) }
    ensures refused { (n : ℕ) (code : AnyCode) → result ≡ Err (RoundError.Refused n code) → deck_ending (round_text head.items texts.now) ≡ Refused n code }
    ensures never { (table : List (List ℕ)) (accounts : List Account) (sets : Sets) (handed : List Handed) → IsGoodRound head.items texts.now table accounts sets handed
        → (n : ℕ) (code : AnyCode) → result ≡ Err (RoundError.Refused n code) → ⊥ }
    ensures memory { (k : ℕ) → result ≡ Err (RoundError.Memory k) → StopsIn options head.items texts.now k (A.standing audit.old) (A.standing audit.new) }
{
    crate::laws::each_its_part();
    preflight::laws::never_refused();
    match serve_round(alloc, options, head, texts, audit) {
        Ok(round) => {
            tell_end(options.check, audit);
            Ok(round)
        }
        Err(error) => Err(error),
    }
}

// Tells the audit that the round's deck has come to its end, unless it was only to be checked.
#[tactic(auto, using(mon_device::proofs::Putting::puts_nothing))]
fn tell_end<A: Sink>(check: bool, audit: &mut A)
    ensures { (counts : AnyCounts) → Puts (A.standing audit.old) (A.standing audit.new) (end_told check (Ok counts)) }
{
    if !check {
        print_stopped(audit);
    }
}

// A round is served, whatever its deck is.
fn serve_round<A: Sink>(
    alloc: Global,
    options: Options,
    head: Vec<u8>,
    texts: &[Submission],
    audit: &mut A,
) -> Result<Round, RoundError>
    requires { length (round_text head.items texts.now) < 2 ^ 63 }
    ensures ended { IfOk result (λ round. (marks : Marks) × HasEnded options marks head.items texts.now round (A.standing audit.old) (A.standing audit.new)) }
    ensures refused { (n : ℕ) (code : AnyCode) → result ≡ Err (RoundError.Refused n code) → deck_ending (round_text head.items texts.now) ≡ Refused n code }
    ensures memory { (k : ℕ) → result ≡ Err (RoundError.Memory k) → StopsIn options head.items texts.now k (A.standing audit.old) (A.standing audit.new) }
{
    match begin(alloc, options, head, audit) {
        Ok(running) => serve_rest(running, alloc, texts, audit),
        Err(error) => Err(told_of(error, 0)),
    }
}

// The rest of a round is served, behind its head.
fn serve_rest<A: Sink>(
    running: Running,
    alloc: Global,
    texts: &[Submission],
    audit: &mut A,
) -> Result<Round, RoundError>
    requires { (options : AnyOptions) × (head : List ℕ) × (a : Standing) × Stands options head [] running a (A.standing audit.old) × (length (round_text head texts.now) < 2 ^ 63) }
    ensures ended { (options : AnyOptions) (head : List ℕ) (a : Standing) → Stands options head [] running a (A.standing audit.old)
        → IfOk result (λ round. (marks : Marks) × HasEnded options marks head texts.now round a (A.standing audit.new)) }
    ensures refused { (options : AnyOptions) (head : List ℕ) (a : Standing) → Stands options head [] running a (A.standing audit.old) → (n : ℕ) (code : AnyCode) → result ≡ Err (RoundError.Refused n code)
        → deck_ending (round_text head texts.now) ≡ Refused n code }
    ensures memory { (options : AnyOptions) (head : List ℕ) (a : Standing) → Stands options head [] running a (A.standing audit.old) → (k : ℕ) → result ≡ Err (RoundError.Memory k)
        → StopsInText options head texts.now k a (A.standing audit.new) ⊎ StopsAtEnd options head texts.now k a (A.standing audit.new) }
{
    let mut running = running;
    serve_texts(&mut running, alloc, texts, audit)?;
    let behind = texts.len() as u64 + 1;
    match end(running, alloc, audit) {
        Ok(round) => Ok(round),
        Err(error) => Err(told_of(error, behind)),
    }
}

// Why a round is not served whose run ended so, while the text of this number was served.
fn told_of(error: RunError, text: u64) -> RoundError
    ensures refused { (n : ℕ) (code : AnyCode) → result ≡ RoundError.Refused n code → error ≡ RunError.DeckRefused n code }
    ensures memory { (k : ℕ) → result ≡ RoundError.Memory k → k ≡ text }
{
    match error {
        RunError::DeckRefused(line, code) => RoundError::Refused(line, code),
        RunError::ReadFault | RunError::WriteFault | RunError::AuditFault | RunError::Memory =>
            RoundError::Memory { text },
    }
}

// A round before its head.
fn start(alloc: Global, options: Options) -> Result<Running, AllocError>
    ensures { IfOk result (λ running. (a : Standing) → Stands options [] [] running a a) }
{
    let printed = Printed::new(alloc)?;
    let feed = DeckFeed::new(alloc, options);
    let output = Vec::new(alloc);
    let ends = Vec::new(alloc);
    Ok(Running {
        feed,
        printed,
        output,
        ends,
    })
}

// The head of a round is served, and let go.
fn begin<A: Sink>(
    alloc: Global,
    options: Options,
    head: Vec<u8>,
    audit: &mut A,
) -> Result<Running, RunError>
    requires { length head.items < 2 ^ 63 }
    ensures stands { IfOk result (λ running. Stands options head.items [] running (A.standing audit.old) (A.standing audit.new)) }
    ensures refused { (n : ℕ) (code : AnyCode) → result ≡ Err (RunError.DeckRefused n code) → (bytes : List ℕ) → deck_ending (head.items ++ bytes) ≡ Refused n code }
    ensures begun { StopsWithin options [] head.items (A.standing audit.old) (A.standing audit.new) }
{
    let mut running = start(alloc, options)?;
    serve(&mut running, alloc, &head, audit)?;
    Ok(running)
}

// The texts of a round are served, behind its head.
fn serve_texts<A: Sink>(
    running: &mut Running,
    alloc: Global,
    texts: &[Submission],
    audit: &mut A,
) -> Result<(), RoundError>
    requires { (options : AnyOptions) × (head : List ℕ) × (a : Standing) × Stands options head [] running.old a (A.standing audit.old) × (length (round_text head texts.now) < 2 ^ 63) }
    ensures stands { (options : AnyOptions) (head : List ℕ) (a : Standing) → Stands options head [] running.old a (A.standing audit.old)
        → OnOk result (Stands options head texts.now running.new a (A.standing audit.new)) }
    ensures refused { (options : AnyOptions) (head : List ℕ) (a : Standing) → Stands options head [] running.old a (A.standing audit.old) → (n : ℕ) (code : AnyCode) → result ≡ Err (RoundError.Refused n code)
        → deck_ending (round_text head texts.now) ≡ Refused n code }
    ensures memory { (options : AnyOptions) (head : List ℕ) (a : Standing) → Stands options head [] running.old a (A.standing audit.old) → (k : ℕ) → result ≡ Err (RoundError.Memory k)
        → StopsInText options head texts.now k a (A.standing audit.new) }
{
    let mut number: u64 = 0;
    for text in texts {
        number += 1;
        match serve_text(running, alloc, text, audit) {
            Ok(()) => {}
            Err(error) => return Err(told_of(error, number)),
        }
    }
    Ok(())
}

// A text and its fence are served, and where its printout ends is noted.
fn serve_text<A: Sink>(
    running: &mut Running,
    alloc: Global,
    text: &Submission,
    audit: &mut A,
) -> Result<(), RunError>
    requires few { running.old.feed.fed + length (with_fence text.now) < 2 ^ 63 }
    requires empty { running.old.printed ≡ [] }
    ensures stands { (options : AnyOptions) (head : List ℕ) (done : List AnySubmission) (a : Standing) → Stands options head done running.old a (A.standing audit.old)
        → OnOk result (Stands options head (done ++ text.now ∷ []) running.new a (A.standing audit.new)) }
    ensures refused { (n : ℕ) (code : AnyCode) → result ≡ Err (RunError.DeckRefused n code) → IsBad n code running.old.output.items running.old.feed (with_fence text.now) }
    ensures begun { BeginsTelling running.old.feed (with_fence text.now) (A.standing audit.old) (A.standing audit.new) }
{
    serve(running, alloc, &text.text, audit)?;
    serve(running, alloc, b"$DRAIN\n", audit)?;
    match running.ends.push(running.output.len()) {
        Ok(()) => Ok(()),
        Err(_) => Err(RunError::Memory),
    }
}

// The round comes to its end.
fn end<A: Sink>(running: Running, alloc: Global, audit: &mut A) -> Result<Round, RunError>
    requires few { running.feed.fed + 6 < 2 ^ 63 }
    requires empty { running.printed ≡ [] }
    ensures ended { (options : AnyOptions) (head : List ℕ) (done : List AnySubmission) (a : Standing) → Stands options head done running a (A.standing audit.old)
        → IfOk result (λ round. (marks : Marks) × HasEnded options marks head done round a (A.standing audit.new)) }
    ensures refused { (options : AnyOptions) (head : List ℕ) (done : List AnySubmission) (a : Standing) → Stands options head done running a (A.standing audit.old) → (n : ℕ) (code : AnyCode) → result ≡ Err (RunError.DeckRefused n code)
        → deck_ending (round_text head done) ≡ Refused n code }
    ensures begun { (options : AnyOptions) (head : List ℕ) (done : List AnySubmission) (a : Standing) → Stands options head done running a (A.standing audit.old)
        → StopsWithin options (front_text head done) (codes "$STOP\n") a (A.standing audit.new) }
{
    let mut running = running;
    serve(&mut running, alloc, b"$STOP\n", audit)?;
    finish_round(running, alloc, audit)
}

// Behind the end of the deck, what is left is written.
fn finish_round<A: Sink>(running: Running, alloc: Global, audit: &mut A) -> Result<Round, RunError>
    requires { running.printed ≡ [] }
    ensures ends { IfOk result (λ round. round.ends.items ≡ running.ends.items) }
    ensures ended { IfOk result (λ round. Finishes running round (A.standing audit.old) (A.standing audit.new)) }
    ensures refused { (n : ℕ) (code : AnyCode) → result ≡ Err (RunError.DeckRefused n code) → IsBadAtEnd n code running.feed }
    ensures begun { BeginsEnding running.feed (A.standing audit.old) (A.standing audit.new) }
{
    let Running {
        feed,
        mut printed,
        mut output,
        ends,
    } = running;
    feed.finish(alloc, &mut printed, audit)?;
    move_out(&mut printed, &mut output)?;
    Ok(Round { output, ends })
}

// A piece of the deck is served, and what the audit has gathered is written.
fn serve<A: Sink>(
    running: &mut Running,
    alloc: Global,
    piece: &[u8],
    audit: &mut A,
) -> Result<(), RunError>
    requires few { running.old.feed.fed + length piece.now < 2 ^ 63 }
    requires empty { running.old.printed ≡ [] }
    ensures told { OnOk result (Took running.old.output.items running.old.feed piece.now running.new.output.items running.new.feed (A.standing audit.old) (A.standing audit.new)) }
    ensures refused { (n : ℕ) (code : AnyCode) → result ≡ Err (RunError.DeckRefused n code) → IsBad n code running.old.output.items running.old.feed piece.now }
    ensures begun { BeginsTelling running.old.feed piece.now (A.standing audit.old) (A.standing audit.new) }
    ensures settled { EndsLine piece.now → OnOk result (is_reading running.new.feed.state ≡ true → running.new.feed.line ≡ []) }
    ensures empty { OnOk result (running.new.printed ≡ []) }
    ensures ends { running.new.ends.items ≡ running.old.ends.items }
    ensures options { running.new.feed.options ≡ running.old.feed.options }
    ensures fed { OnOk result (running.new.feed.fed ≡ running.old.feed.fed + length piece.now) }
    ensures reads_back { IsReadBack running.old.feed.options.check running.old.feed.state → OnOk result (IsReadBack running.new.feed.options.check running.new.feed.state) }
{
    running
        .feed
        .feed(alloc, piece, &mut running.printed, audit)?;
    move_out(&mut running.printed, &mut running.output)?;
    match audit.flush() {
        Ok(()) => Ok(()),
        Err(Failed) => Err(RunError::AuditFault),
    }
}

// What is printed is moved behind the output.
fn move_out(printed: &mut Printed, output: &mut Vec<u8>) -> Result<(), AllocError>
    ensures moved { OnOk result (output.new.items ≡ output.old.items ++ printed.old) }
    ensures empty { printed.new ≡ [] }
{
    let answer = put_printed(printed, output);
    printed.clear();
    answer
}

// What is printed is appended.
fn put_printed(printed: &Printed, output: &mut Vec<u8>) -> Result<(), AllocError>
    ensures { OnOk result (output.new.items ≡ output.old.items ++ printed.now) }
{
    let mut sink = TextSink::new(output);
    printed.print(&mut sink);
    sink.settle()
}
