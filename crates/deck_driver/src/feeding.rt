//! Feeding a deck: each card's event happens when the card is complete.
ghost use Rattle.std.specs.Prelude.{◌≡◌, ◌⊎◌, ℕ, List, ◌+◌, ◌<◌, ◌≤◌, ◌^◌, [], ◌++◌, Bool, true, false, None, length, take, Err, IfOk, IfErr, OnOk, OnErr, IsTrue};
ghost use Rattle.std.specs.Str.Lines.{lines};
ghost use Rattle.mon_catalogue.specs.Sets.{Sets};
ghost use Rattle.scheduler.specs.Marks.{Marks};
ghost use Rattle.std.specs.Option.{option_map};
ghost use Rattle.mon_text.specs.Feeding.{taken_of, has_no_end, text_of, Takes};
ghost use Rattle.deck_lines.specs.declared.deck_error.DeckError.{DeckError as AnyCode};
ghost use Rattle.deck_syntax.specs.Sections.{deck_of};
ghost use Rattle.deck_driver.specs.declared.options.Options.{Options as AnyOptions};
ghost use Rattle.deck_driver.specs.declared.section.DeckState.TheVariants as states;
ghost use Rattle.deck_driver.specs.RunStates.{opening, nothing_counted};
ghost use Rattle.deck_driver.specs.Printouts.{ReadsBack};
ghost use Rattle.deck_driver.specs.Feeds.{outcome, outcome_of, refused_at, Good, Bad, Begins, EndsLine, OnAnswer, lines_loaded, is_reading, may_grow, used_by, IsReadBack, IsOwn, stopped_by, error_at, fault_at};
ghost use Rattle.deck_driver.specs.Audits.{told_to};
ghost use Rattle.mon_device.specs.Putting.{Puts};
ghost use Rattle.deck_driver.specs.Abstraction.{told, audit_told, outcome_from, Took, Begun, last_lines};
ghost use Rattle.deck_driver.specs.inner.Counting.{lines_ended};
ghost use Rattle.deck_driver.specs.inner.Lines.{Ended, EndBegun};

use crate::fault::RunError;
use crate::feed::DeckFeed;
use crate::options::{Counts, Options};
use crate::section::{DeckState, Section};
use deck_lines::DeckError;
use deck_syntax::FrontReader;
use mon_device::Sink;
use mon_monitor::Printed;
use mon_text::{EndedLine, LineFeed, Stop};
use std::alloc::{AllocError, Global};

impl DeckFeed {
    /// The start of a deck.
    pub fn new(alloc: Global, options: Options) -> DeckFeed
        ensures start { (m : Marks) (bytes : List ℕ) → outcome_from m result bytes ≡ outcome_of options.check 0 m (opening options.slots.number (deck_of (lines bytes))) }
        ensures audit { (m : Marks) (bytes : List ℕ) → audit_told m result bytes ≡ told_to options.check 0 m (opening options.slots.number (deck_of (lines bytes))) }
        ensures reads_back { IsReadBack result.options.check result.state }
        ensures options { result.options ≡ options }
        ensures reading { is_reading result.state ≡ true }
        ensures fed { result.fed ≡ 0 }
    {
        DeckFeed {
            options,
            state: DeckState::Reading(Section::Front(FrontReader::Opening)),
            line: LineFeed::new(alloc),
            lines_taken: 0,
            counts: Counts {
                jobs: 0,
                commands: 0,
            },
            fed: 0,
        }
    }

    /// How many bytes were fed; behind a refusal, those up to the end of the line that was refused.
    pub fn fed(&self) -> u64
        ensures { result ≡ self.now.fed }
    {
        self.fed
    }

    /// Takes the next bytes of the deck: the events of the cards that are complete by them happen, and what these print is
    /// appended, and at `$STOP` the catalogue.
    ///
    /// Fewer than 2^63 bytes may be fed in all.
    ///
    /// # Errors
    ///
    /// `DeckRefused` where a card is refused; `Memory` where a growth was refused, which takes at least one byte before
    /// `$STOP`. After an error each further call answers the same and appends nothing.
    #[tactic(auto, using(crate::proofs::Beginnings::begins_further, crate::proofs::LineEnds::all_left, crate::proofs::Pieces::begun_same, crate::proofs::Pieces::took_none, crate::proofs::Pieces::took_refused))]
    pub fn feed<S: Sink>(
        &mut self,
        alloc: Global,
        piece: &[u8],
        out: &mut Printed,
        audit: &mut S,
    ) -> Result<(), RunError>
        requires { self.old.fed + length piece.now < 2 ^ 63 }
        ensures appends { Begins out.old out.new }
        ensures begun { Begun out.old self.old piece.now out.new (S.standing audit.old) (S.standing audit.new) }
        ensures told { OnAnswer result (Took out.old self.old piece.now out.new self.new (S.standing audit.old) (S.standing audit.new)) }
        ensures failed { IfErr result (λ error. self.new.state ≡ stopped_by error) }
        ensures again { (n : ℕ) (code : AnyCode) → self.old.state ≡ states.Refused n code → (result ≡ Err (RunError.DeckRefused n code)) × (self.new ≡ self.old) × (out.new ≡ out.old) }
        ensures still { self.old.state ≡ states.NoMemory → (result ≡ Err RunError.Memory) × (self.new ≡ self.old) × (out.new ≡ out.old) }
        ensures own { IfErr result IsOwn }
        ensures memory { result ≡ Err RunError.Memory → IsTrue (may_grow self.old.state piece.now) }
        ensures reads_back { IsReadBack self.old.options.check self.old.state → OnOk result (IsReadBack self.new.options.check self.new.state) }
        ensures options { self.new.options ≡ self.old.options }
        ensures fed { (self.old.fed ≤ self.new.fed) × (self.new.fed ≤ self.old.fed + length piece.now) }
        ensures all { OnOk result (self.new.fed ≡ self.old.fed + length piece.now) }
        // Where the deck is still read, a piece that ends with a line end leaves nothing of a line behind.
        ensures ended { EndsLine piece.now → OnOk result (is_reading self.new.state ≡ true → self.new.line ≡ []) }
    {
        match &self.state {
            DeckState::Refused(n, code) => return Err(RunError::DeckRefused(*n, *code)),
            DeckState::NoMemory => return Err(RunError::Memory),
            DeckState::Stopped(_) => {
                self.fed += piece.len() as u64;
                return Ok(());
            }
            DeckState::Reading(_) => {}
        }
        let mut rest = piece;
        'lines: while !rest.is_empty() {
            let used = self.feed_line(alloc, rest, out, audit)?;
            out.let_go();
            rest = &rest[used..];
        }
        Ok(())
    }

    // The error that was answered, if one was.
    fn failed(&self) -> Option<RunError>
        ensures { result ≡ error_at self.now.state }
    {
        match &self.state {
            DeckState::Refused(n, code) => Some(RunError::DeckRefused(*n, *code)),
            DeckState::NoMemory => Some(RunError::Memory),
            DeckState::Reading(_) | DeckState::Stopped(_) => None,
        }
    }

    /// Takes bytes from the front of a piece, up to the first line end in it or all of them, and behind `$STOP` all: how
    /// many they are. It is `feed` of them.
    ///
    /// # Errors
    ///
    /// As `feed`.
    #[tactic(auto, using(crate::proofs::Pieces::begun_same))]
    pub fn feed_line<S: Sink>(
        &mut self,
        alloc: Global,
        piece: &[u8],
        out: &mut Printed,
        audit: &mut S,
    ) -> Result<usize, RunError>
        requires full { 0 < length piece.now }
        requires few { self.old.fed + length piece.now < 2 ^ 63 }
        ensures used { IfOk result (λ used. (0 < used) × (used ≤ length piece.now) × (self.new.fed ≡ self.old.fed + used)) }
        ensures line { IfOk result (λ used. used ≡ used_by self.old.state piece.now) }
        ensures told { IfOk result (λ used. Took out.old self.old (take used piece.now) out.new self.new (S.standing audit.old) (S.standing audit.new)) }
        ensures refused { (n : ℕ) (code : AnyCode) → result ≡ Err (RunError.DeckRefused n code) →
            (rest : Marks) (bytes : List ℕ) → told rest out.new self.new bytes ≡ told rest out.old self.old (piece.now ++ bytes) }
        ensures silent { (n : ℕ) (code : AnyCode) → result ≡ Err (RunError.DeckRefused n code) →
            (S.standing audit.new ≡ S.standing audit.old) × ((rest : Marks) (bytes : List ℕ) → (audit_told rest self.new bytes ≡ []) × (audit_told rest self.old (piece.now ++ bytes) ≡ [])) }
        ensures appends { Begins out.old out.new }
        ensures begun { Begun out.old self.old piece.now out.new (S.standing audit.old) (S.standing audit.new) }
        ensures failed { IfErr result (λ error. self.new.state ≡ stopped_by error) }
        ensures again { (n : ℕ) (code : AnyCode) → self.old.state ≡ states.Refused n code → (result ≡ Err (RunError.DeckRefused n code)) × (self.new ≡ self.old) × (out.new ≡ out.old) }
        ensures still { self.old.state ≡ states.NoMemory → (result ≡ Err RunError.Memory) × (self.new ≡ self.old) × (out.new ≡ out.old) }
        ensures own { IfErr result IsOwn }
        ensures memory { result ≡ Err RunError.Memory → IsTrue (may_grow self.old.state piece.now) }
        ensures reads_back { IsReadBack self.old.options.check self.old.state → OnOk result (IsReadBack self.new.options.check self.new.state) }
        ensures options { self.new.options ≡ self.old.options }
        ensures fed { (self.old.fed ≤ self.new.fed) × (self.new.fed ≤ self.old.fed + length piece.now) }
        ensures refused_line { (n : ℕ) (code : AnyCode) → result ≡ Err (RunError.DeckRefused n code) → is_reading self.old.state ≡ true → self.new.fed ≡ self.old.fed + taken_of piece.now }
        ensures nothing { OnErr result (out.new ≡ out.old) }
        ensures sound { OnOk result (error_at self.new.state ≡ None) }
        ensures counted { IfOk result (λ used. is_reading self.new.state ≡ true → (is_reading self.old.state ≡ true) × (self.old.lines_taken + lines_ended (take used piece.now) ≤ self.new.lines_taken)) }
        ensures kept { IfOk result (λ used. is_reading self.new.state ≡ true → (has_no_end (take used piece.now) ≡ true) ⊎ (self.new.line ≡ [])) }
    {
        match &self.state {
            DeckState::Refused(n, code) => return Err(RunError::DeckRefused(*n, *code)),
            DeckState::NoMemory => return Err(RunError::Memory),
            DeckState::Stopped(_) => {
                self.fed += piece.len() as u64;
                return Ok(piece.len());
            }
            DeckState::Reading(_) => {}
        }
        match take_part(&mut self.line, piece) {
            Err(_) => Err(self.fail(Stop::Memory)),
            Ok((used, Some(line))) => {
                self.fed += used as u64;
                self.lines_taken += 1;
                let answer = self.state.take_line(
                    alloc,
                    self.options,
                    line.text(),
                    &mut self.counts,
                    out,
                    audit,
                );
                match answer {
                    Ok(()) => {
                        self.line.reuse(line);
                        Ok(used)
                    }
                    Err(stop) => Err(self.fail(stop)),
                }
            }
            Ok((used, None)) => {
                self.fed += used as u64;
                // A line that is longer than any may be need not be told by itself.
                if piece.contains(&b'\n') {
                    self.lines_taken += 1;
                    return Err(self.fail(Stop::Refused(DeckError::LineTooLong)));
                }
                Ok(used)
            }
        }
    }

    // The line that was counted last is refused, or memory ran out. It stays a call, since the room for a state is cleared where
    // a function begins.
    #[inline(never)]
    fn fail(&mut self, stop: Stop<DeckError>) -> RunError
        ensures error { result ≡ fault_at self.old.lines_taken stop }
        ensures state { self.new.state ≡ stopped_by (fault_at self.old.lines_taken stop) }
        ensures stays { (self.new.options ≡ self.old.options) × (self.new.line ≡ self.old.line) × (self.new.fed ≡ self.old.fed) × (self.new.lines_taken ≡ self.old.lines_taken) }
    {
        match stop {
            Stop::Refused(code) => {
                self.state = DeckState::Refused(self.lines_taken, code);
                RunError::DeckRefused(self.lines_taken, code)
            }
            Stop::Memory => {
                self.state = DeckState::NoMemory;
                RunError::Memory
            }
        }
    }

    /// The deck has come to its end: a last line without LF is taken too, and a deck without `$STOP` is refused.
    ///
    /// # Errors
    ///
    /// As `feed`.
    pub fn finish<S: Sink>(
        self,
        alloc: Global,
        out: &mut Printed,
        audit: &mut S,
    ) -> Result<Counts, RunError>
        ensures appends { Begins out.old out.new }
        ensures begun { (marks : Marks) × ((rest : Marks) → Begins out.new (told (marks ++ rest) out.old self []).written)
            × (audited : List ℕ) × ((rest : Marks) → Begins audited (audit_told (marks ++ rest) self [])) × Puts (S.standing audit.old) (S.standing audit.new) audited }
        ensures ended { IfOk result (λ counts. (marks : Marks) × (sets : Sets) × ((rest : Marks) → told (marks ++ rest) out.old self [] ≡ record { written = out.new; conclusion = Good counts sets })
            × (audited : List ℕ) × ((rest : Marks) → audit_told (marks ++ rest) self [] ≡ audited) × Puts (S.standing audit.old) (S.standing audit.new) audited
            × (IsReadBack self.options.check self.state → self.options.check ≡ false → ReadsBack sets)) }
        ensures refused { (n : ℕ) (code : AnyCode) → result ≡ Err (RunError.DeckRefused n code) →
            (marks : Marks) × ((rest : Marks) → told (marks ++ rest) out.old self [] ≡ record { written = out.new; conclusion = Bad n code })
            × (audited : List ℕ) × ((rest : Marks) → audit_told (marks ++ rest) self [] ≡ audited) × Puts (S.standing audit.old) (S.standing audit.new) audited }
        ensures again { (n : ℕ) (code : AnyCode) → self.state ≡ states.Refused n code → (result ≡ Err (RunError.DeckRefused n code)) × (out.new ≡ out.old) }
        ensures still { self.state ≡ states.NoMemory → (result ≡ Err RunError.Memory) × (out.new ≡ out.old) }
        ensures own { IfErr result IsOwn }
        ensures memory { result ≡ Err RunError.Memory → IsTrue (may_grow self.state self.line) }
        ensures short { result ≡ Err RunError.Memory → out.new ≡ out.old }
    {
        if let Some(error) = self.failed() {
            return Err(error);
        }
        let DeckFeed {
            options,
            state,
            line,
            lines_taken,
            counts,
            fed: _,
        } = self;
        let last = line.rest();
        end(
            alloc,
            options,
            state,
            &last,
            lines_taken,
            counts,
            out,
            audit,
        )
    }
}

// Takes bytes up to the first line end in a piece, or all of them, as `LineFeed::take`: so many, which is at least one.
#[inline(always)]
fn take_part<'a>(
    line: &mut LineFeed,
    piece: &'a [u8],
) -> Result<(usize, Option<EndedLine<'a>>), AllocError>
    requires { 0 < length piece.now }
    ensures taken { IfOk result (λ taken. Takes line.old piece.now taken.0 (option_map text_of taken.1) line.new) }
    ensures used { IfOk result (λ taken. taken.0 ≡ taken_of piece.now) }
    ensures some { IfOk result (λ taken. (0 < taken.0) × (taken.0 ≤ length piece.now)) }
    ensures unended { IsTrue (has_no_end line.new) }
    ensures unchanged { OnErr result (line.new ≡ line.old) }
{
    line.take(piece)
}

// The end of a deck: a last line without LF is taken too, and then `$STOP` has come, or never comes.
fn end<S: Sink>(
    alloc: Global,
    options: Options,
    state: DeckState,
    last: &[u8],
    lines_taken: u64,
    counts: Counts,
    out: &mut Printed,
    audit: &mut S,
) -> Result<Counts, RunError>
    requires few { counts.jobs + counts.commands < 2 ^ 63 }
    requires short { lines_taken < 2 ^ 63 }
    requires within { lines_loaded state < 2 ^ 63 }
    requires sound { error_at state ≡ None }
    ensures appends { Begins out.old out.new }
    ensures begun { EndBegun options state (lines_taken + 1) (last_lines last.now) out.old counts out.new (S.standing audit.old) (S.standing audit.new) }
    ensures ended { IfOk result (λ all. (sets : Sets) × Ended options state (lines_taken + 1) (last_lines last.now) out.old counts out.new (Good all sets) (S.standing audit.old) (S.standing audit.new)
        × (IsReadBack options.check state → options.check ≡ false → ReadsBack sets)) }
    ensures refused { (n : ℕ) (code : AnyCode) → result ≡ Err (RunError.DeckRefused n code) →
        Ended options state (lines_taken + 1) (last_lines last.now) out.old counts out.new (Bad n code) (S.standing audit.old) (S.standing audit.new) }
    ensures own { IfErr result IsOwn }
    ensures memory { result ≡ Err RunError.Memory → IsTrue (may_grow state last.now) }
    ensures short { result ≡ Err RunError.Memory → out.new ≡ out.old }
{
    if last.is_empty() {
        return conclude(&state, lines_taken + 1, counts);
    }
    let mut state = state;
    let mut counts = counts;
    match state.take_line(alloc, options, last, &mut counts, out, audit) {
        Ok(()) => conclude(&state, lines_taken + 2, counts),
        Err(Stop::Refused(code)) => Err(RunError::DeckRefused(lines_taken + 1, code)),
        Err(Stop::Memory) => Err(RunError::Memory),
    }
}

// How a deck comes out whose lines end before line n.
fn conclude(state: &DeckState, n: u64, counts: Counts) -> Result<Counts, RunError>
    ensures ended { IfOk result (λ all. (sets : Sets) × ((options : AnyOptions) (jobs : ℕ) (m : Marks) → outcome options jobs m state.now n [] ≡ record { written = []; conclusion = Good nothing_counted sets })
        × ((check : Bool) → IsReadBack check state.now → check ≡ false → ReadsBack sets) × (all ≡ counts)) }
    ensures refused { (m : ℕ) (code : AnyCode) → result ≡ Err (RunError.DeckRefused m code) → (options : AnyOptions) (jobs : ℕ) (marks : Marks) → outcome options jobs marks state.now n [] ≡ refused_at m code }
    ensures own { IfErr result IsOwn }
    ensures memory { result ≡ Err RunError.Memory → state.now ≡ states.NoMemory }
{
    match state {
        DeckState::Reading(_) => Err(RunError::DeckRefused(n, DeckError::Truncated)),
        DeckState::Stopped(_) => Ok(counts),
        DeckState::Refused(n, code) => Err(RunError::DeckRefused(*n, *code)),
        DeckState::NoMemory => Err(RunError::Memory),
    }
}
