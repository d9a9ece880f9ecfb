//! How far the reading of a deck has come, and what the next line makes of that.
ghost use Rattle.std.specs.Prelude.{◌≡◌, ℕ, Bool, List, [], IsSome, IfSome, None, true, false, OnOk, IsErrOf, ◌+◌, ◌<◌, ◌≤◌, ◌^◌, ◌∷◌, IfErr, OnErr};
ghost use Rattle.deck_lines.specs.inner.Stops.{IfRefused};
ghost use Rattle.mon_text.specs.declared.stop.Stop.TheVariants as stops;
ghost use Rattle.mon_device.specs.Putting.{Standing};
ghost use Rattle.scheduler.specs.Marks.{Marks};
ghost use Rattle.mon_monitor.specs.Abstraction.{system_of};
ghost use Rattle.deck_driver.specs.declared.options.Counts.{Counts as AnyCounts};
ghost use Rattle.deck_driver.specs.declared.options.Options.{Options as AnyOptions};
ghost use Rattle.deck_driver.specs.Audits.{told_from};
ghost use Rattle.deck_driver.specs.inner.Lines.{TookLine, LineBreaks, IsOver, StopsAt, StopBreaks, monitor_in, IsFront};
ghost use Rattle.deck_driver.specs.Feeds.{outcome, refused_at, lines_loaded, is_reading, error_at, IsReadBack};

use crate::options::{Counts, Options};
use crate::serving::{close, next_event, put_event, put_listing};
use deck_syntax::{DeckError, Event, Front, FrontReader, StreamReader};
use mon_catalogue::Catalogue;
use mon_device::Sink;
use mon_monitor::{Monitor, Printed};
use mon_text::Stop;
use std::alloc::{AllocError, Global};
use std::mem;
use std::rc::Rc;

/// What of a deck is read.
#[derive(Drop)]
pub enum Section {
    /// Its accounts and its catalogue.
    Front(FrontReader),
    /// Its stream, over the system as it stands.
    Stream(StreamReader, Monitor),
}

/// Whether a deck is still read.
pub enum DeckState {
    /// The next line counts.
    Reading(Section),
    /// `$STOP` came with these data sets, and the lines after it are ignored.
    Stopped(Rc<Catalogue>),
    /// The deck was refused at this line.
    Refused(u64, DeckError),
    /// Memory ran out.
    NoMemory,
}

// By hand, so that what holds a state drops it by one call.
impl Drop for DeckState {
    fn drop(self) {
        match self {
            DeckState::Reading(_section) => {}
            DeckState::Stopped(_sets) => {}
            DeckState::Refused(_, _) => {}
            DeckState::NoMemory => {}
        }
    }
}

impl DeckState {
    /// Takes a whole line.
    ///
    /// # Errors
    ///
    /// The line's refusal; memory. Nothing was appended then, and what the state is says nothing.
    #[inline(always)]
    pub(crate) fn take_line<S: Sink>(
        &mut self,
        alloc: Global,
        options: Options,
        text: &[u8],
        counts: &mut Counts,
        out: &mut Printed,
        audit: &mut S,
    ) -> Result<(), Stop<DeckError>>
        requires few { counts.old.jobs + counts.old.commands < 2 ^ 63 }
        requires within { lines_loaded self.old < 2 ^ 63 }
        ensures told { OnOk result (TookLine options self.old text.now out.old counts.old self.new out.new counts.new (S.standing audit.old)
            (S.standing audit.new)) }
        ensures broken { OnErr result (LineBreaks options self.old text.now counts.old (S.standing audit.old) (S.standing audit.new)) }
        ensures silent { IfErr result (IfRefused (λ code. (S.standing audit.new ≡ S.standing audit.old)
            × ((jobs : ℕ) (m : Marks) (n : ℕ) (ls : List (List ℕ)) → told_from options jobs m self.old n (text.now ∷ ls) ≡ []))) }
        ensures within { lines_loaded self.new ≤ lines_loaded self.old + 1 }
        ensures reads_back { IsReadBack options.check self.old → OnOk result (IsReadBack options.check self.new) }
        ensures counted { counts.new.jobs + counts.new.commands ≤ counts.old.jobs + counts.old.commands + 1 }
        ensures refused { IfErr result (IfRefused (λ code. (jobs : ℕ) (m : Marks) (n : ℕ) (ls : List (List ℕ))
            → outcome options jobs m self.old n (text.now ∷ ls) ≡ refused_at n code)) }
        ensures memory { IsErrOf result stops.Memory → is_reading self.old ≡ true }
        ensures nothing { OnErr result (out.new ≡ out.old) }
        ensures sound { OnOk result (error_at self.new ≡ error_at self.old) }
    {
        if self.take_inner_line(alloc, text) {
            return Ok(());
        }
        self.take_other(alloc, options, text, counts, out, audit)
    }

    // Takes a line that only adds to what is open, as most do: a record of a data set of the catalogue, or a line of a permission list
    // or of a job. Whether so it is; otherwise nothing has changed.
    #[inline(always)]
    #[tactic(auto, using(crate::proofs::Taking::front_goes, crate::proofs::Taking::stream_goes))]
    fn take_inner_line(&mut self, alloc: Global, text: &[u8]) -> bool
        requires { lines_loaded self.old < 2 ^ 63 }
        ensures told { result ≡ true → (options : AnyOptions) (out : List ℕ) (counts : AnyCounts) (a : Standing)
            → TookLine options self.old text.now out counts self.new out counts a a }
        ensures sound { result ≡ true → error_at self.new ≡ error_at self.old }
        ensures reads_back { result ≡ true → (check : Bool) → IsReadBack check self.new }
        ensures unchanged { result ≡ false → self.new ≡ self.old }
        ensures within { lines_loaded self.new ≤ lines_loaded self.old + 1 }
    {
        match self {
            DeckState::Reading(Section::Front(reader)) => reader.take_record(text),
            DeckState::Reading(Section::Stream(StreamReader::Cards, _)) => false,
            DeckState::Reading(Section::Stream(reader, _)) => reader.take_inner_line(alloc, text),
            DeckState::Stopped(_) | DeckState::Refused(..) | DeckState::NoMemory => false,
        }
    }

    // Takes any line, as `take_line` does. It stays a call, so that what it needs costs nothing where no line ends, or a line only adds.
    #[inline(never)]
    fn take_other<S: Sink>(
        &mut self,
        alloc: Global,
        options: Options,
        text: &[u8],
        counts: &mut Counts,
        out: &mut Printed,
        audit: &mut S,
    ) -> Result<(), Stop<DeckError>>
        requires few { counts.old.jobs + counts.old.commands < 2 ^ 63 }
        requires within { lines_loaded self.old < 2 ^ 63 }
        ensures told { OnOk result (TookLine options self.old text.now out.old counts.old self.new out.new counts.new (S.standing audit.old)
            (S.standing audit.new)) }
        ensures broken { OnErr result (LineBreaks options self.old text.now counts.old (S.standing audit.old) (S.standing audit.new)) }
        ensures silent { IfErr result (IfRefused (λ code. (S.standing audit.new ≡ S.standing audit.old)
            × ((jobs : ℕ) (m : Marks) (n : ℕ) (ls : List (List ℕ)) → told_from options jobs m self.old n (text.now ∷ ls) ≡ []))) }
        ensures within { lines_loaded self.new ≤ lines_loaded self.old + 1 }
        ensures reads_back { IsReadBack options.check self.old → OnOk result (IsReadBack options.check self.new) }
        ensures counted { counts.new.jobs + counts.new.commands ≤ counts.old.jobs + counts.old.commands + 1 }
        ensures refused { IfErr result (IfRefused (λ code. (jobs : ℕ) (m : Marks) (n : ℕ) (ls : List (List ℕ))
            → outcome options jobs m self.old n (text.now ∷ ls) ≡ refused_at n code)) }
        ensures memory { IsErrOf result stops.Memory → is_reading self.old ≡ true }
        ensures nothing { OnErr result (out.new ≡ out.old) }
        ensures sound { OnOk result (error_at self.new ≡ error_at self.old) }
    {
        match self {
            DeckState::Reading(section) => match section {
                Section::Front(_) => {
                    self.take_front_line(alloc, options, text)?;
                    Ok(())
                }
                Section::Stream(reader, monitor) => {
                    if let Some(listing) = reader.listing(text) {
                        put_listing(alloc, options.check, monitor, listing, counts, out, audit)?;
                        return Ok(());
                    }
                    self.take_event(alloc, options, text, counts, out, audit)
                }
            },
            DeckState::Stopped(_) | DeckState::Refused(..) | DeckState::NoMemory => Ok(()),
        }
    }

    // Takes a line of the front. It stays a call, since the room for a front is cleared where this stands.
    #[inline(never)]
    fn take_front_line(
        &mut self,
        alloc: Global,
        options: Options,
        text: &[u8],
    ) -> Result<(), Stop<DeckError>>
        requires within { lines_loaded self.old < 2 ^ 63 }
        requires front { IsFront self.old }
        ensures told { OnOk result ((out : List ℕ) (counts : AnyCounts) (a : Standing)
            → TookLine options self.old text.now out counts self.new out counts a a) }
        ensures silent { IfErr result (IfRefused (λ code. (jobs : ℕ) (m : Marks) (n : ℕ) (ls : List (List ℕ))
            → told_from options jobs m self.old n (text.now ∷ ls) ≡ [])) }
        ensures refused { IfErr result (IfRefused (λ code. (jobs : ℕ) (m : Marks) (n : ℕ) (ls : List (List ℕ))
            → outcome options jobs m self.old n (text.now ∷ ls) ≡ refused_at n code)) }
        ensures within { lines_loaded self.new ≤ lines_loaded self.old + 1 }
        ensures reads_back { OnOk result (IsReadBack options.check self.new) }
        ensures sound { OnOk result (error_at self.new ≡ None) }
    {
        match self {
            DeckState::Reading(section) => match section {
                Section::Front(reader) => {
                    if let Some(front) = reader.line(alloc, text)? {
                        self.begin_stream(alloc, options, front)?;
                    }
                    Ok(())
                }
                Section::Stream(..) => Ok(()),
            },
            DeckState::Stopped(_) | DeckState::Refused(..) | DeckState::NoMemory => Ok(()),
        }
    }

    // Takes a line of the stream, whatever its card is. It stays a call, since the room for an event is cleared where this stands.
    #[inline(never)]
    fn take_event<S: Sink>(
        &mut self,
        alloc: Global,
        options: Options,
        text: &[u8],
        counts: &mut Counts,
        out: &mut Printed,
        audit: &mut S,
    ) -> Result<(), Stop<DeckError>>
        requires few { counts.old.jobs + counts.old.commands < 2 ^ 63 }
        requires stream { IsSome (monitor_in self.old) }
        ensures told { OnOk result (TookLine options self.old text.now out.old counts.old self.new out.new counts.new (S.standing audit.old)
            (S.standing audit.new)) }
        ensures broken { OnErr result (LineBreaks options self.old text.now counts.old (S.standing audit.old) (S.standing audit.new)) }
        ensures silent { IfErr result (IfRefused (λ code. (S.standing audit.new ≡ S.standing audit.old)
            × ((jobs : ℕ) (m : Marks) (n : ℕ) (ls : List (List ℕ)) → told_from options jobs m self.old n (text.now ∷ ls) ≡ []))) }
        ensures within { lines_loaded self.new ≡ 0 }
        ensures reads_back { OnOk result (IsReadBack options.check self.new) }
        ensures counted { counts.new.jobs + counts.new.commands ≤ counts.old.jobs + counts.old.commands + 1 }
        ensures refused { IfErr result (IfRefused (λ code. (jobs : ℕ) (m : Marks) (n : ℕ) (ls : List (List ℕ))
            → outcome options jobs m self.old n (text.now ∷ ls) ≡ refused_at n code)) }
        ensures nothing { OnErr result (out.new ≡ out.old) }
        ensures sound { OnOk result (error_at self.new ≡ None) }
    {
        match self {
            DeckState::Reading(section) => match section {
                Section::Stream(reader, monitor) => match next_event(
                    alloc, reader, monitor, text,
                )? {
                    Event::Stops => {
                        self.stop(alloc, options.check, out, audit)?;
                        Ok(())
                    }
                    event => {
                        put_event(alloc, options.check, monitor, event, counts, out, audit)?;
                        Ok(())
                    }
                },
                Section::Front(_) => Ok(()),
            },
            _ => Ok(()),
        }
    }

    // The stream begins over what came before it. This and the next stay calls, since the room for a state is cleared wherever they
    // stand, and most lines take none.
    #[inline(never)]
    fn begin_stream(
        &mut self,
        alloc: Global,
        options: Options,
        front: Front,
    ) -> Result<(), AllocError>
        ensures begun { OnOk result (IsOver options.slots.number front self.new) }
        ensures unchanged { OnErr result (self.new ≡ self.old) }
    {
        let slots = options.slots.number();
        let monitor = Monitor::new(alloc, options.seed, front.accounts, front.catalogue, slots)?;
        *self = DeckState::Reading(Section::Stream(StreamReader::Cards, monitor));
        Ok(())
    }

    // `$STOP` has come.
    #[inline(never)]
    fn stop<S: Sink>(
        &mut self,
        alloc: Global,
        check: bool,
        out: &mut Printed,
        audit: &mut S,
    ) -> Result<(), AllocError>
        requires { IsSome (monitor_in self.old) }
        ensures stopped { OnOk result (StopsAt check (monitor_in self.old) out.old self.new out.new (S.standing audit.old) (S.standing audit.new)) }
        ensures broken { OnErr result (IfSome (monitor_in self.old) (λ w. (jobs : ℕ)
            → StopBreaks check jobs (system_of w) (S.standing audit.old) (S.standing audit.new))) }
        ensures within { lines_loaded self.new ≡ 0 }
        ensures nothing { OnErr result (out.new ≡ out.old) }
    {
        if let Some(monitor) = mem::replace(self, DeckState::NoMemory).into_monitor() {
            let sets = close(alloc, check, monitor, out, audit)?;
            *self = DeckState::Stopped(sets);
        }
        Ok(())
    }

    // The system, where the deck's stream is read.
    fn into_monitor(self) -> Option<Monitor>
        ensures { result ≡ monitor_in self }
    {
        match self {
            DeckState::Reading(Section::Stream(_, monitor)) => Some(monitor),
            _ => None,
        }
    }
}
