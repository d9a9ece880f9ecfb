//! Words of a request's line that the next line of the same act on the same unit has, too.
//!
//! A line says much that stays the same as long as the job has the processor: who asks, of what, and by which entry it is granted. So these
//! words are kept of the last read and of the last write, and are put once more where the same act is asked of the same unit. They
//! take a kilobyte each, and are not kept where that is refused.
ghost use Rattle.std.specs.Prelude.{◌≡◌, ℕ, Some, IfSome};
ghost use Rattle.std.specs.Option.{option_copied, option_and_then};
ghost use Rattle.mon_access.specs.declared.account.Account.{Account as Who};
ghost use Rattle.mon_device.specs.Putting.{Puts};
ghost use Rattle.interaction.specs.declared.answer.Answer.{Answer as Answered};
ghost use Rattle.mon_catalogue.specs.Sets.{find_set};
ghost use Rattle.mon_unit.specs.Lent.{reach_of};
ghost use Rattle.mon_unit.specs.Serving.{Reach};
ghost use Rattle.audit.specs.Requests.{request_line, asked_of};
ghost use Rattle.audit.specs.inner.KeptWords.{text_of, head_words, target_words, again_line};
ghost use Rattle.audit.specs.inner.Keeping.{KeptFits, held, HasWords, IsNew, Keeps, IsLineOf, named, appends};

use crate::cached_line::{CachedLine, joined};
use crate::request::{AuditedRequest, act_word, print_grant, target_word};
use crate::words::Words;
use interaction::Act;
use mon_catalogue::{Catalogue, Mode};
use mon_device::{Sink, print_number, print_word};
use mon_text::Name;
use mon_unit::{NoteAct, Target, UnitService};
use std::alloc::Global;

/// Of which job lines are, and the words of the line of its last read and of its last write, where they are kept.
#[derive(Drop)]
pub struct AuditCache {
    /// The job's number.
    pub number: u64,
    are_kept: bool,
    read: Option<Box<CachedLine>>,
    write: Option<Box<CachedLine>>,
}

impl AuditCache {
    /// No words, and none will be kept: for so few requests that it would take longer than they do.
    pub fn none(number: u64) -> AuditCache
        ensures number { result.number ≡ number }
        ensures fits { (n : ℕ) (account : Who) (reach : Reach) → KeptFits n account reach result }
    {
        AuditCache {
            number,
            are_kept: false,
            read: None,
            write: None,
        }
    }

    /// No words so far.
    pub fn new(number: u64) -> AuditCache
        ensures number { result.number ≡ number }
        ensures fits { (n : ℕ) (account : Who) (reach : Reach) → KeptFits n account reach result }
    {
        AuditCache {
            number,
            are_kept: true,
            read: None,
            write: None,
        }
    }

    // What is kept of an act.
    fn of(&self, act: &Act) -> Option<&CachedLine>
        ensures { IfSome result (λ line. IsLineOf self.now act.now line.now) }
    {
        match act {
            Act::Read(unit) => of_unit(&self.read, *unit),
            Act::Write(unit, _) => of_unit(&self.write, *unit),
            Act::Endfile(_) => None,
            Act::Rewind(_) => None,
        }
    }

    // What is kept of an act, and its place as the units stand.
    pub(crate) fn known(&self, service: &UnitService, act: &Act) -> Option<(&CachedLine, u64)>
        ensures { (n : ℕ) → KeptFits n service.now.account.now (reach_of service.now) self.now
            → IfSome result (λ k. (statement : ℕ) (answer : Answered) → again_line (text_of k.0.now.head) statement (text_of k.0.now.target) k.1 (text_of k.0.now.grant) answer ≡ request_line (asked_of n service.now.account.now (reach_of service.now) (record { statement = statement; act = act.now })) answer) }
    {
        let line = self.of(act)?;
        let tie = service.units.tie_at(line.unit)?;
        Some((line, tie.position))
    }

    // Keeps the words of a line, over the data sets as the request has left them.
    pub(crate) fn keep(&mut self, alloc: Global, asked: &AuditedRequest, sets: &Catalogue)
        ensures kept { Keeps asked.now sets.now self.old self.new }
        ensures number { self.new.number ≡ self.old.number }
    {
        match asked.act {
            NoteAct::Read => self.read = line_of(alloc, self.are_kept, asked, sets),
            NoteAct::Write => self.write = line_of(alloc, self.are_kept, asked, sets),
            NoteAct::Endfile => {}
            NoteAct::Rewind => {}
        }
    }
}

// What is kept, where that is of this unit.
fn of_unit(kept: &Option<Box<CachedLine>>, unit: u64) -> Option<&CachedLine>
    ensures { IfSome result (λ line. (held kept.now ≡ Some line.now) × (line.now.unit ≡ unit)) }
{
    match kept {
        Some(line) if line.unit == unit => Some(line),
        _ => None,
    }
}

// What is to be kept of a line, where there is memory for it. What is added to a data set of mode APPEND has its place behind all records,
// so its line is made anew.
fn line_of(
    alloc: Global,
    are_kept: bool,
    asked: &AuditedRequest,
    sets: &Catalogue,
) -> Option<Box<CachedLine>>
    ensures { IsNew asked.now sets.now (held result) }
{
    if !are_kept || appends(asked.act, &asked.target, sets) {
        return None;
    }
    match Box::new(alloc, words_of(asked)?) {
        Ok(kept) => Some(kept),
        Err(_) => None,
    }
}

// Whether an act adds to a data set of mode APPEND.
fn appends(act: NoteAct, target: &Target, sets: &Catalogue) -> bool
    ensures { result ≡ appends act (option_and_then (λ name. find_set name sets.now) (named target.now)) }
{
    match (act, target) {
        (NoteAct::Write, Target::Set(name)) => match sets.find(name) {
            Some(set) => matches!(set.mode, Mode::Append),
            None => false,
        },
        _ => false,
    }
}

// The words of a line that are kept, if there is room for them.
fn words_of(asked: &AuditedRequest) -> Option<CachedLine>
    ensures { IfSome result (λ line. HasWords asked.now line) }
{
    let mut head = Words::new();
    print_head(asked.number, &asked.account, &mut head);
    let mut target = Words::new();
    print_target(asked, &mut target);
    let mut grant = Words::new();
    print_grant(&asked.grant, &mut grant);
    if head.lack_room() || target.lack_room() || grant.lack_room() {
        return None;
    }
    joined(asked, head, target, grant)
}

fn print_head<S: Sink>(number: u64, account: &Name, sink: &mut S)
    ensures { Puts (S.standing sink.old) (S.standing sink.new) (head_words number account.now) }
{
    sink.put(b"JOB");
    print_number(number, sink);
    print_word(account.as_bytes(), sink);
    sink.put(b" ASKED ");
}

fn print_target<S: Sink>(asked: &AuditedRequest, sink: &mut S)
    ensures { Puts (S.standing sink.old) (S.standing sink.new) (target_words asked.now.act asked.now.unit asked.now.target) }
{
    print_word(act_word(asked.act), sink);
    print_number(asked.unit, sink);
    print_word(target_word(&asked.target), sink);
    sink.put(b" ");
}
