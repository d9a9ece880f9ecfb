//! The line of a request. Nothing here takes memory.
ghost use Rattle.std.specs.Prelude.{◌≡◌, ◌++◌, codes, length};
ghost use Rattle.mon_device.specs.Putting.{Puts};
ghost use Rattle.mon_command.specs.Printouts.{word};
ghost use Rattle.mon_command.specs.Replies.{reason_text};
ghost use Rattle.audit.specs.Words.{target_word, outcome_word};
ghost use Rattle.audit.specs.Requests.{act_word, by_words, place_words, request_line, permission, grant, place_in};
ghost use Rattle.audit.specs.inner.Parts.{grant_words};

use crate::grants::granting_entry;
use interaction::{Answer, Reason};
use mon_access::Account;
use mon_acl::Perms;
use mon_catalogue::{DataSet, Mode};
use mon_command::print_reason;
use mon_device::{Sink, print_number, print_word};
use mon_text::Name;
use mon_unit::{NoteAct, Target};

/// What a job asks, as its units and the data sets then stand.
#[derive(Drop)]
pub struct AuditedRequest {
    /// The job's number.
    pub number: u64,
    /// The account that the job is for.
    pub account: Name,
    /// The number of the statement that asks.
    pub statement: u64,
    /// What it asks.
    pub act: NoteAct,
    /// The unit that it asks of.
    pub unit: u64,
    /// What that is tied to.
    pub target: Target,
    /// How many records stand before the place.
    pub place: u64,
    /// The entry of the data set's list that grants it, if one does.
    pub grant: Option<Reason>,
}

/// Puts the line of a request that was answered.
pub fn print_request<S: Sink>(asked: &AuditedRequest, answer: &Answer, sink: &mut S)
    ensures { Puts (S.standing sink.old) (S.standing sink.new) (request_line asked.now answer.now) }
{
    sink.put(b"JOB");
    print_number(asked.number, sink);
    print_word(asked.account.as_bytes(), sink);
    print_what(asked, answer, sink);
    sink.put(b"\n");
}

// Puts what is asked, and what came of it.
fn print_what<S: Sink>(asked: &AuditedRequest, answer: &Answer, sink: &mut S)
    ensures { Puts (S.standing sink.old) (S.standing sink.new) (codes " ASKED" ++ place_words asked.now ++ word (outcome_word answer.now) ++ by_words asked.now.grant answer.now) }
{
    sink.put(b" ASKED");
    print_place(asked, sink);
    print_word(outcome_word(answer), sink);
    print_by(&asked.grant, answer, sink);
}

fn print_place<S: Sink>(asked: &AuditedRequest, sink: &mut S)
    ensures { Puts (S.standing sink.old) (S.standing sink.new) (place_words asked.now) }
{
    print_number(asked.statement, sink);
    print_word(act_word(asked.act), sink);
    print_number(asked.unit, sink);
    print_word(target_word(&asked.target), sink);
    print_number(asked.place, sink);
}

fn print_by<S: Sink>(grant: &Option<Reason>, answer: &Answer, sink: &mut S)
    ensures { Puts (S.standing sink.old) (S.standing sink.new) (by_words grant.now answer.now) }
{
    match answer {
        Answer::Done => print_grant(grant, sink),
        Answer::Got(_) => print_grant(grant, sink),
        Answer::EndOfFile => print_grant(grant, sink),
        Answer::Denied(reason) => print_reason_word(reason, sink),
        Answer::Full => print_grant(grant, sink),
    }
}

pub(crate) fn print_grant<S: Sink>(grant: &Option<Reason>, sink: &mut S)
    ensures { Puts (S.standing sink.old) (S.standing sink.new) (grant_words grant.now) }
{
    match grant {
        Some(reason) => print_reason_word(reason, sink),
        None => {}
    }
}

pub(crate) fn print_reason_word<S: Sink>(reason: &Reason, sink: &mut S)
    ensures { Puts (S.standing sink.old) (S.standing sink.new) (word (reason_text reason.now)) }
{
    sink.put(b" ");
    print_reason(reason.copy(), sink);
}

/// The word for what was asked.
pub fn act_word(act: NoteAct) -> &'static [u8]
    ensures { result.now ≡ act_word act }
{
    match act {
        NoteAct::Read => b"READ",
        NoteAct::Write => b"WRITE",
        NoteAct::Endfile => b"ENDFILE",
        NoteAct::Rewind => b"REWIND",
    }
}

pub(crate) fn target_word(target: &Target) -> &[u8]
    ensures { result.now ≡ target_word target.now }
{
    match target {
        Target::Untied => b".NONE",
        Target::Data => b".DATA",
        Target::Spool => b".SPOOL",
        Target::Set(name) => name.as_bytes(),
    }
}

fn outcome_word(answer: &Answer) -> &'static [u8]
    ensures { result.now ≡ outcome_word answer.now }
{
    match answer {
        Answer::Done => b"DONE",
        Answer::Got(_) => b"GOT",
        Answer::EndOfFile => b"EOF",
        Answer::Denied(_) => b"DENIED",
        Answer::Full => b"FULL",
    }
}

/// The entry of the data set's list that grants an act to an account, if one does. It takes no memory.
pub fn grant(account: &Account, act: NoteAct, set: &DataSet) -> Option<Reason>
    ensures { result ≡ grant account.now act set.now }
{
    granting_entry(account, set, permission(act)?)
}

// What an act asks of a data set's list.
fn permission(act: NoteAct) -> Option<Perms>
    ensures { result ≡ permission act }
{
    match act {
        NoteAct::Read => Some(Perms::new(true, false, false)),
        NoteAct::Write | NoteAct::Endfile => Some(Perms::new(false, true, false)),
        NoteAct::Rewind => None,
    }
}

/// How many records of a data set stand before the place of an act, where the unit has this position.
pub fn place(act: NoteAct, set: &DataSet, position: u64) -> u64
    ensures { result ≡ place_in act set.now.mode (length set.now.records) position }
{
    match (act, set.mode) {
        (NoteAct::Write, Mode::Append) => set.records.len(),
        _ => position,
    }
}
