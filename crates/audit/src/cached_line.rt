//! The words of a line that are kept, and the line that is put of them.
ghost use Rattle.std.specs.Prelude.{◌≡◌, ◌++◌, codes, decimal, IfSome};
ghost use Rattle.mon_device.specs.Putting.{Puts};
ghost use Rattle.mon_command.specs.Printouts.{word};
ghost use Rattle.mon_command.specs.Replies.{reason_text};
ghost use Rattle.audit.specs.inner.KeptWords.{text_of, usual_words, outcome_words, again_line};

use crate::request::{AuditedRequest, print_reason_word};
use crate::words::Words;
use interaction::{Answer, Reason};
use itoa::Buffer;
use mon_device::Sink;
use mon_unit::NoteAct;

/// The words of a line that stand before its statement, between that and its place, and of the entry that grants; and what most of
/// the next ones have from their beginning to the place, and behind it.
#[derive(Drop)]
pub struct CachedLine {
    act: NoteAct,
    pub(crate) unit: u64,
    statement: u64,
    head: Words,
    target: Words,
    grant: Words,
    before: Words,
    behind: Words,
    ghost begins: { before.text.items ≡ head.text.items ++ decimal statement ++ target.text.items },
    ghost ends: { behind.text.items ≡ usual_words act ++ grant.text.items ++ codes "\n" },
}

// These words, and what most lines have of them in a row, if there is room for it.
pub(crate) fn joined(
    asked: &AuditedRequest,
    head: Words,
    target: Words,
    grant: Words,
) -> Option<CachedLine>
    ensures { IfSome result (λ line. (line.unit ≡ asked.now.unit) × (line.head ≡ head) × (line.target ≡ target) × (line.grant ≡ grant)) }
{
    let AuditedRequest {
        act,
        unit,
        statement,
        ..
    } = *asked;
    let mut before = Words::new();
    print_row(head.text(), statement, target.text(), &mut before);
    let mut behind = Words::new();
    print_end(usual_words(act), grant.text(), &mut behind);
    if before.lack_room() || behind.lack_room() {
        return None;
    }
    Some(CachedLine {
        act,
        unit,
        statement,
        head,
        target,
        grant,
        before,
        behind,
    })
}

// What most requests of an act come to.
fn usual_words(act: NoteAct) -> &'static [u8]
    ensures { result.now ≡ usual_words act }
{
    match act {
        NoteAct::Read => b" GOT",
        NoteAct::Write => b" DONE",
        NoteAct::Endfile => b" DONE",
        NoteAct::Rewind => b" DONE",
    }
}

/// Puts the line that has these words, of a request of this statement at this place that was answered.
pub(crate) fn print_again<S: Sink>(
    line: &CachedLine,
    statement: u64,
    place: u64,
    answer: &Answer,
    sink: &mut S,
)
    ensures { Puts (S.standing sink.old) (S.standing sink.new) (again_line (text_of line.now.head) statement (text_of line.now.target) place (text_of line.now.grant) answer.now) }
{
    print_beginning(line, statement, sink);
    print_digits(place, sink);
    print_outcome(line, answer, sink);
}

// Puts a line up to its place.
fn print_beginning<S: Sink>(line: &CachedLine, statement: u64, sink: &mut S)
    ensures { Puts (S.standing sink.old) (S.standing sink.new) (text_of line.now.head ++ decimal statement ++ text_of line.now.target) }
{
    if statement == line.statement {
        sink.put(line.before.text());
    } else {
        print_row(line.head.text(), statement, line.target.text(), sink);
    }
}

fn print_row<S: Sink>(before: &[u8], value: u64, behind: &[u8], sink: &mut S)
    ensures { Puts (S.standing sink.old) (S.standing sink.new) (before.now ++ decimal value ++ behind.now) }
{
    sink.put(before);
    print_digits(value, sink);
    sink.put(behind);
}

fn print_digits<S: Sink>(value: u64, sink: &mut S)
    ensures { Puts (S.standing sink.old) (S.standing sink.new) (decimal value) }
{
    sink.put(Buffer::new().format(value).as_bytes());
}

// Puts what came of a request, by which grant or why not, and ends the line.
fn print_outcome<S: Sink>(line: &CachedLine, answer: &Answer, sink: &mut S)
    ensures { Puts (S.standing sink.old) (S.standing sink.new) (outcome_words (text_of line.now.grant) answer.now ++ codes "\n") }
{
    match (line.act, answer) {
        (NoteAct::Read, Answer::Got(_)) => sink.put(line.behind.text()),
        (NoteAct::Write, Answer::Done) => sink.put(line.behind.text()),
        _ => print_any_outcome(line.grant.text(), answer, sink),
    }
}

fn print_any_outcome<S: Sink>(grant: &[u8], answer: &Answer, sink: &mut S)
    ensures { Puts (S.standing sink.old) (S.standing sink.new) (outcome_words grant.now answer.now ++ codes "\n") }
{
    match answer {
        Answer::Done => print_end(b" DONE", grant, sink),
        Answer::Got(_) => print_end(b" GOT", grant, sink),
        Answer::EndOfFile => print_end(b" EOF", grant, sink),
        Answer::Full => print_end(b" FULL", grant, sink),
        Answer::Denied(reason) => print_denial(reason, sink),
    }
}

fn print_end<S: Sink>(outcome: &[u8], grant: &[u8], sink: &mut S)
    ensures { Puts (S.standing sink.old) (S.standing sink.new) (outcome.now ++ grant.now ++ codes "\n") }
{
    sink.put(outcome);
    sink.put(grant);
    sink.put(b"\n");
}

fn print_denial<S: Sink>(reason: &Reason, sink: &mut S)
    ensures { Puts (S.standing sink.old) (S.standing sink.new) (codes " DENIED" ++ word (reason_text reason.now) ++ codes "\n") }
{
    sink.put(b" DENIED");
    print_reason_word(reason, sink);
    sink.put(b"\n");
}
