//! What a job that has ended prints, put to a sink from where its lines stand: it takes no memory.
ghost use Rattle.std.specs.Prelude.{◌≡◌, [], ◌++◌, codes, length, take, OnOk, OnErr};
ghost use Rattle.std.specs.List.{flat_map};
ghost use Rattle.mon_device.specs.Putting.{Puts};
ghost use Rattle.mon_command.specs.Printouts.{number};
ghost use Rattle.audit.specs.Words.{job_line};
ghost use Rattle.job_end.specs.Printouts.{target_words, exchange_words, note_words, note_line, ending_words, printout};

use crate::job_end::JobEnd;
use audit::act_word;
use mon_command::print_reason;
use mon_device::{Sink, TextSink, print_number, print_word};
use mon_text::Name;
use mon_unit::{Note, NoteTarget, Why};
use sno_run::Ending;
use std::alloc::AllocError;

/// Puts what a job that has ended prints: its own line, each line of its spool, its notes, and how it ended.
pub fn print_end<S: Sink>(end: &JobEnd, sink: &mut S)
    ensures { Puts (S.standing sink.old) (S.standing sink.new) (printout end.now) }
{
    print_job_line(end.number, &end.account, sink);
    end.spool.print(b" ", sink);
    print_notes(end.notes.as_slice(), sink);
    print_ending(end.ending, end.statements, sink);
}

/// Appends what a job that has ended prints.
///
/// # Errors
///
/// Where a growth was refused; nothing was appended then.
pub fn put_printout(end: &JobEnd, out: &mut Vec<u8>) -> Result<(), AllocError>
    ensures printed { OnOk result (out.new.items ≡ out.old.items ++ printout end.now) }
    ensures unchanged { OnErr result (out.new.items ≡ out.old.items) }
{
    let before = out.len();
    match put_text(end, out) {
        Ok(()) => Ok(()),
        Err(error) => {
            out.truncate(before);
            Err(error)
        }
    }
}

fn put_text(end: &JobEnd, out: &mut Vec<u8>) -> Result<(), AllocError>
    ensures printed { OnOk result (out.new.items ≡ out.old.items ++ printout end.now) }
    ensures begun { take (length out.old.items) out.new.items ≡ out.old.items }
{
    let mut sink = TextSink::new(out);
    print_end(end, &mut sink);
    sink.settle()
}

// Puts a job's own line.
pub(crate) fn print_job_line<S: Sink>(number: u64, account: &Name, sink: &mut S)
    ensures { Puts (S.standing sink.old) (S.standing sink.new) (job_line number account.now []) }
{
    sink.put(b"JOB");
    print_number(number, sink);
    print_word(account.as_bytes(), sink);
    sink.put(b"\n");
}

fn print_notes<S: Sink>(notes: &[Note], sink: &mut S)
    ensures { Puts (S.standing sink.old) (S.standing sink.new) (flat_map note_line notes.now) }
{
    for note in notes {
        print_note(note, sink);
    }
}

fn print_note<S: Sink>(note: &Note, sink: &mut S)
    ensures { Puts (S.standing sink.old) (S.standing sink.new) (note_line note.now) }
{
    print_note_words(note, sink);
    sink.put(b"\n");
}

fn print_note_words<S: Sink>(note: &Note, sink: &mut S)
    ensures { Puts (S.standing sink.old) (S.standing sink.new) (note_words note.now.why (exchange_words note.now)) }
{
    match &note.why {
        Why::Denied(reason) => {
            sink.put(b"DENIED");
            print_exchange(note, sink);
            sink.put(b" ");
            print_reason(reason.copy(), sink);
        }
        Why::Full => {
            sink.put(b"FULL");
            print_exchange(note, sink);
        }
    }
}

// Puts what was asked, and of what.
fn print_exchange<S: Sink>(note: &Note, sink: &mut S)
    ensures { Puts (S.standing sink.old) (S.standing sink.new) (exchange_words note.now) }
{
    sink.put(b" STATEMENT");
    print_number(note.statement, sink);
    print_word(act_word(note.act), sink);
    print_target(&note.target, sink);
}

fn print_target<S: Sink>(target: &NoteTarget, sink: &mut S)
    ensures { Puts (S.standing sink.old) (S.standing sink.new) (target_words target.now) }
{
    match target {
        NoteTarget::Set(name) => print_word(name.as_bytes(), sink),
        NoteTarget::Unit(unit) => {
            sink.put(b" UNIT");
            print_number(*unit, sink);
        }
    }
}

fn print_ending<S: Sink>(ending: Ending, statements: u64, sink: &mut S)
    ensures { Puts (S.standing sink.old) (S.standing sink.new) (codes "END" ++ ending_words ending ++ codes " AFTER" ++ number statements ++ codes "\n") }
{
    sink.put(b"END");
    print_ending_words(ending, sink);
    sink.put(b" AFTER");
    print_number(statements, sink);
    sink.put(b"\n");
}

pub(crate) fn print_ending_words<S: Sink>(ending: Ending, sink: &mut S)
    ensures { Puts (S.standing sink.old) (S.standing sink.new) (ending_words ending) }
{
    match ending {
        Ending::Normal => sink.put(b" NORMAL"),
        Ending::StatementLimit => sink.put(b" STATEMENT LIMIT"),
        Ending::MatchLimit(statement) => {
            sink.put(b" MATCH LIMIT");
            print_at_statement(statement, sink);
        }
        Ending::Fault(fault, statement) => {
            sink.put(b" FAULT");
            print_word(fault.name().as_bytes(), sink);
            print_at_statement(statement, sink);
        }
        Ending::Memory => sink.put(b" MEMORY"),
    }
}

fn print_at_statement<S: Sink>(statement: u64, sink: &mut S)
    ensures { Puts (S.standing sink.old) (S.standing sink.new) (codes " AT" ++ number statement) }
{
    sink.put(b" AT");
    print_number(statement, sink);
}
