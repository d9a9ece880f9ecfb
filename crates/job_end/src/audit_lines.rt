//! The audit's lines of a job as it is loaded, is refused, and ends. Nothing here takes memory.
ghost use Rattle.std.specs.Prelude.{◌++◌, codes};
ghost use Rattle.mon_device.specs.Putting.{Puts};
ghost use Rattle.mon_command.specs.Printouts.{word, number};
ghost use Rattle.job_end.specs.AuditLines.{loaded_line, refused_line, ended_line};

use crate::job_end::JobEnd;
use crate::printout::print_ending_words;
use crate::refusal::print_refusal_words;
use load_refusal::LoadError;
use mon_device::{Sink, print_number, print_word};
use mon_text::Name;

/// Puts the line of a job that is loaded.
pub fn print_loaded<S: Sink>(number: u64, account: &Name, sink: &mut S)
    ensures { Puts (S.standing sink.old) (S.standing sink.new) (loaded_line number account.now) }
{
    if !sink.listens() {
        return;
    }
    print_head(number, account, sink);
    sink.put(b" LOADED");
    sink.put(b"\n");
}

/// Puts the line of a job that is not loaded.
pub fn print_refused<S: Sink>(number: u64, account: &Name, refusal: &LoadError, sink: &mut S)
    ensures { Puts (S.standing sink.old) (S.standing sink.new) (refused_line number account.now refusal.now) }
{
    if !sink.listens() {
        return;
    }
    print_head(number, account, sink);
    sink.put(b" REFUSED ");
    print_refusal_words(refusal, sink);
    sink.put(b"\n");
}

/// Puts the line of a job that has ended.
pub fn print_ended<S: Sink>(end: &JobEnd, sink: &mut S)
    ensures { Puts (S.standing sink.old) (S.standing sink.new) (ended_line end.now) }
{
    if !sink.listens() {
        return;
    }
    print_head(end.number, &end.account, sink);
    sink.put(b" ENDED");
    print_ending_words(end.ending, sink);
    sink.put(b" AFTER");
    print_number(end.statements, sink);
    sink.put(b"\n");
}

// Puts of which job a line is.
fn print_head<S: Sink>(n: u64, account: &Name, sink: &mut S)
    ensures { Puts (S.standing sink.old) (S.standing sink.new) (codes "JOB" ++ number n ++ word account.now) }
{
    sink.put(b"JOB");
    print_number(n, sink);
    print_word(account.as_bytes(), sink);
}
