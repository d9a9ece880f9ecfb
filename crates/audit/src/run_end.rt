//! The line of the run's end. Nothing here takes memory.
ghost use Rattle.mon_device.specs.Putting.{Puts};
ghost use Rattle.audit.specs.RunEnds.{stopped_line, deck_refused_line};

use mon_device::{Sink, print_number, print_word};

/// Puts the line of a deck that was stopped.
pub fn print_stopped<S: Sink>(sink: &mut S)
    ensures { Puts (S.standing sink.old) (S.standing sink.new) stopped_line }
{
    sink.put(b"RUN 0 .NONE STOPPED\n");
}

/// Puts the line of a deck that was refused at a line by a code with these words.
pub fn print_deck_refused<S: Sink>(line: u64, code: &[u8], sink: &mut S)
    ensures { Puts (S.standing sink.old) (S.standing sink.new) (deck_refused_line line code.now) }
{
    sink.put(b"RUN 0 .NONE REFUSED LINE");
    print_number(line, sink);
    print_word(code, sink);
    sink.put(b"\n");
}
