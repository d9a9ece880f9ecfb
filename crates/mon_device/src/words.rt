//! The words of a line, put to a sink.
ghost use Rattle.mon_device.specs.Putting.{Puts};
ghost use Rattle.mon_device.specs.Words.{word, number};

use crate::sink::Sink;
use itoa::Buffer;

/// Puts a word behind another.
pub fn print_word<S: Sink>(text: &[u8], sink: &mut S)
    ensures { Puts (S.standing sink.old) (S.standing sink.new) (word text.now) }
{
    sink.put(b" ");
    sink.put(text);
}

/// Puts a number behind a word.
pub fn print_number<S: Sink>(value: u64, sink: &mut S)
    ensures { Puts (S.standing sink.old) (S.standing sink.new) (number value) }
{
    print_word(Buffer::new().format(value).as_bytes(), sink);
}
