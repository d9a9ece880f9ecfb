//! The printout of a command that lists records, put to a sink from where they stand. Nothing here takes memory.
ghost use Rattle.std.specs.Prelude.{codes};
ghost use Rattle.mon_device.specs.Putting.{Puts};
ghost use Rattle.mon_command.specs.Printouts.{count_line, records_text};
ghost use Rattle.mon_command.specs.Commands.{card_line};
ghost use Rattle.mon_catalogue.specs.Sets.{find_set};
ghost use Rattle.mon_monitor.specs.Printed.{listing, records_of};

use mon_catalogue::{Catalogue, Records};
use mon_device::{Sink, print_number, print_word};
use mon_text::Name;

// Puts the command's own line, the records of the data set of this name, and how many they are.
pub(crate) fn print_listing<S: Sink>(sets: &Catalogue, account: &Name, name: &Name, sink: &mut S)
    ensures { Puts (S.standing sink.old) (S.standing sink.new) (listing account.now name.now sets.now) }
{
    print_card(account, name, sink);
    print_set(sets, name, sink);
}

fn print_card<S: Sink>(account: &Name, name: &Name, sink: &mut S)
    ensures { Puts (S.standing sink.old) (S.standing sink.new) (card_line (codes "LIST") account.now name.now) }
{
    sink.put(b"LIST");
    print_word(account.as_bytes(), sink);
    print_word(name.as_bytes(), sink);
    sink.put(b"\n");
}

fn print_set<S: Sink>(sets: &Catalogue, name: &Name, sink: &mut S)
    ensures { Puts (S.standing sink.old) (S.standing sink.new) (records_text (records_of (find_set name.now sets.now))) }
{
    match sets.find(name) {
        Some(set) => print_records(&set.records, sink),
        None => print_count(0, sink),
    }
}

fn print_records<S: Sink>(records: &Records, sink: &mut S)
    ensures { Puts (S.standing sink.old) (S.standing sink.new) (records_text records.now) }
{
    records.print_lines(b" ", sink);
    print_count(records.len(), sink);
}

fn print_count<S: Sink>(count: u64, sink: &mut S)
    ensures { Puts (S.standing sink.old) (S.standing sink.new) (count_line (codes "RECORDS") count) }
{
    sink.put(b"RECORDS");
    print_number(count, sink);
    sink.put(b"\n");
}
