//! A deck that comes in one piece, in which a listing waits to be printed while a later card changes what it lists.
use deck_run::{DeckFeed, NoAudit, Options};
use mon_device::TextSink;
use mon_monitor::Printed;
use std::alloc::Global;

/// How many records the long listing has: so many that it is kept as a piece until it is printed.
const LISTED: usize = 65;

/// A deck that lists its records, and then changes which data sets there are: what stands before the records, and behind them.
const LISTING: (&[u8], &[u8]) = (
    b"$ACCOUNTS\n\
        anna admin\n\
        $CATALOGUE\n\
        $SET LONG anna admin 65\n\
        user::rwx,group::---,other::---\n",
    b"$STREAM\n\
        $LIST anna LONG\n\
        $CREATE anna NEW\n\
        $DELETE anna LONG\n\
        $STOP\n",
);

/// What it prints, worked by hand.
const LISTING_OUTPUT: (&[u8], &[u8]) = (
    b"LIST anna LONG\n",
    b"RECORDS 65\n\
        CREATE anna NEW\n\
        DONE\n\
        DELETE anna LONG\n\
        DONE\n\
        $CATALOGUE 2\n\
        $SET NEW anna admin SEQ 0\n\
        user::rwx,group::---,other::---\n",
);

// Appends a text with so many lines in its middle, and tells whether all of it was.
fn put_lines(ends: (&[u8], &[u8]), line: &[u8], out: &mut Vec<u8>) -> bool {
    let mut is_put = out.extend_from_slice(ends.0).is_ok();
    for _ in 0..LISTED {
        is_put = is_put && out.extend_from_slice(line).is_ok();
    }
    is_put && out.extend_from_slice(ends.1).is_ok()
}

// Whether a feed that gets a short deck in one piece prints this.
fn is_printed_at_once(alloc: Global, deck: &[u8], output: &[u8]) -> bool {
    let Ok(mut printed) = Printed::new(alloc) else {
        return false;
    };
    let mut feed = DeckFeed::new(alloc, Options::new());
    let is_fed = deck.len() < 1_000 && feed.feed(alloc, deck, &mut printed, &mut NoAudit).is_ok();
    let mut out = Vec::new(alloc);
    let mut sink = TextSink::new(&mut out);
    printed.print(&mut sink);
    let is_put = sink.settle().is_ok();
    is_fed && is_put && out.as_slice() == output
}

fn lists_before_a_change(alloc: Global) -> bool {
    let mut deck = Vec::new(alloc);
    let mut output = Vec::new(alloc);
    put_lines(LISTING, b"ADA\n", &mut deck)
        && put_lines(LISTING_OUTPUT, b" ADA\n", &mut output)
        && is_printed_at_once(alloc, &deck, &output)
}

#[test]
fn a_listing_and_a_change_come_in_one_piece(rt: HostRuntime) {
    assert!(rt; lists_before_a_change(rt.alloc()));
}
