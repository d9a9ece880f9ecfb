//! The lines of a command. Nothing here takes memory.
ghost use Rattle.std.specs.Prelude.{◌≡◌, ◌++◌, [], codes};
ghost use Rattle.std.specs.Option.{option_map_or};
ghost use Rattle.acl_text.specs.Printing.{short_form};
ghost use Rattle.mon_access.specs.Accounts.{find_account};
ghost use Rattle.mon_catalogue.specs.Sets.{find_set};
ghost use Rattle.mon_device.specs.Putting.{Puts};
ghost use Rattle.deck_lines.specs.Commands.{account_of};
ghost use Rattle.mon_command.specs.Printouts.{word, number};
ghost use Rattle.mon_command.specs.Replies.{reply_text};
ghost use Rattle.audit.specs.Grants.{last_words};
ghost use Rattle.audit.specs.Commands.{card_words, said_words, done_words, if_done, said_line};
ghost use Rattle.audit.specs.inner.Parts.{if_reply_done, listed, grant_after, lines_after};

use crate::catalog::print_shown;
use crate::grants::print_granted_by;
use acl_text::print_short;
use mon_access::Accounts;
use mon_acl::Acl;
use mon_catalogue::Catalogue;
use mon_command::{Command, Reply, Said};
use mon_device::{Sink, print_number, print_word};
use mon_text::Name;

/// Puts the lines of a command of one of these accounts that this was said to, over the data sets as it has left them.
pub fn print_command<S: Sink>(
    accounts: &Accounts,
    command: &Command,
    said: &Said,
    sets: &Catalogue,
    sink: &mut S,
)
    ensures { Puts (S.standing sink.old) (S.standing sink.new) (lines_after (find_account accounts.now (account_of command.now)) sets.now command.now said.now) }
{
    if sink.listens() {
        print_lines(accounts, command, said, sets, sink);
    }
}

// It stays a call, since mostly nobody listens.
#[inline(never)]
fn print_lines<S: Sink>(
    accounts: &Accounts,
    command: &Command,
    said: &Said,
    sets: &Catalogue,
    sink: &mut S,
)
    ensures { Puts (S.standing sink.old) (S.standing sink.new) (lines_after (find_account accounts.now (account_of command.now)) sets.now command.now said.now) }
{
    print_line(accounts, command, said, sets, sink);
    print_shown(accounts, command, sets, sink);
}

fn print_line<S: Sink>(
    accounts: &Accounts,
    command: &Command,
    said: &Said,
    sets: &Catalogue,
    sink: &mut S,
)
    ensures { Puts (S.standing sink.old) (S.standing sink.new) (said_line command.now said.now (listed command.now sets.now) (grant_after (find_account accounts.now (account_of command.now)) sets.now command.now)) }
{
    sink.put(b"COMMAND 0");
    print_word(command.account().as_bytes(), sink);
    print_what(accounts, command, said, sets, sink);
    sink.put(b"\n");
}

// Puts what is asked, what came of it, and by what it was granted.
fn print_what<S: Sink>(
    accounts: &Accounts,
    command: &Command,
    said: &Said,
    sets: &Catalogue,
    sink: &mut S,
)
    ensures { Puts (S.standing sink.old) (S.standing sink.new) (card_words command.now ++ said_words said.now ++ if_done said.now (done_words command.now (listed command.now sets.now))
        ++ last_words said.now (grant_after (find_account accounts.now (account_of command.now)) sets.now command.now)) }
{
    print_card(command, sink);
    print_said(said, sink);
    print_if_done(command, said, sets, sink);
    print_granted_by(accounts, command, said, sets, sink);
}

fn print_card<S: Sink>(command: &Command, sink: &mut S)
    ensures { Puts (S.standing sink.old) (S.standing sink.new) (card_words command.now) }
{
    match command {
        Command::Create { name, .. } => print_card_of(b" CREATE", name, sink),
        Command::Delete { name, .. } => print_card_of(b" DELETE", name, sink),
        Command::SetAcl { name, .. } => print_card_of(b" SETACL", name, sink),
        Command::ShowAcl { name, .. } => print_card_of(b" SHOWACL", name, sink),
        Command::List { name, .. } => print_card_of(b" LIST", name, sink),
        Command::Catalog { .. } => sink.put(b" CATALOG"),
    }
}

fn print_card_of<S: Sink>(card: &[u8], name: &Name, sink: &mut S)
    ensures { Puts (S.standing sink.old) (S.standing sink.new) (card.now ++ word name.now) }
{
    sink.put(card);
    print_word(name.as_bytes(), sink);
}

fn print_said<S: Sink>(said: &Said, sink: &mut S)
    ensures { Puts (S.standing sink.old) (S.standing sink.new) (said_words said.now) }
{
    match said {
        Said::Told(reply) => print_reply(reply, sink),
        Said::Records(count) => print_count(b" RECORDS", *count, sink),
        Said::Entries(count) => print_count(b" ENTRIES", *count, sink),
        Said::Names(count) => print_count(b" NAMES", *count, sink),
    }
}

fn print_reply<S: Sink>(reply: &Reply, sink: &mut S)
    ensures { Puts (S.standing sink.old) (S.standing sink.new) (word (reply_text reply.now)) }
{
    sink.put(b" ");
    reply.print(sink);
}

fn print_count<S: Sink>(what: &[u8], count: u64, sink: &mut S)
    ensures { Puts (S.standing sink.old) (S.standing sink.new) (what.now ++ number count) }
{
    sink.put(what);
    print_number(count, sink);
}

fn print_if_done<S: Sink>(command: &Command, said: &Said, sets: &Catalogue, sink: &mut S)
    ensures { Puts (S.standing sink.old) (S.standing sink.new) (if_done said.now (done_words command.now (listed command.now sets.now))) }
{
    match said {
        Said::Told(reply) => print_if_reply_done(command, reply, sets, sink),
        Said::Records(_) => {}
        Said::Entries(_) => {}
        Said::Names(_) => {}
    }
}

fn print_if_reply_done<S: Sink>(command: &Command, reply: &Reply, sets: &Catalogue, sink: &mut S)
    ensures { Puts (S.standing sink.old) (S.standing sink.new) (if_reply_done reply.now (done_words command.now (listed command.now sets.now))) }
{
    match reply {
        Reply::Done => print_done(command, sets, sink),
        Reply::NoAccount => {}
        Reply::Denied(_) => {}
        Reply::NameTaken => {}
        Reply::CatalogueFull => {}
        Reply::BadList(_) => {}
    }
}

// Puts what a new data set is, or what the list of one is now.
fn print_done<S: Sink>(command: &Command, sets: &Catalogue, sink: &mut S)
    ensures { Puts (S.standing sink.old) (S.standing sink.new) (done_words command.now (listed command.now sets.now)) }
{
    match command {
        Command::Create { mode, .. } => print_word(mode.word(), sink),
        Command::SetAcl { name, .. } => print_list_of(name, sets, sink),
        Command::Delete { .. } => {}
        Command::ShowAcl { .. } => {}
        Command::List { .. } => {}
        Command::Catalog { .. } => {}
    }
}

fn print_list_of<S: Sink>(name: &Name, sets: &Catalogue, sink: &mut S)
    ensures { Puts (S.standing sink.old) (S.standing sink.new) (option_map_or (λ set. word (short_form set.acl)) (find_set name.now sets.now) []) }
{
    match sets.find(name) {
        Some(set) => print_list(&set.acl, sink),
        None => {}
    }
}

fn print_list<S: Sink>(list: &Acl, sink: &mut S)
    ensures { Puts (S.standing sink.old) (S.standing sink.new) (word (short_form list.now)) }
{
    sink.put(b" ");
    print_short(list, sink);
}
