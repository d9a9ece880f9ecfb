//! The lines of the data sets that a CATALOG shows. Nothing here takes memory.
ghost use Rattle.std.specs.Prelude.{◌≡◌, ◌∷◌, ◌++◌, [], codes};
ghost use Rattle.std.specs.List.{flat_map};
ghost use Rattle.std.specs.Option.{option_map_or};
ghost use Rattle.mon_acl.specs.Permissions.{to_execute};
ghost use Rattle.mon_access.specs.Accounts.{find_account};
ghost use Rattle.mon_guard.specs.Views.{names_shown};
ghost use Rattle.mon_device.specs.Putting.{Puts};
ghost use Rattle.deck_lines.specs.Commands.{account_of};
ghost use Rattle.mon_command.specs.Printouts.{word};
ghost use Rattle.mon_command.specs.Replies.{reason_text};
ghost use Rattle.audit.specs.Grants.{granting_entry};
ghost use Rattle.audit.specs.Catalogs.{shown_line, shown_lines};
ghost use Rattle.audit.specs.inner.Parts.{entry_line, set_at_index};
ghost use Rattle.deck_lines.specs.declared.command.Command.TheVariants as commands;

use crate::grants::{granting_entry, to_execute};
use crate::laws;
use crate::request::print_reason_word;
use interaction::Reason;
use mon_access::{Account, Accounts};
use mon_catalogue::{Catalogue, DataSet};
use mon_command::Command;
use mon_device::{Sink, print_word};
use mon_text::Name;

/// Puts the lines of the data sets that a command shows.
pub(crate) fn print_shown<S: Sink>(
    accounts: &Accounts,
    command: &Command,
    sets: &Catalogue,
    sink: &mut S,
)
    ensures { Puts (S.standing sink.old) (S.standing sink.new) (shown_lines (find_account accounts.now (account_of command.now)) sets.now command.now) }
{
    match command {
        Command::Catalog { account } => print_catalog(accounts, account, sets, sink),
        Command::Create { .. } => {}
        Command::Delete { .. } => {}
        Command::SetAcl { .. } => {}
        Command::ShowAcl { .. } => {}
        Command::List { .. } => {}
    }
}

fn print_catalog<S: Sink>(accounts: &Accounts, by: &Name, sets: &Catalogue, sink: &mut S)
    ensures { Puts (S.standing sink.old) (S.standing sink.new) (shown_lines (find_account accounts.now by.now) sets.now (commands.Catalog by.now)) }
{
    match accounts.find(by) {
        Some(account) => print_sets(by, account, sets, sink),
        None => {}
    }
}

fn print_sets<S: Sink>(by: &Name, account: &Account, sets: &Catalogue, sink: &mut S)
    ensures { Puts (S.standing sink.old) (S.standing sink.new) (flat_map (shown_line by.now account.now) (names_shown account.now sets.now)) }
{
    for index in 0..sets.len() {
        print_set(by, account, sets, index, sink);
    }
}

// Puts the line of the data set at an index, if its name is shown.
fn print_set<S: Sink>(by: &Name, account: &Account, sets: &Catalogue, index: usize, sink: &mut S)
    ensures { Puts (S.standing sink.old) (S.standing sink.new) (flat_map (shown_line by.now account.now) (names_shown account.now (set_at_index sets.now index))) }
{
    match sets.at(index) {
        Some((name, set)) => print_if_shown(by, account, name, set, sink),
        None => {}
    }
}

fn print_if_shown<S: Sink>(by: &Name, account: &Account, name: &Name, set: &DataSet, sink: &mut S)
    ensures { Puts (S.standing sink.old) (S.standing sink.new) (flat_map (shown_line by.now account.now) (names_shown account.now ((name.now, set.now) ∷ []))) }
{
    laws::entries_are_named();
    match granting_entry(account, set, to_execute()) {
        Some(reason) => print_shown_line(by, name, &reason, sink),
        None => {}
    }
}

fn print_shown_line<S: Sink>(by: &Name, name: &Name, reason: &Reason, sink: &mut S)
    ensures { Puts (S.standing sink.old) (S.standing sink.new) (entry_line by.now name.now reason.now) }
{
    sink.put(b"COMMAND 0");
    print_word(by.as_bytes(), sink);
    print_shown_name(name, reason, sink);
    sink.put(b"\n");
}

fn print_shown_name<S: Sink>(name: &Name, reason: &Reason, sink: &mut S)
    ensures { Puts (S.standing sink.old) (S.standing sink.new) (codes " CATALOG SHOWN" ++ word name.now ++ word (reason_text reason.now)) }
{
    sink.put(b" CATALOG SHOWN");
    print_word(name.as_bytes(), sink);
    print_reason_word(reason, sink);
}
