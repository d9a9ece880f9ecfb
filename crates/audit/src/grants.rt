//! By what a command is granted what it does or shows. Nothing here takes memory.
ghost use Rattle.std.specs.Prelude.{◌≡◌};
ghost use Rattle.mon_acl.specs.Permissions.{to_execute};
ghost use Rattle.mon_access.specs.Accounts.{find_account};
ghost use Rattle.deck_lines.specs.Commands.{account_of};
ghost use Rattle.mon_device.specs.Putting.{Puts};
ghost use Rattle.audit.specs.Grants.{granting_entry, by_entry, to_see_list, granted_words, is_granted, last_words};
ghost use Rattle.audit.specs.inner.Parts.{grant_after};

use crate::request::print_reason_word;
use interaction::Reason;
use mon_access::{Account, Accounts, granting};
use mon_acl::Perms;
use mon_catalogue::{Catalogue, DataSet};
use mon_command::{Command, Reply, Said};
use mon_device::Sink;

/// By what something is granted on a data set.
#[derive(Drop)]
pub enum Grant {
    /// By being its owner, where only he may.
    AsOwner,
    /// By this entry of its list.
    ByEntry(Reason),
}

/// The entry of a data set's list that grants a request, if one does. It takes no memory.
pub fn granting_entry(account: &Account, set: &DataSet, request: Perms) -> Option<Reason>
    ensures { result ≡ granting_entry account.now set.now request }
{
    let index = granting(account, &set.owner, &set.group, &set.acl, request)?;
    let entry = set.acl.entry(index)?.copy();
    Some(Reason::By(entry.tag, entry.name))
}

// By what a command that is done or shows something was granted, over the data sets as it has left them.
fn command_grant(accounts: &Accounts, command: &Command, sets: &Catalogue) -> Option<Grant>
    ensures { result ≡ grant_after (find_account accounts.now (account_of command.now)) sets.now command.now }
{
    match command {
        Command::Delete { .. } | Command::SetAcl { .. } => Some(Grant::AsOwner),
        Command::ShowAcl { account, name } => {
            let known = accounts.find(account)?;
            list_grant(known, sets.find(name)?)
        }
        Command::List { account, name } => {
            let known = accounts.find(account)?;
            entry_grant(known, sets.find(name)?, Perms::new(true, false, false))
        }
        Command::Create { .. } | Command::Catalog { .. } => None,
    }
}

// By what a data set's list is shown.
fn list_grant(account: &Account, set: &DataSet) -> Option<Grant>
    ensures { result ≡ to_see_list account.now set.now }
{
    if account.name == set.owner {
        return Some(Grant::AsOwner);
    }
    entry_grant(account, set, to_execute())
}

// By the entry of its list that grants a request.
fn entry_grant(account: &Account, set: &DataSet, request: Perms) -> Option<Grant>
    ensures { result ≡ by_entry account.now set.now request }
{
    let reason = granting_entry(account, set, request)?;
    Some(Grant::ByEntry(reason))
}

/// What asks x, and nothing else.
pub(crate) fn to_execute() -> Perms
    ensures { result ≡ to_execute }
{
    Perms::new(false, false, true)
}

/// Puts by what a command was granted that this was said to, over the data sets as it has left them.
pub(crate) fn print_granted_by<S: Sink>(
    accounts: &Accounts,
    command: &Command,
    said: &Said,
    sets: &Catalogue,
    sink: &mut S,
)
    ensures { Puts (S.standing sink.old) (S.standing sink.new) (last_words said.now (grant_after (find_account accounts.now (account_of command.now)) sets.now command.now)) }
{
    if is_granted(said) {
        let grant = command_grant(accounts, command, sets);
        print_granted(&grant, sink);
    }
}

// Whether a command is done, or shows something.
fn is_granted(said: &Said) -> bool
    ensures { result ≡ is_granted said.now }
{
    match said {
        Said::Told(reply) => matches!(reply, Reply::Done),
        Said::Records(_) | Said::Entries(_) | Said::Names(_) => true,
    }
}

fn print_granted<S: Sink>(grant: &Option<Grant>, sink: &mut S)
    ensures { Puts (S.standing sink.old) (S.standing sink.new) (granted_words grant.now) }
{
    match grant {
        Some(Grant::AsOwner) => sink.put(b" BY owner"),
        Some(Grant::ByEntry(reason)) => print_reason_word(reason, sink),
        None => {}
    }
}
