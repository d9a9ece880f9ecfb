//! Owner commands.
ghost use Rattle.std.specs.Prelude.{◌≡◌};
ghost use Rattle.deck_lines.specs.Commands.{account_of};

use acl_text::AclText;
use mon_catalogue::Mode;
use mon_text::Name;

/// What an account asks of the monitor by one card.
#[derive(Drop)]
pub enum Command {
    /// To make a data set of this mode with no records, whose owner is the account.
    Create {
        account: Name,
        name: Name,
        mode: Mode,
    },
    /// To delete a data set.
    Delete {
        account: Name,
        name: Name,
    },
    /// To put another permission list into a data set.
    SetAcl {
        account: Name,
        name: Name,
        text: AclText,
    },
    /// To see the owner, the group and the permission list of a data set.
    ShowAcl {
        account: Name,
        name: Name,
    },
    /// To see the records of a data set.
    List {
        account: Name,
        name: Name,
    },
    /// To see the names of the data sets.
    Catalog {
        account: Name,
    },
}

impl Command {
    /// The account that asks.
    pub fn account(&self) -> &Name
        ensures { result.now ≡ account_of self.now }
    {
        match self {
            Command::Create { account, .. }
            | Command::Delete { account, .. }
            | Command::SetAcl { account, .. }
            | Command::ShowAcl { account, .. }
            | Command::List { account, .. }
            | Command::Catalog { account } => account,
        }
    }
}
