//! A growth that is refused. The worked commands are decks, which the program `rows` runs.
use crate::access::{ANNA, is_known};
use mon_access::Accounts;
use mon_catalogue::{Catalogue, Mode};
use mon_command::{Command, execute};
use mon_guard::Guard;
use mon_text::read_name;
use std::alloc::Global;

fn is_created(alloc: Global, accounts: &Accounts, catalogue: &mut Catalogue) -> bool {
    let (Ok(account), Ok(name)) = (read_name(b"anna"), read_name(b"NOTE")) else {
        return false;
    };
    let command = Command::Create {
        account,
        name,
        mode: Mode::Seq,
    };
    let mut guard = Guard::new(alloc);
    match execute(alloc, accounts, &mut guard, catalogue, command) {
        Ok(printout) => printout.as_slice() == b"CREATE anna NOTE\nDONE\n".as_slice(),
        Err(_) => false,
    }
}

// Where the growth that is refused was that of a command, nothing has changed, and it is done when it is given again.
fn is_served_again(alloc: Global) -> bool {
    let mut accounts = Accounts::new(alloc);
    let mut catalogue = Catalogue::new(alloc);
    is_known(alloc, &mut accounts, ANNA)
        && (is_created(alloc, &accounts, &mut catalogue)
            || is_created(alloc, &accounts, &mut catalogue))
}

/// Under `rt try --test --fail-alloc N` the Nth growth is refused.
#[test]
fn a_refused_growth_creates_nothing(rt: HostRuntime) {
    assert!(rt; is_served_again(rt.alloc()) || is_served_again(rt.alloc()));
}
