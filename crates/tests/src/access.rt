//! The access check on lists worked by hand from acl(5).
use acl_text::parse_short;
use mon_access::Decision::{Denied, Granted};
use mon_access::{Account, Accounts, Decider as By, Decision, Groups, check};
use mon_acl::{Acl, Perms};
use mon_text::read_name;
use std::alloc::Global;

/// An account that asks: its name, its primary group, and a further one, or nothing.
pub(crate) type Names = (&'static [u8], &'static [u8], &'static [u8]);

pub(crate) const ANNA: Names = (b"anna", b"admin", b"");

pub(crate) const LISA: Names = (b"lisa", b"staff", b"");

pub(crate) const HUGO: Names = (b"hugo", b"ops", b"staff");

const OTTO: Names = (b"otto", b"ops", b"staff");

const ADA: Names = (b"ada", b"admin", b"");

const SUE: Names = (b"sue", b"staff", b"admin");

const TIM: Names = (b"tim", b"guests", b"ops");

const ZOE: Names = (b"zoe", b"guests", b"");

/// Whether it is asked to read, to write and to execute, as a table can have it.
pub(crate) type Asked = (bool, bool, bool);

const NONE: Asked = (false, false, false);

pub(crate) const R: Asked = (true, false, false);

pub(crate) const W: Asked = (false, true, false);

const X: Asked = (false, false, true);

pub(crate) const RW: Asked = (true, true, false);

const RX: Asked = (true, false, true);

const WX: Asked = (false, true, true);

pub(crate) const RWX: Asked = (true, true, true);

/// What accounts are answered to each of some requests, by a list for a data set of anna and the group admin.
struct Case {
    meaning: &'static str,
    list: &'static [u8],
    rows: &'static [(Names, &'static [Asked], Decision)],
}

/// Entries by index: 0 `user::`, 1 hugo, 2 lisa, 3 `group::`, 4 ops, 5 staff, 6 `mask::`, 7 `other::`.
const FULL: &[u8] = b"u::rwx,u:lisa:rw-,u:hugo:---,g::r--,g:ops:r-x,g:staff:-w-,m::rw-,o::--x";

/// Worked by hand from acl(5), "ACCESS CHECK ALGORITHM". An index is that of the canonical order.
static CASES: [Case; 12] = [
    Case {
        meaning: "the owner is judged by the owner's entry alone",
        list: FULL,
        rows: &[(ANNA, &[NONE, R, W, X, RW, RX, WX, RWX], Granted)],
    },
    Case {
        meaning: "the owner is denied what the group may do",
        list: b"u::---,g::rw-,o::---",
        rows: &[
            (ANNA, &[NONE], Granted),
            (ANNA, &[R, RW], Denied(By::UserObj)),
        ],
    },
    Case {
        meaning: "the owner is judged as the owner where the list names them too",
        list: b"u::r-x,u:anna:rwx,g::rwx,m::rwx,o::rwx",
        rows: &[
            (ANNA, &[R, RX], Granted),
            (ANNA, &[W, RWX], Denied(By::UserObj)),
        ],
    },
    Case {
        meaning: "a named user is judged by that entry and the mask",
        list: FULL,
        rows: &[
            (LISA, &[NONE, R, W, RW], Granted),
            (LISA, &[X, RX, WX, RWX], Denied(By::User(2))),
            (HUGO, &[NONE], Granted),
            (HUGO, &[R, W, X], Denied(By::User(1))),
        ],
    },
    Case {
        meaning: "the mask lacks what a named user's entry holds",
        list: b"user::rwx,user:lisa:rw-,group::r--,mask::r--,other::---",
        rows: &[
            (LISA, &[R], Granted),
            (LISA, &[W, RW], Denied(By::Mask)),
            (LISA, &[X, WX], Denied(By::User(1))),
            (HUGO, &[R], Denied(By::Other)),
            (ADA, &[R], Granted),
            (ADA, &[W], Denied(By::Group(2))),
        ],
    },
    Case {
        meaning: "some one group entry holds the whole request",
        list: FULL,
        rows: &[
            (OTTO, &[NONE, R, W], Granted),
            (OTTO, &[RW, WX, RWX], Denied(By::Group(4))),
            (OTTO, &[X, RX], Denied(By::Mask)),
            (ADA, &[R], Granted),
            (ADA, &[W, X, RW], Denied(By::Group(3))),
            (SUE, &[R, W], Granted),
            (SUE, &[X, RW], Denied(By::Group(3))),
            (TIM, &[R], Granted),
            (TIM, &[W, RW], Denied(By::Group(4))),
            (TIM, &[X, RX], Denied(By::Mask)),
        ],
    },
    Case {
        meaning: "two groups are not joined",
        list: b"u::rwx,g::---,g:ops:r--,g:staff:-w-,m::rw-,o::---",
        rows: &[
            (HUGO, &[R, W], Granted),
            (HUGO, &[RW, X], Denied(By::Group(2))),
            (ADA, &[R], Denied(By::Group(1))),
        ],
    },
    Case {
        meaning: "the owning group and a named entry for it both match",
        list: b"u::---,g::r--,g:admin:rw-,m::rwx,o::---",
        rows: &[
            (ADA, &[R, RW], Granted),
            (ADA, &[X], Denied(By::Group(1))),
            (LISA, &[R], Denied(By::Other)),
        ],
    },
    Case {
        meaning: "the mask limits groups and neither the owner nor all others",
        list: b"u::rwx,g::rw-,m::r--,o::-w-",
        rows: &[
            (ANNA, &[RWX], Granted),
            (ADA, &[R], Granted),
            (ADA, &[W, RW], Denied(By::Mask)),
            (ADA, &[X], Denied(By::Group(1))),
            (ZOE, &[W], Granted),
            (ZOE, &[R], Denied(By::Other)),
        ],
    },
    Case {
        meaning: "a mask of nothing denies named users and groups",
        list: b"u::rwx,u:lisa:rwx,g::rwx,g:ops:rwx,m::---,o::rwx",
        rows: &[
            (LISA, &[NONE], Granted),
            (LISA, &[R], Denied(By::Mask)),
            (ADA, &[W], Denied(By::Mask)),
            (OTTO, &[X], Denied(By::Mask)),
            (ANNA, &[RWX], Granted),
            (ZOE, &[RWX], Granted),
        ],
    },
    Case {
        meaning: "with no mask the owning group's entry decides, and none falls through",
        list: b"u::r--,g::-w-,o::rwx",
        rows: &[
            (ANNA, &[R], Granted),
            (ANNA, &[W], Denied(By::UserObj)),
            (ADA, &[W], Granted),
            (ADA, &[R, X, RW], Denied(By::Group(1))),
            (LISA, &[RWX], Granted),
            (ZOE, &[RWX], Granted),
        ],
    },
    Case {
        meaning: "all others are judged by the last entry",
        list: FULL,
        rows: &[
            (ZOE, &[NONE, X], Granted),
            (ZOE, &[R, W, RX, RWX], Denied(By::Other)),
        ],
    },
];

pub(crate) fn account(alloc: Global, (name, primary, further): Names) -> Option<Account> {
    let name = read_name(name).ok()?;
    let primary = read_name(primary).ok()?;
    let mut groups = Groups::new(alloc);
    if !further.is_empty() {
        let further = read_name(further).ok()?;
        groups.push(further).ok()?;
    }
    Some(Account {
        name,
        primary,
        groups,
    })
}

/// Whether an account is added to those that are known.
pub(crate) fn is_known(alloc: Global, accounts: &mut Accounts, names: Names) -> bool {
    match account(alloc, names) {
        Some(account) => accounts.add(account).is_ok(),
        None => false,
    }
}

pub(crate) fn perms_of((read, write, execute): Asked) -> Perms {
    Perms::new(read, write, execute)
}

/// Whether an account is answered so to each request by a data set of anna and the group admin with this list.
fn is_answered(alloc: Global, acl: &Acl, names: Names, asked: &[Asked], wanted: Decision) -> bool {
    let (Ok(owner), Ok(group)) = (read_name(b"anna"), read_name(b"admin")) else {
        return false;
    };
    let Some(account) = account(alloc, names) else {
        return false;
    };
    let mut holds = true;
    for one in asked {
        holds = holds && check(&account, &owner, &group, acl, perms_of(*one)) == wanted;
    }
    holds
}

fn is_worked_by_hand(alloc: Global, case: &Case) -> bool {
    let Ok(acl) = parse_short(alloc, case.list) else {
        return false;
    };
    let mut holds = true;
    for &(names, asked, wanted) in case.rows {
        holds = holds && is_answered(alloc, &acl, names, asked, wanted);
    }
    holds
}

#[test]
fn the_access_check_is_acl5_worked_by_hand(rt: HostRuntime) {
    for case in &CASES {
        let meaning = case.meaning;
        assert!(rt; is_worked_by_hand(rt.alloc(), case), "{meaning}");
    }
}
