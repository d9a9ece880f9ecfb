//! The users of a site: which account a user of the system has.
ghost use Rattle.std.specs.Prelude.{◌≡◌, Ok, Err, map, IfErr, OnOk};
ghost use Rattle.mon_text.specs.Stops.{Gives};
ghost use Rattle.preflight.specs.Submissions.{IfStopped};
ghost use Rattle.site_plan.specs.Users.{uid_on, user_with, user_on, has_uid, has_account, with_user, with_known, after_line, users_of};

use crate::lines::{is_skipped, stop_at};
use deck_syntax::first_line;
use mon_access::Accounts;
use mon_text::{Name, Stop, read_count, read_name, split_words};
use std::alloc::Global;

/// A user of the system, by the number that the kernel has for him, and his account.
#[derive(Drop)]
pub struct User {
    /// The user's number.
    pub uid: u32,
    /// The account.
    pub account: Name,
}

/// Why a line of the users is refused.
#[derive(Clone, Copy)]
pub enum UsersFault {
    /// The line is not a number and a name.
    BadLine,
    /// A line before has this number.
    UidTwice,
    /// A line before has this account.
    AccountTwice,
    /// The account table has no such account.
    NoAccount,
    /// No line gives a user.
    NoUser,
}

impl UsersFault {
    /// What is wrong, in words.
    pub fn text(self) -> &'static str {
        match self {
            UsersFault::BadLine => "not a user's number and an account",
            UsersFault::UidTwice => "a line before has this number",
            UsersFault::AccountTwice => "a line before has this account",
            UsersFault::NoAccount => "no line of the account table has this account",
            UsersFault::NoUser => "no line gives a user",
        }
    }
}

/// The users of a file of them: a number and an account of the table on each line, one at the least. Blank lines, and those that begin
/// with `#`, are skipped. No number stands there twice, except in a demonstration, and no account.
///
/// # Errors
///
/// The number of the first line that is wrong, counted from 1, and why. Where no line gives a user it is the number behind the last
/// line. `Memory` where a growth was refused.
pub fn read_users(
    alloc: Global,
    demonstration: bool,
    accounts: &Accounts,
    text: &[u8],
) -> Result<Vec<User>, Stop<(u64, UsersFault)>>
    ensures { Gives (λ users. users.items) result (users_of demonstration accounts.now text.now) }
{
    let mut users = Vec::new(alloc);
    let mut number: u64 = 1;
    let mut rest = text;
    'lines: while !rest.is_empty() {
        let (line, behind) = first_line(rest);
        match take_line(alloc, demonstration, accounts, &mut users, line) {
            Ok(()) => {}
            Err(stop) => return Err(stop_at(number, stop)),
        }
        number += 1;
        rest = behind;
    }
    if users.is_empty() {
        return Err(Stop::Refused((number, UsersFault::NoUser)));
    }
    Ok(users)
}

// Takes a line of the users.
fn take_line(
    alloc: Global,
    demonstration: bool,
    accounts: &Accounts,
    users: &mut Vec<User>,
    line: &[u8],
) -> Result<(), Stop<UsersFault>>
    ensures taken { OnOk result (after_line demonstration accounts.now users.old.items line.now ≡ Ok users.new.items) }
    ensures refused { IfErr result (IfStopped (λ why. after_line demonstration accounts.now users.old.items line.now ≡ Err why)) }
{
    if is_skipped(line) {
        return Ok(());
    }
    let words = split_words(alloc, line)?;
    match user_of(words.as_slice()) {
        None => Err(Stop::Refused(UsersFault::BadLine)),
        Some(user) => add_known(demonstration, accounts, users, user),
    }
}

// The user that these words give.
fn user_of(words: &[&[u8]]) -> Option<User>
    ensures { result ≡ user_on (map (λ word. word.now) words.now) }
{
    match words {
        [uid, account] => user_with(uid, account),
        _ => None,
    }
}

fn user_with(uid: &[u8], account: &[u8]) -> Option<User>
    ensures { result ≡ user_with uid.now account.now }
{
    let Some(uid) = uid_on(uid) else {
        return None;
    };
    match read_name(account) {
        Ok(account) => Some(User { uid, account }),
        Err(_) => None,
    }
}

// A user's number: of 32 bits, and not the largest, which stands for nobody.
fn uid_on(word: &[u8]) -> Option<u32>
    ensures { result ≡ uid_on word.now }
{
    match read_count(word) {
        Ok(number) => {
            if number < u64::from(u32::MAX) {
                Some(number as u32)
            } else {
                None
            }
        }
        Err(_) => None,
    }
}

// Adds a user at the end, if the table has his account.
fn add_known(
    demonstration: bool,
    accounts: &Accounts,
    users: &mut Vec<User>,
    user: User,
) -> Result<(), Stop<UsersFault>>
    ensures taken { OnOk result (with_known demonstration accounts.now users.old.items user ≡ Ok users.new.items) }
    ensures refused { IfErr result (IfStopped (λ why. with_known demonstration accounts.now users.old.items user ≡ Err why)) }
{
    if accounts.find(&user.account).is_none() {
        return Err(Stop::Refused(UsersFault::NoAccount));
    }
    add_user(demonstration, users, user)
}

// Adds a user at the end.
fn add_user(demonstration: bool, users: &mut Vec<User>, user: User) -> Result<(), Stop<UsersFault>>
    ensures taken { OnOk result (with_user demonstration users.old.items user ≡ Ok users.new.items) }
    ensures refused { IfErr result (IfStopped (λ why. with_user demonstration users.old.items user ≡ Err why)) }
{
    if !demonstration && has_uid(users, user.uid) {
        return Err(Stop::Refused(UsersFault::UidTwice));
    }
    if has_account(users, &user.account) {
        return Err(Stop::Refused(UsersFault::AccountTwice));
    }
    match users.push(user) {
        Ok(()) => Ok(()),
        Err(_) => Err(Stop::Memory),
    }
}

fn has_uid(users: &[User], uid: u32) -> bool
    ensures { result ≡ has_uid uid users.now }
{
    users.iter().any(|user| user.uid == uid)
}

fn has_account(users: &[User], account: &Name) -> bool
    ensures { result ≡ has_account account.now users.now }
{
    users.iter().any(|user| &user.account == account)
}
