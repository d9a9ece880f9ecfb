//! The text of a site's users.
ghost use Rattle.std.specs.Prelude.{◌≡◌, ◌++◌, codes, IfOk, OnOk};
ghost use Rattle.ledger_tables.specs.Users.{user_line, users_text};

use mon_text::put_number;
use site_plan::User;
use std::alloc::{AllocError, Global};

/// The text of users, a number and an account on each line.
///
/// # Errors
///
/// Where a growth was refused.
pub fn users_text(alloc: Global, users: &[User]) -> Result<Vec<u8>, AllocError>
    ensures { IfOk result (λ text. text.items ≡ users_text users.now) }
{
    let mut text = Vec::new(alloc);
    for user in users {
        put_user(user, &mut text)?;
    }
    Ok(text)
}

fn put_user(user: &User, text: &mut Vec<u8>) -> Result<(), AllocError>
    ensures { OnOk result (text.new.items ≡ text.old.items ++ (user_line user.now ++ codes "\n")) }
{
    put_number(u64::from(user.uid), text)?;
    text.push(b' ')?;
    text.extend_from_slice(user.account.as_bytes())?;
    text.push(b'\n')?;
    Ok(())
}
