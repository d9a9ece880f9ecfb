//! Under which name a claimed file stands: it says whose the file is and what it was called, so that a run that finds it there knows.
ghost use Rattle.std.specs.Prelude.{◌≡◌, ◌<◌, length, option_map, IfOk, IfSome};
ghost use Rattle.ledger_names.specs.Naming.{claimed_name, colon, split, claim_of, claim_in, seen_claim};

use mon_text::{put_number, read_count};
use std::alloc::{AllocError, Global};

/// What the name of a claimed file says.
#[derive(Clone, Copy)]
pub struct Claim<'a> {
    /// Its number.
    pub number: u64,
    /// The account in whose box it was.
    pub account: &'a [u8],
    /// Its name there.
    pub name: &'a [u8],
}

/// The name under which a claimed file stands: its number, the account, and its name there, with colons between.
///
/// # Errors
///
/// Where a growth was refused.
pub fn claimed_name(alloc: Global, claim: Claim<'_>) -> Result<Vec<u8>, AllocError>
    ensures { IfOk result (λ text. text.items ≡ claimed_name claim.entry.number claim.entry.account.now claim.entry.name.now) }
{
    let mut text = Vec::new(alloc);
    put_number(claim.number, &mut text)?;
    text.push(b':')?;
    text.extend_from_slice(claim.account)?;
    text.push(b':')?;
    text.extend_from_slice(claim.name)?;
    Ok(text)
}

/// What a name says, if it is one under which a claimed file may stand.
pub fn read_claimed_name(text: &[u8]) -> Option<Claim<'_>>
    ensures { option_map seen_claim result ≡ claim_of text.now }
{
    let (digits, rest) = split(text)?;
    let (account, name) = split(rest)?;
    claim_in(digits, account, name)
}

fn claim_in<'a>(digits: &[u8], account: &'a [u8], name: &'a [u8]) -> Option<Claim<'a>>
    ensures { option_map seen_claim result ≡ claim_in digits.now account.now name.now }
{
    match read_count(digits) {
        Ok(number) => Some(Claim {
            number,
            account,
            name,
        }),
        Err(_) => None,
    }
}

// What stands before the first colon, and what behind it.
fn split(text: &[u8]) -> Option<(&[u8], &[u8])>
    ensures { option_map (λ parts. (parts.0.now, parts.1.now)) result ≡ split text.now }
{
    match colon(text) {
        Some(index) => Some((&text[..index], &text[index + 1..])),
        None => None,
    }
}

fn colon(text: &[u8]) -> Option<usize>
    ensures place { result ≡ colon 0 text.now }
    ensures within { IfSome result (λ index. index < length text.now) }
{
    for index in 0..text.len() {
        if text[index] == b':' {
            return Some(index);
        }
    }
    None
}
