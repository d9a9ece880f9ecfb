//! What is told of one account on one data set: what is granted, and of what is not, the entry that denies it.
ghost use Rattle.std.specs.Prelude.{◌≡◌, [], ◌++◌, OnOk};
ghost use Rattle.std.specs.Option.{option_copied, option_map_or};
ghost use Rattle.acl_text.specs.Printing.{entry_head};
ghost use Rattle.access_report.specs.Access.{place, decider_text, denial, answer_line, csv_answer, csv_line, csv_lines};

use mon_access::{CompiledAcl, Decider, Decision};
use mon_acl::{Acl, Entry};
use mon_text::Name;
use std::alloc::AllocError;

// The letter of a permission that is granted, or `-`.
fn place_of(letter: u8, decision: Decision) -> u8
    ensures { result ≡ place letter decision }
{
    match decision {
        Decision::Granted => letter,
        Decision::Denied(_) => b'-',
    }
}

// Appends an entry without its permissions, where there is one.
fn put_head(entry: Option<&Entry>, out: &mut Vec<u8>) -> Result<(), AllocError>
    ensures { OnOk result (out.new.items ≡ out.old.items ++ option_map_or entry_head (option_copied entry.entry) []) }
{
    match entry {
        Some(entry) => acl_text::put_head(entry, out),
        None => Ok(()),
    }
}

// Appends the entry that decided.
fn put_decider(acl: &Acl, decider: Decider, out: &mut Vec<u8>) -> Result<(), AllocError>
    ensures { OnOk result (out.new.items ≡ out.old.items ++ decider_text acl.now decider) }
{
    match decider {
        Decider::UserObj => out.extend_from_slice(b"user::"),
        Decider::User(index) | Decider::Group(index) => put_head(acl.entry(index), out),
        Decider::Mask => out.extend_from_slice(b"mask::"),
        Decider::Other => out.extend_from_slice(b"other::"),
    }
}

// Appends a permission that is denied, and the entry that denies it; nothing for one that is granted.
fn put_denial(
    letter: u8,
    acl: &Acl,
    decision: Decision,
    out: &mut Vec<u8>,
) -> Result<(), AllocError>
    ensures { OnOk result (out.new.items ≡ out.old.items ++ denial letter acl.now decision) }
{
    match decision {
        Decision::Granted => Ok(()),
        Decision::Denied(decider) => {
            out.extend_from_slice(&[b' ', letter, b' ', b'B', b'Y', b' '])?;
            put_decider(acl, decider, out)
        }
    }
}

// Appends the line of an account: what it may do, and what denies the rest.
pub(crate) fn put_line(
    account: &Name,
    acl: &Acl,
    ready: &CompiledAcl,
    out: &mut Vec<u8>,
) -> Result<(), AllocError>
    ensures { OnOk result (out.new.items ≡ out.old.items ++ answer_line account.now acl.now ready.now) }
{
    out.push(b' ')?;
    out.extend_from_slice(account.as_bytes())?;
    let places = [
        b' ',
        place_of(b'r', ready.read),
        place_of(b'w', ready.write),
        place_of(b'x', ready.execute),
    ];
    out.extend_from_slice(&places)?;
    put_denial(b'r', acl, ready.read, out)?;
    put_denial(b'w', acl, ready.write, out)?;
    put_denial(b'x', acl, ready.execute, out)?;
    out.push(b'\n')?;
    Ok(())
}

// Appends whether a permission is granted, and if it is not, what denies it.
fn put_csv_answer(acl: &Acl, decision: Decision, out: &mut Vec<u8>) -> Result<(), AllocError>
    ensures { OnOk result (out.new.items ≡ out.old.items ++ csv_answer acl.now decision) }
{
    match decision {
        Decision::Granted => out.extend_from_slice(b"granted,"),
        Decision::Denied(decider) => {
            out.extend_from_slice(b"denied,")?;
            put_decider(acl, decider, out)
        }
    }
}

// Appends the line of an account, a data set and a permission.
fn put_csv_line(
    set: &Name,
    account: &Name,
    letter: u8,
    acl: &Acl,
    decision: Decision,
    out: &mut Vec<u8>,
) -> Result<(), AllocError>
    ensures { OnOk result (out.new.items ≡ out.old.items ++ csv_line set.now account.now letter acl.now decision) }
{
    out.extend_from_slice(account.as_bytes())?;
    out.push(b',')?;
    out.extend_from_slice(set.as_bytes())?;
    out.extend_from_slice(&[b',', letter, b','])?;
    put_csv_answer(acl, decision, out)?;
    out.push(b'\n')?;
    Ok(())
}

// Appends the lines of an account and a data set, one a permission.
pub(crate) fn put_csv_lines(
    set: &Name,
    account: &Name,
    acl: &Acl,
    ready: &CompiledAcl,
    out: &mut Vec<u8>,
) -> Result<(), AllocError>
    ensures { OnOk result (out.new.items ≡ out.old.items ++ csv_lines set.now account.now acl.now ready.now) }
{
    put_csv_line(set, account, b'r', acl, ready.read, out)?;
    put_csv_line(set, account, b'w', acl, ready.write, out)?;
    put_csv_line(set, account, b'x', acl, ready.execute, out)
}
