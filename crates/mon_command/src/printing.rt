//! The words and lines of printouts.
ghost use Rattle.std.specs.Prelude.{◌≡◌, ◌++◌, ◌+◌, ◌≤◌, OnOk, OnErr, length, take, vec_len, vec_capacity};
ghost use Rattle.std.specs.List.{flat_map};
ghost use Rattle.acl_text.specs.Printing.{long_line};
ghost use Rattle.mon_command.specs.Commands.{card_line, heading};
ghost use Rattle.mon_command.specs.Commanded.{Records as Listed, printed};
ghost use Rattle.deck_lines.specs.declared.command.Command.TheVariants as command;
ghost use Rattle.mon_command.specs.Printouts.{word, stored_line, count_line, records_text, name_line, acl_text};

use crate::room::{MOST_ON_LINE, place_name, place_number, put_first};
use deck_lines::Command;
use itoa::Buffer;
use mon_acl::{Entry, Perms, copy_of_mask};
use mon_catalogue::Records;
use mon_guard::{AclView, NameView};
use mon_text::Name;
use std::alloc::AllocError;

// Appends a word behind another.
pub(crate) fn put_word(text: &[u8], out: &mut Vec<u8>) -> Result<(), AllocError>
    ensures appended { OnOk result (out.new.items ≡ out.old.items ++ word text.now) }
    ensures unchanged { OnErr result (out.new.items ≡ out.old.items) }
{
    out.reserve(text.len() + 1)?;
    put_word_in_room(text, out);
    Ok(())
}

// Appends a word behind another, for which there is room.
#[inline(always)]
fn put_word_in_room(text: &[u8], out: &mut Vec<u8>)
    requires { vec_len out.old + (length text.now + 1) ≤ vec_capacity out.old }
    ensures value { out.new.items ≡ out.old.items ++ word text.now }
    ensures len { vec_len out.new ≡ vec_len out.old + (length text.now + 1) }
    ensures room { vec_capacity out.old ≤ vec_capacity out.new }
{
    out.push_reserved(b' ');
    out.extend_from_slice(text).unwrap();
}

// Appends a line that shows stored text.
#[inline(always)]
fn put_stored(text: &[u8], out: &mut Vec<u8>) -> Result<(), AllocError>
    ensures appended { OnOk result (out.new.items ≡ out.old.items ++ stored_line text.now) }
    ensures unchanged { OnErr result (out.new.items ≡ out.old.items) }
{
    out.reserve(text.len() + 2)?;
    put_word_in_room(text, out);
    out.push_reserved(b'\n');
    Ok(())
}

// Appends how many there were.
#[inline(always)]
pub(crate) fn put_count(what: &[u8], value: u64, out: &mut Vec<u8>) -> Result<(), AllocError>
    ensures appended { OnOk result (out.new.items ≡ out.old.items ++ count_line what.now value) }
    ensures unchanged { OnErr result (out.new.items ≡ out.old.items) }
{
    let mut digits = Buffer::new();
    let number = digits.format(value).as_bytes();
    out.reserve(what.len() + number.len() + 2)?;
    out.extend_from_slice(what).unwrap();
    put_word_in_room(number, out);
    out.push_reserved(b'\n');
    Ok(())
}

// Appends records, and how many they are.
#[inline(always)]
fn put_records(records: &Records, out: &mut Vec<u8>) -> Result<(), AllocError>
    ensures appended { OnOk result (out.new.items ≡ out.old.items ++ records_text records.now) }
    ensures begun { OnErr result (take (length out.old.items) out.new.items ≡ out.old.items) }
{
    for index in 0..records.len() {
        put_stored(records.at(index), out)?;
    }
    put_count(b"RECORDS", records.len(), out)
}

/// Appends the printout of a command that lists these records, or nothing.
///
/// # Errors
///
/// Where a growth was refused; nothing was appended then.
pub fn put_listing(
    account: &Name,
    name: &Name,
    records: &Records,
    out: &mut Vec<u8>,
) -> Result<(), AllocError>
    ensures printed { OnOk result (out.new.items ≡ out.old.items ++ printed (command.List account.now name.now) (Listed records.now)) }
    ensures nothing { OnErr result (out.new.items ≡ out.old.items) }
{
    let before = out.len();
    put_card(b"LIST", account, name, out)?;
    match put_records(records, out) {
        Ok(()) => Ok(()),
        Err(error) => {
            out.truncate(before);
            Err(error)
        }
    }
}

// Appends a data set's owner, its group and its permission list, and how many entries that has.
pub(crate) fn put_acl(shown: &AclView, out: &mut Vec<u8>) -> Result<(), AllocError>
    ensures { OnOk result (out.new.items ≡ out.old.items ++ acl_text shown.now) }
{
    out.extend_from_slice(b"OWNER")?;
    put_word(shown.owner.as_bytes(), out)?;
    out.extend_from_slice(b" GROUP")?;
    put_word(shown.group.as_bytes(), out)?;
    out.push(b'\n')?;
    put_entries(shown.acl.entries(), shown.acl.mask(), out)?;
    put_count(b"ENTRIES", shown.acl.len() as u64, out)
}

// Appends the lines of entries under a mask.
fn put_entries(entries: &[Entry], mask: Option<Perms>, out: &mut Vec<u8>) -> Result<(), AllocError>
    ensures { OnOk result (out.new.items ≡ out.old.items ++ flat_map (λ entry. word (long_line mask entry)) entries.now) }
{
    for entry in entries {
        put_acl_line(entry, copy_of_mask(&mask), out)?;
    }
    Ok(())
}

// Appends the line of an entry under a mask.
fn put_acl_line(entry: &Entry, mask: Option<Perms>, out: &mut Vec<u8>) -> Result<(), AllocError>
    ensures { OnOk result (out.new.items ≡ out.old.items ++ word (long_line mask entry.now)) }
{
    out.push(b' ')?;
    acl_text::put_line(entry, mask, out)
}

// Appends a data set's name, its owner, its group and the number of its records. The line is put together in a room first, where
// there is always room for it.
#[inline(never)]
pub(crate) fn put_name(shown: &NameView, out: &mut Vec<u8>) -> Result<(), AllocError>
    ensures { OnOk result (out.new.items ≡ out.old.items ++ name_line shown.now) }
{
    let mut room = [0; MOST_ON_LINE];
    let end = place_name(&mut room, 0, shown.name);
    let end = place_name(&mut room, end, shown.owner);
    let end = place_name(&mut room, end, shown.group);
    let end = place_number(&mut room, end, shown.records);
    room[end] = b'\n';
    put_first(&room, end + 1, out)
}

// Appends a command's own line.
pub(crate) fn put_heading(command: &Command, out: &mut Vec<u8>) -> Result<(), AllocError>
    ensures { OnOk result (out.new.items ≡ out.old.items ++ heading command.now) }
{
    match command {
        Command::Create { account, name, .. } => put_card(b"CREATE", account, name, out),
        Command::Delete { account, name } => put_card(b"DELETE", account, name, out),
        Command::SetAcl { account, name, .. } => put_card(b"SETACL", account, name, out),
        Command::ShowAcl { account, name } => put_card(b"SHOWACL", account, name, out),
        Command::List { account, name } => put_card(b"LIST", account, name, out),
        Command::Catalog { account } => {
            out.extend_from_slice(b"CATALOG")?;
            put_word(account.as_bytes(), out)?;
            out.push(b'\n')?;
            Ok(())
        }
    }
}

// Appends a command's own line: the card's word, an account and a data set.
#[inline(always)]
pub(crate) fn put_card(
    card: &[u8],
    account: &Name,
    name: &Name,
    out: &mut Vec<u8>,
) -> Result<(), AllocError>
    ensures appended { OnOk result (out.new.items ≡ out.old.items ++ card_line card.now account.now name.now) }
    ensures unchanged { OnErr result (out.new.items ≡ out.old.items) }
{
    let (account, name) = (account.as_bytes(), name.as_bytes());
    out.reserve(card.len() + account.len() + name.len() + 3)?;
    out.extend_from_slice(card).unwrap();
    put_word_in_room(account, out);
    put_word_in_room(name, out);
    out.push_reserved(b'\n');
    Ok(())
}
