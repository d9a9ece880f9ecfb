//! A commit as its text: the number of its fields, and each field behind its length.
ghost use Rattle.std.specs.Prelude.{◌≡◌, ◌++◌, map, option_map, IfOk, OnOk};
ghost use Rattle.ledger_text.specs.Text.{field_text, commit_text, commit_of, whole, read_fields, read_bytes, read_number, field_at};

use mon_text::put_number;
use std::alloc::{AllocError, Global};

// A number that is as large already has no digit more.
const LARGE: u64 = 1 << 60;

/// The text of a commit of these fields.
///
/// # Errors
///
/// Where a growth was refused.
pub fn commit_text(alloc: Global, fields: &[&[u8]]) -> Result<Vec<u8>, AllocError>
    ensures { IfOk result (λ text. text.items ≡ commit_text (map (λ field. field.now) fields.now)) }
{
    let mut text = Vec::new(alloc);
    put_number(fields.len() as u64, &mut text)?;
    text.push(b'\n')?;
    for field in fields {
        put_field(field, &mut text)?;
    }
    Ok(text)
}

fn put_field(field: &[u8], out: &mut Vec<u8>) -> Result<(), AllocError>
    ensures { OnOk result (out.new.items ≡ out.old.items ++ field_text field.now) }
{
    put_number(field.len() as u64, out)?;
    out.push(b'\n')?;
    out.extend_from_slice(field)?;
    out.push(b'\n')?;
    Ok(())
}

/// The fields of a commit; none where the text is none of a commit.
///
/// # Errors
///
/// Where a growth was refused.
pub fn read_commit(alloc: Global, text: &[u8]) -> Result<Option<Vec<&[u8]>>, AllocError>
    ensures { IfOk result (λ fields. option_map (λ read. map (λ field. field.now) read.items) fields ≡ commit_of text.now) }
{
    match read_number(text) {
        Some((count, rest)) => read_fields(alloc, count, rest),
        None => Ok(None),
    }
}

// So many fields, behind which nothing stands.
fn read_fields(alloc: Global, count: u64, text: &[u8]) -> Result<Option<Vec<&[u8]>>, AllocError>
    ensures { IfOk result (λ fields. option_map (λ read. map (λ field. field.now) read.items) fields ≡ whole (read_fields count text.now)) }
{
    let mut fields = Vec::new(alloc);
    let mut rest = text;
    for _ in 0..count {
        match read_field(rest) {
            Some((field, behind)) => {
                fields.push(field)?;
                rest = behind;
            }
            None => return Ok(None),
        }
    }
    if rest.is_empty() {
        Ok(Some(fields))
    } else {
        Ok(None)
    }
}

// A field, and what is behind it.
fn read_field(text: &[u8]) -> Option<(&[u8], &[u8])>
    ensures { option_map (λ read. (read.0.now, read.1.now)) result ≡ field_at (read_number 0 text.now) }
{
    match read_number(text) {
        Some((length, rest)) => read_bytes(length, rest),
        None => None,
    }
}

// So many bytes and a line end, and what is behind these.
#[tactic(auto, using(crate::proofs::Taking::bytes_short, crate::proofs::Taking::bytes_other, crate::proofs::Taking::bytes_found))]
fn read_bytes(length: u64, text: &[u8]) -> Option<(&[u8], &[u8])>
    ensures { option_map (λ read. (read.0.now, read.1.now)) result ≡ read_bytes length text.now }
{
    if length >= text.len() as u64 {
        return None;
    }
    let length = length as usize;
    if text[length] != b'\n' {
        return None;
    }
    Some((&text[..length], &text[length + 1..]))
}

// A number to the end of its line, and what is behind it.
fn read_number(text: &[u8]) -> Option<(u64, &[u8])>
    ensures { option_map (λ read. (read.0, read.1.now)) result ≡ read_number 0 text.now }
{
    let mut number = 0;
    for index in 0..text.len() {
        let byte = text[index];
        if byte == b'\n' {
            return Some((number, &text[index + 1..]));
        }
        if !byte.is_ascii_digit() || number >= LARGE {
            return None;
        }
        number = 10 * number + u64::from(byte - b'0');
    }
    None
}
