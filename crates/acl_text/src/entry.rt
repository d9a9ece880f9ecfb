//! Reading one entry of a text.
ghost use Rattle.std.specs.Prelude.{◌≡◌, ◌==◌, ◌||◌, map, option_map, option_copied};
ghost use Rattle.std.specs.List.{list_all};
ghost use Rattle.acl_text.specs.Texts.{is_permission, times, trimmed, is_colon};
ghost use Rattle.acl_text.specs.inner.Building.{parts_behind};
ghost use Rattle.acl_text.specs.Refusals.{type_of, named_type, qualified, parts_of, is_perms, perms_of, entry_of};

use crate::fields::{cut, trimmed};
use mon_acl::{AclError, Entry, Perms, Tag};
use mon_text::{Name, read_name};

/// The type of an entry that begins with this word and has no qualifier.
fn type_of(word: &[u8]) -> Option<Tag>
    ensures { result ≡ type_of word.now }
{
    match word {
        b"user" | b"u" => Some(Tag::UserObj),
        b"group" | b"g" => Some(Tag::GroupObj),
        b"mask" | b"m" => Some(Tag::Mask),
        b"other" | b"o" => Some(Tag::Other),
        _ => None,
    }
}

/// The type of an entry of the same word that has a qualifier.
pub(crate) fn named_type(tag: Tag) -> Option<Tag>
    ensures { result ≡ named_type tag }
{
    match tag {
        Tag::UserObj => Some(Tag::User),
        Tag::GroupObj => Some(Tag::Group),
        _ => None,
    }
}

/// The type of an entry and its name, by the qualifier.
fn qualified(tag: Tag, qualifier: &[u8]) -> Option<(Tag, Option<Name>)>
    ensures { option_map (λ p. (p.0, p.1)) result ≡ qualified tag qualifier.now }
{
    if qualifier.is_empty() {
        return Some((tag, None));
    }
    let name = read_name(qualifier).ok()?;
    Some((named_type(tag)?, Some(name)))
}

/// The qualifier and the permissions, of the fields behind the first.
fn parts_of(tag: Tag, fields: Option<&[u8]>) -> Option<(&[u8], &[u8])>
    ensures { option_map (λ p. (p.0.now, p.1.now)) result ≡ parts_of tag (map trimmed (parts_behind is_colon (option_copied fields.entry))) }
{
    let (second, rest) = cut(fields?, b':');
    match rest {
        Some(rest) => {
            let (third, rest) = cut(rest, b':');
            match rest {
                Some(_) => None,
                None => Some((trimmed(second), trimmed(third))),
            }
        }
        None => match tag {
            Tag::Mask | Tag::Other => Some((&[], trimmed(second))),
            _ => None,
        },
    }
}

/// How often a letter stands in a field.
fn times(letter: u8, field: &[u8]) -> usize
    ensures { result ≡ times letter field.now }
{
    field.iter().filter(|byte| **byte == letter).count()
}

fn is_permission(byte: u8) -> bool
    ensures { result ≡ is_permission byte }
{
    matches!(byte, b'r' | b'w' | b'x' | b'-')
}

fn are_permissions(field: &[u8]) -> bool
    ensures { result ≡ list_all is_permission field.now }
{
    field.iter().all(|byte| is_permission(*byte))
}

/// Whether a field spells permissions: each at most once.
fn is_perms(field: &[u8]) -> bool
    ensures { result ≡ is_perms field.now }
{
    are_permissions(field)
        && times(b'r', field) <= 1
        && times(b'w', field) <= 1
        && times(b'x', field) <= 1
}

/// The permissions that a field spells.
fn perms_of(field: &[u8]) -> Option<Perms>
    ensures { result ≡ perms_of field.now }
{
    match field {
        [read, write, execute]
            if is_place(*read, b'r') && is_place(*write, b'w') && is_place(*execute, b'x') => {
            Some(Perms::new(*read == b'r', *write == b'w', *execute == b'x'))
        }
        _ => perms_in_any_order(field),
    }
}

/// Whether a byte is the letter of a permission, or `-`.
pub(crate) fn is_place(byte: u8, letter: u8) -> bool
    ensures { result ≡ (byte == letter || byte == 45) }
{
    byte == letter || byte == b'-'
}

/// The same, also where they do not stand in their places. It stays a call, since most do.
#[inline(never)]
fn perms_in_any_order(field: &[u8]) -> Option<Perms>
    ensures { result ≡ perms_of field.now }
{
    if is_perms(field) {
        Some(Perms::new(
            times(b'r', field) == 1,
            times(b'w', field) == 1,
            times(b'x', field) == 1,
        ))
    } else {
        None
    }
}

/// The entry of the `n`-th piece of a text.
pub(crate) fn entry_of(n: u64, piece: &[u8]) -> Result<Entry, AclError>
    ensures { result ≡ entry_of n piece.now }
{
    let (word, rest) = cut(piece, b':');
    let plain = type_of(trimmed(word)).ok_or(AclError::BadTag(n))?;
    let (qualifier, perms) = parts_of(plain, rest).ok_or(AclError::BadPerms(n))?;
    let (tag, name) = qualified(plain, qualifier).ok_or(AclError::BadQualifier(n))?;
    let perms = perms_of(perms).ok_or(AclError::BadPerms(n))?;
    Ok(Entry { tag, name, perms })
}
