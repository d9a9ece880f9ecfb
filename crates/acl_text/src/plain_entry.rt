//! Entries that are spelled as they are printed: most are, and each of their characters is looked at once.
ghost use Rattle.std.specs.Prelude.{◌≡◌, ◌<◌, ◌∷◌, ◌++◌, [], false, None, IsTrue, IfSome, MatchOption, option_copied};
ghost use Rattle.std.specs.List.{list_any};
ghost use Rattle.std.specs.Option.{unwrap_or};
ghost use Rattle.mon_acl.specs.Entries.{is_qualified, IsEntry, tag_word};
ghost use Rattle.acl_text.specs.Texts.{is_hash};
ghost use Rattle.acl_text.specs.Printing.{perms_text, entry_text};
ghost use Rattle.acl_text.specs.inner.Building.{pieces_left, left, separated, IsNext};

use crate::entry::{entry_of, is_place, named_type};
use crate::fields::cut;
use crate::pieces::{Form, next_filled_line};
use mon_acl::{AclError, Entry, Perms, Tag};
use mon_text::{Name, leading_name};

/// The type without a name that a text begins with the word of, and what stands behind its colon.
#[inline(always)]
fn leading_word(text: &[u8]) -> Option<(Tag, &[u8])>
    ensures word { IfSome result (λ p. text.now ≡ tag_word p.0 ++ 58 ∷ p.1.now) }
    ensures plain { IfSome result (λ p. IsTrue (is_qualified p.0 None)) }
{
    match text {
        [b'u', b's', b'e', b'r', b':', rest @ ..] => Some((Tag::UserObj, rest)),
        [b'g', b'r', b'o', b'u', b'p', b':', rest @ ..] => Some((Tag::GroupObj, rest)),
        [b'm', b'a', b's', b'k', b':', rest @ ..] => Some((Tag::Mask, rest)),
        [b'o', b't', b'h', b'e', b'r', b':', rest @ ..] => Some((Tag::Other, rest)),
        _ => None,
    }
}

/// The type and the name of an entry that begins with the word of a type, and what stands behind the name.
#[inline(always)]
fn leading_qualifier(plain: Tag, text: &[u8]) -> Option<(Tag, Option<Name>, &[u8])>
    requires { IsTrue (is_qualified plain None) }
    ensures valid { IfSome result (λ p. IsTrue (is_qualified p.0 p.1)) }
    ensures word { IfSome result (λ p. tag_word p.0 ≡ tag_word plain) }
    ensures name { IfSome result (λ p. text.now ≡ unwrap_or p.1 [] ++ p.2.now) }
{
    if let [b':', ..] = text {
        return Some((plain, None, text));
    }
    let tag = named_type(plain)?;
    let (name, rest) = leading_name(text)?;
    Some((tag, Some(name), rest))
}

/// The permissions that stand behind a colon, each in its place, and what stands behind them.
#[inline(always)]
fn leading_perms(text: &[u8]) -> Option<(Perms, &[u8])>
    ensures { IfSome result (λ p. text.now ≡ 58 ∷ perms_text p.0 ++ p.1.now) }
{
    match text {
        [b':', read, write, execute, rest @ ..]
            if is_place(*read, b'r') && is_place(*write, b'w') && is_place(*execute, b'x') => {
            let perms = Perms::new(*read == b'r', *write == b'w', *execute == b'x');
            Some((perms, rest))
        }
        _ => None,
    }
}

/// What is left behind a separator, where a text begins with one; nothing where it is empty.
#[inline(always)]
fn behind(separator: u8, text: &[u8]) -> Option<Option<&[u8]>>
    ensures { IfSome result (λ rest. text.now ≡ separated separator (option_copied rest)) }
{
    match text {
        [] => Some(None),
        [first, rest @ ..] if *first == separator => Some(Some(rest)),
        _ => None,
    }
}

/// The entry that a text begins with, where it is spelled as it is printed, and what is left behind it.
#[inline(always)]
fn plain_entry(separator: u8, text: &[u8]) -> Option<(Entry, Option<&[u8]>)>
    ensures entry { IfSome result (λ p. IsEntry p.0) }
    ensures text { IfSome result (λ p. text.now ≡ entry_text p.0 ++ separated separator (option_copied p.1)) }
{
    let (word, rest) = leading_word(text)?;
    let Some((tag, name, rest)) = leading_qualifier(word, rest) else {
        return None;
    };
    let Some((perms, rest)) = leading_perms(rest) else {
        return None;
    };
    let rest = behind(separator, rest)?;
    Some((Entry { tag, name, perms }, rest))
}

/// The entry of the next piece, the `n`-th, or why it has none, and what is left behind it; nothing where no piece is left.
#[inline(always)]
pub(crate) fn next_entry(
    form: Form,
    commented: bool,
    n: u64,
    rest: Option<&[u8]>,
) -> Option<(Result<Entry, AclError>, Option<&[u8]>)>
    requires { commented ≡ false → IfSome (option_copied rest) (λ text. list_any is_hash text ≡ false) }
    ensures next { MatchOption result (pieces_left form (option_copied rest.entry) ≡ []) (λ p. IsNext form n (option_copied rest.entry) (option_copied p.1) p.0) }
    ensures shorter { IfSome result (λ p. left (option_copied p.1) < left (option_copied rest.entry)) }
    ensures clean { commented ≡ false → IfSome result (λ p. IfSome (option_copied p.1) (λ text. list_any is_hash text ≡ false)) }
{
    match plain_entry(form.separator(), rest?) {
        Some((entry, after)) => Some((Ok(entry), after)),
        None => next_piece(form, commented, n, rest),
    }
}

/// The same, however it is spelled. It stays a call, since most entries are spelled plainly.
#[inline(never)]
fn next_piece(
    form: Form,
    commented: bool,
    n: u64,
    rest: Option<&[u8]>,
) -> Option<(Result<Entry, AclError>, Option<&[u8]>)>
    requires { commented ≡ false → IfSome (option_copied rest) (λ text. list_any is_hash text ≡ false) }
    ensures next { MatchOption result (pieces_left form (option_copied rest.entry) ≡ []) (λ p. IsNext form n (option_copied rest.entry) (option_copied p.1) p.0) }
    ensures shorter { IfSome result (λ p. left (option_copied p.1) < left (option_copied rest.entry)) }
    ensures clean { commented ≡ false → IfSome result (λ p. IfSome (option_copied p.1) (λ text. list_any is_hash text ≡ false)) }
{
    let (piece, after) = match form {
        Form::Short => cut(rest?, b','),
        Form::Long => next_filled_line(commented, rest)?,
    };
    Some((entry_of(n, piece), after))
}
