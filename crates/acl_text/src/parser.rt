//! Reading a permission list from either of its two text forms: entry by entry, and then what the whole list lacks.
ghost use Rattle.std.specs.Prelude.{◌≡◌, ◌≤◌, List, Some, Ok, IfOk, IsOk, IsErrOf};
ghost use Rattle.smallvec.specs.SmallVec.{small_vec_len};
ghost use Rattle.mon_text.specs.Stops.{Gives};
ghost use Rattle.mon_acl.specs.declared.entries.Entry.{Entry};
ghost use Rattle.mon_acl.specs.declared.refusals.AclError.{AclError};
ghost use Rattle.mon_acl.specs.Entries.{IsCanonical};
ghost use Rattle.acl_text.specs.Texts.{IsShortText, IsLongText, pieces, long_pieces};
ghost use Rattle.acl_text.specs.Refusals.{acl_refusal, long_refusal};
ghost use Rattle.acl_text.specs.Reading.{MayGrow, read_pieces, read_short, read_long};
ghost use Rattle.acl_text.specs.inner.Building.{pieces_in, entry_added, canonical_entries_of};

use crate::pieces::Form;
use crate::plain_entry::next_entry;
use crate::sorted_entries::{add, lacking};
use mon_acl::{Acl, AclError, ENTRIES_INLINE, Entry};
use mon_text::Stop;
use smallvec::SmallVec;
use std::alloc::Global;

/// Reads the short text form: entries with commas between them, in any order.
///
/// # Errors
///
/// The first refusal of the text: entry by entry, and then what the whole list lacks.
/// `Memory` where a growth was refused, but for a text that is refused within its first five entries or has four.
pub fn parse_short(alloc: Global, text: &[u8]) -> Result<Acl, Stop<AclError>>
    ensures spelled { IfOk result (λ acl. IsShortText text.now acl) }
    ensures only { (es : List Entry) → IsShortText text.now es → Gives (λ acl. acl) result (Ok es) }
    ensures refused { (refusal : AclError) → IsErrOf result (Stop.Refused refusal) → acl_refusal text.now ≡ Some refusal }
    ensures computed { Gives (λ acl. acl) result (read_short text.now) }
    ensures memory { IsErrOf result Stop.Memory → MayGrow (pieces text.now) }
{
    read_list(alloc, Form::Short, text)
}

/// Reads the long text form: an entry a line, in any order. A `#` begins a comment, which ends with its line.
/// Lines that are blank without their comment are skipped. The last line may end without LF.
///
/// # Errors
///
/// The first refusal of the text: entry by entry, and then what the whole list lacks. Lines without an entry are
/// not counted. `Memory` where a growth was refused.
pub fn parse_long(alloc: Global, text: &[u8]) -> Result<Acl, Stop<AclError>>
    ensures spelled { IfOk result (λ acl. IsLongText text.now acl) }
    ensures only { (es : List Entry) → IsLongText text.now es → Gives (λ acl. acl) result (Ok es) }
    ensures refused { (refusal : AclError) → IsErrOf result (Stop.Refused refusal) → long_refusal text.now ≡ Some refusal }
    ensures computed { Gives (λ acl. acl) result (read_long text.now) }
    ensures memory { IsErrOf result Stop.Memory → MayGrow (long_pieces text.now) }
{
    read_list(alloc, Form::Long, text)
}

/// The list that a text spells.
fn read_list(alloc: Global, form: Form, text: &[u8]) -> Result<Acl, Stop<AclError>>
    ensures read { Gives (λ acl. acl) result (read_pieces (pieces_in form text.now)) }
    ensures memory { IsErrOf result Stop.Memory → MayGrow (pieces_in form text.now) }
{
    let entries = read_entries(alloc, form, text)?;
    if let Some(refusal) = lacking(entries.as_slice()) {
        return Err(Stop::Refused(refusal));
    }
    match Acl::new(alloc, entries) {
        Ok(acl) => Ok(acl),
        Err(_) => Err(Stop::Memory),
    }
}

/// The entries of a text, in canonical order.
fn read_entries(
    alloc: Global,
    form: Form,
    text: &[u8],
) -> Result<SmallVec<Entry, ENTRIES_INLINE>, Stop<AclError>>
    ensures read { Gives (λ entries. entries.items) result (canonical_entries_of (pieces_in form text.now)) }
    ensures memory { IsErrOf result Stop.Memory → MayGrow (pieces_in form text.now) }
{
    let mut entries = SmallVec::new(alloc);
    let mut n = 1;
    let mut rest = Some(text);
    let commented = form.has_comments(text);
    while let Some((entry, after)) = next_entry(form, commented, n, rest) {
        put_entry(&mut entries, n, entry)?;
        n += 1;
        rest = after;
    }
    Ok(entries)
}

/// Puts the entry of the `n`-th piece among those before it.
fn put_entry(
    entries: &mut SmallVec<Entry, ENTRIES_INLINE>,
    n: u64,
    entry: Result<Entry, AclError>,
) -> Result<(), Stop<AclError>>
    requires { IsCanonical entries.old.items }
    ensures added { Gives (λ _. entries.new.items) result (entry_added n entry entries.old.items) }
    ensures memory { IsErrOf result Stop.Memory → IsOk (entry_added n entry entries.old.items) × (entries.old.capacity ≤ small_vec_len entries.old) }
    ensures capacity { entries.old.capacity ≤ entries.new.capacity }
{
    match entry {
        Ok(entry) => add(entries, entry, n),
        Err(refusal) => Err(Stop::Refused(refusal)),
    }
}
