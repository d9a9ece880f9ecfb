//! The two text forms, put to a sink from where the entries stand. It takes no memory.
ghost use Rattle.std.specs.Prelude.{◌≡◌, ◌++◌, flat_map, OnOk};
ghost use Rattle.mon_device.specs.Putting.{Puts};
ghost use Rattle.acl_text.specs.Printing.{letter, perms_text, entry_head, entry_text, effective, effective_text, next_text, short_form, long_line, long_form};

use mon_acl::{Acl, Entry, Perms, Tag, copy_of_mask};
use mon_device::{Sink, TextSink};
use std::alloc::AllocError;

/// Appends the short text form, in canonical order, with full words and three places for permissions.
///
/// # Errors
///
/// Where a growth was refused; `out` may then hold a part of the text.
pub fn put_short(acl: &Acl, out: &mut Vec<u8>) -> Result<(), AllocError>
    ensures { OnOk result (out.new.items ≡ out.old.items ++ short_form acl.now) }
{
    let mut sink = TextSink::new(out);
    print_short(acl, &mut sink);
    sink.settle()
}

/// Puts the short text form.
pub fn print_short<S: Sink>(acl: &Acl, sink: &mut S)
    ensures { Puts (S.standing sink.old) (S.standing sink.new) (short_form acl.now) }
{
    match acl.entries() {
        [] => {}
        [first, others @ ..] => {
            print_entry(first, sink);
            print_others(others, sink);
        }
    }
}

/// Appends the long text form: a line an entry, in canonical order, each ended by LF. An entry of a named user, the
/// owning group or a named group from which the mask takes permissions away is followed by a tab, `#effective:` and
/// what the mask leaves.
///
/// # Errors
///
/// Where a growth was refused; `out` may then hold a part of the text.
pub fn put_long(acl: &Acl, out: &mut Vec<u8>) -> Result<(), AllocError>
    ensures { OnOk result (out.new.items ≡ out.old.items ++ long_form acl.now) }
{
    let mut sink = TextSink::new(out);
    print_long(acl, &mut sink);
    sink.settle()
}

/// Puts the long text form.
pub fn print_long<S: Sink>(acl: &Acl, sink: &mut S)
    ensures { Puts (S.standing sink.old) (S.standing sink.new) (long_form acl.now) }
{
    let mask = acl.mask();
    for entry in acl.entries() {
        print_line(entry, copy_of_mask(&mask), sink);
    }
}

/// Appends an entry without its permissions, as `user:lisa:`.
///
/// # Errors
///
/// Where a growth was refused; `out` may then hold a part of the text.
pub fn put_head(entry: &Entry, out: &mut Vec<u8>) -> Result<(), AllocError>
    ensures { OnOk result (out.new.items ≡ out.old.items ++ entry_head entry.now) }
{
    let mut sink = TextSink::new(out);
    print_head(entry, &mut sink);
    sink.settle()
}

/// Puts an entry without its permissions, as `user:lisa:`.
pub fn print_head<S: Sink>(entry: &Entry, sink: &mut S)
    ensures { Puts (S.standing sink.old) (S.standing sink.new) (entry_head entry.now) }
{
    sink.put(entry.tag.word());
    sink.put(b":");
    sink.put(entry.qualifier());
    sink.put(b":");
}

/// Appends the line of an entry under a mask, as `user:lisa:rw-`, with a tab and `#effective:r--` behind it
/// where the mask takes a permission away. The line is ended by LF.
///
/// # Errors
///
/// Where a growth was refused; `out` may then hold a part of the line.
pub fn put_line(entry: &Entry, mask: Option<Perms>, out: &mut Vec<u8>) -> Result<(), AllocError>
    ensures { OnOk result (out.new.items ≡ out.old.items ++ long_line mask entry.now) }
{
    let mut sink = TextSink::new(out);
    print_line(entry, mask, &mut sink);
    sink.settle()
}

/// Puts the line of an entry under a mask.
pub fn print_line<S: Sink>(entry: &Entry, mask: Option<Perms>, sink: &mut S)
    ensures { Puts (S.standing sink.old) (S.standing sink.new) (long_line mask entry.now) }
{
    print_entry(entry, sink);
    print_effective(effective(entry, mask), sink);
    sink.put(b"\n");
}

// Puts an entry, as `user:lisa:rw-`.
fn print_entry<S: Sink>(entry: &Entry, sink: &mut S)
    ensures { Puts (S.standing sink.old) (S.standing sink.new) (entry_text entry.now) }
{
    print_head(entry, sink);
    print_perms(entry.perms, sink);
}

// Puts the three places `rwx`, with `-` for what is not held.
fn print_perms<S: Sink>(perms: Perms, sink: &mut S)
    ensures { Puts (S.standing sink.old) (S.standing sink.new) (perms_text perms) }
{
    let places = [
        place_of(perms.read(), b'r'),
        place_of(perms.write(), b'w'),
        place_of(perms.execute(), b'x'),
    ];
    sink.put(&places);
}

// The letter of a permission, or `-`.
fn place_of(held: bool, sign: u8) -> u8
    ensures { result ≡ letter held sign }
{
    if held { sign } else { b'-' }
}

// What a mask leaves of an entry's permissions, where it takes any away.
fn effective(entry: &Entry, mask: Option<Perms>) -> Option<Perms>
    ensures { result ≡ effective mask entry.now }
{
    let mask = mask?;
    let is_masked = matches!(entry.tag, Tag::User | Tag::GroupObj | Tag::Group);
    if is_masked && !mask.contains(entry.perms) {
        Some(entry.perms.common(mask))
    } else {
        None
    }
}

// Puts the comment that tells what the mask leaves, where it takes any away.
fn print_effective<S: Sink>(effective: Option<Perms>, sink: &mut S)
    ensures { Puts (S.standing sink.old) (S.standing sink.new) (effective_text effective) }
{
    match effective {
        Some(perms) => {
            sink.put(b"\t#effective:");
            print_perms(perms, sink);
        }
        None => {}
    }
}

// Puts entries, a comma before each.
fn print_others<S: Sink>(others: &[Entry], sink: &mut S)
    ensures { Puts (S.standing sink.old) (S.standing sink.new) (flat_map next_text others.now) }
{
    for other in others {
        sink.put(b",");
        print_entry(other, sink);
    }
}
