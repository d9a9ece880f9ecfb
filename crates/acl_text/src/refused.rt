//! Why a permission list is refused, put to a sink.
ghost use Rattle.std.specs.Prelude.{◌++◌};
ghost use Rattle.mon_device.specs.Putting.{Puts};
ghost use Rattle.mon_device.specs.Words.{number};
ghost use Rattle.acl_text.specs.Refused.{list_refusal};

use mon_acl::{AclError, Tag};
use mon_device::{Sink, print_number};

// Puts a refusal that names an entry by its number.
fn print_at_entry<S: Sink>(what: &[u8], entry: u64, sink: &mut S)
    ensures { Puts (S.standing sink.old) (S.standing sink.new) (what.now ++ number entry) }
{
    sink.put(what);
    print_number(entry, sink);
}

/// Puts why a permission list is refused.
pub fn print_list_refusal<S: Sink>(error: AclError, sink: &mut S)
    ensures { Puts (S.standing sink.old) (S.standing sink.new) (list_refusal error) }
{
    match error {
        AclError::BadTag(entry) => print_at_entry(b"A1 BAD TAG ENTRY", entry, sink),
        AclError::BadQualifier(entry) => print_at_entry(b"A2 BAD QUALIFIER ENTRY", entry, sink),
        AclError::BadPerms(entry) => print_at_entry(b"A3 BAD PERMS ENTRY", entry, sink),
        AclError::Missing(tag) => print_missing(tag, sink),
        AclError::Twice(entry) => print_at_entry(b"A5 TWICE ENTRY", entry, sink),
        AclError::NoMask => sink.put(b"A6 NO MASK"),
        AclError::TooMany(entry) => print_at_entry(b"A7 TOO MANY ENTRY", entry, sink),
    }
}

// Puts which entry is missing.
fn print_missing<S: Sink>(tag: Tag, sink: &mut S)
    ensures { Puts (S.standing sink.old) (S.standing sink.new) (list_refusal (AclError.Missing tag)) }
{
    sink.put(b"A4 MISSING ");
    sink.put(tag.word());
    sink.put(b"::");
}
