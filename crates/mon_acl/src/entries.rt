//! The entries of a permission list: a type, a qualifier and permissions.
ghost use Rattle.std.specs.Prelude.{◌≡◌};
ghost use Rattle.std.specs.Ordering.{nat_cmp};
ghost use Rattle.std.specs.Cmp.Lexicographic.{slice_cmp};
ghost use Rattle.mon_acl.specs.Permissions.{holds, common, is_one};
ghost use Rattle.mon_acl.specs.Entries.{rank, qualifier, compared, is_named, tag_word};

use mon_text::Name;
use std::cmp::Ordering;
use std::marker::Model;

/// Permissions: to read, to write, to execute.
///
/// They lie in three bits of one byte, so that two are compared and joined as numbers.
#[derive(Clone, Copy, Default)]
pub struct Perms {
    bits: u8,
}

impl Model for Perms {
    ghost use Rattle.std.specs.Prelude.{◌<◌};
    ghost use Rattle.mon_acl.specs.Rights.{Rights};

    ghost Value = { Rights };

    ghost use Rattle.mon_acl.specs.inner.Bits.{rights_of, bits_of, bits_back};

    ghost view = { λ p. rights_of p.bits };

    ghost invariant = { λ p. p.bits < 8 };

    ghost inverse = { λ rights. record { bits = bits_of rights } };

    ghost inverse_ok = { λ p h i. record { bits = bits_back p.bits h i } };
}

// The bits of the permissions.
const READ: u8 = 4;

const WRITE: u8 = 2;

const EXECUTE: u8 = 1;

/// The types of entries (acl(5) "ACL ENTRIES"), in canonical order.
#[derive(Clone, Copy, Debug, Default, PartialEq, Eq)]
pub enum Tag {
    /// The owner, `user::`.
    #[default]
    UserObj,
    /// One account by name, as `user:lisa:`.
    User,
    /// The owning group, `group::`.
    GroupObj,
    /// One group by name, as `group:staff:`.
    Group,
    /// The most that named entries and the owning group are granted, `mask::`.
    Mask,
    /// All others, `other::`.
    Other,
}

/// An entry. It has a name exactly where its type is `User` or `Group`.
#[derive(Default, Drop)]
pub struct Entry {
    pub tag: Tag,
    pub name: Option<Name>,
    pub perms: Perms,
}

impl Perms {
    /// Those of the three permissions that are true.
    pub fn new(read: bool, write: bool, execute: bool) -> Perms
        ensures { result ≡ record { read = read; write = write; execute = execute } }
    {
        Perms {
            bits: u8::from(read) * READ + u8::from(write) * WRITE + u8::from(execute) * EXECUTE,
        }
    }

    /// Whether reading is permitted.
    #[inline(always)]
    pub fn read(self) -> bool
        ensures { result ≡ self.read }
    {
        self.bits & READ != 0
    }

    /// Whether writing is permitted.
    #[inline(always)]
    pub fn write(self) -> bool
        ensures { result ≡ self.write }
    {
        self.bits & WRITE != 0
    }

    /// Whether executing is permitted.
    #[inline(always)]
    pub fn execute(self) -> bool
        ensures { result ≡ self.execute }
    {
        self.bits & EXECUTE != 0
    }

    /// Whether each permission of the request is held.
    pub fn contains(self, request: Perms) -> bool
        ensures { result ≡ holds self request }
    {
        self.bits & request.bits == request.bits
    }

    /// Whether this is exactly one of the three permissions.
    pub fn is_one(self) -> bool
        ensures { result ≡ is_one self }
    {
        match (self.read(), self.write(), self.execute()) {
            (true, false, false) | (false, true, false) | (false, false, true) => true,
            _ => false,
        }
    }

    /// The permissions that both hold.
    pub fn common(self, other: Perms) -> Perms
        ensures { result ≡ common self other }
    {
        Perms {
            bits: self.bits & other.bits,
        }
    }
}

/// The same mask once more, where a loop asks for it again and again.
#[inline(always)]
pub fn copy_of_mask(mask: &Option<Perms>) -> Option<Perms>
    ensures { result ≡ mask.now }
{
    match mask {
        Some(perms) => Some(*perms),
        None => None,
    }
}

impl Tag {
    /// The number of the type in canonical order.
    pub(crate) fn rank(self) -> u8
        ensures { result ≡ rank self }
    {
        self as u8
    }

    /// The word that the type is printed with.
    pub fn word(self) -> &'static [u8]
        ensures { result.now ≡ tag_word self }
    {
        match self {
            Tag::UserObj | Tag::User => b"user",
            Tag::GroupObj | Tag::Group => b"group",
            Tag::Mask => b"mask",
            Tag::Other => b"other",
        }
    }
}

impl Entry {
    /// The bytes of the entry's name; none where it has no name.
    pub fn qualifier(&self) -> &[u8]
        ensures { result.now ≡ qualifier self.now }
    {
        match &self.name {
            Some(name) => name.as_bytes(),
            None => &[],
        }
    }

    /// The same entry once more.
    pub fn copy(&self) -> Entry
        ensures { result ≡ self.now }
    {
        let name = match &self.name {
            Some(name) => Some(name.copy()),
            None => None,
        };
        Entry {
            tag: self.tag,
            name,
            perms: self.perms,
        }
    }

    /// Whether the entry is for one user or group by name.
    pub fn is_named(&self) -> bool
        ensures { result ≡ is_named self.now }
    {
        matches!(self.tag, Tag::User | Tag::Group)
    }

    /// Which of the two stands first in canonical order.
    #[inline(always)]
    pub fn compare(&self, other: &Entry) -> Ordering
        ensures { result ≡ compared self.now other.now }
    {
        let (own, its) = (self.tag.rank(), other.tag.rank());
        if own < its {
            Ordering::Less
        } else if own > its {
            Ordering::Greater
        } else {
            self.compare_qualifier(other)
        }
    }

    /// Which of the two has the qualifier that stands first. Names are compared as words of the machine.
    #[inline(always)]
    fn compare_qualifier(&self, other: &Entry) -> Ordering
        ensures { result ≡ slice_cmp nat_cmp (qualifier self.now) (qualifier other.now) }
    {
        match (&self.name, &other.name) {
            (Some(own), Some(its)) => own.cmp(its),
            _ => self.qualifier().cmp(other.qualifier()),
        }
    }
}
