//! The text of a permission list, in either of its two forms.
ghost use Rattle.std.specs.Prelude.{◌≡◌, IsErrOf};
ghost use Rattle.mon_text.specs.Stops.{Gives};
ghost use Rattle.acl_text.specs.Forms.{list_of_text, MayTakeMemory};

use crate::parser::{parse_long, parse_short};
use mon_acl::{Acl, AclError};
use mon_text::Stop;
use std::alloc::Global;
use std::marker::Model;

/// Bytes of any kind. A contract sees them as a list.
#[derive(Drop)]
pub struct Bytes {
    bytes: Vec<u8>,
}

impl Model for Bytes {
    ghost use Rattle.std.specs.Prelude.{ℕ, List};

    ghost Value = { List ℕ };

    ghost view = { λ b. b.bytes.items };
}

/// The text of a permission list, in one of the two forms of acl(5), "ACL TEXT FORMS".
#[derive(Drop)]
pub enum AclText {
    /// Entries with commas between them.
    Short(Bytes),
    /// An entry a line, with comments.
    Long(Bytes),
}

impl Bytes {
    /// These bytes.
    pub fn new(bytes: Vec<u8>) -> Bytes
        ensures { result ≡ bytes.items }
    {
        Bytes { bytes }
    }

    /// The bytes in order.
    pub fn as_slice(&self) -> &[u8]
        ensures { result.now ≡ self.now }
    {
        &self.bytes
    }
}

impl AclText {
    /// The list that the text spells.
    ///
    /// # Errors
    ///
    /// The text's first refusal; `Memory` where a growth was refused, which no text of four entries needs, nor one that is
    /// refused within its first five.
    pub fn read(&self, alloc: Global) -> Result<Acl, Stop<AclError>>
        ensures list { Gives (λ acl. acl) result (list_of_text self.now) }
        ensures memory { IsErrOf result Stop.Memory → MayTakeMemory self.now }
    {
        match self {
            AclText::Short(text) => parse_short(alloc, text.as_slice()),
            AclText::Long(text) => parse_long(alloc, text.as_slice()),
        }
    }
}
