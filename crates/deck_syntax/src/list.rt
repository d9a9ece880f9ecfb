//! A permission list whose lines come on cards of their own.
ghost use Rattle.std.specs.Prelude.{◌≡◌, [], ◌++◌, codes, OnOk, OnErr};
ghost use Rattle.deck_syntax.specs.Requests.{opened, set_acl_of};

use acl_text::{AclText, Bytes};
use deck_lines::Command;
use mon_text::Name;
use std::alloc::{AllocError, Global};
use std::marker::Model;

/// A permission list whose lines are still to come.
#[derive(Drop)]
pub struct OpenList {
    pub account: Name,
    pub name: Name,
    pub text: ListText,
}

/// The lines of a permission list so far, each ended by LF. A contract sees them as a list of bytes.
#[derive(Drop)]
pub struct ListText {
    bytes: Vec<u8>,
}

impl Model for ListText {
    ghost use Rattle.std.specs.Prelude.{ℕ, List};

    ghost Value = { List ℕ };

    ghost view = { λ t. t.bytes.items };
}

impl ListText {
    /// No line.
    pub fn new(alloc: Global) -> ListText
        ensures { result ≡ [] }
    {
        ListText {
            bytes: Vec::new(alloc),
        }
    }

    /// Puts a line last.
    ///
    /// # Errors
    ///
    /// Where a growth was refused; the lines are then unchanged.
    pub fn push_line(&mut self, line: &[u8]) -> Result<(), AllocError>
        ensures added { OnOk result (self.new ≡ self.old ++ (line.now ++ codes "\n")) }
        ensures unchanged { OnErr result (self.new ≡ self.old) }
    {
        self.bytes.reserve(line.len() + 1)?;
        self.bytes.extend_from_slice(line).unwrap();
        self.bytes.push_reserved(b'\n');
        Ok(())
    }

    /// The lines as a text.
    pub fn into_bytes(self) -> Bytes
        ensures { result ≡ self }
    {
        Bytes::new(self.bytes)
    }
}

impl OpenList {
    /// A list without lines so far.
    pub fn new(alloc: Global, account: Name, name: Name) -> OpenList
        ensures { result ≡ opened account name }
    {
        OpenList {
            account,
            name,
            text: ListText::new(alloc),
        }
    }

    /// The command that the list is of.
    pub fn into_command(self) -> Command
        ensures { result ≡ set_acl_of self }
    {
        Command::SetAcl {
            account: self.account,
            name: self.name,
            text: AclText::Long(self.text.into_bytes()),
        }
    }
}
