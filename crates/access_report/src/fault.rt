//! Why nothing is reported, or not all.
ghost use Rattle.std.specs.Prelude.{◌≡◌, ◌++◌, OnOk};
ghost use Rattle.access_report.specs.Reports.{fault_of, status_of, fault_text, fault_line};

use crate::front::Refusal;
use deck_lines::DeckError;
use mon_text::{Stop, put_number};
use std::alloc::AllocError;

/// Why nothing is reported, or not all.
#[derive(Clone, Copy)]
pub enum Fault {
    /// The deck is refused at this line, counted from 1.
    DeckRefused(u64, DeckError),
    /// The deck has no account of the name that is asked about.
    NoAccount,
    /// The deck has no data set of the name that is asked about.
    NoSet,
    /// The reader failed.
    ReadFault,
    /// The writer failed.
    WriteFault,
    /// A growth was refused.
    Memory,
}

impl From<AllocError> for Fault {
    ghost use Rattle.std.specs.Prelude.{◌≡◌};
    ghost use Rattle.access_report.specs.declared.fault.Fault.TheVariants.{Memory};

    ghost from_gives = { λ _ fault. fault ≡ Memory };

    fn from(_: AllocError) -> Fault {
        Fault::Memory
    }
}

impl Fault {
    /// What a refusal of the deck, or want of memory, is.
    pub(crate) fn of(stop: Stop<Refusal>) -> Fault
        ensures { result ≡ fault_of stop }
    {
        match stop {
            Stop::Refused(refusal) => Fault::DeckRefused(refusal.line, refusal.code),
            Stop::Memory => Fault::Memory,
        }
    }

    /// The exit status: 1 where it lies with the deck or the question, 3 where something failed.
    pub fn status(self) -> u8
        ensures { result ≡ status_of self }
    {
        match self {
            Fault::DeckRefused(..) | Fault::NoAccount | Fault::NoSet => 1,
            Fault::ReadFault | Fault::WriteFault | Fault::Memory => 3,
        }
    }

    /// Appends the line that tells it.
    ///
    /// # Errors
    ///
    /// Where a growth was refused; a part of the line may have been appended.
    pub fn put_line(self, out: &mut Vec<u8>) -> Result<(), AllocError>
        ensures { OnOk result (out.new.items ≡ out.old.items ++ fault_line self) }
    {
        out.extend_from_slice(b"listing: ")?;
        self.put_text(out)?;
        out.extend_from_slice(b"\n")
    }

    // Appends what went wrong.
    fn put_text(self, out: &mut Vec<u8>) -> Result<(), AllocError>
        ensures { OnOk result (out.new.items ≡ out.old.items ++ fault_text self) }
    {
        match self {
            Fault::DeckRefused(line, code) => {
                out.extend_from_slice(b"line ")?;
                put_number(line, out)?;
                out.extend_from_slice(b": ")?;
                out.extend_from_slice(code.text().as_bytes())
            }
            Fault::NoAccount => out.extend_from_slice(b"no account of that name"),
            Fault::NoSet => out.extend_from_slice(b"no data set of that name"),
            Fault::ReadFault => out.extend_from_slice(b"read fault"),
            Fault::WriteFault => out.extend_from_slice(b"write fault"),
            Fault::Memory => out.extend_from_slice(b"out of memory"),
        }
    }
}
