//! Which boxes are served.
ghost use Rattle.std.specs.Prelude.{◌≡◌};
ghost use Rattle.ledger_boxes.specs.Sights.{is_file, is_folder};
ghost use Rattle.ledger_boxes.specs.Serving.{may_own, fault_in, box_fault};

use crate::look::{BoxFault, BoxLook, Kind};

/// Why the box of this user is passed over, if it is; the others are served all the same.
pub fn box_fault(operator: u64, uid: u64, look: Option<BoxLook>) -> Option<BoxFault>
    ensures { result ≡ box_fault operator uid look }
{
    match look {
        None => Some(BoxFault::Missing),
        Some(look) => fault_in(operator, uid, look),
    }
}

// Root opens any folder; whoever else is to look after a box has to own it.
fn may_own(operator: u64, uid: u64, owner: u64) -> bool
    ensures { result ≡ may_own operator uid owner }
{
    owner == operator || (operator == 0 && owner == uid)
}

fn fault_in(operator: u64, uid: u64, look: BoxLook) -> Option<BoxFault>
    ensures { result ≡ fault_in operator uid look }
{
    if !is_folder(look.kind) {
        Some(BoxFault::NoFolder)
    } else if !may_own(operator, uid, look.owner) {
        Some(BoxFault::NotOwn)
    } else if look.is_open {
        Some(BoxFault::Open)
    } else if look.is_sticky {
        Some(BoxFault::Sticky)
    } else {
        None
    }
}

pub(crate) fn is_file(kind: Kind) -> bool
    ensures { result ≡ is_file kind }
{
    match kind {
        Kind::File => true,
        Kind::Folder | Kind::Other => false,
    }
}

pub(crate) fn is_folder(kind: Kind) -> bool
    ensures { result ≡ is_folder kind }
{
    match kind {
        Kind::Folder => true,
        Kind::File | Kind::Other => false,
    }
}
