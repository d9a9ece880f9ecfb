//! Whose a text is.
ghost use Rattle.std.specs.Prelude.{◌≡◌, IfOk};
ghost use Rattle.ledger_run.specs.Senders.{seen_sender, sender_of};

use ledger_text::Claimed;
use std::alloc::{AllocError, Global};

/// Whose a text is, and what its file was called.
#[derive(Drop)]
pub struct Sender {
    /// The account in whose box the file was.
    pub account: Vec<u8>,
    /// The user of the system who had it.
    pub uid: u64,
    /// Its name there.
    pub name: Vec<u8>,
}

// Whose a claimed file was.
pub(crate) fn sender_of(alloc: Global, file: Claimed<'_>) -> Result<Sender, AllocError>
    ensures { IfOk result (λ sender. seen_sender sender ≡ sender_of file.entry) }
{
    let account = file.account.to_vec(alloc)?;
    let name = file.name.to_vec(alloc)?;
    Ok(Sender {
        account,
        uid: file.uid,
        name,
    })
}
