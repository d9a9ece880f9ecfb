//! The digest by which a commit names the one before it.
ghost use Rattle.std.specs.Prelude.{◌≡◌, IfOk};
ghost use Rattle.ledger_text.specs.Digests.{digest_of};

use sha2::{Digest, Sha256};
use std::alloc::{AllocError, Global};

/// The digest of a commit's text: SHA-256, in 64 hexadecimal digits.
///
/// # Errors
///
/// Where a growth was refused.
pub fn digest(alloc: Global, text: &[u8]) -> Result<Vec<u8>, AllocError>
    ensures { IfOk result (λ digits. digits.items ≡ digest_of text.now) }
{
    let digits = hex::encode(alloc, Sha256::digest(text))?;
    Vec::from_slice(alloc, digits.as_bytes())
}
