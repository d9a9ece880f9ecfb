//! Where the pieces of a checkpoint are read from.
ghost use Rattle.std.specs.Prelude.{◌≡◌, take, drop, IfOk, IfSome};

use std::alloc::{AllocError, Global};

/// What gives the pieces of a checkpoint. It is not trusted: each piece is held against its digest.
pub trait Source {
    /// So many bytes behind so many; none where they can't be read.
    ///
    /// # Errors
    ///
    /// Where a growth was refused.
    fn piece(
        &mut self,
        alloc: Global,
        place: u64,
        size: u64,
    ) -> Result<Option<Vec<u8>>, AllocError>;
}

/// The pieces in memory.
#[derive(Clone, Copy)]
pub struct MemorySource<'a> {
    /// All of them.
    pub pieces: &'a [u8],
}

#[tactic(auto, using(crate::proofs::Taken::piece_there))]
fn piece_of(
    alloc: Global,
    pieces: &[u8],
    place: u64,
    size: u64,
) -> Result<Option<Vec<u8>>, AllocError>
    ensures { IfOk result (λ found. IfSome found (λ piece. piece.items ≡ take size (drop place pieces.now))) }
{
    let length = pieces.len() as u64;
    if place > length || size > length - place {
        return Ok(None);
    }
    let rest = &pieces[place as usize..];
    let piece = rest[..size as usize].to_vec(alloc)?;
    Ok(Some(piece))
}

impl<'a> Source for MemorySource<'a> {
    fn piece(
        &mut self,
        alloc: Global,
        place: u64,
        size: u64,
    ) -> Result<Option<Vec<u8>>, AllocError> {
        piece_of(alloc, self.pieces, place, size)
    }
}
