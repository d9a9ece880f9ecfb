//! Where the pieces of a checkpoint go.
ghost use Rattle.std.specs.Prelude.{◌≡◌, ◌++◌, ◌∷◌, [], ℕ, List, OnOk};

use mon_text::Stop;
use std::alloc::{AllocError, Global};

/// A piece that could not be put where it was to stand.
#[derive(Clone, Copy)]
pub struct NotPut;

/// What takes the pieces of a checkpoint, each as soon as it is written: so they are never in memory all at once.
pub trait Pieces {
    /// Those that it took, the first of them first.
    ghost taken: { Self → List (List ℕ) };

    /// Takes one more, which stands behind the others without anything between them.
    ///
    /// # Errors
    ///
    /// `Refused` where it can't be put there, and `Memory` where a growth was refused. Those before it are then of no use.
    fn put(&mut self, piece: &[u8]) -> Result<(), Stop<NotPut>>
        ensures { OnOk result (taken self.new ≡ taken self.old ++ piece.now ∷ []) };
}

/// Pieces in memory.
#[derive(Drop)]
pub struct MemoryPieces {
    alloc: Global,
    /// Each of them.
    pub all: Vec<Vec<u8>>,
}

impl MemoryPieces {
    /// No piece yet.
    pub fn new(alloc: Global) -> MemoryPieces
        ensures { result.all.items ≡ [] }
    {
        MemoryPieces {
            alloc,
            all: Vec::new(alloc),
        }
    }

    /// All of them in one text.
    ///
    /// # Errors
    ///
    /// Where a growth was refused.
    pub fn text(&self) -> Result<Vec<u8>, AllocError> {
        let mut text = Vec::new(self.alloc);
        for piece in self.all.iter() {
            text.extend_from_slice(piece)?;
        }
        Ok(text)
    }
}

impl Pieces for MemoryPieces {
    ghost use Rattle.ledger_checkpoint.specs.Writing.{texts_in};

    ghost taken = { λ pieces. texts_in pieces.all.items };

    fn put(&mut self, piece: &[u8]) -> Result<(), Stop<NotPut>> {
        let own = piece.to_vec(self.alloc)?;
        match self.all.push(own) {
            Ok(()) => Ok(()),
            Err(_) => Err(Stop::Memory),
        }
    }
}
