//! The trait of what takes the bytes of a file.

ghost use Rattle.std.specs.Prelude.{◌≡◌, ◌≤◌, ◌++◌, ℕ, List, length, OnOk};

use crate::traits::PIECE_BYTES;
use std::alloc::AllocError;

/// Takes the bytes of a file, piece by piece.
pub trait Consumer {
    // The consumer has taken these bytes.
    ghost has_taken: { Self → List ℕ → Type 0 };

    /// Takes the next piece, of at most `PIECE_BYTES` bytes.
    ///
    /// Fails if memory runs out. The consumer is of no use then.
    fn take(&mut self, piece: &[u8]) -> Result<(), AllocError>
        requires { length piece.now ≤ PIECE_BYTES }
        ensures { OnOk result ((bytes : List ℕ) → has_taken self.old bytes
            → has_taken self.new (bytes ++ piece.now)) };
}

/// Keeps the bytes.
impl Consumer for Vec<u8> {
    ghost has_taken = { λ v bytes. v.items ≡ bytes };

    fn take(&mut self, piece: &[u8]) -> Result<(), AllocError> {
        self.extend_from_slice(piece)
    }
}
