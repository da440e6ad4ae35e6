//! Why a call of a board is refused.

use std::alloc::AllocError;
use thiserror::Error;

/// Why a call of a board is refused, in the order of the checks. It has then changed nothing.
#[derive(Clone, Copy, Debug, PartialEq, Eq, Error)]
pub enum BoardError {
    /// The history has as many entries as it may have, and the call would add one.
    #[error("the book is full")]
    BookFull,
    /// Memory was refused, or a value is shared 2^63 times already.
    #[error("out of memory")]
    Memory,
}

impl From<AllocError> for BoardError {
    ghost use Rattle.std.specs.Prelude.{◌≡◌};
    ghost use Rattle.board.specs.declared.error.BoardError.TheVariants.{Memory};

    ghost from_gives = { λ _ e. e ≡ Memory };

    fn from(_error: AllocError) -> BoardError {
        BoardError::Memory
    }
}
