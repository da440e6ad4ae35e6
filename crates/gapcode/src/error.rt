//! Why bits are no code, or bytes no lists.

ghost use Rattle.std.specs.Prelude.{◌≡◌};
ghost use Rattle.gapcode.specs.declared.error.CodeError.TheVariants.{Memory};

use std::alloc::AllocError;
use thiserror::Error;

/// Why bits are no code, or bytes no lists: the first fault from the left.
#[derive(Clone, Copy, Debug, PartialEq, Eq, Error)]
pub enum CodeError {
    /// The bits end before the code does.
    #[error("the bits end within a code")]
    Ended,
    /// 64 zero bits come where a code has to begin.
    #[error("a number has more than 64 bits")]
    TooLong,
    /// A list has more elements than there are numbers below the bound, or an element that is not below it.
    #[error("a number is not below the bound")]
    Range,
    /// A bit after the last list, up to the next whole byte, is set.
    #[error("a bit of the padding is set")]
    Padding,
    /// A whole byte follows the padding.
    #[error("bytes after the last list")]
    Trailing,
    /// Memory was refused. It is answered only if the bytes pass all checks.
    #[error("out of memory")]
    Memory,
}

impl From<AllocError> for CodeError {
    ghost from_gives = { λ _ e. e ≡ Memory };

    fn from(_e: AllocError) -> CodeError {
        CodeError::Memory
    }
}
