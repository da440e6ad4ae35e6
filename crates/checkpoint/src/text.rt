//! The bytes of a checkpoint as they come.

ghost use Rattle.std.specs.Prelude.{◌≡◌, ◌++◌, ℕ, List, IfOk, true};
ghost use Rattle.sha2.specs.Hashers.{Holds256};
ghost use Rattle.sha2.specs.Sha256.{sha256};

use sha2::{Digest, Sha256};
use std::alloc::{AllocError, Global};

/// What was read, and its digest. If memory for it is refused it is digested alone, so that the bytes can still be
/// checked up to their end.
#[derive(Drop)]
pub(crate) struct Text {
    bytes: Vec<u8>,
    whole: bool,
    hasher: Sha256,
}

impl Text {
    ghost use Rattle.checkpoint.specs.Texts.{Adds, IsFresh};

    /// Nothing was read.
    pub(crate) fn new(alloc: Global) -> Text
        ensures { IsFresh result }
    {
        Text {
            bytes: Vec::new(alloc),
            whole: true,
            hasher: Sha256::new(),
        }
    }

    /// A piece follows.
    pub(crate) fn put(&mut self, piece: &[u8])
        ensures { Adds self.old self.new piece.now }
    {
        self.hasher.update(piece);
        self.whole = self.whole && keep(&mut self.bytes, piece);
    }

    /// The digest of all that was read. Nothing follows it.
    pub(crate) fn digest(&mut self) -> [u8; 32]
        ensures value { (m : List ℕ) → Holds256 self.old.hasher m → result ≡ sha256 m }
        ensures bytes { self.new.bytes.items ≡ self.old.bytes.items }
        ensures whole { self.new.whole ≡ self.old.whole }
    {
        self.hasher.finalize_reset()
    }

    /// What was read. The error is that memory for it was refused.
    pub(crate) fn bytes(&self) -> Result<&[u8], AllocError>
        ensures whole { IfOk result (λ _. self.now.whole ≡ true) }
        ensures bytes { IfOk result (λ b. b.now ≡ self.now.bytes.items) }
    {
        if self.whole {
            Ok(&self.bytes)
        } else {
            Err(AllocError)
        }
    }
}

// Whether there was memory for a piece more.
fn keep(bytes: &mut Vec<u8>, piece: &[u8]) -> bool
    ensures { result ≡ true → bytes.new.items ≡ bytes.old.items ++ piece.now }
{
    match bytes.extend_from_slice(piece) {
        Ok(()) => true,
        Err(_) => false,
    }
}
