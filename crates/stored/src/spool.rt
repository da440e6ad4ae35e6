//! Bytes on their way to a writer, in large pieces.

ghost use Rattle.std.specs.Prelude.{◌≡◌, ℕ, List, ◌+◌, ◌≤◌, ◌++◌, [], length, take, OnOk, OnErr};
ghost use Rattle.std.specs.List.{flat_map};
ghost use Rattle.sha2.specs.Hashers.{Holds256};
ghost use Rattle.sha2.specs.Sha256.{sha256};
ghost use Rattle.stored.specs.declared.sizes.TheConstants.{PIECE};
ghost use Rattle.graph.specs.Planning.{Hashes};
ghost use Rattle.stored.specs.Writing.{Writes, StopsWriting};

use crate::error::Failed;
use crate::sizes::PIECE;
use ball_model::{CountedWrite, put_all};
use sha2::{Digest, Sha256};

/// Bytes that wait to be digested and written, and the digest of those before them. It takes no memory.
#[derive(Drop)]
pub struct Spool {
    hasher: Sha256,
    piece: [u8; PIECE],
    used: usize,
    ghost within: { used ≤ PIECE },
}

impl Spool {
    ghost use Rattle.stored.specs.Spooled.{PassesOn, waiting};

    /// No bytes.
    pub fn new() -> Spool
        ensures empty { waiting result ≡ [] }
        ensures hasher { Holds256 result.hasher [] }
    {
        Spool {
            hasher: Sha256::new(),
            piece: [0; PIECE],
            used: 0,
        }
    }

    /// Fields follow, one after the other.
    pub fn keep_all<W: CountedWrite>(
        &mut self,
        writer: &mut W,
        fields: &[&[u8]],
    ) -> Result<(), Failed>
        ensures done { OnOk result (PassesOn W.contents W.failed_calls W.sure_calls W.room
            writer.old writer.new self.old self.new (flat_map (λ field. field.now) fields.now)) }
        ensures stops { OnErr result (StopsWriting W.contents W.failed_calls W.sure_calls W.room
            writer.old writer.new
            (waiting self.old ++ flat_map (λ field. field.now) fields.now)) }
    {
        for field in fields {
            self.keep(writer, field)?;
        }
        Ok(())
    }

    /// These bytes follow.
    pub fn keep<W: CountedWrite>(&mut self, writer: &mut W, bytes: &[u8]) -> Result<(), Failed>
        ensures done { OnOk result (PassesOn W.contents W.failed_calls W.sure_calls W.room
            writer.old writer.new self.old self.new bytes.now) }
        ensures stops { OnErr result (StopsWriting W.contents W.failed_calls W.sure_calls W.room
            writer.old writer.new (waiting self.old ++ bytes.now)) }
    {
        if bytes.len() <= PIECE - self.used {
            self.push(bytes);
            return Ok(());
        }
        self.put_out(writer)?;
        if bytes.len() <= PIECE {
            self.push(bytes);
            return Ok(());
        }
        put(writer, &mut self.hasher, bytes)
    }

    /// All is written, and after it its SHA-256.
    pub fn seal<W: CountedWrite>(self, writer: &mut W) -> Result<(), Failed>
        ensures done { OnOk result ((m : List ℕ) → Holds256 self.hasher m →
            Writes W.contents W.failed_calls W.sure_calls W.room
            writer.old writer.new (waiting self ++ sha256 (m ++ waiting self))) }
        ensures stops { OnErr result ((m : List ℕ) → Holds256 self.hasher m →
            StopsWriting W.contents W.failed_calls W.sure_calls W.room
            writer.old writer.new (waiting self ++ sha256 (m ++ waiting self))) }
    {
        let mut spool = self;
        spool.put_out(writer)?;
        let digest = spool.hasher.finalize();
        write_out(writer, &digest)
    }

    // Bytes wait, for which there is room.
    fn push(&mut self, bytes: &[u8])
        requires { self.old.used + length bytes.now ≤ PIECE }
        ensures waiting { waiting self.new ≡ waiting self.old ++ bytes.now }
        ensures hasher { self.new.hasher ≡ self.old.hasher }
    {
        let used = self.used;
        fill_from(&mut self.piece, used, bytes);
        self.used = used + bytes.len();
    }

    // What waits is digested and written.
    fn put_out<W: CountedWrite>(&mut self, writer: &mut W) -> Result<(), Failed>
        ensures done { OnOk result (Writes W.contents W.failed_calls W.sure_calls W.room
            writer.old writer.new (waiting self.old)) }
        ensures stops { OnErr result (StopsWriting W.contents W.failed_calls W.sure_calls W.room
            writer.old writer.new (waiting self.old)) }
        ensures digested { Hashes self.old.hasher self.new.hasher (waiting self.old) }
        ensures empty { self.new.used ≡ 0 }
    {
        let Spool {
            hasher,
            piece,
            used,
        } = self;
        let count = *used;
        *used = 0;
        put(writer, hasher, &piece[..count])
    }
}

// Bytes are put into a buffer from a place on, after what is before it.
fn fill_from(piece: &mut [u8], at: usize, bytes: &[u8])
    requires { at + length bytes.now ≤ length piece.old }
    ensures front { take (at + length bytes.now) piece.new ≡ take at piece.old ++ bytes.now }
    ensures long { length piece.new ≡ length piece.old }
{
    piece[at..at + bytes.len()].copy_from_slice(bytes);
}

// Bytes are digested and written.
fn put<W: CountedWrite>(writer: &mut W, hasher: &mut Sha256, bytes: &[u8]) -> Result<(), Failed>
    ensures done { OnOk result (Writes W.contents W.failed_calls W.sure_calls W.room
        writer.old writer.new bytes.now) }
    ensures stops { OnErr result (StopsWriting W.contents W.failed_calls W.sure_calls W.room
        writer.old writer.new bytes.now) }
    ensures digested { Hashes hasher.old hasher.new bytes.now }
{
    hasher.update(bytes);
    write_out(writer, bytes)
}

// Bytes are written.
fn write_out<W: CountedWrite>(writer: &mut W, bytes: &[u8]) -> Result<(), Failed>
    ensures done { OnOk result (Writes W.contents W.failed_calls W.sure_calls W.room
        writer.old writer.new bytes.now) }
    ensures stops { OnErr result (StopsWriting W.contents W.failed_calls W.sure_calls W.room
        writer.old writer.new bytes.now) }
{
    if put_all(writer, bytes) {
        Ok(())
    } else {
        Err(Failed)
    }
}
