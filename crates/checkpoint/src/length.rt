//! How many bytes a checkpoint has.

ghost use Rattle.std.specs.Prelude.{◌≡◌, ◌+◌, ◌*◌, ◌≤◌, length};
ghost use Rattle.std.specs.List.{flat_map};
ghost use Rattle.ball_model.specs.Batches.{batch_bytes};
ghost use Rattle.ball_model.specs.Checkpoint.{checkpoint_bytes, early_bytes, kept_batches};
ghost use Rattle.ball_model.specs.PlanValue.{most_parts};
ghost use Rattle.replica.specs.declared.early.TheConstants.{LEVELS};
ghost use Rattle.checkpoint.specs.Parts.{nth_bytes, longest_batch};

use crate::sizes::{COUNT_LEN, DIGEST_LEN, ENTRY_LEN, HEADER_LEN, HEARD_LEN, LENGTH_LEN, SUM_LEN};
use batches::Batch;
use replica::{Replica, Shown};

/// How many bytes [`write_checkpoint`](crate::write_checkpoint) writes. It takes no memory.
///
/// These are 54 bytes; 33 for each vertex of the partition, and twice its registers; 16 for each superstep from 0 on;
/// 11, and for each batch that is kept 8 and its own; and 32.
pub fn checkpoint_length(replica: &Replica) -> u64
    ensures { result ≡ length (checkpoint_bytes replica.now) }
{
    replica.limits();
    let size = replica.rows().len() as u64;
    let width = replica.rows().width() as u64;
    let sums = replica.sums().len() as u64;
    HEADER_LEN as u64
        + size * (ENTRY_LEN as u64 + width)
        + SUM_LEN as u64 * sums
        + HEARD_LEN as u64
        + size * width
        + COUNT_LEN as u64
        + early_length(replica)
        + DIGEST_LEN as u64
}

// How many bytes the batches have that are kept, each with its length before it.
fn early_length(replica: &Replica) -> u64
    ensures value { result ≡ length (flat_map early_bytes (kept_batches replica.now.early)) }
    ensures few { result ≤ LEVELS * most_parts * longest_batch }
{
    replica.limits();
    let mut length = 0;
    for i in 0..replica.early_count() {
        length += nth_length(replica, i);
    }
    length
}

// The bytes of the i-th of them with its length before it: none if there is no such batch.
fn nth_length(replica: &Replica, i: u32) -> u64
    ensures value { result ≡ length (nth_bytes replica.now i) }
    ensures few { result ≤ longest_batch }
{
    match replica.early(i) {
        Some(batch) => LENGTH_LEN as u64 + batch_length(batch),
        None => 0,
    }
}

fn batch_length(batch: &Batch) -> u64
    ensures value { result ≡ length (batch_bytes batch.now) }
    ensures few { result + LENGTH_LEN ≤ longest_batch }
{
    batch.limits();
    batch.length()
}
