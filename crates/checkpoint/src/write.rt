//! A checkpoint, written field by field.

ghost use Rattle.std.specs.Prelude.{◌≡◌, ◌<◌, ◌≤◌, ◌%◌, ◌/◌, ◌++◌, length, IfErr, IsOk, OnOk};
ghost use Rattle.std.specs.Prelude.{OnErr};
ghost use Rattle.std.specs.List.{flat_map, range_with_len};
ghost use Rattle.std.specs.Int.{w128, to_be_bytes};
ghost use Rattle.std.specs.Io.KnownBytes.{Appends};
ghost use Rattle.ball_model.specs.Batches.{row_bytes};
ghost use Rattle.ball_model.specs.Checkpoint.{front_bytes, vertex_bytes, table_bytes, held_bytes};
ghost use Rattle.ball_model.specs.Checkpoint.{early_bytes, kept_batches, checkpoint_bytes};
ghost use Rattle.ball_model.specs.Streams.{AreSure, PutsFront, RisesByOne};
ghost use Rattle.replica.specs.Seen.{IsState};
ghost use Rattle.checkpoint.specs.Writing.{Writes, StopsWriting};
ghost use Rattle.checkpoint.specs.Spooled.{PassesOn, waiting};
ghost use Rattle.checkpoint.specs.Parts.{heard_bytes, count_bytes, nth_bytes};

use crate::error::{Failed, KeepError};
use crate::header::MAGIC;
use crate::spool::Spool;
use ball_model::CountedWrite;
use batches::Batch;
use replica::{Replica, Shown};

/// The version that is written.
const VERSION: u8 = 2;

/// Writes all that a replica has, in version 2.
///
/// It takes no memory, and the replica is as before. The error is that a write failed; then a beginning of the bytes
/// is written, which is no checkpoint. No write is tried again.
pub fn write_checkpoint<W: CountedWrite>(replica: &Replica, writer: &mut W) -> Result<(), KeepError>
    ensures done { OnOk result (Appends (W.contents writer.old) (W.contents writer.new)
        (checkpoint_bytes replica.now)) }
    ensures front { OnErr result (PutsFront (W.contents writer.old) (W.contents writer.new)
        (checkpoint_bytes replica.now)) }
    ensures counted { OnOk result (W.failed_calls writer.new ≡ W.failed_calls writer.old) }
    ensures failed { OnErr result (
        RisesByOne (W.failed_calls writer.old) (W.failed_calls writer.new)) }
    ensures kind { IfErr result (λ e. e ≡ KeepError.Write) }
    ensures only { AreSure (W.sure_calls writer.old) (length (checkpoint_bytes replica.now)) →
        length (checkpoint_bytes replica.now) ≤ W.room writer.old → IsOk result }
{
    keep_sealed(replica, writer)?;
    Ok(())
}

// All of a replica, and after it the SHA-256.
fn keep_sealed<W: CountedWrite>(replica: &Replica, writer: &mut W) -> Result<(), Failed>
    ensures done { OnOk result (Writes W.contents W.failed_calls W.sure_calls W.room
        writer.old writer.new (checkpoint_bytes replica.now)) }
    ensures stops { OnErr result (StopsWriting W.contents W.failed_calls W.sure_calls W.room
        writer.old writer.new (checkpoint_bytes replica.now)) }
{
    let mut spool = Spool::new();
    keep_replica(replica, &mut spool, writer)?;
    spool.seal(writer)
}

// All that is digested.
fn keep_replica<W: CountedWrite>(
    replica: &Replica,
    spool: &mut Spool,
    writer: &mut W,
) -> Result<(), Failed>
    ensures done { OnOk result (PassesOn W.contents W.failed_calls W.sure_calls W.room
        writer.old writer.new spool.old spool.new
        (front_bytes 2 replica.now ++ table_bytes replica.now ++ held_bytes replica.now)) }
    ensures stops { OnErr result (StopsWriting W.contents W.failed_calls W.sure_calls W.room
        writer.old writer.new (waiting spool.old
        ++ (front_bytes 2 replica.now ++ table_bytes replica.now ++ held_bytes replica.now))) }
{
    keep_front(replica, spool, writer)?;
    keep_table(replica, spool, writer)?;
    keep_held(replica, spool, writer)
}

// What each version begins with.
fn keep_front<W: CountedWrite>(
    replica: &Replica,
    spool: &mut Spool,
    writer: &mut W,
) -> Result<(), Failed>
    ensures done { OnOk result (PassesOn W.contents W.failed_calls W.sure_calls W.room
        writer.old writer.new spool.old spool.new (front_bytes 2 replica.now)) }
    ensures stops { OnErr result (StopsWriting W.contents W.failed_calls W.sure_calls W.room
        writer.old writer.new (waiting spool.old ++ front_bytes 2 replica.now)) }
{
    let plan = replica.plan();
    spool.keep_all(
        writer,
        &[
            &MAGIC.to_be_bytes(),
            &[VERSION],
            &[plan.log2m()],
            &plan.parts().to_be_bytes(),
            &replica.partition().to_be_bytes(),
            &plan.vertices().to_be_bytes(),
            &size_of(replica).to_be_bytes(),
            &replica.superstep().to_be_bytes(),
            &plan.job(),
        ],
    )
}

// The vertices, and the sums of their estimates.
fn keep_table<W: CountedWrite>(
    replica: &Replica,
    spool: &mut Spool,
    writer: &mut W,
) -> Result<(), Failed>
    ensures done { OnOk result (PassesOn W.contents W.failed_calls W.sure_calls W.room
        writer.old writer.new spool.old spool.new (table_bytes replica.now)) }
    ensures stops { OnErr result (StopsWriting W.contents W.failed_calls W.sure_calls W.room
        writer.old writer.new (waiting spool.old ++ table_bytes replica.now)) }
{
    keep_vertices(replica, spool, writer)?;
    keep_sums(replica.sums(), spool, writer)
}

fn keep_vertices<W: CountedWrite>(
    replica: &Replica,
    spool: &mut Spool,
    writer: &mut W,
) -> Result<(), Failed>
    ensures done { OnOk result (PassesOn W.contents W.failed_calls W.sure_calls W.room
        writer.old writer.new spool.old spool.new
        (flat_map (vertex_bytes replica.now) (range_with_len 0 (length replica.now.part.preds)))) }
    ensures stops { OnErr result (StopsWriting W.contents W.failed_calls W.sure_calls W.room
        writer.old writer.new (waiting spool.old ++ flat_map (vertex_bytes replica.now)
        (range_with_len 0 (length replica.now.part.preds)))) }
{
    for i in 0..size_of(replica) {
        keep_vertex(replica, i, spool, writer)?;
    }
    Ok(())
}

// The vertex at place i: its mark, its figures and its registers.
fn keep_vertex<W: CountedWrite>(
    replica: &Replica,
    i: u32,
    spool: &mut Spool,
    writer: &mut W,
) -> Result<(), Failed>
    requires state { IsState replica.now }
    requires place { i < length replica.now.part.preds }
    ensures done { OnOk result (PassesOn W.contents W.failed_calls W.sure_calls W.room
        writer.old writer.new spool.old spool.new (vertex_bytes replica.now i)) }
    ensures stops { OnErr result (StopsWriting W.contents W.failed_calls W.sure_calls W.room
        writer.old writer.new (waiting spool.old ++ vertex_bytes replica.now i)) }
{
    let tally = replica.tallies()[i as usize];
    let mark = replica.changed(vertex(replica, i));
    spool.keep_all(
        writer,
        &[
            &[u8::from(mark)],
            &tally.last.to_be_bytes(),
            &tally.harm.to_be_bytes(),
            &tally.dist.to_be_bytes(),
            replica.rows().row(i as usize),
        ],
    )
}

// How many vertices the partition has.
fn size_of(replica: &Replica) -> u32
    ensures size { result ≡ length replica.now.part.preds }
    ensures state { IsState replica.now }
{
    replica.limits();
    replica.rows().len() as u32
}

// The vertex at place i of the partition.
fn vertex(replica: &Replica, i: u32) -> u32
    requires state { IsState replica.now }
    requires place { i < length replica.now.part.preds }
    ensures below { result < replica.now.part.plan.vertices }
    ensures own { result % replica.now.part.plan.parts ≡ replica.now.part.number }
    ensures place { result / replica.now.part.plan.parts ≡ i }
{
    i * u32::from(replica.plan().parts()) + u32::from(replica.partition())
}

fn keep_sums<W: CountedWrite>(
    sums: &[u128],
    spool: &mut Spool,
    writer: &mut W,
) -> Result<(), Failed>
    ensures done { OnOk result (PassesOn W.contents W.failed_calls W.sure_calls W.room
        writer.old writer.new spool.old spool.new (flat_map (to_be_bytes w128) sums.now)) }
    ensures stops { OnErr result (StopsWriting W.contents W.failed_calls W.sure_calls W.room
        writer.old writer.new (waiting spool.old ++ flat_map (to_be_bytes w128) sums.now)) }
{
    for sum in sums {
        spool.keep(writer, &sum.to_be_bytes())?;
    }
    Ok(())
}

// What is held: what is heard, what is accumulated, and what is kept.
fn keep_held<W: CountedWrite>(
    replica: &Replica,
    spool: &mut Spool,
    writer: &mut W,
) -> Result<(), Failed>
    ensures done { OnOk result (PassesOn W.contents W.failed_calls W.sure_calls W.room
        writer.old writer.new spool.old spool.new (held_bytes replica.now)) }
    ensures stops { OnErr result (StopsWriting W.contents W.failed_calls W.sure_calls W.room
        writer.old writer.new (waiting spool.old ++ held_bytes replica.now)) }
{
    keep_heard(replica, spool, writer)?;
    keep_accumulated(replica, spool, writer)?;
    keep_count(replica, spool, writer)?;
    keep_early(replica, spool, writer)
}

// Which sources are heard, and whether one of them has changed vertices.
fn keep_heard<W: CountedWrite>(
    replica: &Replica,
    spool: &mut Spool,
    writer: &mut W,
) -> Result<(), Failed>
    ensures done { OnOk result (PassesOn W.contents W.failed_calls W.sure_calls W.room
        writer.old writer.new spool.old spool.new (heard_bytes replica.now)) }
    ensures stops { OnErr result (StopsWriting W.contents W.failed_calls W.sure_calls W.room
        writer.old writer.new (waiting spool.old ++ heard_bytes replica.now)) }
{
    replica.limits();
    let heard = replica.heard().bits();
    let change = u8::from(replica.heard_change());
    spool.keep_all(writer, &[&heard.to_be_bytes(), &[change]])
}

// What is accumulated for the vertices.
fn keep_accumulated<W: CountedWrite>(
    replica: &Replica,
    spool: &mut Spool,
    writer: &mut W,
) -> Result<(), Failed>
    ensures done { OnOk result (PassesOn W.contents W.failed_calls W.sure_calls W.room
        writer.old writer.new spool.old spool.new (flat_map (λ row. row) replica.now.accumulated)) }
    ensures stops { OnErr result (StopsWriting W.contents W.failed_calls W.sure_calls W.room
        writer.old writer.new
        (waiting spool.old ++ flat_map (λ row. row) replica.now.accumulated)) }
{
    for i in 0..size_of(replica) {
        spool.keep(writer, replica.accumulated(vertex(replica, i)))?;
    }
    Ok(())
}

// How many batches are kept.
fn keep_count<W: CountedWrite>(
    replica: &Replica,
    spool: &mut Spool,
    writer: &mut W,
) -> Result<(), Failed>
    ensures done { OnOk result (PassesOn W.contents W.failed_calls W.sure_calls W.room
        writer.old writer.new spool.old spool.new (count_bytes replica.now)) }
    ensures stops { OnErr result (StopsWriting W.contents W.failed_calls W.sure_calls W.room
        writer.old writer.new (waiting spool.old ++ count_bytes replica.now)) }
{
    replica.limits();
    let count = replica.early_count() as u16;
    spool.keep(writer, &count.to_be_bytes())
}

// The batches that are kept.
fn keep_early<W: CountedWrite>(
    replica: &Replica,
    spool: &mut Spool,
    writer: &mut W,
) -> Result<(), Failed>
    ensures done { OnOk result (PassesOn W.contents W.failed_calls W.sure_calls W.room
        writer.old writer.new spool.old spool.new
        (flat_map early_bytes (kept_batches replica.now.early))) }
    ensures stops { OnErr result (StopsWriting W.contents W.failed_calls W.sure_calls W.room
        writer.old writer.new
        (waiting spool.old ++ flat_map early_bytes (kept_batches replica.now.early))) }
{
    for i in 0..replica.early_count() {
        keep_nth(replica, i, spool, writer)?;
    }
    Ok(())
}

// The i-th of the batches that are kept, if there is one.
fn keep_nth<W: CountedWrite>(
    replica: &Replica,
    i: u32,
    spool: &mut Spool,
    writer: &mut W,
) -> Result<(), Failed>
    ensures done { OnOk result (PassesOn W.contents W.failed_calls W.sure_calls W.room
        writer.old writer.new spool.old spool.new (nth_bytes replica.now i)) }
    ensures stops { OnErr result (StopsWriting W.contents W.failed_calls W.sure_calls W.room
        writer.old writer.new (waiting spool.old ++ nth_bytes replica.now i)) }
{
    match replica.early(i) {
        Some(batch) => keep_batch(batch, spool, writer),
        None => Ok(()),
    }
}

// A batch, and before it its length.
fn keep_batch<W: CountedWrite>(
    batch: &Batch,
    spool: &mut Spool,
    writer: &mut W,
) -> Result<(), Failed>
    ensures done { OnOk result (PassesOn W.contents W.failed_calls W.sure_calls W.room
        writer.old writer.new spool.old spool.new (early_bytes batch.now)) }
    ensures stops { OnErr result (StopsWriting W.contents W.failed_calls W.sure_calls W.room
        writer.old writer.new (waiting spool.old ++ early_bytes batch.now)) }
{
    spool.keep_all(writer, &[&batch.length().to_be_bytes(), &batch.header()])?;
    keep_rows(batch, spool, writer)
}

fn keep_rows<W: CountedWrite>(
    batch: &Batch,
    spool: &mut Spool,
    writer: &mut W,
) -> Result<(), Failed>
    ensures done { OnOk result (PassesOn W.contents W.failed_calls W.sure_calls W.room
        writer.old writer.new spool.old spool.new (flat_map row_bytes batch.now.rows)) }
    ensures stops { OnErr result (StopsWriting W.contents W.failed_calls W.sure_calls W.room
        writer.old writer.new (waiting spool.old ++ flat_map row_bytes batch.now.rows)) }
{
    for i in 0..batch.count() {
        spool.keep_all(writer, &[&batch.id(i).to_be_bytes(), batch.registers(i)])?;
    }
    Ok(())
}
