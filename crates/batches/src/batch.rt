//! Batches.

ghost use Rattle.std.specs.Prelude.{◌≡◌, ◌+◌, ◌*◌, ◌^◌, ◌<◌, ◌≤◌, ◌++◌, ◌∷◌, [], length};
ghost use Rattle.std.specs.Prelude.{option_map, slice_index, slice_index_or, drop, IfOk, IfSome};
ghost use Rattle.std.specs.Prelude.{OnOk, OnErr, Ok};
ghost use Rattle.std.specs.Arc.{arc_value};
ghost use Rattle.std.specs.List.{All};
ghost use Rattle.ball_model.specs.declared.plan.TheConstants.{GREATEST_RANK};
ghost use Rattle.ball_model.specs.PlanValue.{part_size};
ghost use Rattle.ball_model.specs.Batches.{BatchValue, IsRow, IsBatch, ids_of, registers_of};
ghost use Rattle.ball_model.specs.Batches.{find_row, header_bytes, batch_bytes};
ghost use Rattle.batches.specs.Kept.{first_rows, rows_at};
ghost use Rattle.batches.specs.Reading.{check_at, batch_from, batch_at, GivesBatchOrMemory};
ghost use Rattle.batches.specs.Reading.{AgreesButJob};

use crate::error::BatchError;
use crate::header::{HEADER_LEN, Header, MAGIC, VERSION, check_header, read_header, spell_header};
use crate::registers::{Registers, push_onto, put_rows, reserve, row_in};
use crate::rows::{ID_LEN, check_body, check_len, read_rows};
use ball_model::{BatchName, Plan};
use std::alloc::{AllocError, Global};
use std::marker::Model;
use std::sync::Arc;

/// For how many rows a new batch takes room at once.
const FIRST_ROWS: u32 = 4;

/// What a partition sends another for a superstep (Pregel 2010).
///
/// A batch has the registers of those vertices of its source that are changed at its superstep and have an edge
/// into its target, ascending, and the number of all vertices of the source that are changed. It is for one plan.
/// Bytes may spell a batch that is not true: then it keeps the limits that [`Batch::decode`] checks, and no more.
#[derive(Drop)]
pub struct Batch {
    plan: Plan,
    name: BatchName,
    changed: u32,
    ids: Vec<u32>,
    registers: Registers,
}

impl Model for Batch {
    ghost use Rattle.ball_model.specs.Batches.{BatchValue};
    ghost use Rattle.batches.specs.Held.{held_of, IsHeld};

    ghost Value = { BatchValue };

    ghost view = { λ b. held_of b.plan b.name b.changed b.ids.items b.registers };

    ghost invariant = { λ b. IsHeld
        (held_of b.plan b.name b.changed b.ids.items b.registers) b.ids.items b.registers };
}

impl Batch {
    /// A batch with no rows yet, of a source that has `changed` changed vertices at the superstep.
    ///
    /// The rows are added by [`push`](Batch::push).
    pub fn start(
        alloc: Global,
        plan: &Plan,
        name: BatchName,
        changed: u32,
    ) -> Result<Batch, AllocError>
        requires superstep { name.superstep ≤ plan.now.limit }
        requires source { name.source < plan.now.parts }
        requires target { name.target < plan.now.parts }
        requires changed { changed ≤ part_size plan.now.vertices plan.now.parts name.source }
        ensures { IfOk result (λ b. b
            ≡ record { plan = plan.now; name = name; changed = changed; rows = [] }) }
    {
        let first = changed.min(FIRST_ROWS) as usize;
        Ok(Batch {
            plan: *plan,
            name,
            changed,
            ids: Vec::with_capacity(alloc, first)?,
            registers: Registers::Own(Vec::with_capacity(alloc, first * plan.width())?),
        })
    }

    /// A batch whose rows lie in a table that other batches share: row `i` is of vertex `ids[i]`, and its 2^log2m
    /// registers are those at place `places[i]` of the table. It takes no memory.
    pub fn sharing(
        plan: &Plan,
        name: BatchName,
        changed: u32,
        table: Arc<Vec<u8>>,
        ids: Vec<u32>,
        places: Vec<u32>,
    ) -> Batch
        requires places { All
            (λ p. (p + 1) * 2 ^ plan.now.log2m ≤ length (arc_value table).items) places.items }
        requires count { length ids.items ≡ length places.items }
        requires batch { IsBatch (record {
          plan = plan.now;
          name = name;
          changed = changed;
          rows = rows_at (2 ^ plan.now.log2m) (arc_value table).items ids.items places.items;
        }) }
        ensures { result ≡ record {
          plan = plan.now;
          name = name;
          changed = changed;
          rows = rows_at (2 ^ plan.now.log2m) (arc_value table).items ids.items places.items;
        } }
    {
        Batch {
            plan: *plan,
            name,
            changed,
            ids,
            registers: Registers::Shared(table, places),
        }
    }

    /// Adds the row of a vertex of the source, above those of the rows so far: 2^log2m registers of at most 33.
    ///
    /// There may be as many rows as changed vertices. If memory is refused the batch stays as it was.
    pub fn push(&mut self, id: u32, registers: &[u8]) -> Result<(), AllocError>
        requires row { IsRow self.old.plan self.old.name.source (id, registers.now) }
        requires above { All (λ before. before < id) (ids_of self.old.rows) }
        requires room { length self.old.rows < self.old.changed }
        ensures ok { OnOk result (self.new
            ≡ record self.old { rows = self.old.rows ++ (id, registers.now) ∷ [] }) }
        ensures err { OnErr result (self.new ≡ self.old) }
    {
        let width = self.plan.width();
        push_onto(&mut self.ids, &mut self.registers, width, id, registers)?;
        Ok(())
    }

    /// Takes room for `rows` more rows at once; the batch stays as it was. The error is that memory was refused.
    pub fn reserve(&mut self, rows: u32) -> Result<(), AllocError>
        ensures { self.new ≡ self.old }
    {
        self.ids.reserve(rows as usize)?;
        let width = self.plan.width();
        reserve(&mut self.registers, rows as usize * width)?;
        Ok(())
    }

    /// The plan that the batch is for.
    pub fn plan(&self) -> &Plan
        ensures value { result.now ≡ self.now.plan }
        ensures batch { IsBatch self.now }
    {
        &self.plan
    }

    /// Does nothing: its contract states the limits of every batch, for proofs.
    #[inline(always)]
    pub fn limits(&self)
        ensures { IsBatch self.now }
    {
        let _name = self.name();
    }

    /// The superstep, the source and the target.
    pub fn name(&self) -> BatchName
        ensures value { result ≡ self.now.name }
        ensures batch { IsBatch self.now }
    {
        self.name
    }

    /// How many vertices of the source are changed at the superstep, with a row or without.
    pub fn changed(&self) -> u32
        ensures value { result ≡ self.now.changed }
        ensures batch { IsBatch self.now }
    {
        self.changed
    }

    /// How many rows there are.
    pub fn count(&self) -> u32
        ensures value { result ≡ length self.now.rows }
        ensures batch { IsBatch self.now }
    {
        self.ids.len() as u32
    }

    /// The vertex of row `i`.
    pub fn id(&self, i: u32) -> u32
        requires { i < length self.now.rows }
        ensures value { result ≡ slice_index (ids_of self.now.rows) i }
        ensures batch { IsBatch self.now }
    {
        self.ids[i as usize]
    }

    /// The 2^log2m registers of row `i`.
    pub fn registers(&self, i: u32) -> &[u8]
        requires { i < length self.now.rows }
        ensures value { result.now ≡ slice_index_or (registers_of self.now.rows) i [] }
        ensures width { length result.now ≡ 2 ^ self.now.plan.log2m }
        ensures ranks { All (λ r. r ≤ GREATEST_RANK) result.now }
    {
        row_in(&self.registers, self.plan.width(), i as usize)
    }

    /// The 2^log2m registers of a vertex, if it has a row. It takes the logarithm of the number of rows. For a
    /// library's user: the program does not call it.
    pub fn find(&self, id: u32) -> Option<&[u8]>
        ensures value { option_map (λ r. r.now) result ≡ find_row self.now.rows id }
        ensures width { IfSome result (λ r. length r.now ≡ 2 ^ self.now.plan.log2m) }
        ensures ranks { IfSome result (λ r. All (λ x. x ≤ GREATEST_RANK) r.now) }
    {
        match self.ids.binary_search(&id) {
            Ok(i) => Some(self.registers(i as u32)),
            Err(_) => None,
        }
    }

    /// How many bytes the batch has: [`HEADER_LEN`] and, for each row, four and its registers.
    pub fn length(&self) -> u64
        ensures value { result
            ≡ HEADER_LEN + length self.now.rows * (ID_LEN + 2 ^ self.now.plan.log2m) }
        ensures bytes { result ≡ length (batch_bytes self.now) }
    {
        (HEADER_LEN + self.count() as usize * (ID_LEN + self.plan.width())) as u64
    }

    /// The bytes of the batch before its rows: `HBBT`, the version (1 byte, 1), log2m (1), the superstep (4), the
    /// source (2), the target (2), the job digest (32), the number of changed vertices (4) and of rows (4). Numbers
    /// are big-endian.
    ///
    /// Each row follows as its vertex (4), by [`id`](Batch::id), and its [`registers`](Batch::registers).
    pub fn header(&self) -> [u8; HEADER_LEN]
        ensures { result ≡ header_bytes self.now }
    {
        spell_header(&Header {
            magic: MAGIC,
            version: VERSION,
            log2m: self.plan.log2m(),
            name: self.name,
            job: self.plan.job(),
            changed: self.changed,
            count: self.count(),
        })
    }

    /// The bytes of the batch: its [`header`](Batch::header), and then each row: its vertex (4, big-endian) and its
    /// 2^log2m registers. Each batch has one spelling.
    pub fn encode(&self, alloc: Global) -> Result<Vec<u8>, AllocError>
        ensures { IfOk result (λ v. v.items ≡ batch_bytes self.now) }
    {
        let mut out = Vec::with_capacity(alloc, self.length() as usize)?;
        self.put(&mut out)?;
        Ok(out)
    }

    fn put(&self, out: &mut Vec<u8>) -> Result<(), AllocError>
        requires { out.old.items ≡ [] }
        ensures { OnOk result (out.new.items ≡ batch_bytes self.now) }
    {
        out.extend_from_slice(&self.header())?;
        put_rows(out, self.plan.width(), &self.ids, &self.registers)?;
        Ok(())
    }

    /// The batch that the bytes spell under a plan, whose job digest is that of the bytes, or the first check that
    /// fails.
    ///
    /// [`Short`](BatchError::Short) comes first for the fixed fields, and once more, after
    /// [`Count`](BatchError::Count), for the rows. The rows are checked one after the other, each for
    /// [`Vertex`](BatchError::Vertex), [`Order`](BatchError::Order) and [`Rank`](BatchError::Rank). Memory is asked for
    /// last: [`Memory`](BatchError::Memory) is answered only if the bytes spell a batch of the plan.
    pub fn decode(alloc: Global, plan: &Plan, bytes: &[u8]) -> Result<Batch, BatchError>
        // What is read is a batch of the plan with these bytes.
        ensures spelled { IfOk result (λ b. bytes.now ≡ batch_bytes b) }
        ensures of_plan { IfOk result (λ b. AgreesButJob plan.now b.plan) }
        ensures batch { IfOk result (λ b. IsBatch b) }
        // Each batch of the plan with these bytes is what is read.
        ensures only { (b : BatchValue) → IsBatch b → AgreesButJob plan.now b.plan
            → bytes.now ≡ batch_bytes b → GivesBatchOrMemory result (Ok b) }
        // Which refusal it is; memory is wanting only if bytes and plan give a batch.
        ensures exact { GivesBatchOrMemory result (batch_at plan.now bytes.now) }
    {
        let header = check(plan, bytes)?;
        Ok(read(alloc, plan, &header, bytes)?)
    }
}

/// The fixed fields of bytes that pass all checks, or the first that fails.
#[tactic(auto, unfolding(crate::specs::Reading::check_at))]
fn check(plan: &Plan, bytes: &[u8]) -> Result<Header, BatchError>
    ensures { result ≡ check_at plan.now bytes.now }
{
    if bytes.len() < HEADER_LEN {
        return Err(BatchError::Short);
    }
    let header = read_header(bytes);
    check_header(plan, &header)?;
    let (_, body) = bytes.split_at(HEADER_LEN);
    check_len(header.count as usize * (ID_LEN + plan.width()), body.len())?;
    check_body(plan, header.name.source, header.count, body)?;
    Ok(header)
}

/// The batch of bytes that passed all checks.
fn read(alloc: Global, plan: &Plan, header: &Header, bytes: &[u8]) -> Result<Batch, AllocError>
    requires { check_at plan.now bytes.now ≡ Ok header.now }
    ensures { IfOk result (λ b. b ≡ batch_from plan.now header.now
        (first_rows (2 ^ plan.now.log2m) header.now.count (drop HEADER_LEN bytes.now))) }
{
    let (_, body) = bytes.split_at(HEADER_LEN);
    let (ids, registers) = read_rows(alloc, plan.width(), header.count, body)?;
    Ok(Batch {
        plan: plan.with_job(header.job),
        name: header.name,
        changed: header.changed,
        ids,
        registers: Registers::Own(registers),
    })
}
