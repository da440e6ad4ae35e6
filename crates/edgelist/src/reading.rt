//! The labels and the edges that were read so far.

ghost use Rattle.std.specs.Prelude.{◌≡◌, ◌≢◌, ◌≤◌, ◌<◌, ◌+◌, ◌*◌, ◌++◌, ◌∷◌, [], ℕ, List, Result};
ghost use Rattle.std.specs.Prelude.{Err, IfErr, IfOk, Ok, OnOk, false, true, length, slice_index_or};
ghost use Rattle.std.specs.Prelude.{take};
ghost use Rattle.std.specs.List.{All};
ghost use Rattle.std.specs.List.Sorted.{IsPermutation};
ghost use Rattle.ball_model.specs.PlanValue.{most_vertices};
ghost use Rattle.ball_model.specs.Input.{IsPlain, Network, Refusal, has_form, most_records};
ghost use Rattle.ball_model.specs.Input.{network_from, records};
ghost use Rattle.graph.specs.Edges.{edge_of, graph_of_edges};
ghost use Rattle.edgelist.specs.declared.limits.EdgeError.TheVariants.{Memory};
ghost use Rattle.edgelist.specs.Guessing.{IsKey};
ghost use Rattle.edgelist.specs.Pieces.{AddsRecords, IsPartRead, IsThrough, ReadsOn};
ghost use Rattle.graph.specs.Records.{FromStart, byte_of};
ghost use Rattle.edgelist.specs.Records.{HasForm, ReadsNoneAfter, ReadsOneAfter};
ghost use Rattle.graph.specs.Making.{AddsEdge};
ghost use Rattle.edgelist.specs.Reading.{AddsRecord, AreWithin, EndsAtEnd, EndsAtFault};
ghost use Rattle.graph.specs.Labels.{has_label, with_label};
ghost use Rattle.edgelist.specs.Reading.{Exceeds, Refuses, Stops, limits_of, network_by};

use crate::cut::Cut;
use crate::key::LabelKey;
use crate::limits::{EdgeError, EdgeLimits, EdgeList, read_answer};
use crate::numbering::Numbering;
use crate::row::Row;
use crate::watch::{ReadWatch, Unwatched};
use csv::Reader;
use graph::{Delimiter, Edge, Graph, reader_of, sort_parts};
use std::alloc::{AllocError, AllocGlobal, Global};
use std::hash::RandomState;
use std::io::Read;
use std::thread::Threads;

// The watch is called each time that this many records more were added.
const TOLD_EACH: u64 = 1_024;

/// How an edge list is read by one thread.
#[derive(Drop)]
pub(crate) struct Sequential<'a, W> {
    /// It is called as records are added, with their number so far.
    pub(crate) watch: &'a W,
    pub(crate) delimiter: Delimiter,
    pub(crate) limits: EdgeLimits,
}

// For how many records the entries of their labels are looked at at once.
const AHEAD: usize = 32;

// The most edges of a small list.
const FEW: usize = 1 << 18;

// This many edges take 32 MiB. The C library asks the kernel for a block of that size, which then
// grows without a copy.
const MANY: usize = 1 << 22;

/// Some lines of an edge list, and what is between the fields of each.
#[derive(Clone, Copy)]
pub(crate) struct Lines<'a> {
    pub(crate) bytes: &'a [u8],
    pub(crate) delimiter: Delimiter,
}

// A label and its key.
#[derive(Clone, Copy)]
struct Field<'a> {
    label: &'a [u8],
    key: LabelKey,
}

/// The labels so far, numbered by first appearance, and the edges.
pub(crate) struct Reading {
    labels: Numbering,
    edges: Vec<Edge>,
}

// Written out, since the checker reads a derived one again at each place where a value is dropped.
impl Drop for Reading {
    fn drop(self) {
        let Reading {
            labels: _,
            edges: _,
        } = self;
    }
}

// Reads at most `most` records that have the form of one, and then one more. Reading stops at a row without that form.
// Returns how many rows are sure to have it, and whether one more was read.
fn read_rows<R: Read + Drop>(
    reader: &mut Reader<R>,
    rows: &mut [Row],
    most: usize,
) -> Result<(usize, bool), EdgeError>
    requires { most < length rows.old }
    ensures few { IfOk result (λ r. r.0 ≤ most) }
    ensures form { IfOk result (λ r. All HasForm (take r.0 rows.new)) }
    ensures one { IfOk result (λ r. r.1 ≡ true → ReadsOneAfter R.remaining reader.old reader.new
        (take r.0 rows.new) (slice_index_or rows.new r.0 [])) }
    ensures end { IfOk result (λ r. r.1 ≡ false →
        ReadsNoneAfter R.remaining reader.old reader.new (take r.0 rows.new)) }
    ensures failed { IfErr result (λ e. (says : Result Network Refusal) → Refuses says e) }
{
    for i in 0..most {
        let more = rows[i].read(reader)?;
        if !more {
            return Ok((i, false));
        }
        if !rows[i].has_form() {
            return Ok((i, true));
        }
    }
    let more = rows[most].read(reader)?;
    Ok((most, more))
}

// Adds the edge from a source to a target.
fn push_edge(edges: &mut Vec<Edge>, target: u32, source: u32) -> Result<(), AllocError>
    ensures { OnOk result (edges.new.items ≡ edges.old.items ++ edge_of target source ∷ []) }
{
    edges.push(Edge { target, source })?;
    Ok(())
}

// The capacity of a table for this many edges.
fn capacity_for(edges: usize) -> usize {
    if edges <= FEW { edges } else { edges.max(MANY) }
}

impl Reading {
    /// No labels and no edges.
    pub(crate) fn new(alloc: Global, state: RandomState) -> Result<Reading, AllocError>
        ensures labels { IfOk result (λ r. r.labels ≡ []) }
        ensures edges { IfOk result (λ r. r.edges.items ≡ []) }
    {
        Ok(Reading {
            labels: Numbering::new(alloc, state)?,
            edges: Vec::new(alloc),
        })
    }

    // The allocator of its memory.
    fn alloc(&self) -> Global {
        *self.edges.allocator()
    }

    // The number of a label. A label too many for the limit is refused, though it was numbered.
    fn add_label(&mut self, field: Field<'_>, vertices: u32) -> Result<usize, EdgeError>
        requires { IsKey field.label.now field.key }
        ensures labels { OnOk result (
            self.new.labels ≡ with_label self.old.labels field.entry.label.now) }
        ensures edges { self.new.edges.items ≡ self.old.edges.items }
        ensures few { OnOk result (length self.new.labels ≤ vertices) }
        ensures within { IfOk result (λ i. i < length self.new.labels) }
        ensures stands { IfOk result (λ i.
            slice_index_or self.new.labels i [] ≡ field.entry.label.now) }
        ensures exceeds { IfErr result (
            Exceeds vertices (with_label self.old.labels field.entry.label.now)) }
        ensures known { has_label self.old.labels field.entry.label.now ≡ true →
            result ≢ Err EdgeError.Memory }
        ensures kept { result ≡ Err EdgeError.Memory → self.new.labels ≡ self.old.labels }
    {
        let alloc = self.alloc();
        let number = self.labels.number(alloc, field.label, field.key)?;
        if self.labels.len() > vertices as usize {
            return Err(EdgeError::TooManyVertices);
        }
        Ok(number)
    }

    // Adds the label of a record of one field.
    fn add_vertex(&mut self, field: Field<'_>, vertices: u32) -> Result<(), EdgeError>
        requires { IsKey field.label.now field.key }
        ensures labels { OnOk result (
            self.new.labels ≡ with_label self.old.labels field.entry.label.now) }
        ensures edges { OnOk result (self.new.edges.items ≡ self.old.edges.items) }
        ensures few { OnOk result (length self.new.labels ≤ vertices) }
        ensures exceeds { IfErr result (
            Exceeds vertices (with_label self.old.labels field.entry.label.now)) }
        ensures kept { result ≡ Err EdgeError.Memory → self.new.labels ≡ self.old.labels }
        ensures memory { result ≡ Err EdgeError.Memory →
            length self.old.labels ≤ vertices → length self.new.labels ≤ vertices }
    {
        self.add_label(field, vertices)?;
        Ok(())
    }

    // Adds the labels of a record of two fields, and its edge. A source too many is refused before
    // the target is numbered.
    fn add_edge(
        &mut self,
        source: Field<'_>,
        target: Field<'_>,
        vertices: u32,
    ) -> Result<(), EdgeError>
        requires source { IsKey source.label.now source.key }
        requires target { IsKey target.label.now target.key }
        ensures adds { OnOk result (AddsEdge source.entry.label.now target.entry.label.now
            self.old.labels self.old.edges.items self.new.labels self.new.edges.items) }
        ensures few { OnOk result (length self.new.labels ≤ vertices) }
        ensures exceeds { IfErr result (Exceeds vertices (with_label
            (with_label self.old.labels source.entry.label.now) target.entry.label.now)) }
        ensures both { result ≡ Err EdgeError.Memory → self.new.labels ≡
            with_label (with_label self.old.labels source.entry.label.now) target.entry.label.now →
            length self.new.labels ≤ vertices }
        ensures memory { result ≡ Err EdgeError.Memory →
            length self.old.labels ≤ vertices → length self.new.labels ≤ vertices }
    {
        let from = self.add_label(source, vertices)?;
        let to = self.add_label(target, vertices)?;
        push_edge(&mut self.edges, to as u32, from as u32)?;
        Ok(())
    }

    /// Adds the record that follows `number` others.
    pub(crate) fn add(
        &mut self,
        row: &Row,
        number: u64,
        limits: EdgeLimits,
    ) -> Result<(), EdgeError>
        ensures adds { OnOk result (AddsRecord (limits_of limits) number row.now
            self.old.labels self.old.edges.items self.new.labels self.new.edges.items) }
        ensures fewer { OnOk result (number < limits.edges) }
        ensures many { limits.edges ≤ number → result ≡ Err EdgeError.TooManyEdges }
        ensures form { number < limits.edges → has_form row.now ≡ false →
            result ≡ Err (EdgeError.Fields (number + 1)) }
        ensures stops { IfErr result (Stops (limits_of limits) number row.now
            self.old.labels self.old.edges.items) }
        ensures memory { result ≡ Err EdgeError.Memory →
            length self.old.labels ≤ limits.vertices → length self.new.labels ≤ limits.vertices }
        ensures grows { OnOk result (length self.new.labels ≤ length self.old.labels + 2) }
        ensures room { number < limits.edges → has_form row.now ≡ true →
            length self.old.labels + 2 ≤ limits.vertices → IfErr result (λ e. e ≡ Memory) }
    {
        if number >= limits.edges {
            return Err(EdgeError::TooManyEdges);
        }
        let Some((source, target)) = row.labels() else {
            return Err(EdgeError::Fields { number: number + 1 });
        };
        let source = Field {
            label: source,
            key: row.source_key(),
        };
        match target {
            None => self.add_vertex(source, limits.vertices),
            Some(target) => {
                let target = Field {
                    label: target,
                    key: row.target_key(),
                };
                self.add_edge(source, target, limits.vertices)
            }
        }
    }
}

impl Reading {
    // Adds records that follow `number` others, each of which has the form of one; there is room
    // for all their labels.
    fn add_each(&mut self, rows: &[Row], number: u64, limits: EdgeLimits) -> Result<(), EdgeError>
        requires few { limits.edges ≤ most_records }
        requires form { All HasForm rows.now }
        requires number { number + length rows.now ≤ limits.edges }
        requires room { length self.old.labels + 2 * length rows.now ≤ limits.vertices }
        ensures adds { OnOk result (AddsRecords (limits_of limits) number rows.now
            self.old.labels self.old.edges.items self.new.labels self.new.edges.items) }
        ensures memory { IfErr result (λ e. e ≡ Memory) }
    {
        for i in 0..rows.len() {
            self.add(&rows[i], number + i as u64, limits)?;
        }
        Ok(())
    }

    // Adds record i of those that were cut, which follows `number` others; there is room for it and
    // its labels.
    fn add_one_cut(
        &mut self,
        cut: &Cut,
        i: usize,
        number: u64,
        limits: EdgeLimits,
    ) -> Result<(), EdgeError>
        requires place { i < length cut.now }
        requires number { number < limits.edges }
        requires room { length self.old.labels + 2 ≤ limits.vertices }
        ensures adds { OnOk result (AddsRecord (limits_of limits) number
            (slice_index_or cut.now i []) self.old.labels self.old.edges.items
            self.new.labels self.new.edges.items) }
        ensures grows { OnOk result (length self.new.labels ≤ length self.old.labels + 2) }
        ensures memory { IfErr result (λ e. e ≡ Memory) }
    {
        let (source, target) = cut.labels(i);
        let (source_key, target_key) = cut.keys(i);
        let source = Field {
            label: source,
            key: source_key,
        };
        match target {
            None => self.add_vertex(source, limits.vertices),
            Some(target) => {
                let target = Field {
                    label: target,
                    key: target_key,
                };
                self.add_edge(source, target, limits.vertices)
            }
        }
    }

    /// Makes room for `count` edges more, if there is memory; else an edge makes it when it is
    /// added. Rooms are powers of 2.
    pub(crate) fn make_room(&mut self, count: usize)
        ensures labels { self.new.labels ≡ self.old.labels }
        ensures edges { self.new.edges.items ≡ self.old.edges.items }
    {
        let len = self.edges.len();
        if let Some(room) = capacity_for(len.saturating_add(count)).checked_next_power_of_two() {
            let _room = self.edges.reserve(room.saturating_sub(len));
        }
    }

    // Looks at the entries of the labels of the records from i on, if i is a multiple of `AHEAD`.
    fn look_ahead_from(&mut self, cut: &Cut, i: usize)
        ensures labels { self.new.labels ≡ self.old.labels }
        ensures edges { self.new.edges.items ≡ self.old.edges.items }
    {
        if i % AHEAD == 0 {
            let alloc = self.alloc();
            let records = cut.records();
            if i < records.len() {
                let end = records.len().min(i + AHEAD);
                self.labels.look_ahead_cut(alloc, &records[i..end]);
            }
        }
    }

    /// Adds records that were cut and follow `number` others; there is room for all of them and
    /// their labels.
    pub(crate) fn add_cut(
        &mut self,
        cut: &Cut,
        number: u64,
        limits: EdgeLimits,
    ) -> Result<(), EdgeError>
        requires few { limits.edges ≤ most_records }
        requires number { number + length cut.now ≤ limits.edges }
        requires room { length self.old.labels + 2 * length cut.now ≤ limits.vertices }
        ensures adds { OnOk result (AddsRecords (limits_of limits) number cut.now
            self.old.labels self.old.edges.items self.new.labels self.new.edges.items) }
        ensures memory { IfErr result (λ e. e ≡ Memory) }
    {
        for i in 0..cut.len() {
            self.look_ahead_from(cut, i);
            self.add_one_cut(cut, i, number + i as u64, limits)?;
        }
        Ok(())
    }

    /// Whether `count` records can be added after `number` others without passing a limit, even if
    /// all their labels are new and differ.
    pub(crate) fn has_room(&self, count: usize, number: u64, limits: EdgeLimits) -> bool
        requires number { number ≤ limits.edges }
        requires labels { length self.now.labels ≤ limits.vertices }
        ensures number { result ≡ true → number + count ≤ limits.edges }
        ensures room { result ≡ true → length self.now.labels + 2 * count ≤ limits.vertices }
    {
        self.room_for(count, number, limits) >= count
    }

    // `most`, if that many records of the right form can be added after `number` others without
    // passing a limit, even if all their labels are new and differ; else 0: then records are read
    // and added one at a time, so that none is asked for after the one that is refused.
    fn room_for(&self, most: usize, number: u64, limits: EdgeLimits) -> usize
        requires number { number ≤ limits.edges }
        requires labels { length self.now.labels ≤ limits.vertices }
        ensures most { result ≤ most }
        ensures number { number + result ≤ limits.edges }
        ensures room { length self.now.labels + 2 * result ≤ limits.vertices }
    {
        let labels = (limits.vertices as usize - self.labels.len()) / 2;
        if most <= labels && most as u64 <= limits.edges - number {
            most
        } else {
            0
        }
    }

    // Reads and adds records that follow `number` others, at most as many as there are rows.
    // Returns how many there are then, and whether there may be more. The entries of their labels
    // are looked at before the first is added, so that no look waits for another. Only the last
    // record that is read can be refused.
    fn read_some<R: Read + Drop>(
        &mut self,
        reader: &mut Reader<R>,
        rows: &mut [Row],
        number: u64,
        limits: EdgeLimits,
    ) -> Result<(u64, bool), EdgeError>
        requires rows { 0 < length rows.old }
        requires few { limits.edges ≤ most_records }
        requires number { number ≤ limits.edges }
        requires within { AreWithin limits.vertices number self.old.labels self.old.edges.items }
        ensures number { IfOk result (λ r. r.0 ≤ limits.edges) }
        ensures later { IfOk result (λ r. r.1 ≡ true → number < r.0) }
        ensures within { IfOk result (λ r.
            AreWithin limits.vertices r.0 self.new.labels self.new.edges.items) }
        ensures reads { (d : ℕ) (text : List ℕ) (before : List (List (List ℕ))) →
            IsPartRead R.remaining d (limits_of limits) number before text reader.old
            self.old.labels self.old.edges.items →
            ReadsOn R.remaining d (limits_of limits) before text result reader.new
            self.new.labels self.new.edges.items }
    {
        let most = self.room_for(rows.len() - 1, number, limits);
        let (count, more) = read_rows(reader, rows, most)?;
        let alloc = self.alloc();
        self.labels.look_ahead(alloc, &rows[..count]);
        self.add_each(&rows[..count], number, limits)?;
        let number = number + count as u64;
        if !more {
            return Ok((number, false));
        }
        self.add(&rows[count], number, limits)?;
        Ok((number + 1, true))
    }
}

impl Reading {
    /// Adds all records that are left, which follow `number` others, some at a time, and returns
    /// how many there are then; the watch is called meanwhile. At most one more than the limit is
    /// asked for, and none after one that is refused. After the end the reader is as left by a read
    /// that found no record more; no clause says whether such a read was made once or twice (csv's
    /// contract says nothing of a reader at its end).
    pub(crate) fn read_more<R: Read + Drop, W: ReadWatch>(
        &mut self,
        reader: &mut Reader<R>,
        rows: &mut [Row],
        number: u64,
        how: &Sequential<'_, W>,
    ) -> Result<u64, EdgeError>
        requires rows { 0 < length rows.old }
        requires few { how.now.limits.edges ≤ most_records }
        requires number { number ≤ how.now.limits.edges }
        requires within { AreWithin how.now.limits.vertices number
            self.old.labels self.old.edges.items }
        ensures number { IfOk result (λ n. n ≤ how.now.limits.edges) }
        ensures within { IfOk result (λ n.
            AreWithin how.now.limits.vertices n self.new.labels self.new.edges.items) }
        ensures ok { FromStart R.remaining reader.old (λ rs. (before : List (List (List ℕ))) →
            IsThrough (limits_of how.now.limits) number before
            self.old.labels self.old.edges.items →
            IfOk result (λ n. IsThrough (limits_of how.now.limits) n (before ++ rs)
            self.new.labels self.new.edges.items)) }
        ensures refused { FromStart R.remaining reader.old (λ rs.
            (before more : List (List (List ℕ))) →
            IsThrough (limits_of how.now.limits) number before
            self.old.labels self.old.edges.items →
            IfErr result (Refuses (network_from (limits_of how.now.limits)
            (before ++ (rs ++ more))))) }
        ensures last { (before : List (List (List ℕ))) →
            IsThrough (limits_of how.now.limits) number before
            self.old.labels self.old.edges.items →
            EndsAtEnd R.remaining reader.old reader.new result }
        ensures ends { IsThrough (limits_of how.now.limits) number []
            self.old.labels self.old.edges.items →
            EndsAtFault R.remaining reader.old reader.new (limits_of how.now.limits) result }
    {
        let mut n = number;
        for _turn in number..how.limits.edges + 1 {
            let (so_far, more) = self.read_some(reader, rows, n, how.limits)?;
            if !more {
                return Ok(so_far);
            }
            how.tell(n, so_far);
            n = so_far;
        }
        Err(EdgeError::TooManyEdges)
    }

    // The graph that was read. The set of labels is dropped before the lists are made.
    fn into_graph(self, alloc: Global) -> Result<Graph, AllocError>
        requires within { AreWithin most_vertices most_records self.labels self.edges.items }
        ensures graph { IfOk result (λ g.
            g.graph ≡ graph_of_edges (length self.labels) self.edges.items) }
        ensures labels { IfOk result (λ g. g.labels ≡ self.labels) }
    {
        let Reading { labels, edges } = self;
        let labels = labels.into_labels(alloc)?;
        Graph::of_edges(alloc, labels, edges)
    }

    /// The edge list that was read, of `number` records.
    pub(crate) fn into_list(self, alloc: Global, number: u64) -> Result<EdgeList, EdgeError>
        requires within { AreWithin most_vertices most_records self.labels self.edges.items }
        ensures graph { IfOk result (λ list.
            list.graph ≡ network_by self.labels self.edges.items) }
        ensures number { IfOk result (λ list. list.records ≡ number) }
        ensures memory { IfErr result (λ e. e ≡ Memory) }
    {
        let graph = self.into_graph(alloc)?;
        Ok(EdgeList {
            graph,
            records: number,
        })
    }
}

impl Reading {
    /// Adds the records of some lines, which follow `number` others, and returns how many there are
    /// then.
    pub(crate) fn read_lines(
        &mut self,
        alloc: Global,
        rows: &mut [Row],
        lines: Lines<'_>,
        number: u64,
        limits: EdgeLimits,
    ) -> Result<u64, EdgeError>
        requires rows { 0 < length rows.old }
        requires few { limits.edges ≤ most_records }
        requires number { number ≤ limits.edges }
        requires within { AreWithin limits.vertices number self.old.labels self.old.edges.items }
        ensures number { IfOk result (λ n. n ≤ limits.edges) }
        ensures within { IfOk result (λ n.
            AreWithin limits.vertices n self.new.labels self.new.edges.items) }
        ensures ok { (before : List (List (List ℕ))) → IsPlain lines.entry.bytes.now →
            IsThrough (limits_of limits) number before self.old.labels self.old.edges.items →
            IfOk result (λ n. IsThrough (limits_of limits) n
            (before ++ records (byte_of lines.entry.delimiter) lines.entry.bytes.now)
            self.new.labels self.new.edges.items) }
        ensures refused { (before more : List (List (List ℕ))) → IsPlain lines.entry.bytes.now →
            IsThrough (limits_of limits) number before self.old.labels self.old.edges.items →
            IfErr result (Refuses (network_from (limits_of limits) (before ++
            (records (byte_of lines.entry.delimiter) lines.entry.bytes.now ++ more)))) }
        ensures read { result ≢ Err EdgeError.Read }
    {
        let mut reader = reader_of(alloc, lines.bytes, lines.delimiter);
        let how = Sequential {
            watch: &Unwatched,
            delimiter: lines.delimiter,
            limits,
        };
        let read = self.read_more(&mut reader, rows, number, &how);
        // no call fails of lines in memory
        read_answer(read, false)
    }
}

impl Reading {
    // Sorts the edges, with this number of threads.
    fn sort_by<R: Threads + Sync>(&mut self, rt: &R, threads: usize)
        ensures labels { self.new.labels ≡ self.old.labels }
        ensures edges { IsPermutation self.old.edges.items self.new.edges.items }
        ensures len { length self.new.edges.items ≡ length self.old.edges.items }
    {
        sort_parts(rt, &mut self.edges, threads);
    }

    // The graph that `into_graph` returns, with this number of threads.
    fn into_graph_by<R: AllocGlobal + Threads + Sync>(
        self,
        rt: &R,
        threads: usize,
    ) -> Result<Graph, AllocError>
        requires within { AreWithin most_vertices most_records self.labels self.edges.items }
        ensures graph { IfOk result (λ g.
            g.graph ≡ graph_of_edges (length self.labels) self.edges.items) }
        ensures labels { IfOk result (λ g. g.labels ≡ self.labels) }
    {
        let Reading { labels, edges } = self;
        let labels = labels.into_labels(rt.alloc())?;
        Graph::of_edges_by(rt, rt.alloc(), labels, edges, threads)
    }

    /// The edge list that was read, of `number` records, whose edges `threads` threads sort and
    /// code.
    pub(crate) fn into_list_by<R: AllocGlobal + Threads + Sync>(
        mut self,
        rt: &R,
        number: u64,
        threads: usize,
    ) -> Result<EdgeList, EdgeError>
        requires within { AreWithin most_vertices most_records self.labels self.edges.items }
        ensures graph { IfOk result (λ list.
            list.graph ≡ network_by self.labels self.edges.items) }
        ensures number { IfOk result (λ list. list.records ≡ number) }
        ensures memory { IfErr result (λ e. e ≡ Memory) }
    {
        self.sort_by(rt, threads);
        let graph = self.into_graph_by(rt, threads)?;
        Ok(EdgeList {
            graph,
            records: number,
        })
    }
}

impl<'a, W: ReadWatch> Sequential<'a, W> {
    /// Calls the watch if the number of records has passed a multiple of 1,024: it was `before`,
    /// and is `number` now.
    pub(crate) fn tell(&self, before: u64, number: u64) {
        if number / TOLD_EACH > before / TOLD_EACH {
            self.watch.while_read(number);
        }
    }
}
