//! Edge lists that are read piece by piece: threads cut the records of some pieces into fields,
//! while one adds those of the pieces before, in order.

ghost use Rattle.std.specs.Prelude.{◌≡◌, ◌≢◌, ◌<◌, ◌≤◌, ◌++◌, ℕ, List, Result, length, slice_index_or};
ghost use Rattle.std.specs.Prelude.{Err, IfErr, IfOk, IsOk, Ok, OnOk, false, true};
ghost use Rattle.std.specs.List.{All, flat_map};
ghost use Rattle.std.specs.Thread.{IsSync};
ghost use Rattle.ball_model.specs.Input.{Network, Refusal, most_records, network_from, records};
ghost use Rattle.ball_model.specs.PlanValue.{most_vertices};
ghost use Rattle.edgelist.specs.Pieces.{IsDone, IsOn, IsThrough};
ghost use Rattle.graph.specs.Records.{byte_of, ForPlain};
ghost use Rattle.edgelist.specs.Reading.{AreWithin, CountsOne, IsClean, Refuses, limits_of};
ghost use Rattle.edgelist.specs.Reading.{meaning_within};
ghost use Rattle.edgelist.specs.Rounds.{AreBegun, AreOn, IsBegun, IsSameText, has_no_lines};
ghost use Rattle.edgelist.specs.Rounds.{has_plain_lines, records_of};
ghost use Rattle.edgelist.specs.declared.piece.Piece.{Piece};

use crate::limits::{EdgeError, EdgeLimits, EdgeList, read_answer};
use crate::piece::{Amount, Gives, Held, LEAST, Piece};
use crate::reading::Reading;
use crate::watch::ReadWatch;
use ball_model::CountedRead;
use graph::Delimiter;
use std::alloc::{AllocError, AllocGlobal, Global};
use std::hash::RandomState;
use std::thread::Threads;
use std::{mem, thread};

/// The bytes of a piece, at most.
pub(crate) const PIECE: usize = 131_072;

// How many pieces are cut side by side at most.
const MOST_PIECES: usize = 8;

// Adds the records of pieces in their order, which follow `number` others, and returns how many
// there are then.
fn add_pieces(
    alloc: Global,
    reading: &mut Reading,
    pieces: &[Piece],
    number: u64,
    limits: EdgeLimits,
) -> Result<u64, EdgeError>
    requires few { limits.edges ≤ most_records }
    requires number { number ≤ limits.edges }
    requires within { AreWithin limits.vertices number
        reading.old.labels reading.old.edges.items }
    ensures number { IfOk result (λ n. n ≤ limits.edges) }
    ensures within { IfOk result (λ n. AreWithin limits.vertices n
        reading.new.labels reading.new.edges.items) }
    ensures ok { (before : List (List (List ℕ))) → All has_plain_lines pieces.now →
        IsThrough (limits_of limits) number before reading.old.labels reading.old.edges.items →
        IfOk result (λ n. IsThrough (limits_of limits) n
        (before ++ flat_map records_of pieces.now) reading.new.labels reading.new.edges.items) }
    ensures refused { (before more : List (List (List ℕ))) → All has_plain_lines pieces.now →
        IsThrough (limits_of limits) number before reading.old.labels reading.old.edges.items →
        IfErr result (Refuses (network_from (limits_of limits)
        (before ++ (flat_map records_of pieces.now ++ more)))) }
    ensures read { result ≢ Err EdgeError.Read }
{
    let mut n = number;
    for i in 0..pieces.len() {
        n = pieces[i].add_to(alloc, reading, n, limits)?;
    }
    Ok(n)
}

// How many records of some pieces were cut.
fn count(pieces: &[Piece]) -> usize {
    let mut count = 0usize;
    for piece in pieces {
        count = count.saturating_add(piece.len());
    }
    count
}

// How many bytes piece i of a round takes. The first waits for some, and the others take what is
// there.
fn amount_of(i: usize, size: usize) -> Amount {
    let least = if i == 0 { LEAST.min(size) } else { 0 };
    Amount { least, most: size }
}

// Fills a piece with the next lines of a reader, if its last call gave as much as was asked for,
// and returns what the last one gave then. Else the piece has no lines, no call is made, and the
// result is that of the piece before.
fn fill_next<S: CountedRead>(
    piece: &mut Piece,
    reader: &mut S,
    held: &mut Held,
    delimiter: Delimiter,
    amount: Amount,
    filled: Result<Gives, EdgeError>,
) -> Result<Gives, EdgeError>
    ensures on { (text : List ℕ) (done : List (List (List ℕ))) →
        OnOk filled (IsOn (byte_of delimiter) text done held.old.bytes.items
        (S.remaining reader.old)) →
        OnOk result (IsOn (byte_of delimiter) text (done ++ records_of piece.new)
        held.new.bytes.items (S.remaining reader.new)) }
    ensures begun { (text : List ℕ) (done : List (List (List ℕ))) →
        OnOk filled (IsOn (byte_of delimiter) text done held.old.bytes.items
        (S.remaining reader.old)) → IsBegun (byte_of delimiter) text done →
        IsBegun (byte_of delimiter) text (done ++ records_of piece.new) }
    ensures plain { (text : List ℕ) (done : List (List (List ℕ))) →
        OnOk filled (IsOn (byte_of delimiter) text done held.old.bytes.items
        (S.remaining reader.old)) → has_plain_lines piece.new }
    ensures end { IfOk filled (λ gives. gives ≡ Gives.Nothing →
        IsDone held.old.bytes.items (S.remaining reader.old)) →
        IfOk result (λ gives. gives ≡ Gives.Nothing →
        IsDone held.new.bytes.items (S.remaining reader.new)) }
    ensures failed { IfErr filled (λ e. (says : Result Network Refusal) → Refuses says e) →
        IfErr result (λ e. (says : Result Network Refusal) → Refuses says e) }
    ensures stays { filled ≢ Ok Gives.Much → result ≡ filled }
    ensures quiet { filled ≢ Ok Gives.Much → reader.new ≡ reader.old }
{
    match filled {
        Ok(Gives::Much) => piece.fill(reader, held, delimiter, amount),
        Ok(Gives::Little | Gives::Nothing) | Err(_) => {
            piece.clear();
            filled
        }
    }
}

// Fills pieces with the next lines of a reader, and returns what its last call gave. Once one gave
// less than was asked for, or a piece could not be filled, the pieces from there on have no lines.
fn fill_pieces<S: CountedRead>(
    pieces: &mut [Piece],
    reader: &mut S,
    held: &mut Held,
    delimiter: Delimiter,
    size: usize,
) -> Result<Gives, EdgeError>
    requires { 0 < length pieces.old }
    ensures on { (text : List ℕ) (done : List (List (List ℕ))) →
        IsOn (byte_of delimiter) text done held.old.bytes.items (S.remaining reader.old) →
        OnOk result (IsOn (byte_of delimiter) text (done ++ flat_map records_of pieces.new)
        held.new.bytes.items (S.remaining reader.new)) }
    ensures begun { (text : List ℕ) (done : List (List (List ℕ))) →
        IsOn (byte_of delimiter) text done held.old.bytes.items (S.remaining reader.old) →
        IsBegun (byte_of delimiter) text (done ++ flat_map records_of pieces.new) }
    ensures plain { (text : List ℕ) (done : List (List (List ℕ))) →
        IsOn (byte_of delimiter) text done held.old.bytes.items (S.remaining reader.old) →
        All has_plain_lines pieces.new }
    ensures end { IfOk result (λ gives. gives ≡ Gives.Nothing →
        IsDone held.new.bytes.items (S.remaining reader.new)) }
    ensures failed { IfErr result (λ e. (says : Result Network Refusal) → Refuses says e) }
{
    let mut filled = Ok(Gives::Much);
    for i in 0..pieces.len() {
        let amount = amount_of(i, size);
        filled = fill_next(&mut pieces[i], reader, held, delimiter, amount, filled);
    }
    filled
}

// Whether a round in which pieces were filled with this result is the last.
fn is_last(filled: Result<Gives, EdgeError>) -> bool
    ensures last { result ≡ true → IfOk filled (λ gives. gives ≡ Gives.Nothing) }
    ensures goes { result ≡ false → IsOk filled }
    ensures end { filled ≡ Ok Gives.Nothing → result ≡ true }
{
    match filled {
        Ok(gives) => gives == Gives::Nothing,
        Err(_) => true,
    }
}

// The answer of the last pieces: why one of their records was not added, or else why no more could
// be filled.
fn told_last(
    added: Result<u64, EdgeError>,
    filled: Result<Gives, EdgeError>,
) -> Result<u64, EdgeError>
    ensures added { IfErr added (λ e. result ≡ Err e) }
    ensures filled { IfOk added (λ _. IfErr filled (λ e. result ≡ Err e)) }
    ensures ok { IfOk added (λ n. IfOk filled (λ _. result ≡ Ok n)) }
{
    let n = added?;
    filled?;
    Ok(n)
}

// Adds the records of the last pieces that were filled, which follow `number` others, and only then
// reports why no more could be filled.
fn add_last(
    alloc: Global,
    reading: &mut Reading,
    pieces: &[Piece],
    number: u64,
    limits: EdgeLimits,
    filled: Result<Gives, EdgeError>,
) -> Result<u64, EdgeError>
    requires few { limits.edges ≤ most_records }
    requires number { number ≤ limits.edges }
    requires within { AreWithin limits.vertices number
        reading.old.labels reading.old.edges.items }
    requires failed { IfErr filled (λ e. (says : Result Network Refusal) → Refuses says e) }
    ensures number { IfOk result (λ n. n ≤ limits.edges) }
    ensures within { IfOk result (λ n. AreWithin limits.vertices n
        reading.new.labels reading.new.edges.items) }
    ensures filled { OnOk result (IsOk filled) }
    ensures ok { (before : List (List (List ℕ))) → All has_plain_lines pieces.now →
        IsThrough (limits_of limits) number before reading.old.labels reading.old.edges.items →
        IfOk result (λ n. IsThrough (limits_of limits) n
        (before ++ flat_map records_of pieces.now) reading.new.labels reading.new.edges.items) }
    ensures refused { (before more : List (List (List ℕ))) → All has_plain_lines pieces.now →
        IsThrough (limits_of limits) number before reading.old.labels reading.old.edges.items →
        IfErr result (Refuses (network_from (limits_of limits)
        (before ++ (flat_map records_of pieces.now ++ more)))) }
    ensures read { (before : List (List (List ℕ))) → All has_plain_lines pieces.now →
        IsThrough (limits_of limits) number before reading.old.labels reading.old.edges.items →
        result ≡ Err EdgeError.Read →
        IsClean (limits_of limits) (before ++ flat_map records_of pieces.now) }
{
    let added = add_pieces(alloc, reading, pieces, number, limits);
    told_last(added, filled)
}

// The bytes of a piece after `number` records: few at first, so that the pieces of a short list
// take little memory.
fn size_after(number: u64) -> usize {
    match number {
        0..=131_071 => 16_384,
        131_072..=262_143 => 32_768,
        262_144..=524_287 => 65_536,
        _ => PIECE,
    }
}

// How many pieces a round has: at least one, and no more than there are threads to cut them.
fn pieces_in_round(threads: usize) -> usize
    requires { 2 ≤ threads }
    ensures some { 0 < result }
    ensures few { result < threads }
{
    MOST_PIECES.min(threads - 1)
}

// Pieces with no lines.
fn pieces_for(alloc: Global, delimiter: Delimiter, count: usize) -> Result<Vec<Piece>, AllocError>
    ensures none { IfOk result (λ pieces. All has_no_lines pieces.items) }
    ensures count { IfOk result (λ pieces. length pieces.items ≡ count) }
{
    let mut pieces = Vec::with_capacity(alloc, count)?;
    for _i in 0..count {
        pieces.push(Piece::new(alloc, delimiter))?;
    }
    Ok(pieces)
}

/// How an edge list is read piece by piece.
#[derive(Drop)]
pub(crate) struct Rounds<'a, R, W> {
    pub(crate) rt: &'a R,
    /// It is called after each round but the last with the number of records so far, once there are
    /// some.
    pub(crate) watch: &'a W,
    pub(crate) delimiter: Delimiter,
    pub(crate) limits: EdgeLimits,
    /// The bytes of a piece, at most.
    pub(crate) size: usize,
    /// One adds records, and the others cut them.
    pub(crate) threads: usize,
}

impl<'a, R: AllocGlobal + Threads + Sync, W: ReadWatch> Rounds<'a, R, W> {
    // Adds the records of some pieces, which follow `number` others, while those of others are cut.
    // Room for the edges is made before the other threads take memory: a table that grows then
    // stays where it is more often.
    fn add_and_cut(
        &self,
        reading: &mut Reading,
        number: u64,
        pieces: &[Piece],
        coming: &mut [Piece],
    ) -> Result<u64, EdgeError>
        requires threads { 2 ≤ self.now.threads }
        requires few { self.now.limits.edges ≤ most_records }
        requires number { number ≤ self.now.limits.edges }
        requires within { AreWithin self.now.limits.vertices number
            reading.old.labels reading.old.edges.items }
        ensures cut { (i : ℕ) (d : Piece) → i < length coming.old →
            IsSameText (slice_index_or coming.old i d) (slice_index_or coming.new i d) }
        ensures number { IfOk result (λ n. n ≤ self.now.limits.edges) }
        ensures within { IfOk result (λ n. AreWithin self.now.limits.vertices n
            reading.new.labels reading.new.edges.items) }
        ensures ok { (before : List (List (List ℕ))) → All has_plain_lines pieces.now →
            IsThrough (limits_of self.now.limits) number before
            reading.old.labels reading.old.edges.items →
            IfOk result (λ n. IsThrough (limits_of self.now.limits) n
            (before ++ flat_map records_of pieces.now)
            reading.new.labels reading.new.edges.items) }
        ensures refused { (before more : List (List (List ℕ))) → All has_plain_lines pieces.now →
            IsThrough (limits_of self.now.limits) number before
            reading.old.labels reading.old.edges.items →
            IfErr result (Refuses (network_from (limits_of self.now.limits)
            (before ++ (flat_map records_of pieces.now ++ more)))) }
        ensures read { result ≢ Err EdgeError.Read }
    {
        let (rt, limits, cutting) = (self.rt, self.limits, self.threads - 1);
        let alloc = rt.alloc();
        reading.make_room(count(pieces));
        let mut cut = ||
            requires { IsSync R.row × (0 < cutting) }
            ensures { (i : ℕ) (d : Piece) → i < length coming.entry.now → IsSameText
                (slice_index_or coming.entry.now i d) (slice_index_or coming.exit.now i d) }
        {
            thread::for_each_mut(
                rt,
                coming,
                cutting,
                &|_, piece: &mut Piece| piece.cut(alloc),
            );
        };
        let mut add = || add_pieces(alloc, reading, pieces, number, limits);
        let (_, added) = thread::join_mut(rt, &mut cut, &mut add);
        added
    }
}

impl<'a, R: AllocGlobal + Threads + Sync, W: ReadWatch> Rounds<'a, R, W> {
    // Calls the watch with the number of records so far, if there are some.
    fn tell(&self, number: u64) {
        if number > 0 {
            self.watch.while_read(number);
        }
    }

    // Fills pieces, and cuts them while the records of others are added. Returns how many records
    // there are then, and what the last call of the reader gave, or why a piece could not be
    // filled: a fault of the others comes first.
    fn take_turn<S: CountedRead>(
        &self,
        reading: &mut Reading,
        number: u64,
        pieces: &[Piece],
        coming: &mut [Piece],
        reader: &mut S,
        held: &mut Held,
    ) -> Result<(u64, Result<Gives, EdgeError>), EdgeError>
        requires threads { 2 ≤ self.now.threads }
        requires few { self.now.limits.edges ≤ most_records }
        requires some { 0 < length coming.old }
        requires number { number ≤ self.now.limits.edges }
        requires within { AreWithin self.now.limits.vertices number
            reading.old.labels reading.old.edges.items }
        ensures number { IfOk result (λ r. r.0 ≤ self.now.limits.edges) }
        ensures within { IfOk result (λ r. AreWithin self.now.limits.vertices r.0
            reading.new.labels reading.new.edges.items) }
        ensures on { (text : List ℕ) →
            AreOn (limits_of self.now.limits) (byte_of self.now.delimiter) text number
            reading.old.labels reading.old.edges.items pieces.now held.old.bytes.items
            (S.remaining reader.old) → IfOk result (λ r. OnOk r.1 (
            AreOn (limits_of self.now.limits) (byte_of self.now.delimiter) text r.0
            reading.new.labels reading.new.edges.items coming.new held.new.bytes.items
            (S.remaining reader.new))) }
        ensures begun { (text : List ℕ) →
            AreOn (limits_of self.now.limits) (byte_of self.now.delimiter) text number
            reading.old.labels reading.old.edges.items pieces.now held.old.bytes.items
            (S.remaining reader.old) → IfOk result (λ r.
            AreBegun (limits_of self.now.limits) (byte_of self.now.delimiter) text r.0
            reading.new.labels reading.new.edges.items coming.new) }
        ensures end { IfOk result (λ r. IfOk r.1 (λ gives. gives ≡ Gives.Nothing →
            IsDone held.new.bytes.items (S.remaining reader.new))) }
        ensures refused { (text : List ℕ) →
            AreOn (limits_of self.now.limits) (byte_of self.now.delimiter) text number
            reading.old.labels reading.old.edges.items pieces.now held.old.bytes.items
            (S.remaining reader.old) → IfErr result (Refuses (network_from
            (limits_of self.now.limits) (records (byte_of self.now.delimiter) text))) }
        ensures failed { IfOk result (λ r. IfErr r.1 (λ e.
            (says : Result Network Refusal) → Refuses says e)) }
        ensures read { result ≢ Err EdgeError.Read }
    {
        let size = self.size.min(size_after(number));
        let filled = fill_pieces(coming, reader, held, self.delimiter, size);
        let n = self.add_and_cut(reading, number, pieces, coming)?;
        self.tell(n);
        Ok((n, filled))
    }

    // The labels and edges of all records, and how many records there are. In turn some pieces are
    // filled, and cut while others are added. If one cannot be filled, a refusal of a record before
    // is reported first.
    pub(crate) fn read_rounds<S: CountedRead>(
        &self,
        state: RandomState,
        reader: &mut S,
    ) -> Result<(Reading, u64), EdgeError>
        requires threads { 2 ≤ self.now.threads }
        requires few { self.now.limits.edges ≤ most_records }
        ensures within { IfOk result (λ both.
            AreWithin self.now.limits.vertices self.now.limits.edges
            both.0.labels both.0.edges.items) }
        ensures ok { ForPlain (S.remaining reader.old) (λ text. IfOk result (λ both.
            IsThrough (limits_of self.now.limits) both.1
            (records (byte_of self.now.delimiter) text) both.0.labels both.0.edges.items)) }
        ensures refused { ForPlain (S.remaining reader.old) (λ text. IfErr result
            (Refuses (meaning_within self.now.limits self.now.delimiter text))) }
    {
        let alloc = self.rt.alloc();
        let count = pieces_in_round(self.threads);
        let mut pieces = pieces_for(alloc, self.delimiter, count)?;
        let mut coming = pieces_for(alloc, self.delimiter, count)?;
        let mut held = Held::new(alloc)?;
        let mut reading = Reading::new(alloc, state)?;
        let mut number = 0;
        for _turn in 0..u64::MAX {
            let (n, filled) = self.take_turn(
                &mut reading,
                number,
                &pieces,
                &mut coming,
                reader,
                &mut held,
            )?;
            if is_last(filled) {
                let n = add_last(alloc, &mut reading, &coming, n, self.limits, filled)?;
                return Ok((reading, n));
            }
            mem::swap(&mut pieces, &mut coming);
            number = n;
        }
        Err(EdgeError::Memory)
    }

    /// Reads an edge list: while one thread adds the records of some pieces, in order, the others
    /// cut those of the next pieces into fields. The answer is `Read` exactly if a call of the
    /// reader failed (while failures can be counted).
    ///
    /// Up to two rounds of pieces are read beyond a record that is refused. If a read fails there,
    /// the answer is `Read`; if memory is refused there, it is the record's refusal. A piece takes
    /// some 48 bytes a record beside its bytes and those of its fields, and room to grow: 1 MiB if
    /// lines have some twelve bytes, and up to 7 MiB if they have two.
    pub(crate) fn read<S: CountedRead>(
        &self,
        state: RandomState,
        reader: &mut S,
    ) -> Result<EdgeList, EdgeError>
        requires threads { 2 ≤ self.now.threads }
        requires vertices { self.now.limits.vertices ≤ most_vertices }
        requires edges { self.now.limits.edges ≤ most_records }
        ensures ok { ForPlain (S.remaining reader.old) (λ text. IfOk result (λ list.
            meaning_within self.now.limits self.now.delimiter text ≡ Ok list.graph)) }
        ensures count { ForPlain (S.remaining reader.old) (λ text. IfOk result (λ list.
            list.records ≡ length (records (byte_of self.now.delimiter) text))) }
        ensures refused { ForPlain (S.remaining reader.old) (λ text. IfErr result
            (Refuses (meaning_within self.now.limits self.now.delimiter text))) }
        ensures read { result ≡ Err EdgeError.Read →
            S.failed_calls reader.old < S.failed_calls reader.new }
        ensures failed { CountsOne (S.failed_calls reader.old) (S.failed_calls reader.new) →
            result ≡ Err EdgeError.Read }
    {
        let before = reader.failures();
        let read = self.read_rounds(state, reader);
        let failed = reader.failures() > before;
        let (reading, number) = read_answer(read, failed)?;
        reading.into_list_by(self.rt, number, self.threads)
    }
}
