//! Reading edge lists.

ghost use Rattle.std.specs.Prelude.{◌≡◌, ◌<◌, length, Ok, Err, IfOk, IfErr};
ghost use Rattle.ball_model.specs.Input.{records};
ghost use Rattle.graph.specs.Records.{ForPlain, byte_of};
ghost use Rattle.edgelist.specs.Reading.{CountsOne, Refuses, large_meaning_of, meaning_of};

use crate::limits::{EdgeError, EdgeLimits, EdgeList, MOST_RECORDS, USUAL_RECORDS};
use crate::reading::Sequential;
use crate::rounds::{PIECE, Rounds};
use crate::watch::{ReadWatch, Unwatched};
use ball_model::CountedRead;
use ball_model::plan::{MOST_VERTICES, USUAL_VERTICES};
use graph::{Delimiter, Graph};
use std::alloc::{AllocGlobal, Global};
use std::hash::RandomState;
use std::thread::Threads;

/// Reads an edge list, and numbers its labels from 0 by first appearance, a record's first field
/// first.
///
/// Lines end in LF or CRLF, and the last may lack its end. A byte order mark at the front, empty
/// lines and lines that begin with `#` are skipped; every other line is a record. Its fields are
/// between the delimiters, quotes are ordinary bytes, and nothing is trimmed. Two fields are an
/// edge from the first to the second, and one field declares a vertex. The limits in force are
/// never above 2^24 vertices and 2^26 records.
///
/// The errors are those of the first record at which a check fails, in the order `TooManyEdges`,
/// `Fields`, `TooManyVertices`. `Read` is answered exactly if a call of the reader failed (while
/// failures can be counted).
///
/// Clauses of its parts, and none of this call, say that at most one record more than the limit is
/// asked for, that a known label takes no memory of its own, and that a call of the reader that
/// failed is not made again.
pub fn read_edge_list<R: CountedRead>(
    alloc: Global,
    state: RandomState,
    reader: &mut R,
    delimiter: Delimiter,
    limits: EdgeLimits,
) -> Result<EdgeList, EdgeError>
    ensures ok { ForPlain (R.remaining reader.old) (λ text.
        IfOk result (λ list. meaning_of limits delimiter text ≡ Ok list.graph)) }
    ensures count { ForPlain (R.remaining reader.old) (λ text. IfOk result (λ list.
        list.records ≡ length (records (byte_of delimiter) text))) }
    ensures refused { ForPlain (R.remaining reader.old) (λ text.
        IfErr result (Refuses (meaning_of limits delimiter text))) }
    ensures read { result ≡ Err EdgeError.Read →
        R.failed_calls reader.old < R.failed_calls reader.new }
    ensures failed { CountsOne (R.failed_calls reader.old) (R.failed_calls reader.new) →
        result ≡ Err EdgeError.Read }
{
    let limits = EdgeLimits {
        vertices: limits.vertices.min(USUAL_VERTICES),
        edges: limits.edges.min(USUAL_RECORDS),
    };
    let sequential = Sequential {
        watch: &Unwatched,
        delimiter,
        limits,
    };
    sequential.read(alloc, state, reader)
}

/// Reads as [`read_edge_list`] does, but the limits in force are never above 2^31 vertices and 2^32
/// - 1 records.
pub fn read_large_edge_list<R: CountedRead>(
    alloc: Global,
    state: RandomState,
    reader: &mut R,
    delimiter: Delimiter,
    limits: EdgeLimits,
) -> Result<EdgeList, EdgeError>
    ensures ok { ForPlain (R.remaining reader.old) (λ text.
        IfOk result (λ list. large_meaning_of limits delimiter text ≡ Ok list.graph)) }
    ensures count { ForPlain (R.remaining reader.old) (λ text. IfOk result (λ list.
        list.records ≡ length (records (byte_of delimiter) text))) }
    ensures refused { ForPlain (R.remaining reader.old) (λ text.
        IfErr result (Refuses (large_meaning_of limits delimiter text))) }
    ensures read { result ≡ Err EdgeError.Read →
        R.failed_calls reader.old < R.failed_calls reader.new }
    ensures failed { CountsOne (R.failed_calls reader.old) (R.failed_calls reader.new) →
        result ≡ Err EdgeError.Read }
{
    let limits = EdgeLimits {
        vertices: limits.vertices.min(MOST_VERTICES),
        edges: limits.edges.min(MOST_RECORDS),
    };
    let sequential = Sequential {
        watch: &Unwatched,
        delimiter,
        limits,
    };
    sequential.read(alloc, state, reader)
}

/// Reads as [`read_large_edge_list`] does, with this number of threads (0 is as 1). One adds
/// records, and calls the watch with their number so far; the others cut lines into fields.
///
/// With several threads up to two rounds of pieces, some MiB, are read beyond a record that is
/// refused. If a call of the reader fails there, the answer is `Read`; if memory is refused there,
/// it is still the record's refusal. A line is held whole, a comment too.
pub fn read_edge_list_by<R: AllocGlobal + Threads + Sync, W: ReadWatch, S: CountedRead>(
    rt: &R,
    watch: &W,
    state: RandomState,
    reader: &mut S,
    delimiter: Delimiter,
    limits: EdgeLimits,
    threads: usize,
) -> Result<EdgeList, EdgeError>
    ensures ok { ForPlain (S.remaining reader.old) (λ text.
        IfOk result (λ list. large_meaning_of limits delimiter text ≡ Ok list.graph)) }
    ensures count { ForPlain (S.remaining reader.old) (λ text. IfOk result (λ list.
        list.records ≡ length (records (byte_of delimiter) text))) }
    ensures refused { ForPlain (S.remaining reader.old) (λ text.
        IfErr result (Refuses (large_meaning_of limits delimiter text))) }
    ensures read { result ≡ Err EdgeError.Read →
        S.failed_calls reader.old < S.failed_calls reader.new }
    ensures failed { CountsOne (S.failed_calls reader.old) (S.failed_calls reader.new) →
        result ≡ Err EdgeError.Read }
{
    let vertices = limits.vertices.min(MOST_VERTICES);
    let edges = limits.edges.min(MOST_RECORDS);
    let limits = EdgeLimits { vertices, edges };
    if threads < 2 {
        let sequential = Sequential {
            watch,
            delimiter,
            limits,
        };
        return sequential.read(rt.alloc(), state, reader);
    }
    let rounds = Rounds {
        rt,
        watch,
        delimiter,
        limits,
        size: PIECE,
        threads,
    };
    rounds.read(state, reader)
}

/// Reads as [`read_edge_list`] does, and returns the graph alone. For users of the library: the
/// program does not call it.
pub fn read_edges<R: CountedRead>(
    alloc: Global,
    state: RandomState,
    reader: &mut R,
    delimiter: Delimiter,
    limits: EdgeLimits,
) -> Result<Graph, EdgeError>
    ensures ok { ForPlain (R.remaining reader.old) (λ text.
        IfOk result (λ g. meaning_of limits delimiter text ≡ Ok g)) }
    ensures refused { ForPlain (R.remaining reader.old) (λ text.
        IfErr result (Refuses (meaning_of limits delimiter text))) }
    ensures read { result ≡ Err EdgeError.Read →
        R.failed_calls reader.old < R.failed_calls reader.new }
    ensures failed { CountsOne (R.failed_calls reader.old) (R.failed_calls reader.new) →
        result ≡ Err EdgeError.Read }
{
    let list = read_edge_list(alloc, state, reader, delimiter, limits)?;
    Ok(list.graph)
}
