//! A stored graph, as its bytes come from a reader.

ghost use Rattle.std.specs.Prelude.{◌≡◌, ◌+◌, ◌<◌, ◌≤◌, ◌++◌, ℕ, List, Some, None, length, IfOk};
ghost use Rattle.std.specs.Prelude.{◌≢◌, ◌⊎◌, ◌^◌, Ok, Err, IfErr, OnOk, true};
ghost use Rattle.std.specs.Io.KnownBytes.{Consumes, IsAtEnd};
ghost use Rattle.ball_model.specs.Graph.{IsGraph, counts_all};
ghost use Rattle.ball_model.specs.Input.{Network};
ghost use Rattle.ball_model.specs.PlanValue.{most_vertices};
ghost use Rattle.ball_model.specs.Streams.{RisesByOne};
ghost use Rattle.gapcode.specs.Lists.{AreAscending};
ghost use Rattle.graph.specs.Links.{graph_of_lists};
ghost use Rattle.graph.specs.Planning.{Hashes};
ghost use Rattle.sha2.specs.Sha256.{sha256};
ghost use Rattle.stored.specs.Reading.{AreBytes, Fails, Grows, IfOkButWant, IsOfBytes, IsRead};
ghost use Rattle.stored.specs.Reading.{OnOkOrMemory, TakesBytes, Tells, block_reading};
ghost use Rattle.stored.specs.Reading.{blocks_reading, check_code, check_edges, content_reading};
ghost use Rattle.stored.specs.Reading.{head_reading, needs};
ghost use Rattle.stored.specs.Reading.{labels_reading, seal_reading, stored_reading, HasHead};
ghost use Rattle.stored.specs.Stored.{IsStorable, StoredValue, network_bytes, stored_of};

use crate::blocks::{are_block, elements_of};
use crate::error::StoredError;
use crate::header::{StoredHeader, checked, header_at, u32_at, u64_at};
use crate::sizes::{BLOCK_HEAD_LEN, DIGEST_LEN, HEADER_LEN, PIECE};
use ball_model::{CountedRead, Filled, fill};
use gapcode::{Lists, ListsBuilder};
use graph::{Graph, Labels};
use sha2::{Digest, Sha256};
use std::alloc::Global;

// Fills a buffer.
fn read_full<R: CountedRead>(reader: &mut R, buffer: &mut [u8]) -> Result<(), StoredError>
    ensures done { OnOk result (TakesBytes R.remaining R.failed_calls R.sure_calls
        reader.old reader.new buffer.new) }
    ensures fails { IfErr result (λ e. Fails R.remaining R.failed_calls R.sure_calls
        (needs (length buffer.old)) reader.old reader.new e) }
    ensures no_memory { IfErr result (λ e. e ≢ StoredError.Memory) }
{
    match fill(reader, buffer) {
        Filled::Full => Ok(()),
        Filled::Ended { count: _ } => Err(StoredError::Short),
        Filled::Failed => Err(StoredError::Read),
    }
}

// Digests bytes.
fn digest(hasher: &mut Sha256, bytes: &[u8])
    ensures digested { Hashes hasher.old hasher.new bytes.now }
    ensures bytes { AreBytes bytes.now }
{
    hasher.update(bytes);
}

// Fills a buffer, and digests what it read.
fn read_head<R: CountedRead>(
    reader: &mut R,
    hasher: &mut Sha256,
    buffer: &mut [u8],
) -> Result<(), StoredError>
    ensures done { OnOk result (Tells R.remaining R.failed_calls R.sure_calls
        (needs (length buffer.old)) reader.old reader.new hasher.old hasher.new buffer.new) }
    ensures fails { IfErr result (λ e. Fails R.remaining R.failed_calls R.sure_calls
        (needs (length buffer.old)) reader.old reader.new e) }
    ensures no_memory { IfErr result (λ e. e ≢ StoredError.Memory) }
{
    read_full(reader, buffer)?;
    digest(hasher, buffer);
    Ok(())
}

// Reads and digests a piece, and puts it after what is kept.
fn read_piece<R: CountedRead>(
    reader: &mut R,
    hasher: &mut Sha256,
    kept: &mut Vec<u8>,
    count: usize,
) -> Result<(), StoredError>
    requires { count ≤ PIECE }
    ensures done { OnOk result (Grows R.remaining R.failed_calls R.sure_calls count
        reader.old reader.new hasher.old hasher.new kept.old.items kept.new.items) }
    ensures fails { IfErr result (λ e. Fails R.remaining R.failed_calls R.sure_calls
        (needs count) reader.old reader.new e) }
{
    let mut buffer = [0; PIECE];
    let (piece, _) = buffer.split_at_mut(count);
    read_head(reader, hasher, piece)?;
    kept.extend_from_slice(piece)?;
    Ok(())
}

// Reads `count` bytes. Memory is taken as they come.
fn read_bytes<R: CountedRead>(
    alloc: Global,
    reader: &mut R,
    hasher: &mut Sha256,
    count: u64,
) -> Result<Vec<u8>, StoredError>
    ensures done { IfOk result (λ b. Tells R.remaining R.failed_calls R.sure_calls (needs count)
        reader.old reader.new hasher.old hasher.new b.items) }
    ensures fails { IfErr result (λ e. Fails R.remaining R.failed_calls R.sure_calls
        (needs count) reader.old reader.new e) }
{
    let mut kept = Vec::new(alloc);
    let mut left = count;
    while left > 0 {
        let piece = left.min(PIECE as u64);
        read_piece(reader, hasher, &mut kept, piece as usize)?;
        left -= piece;
    }
    Ok(kept)
}

// Reads what stands before the labels.
fn read_header<R: CountedRead>(
    reader: &mut R,
    hasher: &mut Sha256,
) -> Result<StoredHeader, StoredError>
    ensures done { IfOk result (λ h. Tells R.remaining R.failed_calls R.sure_calls head_reading
        reader.old reader.new hasher.old hasher.new h) }
    ensures few { IfOk result (λ h. h.vertices ≤ most_vertices) }
    ensures few_edges { IfOk result (λ h. h.edges < 2 ^ 32) }
    ensures fails { IfErr result (λ e. Fails R.remaining R.failed_calls R.sure_calls
        head_reading reader.old reader.new e) }
    ensures no_memory { IfErr result (λ e. e ≢ StoredError.Memory) }
{
    let mut bytes = [0; HEADER_LEN];
    read_head(reader, hasher, &mut bytes)?;
    checked(header_at(&bytes))
}

// Reads the labels.
fn read_labels<R: CountedRead>(
    alloc: Global,
    reader: &mut R,
    hasher: &mut Sha256,
    header: &StoredHeader,
) -> Result<Labels, StoredError>
    ensures done { IfOk result (λ l. Tells R.remaining R.failed_calls R.sure_calls
        (labels_reading header.now) reader.old reader.new hasher.old hasher.new l) }
    ensures many { IfOk result (λ l. length l ≡ header.now.vertices) }
    ensures fails { IfErr result (λ e. Fails R.remaining R.failed_calls R.sure_calls
        (labels_reading header.now) reader.old reader.new e) }
{
    let text = read_bytes(alloc, reader, hasher, header.labels)?;
    Ok(Labels::of_lines(alloc, text, header.vertices)?)
}

// The lists of a block by its code, if they are the block that comes where `left` vertices are left.
fn block_of(
    alloc: Global,
    code: &[u8],
    count: u32,
    vertices: u32,
    left: u32,
) -> Result<Lists, StoredError>
    ensures found { IfOk result (λ l. check_code vertices left count code.now ≡ Ok l) }
    ensures many { IfOk result (λ l. length l ≡ count) }
    ensures refused { IfErr result (λ e. IsOfBytes e →
        check_code vertices left count code.now ≡ Err e) }
    ensures kind { IfErr result (λ e. IsRead e → ⊥) }
{
    let lists = Lists::read(alloc, code, count as usize, vertices)?;
    if !are_block(&lists, count == left) {
        return Err(StoredError::Block);
    }
    Ok(lists)
}

// Reads the next block of a graph, of whose vertices `left` are left.
fn read_block<R: CountedRead>(
    alloc: Global,
    reader: &mut R,
    hasher: &mut Sha256,
    vertices: u32,
    left: u32,
) -> Result<Lists, StoredError>
    ensures done { IfOk result (λ l. Tells R.remaining R.failed_calls R.sure_calls
        (block_reading vertices left) reader.old reader.new hasher.old hasher.new l) }
    ensures some { IfOk result (λ l. 0 < length l) }
    ensures within { IfOk result (λ l. length l ≤ left) }
    ensures fails { IfErr result (λ e. Fails R.remaining R.failed_calls R.sure_calls
        (block_reading vertices left) reader.old reader.new e) }
{
    let mut head = [0; BLOCK_HEAD_LEN];
    read_head(reader, hasher, &mut head)?;
    let count = u32_at(&head, 0);
    if count == 0 || count > left {
        return Err(StoredError::Block);
    }
    let code = read_bytes(alloc, reader, hasher, u64_at(&head, 4))?;
    block_of(alloc, &code, count, vertices, left)
}

// Reads all blocks of a graph.
fn read_blocks<R: CountedRead>(
    alloc: Global,
    reader: &mut R,
    hasher: &mut Sha256,
    vertices: u32,
) -> Result<Lists, StoredError>
    ensures done { IfOk result (λ l.
        Tells R.remaining R.failed_calls R.sure_calls (blocks_reading vertices vertices vertices)
        reader.old reader.new hasher.old hasher.new l) }
    ensures many { IfOk result (λ l. length l ≡ vertices) }
    ensures ascend { IfOk result (λ l. AreAscending vertices l) }
    ensures fails { IfErr result (λ e. Fails R.remaining R.failed_calls R.sure_calls
        (blocks_reading vertices vertices vertices) reader.old reader.new e) }
{
    let mut builder = ListsBuilder::with_room(alloc, vertices as usize)?;
    let mut left = vertices;
    while left > 0 {
        let lists = read_block(alloc, reader, hasher, vertices, left)?;
        builder = builder.append(&lists)?;
        left -= lists.len() as u32;
    }
    Ok(builder.finish())
}

// The graph of these labels and lists, if the lists have `edges` elements together.
fn graph_of(alloc: Global, labels: Labels, lists: Lists, edges: u64) -> Result<Graph, StoredError>
    requires ascend { AreAscending (length lists) lists }
    requires as_many { length labels ≡ length lists }
    requires few { length labels ≤ most_vertices }
    requires few_edges { edges < 2 ^ 32 }
    ensures found { IfOk result (λ g.
        check_edges edges (record { labels = labels; preds = lists }) ≡ Ok (stored_of g)) }
    ensures graph { IfOk result (λ g. g.graph ≡ graph_of_lists (stored_of g).preds) }
    ensures refused { IfErr result (λ e. IsOfBytes e →
        check_edges edges (record { labels = labels; preds = lists }) ≡ Err e) }
    ensures kind { IfErr result (λ e. IsRead e → ⊥) }
{
    if elements_of(&lists) != u128::from(edges) {
        return Err(StoredError::Edges);
    }
    Ok(Graph::of_lists(alloc, labels, lists, edges)?)
}

// Reads all that is before the digest.
fn read_content<R: CountedRead>(
    alloc: Global,
    reader: &mut R,
    hasher: &mut Sha256,
) -> Result<Graph, StoredError>
    ensures done { IfOk result (λ g. Tells R.remaining R.failed_calls R.sure_calls content_reading
        reader.old reader.new hasher.old hasher.new (stored_of g)) }
    ensures graph { IfOk result (λ g. g.graph ≡ graph_of_lists (stored_of g).preds) }
    ensures front { (bytes : List ℕ) → R.remaining reader.old ≡ Some bytes →
        OnOkOrMemory result (HasHead bytes) }
    ensures fails { IfErr result (λ e. Fails R.remaining R.failed_calls R.sure_calls
        content_reading reader.old reader.new e) }
{
    let header = read_header(reader, hasher)?;
    let labels = read_labels(alloc, reader, hasher, &header)?;
    let lists = read_blocks(alloc, reader, hasher, header.vertices)?;
    graph_of(alloc, labels, lists, header.edges)
}

// Reads the digest, which has to be this one.
fn read_seal<R: CountedRead>(reader: &mut R, right: &[u8; 32]) -> Result<(), StoredError>
    ensures done { OnOk result (TakesBytes R.remaining R.failed_calls R.sure_calls
        reader.old reader.new right.now) }
    ensures fails { (content : List ℕ) → right.now ≡ sha256 content → IfErr result (λ e.
        Fails R.remaining R.failed_calls R.sure_calls (seal_reading content)
        reader.old reader.new e) }
{
    let mut digest = [0; DIGEST_LEN];
    read_full(reader, &mut digest)?;
    if digest != *right {
        return Err(StoredError::Digest);
    }
    Ok(())
}

/// The stored graph that the reader begins with. What follows it is left to the reader.
///
/// The bytes are checked in this order: [`Short`](StoredError::Short) (header), [`Magic`](StoredError::Magic),
/// [`Version`](StoredError::Version), [`Size`](StoredError::Size); `Short` (labels), [`Labels`](StoredError::Labels);
/// for each block `Short` (its first fields), [`Block`](StoredError::Block) if it has no vertex or more than are left,
/// `Short` (its code), [`Ended`](StoredError::Ended), [`TooLong`](StoredError::TooLong) and
/// [`Range`](StoredError::Range) by the place of reading, [`Padding`](StoredError::Padding),
/// [`Behind`](StoredError::Behind), and `Block` if its vertices are others than its own; then
/// [`Edges`](StoredError::Edges), `Short` (digest) and [`Digest`](StoredError::Digest).
/// It is [`Read`](StoredError::Read) if a call of the reader fails, and [`Memory`](StoredError::Memory) only where the
/// checks before passed. Memory is taken as the bytes come, never for a number that they only claim.
pub fn read_stored<R: CountedRead>(alloc: Global, reader: &mut R) -> Result<Graph, StoredError>
    // What is found is a graph, and the input begins with its bytes: these are read, and no more.
    ensures storable { IfOk result (λ g. IsStorable (stored_of g)) }
    ensures found { IfOk result (λ g.
        Consumes (R.remaining reader.old) (R.remaining reader.new) (network_bytes (stored_of g))) }
    // If it begins with the bytes of a network, that is found, or memory is refused or a read fails.
    ensures back { (v : StoredValue) (more : List ℕ) → IsStorable v →
        R.remaining reader.old ≡ Some (network_bytes v ++ more) →
        IfOkButWant result (λ g. stored_of g ≡ v) }
    // Every vertex is counted, and a network that counts all of its own is found as it was.
    ensures all { IfOk result (λ g. counts_all g.graph ≡ true) }
    ensures same { (net : Network) (more : List ℕ) → IsStorable (stored_of net) →
        IsGraph net.graph → counts_all net.graph ≡ true →
        R.remaining reader.old ≡ Some (network_bytes (stored_of net) ++ more) →
        IfOkButWant result (λ g. g ≡ net) }
    // Which refusal it is.
    ensures refused { (bytes : List ℕ) → R.remaining reader.old ≡ Some bytes →
        IfErr result (λ e. IsOfBytes e → stored_reading bytes ≡ Err e) }
    // A read failed exactly if it is `Read`, and none fails where all calls are sure.
    ensures counted { OnOk result (R.failed_calls reader.new ≡ R.failed_calls reader.old) }
    ensures rises { IfErr result (λ e. IsRead e →
        RisesByOne (R.failed_calls reader.old) (R.failed_calls reader.new)) }
    ensures other { IfErr result (λ e. (IsRead e → ⊥) →
        R.failed_calls reader.new ≡ R.failed_calls reader.old) }
    ensures only { R.sure_calls reader.old ≡ None → IfErr result (λ e. IsRead e → ⊥) }
    // Memory is refused only after the checks of the header.
    ensures front { (bytes : List ℕ) → R.remaining reader.old ≡ Some bytes →
        OnOkOrMemory result (HasHead bytes) }
{
    let mut hasher = Sha256::new();
    let graph = read_content(alloc, reader, &mut hasher)?;
    let right = hasher.finalize();
    read_seal(reader, &right)?;
    Ok(graph)
}

/// Reads the end of the input, where nothing is to follow a stored graph.
pub fn read_end<R: CountedRead>(reader: &mut R) -> Result<(), StoredError>
    ensures end { OnOk result (IsAtEnd (R.remaining reader.new)) }
    ensures counted { OnOk result (R.failed_calls reader.new ≡ R.failed_calls reader.old) }
    ensures kind { IfErr result (λ e. (e ≡ StoredError.Trailing) ⊎ (e ≡ StoredError.Read)) }
    ensures rises { result ≡ Err StoredError.Read →
        RisesByOne (R.failed_calls reader.old) (R.failed_calls reader.new) }
    ensures trailing { (bytes : List ℕ) → R.remaining reader.old ≡ Some bytes →
        result ≡ Err StoredError.Trailing → 0 < length bytes }
{
    let mut more = [0; 1];
    match fill(reader, &mut more) {
        Filled::Full => Err(StoredError::Trailing),
        Filled::Ended { count: _ } => Ok(()),
        Filled::Failed => Err(StoredError::Read),
    }
}
