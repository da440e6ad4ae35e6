//! Lists of ascending numbers as gap codes, places of pieces, and single codes.

ghost use Rattle.std.specs.Prelude.{◌≡◌, ◌<◌, ◌++◌, [], length, map, slice_index_or, IfOk};
ghost use Rattle.std.specs.List.{All};
ghost use Rattle.gapcode.specs.Bits.{AreBytesOf, gamma, rest};
ghost use Rattle.gapcode.specs.Lists.{AreSpelled, AscendsFrom, IsSpelling};

use gapcode::{BitReader, BitWriter, CodeError, Lists, Places, get_gamma, put_gamma};
use std::alloc::{AllocError, Global};

/// How many numbers one of the lists has, of lists kept as gap codes.
pub fn length_of(alloc: Global, lists: &[Vec<u32>], i: usize) -> Result<u64, AllocError>
    requires ascend { All (λ list. AscendsFrom 0 list.items) lists.now }
    requires place { i < length lists.now }
    ensures { IfOk result (λ count.
        count ≡ length (slice_index_or (map (λ list. list.items) lists.now) i [])) }
{
    let kept = Lists::build(alloc, lists)?;
    Ok(kept.list(i).len())
}

/// The bytes that spell lists.
pub fn spelled(alloc: Global, lists: &Lists) -> Result<Vec<u8>, AllocError>
    ensures { IfOk result (λ bytes. IsSpelling bytes.items lists.now) }
{
    let mut bytes = Vec::new(alloc);
    bytes.extend_from_slice(lists.bytes())?;
    Ok(bytes)
}

/// For each vertex of a graph its predecessors, out of bytes.
pub fn predecessors(alloc: Global, bytes: &[u8], vertices: u32) -> Result<Lists, CodeError>
    ensures { IfOk result (AreSpelled vertices vertices bytes.now) }
{
    Lists::read(alloc, bytes, vertices as usize, vertices)
}

/// Where the second of two pieces begins, if the first one has 12 bits.
pub fn second_place(alloc: Global) -> Result<u128, AllocError>
    ensures { IfOk result (λ place. place ≡ 12) }
{
    let places = Places::with_room(alloc, 2)?.push(0)?.push(12)?;
    Ok(places.at(1))
}

/// The gamma code of a number, padded with zero bits.
pub fn code_of(alloc: Global, x: u64) -> Result<Vec<u8>, AllocError>
    requires { 0 < x }
    ensures { IfOk result (λ bytes. AreBytesOf (gamma x) bytes.items) }
{
    let mut writer = BitWriter::new(alloc);
    put_gamma(&mut writer, x)?;
    Ok(writer.finish())
}

/// The two numbers whose codes come next.
pub fn next_two(reader: &mut BitReader<'_>) -> Result<(u64, u64), CodeError>
    ensures { IfOk result (λ two.
        rest reader.old ≡ gamma two.0 ++ (gamma two.1 ++ rest reader.new)) }
{
    let first = get_gamma(reader)?;
    let second = get_gamma(reader)?;
    Ok((first, second))
}
