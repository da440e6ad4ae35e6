//! Lists as bytes, single codes, and places.

ghost use Rattle.std.specs.Prelude.{◌≡◌, ◌∷◌, [], IfOk};
ghost use Rattle.gapcode.specs.Lists.{AscendsFrom};

mod damage;
mod refusals;

use gapcode::{
    BitReader, BitWriter, CodeError, Elements, Lists, ListsBuilder, Places, get_gamma, put_gamma,
};
use std::alloc::{AllocError, Global};

/// The lists [], [0] and [1], one after another.
const THREE: [u8; 2] = [0xaa, 0x40];

/// A list of two: 0, and 2^64 - 1 further on.
const PAST: [u8; 17] = [
    0x70, 0, 0, 0, 0, 0, 0, 0, 0x1f, 0xff, 0xff, 0xff, 0xff, 0xff, 0xff, 0xff, 0xe0,
];

// Whether the list is these elements.
fn is(list: Elements<'_>, wanted: &[u32]) -> bool {
    let mut left = wanted;
    for x in list {
        match left.split_first() {
            Some((first, rest)) if *first == x => left = rest,
            _ => return false,
        }
    }
    left.is_empty()
}

// The bytes of one list, or why there is none.
fn one(alloc: Global, list: &[u32]) -> Result<Lists, AllocError>
    requires { AscendsFrom 0 list.now }
{
    Ok(ListsBuilder::with_room(alloc, 1)?.push(list)?.finish())
}

// Whether there is one list, it is these elements, and these bytes spell it.
fn only_is(lists: &Lists, list: &[u32], bytes: &[u8]) -> bool {
    lists.len() == 1
        && lists.list(0).len() == list.len() as u64
        && is(lists.list(0), list)
        && lists.bytes() == bytes
}

// Whether a list is written as these bytes, and walked.
fn is_written(alloc: Global, list: &[u32], bytes: &[u8]) -> Result<bool, CodeError>
    requires { AscendsFrom 0 list.now }
{
    Ok(only_is(&one(alloc, list)?, list, bytes))
}

// Whether bytes are read as one list under this bound.
fn is_read(alloc: Global, bytes: &[u8], bound: u32, list: &[u32]) -> Result<bool, CodeError> {
    Ok(only_is(&Lists::read(alloc, bytes, 1, bound)?, list, bytes))
}

// Whether a list is spelled by these bytes: written as them, and read back from them.
fn is_spelled(alloc: Global, list: &[u32], bytes: &[u8]) -> Result<bool, CodeError>
    requires { AscendsFrom 0 list.now }
{
    Ok(is_written(alloc, list, bytes)? && is_read(alloc, bytes, u32::MAX, list)?)
}

/// The list of 16777215.
const GREAT: [u8; 7] = [0x40, 0, 0, 0x10, 0, 0, 0];

/// The list of the greatest element below the greatest bound.
const FAR: [u8; 9] = [0x40, 0, 0, 0, 0x3f, 0xff, 0xff, 0xff, 0xc0];

/// The list of 7 and the greatest number, which is below no bound.
const GREATEST: [u8; 10] = [0x62, 0, 0, 0, 0, 0x7f, 0xff, 0xff, 0xfc, 0];

// Whether lists are spelled, that with the greatest number is walked, and a bound itself passes.
fn are_spelled(alloc: Global) -> Result<bool, CodeError> {
    Ok(
        is_spelled(alloc, &[], &[0x80])?
            && is_spelled(alloc, &[0], &[0x50])?
            && is_spelled(alloc, &[0, 2, 5], &[0x25, 0x30])?
            && is_spelled(alloc, &[16_777_215], &GREAT)?
            && is_spelled(alloc, &[4_294_967_294], &FAR)?
            && is_written(alloc, &[7, 4_294_967_295], &GREATEST)?
            && is_read(alloc, &[0x27], 3, &[0, 1, 2])?,
    )
}

#[test]
fn lists_are_spelled(rt: HostRuntime) {
    assert_eq!(rt; are_spelled(rt.alloc()), Ok(true));
}

// The lists [], [0] and [1].
fn three(alloc: Global) -> Result<ListsBuilder, AllocError> {
    ListsBuilder::with_room(alloc, 0)?
        .push(&[])?
        .push(&[0])?
        .push(&[1])
}

// Whether they are written one after another.
fn three_are_written(alloc: Global) -> Result<bool, AllocError> {
    Ok(three(alloc)?.finish().bytes() == THREE.as_slice())
}

// Whether lists are these three.
fn are_three(lists: &Lists) -> bool {
    lists.len() == 3 && is(lists.list(0), &[]) && is(lists.list(1), &[0]) && is(lists.list(2), &[1])
}

// Whether they are read.
fn three_are_read(alloc: Global) -> Result<bool, CodeError> {
    Ok(are_three(&Lists::read(alloc, &THREE, 3, 2)?))
}

// How many lists there are in no bytes, if none are wanted.
fn count_of_none(alloc: Global) -> Result<usize, CodeError> {
    Ok(Lists::read(alloc, &[], 0, 0)?.len())
}

// Whether three lists, and none, are written one after another and are read.
fn are_behind_one_another(alloc: Global) -> Result<bool, CodeError> {
    Ok(three_are_written(alloc)? && three_are_read(alloc)? && count_of_none(alloc)? == 0)
}

#[test]
fn lists_stand_behind_one_another(rt: HostRuntime) {
    assert_eq!(rt; are_behind_one_another(rt.alloc()), Ok(true));
}

/// [0, 2, 5], then the lists [], [0] and [1], then [0].
const JOINED: [u8; 4] = [0x25, 0x3a, 0xa4, 0xa0];

/// [0], then the list of 4294967294, whose code takes 66 bits.
const ZERO_AND_FAR: [u8; 9] = [0x54, 0, 0, 0, 3, 0xff, 0xff, 0xff, 0xfc];

// A list, then three, then one.
fn joined(alloc: Global) -> Result<Lists, AllocError> {
    let builder = ListsBuilder::with_room(alloc, 1)?.push(&[0, 2, 5])?;
    let builder = builder.append(&three(alloc)?.finish())?;
    Ok(builder.append(&one(alloc, &[0])?)?.finish())
}

// Whether these are five lists, and found at their places.
fn are_joined(alloc: Global) -> Result<bool, CodeError> {
    let lists = joined(alloc)?;
    Ok(
        lists.bytes() == JOINED.as_slice()
            && lists.len() == 5
            && is(lists.list(0), &[0, 2, 5])
            && is(lists.list(3), &[1])
            && is(lists.list(4), &[0]),
    )
}

// Whether a code of more than 64 bits is copied to within a byte.
fn far_is_joined(alloc: Global) -> Result<bool, AllocError> {
    let builder = ListsBuilder::with_room(alloc, 0)?.push(&[0])?;
    let lists = builder.append(&one(alloc, &[4_294_967_294])?)?.finish();
    Ok(
        lists.bytes() == ZERO_AND_FAR.as_slice()
            && lists.len() == 2
            && is(lists.list(1), &[4_294_967_294]),
    )
}

// No lists.
fn none(alloc: Global) -> Result<ListsBuilder, AllocError> {
    ListsBuilder::with_room(alloc, 0)
}

// Whether no lists before and after three, and after none, are nothing more.
fn none_are_joined(alloc: Global) -> Result<bool, AllocError> {
    let three = three(alloc)?.finish();
    let lists = none(alloc)?.append(&three)?.append(&none(alloc)?.finish())?;
    let nothing = none(alloc)?.append(&none(alloc)?.finish())?.finish();
    Ok(are_three(&lists.finish()) && nothing.len() == 0 && nothing.bytes().is_empty())
}

// Whether lists are appended to lists.
fn are_appended(alloc: Global) -> Result<bool, CodeError> {
    Ok(are_joined(alloc)? && far_is_joined(alloc)? && none_are_joined(alloc)?)
}

#[test]
fn lists_are_appended(rt: HostRuntime) {
    assert_eq!(rt; are_appended(rt.alloc()), Ok(true));
}

// What refuses these bytes.
fn refusal(alloc: Global, bytes: &[u8], count: usize, bound: u32) -> Option<CodeError> {
    Lists::read(alloc, bytes, count, bound).err()
}

// Bytes, how many lists they are read as, the bound, and what refuses them.
static REFUSED: [(&[u8], usize, u32, CodeError); 16] = [
    (&[0x51], 1, 9, CodeError::Padding),
    (&[0x50, 0], 1, 9, CodeError::Trailing),
    (&[0x51, 0], 1, 9, CodeError::Padding),
    (&[0x48], 1, 1, CodeError::Range),
    (&[0x25, 0x30], 1, 2, CodeError::Range),
    (&[0x25, 0x30], 1, 5, CodeError::Range),
    (&PAST, 1, u32::MAX, CodeError::Range),
    (&GREATEST, 1, u32::MAX, CodeError::Range),
    (&[0xaa], 3, 9, CodeError::Ended),
    (&[], 1, 9, CodeError::Ended),
    (&[0x40, 0, 0, 0x10, 0, 0], 1, 16_777_216, CodeError::Ended),
    (&[0; 7], 1, 9, CodeError::Ended),
    (&[0, 0, 0, 0, 0, 0, 0, 1], 1, 9, CodeError::Ended),
    (&[0; 8], 1, 9, CodeError::TooLong),
    (&[0; 9], 1, 9, CodeError::TooLong),
    (&[0xff], 0, 9, CodeError::Trailing),
];

// The first bytes of that table that something else refuses, or nothing.
fn first_not_refused(alloc: Global) -> Option<&'static [u8]> {
    for (bytes, count, bound, wanted) in &REFUSED {
        if refusal(alloc, bytes, *count, *bound) != Some(*wanted) {
            return Some(bytes);
        }
    }
    None
}

#[test]
fn spellings_are_refused(rt: HostRuntime) {
    assert_eq!(rt; first_not_refused(rt.alloc()), None);
}

// Whether two empty vectors are built as these bytes.
fn two_empty_are(alloc: Global, bytes: &[u8]) -> Result<bool, AllocError> {
    let empty: [Vec<u32>; 2] = [Vec::new(alloc), Vec::new(alloc)];
    Ok(Lists::build(alloc, &empty)?.bytes() == bytes)
}

#[test]
fn vectors_are_built(rt: HostRuntime) {
    assert_eq!(rt; two_empty_are(rt.alloc(), &[0xc0]), Ok(true));
}

// Writes these numbers.
fn put_each(writer: &mut BitWriter, numbers: &[u64]) -> Result<(), AllocError> {
    for x in numbers {
        if *x > 0 {
            put_gamma(writer, *x)?;
        }
    }
    Ok(())
}

// Whether these numbers are read.
fn are_next(reader: &mut BitReader<'_>, numbers: &[u64]) -> bool {
    for x in numbers {
        if get_gamma(reader) != Ok(*x) {
            return false;
        }
    }
    true
}

// The bytes of these numbers, and how many bits the numbers take.
fn coded(alloc: Global, numbers: &[u64]) -> Result<(Vec<u8>, u128), AllocError> {
    let mut writer = BitWriter::new(alloc);
    put_each(&mut writer, numbers)?;
    let len = writer.len();
    Ok((writer.finish(), len))
}

// Whether bytes are read as these numbers, in `len` bits.
fn are_read(bytes: &[u8], numbers: &[u64], len: u128) -> bool {
    let mut reader = BitReader::new(bytes);
    are_next(&mut reader, numbers) && reader.position() == len
}

// Writes these numbers and reads them again, and returns whether they are the same.
fn come_back(alloc: Global, numbers: &[u64]) -> Result<bool, CodeError> {
    let (bytes, len) = coded(alloc, numbers)?;
    Ok(are_read(&bytes, numbers, len))
}

static NUMBERS: [u64; 14] = [
    1,
    2,
    3,
    4,
    255,
    256,
    65_535,
    65_536,
    4_294_967_295,
    4_294_967_296,
    4_294_967_297,
    1 << 62,
    u64::MAX,
    1,
];

#[test]
fn numbers_come_back(rt: HostRuntime) {
    assert_eq!(rt; come_back(rt.alloc(), &NUMBERS), Ok(true));
}

// Whether 4 is written in five bits.
fn four_is_coded(alloc: Global) -> Result<bool, CodeError> {
    let (bytes, len) = coded(alloc, &[4])?;
    Ok(len == 5 && bytes.as_slice() == [0x20].as_slice())
}

#[test]
fn one_code_is_written(rt: HostRuntime) {
    assert_eq!(rt; four_is_coded(rt.alloc()), Ok(true));
}

// Whether these are the first two bits of bytes, and the reader is at this place after them.
fn bits_are(bytes: &[u8], wanted: [Option<bool>; 2], place: u128) -> bool {
    let mut reader = BitReader::new(bytes);
    [reader.bit(), reader.bit()] == wanted && reader.position() == place
}

#[test]
fn bits_are_read(rt: HostRuntime) {
    assert!(rt; bits_are(&[0x50], [Some(false), Some(true)], 2) && bits_are(&[], [None, None], 0));
}

// Whether these are the first two numbers of bytes, and the reader is at this place after them.
fn numbers_are(bytes: &[u8], wanted: [Result<u64, CodeError>; 2], place: u128) -> bool {
    let mut reader = BitReader::new(bytes);
    [get_gamma(&mut reader), get_gamma(&mut reader)] == wanted && reader.position() == place
}

// Whether refusals stay where they were: of a number that has ended, and twice of one that is too long.
fn refusals_stay() -> bool {
    numbers_are(
        &[0x80, 0, 0, 0, 0, 0, 0, 0],
        [Ok(1), Err(CodeError::Ended)],
        1,
    ) && numbers_are(
        &[0; 9],
        [Err(CodeError::TooLong), Err(CodeError::TooLong)],
        0,
    )
}

#[test]
fn a_refusal_stays_where_it_was(rt: HostRuntime) {
    assert!(rt; refusals_stay());
}

// Whether these places are kept.
fn are_kept(places: &Places, wanted: &[u128]) -> bool {
    for i in 0..places.len() {
        if wanted.get(i) != Some(&places.at(i)) {
            return false;
        }
    }
    places.len() == wanted.len()
}

// Two places, in room for two.
fn near(alloc: Global) -> Result<Places, AllocError>
    ensures { IfOk result (λ places. places ≡ 0 ∷ 12 ∷ []) }
{
    Places::with_room(alloc, 2)?.push(0)?.push(12)
}

// Those two, and four more about 2^32 and 3 * 2^32.
fn far(alloc: Global) -> Result<Places, AllocError> {
    near(alloc)?
        .push(4_294_967_295)?
        .push(4_294_967_296)?
        .push(4_294_967_296)?
        .push(12_884_901_889)
}

static NEAR_AND_FAR: [u128; 6] = [
    0,
    12,
    4_294_967_295,
    4_294_967_296,
    4_294_967_296,
    12_884_901_889,
];

// Whether the places near and far are kept.
fn far_are_kept(alloc: Global) -> Result<bool, CodeError> {
    Ok(are_kept(&far(alloc)?, &NEAR_AND_FAR))
}

#[test]
fn far_places_are_kept(rt: HostRuntime) {
    assert_eq!(rt; far_are_kept(rt.alloc()), Ok(true));
}

// Whether an error has this text.
fn has_text(alloc: Global, error: CodeError, wanted: &str) -> bool {
    match format!(in alloc; "{error}") {
        Ok(text) => text.as_str() == wanted,
        Err(_) => false,
    }
}

static TEXTS: [(CodeError, &str); 6] = [
    (CodeError::Ended, "the bits end within a code"),
    (CodeError::TooLong, "a number has more than 64 bits"),
    (CodeError::Range, "a number is not below the bound"),
    (CodeError::Padding, "a bit of the padding is set"),
    (CodeError::Trailing, "bytes after the last list"),
    (CodeError::Memory, "out of memory"),
];

// The first error of that table that has another text.
fn first_of_another_text(alloc: Global) -> Option<CodeError> {
    for (error, wanted) in &TEXTS {
        if !has_text(alloc, *error, wanted) {
            return Some(*error);
        }
    }
    None
}

#[test]
fn errors_have_texts(rt: HostRuntime) {
    assert_eq!(rt; first_of_another_text(rt.alloc()), None);
}
