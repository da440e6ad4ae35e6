//! Hashes, plans, names, and streams that count their failed calls.

use ball_model::{
    BatchName, CountedRead, CountedWrite, CountingReader, CountingWriter, Filled, MemReader,
    MemWriter, NodeId, Plan, PlanError, fill, history, laws, mix, place, put_all,
};
use std::alloc::{AllocError, Global};
use std::io;
use std::io::{ErrorKind, Read, Write};

// The hash of a vertex under seed 0, and the place of that hash among 16 registers.
fn hash_and_place(v: u32) -> (u64, (u16, u8)) {
    let hash = mix(0, v);
    (hash, place(4, hash))
}

#[test]
fn mixer_table(rt: HostRuntime) {
    assert_eq!(rt;
        [
            hash_and_place(0),
            hash_and_place(1),
            hash_and_place(2),
            hash_and_place(3),
            hash_and_place(4)
        ],
        [
            (0xe220a8397b1dcdaf, (14, 3)),
            (0x6e789e6aa1b965f4, (6, 1)),
            (0x06c45d188009454f, (0, 2)),
            (0xf88bb8a8724c81ec, (15, 1)),
            (0x1b39896a51a8749b, (1, 1)),
        ]
    );
}

#[test]
fn least_and_greatest_seed_and_vertex(rt: HostRuntime) {
    assert_eq!(rt;
        [mix(u64::MAX, 0), mix(0, u32::MAX), mix(u64::MAX, u32::MAX)],
        [0xe4d971771b652c20, 0xbeeb67eaf1fc5e61, 0xd3c3fc2c2de810ec]
    );
}

// Where tails of zeros lead, up to the last one, and the hash of 0 among 128 registers. The 33rd bit after the index is
// set in the first two, and does not count.
fn places_of_tails() -> [(u16, u8); 6] {
    [
        place(4, 0xa000_0000_0fff_ffff),
        place(10, 0xffc0_0000_003f_ffff),
        place(4, 0xa000_0000_1000_0000),
        place(4, 0xa800_0000_0000_0000),
        place(4, 0),
        place(7, mix(0, 0)),
    ]
}

#[test]
fn tail_of_zero(rt: HostRuntime) {
    assert_eq!(rt;
        places_of_tails(),
        [(10, 33), (1023, 33), (10, 32), (10, 1), (0, 33), (113, 4)]
    );
}

fn plan_with(log2m: u8, parts: u16, limit: u32, vertices: u32) -> Result<Plan, PlanError> {
    Plan::new(log2m, 7, parts, limit, vertices, [9; 32])
}

// Numbers of a plan, and what they are refused for: of two faults, for the one that is checked first.
static CHECKED: [(u8, u16, u32, u32, Option<PlanError>); 9] = [
    (3, 0, 1, 0, Some(PlanError::Log2m)),
    (11, 1, 1, 0, Some(PlanError::Log2m)),
    (4, 0, 0, 0, Some(PlanError::Parts)),
    (4, 65, 0, 0, Some(PlanError::Parts)),
    (4, 1, 0, 16_777_217, Some(PlanError::Limit)),
    (4, 1, 4097, 0, Some(PlanError::Limit)),
    (4, 1, 1, 16_777_217, Some(PlanError::Vertices)),
    (4, 1, 1, 0, None),
    (10, 64, 4096, 16_777_216, None),
];

// The first row of that table that is refused for something else.
fn first_of_another_refusal() -> Option<(u8, u16, u32, u32, Option<PlanError>)> {
    for (log2m, parts, limit, vertices, refusal) in &CHECKED {
        if plan_with(*log2m, *parts, *limit, *vertices).err() != *refusal {
            return Some((*log2m, *parts, *limit, *vertices, *refusal));
        }
    }
    None
}

#[test]
fn plan_checks(rt: HostRuntime) {
    assert_eq!(rt; first_of_another_refusal(), None);
}

// Numbers of a large plan, whose graph may have 2^31 vertices, and what they are refused for.
static LARGE_CHECKED: [(u8, u16, u32, u32, Option<PlanError>); 6] = [
    (3, 0, 1, 2_147_483_649, Some(PlanError::Log2m)),
    (4, 65, 0, 2_147_483_649, Some(PlanError::Parts)),
    (4, 1, 4097, 2_147_483_649, Some(PlanError::Limit)),
    (4, 1, 1, 2_147_483_649, Some(PlanError::Vertices)),
    (4, 1, 1, 16_777_217, None),
    (10, 64, 4096, 2_147_483_648, None),
];

fn first_of_another_large_refusal() -> Option<(u8, u16, u32, u32, Option<PlanError>)> {
    for (log2m, parts, limit, vertices, refusal) in &LARGE_CHECKED {
        let plan = Plan::large(*log2m, 7, *parts, *limit, *vertices, [9; 32]);
        if plan.err() != *refusal {
            return Some((*log2m, *parts, *limit, *vertices, *refusal));
        }
    }
    None
}

#[test]
fn large_plan_checks(rt: HostRuntime) {
    assert_eq!(rt; first_of_another_large_refusal(), None);
}

// Whether a plan returns its numbers, the width and a vertex's partition; its digest, and that of one with another.
fn tells(plan: &Plan) -> bool {
    plan.log2m() == 5
        && plan.seed() == 42
        && plan.parts() == 3
        && plan.limit() == 77
        && plan.vertices() == 8
        && plan.width() == 32
        && plan.partition_of(7) == 1
        && plan.job() == [9; 32]
        && plan.with_job([8; 32]).job() == [8; 32]
}

// Whether one plan does.
fn a_plan_tells() -> bool {
    match Plan::new(5, 42, 3, 77, 8, [9; 32]) {
        Ok(plan) => tells(&plan),
        Err(_) => false,
    }
}

#[test]
fn plan_readers(rt: HostRuntime) {
    assert!(rt; a_plan_tells());
}

// Whether the partitions of a plan have these sizes.
fn has_sizes(plan: &Plan, sizes: &[u32]) -> bool {
    for part in 0..plan.parts() {
        if sizes.get(part as usize) != Some(&plan.part_size(part)) {
            return false;
        }
    }
    sizes.len() == plan.parts() as usize
}

// Whether that many vertices among that many partitions make these sizes.
fn are_sizes(parts: u16, vertices: u32, sizes: &[u32]) -> bool {
    match Plan::new(4, 0, parts, 1, vertices, [0; 32]) {
        Ok(plan) => has_sizes(&plan, sizes),
        Err(_) => false,
    }
}

// Eight vertices among three partitions: 0 3 6, 1 4 7 and 2 5. Three among five, of which two are empty.
#[test]
fn part_sizes(rt: HostRuntime) {
    assert_eq!(rt;
        (
            are_sizes(3, 8, &[3, 3, 2]),
            are_sizes(5, 3, &[1, 1, 1, 0, 0])
        ),
        (true, true)
    );
}

static TEXTS: [(PlanError, &str); 4] = [
    (PlanError::Log2m, "log2m is not from 4 to 10"),
    (PlanError::Parts, "parts is not from 1 to 64"),
    (PlanError::Limit, "limit is not from 1 to 4096"),
    (PlanError::Vertices, "too many vertices"),
];

// Whether a refusal has that text.
fn has_text(alloc: Global, error: PlanError, wanted: &str) -> bool {
    match format!(in alloc; "{error}") {
        Ok(text) => text.as_str() == wanted,
        Err(_) => false,
    }
}

// The first refusal of that table that has another text.
fn first_of_another_text(alloc: Global) -> Option<PlanError> {
    for (error, wanted) in &TEXTS {
        if !has_text(alloc, *error, wanted) {
            return Some(*error);
        }
    }
    None
}

#[test]
fn plan_texts(rt: HostRuntime) {
    assert_eq!(rt; first_of_another_text(rt.alloc()), None);
}

fn name(superstep: u32, source: u16, target: u16) -> BatchName {
    BatchName {
        superstep,
        source,
        target,
    }
}

fn node(part: u16, replica: u8) -> NodeId {
    NodeId { part, replica }
}

// Whether names ascend by superstep, then source, then target.
fn names_ascend() -> bool {
    name(1, 9, 9).is_before(&name(2, 0, 1)) && name(2, 0, 1).is_before(&name(2, 1, 0))
}

// Whether nodes ascend by partition, then replica.
fn nodes_ascend() -> bool {
    let (first, second, third) = (node(0, 3), node(1, 0), node(1, 1));
    first.is_before(&second)
        && second.is_before(&third)
        && !third.is_before(&first)
        && first < second
        && second < third
}

#[test]
fn names_and_nodes_ascend(rt: HostRuntime) {
    assert_eq!(rt; (names_ascend(), nodes_ascend()), (true, true));
}

// A stream that moves one byte a call, and whose calls fail from one on, up to another from which they go well again. A
// write that fails answers an error, or takes nothing.
#[derive(Drop)]
struct Slow {
    calls: u64,
    fails_at: u64,
    well_at: u64,
    tells: bool,
}

// Call `fails_at` and all later ones fail, and a write takes nothing then.
fn failing_from(fails_at: u64) -> Slow {
    Slow {
        calls: 0,
        fails_at,
        well_at: u64::MAX,
        tells: false,
    }
}

// The first call fails with an error, and later ones go well.
fn hiccup() -> Slow {
    Slow {
        calls: 0,
        fails_at: 1,
        well_at: 2,
        tells: true,
    }
}

impl Slow {
    fn is_failing(&mut self) -> bool {
        self.calls = self.calls.saturating_add(1);
        self.calls >= self.fails_at && self.calls < self.well_at
    }
}

impl Read for Slow {
    fn read(&mut self, buf: &mut [u8]) -> io::Result<usize> {
        if self.is_failing() {
            return Err(io::Error::from(ErrorKind::Other));
        }
        Ok(buf.len().min(1))
    }
}

impl Write for Slow {
    fn write(&mut self, buf: &[u8]) -> io::Result<usize> {
        if !self.is_failing() {
            return Ok(buf.len().min(1));
        }
        if self.tells {
            return Err(io::Error::from(ErrorKind::Other));
        }
        Ok(0)
    }

    fn flush(&mut self) -> io::Result<()> {
        if self.is_failing() {
            return Err(io::Error::from(ErrorKind::Other));
        }
        Ok(())
    }
}

// Two reads of a reader whose second call fails, the failures then, and after one more.
fn failed_reads() -> (Option<usize>, Option<usize>, u64, bool, u64) {
    let mut reader = CountingReader::new(failing_from(2));
    let mut place = [0u8; 4];
    let first = reader.get(&mut place);
    let second = reader.get(&mut place);
    let then = reader.failures();
    let refused = reader.read(&mut place).is_err();
    (first, second, then, refused, reader.failures())
}

// Two reads of a reader whose first call fails, with the failures after each.
fn reads_after_a_failure() -> (Option<usize>, u64, Option<usize>, u64) {
    let mut reader = CountingReader::new(hiccup());
    let mut place = [0u8; 4];
    let first = reader.get(&mut place);
    let then = reader.failures();
    (first, then, reader.get(&mut place), reader.failures())
}

// Two writes of a writer whose first call fails, with the failures after each.
fn writes_after_a_failure() -> (Option<usize>, u64, Option<usize>, u64) {
    let mut writer = CountingWriter::new(hiccup());
    let first = writer.put(b"a");
    let then = writer.failures();
    (first, then, writer.put(b"a"), writer.failures())
}

// Whether two flushes of a writer whose first call fails go well, with the failures after each.
fn flushes_after_a_failure() -> (bool, u64, bool, u64) {
    let mut writer = CountingWriter::new(hiccup());
    let first = writer.flush().is_ok();
    let then = writer.failures();
    (first, then, writer.flush().is_ok(), writer.failures())
}

// A call that fails is not tried again in secret: its failure is answered, and the next call goes well.
#[test]
fn a_failed_call_is_told(rt: HostRuntime) {
    assert_eq!(rt;
        (
            reads_after_a_failure(),
            writes_after_a_failure(),
            flushes_after_a_failure()
        ),
        (
            (None, 1, Some(1), 1),
            (None, 1, Some(1), 1),
            (false, 1, true, 1)
        )
    );
}

// A flush and two writes of a writer whose third call fails, and a flush that fails, with the failures.
fn failed_writes() -> (bool, Option<usize>, Option<usize>, u64, bool, u64) {
    let mut writer = CountingWriter::new(failing_from(3));
    let flushed = writer.flush().is_ok();
    let first = writer.put(b"ab");
    let second = writer.put(b"b");
    let then = writer.failures();
    let refused = writer.flush().is_err();
    (flushed, first, second, then, refused, writer.failures())
}

// Whether two flushes go well, of a writer whose second call fails and whose later ones do too, and the failures.
fn tries_to_flush() -> (bool, bool, u64) {
    let mut writer = CountingWriter::new(failing_from(2));
    (writer.try_flush(), writer.try_flush(), writer.failures())
}

#[test]
fn failed_calls_are_counted(rt: HostRuntime) {
    assert_eq!(rt;
        (failed_reads(), failed_writes(), tries_to_flush()),
        (
            (Some(1), None, 1, true, 2),
            (true, Some(1), None, 1, true, 2),
            (true, false, 1)
        )
    );
}

// Whether four bytes are put in as many calls, and one more if the fifth call fails, and how many calls failed.
fn puts_four() -> (bool, bool, u64) {
    let mut writer = CountingWriter::new(failing_from(5));
    let four = put_all(&mut writer, b"abcd");
    let one_more = put_all(&mut writer, b"e");
    (four, one_more, writer.failures())
}

// Whether two bytes and one more are put, and how many calls failed.
fn puts_twice(bytes: &mut Vec<u8>) -> (bool, bool, u64) {
    let mut writer = CountingWriter::new(bytes);
    let first = put_all(&mut writer, b"ab");
    let second = put_all(&mut writer, b"c");
    (first, second, writer.failures())
}

// Whether two bytes and one more are put into a vector, and how many calls failed; and whether it holds the three.
fn put_and_held(alloc: Global) -> ((bool, bool, u64), bool) {
    let mut bytes = Vec::new(alloc);
    let told = puts_twice(&mut bytes);
    (told, bytes.as_slice() == b"abc".as_slice())
}

#[test]
fn what_is_put_is_held(rt: HostRuntime) {
    assert_eq!(rt;
        (puts_four(), put_and_held(rt.alloc())),
        ((true, false, 1), ((true, true, 0), true))
    );
}

// Seven bytes are read into buffers of four, three and two, from the start: what came of it, and the failures.
fn fills(fails_at: Option<u64>) -> ([Filled; 3], u64) {
    let mut reader = MemReader::new(b"abcdefg", fails_at);
    let mut place = [0u8; 4];
    let told = [
        fill(&mut reader, &mut place),
        fill(&mut reader, &mut place[1..]),
        fill(&mut reader, &mut place[..2]),
    ];
    (told, reader.failures())
}

// A buffer of four is filled a byte a call by a reader whose call `fails_at` fails, and then one of none: what came of
// both, and the failures.
fn fills_slowly(fails_at: u64) -> (Filled, Filled, u64) {
    let mut reader = CountingReader::new(failing_from(fails_at));
    let mut place = [0u8; 4];
    let four = fill(&mut reader, &mut place);
    let none = fill(&mut reader, &mut []);
    (four, none, reader.failures())
}

// What is left of three bytes in a buffer of four: the front, and how many.
fn ends() -> (Filled, [u8; 4]) {
    let mut reader = MemReader::new(b"abc", None);
    let mut place = [b'-'; 4];
    let told = fill(&mut reader, &mut place);
    (told, place)
}

// Whether seven bytes fill the buffers so: if no call fails, if the third does, and if the second does.
fn seven_are_filled() -> bool {
    let wanted = [
        ([Filled::Full, Filled::Full, Filled::Ended { count: 0 }], 0),
        ([Filled::Full, Filled::Full, Filled::Failed], 1),
        ([Filled::Full, Filled::Failed, Filled::Failed], 2),
    ];
    [fills(None), fills(Some(3)), fills(Some(2))] == wanted
}

// Whether a buffer is filled a byte at a time.
fn one_is_filled_slowly() -> bool {
    let wanted = [
        (Filled::Full, Filled::Full, 0),
        (Filled::Failed, Filled::Full, 1),
    ];
    [fills_slowly(5), fills_slowly(4)] == wanted
}

#[test]
fn buffers_are_filled(rt: HostRuntime) {
    assert_eq!(rt; (seven_are_filled(), one_is_filled_slowly()), (true, true));
}

#[test]
fn an_input_ends_in_a_buffer(rt: HostRuntime) {
    assert_eq!(rt; ends(), (Filled::Ended { count: 3 }, *b"abc-"));
}

// Three bytes are read by twos up to the end, and then the fourth call fails.
fn reads_by_twos() -> [Option<usize>; 4] {
    let mut reader = MemReader::new(b"abc", Some(4));
    let mut place = [0u8; 2];
    [
        reader.get(&mut place),
        reader.get(&mut place),
        reader.get(&mut place),
        reader.get(&mut place),
    ]
}

#[test]
fn memory_is_read(rt: HostRuntime) {
    assert_eq!(rt; reads_by_twos(), [Some(2), Some(1), Some(0), None]);
}

// What a writer takes of two bytes, of two more, and of one more, and how many calls failed.
fn writes_by_twos(writer: &mut MemWriter) -> ([Option<usize>; 3], u64) {
    let calls = [writer.put(b"ab"), writer.put(b"cd"), writer.put(b"d")];
    (calls, writer.failures())
}

// Whether a writer with room for three bytes takes these of the five, with one call that fails, and holds them.
fn is_taken_and_held(alloc: Global) -> Result<bool, AllocError> {
    let mut writer = MemWriter::with_room(alloc, 3, None)?;
    let told = writes_by_twos(&mut writer) == ([Some(2), Some(1), None], 1);
    Ok(writer.into_bytes().as_slice() == b"abc".as_slice() && told)
}

// Whether five bytes are put, whether the writer is flushed then, and how many calls failed.
fn puts_five(writer: &mut MemWriter) -> (bool, bool, u64) {
    let two = put_all(writer, b"ab");
    let all = two && put_all(writer, b"cde");
    (all, writer.try_flush(), writer.failures())
}

// Puts five bytes in a writer with this room that fails at this call. Returns what `puts_five` does, and whether the
// writer then holds these bytes.
fn put_in_room(
    alloc: Global,
    room: usize,
    fails_at: Option<u64>,
    held: &[u8],
) -> Result<((bool, bool, u64), bool), AllocError> {
    let mut writer = MemWriter::with_room(alloc, room, fails_at)?;
    let told = puts_five(&mut writer);
    Ok((told, writer.into_bytes().as_slice() == held))
}

// The room, the call that fails, whether all is put, the failures, and what is held.
static IN_ROOM: [(usize, Option<u64>, bool, u64, &[u8]); 5] = [
    (5, None, true, 0, b"abcde"),
    (5, Some(3), true, 0, b"abcde"),
    (5, Some(2), false, 1, b"ab"),
    (4, None, false, 1, b"abcd"),
    (0, None, false, 1, b""),
];

// The first room that takes otherwise.
fn first_otherwise(alloc: Global) -> Option<usize> {
    for (room, fails_at, all, failures, held) in &IN_ROOM {
        let told = put_in_room(alloc, *room, *fails_at, held);
        if told != Ok(((*all, true, *failures), true)) {
            return Some(*room);
        }
    }
    None
}

#[test]
fn memory_is_written(rt: HostRuntime) {
    let alloc = rt.alloc();
    assert_eq!(rt;
        (is_taken_and_held(alloc), first_otherwise(alloc)),
        (Ok(true), None)
    );
}

#[test]
fn laws_are_called() {
    laws::ball_is_paths();
    laws::register_is_greatest();
    laws::union_is_maximum();
    laws::counter_is_row();
    laws::counter_grows();
    laws::counter_counts_paths();
    laws::start_is_counted();
    laws::quiet_stays();
    laws::changed_suffice();
    laws::accumulators_gather();
    laws::end_is_least();
    laws::estimate_grows();
    laws::tallies_fit();
    laws::usual_is_large();
    laws::part_is_strided();
    laws::join_is_a_join();
    laws::draws_are_waits();
    laws::large_is_raw();
    laws::all_are_counted();
    laws::named_are_counted();
    laws::limits_only_refuse();
    laws::lines_end();
    laws::mark_is_skipped();
    laws::first_mark_divides();
    history::standing_is_posted();
    history::nothing_goes_back();
    history::floor_bounds_names();
    history::replies_stay();
}
