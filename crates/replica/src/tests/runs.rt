//! Runs from superstep 0 to the end.

use super::facts::Fact::*;
use super::jobs::{Job, TWO_EDGES};
use super::script::Step::{self, *};
use super::script::play_each;
use super::*;

/// What partition 0 of two edges tells partition 1 of superstep 0: vertices 0 and 2 are changed, and 0 has an edge to
/// a vertex of partition 1. The digest is the SHA-256 of the 47 bytes of the job.
const BYTES: [u8; 74] = [
    0x48, 0x42, 0x42, 0x54, // HBBT
    1, 4, // version, log2m
    0, 0, 0, 0, // superstep
    0, 0, 0, 1, // source, target
    0xe4, 0x87, 0x78, 0x82, 0x8d, 0xfe, 0xa5, 0x0f, 0x8c, 0x6f, 0x4c, 0x3f, 0x13, 0xc9, 0x4f, 0xf2,
    0xeb, 0xd3, 0x33, 0xd7, 0xa4, 0x76, 0x10, 0x77, 0x8d, 0x84, 0xb6, 0xc7, 0xed, 0x7a, 0x08, 0xd3,
    0, 0, 0, 2, // changed
    0, 0, 0, 1, // rows
    0, 0, 0, 0, // vertex 0
    0, 0, 0, 0, 0, 0, 0, 0, 0, 0, 0, 0, 0, 0, 3, 0,
];

/// The supersteps of two edges; the snapshot of superstep 0 takes little room.
const SUPERSTEPS: [Step; 41] = [
    Add(TWO_EDGES),
    Keep(0, None),
    IsSmall(0),
    See(0, Owns([true, false, true, false, false])),
    See(1, Owns([false, true, false, false, false])),
    See(0, Says(None)),
    See(1, Says(None)),
    See(0, Row(0, ROW_A)),
    See(1, Row(1, ROW_B)),
    Tells(0, 1, (0, 2, 1, Some(0))),
    Tells(1, 0, (0, 1, 1, Some(1))),
    Writes(0, 1, &BYTES),
    Exchange(0, 2),
    See(0, Says(Some(Verdict::GoOn))),
    See(1, Says(Some(Verdict::GoOn))),
    // superstep 1
    Close(0, Ok(1)),
    Close(1, Ok(1)),
    See(0, Row(0, ROW_A)),
    See(1, Row(1, ROW_AB)),
    See(0, Row(2, ROW_BC)),
    See(0, Changed(0, false)),
    See(0, Changed(2, true)),
    Tells(0, 1, (1, 1, 0, None)),
    Tells(1, 0, (1, 1, 1, Some(1))),
    // supersteps 2 and 3: there is no further one
    Round(0, 2),
    Tells(0, 1, (2, 1, 0, None)),
    Tells(1, 0, (2, 0, 0, None)),
    Round(0, 2),
    See(0, Superstep(3)),
    See(1, Superstep(3)),
    See(0, Row(2, ROW_ABC)),
    See(0, Figures(2, (12_417_153, 751_274, 1_856_191))),
    See(0, Sums(&SUMS_OF_FIRST)),
    See(1, Sums(&SUMS_OF_SECOND)),
    Tells(0, 1, (3, 0, 0, None)),
    Tells(1, 0, (3, 0, 0, None)),
    Exchange(0, 2),
    See(0, Says(Some(Verdict::Stable))),
    See(1, Says(Some(Verdict::Stable))),
    Close(0, Err(CloseError::Finished)),
    Close(1, Err(CloseError::Finished)),
];

/// Two edges in five partitions, the last two of which have no vertices.
const FIVE: Job = Job {
    parts: 5,
    ..TWO_EDGES
};

/// Each waits for the least other source, and for a quiet one all the same.
const WAITS: [Step; 15] = [
    Add(FIVE),
    See(0, Missing(Some(1))),
    See(1, Missing(Some(0))),
    See(2, Missing(Some(0))),
    See(3, Missing(Some(0))),
    See(4, Missing(Some(0))),
    Close(0, Err(CloseError::Waiting { source: 1 })),
    Close(1, Err(CloseError::Waiting { source: 0 })),
    Close(2, Err(CloseError::Waiting { source: 0 })),
    Close(3, Err(CloseError::Waiting { source: 0 })),
    Close(4, Err(CloseError::Waiting { source: 0 })),
    Tell(0, 4),
    Tell(1, 4),
    Tell(2, 4),
    Close(4, Err(CloseError::Waiting { source: 3 })),
];

/// They end as in two partitions, and those without vertices tell nothing.
const ENDS: [Step; 16] = [
    Add(FIVE),
    Round(0, 5),
    Round(0, 5),
    Round(0, 5),
    Exchange(0, 5),
    See(0, Says(Some(Verdict::Stable))),
    See(1, Says(Some(Verdict::Stable))),
    See(2, Says(Some(Verdict::Stable))),
    See(3, Says(Some(Verdict::Stable))),
    See(4, Says(Some(Verdict::Stable))),
    See(0, Row(0, ROW_A)),
    See(1, Row(1, ROW_AB)),
    See(2, Row(2, ROW_ABC)),
    Tells(4, 0, (3, 0, 0, None)),
    See(3, Sums(&[0; 4])),
    See(4, Sums(&[0; 4])),
];

/// Two edges to a limit of one superstep: an accumulator that differs from its row is kept.
const LIMITED: [Step; 9] = [
    Add(Job {
        limit: 1,
        ..TWO_EDGES
    }),
    Round(0, 2),
    Exchange(0, 2),
    See(0, Says(Some(Verdict::Limit))),
    See(1, Says(Some(Verdict::Limit))),
    Close(0, Err(CloseError::Finished)),
    Close(1, Err(CloseError::Finished)),
    See(0, Row(2, ROW_BC)),
    See(0, Accumulated(2, ROW_ABC)),
];

/// Nine vertices, 0 to 8, and the edges 1 to 3, 2 to 6, 0 to 5, 3 to 4 and 6 to 5. Of partition 0 of three vertices 3
/// and 6 change at superstep 1 and 0 does not; then 3 has an edge into partition 1 alone, and 6 into partition 2
/// alone.
const SHARED: [Step; 3] = [
    Add(Job {
        text: b"a\nb\nc\nd\ne\nf\ng\nh\ni\nb\td\nc\tg\na\tf\nd\te\ng\tf\n",
        parts: 3,
        ..TWO_EDGES
    }),
    Round(0, 3),
    Shares(0, [(1, 2, 1, Some(3)), (1, 2, 1, Some(6))], 32),
];

/// Vertices 1 and 10 fall into one register, and 1 has the lesser rank: what 10 takes from 1 changes nothing, so it
/// is not sent, and its successor 5 loses nothing.
const ABSORBED: [Step; 6] = [
    Add(Job {
        text: b"0\n1\n2\n3\n4\n5\n6\n7\n8\n9\n10\n11\n12\n13\n14\n15\n16\n1\t10\n10\t5\n",
        ..TWO_EDGES
    }),
    Round(0, 2),
    See(0, Changed(10, false)),
    Tells(0, 1, (1, 0, 0, None)),
    Round(0, 2),
    See(1, Row(5, [0, 0, 0, 0, 0, 3, 2, 0, 0, 0, 0, 0, 0, 0, 0, 0])),
];

/// Two edges, with vertex 0 alone counted. One that is not has empty registers, and is not changed; at the end each
/// has seen vertex 0, one superstep after the other.
const COUNTED: [Step; 19] = [
    Add(Job {
        counted: Some(b"a"),
        ..TWO_EDGES
    }),
    See(0, Row(0, ROW_A)),
    See(1, Row(1, [0; 16])),
    See(0, Row(2, [0; 16])),
    See(0, Changed(0, true)),
    See(1, Changed(1, false)),
    See(0, Changed(2, false)),
    Tells(0, 1, (0, 1, 1, Some(0))),
    Tells(1, 0, (0, 0, 0, None)),
    Round(0, 2),
    Round(0, 2),
    Round(0, 2),
    Exchange(0, 2),
    See(0, Says(Some(Verdict::Stable))),
    See(1, Says(Some(Verdict::Stable))),
    See(1, Row(1, ROW_A)),
    See(0, Row(2, ROW_A)),
    See(1, Figures(1, (11_390_942, 622_942, 622_942))),
    See(0, Figures(2, (11_390_942, 311_471, 1_245_884))),
];

/// Two edges whose estimates are corrected for small sets: one, two and three of 16 places are taken after 16/16,
/// 16/15 and 16/14 draws more.
const CORRECTED: [Step; 6] = [
    Add(Job {
        is_corrected: true,
        ..TWO_EDGES
    }),
    See(0, Figures(2, (1_000_000, 0, 0))),
    Round(0, 2),
    Round(0, 2),
    Round(0, 2),
    See(0, Figures(2, (3_209_523, 1_638_094, 3_352_380))),
];

static RUNS: [&[Step]; 8] = [
    &SUPERSTEPS,
    &WAITS,
    &ENDS,
    &LIMITED,
    &SHARED,
    &ABSORBED,
    &COUNTED,
    &CORRECTED,
];

#[test]
fn runs_of_small_graphs(rt: HostRuntime) {
    assert_eq!(rt; play_each(&rt, &RUNS), None);
}
