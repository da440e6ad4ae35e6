//! Streams that give or take a byte a call, or fail.

use super::*;

/// How many bytes the pieces have.
fn length_of(pieces: Pieces) -> usize {
    let mut length = 0usize;
    for piece in pieces {
        length = length.saturating_add(piece.len());
    }
    length
}

/// Streams whose reader gives a byte a call and fails after so many.
fn reading(reads: u64) -> Flow {
    Flow {
        step: 1,
        reads,
        room: usize::MAX,
        told: usize::MAX,
    }
}

/// Streams whose writer takes a byte a call, and so many in all.
fn writing(room: usize) -> Flow {
    Flow {
        step: 1,
        reads: u64::MAX,
        room,
        told: usize::MAX,
    }
}

const REPLAY: &str = "hyperball replay --log2m 4 --parts 2";

const NODE: &str = "hyperball node --log2m 4";

const UNREAD: &[u8] = b"hyperball: the input cannot be read\n";

/// What is read a byte a call: how that ends, and how it ends if a read fails, with what may be written before.
static READ: [(Case, Case); 5] = [
    (
        (RUN, &[EDGES], 0, &[REPORT], b""),
        (
            RUN,
            &[EDGES],
            1,
            &[],
            b"hyperball: the edge list cannot be read\n",
        ),
    ),
    (
        (COUNTED, &[EDGES, b"%%\na"], 0, &[ONE_COUNTED], b""),
        (COUNTED, &[EDGES, b"%%\na"], 1, &[], UNREAD),
    ),
    (
        (
            REPLAY,
            &[MARKED, b"send 1.0 0\n"],
            0,
            &[b"sent 0 0 1 0 1 1\n"],
            b"",
        ),
        (REPLAY, &[MARKED, b"send 1.0 0\n"], 1, &[], UNREAD),
    ),
    (
        (NODE, &[MARKED, b"close\n"], 0, &[b"closed 1\n"], b""),
        (NODE, &[MARKED, b"close\n"], 1, &[b"closed 1\n"], UNREAD),
    ),
    (GATHERED, (GATHER_BOTH, BOTH_KEPT, 1, &[], UNREAD)),
];

/// Whether what is read ends so if so many reads go well: all are needed, and the one that finds the end. A read that
/// fails is the last one.
fn ends_after<H: Host>(rt: &H, whole: &Case, cut: &Case, reads: u64) -> bool {
    let is_read = reads > length_of(whole.1) as u64;
    let case = if is_read { whole } else { cut };
    let end = end_in(rt, case, &reading(reads));
    let is_all = end.output.is_front() && (!is_read || end.output.has_all());
    is_told(case, &end) && is_all && end.failures == u64::from(!is_read)
}

/// Each read is needed, and its failure is reported.
fn each_read_counts<H: Host>(rt: &H, whole: &Case, cut: &Case) {
    for reads in 0..(length_of(whole.1) as u64).saturating_add(2) {
        assert!(rt; ends_after(rt, whole, cut, reads), "{reads} reads");
    }
}

#[test]
fn a_read_that_fails(rt: HostRuntime) {
    for (whole, cut) in &READ {
        each_read_counts(&rt, whole, cut);
    }
}

/// What is written a byte a call.
static WRITTEN: [Case; 6] = [
    (RUN, &[EDGES], 0, &[REPORT], b""),
    (COUNTED, &[EDGES, b"%%\na"], 0, &[ONE_COUNTED], b""),
    (
        REPLAY,
        &[MARKED, b"send 1.0 0\nshow 1.0\n"],
        0,
        &[
            b"sent 0 0 1 0 1 1
node 1.0 0 open
row 1 11.115354 0.000000 0.000000 00000000000001000000000000000000
",
        ],
        b"",
    ),
    (
        NODE,
        &[MARKED, b"close\nsend 0\nclose\n"],
        0,
        &[b"closed 1\nrefused no-target\nclosed 2\n"],
        b"",
    ),
    GATHERED,
    VERSION,
];

/// Whether so much room is filled, and the fault is that the output cannot be written if that is too little. A write
/// that fails is the last one.
fn fills<H: Host>(rt: &H, case: &Case, room: usize) -> bool {
    let fails = room < length_of(case.3);
    let (status, fault) = if fails {
        (1, UNWRITTEN)
    } else {
        (case.2, case.4)
    };
    let wanted = (case.0, case.1, status, case.3, fault);
    let end = end_in(rt, &wanted, &writing(room));
    let is_full = end.output.is_front() && end.output.taken() == room;
    is_told(&wanted, &end) && is_full && end.failures == u64::from(fails)
}

/// So it is with all room up to that which a case needs.
fn each_byte_counts<H: Host>(rt: &H, case: &Case) {
    for room in 0..length_of(case.3).saturating_add(1) {
        assert!(rt; fills(rt, case, room), "room for {room} bytes");
    }
}

#[test]
fn a_write_of_a_report_that_fails(rt: HostRuntime) {
    each_byte_counts(&rt, &WRITTEN[0]);
}

#[test]
fn a_write_of_a_counted_report_that_fails(rt: HostRuntime) {
    each_byte_counts(&rt, &WRITTEN[1]);
}

#[test]
fn a_write_of_answers_that_fails(rt: HostRuntime) {
    for case in &WRITTEN[2..] {
        each_byte_counts(&rt, case);
    }
}

/// Faults that have room for three bytes: what is written then.
static IN_THREE: [Case; 2] = [
    ("hyperball run --log2m 3", &[b"a\tb\n"], 1, &[], b"hyp"),
    ("hyperball run --log2m x", &[b"a\tb\n"], 2, &[], b"err"),
];

static THREE_BYTES: Flow = Flow {
    step: usize::MAX,
    reads: u64::MAX,
    room: usize::MAX,
    told: 3,
};

#[test]
fn a_fault_that_cannot_be_told(rt: HostRuntime) {
    assert!(rt;
        ends_in(&rt, &IN_THREE[0], &THREE_BYTES) && ends_in(&rt, &IN_THREE[1], &THREE_BYTES)
    );
}
