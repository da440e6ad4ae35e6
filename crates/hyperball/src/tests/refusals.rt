//! Refused memory. A run of the first test can refuse any one growth: then the status is 1, the fault is want of memory,
//! and what was refused is served when it is served again.

use super::*;

/// Whether memory was refused: before words are served, or with nothing written, or with a beginning of what a replay, a
/// node or a gathering writes.
fn is_refused(case: &Case, end: &End) -> bool {
    let writes_on = case.0.starts_with("hyperball replay ")
        || case.0.starts_with("hyperball node ")
        || case.0.starts_with("hyperball gather ");
    let right = end.output.is_front() && (end.output.taken() == 0 || writes_on);
    !end.served || right && end.status == 1 && end.refused.is_whole()
}

/// Whether words are served, at once or when they are served again.
fn is_served_again<H: Host>(rt: &H, case: &Case) -> bool {
    let end = end_in(rt, case, &OPEN);
    is_right(case, &end) || is_refused(case, &end) && ends(rt, case)
}

/// The fault of a text that is no list of orders.
const ORDERS: &[u8] = b"hyperball: an order is P.K@S, with commas between orders\n";

static REFUSABLE: [Case; 9] = [
    (RUN, &[EDGES], 0, &[REPORT], b""),
    (COUNTED, &[EDGES, b"%%\na"], 0, &[ONE_COUNTED], b""),
    (
        "hyperball replay --log2m 4 --parts 2 --replicas 2",
        &[
            MARKED,
            b"send 1.0 0\ndeliver 0 0.1\nkeep 0.1\nclose 0.1\nrestart 0.1\ncopy 0.1\n",
        ],
        0,
        &[b"sent 0 0 1 0 1 1\nnew\nkept 0\nclosed 1\nrestarted 0\ncopied 0 0\n"],
        b"",
    ),
    (
        "hyperball node --log2m 4",
        &[MARKED, b"close\ntotals\nrestart 0\n"],
        0,
        &[b"closed 1\nsuperstep,0,33.803869\nsuperstep,1,34.851860\nrestarted 0\n"],
        b"",
    ),
    GATHERED,
    // what clap tells is written whole, or not at all
    VERSION,
    ("hyperball replays", &[EDGES], 2, &[], b"error: "),
    ("hyperball run --log2m x", &[EDGES], 2, &[], b"error: "),
    ("hyperball run --lose 0.0@", &[EDGES], 2, &[], ORDERS),
];

#[test]
fn words_whose_memory_is_refused(rt: HostRuntime) {
    for case in &REFUSABLE {
        assert!(rt; is_served_again(&rt, case), "{}", case.0);
    }
}
