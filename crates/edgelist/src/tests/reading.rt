//! Records, their limits and refusals, and readers that fail.

use super::pieces::{given, records_given, records_of};
use super::*;

/// An edge list, what is between its fields, the limits on vertices and records, and the lines of
/// its graph or the error.
pub(super) type Case<'a> = (&'a [u8], Delimiter, u32, u64, Result<&'a [u8], EdgeError>);

// Whether an edge list is read as wanted, at once and with its bytes given one after the other.
fn is_told(rt: &HostRuntime, case: &Case<'_>) -> bool {
    let (text, delimiter, vertices, edges, wanted) = *case;
    let limits = EdgeLimits { vertices, edges };
    let wanted = match wanted {
        Ok(lines) => Ok(hash(&[(lines, 1)])),
        Err(e) => Err(e),
    };
    let right = told(rt, at_once(text), delimiter, limits) == wanted;
    right & (given(rt, text, delimiter, limits) == wanted)
}

// Whether all are.
fn are_told(rt: &HostRuntime) -> bool {
    let mut right = true;
    for case in &CASES {
        right &= is_told(rt, case);
    }
    right
}

use Delimiter::{Comma, Space, Tab};

// A comment, both ends of lines, a double and a self-loop; no end of the last line, and a comment
// in its place; one vertex, and none; other delimiters; quotes, bytes that are no text, and one
// space. A byte order mark in front of lines, of nothing and of a comment is skipped; a second one,
// one in a later line and the beginning of one are labels' bytes.
pub(super) static CASES: [Case<'static>; 34] = [
    (TWO_EDGES, Tab, 9, 9, Ok(TWO_LINES)),
    (
        b"# c\r\na\tb\r\nb\tc\r\na\tb\r\nb\tb\r\n",
        Tab,
        9,
        9,
        Ok(b"a\nb 0 1\nc 1\n"),
    ),
    (
        b"a\tb\nb\tc\na\tb\nb\tb\nd\n",
        Tab,
        9,
        9,
        Ok(b"a\nb 0 1\nc 1\nd\n"),
    ),
    (b"a\tb\r\n# x\r\n\r\nb\tc", Tab, 9, 9, Ok(TWO_LINES)),
    (b"a\tb\nb\tc", Tab, 9, 9, Ok(TWO_LINES)),
    (b"a\tb\nb\tc\n# end", Tab, 9, 2, Ok(TWO_LINES)),
    (b"a,b c\n", Tab, 9, 9, Ok(b"a,b c\n")),
    (b"x", Tab, 9, 9, Ok(b"x\n")),
    (b"", Tab, 9, 9, Ok(b"")),
    (b"#", Tab, 9, 9, Ok(b"")),
    (b"\n#", Tab, 9, 9, Ok(b"")),
    (b"a,b\nb,c\n", Comma, 9, 9, Ok(TWO_LINES)),
    (b"a b\nb c\n", Space, 9, 9, Ok(TWO_LINES)),
    (
        b"\"x\tq\"\ny\"\"z\n\xff\xc0\t \n",
        Tab,
        9,
        9,
        Ok(b"\"x\nq\" 0\ny\"\"z\n\xff\xc0\n  3\n"),
    ),
    (b"\xef\xbb\xbfa\tb\r\nb\tc\r\n", Tab, 9, 9, Ok(TWO_LINES)),
    (b"\xef\xbb\xbf", Tab, 9, 9, Ok(b"")),
    (b"\xef\xbb\xbf# c\na\tb\nb\tc", Tab, 9, 9, Ok(TWO_LINES)),
    (
        b"\xef\xbb\xbf\xef\xbb\xbfa\n",
        Tab,
        9,
        9,
        Ok(b"\xef\xbb\xbfa\n"),
    ),
    (b"\n\xef\xbb\xbfa\n", Tab, 9, 9, Ok(b"\xef\xbb\xbfa\n")),
    (b"\xef\xbb\ta", Tab, 9, 9, Ok(b"\xef\xbb\na 0\n")),
    // Limits; the number of records is tested before the fields, and the fields before the number
    // of vertices. Neither comments nor empty lines are numbered; doubles and single labels are. No
    // field is empty.
    (TWO_EDGES, Tab, 3, 2, Ok(TWO_LINES)),
    (TWO_EDGES, Tab, 2, 9, Err(EdgeError::TooManyVertices)),
    (b"a\tb\nc\td\n", Tab, 2, 9, Err(EdgeError::TooManyVertices)),
    (b"a\nb\nc\n", Tab, 2, 9, Err(EdgeError::TooManyVertices)),
    (b"a\nb\na\n", Tab, 2, 9, Ok(b"a\nb\n")),
    (TWO_EDGES, Tab, 9, 1, Err(EdgeError::TooManyEdges)),
    (
        b"a\tb\nb\tc\t7\n",
        Tab,
        9,
        9,
        Err(EdgeError::Fields { number: 2 }),
    ),
    (b"a\tb\nb\tc\t7\n", Tab, 9, 1, Err(EdgeError::TooManyEdges)),
    (
        b"a\tb\nc\td\t7\n",
        Tab,
        2,
        9,
        Err(EdgeError::Fields { number: 2 }),
    ),
    (
        b"# c\n\na\tb\na\tb\nd\n\n\tc\n",
        Tab,
        9,
        9,
        Err(EdgeError::Fields { number: 4 }),
    ),
    (b"\tb\n", Tab, 9, 9, Err(EdgeError::Fields { number: 1 })),
    (b"a\t\n", Tab, 9, 9, Err(EdgeError::Fields { number: 1 })),
    (b"\t", Tab, 9, 9, Err(EdgeError::Fields { number: 1 })),
    (b"a\tb\t\n", Tab, 9, 9, Err(EdgeError::Fields { number: 1 })),
];

#[test]
fn worked_edge_lists(rt: HostRuntime) {
    assert!(rt; are_told(&rt));
}

// How many records an edge list with tabs has that is read at once.
fn records_read(rt: &HostRuntime, text: &[u8]) -> Result<u64, EdgeError> {
    let Ok(state) = RandomState::new(rt) else {
        return Err(EdgeError::Memory);
    };
    let mut reader = CountingReader::new(at_once(text));
    records_of(&read_edge_list(rt.alloc(), state, &mut reader, Tab, NO_LIMITS))
}

// An edge twice, one vertex and another edge; neither comments nor empty lines are records.
const FOUR_RECORDS: &[u8] = b"# c\na\tb\n\na\tb\nd\r\n# x\nb\tc";

#[test]
fn records_are_counted(rt: HostRuntime) {
    let read = records_read(&rt, FOUR_RECORDS);
    let given = records_given(&rt, FOUR_RECORDS);
    assert!(rt; read == Ok(4) && given == Ok(4));
}

// An edge list, how many of its bytes come at a time, the limit on records, how many calls are made
// of its reader, and what the list is read as, if all of them succeed.
type Calls<'a> = (&'a [u8], usize, u64, u64, Result<Pieces<'a>, EdgeError>);

// What an edge list is read as, if `good` calls succeed.
fn told_after(rt: &HostRuntime, case: &Calls<'_>, good: u64) -> Told {
    let (bytes, step, edges, _, _) = *case;
    let limits = EdgeLimits { vertices: 9, edges };
    told(rt, Stepping { bytes, step, good }, Delimiter::Tab, limits)
}

// Whether a failure of each of these calls is answered, and no call follows them.
fn fails_at_each(rt: &HostRuntime, case: &Calls<'_>) -> bool {
    let mut right = told_after(rt, case, case.3) == told_of(case.4);
    for good in 0..case.3 {
        right &= told_after(rt, case, good) == Err(EdgeError::Read);
    }
    right
}

// The two edges with CRLF: ten bytes, which with the end take eleven calls.
const TEN_BYTES: &[u8] = b"a\tb\r\nb\tc\r\n";

// A byte order mark that comes byte by byte is skipped. If all bytes come at once the end is asked
// for twice. A record is refused once its LF was read, and no call follows.
static CALLS: [Calls<'static>; 6] = [
    (TEN_BYTES, 1, 2, 11, Ok(&[(TWO_LINES, 1)])),
    (b"\xef\xbb\xbfa\tb\nb\tc\n", 1, 2, 12, Ok(&[(TWO_LINES, 1)])),
    (TWO_EDGES, usize::MAX, 9, 3, Ok(&[(TWO_LINES, 1)])),
    (
        b"a\tb\tc\nd\te\n",
        1,
        9,
        6,
        Err(EdgeError::Fields { number: 1 }),
    ),
    (
        b"a\tb\n\td\ne\tf\n",
        1,
        9,
        7,
        Err(EdgeError::Fields { number: 2 }),
    ),
    (b"a\tb\nc\td\ne\tf\n", 1, 1, 8, Err(EdgeError::TooManyEdges)),
];

// Whether all of them fail so.
fn all_fail_at_each(rt: &HostRuntime) -> bool {
    let mut right = true;
    for case in &CALLS {
        right &= fails_at_each(rt, case);
    }
    right
}

#[test]
fn failing_readers(rt: HostRuntime) {
    assert!(rt; all_fail_at_each(&rt));
}

// Forty lines of four bytes, of which the one at this place, if there is one, has an empty first
// field.
fn forty_lines(fault: usize) -> [u8; 160] {
    let mut text = [0u8; 160];
    for i in 0..160usize {
        text[i] = if i / 4 == fault && i % 4 < 3 {
            b"\tbb"[i % 4]
        } else {
            b"a\tb\n"[i % 4]
        };
    }
    text
}

// Whether these lines are refused at this place, by a reader of which no call succeeds after that
// which gives the line there.
fn stops_there(rt: &HostRuntime, fault: usize) -> bool {
    let text = forty_lines(fault);
    let reader = Stepping {
        bytes: &text,
        step: 4,
        good: (fault as u64).saturating_add(2),
    };
    let wanted: Told = Err(EdgeError::Fields {
        number: (fault as u64).saturating_add(1),
    });
    told(rt, reader, Delimiter::Tab, NO_LIMITS) == wanted
}

#[test]
fn refusals_at_each_of_the_records_read_at_once(rt: HostRuntime) {
    let mut right = tabs_are(&rt, &forty_lines(40));
    for fault in 0..40usize {
        right &= stops_there(&rt, fault);
    }
    assert!(rt; right);
}

// Whether lines are read whole.
fn tabs_are(rt: &HostRuntime, text: &[u8]) -> bool {
    told(rt, at_once(text), Delimiter::Tab, NO_LIMITS) == Ok(hash(&[(b"a\nb 0\n", 1)]))
}
