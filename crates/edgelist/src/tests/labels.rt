//! Labels: many, and such as share their guesses.

use super::pieces::{Case, are_told};
use super::*;

// Rings: an edge from each label to the next and from the last to the first, and then one from each
// to itself. More labels of one group of guesses than it has entries: each new one drives another
// out, and every label is looked up again once it was driven out; of 6 bytes, and of 11, the most
// that are guessed at. In whatever groups they are, the graph is the same. Labels of zeros, which
// differ in length alone. Labels of 11 and of 12 bytes.
static RINGS: [Case<'static>; 4] = [
    (
        &[
            (
                b"v25384\tv28164\nv28164\tv28810\nv28810\tv32731\nv32731\tv35511\n",
                1,
            ),
            (
                b"v35511\tv42649\nv42649\tv45429\nv45429\tv49907\nv49907\tv50997\n",
                1,
            ),
            (
                b"v50997\tv25384\nv25384\tv25384\nv28164\tv28164\nv28810\tv28810\n",
                1,
            ),
            (
                b"v32731\tv32731\nv35511\tv35511\nv42649\tv42649\nv45429\tv45429\n",
                1,
            ),
            (b"v49907\tv49907\nv50997\tv50997\n", 1),
        ],
        Ok(&[
            (
                b"v25384 0 8\nv28164 0 1\nv28810 1 2\nv32731 2 3\nv35511 3 4\n",
                1,
            ),
            (b"v42649 4 5\nv45429 5 6\nv49907 6 7\nv50997 7 8\n", 1),
        ]),
    ),
    (
        &[
            (
                b"vertex03514\tvertex03813\nvertex03813\tvertex11519\nvertex11519\tvertex25539\n",
                1,
            ),
            (
                b"vertex25539\tvertex25627\nvertex25627\tvertex28072\nvertex28072\tvertex36689\n",
                1,
            ),
            (
                b"vertex36689\tvertex38066\nvertex38066\tvertex43531\nvertex43531\tvertex03514\n",
                1,
            ),
            (
                b"vertex03514\tvertex03514\nvertex03813\tvertex03813\nvertex11519\tvertex11519\n",
                1,
            ),
            (
                b"vertex25539\tvertex25539\nvertex25627\tvertex25627\nvertex28072\tvertex28072\n",
                1,
            ),
            (
                b"vertex36689\tvertex36689\nvertex38066\tvertex38066\nvertex43531\tvertex43531\n",
                1,
            ),
        ],
        Ok(&[
            (
                b"vertex03514 0 8\nvertex03813 0 1\nvertex11519 1 2\nvertex25539 2 3\n",
                1,
            ),
            (
                b"vertex25627 3 4\nvertex28072 4 5\nvertex36689 5 6\nvertex38066 6 7\n",
                1,
            ),
            (b"vertex43531 7 8\n", 1),
        ]),
    ),
    (
        &[(
            b"\0\t\0\0\n\0\0\t\0\0\0\n\0\0\0\t\0\n\0\t\0\n\0\0\t\0\0\n\0\0\0\t\0\0\0\n",
            1,
        )],
        Ok(&[(b"\0 0 2\n\0\0 0 1\n\0\0\0 1 2\n", 1)]),
    ),
    (
        &[
            (
                b"vertex-0709\tvertex-07090\nvertex-07090\tvertex-07091\nvertex-07091\tvertex-0709\n",
                1,
            ),
            (
                b"vertex-0709\tvertex-0709\nvertex-07090\tvertex-07090\nvertex-07091\tvertex-07091\n",
                1,
            ),
        ],
        Ok(&[(b"vertex-0709 0 2\nvertex-07090 0 1\nvertex-07091 1 2\n", 1)]),
    ),
];

#[test]
fn labels_of_one_guess(rt: HostRuntime) {
    assert!(rt; are_told(&rt, &RINGS));
}

// A number as a label of six digits.
fn six_digits(v: u32) -> [u8; 6] {
    [
        digit(v / 100_000),
        digit(v / 10_000),
        digit(v / 1_000),
        digit(v / 100),
        digit(v / 10),
        digit(v),
    ]
}

// The edge from a number to the next.
fn edge(v: u32) -> [u8; 14] {
    let [a, b, c, d, e, f] = six_digits(v);
    let [g, h, i, j, k, l] = six_digits(v.saturating_add(1));
    [a, b, c, d, e, f, b'\t', g, h, i, j, k, l, b'\n']
}

// Adds the edges from each number below `count` to the next, twice. False: there was no room.
fn push_path(text: &mut Vec<u8>, count: u32) -> bool {
    let mut room = true;
    for _ in 0..2 {
        for v in 0..count {
            room &= text.extend_from_slice(&edge(v)).is_ok();
        }
    }
    room
}

// Whether each vertex has its number as a label and the one before as its predecessor; vertex 0 has
// none.
fn is_path(graph: &Graph) -> bool {
    let mut right = true;
    for v in 0..graph.vertices() {
        let before = [v.saturating_sub(1)];
        let (wanted, _) = before.split_at(v.min(1) as usize);
        right &= graph.label(v) == six_digits(v).as_slice();
        right &= are_preds(graph.preds(v), wanted);
    }
    right
}

// Whether an edge list with tabs is a path with `count` edges.
fn is_path_of(rt: &HostRuntime, text: &[u8], count: u32) -> bool {
    match &tabs(rt, text) {
        Ok(graph) => graph.edges() == u64::from(count) && is_path(graph),
        Err(_) => false,
    }
}

// Whether a path with `count` edges is read.
fn reads_path(rt: &HostRuntime, count: u32) -> bool {
    let mut text = Vec::new(rt.alloc());
    push_path(&mut text, count) && is_path_of(rt, &text, count)
}

#[test]
fn many_labels(rt: HostRuntime) {
    // More labels than the table of guesses has entries at first, so that it grows; each is then
    // looked up again.
    assert!(rt; reads_path(&rt, 140_000));
}
