//! Writers that fail at a call, that take a byte a call, and refused memory. A run of the last test can refuse any one
//! growth: then a report that is refused is written when that is done again.

ghost use Rattle.std.specs.Prelude.{None};

use super::*;
use ball_model::MemWriter;

const REPORT: &[u8] = b"superstep,0,33.803869
superstep,1,34.851860
superstep,2,35.588471
superstep,3,35.588471
end,3,stable
gain,0.708147
vertex,a,11.390942,0.000000,0.000000,1.000000,15
vertex,b,11.780376,0.665022,1.503709,208.680703,14
vertex,c,12.417153,0.751274,0.538737,83.065637,13
";

// The answer, how many bytes were written, and whether they are a beginning of the report.
type Written = (Option<Result<(), ReportError>>, usize, bool);

// The report of replicas in a writer that fails at a call: None if there is no memory for the writer.
fn front<H: AllocGlobal + Threads + Sync>(
    rt: &H,
    graph: &Graph,
    replicas: &[Replica],
    fails_at: Option<u64>,
) -> Option<Written> {
    let mut writer = MemWriter::with_room(rt.alloc(), 1024, fails_at).ok()?;
    let answer = written(rt, &mut writer, graph, replicas, 2);
    let bytes = writer.into_bytes();
    Some((answer, bytes.len(), REPORT.starts_with(&bytes)))
}

// A writer that takes a byte a call, and compares it with the report.
#[derive(Drop)]
struct Slow {
    taken: usize,
    same: bool,
}

impl Write for Slow {
    ghost contents = { λ w. None };

    fn write(&mut self, buf: &[u8]) -> io::Result<usize> {
        let count = buf.len().min(1);
        if count == 1 {
            self.same &= buf.first() == REPORT.get(self.taken);
            self.taken = self.taken.saturating_add(1);
        }
        Ok(count)
    }

    fn flush(&mut self) -> io::Result<()> {
        Ok(())
    }
}

// The report as a writer gets it that takes a byte a call.
fn dripped<H: AllocGlobal + Threads + Sync>(
    rt: &H,
    graph: &Graph,
    replicas: &[Replica],
) -> Written {
    let mut writer = Slow {
        taken: 0,
        same: true,
    };
    let answer = written(
        rt,
        &mut CountingWriter::new(&mut writer),
        graph,
        replicas,
        0,
    );
    (answer, writer.taken, writer.same)
}

const WHOLE: Written = (Some(Ok(())), 265, true);

// Whether a writer that fails at the first call has nothing, at the second the six lines before the vertices, and
// whether there is no third call; and whether a byte a call is the same report.
fn are_told<H: AllocGlobal + Threads + Sync>(rt: &H, graph: &Graph, replicas: &[Replica]) -> bool {
    let refused = Some(Err(ReportError::Write));
    front(rt, graph, replicas, Some(1)) == Some((refused, 0, true))
        && front(rt, graph, replicas, Some(2)) == Some((refused, 115, true))
        && front(rt, graph, replicas, Some(3)) == Some(WHOLE)
        && dripped(rt, graph, replicas) == WHOLE
}

// Whether a report is written, at once or after a refusal that left a beginning of it.
fn is_written_again<H: AllocGlobal + Threads + Sync>(
    rt: &H,
    graph: &Graph,
    replicas: &[Replica],
) -> bool {
    match front(rt, graph, replicas, None) {
        Some((Some(Err(ReportError::Memory)), length, is_front)) => {
            is_front && length < 265 && front(rt, graph, replicas, None) == Some(WHOLE)
        }
        Some(made) => made == WHOLE,
        None => front(rt, graph, replicas, None) == Some(WHOLE),
    }
}

// What is tried with the replicas of the two edges at their end.
#[derive(Clone, Copy)]
enum Trouble {
    Writers,
    Memory,
}

// Whether their report is right in this trouble.
fn is_right<H: AllocGlobal + Threads + Sync>(
    rt: &H,
    graph: &Graph,
    replicas: &[Replica],
    trouble: Trouble,
) -> bool {
    match trouble {
        Trouble::Writers => are_told(rt, graph, replicas),
        Trouble::Memory => is_written_again(rt, graph, replicas),
    }
}

// Whether the report of replicas of a graph is right in this trouble.
fn is_right_of<H: AllocGlobal + Threads + Sync>(
    rt: &H,
    graph: &Graph,
    trouble: Trouble,
) -> Option<bool> {
    match replicas_at(rt, graph, 2, 4096, 3) {
        Some(all) => Some(is_right(rt, graph, &all, trouble)),
        None => None,
    }
}

// Whether the report of the two edges is: None if memory is refused before. Then all is done again, and nothing is
// refused.
fn is_right_in<H: AllocGlobal + RandomSource + Threads + Sync>(
    rt: &H,
    trouble: Trouble,
) -> Option<bool> {
    match graph_of(rt, TWO_EDGES) {
        Some(graph) => is_right_of(rt, &graph, trouble),
        None => None,
    }
}

#[test]
fn writers_that_fail_or_are_slow(rt: HostRuntime) {
    assert!(rt; is_right_in(&rt, Trouble::Writers) == Some(true));
}

#[test]
fn calls_where_memory_is_refused(rt: HostRuntime) {
    let right = is_right_in(&rt, Trouble::Memory).or(is_right_in(&rt, Trouble::Memory));
    assert!(rt; right == Some(true));
}
