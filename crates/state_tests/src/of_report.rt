//! What no clause says: worked reports, and a writer that fails. Counters have 16 registers under seed 0.

ghost use Rattle.std.specs.Prelude.{◌≡◌, None, true};
ghost use Rattle.std.specs.List.{All};

mod refusals;
mod texts;

use crate::edges::graph_of;
use ball_model::{CountedWrite, CountingWriter, Taken};
use graph::{Graph, Part};
use replica::{Replica, Shown};
use report::{ReportError, report_ready, write_report, write_report_by};
use std::io::Write;
use std::random::RandomSource;
use std::sync::Arc;
use std::thread::Threads;
use std::{io, mem};

const TWO_EDGES: &[u8] = b"a\tb\nb\tc\n";

// An edge list with tabs, the superstep at which its run ends, and its report.
type Worked = (&'static [u8], u32, &'static [u8]);

const LONE_VERTEX: &[u8] = b"superstep,0,11.390942
superstep,1,11.390942
end,1,stable
gain,0.000000
vertex,x,11.390942,0.000000,0.000000,1.000000,15
";

const TWO_CYCLE: &[u8] = b"superstep,0,22.506296
superstep,1,23.560752
superstep,2,23.560752
end,2,stable
gain,0.527228
vertex,a,11.780376,0.389434,2.567829,356.356298,14
vertex,b,11.780376,0.665022,1.503709,208.680703,14
";

const QUOTED_LABELS: &[u8] = b"superstep,0,22.506296
superstep,1,23.171318
superstep,2,23.171318
end,2,stable
gain,0.332511
vertex,\"x,y\",11.390942,0.000000,0.000000,1.000000,15
vertex,\"q\"\"\",11.780376,0.665022,1.503709,208.680703,14
";

// Computed by another program, from the balls and the fractions: each gain is divided by itself, since one division
// of all gains together gives other figures here.
const PATH_OF_EIGHT: &[u8] = b"superstep,0,89.838446
superstep,1,93.259562
superstep,2,96.581154
superstep,3,99.407532
superstep,4,101.996184
superstep,5,104.340322
superstep,6,106.010779
superstep,7,107.217096
superstep,8,107.217096
end,8,stable
gain,3.164821
vertex,a,11.390942,0.000000,0.000000,1.000000,15
vertex,b,11.780376,0.665022,1.503709,208.680703,14
vertex,c,12.417153,0.751274,0.538737,83.065637,13
vertex,d,12.881345,1.033762,0.266116,44.156442,12
vertex,e,13.381592,1.032210,0.158611,28.402023,11
vertex,f,14.357333,1.146133,0.098473,20.298611,10
vertex,g,14.981565,1.491561,0.067351,15.116905,9
vertex,h,16.026790,1.470800,0.046512,11.947143,8
";

static WORKED: [Worked; 4] = [
    (b"x\n", 1, LONE_VERTEX),
    (b"a\tb\nb\ta\n", 2, TWO_CYCLE),
    (b"x,y\tq\"\n", 2, QUOTED_LABELS),
    (
        b"a\tb\nb\tc\nc\td\nd\te\ne\tf\nf\tg\ng\th\n",
        8,
        PATH_OF_EIGHT,
    ),
];

// The part of a partition.
fn part_of<H: AllocGlobal>(rt: &H, graph: &Graph, parts: u16, limit: u32, p: u16) -> Option<Part> {
    let plan = graph.plan(4, 0, parts, limit).ok()?;
    if p >= plan.parts() {
        return None;
    }
    graph.part(rt.alloc(), &plan, p).ok()
}

// A new replica of a partition.
fn replica_of<H: AllocGlobal>(
    rt: &H,
    graph: &Graph,
    parts: u16,
    limit: u32,
    p: u16,
) -> Option<Replica> {
    let part = part_of(rt, graph, parts, limit, p)?;
    let part = Arc::new(rt.alloc(), part).ok()?;
    Replica::new(rt.alloc(), part).ok()
}

// Adds a new replica of each partition.
fn add_replicas<H: AllocGlobal>(
    rt: &H,
    graph: &Graph,
    parts: u16,
    limit: u32,
    all: &mut Vec<Replica>,
) -> Option<()> {
    for p in 0..parts {
        all.push(replica_of(rt, graph, parts, limit, p)?).ok()?;
    }
    Some(())
}

// One replica takes the batch that another has for it.
fn tell<H: AllocGlobal>(rt: &H, source: &Replica, target: &mut Replica) -> Option<Taken> {
    let to = target.partition();
    if to >= source.plan().parts() || to == source.partition() {
        return None;
    }
    let batch = source.out(rt.alloc(), to).ok()?;
    let batch = Arc::new(rt.alloc(), batch).ok()?;
    target.take(batch).ok()
}

// One replica and each of some others take the batches that they have for each other.
fn tell_each<H: AllocGlobal>(rt: &H, one: &mut Replica, others: &mut [Replica]) -> Option<()> {
    for other in others.iter_mut() {
        tell(rt, one, other)?;
        tell(rt, other, one)?;
    }
    Some(())
}

// Each replica takes the batch that every other one has for it.
fn exchange<H: AllocGlobal>(rt: &H, all: &mut [Replica]) -> Option<()> {
    for i in 0..all.len() {
        let (one, others) = all[i..].split_first_mut()?;
        tell_each(rt, one, others)?;
    }
    Some(())
}

// Each replica closes its superstep.
fn close_all(all: &mut [Replica]) -> Option<()> {
    for replica in all.iter_mut() {
        replica.close().ok()?;
    }
    Some(())
}

// The replicas come to superstep `t`, and hold all batches of it.
fn run_to<H: AllocGlobal>(rt: &H, all: &mut [Replica], t: u32) -> Option<()> {
    exchange(rt, all)?;
    for _ in 0..t {
        close_all(all)?;
        exchange(rt, all)?;
    }
    Some(())
}

// Adds a replica of each partition by that number of parts and limit, and takes them on to superstep `t`.
fn start_and_run<H: AllocGlobal>(
    rt: &H,
    graph: &Graph,
    (parts, limit): (u16, u32),
    t: u32,
    all: &mut Vec<Replica>,
) -> Option<()> {
    add_replicas(rt, graph, parts, limit, all)?;
    run_to(rt, all, t)
}

// A replica of each partition, at superstep `t`.
fn replicas_at<H: AllocGlobal>(
    rt: &H,
    graph: &Graph,
    parts: u16,
    limit: u32,
    t: u32,
) -> Option<Vec<Replica>> {
    let mut all = Vec::new(rt.alloc());
    match start_and_run(rt, graph, (parts, limit), t, &mut all) {
        Some(()) => Some(all),
        None => None,
    }
}

// Whether the replicas are of a plan of this graph.
fn are_of(graph: &Graph, replicas: &[Replica]) -> bool
    ensures { result ≡ true →
        All (λ v. v.part.plan.vertices ≡ graph.now.graph.vertices) replicas.now }
{
    for replica in replicas {
        if replica.plan().vertices() != graph.vertices() {
            return false;
        }
    }
    true
}

// The answer for replicas that are ready, by at most `threads` threads, or by all processors if that is 0.
fn written<H: AllocGlobal + Threads + Sync, W: CountedWrite>(
    rt: &H,
    writer: &mut W,
    graph: &Graph,
    replicas: &[Replica],
    threads: usize,
) -> Option<Result<(), ReportError>> {
    if !report_ready(replicas) || !are_of(graph, replicas) {
        return None;
    }
    if threads == 0 {
        return Some(write_report(rt, writer, graph, replicas));
    }
    Some(write_report_by(rt, writer, graph, replicas, threads))
}

// Whether this is their report, by at most `threads` threads.
fn reports<H: AllocGlobal + Threads + Sync>(
    rt: &H,
    graph: &Graph,
    replicas: &[Replica],
    wanted: &[u8],
    threads: usize,
) -> bool {
    let mut output = Vec::new(rt.alloc());
    let answer = written(
        rt,
        &mut CountingWriter::new(&mut output),
        graph,
        replicas,
        threads,
    );
    answer == Some(Ok(())) && output.as_slice() == wanted
}

// Whether the report of a graph in `parts` partitions is the worked one.
fn is_report_of<H: AllocGlobal + Threads + Sync>(
    rt: &H,
    graph: &Graph,
    worked: &Worked,
    parts: u16,
) -> Option<bool> {
    let (_, end, wanted) = *worked;
    let all = replicas_at(rt, graph, parts, 4096, end)?;
    Some(reports(rt, graph, &all, wanted, 0) && reports(rt, graph, &all, wanted, 1))
}

// Whether it is in one to five partitions.
fn are_reports_of<H: AllocGlobal + Threads + Sync>(rt: &H, graph: &Graph, worked: &Worked) -> bool {
    let mut all = true;
    for parts in 1..6 {
        all &= is_report_of(rt, graph, worked, parts) == Some(true);
    }
    all
}

// Whether it is the report of the graph of its edge list.
fn is_worked<H: AllocGlobal + RandomSource + Threads + Sync>(rt: &H, worked: &Worked) -> bool {
    match graph_of(rt, worked.0) {
        Some(graph) => are_reports_of(rt, &graph, worked),
        None => false,
    }
}

// Which of the worked reports come out.
fn come_out<H: AllocGlobal + RandomSource + Threads + Sync>(rt: &H) -> [bool; 4] {
    let mut all = [false; 4];
    for i in 0..4 {
        all[i] = is_worked(rt, &WORKED[i]);
    }
    all
}

#[test]
fn worked_reports(rt: HostRuntime) {
    assert_eq!(rt; come_out(&rt), [true; 4]);
}

// Replicas of the two edges in two partitions, at superstep `t`.
fn two_at<H: AllocGlobal + RandomSource>(rt: &H, limit: u32, t: u32) -> Option<Vec<Replica>> {
    let graph = graph_of(rt, TWO_EDGES)?;
    replicas_at(rt, &graph, 2, limit, t)
}

// The second replicas change places.
fn swap_second(all: &mut [Replica], others: &mut [Replica]) -> Option<()> {
    mem::swap(all.get_mut(1)?, others.get_mut(1)?);
    Some(())
}

// Whether the first of these replicas and the second of others are ready together.
fn ready_with<H: AllocGlobal + RandomSource>(
    rt: &H,
    all: &mut [Replica],
    second: (u32, u32),
) -> Option<bool> {
    let mut others = two_at(rt, second.0, second.1)?;
    swap_second(all, &mut others)?;
    Some(report_ready(all))
}

// Whether the first of some replicas and the second of others are ready together.
fn ready_together<H: AllocGlobal + RandomSource>(
    rt: &H,
    first: (u32, u32),
    second: (u32, u32),
) -> Option<bool> {
    let mut all = two_at(rt, first.0, first.1)?;
    ready_with(rt, &mut all, second)
}

// The limit and the superstep of the first and of the second replica, and whether they are ready together: of one plan
// at the end they are; of two plans, before the end, or at two supersteps they are not.
static TOGETHER: [((u32, u32), (u32, u32), bool); 6] = [
    ((4096, 3), (4096, 3), true),
    ((3, 3), (3, 3), true),
    ((4096, 3), (3, 3), false),
    ((4096, 2), (4096, 2), false),
    ((4096, 3), (4096, 2), false),
    ((4096, 2), (4096, 3), false),
];

// Whether each pair is as it is to be.
fn all_together<H: AllocGlobal + RandomSource>(rt: &H) -> bool {
    let mut all = true;
    for (first, second, wanted) in &TOGETHER {
        all &= ready_together(rt, *first, *second) == Some(*wanted);
    }
    all
}

#[test]
fn ready_replicas(rt: HostRuntime) {
    assert!(rt; all_together(&rt));
}

// Whether two replicas are ready, and the first alone, none, and both out of order.
fn ready_in_order(all: &mut [Replica]) -> Option<(bool, bool, bool, bool)> {
    let (_, first) = all.split_last()?;
    let alone = report_ready(first);
    let whole = report_ready(all);
    all.reverse();
    Some((whole, alone, report_ready(&[]), report_ready(all)))
}

// Which of two replicas at the end are ready.
fn two_in_order<H: AllocGlobal + RandomSource>(rt: &H) -> Option<(bool, bool, bool, bool)> {
    let mut all = two_at(rt, 4096, 3)?;
    ready_in_order(&mut all)
}

#[test]
fn replicas_in_order(rt: HostRuntime) {
    assert!(rt; two_in_order(&rt) == Some((true, false, false, false)));
}

// A writer that takes all, a number of times, and then nothing.
#[derive(Drop)]
struct Full {
    calls: u32,
}

impl Write for Full {
    ghost contents = { λ w. None };

    fn write(&mut self, buf: &[u8]) -> io::Result<usize> {
        if self.calls == 0 {
            return Ok(0);
        }
        self.calls -= 1;
        Ok(buf.len())
    }

    fn flush(&mut self) -> io::Result<()> {
        Ok(())
    }
}

// The answer if such a writer is given.
fn written_in<H: AllocGlobal + Threads + Sync>(
    rt: &H,
    graph: &Graph,
    calls: u32,
) -> Option<Result<(), ReportError>> {
    let all = replicas_at(rt, graph, 2, 4096, 3)?;
    let mut full = Full { calls };
    written(rt, &mut CountingWriter::new(&mut full), graph, &all, 0)
}

// The answer for the two edges.
fn two_edges_in<H: AllocGlobal + RandomSource + Threads + Sync>(
    rt: &H,
    calls: u32,
) -> Option<Result<(), ReportError>> {
    let graph = graph_of(rt, TWO_EDGES)?;
    written_in(rt, &graph, calls)
}

// The report is written in two pieces, and a failure of either is answered.
static CALLS: [(u32, Result<(), ReportError>); 3] = [
    (0, Err(ReportError::Write)),
    (1, Err(ReportError::Write)),
    (2, Ok(())),
];

// Whether each is.
fn all_told<H: AllocGlobal + RandomSource + Threads + Sync>(rt: &H) -> bool {
    let mut all = true;
    for (calls, wanted) in &CALLS {
        all &= two_edges_in(rt, *calls) == Some(*wanted);
    }
    all
}

#[test]
fn full_writers(rt: HostRuntime) {
    assert!(rt; all_told(&rt));
}

// An error prints as this text.
fn prints<H: AllocGlobal>(rt: &H, error: ReportError, text: &str) -> Option<bool> {
    let told = format!(in rt.alloc(); "{error}").ok()?;
    Some(told.as_str() == text)
}

static TEXTS: [(ReportError, &str); 2] = [
    (ReportError::Memory, "out of memory"),
    (ReportError::Write, "the output cannot be written"),
];

// Whether both print so.
fn both_print<H: AllocGlobal>(rt: &H) -> bool {
    let mut both = true;
    for (error, text) in &TEXTS {
        both &= prints(rt, *error, text) == Some(true);
    }
    both
}

#[test]
fn texts_of_errors(rt: HostRuntime) {
    assert!(rt; both_print(&rt));
}
