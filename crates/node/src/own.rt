//! The lines of one partition's vertices, as a report has them.

ghost use Rattle.std.specs.Prelude.{◌≡◌, ◌≢◌, ◌<◌, ◌%◌, Err, IfOk, OnOk};
ghost use Rattle.ball_model.specs.Held.{HasHolding};
ghost use Rattle.ball_model.specs.Job.{Job};
ghost use Rattle.ball_model.specs.Join.{Holding};
ghost use Rattle.ball_model.specs.PlanValue.{mixing_of};
ghost use Rattle.ball_model.specs.Report.{vertex_text};
ghost use Rattle.ball_model.specs.Streams.{RisesByOne};
ghost use Rattle.node.specs.NodeText.{figures_text};
ghost use Rattle.job.specs.Stream.{FailsAs};
ghost use Rattle.report.specs.Parts.{true_figures};
ghost use Rattle.world.specs.Tell.{AppendsOf};

use ball_model::CountedWrite;
use edgelist::Graph;
use figures::{Figures, closeness, lin};
use replica::{Replica, Shown};
use report::figures_text;
use std::alloc::{AllocError, Global};
use world::tell::{TellError, own_vertex, write_lines};

// The figures of vertex `x`, which the replica's partition owns.
fn figures_of(replica: &Replica, x: u32) -> Figures
    requires vertex { x < replica.now.part.plan.vertices }
    requires own { x % replica.now.part.plan.parts ≡ replica.now.part.number }
    ensures { (j : Job) (h : Holding) → HasHolding j h replica.now →
        result ≡ true_figures j h.superstep x }
{
    replica.limits();
    let tally = replica.tally(x);
    Figures {
        estimate: tally.last,
        harmonic: tally.harm,
        closeness: closeness(tally.dist),
        lin: lin(tally.last, tally.dist),
        empty: replica.empty_count(x),
    }
}

// The line of vertex `x`, which the replica's partition owns.
fn line_of(alloc: Global, graph: &Graph, replica: &Replica, x: u32) -> Result<Vec<u8>, AllocError>
    requires vertex { x < replica.now.part.plan.vertices }
    requires own { x % replica.now.part.plan.parts ≡ replica.now.part.number }
    requires graph { replica.now.part.plan.vertices ≡ graph.now.graph.vertices }
    ensures { (j : Job) (h : Holding) → HasHolding j h replica.now → IfOk result (λ text.
        text.items ≡ vertex_text (mixing_of j.plan) j.graph graph.now.labels h.superstep x) }
{
    figures_text(alloc, graph.label(x), figures_of(replica, x))
}

// Writes the line of vertex `x`, which the replica's partition owns.
fn tell_vertex<W: CountedWrite>(
    alloc: Global,
    graph: &Graph,
    replica: &Replica,
    x: u32,
    writer: &mut W,
) -> Result<(), TellError>
    requires vertex { x < replica.now.part.plan.vertices }
    requires own { x % replica.now.part.plan.parts ≡ replica.now.part.number }
    requires graph { replica.now.part.plan.vertices ≡ graph.now.graph.vertices }
    ensures done { OnOk result (AppendsOf replica.now
        (λ j h. vertex_text (mixing_of j.plan) j.graph graph.now.labels h.superstep x)
        (W.contents writer.old) (W.contents writer.new)) }
    ensures write { FailsAs W.failed_calls writer.old writer.new result (Err TellError.Write) }
{
    let text = line_of(alloc, graph, replica, x)?;
    write_lines(writer, &text)
}

/// Writes the lines of a partition's vertices, ascending, of the superstep that its replica has reached.
pub(crate) fn tell_own<W: CountedWrite>(
    alloc: Global,
    graph: &Graph,
    replica: &Replica,
    writer: &mut W,
) -> Result<(), TellError>
    requires { replica.now.part.plan.vertices ≡ graph.now.graph.vertices }
    ensures done { OnOk result (AppendsOf replica.now (λ j h. figures_text j graph.now.labels h)
        (W.contents writer.old) (W.contents writer.new)) }
    ensures write { result ≡ Err TellError.Write →
        RisesByOne (W.failed_calls writer.old) (W.failed_calls writer.new) }
    ensures written { result ≢ Err TellError.Write →
        W.failed_calls writer.new ≡ W.failed_calls writer.old }
{
    replica.limits();
    let partition = replica.partition();
    for i in 0..replica.plan().part_size(partition) {
        tell_vertex(alloc, graph, replica, own_vertex(replica, i), writer)?;
    }
    Ok(())
}
