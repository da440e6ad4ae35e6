//! Runs: nodes, a thread each, that post what changed, fetch what others posted, and close their superstep.
//!
//! [`run`] reads an edge list and writes its report, by [`RunOptions`]: a board for the job, and a thread for each replica
//! of each partition. Its [`RunError`] says why there is no report.
//!
//! A proved caller: `uses::of_workers::report_of`.
//!
//! [`run_node`] takes one node of a partition from superstep 0 to its end, over an [`Exchange`]: a board with a seat
//! ([`BoardExchange`]), or a board of one caller in memory ([`MemoryExchange`]). [`NodeOrders`] say how often it keeps
//! a snapshot, how long it waits, and whether it is lost or starts anew; [`NodeEnd`] says how it ended. A [`Gate`] is
//! called round each of its posts, and while it waits; [`run_watched`] has one that also hears how a run gets on.
//!
//! A proved caller: `uses::of_workers::lone_node`.
//!
//! A node that waits looks at the length of the history after each idle turn, and in a run it waits for nobody whose
//! nodes have all ended too early: a run that cannot reach its end says so at once. If another node of its partition
//! has kept a snapshot of a further superstep, it takes that over and goes on from there.
#![tactic(auto)]

mod assignment;
mod ends;
mod exchange;
mod gate;
mod indexed;
mod laws;
mod marks;
mod memory;
mod nodes;
mod options;
mod planned;
mod running;
mod runs;
mod shared;
mod threads;
mod worker;

pub use exchange::{BoardExchange, Exchange};
pub use gate::{Gate, OpenGate, SleepingGate};
pub use laws::{histories_are_runs, paths_are_of_nodes, replicas_are_of_runs};
pub use memory::MemoryExchange;
pub use options::RunOptions;
pub use runs::{RunError, run, run_watched};
pub use worker::node_run::{NodeEnd, NodeError, NodeOrders, run_node};

#[cfg(test)]
mod tests;
