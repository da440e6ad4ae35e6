//! Edge lists, and the graphs that they say.
//!
//! [`read_edges`] reads a [`Graph`]: labelled vertices with their predecessors. [`read_edge_list`]
//! also counts the records. [`read_edge_list_by`] reads by threads, and calls a [`ReadWatch`]. What
//! a graph then becomes, a plan and the [`Part`]s that partitions work on, is in the crate `graph`,
//! of which this one hands on the names that its callers need. The crate `job` reads what a job
//! asks for.
//!
//! A proved caller: `uses::of_edgelist::graph_of`.
//!
//! If something follows the edge list, its reader gives the bytes of the edge list to an
//! [`EdgeReader`].
#![tactic(auto)]

mod cut;
mod key;
mod limits;
mod numbering;
mod piece;
mod pieces;
mod read;
mod reading;
mod rounds;
mod row;
mod sequential;
mod watch;

pub use graph::{CountedError, Delimiter, Feeds, Graph, Part};
pub use limits::{EdgeError, EdgeLimits, EdgeList, LARGE_LIMITS, LIMITS};
pub use pieces::EdgeReader;
pub use read::{read_edge_list, read_edge_list_by, read_edges, read_large_edge_list};
pub use watch::{ReadWatch, Unwatched};

#[cfg(test)]
mod tests;
