//! Graphs of labelled vertices, the plans of jobs over them, and the parts that partitions work on.
//!
//! A [`Graph`] is made of [`Labels`] and [`Edge`]s ([`Graph::of_edges`]), of labels that are lines of a text
//! ([`Labels::of_lines`]) and lists that are coded already ([`Graph::of_lists`]), or of labels and edges one after
//! another ([`GraphBuilder`]). [`Graph::count_only`] sets which of the vertices balls count, [`Graph::plan`] gives the
//! plan of a job over a graph, and [`Graph::part`] the [`Part`] of one partition. Where all parts are made,
//! [`Graph::part_with`] makes each by [`Graph::feeds`], so that the edges are walked over once for the masks of all. It
//! also takes a plan without its digest: [`Graph::digest`] may run beside it, and [`Part::with_job`] puts the digest
//! in. [`reader_of`] reads the records of a text.
#![tactic(auto)]

mod build;
mod builder;
mod codes;
mod counting;
mod delimiter;
mod digest;
mod edge;
mod feeds;
mod graph;
mod index;
mod labels;
pub mod laws;
mod lists;
mod masks;
mod part;
mod records;
mod sort;

pub use builder::{BuildError, GraphBuilder};
pub use counting::CountedError;
pub use delimiter::Delimiter;
pub use edge::Edge;
pub use feeds::Feeds;
pub use graph::Graph;
pub use labels::{Labels, LinesError, find_label, insert_label};
pub use lists::Preds;
pub use part::Part;
pub use records::{is_blank, reader_of};
pub use sort::sort_parts;

#[cfg(test)]
mod tests;
