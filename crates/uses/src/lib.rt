//! Callers of the libraries, each of a few lines and proved: one file for each crate that it shows.
#![tactic(auto)]

pub mod of_ball_model;
pub mod of_batches;
pub mod of_board;
pub mod of_checkpoint;
pub mod of_edgelist;
pub mod of_figures;
pub mod of_gapcode;
pub mod of_graph;
pub mod of_job;
pub mod of_registers;
pub mod of_replica;
pub mod of_report;
pub mod of_workers;
pub mod of_world;
