//! The tests of these crates, apart from them, so that no crate is proved twice: checkpoint, report and board. A crate's
//! own tests would be checked as one program with all that the crate has.
#![tactic(auto)]

#[cfg(test)]
mod edges;
#[cfg(test)]
mod of_board;
#[cfg(test)]
mod of_checkpoint;
#[cfg(test)]
mod of_report;
