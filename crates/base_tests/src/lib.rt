//! The tests of `ball_model`, `gapcode`, `registers`, `figures` and `batches`, apart from them, so that no crate is
//! proved twice: tests are proved together with the whole crate that they are in, and this one has nothing else.
#![tactic(auto)]

#[cfg(test)]
mod of_ball_model;
#[cfg(test)]
mod of_batches;
#[cfg(test)]
mod of_figures;
#[cfg(test)]
mod of_gapcode;
#[cfg(test)]
mod of_registers;
