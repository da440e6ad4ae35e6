//! What no clause says, and no run of the program shows: refused memory, writers that fail, scripts at random or cut,
//! untrue batches, and what a watch is called with. (`tests/check` plays scripts and stories.)

mod random;
mod refusals;
mod replays;
mod untrue;
mod watched;
mod worlds;

use super::*;
