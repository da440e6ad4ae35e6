//! Lists of ascending numbers as gap codes.
//!
//! [`Lists`] keeps lists of ascending numbers, as the predecessors of each vertex of a graph, in little memory: the
//! gaps between neighbours are mostly small, and a small number has a short Elias gamma code (Elias 1975). Any list
//! is found at once, and [`Elements`] walks it without memory. [`ListsBuilder`] takes one list after the other, and
//! lists that were made apart.
//! [`Lists::bytes`] and [`Lists::read`] are the one spelling of lists as bytes, both ways.
//!
//! Below them, [`BitWriter`] with [`put_gamma`] and [`BitReader`] with [`get_gamma`] write and read single codes, and
//! [`Places`] keeps where each of many pieces begins that lie one after another.
//!
//! Proved callers: `uses::of_gapcode::{length_of, spelled, predecessors, second_place, code_of, next_two}`.
#![tactic(auto)]

mod check;
mod code;
mod elements;
mod error;
pub mod laws;
mod lists;
mod places;
mod reader;
mod writer;

pub use elements::Elements;
pub use error::CodeError;
pub use lists::{Lists, ListsBuilder};
pub use places::Places;
pub use reader::{BitReader, get_gamma};
pub use writer::{BitWriter, put_gamma};
