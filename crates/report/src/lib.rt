//! The report of a run: what the replicas of all partitions have at its end (HyperBall 2013).
//!
//! ```text
//! superstep,0,33.803869       the neighbourhood function: pairs with a path of at most 0 edges, 1, ..
//! superstep,1,34.851860
//! end,1,limit                 the last superstep, and whether nothing changed there
//! gain,0.523995               how early pairs are reached: each further superstep counts half
//! vertex,a,11.390942,0.000000,0.000000,1.000000,15
//! ```
//!
//! [`report_ready`] says whether replicas are at the end of their run, and [`write_report`] writes their report, by all
//! processors; [`write_report_by`] does so by as many threads as are asked for.
//! [`totals_text`] and [`figures_text`] give lines of it alone. A report that is written into [`Pages`]
//! can be held back until it is whole.
#![tactic(auto)]

pub mod laws;
mod lines;
mod own;
mod pages;
mod parts;
mod ready;
mod write;

pub use own::{figures_text, totals_text};
pub use pages::Pages;
pub use ready::report_ready;
pub use write::{ReportError, write_report, write_report_by};
